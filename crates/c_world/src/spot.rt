//! Places.

/// A place (C11 6.3.2.1): a local that isn't placed, by its number, or an address.
#[derive(Clone, Copy)]
pub enum Spot {
    Unplaced(u32),
    At(u32),
}
