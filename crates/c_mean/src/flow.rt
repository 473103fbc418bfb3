//! How a statement ends.

/// How a statement ends where the run goes on (C11 6.8).
#[derive(Clone, Copy, Debug, PartialEq, Eq)]
pub enum Flow {
    Next,
    Break,
    Continue,
    /// With the value, which is 0 where there is none.
    Return(u32),
}
