use cm_base::Stop;
use ns_types::View;

/// What one step was.
#[derive(Clone, Copy, Debug, PartialEq, Eq)]
pub enum Stepped {
    Went,
    /// A store into Non-secure RAM.
    Wrote { at: u32, size: u8, value: u32 },
    /// A hand-over to Non-secure code.
    Given(View),
    Stopped(Stop),
}
