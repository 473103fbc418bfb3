//! Places of variables.

use cm_base::List;

/// Where a variable stands while its function runs: in a register from 4 to 11, or in a word of the function's frame, which
/// are counted from the stack pointer on.
#[derive(Clone, Copy, Debug, PartialEq, Eq)]
pub enum Where {
    Register(u8),
    Frame(u32),
}

/// A place for each variable, in order.
#[derive(Drop)]
pub struct Places {
    pub list: List<Where>,
}
