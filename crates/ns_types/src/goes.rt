//! Where a branch from or to Non-secure state goes.

/// Where a branch in Non-secure state, or from Secure to Non-secure state, goes (DDI0553: SG, INVEP, function return).
#[derive(Clone, Copy, Debug, PartialEq, Eq)]
pub enum Goes {
    /// An entry: the machine numbers it by its veneer's address, the C program by its place among the entries.
    Enter(u32),
    /// The function return address, FEFFFFFE.
    Return,
    /// Non-secure memory.
    Turn,
    /// Secure memory where no gateway stands.
    EntryPoint,
    /// No region.
    Astray,
}
