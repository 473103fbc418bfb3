/// Why the machine stopped. The fault that DDI0553 names for it stands in brackets.
#[derive(Clone, Copy, Debug, PartialEq, Eq)]
pub enum Stop {
    /// `UDF 1`: a division by 0.
    Divide,
    /// `UDF 2`: an access outside the regions that C may touch.
    Outside,
    /// `UDF 3`: an access of C at an address that isn't a multiple of its size.
    Misaligned,
    /// `UDF 4`: no room on the data stack.
    DataStack,
    /// `UDF 5`: a Non-secure call to a place outside Non-secure ROM.
    CallTarget,
    /// A Non-secure fetch at Secure memory that is no gateway (SecureFault INVEP).
    EntryPoint,
    /// A Non-secure load or store of Secure memory (SecureFault AUVIOL).
    Access,
    /// A function return that finds no return address (UsageFault INVPC).
    ReturnFault,
    /// A Non-secure fetch, load or store that no region allows.
    Astray,
    /// SP would go below MSPLIM (UsageFault STKOF).
    StackLimit,
    /// No row of the instruction table (UsageFault UNDEFINSTR).
    Undefined,
    /// A Secure load or store at an address that isn't a multiple of its size.
    Unaligned,
    /// A Secure load outside all regions, or a Secure store outside those that can be written.
    Unmapped,
    /// A Secure branch, fetch or stack pointer that the state doesn't allow.
    BadState,
}
