use cm_base::{NoMemory, Text};
use thiserror::Error;

/// Why objects weren't linked.
#[derive(Debug, Drop, Error)]
pub enum LinkFault {
    /// The first name of the old import library that isn't an entry.
    #[error("an old entry is gone")]
    Gone(Text),
    /// The first veneer of the old import library that doesn't stand at a multiple of 8 in the Non-secure callable region, or
    /// stands where an earlier one does.
    #[error("an old entry is misplaced at {address:08x}")]
    BadAddress { name: Text, address: u32 },
    #[error("no memory")]
    NoMemory,
}

impl From<NoMemory> for LinkFault {
    ghost use Rattle.std.specs.Prelude.{◌≡◌};
    ghost use Rattle.veneer_link.specs.declared.fault.LinkFault.TheVariants as fault;

    ghost from_gives = { λ _ e. e ≡ fault.NoMemory };

    fn from(_e: NoMemory) -> LinkFault {
        LinkFault::NoMemory
    }
}
