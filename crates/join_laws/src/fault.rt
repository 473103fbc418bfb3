//! Why units don't join.

ghost use Rattle.std.specs.Prelude.{◌≡◌};

use cm_base::{NoMemory, Text};
use thiserror::Error;

/// Why units don't join to a program.
#[derive(Debug, Drop, Error)]
pub enum JoinFault {
    /// 61: a name has two definitions. 62: its types differ between units. 60: it is used and has no definition.
    #[error("E{code} {name:?}")]
    Named { code: u8, name: Text },
    /// 51: too many nodes. 52: too many bytes of globals. 54: too many entry functions. `found` is how many there are.
    #[error("E{code} {found}")]
    Count { code: u8, found: u64 },
    #[error("out of memory")]
    NoMemory,
}

impl From<NoMemory> for JoinFault {
    ghost use Rattle.join_laws.specs.declared.fault.JoinFault.TheVariants as faults;

    ghost from_gives = { λ _ e. e ≡ faults.NoMemory };

    fn from(_: NoMemory) -> JoinFault {
        JoinFault::NoMemory
    }
}
