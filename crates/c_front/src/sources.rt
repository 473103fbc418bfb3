//! Sources, and why they are refused.

ghost use Rattle.std.specs.Prelude.{◌≡◌, Ok, Err};
ghost use Rattle.c_front.specs.declared.sources.BuildFault.TheVariants as faults;

use cm_base::{Bytes, NoMemory, Refusal, Text};
use thiserror::Error;

/// A source: the name of its file, and what stands in it.
#[derive(Drop)]
pub struct Source {
    pub name: Text,
    pub bytes: Bytes,
}

/// Why there is no program.
#[derive(Debug, Drop, Error)]
pub enum BuildFault {
    /// The first fault.
    #[error("{0}")]
    Refused(Refusal),
    #[error("no memory")]
    NoMemory,
}

impl From<NoMemory> for BuildFault {
    ghost from_gives = { λ _ e. e ≡ faults.NoMemory };

    fn from(_e: NoMemory) -> BuildFault {
        BuildFault::NoMemory
    }
}
