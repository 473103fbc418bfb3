//! Faults of types.

ghost use Rattle.std.specs.Prelude.{◌≡◌};
ghost use Rattle.c_rows.specs.declared.fault.TypeFault.TheVariants as faults;

use cm_base::{NoMemory, Place};
use thiserror::Error;

/// Why there is no typed tree.
#[derive(Clone, Copy, Debug, PartialEq, Eq, Error)]
pub enum TypeFault {
    /// The first fault, by its code (20 to 29, 40 to 45, 50, 53, 55, 56).
    #[error("{place:?}: E{code:02}")]
    At { code: u8, place: Place },
    #[error("no memory")]
    NoMemory,
}

impl From<NoMemory> for TypeFault {
    ghost from_gives = { λ _ e. e ≡ faults.NoMemory };

    fn from(_e: NoMemory) -> TypeFault {
        TypeFault::NoMemory
    }
}

/// A fault of this code at a place.
pub fn at(code: u8, place: Place) -> TypeFault
    ensures { result ≡ faults.At code place }
{
    TypeFault::At { code, place }
}
