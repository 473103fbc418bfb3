//! Why a run doesn't go on.

ghost use Rattle.std.specs.Prelude.{◌≡◌};
ghost use Rattle.c_world.specs.declared.halt.Halt.TheVariants as halts;

use cm_base::NoMemory;
use ns_types::End;

/// Why a run doesn't go on.
#[derive(Clone, Copy)]
pub enum Halt {
    /// The run is over.
    Over(End),
    NoMemory,
}

impl From<NoMemory> for Halt {
    ghost from_gives = { λ _ e. e ≡ halts.NoMemory };

    fn from(_e: NoMemory) -> Halt {
        Halt::NoMemory
    }
}
