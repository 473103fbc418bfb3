//! What the machine does with these programs, for every name of the entry, start, list of turns and number of steps.

ghost use Rattle.std.specs.Prelude.{ℕ, ◌<◌, ◌^◌, List, Option};
ghost use Rattle.ns_types.specs.declared.event.Bound.{Bound};
ghost use Rattle.ns_types.specs.declared.turn.Start.{Start};
ghost use Rattle.ns_types.specs.Turns.{Turn};
ghost use Rattle.ns_types.specs.Bounds.{IsWithin, Extends};
ghost use Rattle.ns_types.specs.Memory.{IsStart};
ghost use Rattle.v8m_core.specs.Reset.{reset_of};
ghost use Rattle.ns_turns.specs.Refines.{Refines, Only, OnlyDeclared};
ghost use Rattle.ns_turns.specs.Moments.{AlwaysKnowsRam};
ghost use Rattle.ns_turns.specs.Tells.{AllTell};
ghost use Rattle.ns_turns.specs.TwoWorlds.{TwoWorlds};
ghost use Rattle.ns_turns.specs.FirstHandOver.{BeginsSealed};
ghost use Rattle.ns_turns.specs.Unseen.{Unseen};
ghost use Rattle.constant_entry.specs.Code.{constant_device};
ghost use Rattle.constant_entry.specs.Shows.{ShowsConstant, NeverStops};
ghost use Rattle.constant_entry.specs.Meaning.{enters_one, constant_run};

/// A first call shows two views, the start's and the result's.
pub fn first_call()
    ensures { (n : ℕ) → n < 2 ^ 32 → ShowsConstant (constant_device n) n }
{}

/// Both stacks are empty and sealed, and their limits set, at the first hand-over.
pub fn first_hand_over()
    ensures { (n : ℕ) → n < 2 ^ 32 → BeginsSealed (constant_device n) }
{}

/// The machine does what the program does, and nothing else.
pub fn refinement()
    ensures does { (name : List ℕ) (n : ℕ) → n < 2 ^ 32
        → Refines (constant_device n) (enters_one name) (constant_run (enters_one name) n) }
    ensures only { (name : List ℕ) (n : ℕ) → n < 2 ^ 32
        → Only (constant_device n) (enters_one name) (constant_run (enters_one name) n) }
    ensures declared { (name : List ℕ) (n : ℕ) → n < 2 ^ 32
        → OnlyDeclared (constant_device n) (enters_one name) (constant_run (enters_one name) n) }
{}

/// Secure code never stops: each stop of a run is one that Non-secure code makes.
pub fn never_stops()
    ensures { (n : ℕ) → n < 2 ^ 32 → NeverStops (constant_device n) }
{}

/// Two starts of which the program declares the same look the same to the caller.
pub fn two_worlds()
    ensures { (name : List ℕ) (n : ℕ) → n < 2 ^ 32
        → TwoWorlds (constant_device n) (enters_one name) (constant_run (enters_one name) n) }
{}

/// No event depends on what Secure memory holds when the device is reset.
pub fn unseen()
    ensures { (n : ℕ) → n < 2 ^ 32 → Unseen (constant_device n) }
{}

/// In every run Non-secure RAM at each hand-over is what the start, the turns and the events before make of it: no
/// instruction stacks a word there.
pub fn known_ram()
    ensures tells { (n : ℕ) → n < 2 ^ 32 → (start : Start) → IsStart start → (ts : List Turn) (k : ℕ)
        → AllTell (constant_device n) k ts (reset_of (constant_device n) start) }
    ensures ram { (name : List ℕ) (n : ℕ) → n < 2 ^ 32 → AlwaysKnowsRam (constant_device n) (enters_one name) }
{}

/// A larger bound only lets the program go further.
pub fn larger_bound()
    ensures { (enters : ℕ → Option ℕ) (n : ℕ) (start : Start) (ts : List Turn) (a b : Bound) → IsWithin a b
        → Extends (constant_run enters n start ts a) (constant_run enters n start ts b) }
{}
