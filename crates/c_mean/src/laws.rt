//! Laws of the meaning.

ghost use Rattle.std.specs.Prelude.{ℕ, List, Option};
ghost use Rattle.ns_types.specs.Bounds.{IsWithin, GoesFurther, Extends};
ghost use Rattle.ns_types.specs.declared.event.Bound.{Bound};
ghost use Rattle.ns_types.specs.declared.event.Veneer.{Veneer};
ghost use Rattle.ns_types.specs.declared.turn.Start.{Start};
ghost use Rattle.ns_types.specs.Turns.{Turn};
ghost use Rattle.c_tree.specs.Conditions.{Program};
ghost use Rattle.c_mean.specs.Calls.{meaning};
ghost use Rattle.c_mean.specs.Run.{program_run};

/// A larger bound only lets a run go further: bodies of entries only add events, the events of a run under the smaller
/// bound are the front of those under the larger one, and both runs are the same where the smaller bound wasn't used up.
pub fn bound_law()
    ensures bodies { (p : Program) (enters : ℕ → Option ℕ) → GoesFurther (meaning p enters) }
    ensures runs { (p : Program) (veneers : List Veneer) (start : Start) (ts : List Turn) (a b : Bound) → IsWithin a b
        → Extends (program_run p veneers start ts a) (program_run p veneers start ts b) }
{}
