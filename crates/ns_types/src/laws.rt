//! Laws of the definitions.

ghost use Rattle.std.specs.Prelude.{◌≡◌, ℕ, suc, ◌*◌, ◌≤◌, Bool, true, take, length, List, Option};
ghost use Rattle.ns_types.specs.declared.event.Bound.{Bound};
ghost use Rattle.ns_types.specs.declared.event.CEvent.{CEvent};
ghost use Rattle.ns_types.specs.declared.event.Event.{Event};
ghost use Rattle.ns_types.specs.declared.event.Marked.{Marked};
ghost use Rattle.ns_types.specs.declared.goes.Goes.{Goes};
ghost use Rattle.ns_types.specs.declared.turn.Start.{Start};
ghost use Rattle.ns_types.specs.Turns.{Turn};
ghost use Rattle.ns_types.specs.State.{Memory};
ghost use Rattle.ns_types.specs.Platform.{lies_in};
ghost use Rattle.ns_types.specs.Prefix.{IsFront};
ghost use Rattle.ns_types.specs.Range.{all_in};
ghost use Rattle.ns_types.specs.CRun.{World, Outcome, chain, phase, c_run, run_of};
ghost use Rattle.ns_types.specs.Bounds.{world_of, Adds, Reaches, Meaning, IsWithin, GoesFurther, Extends};
ghost use Rattle.ns_types.specs.Every.{EveryEvent, Passes, HoldsAtBoundary, Keep};
ghost use Rattle.ns_types.specs.Stops.{is_clean, AllHaveNoMachineStop, KeepClean};
ghost use Rattle.ns_types.specs.Alike.{AlikeBodies, AlikePhases, AlikeRuns};
ghost use Rattle.ns_types.specs.Counters.{IsEnough, GoesOn, OnlyGoOn, run_by};
ghost use Rattle.ns_types.specs.Show.{show, events_shown};
ghost use Rattle.ns_types.specs.Marks.{Tracker, first_tracker, events_of, IsTold, AreTracked};
ghost use Rattle.ns_types.specs.Declares.{AllHaveFewArguments, DeclaresFront, KeepFew};

/// All bytes of a range lie in a row exactly where its first and its last one do.
pub fn whole_range()
    ensures { (k p n : ℕ) → all_in k p (suc n) ≡ lies_in k p (suc n) }
{}

/// Under a larger bound a run's events begin with those of the smaller one, and the run is the same where the smaller
/// bound wasn't used up.
pub fn larger_bound()
    ensures { (meaning : Meaning) → GoesFurther meaning → (enters : ℕ → Option ℕ) (start : Start) (memory : Memory) (ts : List Turn) (a b : Bound) → IsWithin a b
        → Extends (run_of (c_run enters (meaning a) a.turns start memory ts)) (run_of (c_run enters (meaning b) b.turns start memory ts)) }
{}

/// What the caller sees of a run follows from its events, the turns and where Non-secure code begins, for bodies of
/// entries that keep to this; so equal first events of two runs show the same.
pub fn marks_follow()
    ensures told { (enters : ℕ → Option ℕ) (enter : ℕ → List ℕ → World → Outcome) → AreTracked enters enter → (turns : ℕ) (start : Start) (memory : Memory) (ts : List Turn)
        → IsTold enters (first_tracker start ts) (run_of (c_run enters enter turns start memory ts)).list }
    ensures same { (enters : ℕ → Option ℕ) (first : Tracker) (a b : List Marked) (n : ℕ) → IsTold enters first a → IsTold enters first b
        → take n (events_of a) ≡ take n (events_of b) → show enters (take n a) ≡ show enters (take n b) }
{}

/// A phase only adds events where bodies do, and under a larger bound it goes at least as far where bodies do.
pub fn phases()
    ensures adds { (enters : ℕ → Option ℕ) (enter : ℕ → List ℕ → World → Outcome)
        → ((e : ℕ) (args : List ℕ) (w : World) → Adds w (enter e args w)) → (turns fuel : ℕ) (w : World)
        → Adds w (phase enters enter turns fuel w) }
    ensures further { (enters : ℕ → Option ℕ) (low high : ℕ → List ℕ → World → Outcome)
        → ((e : ℕ) (args : List ℕ) (w : World) → Adds w (high e args w))
        → ((e : ℕ) (args : List ℕ) (w : World) → Reaches (low e args w) (high e args w))
        → (turns turns' : ℕ) → turns ≤ turns' → (fuel : ℕ) (w : World)
        → Reaches (phase enters low turns fuel w) (phase enters high turns' fuel w) }
    ensures both { (meaning : Meaning) → GoesFurther meaning → (enters : ℕ → Option ℕ) (a b : Bound) → IsWithin a b → (fuel : ℕ) (w : World)
        → Adds w (phase enters (meaning b) b.turns fuel w)
        × Reaches (phase enters (meaning a) a.turns fuel w) (phase enters (meaning b) b.turns fuel w) }
{}

/// A test that each event of the boundary passes, and to which bodies of entries keep, each event of a run passes; and
/// each event behind a phase, where those before it do.
pub fn every_event()
    ensures runs { (p : CEvent → Bool) → HoldsAtBoundary (Passes p) → (enters : ℕ → Option ℕ) (enter : ℕ → List ℕ → World → Outcome)
        → Keep (Passes p) enter → (turns : ℕ) (start : Start) (memory : Memory) (ts : List Turn)
        → EveryEvent (Passes p) (run_of (c_run enters enter turns start memory ts)).list }
    ensures phases { (p : CEvent → Bool) → HoldsAtBoundary (Passes p) → (enters : ℕ → Option ℕ) (enter : ℕ → List ℕ → World → Outcome)
        → Keep (Passes p) enter → (turns fuel : ℕ) (w : World) → EveryEvent (Passes p) w.events
        → EveryEvent (Passes p) (world_of (phase enters enter turns fuel w)).events }
{}

/// A run shows no stop that only a machine has where its events have none, and these have none where bodies of entries
/// keep to that.
pub fn clean()
    ensures events { (enters : ℕ → Option ℕ) (ms : List Marked) → AllHaveNoMachineStop ms → is_clean (events_shown (show enters ms)) ≡ true }
    ensures runs { (enters : ℕ → Option ℕ) (enter : ℕ → List ℕ → World → Outcome) → KeepClean enter
        → (turns : ℕ) (start : Start) (memory : Memory) (ts : List Turn)
        → AllHaveNoMachineStop (run_of (c_run enters enter turns start memory ts)).list }
{}

/// Bodies that differ in their need of stack alone make phases and runs that do, and where the second ones need no more,
/// neither do these.
pub fn alike()
    ensures phases { (enters : ℕ → Option ℕ) (one two : ℕ → List ℕ → World → Outcome) → AlikeBodies one two → (turns fuel : ℕ)
        → AlikePhases (phase enters one turns fuel) (phase enters two turns fuel) }
    ensures runs { (enters : ℕ → Option ℕ) (one two : ℕ → List ℕ → World → Outcome) → AlikeBodies one two
        → (turns : ℕ) (start : Start) (memory : Memory) (ts : List Turn)
        → AlikeRuns (run_of (c_run enters one turns start memory ts)) (run_of (c_run enters two turns start memory ts)) }
{}

/// What chains and phases recurse on is never used up, where bodies of entries only go on: each number that is enough
/// gives the same outcome. Chains and phases of such bodies only go on too, on which bodies that go on with a phase rest.
pub fn counters()
    ensures chains { (enters : ℕ → Option ℕ) (enter : ℕ → List ℕ → World → Outcome) → OnlyGoOn enter
        → (next : World → Outcome) (turns exit : ℕ) (kept : List ℕ) (n m : ℕ) (g : Goes) (args : List ℕ) (w : World)
        → IsEnough turns n w → IsEnough turns m w
        → chain enters enter next turns exit kept n g args w ≡ chain enters enter next turns exit kept m g args w }
    ensures phases { (enters : ℕ → Option ℕ) (enter : ℕ → List ℕ → World → Outcome) → OnlyGoOn enter
        → (turns fuel fuel' : ℕ) (w : World) → length w.turns ≤ fuel → length w.turns ≤ fuel'
        → phase enters enter turns fuel w ≡ phase enters enter turns fuel' w }
    ensures runs { (enters : ℕ → Option ℕ) (enter : ℕ → List ℕ → World → Outcome) → OnlyGoOn enter
        → (turns : ℕ) (start : Start) (memory : Memory) (ts : List Turn) (fuel n : ℕ)
        → length ts ≤ fuel → turns * suc (length ts) ≤ n
        → c_run enters enter turns start memory ts ≡ run_by enters enter turns fuel n start memory ts }
    ensures chains_go_on { (enters : ℕ → Option ℕ) (enter : ℕ → List ℕ → World → Outcome) → OnlyGoOn enter
        → (next : World → Outcome) → ((w : World) → GoesOn w (next w))
        → (turns exit : ℕ) (kept : List ℕ) (n : ℕ) (g : Goes) (args : List ℕ) (w : World)
        → GoesOn w (chain enters enter next turns exit kept n g args w) }
    ensures phases_go_on { (enters : ℕ → Option ℕ) (enter : ℕ → List ℕ → World → Outcome) → OnlyGoOn enter
        → (turns fuel : ℕ) (w : World) → GoesOn w (phase enters enter turns fuel w) }
{}

/// Events that are exactly the first ones that a run shows declare what the program declares, where each of its calls
/// has at most four arguments; so it is in a run where bodies of entries keep to that.
pub fn declared()
    ensures front { (enters : ℕ → Option ℕ) (ms : List Marked) (events : List Event) → AllHaveFewArguments ms → IsFront events (events_shown (show enters ms)) → DeclaresFront events (show enters ms) }
    ensures few { (enters : ℕ → Option ℕ) (enter : ℕ → List ℕ → World → Outcome) → KeepFew enter → (turns : ℕ) (start : Start) (memory : Memory) (ts : List Turn)
        → AllHaveFewArguments (run_of (c_run enters enter turns start memory ts)).list }
{}
