//! Laws of runs, for every Secure ROM, start, list of turns and number of steps.

ghost use Rattle.std.specs.Prelude.{◌≡◌, ℕ, suc, ◌+◌, ◌≤◌, List, [], ◌∷◌, ◌++◌, length, Option};
ghost use Rattle.cm_base.specs.declared.stop.Stop.{Stop};
ghost use Rattle.v8m_isa.specs.declared.instr.Instr.{Instr};
ghost use Rattle.ns_types.specs.declared.event.Event.{Event};
ghost use Rattle.ns_types.specs.declared.event.Bound.{Bound};
ghost use Rattle.ns_types.specs.declared.event.End.TheVariants as end;
ghost use Rattle.ns_types.specs.declared.state.Side.TheVariants as sides;
ghost use Rattle.ns_types.specs.declared.turn.Start.{Start};
ghost use Rattle.ns_types.specs.Turns.{Turn};
ghost use Rattle.ns_types.specs.State.{Device, State};
ghost use Rattle.ns_types.specs.Ram.{AreSecure};
ghost use Rattle.ns_types.specs.CRun.{Run};
ghost use Rattle.ns_types.specs.Stops.{AllHaveNoMachineStop};
ghost use Rattle.v8m_core.specs.Step.{Done, stopped, step_of, turn_of};
ghost use Rattle.v8m_core.specs.Code.{HasCode, Comes, Does};
ghost use Rattle.v8m_core.specs.Reset.{reset_of};
ghost use Rattle.ns_turns.specs.Run.{event_of, after, ends, run_of, machine_run};
ghost use Rattle.ns_turns.specs.Runs.{RunsTo, RunsToStop};
ghost use Rattle.ns_turns.specs.GoesOn.{GoesOn};
ghost use Rattle.ns_turns.specs.Moments.{KnowsRam};
ghost use Rattle.ns_turns.specs.Tells.{Tells, StacksOutside, AllTell};
ghost use Rattle.ns_turns.specs.FirstHandOver.{BeginsSealed, AlwaysHandsOverSealed};
ghost use Rattle.ns_turns.specs.Refines.{Refines, Only, OnlyDeclared, CallsFew, StopsAsProgram};
ghost use Rattle.ns_turns.specs.TwoWorlds.{TwoWorlds, AlwaysTold};
ghost use Rattle.ns_turns.specs.Unseen.{Unseen, IgnoresSecure, HasRoom};

/// At each hand-over of a run whose instructions tell what they write, Non-secure RAM is what the start, the turns and
/// the events before make of it, wherever in Secure memory the entries stand. An instruction tells them where it stacks no
/// word in that memory.
pub fn handed_ram()
    ensures ram { (device : Device) (enters : ℕ → Option ℕ) → AreSecure enters → (start : Start) (ts : List Turn) (n : ℕ) → AllTell device n ts (reset_of device start) → KnowsRam device enters start ts n }
    ensures tells { (device : Device) (s : State) → s.cpu.side ≡ sides.Secure → StacksOutside device s → Tells device s }
{}

/// Where the machine does what a program does, and what the caller sees of the program follows from its events, two
/// starts of which the program declares the same look the same to the caller.
pub fn two_worlds()
    ensures { (device : Device) (enters : ℕ → Option ℕ) (run : Start → List Turn → Bound → Run) → Refines device enters run → AlwaysTold enters run → TwoWorlds device enters run }
{}

/// A caller that drives a machine by single steps and turns sees the events of its run.
pub fn driven()
    ensures step { (device : Device) (n : ℕ) (ts : List Turn) (s : State) → s.cpu.side ≡ sides.Secure → run_of device (suc n) ts s ≡ after (step_of device s) (run_of device n ts (step_of device s).state) }
    ensures turn { (device : Device) (n : ℕ) (t : Turn) (ts : List Turn) (s : State) → s.cpu.side ≡ sides.NonSecure → run_of device (suc n) (t ∷ ts) s ≡ after (turn_of device t s) (run_of device n ts (turn_of device t s).state) }
    ensures waits { (device : Device) (n : ℕ) (s : State) → s.cpu.side ≡ sides.NonSecure → run_of device n [] s ≡ ends end.Waiting }
    ensures stopped { (device : Device) (n : ℕ) (ts : List Turn) (s : State) (x : Stop) → s.cpu.side ≡ sides.Stopped x → run_of device n ts s ≡ ends end.Stopped }
{}

/// More steps only add events, and a run that is over stays so.
pub fn more_steps()
    ensures { (device : Device) (start : Start) (ts : List Turn) (n m : ℕ) → n ≤ m → GoesOn (machine_run device start ts n) (machine_run device start ts m) }
{}

/// Runs piece by piece, with the number of steps of each.
pub fn runs()
    ensures none { (device : Device) (ts : List Turn) (s : State) → (r : RunsTo device ts s [] ts s) × (r.steps ≡ 0) }
    ensures append { (device : Device) (ts us vs : List Turn) (s t u : State) (es fs : List Event) (a : RunsTo device ts s es us t) (b : RunsTo device us t fs vs u)
        → (r : RunsTo device ts s (es ++ fs) vs u) × (r.steps ≡ a.steps + b.steps) }
    ensures append_stop { (device : Device) (ts us : List Turn) (s t : State) (es fs : List Event) (x : Stop) (a : RunsTo device ts s es us t) (b : RunsToStop device us t fs x)
        → (r : RunsToStop device ts s (es ++ fs) x) × (r.steps ≡ a.steps + b.steps) }
    ensures step { (device : Device) (ts : List Turn) (s : State) (d : Done) → s.cpu.side ≡ sides.Secure → step_of device s ≡ d
        → (r : RunsTo device ts s (event_of d.what) ts d.state) × (r.steps ≡ 1) }
    ensures step_stops { (device : Device) (ts : List Turn) (s t : State) (x : Stop) → s.cpu.side ≡ sides.Secure → step_of device s ≡ stopped x t
        → (r : RunsToStop device ts s [] x) × (r.steps ≡ 1) }
    ensures turn { (device : Device) (t : Turn) (ts : List Turn) (s : State) (d : Done) → s.cpu.side ≡ sides.NonSecure → turn_of device t s ≡ d
        → (r : RunsTo device (t ∷ ts) s (event_of d.what) ts d.state) × (r.steps ≡ 1) }
    ensures turn_stops { (device : Device) (u : Turn) (ts : List Turn) (s t : State) (x : Stop) → s.cpu.side ≡ sides.NonSecure → turn_of device u s ≡ stopped x t
        → (r : RunsToStop device (u ∷ ts) s [] x) × (r.steps ≡ 1) }
    ensures goes { (device : Device) (k : ℕ) (ts : List Turn) (s t : State) → s.cpu.side ≡ sides.Secure → Comes device k s t
        → (r : RunsTo device ts s [] ts t) × (r.steps ≡ k) }
    ensures code { (device : Device) (is : List Instr) (ts : List Turn) (s t : State) → s.cpu.side ≡ sides.Secure → HasCode device s.cpu.pc is → Does device is s t
        → (r : RunsTo device ts s [] ts t) × (r.steps ≡ length is) }
{}

/// Where for each bound there is a number of steps that show what the program shows, each number of steps shows only that,
/// for a program that has no stop that only a machine has. It is such a program where none of its events is such a stop.
pub fn only()
    ensures only { (device : Device) (enters : ℕ → Option ℕ) (run : Start → List Turn → Bound → Run) → Refines device enters run → StopsAsProgram enters run → Only device enters run }
    ensures stops { (enters : ℕ → Option ℕ) (run : Start → List Turn → Bound → Run) → ((start : Start) (ts : List Turn) (b : Bound) → AllHaveNoMachineStop (run start ts b).list) → StopsAsProgram enters run }
{}

/// Where straight code leads from reset to a step that hands over with both stacks sealed, they are sealed at the first
/// hand-over of every run.
pub fn first_hand_over()
    ensures { (device : Device) → AlwaysHandsOverSealed device → BeginsSealed device }
{}

/// No event of the machine depends on what Secure memory holds when the device is reset, where it does what a program does
/// that ignores this and never needs more stack than there is.
pub fn unseen()
    ensures { (device : Device) (enters : ℕ → Option ℕ) (run : Start → List Turn → Bound → Run) → Refines device enters run → IgnoresSecure run → HasRoom run → Unseen device }
{}

/// A machine that shows exactly what a program shows declares what the program declares.
pub fn declared()
    ensures { (device : Device) (enters : ℕ → Option ℕ) (run : Start → List Turn → Bound → Run) → Only device enters run → CallsFew run → OnlyDeclared device enters run }
{}
