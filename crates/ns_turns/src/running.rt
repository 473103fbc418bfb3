ghost use Rattle.std.specs.Prelude.{◌≡◌, ◌≤◌, List, [], ◌++◌, IfOk, IsTrue, OnOk, OnErr, drop, length};
ghost use Rattle.ns_types.specs.declared.state.Side.TheVariants as sides;
ghost use Rattle.ns_types.specs.Turns as turns;
ghost use Rattle.ns_types.specs.Boundary.{acted};
ghost use Rattle.v8m_core.specs.Step.{turn_of};
ghost use Rattle.v8m_core.specs.Parts.{is_quiet};
ghost use Rattle.ns_turns.specs.Run.{ends, event_of, run_of};
ghost use Rattle.ns_turns.specs.Advance.{Advances};
ghost use Rattle.ns_turns.specs.Runs.{RunsIn};

use cm_base::{List, NoMemory};
use ns_types::{End, Event, Events, Side, Turn};
use std::alloc::Global;
use v8m_core::{Machine, Stepped};

/// One turn of Non-secure code: Went or Stopped. Its Write items change Non-secure RAM, also where it stops.
pub fn play_turn(machine: &mut Machine, turn: &Turn) -> Stepped
    requires { machine.old.state.cpu.side ≡ sides.NonSecure }
    ensures device { machine.new.device ≡ machine.old.device }
    ensures ram { machine.new.state.memory.ns_ram ≡ (acted turn.now.items machine.old.state.memory.ns_ram).ram }
    ensures quiet { IsTrue (is_quiet result) }
    ensures turn { turn_of machine.old.device turn.now machine.old.state ≡ record { state = machine.new.state; what = result } }
{
    machine.turn(turn)
}

/// Takes instructions that only go on, at most so many, and answers how many. They make no event.
fn go_on(machine: &mut Machine, most: u64) -> u64
    ensures device { machine.new.device ≡ machine.old.device }
    ensures most { result ≤ most }
    ensures steps { (ts : List turns.Turn) → RunsIn machine.old.device result ts machine.old.state [] ts machine.new.state }
{
    match machine.side() {
        Side::Secure => machine.go_on(most),
        _ => 0,
    }
}

/// One step of a run, an instruction or the next turn; or how the run ends before it.
fn advance(machine: &mut Machine, turns: &[Turn], next: &mut usize) -> Result<Stepped, End>
    ensures device { machine.new.device ≡ machine.old.device }
    ensures step { Advances machine.old.device (drop next.old turns.now) machine.old.state result (drop next.new turns.now) machine.new.state }
{
    match machine.side() {
        Side::Stopped(_) => Err(End::Stopped),
        Side::Secure => Ok(machine.step()),
        Side::NonSecure => {
            if *next >= turns.len() {
                return Err(End::Waiting);
            }
            let what = play_turn(machine, &turns[*next]);
            *next += 1;
            Ok(what)
        }
    }
}

/// How a run ends where no step is left.
#[tactic(auto, unfolding(crate::specs::Run::run_of))]
fn end_of(machine: &Machine, turns: &[Turn], next: usize) -> End
    ensures { ends result ≡ run_of machine.now.device 0 (drop next turns.now) machine.now.state }
{
    match machine.side() {
        Side::Stopped(_) => End::Stopped,
        Side::NonSecure => {
            if next >= turns.len() {
                End::Waiting
            } else {
                End::Spent
            }
        }
        Side::Secure => End::Spent,
    }
}

/// Adds the event of a step.
fn note(list: &mut List<Event>, what: Stepped) -> Result<(), NoMemory>
    ensures ok { OnOk result (list.new ≡ list.old ++ event_of what) }
    ensures err { OnErr result (list.new ≡ list.old) }
{
    match what {
        Stepped::Went => Ok(()),
        Stepped::Wrote { at, size, value } => list.push(Event::Wrote { at, size, value }),
        Stepped::Given(view) => list.push(Event::Given(view)),
        Stepped::Stopped(stop) => list.push(Event::Stopped(stop)),
    }
}

/// The events and the end of at most `n` steps of a machine, a step being an instruction or a turn. Before each step
/// a stopped machine ends Stopped, Non-secure code with no turn left ends Waiting, and no step left ends Spent.
/// After an error the machine has taken some number of steps.
pub fn run(alloc: Global, machine: &mut Machine, turns: &[Turn], n: u64) -> Result<Events, NoMemory>
    ensures device { machine.new.device ≡ machine.old.device }
    ensures run { IfOk result (λ events. events ≡ run_of machine.old.device n turns.now machine.old.state) }
{
    let mut list = List::new(alloc);
    let mut next = 0;
    let mut left = n;
    while left > 0 {
        left -= go_on(machine, left - 1);
        match advance(machine, turns, &mut next) {
            Ok(what) => note(&mut list, what)?,
            Err(end) => return Ok(Events { list, end }),
        }
        left -= 1;
    }
    let end = end_of(machine, turns, next);
    Ok(Events { list, end })
}
