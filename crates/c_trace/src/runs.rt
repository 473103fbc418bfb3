//! Whole runs.

ghost use Rattle.std.specs.Prelude.{◌≡◌, ◌*◌, IfOk, List, suc, length};
ghost use Rattle.ns_types.specs.Boundary as boundary;
ghost use Rattle.ns_types.specs.Marks.{events_of};
ghost use Rattle.ns_types.specs.Memory.{IsStart, ns_rom_size};
ghost use Rattle.ns_types.specs.Turns as turns;
ghost use Rattle.c_trace.specs.Trace as spec;
ghost use Rattle.c_mean.specs.Homes as homes;
ghost use Rattle.c_mean.specs.Run.{first_memory};
ghost use Rattle.c_world.specs.Seen as world;

use c_eval::{chain, phase};
use c_homes::{contents, data_stack};
use c_memory::{Flat, align, word_at};
use c_setup::prepare;
use c_tree::Program;
use c_world::{At, Halt, Live, Setup, stop};
use cm_base::{List, NoMemory, Stop};
use ns_types::{Bound, CEvent, CEvents, Mark, Marked, Start, Turn, Veneers};
use std::alloc::Global;

/// How many calls of the evaluator may nest: one for each node on the way from the body of a function to where it is, and one for
/// each active function. Where they nest deeper there is no memory for them, since the host's stack holds so many.
const NESTING: u64 = 10_000;

/// The memory that a program begins with.
fn first_memory(alloc: Global, program: &Program, start: &Start) -> Result<Flat, NoMemory>
    requires { IsStart start.now }
    ensures { IfOk result (λ m. m ≡ first_memory program.now start.now) }
{
    let bytes = contents(alloc, program.globals.as_slice())?;
    if bytes.len() > 0x1_0000 {
        return Err(NoMemory);
    }
    Flat::new(alloc, start, bytes.as_slice())
}

/// The mark of the event that the start code has run.
fn start_mark(start: &Start) -> Mark
    requires { length start.now.ns_rom ≡ ns_rom_size }
    ensures { result ≡ boundary.start_mark start.now }
{
    let rom = start.ns_rom.as_slice();
    Mark {
        exit: align(2, word_at(rom, 4)),
        kept: [0; 8],
        msp_ns: align(4, word_at(rom, 0)),
        psp_ns: 0,
    }
}

/// The world when the start code has run.
#[tactic(auto, unfolding(c_world::specs::Seen::seen))]
fn first_world(alloc: Global, mark: Mark, memory: Flat) -> Result<Live, NoMemory>
    ensures { IfOk result (λ live. (script : List turns.Turn) → world.seen script live ≡ spec.first_world mark memory script) }
{
    let mut events = List::new(alloc);
    events.push(Marked {
        event: CEvent::Started,
        mark,
    })?;
    Ok(Live {
        next: 0,
        entries: 0,
        events,
        peak: 0,
        memory,
        msp_ns: mark.msp_ns,
        psp_ns: mark.psp_ns,
    })
}

/// A run from the end of the start code on, and how it ends.
fn run(alloc: Global, setup: &Setup<'_>, at: &At, live: &mut Live, exit: u32) -> Halt
    ensures { world.IsOver result (world.seen setup.now.script live.new)
        (spec.run_at setup.now at.now exit (world.seen setup.now.script live.old)) }
{
    match run_on(alloc, setup, at, live, exit) {
        Ok(_) => stop(live, Stop::ReturnFault),
        Err(halt) => halt,
    }
}

/// How many entries may follow the start: so many for it and for each of these turns.
fn most_entries(turns: u32, many: usize) -> Result<u64, Halt>
    ensures { world.IfGiven result (turns * suc many) }
{
    match (many as u64).checked_add(1) {
        Some(all) => match (turns as u64).checked_mul(all) {
            Some(n) => Ok(n),
            None => Err(Halt::NoMemory),
        },
        None => Err(Halt::NoMemory),
    }
}

/// The same, as long as something is pending.
fn run_on(
    alloc: Global,
    setup: &Setup<'_>,
    at: &At,
    live: &mut Live,
    exit: u32,
) -> Result<u32, Halt>
    ensures { world.Gives result (world.seen setup.now.script live.new)
        (spec.first_chain setup.now at.now exit (world.seen setup.now.script live.old)) }
{
    let many = setup.script().len();
    let n = most_entries(setup.turns(), many)?;
    let goes = setup.goes(exit);
    match chain(
        alloc, setup, at, NESTING, live, exit, [0; 8], n, goes, [0; 4],
    )? {
        Some(x) => Ok(x),
        None => phase(alloc, setup, at, NESTING, live, many),
    }
}

/// The events without their marks.
fn without_marks(alloc: Global, events: List<Marked>) -> Result<List<CEvent>, NoMemory>
    ensures { IfOk result (λ list. list ≡ events_of events) }
{
    let mut list = List::new(alloc);
    for marked in events.into_vec() {
        let Marked { event, mark: _ } = marked;
        list.push(event)?;
    }
    Ok(list)
}

/// Evaluates a program for the turns of a script, where its entries are called at these veneers: each loop takes at most
/// `bound.turns` turns, at most so many entries are entered after the start and after each turn, and at most `bound.deep`
/// functions are active at once. Beyond it the run ends Spent.
pub fn trace(
    alloc: Global,
    program: &Program,
    veneers: &Veneers,
    start: &Start,
    turns: &[Turn],
    bound: Bound,
) -> Result<CEvents, NoMemory>
    requires { IsStart start.now }
    ensures { IfOk result (λ events. events ≡ spec.trace_of program.now veneers.now.list start.now turns.now bound) }
{
    let setup = prepare(alloc, program, veneers, turns, bound.turns)?;
    let memory = first_memory(alloc, program, start)?;
    let mark = start_mark(start);
    let mut live = first_world(alloc, mark, memory)?;
    let top = stack_of(program);
    let at = At {
        deep: bound.deep,
        load: 0,
        block: top,
        top,
        from_ns: false,
    };
    match run(alloc, &setup, &at, &mut live, mark.exit) {
        Halt::NoMemory => Err(NoMemory),
        Halt::Over(end) => {
            let Live { events, peak, .. } = live;
            let list = without_marks(alloc, events)?;
            Ok(CEvents { list, end, peak })
        }
    }
}

/// The address where a program's data stack begins.
fn stack_of(program: &Program) -> u32
    ensures { result ≡ homes.data_stack program.now.globals }
{
    program.within();
    data_stack(program.globals.as_slice())
}
