//! Scripts and transcripts.

use cm_base::{Bytes, List, NoMemory, Stop, Text};
use ns_script::{ScriptFault, print_events, print_trace, read_script};
use ns_types::{CEvent, CEvents, End, Event, Events, Item, Start, Turn, View};
use std::alloc::Global;
use std::test::Fail;

/// The line at which a script is bad, or 0.
fn bad_at(alloc: Global, text: &str) -> u32 {
    if text.len() > 10_000 {
        return u32::MAX;
    }
    match read_script(alloc, text.as_bytes()) {
        Ok(_) => 0,
        Err(ScriptFault::BadLine(k)) => k,
        Err(ScriptFault::NoMemory) => u32::MAX,
    }
}

/// Whether this line is the first bad one of a script, or none is and it is 0.
fn is_bad_at(alloc: Global, text: &str, line: u32) -> bool {
    bad_at(alloc, text) == line
}

#[test]
fn first_bad_lines(rt: HostRuntime) -> Result<(), Fail> {
    let alloc = rt.alloc();
    assert!(rt; is_bad_at(alloc, "", 1));
    assert!(rt; is_bad_at(alloc, "cmse-script 2\n", 1));
    assert!(rt; is_bad_at(alloc, "cmse-script 1", 0));
    assert!(rt; is_bad_at(alloc, "cmse-script 1\r\nfill ff\r\n", 0));
    assert!(rt; is_bad_at(alloc, "cmse-script 1\n\n# any  thing \n", 0));
    assert!(rt; is_bad_at(alloc, "cmse-script 1\nfill FF\n", 0));
    assert!(rt; is_bad_at(alloc, "cmse-script 1\nfill 0\r", 2));
    assert!(rt; is_bad_at(alloc, "cmse-script 1\nfill 100\n", 2));
    assert!(rt; is_bad_at(alloc, "cmse-script 1\nfill  0\n", 2));
    assert!(rt; is_bad_at(alloc, "cmse-script 1\nfill 0 \n", 2));
    assert!(rt; is_bad_at(alloc, "cmse-script 1\n fill 0\n", 2));
    assert!(rt; is_bad_at(alloc, "cmse-script 1\nsecure 3000ffff 0000\n", 0));
    assert!(rt; is_bad_at(alloc, "cmse-script 1\nsecure 30019fff 0000\n", 2));
    assert!(rt; is_bad_at(alloc, "cmse-script 1\nsecure 30000000 000\n", 2));
    assert!(rt; is_bad_at(alloc, "cmse-script 1\nram 2001ffff 00\n", 0));
    assert!(rt; is_bad_at(alloc, "cmse-script 1\nram 2001ffff 0000\n", 2));
    assert!(rt; is_bad_at(alloc, "cmse-script 1\nrom 3ffff 00\n", 0));
    assert!(rt; is_bad_at(alloc, "cmse-script 1\nrom 40000 00\n", 2));
    Ok(())
}

#[test]
fn first_bad_lines_of_turns(rt: HostRuntime) -> Result<(), Fail> {
    let alloc = rt.alloc();
    assert!(rt; is_bad_at(alloc, "cmse-script 1\nturn 103ff00g", 2));
    assert!(rt; is_bad_at(alloc, "cmse-script 1\nturn 101\nfill 0\n", 3));
    assert!(rt; is_bad_at(alloc, "cmse-script 1\nturn 101\nrom 0 00\n", 3));
    assert!(rt; is_bad_at(alloc, "cmse-script 1\nturn 00000101\n", 0));
    assert!(rt; is_bad_at(alloc, "cmse-script 1\nturn 000000101\n", 2));
    assert!(rt; is_bad_at(alloc, "cmse-script 1\nturn 101 r0=1 r1=1 r0=1\n", 2));
    assert!(rt; is_bad_at(alloc, "cmse-script 1\nturn 101 flags=1f psp=0\n", 0));
    assert!(rt; is_bad_at(alloc, "cmse-script 1\nturn 101 flags=20\n", 2));
    assert!(rt; is_bad_at(alloc, "cmse-script 1\nturn 101 put=20000000:100\n", 2));
    assert!(rt; is_bad_at(alloc, "cmse-script 1\nturn 101 r13=0\n", 2));
    assert!(rt; is_bad_at(alloc, "cmse-script 1\nturn 101 r0=\n", 2));
    Ok(())
}

/// Whether the memory is that of the script below.
fn is_start(start: &Start) -> bool {
    start.ns_rom.get(3).copied() == Some(0x20)
        && start.ns_rom.len() == 0x4_0000
        && start.ns_ram.len() == 0x2_0000
        && start.secure_ram.len() == 0x1_a000
        && start.secure_ram.get(7).copied() == Some(0x5a)
        && start.secure_ram.get(9).copied() == Some(0xff)
        && start.secure_ram.get(10).copied() == Some(0x5a)
}

/// Whether the turn is that of the script below.
fn is_turn(turn: &Turn) -> bool {
    let items = [
        Item::Read { at: 0x10 },
        Item::Write {
            at: 0x2000_0000,
            byte: 7,
        },
    ];
    turn.r == [0, 0x11, 0, 0, 0, 0, 0, 0, 0, 0, 0, 0, 0x44]
        && turn.target == 0x103f_f000
        && turn.lr == 0x201
        && turn.nzcvq == 31
        && turn.msp_ns == 0x2002_0000
        && turn.psp_ns == 0
        && turn.items.as_slice() == items.as_slice()
}

/// Whether there is one turn, that of the script below.
fn are_turns(turns: &[Turn]) -> bool {
    match turns {
        [turn] => is_turn(turn),
        _ => false,
    }
}

const SCRIPT: &[u8] =
    b"cmse-script 1\nrom 0 0000022001010000\nfill 5a\nsecure 30000008 01ff\nturn 103ff000 r1=11 r12=44 lr=201 flags=1f msp=20020000 get=10 put=20000000:7\n";

fn is_script_read(alloc: Global) -> bool {
    match read_script(alloc, SCRIPT) {
        Ok((start, turns)) => is_start(&start) && are_turns(turns.as_slice()),
        Err(_fault) => false,
    }
}

#[test]
fn a_script(rt: HostRuntime) -> Result<(), Fail> {
    assert!(rt; is_script_read(rt.alloc()));
    Ok(())
}

/// The text of these events.
fn printed(alloc: Global, events: &[Event], end: End) -> Result<Bytes, NoMemory> {
    let list = List::from_slice(alloc, events)?;
    print_events(alloc, &Events { list, end })
}

/// Whether the text of these events is this.
fn prints(alloc: Global, events: &[Event], end: End, want: &str) -> bool {
    match printed(alloc, events, end) {
        Ok(text) => text.as_slice() == want.as_bytes(),
        Err(_memory) => false,
    }
}

#[test]
fn a_transcript(rt: HostRuntime) -> Result<(), Fail> {
    let given = View {
        r: [0x2a, 0, 0, 0, 0, 0, 0, 0, 0, 0, 0, 0, 0],
        lr: 0x200,
        pc: 0x200,
        nzcvq: 31,
        msp_ns: 0x2002_0000,
        psp_ns: 0,
    };
    let wrote = Event::Wrote {
        at: 0x2000_0000,
        size: 4,
        value: 7,
    };
    let all = [Event::Given(given), wrote, Event::Stopped(Stop::EntryPoint)];
    let want =
        "given pc=00000200 r0=0000002a r1=00000000 r2=00000000 r3=00000000 r4=00000000 r5=00000000 r6=00000000 r7=00000000 r8=00000000 r9=00000000 r10=00000000 r11=00000000 r12=00000000 lr=00000200 flags=1f msp=20020000 psp=00000000\nwrote at=20000000 size=4 value=00000007\nstopped EntryPoint\nend stopped\n";
    assert!(rt; prints(rt.alloc(), &all, End::Stopped, want));
    Ok(())
}

/// A Non-secure call with one argument.
fn called(alloc: Global) -> Result<CEvent, NoMemory> {
    let args = List::from_slice(alloc, &[5, 0xFFFF_8000])?;
    Ok(CEvent::Called {
        target: 0x300,
        args,
    })
}

/// The events of a C run.
fn c_events(alloc: Global) -> Result<CEvents, NoMemory> {
    let wrote = CEvent::Wrote {
        at: 0x2000_0000,
        size: 4,
        value: 7,
    };
    let mut list = List::new(alloc);
    list.push(CEvent::Started)?;
    list.push(wrote)?;
    list.push(CEvent::Result { entry: 1, r0: 0x2a })?;
    list.push(called(alloc)?)?;
    list.push(CEvent::Stopped(Stop::CallTarget))?;
    Ok(CEvents {
        list,
        end: End::Stopped,
        peak: 35_924,
    })
}

/// The names of two entries.
fn entries(alloc: Global) -> Result<List<Text>, NoMemory> {
    let mut names = List::new(alloc);
    names.push(Text::from_slice(alloc, b"first")?)?;
    names.push(Text::from_slice(alloc, b"sum")?)?;
    Ok(names)
}

fn traced(alloc: Global) -> Result<Bytes, NoMemory> {
    let events = c_events(alloc)?;
    let names = entries(alloc)?;
    print_trace(alloc, &events, names.as_slice())
}

/// Whether the text of the C run is this.
fn traces(alloc: Global, want: &str) -> bool {
    match traced(alloc) {
        Ok(text) => text.as_slice() == want.as_bytes(),
        Err(_memory) => false,
    }
}

#[test]
fn a_transcript_of_c(rt: HostRuntime) -> Result<(), Fail> {
    let want =
        "started\nwrote at=20000000 size=4 value=00000007\nresult sum 0000002a\ncalled 00000300 00000005 ffff8000\nstopped CallTarget\nend stopped\npeak 35924\n";
    assert!(rt; traces(rt.alloc(), want));
    Ok(())
}
