//! Events of the machine and of the C program, and how runs end.

use crate::View;
use cm_base::{List, Stop, Text};

/// An event of the machine.
#[derive(Clone, Copy, Debug, PartialEq, Eq)]
pub enum Event {
    /// Secure code handed over to Non-secure code.
    Given(View),
    /// Secure code wrote Non-secure RAM.
    Wrote { at: u32, size: u8, value: u32 },
    Stopped(Stop),
}

/// How a run ends.
#[derive(Clone, Copy, Debug, PartialEq, Eq)]
pub enum End {
    /// The machine, or the program, stopped.
    Stopped,
    /// No turn is left.
    Waiting,
    /// The number of steps, or the bound, is used up.
    Spent,
}

/// The events of a run and its end.
#[derive(Debug, Drop)]
pub struct Events {
    pub list: List<Event>,
    pub end: End,
}

/// An event of the C program.
#[derive(Debug, Drop)]
pub enum CEvent {
    Started,
    /// A write into Non-secure RAM.
    Wrote { at: u32, size: u8, value: u32 },
    /// The result of an entry function, which is numbered by its place among the program's entries.
    Result { entry: u32, r0: u32 },
    /// A Non-secure call.
    Called { target: u32, args: List<u32> },
    Stopped(Stop),
}

/// What stands beside an event of the C program and shows in a view alone.
#[derive(Clone, Copy, Debug, PartialEq, Eq)]
pub struct Mark {
    /// Where the event goes.
    pub exit: u32,
    /// The caller's r4 to r11.
    pub kept: [u32; 8],
    /// The Non-secure stack pointers as last set.
    pub msp_ns: u32,
    pub psp_ns: u32,
}

/// An event of the C program with what stands beside it.
#[derive(Debug, Drop)]
pub struct Marked {
    pub event: CEvent,
    pub mark: Mark,
}

/// The events of a C run, its end, and the greatest stack need of the functions active at one moment, in bytes.
#[derive(Debug, Drop)]
pub struct CEvents {
    pub list: List<CEvent>,
    pub end: End,
    pub peak: u64,
}

/// How far a C run goes: turns of a loop and entries after one scripted turn, and functions active at once.
#[derive(Clone, Copy, Debug, PartialEq, Eq)]
pub struct Bound {
    pub turns: u32,
    pub deep: u32,
}

/// The address of an entry's Secure gateway veneer.
#[derive(Debug, Drop)]
pub struct Veneer {
    pub name: Text,
    pub address: u32,
}

/// The veneers of an image, as its import library lists them.
#[derive(Debug, Drop)]
pub struct Veneers {
    pub list: List<Veneer>,
}
