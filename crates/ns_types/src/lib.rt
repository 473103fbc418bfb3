//! The types that the machine and the C side share: turns, views, events, the machine's state,
//! and the boundary between Non-secure and Secure code.
#![tactic(auto)]

mod event;
mod goes;
pub mod laws;
mod state;
mod turn;

pub use event::{Bound, CEvent, CEvents, End, Event, Events, Mark, Marked, Veneer, Veneers};
pub use goes::Goes;
pub use state::{Cpu, Regs, Side};
pub use turn::{Item, Start, Turn, View};
