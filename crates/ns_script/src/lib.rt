//! Scripts of Non-secure turns as text, and transcripts of what a run shows.
//!
//! A script says what memory holds when the device is reset, and then the turns of the Non-secure caller.
//! A transcript has a line for each event of a run, and a line for its end; that of a C run has a last one for its peak.
#![tactic(auto)]

mod fault;
mod line;
mod script;
mod text;
mod transcript;
mod turn;

pub use fault::ScriptFault;
pub use script::read_script;
pub use transcript::{print_events, print_trace};
