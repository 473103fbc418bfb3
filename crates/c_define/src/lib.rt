//! What a unit defines: functions with their bodies and globals, or the first fault in the order of the text.
#![tactic(auto)]

mod functions;
mod units;

pub use functions::defined;
pub use units::{Made, parts_typed};
