//! Which variables of a function of the middle form are live at each of its points, and whether places for them clash.
#![tactic(auto)]

mod clashes;
pub mod laws;
mod lives;
mod places;
mod sets;

pub use clashes::clash;
pub use lives::{Lives, Point, live_sets};
pub use places::{Places, Where};
