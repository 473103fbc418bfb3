//! What flows through a run of a C program and what stays, and the steps of its meaning that aren't recursive.
#![tactic(auto)]

mod halt;
mod live;
mod operate;
mod places;
mod plan;
mod range;
mod setup;
mod spot;

pub use halt::Halt;
pub use live::{
    Live, clear, count, emit_called, emit_result, first_four, kept_of, reach, stop, take_turn,
};
pub use operate::{difference, operated, pointer_sum, skipped, tested, truth};
pub use places::{
    address, caller, change, first_values, home_params, local_spot, moved, read, returned, step,
    write,
};
pub use plan::{At, Gives, Plan, converted};
pub use range::checked_range;
pub use setup::{Door, Setup};
pub use spot::Spot;
