//! Laws on the veneers of a program's entries: where they stand, and that no later build moves them (ECM0359818, Secure gateway
//! veneers).
#![tactic(auto)]

pub mod laws;
