//! Tests of the machine: instructions, memory, steps and runs. They stand apart, so that no crate is proved once more
//! for them.
#![tactic(auto)]

#[cfg(test)]
mod instructions;
#[cfg(test)]
mod memory;
#[cfg(test)]
mod runs;
#[cfg(test)]
mod steps;
