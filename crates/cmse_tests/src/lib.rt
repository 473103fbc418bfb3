//! Tests of the commands. They stand apart, so that no crate is proved once more for them.
#![tactic(auto)]

#[cfg(test)]
mod builds;
#[cfg(test)]
mod calls;
#[cfg(test)]
mod runs;
#[cfg(test)]
mod words;
