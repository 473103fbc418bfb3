//! Tests of traces. The programs are trees made by hand; what they do is worked out from the rules of the language and of the
//! boundary.
#![tactic(auto)]

#[cfg(test)]
mod programs;
#[cfg(test)]
mod runs;
#[cfg(test)]
mod trees;
