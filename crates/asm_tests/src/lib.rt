//! Tests of code with labels. They stand apart, so that no crate is proved once more for them.
#![tactic(auto)]

#[cfg(test)]
mod fixing;
