//! Tests of stores, sinks and shared nodes. They stand apart, so that no crate is proved once more for them.
#![tactic(auto)]

#[cfg(test)]
mod outside;
