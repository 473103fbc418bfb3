//! Tests of the middle form: costs and numbers of statements, worked out by hand.
#![tactic(auto)]

#[cfg(test)]
mod costs;
