//! Tests of the front end: the tokens and the syntax trees of texts. They stand apart, so that no crate is proved once
//! more for them.
#![tactic(auto)]

#[cfg(test)]
mod lexing;
#[cfg(test)]
mod parsing;
