//! Laws over the grammar and its reading: what derives is read, or refused at its first token that is nested too deeply.
#![tactic(auto)]

pub mod laws;
