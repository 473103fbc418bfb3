//! Tests of `cmse_rules` and `c_scope`. The answers are worked out from the rules of the language.
#![tactic(auto)]

#[cfg(test)]
mod rules;
#[cfg(test)]
mod tables;
