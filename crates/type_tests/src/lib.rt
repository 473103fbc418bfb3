//! Tests of the types of C. The answers are worked out from the rules of the language.
#![tactic(auto)]

#[cfg(test)]
mod arithmetic;
#[cfg(test)]
mod types;
