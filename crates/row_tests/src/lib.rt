//! Tests of constants and of what operations make of typed operands. The answers are worked out from the rules of the language.
#![tactic(auto)]

#[cfg(test)]
mod constants;
#[cfg(test)]
mod operands;
#[cfg(test)]
mod operations;
