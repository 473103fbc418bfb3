//! Tests of objects and of the linker. They stand apart, so that no crate is proved once more for them.
#![tactic(auto)]

#[cfg(test)]
mod libraries;
#[cfg(test)]
mod objects;
