//! What the readers of a source share: attributes, trees made of their parts, and what is answered where no counted part
//! may be entered.
#![tactic(auto)]

pub mod attrs;
pub mod levels;
pub mod nodes;
