//! The rules of the Security Extensions for C (ECM0359818): attributes, names that are reserved, Non-secure function types,
//! pointers to Secure functions, and entry functions.
#![tactic(auto)]

mod attributes;
mod entry;
mod names;
mod pointers;

pub use attributes::{Attributes, Subject, attribute_of, attributes_of};
pub use entry::{entry_fault, entry_rule};
pub use names::is_reserved;
pub use pointers::{has_secure_pointer, nonsecure_declared, nonsecure_marked, reached_params};
