//! What is known around a part of the text.

use c_scope::Scope;

/// The innermost scope, and whether an entry function's body is around it.
#[derive(Clone, Copy, Debug, PartialEq, Eq)]
pub struct Around {
    pub scope: Scope,
    pub in_entry: bool,
}
