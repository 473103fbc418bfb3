//! A parameter's declarator, with its name or without one.

use c_ast::{Abstract, Declarator};

#[derive(Drop)]
pub enum Either {
    Named(Declarator),
    Unnamed(Abstract),
}
