//! The middle form of typed trees, as a definition: the code of expressions, of statements, of functions and of programs.
#![tactic(auto)]
