//! What the names of a unit mean at a place of its text: lookups and declarations over the tables of the unit.
#![tactic(auto)]

mod blocks;
mod file_scope;
mod headers;
mod index;
mod layout;
mod lookup;
mod refresh;
mod tables;
mod tags;

pub use blocks::{
    close_block, close_parameters, complete_local, declare_local, declare_parameter, open_block,
    open_parameters,
};
pub use file_scope::{
    complete_object, declare_constant, declare_function, declare_object, declare_typedef,
    define_function,
};
pub use headers::include;
pub use index::Index;
pub use layout::{Found, member_of};
pub use lookup::{intrinsic_named, named, type_named};
pub use refresh::refreshed;
pub use tables::{
    InBlock, Known, Layout, Linkage, Meaning, Member, Scope, State, StructInfo, Tables, Tag,
    TagInBlock,
};
pub use tags::{begin_enum, begin_struct, declare_struct, end_struct, enum_use, struct_use};
