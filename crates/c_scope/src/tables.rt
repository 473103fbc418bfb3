//! The tables of a unit.

ghost use Rattle.std.specs.Prelude.{◌≡◌, true, []};
ghost use Rattle.c_scope.specs.Lookup as spec;

use crate::index::Index;
use c_names::Ident;
use c_rows::Intrinsic;
use c_tree::TLocal;
use c_types::CType;
use cm_base::{List, Place, Text};
use std::alloc::Global;

/// What an ordinary name of file scope means.
#[derive(Drop)]
pub enum Meaning {
    /// A function or a global, by its number in `externs`.
    Extern(u32),
    /// An enumeration constant.
    Constant(u32),
    /// `NULL`
    Null,
    Typedef(CType),
    /// A call of arm_cmse.h.
    Intrinsic(Intrinsic),
}

/// A name of a block or of a parameter list, and its number in `locals`.
#[derive(Drop)]
pub struct InBlock {
    pub name: Text,
    pub local: u32,
}

/// What a tag means: a struct by its number in `structs`, or an enum.
#[derive(Clone, Copy, Debug, PartialEq, Eq)]
pub enum Tag {
    Struct(u32),
    Enum,
}

/// A tag that a block declares.
#[derive(Drop)]
pub struct TagInBlock {
    pub name: Text,
    pub tag: Tag,
}

/// A struct; one without a tag has an empty one. Its size and alignment are in bytes, and 0 until its members are known.
#[derive(Drop)]
pub struct StructInfo {
    pub tag: Text,
    pub size: u32,
    pub align: u32,
    pub members: List<Member>,
    /// Whether its list of members has begun.
    pub is_defined: bool,
}

/// A member of a struct, and how many bytes into it the member begins.
#[derive(Drop)]
pub struct Member {
    pub name: Text,
    pub ctype: CType,
    pub offset: u32,
}

/// The members of a struct so far. The size is where the last one ends, or 49,153 where that is beyond 49,152 bytes; the
/// alignment is the greatest of theirs, and 0 where there is none.
#[derive(Drop)]
pub struct Layout {
    pub members: List<Member>,
    pub size: u32,
    pub align: u32,
}

/// What the declarations of a function or a global say together.
#[derive(Clone, Copy, Debug, PartialEq, Eq)]
pub struct State {
    /// One of them is `static`.
    pub is_static: bool,
    /// One of them isn't `extern`.
    pub is_plain: bool,
    /// One of them has `cmse_nonsecure_entry`.
    pub is_entry: bool,
    /// It is a function whose body was seen.
    pub has_body: bool,
}

/// A function or a global that the unit declares, with its first declaration's type and place.
#[derive(Drop)]
pub struct Known {
    pub name: Ident,
    pub ctype: CType,
    pub place: Place,
    pub state: State,
}

/// What one declaration of a function or a global says.
#[derive(Clone, Copy, Debug, PartialEq, Eq)]
pub struct Linkage {
    pub is_static: bool,
    pub is_extern: bool,
    pub is_entry: bool,
}

/// Where the innermost scope begins in the lists of names, tags and locals.
#[derive(Clone, Copy, Debug, PartialEq, Eq)]
pub struct Scope {
    pub names: usize,
    pub tags: usize,
    pub locals: usize,
    /// Whether tags belong to file scope: there, and in parameter lists there.
    pub is_file: bool,
}

/// What is known at a place of the text.
#[derive(Drop)]
pub struct Tables {
    /// The ordinary names of file scope, in order, and what each means.
    pub names: Index,
    pub meanings: List<Meaning>,
    /// The names of parameter lists and blocks that are open here, the innermost last.
    pub blocks: List<InBlock>,
    /// The parameters and locals of the function at hand, in order of declaration.
    pub locals: List<TLocal>,
    /// The tags of file scope, in order, and what each means.
    pub tags: Index,
    pub tag_meanings: List<Tag>,
    /// The tags of the blocks that are open here, the innermost last.
    pub block_tags: List<TagInBlock>,
    /// All structs, in order of first sight.
    pub structs: List<StructInfo>,
    /// All functions and globals, in order of first sight.
    pub externs: List<Known>,
    /// Which headers were included.
    pub has_std_int: bool,
    pub has_arm_cmse: bool,
}

impl Scope {
    /// File scope.
    pub fn file() -> Scope
        ensures { result ≡ record { names = 0; tags = 0; locals = 0; is_file = true } }
    {
        Scope {
            names: 0,
            tags: 0,
            locals: 0,
            is_file: true,
        }
    }
}

impl Tables {
    /// Nothing is declared.
    pub fn new(alloc: Global) -> Tables
        ensures { result ≡ spec.nothing }
    {
        Tables {
            names: Index::new(alloc),
            meanings: List::new(alloc),
            blocks: List::new(alloc),
            locals: List::new(alloc),
            tags: Index::new(alloc),
            tag_meanings: List::new(alloc),
            block_tags: List::new(alloc),
            structs: List::new(alloc),
            externs: List::new(alloc),
            has_std_int: false,
            has_arm_cmse: false,
        }
    }
}

impl Layout {
    /// No members.
    pub fn new(alloc: Global) -> Layout
        ensures { result ≡ record { members = []; size = 0; align = 0 } }
    {
        Layout {
            members: List::new(alloc),
            size: 0,
            align: 0,
        }
    }
}
