//! Functions, globals, units and programs.
ghost use Rattle.std.specs.Prelude.{◌≡◌};
ghost use Rattle.c_tree.specs.Conditions as spec;

use crate::stmt::Stmt;
use c_names::Ident;
use c_types::CType;
use cm_base::{Bytes, List, Place, Shared, Text};
use std::marker::Model;

/// A parameter or local. The name of a parameter without one is empty.
#[derive(Drop)]
pub struct TLocal {
    pub name: Text,
    pub ctype: CType,
}

/// A function that its unit defines, with the place of its name there.
#[derive(Drop)]
pub struct TFunction {
    pub name: Ident,
    pub unit: u32,
    pub ctype: CType,
    pub entry: bool,
    pub is_static: bool,
    pub params: List<TLocal>,
    pub locals: List<TLocal>,
    pub body: Shared<Stmt>,
    pub place: Place,
}

/// A global that its unit defines. `init` has the bytes of all of it, or none where it is left as it is at the start.
#[derive(Drop)]
pub struct TGlobal {
    pub name: Ident,
    pub unit: u32,
    pub ctype: CType,
    pub noinit: bool,
    pub init: Bytes,
    pub place: Place,
}

/// A function or global that a unit declares.
#[derive(Drop)]
pub struct Extern {
    pub name: Ident,
    pub ctype: CType,
    pub is_static: bool,
    pub place: Place,
}

/// What a unit defines, and all that it declares, in order of first sight. A `Global` or `Call` in it has a number in
/// `externs`.
#[derive(Drop)]
pub struct TUnit {
    pub functions: List<TFunction>,
    pub globals: List<TGlobal>,
    pub externs: List<Extern>,
}

impl Model for TUnit {
    ghost use Rattle.std.specs.Coded.{codes};
    ghost use Rattle.c_tree.specs.Conditions as spec;
    ghost use Rattle.c_tree.specs.contracts.program.TFunction as f;
    ghost use Rattle.c_tree.specs.contracts.program.TGlobal as g;
    ghost use Rattle.c_tree.specs.contracts.program.Extern as e;

    ghost Value = { spec.TUnit };

    ghost coded = { Prim.hlevel (codes, f.the_row.coded, g.the_row.coded, e.the_row.coded) };

    ghost view = { λ it. record {
      functions = it.functions;
      globals = it.globals;
      externs = it.externs;
    } };

    ghost invariant = { λ it. spec.IsUnit (record {
      functions = it.functions;
      globals = it.globals;
      externs = it.externs;
    }) };
}

impl TUnit {
    pub fn new(functions: List<TFunction>, globals: List<TGlobal>, externs: List<Extern>) -> TUnit
        requires { spec.IsUnit (record { functions = functions; globals = globals; externs = externs }) }
        ensures { result ≡ record { functions = functions; globals = globals; externs = externs } }
    {
        TUnit {
            functions,
            globals,
            externs,
        }
    }

    /// What holds of each unit.
    pub fn within(&self)
        ensures { spec.IsUnit self.now }
    {
        let _ = &self.functions;
    }
}

/// The functions and globals of all units in order, and the names of the entry functions. A `Global` has its number in
/// `globals`, a `Call` in `functions`.
#[derive(Drop)]
pub struct Program {
    pub functions: List<TFunction>,
    pub globals: List<TGlobal>,
    pub entries: List<Ident>,
}

impl Model for Program {
    ghost use Rattle.std.specs.Coded.{codes};
    ghost use Rattle.c_tree.specs.Conditions as spec;
    ghost use Rattle.c_tree.specs.contracts.program.TFunction as f;
    ghost use Rattle.c_tree.specs.contracts.program.TGlobal as g;

    ghost Value = { spec.Program };

    ghost coded = { Prim.hlevel (codes, f.the_row.coded, g.the_row.coded) };

    ghost view = { λ it. record {
      functions = it.functions;
      globals = it.globals;
      entries = it.entries;
    } };

    ghost invariant = { λ it. spec.IsProgram (record {
      functions = it.functions;
      globals = it.globals;
      entries = it.entries;
    }) };
}

impl Program {
    pub fn new(functions: List<TFunction>, globals: List<TGlobal>, entries: List<Ident>) -> Program
        requires { spec.IsProgram (record { functions = functions; globals = globals; entries = entries }) }
        ensures { result ≡ record { functions = functions; globals = globals; entries = entries } }
    {
        Program {
            functions,
            globals,
            entries,
        }
    }

    /// What holds of each program.
    pub fn within(&self)
        ensures { spec.IsProgram self.now }
    {
        let _ = &self.functions;
    }
}
