//! Functions and programs of the middle form.
ghost use Rattle.std.specs.Prelude.{◌≡◌};
ghost use Rattle.mid_ir.specs.Conditions as spec;

use crate::stmt::MidStmt;
use cm_base::{Bytes, List, Text};
use std::marker::Model;

/// A function. Its first variables are its parameters, and `narrow` has a kind of conversion for each: 0 for none, 1 and 3
/// for signed values of 8 and 16 bits, 2 and 4 for unsigned ones. An entry function converts its parameters by them.
#[derive(Drop)]
pub struct MidFn {
    /// The name; for a static function with a point and the unit behind it.
    pub name: Text,
    pub unit: u32,
    pub entry: bool,
    /// Whether it has a result.
    pub gives: bool,
    pub narrow: List<u8>,
    /// The number of its variables.
    pub vars: u32,
    /// The bytes of its block on the data stack.
    pub block: u32,
    pub body: MidStmt,
}

/// A program: the functions, which calls number in this order, the names of the entry functions, what Secure data begins
/// with, and where the data stack begins.
#[derive(Drop)]
pub struct Mid {
    pub functions: List<MidFn>,
    pub entries: List<Text>,
    pub init: Bytes,
    pub stack_base: u32,
}

impl Model for Mid {
    ghost use Rattle.std.specs.Coded.{codes};
    ghost use Rattle.mid_ir.specs.Conditions as spec;
    ghost use Rattle.mid_ir.specs.contracts.program.MidFn as f;

    ghost Value = { spec.Mid };

    ghost coded = { Prim.hlevel (codes, f.the_row.coded) };

    ghost view = { λ it. record {
      functions = it.functions;
      entries = it.entries;
      init = it.init;
      stack_base = it.stack_base;
    } };

    ghost invariant = { λ it. spec.IsMid (record {
      functions = it.functions;
      entries = it.entries;
      init = it.init;
      stack_base = it.stack_base;
    }) };
}

impl Mid {
    pub fn new(functions: List<MidFn>, entries: List<Text>, init: Bytes, stack_base: u32) -> Mid
        requires { spec.IsMid (record { functions = functions; entries = entries; init = init; stack_base = stack_base }) }
        ensures { result ≡ record { functions = functions; entries = entries; init = init; stack_base = stack_base } }
    {
        Mid {
            functions,
            entries,
            init,
            stack_base,
        }
    }

    /// What holds of each program.
    pub fn within(&self)
        ensures { spec.IsMid self.now }
    {
        let _ = &self.functions;
    }
}
