//! What the parts of a unit define.

ghost use Rattle.std.specs.Prelude.{◌≡◌, IfOk};
ghost use Rattle.c_scope.specs.Steps.{Leaves};
ghost use Rattle.c_define.specs.Units as spec;

use crate::functions::defined;
use c_ast::External;
use c_decl::file_declaration;
use c_rows::TypeFault;
use c_scope::{Tables, include};
use c_tree::{TFunction, TGlobal};
use cm_base::{List, NoMemory};
use std::alloc::Global;

/// What a unit defines, in order.
#[derive(Drop)]
pub struct Made {
    pub functions: List<TFunction>,
    pub globals: List<TGlobal>,
}

impl Made {
    fn new(alloc: Global) -> Made
        ensures { result ≡ spec.no_definitions }
    {
        Made {
            functions: List::new(alloc),
            globals: List::new(alloc),
        }
    }

    fn with_function(self, f: TFunction) -> Result<Made, NoMemory>
        ensures { IfOk result (λ all. all ≡ spec.with_function f self) }
    {
        let Made {
            mut functions,
            globals,
        } = self;
        functions.push(f)?;
        Ok(Made { functions, globals })
    }
}

/// A part of a unit, behind what the parts before it define.
fn part_typed(
    alloc: Global,
    part: &External,
    tables: &mut Tables,
    all: Made,
) -> Result<Made, TypeFault>
    ensures { Leaves result tables.new (spec.part_typed part.now all tables.old) }
{
    match part {
        External::Include(place, header) => {
            include(alloc, tables, *header, *place)?;
            Ok(all)
        }
        External::Decl(d) => {
            let Made { functions, globals } = all;
            let globals = file_declaration(alloc, d, tables, globals)?;
            Ok(Made { functions, globals })
        }
        External::Function(f) => {
            let f = defined(alloc, f.get(), tables)?;
            Ok(all.with_function(f)?)
        }
    }
}

/// What the parts of a unit define, in order, or their first fault.
///
/// # Errors
/// `At`: the codes 20 to 29, 40 to 45, 50, 53, 55 and 56 of docs/LANGUAGE.md. `NoMemory`: memory ran out.
pub fn parts_typed(
    alloc: Global,
    parts: &[External],
    tables: &mut Tables,
) -> Result<Made, TypeFault>
    ensures { Leaves result tables.new (spec.parts_typed parts.now spec.no_definitions tables.old) }
{
    let mut all = Made::new(alloc);
    for part in parts {
        all = part_typed(alloc, part, tables, all)?;
    }
    Ok(all)
}
