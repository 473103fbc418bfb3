//! Laws of whole units.

ghost use Rattle.std.specs.Prelude.{◌≡◌, List, Ok};
ghost use Rattle.c_ast.specs.declared.stmt.External.{External};
ghost use Rattle.c_define.specs.declared.units.Made.{Made};
ghost use Rattle.c_define.specs.Units.{no_definitions, parts_typed, unit_of};
ghost use Rattle.c_scope.specs.Lookup.{nothing};
ghost use Rattle.c_scope.specs.declared.tables.Tables.{Tables};
ghost use Rattle.c_tree.specs.Conditions.{IsUnit};

/// What the parts of a unit define, and the functions and globals that are declared at their end, make a unit.
pub fn unit_law()
    ensures { (ps : List External) (all : Made) (t : Tables) → parts_typed ps no_definitions nothing ≡ Ok (all, t) → IsUnit (unit_of all t.externs) }
{}
