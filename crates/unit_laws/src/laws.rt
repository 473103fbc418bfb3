//! Laws of numbers in range in units.

ghost use Rattle.std.specs.Prelude.{◌≡◌, ◌+◌, Bool, true, List, length};
ghost use Rattle.c_ast.specs.declared.stmt.Block.{Block};
ghost use Rattle.c_ast.specs.declared.stmt.Decl.{Decl};
ghost use Rattle.c_types.specs.declared.ctype.CType.{CType};
ghost use Rattle.c_tree.specs.declared.program.TFunction.{TFunction};
ghost use Rattle.c_tree.specs.declared.program.TGlobal.{TGlobal};
ghost use Rattle.c_tree.specs.Numbers.{function_in_range, names_of_unit};
ghost use Rattle.c_scope.specs.declared.tables.Tables.{Tables};
ghost use Rattle.c_check.specs.declared.around.Around.{Around};
ghost use Rattle.c_decl.specs.Globals.{file_declaration};
ghost use Rattle.c_decl.specs.Locals.{local_declaration};
ghost use Rattle.c_body.specs.Stmts.{body};
ghost use Rattle.later_laws.specs.Later.{AreSound};
ghost use Rattle.range_laws.specs.Few.{IsFit};
ghost use Rattle.range_laws.specs.Ranges.{NamesWithin, externs_of, names};
ghost use Rattle.range_laws.specs.Steps.{Goes, Passes};
ghost use Rattle.unit_laws.specs.Globals.{GlobalsAt};
ghost use Rattle.unit_laws.specs.Stmts.{StmtAt, StmtsAt};

/// A declaration adds numbers and takes none away, and those in the statements that it stands for are in range. A global that is
/// defined has all of its bytes, and stands among the externs.
pub fn declaration_law()
    ensures locals { (d : Decl) (around : Around) (s : Tables) → IsFit s → Goes (StmtsAt around.in_entry) s (local_declaration d around s) }
    ensures files { (d : Decl) (made : List TGlobal) (s : Tables) → IsFit s → AreSound s → GlobalsAt made s → Passes GlobalsAt s (file_declaration d made s) }
{}

/// The body of a function adds numbers and takes none away, and those in its statement are in range at its end.
pub fn body_law()
    ensures { (b : Block) (gives : CType) (around : Around) (s : Tables) → IsFit s → Goes (StmtAt around.in_entry) s (body b gives around s) }
{}

/// A function whose body is in range at its end, its parameters and locals being those of the tables there, is in range at the
/// end of its unit.
pub fn function_law()
    ensures { (f : TFunction) (s t : Tables) → StmtAt f.entry f.body s → length f.params + length f.locals ≡ length s.locals → NamesWithin (names s) (names t)
        → function_in_range (names_of_unit (externs_of t)) f ≡ true }
{}
