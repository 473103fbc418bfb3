//! Laws of the walk over the syntax tree.

ghost use Rattle.c_ast.specs.declared.expr.Expr.{Expr as Tree};
ghost use Rattle.c_ast.specs.declared.expr.TypeName.{TypeName};
ghost use Rattle.c_scope.specs.declared.tables.Tables.{Tables};
ghost use Rattle.c_check.specs.declared.around.Around.{Around};
ghost use Rattle.c_check.specs.Typed.{typed, type_name, value};
ghost use Rattle.range_laws.specs.Few.{IsFit};
ghost use Rattle.range_laws.specs.Ranges.{range};
ghost use Rattle.range_laws.specs.Fits.{IsMade};
ghost use Rattle.range_laws.specs.Steps.{Goes};
ghost use Rattle.check_laws.specs.Keeps.{OperandAt, TypeAt};

/// The walk over an expression adds numbers and takes none away, and those in the tree that it answers are in range.
pub fn expr_law()
    ensures operands { (e : Tree) (around : Around) (s : Tables) → IsFit s → Goes (OperandAt around.in_entry) s (typed e around s) }
    ensures values { (e : Tree) (around : Around) (s : Tables) → IsFit s → Goes (λ x t. IsMade (range around.in_entry t) x) s (value e around s) }
{}

/// So does the walk over a type's name, and each Non-secure function type in that type has at most four parameters.
pub fn type_law()
    ensures { (n : TypeName) (around : Around) (s : Tables) → IsFit s → Goes TypeAt s (type_name n around s) }
{}
