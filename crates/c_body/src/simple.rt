//! Statements that hold no others, the heads of those that do, and labels.

ghost use Rattle.std.specs.Prelude.{◌≡◌};
ghost use Rattle.c_rows.specs.Answers.{Gives};
ghost use Rattle.c_scope.specs.Steps.{Leaves};
ghost use Rattle.c_body.specs.Simple as spec;
ghost use Rattle.c_body.specs.Within.{Puts};

use crate::arms::Arms;
use crate::within::Within;
use c_ast::{Decl, Expr as Tree, First, ForHead, Label, first_place};
use c_check::{Around, value};
use c_decl::local_declaration;
use c_rows::{TypeFault, at, fitted, integer_constant, switch_value, test};
use c_scope::Tables;
use c_tree::{Expr, Stmt};
use c_types::CType;
use cm_base::{List, Place, Shared};
use sqlite_items::Boxed;
use std::alloc::Global;

/// A node for a statement.
pub fn node(alloc: Global, stmt: Stmt) -> Result<Shared<Stmt>, TypeFault>
    ensures { Gives result (Ok stmt) }
{
    Ok(Shared::new(alloc, stmt)?)
}

/// A declaration in a block: a Declare for each local.
#[tactic(auto, unfolding(crate::specs::Simple::declared))]
pub fn declared(
    alloc: Global,
    d: &Decl,
    tables: &mut Tables,
    around: Around,
) -> Result<List<Shared<Stmt>>, TypeFault>
    ensures { Leaves result tables.new (spec.declared d.now around tables.old) }
{
    local_declaration(alloc, d, tables, around)
}

/// An expression for what it does.
#[tactic(auto, unfolding(crate::specs::Simple::done))]
pub fn done(
    alloc: Global,
    e: &Tree,
    tables: &mut Tables,
    around: Around,
) -> Result<Shared<Stmt>, TypeFault>
    ensures { Leaves result tables.new (spec.done e.now around tables.old) }
{
    let v = value(alloc, e, tables, around)?;
    node(alloc, Stmt::Expr(v))
}

/// The test of `if` or of a loop. At its first token it is E22 where it is no scalar.
#[tactic(auto, unfolding(crate::specs::Simple::tested))]
pub fn tested(
    alloc: Global,
    e: &Tree,
    tables: &mut Tables,
    around: Around,
) -> Result<Shared<Expr>, TypeFault>
    ensures { Leaves result tables.new (spec.tested e.now around tables.old) }
{
    let v = value(alloc, e, tables, around)?;
    test(v, first_place(e))
}

/// The value of `switch`, promoted. At its first token it is E22 where it is no integer.
#[tactic(auto, unfolding(crate::specs::Simple::switched))]
pub fn switched(
    alloc: Global,
    e: &Tree,
    tables: &mut Tables,
    around: Around,
) -> Result<Shared<Expr>, TypeFault>
    ensures { Leaves result tables.new (spec.switched e.now around tables.old) }
{
    let v = value(alloc, e, tables, around)?;
    switch_value(alloc, v, first_place(e))
}

/// `return` with a value. At its first token it is E22 where it doesn't convert to what the function gives, void among that.
fn given(
    alloc: Global,
    gives: &CType,
    first: Place,
    v: Shared<Expr>,
) -> Result<Shared<Stmt>, TypeFault>
    ensures { Gives result (spec.given gives.now first v) }
{
    let w = fitted(alloc, gives, v, first)?;
    node(alloc, Stmt::Return(Some(w)))
}

/// `return`, in a function that gives this type. At `place`, the word itself, it is E22 where the value is missing.
#[tactic(auto, unfolding(crate::specs::Simple::returned))]
pub fn returned(
    alloc: Global,
    place: Place,
    e: &Option<Boxed<Tree>>,
    gives: &CType,
    tables: &mut Tables,
    around: Around,
) -> Result<Shared<Stmt>, TypeFault>
    ensures { Leaves result tables.new (spec.returned place e.now gives.now around tables.old) }
{
    match e {
        None => {
            if !gives.is_void() {
                return Err(at(22, place));
            }
            node(alloc, Stmt::Return(None))
        }
        Some(e) => {
            let v = value(alloc, e.get(), tables, around)?;
            given(alloc, gives, first_place(e.get()), v)
        }
    }
}

/// `break`. At `place` it is E26 outside of loops and of `switch`.
pub fn broken(alloc: Global, place: Place, w: Within) -> Result<Shared<Stmt>, TypeFault>
    ensures { Gives result (spec.broken place w) }
{
    if !w.in_loop && !w.in_switch {
        return Err(at(26, place));
    }
    node(alloc, Stmt::Break)
}

/// `continue`. At `place` it is E26 outside of loops.
pub fn continued(alloc: Global, place: Place, w: Within) -> Result<Shared<Stmt>, TypeFault>
    ensures { Gives result (spec.continued place w) }
{
    if !w.in_loop {
        return Err(at(26, place));
    }
    node(alloc, Stmt::Continue)
}

/// What stands between the parentheses of a `for`: the Declares of its declaration, one expression or nothing; its test; and
/// what is done between two turns.
#[derive(Drop)]
pub struct Head {
    pub first: List<Shared<Stmt>>,
    pub test: Option<Shared<Expr>>,
    pub next: Option<Shared<Expr>>,
}

fn begun(
    alloc: Global,
    first: &First,
    tables: &mut Tables,
    around: Around,
) -> Result<List<Shared<Stmt>>, TypeFault>
    ensures { Leaves result tables.new (spec.begun first.now around tables.old) }
{
    match first {
        First::Decl(d) => declared(alloc, d, tables, around),
        First::Expr(None) => Ok(List::new(alloc)),
        First::Expr(Some(e)) => {
            let x = done(alloc, e.get(), tables, around)?;
            let mut all = List::new(alloc);
            all.push(x)?;
            Ok(all)
        }
    }
}

fn tested_or(
    alloc: Global,
    e: &Option<Boxed<Tree>>,
    tables: &mut Tables,
    around: Around,
) -> Result<Option<Shared<Expr>>, TypeFault>
    ensures { Leaves result tables.new (spec.tested_or e.now around tables.old) }
{
    match e {
        None => Ok(None),
        Some(e) => Ok(Some(tested(alloc, e.get(), tables, around)?)),
    }
}

fn valued_or(
    alloc: Global,
    e: &Option<Boxed<Tree>>,
    tables: &mut Tables,
    around: Around,
) -> Result<Option<Shared<Expr>>, TypeFault>
    ensures { Leaves result tables.new (spec.valued_or e.now around tables.old) }
{
    match e {
        None => Ok(None),
        Some(e) => Ok(Some(value(alloc, e.get(), tables, around)?)),
    }
}

/// What stands between the parentheses of a `for`, from left to right.
#[tactic(auto, unfolding(crate::specs::Simple::headed))]
pub fn headed(
    alloc: Global,
    head: &ForHead,
    tables: &mut Tables,
    around: Around,
) -> Result<Head, TypeFault>
    ensures { Leaves result tables.new (spec.headed head.now around tables.old) }
{
    let first = begun(alloc, head.first.get(), tables, around)?;
    let test = tested_or(alloc, &head.test, tables, around)?;
    let next = valued_or(alloc, &head.step, tables, around)?;
    Ok(Head { first, test, next })
}

/// A label behind these parts. The value of `case` is E24 at its first token where it is no constant; a label that is
/// repeated is E26 at its first token.
#[tactic(auto, unfolding(crate::specs::Simple::labelled))]
pub fn labelled(
    alloc: Global,
    label: &Label,
    tables: &mut Tables,
    around: Around,
    arms: &mut Arms,
) -> Result<(), TypeFault>
    ensures { Puts result arms.new tables.new (spec.labelled label.now around arms.old tables.old) }
{
    match label {
        Label::Case(place, e) => {
            let v = value(alloc, e.get(), tables, around)?;
            let n = integer_constant(v.get(), first_place(e.get()))?;
            arms.push_case(n, *place)
        }
        Label::Default(place) => arms.push_default(*place),
    }
}
