//! Nodes of typed trees.

ghost use Rattle.std.specs.Prelude.{◌≡◌, ◌∷◌, [], IfOk, IsTrue, replicate};
ghost use Rattle.c_names.specs.Name.{is_name};
ghost use Rattle.trace_tests.specs.Programs as spec;

use c_names::Ident;
use c_tree::{BinOp, Expr, ExprKind, Stmt, TFunction, TLocal};
use c_types::{Arith, CType};
use cm_base::{List, NoMemory, Place, Shared, Text};
use std::alloc::Global;

pub type Node = Shared<Expr>;

const HERE: Place = Place {
    unit: 0,
    line: 1,
    col: 1,
};

pub fn word() -> CType
    ensures { result ≡ spec.word }
{
    CType::arith(Arith::Unsigned)
}

/// A pointer to a Non-secure function of a word that gives a word.
pub fn ns_pointer(alloc: Global) -> Result<CType, NoMemory>
    ensures { IfOk result (λ t. t ≡ spec.ns_pointer) }
{
    let mut params = List::new(alloc);
    params.push(word())?;
    let gives = Shared::new(alloc, word())?;
    let to = CType::function(gives, params, true);
    Ok(CType::pointer_to(Shared::new(alloc, to)?))
}

pub fn node(alloc: Global, kind: ExprKind, ctype: CType) -> Result<Node, NoMemory>
    ensures { IfOk result (λ e. e ≡ spec.node kind ctype) }
{
    Shared::new(
        alloc,
        Expr {
            kind,
            ctype,
            place: HERE,
        },
    )
}

pub fn number(alloc: Global, n: u32) -> Result<Node, NoMemory>
    ensures { IfOk result (λ e. e ≡ spec.number n) }
{
    node(alloc, ExprKind::Const(n), word())
}

pub fn local(alloc: Global, n: u32) -> Result<Node, NoMemory>
    ensures { IfOk result (λ e. e ≡ spec.local n) }
{
    node(alloc, ExprKind::Local(n), word())
}

pub fn sum(alloc: Global, a: Node, b: Node) -> Result<Node, NoMemory>
    ensures { IfOk result (λ e. e ≡ spec.sum a b) }
{
    node(alloc, ExprKind::Binary(BinOp::Add, a, b), word())
}

pub fn one<T: Drop>(alloc: Global, x: T) -> Result<List<T>, NoMemory>
    ensures { IfOk result (λ list. list ≡ x ∷ []) }
{
    let mut list = List::new(alloc);
    list.push(x)?;
    Ok(list)
}

pub fn returning(alloc: Global, e: Node) -> Result<Shared<Stmt>, NoMemory>
    ensures { IfOk result (λ s. s ≡ spec.returning e) }
{
    Shared::new(alloc, Stmt::Return(Some(e)))
}

/// So many words, as parameters.
pub fn words(alloc: Global, n: usize) -> Result<List<TLocal>, NoMemory>
    ensures { IfOk result (λ list. list ≡ replicate n (spec.unnamed spec.word)) }
{
    let mut list = List::new(alloc);
    for _i in 0..n {
        list.push(TLocal {
            name: Text::new(alloc),
            ctype: word(),
        })?;
    }
    Ok(list)
}

fn word_types(alloc: Global, n: usize) -> Result<List<CType>, NoMemory>
    ensures { IfOk result (λ list. list ≡ replicate n spec.word) }
{
    let mut list = List::new(alloc);
    for _i in 0..n {
        list.push(word())?;
    }
    Ok(list)
}

/// A function of so many words that gives a word.
pub fn function(
    alloc: Global,
    name: &[u8],
    entry: bool,
    n: usize,
    locals: List<TLocal>,
    body: Shared<Stmt>,
) -> Result<TFunction, NoMemory>
    requires { IsTrue (is_name name.now) }
    ensures { IfOk result (λ f. f ≡ spec.of_words name.now entry n locals body) }
{
    let types = word_types(alloc, n)?;
    let gives = Shared::new(alloc, word())?;
    Ok(TFunction {
        name: Ident::new(Text::from_slice(alloc, name)?),
        unit: 0,
        ctype: CType::function(gives, types, false),
        entry,
        is_static: false,
        params: words(alloc, n)?,
        locals,
        body,
        place: HERE,
    })
}
