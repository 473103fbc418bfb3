//! Small programs.

ghost use Rattle.std.specs.Prelude.{◌≡◌, ◌∷◌, [], IfOk, codes};
ghost use Rattle.trace_tests.specs.Programs as spec;

use crate::trees::{Node, function, local, node, ns_pointer, number, one, returning, sum, word};
use c_names::Ident;
use c_tree::{ExprKind, Item, Program, Stmt, TFunction, TLocal};
use cm_base::{List, NoMemory, Shared, Text};
use std::alloc::Global;

/// `nsf *f = (nsf *)t; return f(a) + a;`
fn twice_body(alloc: Global) -> Result<Shared<Stmt>, NoMemory>
    ensures { IfOk result (λ s. s ≡ spec.twice_body) }
{
    let t = local(alloc, 0)?;
    let value = node(alloc, ExprKind::Convert(t), ns_pointer(alloc)?)?;
    let items = one(alloc, Item { offset: 0, value })?;
    let f = node(alloc, ExprKind::Local(2), ns_pointer(alloc)?)?;
    let args = one(alloc, local(alloc, 1)?)?;
    let called = node(alloc, ExprKind::NsCall(f, args), word())?;
    let gives = returning(alloc, sum(alloc, called, local(alloc, 1)?)?)?;
    let mut list = one(
        alloc,
        Shared::new(alloc, Stmt::Declare { local: 2, items })?,
    )?;
    list.push(gives)?;
    Shared::new(alloc, Stmt::Block(list))
}

#[tactic(auto, unfolding(c_names::specs::Name::is_name, c_names::specs::Name::is_name_byte, c_names::specs::Name::is_letter, c_names::specs::Name::is_digit))]
fn twice(alloc: Global) -> Result<TFunction, NoMemory>
    ensures { IfOk result (λ f. f ≡ spec.twice) }
{
    let f = one(
        alloc,
        TLocal {
            name: Text::new(alloc),
            ctype: ns_pointer(alloc)?,
        },
    )?;
    function(alloc, b"twice", true, 2, f, twice_body(alloc)?)
}

#[tactic(auto, unfolding(c_names::specs::Name::is_name, c_names::specs::Name::is_name_byte, c_names::specs::Name::is_letter, c_names::specs::Name::is_digit))]
fn one_more(alloc: Global) -> Result<TFunction, NoMemory>
    ensures { IfOk result (λ f. f ≡ spec.one) }
{
    let body = returning(alloc, sum(alloc, local(alloc, 0)?, number(alloc, 1)?)?)?;
    function(alloc, b"one", true, 1, List::new(alloc), body)
}

/// `typedef unsigned __attribute__((cmse_nonsecure_call)) nsf(unsigned);`
/// `unsigned ENTRY twice(unsigned t, unsigned a) { nsf *f = (nsf *)t; return f(a) + a; }`
/// `unsigned ENTRY one(unsigned a) { return a + 1u; }`
#[tactic(auto, using(crate::proofs::WithinLaws::calls_out_is), unfolding(c_names::specs::Name::is_name, c_names::specs::Name::is_name_byte, c_names::specs::Name::is_letter, c_names::specs::Name::is_digit))]
pub fn calls_out(alloc: Global) -> Result<Program, NoMemory> {
    let mut functions = one(alloc, twice(alloc)?)?;
    functions.push(one_more(alloc)?)?;
    let mut entries = one(alloc, Ident::new(Text::from_slice(alloc, b"twice")?))?;
    entries.push(Ident::new(Text::from_slice(alloc, b"one")?))?;
    Ok(Program::new(functions, List::new(alloc), entries))
}

fn calling(alloc: Global, n: u32, arg: Node) -> Result<Node, NoMemory>
    ensures { IfOk result (λ e. e ≡ spec.calling n arg) }
{
    let args = one(alloc, arg)?;
    node(alloc, ExprKind::Call(n, args), word())
}

/// `unsigned r(unsigned n) { return r(n + 1u) + 1u; }`
#[tactic(auto, unfolding(c_names::specs::Name::is_name, c_names::specs::Name::is_name_byte, c_names::specs::Name::is_letter, c_names::specs::Name::is_digit))]
fn endless(alloc: Global) -> Result<TFunction, NoMemory>
    ensures { IfOk result (λ f. f ≡ spec.endless) }
{
    let again = calling(alloc, 0, sum(alloc, local(alloc, 0)?, number(alloc, 1)?)?)?;
    let body = returning(alloc, sum(alloc, again, number(alloc, 1)?)?)?;
    function(alloc, b"r", false, 1, List::new(alloc), body)
}

#[tactic(auto, unfolding(c_names::specs::Name::is_name, c_names::specs::Name::is_name_byte, c_names::specs::Name::is_letter, c_names::specs::Name::is_digit))]
fn go(alloc: Global) -> Result<TFunction, NoMemory>
    ensures { IfOk result (λ f. f ≡ spec.go) }
{
    let body = returning(alloc, calling(alloc, 0, number(alloc, 0)?)?)?;
    function(alloc, b"go", true, 0, List::new(alloc), body)
}

/// `unsigned r(unsigned n) { return r(n + 1u) + 1u; } unsigned ENTRY go(void) { return r(0u); }`
#[tactic(auto, using(crate::proofs::WithinLaws::calls_itself_is), unfolding(c_names::specs::Name::is_name, c_names::specs::Name::is_name_byte, c_names::specs::Name::is_letter, c_names::specs::Name::is_digit))]
pub fn calls_itself(alloc: Global) -> Result<Program, NoMemory> {
    let mut functions = one(alloc, endless(alloc)?)?;
    functions.push(go(alloc)?)?;
    let entries = one(alloc, Ident::new(Text::from_slice(alloc, b"go")?))?;
    Ok(Program::new(functions, List::new(alloc), entries))
}
