//! Functions with their bodies.

ghost use Rattle.std.specs.Prelude.{◌≡◌, ◌≤◌, IfOk, drop, option_copied, take};
ghost use Rattle.c_tree.specs.Nodes.{function_nodes};
ghost use Rattle.c_tree.specs.Slots as sizes;
ghost use Rattle.c_rows.specs.Answers.{Gives};
ghost use Rattle.c_scope.specs.Steps.{Leaves};
ghost use Rattle.c_define.specs.Functions as spec;

use c_ast::{Block, Function, Name};
use c_body::body;
use c_check::{Around, Formed, attributed, form};
use c_decl::{Declared, Heading, at_file, declared_as, heading_of, is_typedef, linkage};
use c_derive::{Derivation, Param};
use c_rows::{TypeFault, at};
use c_scope::{InBlock, Scope, State, Tables, declare_function, define_function};
use c_tree::{Stmt, TFunction, TLocal, function_nodes, placed_bytes, slots};
use c_types::{CType, Shape};
use cm_base::{List, NoMemory, Place, Shared};
use cmse_rules::{Subject, entry_rule};
use std::alloc::Global;
use std::mem;

/// The parameters of the function that a declarator's name itself is.
fn own_params(derivations: &[Derivation]) -> Option<&List<Param>>
    ensures { option_copied result ≡ spec.own_params derivations.now }
{
    match derivations.last() {
        Some(Derivation::Function(params)) => Some(params),
        _ => None,
    }
}

/// The same behind what isn't `typedef`.
fn defined_params<'a>(head: &Heading, formed: &'a Formed) -> Option<&'a List<Param>>
    ensures { option_copied result ≡ spec.defined_params head.now formed.now }
{
    if is_typedef(head.storage) {
        return None;
    }
    own_params(formed.derivations.as_slice())
}

/// The code of the first rule that the heading of a function breaks: E41 and E43 of an entry function, E56 for more than eight
/// parameters.
fn rule_broken(state: State, params: usize) -> Option<u8>
    ensures { result ≡ spec.rule_broken state params }
{
    match entry_rule(state.is_entry, params, state.is_static) {
        Some(code) => Some(code),
        None => {
            if params > 8 {
                return Some(56);
            }
            None
        }
    }
}

/// No block is open any more, and no function is at hand.
fn leave(tables: &mut Tables)
    ensures { tables.new ≡ spec.outside tables.old }
{
    tables.blocks.truncate(0);
    tables.block_tags.truncate(0);
    tables.locals.truncate(0);
}

/// Adds a parameter to the scope of a body. One without a name has a number alone.
fn enter_one(alloc: Global, tables: &mut Tables, param: &Param) -> Result<(), NoMemory>
    ensures { IfOk result (λ _. tables.new ≡ spec.with_param param.now.name param.now.ctype tables.old) }
{
    let name = param.name.try_clone(alloc)?;
    let ctype = param.ctype.share(alloc)?;
    if param.name.is_empty() {
        return tables.locals.push(TLocal { name, ctype });
    }
    match u32::try_from(tables.locals.len()) {
        Ok(local) => {
            let own = param.name.try_clone(alloc)?;
            tables.blocks.push(InBlock { name: own, local })?;
            tables.locals.push(TLocal { name, ctype })
        }
        Err(_) => Err(NoMemory),
    }
}

/// Adds parameters to the scope of a body. Their declarator told their faults.
fn enter(alloc: Global, tables: &mut Tables, params: &[Param]) -> Result<(), NoMemory>
    ensures { IfOk result (λ _. tables.new ≡ spec.entered params.now tables.old) }
{
    for param in params {
        enter_one(alloc, tables, param)?;
    }
    Ok(())
}

/// Around a body: it has one scope with the parameters.
fn in_body(in_entry: bool) -> Around
    ensures { result ≡ spec.in_body in_entry }
{
    Around {
        scope: Scope {
            names: 0,
            tags: 0,
            locals: 0,
            is_file: false,
        },
        in_entry,
    }
}

/// What a function of this type gives.
fn gives_of(alloc: Global, t: &CType) -> Result<CType, NoMemory>
    ensures { IfOk result (λ r. r ≡ spec.gives_of t.now) }
{
    match &t.shape {
        Shape::Function { gives, .. } => gives.get().share(alloc),
        _ => Ok(CType::plain(Shape::Void)),
    }
}

/// So many of the locals, and the others.
fn split(
    alloc: Global,
    locals: List<TLocal>,
    many: usize,
) -> Result<(List<TLocal>, List<TLocal>), NoMemory>
    ensures { IfOk result (λ p. (p.0 ≡ take many locals) × (p.1 ≡ drop many locals)) }
{
    let mut front = locals.into_vec();
    if front.len() < many {
        return Ok((List::from_vec(front), List::new(alloc)));
    }
    let rest = front.split_off(many)?;
    Ok((List::from_vec(front), List::from_vec(rest)))
}

/// A function, of whose locals so many are its parameters.
fn function_of(
    alloc: Global,
    name: &Name,
    ctype: CType,
    state: State,
    many: usize,
    body: Shared<Stmt>,
    locals: List<TLocal>,
) -> Result<TFunction, NoMemory>
    ensures { IfOk result (λ f. f ≡ spec.function_of name.now ctype state many body locals) }
{
    let (params, locals) = split(alloc, locals, many)?;
    Ok(TFunction {
        name: name.text.copy(alloc)?,
        unit: name.place.unit,
        ctype,
        entry: state.is_entry,
        is_static: state.is_static,
        params,
        locals,
        body,
        place: name.place,
    })
}

/// Whether no local's type is too large.
fn all_fit(locals: &[TLocal]) -> bool
    ensures { result ≡ sizes.all_fit locals.now }
{
    locals.iter().all(|local| local.ctype.fits())
}

/// Whether the placed locals have more than 16,384 bytes.
fn is_too_large(f: &TFunction) -> bool
    requires { function_nodes f.now ≤ 2000 }
    ensures { result ≡ spec.is_too_large f.now }
{
    all_fit(f.locals.as_slice()) && placed_bytes(f) > 16384
}

/// A function within the limits. At its name it is E50 where it has more than 2,000 nodes, E53 where it has more than 900 slots,
/// and E55 where its placed locals have more than 16,384 bytes.
fn within_limits(f: TFunction) -> Result<TFunction, TypeFault>
    ensures { Gives result (spec.within_limits f) }
{
    if function_nodes(&f) > 2000 {
        return Err(at(50, f.place));
    }
    if slots(&f) > 900 {
        return Err(at(53, f.place));
    }
    if is_too_large(&f) {
        return Err(at(55, f.place));
    }
    Ok(f)
}

/// A function whose heading is known, with its body.
fn with_body(
    alloc: Global,
    b: &Block,
    tables: &mut Tables,
    name: &Name,
    t: CType,
    state: State,
    params: &[Param],
) -> Result<TFunction, TypeFault>
    ensures { Leaves result tables.new (spec.with_body name.now t state params.now b.now tables.old) }
{
    leave(tables);
    enter(alloc, tables, params)?;
    let gives = gives_of(alloc, &t)?;
    let x = body(alloc, b, tables, in_body(state.is_entry), &gives)?;
    let locals = mem::replace(&mut tables.locals, List::new(alloc));
    leave(tables);
    let f = function_of(alloc, name, t, state, params.len(), x, locals)?;
    within_limits(f)
}

/// The function of this number, which is declared. Its rules come before its body.
fn function_made(
    alloc: Global,
    b: &Block,
    tables: &mut Tables,
    n: u32,
    name: &Name,
    t: CType,
    params: &[Param],
) -> Result<TFunction, TypeFault>
    ensures { Leaves result tables.new (spec.function_made n name.now t params.now b.now tables.old) }
{
    let state = match tables.externs.get(n as usize) {
        Some(known) => known.state,
        None => return Err(at(21, name.place)),
    };
    if let Some(code) = rule_broken(state, params.len()) {
        return Err(at(code, name.place));
    }
    define_function(alloc, tables, n)?;
    with_body(alloc, b, tables, name, t, state, params)
}

fn function_declared(
    alloc: Global,
    b: &Block,
    tables: &mut Tables,
    head: &Heading,
    name: &Name,
    d: Declared,
    params: &[Param],
) -> Result<TFunction, TypeFault>
    ensures { Leaves result tables.new (spec.function_declared head.now name.now d params.now b.now tables.old) }
{
    let Declared { ctype, attributes } = d;
    let t = attributed(alloc, attributes, Subject::Function, ctype, name.place)?;
    let own = t.share(alloc)?;
    let n = declare_function(alloc, tables, name, own, linkage(head, attributes))?;
    function_made(alloc, b, tables, n, name, t, params)
}

fn function_formed(
    alloc: Global,
    f: &Function,
    tables: &mut Tables,
    head: &Heading,
    formed: &Formed,
) -> Result<TFunction, TypeFault>
    ensures { Leaves result tables.new (spec.function_formed head.now f.now formed.now tables.old) }
{
    let name = &f.declarator.name;
    let d = declared_as(alloc, head, name.place, f.attrs.as_slice(), formed)?;
    match defined_params(head, formed) {
        Some(params) => {
            function_declared(alloc, &f.body, tables, head, name, d, params.as_slice())
        }
        None => Err(at(27, name.place)),
    }
}

/// A function with its body.
///
/// # Errors
/// The faults of its declaration; at its name E27 where `typedef` stands before it or its declarator isn't that of a function, and
/// E41, E43 and E56; those of its body; and then, at its name, E50, E53 and E55.
pub fn defined(alloc: Global, f: &Function, tables: &mut Tables) -> Result<TFunction, TypeFault>
    ensures { Leaves result tables.new (spec.defined f.now tables.old) }
{
    let head = heading_of(alloc, f.specs.as_slice(), tables, at_file(), true)?;
    let formed = form(
        alloc,
        &f.declarator.form,
        tables,
        at_file(),
        head.attributes,
    )?;
    function_formed(alloc, f, tables, &head, &formed)
}
