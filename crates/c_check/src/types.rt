//! Types: specifiers, structs, enums, declarators and type names.

ghost use Rattle.std.specs.Prelude.{◌≡◌};
ghost use Rattle.c_scope.specs.Steps.{Leaves};
ghost use Rattle.c_check.specs.Typed as spec;

use crate::around::Around;
use crate::exprs::expr;
use crate::formed::{
    Formed, grouped_declarator, inside, named_parameter, plain_declarator, star_attributes,
    type_of_name, unnamed_parameter, with_member,
};
use crate::operands::{constant_operand, length_operand};
use crate::specified::{Head, Specified};
use c_ast::{
    Abstract, Declarator, EnumSpec, Enumerator, Member, Param, Params, Spec, StructSpec, Suffix,
    TypeName,
};
use c_derive::{Derivation, Param as Parameter};
use c_rows::{TypeFault, at};
use c_scope::{
    Layout, Tables, begin_enum, begin_struct, close_parameters, declare_constant, end_struct,
    enum_use, open_parameters, struct_use,
};
use c_types::{Arith, CType};
use cm_base::{List, Place};
use cmse_rules::Attributes;
use std::alloc::Global;

/// The specifiers of a declaration, `stored` where a storage class may stand among them.
#[cycle(syntax)]
pub fn specifiers(
    alloc: Global,
    specs: &[Spec],
    tables: &mut Tables,
    around: Around,
    stored: bool,
) -> Result<Specified, TypeFault>
    ensures { Leaves result tables.new (spec.specifiers stored around specs.now tables.old) }
{
    let mut so_far = Specified::new();
    for one in specs {
        so_far = specifier(alloc, one, tables, around, stored, so_far)?;
    }
    Ok(so_far)
}

#[cycle(syntax)]
fn specifier(
    alloc: Global,
    one: &Spec,
    tables: &mut Tables,
    around: Around,
    stored: bool,
    it: Specified,
) -> Result<Specified, TypeFault>
    ensures { Leaves result tables.new (spec.specifying one.now stored around it tables.old) }
{
    match one {
        Spec::Word(place, word) => it.with_word(*place, *word, stored),
        Spec::TypeName(name) => it.with_name(alloc, tables, name),
        Spec::Struct(s) => {
            let t = struct_type(alloc, s.get(), tables, around)?;
            it.with_tagged(struct_place(s.get()), t)
        }
        Spec::Enum(e) => {
            let t = enum_type(alloc, e.get(), tables, around)?;
            it.with_tagged(enum_place(e.get()), t)
        }
        Spec::Attr(attr) => it.with_attr(attr),
    }
}

fn struct_place(s: &StructSpec) -> Place
    ensures { result ≡ spec.struct_place s.now }
{
    match s {
        StructSpec::Body(place, _, _) => *place,
        StructSpec::Tag(place, _) => *place,
    }
}

fn enum_place(e: &EnumSpec) -> Place
    ensures { result ≡ spec.enum_place e.now }
{
    match e {
        EnumSpec::Body(place, _, _) => *place,
        EnumSpec::Tag(place, _) => *place,
    }
}

/// The type that a struct's specifier names. Inside functions none is defined: E27 at `struct`.
#[cycle(syntax)]
fn struct_type(
    alloc: Global,
    s: &StructSpec,
    tables: &mut Tables,
    around: Around,
) -> Result<CType, TypeFault>
    ensures { Leaves result tables.new (spec.struct_named s.now around tables.old) }
{
    match s {
        StructSpec::Body(place, tag, list) => {
            if !around.scope.is_file {
                return Err(at(27, *place));
            }
            let n = begin_struct(alloc, tables, tag.as_ref())?;
            let layout = members(alloc, list.as_slice(), tables, around)?;
            end_struct(alloc, tables, n, layout, *place)
        }
        StructSpec::Tag(_, name) => struct_use(alloc, tables, around.scope, name),
    }
}

#[cycle(syntax)]
fn members(
    alloc: Global,
    list: &[Member],
    tables: &mut Tables,
    around: Around,
) -> Result<Layout, TypeFault>
    ensures { Leaves result tables.new (spec.members around list.now tables.old) }
{
    let mut layout = Layout::new(alloc);
    for member in list {
        layout = member_of_list(alloc, member, tables, around, layout)?;
    }
    Ok(layout)
}

#[cycle(syntax)]
fn member_of_list(
    alloc: Global,
    member: &Member,
    tables: &mut Tables,
    around: Around,
    layout: Layout,
) -> Result<Layout, TypeFault>
    ensures { Leaves result tables.new (spec.adding member.now around layout tables.old) }
{
    let Member::Declares(specs, list) = member;
    let head = specifiers(alloc, specs.as_slice(), tables, around, false)?.head(alloc)?;
    declarators(alloc, list.as_slice(), tables, around, &head, layout)
}

#[cycle(syntax)]
#[tactic(auto, using(crate::proofs::Parts::declarators_cons))]
fn declarators(
    alloc: Global,
    list: &[Declarator],
    tables: &mut Tables,
    around: Around,
    head: &Head,
    layout: Layout,
) -> Result<Layout, TypeFault>
    ensures { Leaves result tables.new (spec.declarators around head.now layout list.now tables.old) }
{
    let mut layout = layout;
    for d in list {
        let formed = form(alloc, &d.form, tables, around, head.attributes)?;
        layout = with_member(alloc, &head.base, &d.name, &formed, layout)?;
    }
    Ok(layout)
}

/// The type that an enum's specifier names, which is int. Inside functions none is defined: E27 at `enum`.
#[cycle(syntax)]
fn enum_type(
    alloc: Global,
    e: &EnumSpec,
    tables: &mut Tables,
    around: Around,
) -> Result<CType, TypeFault>
    ensures { Leaves result tables.new (spec.enum_named e.now around tables.old) }
{
    match e {
        EnumSpec::Body(place, tag, list) => {
            if !around.scope.is_file {
                return Err(at(27, *place));
            }
            begin_enum(alloc, tables, tag.as_ref())?;
            enumerators(alloc, list.as_slice(), tables, around)?;
            Ok(CType::arith(Arith::Int))
        }
        EnumSpec::Tag(_, name) => {
            enum_use(tables, name)?;
            Ok(CType::arith(Arith::Int))
        }
    }
}

#[cycle(syntax)]
#[tactic(auto, using(crate::proofs::Parts::enumerators_cons))]
fn enumerators(
    alloc: Global,
    list: &[Enumerator],
    tables: &mut Tables,
    around: Around,
) -> Result<(), TypeFault>
    ensures { Leaves result tables.new (spec.enumerators around 0 list.now tables.old) }
{
    let mut next = 0u32;
    for e in list {
        let n = enumerator_value(alloc, e, tables, around, next)?;
        declare_constant(alloc, tables, &e.name, n)?;
        next = n.wrapping_add(1);
    }
    Ok(())
}

/// A type name, as a cast or `sizeof` has it.
#[cycle(syntax)]
#[tactic(auto, using(crate::proofs::Parts::type_name_is))]
pub fn type_name(
    alloc: Global,
    name: &TypeName,
    tables: &mut Tables,
    around: Around,
) -> Result<CType, TypeFault>
    ensures { Leaves result tables.new (spec.type_name name.now around tables.old) }
{
    let head = specifiers(alloc, name.specs.as_slice(), tables, around, false)?.head(alloc)?;
    let formed = form(alloc, &name.declarator, tables, around, head.attributes)?;
    type_of_name(alloc, head, &formed)
}

/// What a declarator derives, its name left aside.
#[cycle(syntax)]
pub fn form(
    alloc: Global,
    a: &Abstract,
    tables: &mut Tables,
    around: Around,
    attributes: Attributes,
) -> Result<Formed, TypeFault>
    ensures { Leaves result tables.new (spec.forming a.now attributes around tables.old) }
{
    match a {
        Abstract::Plain(stars, list) => {
            let attributes = star_attributes(stars.as_slice(), attributes)?;
            let behind = suffixes(alloc, list.as_slice(), tables, around)?;
            Ok(plain_declarator(
                alloc,
                stars.as_slice(),
                behind,
                List::new(alloc),
                attributes,
            )?)
        }
        Abstract::Group(stars, _, inner, list) => {
            let attributes = star_attributes(stars.as_slice(), attributes)?;
            let inner = form(alloc, inner.get(), tables, around, attributes)?;
            let behind = suffixes(alloc, list.as_slice(), tables, around)?;
            Ok(grouped_declarator(alloc, stars.as_slice(), behind, inner)?)
        }
    }
}

#[cycle(syntax)]
fn suffixes(
    alloc: Global,
    list: &[Suffix],
    tables: &mut Tables,
    around: Around,
) -> Result<List<Derivation>, TypeFault>
    ensures { Leaves result tables.new (spec.suffixes around list.now tables.old) }
{
    let mut done = List::new(alloc);
    for suffix in list {
        done.push(suffix_of(alloc, suffix, tables, around)?)?;
    }
    Ok(done)
}

#[cycle(syntax)]
fn suffix_of(
    alloc: Global,
    suffix: &Suffix,
    tables: &mut Tables,
    around: Around,
) -> Result<Derivation, TypeFault>
    ensures { Leaves result tables.new (spec.derives suffix.now around tables.old) }
{
    match suffix {
        Suffix::Array(_, None) => Ok(Derivation::Array(None)),
        Suffix::Array(_, Some(e)) => {
            let o = expr(alloc, e.get(), tables, around)?;
            Ok(Derivation::Array(Some(length_operand(alloc, o)?)))
        }
        Suffix::Params(_, params) => {
            let params = parameters(alloc, params, tables, around)?;
            Ok(Derivation::Function(params))
        }
    }
}

#[cycle(syntax)]
fn parameters(
    alloc: Global,
    params: &Params,
    tables: &mut Tables,
    around: Around,
) -> Result<List<Parameter>, TypeFault>
    ensures { Leaves result tables.new (spec.listing params.now around tables.old) }
{
    match params {
        Params::Empty => Ok(List::new(alloc)),
        Params::Void(_) => Ok(List::new(alloc)),
        Params::List(list) => {
            let scope = open_parameters(tables, around.scope);
            let done = parameter_list(alloc, list.as_slice(), tables, inside(around, scope))?;
            close_parameters(tables, scope);
            Ok(done)
        }
    }
}

#[cycle(syntax)]
fn parameter_list(
    alloc: Global,
    list: &[Param],
    tables: &mut Tables,
    around: Around,
) -> Result<List<Parameter>, TypeFault>
    ensures { Leaves result tables.new (spec.params around list.now tables.old) }
{
    let mut done = List::new(alloc);
    for p in list {
        done.push(parameter(alloc, p, tables, around)?)?;
    }
    Ok(done)
}

#[cycle(syntax)]
#[tactic(auto, using(crate::proofs::Parts::named_is))]
fn parameter(
    alloc: Global,
    p: &Param,
    tables: &mut Tables,
    around: Around,
) -> Result<Parameter, TypeFault>
    ensures { Leaves result tables.new (spec.passing p.now around tables.old) }
{
    match p {
        Param::Named(specs, d) => {
            let head = specifiers(alloc, specs.as_slice(), tables, around, false)?.head(alloc)?;
            let formed = form(alloc, &d.form, tables, around, head.attributes)?;
            named_parameter(alloc, tables, around, &d.name, head, &formed)
        }
        Param::Unnamed(specs, a) => {
            let head = specifiers(alloc, specs.as_slice(), tables, around, false)?.head(alloc)?;
            let formed = form(alloc, a, tables, around, head.attributes)?;
            unnamed_parameter(alloc, tables, around, head, &formed)
        }
    }
}

#[cycle(syntax)]
#[tactic(auto, using(crate::proofs::Parts::enumerator_value_is))]
fn enumerator_value(
    alloc: Global,
    e: &Enumerator,
    tables: &mut Tables,
    around: Around,
    next: u32,
) -> Result<u32, TypeFault>
    ensures { Leaves result tables.new (spec.enumerator_value e.now around next tables.old) }
{
    match &e.value {
        None => Ok(next),
        Some(e) => {
            let o = expr(alloc, e.get(), tables, around)?;
            constant_operand(alloc, o)
        }
    }
}
