//! The names of types that a part of a unit declares.

ghost use Rattle.std.specs.Prelude.{◌≡◌, map, OnOk};
ghost use Rattle.c_lex.specs.declared.token.Header.TheVariants as headers;
ghost use Rattle.std.specs.List.{list_any};
ghost use Rattle.c_grammar.specs.Tokens.{with_names};
ghost use Rattle.c_grammar.specs.Units as units;
ghost use Rattle.c_grammar.specs.Reading as spec;

use c_ast::{Decl, External, Init, Spec, SpecWord};
use c_grammar::names::TypeNames;
use c_lex::token::Header;
use cm_base::NoMemory;
use std::alloc::Global;

/// Adds the names of types of a header.
pub fn add_header(names: &mut TypeNames, header: Header, alloc: Global) -> Result<(), NoMemory>
    ensures { OnOk result (names.new ≡ with_names names.old (units.header_names header)) }
{
    match header {
        Header::StdInt => add_integers(names, alloc),
        Header::ArmCmse => names.add(b"size_t", alloc),
    }
}

/// Adds the names of types of `<stdint.h>`.
fn add_integers(names: &mut TypeNames, alloc: Global) -> Result<(), NoMemory>
    ensures { OnOk result (names.new ≡ with_names names.old (units.header_names headers.StdInt)) }
{
    names.add(b"int8_t", alloc)?;
    names.add(b"uint8_t", alloc)?;
    names.add(b"int16_t", alloc)?;
    names.add(b"uint16_t", alloc)?;
    names.add(b"int32_t", alloc)?;
    names.add(b"uint32_t", alloc)?;
    names.add(b"intptr_t", alloc)?;
    names.add(b"uintptr_t", alloc)
}

fn is_typedef(specifier: &Spec) -> bool
    ensures { result ≡ units.is_typedef specifier.now }
{
    match specifier {
        Spec::Word(_, SpecWord::Typedef) => true,
        _ => false,
    }
}

fn has_typedef(specs: &[Spec]) -> bool
    ensures { result ≡ list_any units.is_typedef specs.now }
{
    specs.iter().any(is_typedef)
}

fn add_inits(names: &mut TypeNames, inits: &[Init], alloc: Global) -> Result<(), NoMemory>
    ensures { OnOk result (names.new ≡ with_names names.old (map (λ i. i.declarator.name.text) inits.now)) }
{
    for init in inits {
        names.add(init.declarator.name.text.as_slice(), alloc)?;
    }
    Ok(())
}

fn add_decl(names: &mut TypeNames, decl: &Decl, alloc: Global) -> Result<(), NoMemory>
    ensures { OnOk result (names.new ≡ with_names names.old (units.declared decl.now)) }
{
    if has_typedef(decl.specs.as_slice()) {
        return add_inits(names, decl.inits.as_slice(), alloc);
    }
    Ok(())
}

/// Adds the names of types that a declaration of file scope declares.
pub fn add_declared(names: &mut TypeNames, part: &External, alloc: Global) -> Result<(), NoMemory>
    ensures { OnOk result (names.new ≡ with_names names.old (spec.added part.now)) }
{
    match part {
        External::Decl(decl) => add_decl(names, decl, alloc),
        _ => Ok(()),
    }
}
