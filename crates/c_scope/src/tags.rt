//! Tags of structs and enums.

ghost use Rattle.std.specs.Prelude.{◌≡◌, IfOk, length, option_copied, slice_get};
ghost use Rattle.c_rows.specs.Answers.{Gives};
ghost use Rattle.c_scope.specs.Steps.{Leaves};
ghost use Rattle.c_scope.specs.Tags as spec;

use crate::layout::rounded;
use crate::tables::{Layout, Scope, StructInfo, Tables, Tag, TagInBlock};
use c_ast::Name;
use c_rows::{TypeFault, at};
use c_types::{CType, MAX_SIZE, Shape};
use cm_base::{List, NoMemory, Place};
use std::alloc::Global;

/// The last of these tags that it is, or what was found before.
fn newest(so_far: Option<Tag>, tags: &[TagInBlock], text: &[u8]) -> Option<Tag>
    ensures { result ≡ spec.newest_from so_far tags.now text.now }
{
    let mut found = so_far;
    for bound in tags {
        if bound.name.as_slice() == text {
            found = Some(bound.tag);
        }
    }
    found
}

fn file_tag(tables: &Tables, text: &[u8]) -> Option<Tag>
    ensures { result ≡ spec.file_tag tables.now text.now }
{
    match tables.tags.place_of(text) {
        Some(i) => tables.tag_meanings.get(i).copied(),
        None => None,
    }
}

/// What a tag means.
fn tag_of(tables: &Tables, text: &[u8]) -> Option<Tag>
    ensures { result ≡ spec.tag_of tables.now text.now }
{
    newest(file_tag(tables, text), tables.block_tags.as_slice(), text)
}

/// What a tag means that the innermost scope declares.
fn tag_in(scope: Scope, tables: &Tables, text: &[u8]) -> Option<Tag>
    ensures { result ≡ spec.tag_in scope tables.now text.now }
{
    if scope.is_file {
        return file_tag(tables, text);
    }
    let all = tables.block_tags.as_slice();
    if is_in_block(all, scope.tags, text) {
        return newest(None, all, text);
    }
    None
}

/// Whether the block that begins at this place of the tags declares a tag.
fn is_in_block(tags: &[TagInBlock], from: usize, text: &[u8]) -> bool
    ensures { result ≡ spec.is_in_block tags.now from text.now }
{
    tags.iter().skip(from).any(|b| b.name.as_slice() == text)
}

fn add_file_tag(alloc: Global, tables: &mut Tables, name: &Name, tag: Tag) -> Result<(), NoMemory>
    ensures { IfOk result (λ _. tables.new ≡ spec.with_file_tag name.now.text tag tables.old) }
{
    tables.tags.add(alloc, name.text.as_slice())?;
    tables.tag_meanings.push(tag)
}

/// Declares a tag in the innermost scope.
fn add_tag(
    alloc: Global,
    tables: &mut Tables,
    scope: Scope,
    name: &Name,
    tag: Tag,
) -> Result<(), NoMemory>
    ensures { IfOk result (λ _. tables.new ≡ spec.with_tag scope name.now.text tag tables.old) }
{
    if scope.is_file {
        return add_file_tag(alloc, tables, name, tag);
    }
    let text = List::from_slice(alloc, name.text.as_slice())?;
    tables.block_tags.push(TagInBlock { name: text, tag })
}

/// A struct whose members aren't known yet.
fn unknown(alloc: Global, text: &[u8], is_defined: bool) -> Result<StructInfo, NoMemory>
    ensures { IfOk result (λ i. i ≡ spec.unknown text.now is_defined) }
{
    Ok(StructInfo {
        tag: List::from_slice(alloc, text)?,
        size: 0,
        align: 0,
        members: List::new(alloc),
        is_defined,
    })
}

/// Adds a struct, and gives its number.
fn add_struct(
    alloc: Global,
    tables: &mut Tables,
    text: &[u8],
    is_defined: bool,
) -> Result<u32, TypeFault>
    ensures { Leaves result tables.new (Ok (length tables.old.structs, spec.with_struct (spec.unknown text.now is_defined) tables.old)) }
{
    match u32::try_from(tables.structs.len()) {
        Ok(n) => {
            let info = unknown(alloc, text, is_defined)?;
            tables.structs.push(info)?;
            Ok(n)
        }
        Err(_) => Err(TypeFault::NoMemory),
    }
}

/// The type of a struct.
fn struct_type(alloc: Global, n: u32, info: &StructInfo) -> Result<CType, NoMemory>
    ensures { IfOk result (λ t. t ≡ spec.struct_type n info.now) }
{
    Ok(CType::plain(Shape::Struct {
        number: n,
        name: info.tag.try_clone(alloc)?,
        size: info.size,
        align: info.align,
    }))
}

fn known_type(alloc: Global, tables: &Tables, n: u32, place: Place) -> Result<CType, TypeFault>
    ensures { Gives result (spec.known_type n place (slice_get tables.now.structs n)) }
{
    match tables.structs.get(n as usize) {
        Some(info) => Ok(struct_type(alloc, n, info)?),
        None => Err(at(20, place)),
    }
}

/// A new struct with a tag in the innermost scope.
fn first_seen(
    alloc: Global,
    tables: &mut Tables,
    scope: Scope,
    name: &Name,
) -> Result<CType, TypeFault>
    ensures { Leaves result tables.new (spec.first_seen scope name.now tables.old) }
{
    let n = add_struct(alloc, tables, name.text.as_slice(), false)?;
    add_tag(alloc, tables, scope, name, Tag::Struct(n))?;
    Ok(CType::plain(Shape::Struct {
        number: n,
        name: List::from_slice(alloc, name.text.as_slice())?,
        size: 0,
        align: 0,
    }))
}

fn struct_as(
    alloc: Global,
    tables: &mut Tables,
    scope: Scope,
    name: &Name,
    tag: Option<Tag>,
) -> Result<CType, TypeFault>
    ensures { Leaves result tables.new (spec.struct_as scope name.now tag tables.old) }
{
    match tag {
        Some(Tag::Struct(n)) => known_type(alloc, tables, n, name.place),
        Some(Tag::Enum) => Err(at(20, name.place)),
        None => first_seen(alloc, tables, scope, name),
    }
}

/// `struct s` in use. A tag that is first seen here is declared in the innermost scope; that of an enum is E20.
pub fn struct_use(
    alloc: Global,
    tables: &mut Tables,
    scope: Scope,
    name: &Name,
) -> Result<CType, TypeFault>
    ensures { Leaves result tables.new (spec.struct_use scope name.now tables.old) }
{
    let tag = tag_of(tables, name.text.as_slice());
    struct_as(alloc, tables, scope, name, tag)
}

/// `struct s;` by itself. It declares the tag in the innermost scope, even where an outer one has it (C11 6.7.2.3,
/// paragraph 7).
pub fn declare_struct(
    alloc: Global,
    tables: &mut Tables,
    scope: Scope,
    name: &Name,
) -> Result<CType, TypeFault>
    ensures { Leaves result tables.new (spec.declare_struct scope name.now tables.old) }
{
    let tag = tag_in(scope, tables, name.text.as_slice());
    struct_as(alloc, tables, scope, name, tag)
}

/// `struct s {` or `struct {` at file scope: the struct's number. It is E21 at the tag where that is an enum's, or where its
/// members have begun already.
pub fn begin_struct(
    alloc: Global,
    tables: &mut Tables,
    name: Option<&Name>,
) -> Result<u32, TypeFault>
    ensures { Leaves result tables.new (spec.begin_struct (option_copied name.entry) tables.old) }
{
    match name {
        Some(name) => begin_tagged(alloc, tables, name),
        None => add_struct(alloc, tables, &[], true),
    }
}

fn begin_tagged(alloc: Global, tables: &mut Tables, name: &Name) -> Result<u32, TypeFault>
    ensures { Leaves result tables.new (spec.begun_as name.now (spec.file_tag tables.old name.now.text) tables.old) }
{
    match file_tag(tables, name.text.as_slice()) {
        Some(Tag::Struct(n)) => begin_again(alloc, tables, n, name),
        Some(Tag::Enum) => Err(at(21, name.place)),
        None => {
            let n = add_struct(alloc, tables, name.text.as_slice(), true)?;
            add_file_tag(alloc, tables, name, Tag::Struct(n))?;
            Ok(n)
        }
    }
}

fn begin_again(alloc: Global, tables: &mut Tables, n: u32, name: &Name) -> Result<u32, TypeFault>
    ensures { Leaves result tables.new (spec.begun_again n name.now (slice_get tables.old.structs n) tables.old) }
{
    match tables.structs.get(n as usize) {
        Some(info) => {
            if info.is_defined {
                return Err(at(21, name.place));
            }
            let info = unknown(alloc, name.text.as_slice(), true)?;
            tables.structs.set(n as usize, info);
            Ok(n)
        }
        None => Err(at(21, name.place)),
    }
}

/// The end of a struct's members. It is E24 at `place` where the struct has more than 49,152 bytes.
pub fn end_struct(
    alloc: Global,
    tables: &mut Tables,
    n: u32,
    layout: Layout,
    place: Place,
) -> Result<CType, TypeFault>
    ensures { Leaves result tables.new (spec.end_struct n layout place tables.old) }
{
    let size = rounded(layout.size, layout.align);
    if size > u64::from(MAX_SIZE) {
        return Err(at(24, place));
    }
    match tables.structs.get(n as usize) {
        Some(info) => {
            let tag = info.tag.try_clone(alloc)?;
            let Layout { members, align, .. } = layout;
            let info = StructInfo {
                tag,
                size: size as u32,
                align,
                members,
                is_defined: true,
            };
            let t = struct_type(alloc, n, &info)?;
            tables.structs.set(n as usize, info);
            Ok(t)
        }
        None => Err(at(24, place)),
    }
}

/// `enum e` in use. It is E20 where no enum of this tag is declared.
pub fn enum_use(tables: &Tables, name: &Name) -> Result<(), TypeFault>
    ensures { Gives result (spec.enum_use tables.now name.now) }
{
    match tag_of(tables, name.text.as_slice()) {
        Some(Tag::Enum) => Ok(()),
        Some(Tag::Struct(_)) => Err(at(20, name.place)),
        None => Err(at(20, name.place)),
    }
}

/// `enum e {` or `enum {` at file scope. It is E21 at a tag that is declared already.
pub fn begin_enum(alloc: Global, tables: &mut Tables, name: Option<&Name>) -> Result<(), TypeFault>
    ensures { Leaves result tables.new (spec.begin_enum (option_copied name.entry) tables.old) }
{
    match name {
        Some(name) => {
            if file_tag(tables, name.text.as_slice()).is_some() {
                return Err(at(21, name.place));
            }
            Ok(add_file_tag(alloc, tables, name, Tag::Enum)?)
        }
        None => Ok(()),
    }
}
