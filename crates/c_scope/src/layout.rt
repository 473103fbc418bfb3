//! The layout of structs, and members by name.

ghost use Rattle.std.specs.Prelude.{◌≡◌, ◌<◌, ◌≤◌, ◌+◌, ◌^◌, option_copied};
ghost use Rattle.c_scope.specs.Lookup.{at_place};
ghost use Rattle.c_rows.specs.Answers.{Gives};
ghost use Rattle.c_scope.specs.Layout as spec;
ghost use Rattle.c_scope.specs.Steps.{Leaves};
ghost use Rattle.c_tree.specs.Globals as globals;

use crate::refresh::refreshed;
use crate::tables::{Layout, Member, StructInfo, Tables};
use c_ast::Name;
use c_rows::{TypeFault, at};
use c_types::{CType, Shape, type_align, type_size};
use cm_base::{List, Place};
use cmse_rules::has_secure_pointer;
use std::alloc::Global;

/// What a struct has at most, and one byte more.
const TOO_LARGE: u64 = 49_153;

/// A member: its type as it stands now, and how many bytes into the struct it begins.
#[derive(Drop)]
pub struct Found {
    pub ctype: CType,
    pub offset: u32,
}

fn round_up(at: u64, n: u64) -> u64
    requires positive { 0 < n }
    requires small { (at < 2 ^ 50) × (n < 2 ^ 32) }
    ensures value { result ≡ globals.round_up at n }
    ensures near { result < at + n }
{
    at + (n - at % n) % n
}

/// The least multiple of an alignment that isn't below a number of bytes.
pub fn rounded(bytes: u32, align: u32) -> u64
    ensures value { result ≡ spec.rounded bytes align }
    ensures near { result < 2 ^ 33 }
{
    round_up(u64::from(bytes), u64::from(align).max(1))
}

/// A number of bytes, or one more than a struct may have.
fn capped(bytes: u64) -> u32
    ensures value { result ≡ spec.capped bytes }
    ensures small { result ≤ 49153 }
{
    bytes.min(TOO_LARGE) as u32
}

impl Layout {
    /// One more member, at the next multiple of its alignment. At its name it is E21 where the struct has the name already,
    /// E24 where its type is too large, E25 where that is incomplete, E29 where a pointer to a Secure function stands in it.
    pub fn add(&mut self, alloc: Global, name: &Name, ctype: CType) -> Result<(), TypeFault>
        ensures { Leaves result self.new (spec.added name.now ctype self.old) }
    {
        if place_of(self.members.as_slice(), name.text.as_slice()).is_some() {
            return Err(at(21, name.place));
        }
        if !ctype.fits() {
            return Err(at(24, name.place));
        }
        match type_size(&ctype) {
            Some(size) => match type_align(&ctype) {
                Some(align) => self.place(alloc, name, ctype, size, align),
                None => Err(at(25, name.place)),
            },
            None => Err(at(25, name.place)),
        }
    }

    /// Places a member of this size and alignment behind the others.
    fn place(
        &mut self,
        alloc: Global,
        name: &Name,
        ctype: CType,
        size: u32,
        align: u32,
    ) -> Result<(), TypeFault>
        ensures { Leaves result self.new (spec.placed_as name.now ctype self.old (Some size) (Some align)) }
    {
        if has_secure_pointer(&ctype) {
            return Err(at(29, name.place));
        }
        let offset = capped(rounded(self.size, align));
        let text = List::from_slice(alloc, name.text.as_slice())?;
        self.members.push(Member {
            name: text,
            ctype,
            offset,
        })?;
        self.size = capped(u64::from(offset) + u64::from(size));
        self.align = self.align.max(align);
        Ok(())
    }
}

fn place_of(members: &[Member], text: &[u8]) -> Option<usize>
    ensures { result ≡ spec.member_place members.now text.now }
{
    members.iter().position(|m| m.name.as_slice() == text)
}

/// The member of a struct type by its name. At the operator it is E22 where the type has no members and E25 where the struct
/// isn't complete, and at the name E20 where there is no such member.
pub fn member_of(
    alloc: Global,
    t: &CType,
    tables: &Tables,
    dot: Place,
    name: &Name,
) -> Result<Found, TypeFault>
    ensures { Gives result (spec.member_of tables.now t.now dot name.now) }
{
    match &t.shape {
        Shape::Struct { number, .. } => match tables.structs.get(*number as usize) {
            Some(info) => member_in(alloc, info, tables, dot, name),
            None => Err(at(25, dot)),
        },
        _ => Err(at(22, dot)),
    }
}

fn member_in(
    alloc: Global,
    info: &StructInfo,
    tables: &Tables,
    dot: Place,
    name: &Name,
) -> Result<Found, TypeFault>
    ensures { Gives result (spec.found_in tables.now dot name.now (Some info.now)) }
{
    if info.size == 0 {
        return Err(at(25, dot));
    }
    match member_named(info.members.as_slice(), name.text.as_slice()) {
        Some(m) => Ok(Found {
            ctype: refreshed(alloc, &m.ctype, tables.structs.as_slice())?,
            offset: m.offset,
        }),
        None => Err(at(20, name.place)),
    }
}

fn member_named<'a>(members: &'a [Member], text: &[u8]) -> Option<&'a Member>
    ensures { option_copied result ≡ at_place members.now (spec.member_place members.now text.now) }
{
    match place_of(members, text) {
        Some(i) => members.get(i),
        None => None,
    }
}
