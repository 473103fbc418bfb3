//! What the headers declare.

ghost use Rattle.std.specs.Prelude.{◌≡◌};
ghost use Rattle.c_scope.specs.Headers as spec;
ghost use Rattle.c_scope.specs.Steps.{Leaves};

use crate::file_scope::{add_meaning, is_declared};
use crate::tables::{Meaning, Tables};
use c_lex::token::Header;
use c_rows::{Intrinsic, TypeFault, at};
use c_types::{Arith, CType};
use cm_base::Place;
use std::alloc::Global;

/// A name that a header declares.
#[derive(Clone, Copy, Debug, PartialEq, Eq)]
enum HeaderName {
    Int8T,
    Uint8T,
    Int16T,
    Uint16T,
    Int32T,
    Uint32T,
    IntptrT,
    UintptrT,
    SizeT,
    NullPointer,
    MpuReadWrite,
    AuNonsecure,
    MpuUnpriv,
    MpuRead,
    MpuNonsecure,
    Nonsecure,
    CheckAddressRange,
    CheckPointedObject,
    NsfptrCreate,
    IsNsfptr,
    NonsecureCaller,
}

const STD_INT: [HeaderName; 8] = [
    HeaderName::Int8T,
    HeaderName::Uint8T,
    HeaderName::Int16T,
    HeaderName::Uint16T,
    HeaderName::Int32T,
    HeaderName::Uint32T,
    HeaderName::IntptrT,
    HeaderName::UintptrT,
];

const ARM_CMSE: [HeaderName; 13] = [
    HeaderName::SizeT,
    HeaderName::NullPointer,
    HeaderName::MpuReadWrite,
    HeaderName::AuNonsecure,
    HeaderName::MpuUnpriv,
    HeaderName::MpuRead,
    HeaderName::MpuNonsecure,
    HeaderName::Nonsecure,
    HeaderName::CheckAddressRange,
    HeaderName::CheckPointedObject,
    HeaderName::NsfptrCreate,
    HeaderName::IsNsfptr,
    HeaderName::NonsecureCaller,
];

/// The name as it is spelled.
fn text_of(name: HeaderName) -> &'static str
    ensures { result.now ≡ spec.text_of name }
{
    match name {
        HeaderName::Int8T => "int8_t",
        HeaderName::Uint8T => "uint8_t",
        HeaderName::Int16T => "int16_t",
        HeaderName::Uint16T => "uint16_t",
        HeaderName::Int32T => "int32_t",
        HeaderName::Uint32T => "uint32_t",
        HeaderName::IntptrT => "intptr_t",
        HeaderName::UintptrT => "uintptr_t",
        HeaderName::SizeT => "size_t",
        HeaderName::NullPointer => "NULL",
        HeaderName::MpuReadWrite => "CMSE_MPU_READWRITE",
        HeaderName::AuNonsecure => "CMSE_AU_NONSECURE",
        HeaderName::MpuUnpriv => "CMSE_MPU_UNPRIV",
        HeaderName::MpuRead => "CMSE_MPU_READ",
        HeaderName::MpuNonsecure => "CMSE_MPU_NONSECURE",
        HeaderName::Nonsecure => "CMSE_NONSECURE",
        HeaderName::CheckAddressRange => "cmse_check_address_range",
        HeaderName::CheckPointedObject => "cmse_check_pointed_object",
        HeaderName::NsfptrCreate => "cmse_nsfptr_create",
        HeaderName::IsNsfptr => "cmse_is_nsfptr",
        HeaderName::NonsecureCaller => "cmse_nonsecure_caller",
    }
}

fn type_of(a: Arith) -> Meaning
    ensures { result ≡ spec.type_of a }
{
    Meaning::Typedef(CType::arith(a))
}

/// What the name means.
fn meaning_of(name: HeaderName) -> Meaning
    ensures { result ≡ spec.meaning_of name }
{
    match name {
        HeaderName::Int8T => type_of(Arith::SignedChar),
        HeaderName::Uint8T => type_of(Arith::UnsignedChar),
        HeaderName::Int16T => type_of(Arith::Short),
        HeaderName::Uint16T => type_of(Arith::UnsignedShort),
        HeaderName::Int32T => type_of(Arith::Int),
        HeaderName::Uint32T => type_of(Arith::Unsigned),
        HeaderName::IntptrT => type_of(Arith::Int),
        HeaderName::UintptrT => type_of(Arith::Unsigned),
        HeaderName::SizeT => type_of(Arith::Unsigned),
        HeaderName::NullPointer => Meaning::Null,
        HeaderName::MpuReadWrite => Meaning::Constant(1),
        HeaderName::AuNonsecure => Meaning::Constant(2),
        HeaderName::MpuUnpriv => Meaning::Constant(4),
        HeaderName::MpuRead => Meaning::Constant(8),
        HeaderName::MpuNonsecure => Meaning::Constant(16),
        HeaderName::Nonsecure => Meaning::Constant(18),
        HeaderName::CheckAddressRange => Meaning::Intrinsic(Intrinsic::CheckRange),
        HeaderName::CheckPointedObject => Meaning::Intrinsic(Intrinsic::CheckObject),
        HeaderName::NsfptrCreate => Meaning::Intrinsic(Intrinsic::CreatePointer),
        HeaderName::IsNsfptr => Meaning::Intrinsic(Intrinsic::IsPointer),
        HeaderName::NonsecureCaller => Meaning::Intrinsic(Intrinsic::Caller),
    }
}

/// Declares a name of a header.
#[tactic(auto, unfolding(crate::specs::Headers::header_name))]
fn header_name(
    alloc: Global,
    tables: &mut Tables,
    name: HeaderName,
    place: Place,
) -> Result<(), TypeFault>
    ensures { Leaves result tables.new (spec.header_name name place tables.old) }
{
    let text = text_of(name).as_bytes();
    if is_declared(tables, text) {
        return Err(at(21, place));
    }
    Ok(add_meaning(alloc, tables, text, meaning_of(name))?)
}

fn header_names(
    alloc: Global,
    tables: &mut Tables,
    names: &[HeaderName],
    place: Place,
) -> Result<(), TypeFault>
    ensures { Leaves result tables.new (spec.header_names names.now place tables.old) }
{
    for name in names {
        header_name(alloc, tables, *name, place)?;
    }
    Ok(())
}

/// `#include`. A repeated one says nothing. It is E21 where file scope has one of the header's names already.
pub fn include(
    alloc: Global,
    tables: &mut Tables,
    header: Header,
    place: Place,
) -> Result<(), TypeFault>
    ensures { Leaves result tables.new (spec.include header place tables.old) }
{
    match header {
        Header::StdInt => {
            if tables.has_std_int {
                return Ok(());
            }
            tables.has_std_int = true;
            header_names(alloc, tables, &STD_INT, place)
        }
        Header::ArmCmse => {
            if tables.has_arm_cmse {
                return Ok(());
            }
            tables.has_arm_cmse = true;
            header_names(alloc, tables, &ARM_CMSE, place)
        }
    }
}
