//! Types as they stand now.

ghost use Rattle.std.specs.Prelude.{◌≡◌, IfOk, slice_get};
ghost use Rattle.c_scope.specs.Refresh as spec;

use crate::tables::StructInfo;
use c_types::{CType, Shape};
use cm_base::{List, NoMemory, Shared, Text};
use std::alloc::Global;

/// The type with each struct as its table has it now.
#[cycle(refresh)]
pub fn refreshed(alloc: Global, t: &CType, structs: &[StructInfo]) -> Result<CType, NoMemory>
    ensures { IfOk result (λ r. r ≡ spec.refreshed structs.now t.now) }
{
    Ok(CType {
        shape: refreshed_shape(alloc, &t.shape, structs)?,
        is_const: t.is_const,
        is_volatile: t.is_volatile,
    })
}

#[cycle(refresh)]
fn refreshed_shape(alloc: Global, shape: &Shape, structs: &[StructInfo]) -> Result<Shape, NoMemory>
    ensures { IfOk result (λ r. r ≡ spec.refreshed_shape structs.now shape.now) }
{
    match shape {
        Shape::Void => Ok(Shape::Void),
        Shape::Arith(a) => Ok(Shape::Arith(*a)),
        Shape::Pointer(to) => {
            let to = refreshed(alloc, to.get(), structs)?;
            Ok(Shape::Pointer(Shared::new(alloc, to)?))
        }
        Shape::Array { of, len } => {
            let of = refreshed(alloc, of.get(), structs)?;
            Ok(Shape::Array {
                of: Shared::new(alloc, of)?,
                len: *len,
            })
        }
        Shape::Struct {
            number,
            name,
            size,
            align,
        } => {
            let name = name.try_clone(alloc)?;
            Ok(struct_now(*number, name, *size, *align, structs))
        }
        Shape::Function {
            gives,
            params,
            nonsecure,
        } => {
            let gives = refreshed(alloc, gives.get(), structs)?;
            let params = all_refreshed(alloc, params.as_slice(), structs)?;
            Ok(Shape::Function {
                gives: Shared::new(alloc, gives)?,
                params,
                nonsecure: *nonsecure,
            })
        }
    }
}

/// A struct as its table has it, where there is one.
fn struct_now(number: u32, name: Text, size: u32, align: u32, structs: &[StructInfo]) -> Shape
    ensures { result ≡ spec.struct_now number name size align (slice_get structs.now number) }
{
    match structs.get(number as usize) {
        Some(info) => Shape::Struct {
            number,
            name,
            size: info.size,
            align: info.align,
        },
        None => Shape::Struct {
            number,
            name,
            size,
            align,
        },
    }
}

#[cycle(refresh)]
fn all_refreshed(
    alloc: Global,
    ts: &[CType],
    structs: &[StructInfo],
) -> Result<List<CType>, NoMemory>
    ensures { IfOk result (λ r. r ≡ spec.all_refreshed structs.now ts.now) }
{
    let mut done = List::new(alloc);
    for t in ts {
        done.push(refreshed(alloc, t, structs)?)?;
    }
    Ok(done)
}
