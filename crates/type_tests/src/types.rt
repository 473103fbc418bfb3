//! Sizes, types that are one, derived types and conversions. All types are shared nodes, and a function owns few of them,
//! which keeps the proof of what is dropped small.

use c_types::{
    Arith, CType, Shape, casts, converts, pointer_converts, same_across_units, same_type,
    same_unqualified, type_align, type_size,
};
use cm_base::{List, NoMemory, Shared, Text};
use std::alloc::Global;
use std::test::Fail;

type Node = Shared<CType>;

fn arith(alloc: Global, a: Arith) -> Result<Node, NoMemory> {
    Shared::new(alloc, CType::arith(a))
}

fn void(alloc: Global) -> Result<Node, NoMemory> {
    Shared::new(alloc, CType::plain(Shape::Void))
}

fn pointer(alloc: Global, to: Node) -> Result<Node, NoMemory> {
    Shared::new(alloc, CType::pointer_to(to))
}

fn array(alloc: Global, of: Node, len: Option<u32>) -> Result<Node, NoMemory> {
    Shared::new(alloc, CType::array_of(of, len))
}

/// A struct with a tag of one letter.
fn structure(alloc: Global, number: u32, tag: u8, size: u32, align: u32) -> Result<Node, NoMemory> {
    let name: Text = List::from_slice(alloc, &[tag])?;
    let shape = Shape::Struct {
        number,
        name,
        size,
        align,
    };
    Shared::new(alloc, CType::plain(shape))
}

/// A function of one parameter that gives an int.
fn function(alloc: Global, param: &CType, nonsecure: bool) -> Result<Node, NoMemory> {
    let mut params = List::new(alloc);
    params.push(param.parameter(alloc)?)?;
    let gives = arith(alloc, Arith::Int)?;
    Shared::new(alloc, CType::function(gives, params, nonsecure))
}

fn qualified(
    alloc: Global,
    t: &CType,
    is_const: bool,
    is_volatile: bool,
) -> Result<Node, NoMemory> {
    Shared::new(alloc, t.qualified(alloc, is_const, is_volatile)?)
}

fn decayed(alloc: Global, t: &CType) -> Result<Node, NoMemory> {
    Shared::new(alloc, t.decayed(alloc)?)
}

fn pointer_to_int(alloc: Global) -> Result<Node, NoMemory> {
    pointer(alloc, arith(alloc, Arith::Int)?)
}

fn const_int(alloc: Global) -> Result<Node, NoMemory> {
    let int = arith(alloc, Arith::Int)?;
    qualified(alloc, int.get(), true, false)
}

fn has(t: &CType, size: u32, align: u32) -> bool {
    t.is_complete() && t.fits() && type_size(t) == Some(size) && type_align(t) == Some(align)
}

fn is_incomplete(t: &CType) -> bool {
    !t.is_complete() && t.fits() && type_size(t) == None && type_align(t) == None
}

fn array_has(alloc: Global, a: Arith, len: u32, size: u32, align: u32) -> Result<bool, NoMemory> {
    let t = array(alloc, arith(alloc, a)?, Some(len))?;
    Ok(has(t.get(), size, align))
}

/// Four arrays of three.
fn nested(alloc: Global) -> Result<bool, NoMemory> {
    let three = array(alloc, arith(alloc, Arith::Short)?, Some(3))?;
    let four = array(alloc, three, Some(4))?;
    Ok(has(four.get(), 24, 2))
}

fn too_large(alloc: Global) -> Result<bool, NoMemory> {
    let t = array(alloc, arith(alloc, Arith::Int)?, Some(12289))?;
    Ok(!t.get().fits())
}

fn without_length(alloc: Global) -> Result<bool, NoMemory> {
    let t = array(alloc, arith(alloc, Arith::Int)?, None)?;
    Ok(is_incomplete(t.get()))
}

fn of_void(alloc: Global) -> Result<bool, NoMemory> {
    let t = array(alloc, void(alloc)?, Some(2))?;
    Ok(is_incomplete(t.get()))
}

fn structs(alloc: Global) -> Result<bool, NoMemory> {
    let known = structure(alloc, 0, b's', 12, 4)?;
    let unknown = structure(alloc, 1, b't', 0, 0)?;
    Ok(has(known.get(), 12, 4) && is_incomplete(unknown.get()))
}

fn to_unknown(alloc: Global) -> Result<bool, NoMemory> {
    let t = pointer(alloc, structure(alloc, 1, b't', 0, 0)?)?;
    Ok(has(t.get(), 4, 4))
}

#[test]
fn sizes(rt: HostRuntime) -> Result<(), Fail> {
    assert!(rt; array_has(rt.alloc(), Arith::Char, 49152, 49152, 1)?);
    assert!(rt; array_has(rt.alloc(), Arith::Short, 3, 6, 2)?);
    assert!(rt; nested(rt.alloc())?);
    assert!(rt; too_large(rt.alloc())?);
    assert!(rt; without_length(rt.alloc())?);
    assert!(rt; of_void(rt.alloc())?);
    assert!(rt; structs(rt.alloc())?);
    assert!(rt; to_unknown(rt.alloc())?);
    Ok(())
}

/// A type's own qualifier is left aside where it is asked, and one of what is pointed to is not.
fn qualifiers(alloc: Global) -> Result<bool, NoMemory> {
    let to_int = pointer_to_int(alloc)?;
    let own = qualified(alloc, to_int.get(), false, true)?;
    let inner = pointer(alloc, const_int(alloc)?)?;
    Ok(
        !same_type(own.get(), to_int.get())
            && same_unqualified(own.get(), to_int.get())
            && !same_unqualified(inner.get(), to_int.get()),
    )
}

/// Structs of one unit are told by their numbers, and structs of two units by their tags and layouts.
fn structs_differ(alloc: Global) -> Result<bool, NoMemory> {
    let first = structure(alloc, 0, b's', 8, 4)?;
    let again = structure(alloc, 0, b's', 0, 0)?;
    let other = structure(alloc, 1, b's', 8, 2)?;
    Ok(
        same_type(first.get(), again.get())
            && !same_type(first.get(), other.get())
            && same_across_units(again.get(), other.get())
            && !same_across_units(first.get(), other.get()),
    )
}

/// A function's type has its parameters adjusted and without their own qualifiers.
fn functions_differ(alloc: Global) -> Result<bool, NoMemory> {
    let three = array(alloc, arith(alloc, Arith::Int)?, Some(3))?;
    let of_array = function(alloc, three.get(), false)?;
    let to_int = pointer_to_int(alloc)?;
    let own = qualified(alloc, to_int.get(), false, true)?;
    let of_pointer = function(alloc, own.get(), false)?;
    Ok(same_type(of_array.get(), of_pointer.get()))
}

fn sides_differ(alloc: Global) -> Result<bool, NoMemory> {
    let to_int = pointer_to_int(alloc)?;
    let secure = function(alloc, to_int.get(), false)?;
    let nonsecure = function(alloc, to_int.get(), true)?;
    Ok(!same_type(secure.get(), nonsecure.get()))
}

#[test]
fn same_types(rt: HostRuntime) -> Result<(), Fail> {
    assert!(rt; qualifiers(rt.alloc())?);
    assert!(rt; structs_differ(rt.alloc())?);
    assert!(rt; functions_differ(rt.alloc())?);
    assert!(rt; sides_differ(rt.alloc())?);
    Ok(())
}

/// An array's qualifiers are those of its elements, and it becomes a pointer to them.
fn arrays_become_pointers(alloc: Global) -> Result<bool, NoMemory> {
    let bytes = array(alloc, arith(alloc, Arith::Char)?, Some(2))?;
    let constants = qualified(alloc, bytes.get(), true, false)?;
    let to = decayed(alloc, constants.get())?;
    let element = match to.get().referenced() {
        Some(byte) => byte.is_const && byte.arithmetic() == Some(Arith::Char),
        None => false,
    };
    Ok(constants.get().is_array() && !constants.get().is_const && element)
}

/// A function becomes a pointer to itself.
fn functions_become_pointers(alloc: Global) -> Result<bool, NoMemory> {
    let int = arith(alloc, Arith::Int)?;
    let called = function(alloc, int.get(), true)?;
    let to = decayed(alloc, called.get())?;
    let itself = match to.get().referenced() {
        Some(found) => found.is_nonsecure_function() && same_type(found, called.get()),
        None => false,
    };
    Ok(itself && !called.get().is_object() && !called.get().is_result() && to.get().is_scalar())
}

/// Other types stay.
fn others_stay(alloc: Global) -> Result<bool, NoMemory> {
    let t = const_int(alloc)?;
    let same = decayed(alloc, t.get())?;
    Ok(same_type(same.get(), t.get()))
}

#[test]
fn derived_types(rt: HostRuntime) -> Result<(), Fail> {
    assert!(rt; arrays_become_pointers(rt.alloc())?);
    assert!(rt; functions_become_pointers(rt.alloc())?);
    assert!(rt; others_stay(rt.alloc())?);
    Ok(())
}

/// A pointer may gain qualifiers of what it points to, and lose none.
fn qualifiers_are_kept(alloc: Global) -> Result<bool, NoMemory> {
    let to_int = pointer_to_int(alloc)?;
    let to_const = pointer(alloc, const_int(alloc)?)?;
    let to_void = pointer(alloc, void(alloc)?)?;
    Ok(
        pointer_converts(to_int.get(), to_const.get())
            && !pointer_converts(to_const.get(), to_int.get())
            && pointer_converts(to_int.get(), to_void.get())
            && pointer_converts(to_void.get(), to_const.get())
            && !pointer_converts(to_const.get(), to_void.get()),
    )
}

/// No function is reached through `void *`.
fn functions_convert_to_none(alloc: Global) -> Result<bool, NoMemory> {
    let to_void = pointer(alloc, void(alloc)?)?;
    let to_function = pointer(alloc, function(alloc, to_void.get(), false)?)?;
    Ok(
        to_void.get().is_void_pointer()
            && !pointer_converts(to_void.get(), to_function.get())
            && !pointer_converts(to_function.get(), to_void.get())
            && casts(to_function.get(), to_void.get()),
    )
}

/// An integer becomes a pointer implicitly as a null constant alone.
fn integers_convert(alloc: Global) -> Result<bool, NoMemory> {
    let int = arith(alloc, Arith::Int)?;
    let byte = arith(alloc, Arith::Char)?;
    let to_void = pointer(alloc, void(alloc)?)?;
    Ok(
        converts(int.get(), byte.get(), false)
            && converts(int.get(), to_void.get(), true)
            && !converts(int.get(), to_void.get(), false)
            && !converts(to_void.get(), int.get(), false)
            && casts(to_void.get(), int.get()),
    )
}

#[test]
fn conversions(rt: HostRuntime) -> Result<(), Fail> {
    assert!(rt; qualifiers_are_kept(rt.alloc())?);
    assert!(rt; functions_convert_to_none(rt.alloc())?);
    assert!(rt; integers_convert(rt.alloc())?);
    Ok(())
}
