//! Attributes, reserved names, Non-secure function types and entry functions.

use c_rows::TypeFault;
use c_types::{Arith, CType};
use cm_base::{List, NoMemory, Place, Shared};
use cmse_rules::{entry_rule, has_secure_pointer, is_reserved, nonsecure_declared, reached_params};
use std::alloc::Global;
use std::test::Fail;

fn place(col: u32) -> Place {
    Place {
        unit: 0,
        line: 1,
        col,
    }
}

fn ints(alloc: Global, n: usize) -> Result<List<CType>, NoMemory> {
    let mut types = List::new(alloc);
    for _ in 0..n {
        types.push(CType::arith(Arith::Int))?;
    }
    Ok(types)
}

/// A pointer to a function of so many parameters of type int.
fn pointer_to_function(alloc: Global, params: usize) -> Result<CType, NoMemory> {
    let params = ints(alloc, params)?;
    let gives = Shared::new(alloc, CType::arith(Arith::Int))?;
    let function = CType::function(gives, params, false);
    Ok(CType::pointer_to(Shared::new(alloc, function)?))
}

fn is_secure_until_marked(alloc: Global) -> Result<bool, TypeFault> {
    let t = pointer_to_function(alloc, 4)?;
    let marked = nonsecure_declared(alloc, &t, place(7))?;
    Ok(has_secure_pointer(&t) && !has_secure_pointer(&marked) && reached_params(&marked) == Some(4))
}

fn five_parameters(alloc: Global) -> Result<bool, TypeFault> {
    let t = pointer_to_function(alloc, 5)?;
    let _marked = nonsecure_declared(alloc, &t, place(7))?;
    Ok(true)
}

fn no_function(alloc: Global) -> Result<bool, TypeFault> {
    let _marked = nonsecure_declared(alloc, &CType::arith(Arith::Int), place(7))?;
    Ok(true)
}

fn fault(code: u8) -> Result<bool, TypeFault> {
    Err(TypeFault::At {
        code,
        place: place(7),
    })
}

#[test]
fn names(rt: HostRuntime) -> Result<(), Fail> {
    assert!(rt; is_reserved(b"cmse_check".as_slice()));
    assert!(rt; is_reserved(b"__acle_se_f".as_slice()));
    assert!(rt; !is_reserved(b"cmse".as_slice()));
    assert!(rt; !is_reserved(b"CMSE_x".as_slice()));
    Ok(())
}

#[test]
fn entries(rt: HostRuntime) -> Result<(), Fail> {
    assert!(rt; entry_rule(true, 5, true) == Some(41));
    assert!(rt; entry_rule(true, 4, true) == Some(43));
    assert!(rt; entry_rule(true, 4, false) == None);
    assert!(rt; entry_rule(false, 8, true) == None);
    Ok(())
}

#[test]
fn pointers(rt: HostRuntime) -> Result<(), Fail> {
    assert!(rt; is_secure_until_marked(rt.alloc()) == Ok(true));
    assert!(rt; five_parameters(rt.alloc()) == fault(42));
    assert!(rt; no_function(rt.alloc()) == fault(40));
    Ok(())
}
