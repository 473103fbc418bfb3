//! The arithmetic types.

use c_types::{Arith, arith_size, common, is_unsigned, promoted};
use std::test::Fail;

/// A type, its promoted type, its bytes, and whether it is unsigned.
const TYPES: [(Arith, Arith, u32, bool); 9] = [
    (Arith::Char, Arith::Int, 1, true),
    (Arith::SignedChar, Arith::Int, 1, false),
    (Arith::UnsignedChar, Arith::Int, 1, true),
    (Arith::Short, Arith::Int, 2, false),
    (Arith::UnsignedShort, Arith::Int, 2, true),
    (Arith::Int, Arith::Int, 4, false),
    (Arith::Unsigned, Arith::Unsigned, 4, true),
    (Arith::Long, Arith::Long, 4, false),
    (Arith::UnsignedLong, Arith::UnsignedLong, 4, true),
];

/// Two types and the type in which an operation on both is done.
const COMMON: [(Arith, Arith, Arith); 9] = [
    (Arith::Char, Arith::UnsignedShort, Arith::Int),
    (Arith::Int, Arith::Int, Arith::Int),
    (Arith::Int, Arith::Unsigned, Arith::Unsigned),
    (Arith::Unsigned, Arith::Char, Arith::Unsigned),
    (Arith::Int, Arith::Long, Arith::Long),
    (Arith::Long, Arith::Short, Arith::Long),
    (Arith::Unsigned, Arith::Long, Arith::UnsignedLong),
    (Arith::Long, Arith::UnsignedLong, Arith::UnsignedLong),
    (Arith::UnsignedLong, Arith::Int, Arith::UnsignedLong),
];

#[test]
fn each(rt: HostRuntime) -> Result<(), Fail> {
    for (a, wide, bytes, unsigned) in TYPES {
        let right = promoted(a) == wide && arith_size(a) == bytes && is_unsigned(a) == unsigned;
        assert!(rt; right);
    }
    Ok(())
}

#[test]
fn two(rt: HostRuntime) -> Result<(), Fail> {
    for (a, b, both) in COMMON {
        let right = common(a, b) == both && common(b, a) == both;
        assert!(rt; right);
    }
    Ok(())
}
