//! Where a constant is wanted.

ghost use Rattle.c_rows.specs.Answers.{Gives};
ghost use Rattle.c_rows.specs.Constants as spec;

use crate::fault::{TypeFault, at};
use c_const::constant;
use c_tree::Expr;
use c_types::MAX_SIZE;
use cm_base::Place;

/// The value of an integer constant expression (C11 6.6), a negative one modulo 2^32. `first` is the place of its first token.
///
/// # Errors
/// Code 24 at `first` where the expression is none.
pub fn integer_constant(e: &Expr, first: Place) -> Result<u32, TypeFault>
    ensures { Gives result (spec.integer_constant e.now first) }
{
    if !e.ctype.is_arithmetic() {
        return Err(at(24, first));
    }
    match constant(e) {
        Some(n) => Ok(n),
        None => Err(at(24, first)),
    }
}

/// The length of an array, from 1 to 49,152.
///
/// # Errors
/// Code 24 at `first`, the place of its first token, for all else.
pub fn array_length(e: &Expr, first: Place) -> Result<u32, TypeFault>
    ensures { Gives result (spec.array_length e.now first) }
{
    let n = integer_constant(e, first)?;
    if n == 0 || n > MAX_SIZE {
        return Err(at(24, first));
    }
    Ok(n)
}
