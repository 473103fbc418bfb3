//! What a call of a function needs to know.

ghost use Rattle.std.specs.Prelude.{◌≡◌};
ghost use Rattle.c_world.specs.Plans as spec;
ghost use Rattle.c_mean.specs.Values as values;

use c_const::narrowed;
use c_types::{Arith, CType, Shape, arith_size};
use cm_base::List;

/// What a function makes of the value that it gives.
#[derive(Clone, Copy)]
pub enum Gives {
    /// The value as it is.
    Same,
    /// 0, since it gives nothing.
    Nothing,
    /// The value in this type.
    Narrowed(Arith),
}

/// A function, as its calls see it.
#[derive(Drop)]
pub struct Plan {
    /// Where each parameter and local stands in the block, parameters first, if it is placed.
    pub offsets: List<Option<u32>>,
    /// The bytes of the block.
    pub bytes: u32,
    /// The stack that an active call needs, in bytes.
    pub need: u64,
    pub gives: Gives,
}

/// An activation, or the place that calls from Non-secure code come from: how many more functions may be active, the need of
/// those that are, the block of this one, and the first byte behind it.
#[derive(Clone, Copy)]
pub struct At {
    pub deep: u32,
    pub load: u64,
    pub block: u32,
    pub top: u32,
    /// Whether Non-secure code called it.
    pub from_ns: bool,
}

/// A word converted to a type.
pub fn converted(t: &CType, x: u32) -> u32
    ensures { result ≡ values.converted t.now x }
{
    match &t.shape {
        Shape::Arith(a) => in_type(*a, x),
        _ => x,
    }
}

/// A word converted to an arithmetic type.
fn in_type(a: Arith, x: u32) -> u32
    ensures { result ≡ spec.in_type a x }
{
    if arith_size(a) == 4 {
        return x;
    }
    narrowed(a, x)
}

/// What `return` makes of a value.
pub fn finished(gives: Gives, x: u32) -> u32
    ensures { result ≡ spec.finished gives x }
{
    match gives {
        Gives::Same => x,
        Gives::Nothing => 0,
        Gives::Narrowed(a) => in_type(a, x),
    }
}
