//! Sets of variables, with a Boolean for each of a function's variables.
ghost use Rattle.std.specs.Prelude.{◌≡◌, false, IfOk, replicate, slice_set};
ghost use Rattle.live.specs.Sets as spec;

use cm_base::{List, NoMemory};
use std::alloc::Global;

/// Puts a variable into a set, or takes it out of it. There is no such variable where the number is too large.
pub fn put(xs: &mut List<bool>, v: usize, is_in: bool)
    ensures { xs.new ≡ slice_set xs.old v is_in }
{
    if v < xs.len() {
        xs.set(v, is_in);
    }
}

/// Puts variables into a set.
pub fn put_all(xs: &mut List<bool>, vs: &[u32])
    ensures { xs.new ≡ spec.with_all xs.old vs.now }
{
    for v in vs {
        put(xs, *v as usize, true);
    }
}

/// The empty set of so many variables.
pub fn nothing(alloc: Global, vars: usize) -> Result<List<bool>, NoMemory>
    ensures { IfOk result (λ xs. xs ≡ replicate vars false) }
{
    let mut xs = List::new(alloc);
    for _i in 0..vars {
        xs.push(false)?;
    }
    Ok(xs)
}

/// The number of a variable; there is no memory for so many that it is too large for one.
fn numbered(i: usize) -> Result<u32, NoMemory>
    ensures { IfOk result (λ n. n ≡ i) }
{
    match u32::try_from(i) {
        Ok(n) => Ok(n),
        Err(_) => Err(NoMemory),
    }
}

/// The variables in a set, ascending.
pub fn members(alloc: Global, xs: &[bool]) -> Result<List<u32>, NoMemory>
    ensures { IfOk result (λ vs. vs ≡ spec.members xs.now) }
{
    let mut vs = List::new(alloc);
    for (i, is_in) in xs.iter().enumerate() {
        if *is_in {
            vs.push(numbered(i)?)?;
        }
    }
    Ok(vs)
}

/// Puts what is in `more` into a set.
pub fn join(xs: &mut List<bool>, more: &[bool])
    ensures { xs.new ≡ spec.either xs.old more.now }
{
    for (i, is_in) in more.iter().enumerate() {
        if *is_in {
            put(xs, i, true);
        }
    }
}

/// Puts the first so many variables into a set.
pub fn put_first(xs: &mut List<bool>, many: usize)
    ensures { xs.new ≡ spec.with_first many xs.old }
{
    for i in 0..many {
        put(xs, i, true);
    }
}
