//! Whether variables that are live together share a place.
ghost use Rattle.std.specs.Prelude.{◌≡◌};
ghost use Rattle.live.specs.Clash as spec;
ghost use Rattle.live.specs.Live.{lives as points_of_function};

use crate::lives::{Lives, Point};
use crate::places::{Places, Where};
use mid_ir::MidFn;

fn same_place(p: Where, q: Where) -> bool
    ensures { result ≡ spec.same_place p q }
{
    match (p, q) {
        (Where::Register(a), Where::Register(b)) => a == b,
        (Where::Frame(a), Where::Frame(b)) => a == b,
        (Where::Register(_), Where::Frame(_)) | (Where::Frame(_), Where::Register(_)) => false,
    }
}

/// Whether two variables have one place.
fn shares(places: &[Where], v: u32, w: u32) -> bool
    ensures { result ≡ spec.shares places.now v w }
{
    match (places.get(v as usize), places.get(w as usize)) {
        (Some(p), Some(q)) => same_place(*p, *q),
        _ => false,
    }
}

/// The first of these variables that has the place of another.
fn first_sharing(places: &[Where], v: u32, vs: &[u32]) -> Option<u32>
    ensures { result ≡ spec.first_sharing places.now v vs.now }
{
    for w in vs {
        if shares(places, v, *w) {
            return Some(*w);
        }
    }
    None
}

/// The least pair of ascending variables that have one place.
fn pair_in(places: &[Where], vs: &[u32]) -> Option<(u32, u32)>
    ensures { result ≡ spec.pair_in places.now vs.now }
{
    for (i, v) in vs.iter().enumerate() {
        if let Some(w) = first_sharing(places, *v, &vs[i + 1..]) {
            return Some((*v, w));
        }
    }
    None
}

fn is_less(p: (u32, u32), q: (u32, u32)) -> bool
    ensures { result ≡ spec.is_less p q }
{
    p.0 < q.0 || (p.0 == q.0 && p.1 < q.1)
}

fn lesser(p: Option<(u32, u32)>, q: Option<(u32, u32)>) -> Option<(u32, u32)>
    ensures { result ≡ spec.lesser p q }
{
    match (p, q) {
        (None, q) => q,
        (Some(p), None) => Some(p),
        (Some(p), Some(q)) => Some(if is_less(q, p) { q } else { p }),
    }
}

/// The least of a clash that was found and of those at these points.
fn least_from(places: &[Where], found: Option<(u32, u32)>, points: &[Point]) -> Option<(u32, u32)>
    ensures { result ≡ spec.least_from places.now found points.now }
{
    let mut least = found;
    for p in points {
        least = lesser(least, pair_in(places, p.before.as_slice()));
        least = lesser(least, pair_in(places, p.after.as_slice()));
    }
    least
}

/// The least pair of variables of a function that are live at one point and share a place, by the first number and then by
/// the second. `lives` are the function's. It takes no memory.
pub fn clash(f: &MidFn, lives: &Lives, places: &Places) -> Option<(u32, u32)>
    requires { lives.now.list ≡ points_of_function f.now }
    ensures { result ≡ spec.clash places.now.list (points_of_function f.now) }
{
    let _ = f;
    least_from(places.list.as_slice(), None, lives.list.as_slice())
}
