//! The earliest of names at places.
ghost use Rattle.std.specs.Prelude.{◌≡◌, None, option_map};
ghost use Rattle.join_laws.specs.Uses as spec;

use cm_base::Place;
use std::marker::Model;

/// The earliest name so far.
#[derive(Drop)]
pub struct Earliest<'a> {
    found: Option<(&'a [u8], Place)>,
}

impl<'a> Model for Earliest<'a> {
    ghost use Rattle.std.specs.Prelude.{Option, option_map};
    ghost use Rattle.join_laws.specs.Uses as spec;

    ghost Value = { Option spec.Named };

    ghost view = { λ it. option_map (λ x. record { name = x.0.now; place = x.1 }) it.found };
}

impl<'a> Earliest<'a> {
    /// No name yet.
    pub fn none() -> Earliest<'a>
        ensures { result ≡ None }
    {
        Earliest { found: None }
    }

    /// Takes a name that stands before the one so far.
    pub fn offer(&mut self, name: &'a [u8], place: Place)
        ensures { self.new ≡ spec.earlier self.old (record { name = name.now; place = place }) }
    {
        match self.found {
            None => self.found = Some((name, place)),
            Some((_, best)) => {
                if is_before(place, best) {
                    self.found = Some((name, place));
                }
            }
        }
    }

    pub fn name(&self) -> Option<&'a [u8]>
        ensures { option_map (λ n. n.now) result ≡ option_map (λ x. x.name) self.now }
    {
        match self.found {
            None => None,
            Some((name, _)) => Some(name),
        }
    }
}

/// By unit, then by line, then by column.
fn is_before(p: Place, q: Place) -> bool
    ensures { result ≡ spec.is_before p q }
{
    p.unit < q.unit || p.unit == q.unit && (p.line < q.line || p.line == q.line && p.col < q.col)
}
