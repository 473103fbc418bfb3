//! Where a byte stands.

ghost use Rattle.std.specs.Prelude.{◌≡◌, ◌+◌, ◌<◌, ◌^◌, length};

use crate::class::Class;
use cm_base::Place;

/// Where a byte stands, and whether it is the first of its line but for blanks.
#[derive(Clone, Copy)]
pub struct Spot {
    pub line: u32,
    pub col: u32,
    pub fresh: bool,
}

impl Spot {
    ghost use Rattle.c_lex.specs.Spot as spec;

    /// Where a text begins.
    pub fn start() -> Spot
        ensures { result ≡ spec.start }
    {
        Spot {
            line: 1,
            col: 1,
            fresh: true,
        }
    }

    #[inline(always)]
    #[tactic(auto, unfolding(crate::specs::Spot::past))]
    fn past(self, b: u8) -> Spot
        requires line { self.line + 1 < 2 ^ 32 }
        requires col { self.col + 1 < 2 ^ 32 }
        ensures { result ≡ spec.past self b }
    {
        if b == b'\n' {
            return Spot {
                line: self.line + 1,
                col: 1,
                fresh: true,
            };
        }
        Spot {
            line: self.line,
            col: self.col + 1,
            fresh: self.fresh && Class::Blank.has(b),
        }
    }

    /// Where what follows these bytes stands.
    #[tactic(auto, using(crate::proofs::Spots::spots))]
    pub fn after(self, bytes: &[u8]) -> Spot
        requires line { self.line + length bytes.now < 2 ^ 32 }
        requires col { self.col + length bytes.now < 2 ^ 32 }
        ensures { result ≡ spec.after self bytes.now }
    {
        let mut spot = self;
        for b in bytes {
            spot = spot.past(*b);
        }
        spot
    }

    pub fn place(self, unit: u32) -> Place
        ensures { result ≡ spec.place_of unit self }
    {
        Place {
            unit,
            line: self.line,
            col: self.col,
        }
    }
}
