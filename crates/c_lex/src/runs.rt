//! Runs of bytes at the front of a text.

ghost use Rattle.std.specs.Prelude.{◌≡◌, length, MatchOption, Some, None};
ghost use Rattle.c_lex.specs.Classes.{is_in};
ghost use Rattle.c_lex.specs.Reading as spec;

use crate::class::Class;

/// How long the longest run of the class is.
#[inline(always)]
#[tactic(auto, using(crate::proofs::RunLaws::loops))]
fn run_len(class: Class, text: &[u8]) -> usize
    ensures { result ≡ length (spec.front (is_in class) text.now) }
{
    for (i, b) in text.iter().enumerate() {
        if !class.has(*b) {
            return i;
        }
    }
    text.len()
}

/// The longest run of the class, and what is behind it.
#[inline(always)]
#[tactic(auto, using(crate::proofs::RunLaws::runs))]
pub fn run(class: Class, text: &[u8]) -> (&[u8], &[u8])
    ensures front { result.0.now ≡ spec.front (is_in class) text.now }
    ensures back { result.1.now ≡ spec.back (is_in class) text.now }
{
    text.split_at(run_len(class, text))
}

/// What is behind one byte of the class.
pub fn behind(class: Class, text: &[u8]) -> Option<&[u8]>
    ensures { MatchOption result (spec.behind (is_in class) text.now ≡ None) (λ r. spec.behind (is_in class) text.now ≡ Some r.now) }
{
    match text {
        [b, rest @ ..] => { if class.has(*b) { Some(rest) } else { None } }
        [] => None,
    }
}

/// What is behind `prefix`.
#[tactic(auto, unfolding(crate::specs::Reading::strip))]
pub fn strip<'a>(text: &'a [u8], prefix: &[u8]) -> Option<&'a [u8]>
    ensures { MatchOption result (spec.strip text.now prefix.now ≡ None) (λ r. spec.strip text.now prefix.now ≡ Some r.now) }
{
    text.strip_prefix(prefix)
}
