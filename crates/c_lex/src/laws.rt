//! Laws over the definitions alone.

ghost use Rattle.std.specs.Prelude.{◌≡◌, List, ℕ};
ghost use Rattle.c_lex.specs.declared.token.Token as the;
ghost use Rattle.cm_base.specs.declared.place.Place as the_place;
ghost use Rattle.c_lex.specs.Tokens.{HasTokens, FirstFault};
ghost use Rattle.c_lex.specs.Answer.{HasAnswer};

/// A text has exactly one list of tokens, or exactly one first fault.
pub fn one_split()
    ensures some { (unit : ℕ) (text : List ℕ) → HasAnswer unit text }
    ensures one_list { (unit : ℕ) (text : List ℕ) (a b : List the.Token) →
        HasTokens unit text a → HasTokens unit text b → a ≡ b }
    ensures not_both { (unit : ℕ) (text : List ℕ) (a : List the.Token) (code : ℕ) (place : the_place.Place) →
        HasTokens unit text a → FirstFault unit text code place → ⊥ }
    ensures one_fault { (unit : ℕ) (text : List ℕ) (a b : ℕ) (p q : the_place.Place) →
        FirstFault unit text a p → FirstFault unit text b q → (a ≡ b) × (p ≡ q) }
{}
