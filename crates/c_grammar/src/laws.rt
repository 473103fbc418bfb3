//! Laws over the grammar and its reading.

ghost use Rattle.std.specs.Prelude.{◌≡◌, ℕ, List, [], Ok};
ghost use Rattle.c_lex.specs.declared.token.Token as lexed;
ghost use Rattle.c_grammar.specs.Reading.{Unit_so_far, read_unit};
ghost use Rattle.c_grammar.specs.Units.{Derives};

/// A unit that is read to the end of the tokens derives from them, whatever number of levels is left.
pub fn sound_law()
    ensures { (n : ℕ) (ts : List lexed.Token) (u : Unit_so_far) (rest : List lexed.Token) → rest ≡ [] → read_unit n ts ≡ Ok (u, rest) → Derives ts u.1 }
{}
