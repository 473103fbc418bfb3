//! Completeness of reading: each unit that the tokens derive is read, and there is one at most.

ghost use Rattle.std.specs.Prelude.{◌≡◌, ℕ, List, [], Some, None, Ok, Err};
ghost use Rattle.c_lex.specs.declared.token.Token as lexed;
ghost use Rattle.c_ast.specs.declared.stmt.External as tree;
ghost use Rattle.c_grammar.specs.declared.tokens.Fault.TheVariants as fault;
ghost use Rattle.c_grammar.specs.Reading.{Unit_so_far, read_unit};
ghost use Rattle.c_grammar.specs.Units.{Derives};
ghost use Rattle.c_grammar.specs.Nesting.{deep_unit};

/// A unit that the tokens derive, and none of whose tokens is nested deeper than n, is read where n levels are left.
pub fn complete_law()
    ensures { (n : ℕ) (ts : List lexed.Token) (all : List tree.External) (d : Derives ts all) → deep_unit d n ≡ None → (names : List (List ℕ)) × (read_unit n ts ≡ Ok ((names, all), [])) }
{}

/// Of a unit that the tokens derive the first token that is nested deeper than n is the fault where n levels are left. Here left
/// is the number of tokens from that one to the end.
pub fn deep_law()
    ensures { (n : ℕ) (ts : List lexed.Token) (all : List tree.External) (d : Derives ts all) (left : ℕ) → deep_unit d n ≡ Some left → read_unit n ts ≡ Err (fault.Deep left) }
{}

/// Where a token can't stand, the tokens derive no unit, whatever number of levels is left.
pub fn refused_law()
    ensures { (n : ℕ) (ts : List lexed.Token) (all : List tree.External) (left : ℕ) → read_unit n ts ≡ Err (fault.Syntax left) → Derives ts all → ⊥ }
{}

/// The tokens derive one unit at most.
pub fn only_one()
    ensures { (ts : List lexed.Token) (a b : List tree.External) → Derives ts a → Derives ts b → a ≡ b }
{}

/// A unit that is read ends with the tokens.
pub fn whole_law()
    ensures { (n : ℕ) (ts : List lexed.Token) (u : Unit_so_far) (rest : List lexed.Token) → read_unit n ts ≡ Ok (u, rest) → rest ≡ [] }
{}
