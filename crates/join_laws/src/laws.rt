//! Laws of joins.

ghost use Rattle.std.specs.Prelude.{◌≡◌, ◌<◌, ℕ, Bool, true, false, All, List, [], Option, None, Some, Ok, slice_get};
ghost use Rattle.c_tree.specs.declared.program.Extern.{Extern};
ghost use Rattle.c_tree.specs.declared.program.TFunction.{TFunction};
ghost use Rattle.c_tree.specs.Conditions.{IsProgram, IsUnit, Program, TUnit, declared};
ghost use Rattle.c_tree.specs.Nodes.{function_nodes};
ghost use Rattle.c_tree.specs.Numbers.{Names, function_in_range};
ghost use Rattle.c_tree.specs.Slots.{placed_bytes, slots};
ghost use Rattle.join_laws.specs.Keys.{Distinct, function_keys, global_keys, numbers_of};
ghost use Rattle.join_laws.specs.Renumber.{renumbered_function};
ghost use Rattle.join_laws.specs.Uses.{Carried, all_defined, functions_uses, stmt_uses};
ghost use Rattle.join_laws.specs.Joined.{MakesProgram, Numbered, defined_twice, differs, disputed, joined, seen_in, undefined_use};

/// What units join to is a program, where each of them is a unit and its functions and globals have its number.
pub fn joined_law()
    ensures { (us : List TUnit) (p : Program) → All IsUnit us → Numbered 0 us → joined us ≡ Ok p → IsProgram p }
{}

/// Units in which no fault is found make a program.
pub fn program_law()
    ensures { MakesProgram }
{}

/// A function with new numbers has as many nodes and slots, and as many bytes of placed locals.
pub fn kept_law()
    ensures nodes { (numbers : List (Option ℕ)) (f : TFunction) → function_nodes (renumbered_function numbers f) ≡ function_nodes f }
    ensures slots { (numbers : List (Option ℕ)) (f : TFunction) → slots (renumbered_function numbers f) ≡ slots f }
    ensures placed { (numbers : List (Option ℕ)) (f : TFunction) → placed_bytes (renumbered_function numbers f) ≡ placed_bytes f }
{}

/// A function whose numbers are in range, and each of whose uses is defined, has new numbers that are in range.
pub fn range_law()
    ensures { (numbers : List (Option ℕ)) (before after : Names) (f : TFunction) → Carried numbers before after
        → function_in_range before f ≡ true → all_defined numbers (stmt_uses f.body) ≡ true
        → function_in_range after (renumbered_function numbers f) ≡ true }
{}

/// Where no name has two definitions, those who are seen are the functions and the globals of all units in their order, and no
/// two functions are one.
pub fn twice_law()
    ensures functions { (us : List TUnit) → defined_twice us ≡ None → (seen_in us).functions ≡ function_keys us }
    ensures globals { (us : List TUnit) → defined_twice us ≡ None → (seen_in us).globals ≡ global_keys us }
    ensures differ { (us : List TUnit) → defined_twice us ≡ None → Distinct (function_keys us) }
{}

/// Where no name is disputed, what a unit declares for all units has the same type in each earlier unit that declares it so.
pub fn disputed_law()
    ensures { (us : List TUnit) → disputed [] us ≡ None → (i j : ℕ) → i < j → (u v : TUnit) → slice_get us i ≡ Some u → slice_get us j ≡ Some v
        → (m : ℕ) (x : Extern) → slice_get v.externs m ≡ Some x → x.is_static ≡ false → differs x (declared u.externs x.name) ≡ false }
{}

/// Where no name without a definition is used, each use in a unit has a number in the program.
pub fn undefined_law()
    ensures { (us : List TUnit) → undefined_use us ≡ None → (n : ℕ) (u : TUnit) → slice_get us n ≡ Some u
        → all_defined (numbers_of (function_keys us) (global_keys us) n u.externs) (functions_uses u.functions) ≡ true }
{}
