//! Laws of what later declarations keep.

ghost use Rattle.std.specs.Prelude.{◌≡◌, ℕ, false, Option, Some, None, slice_get, slice_set};
ghost use Rattle.c_scope.specs.declared.tables.Known.{Known};
ghost use Rattle.c_scope.specs.declared.tables.Tables.{Tables};
ghost use Rattle.c_scope.specs.FileScope as file_scope;
ghost use Rattle.c_scope.specs.Index.{place_of};
ghost use Rattle.c_tree.specs.Conditions.{is_twin};
ghost use Rattle.later_laws.specs.Later.{IsLater, Kept, Later};

/// What each of two declarations keeps they keep together, and what a function's declarations keep is kept at file scope.
pub fn then_law()
    ensures laters { (s t u : Tables) → Later s t → Later t u → Later s u }
    ensures kept { (s t u : Tables) → Kept s t → Kept t u → Kept s u }
    ensures files { (s t : Tables) → Kept s t → Later s t }
{}

/// A function or a global of a new name keeps all others.
pub fn new_law()
    ensures { (s : Tables) (k : Known) → place_of s.names k.name ≡ None → is_twin k.name ≡ false → Later s (file_scope.with_known k s) }
{}

/// An extern that takes the place of one that it is later than keeps all others.
pub fn set_law()
    ensures { (s : Tables) (n : ℕ) (k y : Known) → slice_get s.externs n ≡ Some k → IsLater k y → Later s (record s { externs = slice_set s.externs n y }) }
{}
