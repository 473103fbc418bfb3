//! Laws over the definitions alone.

ghost use Rattle.std.specs.Prelude.{◌≡◌, List, Result};
ghost use Rattle.cm_base.specs.declared.place.Refusal as why;
ghost use Rattle.c_tree.specs.Conditions as trees;
ghost use Rattle.c_front.specs.declared.sources.Source as the;
ghost use Rattle.c_front.specs.Front.{Front};

/// Sources have at most one program or first fault.
pub fn one_front()
    ensures { (sources : List the.Source) (a b : Result trees.Program why.Refusal) → Front sources a → Front sources b → a ≡ b }
{}
