//! Laws of live variables and their places.

ghost use Rattle.std.specs.Prelude.{◌≡◌, List, None};
ghost use Rattle.mid_ir.specs.declared.program.MidFn.{MidFn};
ghost use Rattle.live.specs.declared.places.Where.{Where};
ghost use Rattle.live.specs.Apart.{Apart};
ghost use Rattle.live.specs.Clash.{clash};
ghost use Rattle.live.specs.Live.{lives};

/// Where no two variables have one place, none clash in any function.
pub fn apart_law()
    ensures { (f : MidFn) (places : List Where) → Apart places → clash places (lives f) ≡ None }
{}
