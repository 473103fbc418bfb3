//! What fixed code is where it stands in Secure ROM.

ghost use Rattle.std.specs.Prelude.{◌≡◌, ◌+◌, ◌<◌, ◌≤◌, ◌++◌, ◌∷◌, ℕ, List, length};
ghost use Rattle.cm_base.specs.declared.regions.TheConstants.{NSC};
ghost use Rattle.ns_types.specs.State.{Device};
ghost use Rattle.v8m_isa.specs.Bytes.{code_bytes, AllInRange};
ghost use Rattle.v8m_core.specs.Code.{HasCode};
ghost use Rattle.asm_fix.specs.declared.asm.Asm.{Asm};
ghost use Rattle.asm_fix.specs.declared.asm.Asm.TheVariants.{Label};
ghost use Rattle.asm_fix.specs.Fixed.{bytes_in, count, place_of, fixed};
ghost use Rattle.asm_fix.specs.HasAsm.{IsFixable, HasAsm};

/// A label that stands once has the bytes in front of it as its place. Fixed code has as many bytes as the list, and each of its
/// instructions is in range.
pub fn places()
    ensures place { (front back : List Asm) (l : ℕ) → count l (front ++ Label l ∷ back) ≡ 1 → place_of (front ++ Label l ∷ back) l ≡ bytes_in front }
    ensures size { (asm : List Asm) → length (code_bytes (fixed asm)) ≡ bytes_in asm }
    ensures range { (asm : List Asm) → IsFixable asm → AllInRange (fixed asm) }
{}

/// Where fixed code stands, each instruction of the list stands at its place, and each jump is a branch to its label. No label
/// of the list stands twice.
pub fn stands()
    ensures { (device : Device) (base : ℕ) (asm : List Asm) → base < NSC.to → IsFixable asm → ((l : ℕ) → count l asm ≤ 1) →
        HasCode device base (fixed asm) → HasAsm device (λ l. base + place_of asm l) base asm }
{}
