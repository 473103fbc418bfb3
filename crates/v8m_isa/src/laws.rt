//! A law of the decoder.

ghost use Rattle.std.specs.Prelude.{◌≡◌, ℕ, ◌^◌, ◌<◌, true, Some};
ghost use Rattle.v8m_isa.specs.declared.instr.Instr.{Instr};
ghost use Rattle.v8m_isa.specs.Table.{size_of, code_of, IsReadAs};
ghost use Rattle.v8m_isa.specs.Decoding.{Decoded, decode_of, is_narrow};

/// The decoder's table is the manual's halfwords: two halfwords are read as an instruction of a size exactly where they
/// are the halfwords of that instruction, in range, of which one of size 2 has the first alone. A halfword is an
/// instruction by itself exactly where it is that of an instruction of size 2.
pub fn manual_halfwords()
    ensures reads { (first second : ℕ) (i : Instr) (size : ℕ) → second < 2 ^ 16 →
        IsReadAs first second i size → decode_of first second ≡ Some (record { instr = i; size = size }) }
    ensures only { (first second : ℕ) (d : Decoded) → second < 2 ^ 16 →
        decode_of first second ≡ Some d → IsReadAs first second d.instr d.size }
    ensures narrow { (first second : ℕ) (i : Instr) → IsReadAs first second i 2 → is_narrow first ≡ true }
    ensures only_narrow { (first : ℕ) → is_narrow first ≡ true → (i : Instr) × IsReadAs first 0 i 2 }
    ensures sizes { (i : Instr) → (code_of i).size ≡ size_of i }
{}
