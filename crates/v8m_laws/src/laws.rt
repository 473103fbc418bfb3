//! What instructions compute, in the terms of C's operators, and what is read after writes.

ghost use Rattle.std.specs.Prelude.{◌≡◌, ◌⊎◌, ℕ, ◌+◌, ◌%◌, ◌^◌, ◌<◌, ◌≤◌, true, false, eqb, bit_and, Ok, Err};
ghost use Rattle.cm_base.specs.declared.stop.Stop.TheVariants.{Divide, StackLimit};
ghost use Rattle.cm_base.specs.declared.regions.TheConstants.{SECURE_CONTROL};
ghost use Rattle.v8m_isa.specs.declared.instr.Instr.TheVariants.{Stmdb, Subw};
ghost use Rattle.ns_types.specs.declared.state.Regs.{Regs};
ghost use Rattle.ns_types.specs.State.{Device, Memory, State, get_of};
ghost use Rattle.ns_types.specs.Platform.{is_writable};
ghost use Rattle.ns_types.specs.Memory.{IsWhole, load, store};
ghost use Rattle.ns_types.specs.Operators.{subtract, multiply, low_bytes, divide_unsigned, remainder_unsigned, divide_signed, remainder_signed, shift_left, shift_right_unsigned, shift_right_signed};
ghost use Rattle.ns_types.specs.Access.{may_read, may_write};
ghost use Rattle.v8m_core.specs.Values.{compared, condition_holds, shifted_left, shifted_right, shifted_with_sign, quotient, signed_quotient};
ghost use Rattle.v8m_core.specs.Lists.{registers, bytes_of, all_stored, all_loaded};
ghost use Rattle.v8m_core.specs.Step.{stopped, act, blxns};
ghost use Rattle.v8m_laws.specs.Compares.{compares};
ghost use Rattle.v8m_laws.specs.Rows.{IsSize, SameRows};
ghost use Rattle.v8m_laws.specs.Lists.{restored, IsInSecureRam, AreAs};

/// After CMP of two words each condition is the comparison of its name.
pub fn conditions()
    ensures { (k a b flags : ℕ) → k < 14 → a < 2 ^ 32 → b < 2 ^ 32 → condition_holds k (compared a b flags) ≡ compares k a b }
{}

/// UDIV and SDIV divide as C does by other numbers than 0, where C stops; MLS of a quotient is the remainder.
pub fn division()
    ensures unsigned { (a b : ℕ) → eqb b 0 ≡ false → divide_unsigned a b ≡ Ok (quotient a b) }
    ensures signed { (a b : ℕ) → eqb b 0 ≡ false → divide_signed a b ≡ Ok (signed_quotient a b) }
    ensures remainder { (a b : ℕ) → a < 2 ^ 32 → eqb b 0 ≡ false → remainder_unsigned a b ≡ Ok (subtract a (multiply (quotient a b) b)) }
    ensures signed_remainder { (a b : ℕ) → a < 2 ^ 32 → b < 2 ^ 32 → eqb b 0 ≡ false → remainder_signed a b ≡ Ok (subtract a (multiply (signed_quotient a b) b)) }
    ensures by_zero { (a b : ℕ) → eqb b 0 ≡ true → divide_unsigned a b ≡ Err Divide }
    ensures signed_by_zero { (a b : ℕ) → eqb b 0 ≡ true → divide_signed a b ≡ Err Divide }
    ensures remainder_by_zero { (a b : ℕ) → eqb b 0 ≡ true → remainder_unsigned a b ≡ Err Divide }
    ensures signed_remainder_by_zero { (a b : ℕ) → eqb b 0 ≡ true → remainder_signed a b ≡ Err Divide }
{}

/// LSL, LSR and ASR by the low five bits of a number shift as C does.
pub fn shifts()
    ensures left { (a n : ℕ) → shift_left a n ≡ shifted_left a (bit_and n 31 % 256) }
    ensures right { (a n : ℕ) → shift_right_unsigned a n ≡ shifted_right a (bit_and n 31 % 256) }
    ensures signed_right { (a n : ℕ) → shift_right_signed a n ≡ shifted_with_sign a (bit_and n 31 % 256) }
{}

/// A number of 1, 2 or 4 bytes that was written is read again, and one apart from it is as it was.
pub fn numbers()
    ensures same { (n a v : ℕ) (device : Device) (m : Memory) → IsSize n → IsWhole m → is_writable a n ≡ true → v < 2 ^ 32 →
        load n a device (store n a v m) ≡ low_bytes n v }
    ensures apart { (n k a b v : ℕ) (device : Device) (m : Memory) → IsSize n → IsSize k → is_writable b k ≡ true → (a + n ≤ b) ⊎ (b + k ≤ a) →
        load n a device (store k b v m) ≡ load n a device m }
    ensures word { (n a : ℕ) (device : Device) (m : Memory) → IsSize n → load n a device m < 2 ^ 32 }
{}

/// Where rows 0, 1 and 4 of two memories are alike, so is what the C program reads, and what its writes leave. Its writes leave
/// Secure control, and writes in Secure control leave these rows.
pub fn rows()
    ensures read { (n a : ℕ) (d e : Device) (m k : Memory) → IsSize n → SameRows m k → may_read a n ≡ true → load n a d m ≡ load n a e k }
    ensures write { (n a v : ℕ) (m k : Memory) → IsSize n → SameRows m k → may_write a n ≡ true → SameRows (store n a v m) (store n a v k) }
    ensures control { (n k a b v : ℕ) (device : Device) (m : Memory) → IsSize n → IsSize k → may_write a n ≡ true → SECURE_CONTROL.from ≤ b →
        load k b device (store n a v m) ≡ load k b device m }
    ensures kept { (n a v : ℕ) (m : Memory) → IsSize n → is_writable a n ≡ true → SECURE_CONTROL.from ≤ a → SameRows (store n a v m) m }
{}

/// Words outside of those to which STMDB stores are as they were, and LDMIA of the words that it stored gives the registers back.
pub fn lists()
    ensures kept { (list : ℕ) (r : Regs) (a b : ℕ) (device : Device) (m : Memory) → IsInSecureRam a (bytes_of list registers) →
        (b + 4 ≤ a) ⊎ (a + bytes_of list registers ≤ b) → load 4 b device (all_stored list registers r a m) ≡ load 4 b device m }
    ensures rows { (list : ℕ) (r : Regs) (a : ℕ) (m : Memory) → IsInSecureRam a (bytes_of list registers) → SECURE_CONTROL.from ≤ a → IsWhole m →
        SameRows (all_stored list registers r a m) m }
    ensures back { (list : ℕ) (device : Device) (r u : Regs) (a : ℕ) (m k : Memory) → ((n : ℕ) → get_of r n < 2 ^ 32) → IsWhole m →
        IsInSecureRam a (bytes_of list registers) → AreAs a (bytes_of list registers) device k (all_stored list registers r a m) →
        all_loaded list registers device k a u ≡ restored list registers r u }
{}

/// Where SP would come below MSPLIM, STMDB, SUBW and a call of Non-secure code stop before anything is written.
pub fn stack_limit()
    ensures push { (device : Device) (list p : ℕ) (s : State) → s.cpu.regs.sp ≡ p + bytes_of list registers → s.cpu.regs.sp < 2 ^ 32 → p % 4 ≡ 0 →
        p < s.cpu.msplim → act device (Stmdb list) 4 s ≡ stopped StackLimit s }
    ensures lower { (device : Device) (i p : ℕ) (s : State) → s.cpu.regs.sp ≡ p + i → s.cpu.regs.sp < 2 ^ 32 → p % 4 ≡ 0 →
        p < s.cpu.msplim → act device (Subw 13 13 i) 4 s ≡ stopped StackLimit s }
    ensures call { (device : Device) (v size p : ℕ) (s : State) → v % 2 ≡ 0 → s.cpu.regs.sp ≡ p + 8 → s.cpu.regs.sp < 2 ^ 32 → p % 8 ≡ 0 →
        p < s.cpu.msplim → blxns device v size s ≡ stopped StackLimit s }
{}
