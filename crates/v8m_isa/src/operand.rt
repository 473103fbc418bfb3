//! The fields of the instructions by their names, and where each one stands. Its bits are numbered from high to low, as
//! the manual writes imm4:i:imm3:imm8, in the word first:second, or in the one halfword.

ghost use Rattle.std.specs.Prelude.{◌≡◌, IsTrue};
ghost use Rattle.v8m_isa.specs.Form.{are_in_word, field_of};

use crate::form::{Field, Kind, Piece};

macro_rules! field {
    ($kind:ident $($high:literal : $low:literal)*) => {
        Field { kind: Kind::$kind, wide: 0 $(+ $high - $low + 1)*, pieces: pieces!(0, [] $($high : $low)*) }
    };
}

macro_rules! narrow_field {
    ($kind:ident $($high:literal : $low:literal)*) => {
        Field { kind: Kind::$kind, wide: 0 $(+ $high - $low + 1)*, pieces: pieces!(16, [] $($high : $low)*) }
    };
}

macro_rules! pieces {
    ($up:literal, [$($done:expr,)*] $high:literal : $low:literal $($highs:literal : $lows:literal)*) => {
        pieces!($up, [$($done,)* Piece { at: $up + $low, wide: $high - $low + 1, from: 0 $(+ $highs - $lows + 1)* },] $($highs : $lows)*)
    };
    ($up:literal, []) => { [NONE, NONE, NONE, NONE, NONE] };
    ($up:literal, [$a:expr,]) => { [$a, NONE, NONE, NONE, NONE] };
    ($up:literal, [$a:expr, $b:expr,]) => { [$a, $b, NONE, NONE, NONE] };
    ($up:literal, [$a:expr, $b:expr, $c:expr,]) => { [$a, $b, $c, NONE, NONE] };
    ($up:literal, [$a:expr, $b:expr, $c:expr, $d:expr,]) => { [$a, $b, $c, $d, NONE] };
    ($up:literal, [$a:expr, $b:expr, $c:expr, $d:expr, $e:expr,]) => { [$a, $b, $c, $d, $e] };
}

// A piece with no bits.
const NONE: Piece = Piece {
    at: 0,
    wide: 0,
    from: 0,
};

/// A field's name. Those of one halfword begin with Narrow.
#[derive(Clone, Copy, PartialEq, Eq)]
pub enum Operand {
    /// No field: it takes 0 alone.
    Blank,
    /// Rd, where it may be SP
    NarrowRdOrSp,
    NarrowRm,
    /// Rm, where it may be SP
    NarrowRmOrSp,
    NarrowImm8,
    Rd,
    /// Rd, where it may be SP
    RdOrSp,
    Rn,
    /// Rn, where it may be SP
    RnOrSp,
    Rm,
    Ra,
    Rt,
    Imm12,
    /// i:imm3:imm8
    SplitImm12,
    /// imm4:i:imm3:imm8
    Imm16,
    List,
    /// S:I1:I2:imm10:imm11:0, by J1 and J2
    Far,
    /// S:J2:J1:imm6:imm11:0
    Near,
    Condition,
    Special,
}

pub const BLANK: Field = field!(Number);

pub const NARROW_RD_OR_SP: Field = narrow_field!(Base 7:7 2:0);

pub const NARROW_RM: Field = narrow_field!(Register 6:3);

pub const NARROW_RM_OR_SP: Field = narrow_field!(Base 6:3);

pub const NARROW_IMM8: Field = narrow_field!(Number 7:0);

pub const RD: Field = field!(Register 11:8);

pub const RD_OR_SP: Field = field!(Base 11:8);

pub const RN: Field = field!(Register 19:16);

pub const RN_OR_SP: Field = field!(Base 19:16);

pub const RM: Field = field!(Register 3:0);

pub const RA: Field = field!(Register 15:12);

pub const RT: Field = field!(Register 15:12);

pub const IMM12: Field = field!(Number 11:0);

pub const SPLIT_IMM12: Field = field!(Number 26:26 14:12 7:0);

pub const IMM16: Field = field!(Number 19:16 26:26 14:12 7:0);

pub const LIST: Field = field!(List 15:0);

pub const FAR: Field = field!(Far 26:26 13:13 11:11 25:16 10:0);

pub const NEAR: Field = field!(Near 26:26 11:11 13:13 21:16 10:0);

pub const CONDITION: Field = field!(Condition 25:22);

pub const SPECIAL: Field = field!(Special 7:0);

impl Operand {
    /// Where the field stands, and what it takes.
    #[tactic(auto, unfolding(crate::specs::Form::field_of))]
    pub fn field(self) -> Field
        ensures is { result ≡ field_of self }
        ensures in_word { IsTrue (are_in_word result) }
    {
        match self {
            Operand::Blank => BLANK,
            Operand::NarrowRdOrSp => NARROW_RD_OR_SP,
            Operand::NarrowRm => NARROW_RM,
            Operand::NarrowRmOrSp => NARROW_RM_OR_SP,
            Operand::NarrowImm8 => NARROW_IMM8,
            Operand::Rd => RD,
            Operand::RdOrSp => RD_OR_SP,
            Operand::Rn => RN,
            Operand::RnOrSp => RN_OR_SP,
            Operand::Rm => RM,
            Operand::Ra => RA,
            Operand::Rt => RT,
            Operand::Imm12 => IMM12,
            Operand::SplitImm12 => SPLIT_IMM12,
            Operand::Imm16 => IMM16,
            Operand::List => LIST,
            Operand::Far => FAR,
            Operand::Near => NEAR,
            Operand::Condition => CONDITION,
            Operand::Special => SPECIAL,
        }
    }
}
