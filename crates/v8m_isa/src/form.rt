//! A row of the instruction table: how the bits of its fields stand in the word first:second, and which numbers they
//! take.

ghost use Rattle.std.specs.Prelude.{◌≡◌, ◌+◌, ◌-◌, ◌*◌, ◌/◌, ◌%◌, ◌^◌, ◌<◌, ◌≤◌, IsTrue};
ghost use Rattle.v8m_isa.specs.Form.{put, got, is_in_word, put_all, got_all, turn, sign_extend, takes, bits_of, number_of, field_put, field_got, field_takes, are_in_word, fields_of, is_kept, row, word_of, fields_got, all_taken, row_takes, row_size, row_code, numbers_in};

use crate::instr::Code;
use crate::operand::Operand;

/// Which numbers a field takes, and how its bits show them.
#[derive(Clone, Copy, PartialEq, Eq)]
pub enum Kind {
    /// A register of 0 to 12 or 14.
    Register,
    /// A register of 0 to 14.
    Base,
    /// A condition of 0 to 13.
    Condition,
    /// Each number that the field's bits hold.
    Number,
    /// The number of a special register that MRS and MSR name.
    Special,
    /// Two at least of the registers 0 to 12 and 14, as bits.
    List,
    /// A branch's offset of 21 bits with a sign. Its lowest bit is 0 and has no place.
    Near,
    /// A branch's offset of 25 bits with a sign. Its lowest bit is 0 and has no place, and the two below the highest
    /// are turned by the highest.
    Far,
}

impl Kind {
    // Whether a field of so many bits takes a number.
    #[tactic(auto, unfolding(crate::specs::Form::takes))]
    fn takes(self, wide: u8, number: u32) -> bool
        requires { wide < 32 }
        ensures { result ≡ takes self wide number }
    {
        match self {
            Kind::Register => number < 13 || number == 14,
            Kind::Base => number < 15,
            Kind::Condition => number < 14,
            Kind::Number => number < 1 << wide,
            Kind::Special => matches!(number, 0 | 8 | 9 | 10 | 11 | 136 | 137),
            Kind::List => number < 0x8000 && number / 0x2000 % 2 == 0 && 2 <= number.count_ones(),
            Kind::Near => number % 2 == 0 && (number < 0x10_0000 || 0xFFF0_0000 <= number),
            Kind::Far => number % 2 == 0 && (number < 0x100_0000 || 0xFF00_0000 <= number),
        }
    }

    // The bits of a number.
    #[tactic(auto, unfolding(crate::specs::Form::bits_of))]
    fn bits_of(self, number: u32) -> u32
        ensures { result ≡ bits_of self number }
    {
        match self {
            Kind::Register
            | Kind::Base
            | Kind::Condition
            | Kind::Number
            | Kind::Special
            | Kind::List => number,
            Kind::Near => number / 2 % 0x10_0000,
            Kind::Far => turned(number / 2 % 0x100_0000),
        }
    }

    // The number that these bits show.
    #[tactic(auto, unfolding(crate::specs::Form::number_of))]
    fn number_of(self, bits: u32) -> u32
        ensures { result ≡ number_of self bits }
    {
        match self {
            Kind::Register
            | Kind::Base
            | Kind::Condition
            | Kind::Number
            | Kind::Special
            | Kind::List => bits,
            Kind::Near => near_extended(2 * (bits % 0x10_0000)),
            Kind::Far => far_extended(2 * turned(bits % 0x100_0000)),
        }
    }
}

// J1 and J2 in the places of I1 and I2, or back: NOT (I EOR S).
#[tactic(auto, unfolding(crate::specs::Form::turn))]
fn turned(bits: u32) -> u32
    requires { bits < 2 ^ 24 }
    ensures is { result ≡ turn bits }
    ensures small { result < 2 ^ 24 }
{
    let sign = bits / 0x80_0000;
    let second = (1 + bits / 0x40_0000 % 2 + sign) % 2;
    let third = (1 + bits / 0x20_0000 % 2 + sign) % 2;
    sign * 0x80_0000 + second * 0x40_0000 + third * 0x20_0000 + bits % 0x20_0000
}

// 21 bits with a sign, as a number modulo 2^32.
fn near_extended(bits: u32) -> u32
    requires { bits < 2 ^ 21 }
    ensures { result ≡ sign_extend 21 bits }
{
    if bits < 0x10_0000 {
        bits
    } else {
        bits + 0xFFE0_0000
    }
}

// 25 bits with a sign, as a number modulo 2^32.
fn far_extended(bits: u32) -> u32
    requires { bits < 2 ^ 25 }
    ensures { result ≡ sign_extend 25 bits }
{
    if bits < 0x100_0000 {
        bits
    } else {
        bits + 0xFE00_0000
    }
}

/// Some neighbouring bits of a field: `wide` of them, from bit `at` of the word first:second, are the field's bits
/// from bit `from`.
#[derive(Clone, Copy)]
pub struct Piece {
    pub at: u8,
    pub wide: u8,
    pub from: u8,
}

impl Piece {
    // The piece's bits of the field's, put into the word.
    fn put(&self, bits: u32) -> u32
        requires { IsTrue (is_in_word self.now) }
        ensures { result ≡ put self.now bits }
    {
        (bits >> self.from) % (1 << self.wide) << self.at
    }

    // The piece's bits of the field's, got from the word.
    fn got(&self, word: u32) -> u32
        requires { IsTrue (is_in_word self.now) }
        ensures { result ≡ got self.now word }
    {
        (word >> self.at) % (1 << self.wide) << self.from
    }
}

/// A field of a row: what it takes, how many bits it has, and where they stand.
#[derive(Clone, Copy)]
pub struct Field {
    pub kind: Kind,
    pub wide: u8,
    pub pieces: [Piece; 5],
}

impl Field {
    // The bits of a number, put into the word.
    fn put(&self, number: u32) -> u32
        requires { IsTrue (are_in_word self.now) }
        ensures { result ≡ field_put self.now number }
    {
        let bits = self.kind.bits_of(number);
        let mut word = 0;
        for piece in &self.pieces {
            word |= piece.put(bits);
        }
        word
    }

    // The number that the field has in a word.
    fn got(&self, word: u32) -> u32
        requires { IsTrue (are_in_word self.now) }
        ensures { result ≡ field_got self.now word }
    {
        let mut bits = 0;
        for piece in &self.pieces {
            bits |= piece.got(word);
        }
        self.kind.number_of(bits)
    }

    // Whether the field takes a number.
    fn takes(&self, number: u32) -> bool
        requires { IsTrue (are_in_word self.now) }
        ensures { result ≡ field_takes self.now number }
    {
        self.kind.takes(self.wide, number)
    }
}

/// A rule of a row beside those of its fields.
#[derive(Clone, Copy, PartialEq, Eq)]
pub enum Rule {
    /// None.
    Free,
    /// The first register is 13 only where the second one is.
    SpFromSp,
}

impl Rule {
    // Whether a row's numbers keep the rule.
    fn is_kept(self, numbers: &[u32]) -> bool
        ensures { result ≡ is_kept self numbers.now }
    {
        match self {
            Rule::Free => true,
            Rule::SpFromSp => match numbers {
                [first, second, ..] => *first != 13 || *second == 13,
                _ => true,
            },
        }
    }
}

/// A row of the instruction table: the bits that are fixed, and the fields in the order of the instruction's.
#[derive(Clone, Copy)]
pub struct Form<const N: usize> {
    /// Whether the instruction has two halfwords.
    pub wide: bool,
    /// The word first:second of the fixed bits, with 0 in the fields and, in a row of one halfword, below bit 16.
    pub base: u32,
    pub operands: [Operand; N],
    pub rule: Rule,
}

impl<const N: usize> Form<N> {
    // The word of these numbers.
    fn word(&self, numbers: &[u32; N]) -> u32
        requires few { N ≤ 8 }
        ensures { result ≡ word_of (row self.now) numbers.now }
    {
        let mut word = self.base;
        for k in 0..N {
            word |= self.operands[k].field().put(numbers[k]);
        }
        word
    }

    // The numbers that a word has in the fields.
    fn numbers(&self, word: u32) -> [u32; N]
        requires few { N ≤ 8 }
        ensures { result ≡ fields_got (fields_of self.now.operands) word }
    {
        let mut numbers = [0; N];
        for k in 0..N {
            numbers[k] = self.operands[k].field().got(word);
        }
        numbers
    }

    // Whether each number is one that its field takes.
    fn each_taken(&self, numbers: &[u32; N]) -> bool
        requires few { N ≤ 8 }
        ensures { result ≡ all_taken (fields_of self.now.operands) numbers.now }
    {
        for k in 0..N {
            if !self.operands[k].field().takes(numbers[k]) {
                return false;
            }
        }
        true
    }

    /// Whether these are numbers of an instruction of the row.
    pub fn takes(&self, numbers: &[u32; N]) -> bool
        requires few { N ≤ 8 }
        ensures { result ≡ row_takes (row self.now) numbers.now }
    {
        self.each_taken(numbers) && self.rule.is_kept(numbers)
    }

    /// The size of the row's instructions in bytes.
    pub fn size(&self) -> u8
        ensures { result ≡ row_size (row self.now) }
    {
        if self.wide { 4 } else { 2 }
    }

    /// The halfwords of the row's instruction with these numbers.
    pub fn code(&self, numbers: &[u32; N]) -> Code
        requires few { N ≤ 8 }
        ensures { result ≡ row_code (row self.now) numbers.now }
    {
        let word = self.word(numbers);
        Code {
            first: (word / 0x10000) as u16,
            second: (word % 0x10000) as u16,
            size: self.size(),
        }
    }

    /// The numbers of the row's instruction in these halfwords, or None where they are none of this row.
    pub fn read(&self, first: u16, second: u16) -> Option<[u32; N]>
        requires few { N ≤ 8 }
        ensures { result ≡ numbers_in (row self.now) first second }
    {
        let low = if self.wide { u32::from(second) } else { 0 };
        let word = u32::from(first) * 0x10000 + low;
        let numbers = self.numbers(word);
        if self.takes(&numbers) && self.word(&numbers) == word {
            Some(numbers)
        } else {
            None
        }
    }
}
