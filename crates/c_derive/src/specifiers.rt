//! The words of a declaration that stand before its declarators.

ghost use Rattle.std.specs.Prelude.{◌≡◌};
ghost use Rattle.c_rows.specs.Answers.{Gives};
ghost use Rattle.c_derive.specs.Specifiers as spec;

use c_ast::SpecWord;
use c_rows::{TypeFault, at};
use c_types::{Arith, CType, Shape};
use cm_base::Place;
use std::alloc::Global;

/// A storage class.
#[derive(Clone, Copy, Debug, PartialEq, Eq)]
pub enum Storage {
    Typedef,
    Extern,
    Static,
}

/// The word that says most of a type.
#[derive(Drop)]
pub enum Base {
    Nothing,
    Void,
    Char,
    Short,
    Long,
    /// A name of a type, a struct or an enum.
    Type(CType),
}

/// The words of a declaration so far.
#[derive(Drop)]
pub struct Words {
    pub storage: Option<Storage>,
    /// Where `inline` stands.
    pub inline: Option<Place>,
    /// Whether it is `unsigned`, where that or `signed` stands.
    pub unsigned: Option<bool>,
    pub base: Base,
    /// Whether `int` stands.
    pub int: bool,
    pub is_const: bool,
    pub is_volatile: bool,
}

impl Words {
    /// No word.
    pub fn new() -> Words
        ensures { result ≡ spec.no_words }
    {
        Words {
            storage: None,
            inline: None,
            unsigned: None,
            base: Base::Nothing,
            int: false,
            is_const: false,
            is_volatile: false,
        }
    }

    /// No word of a type.
    fn is_bare(&self) -> bool
        ensures { result ≡ spec.is_bare self.now }
    {
        is_nothing(&self.base) && (!self.int && !self.unsigned.is_some())
    }

    /// With one more word. `stored` tells whether a storage class and `inline` may stand here. The fault is E27 at the
    /// word, or E29 at the second `long`.
    pub fn with_word(self, word: SpecWord, place: Place, stored: bool) -> Result<Words, TypeFault>
        ensures { Gives result (spec.with_word stored self word place) }
    {
        match word {
            SpecWord::Typedef => self.with_storage(Storage::Typedef, place, stored),
            SpecWord::Extern => self.with_storage(Storage::Extern, place, stored),
            SpecWord::Static => self.with_storage(Storage::Static, place, stored),
            SpecWord::Inline => {
                let mut words = self;
                words.inline = Some(place);
                if_goes(stored, place, words)
            }
            SpecWord::Const => {
                let mut words = self;
                words.is_const = true;
                Ok(words)
            }
            SpecWord::Volatile => {
                let mut words = self;
                words.is_volatile = true;
                Ok(words)
            }
            SpecWord::Void => {
                let goes = self.is_bare();
                if_goes(goes, place, self.with_base(Base::Void))
            }
            SpecWord::Char => {
                let goes = is_nothing(&self.base) && !self.int;
                if_goes(goes, place, self.with_base(Base::Char))
            }
            SpecWord::Short => {
                let goes = is_nothing(&self.base);
                if_goes(goes, place, self.with_base(Base::Short))
            }
            SpecWord::Int => {
                let goes = takes_int(&self.base) && !self.int;
                let mut words = self;
                words.int = true;
                if_goes(goes, place, words)
            }
            SpecWord::Long => self.with_long(place),
            SpecWord::Signed => self.with_sign(false, place),
            SpecWord::Unsigned => self.with_sign(true, place),
        }
    }

    /// With a name of a type, a struct or an enum, which no other word of a type stands beside: E27 at it.
    pub fn with_type(self, ctype: CType, place: Place) -> Result<Words, TypeFault>
        ensures { Gives result (spec.with_type self ctype place) }
    {
        let goes = self.is_bare();
        if_goes(goes, place, self.with_base(Base::Type(ctype)))
    }

    fn with_base(self, base: Base) -> Words
        ensures { result ≡ spec.with_base self base }
    {
        let mut words = self;
        words.base = base;
        words
    }

    fn with_storage(self, storage: Storage, place: Place, stored: bool) -> Result<Words, TypeFault>
        ensures { Gives result (spec.with_storage stored self storage place) }
    {
        let goes = stored && !self.storage.is_some();
        let mut words = self;
        words.storage = Some(storage);
        if_goes(goes, place, words)
    }

    fn with_sign(self, unsigned: bool, place: Place) -> Result<Words, TypeFault>
        ensures { Gives result (spec.with_sign self unsigned place) }
    {
        let goes = takes_sign(&self.base) && !self.unsigned.is_some();
        let mut words = self;
        words.unsigned = Some(unsigned);
        if_goes(goes, place, words)
    }

    fn with_long(self, place: Place) -> Result<Words, TypeFault>
        ensures { Gives result (spec.with_long self self.base place) }
    {
        match &self.base {
            Base::Nothing => Ok(self.with_base(Base::Long)),
            Base::Long => Err(at(29, place)),
            _ => Err(at(27, place)),
        }
    }

    /// The type that the words name, with their qualifiers; E27 at the first of them where none is a word of a type.
    pub fn specified(&self, alloc: Global, first: Place) -> Result<CType, TypeFault>
        ensures { Gives result (spec.specified self.now first) }
    {
        let named = self.named(alloc, first)?;
        Ok(named.qualified(alloc, self.is_const, self.is_volatile)?)
    }

    fn named(&self, alloc: Global, first: Place) -> Result<CType, TypeFault>
        ensures { Gives result (spec.named self.now self.now.base first) }
    {
        match &self.base {
            Base::Nothing => {
                if self.is_bare() {
                    return Err(at(27, first));
                }
                Ok(CType::arith(one_of(Arith::Int, Arith::Unsigned, self.unsigned)))
            }
            Base::Void => Ok(CType::plain(Shape::Void)),
            Base::Char => Ok(CType::arith(char_of(self.unsigned))),
            Base::Short => Ok(CType::arith(one_of(
                Arith::Short,
                Arith::UnsignedShort,
                self.unsigned,
            ))),
            Base::Long => Ok(CType::arith(one_of(Arith::Long, Arith::UnsignedLong, self.unsigned))),
            Base::Type(t) => Ok(t.share(alloc)?),
        }
    }
}

fn if_goes(goes: bool, place: Place, words: Words) -> Result<Words, TypeFault>
    ensures { Gives result (spec.if_goes goes place words) }
{
    if goes {
        return Ok(words);
    }
    Err(at(27, place))
}

fn is_nothing(base: &Base) -> bool
    ensures { result ≡ spec.is_nothing base.now }
{
    match base {
        Base::Nothing => true,
        _ => false,
    }
}

/// `int` may stand beside it.
fn takes_int(base: &Base) -> bool
    ensures { result ≡ spec.takes_int base.now }
{
    match base {
        Base::Nothing => true,
        Base::Short => true,
        Base::Long => true,
        _ => false,
    }
}

/// `signed` and `unsigned` may stand beside it.
fn takes_sign(base: &Base) -> bool
    ensures { result ≡ spec.takes_sign base.now }
{
    match base {
        Base::Char => true,
        other => takes_int(other),
    }
}

fn char_of(unsigned: Option<bool>) -> Arith
    ensures { result ≡ spec.char_of unsigned }
{
    match unsigned {
        None => Arith::Char,
        Some(false) => Arith::SignedChar,
        Some(true) => Arith::UnsignedChar,
    }
}

fn one_of(signed: Arith, other: Arith, unsigned: Option<bool>) -> Arith
    ensures { result ≡ spec.one_of signed other unsigned }
{
    match unsigned {
        Some(true) => other,
        _ => signed,
    }
}
