//! The specifiers of a declaration.

ghost use Rattle.std.specs.Prelude.{◌≡◌};
ghost use Rattle.c_rows.specs.Answers.{Gives};
ghost use Rattle.c_check.specs.Specified as spec;

use c_ast::{Attr, Name, SpecWord};
use c_derive::Words;
use c_rows::TypeFault;
use c_scope::{Tables, type_named};
use c_types::CType;
use cm_base::Place;
use cmse_rules::{Attributes, attribute_of};
use std::alloc::Global;

/// The specifiers of a declaration so far.
#[derive(Drop)]
pub struct Specified {
    pub words: Words,
    pub attributes: Attributes,
    /// Where they begin.
    pub first: Option<Place>,
    /// Whether a struct or an enum is among them.
    pub tagged: bool,
}

/// The type before declarators, the attributes there, and the place of the first specifier.
#[derive(Drop)]
pub struct Head {
    pub base: CType,
    pub attributes: Attributes,
    pub first: Place,
}

impl Specified {
    /// None.
    pub fn new() -> Specified
        ensures { result ≡ spec.none_yet }
    {
        Specified {
            words: Words::new(),
            attributes: Attributes::none(),
            first: None,
            tagged: false,
        }
    }

    /// The place of the first one.
    pub fn first(&self) -> Place
        ensures { result ≡ spec.start_of self.now }
    {
        match self.first {
            Some(place) => place,
            None => Place {
                unit: 0,
                line: 0,
                col: 0,
            },
        }
    }

    /// The type before the declarators. It is E27 at the first specifier where none names a type.
    pub fn base(&self, alloc: Global) -> Result<CType, TypeFault>
        ensures { Gives result (spec.base_of self.now) }
    {
        self.words.specified(alloc, self.first())
    }

    /// With one more word. The fault is that of `Words::with_word`.
    pub fn with_word(
        self,
        place: Place,
        word: SpecWord,
        stored: bool,
    ) -> Result<Specified, TypeFault>
        ensures { Gives result (spec.worded self place word stored) }
    {
        let Specified {
            words,
            attributes,
            first,
            tagged,
        } = self;
        let words = words.with_word(word, place, stored)?;
        Ok(Specified {
            words,
            attributes,
            first: begun(first, place),
            tagged,
        })
    }

    /// With a type. It is E27 at it where another word names a type.
    fn with_type(self, place: Place, ctype: CType) -> Result<Specified, TypeFault>
        ensures { Gives result (spec.named_type self place ctype) }
    {
        let Specified {
            words,
            attributes,
            first,
            tagged,
        } = self;
        let words = words.with_type(ctype, place)?;
        Ok(Specified {
            words,
            attributes,
            first: begun(first, place),
            tagged,
        })
    }

    /// With a struct or an enum. It is E27 at it where another word names a type.
    pub fn with_tagged(self, place: Place, ctype: CType) -> Result<Specified, TypeFault>
        ensures { Gives result (spec.tagged_type self place ctype) }
    {
        let mut more = self.with_type(place, ctype)?;
        more.tagged = true;
        Ok(more)
    }

    /// With the name of a type. It is E20 where that isn't declared, and E27 where another word names a type.
    pub fn with_name(
        self,
        alloc: Global,
        tables: &Tables,
        name: &Name,
    ) -> Result<Specified, TypeFault>
        ensures { Gives result (spec.with_name tables.now name.now self) }
    {
        let t = type_named(alloc, tables, name)?;
        self.with_type(name.place, t)
    }

    /// With attributes beside its own. The first that isn't known is E40 at its name.
    pub fn with_attr(self, attr: &Attr) -> Result<Specified, TypeFault>
        ensures { Gives result (spec.with_attr attr.now self) }
    {
        let attributes = attribute_of(attr, self.attributes)?;
        Ok(self.with_attributes(attr.place, attributes))
    }

    /// The type before the declarators. It is E27 at the first specifier where none names a type.
    pub fn head(self, alloc: Global) -> Result<Head, TypeFault>
        ensures { Gives result (spec.head_of self) }
    {
        Ok(Head {
            base: self.base(alloc)?,
            attributes: self.attributes,
            first: self.first(),
        })
    }

    /// With these attributes in all.
    fn with_attributes(self, place: Place, attributes: Attributes) -> Specified
        ensures { result ≡ spec.with_attributes self place attributes }
    {
        let mut more = self;
        more.attributes = attributes;
        more.first = begun(more.first, place);
        more
    }
}

fn begun(first: Option<Place>, place: Place) -> Option<Place>
    ensures { result ≡ spec.begun first place }
{
    match first {
        None => Some(place),
        Some(first) => Some(first),
    }
}
