//! Attributes.

ghost use Rattle.std.specs.Prelude.{◌≡◌, ◌||◌, bytes_eq};
ghost use Rattle.c_rows.specs.Answers.{Gives};
ghost use Rattle.cmse_rules.specs.Attributes as spec;

use c_ast::{Attr, Name, One};
use c_rows::{TypeFault, at};
use cm_base::Place;

/// The attributes of a declaration that say something, each with the place of its name; the last one where it is repeated.
#[derive(Clone, Copy, Debug, PartialEq, Eq)]
pub struct Attributes {
    /// `cmse_nonsecure_entry`
    pub entry: Option<Place>,
    /// `cmse_nonsecure_call`
    pub call: Option<Place>,
    /// `section(".noinit")`
    pub noinit: Option<Place>,
}

/// What attributes stand on.
#[derive(Clone, Copy, Debug, PartialEq, Eq)]
pub enum Subject {
    /// A function at file scope.
    Function,
    /// A global, with an initialiser or without one.
    Global(bool),
    /// A local, a parameter, a member, a typedef or a type name.
    Other,
}

impl Attributes {
    /// No attribute.
    pub fn none() -> Attributes
        ensures { result ≡ spec.none }
    {
        Attributes {
            entry: None,
            call: None,
            noinit: None,
        }
    }

    /// Whether one of them stands on the wrong thing, which is E40: only a function at file scope is an entry function, and
    /// only a global without an initialiser is left as it is at the start. Where `cmse_nonsecure_call` may stand the type
    /// says.
    pub fn misplaced(self, on: Subject) -> bool
        ensures { result ≡ spec.misplaced self on }
    {
        match on {
            Subject::Function => self.noinit.is_some(),
            Subject::Global(initialised) => {
                self.entry.is_some() || initialised && self.noinit.is_some()
            }
            Subject::Other => self.entry.is_some() || self.noinit.is_some(),
        }
    }
}

/// What these attributes add to those so far. The first that isn't known is E40 at its name.
pub fn attributes_of(attrs: &[Attr], so_far: Attributes) -> Result<Attributes, TypeFault>
    ensures { Gives result (spec.attributes attrs.now so_far) }
{
    let mut all = so_far;
    for attr in attrs {
        all = ones(attr.list.as_slice(), all)?;
    }
    Ok(all)
}

/// What one `__attribute__` adds to the attributes so far.
pub fn attribute_of(attr: &Attr, so_far: Attributes) -> Result<Attributes, TypeFault>
    ensures { Gives result (spec.ones attr.now.list so_far) }
{
    ones(attr.list.as_slice(), so_far)
}

fn ones(list: &[One], so_far: Attributes) -> Result<Attributes, TypeFault>
    ensures { Gives result (spec.ones list.now so_far) }
{
    let mut all = so_far;
    for a in list {
        all = one(a, all)?;
    }
    Ok(all)
}

fn one(a: &One, so_far: Attributes) -> Result<Attributes, TypeFault>
    ensures { Gives result (spec.one a.now so_far) }
{
    match a {
        One::Plain(name) => plain(name, so_far),
        One::With(name, text) => with_string(name, text.as_slice(), so_far),
    }
}

fn plain(name: &Name, so_far: Attributes) -> Result<Attributes, TypeFault>
    ensures { Gives result (spec.plain name.now so_far) }
{
    let text = name.text.as_slice();
    if spells(text, "cmse_nonsecure_entry", "__cmse_nonsecure_entry__") {
        return Ok(Attributes {
            entry: Some(name.place),
            ..so_far
        });
    }
    if spells(text, "cmse_nonsecure_call", "__cmse_nonsecure_call__") {
        return Ok(Attributes {
            call: Some(name.place),
            ..so_far
        });
    }
    if is_silent(text) {
        return Ok(so_far);
    }
    Err(at(40, name.place))
}

/// Whether it is the word, in one of two spellings.
fn spells(text: &[u8], word: &str, between: &str) -> bool
    ensures { result ≡ (bytes_eq text.now word.now || bytes_eq text.now between.now) }
{
    text == word.as_bytes() || text == between.as_bytes()
}

/// Whether it is an attribute that says nothing here.
fn is_silent(text: &[u8]) -> bool
    ensures { result ≡ spec.is_silent text.now }
{
    spells(text, "used", "__used__")
        || spells(text, "unused", "__unused__")
        || spells(text, "noinline", "__noinline__")
}

fn with_string(name: &Name, text: &[u8], so_far: Attributes) -> Result<Attributes, TypeFault>
    ensures { Gives result (spec.with_string name.now text.now so_far) }
{
    let word = name.text.as_slice();
    if spells(word, "section", "__section__") && text == b".noinit".as_slice() {
        return Ok(Attributes {
            noinit: Some(name.place),
            ..so_far
        });
    }
    Err(at(40, name.place))
}
