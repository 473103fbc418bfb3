//! A name, as the type keeps it.

ghost use Rattle.std.specs.Prelude.{◌≡◌, IfOk, IsTrue};
ghost use Rattle.c_names.specs.Name as spec;

use cm_base::{NoMemory, Text};
use std::alloc::Global;
use std::marker::Model;

/// A name of a source (C11 6.4.2.1): a letter or `_`, then letters, digits and `_`, from 1 to 255 bytes.
#[derive(Debug)]
pub struct Ident {
    text: Text,
}

impl Model for Ident {
    ghost use Rattle.std.specs.Prelude.{List, ℕ, IsTrue};
    ghost use Rattle.std.specs.Coded.{coded_list, coded_ℕ};
    ghost use Rattle.c_names.specs.Name as spec;

    ghost Value = { List ℕ };

    ghost coded = { coded_list coded_ℕ };

    ghost view = { λ it. it.text };

    ghost invariant = { λ it. IsTrue (spec.is_name it.text) };
}

impl Drop for Ident {
    fn drop(self) {
        let Ident { text: _text } = self;
    }
}

impl Ident {
    /// The name of these bytes. It takes no memory.
    pub fn new(text: Text) -> Ident
        requires { IsTrue (spec.is_name text) }
        ensures { result ≡ text }
    {
        Ident { text }
    }

    /// The bytes of the name. It takes no memory.
    pub fn into_text(self) -> Text
        ensures { result ≡ self }
    {
        let Ident { text } = self;
        text
    }

    pub fn text(&self) -> &Text
        ensures { result.now ≡ self.now }
    {
        &self.text
    }

    pub fn as_slice(&self) -> &[u8]
        ensures { result.now ≡ self.now }
    {
        self.text.as_slice()
    }

    /// The same name once more.
    pub fn copy(&self, alloc: Global) -> Result<Ident, NoMemory>
        ensures { IfOk result (λ it. it ≡ self.now) }
    {
        let text = self.text.try_clone(alloc)?;
        Ok(Ident { text })
    }

    /// What is held here is a name.
    pub fn names(&self)
        ensures { IsTrue (spec.is_name self.now) }
    {
        let _ = &self.text;
    }
}
