//! The names of types.

ghost use Rattle.std.specs.Prelude.{◌≡◌, [], OnOk, OnErr};
ghost use Rattle.c_grammar.specs.Tokens as spec;

use cm_base::NoMemory;
use indexmap::IndexSet;
use std::alloc::Global;
use std::marker::Model;

/// The names of types that a unit has declared so far, each of them once.
pub struct TypeNames {
    kept: IndexSet<Vec<u8>>,
}

impl Model for TypeNames {
    ghost use Rattle.std.specs.Prelude.{List, ℕ, map};
    ghost use Rattle.std.specs.Coded.{coded_list, coded_ℕ};

    ghost Value = { List (List ℕ) };

    ghost coded = { coded_list (coded_list coded_ℕ) };

    ghost view = { λ it. map (λ name. name.items) it.kept.keys };
}

impl Drop for TypeNames {
    fn drop(self) {
        let TypeNames { kept: _kept } = self;
    }
}

impl TypeNames {
    /// No name. It takes no memory.
    pub fn new(alloc: Global) -> TypeNames
        ensures { result ≡ [] }
    {
        TypeNames {
            kept: IndexSet::new(alloc),
        }
    }

    /// Whether this is a name of a type.
    pub fn has(&self, text: &[u8]) -> bool
        ensures { result ≡ spec.known self.now text.now }
    {
        self.kept.contains(text)
    }

    /// Adds a name where it isn't there.
    #[tactic(auto, unfolding(crate::specs::Tokens::with_name))]
    pub fn add(&mut self, text: &[u8], alloc: Global) -> Result<(), NoMemory>
        ensures ok { OnOk result (self.new ≡ spec.with_name self.old text.now) }
        ensures err { OnErr result (self.new ≡ self.old) }
    {
        if self.has(text) {
            return Ok(());
        }
        self.kept.insert(Vec::from_slice(alloc, text)?)?;
        Ok(())
    }
}
