//! The names that a library has listed so far.
ghost use Rattle.std.specs.Prelude.{◌≡◌, [], ◌∷◌, ◌++◌, not, true, bytes_eq, IfOk};
ghost use Rattle.std.specs.List.{list_any};

use cm_base::NoMemory;
use indexmap::IndexSet;
use std::alloc::Global;
use std::marker::Model;

/// Names in the order in which they were first added, each found at once.
#[derive(Drop)]
pub struct Names<'a> {
    set: IndexSet<&'a [u8]>,
}

impl<'a> Model for Names<'a> {
    ghost use Rattle.std.specs.Prelude.{List, ℕ, map};
    ghost use Rattle.std.specs.Coded.{coded_list, coded_ℕ};

    ghost Value = { List (List ℕ) };

    ghost coded = { coded_list (coded_list coded_ℕ) };

    ghost view = { λ it. map (λ k. k.now) it.set.keys };
}

impl<'a> Names<'a> {
    /// No name. It takes no memory.
    pub fn new(alloc: Global) -> Names<'a>
        ensures { result ≡ [] }
    {
        Names {
            set: IndexSet::new(alloc),
        }
    }

    /// Adds a name, and tells whether it is new.
    pub fn add(&mut self, name: &'a [u8]) -> Result<bool, NoMemory>
        ensures new { IfOk result (λ new. new ≡ not (list_any (bytes_eq name.now) self.old)) }
        ensures added { IfOk result (λ new. new ≡ true → self.new ≡ self.old ++ name.now ∷ []) }
    {
        let added = self.set.insert_full(name)?;
        Ok(added.1)
    }
}
