//! Names in order, found by their bytes.

ghost use Rattle.std.specs.Prelude.{◌≡◌, [], IfOk, length};
ghost use Rattle.c_scope.specs.Index as spec;

use cm_base::NoMemory;
use indexmap::IndexSet;
use std::alloc::Global;
use std::marker::Model;

/// Names in the order in which they were added, each once. The place of a name is found without a look at the others.
#[derive(Drop)]
pub struct Index {
    set: IndexSet<Vec<u8>>,
}

impl Model for Index {
    ghost use Rattle.std.specs.Prelude.{List, ℕ, map};
    ghost use Rattle.std.specs.Vec.{vec_items};
    ghost use Rattle.std.specs.Coded.{coded_list, coded_ℕ};

    ghost Value = { List (List ℕ) };

    ghost coded = { coded_list (coded_list coded_ℕ) };

    ghost view = { λ it. map vec_items it.set.keys };
}

impl Index {
    /// No names.
    pub fn new(alloc: Global) -> Index
        ensures { result ≡ [] }
    {
        Index {
            set: IndexSet::new(alloc),
        }
    }

    /// The place of the name of these bytes.
    pub fn place_of(&self, text: &[u8]) -> Option<usize>
        ensures { result ≡ spec.place_of self.now text.now }
    {
        self.set.get_index_of(text)
    }

    /// Adds a name at the end, unless it is there already.
    pub fn add(&mut self, alloc: Global, text: &[u8]) -> Result<(), NoMemory>
        ensures { IfOk result (λ _. self.new ≡ spec.added self.old text.now) }
    {
        let name = Vec::from_slice(alloc, text)?;
        self.set.insert(name)?;
        Ok(())
    }
}
