//! Names with their places.
ghost use Rattle.std.specs.Prelude.{◌≡◌, [], IfOk, OnOk};
ghost use Rattle.linker.specs.Table as spec;
ghost use Rattle.linker.specs.Passes as passes;

use cm_base::NoMemory;
use indexmap::IndexMap;
use std::alloc::Global;
use std::marker::Model;

/// Names in the order in which they were first added, each with the place that came with it. A place is found without a look at the
/// other names.
#[derive(Drop)]
pub struct Names {
    kept: IndexMap<Vec<u8>, u32>,
}

impl Model for Names {
    ghost use Rattle.std.specs.Prelude.{List, ℕ, map};
    ghost use Rattle.std.specs.Vec.{vec_items};
    ghost use Rattle.std.specs.Coded.{coded_list, coded_ℕ, coded×};

    ghost Value = { List (List ℕ × ℕ) };

    ghost coded = { coded_list (coded× (coded_list coded_ℕ) coded_ℕ) };

    ghost view = { λ it. map (λ e. (vec_items e.0, e.1)) it.kept.entries };
}

impl Names {
    /// No names.
    pub fn new(alloc: Global) -> Names
        ensures { result ≡ [] }
    {
        Names {
            kept: IndexMap::new(alloc),
        }
    }

    /// The place of a name.
    pub fn find(&self, name: &[u8]) -> Option<u32>
        ensures { result ≡ spec.found self.now name.now }
    {
        self.kept.get(name).copied()
    }

    /// The place of a name, or 0 where it has none.
    pub fn place_of(&self, name: &[u8]) -> u32
        ensures { result ≡ passes.place_named self.now name.now }
    {
        self.find(name).unwrap_or(0)
    }

    /// Adds a name at the end, unless it is there already.
    pub fn add(&mut self, alloc: Global, name: &[u8], place: u32) -> Result<(), NoMemory>
        ensures { OnOk result (self.new ≡ spec.added self.old name.now place) }
    {
        if self.kept.contains_key(name) {
            return Ok(());
        }
        let owned = Vec::from_slice(alloc, name)?;
        self.kept.insert(owned, place)?;
        Ok(())
    }
}
