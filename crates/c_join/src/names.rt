//! Tables of names.
ghost use Rattle.std.specs.Prelude.{◌≡◌, [], ◌∷◌, ◌++◌, None, IfOk, OnOk, IsTrue, bytes_eq, false};
ghost use Rattle.std.specs.List.{list_any};
ghost use Rattle.join_laws.specs.Keys as spec;
ghost use Rattle.c_tree.specs.Conditions.{all_differ, extern_names, place_of};

use c_tree::Extern;
use cm_base::NoMemory;
use indexmap::IndexSet;
use std::alloc::Global;
use std::marker::Model;

/// The names of a unit's externs, each found at once.
#[derive(Drop)]
pub struct Names<'a> {
    set: IndexSet<&'a [u8]>,
}

impl<'a> Model for Names<'a> {
    ghost use Rattle.std.specs.Prelude.{List, ℕ, map};
    ghost use Rattle.std.specs.Coded.{coded_list, coded_ℕ};

    ghost Value = { List (List ℕ) };

    ghost coded = { coded_list (coded_list coded_ℕ) };

    ghost view = { λ it. map (λ k. k.now) it.set.keys };
}

impl<'a> Names<'a> {
    /// The names of these externs.
    pub fn of(alloc: Global, externs: &'a [Extern]) -> Result<Names<'a>, NoMemory>
        requires { IsTrue (all_differ (extern_names externs.now)) }
        ensures { IfOk result (λ it. it ≡ extern_names externs.now) }
    {
        let mut names = Names {
            set: IndexSet::new(alloc),
        };
        for x in externs {
            names.add(x.name.as_slice())?;
        }
        Ok(names)
    }

    /// Adds a name that isn't there yet.
    fn add(&mut self, name: &'a [u8]) -> Result<(), NoMemory>
        requires { list_any (bytes_eq name.now) self.old ≡ false }
        ensures { OnOk result (self.new ≡ self.old ++ name.now ∷ []) }
    {
        self.set.insert_full(name)?;
        Ok(())
    }

    /// Where a name stands.
    pub fn place(&self, name: &[u8]) -> Option<usize>
        ensures { result ≡ place_of self.now name.now }
    {
        self.set.get_index_of(name)
    }
}

/// Names with the units to which they belong: 0 for a name of all units, and else the number of its unit and one.
#[derive(Drop)]
pub struct Keys<'a> {
    set: IndexSet<(usize, &'a [u8])>,
}

impl<'a> Model for Keys<'a> {
    ghost use Rattle.std.specs.Prelude.{List, map};
    ghost use Rattle.join_laws.specs.Keys.{Key};

    ghost Value = { List Key };

    ghost view = { λ it. map (λ k. (k.0, k.1.now)) it.set.keys };
}

impl<'a> Keys<'a> {
    pub fn new(alloc: Global) -> Keys<'a>
        ensures { result ≡ [] }
    {
        Keys {
            set: IndexSet::new(alloc),
        }
    }

    /// Where a key stands.
    pub fn place(&self, scope: usize, name: &'a [u8]) -> Option<usize>
        ensures { result ≡ spec.place_of_key self.now (scope, name.now) }
    {
        self.set.get_index_of(&(scope, name))
    }

    /// Adds a key that isn't there yet.
    pub fn add(&mut self, scope: usize, name: &'a [u8]) -> Result<(), NoMemory>
        requires { spec.place_of_key self.old (scope, name.now) ≡ None }
        ensures { OnOk result (self.new ≡ self.old ++ (scope, name.now) ∷ []) }
    {
        self.set.insert_full((scope, name))?;
        Ok(())
    }
}
