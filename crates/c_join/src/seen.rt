//! The functions and globals that units define.
ghost use Rattle.std.specs.Prelude.{◌≡◌, ◌+◌, ◌<◌, [], None, IfOk, OnOk, cond, option_map};
ghost use Rattle.join_laws.specs.Keys as keys;
ghost use Rattle.join_laws.specs.Joined as spec;
ghost use Rattle.c_tree.specs.Conditions.{declared, extern_names};

use crate::earliest::Earliest;
use crate::names::{Keys, Names};
use c_tree::{Extern, TFunction, TGlobal};
use cm_base::{List, NoMemory, Place};
use std::alloc::Global;
use std::marker::Model;

/// Who is defined so far, functions and globals each by their numbers in the program, and the earliest of the definitions
/// that weren't the first of their name.
#[derive(Drop)]
pub struct Seen<'a> {
    functions: Keys<'a>,
    globals: Keys<'a>,
    again: Earliest<'a>,
}

impl<'a> Model for Seen<'a> {
    ghost use Rattle.join_laws.specs.Joined as spec;

    ghost Value = { spec.Seen };

    ghost view = { λ it. record { functions = it.functions; globals = it.globals; again = it.again } };
}

/// To whom a name of this unit belongs: 0 to all units, and else the number of the unit and one.
pub fn scope(unit: usize, is_static: bool) -> usize
    requires { unit < 9223372036854775808 }
    ensures { result ≡ cond is_static (unit + 1) 0 }
{
    if is_static { unit + 1 } else { 0 }
}

/// Whether a name of a unit with these externs is static.
pub fn is_static(name: &[u8], externs: &[Extern], names: &Names) -> bool
    requires { names.now ≡ extern_names externs.now }
    ensures { result ≡ keys.is_static (declared externs.now name.now) }
{
    match names.place(name) {
        None => false,
        Some(at) => match externs.get(at) {
            None => false,
            Some(x) => x.is_static,
        },
    }
}

impl<'a> Seen<'a> {
    /// Nobody yet.
    pub fn nobody(alloc: Global) -> Seen<'a>
        ensures { result ≡ record { functions = []; globals = []; again = None } }
    {
        Seen {
            functions: Keys::new(alloc),
            globals: Keys::new(alloc),
            again: Earliest::none(),
        }
    }

    /// The name of the earliest definition that wasn't the first.
    pub fn again(&self) -> Option<&'a [u8]>
        ensures { option_map (λ n. n.now) result ≡ spec.name_in self.now.again }
    {
        self.again.name()
    }

    fn is_seen(&self, scope: usize, name: &'a [u8]) -> bool
        ensures { result ≡ spec.is_seen self.now (scope, name.now) }
    {
        self.functions.place(scope, name).is_some() || self.globals.place(scope, name).is_some()
    }

    fn see_function(&mut self, scope: usize, name: &'a [u8], place: Place) -> Result<(), NoMemory>
        ensures { OnOk result (self.new ≡ spec.see_function self.old (scope, name.now) place) }
    {
        if self.is_seen(scope, name) {
            self.again.offer(name, place);
            return Ok(());
        }
        self.functions.add(scope, name)
    }

    fn see_global(&mut self, scope: usize, name: &'a [u8], place: Place) -> Result<(), NoMemory>
        ensures { OnOk result (self.new ≡ spec.see_global self.old (scope, name.now) place) }
    {
        if self.is_seen(scope, name) {
            self.again.offer(name, place);
            return Ok(());
        }
        self.globals.add(scope, name)
    }

    /// Sees the functions of a unit.
    pub fn see_functions(
        &mut self,
        functions: &'a [TFunction],
        unit: usize,
        externs: &[Extern],
        names: &Names,
    ) -> Result<(), NoMemory>
        requires names { names.now ≡ extern_names externs.now }
        requires few { unit < 9223372036854775808 }
        ensures { OnOk result (self.new ≡ spec.see_functions unit externs.now self.old functions.now) }
    {
        for f in functions {
            let name = f.name.as_slice();
            self.see_function(scope(unit, is_static(name, externs, names)), name, f.place)?;
        }
        Ok(())
    }

    /// Sees the globals of a unit.
    pub fn see_globals(
        &mut self,
        globals: &'a [TGlobal],
        unit: usize,
        externs: &[Extern],
        names: &Names,
    ) -> Result<(), NoMemory>
        requires names { names.now ≡ extern_names externs.now }
        requires few { unit < 9223372036854775808 }
        ensures { OnOk result (self.new ≡ spec.see_globals unit externs.now self.old globals.now) }
    {
        for g in globals {
            let name = g.name.as_slice();
            self.see_global(scope(unit, is_static(name, externs, names)), name, g.place)?;
        }
        Ok(())
    }

    /// The number of an extern of a unit, none where no unit defines it.
    fn number_of(&self, unit: usize, x: &'a Extern) -> Option<usize>
        requires { unit < 9223372036854775808 }
        ensures { result ≡ keys.number_of self.now.functions self.now.globals unit x.now }
    {
        let scope = scope(unit, x.is_static);
        if x.ctype.is_function() {
            self.functions.place(scope, x.name.as_slice())
        } else {
            self.globals.place(scope, x.name.as_slice())
        }
    }

    /// The numbers of all externs of a unit.
    pub fn numbers(
        &self,
        alloc: Global,
        unit: usize,
        externs: &'a [Extern],
    ) -> Result<List<Option<usize>>, NoMemory>
        requires { unit < 9223372036854775808 }
        ensures { IfOk result (λ r. r ≡ keys.numbers_of self.now.functions self.now.globals unit externs.now) }
    {
        let mut numbers = List::new(alloc);
        for x in externs {
            numbers.push(self.number_of(unit, x))?;
        }
        Ok(numbers)
    }
}
