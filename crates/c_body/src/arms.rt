//! The parts of a `switch`.

ghost use Rattle.std.specs.Prelude.{◌≡◌, ◌∷◌, ◌++◌, [], false, map, OnOk};
ghost use Rattle.c_tree.specs.declared.stmt.Part.TheVariants as variants;
ghost use Rattle.c_body.specs.Arms as spec;
ghost use Rattle.c_body.specs.Within.{Changes};

use c_rows::{TypeFault, at};
use c_tree::{Part, Stmt};
use cm_base::{List, NoMemory, Place, Shared};
use indexmap::IndexSet;
use std::alloc::Global;
use std::marker::Model;

/// Values that have a label, in the order of the text, each once. Whether a value is there is found without a look at the
/// others.
#[derive(Drop)]
pub struct Cases {
    set: IndexSet<u32>,
}

impl Model for Cases {
    ghost use Rattle.std.specs.Prelude.{List, ℕ};
    ghost use Rattle.std.specs.Coded.{coded_list, coded_ℕ};

    ghost Value = { List ℕ };

    ghost coded = { coded_list coded_ℕ };

    ghost view = { λ it. it.set.keys };
}

impl Cases {
    /// No value.
    pub fn new(alloc: Global) -> Cases
        ensures { result ≡ [] }
    {
        Cases {
            set: IndexSet::new(alloc),
        }
    }

    /// Whether a value is there.
    pub fn has(&self, n: u32) -> bool
        ensures { result ≡ spec.has self.now n }
    {
        self.set.contains(&n)
    }

    /// Adds a value that isn't there.
    pub fn push(&mut self, n: u32) -> Result<(), NoMemory>
        requires { spec.has self.old n ≡ false }
        ensures { OnOk result (self.new ≡ self.old ++ n ∷ []) }
    {
        self.set.insert(n)?;
        Ok(())
    }
}

/// The parts of a `switch` so far, the values that have a label among them, and whether `default` is.
#[derive(Drop)]
pub struct Arms {
    pub parts: List<Part>,
    pub cases: Cases,
    pub has_default: bool,
}

impl Arms {
    /// No parts.
    pub fn new(alloc: Global) -> Arms
        ensures { result ≡ spec.no_arms }
    {
        Arms {
            parts: List::new(alloc),
            cases: Cases::new(alloc),
            has_default: false,
        }
    }

    /// A case label. At `place`, its `case`, it is E26 where the value has a label already.
    pub fn push_case(&mut self, n: u32, place: Place) -> Result<(), TypeFault>
        ensures { Changes result self.new (spec.cased place n self.old) }
    {
        if self.cases.has(n) {
            return Err(at(26, place));
        }
        self.cases.push(n)?;
        self.parts.push(Part::Case(n))?;
        Ok(())
    }

    /// The label `default`. At `place` it is E26 where one stands before it.
    pub fn push_default(&mut self, place: Place) -> Result<(), TypeFault>
        ensures { Changes result self.new (spec.defaulted place self.old) }
    {
        if self.has_default {
            return Err(at(26, place));
        }
        self.has_default = true;
        self.parts.push(Part::Default)?;
        Ok(())
    }

    /// A statement.
    pub fn push_stmt(&mut self, stmt: Shared<Stmt>) -> Result<(), NoMemory>
        ensures { OnOk result (self.new ≡ spec.with_stmt stmt self.old) }
    {
        self.parts.push(Part::Stmt(stmt))?;
        Ok(())
    }

    /// Statements, as a declaration makes them.
    pub fn push_stmts(&mut self, stmts: &[Shared<Stmt>]) -> Result<(), NoMemory>
        ensures { OnOk result (self.new ≡ spec.with_stmts stmts.now self.old) }
    {
        push_all(&mut self.parts, stmts)
    }
}

fn push_all(parts: &mut List<Part>, stmts: &[Shared<Stmt>]) -> Result<(), NoMemory>
    ensures { OnOk result (parts.new ≡ parts.old ++ map variants.Stmt stmts.now) }
{
    for stmt in stmts {
        parts.push(Part::Stmt(stmt.share()?))?;
    }
    Ok(())
}
