//! Names that objects define.
ghost use Rattle.std.specs.Prelude.{◌≡◌};
ghost use Rattle.std.specs.List.{list_any};
ghost use Rattle.elf_object.specs.CanLink.{is_defined};
ghost use Rattle.link_check.specs.Checks as spec;

use elf_object::{Home, Object, Symbol};

/// Whether a symbol is defined in its own object.
pub fn is_defined(home: Home) -> bool
    ensures { result ≡ is_defined home }
{
    match home {
        Home::Undefined => false,
        Home::Text => true,
        Home::Init => true,
        Home::Absolute => true,
    }
}

/// Whether a symbol is code of this name.
pub fn is_code(name: &[u8], s: &Symbol) -> bool
    ensures { result ≡ spec.is_code name.now s.now }
{
    s.name.as_slice() == name
        && match s.home {
            Home::Undefined => false,
            Home::Text => true,
            Home::Init => false,
            Home::Absolute => false,
        }
}

/// Whether one of these symbols is code of this name.
fn is_among(name: &[u8], symbols: &[Symbol]) -> bool
    ensures { result ≡ list_any (spec.is_code name.now) symbols.now }
{
    for s in symbols {
        if is_code(name, s) {
            return true;
        }
    }
    false
}

/// Whether one of these objects has code of this name.
pub fn has_code(objects: &[Object], name: &[u8]) -> bool
    ensures { result ≡ spec.has_code objects.now name.now }
{
    for o in objects {
        if is_among(name, o.symbols.as_slice()) {
            return true;
        }
    }
    false
}

/// How often these symbols define a name.
fn count(name: &[u8], symbols: &[Symbol]) -> usize
    ensures { result ≡ spec.count_in name.now symbols.now }
{
    let mut found = 0;
    for s in symbols {
        if s.name.as_slice() == name && is_defined(s.home) {
            found += 1;
        }
    }
    found
}

/// Whether these objects define a name once.
pub fn is_once(objects: &[Object], name: &[u8]) -> bool
    ensures { result ≡ spec.is_once objects.now name.now }
{
    let mut found = 0;
    for o in objects {
        let more = count(name, o.symbols.as_slice());
        if more > 1 - found {
            return false;
        }
        found += more;
    }
    found == 1
}
