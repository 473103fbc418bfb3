//! Entry functions.

ghost use Rattle.std.specs.Prelude.{◌≡◌};
ghost use Rattle.cmse_rules.specs.Entry as spec;

use c_tree::TFunction;

/// The first of E41 (more than four parameters) and E43 (static) that holds of a function with or without
/// `cmse_nonsecure_entry`; None exactly where neither holds.
pub fn entry_rule(entry: bool, params: usize, is_static: bool) -> Option<u8>
    ensures { result ≡ spec.entry_rule entry params is_static }
{
    if !entry {
        return None;
    }
    if params > 4 {
        return Some(41);
    }
    if is_static {
        return Some(43);
    }
    None
}

/// The first of E41 and E43 that holds of the function; None exactly where neither holds.
pub fn entry_fault(f: &TFunction) -> Option<u8>
    ensures { result ≡ spec.entry_fault f.now }
{
    entry_rule(f.entry, f.params.len(), f.is_static)
}
