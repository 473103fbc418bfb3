//! Reserved names.

ghost use Rattle.std.specs.Prelude.{◌≡◌, length, take, bytes_eq};
ghost use Rattle.cmse_rules.specs.Names as spec;

/// Whether no ordinary name may be declared so: it begins with `__acle_se_` or `cmse_`. Tags and members are free.
pub fn is_reserved(name: &[u8]) -> bool
    ensures { result ≡ spec.is_reserved name.now }
{
    begins(name, "__acle_se_") || begins(name, "cmse_")
}

fn begins(name: &[u8], with: &str) -> bool
    ensures { result ≡ bytes_eq (take (length with.now) name.now) with.now }
{
    let n = with.len().min(name.len());
    &name[..n] == with.as_bytes()
}
