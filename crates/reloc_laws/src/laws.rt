//! What is true of a text whose relocations are resolved one after the other.

ghost use Rattle.reloc_laws.specs.Resolved.{ResolvedLaw};

/// At each relocation stand the bytes that resolve it, with the register of the instruction that stood there, and all bytes outside of
/// relocations are those of the object.
pub fn resolved_law()
    ensures { ResolvedLaw }
{}
