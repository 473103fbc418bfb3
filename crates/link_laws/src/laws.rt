//! What is true of the ROM that linked objects make.

ghost use Rattle.link_laws.specs.Rom.{PlacedLaw, CodeLaw};

/// The ROM holds the vector table, each object with its relocations resolved, and the veneers, and no other gateway.
pub fn placed_law()
    ensures { PlacedLaw }
{}

/// Each veneer's twin stands at the address of the entry's code.
pub fn code_law()
    ensures { CodeLaw }
{}
