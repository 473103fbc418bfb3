//! What is true of veneers, whatever library they were assigned after.

ghost use Rattle.veneer_laws.specs.Veneers.{AssignLaw, KeepLaw};

/// Where no old veneer is gone or misplaced, the new ones stand at places of their own, in ascending order of address, one for each
/// entry.
pub fn assign_law()
    ensures { AssignLaw }
{}

/// Where each build keeps the veneers of the one before it, each keeps those of all earlier ones.
pub fn keep_law()
    ensures { KeepLaw }
{}
