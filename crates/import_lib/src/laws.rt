//! What is written is read back.

ghost use Rattle.std.specs.Prelude.{◌≡◌, ◌<◌, ◌^◌, List, All, Ok};
ghost use Rattle.ns_types.specs.declared.event.Veneer.{Veneer};
ghost use Rattle.import_lib.specs.Library.{library_of, CanWrite};
ghost use Rattle.import_lib.specs.Reading.{veneers_of};

/// The library of veneers lists them, in their order.
pub fn reads_back()
    ensures { (veneers : List Veneer) → CanWrite veneers → All (λ v. v.address < 2 ^ 32) veneers
        → veneers_of (library_of veneers) ≡ Ok veneers }
{}
