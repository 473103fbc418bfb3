//! What the constants of this crate are.

ghost use Rattle.cm_base.specs.Regions.{HoldsDeviceRows, HoldsDeviceWords};

/// The regions are those of the device, and so are the addresses and the word that stacks use.
pub fn platform_law()
    ensures rows { HoldsDeviceRows }
    ensures words { HoldsDeviceWords }
{}
