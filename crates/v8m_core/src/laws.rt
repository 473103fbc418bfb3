//! Laws of the machine.

ghost use Rattle.ns_types.specs.declared.turn.Start.{Start};
ghost use Rattle.ns_types.specs.State.{Device, State};
ghost use Rattle.ns_types.specs.Memory.{IsStart};
ghost use Rattle.ns_types.specs.Turns.{Turn, IsTurn};
ghost use Rattle.v8m_core.specs.Fits.{Fits};
ghost use Rattle.v8m_core.specs.Reset.{reset_of};
ghost use Rattle.v8m_core.specs.Step.{step_of, turn_of};

/// Each number of the state fits where it stands when the device is reset, and stays so by each step of Secure code
/// and by each turn that a caller can play.
pub fn fits()
    ensures reset { (device : Device) (start : Start) → IsStart start → Fits (reset_of device start) }
    ensures step { (device : Device) (s : State) → Fits s → Fits (step_of device s).state }
    ensures turn { (device : Device) (t : Turn) (s : State) → IsTurn t → Fits s → Fits (turn_of device t s).state }
{}
