//! Why a chain shows its source later. The functions do nothing.
ghost use Rattle.hw_lines.specs.Taps.{TapSteps, TapMeets, TapHolds, PhaseRegisterMeets};
ghost use Rattle.hw_lines.specs.Taps.{BridgeMeets};

use hw_net::{bridge_is_closed, register_is_closed};

/// The source is its own tap 0, and a register in the source's frame makes the next tap of a tap.
pub fn tap_steps()
    ensures { TapSteps }
{
    register_is_closed();
}

/// A tap behind a register is a registered line of whole periods.
pub fn tap_holds()
    ensures { TapHolds }
{}

/// A tap is a line of whole periods.
pub fn tap_meets()
    ensures { TapMeets }
{}

/// A register behind a tap, with a slot of its own, is a registered line.
pub fn phase_register_meets()
    ensures { PhaseRegisterMeets }
{
    register_is_closed();
}

/// A bridge behind a tap is a line for readers of any period.
pub fn bridge_meets()
    ensures { BridgeMeets }
{
    bridge_is_closed();
}
