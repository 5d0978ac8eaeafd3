//! Laws of what is warned of. The functions do nothing: what they say is in their contracts.

ghost use Rattle.ioa_warnings.specs.Enabled.{FreeIsEnabled};
ghost use Rattle.ioa_warnings.specs.Performed.{DeadIsDisabled, NothingIsTried};
ghost use Rattle.ioa_warnings.specs.Statements.{CutIsBrokenOff};

/// An action is enabled with any value of a free parameter, or with none.
pub fn free_is_enabled()
    ensures { FreeIsEnabled }
{}

/// The lines that are told are those that have `:=` before their comment, and there end neither with `;`, which would end the
/// statement, nor with `=`, behind which its value is yet to come, and whose comment reads as an operand.
pub fn cut_is_broken_off()
    ensures { CutIsBrokenOff }
{}

/// No action is enabled by a transition whose precondition is told to be true in no state.
pub fn dead_is_disabled()
    ensures { DeadIsDisabled }
{}

/// Chance that is told to have nothing to give leaves nothing to try.
pub fn nothing_is_tried()
    ensures { NothingIsTried }
{}
