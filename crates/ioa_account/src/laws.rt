//! Laws of what is told. The functions do nothing: what they say is in their contracts.

ghost use Rattle.ioa_account.specs.Ends.{EndsAreFound};
ghost use Rattle.ioa_account.specs.Lines.{ActionsHaveLines};

/// Each action of a list stands in the line whose number `line_of_action` answers for its index.
pub fn actions_have_lines()
    ensures { ActionsHaveLines }
{}

/// Where a run ends before all its actions are performed, the action is one of the list. Where it is not enabled it has an owner,
/// and the number of its owner, or of the component that faults, is that of a component.
pub fn ends_are_found()
    ensures { EndsAreFound }
{}
