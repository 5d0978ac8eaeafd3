//! Answers of the schedule machine: what became of a copy or of a commit.

ghost use Rattle.std.specs.Prelude.{◌≡◌};
ghost use Rattle.ioa_board.specs.Resuming.{is_committed};

use ioa_value::Fault;

/// What an event of a schedule answers.
#[derive(Clone, Copy, Debug, PartialEq, Eq)]
pub enum Answer {
    /// The worker has planned the action, which may fault when it is committed.
    Planned,
    /// No component has the action.
    NotAnAction,
    /// The owner's precondition does not hold.
    NotEnabled,
    /// The action is another worker's.
    NotYours,
    /// There is no plan to commit.
    NoPlan,
    /// An action has faulted before.
    Stopped,
    /// A participant's state is not what it was when the action was planned.
    Stale,
    /// The component of this number faults: the fault is recorded.
    Faulted(usize, Fault),
    /// The action was performed: it has this index in the history.
    Committed(usize),
}

impl Answer {
    /// Whether the action was performed.
    pub(crate) fn is_committed(self) -> bool
        ensures { result ≡ is_committed self }
    {
        matches!(self, Answer::Committed(_))
    }
}
