//! Refusals of runs, and failures of threads: in either case there is no outcome.

use ioa_value::OutOfMemory;
use thiserror::Error;

/// Why a run could not begin.
#[derive(Clone, Copy, Debug, PartialEq, Eq, Error)]
pub enum RunErr {
    /// Each worker would have more than 100,000 turns.
    #[error("too many turns")]
    TooManyTurns,
    /// The action of this number, from 0, is the first of the script that is no input of the composition.
    #[error("action {0} of the script is no input")]
    BadInput(usize),
    /// A thread was refused, or ended without a word.
    #[error("a thread was refused, or ended without a word")]
    Threads,
    /// The entry of this number, from 0, is the first of the log whose worker is not its action's or whose action is not performed; or so many
    /// entries are performed, and the log's end has another count.
    #[error("entry {0} of the log is not the run's")]
    BadLog(usize),
    /// The log ends by a fault.
    #[error("the log ends by a fault")]
    EndedByFault,
    /// Memory was refused before the start.
    #[error("memory")]
    OutOfMemory,
}

impl From<OutOfMemory> for RunErr {
    ghost use Rattle.std.specs.Prelude.{◌≡◌};
    ghost use Rattle.ioa_board.specs.declared.run_err.RunErr.TheVariants as errors;

    ghost from_gives = { λ _ e. e ≡ errors.OutOfMemory };

    fn from(_error: OutOfMemory) -> RunErr {
        RunErr::OutOfMemory
    }
}
