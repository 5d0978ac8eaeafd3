//! Refusals of lists and logs, by their lines, and failures of what they are read from.

use crate::device::Failed;
use ioa_value::OutOfMemory;
use std::alloc::{AllocError, AllocFailed};
use thiserror::Error;

/// Why a list or a log is not read or replayed. Lines count from 1.
#[derive(Clone, Copy, Debug, PartialEq, Eq, Error)]
pub enum LogErr {
    /// This line of a log is the first that is no entry's, and it is no JSON text.
    #[error("line {0} is no JSON")]
    NotJson(u64),
    /// This line is the first of a list that is neither skipped nor the text of an action, or of a log that is a JSON text, but neither an
    /// entry nor the end. Nothing was written.
    #[error("line {0} is no action")]
    BadEntry(u64),
    /// This line of a log has another worker than its action's.
    #[error("line {0} has another worker")]
    WrongOwner(u64),
    /// What this line of a log tells is not what the run does.
    #[error("line {0} is not the run's")]
    Diverges(u64),
    /// A log has no end.
    #[error("the log has no end")]
    NoEnd,
    /// A log has a line after its end.
    #[error("the log goes on after its end")]
    AfterEnd,
    /// The reader or the writer failed. What was written is a beginning of the text.
    #[error("a device failed")]
    Io,
    /// A growth of memory was refused. Nothing was written.
    #[error("memory")]
    OutOfMemory,
}

impl From<Failed> for LogErr {
    ghost use Rattle.std.specs.Prelude.{◌≡◌};
    ghost use Rattle.ioa_device.specs.declared.failure.LogErr.TheVariants as errors;

    ghost from_gives = { λ _ e. e ≡ errors.Io };

    fn from(_error: Failed) -> LogErr {
        LogErr::Io
    }
}

impl From<OutOfMemory> for LogErr {
    ghost use Rattle.std.specs.Prelude.{◌≡◌};
    ghost use Rattle.ioa_device.specs.declared.failure.LogErr.TheVariants as errors;

    ghost from_gives = { λ _ e. e ≡ errors.OutOfMemory };

    fn from(_error: OutOfMemory) -> LogErr {
        LogErr::OutOfMemory
    }
}

impl From<AllocError> for LogErr {
    ghost use Rattle.std.specs.Prelude.{◌≡◌};
    ghost use Rattle.ioa_device.specs.declared.failure.LogErr.TheVariants as errors;

    ghost from_gives = { λ _ e. e ≡ errors.OutOfMemory };

    fn from(_error: AllocError) -> LogErr {
        LogErr::OutOfMemory
    }
}

impl<T: Drop> From<AllocFailed<T>> for LogErr {
    ghost use Rattle.std.specs.Prelude.{◌≡◌};
    ghost use Rattle.ioa_device.specs.declared.failure.LogErr.TheVariants as errors;

    ghost from_gives = { λ _ e. e ≡ errors.OutOfMemory };

    fn from(_error: AllocFailed<T>) -> LogErr {
        LogErr::OutOfMemory
    }
}
