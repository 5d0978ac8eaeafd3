//! Failures of requests, of whatever crate, with their codes, texts and statuses.

ghost use Rattle.std.specs.Prelude.{◌≡◌};
ghost use Rattle.ioa_serving.specs.FailureCodes as codes;
ghost use Rattle.ioa_serving.specs.Statuses as statuses;

use crate::object_failure::{ObjectDetails, object_code, object_status};
use crate::refusal::{Details, refusal_code, refusal_status};
use crate::status::Status;
use crate::store::StoreErr;
use ioa_device::LogErr;
use ioa_object::ObjErr;
use ioa_request::Code;
use ioa_run::RunErr;
use ioa_syntax::Refusal;
use std::alloc::{AllocError, AllocFailed};
use std::fmt;

/// Why the program did not do what was asked. It is printed by its code and details.
#[derive(Drop)]
pub enum Failure {
    /// The source or its composition is refused.
    Refused(Refusal),
    /// The object is refused.
    Object(ObjErr),
    /// The file is an object, and has to be a source.
    SourceWanted,
    /// The list or the log is refused, or a device failed, also where there is none.
    List(LogErr),
    /// The composition has internal or hidden actions, and is no monitor.
    SpecHasInternal,
    /// This line of a file of words is no list of words. Lines count from 1.
    BadWords(usize),
    /// A run was asked for with too many turns.
    TooManyTurns,
    /// The action of this number, from 0, is the first of a run's script that is no input.
    BadInput(usize),
    /// A thread was refused to a run.
    Threads,
    /// The entry of this number, from 0, is the first of the log from which a run was to go on that is not the run's; or so many entries are, and
    /// the log's end has another count.
    BadLog(usize),
    /// The log from which a run was to go on ends by a fault.
    EndedByFault,
    /// The file from which a run was to go on holds no log.
    RunLog(LogErr),
    /// A file was not read or not written.
    Io,
    /// A growth of memory was refused.
    OutOfMemory,
}

impl Failure {
    ghost use Rattle.std.specs.Prelude.{◌≡◌};
    ghost use Rattle.ioa_serving.specs.FailureCodes.{failure_code};
    ghost use Rattle.ioa_serving.specs.Statuses.{failure_status};

    /// The code.
    pub fn code(&self) -> Code
        ensures { result ≡ failure_code self.now }
    {
        match self {
            Failure::Refused(refusal) => refusal_code(refusal),
            Failure::Object(error) => object_code(*error),
            Failure::SourceWanted => Code::Object,
            Failure::List(error) | Failure::RunLog(error) => log_code(*error),
            Failure::SpecHasInternal => Code::L7,
            Failure::BadWords(_) => Code::Words,
            Failure::TooManyTurns => Code::N1,
            Failure::BadInput(_) => Code::N2,
            Failure::Threads => Code::N3,
            Failure::BadLog(_) => Code::N4,
            Failure::EndedByFault => Code::N5,
            Failure::Io => Code::Io,
            Failure::OutOfMemory => Code::Memory,
        }
    }

    /// The exit status.
    pub fn status(&self) -> Status
        ensures { result ≡ failure_status self.now }
    {
        match self {
            Failure::Refused(refusal) => refusal_status(refusal),
            Failure::Object(error) => object_status(*error),
            Failure::List(error) | Failure::RunLog(error) => log_status(*error),
            Failure::SpecHasInternal
            | Failure::BadInput(_)
            | Failure::BadLog(_)
            | Failure::EndedByFault => Status::NotAccepted,
            Failure::SourceWanted | Failure::BadWords(_) | Failure::TooManyTurns => {
                Status::BadCommandLine
            }
            Failure::Threads | Failure::Io | Failure::OutOfMemory => Status::Unable,
        }
    }
}

/// The code of a list or a log that is refused.
fn log_code(error: LogErr) -> Code
    ensures { result ≡ codes.log_code error }
{
    match error {
        LogErr::NotJson(_) => Code::L1,
        LogErr::BadEntry(_) => Code::L2,
        LogErr::WrongOwner(_) => Code::L3,
        LogErr::Diverges(_) => Code::L4,
        LogErr::NoEnd => Code::L5,
        LogErr::AfterEnd => Code::L6,
        LogErr::Io => Code::L8,
        LogErr::OutOfMemory => Code::Memory,
    }
}

/// The exit status of a list or a log that is refused.
fn log_status(error: LogErr) -> Status
    ensures { result ≡ statuses.log_status error }
{
    match error {
        LogErr::NotJson(_)
        | LogErr::BadEntry(_)
        | LogErr::WrongOwner(_)
        | LogErr::Diverges(_)
        | LogErr::NoEnd
        | LogErr::AfterEnd => Status::NotAccepted,
        LogErr::Io | LogErr::OutOfMemory => Status::Unable,
    }
}

impl fmt::Display for Failure {
    ghost use Rattle.std.specs.Prelude.{Some};
    ghost use Rattle.ioa_serving.specs.Printed.{failure_text};

    ghost output = { λ failure. Some (failure_text failure) };

    fn fmt<W: fmt::Write>(&self, f: &mut fmt::Formatter<W>) -> fmt::Result {
        let code = self.code();
        match self {
            Failure::Refused(refusal) => {
                let details = Details(refusal);
                write!(f, "{code}{details}")
            }
            Failure::Object(error) => {
                let details = ObjectDetails(*error);
                write!(f, "{code}{details}")
            }
            Failure::List(
                LogErr::NotJson(line)
                | LogErr::BadEntry(line)
                | LogErr::WrongOwner(line)
                | LogErr::Diverges(line),
            )
            | Failure::RunLog(
                LogErr::NotJson(line)
                | LogErr::BadEntry(line)
                | LogErr::WrongOwner(line)
                | LogErr::Diverges(line),
            ) => write!(f, "{code} line {line}"),
            Failure::BadWords(line) => write!(f, "{code} line {line}"),
            Failure::BadInput(index) | Failure::BadLog(index) => {
                write!(f, "{code} index {index}")
            }
            Failure::List(LogErr::NoEnd | LogErr::AfterEnd | LogErr::Io | LogErr::OutOfMemory)
            | Failure::RunLog(LogErr::NoEnd | LogErr::AfterEnd | LogErr::Io | LogErr::OutOfMemory)
            | Failure::SourceWanted
            | Failure::SpecHasInternal
            | Failure::TooManyTurns
            | Failure::Threads
            | Failure::EndedByFault
            | Failure::Io
            | Failure::OutOfMemory => write!(f, "{code}"),
        }
    }
}

impl From<StoreErr> for Failure {
    ghost use Rattle.std.specs.Prelude.{◌≡◌};
    ghost use Rattle.ioa_serving.specs.Serving.{failure_of};

    ghost from_gives = { λ r e. e ≡ failure_of r };

    fn from(error: StoreErr) -> Failure {
        match error {
            StoreErr::Io => Failure::Io,
            StoreErr::OutOfMemory => Failure::OutOfMemory,
        }
    }
}

impl From<Refusal> for Failure {
    ghost use Rattle.std.specs.Prelude.{◌≡◌};
    ghost use Rattle.ioa_serving.specs.declared.failure.Failure.TheVariants as failures;

    ghost from_gives = { λ r e. e ≡ failures.Refused r };

    fn from(refusal: Refusal) -> Failure {
        Failure::Refused(refusal)
    }
}

impl From<ObjErr> for Failure {
    ghost use Rattle.std.specs.Prelude.{◌≡◌};
    ghost use Rattle.ioa_serving.specs.declared.failure.Failure.TheVariants as failures;

    ghost from_gives = { λ r e. e ≡ failures.Object r };

    fn from(error: ObjErr) -> Failure {
        Failure::Object(error)
    }
}

impl From<LogErr> for Failure {
    ghost use Rattle.std.specs.Prelude.{◌≡◌};
    ghost use Rattle.ioa_serving.specs.declared.failure.Failure.TheVariants as failures;

    ghost from_gives = { λ r e. e ≡ failures.List r };

    fn from(error: LogErr) -> Failure {
        Failure::List(error)
    }
}

impl From<RunErr> for Failure {
    ghost use Rattle.std.specs.Prelude.{◌≡◌};
    ghost use Rattle.ioa_serving.specs.Serving.{run_failure};

    ghost from_gives = { λ r e. e ≡ run_failure r };

    fn from(error: RunErr) -> Failure {
        match error {
            RunErr::TooManyTurns => Failure::TooManyTurns,
            RunErr::BadInput(index) => Failure::BadInput(index),
            RunErr::Threads => Failure::Threads,
            RunErr::BadLog(index) => Failure::BadLog(index),
            RunErr::EndedByFault => Failure::EndedByFault,
            RunErr::OutOfMemory => Failure::OutOfMemory,
        }
    }
}

impl From<ioa_value::OutOfMemory> for Failure {
    ghost use Rattle.std.specs.Prelude.{◌≡◌};
    ghost use Rattle.ioa_serving.specs.declared.failure.Failure.TheVariants as failures;

    ghost from_gives = { λ _ e. e ≡ failures.OutOfMemory };

    fn from(_error: ioa_value::OutOfMemory) -> Failure {
        Failure::OutOfMemory
    }
}

impl From<AllocError> for Failure {
    ghost use Rattle.std.specs.Prelude.{◌≡◌};
    ghost use Rattle.ioa_serving.specs.declared.failure.Failure.TheVariants as failures;

    ghost from_gives = { λ _ e. e ≡ failures.OutOfMemory };

    fn from(_error: AllocError) -> Failure {
        Failure::OutOfMemory
    }
}

impl<T: Drop> From<AllocFailed<T>> for Failure {
    ghost use Rattle.std.specs.Prelude.{◌≡◌};
    ghost use Rattle.ioa_serving.specs.declared.failure.Failure.TheVariants as failures;

    ghost from_gives = { λ _ e. e ≡ failures.OutOfMemory };

    fn from(_error: AllocFailed<T>) -> Failure {
        Failure::OutOfMemory
    }
}
