//! Exit statuses, by which a caller of the process tells what came of a request.

ghost use Rattle.std.specs.Prelude.{◌≡◌};
ghost use Rattle.ioa_system.specs.Outcomes.{ending_of};
ghost use Rattle.ioa_serving.specs.Statuses.{ending_status};

use ioa_system::End;

/// How the program exits.
#[derive(Clone, Copy, Debug, PartialEq, Eq)]
pub enum Status {
    /// What was asked is done.
    Done = 0,
    /// The source or its composition is refused.
    Refused = 1,
    /// The command line is not one that the program reads.
    BadCommandLine = 2,
    /// The list or the log ended by a fault.
    Faulted = 3,
    /// The list, the log or the script is not accepted, or the monitor does not accept, or the list ended not enabled or not an action.
    NotAccepted = 4,
    /// Memory was short, a thread was refused, a device failed, or a file could not be read.
    Unable = 5,
}

impl Status {
    ghost use Rattle.ioa_serving.specs.Statuses.{number_of};

    /// The number that the process exits with.
    pub fn number(self) -> u8
        ensures { result ≡ number_of self }
    {
        self as u8
    }
}

/// The exit status of a list or a log that was replayed, of a list whose run was logged, or of a log that was drawn, to this end.
pub fn status_of(end: End) -> Status
    ensures { result ≡ ending_status (ending_of end) }
{
    match end {
        End::Done(_) => Status::Done,
        End::NotAnAction(_) | End::NotEnabled(_) => Status::NotAccepted,
        End::Fault(_, _, _) => Status::Faulted,
    }
}
