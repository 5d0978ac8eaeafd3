//! What is told of a request that was served, on standard error.

ghost use Rattle.std.specs.Prelude.{◌≡◌};
ghost use Rattle.ioa_device.specs.Devices.{PassesUnless, change};
ghost use Rattle.ioac.specs.Commands.{IsFinished};
ghost use Rattle.ioa_serving.specs.Serving.{reports_of, wants_of};
ghost use Rattle.ioa_serving.specs.declared.status.Status.TheVariants as statuses;

use crate::telling::{put_wants, put_with_wants};
use ioa_device::OutputDevice;
use ioa_serving::{Ran, Served, Status};

/// Tells what is left to tell on standard error, of the run's workers too, and answers the exit status, or that of `Unable` where the device failed.
pub fn finish<E: OutputDevice>(served: &Served, ran: &Option<Ran>, errors: &mut E) -> Status
    ensures finishes { IsFinished (reports_of served.now) (wants_of ran.now) served.now.status
        (change E.contents E.failure_count errors.old errors.new) result }
    ensures devices { PassesUnless (result ≡ statuses.Unable) (change E.contents E.failure_count errors.old errors.new) }
{
    match &served.reports {
        Some(text) => put_with_wants(text.as_str(), ran, served.status, errors),
        None => put_wants(ran, served.status, errors),
    }
}
