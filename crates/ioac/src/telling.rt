//! Standard error: what goes wrong, and how the process exits once it is told.

ghost use Rattle.std.specs.Prelude.{◌≡◌, ◌≢◌, ◌≤◌, ◌++◌, ◌∷◌, [], IfOk};
ghost use Rattle.std.specs.IoError.{error_kind};
ghost use Rattle.std.specs.String.{string_bytes};
ghost use Rattle.ioa_device.specs.Devices.{PassesUnless, change};
ghost use Rattle.ioa_device.specs.Failing.{FailedOnceAtMost};
ghost use Rattle.ioa_serving.specs.Printed.{failure_text};
ghost use Rattle.ioa_serving.specs.Serving.{wants_of};
ghost use Rattle.ioac.specs.Telling.{IsPut, IsReported, IsShort, unreadable_text};
ghost use Rattle.ioa_serving.specs.declared.status.Status.TheVariants as statuses;

use ioa_device::{OutputDevice, send_all};
use ioa_serving::{Failure, Ran, Status, send_wants};
use std::alloc::{AllocError, Global};
use std::io;
use std::io::ErrorKind;

/// Writes a text on standard error, and answers this exit status, or that of `Unable` where the device failed.
pub fn put<E: OutputDevice>(text: &str, wanted: Status, errors: &mut E) -> Status
    ensures puts { IsPut text.now wanted (change E.contents E.failure_count errors.old errors.new) result }
    ensures devices { PassesUnless (result ≡ statuses.Unable) (change E.contents E.failure_count errors.old errors.new) }
    ensures counts { E.failure_count errors.old ≤ E.failure_count errors.new }
{
    match send_all(errors, text.as_bytes()) {
        Ok(()) => wanted,
        Err(_) => Status::Unable,
    }
}

/// Tells that a growth of memory was refused, which wants none, and answers the exit status.
pub fn put_short<E: OutputDevice>(errors: &mut E) -> Status
    ensures short { IsShort (change E.contents E.failure_count errors.old errors.new) result }
    ensures devices { PassesUnless (result ≡ statuses.Unable) (change E.contents E.failure_count errors.old errors.new) }
{
    put("memory\n", Status::Unable, errors)
}

/// Writes a text on standard error, and after it of each worker of the run, where there was one, to which memory was refused in its turn that it
/// was; and answers this exit status, or that of `Unable` where the device failed.
pub fn put_with_wants<E: OutputDevice>(
    text: &str,
    ran: &Option<Ran>,
    wanted: Status,
    errors: &mut E,
) -> Status
    ensures puts { IsPut (text.now ++ wants_of ran.now) wanted (change E.contents E.failure_count errors.old errors.new) result }
    ensures devices { PassesUnless (result ≡ statuses.Unable) (change E.contents E.failure_count errors.old errors.new) }
{
    match send_all(errors, text.as_bytes()) {
        Ok(()) => put_wants(ran, wanted, errors),
        Err(_) => Status::Unable,
    }
}

/// The same without a text before: where memory was refused to no worker, nothing is written.
pub fn put_wants<E: OutputDevice>(ran: &Option<Ran>, wanted: Status, errors: &mut E) -> Status
    ensures puts { IsPut (wants_of ran.now) wanted (change E.contents E.failure_count errors.old errors.new) result }
    ensures quiet { wants_of ran.now ≡ [] → (result ≡ wanted) × (errors.new ≡ errors.old) }
    ensures devices { PassesUnless (result ≡ statuses.Unable) (change E.contents E.failure_count errors.old errors.new) }
{
    let Some(ran) = ran else {
        return wanted;
    };
    match send_wants(ran, errors) {
        Ok(()) => wanted,
        Err(_) => Status::Unable,
    }
}

/// Tells why nothing was served, or a run not all, and of the run's workers; and answers the exit status.
pub fn reported<E: OutputDevice>(
    alloc: Global,
    failure: &Failure,
    ran: &Option<Ran>,
    errors: &mut E,
) -> Status
    ensures reports { IsReported failure.now (wants_of ran.now) (change E.contents E.failure_count errors.old errors.new) result }
    ensures devices { PassesUnless (result ≡ statuses.Unable) (change E.contents E.failure_count errors.old errors.new) }
{
    match failure_line(alloc, failure) {
        Ok(line) => put_with_wants(line.as_str(), ran, failure.status(), errors),
        Err(AllocError) => put_with_wants("memory\n", ran, Status::Unable, errors),
    }
}

/// A line with a failure.
fn failure_line(alloc: Global, failure: &Failure) -> Result<String, AllocError>
    ensures { IfOk result (λ line. string_bytes line ≡ failure_text failure.now ++ 10 ∷ []) }
{
    format!(in alloc; "{failure}\n")
}

/// Tells that the words of the command line could not be had, and answers the exit status: one of them is no UTF-8, or memory was short.
pub fn told_unread<E: OutputDevice>(error: &io::Error, errors: &mut E) -> Status
    ensures short { error_kind error.now ≡ ErrorKind.OutOfMemory
        → IsShort (change E.contents E.failure_count errors.old errors.new) result }
    ensures unreadable { error_kind error.now ≢ ErrorKind.OutOfMemory → IsPut unreadable_text statuses.BadCommandLine
        (change E.contents E.failure_count errors.old errors.new) result }
    ensures once { FailedOnceAtMost (E.failure_count errors.old) (E.failure_count errors.new) }
{
    if error.kind() == ErrorKind::OutOfMemory {
        return put_short(errors);
    }
    put(
        "error: the command line is not UTF-8\n\nFor more information, try '--help'.\n",
        Status::BadCommandLine,
        errors,
    )
}
