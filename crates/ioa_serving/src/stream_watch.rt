//! `watch`: which specifications refuse an action of a stream.

ghost use Rattle.std.specs.Prelude.{◌≡◌, ◌⊎◌, IfOk, IfErr, IsErrOf};
ghost use Rattle.std.specs.List.{list_any};
ghost use Rattle.ioa_device.specs.Devices.{BothPassUnless, change};
ghost use Rattle.ioa_device.specs.declared.failure.LogErr.{LogErr};
ghost use Rattle.ioa_device.specs.Failing.{HasFailed};
ghost use Rattle.ioa_request.specs.Pasted.{texts};
ghost use Rattle.ioa_watch.specs.Streaming.{has_refused};
ghost use Rattle.ioa_serving.specs.Serving.{reports_of};
ghost use Rattle.ioa_serving.specs.Statuses.{watch_status};
ghost use Rattle.ioa_serving.specs.Watching.{IsWatchFailure, IsWatchServed};

use crate::failure::Failure;
use crate::served::Served;
use crate::specifications::specified_in;
use crate::status::Status;
use crate::stream_counts::counts_or_none;
use ioa_device::{InputDevice, OutputDevice};
use ioa_watch::{Watcher, watch};
use std::alloc::Global;

/// Watches a stream of actions by compositions of a source, given the bytes of both: writes a line for each that refuses an action, as soon as it does, and
/// at the end of the stream one for each that refused none; answers whether one refused something by the status. It ends there, or as soon as all have refused
/// something; where the first refusal is enough, as soon as one has. Where objects are asked for, each line is one. Where the counts are asked for, they are left to be told, unless memory is short for them.
///
/// Kept of the stream are one line and the components' states, however long it is.
///
/// # Errors
/// `SourceWanted`, `Refused` and `SpecHasInternal`, which are found before the stream is read; `List` where a line is none, or a device failed in this
/// call; or want of memory. What was told before is written then, or, where a device failed, a beginning of it.
pub fn watch_text<R: InputDevice, W: OutputDevice>(
    alloc: Global,
    text: &[u8],
    compositions: &[&str],
    first: bool,
    counts: bool,
    json: bool,
    input: &mut R,
    output: &mut W,
) -> Result<Served, Failure>
    ensures watches { IfOk result (λ s. IsWatchServed text.now (texts compositions.now) first counts json (R.remaining input.old)
        (W.contents output.old) (W.contents output.new) (reports_of s) s.status) }
    ensures refused { IfErr result (λ e. IsWatchFailure text.now (texts compositions.now) first json (R.remaining input.old)
        (HasFailed (R.failure_count input.old) (R.failure_count input.new) ⊎ HasFailed (W.failure_count output.old) (W.failure_count output.new))
        (W.contents output.old) (W.contents output.new) e) }
    ensures devices { BothPassUnless (IsErrOf result (Failure.List LogErr.Io)) (change R.remaining R.failure_count input.old input.new) (change W.contents W.failure_count output.old output.new) }
{
    let given = specified_in(alloc, text, compositions)?;
    let watchers = watch(
        alloc,
        given.checked.types(),
        &given.programs,
        first,
        json,
        input,
        output,
    )?;
    let reports = counts_or_none(alloc, counts, &watchers);
    Ok(Served {
        status: status_of_watch(some_refused(&watchers)),
        reports,
    })
}

/// The exit status of a watch in which something is refused, or nothing.
fn status_of_watch(refused: bool) -> Status
    ensures { result ≡ watch_status refused }
{
    if refused {
        Status::NotAccepted
    } else {
        Status::Done
    }
}

/// Whether one of these refused something.
fn some_refused(watchers: &[Watcher<'_>]) -> bool
    ensures { result ≡ list_any has_refused watchers.now }
{
    watchers.iter().any(|watcher| watcher.refusal().is_some())
}
