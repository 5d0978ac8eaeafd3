//! The command, from the words of a command line and its devices to an exit status.

ghost use Rattle.std.specs.Prelude.{◌≡◌, ℕ, List, None, Some, true, map, IfOk, IfErr};
ghost use Rattle.clap.specs.Words.{Text, subcommand_of, subcommand_rows_of};
ghost use Rattle.ioa_device.specs.Devices.{AllPassUnless, PassesUnless, change};
ghost use Rattle.ioa_request.specs.CommandLine.{HasNoFault, IsAsked, IsAskedBy, ioac_app};
ghost use Rattle.ioac.specs.Commands.{AreWantsOf, IsAnswered, IsAnsweredAs, IsAnsweredOf, IsFinished, IsCommand};
ghost use Rattle.ioa_serving.specs.Serving.{IsReading, IsSaving, IsServed, IsUnserved, reports_of, wants_of};
ghost use Rattle.ioa_serving.specs.Worlds.{files, world};
ghost use Rattle.ioac.specs.Telling.{IsReported};
ghost use Rattle.ioa_serving.specs.Statuses.{number_of};
ghost use Rattle.ioa_serving.specs.declared.status.Status.{Status};
ghost use Rattle.ioa_serving.specs.declared.status.Status.TheVariants as statuses;
ghost use Rattle.ioa_request.specs.declared.request.Request.{Request};

use crate::remarks::remarks_or_none;
use crate::requests::serve;
use crate::served::finish;
use crate::tees::Tee;
use crate::telling::{put, reported};
use crate::usage::{told, told_unasked};
use clap::ArgMatches;
use ioa_device::{Device, InputDevice, OutputDevice};
use ioa_request::{Cut, Request, is_explained, parse, read_cut, read_request};
use ioa_serving::{AtHand, Failure, Ran, Served, Status, Store, cut_text};
use std::alloc::Global;
use std::convert::AsStr;
use std::sync::Wait;
use std::thread::Threads;
use std::time::Clock;

/// The program: reads the words of its command line, does what they ask, and answers its exit status, as `Status` numbers it. A run may take
/// threads of the runtime.
///
/// What is wrong goes to `errors`, and nothing is written then, or, where a device failed, no more than a beginning. The status is that of
/// `Unable` where `errors` failed, too. Any other status means that no device failed in this call. A file is changed only where it is asked
/// for: by an object or a log that stands in it whole. `input` is read only where a list or a log is asked for.
pub fn command<
    H: Threads + Wait + Clock + Sync,
    S: AsStr,
    F: Store,
    R: InputDevice,
    W: OutputDevice,
    E: OutputDevice,
>(
    rt: &H,
    alloc: Global,
    words: &[S],
    store: &mut F,
    input: &mut Tee<R>,
    output: &mut W,
    errors: &mut E,
) -> u8
    ensures answers { (status : Status) × (result ≡ number_of status) × IsCommand (map S.text words.now)
        (world (files F.holds F.lacks F.begins F.bars F.saves store.old store.new)
        (change R.remaining R.failure_count input.old.inner input.new.inner) (change W.contents W.failure_count output.old output.new)
        (change E.contents E.failure_count errors.old errors.new)) status }
    ensures kept { ((request : Request) → IsAsked (map S.text words.now) request → IsSaving request → ⊥) → store.new ≡ store.old }
    ensures unread { ((request : Request) → IsAsked (map S.text words.now) request → IsReading request → ⊥) → input.new.inner ≡ input.old.inner }
    ensures devices { AllPassUnless (result ≡ number_of statuses.Unable) (change R.remaining R.failure_count input.old.inner input.new.inner) (change W.contents W.failure_count output.old output.new)
        (change E.contents E.failure_count errors.old errors.new) }
{
    perform(rt, alloc, words, store, input, output, errors).number()
}

/// Does what the words of a command line ask.
fn perform<
    H: Threads + Wait + Clock + Sync,
    S: AsStr,
    F: Store,
    R: InputDevice,
    W: OutputDevice,
    E: OutputDevice,
>(
    rt: &H,
    alloc: Global,
    words: &[S],
    store: &mut F,
    input: &mut Tee<R>,
    output: &mut W,
    errors: &mut E,
) -> Status
    ensures performs { IsCommand (map S.text words.now)
        (world (files F.holds F.lacks F.begins F.bars F.saves store.old store.new)
        (change R.remaining R.failure_count input.old.inner input.new.inner) (change W.contents W.failure_count output.old output.new)
        (change E.contents E.failure_count errors.old errors.new)) result }
    ensures kept { ((request : Request) → IsAsked (map S.text words.now) request → IsSaving request → ⊥) → store.new ≡ store.old }
    ensures unread { ((request : Request) → IsAsked (map S.text words.now) request → IsReading request → ⊥) → input.new.inner ≡ input.old.inner }
    ensures devices { AllPassUnless (result ≡ statuses.Unable) (change R.remaining R.failure_count input.old.inner input.new.inner) (change W.contents W.failure_count output.old output.new)
        (change E.contents E.failure_count errors.old errors.new) }
{
    match parse(alloc, words) {
        Ok(matches) => perform_read(rt, alloc, &matches, store, input, output, errors),
        Err(error) => told(alloc, &error, output, errors),
    }
}

/// Does what is read of a command line without a fault.
fn perform_read<
    H: Threads + Wait + Clock + Sync,
    F: Store,
    R: InputDevice,
    W: OutputDevice,
    E: OutputDevice,
>(
    rt: &H,
    alloc: Global,
    matches: &ArgMatches<'_>,
    store: &mut F,
    input: &mut Tee<R>,
    output: &mut W,
    errors: &mut E,
) -> Status
    ensures performs { (words : List Text) → subcommand_rows_of matches.now ≡ subcommand_of ioac_app words → HasNoFault words → IsCommand words
        (world (files F.holds F.lacks F.begins F.bars F.saves store.old store.new)
        (change R.remaining R.failure_count input.old.inner input.new.inner) (change W.contents W.failure_count output.old output.new)
        (change E.contents E.failure_count errors.old errors.new)) result }
    ensures kept { ((request : Request) → IsAskedBy (subcommand_rows_of matches.now) request → IsSaving request → ⊥) → store.new ≡ store.old }
    ensures unread { ((request : Request) → IsAskedBy (subcommand_rows_of matches.now) request → IsReading request → ⊥) → input.new.inner ≡ input.old.inner }
    ensures devices { AllPassUnless (result ≡ statuses.Unable) (change R.remaining R.failure_count input.old.inner input.new.inner) (change W.contents W.failure_count output.old output.new)
        (change E.contents E.failure_count errors.old errors.new) }
{
    match read_request(matches) {
        Some(asked) => {
            let explains = is_explained(matches);
            let cut = read_cut(matches);
            answer_of(
                rt, alloc, &asked, explains, cut, store, input, output, errors,
            )
        }
        None => told_unasked(alloc, matches, errors),
    }
}

/// Does what is asked, of standard input or, where no more is to be taken, of a beginning of it.
fn answer_of<
    H: Threads + Wait + Clock + Sync,
    F: Store,
    R: InputDevice,
    W: OutputDevice,
    E: OutputDevice,
>(
    rt: &H,
    alloc: Global,
    asked: &Request<'_>,
    explains: bool,
    cut: Option<Cut>,
    store: &mut F,
    input: &mut Tee<R>,
    output: &mut W,
    errors: &mut E,
) -> Status
    ensures answers { IsAnsweredOf cut explains (world (files F.holds F.lacks F.begins F.bars F.saves store.old store.new)
        (change R.remaining R.failure_count input.old.inner input.new.inner) (change W.contents W.failure_count output.old output.new)
        (change E.contents E.failure_count errors.old errors.new)) asked.now result }
    ensures kept { (IsSaving asked.now → ⊥) → store.new ≡ store.old }
    ensures unread { cut ≡ None → (IsReading asked.now → ⊥) → input.new.inner ≡ input.old.inner }
    ensures devices { AllPassUnless (result ≡ statuses.Unable) (change R.remaining R.failure_count input.old.inner input.new.inner) (change W.contents W.failure_count output.old output.new)
        (change E.contents E.failure_count errors.old errors.new) }
{
    match cut {
        Some(cut) => answer_cut(
            rt, alloc, asked, explains, cut, store, input, output, errors,
        ),
        None => answer_as(rt, alloc, asked, explains, store, input, output, errors),
    }
}

/// Takes a beginning of standard input, and does what is asked of that. Where it cannot be taken, that is told, and nothing else is done.
fn answer_cut<
    H: Threads + Wait + Clock + Sync,
    F: Store,
    R: InputDevice,
    W: OutputDevice,
    E: OutputDevice,
>(
    rt: &H,
    alloc: Global,
    asked: &Request<'_>,
    explains: bool,
    cut: Cut,
    store: &mut F,
    input: &mut Tee<R>,
    output: &mut W,
    errors: &mut E,
) -> Status
    ensures answers { IsAnsweredOf (Some cut) explains (world (files F.holds F.lacks F.begins F.bars F.saves store.old store.new)
        (change R.remaining R.failure_count input.old.inner input.new.inner) (change W.contents W.failure_count output.old output.new)
        (change E.contents E.failure_count errors.old errors.new)) asked.now result }
    ensures kept { (IsSaving asked.now → ⊥) → store.new ≡ store.old }
    ensures devices { AllPassUnless (result ≡ statuses.Unable) (change R.remaining R.failure_count input.old.inner input.new.inner) (change W.contents W.failure_count output.old output.new)
        (change E.contents E.failure_count errors.old errors.new) }
{
    match cut_text(alloc, cut, input) {
        Ok(text) => {
            let mut taken = Tee::new(AtHand::new(text.as_slice()));
            answer_as(
                rt, alloc, asked, explains, store, &mut taken, output, errors,
            )
        }
        Err(error) => reported(alloc, &Failure::List(error), &None, errors),
    }
}

/// Does what is asked, and tells why not; and behind it, where `explains` says so, what there is to say of it, for people. Where memory is short for that,
/// it is left out.
fn answer_as<
    H: Threads + Wait + Clock + Sync,
    F: Store,
    R: InputDevice,
    W: OutputDevice,
    E: OutputDevice,
>(
    rt: &H,
    alloc: Global,
    asked: &Request<'_>,
    explains: bool,
    store: &mut F,
    input: &mut Tee<R>,
    output: &mut W,
    errors: &mut E,
) -> Status
    ensures answers { IsAnsweredAs explains (world (files F.holds F.lacks F.begins F.bars F.saves store.old store.new)
        (change R.remaining R.failure_count input.old.inner input.new.inner) (change W.contents W.failure_count output.old output.new)
        (change E.contents E.failure_count errors.old errors.new)) asked.now result }
    ensures kept { (IsSaving asked.now → ⊥) → store.new ≡ store.old }
    ensures unread { (IsReading asked.now → ⊥) → input.new.inner ≡ input.old.inner }
    ensures devices { AllPassUnless (result ≡ statuses.Unable) (change R.remaining R.failure_count input.old.inner input.new.inner) (change W.contents W.failure_count output.old output.new)
        (change E.contents E.failure_count errors.old errors.new) }
{
    if explains {
        return answer_and_explain(rt, alloc, asked, store, input, output, errors);
    }
    answer(rt, alloc, asked, store, input, output, errors)
}

/// Does what is asked, and tells why not, and then what there is to say of it.
fn answer_and_explain<
    H: Threads + Wait + Clock + Sync,
    F: Store,
    R: InputDevice,
    W: OutputDevice,
    E: OutputDevice,
>(
    rt: &H,
    alloc: Global,
    asked: &Request<'_>,
    store: &mut F,
    input: &mut Tee<R>,
    output: &mut W,
    errors: &mut E,
) -> Status
    ensures answers { IsAnsweredAs true (world (files F.holds F.lacks F.begins F.bars F.saves store.old store.new)
        (change R.remaining R.failure_count input.old.inner input.new.inner) (change W.contents W.failure_count output.old output.new)
        (change E.contents E.failure_count errors.old errors.new)) asked.now result }
    ensures kept { (IsSaving asked.now → ⊥) → store.new ≡ store.old }
    ensures unread { (IsReading asked.now → ⊥) → input.new.inner ≡ input.old.inner }
    ensures devices { AllPassUnless (result ≡ statuses.Unable) (change R.remaining R.failure_count input.old.inner input.new.inner) (change W.contents W.failure_count output.old output.new)
        (change E.contents E.failure_count errors.old errors.new) }
{
    keep_heard(alloc, asked, input);
    let failures = errors.failures();
    let (served, ran, answered) = serve_and_tell(rt, alloc, asked, store, input, output, errors);
    // A device that failed is not called again.
    if errors.failures() != failures {
        return answered;
    }
    let text = remarks_or_none(alloc, asked, &served, &ran, store, input.kept());
    put(text.as_str(), answered, errors)
}

/// Has the reader keep what it gives from now on. Of a stream, which may have no end, nothing is kept.
fn keep_heard<R: InputDevice>(alloc: Global, asked: &Request<'_>, input: &mut Tee<R>)
    ensures { input.new.inner ≡ input.old.inner }
{
    if !matches!(asked, Request::Watch { .. }) {
        input.keep(alloc);
    }
}

/// Does what is asked, and tells why not.
fn answer<
    H: Threads + Wait + Clock + Sync,
    F: Store,
    R: InputDevice,
    W: OutputDevice,
    E: OutputDevice,
>(
    rt: &H,
    alloc: Global,
    asked: &Request<'_>,
    store: &mut F,
    input: &mut R,
    output: &mut W,
    errors: &mut E,
) -> Status
    ensures answers { IsAnswered (world (files F.holds F.lacks F.begins F.bars F.saves store.old store.new)
        (change R.remaining R.failure_count input.old input.new) (change W.contents W.failure_count output.old output.new)
        (change E.contents E.failure_count errors.old errors.new)) asked.now result }
    ensures kept { (IsSaving asked.now → ⊥) → store.new ≡ store.old }
    ensures unread { (IsReading asked.now → ⊥) → input.new ≡ input.old }
    ensures devices { AllPassUnless (result ≡ statuses.Unable) (change R.remaining R.failure_count input.old input.new) (change W.contents W.failure_count output.old output.new)
        (change E.contents E.failure_count errors.old errors.new) }
{
    let (_served, _ran, status) = serve_and_tell(rt, alloc, asked, store, input, output, errors);
    status
}

/// Does what is asked, and tells why not: answers what came of it, the run, where there was one, and the exit status.
#[tactic(auto, using(crate::proofs::Reported::no_device_failed))]
fn serve_and_tell<
    H: Threads + Wait + Clock + Sync,
    F: Store,
    R: InputDevice,
    W: OutputDevice,
    E: OutputDevice,
>(
    rt: &H,
    alloc: Global,
    asked: &Request<'_>,
    store: &mut F,
    input: &mut R,
    output: &mut W,
    errors: &mut E,
) -> (Result<Served, Failure>, Option<Ran>, Status)
    ensures tells { (wants : List ℕ) × AreWantsOf asked.now wants
        × IfOk result.0 (λ s. IsServed (files F.holds F.lacks F.begins F.bars F.saves store.old store.new) asked.now (change R.remaining R.failure_count input.old input.new)
        (change W.contents W.failure_count output.old output.new) (reports_of s) wants s.status
        × IsFinished (reports_of s) wants s.status (change E.contents E.failure_count errors.old errors.new) result.2)
        × IfErr result.0 (λ e. IsUnserved (files F.holds F.lacks F.begins F.bars F.saves store.old store.new) asked.now (change R.remaining R.failure_count input.old input.new)
        (change W.contents W.failure_count output.old output.new) wants e
        × IsReported e wants (change E.contents E.failure_count errors.old errors.new) result.2) }
    ensures kept { (IsSaving asked.now → ⊥) → store.new ≡ store.old }
    ensures unread { (IsReading asked.now → ⊥) → input.new ≡ input.old }
    ensures devices { AllPassUnless (result.2 ≡ statuses.Unable) (change R.remaining R.failure_count input.old input.new) (change W.contents W.failure_count output.old output.new)
        (change E.contents E.failure_count errors.old errors.new) }
{
    let (served, ran) = serve(rt, alloc, asked, store, input, output);
    let status = settle(alloc, &served, &ran, errors);
    (served, ran, status)
}

/// Tells what is left to tell of what was served, or why it was not, and of the run's workers; and answers the exit status.
fn settle<E: OutputDevice>(
    alloc: Global,
    served: &Result<Served, Failure>,
    ran: &Option<Ran>,
    errors: &mut E,
) -> Status
    ensures finishes { IfOk served.now (λ s. IsFinished (reports_of s) (wants_of ran.now) s.status
        (change E.contents E.failure_count errors.old errors.new) result) }
    ensures reports { IfErr served.now (λ e. IsReported e (wants_of ran.now)
        (change E.contents E.failure_count errors.old errors.new) result) }
    ensures devices { PassesUnless (result ≡ statuses.Unable) (change E.contents E.failure_count errors.old errors.new) }
{
    match served {
        Ok(served) => finish(served, ran, errors),
        Err(failure) => reported(alloc, failure, ran, errors),
    }
}
