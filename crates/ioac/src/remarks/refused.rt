//! What there is to say of a refusal: where what it tells of stands, and what its code means.

ghost use Rattle.std.specs.Prelude.{◌≡◌, ◌++◌, ◌∷◌, ℕ, List, IfOk, OnOk, Some, false, true};
ghost use Rattle.std.specs.Option.{option_map};
ghost use Rattle.std.specs.String.{string_bytes};
ghost use Rattle.ioa_device.specs.declared.failure.LogErr as errors;
ghost use Rattle.ioa_request.specs.declared.explanation.Explanation.{Explanation};
ghost use Rattle.ioa_request.specs.Explained.{explanation_text};
ghost use Rattle.ioa_serving.specs.declared.failure.Failure as failures;
ghost use Rattle.ioa_serving.specs.FailureCodes.{failure_code};
ghost use Rattle.ioac.specs.Heard.{AreHeardWords, FindsHeard, IsAskedProgram};
ghost use Rattle.ioac.specs.Places as places;
ghost use Rattle.ioac.specs.Refused.{IsBehindEnd, IsToldAt, TellsAction, TellsActionOn, TellsAt, TellsBehindEnd, TellsBehindFileEnd, TellsFileLine, TellsGeneral, TellsInput, TellsIt, TellsLine, TellsSourceLine};
ghost use Rattle.ioac.specs.Remarks as spec;
ghost use Rattle.ioac.specs.Remarks.{IsDifference, IsLoaded};

use crate::remarks::ended::Ended;
use crate::remarks::heads::{put_differing, put_jump};
use crate::remarks::heard::{Heard, line_behind_end, program_in};
use crate::remarks::hints::hint_of_log;
use crate::remarks::places::{
    Place, file_of, input_name, inputs_of, place_of, resume_of, source_of, words_of,
};
use crate::remarks::{composed, ended, heard, warned, words};
use ioa_account::line_of_action;
use ioa_causes::wording;
use ioa_causes::words::general;
use ioa_compile::Program;
use ioa_device::LogErr;
use ioa_request::explanations::explanation;
use ioa_request::{Code, Request, Topic};
use ioa_serving::{Failure, Store, StoreErr};
use ioa_value::OutOfMemory;
use std::alloc::Global;
use std::fmt::Write;

/// What was heard, by its name, and whether it should be a log.
#[derive(Clone, Copy)]
struct Named<'a> {
    name: &'a str,
    bytes: &'a [u8],
    is_log: bool,
}

/// Puts behind the text what there is to say of a failure.
pub fn put<F: Store>(
    alloc: Global,
    text: &mut String,
    asked: &Request<'_>,
    failure: &Failure,
    store: &F,
    input: &[u8],
) -> Result<(), OutOfMemory>
    ensures differs { (n : ℕ) → failure.now ≡ failures.Failure.List (errors.LogErr.Diverges n)
        → OnOk result (IsDifference (F.holds store.now) (F.lacks store.now) asked.now input.now n (string_bytes text.old) (string_bytes text.new)) }
    ensures told { ((n : ℕ) → failure.now ≡ failures.Failure.List (errors.LogErr.Diverges n) → ⊥)
        → OnOk result (IsToldAt (F.holds store.now) (F.lacks store.now) asked.now input.now failure.now (string_bytes text.old) (string_bytes text.new)) }
{
    let more = more_text(alloc, asked, failure, store, input)?;
    put_found(alloc, text, asked, failure, store, input)?;
    put_meaning(text, more.as_str(), failure)
}

/// Puts words, and behind an empty line what the failure's code means.
fn put_meaning(text: &mut String, more: &str, failure: &Failure) -> Result<(), OutOfMemory>
    ensures { OnOk result ((x : Explanation) × (x.topic ≡ Topic.Code (failure_code failure.now))
        × (string_bytes text.new ≡ string_bytes text.old ++ (more.now ++ (10 ∷ explanation_text x)))) }
{
    let explained = explanation(Topic::Code(failure.code()));
    write!(text, "{more}\n{explained}")?;
    Ok(())
}

/// What stands behind the line that a failure tells of: which entries the action may mean at which a log differs, where no component has it; or else the
/// warnings of a check.
fn more_text<F: Store>(
    alloc: Global,
    asked: &Request<'_>,
    failure: &Failure,
    store: &F,
    input: &[u8],
) -> Result<String, OutOfMemory> {
    match failure {
        Failure::List(LogErr::Diverges(line)) => {
            hint_of_log(alloc, asked, store, input, *line as usize)
        }
        _ => warned::warnings(alloc, asked, store),
    }
}

/// Puts where what a failure tells of stands. Behind it stands how a log differs.
fn put_found<F: Store>(
    alloc: Global,
    text: &mut String,
    asked: &Request<'_>,
    failure: &Failure,
    store: &F,
    input: &[u8],
) -> Result<(), OutOfMemory>
    ensures differs { (n : ℕ) → failure.now ≡ failures.Failure.List (errors.LogErr.Diverges n)
        → OnOk result (spec.TellsDiverged (F.holds store.now) (F.lacks store.now) asked.now input.now n (string_bytes text.old) (string_bytes text.new)) }
    ensures told { ((n : ℕ) → failure.now ≡ failures.Failure.List (errors.LogErr.Diverges n) → ⊥)
        → OnOk result (TellsAt (F.holds store.now) (F.lacks store.now) asked.now input.now failure.now (places.place_of failure.now) (string_bytes text.old) (string_bytes text.new)) }
{
    if let Failure::List(LogErr::Diverges(number)) = failure {
        let line = *number as usize;
        put_differing(alloc, text, input, line)?;
        return ended::put(alloc, text, asked, Ended::Diverged(line), store, input);
    }
    put_place(alloc, text, asked, failure, store, input)
}

/// Puts the line of the source, of the list or the log, or of a run's files that a failure tells of.
fn put_place<F: Store>(
    alloc: Global,
    text: &mut String,
    asked: &Request<'_>,
    failure: &Failure,
    store: &F,
    input: &[u8],
) -> Result<(), OutOfMemory>
    ensures { OnOk result (TellsAt (F.holds store.now) (F.lacks store.now) asked.now input.now failure.now (places.place_of failure.now) (string_bytes text.old) (string_bytes text.new)) }
{
    match place_of(failure) {
        Place::Nowhere => Ok(()),
        Place::Source(line) => put_source_line(alloc, text, asked, failure, line, store),
        Place::Composition => composed::put_refused(alloc, text, asked, failure, store),
        Place::Missing => composed::put_missing(alloc, text, asked, failure.code(), store),
        Place::Unseen => composed::put_unseen(alloc, text, asked, failure.code(), store),
        Place::Words(line) => put_words_line(alloc, text, asked, failure, line, store),
        Place::Action(index) => put_script_action(alloc, text, asked, failure, index, store),
        Place::Log(line) => put_log_line(alloc, text, asked, failure, line, store),
        Place::BehindLogEnd => put_behind_log(alloc, text, asked, failure, store),
        Place::Input(line) => put_input(alloc, text, asked, failure, line, store, input),
        Place::BehindEnd => put_behind_input(alloc, text, asked, failure, store, input),
    }
}

/// The bytes of a file, however many. None at all, where it cannot be read now.
fn loaded_whole<F: Store>(alloc: Global, name: &str, store: &F) -> Result<Vec<u8>, OutOfMemory>
    ensures { IfOk result (λ bytes. IsLoaded (F.holds store.now) (F.lacks store.now) name.now bytes.items) }
{
    match store.load_whole(alloc, name) {
        Ok(bytes) => Ok(bytes),
        Err(StoreErr::Io) => Ok(Vec::new(alloc)),
        Err(StoreErr::OutOfMemory) => Err(OutOfMemory),
    }
}

/// Puts what a failure tells of a line of the source.
fn put_source_line<F: Store>(
    alloc: Global,
    text: &mut String,
    asked: &Request<'_>,
    failure: &Failure,
    line: usize,
    store: &F,
) -> Result<(), OutOfMemory>
    ensures { OnOk result (TellsSourceLine (F.holds store.now) (F.lacks store.now) (places.file_of asked.now) line failure.now (string_bytes text.old) (string_bytes text.new)) }
{
    let Some(name) = file_of(asked) else {
        return Ok(());
    };
    let source = loaded_whole(alloc, name, store)?;
    let words = words::of_source(alloc, failure, &source)?;
    put_jump(
        alloc,
        text,
        name,
        line,
        failure.code(),
        words.as_str(),
        source.as_slice(),
    )
}

/// Puts what a failure tells of a line of a run's file of words.
fn put_words_line<F: Store>(
    alloc: Global,
    text: &mut String,
    asked: &Request<'_>,
    failure: &Failure,
    line: usize,
    store: &F,
) -> Result<(), OutOfMemory>
    ensures { OnOk result (TellsFileLine (TellsGeneral failure.now) (F.holds store.now) (F.lacks store.now) (places.words_of asked.now) line (failure_code failure.now) (string_bytes text.old) (string_bytes text.new)) }
{
    let Some(name) = words_of(asked) else {
        return Ok(());
    };
    let bytes = loaded_whole(alloc, name, store)?;
    let code = failure.code();
    put_jump(
        alloc,
        text,
        name,
        line,
        code,
        wording(code),
        bytes.as_slice(),
    )
}

/// Puts the line of a run's script with the action of this index.
fn put_script_action<F: Store>(
    alloc: Global,
    text: &mut String,
    asked: &Request<'_>,
    failure: &Failure,
    index: usize,
    store: &F,
) -> Result<(), OutOfMemory>
    ensures { OnOk result (TellsAction (TellsIt (F.holds store.now) (F.lacks store.now) asked.now failure.now false) (F.holds store.now) (F.lacks store.now) (places.inputs_of asked.now) index (failure_code failure.now) (string_bytes text.old) (string_bytes text.new)) }
{
    let Some(name) = inputs_of(asked) else {
        return Ok(());
    };
    let script = loaded_whole(alloc, name, store)?;
    let named = Named {
        name,
        bytes: script.as_slice(),
        is_log: false,
    };
    let line = line_of_action(named.bytes, index);
    put_heard_on(alloc, text, asked, failure, named, line, store)
}

/// Puts what a failure tells of a line of the log from which a run was to go on.
fn put_log_line<F: Store>(
    alloc: Global,
    text: &mut String,
    asked: &Request<'_>,
    failure: &Failure,
    line: usize,
    store: &F,
) -> Result<(), OutOfMemory>
    ensures { OnOk result (TellsFileLine (TellsIt (F.holds store.now) (F.lacks store.now) asked.now failure.now true) (F.holds store.now) (F.lacks store.now) (places.resume_of asked.now) line (failure_code failure.now) (string_bytes text.old) (string_bytes text.new)) }
{
    let Some(name) = resume_of(asked) else {
        return Ok(());
    };
    put_file_line(alloc, text, asked, failure, name, true, line, store)
}

/// Puts what a failure tells of a line of a script or a log that a run has read.
fn put_file_line<F: Store>(
    alloc: Global,
    text: &mut String,
    asked: &Request<'_>,
    failure: &Failure,
    name: &str,
    is_log: bool,
    line: usize,
    store: &F,
) -> Result<(), OutOfMemory>
    ensures { OnOk result (TellsFileLine (TellsIt (F.holds store.now) (F.lacks store.now) asked.now failure.now is_log) (F.holds store.now) (F.lacks store.now) (Some name.now) line (failure_code failure.now) (string_bytes text.old) (string_bytes text.new)) }
{
    let bytes = loaded_whole(alloc, name, store)?;
    let named = Named {
        name,
        bytes: bytes.as_slice(),
        is_log,
    };
    put_heard_line(alloc, text, asked, failure, named, line, store)
}

/// Puts what a failure tells of the line behind the end of the log from which a run was to go on.
fn put_behind_log<F: Store>(
    alloc: Global,
    text: &mut String,
    asked: &Request<'_>,
    failure: &Failure,
    store: &F,
) -> Result<(), OutOfMemory>
    ensures { OnOk result (TellsBehindFileEnd (TellsIt (F.holds store.now) (F.lacks store.now) asked.now failure.now true) (F.holds store.now) (F.lacks store.now) (places.resume_of asked.now) (failure_code failure.now) (string_bytes text.old) (string_bytes text.new)) }
{
    let Some(name) = resume_of(asked) else {
        return Ok(());
    };
    let log = loaded_whole(alloc, name, store)?;
    let named = Named {
        name,
        bytes: log.as_slice(),
        is_log: true,
    };
    put_behind_end(alloc, text, asked, failure, named, store)
}

/// Puts what a failure tells of a line of standard input, or of a run's script.
fn put_input<F: Store>(
    alloc: Global,
    text: &mut String,
    asked: &Request<'_>,
    failure: &Failure,
    line: usize,
    store: &F,
    input: &[u8],
) -> Result<(), OutOfMemory>
    ensures { OnOk result (TellsInput (F.holds store.now) (F.lacks store.now) asked.now failure.now (places.inputs_of asked.now) input.now line (string_bytes text.old) (string_bytes text.new)) }
{
    match inputs_of(asked) {
        Some(name) => put_file_line(alloc, text, asked, failure, name, false, line, store),
        None => put_input_line(alloc, text, asked, failure, line, store, input),
    }
}

/// Puts what a failure tells of a line of standard input.
fn put_input_line<F: Store>(
    alloc: Global,
    text: &mut String,
    asked: &Request<'_>,
    failure: &Failure,
    line: usize,
    store: &F,
    input: &[u8],
) -> Result<(), OutOfMemory>
    ensures { OnOk result (TellsLine (TellsIt (F.holds store.now) (F.lacks store.now) asked.now failure.now (places.stands_log asked.now)) (places.input_name asked.now) line (failure_code failure.now) input.now (string_bytes text.old) (string_bytes text.new)) }
{
    let name = input_name(asked);
    let named = Named {
        name,
        bytes: input,
        is_log: name != "list",
    };
    put_heard_line(alloc, text, asked, failure, named, line, store)
}

/// Puts what a failure tells of the line behind the end of the log on standard input.
fn put_behind_input<F: Store>(
    alloc: Global,
    text: &mut String,
    asked: &Request<'_>,
    failure: &Failure,
    store: &F,
    input: &[u8],
) -> Result<(), OutOfMemory>
    ensures { OnOk result (TellsBehindEnd (TellsIt (F.holds store.now) (F.lacks store.now) asked.now failure.now true) (places.input_name asked.now) (failure_code failure.now) input.now (string_bytes text.old) (string_bytes text.new)) }
{
    let named = Named {
        name: input_name(asked),
        bytes: input,
        is_log: true,
    };
    put_behind_end(alloc, text, asked, failure, named, store)
}

/// Puts what a failure tells of the line behind a log's end.
fn put_behind_end<F: Store>(
    alloc: Global,
    text: &mut String,
    asked: &Request<'_>,
    failure: &Failure,
    named: Named<'_>,
    store: &F,
) -> Result<(), OutOfMemory>
    ensures { OnOk result (TellsBehindEnd (TellsIt (F.holds store.now) (F.lacks store.now) asked.now failure.now named.entry.is_log) named.entry.name.now (failure_code failure.now) named.entry.bytes.now (string_bytes text.old) (string_bytes text.new)) }
{
    let line = behind_end(alloc, asked, store, named.bytes)?;
    put_heard_on(alloc, text, asked, failure, named, line, store)
}

/// The first line behind a log's end.
fn behind_end<F: Store>(
    alloc: Global,
    asked: &Request<'_>,
    store: &F,
    log: &[u8],
) -> Result<Option<usize>, OutOfMemory>
    ensures { IfOk result (IsBehindEnd log.now) }
{
    match program_asked(alloc, asked, store)? {
        Some(program) => line_behind_end(alloc, program.types(), log),
        None => Ok(None),
    }
}

/// Puts what a failure tells of this line of what was heard, if there is one.
fn put_heard_on<F: Store>(
    alloc: Global,
    text: &mut String,
    asked: &Request<'_>,
    failure: &Failure,
    named: Named<'_>,
    line: Option<usize>,
    store: &F,
) -> Result<(), OutOfMemory>
    ensures { OnOk result (TellsActionOn (TellsIt (F.holds store.now) (F.lacks store.now) asked.now failure.now named.entry.is_log) named.entry.name.now line (failure_code failure.now) named.entry.bytes.now (string_bytes text.old) (string_bytes text.new)) }
{
    match line {
        Some(line) => put_heard_line(alloc, text, asked, failure, named, line, store),
        None => Ok(()),
    }
}

/// Puts what a failure tells of a line of what was heard.
fn put_heard_line<F: Store>(
    alloc: Global,
    text: &mut String,
    asked: &Request<'_>,
    failure: &Failure,
    named: Named<'_>,
    line: usize,
    store: &F,
) -> Result<(), OutOfMemory>
    ensures { OnOk result (TellsLine (TellsIt (F.holds store.now) (F.lacks store.now) asked.now failure.now named.entry.is_log) named.entry.name.now line (failure_code failure.now) named.entry.bytes.now (string_bytes text.old) (string_bytes text.new)) }
{
    let heard = Heard {
        bytes: named.bytes,
        line,
        is_log: named.is_log,
    };
    let words = heard_words(alloc, asked, failure, heard, store)?;
    put_jump(
        alloc,
        text,
        named.name,
        line,
        failure.code(),
        words.as_str(),
        named.bytes,
    )
}

/// The program of which a request asks.
fn program_asked<F: Store>(
    alloc: Global,
    asked: &Request<'_>,
    store: &F,
) -> Result<Option<Program>, OutOfMemory>
    ensures { IfOk result (IsAskedProgram (F.holds store.now) (F.lacks store.now) (spec.source_of asked.now)) }
{
    let Some((name, composition)) = source_of(asked) else {
        return Ok(None);
    };
    let bytes = loaded_whole(alloc, name, store)?;
    program_in(alloc, bytes.as_slice(), composition)
}

/// What is wrong with a line that was heard, in words, or what the failure's code says in general.
fn heard_words<F: Store>(
    alloc: Global,
    asked: &Request<'_>,
    failure: &Failure,
    heard: Heard<'_>,
    store: &F,
) -> Result<String, OutOfMemory>
    ensures { IfOk result (λ words. AreHeardWords (F.holds store.now) (F.lacks store.now) failure.now asked.now heard.entry.is_log heard.entry.bytes.now heard.entry.line (string_bytes words)) }
{
    match found_words(alloc, asked, failure, heard, store)? {
        Some(words) => Ok(words),
        None => Ok(general(alloc, failure.code())?),
    }
}

/// What is wrong with a line that was heard, by the program of which the request asks.
fn found_words<F: Store>(
    alloc: Global,
    asked: &Request<'_>,
    failure: &Failure,
    heard: Heard<'_>,
    store: &F,
) -> Result<Option<String>, OutOfMemory>
    ensures { IfOk result (λ found. FindsHeard (F.holds store.now) (F.lacks store.now) failure.now asked.now heard.entry.is_log heard.entry.bytes.now heard.entry.line (option_map string_bytes found)) }
{
    match program_asked(alloc, asked, store)? {
        Some(program) => heard::words(alloc, asked, failure, &program, heard),
        None => Ok(None),
    }
}
