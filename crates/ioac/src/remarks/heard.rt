//! What is wrong with a line of a list, of a log or of a run's script: what is not known in it, or whose action it is.

ghost use Rattle.std.specs.Prelude.{◌≡◌, ◌++◌, ◌+◌, IfOk, IfSome, map};
ghost use Rattle.std.specs.Option.{option_copied, option_map};
ghost use Rattle.std.specs.String.{string_bytes};
ghost use Rattle.ioa_value.specs.Actions.{act_of};
ghost use Rattle.ioa_compile.specs.Shown.{entry_code, member_code};
ghost use Rattle.ioa_compile.specs.Tables.{tabled};
ghost use Rattle.ioa_system.specs.Logs.{log_entry, worker};
ghost use Rattle.ioac.specs.Heard as spec;
ghost use Rattle.ioac.specs.Owners as owners;
ghost use Rattle.ioac.specs.Refused.{IsBehindEnd};

use crate::remarks::unknown::unknown_word;
use ioa_account::line_at;
use ioa_causes::composing::kind_words;
use ioa_compile::{Entry, Member, Program};
use ioa_device::LogErr;
use ioa_log::begun_log;
use ioa_object::ObjErr;
use ioa_request::Request;
use ioa_serving::{Failure, program_of};
use ioa_syntax::Refusal;
use ioa_system::{LogEntry, Participation, owner};
use ioa_tree::Kind;
use ioa_value::{Action, OutOfMemory, Types, print_action, read_action};
use std::alloc::Global;

/// Which bytes a line stands in, and what they should be.
#[derive(Clone, Copy)]
pub struct Heard<'a> {
    pub bytes: &'a [u8],
    /// The number of the line, from 1.
    pub line: usize,
    /// Whether they should be a log.
    pub is_log: bool,
}

/// What is wrong with a line, in words. None, where no more is known than the failure's code says.
pub fn words(
    alloc: Global,
    asked: &Request<'_>,
    failure: &Failure,
    program: &Program,
    heard: Heard<'_>,
) -> Result<Option<String>, OutOfMemory>
    ensures { IfOk result (λ found. spec.TellsHeard failure.now asked.now program.now heard.entry.is_log heard.entry.bytes.now heard.entry.line (option_map string_bytes found)) }
{
    match line_at(heard.bytes, heard.line) {
        Some(line) => failure_words(alloc, asked, failure, program, heard, line),
        None => Ok(None),
    }
}

/// The same of the line that it is.
fn failure_words(
    alloc: Global,
    asked: &Request<'_>,
    failure: &Failure,
    program: &Program,
    heard: Heard<'_>,
    line: &[u8],
) -> Result<Option<String>, OutOfMemory>
    ensures { IfOk result (λ found. spec.TellsFailure failure.now asked.now program.now heard.entry.is_log heard.entry.bytes.now heard.entry.line line.now (option_map string_bytes found)) }
{
    match failure {
        Failure::List(error) => error_words(alloc, asked, error, program, heard, line),
        Failure::RunLog(error) => error_words(alloc, asked, error, program, heard, line),
        Failure::BadInput(_) => no_input_words(alloc, program, line),
        Failure::Refused(_) => Ok(None),
        Failure::Object(_) => Ok(None),
        Failure::SourceWanted => Ok(None),
        Failure::SpecHasInternal => Ok(None),
        Failure::BadWords(_) => Ok(None),
        Failure::TooManyTurns => Ok(None),
        Failure::Threads => Ok(None),
        Failure::BadLog(_) => Ok(None),
        Failure::EndedByFault => Ok(None),
        Failure::Io => Ok(None),
        Failure::OutOfMemory => Ok(None),
    }
}

/// What is wrong with a line of a list or a log.
fn error_words(
    alloc: Global,
    asked: &Request<'_>,
    error: &LogErr,
    program: &Program,
    heard: Heard<'_>,
    line: &[u8],
) -> Result<Option<String>, OutOfMemory>
    ensures { IfOk result (λ found. spec.TellsLogErr error.now asked.now program.now heard.entry.is_log heard.entry.bytes.now heard.entry.line line.now (option_map string_bytes found)) }
{
    match error {
        LogErr::NotJson(_) => Ok(Some(no_json_words(alloc, program.types(), line)?)),
        LogErr::BadEntry(_) => {
            Ok(Some(bad_line_words(alloc, asked, program.types(), heard.is_log, line)?))
        }
        LogErr::WrongOwner(_) => owner_words(alloc, program, heard.bytes, heard.line),
        LogErr::AfterEnd => Ok(Some(behind_end_words(alloc, heard.line)?)),
        LogErr::Diverges(_) => Ok(None),
        LogErr::NoEnd => Ok(None),
        LogErr::Io => Ok(None),
        LogErr::OutOfMemory => Ok(None),
    }
}

/// The program of a source or an object. None, where it is refused.
pub fn program_in(
    alloc: Global,
    bytes: &[u8],
    composition: Option<&str>,
) -> Result<Option<Program>, OutOfMemory>
    ensures { IfOk result (spec.IsGivenProgram bytes.now (option_copied composition.entry)) }
{
    match program_of(alloc, bytes, composition) {
        Ok(program) => Ok(Some(program)),
        Err(
            Failure::OutOfMemory
            | Failure::Refused(Refusal::OutOfMemory)
            | Failure::Object(ObjErr::OutOfMemory),
        ) => Err(OutOfMemory),
        Err(_) => Ok(None),
    }
}

/// What is wrong with a line that is no JSON.
fn no_json_words(alloc: Global, types: &Types, line: &[u8]) -> Result<String, OutOfMemory>
    ensures { IfOk result (λ words. spec.TellsNoJson types.now line.now (string_bytes words)) }
{
    match read_action(alloc, types, line)? {
        Some(_) => Ok(String::from_str(alloc, list_line())?),
        None => Ok(behind(alloc, "this line is no JSON: ", entry_form())?),
    }
}

/// That a line is one of a list.
fn list_line() -> &'static str
    ensures { result.now ≡ spec.list_line_words }
{
    "this is an action, as a list has, and a log is wanted here: `ioac log` makes one of a list"
}

/// How an action is written.
fn action_form() -> &'static str
    ensures { result.now ≡ spec.action_words }
{
    "an action is written as `tick(5)`"
}

/// How an entry of a log is written.
fn entry_form() -> &'static str
    ensures { result.now ≡ spec.entry_words }
{
    r#"a log has one JSON object a line, as `{"act":"tick(5)","who":0}`, and last `{"end":"done after 1"}`"#
}

/// One text behind another.
fn behind(alloc: Global, text: &str, more: &str) -> Result<String, OutOfMemory>
    ensures { IfOk result (λ both. string_bytes both ≡ text.now ++ more.now) }
{
    Ok(format!(in alloc; "{text}{more}")?)
}

/// What is wrong with a line of a log or a list that is no entry, or no action.
fn bad_line_words(
    alloc: Global,
    asked: &Request<'_>,
    types: &Types,
    is_log: bool,
    line: &[u8],
) -> Result<String, OutOfMemory>
    ensures { IfOk result (λ words. spec.TellsBadLine is_log asked.now types.now line.now (string_bytes words)) }
{
    if is_log {
        return unread_words(alloc, types, entry_form(), line);
    }
    no_action_words(alloc, asked, types, line)
}

/// What is wrong with a line of a list.
fn no_action_words(
    alloc: Global,
    asked: &Request<'_>,
    types: &Types,
    line: &[u8],
) -> Result<String, OutOfMemory>
    ensures { IfOk result (λ words. spec.TellsNoAction asked.now types.now line.now (string_bytes words)) }
{
    if begins_entry(line) {
        return log_line_words(alloc, asked);
    }
    unread_words(alloc, types, action_form(), line)
}

/// Whether a line begins as one of a log does.
fn begins_entry(line: &[u8]) -> bool
    ensures { result ≡ spec.begins_entry line.now }
{
    match line {
        [first, ..] => *first == b'{',
        [] => false,
    }
}

/// That a line is one of a log.
fn log_line_words(alloc: Global, asked: &Request<'_>) -> Result<String, OutOfMemory>
    ensures { IfOk result (λ words. string_bytes words ≡ spec.log_line_words asked.now) }
{
    let text = "this is a line of a log, and a list is wanted here";
    behind(alloc, text, log_option(asked))
}

/// That there is a request like this one that reads a log. Nothing, where there is none.
fn log_option(asked: &Request<'_>) -> &'static str
    ensures { result.now ≡ spec.log_option asked.now }
{
    match asked {
        Request::Replay { .. } | Request::ReplayStates { .. } | Request::Log { .. } => {
            ": with `--log` a log is read"
        }
        Request::ReplayCoverage { log, .. } => option_by(*log),
        Request::ReplayLog { .. }
        | Request::ReplayLogStates { .. }
        | Request::ReplayInvariants { .. }
        | Request::LogByLog { .. }
        | Request::Monitor { .. }
        | Request::MonitorJson { .. }
        | Request::StrictMonitor { .. }
        | Request::Watch { .. }
        | Request::Chart { .. }
        | Request::Graph { .. }
        | Request::Run(_)
        | Request::Seeds(_)
        | Request::Check { .. }
        | Request::Compile { .. }
        | Request::Dump { .. }
        | Request::Explain { .. }
        | Request::Library => "",
    }
}

/// The same of a replay that reads a log, or a list.
fn option_by(log: bool) -> &'static str
    ensures { result.now ≡ spec.option_by log }
{
    if log {
        ""
    } else {
        ": with `--log` a log is read"
    }
}

/// Which word of a line is not known, or else how such a line is written.
fn unread_words(
    alloc: Global,
    types: &Types,
    wanted: &str,
    line: &[u8],
) -> Result<String, OutOfMemory>
    ensures { IfOk result (λ words. spec.TellsUnread types.now wanted.now line.now (string_bytes words)) }
{
    match unknown_word(types, line) {
        Some(word) => unknown_words(alloc, word),
        None => behind(alloc, "this line cannot be read: ", wanted),
    }
}

fn unknown_words(alloc: Global, word: &str) -> Result<String, OutOfMemory>
    ensures { IfOk result (λ words. string_bytes words ≡ spec.unknown_words word.now) }
{
    Ok(format!(in alloc; "the source has neither a type nor a name of an enumeration `{word}`")?)
}

/// Whose action the last entry up to a line is, and whose the log says. None, where a line before is neither an entry nor the end.
fn owner_words(
    alloc: Global,
    program: &Program,
    log: &[u8],
    line: usize,
) -> Result<Option<String>, OutOfMemory>
    ensures { IfOk result (λ found. IfSome found (λ words. owners.TellsOwner program.now log.now line (string_bytes words))) }
{
    match begun_log(alloc, program.types(), log, line)? {
        Some(begun) => last_words(alloc, program, begun.entries.as_slice()),
        None => Ok(None),
    }
}

/// The same of the last of these entries.
fn last_words(
    alloc: Global,
    program: &Program,
    entries: &[LogEntry],
) -> Result<Option<String>, OutOfMemory>
    ensures { IfOk result (λ found. IfSome found (λ words. owners.TellsLast program.now (map log_entry entries.now) (string_bytes words))) }
{
    match entries.last() {
        Some(entry) => Ok(Some(entry_words(alloc, program, entry)?)),
        None => Ok(None),
    }
}

/// Whose action an entry is, and whose the log says.
fn entry_words(alloc: Global, program: &Program, entry: &LogEntry) -> Result<String, OutOfMemory>
    ensures { IfOk result (λ words. string_bytes words ≡ owners.owner_text program.now entry.now.who (act_of entry.now.action)) }
{
    let number = worker_of(alloc, program, &entry.action)?;
    let name = performer(program.members(), number);
    let action = print_action(alloc, program.types(), &entry.action)?;
    owned_words(alloc, action.as_str(), name, number, entry.who)
}

/// The number of the worker that performs an action.
fn worker_of(alloc: Global, program: &Program, action: &Action) -> Result<usize, OutOfMemory>
    ensures { IfOk result (λ number. number ≡ worker (tabled program.now) (act_of action.now)) }
{
    Ok(Participation::of(alloc, program, action)?.worker())
}

/// The worker of this number.
fn performer(members: &[Member], number: usize) -> &str
    ensures { result.now ≡ owners.performer (map member_code members.now) number }
{
    match members.get(number) {
        Some(member) => member.name.as_str(),
        None => "the environment",
    }
}

fn owned_words(
    alloc: Global,
    action: &str,
    name: &str,
    number: usize,
    who: usize,
) -> Result<String, OutOfMemory>
    ensures { IfOk result (λ words. string_bytes words ≡ owners.owned_text action.now name.now number who) }
{
    Ok(format!(in alloc;
        "{action} is performed by {name}, worker {number}, and the log says worker {who}"
    )?)
}

/// That a line stands behind a log's end.
fn behind_end_words(alloc: Global, line: usize) -> Result<String, OutOfMemory>
    ensures { IfOk result (λ words. string_bytes words ≡ spec.behind_end_words line) }
{
    let end = line.saturating_sub(1);
    Ok(format!(in alloc; "the log ends on line {end}, and nothing stands behind its end")?)
}

/// The first line behind a log's end, by its number from 1. None, where a line before is neither an entry nor the end.
pub fn line_behind_end(
    alloc: Global,
    types: &Types,
    log: &[u8],
) -> Result<Option<usize>, OutOfMemory>
    ensures { IfOk result (IsBehindEnd log.now) }
{
    // Each line has a byte of its own, so that there are no more lines.
    let found = begun_log(alloc, types, log, log.len())?;
    match found {
        Some(begun) => {
            let count = begun.entries.len();
            Ok(line_behind(count))
        }
        None => Ok(None),
    }
}

/// The line behind the end of a log of so many entries.
fn line_behind(count: usize) -> Option<usize>
    ensures { IfSome result (λ n. n ≡ count + 2) }
{
    count.checked_add(2)
}

/// What the action on a line of a script is, which is no input of the composition. None, where the line is no action.
fn no_input_words(
    alloc: Global,
    program: &Program,
    line: &[u8],
) -> Result<Option<String>, OutOfMemory>
    ensures { IfOk result (λ found. spec.TellsNoInput program.now line.now (option_map string_bytes found)) }
{
    match read_action(alloc, program.types(), line)? {
        Some(action) => Ok(Some(input_words(alloc, program, &action)?)),
        None => Ok(None),
    }
}

/// What an action is that is no input.
fn input_words(alloc: Global, program: &Program, action: &Action) -> Result<String, OutOfMemory>
    ensures { IfOk result (λ words. string_bytes words ≡ spec.input_words program.now (act_of action.now)) }
{
    let told = print_action(alloc, program.types(), action)?;
    match performer_of(program, action) {
        Some((name, kind)) => performed_words(alloc, told.as_str(), name, kind),
        None => nowhere_words(alloc, told.as_str()),
    }
}

fn performed_words(
    alloc: Global,
    action: &str,
    name: &str,
    kind: Kind,
) -> Result<String, OutOfMemory>
    ensures { IfOk result (λ words. string_bytes words ≡ spec.performed_words action.now (name.now, kind)) }
{
    let kind = kind_words(kind);
    Ok(format!(in alloc;
        "{action} is {kind} of {name}, and the environment performs inputs alone"
    )?)
}

fn nowhere_words(alloc: Global, action: &str) -> Result<String, OutOfMemory>
    ensures { IfOk result (λ words. string_bytes words ≡ spec.no_input_words action.now) }
{
    Ok(format!(in alloc; "no component has {action} as an input")?)
}

/// The component that performs an action, and what the action is there.
fn performer_of<'a>(program: &'a Program, action: &Action) -> Option<(&'a str, Kind)>
    ensures { option_map (λ p. (p.0.now, p.1)) result ≡ spec.performer_of program.now (act_of action.now) }
{
    match member_of(program, action) {
        Some(member) => kind_in(member, action.name.as_str()),
        None => None,
    }
}

/// The component that performs an action.
fn member_of<'a>(program: &'a Program, action: &Action) -> Option<&'a Member>
    ensures { option_map (λ m. member_code m.now) result ≡ spec.owner_of program.now (act_of action.now) }
{
    match owner(program, action) {
        Some(number) => program.members().get(number),
        None => None,
    }
}

/// What an action of this name is in a component, with the component's name.
fn kind_in<'a>(member: &'a Member, name: &str) -> Option<(&'a str, Kind)>
    ensures { option_map (λ p. (p.0.now, p.1)) result ≡ spec.kind_in name.now (member_code member.now) }
{
    match named_kind(&member.entries, name) {
        Some(kind) => Some((member.name.as_str(), kind)),
        None => None,
    }
}

/// The kind of the first entry of this name.
fn named_kind(entries: &[Entry], name: &str) -> Option<Kind>
    ensures { result ≡ spec.named_kind name.now (map entry_code entries.now) }
{
    for entry in entries {
        if entry.name.as_str() == name {
            return Some(entry.kind);
        }
    }
    None
}
