//! Which files a request names, and where what a failure tells of stands.

ghost use Rattle.std.specs.Prelude.{◌≡◌, ◌∷◌, [], map};
ghost use Rattle.std.specs.Option.{option_copied, option_map};
ghost use Rattle.ioac.specs.Places as places;
ghost use Rattle.ioac.specs.Remarks as spec;

use ioa_device::LogErr;
use ioa_request::{Request, Settings, WordsFrom};
use ioa_serving::Failure;
use ioa_syntax::Refusal;

/// Where what a failure tells of stands. Lines count from 1.
#[derive(Clone, Copy)]
pub enum Place {
    /// On this line of the source.
    Source(usize),
    /// In the composition, at a component or at a hidden name.
    Composition,
    /// In the source, which has no such composition.
    Missing,
    /// In what the composition does unseen.
    Unseen,
    /// On this line of the list or the log, also of a run's script.
    Input(usize),
    /// At the action of this index of a run's script, from 0.
    Action(usize),
    /// On this line of a run's file of words.
    Words(usize),
    /// On this line of the log from which a run was to go on.
    Log(usize),
    /// Behind the end of the log.
    BehindEnd,
    /// Behind the end of the log from which a run was to go on.
    BehindLogEnd,
    Nowhere,
}

/// Where what a failure tells of stands.
pub fn place_of(failure: &Failure) -> Place
    ensures { result ≡ places.place_of failure.now }
{
    match failure {
        Failure::Refused(refusal) => place_of_refusal(refusal),
        Failure::List(error) => place_heard(*error),
        Failure::RunLog(error) => place_resumed(*error),
        Failure::BadInput(index) => Place::Action(*index),
        Failure::BadWords(line) => Place::Words(*line),
        // each entry of a log has a line of its own, and so has its end
        Failure::BadLog(index) => Place::Log(index.saturating_add(1)),
        Failure::SpecHasInternal => Place::Unseen,
        Failure::Object(_) => Place::Nowhere,
        Failure::SourceWanted => Place::Nowhere,
        Failure::TooManyTurns => Place::Nowhere,
        Failure::Threads => Place::Nowhere,
        Failure::EndedByFault => Place::Nowhere,
        Failure::Io => Place::Nowhere,
        Failure::OutOfMemory => Place::Nowhere,
    }
}

fn place_of_refusal(refusal: &Refusal) -> Place
    ensures { result ≡ places.refusal_place refusal.now }
{
    match refusal {
        Refusal::BadByte(line)
        | Refusal::Syntax(line)
        | Refusal::TooDeep(line)
        | Refusal::DuplicateName(line)
        | Refusal::UnknownName(line)
        | Refusal::TypeMismatch(line)
        | Refusal::BadSignature(line)
        | Refusal::NoProposal(line)
        | Refusal::TooMany(line)
        | Refusal::TooWide(line) => Place::Source(*line as usize),
        Refusal::ArgMismatch(_)
        | Refusal::CrashName(_)
        | Refusal::Clash(_, _, _)
        | Refusal::HiddenUnknown(_)
        | Refusal::StartFault(_, _) => Place::Composition,
        Refusal::NoComposition => Place::Missing,
        Refusal::TextTooLong | Refusal::OutOfMemory => Place::Nowhere,
    }
}

/// Where what is wrong with a list or a log stands that was heard.
fn place_heard(error: LogErr) -> Place
    ensures { result ≡ places.heard_place error }
{
    match error {
        LogErr::NotJson(line)
        | LogErr::BadEntry(line)
        | LogErr::WrongOwner(line)
        | LogErr::Diverges(line) => Place::Input(line as usize),
        LogErr::AfterEnd => Place::BehindEnd,
        LogErr::NoEnd | LogErr::Io | LogErr::OutOfMemory => Place::Nowhere,
    }
}

/// Where what is wrong with the log stands from which a run was to go on.
fn place_resumed(error: LogErr) -> Place
    ensures { result ≡ places.resumed_place error }
{
    match error {
        LogErr::NotJson(line)
        | LogErr::BadEntry(line)
        | LogErr::WrongOwner(line)
        | LogErr::Diverges(line) => Place::Log(line as usize),
        LogErr::AfterEnd => Place::BehindLogEnd,
        LogErr::NoEnd | LogErr::Io | LogErr::OutOfMemory => Place::Nowhere,
    }
}

/// The source or the object that a request names, and the composition.
pub fn source_of<'a>(asked: &Request<'a>) -> Option<(&'a str, Option<&'a str>)>
    ensures { spec.named_by result ≡ spec.source_of asked.now }
{
    match asked {
        Request::Replay {
            file,
            composition,
            ..
        } => Some((*file, *composition)),
        Request::ReplayStates {
            file,
            composition,
            ..
        } => Some((*file, *composition)),
        Request::ReplayLog {
            file,
            composition,
            ..
        } => Some((*file, *composition)),
        Request::ReplayLogStates {
            file,
            composition,
            ..
        } => Some((*file, *composition)),
        Request::ReplayInvariants {
            file,
            composition,
            ..
        } => Some((*file, *composition)),
        Request::ReplayCoverage {
            file,
            composition,
            ..
        } => Some((*file, *composition)),
        Request::Log { file, composition } => Some((*file, *composition)),
        Request::LogByLog { file, composition } => Some((*file, *composition)),
        Request::Monitor { file, composition } => Some((*file, *composition)),
        Request::MonitorJson { file, composition } => Some((*file, *composition)),
        Request::StrictMonitor {
            file,
            composition,
            ..
        } => Some((*file, *composition)),
        Request::Watch {
            file,
            compositions,
            ..
        } => Some((*file, compositions.first().copied())),
        Request::Chart {
            file,
            composition,
            ..
        } => Some((*file, *composition)),
        Request::Graph { file, composition } => Some((*file, *composition)),
        Request::Compile {
            file,
            composition,
            ..
        } => Some((*file, *composition)),
        Request::Run(settings) => Some((settings.file, settings.composition)),
        Request::Seeds(seeds) => Some((seeds.run.file, seeds.run.composition)),
        Request::Check { file, .. } => Some((*file, None)),
        Request::Dump { file } => Some((*file, None)),
        Request::Explain { .. } => None,
        Request::Library => None,
    }
}

/// The files that a request reads: the source or the object, a run's file of words, its script and the log from which it goes on.
pub fn files_of<'a>(asked: &Request<'a>) -> [Option<&'a str>; 4]
    ensures { map option_copied result ≡ places.files_of asked.now }
{
    [
        file_of(asked),
        words_of(asked),
        inputs_of(asked),
        resume_of(asked),
    ]
}

/// The source or the object that a request names.
pub fn file_of<'a>(asked: &Request<'a>) -> Option<&'a str>
    ensures { option_copied result ≡ places.file_of asked.now }
{
    match source_of(asked) {
        Some((name, _)) => Some(name),
        None => None,
    }
}

/// What a run is asked to be.
fn settings_of<'b, 'a>(asked: &'b Request<'a>) -> Option<&'b Settings<'a>>
    ensures { option_map (λ s. s.now) result ≡ places.settings_of asked.now }
{
    match asked {
        Request::Run(settings) => Some(settings),
        Request::Seeds(seeds) => Some(&seeds.run),
        Request::Replay { .. } => None,
        Request::ReplayStates { .. } => None,
        Request::ReplayLog { .. } => None,
        Request::ReplayLogStates { .. } => None,
        Request::ReplayInvariants { .. } => None,
        Request::ReplayCoverage { .. } => None,
        Request::Log { .. } => None,
        Request::LogByLog { .. } => None,
        Request::Monitor { .. } => None,
        Request::MonitorJson { .. } => None,
        Request::StrictMonitor { .. } => None,
        Request::Watch { .. } => None,
        Request::Chart { .. } => None,
        Request::Graph { .. } => None,
        Request::Check { .. } => None,
        Request::Compile { .. } => None,
        Request::Dump { .. } => None,
        Request::Explain { .. } => None,
        Request::Library => None,
    }
}

/// A run's file of words.
pub fn words_of<'a>(asked: &Request<'a>) -> Option<&'a str>
    ensures { option_copied result ≡ places.words_of asked.now }
{
    match settings_of(asked) {
        Some(settings) => words_file(settings.words),
        None => None,
    }
}

fn words_file<'a>(words: WordsFrom<'a>) -> Option<&'a str>
    ensures { option_copied result ≡ places.words_file words.entry }
{
    match words {
        WordsFrom::File(name) => Some(name),
        WordsFrom::Key(_) => None,
    }
}

/// A run's script.
pub fn inputs_of<'a>(asked: &Request<'a>) -> Option<&'a str>
    ensures { option_copied result ≡ places.inputs_of asked.now }
{
    match settings_of(asked) {
        Some(settings) => settings.inputs,
        None => None,
    }
}

/// The log from which a run goes on.
pub fn resume_of<'a>(asked: &Request<'a>) -> Option<&'a str>
    ensures { option_copied result ≡ places.resume_of asked.now }
{
    match settings_of(asked) {
        Some(settings) => settings.resume,
        None => None,
    }
}

/// The file that a request writes.
pub fn out_of<'a>(asked: &Request<'a>) -> Option<&'a str>
    ensures { option_copied result ≡ places.out_of asked.now }
{
    match asked {
        Request::Compile { out, .. } => Some(*out),
        Request::Run(_) => None,
        Request::Seeds(seeds) => seeds.keep,
        Request::Replay { .. } => None,
        Request::ReplayStates { .. } => None,
        Request::ReplayLog { .. } => None,
        Request::ReplayLogStates { .. } => None,
        Request::ReplayInvariants { .. } => None,
        Request::ReplayCoverage { .. } => None,
        Request::Log { .. } => None,
        Request::LogByLog { .. } => None,
        Request::Monitor { .. } => None,
        Request::MonitorJson { .. } => None,
        Request::StrictMonitor { .. } => None,
        Request::Watch { .. } => None,
        Request::Chart { .. } => None,
        Request::Graph { .. } => None,
        Request::Check { .. } => None,
        Request::Dump { .. } => None,
        Request::Explain { .. } => None,
        Request::Library => None,
    }
}

/// What stands on standard input.
pub fn input_name(asked: &Request<'_>) -> &'static str
    ensures { result.now ≡ places.input_name asked.now }
{
    match asked {
        Request::Replay { .. } => "list",
        Request::ReplayStates { .. } => "list",
        Request::Log { .. } => "list",
        Request::ReplayLog { .. } => "log",
        Request::ReplayLogStates { .. } => "log",
        Request::ReplayInvariants { .. } => "log",
        Request::ReplayCoverage { log, .. } => name_by(*log),
        Request::LogByLog { .. } => "log",
        Request::Monitor { .. } => "log",
        Request::MonitorJson { .. } => "log",
        Request::StrictMonitor { .. } => "log",
        Request::Watch { .. } => "stream",
        Request::Chart { .. } => "log",
        Request::Graph { .. } => "log",
        Request::Run(_) => "log",
        Request::Seeds(_) => "log",
        Request::Check { .. } => "log",
        Request::Compile { .. } => "log",
        Request::Dump { .. } => "log",
        Request::Explain { .. } => "log",
        Request::Library => "log",
    }
}

/// The name of a log, or of a list.
fn name_by(log: bool) -> &'static str
    ensures { result.now ≡ places.name_by log }
{
    if log { "log" } else { "list" }
}
