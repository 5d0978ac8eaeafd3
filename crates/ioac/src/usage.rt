//! Command lines that ask for nothing that can be served: help, versions and faults.

ghost use Rattle.std.specs.Prelude.{◌≡◌, ◌<◌, length, IfOk};
ghost use Rattle.std.specs.Option.{option_copied};
ghost use Rattle.std.specs.String.{string_bytes};
ghost use Rattle.clap.specs.Words.{found_of, kind_of, rows_of, subcommand_rows_of};
ghost use Rattle.ioa_device.specs.Devices.{BothPassUnless, PassesUnless, change};
ghost use Rattle.ioac.specs.Commands.{IsShown, IsUsage, usage_status};
ghost use Rattle.ioac.specs.Telling as telling;
ghost use Rattle.ioac.specs.Telling.{IsTold};
ghost use Rattle.ioa_serving.specs.declared.status.Status.TheVariants as statuses;

use crate::telling::{put, put_short, reported};
use clap::ArgMatches;
use clap::error::ErrorKind;
use ioa_device::{OutputDevice, send_all};
use ioa_request::{
    Code, asks_seeds, is_given, is_set, mixes_json, read_bound, read_range, read_turns,
};
use ioa_serving::{Failure, Status};
use std::alloc::{AllocError, Global};

/// Tells what is wrong with a command line, or writes the help or the version that it asks for, and answers the exit status.
#[tactic(auto, using(crate::proofs::FaultKinds::usage_short, crate::proofs::FaultKinds::usage_told, crate::proofs::FaultKinds::usage_shown))]
pub fn told<W: OutputDevice, E: OutputDevice>(
    alloc: Global,
    error: &clap::Error,
    output: &mut W,
    errors: &mut E,
) -> Status
    ensures usage { IsUsage (usage_status (kind_of error.now))
        (change W.contents W.failure_count output.old output.new)
        (change E.contents E.failure_count errors.old errors.new) result }
    ensures devices { BothPassUnless (result ≡ statuses.Unable) (change W.contents W.failure_count output.old output.new) (change E.contents E.failure_count errors.old errors.new) }
{
    if error.kind() == ErrorKind::OutOfMemory {
        return put_short(errors);
    }
    match usage_text(alloc, error) {
        Ok(text) if error.use_stderr() => put(text.as_str(), Status::BadCommandLine, errors),
        Ok(text) => shown(alloc, text.as_str(), output, errors),
        Err(AllocError) => put_short(errors),
    }
}

/// The words of the crate that reads command lines. It does not promise that there are some, where this does.
fn usage_text(alloc: Global, error: &clap::Error) -> Result<String, AllocError>
    ensures { IfOk result (λ text. 0 < length (string_bytes text)) }
{
    let text = format!(in alloc; "{error}")?;
    if text.is_empty() {
        return String::from_str(alloc, "error: bad command line\n");
    }
    Ok(text)
}

/// Writes help or the version, and answers the exit status.
#[tactic(auto, using(crate::proofs::Reported::no_device_failed))]
fn shown<W: OutputDevice, E: OutputDevice>(
    alloc: Global,
    text: &str,
    output: &mut W,
    errors: &mut E,
) -> Status
    ensures shows { IsShown text.now
        (change W.contents W.failure_count output.old output.new)
        (change E.contents E.failure_count errors.old errors.new) result }
    ensures devices { BothPassUnless (result ≡ statuses.Unable) (change W.contents W.failure_count output.old output.new) (change E.contents E.failure_count errors.old errors.new) }
{
    match send_all(output, text.as_bytes()) {
        Ok(()) => Status::Done,
        Err(error) => reported(alloc, &Failure::List(error), &None, errors),
    }
}

/// Tells of a command line that has no fault and asks for nothing, and answers the exit status. It asks for what there is no explanation of, for the
/// invariants of a list, for two of invariants, what is told of states and coverage, for objects and what is told of states, for a run whose settings are none, for a chart within bounds that are none, or for
/// a list or a log up to a bound that is none.
pub fn told_unasked<E: OutputDevice>(
    alloc: Global,
    matches: &ArgMatches<'_>,
    errors: &mut E,
) -> Status
    ensures tells { IsTold (telling.unasked_text (subcommand_rows_of matches.now)) statuses.BadCommandLine
        (change E.contents E.failure_count errors.old errors.new) result }
    ensures devices { PassesUnless (result ≡ statuses.Unable) (change E.contents E.failure_count errors.old errors.new) }
{
    match unasked_text(alloc, matches) {
        Ok(text) => put(text.as_str(), Status::BadCommandLine, errors),
        Err(AllocError) => put_short(errors),
    }
}

/// What is wrong with what a command line asks for.
#[tactic(auto, using(crate::proofs::ToldUnasked::told_run, crate::proofs::ToldUnasked::told_chart, crate::proofs::ToldUnasked::told_other, crate::proofs::ToldUnasked::told_none))]
fn unasked_text(alloc: Global, matches: &ArgMatches<'_>) -> Result<String, AllocError>
    ensures { IfOk result (λ text. string_bytes text ≡ telling.unasked_text (subcommand_rows_of matches.now)) }
{
    let Some((name, found)) = matches.subcommand() else {
        return missing_log_text(alloc);
    };
    if name == "run" {
        return bad_run_text(alloc, found);
    }
    if name == "chart" {
        return bad_bounds_text(alloc, found.get_str("from"), found.get_str("to"));
    }
    let until = found.get_str("until");
    bad_taken_text(alloc, until, found.get_str("TEXT"), found)
}

/// What is wrong with the words for a run, or for runs by many seeds.
#[tactic(auto, using(crate::proofs::ToldUnasked::told_settings, crate::proofs::ToldUnasked::told_missing, crate::proofs::ToldUnasked::told_seeds))]
fn bad_run_text(alloc: Global, found: &ArgMatches<'_>) -> Result<String, AllocError>
    ensures { IfOk result (λ text. string_bytes text ≡ telling.bad_run_text (rows_of (found_of found.now))) }
{
    let turns = found.get_str("turns");
    match found.get_str("seeds") {
        Some(word) => bad_seeds_text(alloc, word, turns),
        None if asks_seeds(found) => missing_seeds_text(alloc, found),
        None => bad_settings_text(alloc, turns, found.get_str("seed"), found.get_str("words")),
    }
}

/// What is wrong with runs by many seeds: with their numbers, or else with the turns, or with what stands besides.
fn bad_seeds_text(alloc: Global, word: &str, turns: Option<&str>) -> Result<String, AllocError>
    ensures { IfOk result (λ text. string_bytes text ≡ telling.bad_seeds_text word.now (option_copied turns.entry)) }
{
    if read_range(word).is_none() {
        return invalid_value_text(
            alloc,
            word,
            "--seeds <A..B>",
            "two whole numbers, the first no greater, as 1..500",
        );
    }
    match turns {
        Some(digits) if read_turns(turns).is_none() => bad_turns_text(alloc, digits),
        _ => misplaced_seeds_text(alloc),
    }
}

/// What is wrong with turns that are no number.
fn bad_turns_text(alloc: Global, word: &str) -> Result<String, AllocError>
    ensures { IfOk result (λ text. string_bytes text ≡ telling.bad_turns_text word.now) }
{
    invalid_value_text(
        alloc,
        word,
        "--turns <N>",
        "a whole number from 0 to 100000",
    )
}

/// That runs by many seeds are alone, and have nothing that one run has, in the manner of `clap`.
fn misplaced_seeds_text(alloc: Global) -> Result<String, AllocError>
    ensures { IfOk result (λ text. string_bytes text ≡ telling.misplaced_seeds_text) }
{
    String::from_str(
        alloc,
        "error: the argument '--seeds <A..B>' needs '--alone', and cannot be used with '--seed', '--words', '--resume', '--log' or '--reports'\n\nFor more information, try '--help'.\n",
    )
}

/// What is wrong with the bounds of a chart: with the first index, or else with the last.
fn bad_bounds_text(
    alloc: Global,
    from: Option<&str>,
    to: Option<&str>,
) -> Result<String, AllocError>
    ensures { IfOk result (λ text. string_bytes text ≡ telling.bad_bounds_text (option_copied from.entry) (option_copied to.entry)) }
{
    match from {
        Some(word) if read_bound(from).is_none() => {
            invalid_value_text(alloc, word, "--from <N>", "a whole number of 64 bits")
        }
        _ => bad_last_text(alloc, to),
    }
}

/// What is wrong with a last index.
fn bad_last_text(alloc: Global, to: Option<&str>) -> Result<String, AllocError>
    ensures { IfOk result (λ text. string_bytes text ≡ telling.bad_last_text (option_copied to.entry)) }
{
    let word = match to {
        Some(word) => word,
        None => "",
    };
    invalid_value_text(
        alloc,
        word,
        "--to <M>",
        "a whole number of 64 bits, no less than N",
    )
}

/// That an option is one of runs by many seeds, in the same manner.
fn missing_seeds_text(alloc: Global, found: &ArgMatches<'_>) -> Result<String, AllocError>
    ensures { IfOk result (λ text. string_bytes text ≡ telling.missing_seeds_text (rows_of (found_of found.now))) }
{
    let option = seeds_option(found);
    format!(in alloc;
        "error: the argument '{option}' needs '--seeds <A..B>'\n\nFor more information, try '--help'.\n"
    )
}

/// The option of runs by many seeds that stands without their numbers.
fn seeds_option(found: &ArgMatches<'_>) -> &'static str
    ensures { result.now ≡ telling.seeds_option (rows_of (found_of found.now)) }
{
    if is_given(found, "monitor") {
        "--monitor <SPEC>"
    } else if is_set(found, "invariants") {
        "--invariants"
    } else if is_given(found, "keep") {
        "--keep <KFILE>"
    } else {
        "--json"
    }
}

/// Whether a replay is asked how often entries are performed, and for invariants or to tell of states.
fn mixes_coverage(found: &ArgMatches<'_>) -> bool
    ensures { result ≡ telling.mixes_coverage (rows_of (found_of found.now)) }
{
    let coverage = is_set(found, "coverage");
    let invariants = is_set(found, "invariants");
    let states = is_set(found, "states");
    let enabled = is_set(found, "enabled");
    coverage && (invariants || states || enabled)
}

/// Whether a replay is asked for invariants, and to tell of states.
fn asks_both(found: &ArgMatches<'_>) -> bool
    ensures { result ≡ telling.asks_both (rows_of (found_of found.now)) }
{
    let invariants = is_set(found, "invariants");
    let states = is_set(found, "states");
    let enabled = is_set(found, "enabled");
    invariants && (states || enabled)
}

/// What is wrong with the words for a run: with those for its turns, or else with the source of its workers' words.
fn bad_settings_text(
    alloc: Global,
    turns: Option<&str>,
    seed: Option<&str>,
    file: Option<&str>,
) -> Result<String, AllocError>
    ensures { IfOk result (λ text. string_bytes text ≡ telling.bad_settings_text (option_copied turns.entry) (option_copied seed.entry) (option_copied file.entry)) }
{
    match turns {
        Some(word) if read_turns(turns).is_none() => bad_turns_text(alloc, word),
        _ => bad_source_text(alloc, seed, file),
    }
}

/// What is wrong with a seed that is no key, or that is given with a file.
fn bad_source_text(
    alloc: Global,
    seed: Option<&str>,
    file: Option<&str>,
) -> Result<String, AllocError>
    ensures { IfOk result (λ text. string_bytes text ≡ telling.bad_source_text (option_copied seed.entry) (option_copied file.entry)) }
{
    match (seed, file) {
        (Some(digits), None) => {
            invalid_value_text(alloc, digits, "--seed <HEX>", "64 hexadecimal digits")
        }
        _ => two_sources_text(alloc),
    }
}

/// What is wrong with the bound up to which a list or a log is taken; or else with what there is no explanation of, or with what a replay is asked for.
fn bad_taken_text(
    alloc: Global,
    until: Option<&str>,
    first: Option<&str>,
    found: &ArgMatches<'_>,
) -> Result<String, AllocError>
    ensures { IfOk result (λ text. string_bytes text ≡ telling.bad_taken_text (option_copied until.entry) (option_copied first.entry) (rows_of (found_of found.now))) }
{
    match until {
        Some(word) if read_bound(until).is_none() => {
            invalid_value_text(alloc, word, "--until <N>", "a whole number of 64 bits")
        }
        _ => bad_request_text(alloc, first, found),
    }
}

/// What is wrong with the first word of what there is no explanation of; or without a word, with what a replay is asked for.
fn bad_request_text(
    alloc: Global,
    first: Option<&str>,
    found: &ArgMatches<'_>,
) -> Result<String, AllocError>
    ensures { IfOk result (λ text. string_bytes text ≡ telling.bad_request_text (option_copied first.entry) (rows_of (found_of found.now))) }
{
    match first {
        Some(word) => unknown_code_text(alloc, word),
        None => bad_replay_text(alloc, found),
    }
}

/// What is wrong with what a replay is asked for.
fn bad_replay_text(alloc: Global, found: &ArgMatches<'_>) -> Result<String, AllocError>
    ensures { IfOk result (λ text. string_bytes text ≡ telling.bad_replay_text (rows_of (found_of found.now))) }
{
    if mixes_json(found) {
        return mixed_json_text(alloc);
    }
    if mixes_coverage(found) {
        return mixed_coverage_text(alloc);
    }
    if asks_both(found) {
        return two_questions_text(alloc);
    }
    missing_log_text(alloc)
}

/// That an option does not take the word, and what it takes, in the manner of `clap`.
fn invalid_value_text(
    alloc: Global,
    word: &str,
    option: &str,
    wanted: &str,
) -> Result<String, AllocError>
    ensures { IfOk result (λ text. string_bytes text ≡ telling.invalid_value_text word.now option.now wanted.now) }
{
    format!(in alloc;
        "error: invalid value '{word}' for '{option}'\n  [wanted: {wanted}]\n\nFor more information, try '--help'.\n"
    )
}

/// That a seed and a file of words are not given together, in the same manner.
fn two_sources_text(alloc: Global) -> Result<String, AllocError>
    ensures { IfOk result (λ text. string_bytes text ≡ telling.two_sources_text) }
{
    String::from_str(
        alloc,
        "error: the argument '--seed <HEX>' cannot be used with '--words <WFILE>'\n\nFor more information, try '--help'.\n",
    )
}

/// That the word is no code, and which there are, in the manner of `clap`.
fn unknown_code_text(alloc: Global, word: &str) -> Result<String, AllocError>
    ensures { IfOk result (λ text. string_bytes text ≡ telling.unknown_code_text word.now telling.known_codes) }
{
    let known = known_codes(alloc)?;
    refused_word(alloc, word, known.as_str())
}

/// That the word is none of those that are listed.
fn refused_word(alloc: Global, word: &str, listed: &str) -> Result<String, AllocError>
    ensures { IfOk result (λ text. string_bytes text ≡ telling.unknown_code_text word.now listed.now) }
{
    format!(in alloc;
        "error: invalid value '{word}' for '<TEXT>...'\n  [possible values: {listed}, fault 1 to fault 5, done, not an action, not enabled, invariant, ok]\n\nFor more information, try '--help'.\n"
    )
}

/// All codes, parted by commas.
fn known_codes(alloc: Global) -> Result<String, AllocError>
    ensures { IfOk result (λ text. string_bytes text ≡ telling.known_codes) }
{
    Code::ALL.as_slice().join(alloc, ", ")
}

/// That invariants and what is told of states are not asked for together, in the same manner.
fn two_questions_text(alloc: Global) -> Result<String, AllocError>
    ensures { IfOk result (λ text. string_bytes text ≡ telling.two_questions_text) }
{
    String::from_str(
        alloc,
        "error: the argument '--invariants' cannot be used with '--states' or '--enabled'\n\nFor more information, try '--help'.\n",
    )
}

/// That how often entries are performed is not asked for together with invariants or what is told of states, in the same manner.
fn mixed_coverage_text(alloc: Global) -> Result<String, AllocError>
    ensures { IfOk result (λ text. string_bytes text ≡ telling.mixed_coverage_text) }
{
    String::from_str(
        alloc,
        "error: the argument '--coverage' cannot be used with '--invariants', '--states' or '--enabled'\n\nFor more information, try '--help'.\n",
    )
}

/// That objects and what is told of states are not asked for together, in the same manner.
fn mixed_json_text(alloc: Global) -> Result<String, AllocError>
    ensures { IfOk result (λ text. string_bytes text ≡ telling.mixed_json_text) }
{
    String::from_str(
        alloc,
        "error: the argument '--json' cannot be used with '--states' or '--enabled'\n\nFor more information, try '--help'.\n",
    )
}

/// That invariants are those of a log, in the same manner.
fn missing_log_text(alloc: Global) -> Result<String, AllocError>
    ensures { IfOk result (λ text. string_bytes text ≡ telling.missing_log_text) }
{
    String::from_str(
        alloc,
        "error: the following required arguments were not provided:\n  --log\n\n\
        Usage: ioac replay --log --invariants <FILE>\n\nFor more information, try '--help'.\n",
    )
}
