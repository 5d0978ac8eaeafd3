//! How the matches of a command line are read as a request.

ghost use Rattle.std.specs.Prelude.{◌≡◌, None, Some, codes, false, true, IfSome, IfNone};
ghost use Rattle.std.specs.Option.{option_copied};
ghost use Rattle.clap.specs.Words.{first_of, found_of, rows_of, subcommand_rows_of};
ghost use Rattle.ioa_request.specs.CommandLine as asked;
ghost use Rattle.ioa_request.specs.CommandLine.{IsAskedBy, Names};
ghost use Rattle.ioa_request.specs.declared.request.Request.{Request};

use crate::cut::is_bounded;
use crate::pasted::pasted;
use crate::request::Request;
use crate::seeds::{asks_seeds, read_seeds};
use crate::selection::read_selection;
use crate::settings::read_settings;
use crate::shown::read_shown;
use clap::ArgMatches;

/// The request of a command line without a fault. None where a word is missing, which a parse rules out, where there is nothing to explain,
/// where the invariants of a list are asked for, or two of invariants, what is told of states and coverage, or objects and to tell of states, or where the settings
/// of a run, or of runs by many seeds, or the bounds of a chart, of a list or of a log, are none.
pub fn read_request<'m>(matches: &'m ArgMatches<'_>) -> Option<Request<'m>>
    ensures some { IfSome result (λ asked. IsAskedBy (subcommand_rows_of matches.now) asked) }
    ensures none { IfNone result ((asked : Request) → IsAskedBy (subcommand_rows_of matches.now) asked → ⊥) }
{
    let (name, found) = matches.subcommand()?;
    match name {
        "replay" => read_replay(found),
        "log" => read_log(found),
        "run" => read_run(found),
        "monitor" => read_monitor(found),
        "watch" => read_watch(found),
        "chart" => read_chart(found),
        "graph" => read_graph(found),
        "check" => read_check(found),
        "compile" => read_compile(found),
        "dump" => read_dump(found),
        "explain" => read_explain(found),
        "library" => Some(Request::Library),
        _ => None,
    }
}

/// Whether a flag stands.
pub fn is_set(found: &ArgMatches<'_>, flag: &str) -> bool
    ensures { result ≡ asked.is_set flag.now (rows_of (found_of found.now)) }
{
    match found.get_str(flag) {
        Some(value) => value == "true",
        None => false,
    }
}

/// Whether objects are asked for in place of text.
pub fn asks_json(found: &ArgMatches<'_>) -> bool
    ensures { result ≡ asked.is_set (codes "json") (rows_of (found_of found.now)) }
{
    is_set(found, "json")
}

/// Whether a replay is asked for objects, and to tell of states, of which there are no objects.
pub fn mixes_json(found: &ArgMatches<'_>) -> bool
    ensures { result ≡ asked.mixes_json (rows_of (found_of found.now)) }
{
    let json = asks_json(found);
    let states = is_set(found, "states");
    let enabled = is_set(found, "enabled");
    json && (states || enabled)
}

/// Whether what comes of it is to be explained.
pub fn is_explained(matches: &ArgMatches<'_>) -> bool
    ensures { result ≡ asked.is_explained (subcommand_rows_of matches.now) }
{
    match matches.subcommand() {
        Some((_, found)) => is_set(found, "explain"),
        None => false,
    }
}

/// The file and the composition that a subcommand's values name. None where they name no file.
fn read_names<'a>(found: &ArgMatches<'a>) -> Option<(&'a str, Option<&'a str>)>
    ensures some { IfSome result (λ named. Names (rows_of (found_of found.now)) named.0.now (option_copied named.1)) }
    ensures none { IfNone result (first_of (codes "FILE") (rows_of (found_of found.now)) ≡ None) }
{
    let file = found.get_str("FILE")?;
    let composition = found.get_str("comp");
    Some((file, composition))
}

fn read_replay<'m>(found: &'m ArgMatches<'_>) -> Option<Request<'m>>
    ensures some { IfSome result (λ asked. IsAskedBy (Some (codes "replay", rows_of (found_of found.now))) asked) }
    ensures none { IfNone result ((asked : Request) → IsAskedBy (Some (codes "replay", rows_of (found_of found.now))) asked → ⊥) }
{
    let (file, composition) = read_names(found)?;
    if !is_bounded(found) {
        return None;
    }
    if mixes_json(found) {
        return None;
    }
    if is_set(found, "coverage") {
        return read_covered(found, file, composition);
    }
    let json = asks_json(found);
    match (
        is_set(found, "log"),
        is_set(found, "invariants"),
        read_shown(found),
    ) {
        (false, false, None) => Some(Request::Replay {
            file,
            composition,
            json,
        }),
        (false, false, Some(shown)) => Some(Request::ReplayStates {
            file,
            composition,
            shown,
        }),
        (true, false, None) => Some(Request::ReplayLog {
            file,
            composition,
            json,
        }),
        (true, false, Some(shown)) => Some(Request::ReplayLogStates {
            file,
            composition,
            shown,
        }),
        (true, true, None) => Some(Request::ReplayInvariants {
            file,
            composition,
            json,
        }),
        (true, true, Some(_)) => None,
        (false, true, _) => None,
    }
}

/// The request of a replay that is asked how often each entry is performed, and each arm and body taken. None where it is asked for invariants, or to tell of states, too.
fn read_covered<'m>(
    found: &'m ArgMatches<'_>,
    file: &'m str,
    composition: Option<&'m str>,
) -> Option<Request<'m>>
    requires names { Names (rows_of (found_of found.now)) file.now (option_copied composition) }
    requires bounded { asked.is_bounded (rows_of (found_of found.now)) ≡ true }
    requires unmixed { asked.mixes_json (rows_of (found_of found.now)) ≡ false }
    requires covered { asked.is_set (codes "coverage") (rows_of (found_of found.now)) ≡ true }
    ensures some { IfSome result (λ asked. IsAskedBy (Some (codes "replay", rows_of (found_of found.now))) asked) }
    ensures none { IfNone result ((asked : Request) → IsAskedBy (Some (codes "replay", rows_of (found_of found.now))) asked → ⊥) }
{
    let log = is_set(found, "log");
    let json = asks_json(found);
    match (is_set(found, "invariants"), read_shown(found)) {
        (false, None) => Some(Request::ReplayCoverage {
            file,
            composition,
            log,
            json,
        }),
        (false, Some(_)) => None,
        (true, _) => None,
    }
}

fn read_log<'m>(found: &'m ArgMatches<'_>) -> Option<Request<'m>>
    ensures some { IfSome result (λ asked. IsAskedBy (Some (codes "log", rows_of (found_of found.now))) asked) }
    ensures none { IfNone result ((asked : Request) → IsAskedBy (Some (codes "log", rows_of (found_of found.now))) asked → ⊥) }
{
    let (file, composition) = read_names(found)?;
    if !is_bounded(found) {
        return None;
    }
    if is_set(found, "log") {
        Some(Request::LogByLog { file, composition })
    } else {
        Some(Request::Log { file, composition })
    }
}

fn read_run<'m>(found: &'m ArgMatches<'_>) -> Option<Request<'m>>
    ensures some { IfSome result (λ asked. IsAskedBy (Some (codes "run", rows_of (found_of found.now))) asked) }
    ensures none { IfNone result ((asked : Request) → IsAskedBy (Some (codes "run", rows_of (found_of found.now))) asked → ⊥) }
{
    if asks_seeds(found) {
        let seeds = read_seeds(found)?;
        return Some(Request::Seeds(seeds));
    }
    let settings = read_settings(found)?;
    Some(Request::Run(settings))
}

fn read_monitor<'m>(found: &'m ArgMatches<'_>) -> Option<Request<'m>>
    ensures some { IfSome result (λ asked. IsAskedBy (Some (codes "monitor", rows_of (found_of found.now))) asked) }
    ensures none { IfNone result ((asked : Request) → IsAskedBy (Some (codes "monitor", rows_of (found_of found.now))) asked → ⊥) }
{
    let (file, composition) = read_names(found)?;
    let json = asks_json(found);
    if is_set(found, "strict") {
        return Some(Request::StrictMonitor {
            file,
            composition,
            json,
        });
    }
    if json {
        return Some(Request::MonitorJson { file, composition });
    }
    Some(Request::Monitor { file, composition })
}

fn read_watch<'m>(found: &'m ArgMatches<'_>) -> Option<Request<'m>>
    ensures some { IfSome result (λ asked. IsAskedBy (Some (codes "watch", rows_of (found_of found.now))) asked) }
    ensures none { IfNone result ((asked : Request) → IsAskedBy (Some (codes "watch", rows_of (found_of found.now))) asked → ⊥) }
{
    let file = found.get_str("FILE")?;
    let compositions = found.get_strs("comp")?;
    let first = is_set(found, "first");
    let counts = is_set(found, "explain");
    let json = asks_json(found);
    Some(Request::Watch {
        file,
        compositions,
        first,
        counts,
        json,
    })
}

fn read_chart<'m>(found: &'m ArgMatches<'_>) -> Option<Request<'m>>
    ensures some { IfSome result (λ asked. IsAskedBy (Some (codes "chart", rows_of (found_of found.now))) asked) }
    ensures none { IfNone result ((asked : Request) → IsAskedBy (Some (codes "chart", rows_of (found_of found.now))) asked → ⊥) }
{
    let (file, composition) = read_names(found)?;
    let selection = read_selection(found)?;
    Some(Request::Chart {
        file,
        composition,
        selection,
    })
}

fn read_graph<'m>(found: &'m ArgMatches<'_>) -> Option<Request<'m>>
    ensures some { IfSome result (λ asked. IsAskedBy (Some (codes "graph", rows_of (found_of found.now))) asked) }
    ensures none { IfNone result ((asked : Request) → IsAskedBy (Some (codes "graph", rows_of (found_of found.now))) asked → ⊥) }
{
    let (file, composition) = read_names(found)?;
    Some(Request::Graph { file, composition })
}

fn read_check<'m>(found: &'m ArgMatches<'_>) -> Option<Request<'m>>
    ensures some { IfSome result (λ asked. IsAskedBy (Some (codes "check", rows_of (found_of found.now))) asked) }
    ensures none { IfNone result ((asked : Request) → IsAskedBy (Some (codes "check", rows_of (found_of found.now))) asked → ⊥) }
{
    let file = found.get_str("FILE")?;
    let compositions = is_set(found, "compositions");
    Some(Request::Check { file, compositions })
}

fn read_compile<'m>(found: &'m ArgMatches<'_>) -> Option<Request<'m>>
    ensures some { IfSome result (λ asked. IsAskedBy (Some (codes "compile", rows_of (found_of found.now))) asked) }
    ensures none { IfNone result ((asked : Request) → IsAskedBy (Some (codes "compile", rows_of (found_of found.now))) asked → ⊥) }
{
    let (file, composition) = read_names(found)?;
    let out = found.get_str("OUT")?;
    Some(Request::Compile {
        file,
        out,
        composition,
    })
}

fn read_dump<'m>(found: &'m ArgMatches<'_>) -> Option<Request<'m>>
    ensures some { IfSome result (λ asked. IsAskedBy (Some (codes "dump", rows_of (found_of found.now))) asked) }
    ensures none { IfNone result ((asked : Request) → IsAskedBy (Some (codes "dump", rows_of (found_of found.now))) asked → ⊥) }
{
    let file = found.get_str("FILE")?;
    Some(Request::Dump { file })
}

fn read_explain<'m>(found: &'m ArgMatches<'_>) -> Option<Request<'m>>
    ensures some { IfSome result (λ asked. IsAskedBy (Some (codes "explain", rows_of (found_of found.now))) asked) }
    ensures none { IfNone result ((asked : Request) → IsAskedBy (Some (codes "explain", rows_of (found_of found.now))) asked → ⊥) }
{
    let words = found.get_strs("TEXT")?;
    let topic = pasted(words)?;
    Some(Request::Explain { topic })
}
