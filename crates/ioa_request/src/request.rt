//! The command line, its subcommands with their arguments, and the requests that they make.

ghost use Rattle.std.specs.Prelude.{◌≡◌, false, map, codes, IfOk};
ghost use Rattle.clap.specs.Words.{App, FailsBy, Rule, app_of, fault_of, new_app, rule_of, subcommand_of, subcommand_rows_of, with_rule, with_subcommand};
ghost use Rattle.ioa_request.specs.CommandLine.{IsLocal, check_app, comp_rule, compile_app, compositions_rule, coverage_rule, dump_app, enabled_rule, explain_app, explain_rule, file_rule, graph_app, invariants_rule, ioac_app, library_app, log_app, log_rule, out_rule, replay_app, states_rule, text_rule};

use crate::arguments::{argument, flag, option};
use crate::chart_usage::chart_command;
use crate::cut_usage::until_option;
use crate::monitor_usage::{json_flag, monitor_command};
use crate::run_usage::run_command;
use crate::seeds::Seeds;
use crate::selection::Selection;
use crate::settings::Settings;
use crate::shown::Shown;
use crate::topic::Topic;
use crate::watch_usage::watch_command;
use clap::{Arg, ArgMatches, Command, Error};
use std::alloc::{AllocError, Global};
use std::convert::AsStr;

/// What a command line asks for.
#[derive(Drop)]
pub enum Request<'a> {
    /// To replay the list on standard input in a composition of a source, or in an object.
    Replay {
        file: &'a str,
        composition: Option<&'a str>,
        /// Whether objects are told.
        json: bool,
    },
    /// To replay the list on standard input in a composition of a source, and to tell of the states in which it ends.
    ReplayStates {
        file: &'a str,
        composition: Option<&'a str>,
        /// What is told of them.
        shown: Shown,
    },
    /// To replay the log on standard input in a composition of a source, or in an object.
    ReplayLog {
        file: &'a str,
        composition: Option<&'a str>,
        /// Whether objects are told.
        json: bool,
    },
    /// To replay the log on standard input in a composition of a source, and to tell of the states in which it ends.
    ReplayLogStates {
        file: &'a str,
        composition: Option<&'a str>,
        /// What is told of them.
        shown: Shown,
    },
    /// To replay the log on standard input in a composition of a source, and to ask for the source's invariants in each of its states.
    ReplayInvariants {
        file: &'a str,
        composition: Option<&'a str>,
        /// Whether objects are told.
        json: bool,
    },
    /// To replay the list, or the log, on standard input in a composition of a source, or in an object, and to tell how often each entry is performed, and each arm and body taken.
    ReplayCoverage {
        file: &'a str,
        composition: Option<&'a str>,
        /// Whether it is a log.
        log: bool,
        /// Whether objects are told of the run.
        json: bool,
    },
    /// To write the log of the run of the list on standard input in a composition of a source, or in an object.
    Log {
        file: &'a str,
        composition: Option<&'a str>,
    },
    /// To write the log on standard input, where it is of the run of a composition of a source, or of an object, as logs are written.
    LogByLog {
        file: &'a str,
        composition: Option<&'a str>,
    },
    /// To run a composition of a source, or an object.
    Run(Settings<'a>),
    /// To run a composition of a source, or an object, by each of many seeds.
    Seeds(Seeds<'a>),
    /// To monitor the log on standard input by a composition of a source, or by an object.
    Monitor {
        file: &'a str,
        composition: Option<&'a str>,
    },
    /// To monitor the log on standard input, and to tell the answer as a JSON object.
    MonitorJson {
        file: &'a str,
        composition: Option<&'a str>,
    },
    /// To monitor the log on standard input strictly: an action that has a name of the specification is not passed over, and one has to be taken.
    StrictMonitor {
        file: &'a str,
        composition: Option<&'a str>,
        /// Whether the answer is told as a JSON object.
        json: bool,
    },
    /// To watch the stream of actions on standard input by these compositions of a source.
    Watch {
        file: &'a str,
        compositions: &'a [&'a str],
        /// Whether the first refusal is enough.
        first: bool,
        /// Whether it is told what each of them counted.
        counts: bool,
        /// Whether objects are told.
        json: bool,
    },
    /// To draw the log on standard input, as a chart of what a composition of a source, or an object, does.
    Chart {
        file: &'a str,
        composition: Option<&'a str>,
        /// Which of the log's entries are drawn.
        selection: Selection<'a>,
    },
    /// To draw a composition of a source, or an object, as a graph.
    Graph {
        file: &'a str,
        composition: Option<&'a str>,
    },
    /// To parse and check a source, or to read and verify an object; and to compose each composition of a source, where that is asked for.
    Check {
        file: &'a str,
        compositions: bool,
    },
    /// To put the object of a composition of a source in the file `out`.
    Compile {
        file: &'a str,
        out: &'a str,
        composition: Option<&'a str>,
    },
    /// To write what an object holds.
    Dump {
        file: &'a str,
    },
    /// To say what a topic means.
    Explain {
        topic: Topic,
    },
    /// To write the library's source.
    Library,
}

/// The version that `--version` prints.
const VERSION: &str = "0.2.0";

/// The source that a subcommand takes.
pub fn source_argument<'a>(alloc: Global) -> Arg<'a>
    ensures rule { rule_of result ≡ file_rule }
    ensures local { result.global ≡ false }
{
    argument(alloc, "FILE", "A source of I/O automata")
}

/// The source or the object that a subcommand takes.
pub fn file_argument<'a>(alloc: Global) -> Arg<'a>
    ensures rule { rule_of result ≡ file_rule }
    ensures local { result.global ≡ false }
{
    argument(
        alloc,
        "FILE",
        "A source of I/O automata, or an object of one",
    )
}

/// The object that a subcommand takes.
fn object_argument<'a>(alloc: Global) -> Arg<'a>
    ensures rule { rule_of result ≡ file_rule }
    ensures local { result.global ≡ false }
{
    argument(alloc, "FILE", "An object that `compile` made")
}

fn out_argument<'a>(alloc: Global) -> Arg<'a>
    ensures rule { rule_of result ≡ out_rule }
    ensures local { result.global ≡ false }
{
    argument(alloc, "OUT", "The file to put the object in")
}

/// The name of a composition.
pub fn composition_option<'a>(alloc: Global) -> Arg<'a>
    ensures rule { rule_of result ≡ comp_rule }
    ensures local { result.global ≡ false }
{
    option(
        alloc,
        "comp",
        "NAME",
        "The composition to take; without it, the last one",
    )
}

fn log_flag<'a>(alloc: Global) -> Arg<'a>
    ensures rule { rule_of result ≡ log_rule }
    ensures local { result.global ≡ false }
{
    flag(
        alloc,
        "log",
        "Standard input is a log, which has to be of the composition's run",
    )
}

fn invariants_flag<'a>(alloc: Global) -> Arg<'a>
    ensures rule { rule_of result ≡ invariants_rule }
    ensures local { result.global ≡ false }
{
    flag(
        alloc,
        "invariants",
        "With --log: the first invariant that the log's states break is printed in place of all else",
    )
}

fn compositions_flag<'a>(alloc: Global) -> Arg<'a>
    ensures rule { rule_of result ≡ compositions_rule }
    ensures local { result.global ≡ false }
{
    flag(
        alloc,
        "compositions",
        "Each composition of a source is composed, too, and the first that is refused is told",
    )
}

fn states_flag<'a>(alloc: Global) -> Arg<'a>
    ensures rule { rule_of result ≡ states_rule }
    ensures local { result.global ≡ false }
{
    flag(
        alloc,
        "states",
        "Of a source: each variable follows with its value in the state that is reached last; not with --invariants",
    )
}

fn enabled_flag<'a>(alloc: Global) -> Arg<'a>
    ensures rule { rule_of result ≡ enabled_rule }
    ensures local { result.global ≡ false }
{
    flag(
        alloc,
        "enabled",
        "Of a source: what is enabled in the state that is reached last follows, and the inputs; not with --invariants",
    )
}

/// What tells how often each entry is performed, and each arm and body taken.
pub fn coverage_flag<'a>(alloc: Global) -> Arg<'a>
    ensures rule { rule_of result ≡ coverage_rule }
    ensures local { result.global ≡ false }
{
    flag(
        alloc,
        "coverage",
        "How often each entry is performed and, of a source, each arm and loop body of its effect taken is told on standard error, and last which never are",
    )
}

fn text_argument<'a>(alloc: Global) -> Arg<'a>
    ensures rule { rule_of result ≡ text_rule }
    ensures local { result.global ≡ false }
{
    Arg::new(alloc, "TEXT").required(true).num_args(1..).help(
        "What the program printed: a code, as E7, a fault, as fault 3, or an end, as not enabled at 4",
    )
}

/// What asks for more than is printed.
pub fn explain_flag<'a>(alloc: Global) -> Arg<'a>
    ensures rule { rule_of result ≡ explain_rule }
    ensures local { result.global ≡ false }
{
    flag(
        alloc,
        "explain",
        "Says more of the outcome on standard error: which line, why, and in which state",
    )
}

fn check_command<'a>(alloc: Global) -> Result<Command<'a>, AllocError>
    ensures app { IfOk result (λ command. app_of command ≡ check_app) }
    ensures local { IfOk result IsLocal }
{
    let command = Command::new(alloc, "check")
        .about("Parses and checks a source, or verifies an object, and prints ok where it is fine")
        .after_help(
            "Without --compositions, compositions of a source are composed by the other commands alone.\n\
             Example: ioac check --compositions protocol.ioa\n\
             Exit status: 0 done, 1 source or object refused, 2 bad command line, 5 memory, the file or a device.",
        );
    let command = taking(Ok(command), file_argument(alloc));
    let command = taking(command, compositions_flag(alloc));
    taking(command, explain_flag(alloc))
}

fn compile_command<'a>(alloc: Global) -> Result<Command<'a>, AllocError>
    ensures app { IfOk result (λ command. app_of command ≡ compile_app) }
    ensures local { IfOk result IsLocal }
{
    let command = Command::new(alloc, "compile")
        .about("Compiles a composition, puts its object in a file, and prints ok")
        .after_help(
            "`check`, `replay`, `run` and `monitor` take the object in the place of a source.\n\
             OUT is replaced where it is an object, empty or cannot be read; any other file there is refused.\n\
             Example: ioac compile protocol.ioa protocol.object\n\
             Exit status: 0 done, 1 source refused, 2 bad command line or no source, 5 memory, a file or a device.",
        );
    let command = taking(Ok(command), source_argument(alloc));
    let command = taking(command, out_argument(alloc));
    let command = taking(command, composition_option(alloc));
    taking(command, explain_flag(alloc))
}

fn dump_command<'a>(alloc: Global) -> Result<Command<'a>, AllocError>
    ensures app { IfOk result (λ command. app_of command ≡ dump_app) }
    ensures local { IfOk result IsLocal }
{
    let command = Command::new(alloc, "dump")
        .about("Prints the tables and the code of an object, an item a line")
        .after_help(
            "Types, variables, positions and constants have the numbers by which instructions name them.\n\
             Example: ioac dump protocol.object\n\
             Exit status: 0 done, 1 no object, 2 bad command line, 5 memory, the file or a device.",
        );
    let command = taking(Ok(command), object_argument(alloc));
    taking(command, explain_flag(alloc))
}

fn explain_command<'a>(alloc: Global) -> Result<Command<'a>, AllocError>
    ensures app { IfOk result (λ command. app_of command ≡ explain_app) }
    ensures local { IfOk result IsLocal }
{
    let command = Command::new(alloc, "explain")
        .about("Says what a text means that the program printed, what gives it, and how to mend it")
        .after_help(
            "The first words tell, in capitals or not; more may stand behind them, and `end:` or `monitor:` before.\n\
             Example: ioac explain fault 3 in component 0 at 2\n\
             Exit status: 0 done, 2 bad command line or nothing to explain, 5 memory or a device.",
        );
    let command = taking(Ok(command), text_argument(alloc));
    taking(command, explain_flag(alloc))
}

fn library_command<'a>(alloc: Global) -> Result<Command<'a>, AllocError>
    ensures app { IfOk result (λ command. app_of command ≡ library_app) }
    ensures local { IfOk result IsLocal }
{
    let command = Command::new(alloc, "library")
        .about("Prints the library of link protocols, a source to check, run and replay")
        .after_help(
            "Example: ioac library > links.ioa\n\
             Exit status: 0 done, 2 bad command line, 5 memory or a device.",
        );
    taking(Ok(command), explain_flag(alloc))
}

fn replay_command<'a>(alloc: Global) -> Result<Command<'a>, AllocError>
    ensures app { IfOk result (λ command. app_of command ≡ replay_app) }
    ensures local { IfOk result IsLocal }
{
    let command = taking(Ok(described_replay(alloc)), file_argument(alloc));
    let command = taking(command, composition_option(alloc));
    let command = taking(command, log_flag(alloc));
    let command = taking(command, invariants_flag(alloc));
    let command = taking(command, states_flag(alloc));
    let command = taking(command, enabled_flag(alloc));
    let command = taking(command, coverage_flag(alloc));
    let command = taking(command, until_option(alloc));
    let command = taking(command, json_flag(alloc));
    taking(command, explain_flag(alloc))
}

/// The subcommand without its arguments. Its usage is written out, since invariants are asked of a log alone.
fn described_replay<'a>(alloc: Global) -> Command<'a>
    ensures app { app_of result ≡ new_app (codes "replay") }
    ensures local { IsLocal result }
{
    Command::new(alloc, "replay")
        .about("Performs a list of actions, read on standard input, and prints its external trace")
        .after_help(
            "The list has one action a line, as `tick(5)`. Blank lines and lines that begin with % are skipped.\n\
             A log has one JSON object a line, as `{\"act\":\"tick(5)\",\"who\":0}`, and last `{\"end\":\"done after 1\"}`.\n\
             With --json each line is an object, as `{\"act\":\"tick(5)\"}`, and last `{\"end\":\"done\",\"count\":1}`;\n\
             a broken invariant is one, as `{\"verdict\":\"broken\",\"invariant\":0,\"component\":1,\"count\":7}`.\n\
             Example: ioac replay protocol.ioa < actions.txt\n\
             Exit status: 0 done, 1 source or object refused, 2 bad command line, 3 ended by a fault,\n\
             4 list or log refused, invariant broken, or ended not enabled or not an action, 5 memory, the file or a device.",
        )
        .override_usage(
            "ioac replay [--comp <NAME>] [--log [--invariants]] [--states] [--enabled] [--coverage] [--until <N>] [--json] [--explain] <FILE>",
        )
}

fn log_command<'a>(alloc: Global) -> Result<Command<'a>, AllocError>
    ensures app { IfOk result (λ command. app_of command ≡ log_app) }
    ensures local { IfOk result IsLocal }
{
    let command = taking(Ok(described_log(alloc)), file_argument(alloc));
    let command = taking(command, composition_option(alloc));
    let command = taking(command, log_flag(alloc));
    let command = taking(command, until_option(alloc));
    taking(command, explain_flag(alloc))
}

/// The subcommand without its arguments.
fn described_log<'a>(alloc: Global) -> Command<'a>
    ensures app { app_of result ≡ new_app (codes "log") }
    ensures local { IsLocal result }
{
    Command::new(alloc, "log")
        .about("Performs a list of actions, read on standard input, and prints the log of this run")
        .after_help(
            "The log has each action that is performed, with its worker, and last the end. An action that faults is its last entry;\n\
             where one is not enabled or none, the log ends as done before it. `replay --log` and `monitor` take the log.\n\
             With --log a log is read, as by `replay --log`, and printed; with --until its beginning, as a log that is done.\n\
             Example: ioac log --log --until 40 protocol.ioa < run.log > part.log\n\
             Exit status: 0 done, 1 source or object refused, 2 bad command line, 3 ended by a fault,\n\
             4 list or log refused, or ended not enabled or not an action, 5 memory, the file or a device.",
        )
}

fn graph_command<'a>(alloc: Global) -> Result<Command<'a>, AllocError>
    ensures app { IfOk result (λ command. app_of command ≡ graph_app) }
    ensures local { IfOk result IsLocal }
{
    let command = Command::new(alloc, "graph")
        .about(
            "Prints a graph of a composition for Graphviz: its components, and the actions that they share",
        )
        .after_help(
            "An output is an edge to each component that takes it, or to the environment where none does, dashed where its name is hidden;\n\
             an input that no component gives is an edge from the environment. Internal names stand in their component.\n\
             Example: ioac graph protocol.ioa > protocol.dot\n\
             Exit status: 0 done, 1 source or object refused, 2 bad command line, 5 memory, the file or a device.",
        );
    let command = taking(Ok(command), file_argument(alloc));
    let command = taking(command, composition_option(alloc));
    taking(command, explain_flag(alloc))
}

/// A command with one argument more, where there has been memory for it. Who puts a command together by such calls holds
/// none where memory may end.
pub fn taking<'a>(
    command: Result<Command<'a>, AllocError>,
    argument: Arg<'a>,
) -> Result<Command<'a>, AllocError>
    ensures app { (app : App) (rule : Rule) → IfOk command.entry (λ c. app_of c ≡ app) → argument.entry.global ≡ false → rule_of argument.entry ≡ rule
        → IfOk result (λ made. app_of made ≡ with_rule app rule) }
    ensures local { IfOk command.entry IsLocal → argument.entry.global ≡ false → IfOk result IsLocal }
{
    command?.arg(argument)
}

/// A command with one subcommand more, where there has been memory for both.
fn with<'a>(
    command: Result<Command<'a>, AllocError>,
    subcommand: Result<Command<'a>, AllocError>,
) -> Result<Command<'a>, AllocError>
    ensures { (app added : App) → IfOk command.entry (λ c. app_of c ≡ app) → IfOk subcommand.entry (λ c. app_of c ≡ added) → IfOk subcommand.entry IsLocal
        → IfOk result (λ made. app_of made ≡ with_subcommand app added.top) }
{
    command?.subcommand(subcommand?)
}

fn program<'a>(alloc: Global) -> Result<Command<'a>, AllocError>
    ensures { IfOk result (λ command. app_of command ≡ ioac_app) }
{
    let command = Command::new(alloc, "ioac")
        .about("Compiles I/O automata, runs them, and replays lists of their actions")
        .version(VERSION)
        .subcommand_required(true)
        .arg_required_else_help(true);
    let command = with(Ok(command), check_command(alloc));
    let command = with(command, compile_command(alloc));
    let command = with(command, dump_command(alloc));
    let command = with(command, replay_command(alloc));
    let command = with(command, log_command(alloc));
    let command = with(command, run_command(alloc));
    let command = with(command, monitor_command(alloc));
    let command = with(command, watch_command(alloc));
    let command = with(command, chart_command(alloc));
    let command = with(command, graph_command(alloc));
    let command = with(command, explain_command(alloc));
    with(command, library_command(alloc))
}

/// Reads a command line, whose first word is the program's.
///
/// # Errors
/// The words have a fault, or ask for help or the version; or want of memory.
pub fn parse<'a, S: AsStr>(alloc: Global, words: &'a [S]) -> Result<ArgMatches<'a>, Error>
    ensures found { IfOk result (λ matches. subcommand_rows_of matches ≡ subcommand_of ioac_app (map S.text words.entry.now)) }
    ensures faults { FailsBy (fault_of ioac_app (map S.text words.entry.now)) result }
{
    program(alloc)?.try_get_matches_from(words)
}
