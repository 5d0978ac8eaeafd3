//! The command line of `run`.

ghost use Rattle.std.specs.Prelude.{◌≡◌, false, codes, IfOk};
ghost use Rattle.clap.specs.Words.{app_of, new_app, rule_of};
ghost use Rattle.ioa_request.specs.CommandLine.{IsLocal, alone_rule, inputs_rule, invariants_rule, keep_rule, log_rule, monitor_rule, reports_rule, resume_rule, run_app, seed_rule, seeds_rule, turns_rule, words_rule};

use crate::arguments::{flag, option};
use crate::monitor_usage::json_flag;
use crate::request::{composition_option, coverage_flag, explain_flag, file_argument, taking};
use clap::{Arg, ArgAction, Command};
use std::alloc::{AllocError, Global};

fn alone_flag<'a>(alloc: Global) -> Arg<'a>
    ensures rule { rule_of result ≡ alone_rule }
    ensures local { result.global ≡ false }
{
    flag(
        alloc,
        "alone",
        "The workers take turns on one thread, in their order; without it, each has a thread",
    )
}

fn turns_option<'a>(alloc: Global) -> Arg<'a>
    ensures rule { rule_of result ≡ turns_rule }
    ensures local { result.global ≡ false }
{
    option(
        alloc,
        "turns",
        "N",
        "How many turns each worker has, up to 100000; without it, 1000",
    )
}

fn seed_option<'a>(alloc: Global) -> Arg<'a>
    ensures rule { rule_of result ≡ seed_rule }
    ensures local { result.global ≡ false }
{
    option(
        alloc,
        "seed",
        "HEX",
        "The key of the workers' random words, 64 hexadecimal digits; without it, zeros",
    )
}

fn words_option<'a>(alloc: Global) -> Arg<'a>
    ensures rule { rule_of result ≡ words_rule }
    ensures local { result.global ≡ false }
{
    option(
        alloc,
        "words",
        "WFILE",
        "In place of a seed: a file with a line of words for each component",
    )
}

fn seeds_option<'a>(alloc: Global) -> Arg<'a>
    ensures rule { rule_of result ≡ seeds_rule }
    ensures local { result.global ≡ false }
{
    option(
        alloc,
        "seeds",
        "A..B",
        "With --alone: a run for each seed from number A to B, and its end on a line; then counts",
    )
}

/// The names of the compositions that are asked whether they accept each run.
fn monitor_option<'a>(alloc: Global) -> Arg<'a>
    ensures rule { rule_of result ≡ monitor_rule }
    ensures local { result.global ≡ false }
{
    option(
        alloc,
        "monitor",
        "SPEC",
        "With --seeds: a composition that is asked whether it accepts each run; once for each",
    )
    .action(ArgAction::Append)
}

/// Whether each run is asked for the source's invariants.
fn invariants_flag<'a>(alloc: Global) -> Arg<'a>
    ensures rule { rule_of result ≡ invariants_rule }
    ensures local { result.global ≡ false }
{
    flag(
        alloc,
        "invariants",
        "With --seeds: it is asked whether the states of each run keep the source's invariants",
    )
}

/// The file for a log that is not accepted.
fn keep_option<'a>(alloc: Global) -> Arg<'a>
    ensures rule { rule_of result ≡ keep_rule }
    ensures local { result.global ≡ false }
{
    option(
        alloc,
        "keep",
        "KFILE",
        "With --seeds: a file, in which the shortest log is put that is refused",
    )
}

fn inputs_option<'a>(alloc: Global) -> Arg<'a>
    ensures rule { rule_of result ≡ inputs_rule }
    ensures local { result.global ≡ false }
{
    option(
        alloc,
        "inputs",
        "LFILE",
        "A file with the list of inputs that the environment performs",
    )
}

fn resume_option<'a>(alloc: Global) -> Arg<'a>
    ensures rule { rule_of result ≡ resume_rule }
    ensures local { result.global ≡ false }
{
    option(
        alloc,
        "resume",
        "RFILE",
        "A file with the log of a run, from whose end this one goes on",
    )
}

fn log_flag<'a>(alloc: Global) -> Arg<'a>
    ensures rule { rule_of result ≡ log_rule }
    ensures local { result.global ≡ false }
{
    flag(alloc, "log", "The log is printed in place of the trace")
}

fn reports_flag<'a>(alloc: Global) -> Arg<'a>
    ensures rule { rule_of result ≡ reports_rule }
    ensures local { result.global ≡ false }
{
    flag(
        alloc,
        "reports",
        "What became of each worker's turns is told on standard error",
    )
}

/// The subcommand `run`.
pub fn run_command<'a>(alloc: Global) -> Result<Command<'a>, AllocError>
    ensures app { IfOk result (λ command. app_of command ≡ run_app) }
    ensures local { IfOk result IsLocal }
{
    let command = taking(Ok(described_run(alloc)), file_argument(alloc));
    let command = taking(command, composition_option(alloc));
    let command = taking(command, alone_flag(alloc));
    let command = taking(command, turns_option(alloc));
    let command = taking(command, seed_option(alloc));
    let command = taking(command, words_option(alloc));
    let command = taking(command, seeds_option(alloc));
    let command = taking(command, monitor_option(alloc));
    let command = taking(command, invariants_flag(alloc));
    let command = taking(command, keep_option(alloc));
    let command = taking(command, json_flag(alloc));
    let command = taking(command, inputs_option(alloc));
    let command = taking(command, resume_option(alloc));
    let command = taking(command, log_flag(alloc));
    let command = taking(command, reports_flag(alloc));
    let command = taking(command, coverage_flag(alloc));
    taking(command, explain_flag(alloc))
}

/// The subcommand without its arguments. Its usage is written out, since a seed, a file of words and numbers of seeds are not given together.
fn described_run<'a>(alloc: Global) -> Command<'a>
    ensures app { app_of result ≡ new_app (codes "run") }
    ensures local { IsLocal result }
{
    Command::new(alloc, "run")
        .about("Runs a composition, and prints its external trace")
        .after_help(
            "Each component is a worker, which proposes actions by its words and performs those that are enabled.\n\
             The environment performs the inputs of LFILE in order, one action a line, as `reset`.\n\
             WFILE has the words of the first component on its first line, in decimal, as `9 17 4`; then they are 0.\n\
             With --seeds each line has the 64 digits of a seed and the end of its run; the last line counts them. Such runs have\n\
             no seed, words, log or reports of their own, and go on from none. With --monitor each line has the specification's answer, too,\n\
             as `ioac monitor` gives it of the run's log: `Spec: ok`, or why not. The source has the specifications.\n\
             With --invariants behind that stands the first of the source's invariants that is broken, as `ioac replay --log --invariants`\n\
             prints it of the run's log: `invariants: ok`, or `invariant 0 of component 1 broken after 7`.\n\
             With --json each line is an object, as `{\"seed\":\"00..01\",\"end\":\"done\",\"count\":40,\"verdicts\":[]}`, with the 64 digits.\n\
             KFILE is new, empty or a log, and gets the shortest log that is refused by one of these, the first of those that have as few entries.\n\
             RFILE has a log as `ioac run --log` prints it: the run begins with its actions; turns, words and inputs begin anew.\n\
             Example: ioac run --alone --turns 20 protocol.ioa\n\
             Exit status: 0 done, 1 source or object refused, 2 bad command line, words or turns, 3 ended by a fault,\n\
             4 inputs or log refused, a run not accepted, or no specification, 5 memory, a thread, a file or a device.",
        )
        .override_usage(
            "ioac run [--comp <NAME>] [--alone] [--turns <N>] [--seed <HEX>|--words <WFILE>|--seeds <A..B> [--monitor <SPEC>].. [--invariants] [--keep <KFILE>] [--json]] [--inputs <LFILE>] [--resume <RFILE>] [--log] [--reports] [--coverage] [--explain] <FILE>",
        )
}
