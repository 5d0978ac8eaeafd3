//! The command line of `chart`.

ghost use Rattle.std.specs.Prelude.{◌≡◌, false, codes, IfOk};
ghost use Rattle.clap.specs.Words.{app_of, new_app, rule_of};
ghost use Rattle.ioa_request.specs.CommandLine.{IsLocal, chart_app, from_rule, to_rule, without_rule};

use crate::arguments::option;
use crate::request::{composition_option, explain_flag, file_argument, taking};
use clap::{Arg, ArgAction, Command};
use std::alloc::{AllocError, Global};

/// The index of the first entry that is drawn.
fn from_option<'a>(alloc: Global) -> Arg<'a>
    ensures rule { rule_of result ≡ from_rule }
    ensures local { result.global ≡ false }
{
    option(
        alloc,
        "from",
        "N",
        "The index of the first entry to draw, counted from 0; without it, 0",
    )
}

/// The index of the last entry that is drawn.
fn to_option<'a>(alloc: Global) -> Arg<'a>
    ensures rule { rule_of result ≡ to_rule }
    ensures local { result.global ≡ false }
{
    option(
        alloc,
        "to",
        "M",
        "The index of the last entry to draw, no less than N; without it, the last one is drawn, and the end",
    )
}

/// The names whose actions are not drawn.
fn without_option<'a>(alloc: Global) -> Arg<'a>
    ensures rule { rule_of result ≡ without_rule }
    ensures local { result.global ≡ false }
{
    option(
        alloc,
        "without",
        "NAME",
        "A name whose actions are not drawn; once for each",
    )
    .action(ArgAction::Append)
}

/// The subcommand `chart`.
pub fn chart_command<'a>(alloc: Global) -> Result<Command<'a>, AllocError>
    ensures app { IfOk result (λ command. app_of command ≡ chart_app) }
    ensures local { IfOk result IsLocal }
{
    let command = taking(Ok(described_chart(alloc)), file_argument(alloc));
    let command = taking(command, composition_option(alloc));
    let command = taking(command, from_option(alloc));
    let command = taking(command, to_option(alloc));
    let command = taking(command, without_option(alloc));
    taking(command, explain_flag(alloc))
}

/// The subcommand without its arguments. Its usage is written out, since names are given as often as there are some.
fn described_chart<'a>(alloc: Global) -> Command<'a>
    ensures app { app_of result ≡ new_app (codes "chart") }
    ensures local { IsLocal result }
{
    Command::new(alloc, "chart")
        .about("Reads a log on standard input, and prints a sequence diagram of it for Mermaid")
        .after_help(
            "The log has to be of the composition's run. Each action is an arrow from the component that owns it, or from the environment,\n\
             to each other component that has it; where there is none, it is a note over its owner. A fault is a note, too.\n\
             The whole log is read and judged, whatever of it is drawn.\n\
             Example: ioac chart --from 20 --to 40 --without tick protocol.ioa < run.log\n\
             Exit status: 0 done, 1 source or object refused, 2 bad command line, 3 ended by a fault,\n\
             4 log refused, 5 memory, the file or a device.",
        )
        .override_usage(
            "ioac chart [--comp <NAME>] [--from <N>] [--to <M>] [--without <NAME>].. [--explain] <FILE>",
        )
}
