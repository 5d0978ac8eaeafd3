//! The command line of `monitor`.

ghost use Rattle.std.specs.Prelude.{◌≡◌, false, codes, IfOk};
ghost use Rattle.clap.specs.Words.{app_of, new_app, rule_of};
ghost use Rattle.ioa_request.specs.CommandLine.{IsLocal, json_rule, monitor_app, strict_rule};

use crate::arguments::flag;
use crate::request::{composition_option, explain_flag, file_argument, taking};
use clap::{Arg, Command};
use std::alloc::{AllocError, Global};

fn strict_flag<'a>(alloc: Global) -> Arg<'a>
    ensures rule { rule_of result ≡ strict_rule }
    ensures local { result.global ≡ false }
{
    flag(
        alloc,
        "strict",
        "An action that has a name of the composition and is none of its actions is told, and a log without any of its actions",
    )
}

/// What asks for JSON objects in place of text.
pub fn json_flag<'a>(alloc: Global) -> Arg<'a>
    ensures rule { rule_of result ≡ json_rule }
    ensures local { result.global ≡ false }
{
    flag(
        alloc,
        "json",
        "A JSON object a line is printed in place of the text",
    )
}

/// The subcommand `monitor`.
pub fn monitor_command<'a>(alloc: Global) -> Result<Command<'a>, AllocError>
    ensures app { IfOk result (λ command. app_of command ≡ monitor_app) }
    ensures local { IfOk result IsLocal }
{
    let command = taking(Ok(described_monitor(alloc)), file_argument(alloc));
    let command = taking(command, composition_option(alloc));
    let command = taking(command, strict_flag(alloc));
    let command = taking(command, json_flag(alloc));
    taking(command, explain_flag(alloc))
}

/// The subcommand without its arguments.
fn described_monitor<'a>(alloc: Global) -> Command<'a>
    ensures app { app_of result ≡ new_app (codes "monitor") }
    ensures local { IsLocal result }
{
    Command::new(alloc, "monitor")
        .about(
            "Reads a log on standard input, and prints whether a composition accepts its actions",
        )
        .after_help(
            "The composition has no internal action, and hides none. It is run on those of the log's actions that its components have.\n\
             With --strict the first action with a name of the composition that no component has is told, as `monitor: passed over at 3`,\n\
             and a log of which it takes no action, as `monitor: nothing taken`.\n\
             With --json it prints an object, as `{\"verdict\":\"not enabled\",\"index\":4}`.\n\
             Example: ioac monitor specification.ioa < run.log\n\
             Exit status: 0 accepted, 1 source or object refused, 2 bad command line,\n\
             4 not accepted, log refused, or no monitor, 5 memory, the file or a device.",
        )
}
