//! The command line of `watch`.

ghost use Rattle.std.specs.Prelude.{◌≡◌, false, codes, IfOk};
ghost use Rattle.clap.specs.Words.{app_of, new_app, rule_of};
ghost use Rattle.ioa_request.specs.CommandLine.{IsLocal, first_rule, specification_rule, watch_app};

use crate::arguments::{flag, option};
use crate::monitor_usage::json_flag;
use crate::request::{explain_flag, source_argument, taking};
use clap::{Arg, ArgAction, Command};
use std::alloc::{AllocError, Global};

/// The names of the compositions that are the specifications.
fn specification_option<'a>(alloc: Global) -> Arg<'a>
    ensures rule { rule_of result ≡ specification_rule }
    ensures local { result.global ≡ false }
{
    option(
        alloc,
        "comp",
        "SPEC",
        "A composition that is a specification; once for each",
    )
    .required(true)
    .action(ArgAction::Append)
}

fn first_flag<'a>(alloc: Global) -> Arg<'a>
    ensures rule { rule_of result ≡ first_rule }
    ensures local { result.global ≡ false }
{
    flag(
        alloc,
        "first",
        "The first refusal ends it; without it, it goes on until each specification refused something",
    )
}

/// The subcommand `watch`.
pub fn watch_command<'a>(alloc: Global) -> Result<Command<'a>, AllocError>
    ensures app { IfOk result (λ command. app_of command ≡ watch_app) }
    ensures local { IfOk result IsLocal }
{
    let command = taking(Ok(described_watch(alloc)), source_argument(alloc));
    let command = taking(command, specification_option(alloc));
    let command = taking(command, first_flag(alloc));
    let command = taking(command, json_flag(alloc));
    taking(command, explain_flag(alloc))
}

/// The subcommand without its arguments. Its usage is written out, since a specification is named as often as there are some.
fn described_watch<'a>(alloc: Global) -> Command<'a>
    ensures app { app_of result ≡ new_app (codes "watch") }
    ensures local { IsLocal result }
{
    Command::new(alloc, "watch")
        .about(
            "Reads actions on standard input as they come, and prints which specifications refuse one",
        )
        .after_help(
            "Each line is a JSON object with a text `act`, as `{\"act\":\"tick(5)\"}`, whatever else it has; one with a text `end` instead is passed over.\n\
             A specification has no internal action, and hides none. It takes the actions whose names it has; the others are passed over.\n\
             Of each a line is printed as soon as it is known, as `Spec: not enabled at 4`, or at the end of input `Spec: ok`.\n\
             With --json each line is an object, as `{\"specification\":\"Spec\",\"verdict\":\"not enabled\",\"index\":4}`.\n\
             With --explain it is told how many actions of each of its names it took, and how many of other names came.\n\
             Example: tail -f system.log | ioac watch specification.ioa --comp Safety --comp Order\n\
             Exit status: 0 none refused anything, 1 source refused, 2 bad command line or no source,\n\
             4 a specification refused an action, a line is none, or no specification, 5 memory, the file or a device.",
        )
        .override_usage(
            "ioac watch --comp <SPEC> [--comp <SPEC>].. [--first] [--json] [--explain] <FILE>",
        )
}
