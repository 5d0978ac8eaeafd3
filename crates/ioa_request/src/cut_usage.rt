//! The option by which a list or a log is cut.

ghost use Rattle.std.specs.Prelude.{◌≡◌, false};
ghost use Rattle.clap.specs.Words.{rule_of};
ghost use Rattle.ioa_request.specs.CommandLine.{until_rule};

use crate::arguments::option;
use clap::Arg;
use std::alloc::Global;

/// The number of the last action that is taken of a list or a log.
pub fn until_option<'a>(alloc: Global) -> Arg<'a>
    ensures rule { rule_of result ≡ until_rule }
    ensures local { result.global ≡ false }
{
    option(
        alloc,
        "until",
        "N",
        "Stops after N actions; nothing behind them is judged, a log's end neither",
    )
}
