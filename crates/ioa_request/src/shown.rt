//! What a replay tells of the states in which it ends.

ghost use Rattle.std.specs.Prelude.{◌≡◌};
ghost use Rattle.clap.specs.Words.{found_of, rows_of};
ghost use Rattle.ioa_request.specs.CommandLine as asked;
ghost use Rattle.ioa_request.specs.Showing as spec;

use crate::reading::is_set;
use clap::ArgMatches;

/// What is told of states.
#[derive(Clone, Copy, Debug, PartialEq, Eq)]
pub enum Shown {
    /// Each variable with its value.
    States,
    /// What is enabled in them.
    Enabled,
    /// Each variable with its value, and then what is enabled.
    Both,
}

/// What a subcommand's values ask to be told of states, if anything.
pub(crate) fn read_shown(found: &ArgMatches<'_>) -> Option<Shown>
    ensures { result ≡ asked.shown_by (rows_of (found_of found.now)) }
{
    shown_in(is_set(found, "states"), is_set(found, "enabled"))
}

fn shown_in(states: bool, enabled: bool) -> Option<Shown>
    ensures { result ≡ spec.shown_in states enabled }
{
    match (states, enabled) {
        (false, false) => None,
        (true, false) => Some(Shown::States),
        (false, true) => Some(Shown::Enabled),
        (true, true) => Some(Shown::Both),
    }
}
