//! How much of standard input is taken.

ghost use Rattle.std.specs.Prelude.{◌≡◌};
ghost use Rattle.clap.specs.Words.{found_of, rows_of, subcommand_rows_of};
ghost use Rattle.ioa_request.specs.CommandLine as asked;
ghost use Rattle.ioa_request.specs.Cuts as spec;

use crate::reading::is_set;
use crate::selection::read_bound;
use clap::ArgMatches;

/// How much of standard input is taken, where it is not all.
#[derive(Clone, Copy)]
pub enum Cut {
    /// A list up to its action of this number, counted from 1; nothing, where the number is 0.
    List(u64),
    /// So many entries of a log.
    Log(u64),
}

/// How much of standard input a command line without a fault asks for. None where it takes all, or none.
pub fn read_cut(matches: &ArgMatches<'_>) -> Option<Cut>
    ensures { result ≡ spec.cut_of (subcommand_rows_of matches.now) }
{
    let (name, found) = matches.subcommand()?;
    if is_performed(name) {
        cut_in(found)
    } else {
        None
    }
}

/// Whether the bound up to which a list or a log is taken is a number, where one is given.
pub fn is_bounded(found: &ArgMatches<'_>) -> bool
    ensures { result ≡ asked.is_bounded (rows_of (found_of found.now)) }
{
    let word = found.get_str("until");
    read_bound(word).is_some()
}

/// Whether a subcommand performs the actions of a list or a log.
fn is_performed(name: &str) -> bool
    ensures { result ≡ spec.is_performed name.now }
{
    name == "replay" || name == "log"
}

/// How much the values of such a subcommand ask for.
fn cut_in(found: &ArgMatches<'_>) -> Option<Cut>
    ensures { result ≡ spec.cut_in (rows_of (found_of found.now)) }
{
    let log = is_set(found, "log");
    let word = found.get_str("until");
    let bound = read_bound(word)?;
    cut_at(log, bound)
}

/// The beginning of a list, or of a log, up to this bound.
fn cut_at(log: bool, bound: Option<u64>) -> Option<Cut>
    ensures { result ≡ spec.cut_at log bound }
{
    match bound {
        Some(most) if log => Some(Cut::Log(most)),
        Some(most) => Some(Cut::List(most)),
        None => None,
    }
}
