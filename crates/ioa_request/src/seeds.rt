//! Runs by many seeds: which numbers these have, and what each run is asked to be.

ghost use Rattle.std.specs.Prelude.{◌≡◌, IfSome, IfNone, is_some};
ghost use Rattle.clap.specs.Words.{first_of, found_of, rows_of};
ghost use Rattle.ioa_request.specs.CommandLine.{AreSeeds};
ghost use Rattle.ioa_request.specs.CommandLine as asked;
ghost use Rattle.ioa_request.specs.Pasted.{texts};
ghost use Rattle.ioa_request.specs.Seeds as spec;
ghost use Rattle.ioa_request.specs.declared.seeds.Seeds.{Seeds};

use crate::fields::parted;
use crate::numerals::numeral;
use crate::reading::{asks_json, is_set};
use crate::settings::{Settings, read_settings};
use clap::ArgMatches;

/// What runs by many seeds are asked to be, one run for each.
#[derive(Drop)]
pub struct Seeds<'a> {
    /// What each of them is asked to be, but for its key, which is that of its number.
    pub run: Settings<'a>,
    /// The number of the first seed.
    pub first: u64,
    /// The number of the last seed, which is run, too.
    pub last: u64,
    /// The compositions that are asked whether they accept each run.
    pub monitors: &'a [&'a str],
    /// Whether it is asked if the states of each run keep the source's invariants.
    pub invariants: bool,
    /// Whether objects are told.
    pub json: bool,
    /// The file for the shortest log that is not accepted, or whose states break an invariant, if one is to be kept.
    pub keep: Option<&'a str>,
}

/// The runs that words without a fault ask for. None where no numbers of seeds are given, or none that are a range, where the settings are
/// none, or where what is asked for besides does not go with many seeds.
pub fn read_seeds<'m>(found: &'m ArgMatches<'_>) -> Option<Seeds<'m>>
    ensures some { IfSome result (λ s. AreSeeds (rows_of (found_of found.now)) s) }
    ensures none { IfNone result ((s : Seeds) → AreSeeds (rows_of (found_of found.now)) s → ⊥) }
{
    let word = found.get_str("seeds")?;
    let (first, last) = read_range(word)?;
    let run = read_settings(found)?;
    let monitors = all_given(found, "monitor");
    let invariants = is_set(found, "invariants");
    let json = asks_json(found);
    let keep = found.get_str("keep");
    if admits_seeds(found) {
        Some(Seeds {
            run,
            first,
            last,
            monitors,
            invariants,
            json,
            keep,
        })
    } else {
        None
    }
}

/// The values of an option that may stand several times, or not at all.
fn all_given<'m>(found: &'m ArgMatches<'_>, option: &str) -> &'m [&'m str]
    ensures { texts result.now ≡ asked.all_given option.now (rows_of (found_of found.now)) }
{
    found.get_strs(option).unwrap_or(&[])
}

/// Whether runs by many seeds are asked for, or what they alone have.
pub fn asks_seeds(found: &ArgMatches<'_>) -> bool
    ensures { result ≡ asked.asks_seeds (rows_of (found_of found.now)) }
{
    is_given(found, "seeds")
        || is_given(found, "monitor")
        || is_given(found, "keep")
        || is_set(found, "invariants")
        || is_set(found, "json")
}

/// The first number and the last one of `A..B`, if the word is that of two numbers of 64 bits, of which the first is no greater.
pub fn read_range(word: &str) -> Option<(u64, u64)>
    ensures { result ≡ spec.range_in word.now }
{
    let (first, behind) = parted(word.as_bytes(), b'.');
    match behind? {
        [b'.', last @ ..] => read_ends(first, last),
        _ => None,
    }
}

/// Two numbers, of which the first is no greater.
fn read_ends(first: &[u8], last: &[u8]) -> Option<(u64, u64)>
    ensures { result ≡ spec.ends_in first.now last.now }
{
    let first = numeral(first, u64::MAX)?;
    let last = numeral(last, u64::MAX)?;
    if first <= last {
        Some((first, last))
    } else {
        None
    }
}

/// Whether the runs are alone, and nothing is asked for that one run has: a seed of its own, words, a log to go on from or to write, reports.
fn admits_seeds(found: &ArgMatches<'_>) -> bool
    ensures { result ≡ asked.admits_seeds (rows_of (found_of found.now)) }
{
    is_set(found, "alone")
        && !is_set(found, "log")
        && !is_set(found, "reports")
        && !is_given(found, "seed")
        && !is_given(found, "words")
        && !is_given(found, "resume")
}

/// Whether an option stands.
pub fn is_given(found: &ArgMatches<'_>, option: &str) -> bool
    ensures { result ≡ is_some (first_of option.now (rows_of (found_of found.now))) }
{
    found.get_str(option).is_some()
}
