//! The settings of a run: how its workers take their turns, by which words, and what is written.

ghost use Rattle.std.specs.Prelude.{◌≡◌, IfSome, IfNone, option_map};
ghost use Rattle.std.specs.Option.{option_copied};
ghost use Rattle.clap.specs.Words.{found_of, rows_of};
ghost use Rattle.ioa_request.specs.CommandLine.{AreSettings};
ghost use Rattle.ioa_request.specs.Settings as spec;
ghost use Rattle.ioa_request.specs.declared.settings.Settings.{Settings};

use crate::key::read_key;
use crate::numerals::numeral;
use crate::reading::is_set;
use clap::ArgMatches;

/// What a run is asked to be.
#[derive(Drop)]
pub struct Settings<'a> {
    pub file: &'a str,
    pub composition: Option<&'a str>,
    /// Whether the workers take turns on one thread, and do not have a thread each.
    pub alone: bool,
    /// How many turns each worker has.
    pub turns: u64,
    pub words: WordsFrom<'a>,
    /// The file with the environment's script, if it has one.
    pub inputs: Option<&'a str>,
    /// The file with the log from which the run goes on, if it does from one.
    pub resume: Option<&'a str>,
    /// Whether the log is written, and not the trace.
    pub log: bool,
    /// Whether the workers' reports are told.
    pub reports: bool,
    /// Whether it is told how often each entry is performed, and each arm and body taken.
    pub coverage: bool,
}

/// Where the words of a run's workers come from.
#[derive(Clone, Copy)]
pub enum WordsFrom<'a> {
    /// From a key, of which each worker has a stream.
    Key([u8; 32]),
    /// From a file, of which each worker has a line.
    File(&'a str),
}

/// The settings of a run whose words have no fault. None where a word is missing, which a parse rules out, where the turns are no number
/// or the seed is no key, or where a seed and a file of words are given.
pub fn read_settings<'a>(found: &ArgMatches<'a>) -> Option<Settings<'a>>
    ensures some { IfSome result (λ s. AreSettings (rows_of (found_of found.now)) s) }
    ensures none { IfNone result ((s : Settings) → AreSettings (rows_of (found_of found.now)) s → ⊥) }
{
    let file = found.get_str("FILE")?;
    let composition = found.get_str("comp");
    let alone = is_set(found, "alone");
    let asked = found.get_str("turns");
    let turns = read_turns(asked)?;
    let seed = found.get_str("seed");
    let listed = found.get_str("words");
    let words = read_words_from(seed, listed)?;
    let inputs = found.get_str("inputs");
    let resume = found.get_str("resume");
    let log = is_set(found, "log");
    let reports = is_set(found, "reports");
    let coverage = is_set(found, "coverage");
    Some(Settings {
        file,
        composition,
        alone,
        turns,
        words,
        inputs,
        resume,
        log,
        reports,
        coverage,
    })
}

/// The turns that a word asks for, if it is a number.
pub fn read_turns(word: Option<&str>) -> Option<u64>
    ensures { result ≡ spec.turns_in (option_copied word.entry) }
{
    match word {
        Some(digits) => numeral(digits.as_bytes(), u64::MAX),
        None => Some(1_000),
    }
}

/// Where words come from, by the word for a seed and that for a file, where not both stand and a seed is a key.
fn read_words_from<'a>(seed: Option<&'a str>, file: Option<&'a str>) -> Option<WordsFrom<'a>>
    ensures { option_map spec.source_of result ≡ spec.source_in (option_copied seed.entry) (option_copied file.entry) }
{
    match (seed, file) {
        (None, None) => Some(WordsFrom::Key([0; 32])),
        (None, Some(name)) => Some(WordsFrom::File(name)),
        (Some(digits), None) => {
            let key = read_key(digits)?;
            Some(WordsFrom::Key(key))
        }
        (Some(_), Some(_)) => None,
    }
}
