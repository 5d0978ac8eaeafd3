//! Which entries of a log a chart draws.

ghost use Rattle.std.specs.Prelude.{◌≡◌, IfSome, IfNone, option_map};
ghost use Rattle.std.specs.Option.{option_copied};
ghost use Rattle.clap.specs.Words.{found_of, rows_of};
ghost use Rattle.ioa_request.specs.CommandLine.{AreSelected};
ghost use Rattle.ioa_request.specs.Selections as spec;
ghost use Rattle.ioa_request.specs.Pasted.{texts};
ghost use Rattle.ioa_request.specs.declared.selection.Selection.{Selection};

use crate::numerals::numeral;
use clap::ArgMatches;

/// Which entries of a log are drawn. Their indices are counted from 0.
#[derive(Clone, Copy)]
pub struct Selection<'a> {
    /// The index of the first one, where it is not the log's first.
    pub from: Option<u64>,
    /// The index of the last one, which is drawn, too, where it is not the log's last.
    pub to: Option<u64>,
    /// The names whose actions are not drawn.
    pub without: &'a [&'a str],
}

/// The selection that words without a fault ask for. None where a bound is no number, or where the last index is less than the first.
pub fn read_selection<'m>(found: &'m ArgMatches<'_>) -> Option<Selection<'m>>
    ensures some { IfSome result (λ s. AreSelected (rows_of (found_of found.now)) s) }
    ensures none { IfNone result ((s : Selection) → AreSelected (rows_of (found_of found.now)) s → ⊥) }
{
    let first = found.get_str("from");
    let from = read_bound(first)?;
    let last = found.get_str("to");
    let to = read_bound(last)?;
    let names = found.get_strs("without");
    let without = names_in(names);
    if are_in_order(from, to) {
        Some(Selection { from, to, without })
    } else {
        None
    }
}

/// The bound that a word asks for, if it is a number; without a word there is no bound.
pub fn read_bound(word: Option<&str>) -> Option<Option<u64>>
    ensures { result ≡ spec.bound_in (option_copied word.entry) }
{
    match word {
        Some(digits) => {
            let index = numeral(digits.as_bytes(), u64::MAX)?;
            Some(Some(index))
        }
        None => Some(None),
    }
}

/// Whether the first index is no greater than the last, where both are given.
fn are_in_order(from: Option<u64>, to: Option<u64>) -> bool
    ensures { result ≡ spec.are_in_order from to }
{
    match (from, to) {
        (Some(first), Some(last)) => first <= last,
        (Some(_), None) | (None, _) => true,
    }
}

/// The names that are given; none where no option stands.
fn names_in<'a>(given: Option<&'a [&'a str]>) -> &'a [&'a str]
    ensures { texts result.now ≡ spec.names_in (option_map (λ names. texts names.now) given.entry) }
{
    match given {
        Some(names) => names,
        None => &[],
    }
}
