//! What specifications counted of a stream, in lines.

ghost use Rattle.std.specs.Prelude.{◌≡◌, ◌++◌, List, IfOk, IfSome, None, OnOk, false, length, option_map, string_bytes};
ghost use Rattle.ioa_value.specs.Actions.{Act};
ghost use Rattle.ioa_compile.specs.Programs.{Prog};
ghost use Rattle.ioa_system.specs.Outcomes.{ending_of};
ghost use Rattle.ioa_watch.specs.Names.{shown};
ghost use Rattle.ioa_watch.specs.Streaming.{HaveHeard};
ghost use Rattle.ioa_watch.specs.Watchers.{HasHeard};
ghost use Rattle.ioa_serving.specs.Counting as spec;
ghost use Rattle.ioa_serving.specs.Counting.{MayTell, counted_lines, counts_line, full_line, taken_of};

use ioa_system::End;
use ioa_value::Fault;
use ioa_watch::Watcher;
use std::alloc::{AllocError, Global};
use std::fmt::Write;

/// What they counted, where it is asked for. None, where memory is short for it.
pub(crate) fn counts_or_none(
    alloc: Global,
    counts: bool,
    watchers: &[Watcher<'_>],
) -> Option<String>
    ensures told { (ps : List Prog) (acts : List Act) → HaveHeard ps acts watchers.now → MayTell counts (spec.counted_text ps acts) (option_map string_bytes result) }
    ensures silent { counts ≡ false → option_map string_bytes result ≡ None }
{
    if counts {
        return text_or_none(alloc, watchers);
    }
    None
}

/// What they counted. None, where memory is short for it.
fn text_or_none(alloc: Global, watchers: &[Watcher<'_>]) -> Option<String>
    ensures { IfSome result (λ text. (ps : List Prog) (acts : List Act) → HaveHeard ps acts watchers.now → string_bytes text ≡ spec.counted_text ps acts) }
{
    match counted_text(alloc, watchers) {
        Ok(text) => Some(text),
        Err(_) => None,
    }
}

/// A line for each specification, in order: how many actions of each of its names it took, and how many of other names it passed over; behind it one that
/// says where it is full.
fn counted_text(alloc: Global, watchers: &[Watcher<'_>]) -> Result<String, AllocError>
    ensures { IfOk result (λ text. (ps : List Prog) (acts : List Act) → HaveHeard ps acts watchers.now → string_bytes text ≡ spec.counted_text ps acts) }
{
    let mut text = String::new(alloc);
    for watcher in watchers {
        push_counted(alloc, &mut text, watcher)?;
    }
    Ok(text)
}

/// Puts what a specification counted.
fn push_counted(alloc: Global, text: &mut String, watcher: &Watcher<'_>) -> Result<(), AllocError>
    ensures { OnOk result ((p : Prog) (acts : List Act) → HasHeard p acts watcher.now → string_bytes text.new ≡ string_bytes text.old ++ counted_lines acts p) }
{
    let name = watcher.program().name();
    let taken = taken_text(alloc, watcher.names(), watcher.counts())?;
    push_counts(text, name, taken.as_str(), watcher.others())?;
    push_full(text, name, is_full(watcher.refusal()))
}

/// How many actions of each name were taken.
pub(crate) fn taken_text(
    alloc: Global,
    names: &[&str],
    counts: &[u64],
) -> Result<String, AllocError>
    requires { length counts.now ≡ length names.now }
    ensures { IfOk result (λ text. string_bytes text ≡ spec.taken_text (shown names.now) counts.now) }
{
    let mut text = String::new(alloc);
    for i in 0..names.len() {
        push_taken(&mut text, names[i], counts[i])?;
    }
    Ok(text)
}

/// Puts how many actions of the name were taken.
fn push_taken(text: &mut String, name: &str, count: u64) -> Result<(), AllocError>
    ensures { OnOk result (string_bytes text.new ≡ string_bytes text.old ++ taken_of (name.now, count)) }
{
    write!(text, "{count} {name}, ")?;
    Ok(())
}

/// Puts a line of these words.
fn push_counts(text: &mut String, name: &str, taken: &str, others: u64) -> Result<(), AllocError>
    ensures { OnOk result (string_bytes text.new ≡ string_bytes text.old ++ counts_line name.now taken.now others) }
{
    writeln!(text, "{name}: {taken}{others} of other names")?;
    Ok(())
}

/// Whether a specification refuses an action since it holds no more.
fn is_full(refusal: Option<End>) -> bool
    ensures { result ≡ spec.is_full (option_map ending_of refusal) }
{
    match refusal {
        None => false,
        Some(End::Done(_) | End::NotAnAction(_) | End::NotEnabled(_)) => false,
        Some(End::Fault(_, fault, _)) => means_full(fault),
    }
}

/// Whether the fault is that a sequence is full.
fn means_full(fault: Fault) -> bool
    ensures { result ≡ spec.means_full fault }
{
    match fault {
        Fault::Overflow | Fault::ZeroDivisor | Fault::Empty | Fault::OutOfRange => false,
        Fault::Full => true,
    }
}

/// Puts that the specification is full, if it is.
fn push_full(text: &mut String, name: &str, full: bool) -> Result<(), AllocError>
    ensures { OnOk result (string_bytes text.new ≡ string_bytes text.old ++ full_line name.now full) }
{
    if full {
        writeln!(
            text,
            "{name}: the specification is full, which tells nothing of the system"
        )?;
    }
    Ok(())
}
