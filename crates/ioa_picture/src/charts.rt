//! Charts: sequence diagrams of logs.

ghost use Rattle.std.specs.Prelude.{◌≡◌, ◌++◌, ◌∷◌, [], ◌==◌, not, filter, IfOk, OnOk, length, map};
ghost use Rattle.std.specs.List.{flat_map};
ghost use Rattle.std.specs.String.{string_bytes};
ghost use Rattle.ioa_value.specs.Actions.{act_of};
ghost use Rattle.ioa_compile.specs.Shown.{member_code};
ghost use Rattle.ioa_compile.specs.Tables.{tabled};
ghost use Rattle.ioa_system.specs.Outcomes.{ending_of};
ghost use Rattle.ioa_picture.specs.Charts as spec;
ghost use Rattle.ioa_picture.specs.Charts.{names_of};
ghost use Rattle.ioa_picture.specs.Lines.{numbered};
ghost use Rattle.ioa_picture.specs.Selections as selections;

use ioa_compile::{Member, Program};
use ioa_system::{End, participants};
use ioa_value::{Action, OutOfMemory, print_action};
use std::alloc::Global;
use std::fmt::Write;
use std::marker::Model;

/// A chart of a log that is drawn entry by entry: a sequence diagram in the form of Mermaid. The components and the environment stand first; each
/// action is arrows from the worker that performs it to the other components that have it. Kept are the lines of each entry so far, and none of
/// an entry whose name is left out.
#[derive(Drop)]
pub struct Chart {
    entries: Vec<String>,
}

impl Model for Chart {
    ghost use Rattle.std.specs.Prelude.{ℕ, List, map};
    ghost use Rattle.std.specs.Coded.{coded_list, coded_ℕ};
    ghost use Rattle.std.specs.String.{string_bytes};

    ghost Value = { List (List ℕ) };

    ghost coded = { coded_list (coded_list coded_ℕ) };

    ghost view = { λ c. map string_bytes c.entries.items };
}

impl Chart {
    /// The chart of no entry.
    pub fn start(alloc: Global) -> Chart
        ensures { result ≡ [] }
    {
        Chart {
            entries: Vec::new(alloc),
        }
    }

    /// Draws the next entry: arrows to the other components that have its action or, where there are none, a note; and nothing where its name
    /// is one of those that are left out.
    ///
    /// # Errors
    /// `OutOfMemory`: the entry is not drawn.
    pub fn draw(
        &mut self,
        alloc: Global,
        program: &Program,
        without: &[&str],
        who: usize,
        action: &Action,
    ) -> Result<(), OutOfMemory>
        ensures { OnOk result (self.new ≡ self.old ++ spec.kept_lines (map (λ name. name.now) without.now) program.now.types (tabled program.now)
            (who, act_of action.now) ∷ []) }
    {
        let lines = kept_lines(alloc, program, without, who, action)?;
        self.entries.push(lines)?;
        Ok(())
    }

    /// The whole text: the workers, the entries whose indices are within the bounds, both included, and an end that is a fault as a note over the component that
    /// faults, unless the last bound stands before the last entry.
    ///
    /// # Errors
    /// `OutOfMemory`.
    pub fn finish(
        &self,
        alloc: Global,
        program: &Program,
        from: Option<u64>,
        to: Option<u64>,
        end: End,
    ) -> Result<String, OutOfMemory>
        ensures { IfOk result (λ text. string_bytes text ≡ spec.front (names_of program.now)
            ++ (numbered (spec.lines_within from to) 0 self.now ++ spec.end_within to (length self.now) (ending_of end))) }
    {
        let mut text = front(alloc, program)?;
        put_selected(&mut text, &self.entries, from, to, end)?;
        Ok(text)
    }
}

/// What stands before the entries.
fn front(alloc: Global, program: &Program) -> Result<String, OutOfMemory>
    ensures { IfOk result (λ text. string_bytes text ≡ spec.front (names_of program.now)) }
{
    let mut text = String::from_str(alloc, "sequenceDiagram\n")?;
    put_workers(&mut text, program.members())?;
    Ok(text)
}

/// The entries within the bounds, and the end.
fn put_selected(
    text: &mut String,
    entries: &[String],
    from: Option<u64>,
    to: Option<u64>,
    end: End,
) -> Result<(), OutOfMemory>
    ensures { let lines = map string_bytes entries.now in OnOk result (string_bytes text.new ≡ string_bytes text.old
        ++ (numbered (spec.lines_within from to) 0 lines ++ spec.end_within to (length lines) (ending_of end))) }
{
    put_entries(text, entries, from, to)?;
    put_end(text, entries.len(), to, end)
}

/// The lines of an entry; none where its name is left out.
fn kept_lines(
    alloc: Global,
    program: &Program,
    without: &[&str],
    who: usize,
    action: &Action,
) -> Result<String, OutOfMemory>
    ensures { IfOk result (λ lines. string_bytes lines ≡ spec.kept_lines (map (λ name. name.now) without.now) program.now.types (tabled program.now)
        (who, act_of action.now)) }
{
    let mut lines = String::new(alloc);
    if !is_left_out(without, action.name.as_str()) {
        put_entry(alloc, &mut lines, program, who, action)?;
    }
    Ok(lines)
}

/// Whether a name is one of those that are left out.
fn is_left_out(without: &[&str], name: &str) -> bool
    ensures { result ≡ selections.is_left_out (map (λ name. name.now) without.now) name.now }
{
    for left_out in without {
        if *left_out == name {
            return true;
        }
    }
    false
}

/// The lines of an entry.
fn put_entry(
    alloc: Global,
    text: &mut String,
    program: &Program,
    who: usize,
    action: &Action,
) -> Result<(), OutOfMemory>
    ensures { OnOk result (string_bytes text.new ≡ string_bytes text.old ++ spec.entry_lines program.now.types (tabled program.now) (who, act_of action.now)) }
{
    let label = print_action(alloc, program.types(), action)?;
    let others = others(alloc, program, who, action)?;
    if others.is_empty() {
        return put_note(text, who, label.as_str());
    }
    put_arrows(text, who, label.as_str(), &others)
}

/// The lines of the entries whose indices are within the bounds.
fn put_entries(
    text: &mut String,
    entries: &[String],
    from: Option<u64>,
    to: Option<u64>,
) -> Result<(), OutOfMemory>
    ensures { OnOk result (string_bytes text.new ≡ string_bytes text.old ++ numbered (spec.lines_within from to) 0 (map string_bytes entries.now)) }
{
    for i in 0..entries.len() {
        put_within(text, from, to, i, entries[i].as_str())?;
    }
    Ok(())
}

/// The lines of the entry of this index, where that is within the bounds.
fn put_within(
    text: &mut String,
    from: Option<u64>,
    to: Option<u64>,
    index: usize,
    lines: &str,
) -> Result<(), OutOfMemory>
    ensures { OnOk result (string_bytes text.new ≡ string_bytes text.old ++ spec.lines_within from to index lines.now) }
{
    if is_within(from, to, index as u64) {
        text.push_str(lines)?;
    }
    Ok(())
}

/// Whether an index is within the bounds.
fn is_within(from: Option<u64>, to: Option<u64>, index: u64) -> bool
    ensures { result ≡ selections.is_within from to index }
{
    let begun = match from {
        Some(first) => first <= index,
        None => true,
    };
    let open = match to {
        Some(last) => index <= last,
        None => true,
    };
    begun && open
}

/// The end of a log of so many entries, where the bound does not stand before the last of them.
fn put_end(text: &mut String, count: usize, to: Option<u64>, end: End) -> Result<(), OutOfMemory>
    ensures { OnOk result (string_bytes text.new ≡ string_bytes text.old ++ spec.end_within to count (ending_of end)) }
{
    if !reaches_end(to, count as u64) {
        return Ok(());
    }
    match end {
        End::Done(_) | End::NotAnAction(_) | End::NotEnabled(_) => {}
        End::Fault(component, _, _) => {
            writeln!(text, "  Note over P{component}: {end}")?;
        }
    }
    Ok(())
}

/// Whether the last of so many entries stands no later than the bound.
fn reaches_end(to: Option<u64>, count: u64) -> bool
    ensures { result ≡ selections.reaches_end to count }
{
    match to {
        Some(last) => count.saturating_sub(1) <= last,
        None => true,
    }
}

/// The components, and the environment.
fn put_workers(text: &mut String, members: &[Member]) -> Result<(), OutOfMemory>
    ensures { OnOk result (string_bytes text.new ≡ string_bytes text.old ++ spec.workers (map (λ m. m.name) (map member_code members.now))) }
{
    put_components(text, members)?;
    put_worker(text, members.len(), "environment")
}

/// The components.
fn put_components(text: &mut String, members: &[Member]) -> Result<(), OutOfMemory>
    ensures { OnOk result (string_bytes text.new ≡ string_bytes text.old ++ numbered spec.worker_line 0 (map (λ m. m.name) (map member_code members.now))) }
{
    for i in 0..members.len() {
        put_component(text, i, &members[i])?;
    }
    Ok(())
}

/// A component by its number.
fn put_component(text: &mut String, number: usize, member: &Member) -> Result<(), OutOfMemory>
    ensures { OnOk result (string_bytes text.new ≡ string_bytes text.old ++ spec.worker_line number (string_bytes member.now.name)) }
{
    put_worker(text, number, member.name.as_str())
}

/// A worker by its number and its name.
fn put_worker(text: &mut String, number: usize, name: &str) -> Result<(), OutOfMemory>
    ensures { OnOk result (string_bytes text.new ≡ string_bytes text.old ++ spec.worker_line number name.now) }
{
    writeln!(text, "  participant P{number} as {name}")?;
    Ok(())
}

/// The numbers of the components that have the action, without its worker's.
fn others(
    alloc: Global,
    program: &Program,
    who: usize,
    action: &Action,
) -> Result<Vec<usize>, OutOfMemory>
    ensures { IfOk result (λ found. found.items ≡ spec.others (tabled program.now) (who, act_of action.now)) }
{
    let all = participants(alloc, program, action)?;
    without(alloc, who, &all)
}

/// The numbers that are not this one.
fn without(alloc: Global, number: usize, numbers: &[usize]) -> Result<Vec<usize>, OutOfMemory>
    ensures { IfOk result (λ others. others.items ≡ filter (λ n. not (n == number)) numbers.now) }
{
    let mut others = Vec::new(alloc);
    for n in numbers {
        if *n != number {
            others.push(*n)?;
        }
    }
    Ok(others)
}

/// Arrows from a worker to each of these.
fn put_arrows(
    text: &mut String,
    from: usize,
    label: &str,
    numbers: &[usize],
) -> Result<(), OutOfMemory>
    ensures { OnOk result (string_bytes text.new ≡ string_bytes text.old ++ flat_map (spec.arrow from label.now) numbers.now) }
{
    for to in numbers {
        put_arrow(text, from, label, *to)?;
    }
    Ok(())
}

fn put_arrow(text: &mut String, from: usize, label: &str, to: usize) -> Result<(), OutOfMemory>
    ensures { OnOk result (string_bytes text.new ≡ string_bytes text.old ++ spec.arrow from label.now to) }
{
    writeln!(text, "  P{from}->>P{to}: {label}")?;
    Ok(())
}

fn put_note(text: &mut String, over: usize, label: &str) -> Result<(), OutOfMemory>
    ensures { OnOk result (string_bytes text.new ≡ string_bytes text.old ++ spec.note over label.now) }
{
    writeln!(text, "  Note over P{over}: {label}")?;
    Ok(())
}
