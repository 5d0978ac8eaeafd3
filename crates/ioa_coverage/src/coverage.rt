//! Counts of a program's entries, one for each of each component, and how often they were performed.

ghost use Rattle.std.specs.Prelude.{◌≡◌, ◌≤◌, ◌++◌, ◌∷◌, [], IfOk, OnOk, length, map};
ghost use Rattle.std.specs.List.{flat_map};
ghost use Rattle.std.specs.Option.{option_copied};
ghost use Rattle.std.specs.String.{string_bytes};
ghost use Rattle.ioa_value.specs.Actions.{act_of};
ghost use Rattle.ioa_compile.specs.Shown.{entry_code, member_code};
ghost use Rattle.ioa_compile.specs.Subjects.{RunsAs, Subject};
ghost use Rattle.ioa_compile.specs.Tables.{is_in};
ghost use Rattle.ioa_coverage.specs.Counts as counts;
ghost use Rattle.ioa_coverage.specs.Counts.{entered, member_rows, count_row, with_more};
ghost use Rattle.ioa_coverage.specs.Covered.{IsOriginOf, its_coverage};

use crate::effect::Effect;
use crate::origin::{Origin, effects_of};
use crate::runs::take_run;
use crate::telling::put_counts;
use ioa_compile::{Entry, Member, Program};
use ioa_system::LogEntry;
use ioa_value::{Action, OutOfMemory, all_take};
use std::alloc::Global;

/// An entry of a component, and how often it was performed.
#[derive(Clone, Copy)]
pub(crate) struct Row<'a> {
    pub(crate) member: &'a Member,
    pub(crate) entry: &'a Entry,
    pub(crate) times: u128,
}

/// How often each entry of a program was performed and, where its source is known, how often each arm of an `if` of its effect and each body of a loop was taken.
#[derive(Drop)]
pub struct Coverage<'a> {
    program: &'a Program,
    /// The entries of each component, component by component.
    rows: Vec<Row<'a>>,
    /// Of a source the effects of these entries, one for each; of an object none.
    effects: Vec<Effect<'a>>,
}

impl<'a> Coverage<'a> {
    ghost use Rattle.std.specs.Prelude.{◌≡◌, ◌≤◌, ◌<◌, ◌++◌, ◌∷◌, ◌+◌, ◌^◌, [], List, Option, IfOk, OnOk, length};
    ghost use Rattle.std.specs.Option.{option_map};
    ghost use Rattle.std.specs.String.{string_bytes};
    ghost use Rattle.ioa_value.specs.Actions.{Act};
    ghost use Rattle.ioa_compile.specs.Programs.{Prog};
    ghost use Rattle.ioa_compile.specs.Subjects.{RunsAs, Subject};
    ghost use Rattle.ioa_coverage.specs.declared.origin.Origin.{Origin};
    ghost use Rattle.ioa_coverage.specs.Counts.{entered};
    ghost use Rattle.ioa_coverage.specs.Covered.{IsOriginOf, its_coverage};
    ghost use Rattle.ioa_coverage.specs.Effects.{CoversAll};
    ghost use Rattle.ioa_coverage.specs.Performed.{all_of};

    /// The counts of a program before any run. Where its source is given, the effects of the source's composition are followed, too; `add` and `text` ask that this
    /// declares what the program runs as.
    pub fn start(
        alloc: Global,
        program: &'a Program,
        source: Option<&'a Origin>,
    ) -> Result<Coverage<'a>, OutOfMemory>
        ensures { IfOk result (CoversAll program.now (option_copied source.entry) []) }
    {
        let rows = rows_before(alloc, program.members())?;
        let effects = match source {
            Some(source) => effects_of(alloc, program, source)?,
            None => Vec::new(alloc),
        };
        Ok(Coverage {
            program,
            rows,
            effects,
        })
    }

    /// Counts one run more, from the start on: the actions of these entries of a log, and what effects take as far as they are performed. It asks that the
    /// actions of all runs are fewer than 2^128, and that the program runs as a source that is known declares. Where memory is short, what is counted then is not said.
    pub fn add(&mut self, alloc: Global, log: &[LogEntry]) -> Result<(), OutOfMemory>
        requires { (p : Prog) × (source : Option Origin) × (s : Subject) × (runs : List (List Act)) × CoversAll p source runs self.old × RunsAs p s × IsOriginOf source s
            × (length (all_of runs) + length log.now < 2 ^ 128) }
        ensures { OnOk result ((p : Prog) (source : Option Origin) (runs : List (List Act)) → CoversAll p source runs self.old
            → CoversAll p source (runs ++ entered log.now ∷ []) self.new) }
    {
        take_run(alloc, self.program, &mut self.effects, log)?;
        self.rows = counted_more(alloc, &self.rows, log)?;
        Ok(())
    }

    /// The lines that tell the counts: of each entry that was performed, in the order of the components and of their entries, and behind it of its arms and bodies
    /// that were taken; and then of all that never were.
    pub fn text(&self, alloc: Global) -> Result<String, OutOfMemory>
        ensures { IfOk result (λ text. (p : Prog) (source : Option Origin) (s : Subject) (runs : List (List Act)) → CoversAll p source runs self.now → RunsAs p s
            → IsOriginOf source s → string_bytes text ≡ its_coverage s runs) }
    {
        let mut text = String::new(alloc);
        put_counts(&mut text, &self.rows, &self.effects)?;
        Ok(text)
    }
}

/// The lines that tell how often the entries of a program were performed in a run by the actions of these entries of a log and, of a source, how often the arms and
/// bodies of their effects were taken.
pub fn coverage_of(
    alloc: Global,
    program: &Program,
    source: Option<&Origin>,
    log: &[LogEntry],
) -> Result<String, OutOfMemory>
    requires { (s : Subject) × RunsAs program.now s × IsOriginOf (option_copied source) s }
    ensures { IfOk result (λ text. (s : Subject) → RunsAs program.now s → IsOriginOf (option_copied source.entry) s → string_bytes text ≡ its_coverage s (entered log.now ∷ [])) }
{
    let mut coverage = Coverage::start(alloc, program, source)?;
    coverage.add(alloc, log)?;
    coverage.text(alloc)
}

/// The entries of these components, none of them performed.
fn rows_before<'a>(alloc: Global, members: &'a [Member]) -> Result<Vec<Row<'a>>, OutOfMemory>
    ensures { IfOk result (λ rows. map count_row rows.items ≡ flat_map (member_rows []) (map member_code members.now)) }
{
    let mut rows = Vec::new(alloc);
    for member in members {
        push_rows(&mut rows, member)?;
    }
    Ok(rows)
}

/// Puts the entries of a component behind those before, none of them performed.
fn push_rows<'a>(rows: &mut Vec<Row<'a>>, member: &'a Member) -> Result<(), OutOfMemory>
    ensures { OnOk result (map count_row rows.new.items ≡ map count_row rows.old.items ++ member_rows [] (member_code member.now)) }
{
    for entry in &member.entries {
        rows.push(Row {
            member,
            entry,
            times: 0,
        })?;
    }
    Ok(())
}

/// The counts with the actions of these entries of a log.
fn counted_more<'a>(
    alloc: Global,
    rows: &[Row<'a>],
    log: &[LogEntry],
) -> Result<Vec<Row<'a>>, OutOfMemory>
    requires { counts.AreRoomy rows.now log.now }
    ensures { IfOk result (λ more. map count_row more.items ≡ map (with_more (entered log.now)) (map count_row rows.now)) }
{
    let mut more = Vec::new(alloc);
    for row in rows {
        more.push(row_with(row, log))?;
    }
    Ok(more)
}

/// The row with the actions of these entries of a log.
fn row_with<'a>(row: &Row<'a>, log: &[LogEntry]) -> Row<'a>
    requires { counts.IsRoomy log.now row.now }
    ensures { count_row result ≡ with_more (entered log.now) (count_row row.now) }
{
    let found = count(row.member, row.entry, log);
    Row {
        member: row.member,
        entry: row.entry,
        times: row.times + found as u128,
    }
}

/// How many of the log's entries have an action that this entry has.
fn count(member: &Member, entry: &Entry, log: &[LogEntry]) -> usize
    ensures count { result ≡ counts.times_in (entered log.now) (member_code member.now) (entry_code entry.now) }
    ensures few { result ≤ length log.now }
{
    let mut count = 0;
    for told in log {
        if has(member, entry, &told.action) {
            count += 1;
        }
    }
    count
}

/// Whether the entry has the action.
pub(crate) fn has(member: &Member, entry: &Entry, action: &Action) -> bool
    ensures { result ≡ is_in (member_code member.now).start.table (act_of action.now) (entry_code entry.now) }
{
    entry.name.as_str() == action.name.as_str()
        && all_take(member.start.declared(), &entry.positions, &action.vals)
}
