//! What is told beside the reports of a run: what became of the turns in which each entry was tried, and the inputs that were not performed.

ghost use Rattle.std.specs.Prelude.{◌≡◌, ◌≤◌, ◌+◌, ◌++◌, ℕ, OnOk, count_by, drop, length, map, take};
ghost use Rattle.std.specs.List.{flat_map};
ghost use Rattle.std.specs.String.{string_bytes};
ghost use Rattle.ioa_value.specs.Actions.{act_of};
ghost use Rattle.ioa_compile.specs.Shown.{entry_code, member_code};
ghost use Rattle.ioa_run.specs.Proposers.{local_entries};
ghost use Rattle.ioa_run.specs.Tallies.{own_names, performed_named, tally_of};
ghost use Rattle.ioa_serving.specs.RunReports as spec;
ghost use Rattle.ioa_serving.specs.Traces.{new_in, performed};
ghost use Rattle.ioa_system.specs.Logs.{log_entry};

use crate::run::Ran;
use ioa_compile::Member;
use ioa_run::{Report, Tally, Tries};
use ioa_system::{LogEnd, LogEntry};
use ioa_value::{Action, OutOfMemory, Types, push_action};
use std::fmt::Write;

/// Puts a line for each own entry of each component behind the text, in their order.
pub(crate) fn put_tallies(text: &mut String, ran: &Ran) -> Result<(), OutOfMemory>
    requires { performed ran.now.log.end ≤ length ran.now.log.entries.items }
    ensures { OnOk result (string_bytes text.new ≡ string_bytes text.old
        ++ spec.tallies_text (new_in ran.now) 0 (map (λ m. m.name) ran.now.program.members) (map own_names ran.now.program.members) (map tally_of ran.now.tallies.items)) }
{
    let new = new_entries(ran);
    put_members(text, ran.program.members(), &ran.tallies, new)
}

/// What the run performed, behind what was done before it.
fn new_entries(ran: &Ran) -> &[LogEntry]
    requires { performed ran.now.log.end ≤ length ran.now.log.entries.items }
    ensures { map log_entry result.now ≡ new_in ran.now }
{
    let count = match ran.log.end {
        LogEnd::Done(count) => count,
        LogEnd::Fault(_, _, index) => index,
    };
    let before = ran.before.min(count);
    &ran.log.entries[before..count]
}

/// The lines of these components, of which each has a tally.
fn put_members(
    text: &mut String,
    members: &[Member],
    tallies: &[Tally],
    new: &[LogEntry],
) -> Result<(), OutOfMemory>
    ensures { OnOk result (string_bytes text.new ≡ string_bytes text.old
        ++ spec.tallies_text (map log_entry new.now) 0 (map (λ m. m.name) (map member_code members.now)) (map own_names (map member_code members.now)) (map tally_of tallies.now)) }
{
    for who in 0..members.len() {
        if who < tallies.len() {
            put_member(text, &members[who], who, &tallies[who].entries, new)?;
        }
    }
    Ok(())
}

/// Those of the component of this number, whose own entries have been tried so.
fn put_member(
    text: &mut String,
    member: &Member,
    who: usize,
    tries: &[Tries],
    new: &[LogEntry],
) -> Result<(), OutOfMemory>
    ensures { OnOk result (string_bytes text.new ≡ string_bytes text.old
        ++ spec.entry_lines (map log_entry new.now) who (member_code member.now).name (own_names (member_code member.now)) tries.now) }
{
    let mut rest = tries;
    for entry in &member.entries {
        if !entry.kind.is_local() {
            continue;
        }
        let Some((first, others)) = rest.split_first() else {
            continue;
        };
        let name = entry.name.as_str();
        let performed = count_named(new, who, name);
        put_entry(text, member.name.as_str(), name, *first, performed)?;
        rest = others;
    }
    Ok(())
}

/// How many of these entries are actions of this worker with this name.
fn count_named(entries: &[LogEntry], who: usize, name: &str) -> usize
    ensures { result ≡ performed_named (map log_entry entries.now) who name.now }
{
    let mut count = 0;
    for entry in entries {
        if entry.who == who && entry.action.name.as_str() == name {
            count += 1;
        }
    }
    count
}

/// The line of an entry of this name.
fn put_entry(
    text: &mut String,
    component: &str,
    entry: &str,
    tries: Tries,
    performed: usize,
) -> Result<(), OutOfMemory>
    ensures { OnOk result (string_bytes text.new ≡ string_bytes text.old ++ spec.entry_line component.now entry.now tries performed) }
{
    write!(text, "{component}: {entry}: ")?;
    put_tries(text, tries, performed)?;
    put_performed(text, tries, performed)
}

/// How often it was tried, and how often nothing was proposed.
fn put_tries(text: &mut String, tries: Tries, performed: usize) -> Result<(), OutOfMemory>
    ensures { OnOk result (string_bytes text.new ≡ string_bytes text.old ++ spec.tries_text tries performed) }
{
    let Tries {
        no_proposal,
        proposal_faulted,
        not_enabled: _,
        stale: _,
    } = tries;
    let tried = tried_in(tries, performed);
    write!(
        text,
        "{tried} tried, {no_proposal} nothing proposed, {proposal_faulted} proposal faulted, "
    )?;
    Ok(())
}

/// How often what was proposed was not performed, and how often it was.
fn put_performed(text: &mut String, tries: Tries, performed: usize) -> Result<(), OutOfMemory>
    ensures { OnOk result (string_bytes text.new ≡ string_bytes text.old ++ spec.performed_text tries performed) }
{
    let Tries {
        no_proposal: _,
        proposal_faulted: _,
        not_enabled,
        stale,
    } = tries;
    writeln!(
        text,
        "{not_enabled} not enabled, {stale} stale, {performed} performed"
    )?;
    Ok(())
}

/// How often an entry was tried of which these came.
fn tried_in(tries: Tries, performed: usize) -> u128
    ensures { result ≡ spec.tried_in tries performed }
{
    u128::from(tries.no_proposal)
        + u128::from(tries.proposal_faulted)
        + u128::from(tries.not_enabled)
        + u128::from(tries.stale)
        + performed as u128
}

/// Puts a line for each input of the script that the environment did not perform behind the text.
pub(crate) fn put_left(text: &mut String, ran: &Ran) -> Result<(), OutOfMemory>
    ensures { OnOk result (string_bytes text.new ≡ string_bytes text.old
        ++ spec.left_text ran.now.program.types (spec.inputs_left (length (map (λ m. m.name) ran.now.program.members)) ran.now.reports.items (map act_of ran.now.script.items))) }
{
    let environment = ran.program.members().len();
    let left = inputs_left(&ran.reports, environment, &ran.script);
    put_inputs(text, ran.program.types(), left)
}

/// The inputs that the report of this number, the environment's, does not count as performed.
fn inputs_left<'a>(reports: &[Report], environment: usize, script: &'a [Action]) -> &'a [Action]
    ensures { map act_of result.now ≡ spec.inputs_left environment reports.now (map act_of script.now) }
{
    match reports.get(environment) {
        Some(report) => &script[report.committed.min(script.len())..],
        None => script,
    }
}

fn put_inputs(text: &mut String, types: &Types, inputs: &[Action]) -> Result<(), OutOfMemory>
    ensures { OnOk result (string_bytes text.new ≡ string_bytes text.old ++ spec.left_text types.now (map act_of inputs.now)) }
{
    for input in inputs {
        put_input(text, types, input)?;
    }
    Ok(())
}

fn put_input(text: &mut String, types: &Types, input: &Action) -> Result<(), OutOfMemory>
    ensures { OnOk result (string_bytes text.new ≡ string_bytes text.old ++ spec.left_line types.now (act_of input.now)) }
{
    text.push_str("environment: ")?;
    push_action(types, text, input)?;
    text.push_str(" was not performed\n")?;
    Ok(())
}
