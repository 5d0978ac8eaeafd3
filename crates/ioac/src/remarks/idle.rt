//! Which actions of its components a run never performed.

ghost use Rattle.std.specs.Prelude.{◌≡◌, ◌++◌, OnOk, Some, map};
ghost use Rattle.std.specs.List.{list_any};
ghost use Rattle.std.specs.String.{string_bytes};
ghost use Rattle.ioa_system.specs.Logs.{log_entry};
ghost use Rattle.ioac.specs.Idle as spec;

use ioa_compose::Member;
use ioa_system::LogEntry;
use ioa_tree::Entry;
use ioa_value::OutOfMemory;
use std::fmt::Write;

/// Puts each output and internal action of a component that none of the log's entries is, on a line each.
pub fn put_idle(text: &mut String, members: &[Member], log: &[LogEntry]) -> Result<(), OutOfMemory>
    ensures { OnOk result (string_bytes text.new ≡ string_bytes text.old ++ spec.idle_text (map log_entry log.now) 0 members.now) }
{
    let mut who = 0;
    for member in members {
        put_member(text, member, who, log)?;
        who += 1;
    }
    Ok(())
}

/// Puts those of the component of this number.
fn put_member(
    text: &mut String,
    member: &Member,
    who: usize,
    log: &[LogEntry],
) -> Result<(), OutOfMemory>
    ensures { OnOk result (string_bytes text.new ≡ string_bytes text.old ++ spec.member_idle (map log_entry log.now) who member.now) }
{
    for entry in &member.automaton.entries {
        put_entry(text, member.name.as_str(), entry, who, log)?;
    }
    Ok(())
}

fn put_entry(
    text: &mut String,
    component: &str,
    entry: &Entry,
    who: usize,
    log: &[LogEntry],
) -> Result<(), OutOfMemory>
    ensures { OnOk result (string_bytes text.new ≡ string_bytes text.old ++ spec.entry_idle (map log_entry log.now) who component.now entry.now) }
{
    let name = entry.name.text.as_str();
    if entry.kind.is_local() && !is_performed(log, who, name) {
        writeln!(text, "no `{name}` of {component} was performed")?;
    }
    Ok(())
}

/// Whether this worker has performed an action of this name.
fn is_performed(log: &[LogEntry], who: usize, name: &str) -> bool
    ensures { result ≡ list_any (spec.is_of who name.now) (map log_entry log.now) }
{
    for entry in log {
        if entry.who == who && entry.action.name.as_str() == name {
            return true;
        }
    }
    false
}
