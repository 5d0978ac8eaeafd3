//! Whether an action is enabled: whether its component performs it by itself, and its precondition is true.

ghost use Rattle.std.specs.Prelude.{◌≡◌, Some, IfOk};
ghost use Rattle.std.specs.Option.{option_map};
ghost use Rattle.ioa_value.specs.Actions.{act_of};
ghost use Rattle.ioa_compile.specs.Shown.{entry_code, member_code};
ghost use Rattle.ioa_compile.specs.Tables as tables;
ghost use Rattle.ioa_compile.specs.Tables.{AreEntries, table_component};
ghost use Rattle.ioa_system.specs.Systems.{slots_of};
ghost use Rattle.ioa_enabled.specs.Ways as spec;

use ioa_compile::{Entry, Member};
use ioa_node::{NodeState, Workspace, enabled_with};
use ioa_value::{Action, OutOfMemory, all_take};

/// Whether the action is enabled in this state of the component.
///
/// It asks that the state is of the component's types.
pub(crate) fn is_enabled(
    workspace: &mut Workspace,
    member: &Member,
    action: &Action,
    state: &NodeState,
) -> Result<bool, OutOfMemory>
    requires sound { AreEntries (member_code member.now) (member_code member.now).entries }
    requires slots { slots_of state.now ≡ slots_of (member_code member.now).start }
    ensures { IfOk result (λ r. r ≡ spec.is_enabled (table_component (member_code member.now)) state.now.values (act_of action.now)) }
{
    match entry_of(member, action) {
        Some(entry) if entry.kind.is_local() => { allows(workspace, member, entry, action, state) }
        _ => Ok(false),
    }
}

/// Whether the entry's precondition is true. An entry without one allows its action.
fn allows(
    workspace: &mut Workspace,
    member: &Member,
    entry: &Entry,
    action: &Action,
    state: &NodeState,
) -> Result<bool, OutOfMemory>
    requires sound { AreEntries (member_code member.now) (member_code member.now).entries }
    requires found { tables.entry_of (member_code member.now) (act_of action.now) ≡ Some (entry_code entry.now) }
    requires slots { slots_of state.now ≡ slots_of (member_code member.now).start }
    ensures { IfOk result (λ r. r ≡ spec.is_yes ((table_component (member_code member.now)).guard (act_of action.now) state.now.values)) }
{
    match &entry.pre {
        Some(code) => match enabled_with(workspace, code, state, &action.vals)? {
            Ok(holds) => Ok(holds),
            Err(_) => Ok(false),
        },
        None => Ok(true),
    }
}

/// The component's entry that has the action.
fn entry_of<'a>(member: &'a Member, action: &Action) -> Option<&'a Entry>
    ensures { option_map (λ e. entry_code e.now) result ≡ tables.entry_of (member_code member.now) (act_of action.now) }
{
    for entry in &member.entries {
        if has(member, entry, action) {
            return Some(entry);
        }
    }
    None
}

/// Whether the entry has the action.
fn has(member: &Member, entry: &Entry, action: &Action) -> bool
    ensures { result ≡ tables.is_in (member_code member.now).start.table (act_of action.now) (entry_code entry.now) }
{
    entry.name.as_str() == action.name.as_str()
        && all_take(member.start.declared(), &entry.positions, &action.vals)
}
