//! Which workers of a run on threads are linked: those that share an action.

ghost use Rattle.std.specs.Prelude.{◌≡◌, map};
ghost use Rattle.std.specs.List.{list_any};
ghost use Rattle.ioa_value.specs.Actions.{act_of};
ghost use Rattle.ioa_compile.specs.Shown.{entry_code, member_code};
ghost use Rattle.ioa_compile.specs.Tables.{is_in};
ghost use Rattle.ioa_serving.specs.Links as spec;

use ioa_compile::{Entry, Member, Program};
use ioa_value::{Action, Types, all_meet, all_take};

/// Whether these workers are linked: two components that have an action in common, or the environment and one that has an action of the script.
pub(crate) fn are_linked(program: &Program, script: &[Action], worker: usize, other: usize) -> bool
    ensures { result ≡ spec.are_linked program.now (map act_of script.now) worker other }
{
    let types = program.types();
    let members = program.members();
    match (members.get(worker), members.get(other)) {
        (Some(one), Some(other)) => have_common(types, one, other),
        (None, Some(other)) => is_acted_on(types, other, script),
        (Some(_), None) | (None, None) => false,
    }
}

/// Whether some action is of both components.
fn have_common(types: &Types, one: &Member, other: &Member) -> bool
    ensures { result ≡ spec.have_common types.now (member_code one.now) (member_code other.now) }
{
    for entry in &one.entries {
        if has_of(types, other, entry) {
            return true;
        }
    }
    false
}

/// Whether some action is in this entry, and is the component's.
fn has_of(types: &Types, member: &Member, entry: &Entry) -> bool
    ensures { result ≡ spec.has_of types.now (member_code member.now) (entry_code entry.now) }
{
    for other in &member.entries {
        if share(types, entry, other) {
            return true;
        }
    }
    false
}

/// Whether some action is in both entries.
fn share(types: &Types, entry: &Entry, other: &Entry) -> bool
    ensures { result ≡ spec.share types.now (entry_code entry.now) (entry_code other.now) }
{
    entry.name == other.name && all_meet(types, &entry.positions, &other.positions)
}

/// Whether an action of the script is the component's.
fn is_acted_on(types: &Types, member: &Member, script: &[Action]) -> bool
    ensures { result ≡ list_any (spec.takes_part types.now (member_code member.now)) (map act_of script.now) }
{
    for action in script {
        if takes_part(types, member, action) {
            return true;
        }
    }
    false
}

/// Whether the component has this action.
fn takes_part(types: &Types, member: &Member, action: &Action) -> bool
    ensures { result ≡ spec.takes_part types.now (member_code member.now) (act_of action.now) }
{
    for entry in &member.entries {
        if has(types, entry, action) {
            return true;
        }
    }
    false
}

/// Whether the action is in the entry.
fn has(types: &Types, entry: &Entry, action: &Action) -> bool
    ensures { result ≡ is_in types.now (act_of action.now) (entry_code entry.now) }
{
    entry.name == action.name && all_take(types, &entry.positions, &action.vals)
}
