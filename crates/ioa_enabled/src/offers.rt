//! What is told of an entry: which of the actions that chance may make it propose are enabled.

ghost use Rattle.std.specs.Prelude.{◌≡◌, ◌<◌, ◌+◌, ◌^◌, ℕ, List, IfOk, IfSome, map};
ghost use Rattle.ioa_compile.specs.Shown.{entry_code, member_code};
ghost use Rattle.ioa_parts.specs.Proposals.{values_in};
ghost use Rattle.ioa_run.specs.Choices.{IsOfState};
ghost use Rattle.ioa_enabled.specs.Offers.{IsPlaced, TellsOffer};
ghost use Rattle.ioa_enabled.specs.Sampled.{HasWays, shown};
ghost use Rattle.ioa_enabled.specs.Ways.{Values};

use crate::columns::columns;
use crate::combinations::combination;
use crate::guards::is_enabled;
use ioa_compile::{Entry, Member};
use ioa_node::{NodeState, Workspace};
use ioa_value::{Action, OutOfMemory, Value};
use std::alloc::Global;

/// The actions that are enabled among so many of the first that an entry may propose, and whether it may propose more.
#[derive(Drop)]
pub struct Offer {
    /// Those that are enabled, in the order of their combinations.
    pub enabled: Vec<Action>,
    /// Whether there are more combinations than those that were tried.
    pub more: bool,
}

/// Which of the first so many actions that chance may make the component's entry propose in this state are enabled.
///
/// It asks that the state is of the component's types. No more than so many and one words are tried for each value of the action.
pub fn offer_of(
    alloc: Global,
    workspace: &mut Workspace,
    member: &Member,
    entry: &Entry,
    state: &NodeState,
    most: u32,
) -> Result<Offer, OutOfMemory>
    requires ready { IsPlaced (member_code member.now) state.now }
    requires proposes { IfSome (entry_code entry.now).propose (IsOfState state.now) }
    requires few { most + 1 < 2 ^ 32 }
    ensures { IfOk result (λ o. (cs : List Values) → HasWays (entry_code entry.now) state.now.values cs
        → TellsOffer (member_code member.now) state.now.values (entry_code entry.now).name cs most o) }
{
    match columns(alloc, workspace, entry, state, most + 1)? {
        Some(values) => enabled_among(
            alloc,
            workspace,
            member,
            entry.name.as_str(),
            &values,
            state,
            most as usize,
        ),
        None => Ok(Offer {
            enabled: Vec::new(alloc),
            more: false,
        }),
    }
}

/// The same, by the values of each place.
fn enabled_among(
    alloc: Global,
    workspace: &mut Workspace,
    member: &Member,
    name: &str,
    columns: &[Vec<Value>],
    state: &NodeState,
    most: usize,
) -> Result<Offer, OutOfMemory>
    requires ready { IsPlaced (member_code member.now) state.now }
    ensures { IfOk result (λ o. (cs : List Values) → map values_in columns.now ≡ map (shown (most + 1)) cs
        → TellsOffer (member_code member.now) state.now.values name.now cs most o) }
{
    let mut enabled = Vec::new(alloc);
    for number in 0..most {
        let Some(vals) = combination(alloc, columns, number)? else {
            return Ok(Offer {
                enabled,
                more: false,
            });
        };
        let action = Action {
            name: String::from_str(alloc, name)?,
            vals,
        };
        if is_enabled(workspace, member, &action, state)? {
            enabled.push(action)?;
        }
    }
    let more = combination(alloc, columns, most)?.is_some();
    Ok(Offer { enabled, more })
}
