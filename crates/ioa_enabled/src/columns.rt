//! The values that chance may put in one place of an entry's action, in the order of their numbers.

ghost use Rattle.std.specs.Prelude.{◌≡◌, ◌<◌, ◌%◌, ℕ, List, Some, IfNone, IfOk, IfSome, false, map, slice_get};
ghost use Rattle.std.specs.Option.{option_map, option_map_or};
ghost use Rattle.ioa_value.specs.Plain.{plain};
ghost use Rattle.ioa_value.specs.Same as equal;
ghost use Rattle.ioa_parts.specs.Proposals.{values_in};
ghost use Rattle.ioa_compile.specs.Shown.{entry_code};
ghost use Rattle.ioa_run.specs.Choices.{IsOfState};
ghost use Rattle.ioa_enabled.specs.Sampled.{NeverAgain, HasWays, sampled_at, shown};
ghost use Rattle.ioa_enabled.specs.Ways.{Values, total};

use crate::samples::sampled;
use ioa_compile::Entry;
use ioa_node::{NodeState, Workspace};
use ioa_value::{OutOfMemory, Value, same};
use std::alloc::Global;

/// The values of each place of the entry's action, or the first so many of them; no place, where the entry's code gives no action.
///
/// It asks that the code is a proposal's, over the state's types.
pub(crate) fn columns(
    alloc: Global,
    workspace: &mut Workspace,
    entry: &Entry,
    state: &NodeState,
    most: u32,
) -> Result<Option<Vec<Vec<Value>>>, OutOfMemory>
    requires { IfSome (entry_code entry.now).propose (IsOfState state.now) }
    ensures some { IfOk result (λ r. IfSome r (λ all. (cs : List Values) → HasWays (entry_code entry.now) state.now.values cs → map values_in all.items ≡ map (shown most) cs)) }
    ensures none { IfOk result (λ r. IfNone r ((cs : List Values) → HasWays (entry_code entry.now) state.now.values cs → total cs ≡ 0)) }
{
    let Some(first) = sampled(alloc, workspace, entry, state, 0)? else {
        return Ok(None);
    };
    let mut all = Vec::new(alloc);
    for place in 0..first.vals.len() {
        let values = column(alloc, workspace, entry, state, place, most)?;
        all.push(values)?;
    }
    Ok(Some(all))
}

/// The values of this place, or the first so many of them. The words 0, 1, 2 and so on give them in their order, and then the first one again.
fn column(
    alloc: Global,
    workspace: &mut Workspace,
    entry: &Entry,
    state: &NodeState,
    place: usize,
    most: u32,
) -> Result<Vec<Value>, OutOfMemory>
    requires { IfSome (entry_code entry.now).propose (IsOfState state.now) }
    ensures { IfOk result (λ r. (c : Values) → 0 < c.count → NeverAgain c → ((word : ℕ) → sampled_at (entry_code entry.now) state.now.values place word ≡ Some (c.value (word % c.count)))
        → map plain r.items ≡ shown most c) }
{
    let mut values = Vec::new(alloc);
    for word in 0..most {
        let Some(value) = value_at(alloc, workspace, entry, state, place, word)? else {
            return Ok(values);
        };
        if is_first(&values, &value) {
            return Ok(values);
        }
        values.push(value)?;
    }
    Ok(values)
}

/// The value in this place of the action that the entry's code gives where each word is this one.
fn value_at(
    alloc: Global,
    workspace: &mut Workspace,
    entry: &Entry,
    state: &NodeState,
    place: usize,
    word: u32,
) -> Result<Option<Value>, OutOfMemory>
    requires { IfSome (entry_code entry.now).propose (IsOfState state.now) }
    ensures { IfOk result (λ r. option_map plain r ≡ sampled_at (entry_code entry.now) state.now.values place word) }
{
    let Some(action) = sampled(alloc, workspace, entry, state, word)? else {
        return Ok(None);
    };
    match action.vals.get(place) {
        Some(value) => Ok(Some(value.try_copy(alloc)?)),
        None => Ok(None),
    }
}

/// Whether the value is the first one of these.
fn is_first(values: &[Value], value: &Value) -> bool
    ensures { result ≡ option_map_or (λ v. equal.same v (plain value.now)) (slice_get (map plain values.now) 0) false }
{
    match values.first() {
        Some(first) => same(first, value),
        None => false,
    }
}
