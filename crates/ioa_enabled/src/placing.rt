//! States of a program's components, as states of its table.

ghost use Rattle.std.specs.Prelude.{◌≡◌, ◌↔◌, IfNone, IfOk, IfSome, IsTrue, length, map};
ghost use Rattle.ioa_value.specs.Plain.{number, plain};
ghost use Rattle.ioa_value.specs.Typing.{HaveTypes};
ghost use Rattle.ioa_compile.specs.Shown.{member_code};
ghost use Rattle.ioa_system.specs.Systems.{slots_of};
ghost use Rattle.ioa_enabled.specs.Placed.{AreOfMember};

use ioa_compile::Member;
use ioa_node::{NodeState, from_values};
use ioa_value::{OutOfMemory, Ty, Types, Value, has_type};
use std::alloc::Global;

/// The state of a component in which its variables have these values, where they are of the variables' types.
pub(crate) fn placed(
    alloc: Global,
    member: &Member,
    values: &[Value],
) -> Result<Option<NodeState>, OutOfMemory>
    ensures some { IfOk result (λ r. IfSome r (λ n. slots_of n ≡ slots_of (member_code member.now).start)) }
    ensures values { IfOk result (λ r. IfSome r (λ n. n.values ≡ map plain values.now)) }
    ensures none { IfOk result (λ r. IfNone r (AreOfMember (member_code member.now) (map plain values.now) → ⊥)) }
{
    let types = member.start.declared();
    let own = member.start.types();
    if !have_types(types, values, own) {
        return Ok(None);
    }
    let state = from_values(alloc, types, own, values)?;
    Ok(Some(state))
}

/// Whether each value is of the type in its place.
fn have_types(types: &Types, values: &[Value], own: &[Ty]) -> bool
    ensures { IsTrue result ↔ HaveTypes types.now (map plain values.now) (map number own.now) }
{
    if values.len() != own.len() {
        return false;
    }
    for i in 0..values.len() {
        if !has_type(types, &values[i], own[i]) {
            return false;
        }
    }
    true
}
