//! What an entry's code gives where each word of chance is the same.

ghost use Rattle.std.specs.Prelude.{◌≡◌, IfOk, IfSome, map};
ghost use Rattle.std.specs.Option.{option_map};
ghost use Rattle.ioa_value.specs.Actions.{act_of};
ghost use Rattle.ioa_value.specs.Plain.{plain};
ghost use Rattle.ioa_value.specs.Positions.{domain_of};
ghost use Rattle.ioa_compile.specs.Shown.{entry_code};
ghost use Rattle.ioa_run.specs.Choices.{IsOfState};
ghost use Rattle.ioa_run.specs.Proposers.{filled};
ghost use Rattle.ioa_enabled.specs.Sampled as spec;

use ioa_compile::Entry;
use ioa_node::{NodeState, Words, Workspace, propose_with};
use ioa_value::{Action, OutOfMemory, Position, Value};
use std::alloc::Global;
use std::mem;

/// Words that are all the same.
#[derive(Drop)]
struct Constant {
    word: u32,
}

impl Words for Constant {
    ghost use Rattle.ioa_enabled.specs.Sampled.{each_word};

    ghost stream = { λ c. each_word c.word };

    fn next(&mut self) -> u32 {
        self.word
    }
}

/// The action that the entry's code gives in this state where each word is this one, if it gives one.
///
/// It asks that the code is a proposal's, over the state's types.
pub(crate) fn sampled(
    alloc: Global,
    workspace: &mut Workspace,
    entry: &Entry,
    state: &NodeState,
    word: u32,
) -> Result<Option<Action>, OutOfMemory>
    requires { IfSome (entry_code entry.now).propose (IsOfState state.now) }
    ensures { IfOk result (λ r. option_map act_of r ≡ spec.sampled (entry_code entry.now) state.now.values word) }
{
    let Some(code) = &entry.propose else {
        return Ok(None);
    };
    let mut words = Constant { word };
    let Some(values) = propose_with(alloc, workspace, code, state, &mut words)? else {
        return Ok(None);
    };
    Ok(Some(Action {
        name: entry.name.clone()?,
        vals: fill(alloc, &entry.positions, values)?,
    }))
}

/// These values, each in its place among equals of the constants.
fn fill(
    alloc: Global,
    positions: &[Position],
    mut values: Vec<Value>,
) -> Result<Vec<Value>, OutOfMemory>
    ensures { IfOk result (λ all. map plain all.items ≡ filled (map domain_of positions.now) (map plain values.items)) }
{
    let mut all = Vec::with_capacity(alloc, positions.len())?;
    let mut used = 0;
    for position in positions {
        match position {
            Position::Constant(value) => all.push(value.try_copy(alloc)?)?,
            Position::Typed(_) => {
                if used < values.len() {
                    all.push(mem::replace(&mut values[used], Value::Truth(false)))?;
                    used += 1;
                }
            }
        }
    }
    Ok(all)
}
