//! What effects take over runs of a program.

ghost use Rattle.std.specs.Prelude.{◌≡◌, All, OnOk, map};
ghost use Rattle.ioa_value.specs.Actions.{act_of};
ghost use Rattle.ioa_system.specs.Systems.{slot_types, types_of, values_of};
ghost use Rattle.ioa_coverage.specs.Counts.{entered};
ghost use Rattle.ioa_coverage.specs.Effects.{HasPlaces, MayTake, counts_of, effect_of, taken_at, taken_by_run};
ghost use Rattle.ioa_coverage.specs.Following.{with_marks};

use crate::effect::Effect;
use ioa_compile::Program;
use ioa_node::NodeState;
use ioa_system::{LogEntry, Step, System};
use ioa_value::{Action, OutOfMemory};
use std::alloc::Global;

/// Counts what the effects take over a run of the program from its start by the actions of these entries of a log, up to the first that is not performed.
pub(crate) fn take_run(
    alloc: Global,
    program: &Program,
    effects: &mut [Effect<'_>],
    log: &[LogEntry],
) -> Result<(), OutOfMemory>
    requires may { All (λ x. MayTake program.now (effect_of x)) effects.old }
    requires places { All HasPlaces effects.old }
    ensures effects { OnOk result (map effect_of effects.new ≡ map effect_of effects.old) }
    ensures places { OnOk result (All HasPlaces effects.new) }
    ensures counts { OnOk result (map counts_of effects.new
        ≡ map (λ x. with_marks (counts_of x) (taken_by_run program.now (effect_of x) (entered log.now))) effects.old) }
{
    if effects.is_empty() {
        return Ok(());
    }
    // (an effect takes what it does in the states before the step, and only where this is performed: so of two systems one is a step ahead)
    let mut before = System::start(alloc, program)?;
    let mut after = System::start(alloc, program)?;
    for entry in log {
        match after.step(&entry.action)? {
            Step::Next => {
                take_all(alloc, program, effects, &entry.action, before.states())?;
                before.step(&entry.action)?;
            }
            Step::NotAnAction | Step::NotEnabled | Step::Fault(_, _) => return Ok(()),
        }
    }
    Ok(())
}

/// Counts what each of the effects takes by an action, from these states of all components.
fn take_all(
    alloc: Global,
    program: &Program,
    effects: &mut [Effect<'_>],
    action: &Action,
    states: &[NodeState],
) -> Result<(), OutOfMemory>
    requires may { All (λ x. MayTake program.now (effect_of x)) effects.old }
    requires places { All HasPlaces effects.old }
    requires types { types_of states.now ≡ slot_types program.now.members }
    ensures effects { OnOk result (map effect_of effects.new ≡ map effect_of effects.old) }
    ensures places { OnOk result (All HasPlaces effects.new) }
    ensures counts { OnOk result (map counts_of effects.new
        ≡ map (λ x. with_marks (counts_of x) (taken_at (effect_of x) (act_of action.now) (values_of states.now))) effects.old) }
{
    for index in 0..effects.len() {
        effects[index].take(alloc, action, states)?;
    }
    Ok(())
}
