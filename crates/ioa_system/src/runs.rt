//! Runs over whole lists of actions, with their traces.

ghost use Rattle.std.specs.Prelude.{◌≡◌, IfOk, map};
ghost use Rattle.ioa_value.specs.Actions.{act_of};
ghost use Rattle.ioa_compile.specs.Subjects.{RunsAs, Subject};
ghost use Rattle.ioa_system.specs.Records.{IsRunAs};

use crate::outcomes::End;
use crate::runner::Runner;
use ioa_compile::Program;
use ioa_node::NodeState;
use ioa_value::{Action, OutOfMemory};
use std::alloc::Global;

/// A run over a list of actions, from the start states up to the first action that cannot be performed.
#[derive(Drop)]
pub struct Run {
    /// How many actions were performed.
    pub performed: usize,
    /// The components' states then reached, in order: of the types of the program's slots, as `System::of` asks for them.
    pub states: Vec<NodeState>,
    /// Why the run ended.
    pub end: End,
    /// The performed actions that are external, in order.
    pub trace: Vec<Action>,
}

/// The run of the program over the actions: of whatever it runs as.
pub fn run_list(alloc: Global, program: &Program, actions: &[Action]) -> Result<Run, OutOfMemory>
    ensures { IfOk result (λ r. (s : Subject) → RunsAs program.now s → IsRunAs program.now s (map act_of actions.now) r) }
{
    let mut runner = Runner::start(alloc, program)?;
    let mut trace = Vec::new(alloc);
    for action in actions {
        runner.record(alloc, action, &mut trace)?;
    }
    Ok(runner.into_run(trace))
}
