//! Runs that are handed one action after another, as lists and logs are read.

ghost use Rattle.std.specs.Prelude.{◌≡◌, ◌++◌, ◌∷◌, [], List, IfOk, OnErr, OnOk, if◌then◌else◌, map};
ghost use Rattle.ioa_value.specs.Actions.{Act, act_of};
ghost use Rattle.ioa_compile.specs.Programs.{Prog};
ghost use Rattle.ioa_system.specs.Progress.{CountsOneMore, IsRunOver, next_worker};
ghost use Rattle.ioa_system.specs.Records.{IsTableRun};
ghost use Rattle.ioa_system.specs.Systems.{slot_types, types_of, values_of};

use crate::outcomes::End;
use crate::runs::Run;
use crate::system::System;
use ioa_compile::Program;
use ioa_node::NodeState;
use ioa_value::{Action, OutOfMemory};
use std::alloc::Global;
use std::marker::Model;

/// What a run makes of an action that it is handed.
#[derive(Clone, Copy)]
pub struct RunStep {
    /// The number of the action's worker. Where the run had ended before, none is looked for.
    pub worker: Option<usize>,
    /// Whether the trace goes on with the action: whether it is performed and external.
    pub traced: bool,
}

/// A run from the start states whose actions come one by one: up to the first that cannot be performed.
#[derive(Drop)]
pub struct Runner<'a> {
    system: System<'a>,
    end: End,
}

impl<'a> Model for Runner<'a> {
    ghost use Rattle.ioa_system.specs.Progress.{Progress, coded_progress};

    ghost Value = { Progress };

    ghost coded = { coded_progress };

    ghost view = { λ r. record { program = r.system.program; states = r.system.states; end = r.end } };
}

impl<'a> Runner<'a> {
    /// The run over no action.
    pub fn start(alloc: Global, program: &'a Program) -> Result<Runner<'a>, OutOfMemory>
        ensures { IfOk result (IsRunOver program.now [] []) }
    {
        Ok(Runner {
            system: System::start(alloc, program)?,
            end: End::Done(0),
        })
    }

    /// Hands the run its next action, and says whose work it is and whether the trace goes on with it. Where the run has ended,
    /// nothing changes. A refusal of memory changes nothing.
    pub fn take(&mut self, action: &Action) -> Result<RunStep, OutOfMemory>
        requires { CountsOneMore self.old.end }
        ensures run { IfOk result (λ t. (p : Prog) (acts traced : List Act) → IsRunOver p acts traced self.old
            → IsRunOver p (acts ++ act_of action.now ∷ []) (traced ++ (if t.traced then act_of action.now ∷ [] else [])) self.new) }
        ensures worker { IfOk result (λ t. t.worker ≡ next_worker self.old (act_of action.now)) }
        ensures memory { OnErr result (self.new ≡ self.old) }
    {
        let End::Done(count) = self.end else {
            return Ok(RunStep {
                worker: None,
                traced: false,
            });
        };
        let performed = self.system.perform(action)?;
        let (end, traced) = match performed.step.end_at(count) {
            Some(end) => (end, false),
            None => (End::Done(count + 1), performed.external),
        };
        self.end = end;
        Ok(RunStep {
            worker: Some(performed.worker),
            traced,
        })
    }

    /// Hands the run its next action, and puts an equal of it at the trace's end where the trace goes on with it. The answer is the
    /// action's worker, where one is looked for. A refusal of memory changes neither the run nor the trace.
    pub fn record(
        &mut self,
        alloc: Global,
        action: &Action,
        trace: &mut Vec<Action>,
    ) -> Result<Option<usize>, OutOfMemory>
        requires { CountsOneMore self.old.end }
        ensures run { OnOk result ((p : Prog) (acts : List Act) → IsRunOver p acts (map act_of trace.old.items) self.old
            → IsRunOver p (acts ++ act_of action.now ∷ []) (map act_of trace.new.items) self.new) }
        ensures worker { IfOk result (λ worker. worker ≡ next_worker self.old (act_of action.now)) }
        ensures memory { OnErr result (self.new ≡ self.old) }
        ensures trace { OnErr result (trace.new.items ≡ trace.old.items) }
    {
        // (all memory is found before the run goes on)
        let copy = action.try_copy(alloc)?;
        trace.reserve(1)?;
        let taken = self.take(action)?;
        if taken.traced {
            trace.push_reserved(copy);
        }
        Ok(taken.worker)
    }

    /// The components' states that are reached, in order.
    pub fn states(&self) -> &[NodeState]
        ensures values { values_of result.now ≡ self.now.states }
        ensures types { types_of result.now ≡ slot_types self.now.program.members }
    {
        self.system.states()
    }

    /// How the run over the actions so far ends.
    pub fn end(&self) -> End
        ensures { result ≡ self.now.end }
    {
        self.end
    }

    /// The components' states that are reached, in order, without the run.
    pub fn into_states(self) -> Vec<NodeState>
        ensures values { values_of result.items ≡ self.entry.states }
        ensures types { types_of result.items ≡ slot_types self.entry.program.members }
    {
        self.system.into_states()
    }

    /// The run over the actions so far, with the trace that was recorded.
    pub fn into_run(self, trace: Vec<Action>) -> Run
        ensures { (p : Prog) (acts : List Act) → IsRunOver p acts (map act_of trace.items) self.entry → IsTableRun p acts result }
    {
        let end = self.end;
        Run {
            performed: end.performed(),
            states: self.into_states(),
            end,
            trace,
        }
    }
}
