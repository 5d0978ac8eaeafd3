//! A specification that is handed actions one after another.

ghost use Rattle.std.specs.Prelude.{◌≡◌, ◌++◌, ◌∷◌, ◌<◌, ◌-◌, ◌^◌, [], List, None, IfOk, OnOk};
ghost use Rattle.ioa_value.specs.Actions.{Act, act_of};
ghost use Rattle.ioa_compile.specs.Programs.{Prog};
ghost use Rattle.ioa_monitor.specs.Watching.{HasWatched};

use ioa_compile::Program;
use ioa_system::{End, Step, System};
use ioa_value::{Action, OutOfMemory};
use std::alloc::Global;

/// A specification on its way, which performs those of the actions that its components have.
#[derive(Drop)]
pub struct Watch<'a> {
    pub system: System<'a>,
    /// How many actions came before the one that is not accepted.
    pub count: usize,
    /// Why that one is not accepted. No later one is performed.
    pub answer: Option<End>,
}

impl<'a> Watch<'a> {
    /// Before the first action.
    pub fn start(alloc: Global, program: &'a Program) -> Result<Watch<'a>, OutOfMemory>
        ensures { IfOk result (HasWatched program.now []) }
    {
        Ok(Watch {
            system: System::start(alloc, program)?,
            count: 0,
            answer: None,
        })
    }

    /// Hands on the next action. Behind one that is not accepted it is passed over.
    pub fn follow(&mut self, action: &Action) -> Result<(), OutOfMemory>
        requires { self.old.count < 2 ^ 64 - 1 }
        ensures { OnOk result ((p : Prog) (acts : List Act) → HasWatched p acts self.old → HasWatched p (acts ++ act_of action.now ∷ []) self.new) }
    {
        match self.answer {
            Some(_) => Ok(()),
            None => self.perform(action),
        }
    }

    /// Performs the next action, where some component has it.
    fn perform(&mut self, action: &Action) -> Result<(), OutOfMemory>
        requires { self.old.count < 2 ^ 64 - 1 }
        ensures { OnOk result ((p : Prog) (acts : List Act) → HasWatched p acts self.old → self.old.answer ≡ None
            → HasWatched p (acts ++ act_of action.now ∷ []) self.new) }
    {
        let step = self.system.step(action)?;
        match step {
            Step::Next | Step::NotAnAction => self.count += 1,
            Step::NotEnabled => self.answer = Some(End::NotEnabled(self.count)),
            Step::Fault(component, fault) => {
                self.answer = Some(End::Fault(component, fault, self.count));
            }
        }
        Ok(())
    }

    /// Why the first of the actions so far that is not accepted is not, if there is one: with its index.
    pub fn answer(&self) -> Option<End>
        ensures { result ≡ self.now.answer }
    {
        self.answer
    }
}
