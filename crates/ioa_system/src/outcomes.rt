//! What comes of a step, and of a run: that an action is performed, or what keeps it from that.

ghost use Rattle.std.specs.Prelude.{◌≡◌, List, Some, IfSome, IfNone};
ghost use Rattle.ioa_value.specs.Plain.{Val};
ghost use Rattle.ioa_tree.specs.Runs.{Reached, after};
ghost use Rattle.ioa_system.specs.declared.outcomes.Step.TheVariants as variants;
ghost use Rattle.ioa_system.specs.Outcomes.{KeepsUnlessNext, ending_of, performed_by, step_of};
ghost use Rattle.ioa_system.specs.Endings.{ending_text};

use ioa_node::NodeState;
use ioa_value::Fault;
use std::fmt;

/// What a step from the participants' states answers.
#[derive(Drop)]
pub enum Moved {
    /// The new states of the participants, in order.
    Next(Vec<NodeState>),
    /// No component has the action.
    NotAnAction,
    /// The owner's precondition does not hold.
    NotEnabled,
    /// The component of this number faults.
    Fault(usize, Fault),
}

/// What a step of all components answers.
#[derive(Clone, Copy, Debug, PartialEq, Eq)]
pub enum Step {
    /// The action was performed: the new states stand.
    Next,
    /// No component has the action.
    NotAnAction,
    /// The owner's precondition does not hold.
    NotEnabled,
    /// The component of this number faults.
    Fault(usize, Fault),
}

impl Step {
    /// The end that this answer to the action of this index makes of a run, where the action is not performed.
    pub fn end_at(self, index: usize) -> Option<End>
        ensures some { IfSome result (λ end. (ss ts : List (List Val)) → (more : List (List Val) → Reached (List Val))
            → after index ss (step_of self ts) more ≡ record { performed = index; states = ss; ending = ending_of end }) }
        ensures performed { IfSome result (λ end. performed_by end ≡ index) }
        ensures kept { IfSome result (λ _. (ss ts : List (List Val)) → KeepsUnlessNext self ss ts → ts ≡ ss) }
        ensures none { IfNone result (self ≡ variants.Next) }
    {
        match self {
            Step::Next => None,
            Step::NotAnAction => Some(End::NotAnAction(index)),
            Step::NotEnabled => Some(End::NotEnabled(index)),
            Step::Fault(component, fault) => Some(End::Fault(component, fault, index)),
        }
    }
}

/// How a run over a list of actions ends. Actions are counted from 0.
#[derive(Clone, Copy, Debug, PartialEq, Eq)]
pub enum End {
    /// All actions are performed: so many.
    Done(usize),
    /// No component has the action of this index.
    NotAnAction(usize),
    /// The action of this index is not enabled.
    NotEnabled(usize),
    /// The component faults at the action of this index.
    Fault(usize, Fault, usize),
}

impl End {
    /// How many actions were performed.
    pub fn performed(self) -> usize
        ensures { result ≡ performed_by self }
    {
        match self {
            End::Done(count) => count,
            End::NotAnAction(index) | End::NotEnabled(index) | End::Fault(_, _, index) => index,
        }
    }
}

impl fmt::Display for End {
    ghost output = { λ end. Some (ending_text (ending_of end)) };

    fn fmt<W: fmt::Write>(&self, f: &mut fmt::Formatter<W>) -> fmt::Result {
        match *self {
            End::Done(count) => write!(f, "done after {count}"),
            End::NotAnAction(index) => write!(f, "not an action at {index}"),
            End::NotEnabled(index) => write!(f, "not enabled at {index}"),
            End::Fault(component, fault, index) => {
                let number = fault.number();
                write!(f, "fault {number} in component {component} at {index}")
            }
        }
    }
}
