//! Monitors: specifications that accept actions.

ghost use Rattle.std.specs.Prelude.{◌≡◌, ◌||◌, false, true, IfErr, OnOk, map, None};
ghost use Rattle.std.specs.List.{list_any};
ghost use Rattle.ioa_value.specs.Actions.{act_of};
ghost use Rattle.ioa_compile.specs.Shown.{entry_code, member_code};
ghost use Rattle.ioa_compile.specs.Subjects.{RunsAs, Subject, its_components, its_starts};
ghost use Rattle.ioa_monitor.specs.Monitoring as spec;
ghost use Rattle.ioa_monitor.specs.Monitoring.{IsClosed, IsOpen, IsRefusal, monitored};

use ioa_compile::{Entry, Member, Program};
use ioa_system::{Step, System};
use ioa_tree::Kind;
use ioa_value::{Action, OutOfMemory};
use std::alloc::Global;
use thiserror::Error;

/// Why a specification does not accept actions.
#[derive(Clone, Copy, Debug, PartialEq, Eq, Error)]
pub enum MonitorErr {
    /// An entry of the specification is internal, or a name is hidden: it is none to monitor by.
    #[error("the specification has internal actions")]
    SpecHasInternal,
    /// The action of this index in the whole list is the first that it does not perform.
    #[error("not accepted at {index}")]
    At { index: usize, answer: Step },
    /// A growth of memory was refused.
    #[error("memory")]
    OutOfMemory,
}

/// Whether a specification accepts actions: whether it performs those of them that its components have, in order.
///
/// # Errors
/// `SpecHasInternal`; `At` of the first action that is not performed, with its answer; `OutOfMemory`.
pub fn monitor(alloc: Global, program: &Program, actions: &[Action]) -> Result<(), MonitorErr>
    ensures accepted { OnOk result ((s : Subject) → RunsAs program.now s → IsOpen s × (monitored (its_components s) (map act_of actions.now) (its_starts s) ≡ None)) }
    ensures refused { IfErr result (λ e. (s : Subject) → RunsAs program.now s → IsRefusal e s (monitored (its_components s) (map act_of actions.now) (its_starts s))) }
{
    if hides_actions(program) {
        return Err(MonitorErr::SpecHasInternal);
    }
    let mut system = System::start(alloc, program)?;
    for index in 0..actions.len() {
        let answer = system.step(&actions[index])?;
        match answer {
            Step::Next | Step::NotAnAction => {}
            Step::NotEnabled | Step::Fault(_, _) => return Err(MonitorErr::At { index, answer }),
        }
    }
    Ok(())
}

impl From<OutOfMemory> for MonitorErr {
    ghost use Rattle.std.specs.Prelude.{◌≡◌};
    ghost use Rattle.ioa_monitor.specs.declared.monitors.MonitorErr.TheVariants as errors;

    ghost from_gives = { λ _ e. e ≡ errors.OutOfMemory };

    fn from(_error: OutOfMemory) -> MonitorErr {
        MonitorErr::OutOfMemory
    }
}

/// Whether an entry is internal, or a name is hidden: then not all that the specification does is seen, and it is none to monitor by.
pub fn hides_actions(program: &Program) -> bool
    ensures table { result ≡ spec.hides program.now }
    ensures open { result ≡ false → (s : Subject) → RunsAs program.now s → IsOpen s }
    ensures closed { result ≡ true → (s : Subject) → RunsAs program.now s → IsClosed s }
{
    has_internal(program.members()) || !program.hidden().is_empty()
}

fn has_internal(members: &[Member]) -> bool
    ensures { result ≡ list_any (λ m. list_any (λ e. spec.is_internal e.kind) m.entries) (map member_code members.now) }
{
    for member in members {
        if keeps_inside(&member.entries) {
            return true;
        }
    }
    false
}

fn keeps_inside(entries: &[Entry]) -> bool
    ensures { result ≡ list_any (λ e. spec.is_internal e.kind) (map entry_code entries.now) }
{
    for entry in entries {
        if entry.kind == Kind::Internal {
            return true;
        }
    }
    false
}
