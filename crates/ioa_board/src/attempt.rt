//! Turns without plans: where nobody commits in between, an action is performed at once.

ghost use Rattle.std.specs.Prelude.{◌≡◌, IfOk, IsSome, OnErr};
ghost use Rattle.std.specs.String.{string_bytes};
ghost use Rattle.ioa_value.specs.Actions.{act_of};
ghost use Rattle.ioa_compile.specs.Sites.{sites_of};
ghost use Rattle.ioa_system.specs.Systems.{slot_types, types_of};
ghost use Rattle.ioa_board.specs.Attempted.{BoardAttempt, OwnStep, stopped_answer};
ghost use Rattle.ioa_board.specs.Wishes.{act_meant};

use crate::answer::Answer;
use crate::board::Board;
use crate::planned::Planned;
use crate::planning::plan_now;
use crate::wish::Wish;
use ioa_compile::Program;
use ioa_node::NodeState;
use ioa_sites::Site;
use ioa_system::{LogEntry, Participation, Step, Stepper};
use ioa_value::{Action, OutOfMemory};
use std::alloc::Global;
use std::mem;

/// Performs a worker's own action on the states of all components, or says why it cannot be performed; none where the action is another
/// worker's. All answers but `Next` change no state, and neither does a refusal of memory. It asks for the sites of the action's name.
pub(crate) fn own_step<'p>(
    stepper: &mut Stepper<'p>,
    program: &'p Program,
    sites: &[Site],
    who: usize,
    action: &Action,
    states: &mut Vec<NodeState>,
) -> Result<Option<Step>, OutOfMemory>
    requires sites { sites.now ≡ sites_of program.now (act_of action.now).name }
    requires types { types_of states.old.items ≡ slot_types program.now.members }
    ensures value { IfOk result (λ r. OwnStep program.now who (act_of action.now) states.old.items r states.new.items) }
    ensures types { types_of states.new.items ≡ types_of states.old.items }
    ensures memory { OnErr result (states.new.items ≡ states.old.items) }
{
    let participation = stepper.participation(program, sites, action)?;
    let step = step_by(stepper, &participation, who, states);
    stepper.give_back(participation);
    step
}

/// The same for an action that was looked up.
fn step_by(
    stepper: &mut Stepper<'_>,
    participation: &Participation<'_, '_>,
    who: usize,
    states: &mut [NodeState],
) -> Result<Option<Step>, OutOfMemory>
    requires { types_of states.old ≡ slot_types participation.now.program.members }
    ensures value { IfOk result (λ r. OwnStep participation.now.program who participation.now.action states.old r states.new) }
    ensures types { types_of states.new ≡ types_of states.old }
    ensures memory { OnErr result (states.new ≡ states.old) }
{
    if participation.participants().is_empty() {
        return Ok(Some(Step::NotAnAction));
    }
    if participation.worker() != who {
        return Ok(None);
    }
    let step = stepper.step(participation, states)?;
    Ok(Some(step))
}

/// This name, in the memory that is spare, which grows where it is too small.
pub(crate) fn spelled(alloc: Global, spare: &mut String, name: &str) -> Result<String, OutOfMemory>
    ensures { IfOk result (λ text. string_bytes text ≡ name.now) }
{
    let mut text = mem::replace(spare, String::new(alloc));
    text.clear();
    text.push_str(name)?;
    Ok(text)
}

/// Keeps the memory of the name of an action that was not performed.
pub(crate) fn keep_name(spare: &mut String, entry: LogEntry) {
    let mut entry = entry;
    mem::swap(spare, &mut entry.action.name);
}

/// What an attempt is answered where a fault is recorded: nothing is performed.
pub(crate) fn stopped_attempt<'p>(
    alloc: Global,
    board: &Board<'p>,
    who: usize,
    wish: Wish<'_>,
) -> Result<Answer, OutOfMemory>
    requires { IsSome board.now.board.failure }
    ensures { IfOk result (λ x. BoardAttempt board.now who (act_meant wish.entry) x board.now) }
{
    let action = wish.into_action(alloc)?;
    let planned = plan_now(alloc, board, who, action)?;
    Ok(answer_stopped(&planned))
}

/// The same, where planning the action answers this.
fn answer_stopped(planned: &Planned<'_>) -> Answer
    ensures { result ≡ stopped_answer planned.now }
{
    match planned {
        Planned::Ready(_) => Answer::Stopped,
        Planned::NotAnAction => Answer::NotAnAction,
        Planned::NotEnabled => Answer::NotEnabled,
        Planned::NotYours => Answer::NotYours,
    }
}
