//! The step of a composition: its owner's precondition, and the effects of all that take part.

ghost use Rattle.std.specs.Prelude.{◌≡◌, ◌≤◌, All, List, IfOk, OnOk, length, map, Some};
ghost use Rattle.ioa_value.specs.Plain.{Val};
ghost use Rattle.ioa_value.specs.Actions.{act_of};
ghost use Rattle.ioa_words.specs.Layout.{flat_all};
ghost use Rattle.ioa_parts.specs.Runs.{left_by};
ghost use Rattle.ioa_node.specs.Drafts.{Fits, standing};
ghost use Rattle.ioa_tree.specs.Steps as steps;
ghost use Rattle.ioa_compile.specs.Shown.{entry_code, member_code};
ghost use Rattle.ioa_compile.specs.Tables as tables;
ghost use Rattle.ioa_compile.specs.Tables.{AreEntries, table_component, tabled};
ghost use Rattle.ioa_system.specs.Outcomes.{AreOfTypes, IfNext, moved_of, step_of};
ghost use Rattle.ioa_system.specs.Found.{AreArguments, AreReady, HaveOneTable, IsLent, components_of, consented, lent, lent_types, numbers_of, placed};
ghost use Rattle.ioa_system.specs.Drafted.{AreDrafts, drafted};
ghost use Rattle.ioa_system.specs.Participants as spec;
ghost use Rattle.ioa_system.specs.Preconditions as preconditions;
ghost use Rattle.ioa_system.specs.Systems.{slot_types, slots_of, types_of, values_of};

use crate::outcomes::{Moved, Step};
use crate::participation::{Participant, Participation};
use ioa_compile::{Entry, Member, Program};
use ioa_node::{Draft, NodeState, Workspace, draft_effect, enabled_on, write_values};
use ioa_value::{Action, Fault, OutOfMemory};
use std::alloc::Global;

/// Whether the owner lets its action be performed.
#[derive(Clone, Copy)]
enum Consent {
    /// Its precondition holds, or the action has no owner.
    Given,
    /// Its precondition does not hold.
    Denied,
    /// The precondition of the component of this number faults.
    Faulted(usize, Fault),
}

impl Consent {
    /// Whether a precondition faults.
    fn is_fault(self) -> bool
        ensures { result ≡ preconditions.is_fault_of self }
    {
        match self {
            Consent::Given | Consent::Denied => false,
            Consent::Faulted(_, _) => true,
        }
    }
}

impl Participation<'_, '_> {
    /// Whether the precondition of the action's owner faults in these states of all components, one for each in order and of its variables' types. Where a
    /// step from them faults and this does not, an effect does.
    pub fn precondition_faults(
        &self,
        alloc: Global,
        states: &[NodeState],
    ) -> Result<bool, OutOfMemory>
        requires { types_of states.now ≡ slot_types self.now.program.members }
        ensures { IfOk result (λ b. b ≡ preconditions.precondition_faults (tabled self.now.program) self.now.action (values_of states.now)) }
    {
        let participants = self.participants();
        let action = self.action();
        let mut args = Vec::new(alloc);
        write_arguments(participants, action, &mut args)?;
        let consent = asked(
            &mut Workspace::new(alloc),
            participants,
            action,
            &args,
            states,
        )?;
        Ok(consent.is_fault())
    }

    /// What a step answers from these states of the action's participants, one for each in order and of its
    /// variables' types. A step of all components depends on these states alone.
    pub fn step_from(&self, alloc: Global, states: &[NodeState]) -> Result<Moved, OutOfMemory>
        requires { types_of states.now ≡ spec.taken (steps.participants (tabled self.now.program) self.now.action) (slot_types self.now.program.members) }
        ensures value { IfOk result (λ m. moved_of m ≡ spec.step_from (tabled self.now.program) self.now.action (values_of states.now)) }
        ensures types { IfOk result (AreOfTypes (types_of states.now)) }
        ensures alone { (ss : List (List Val)) → spec.DependsOnParticipants (tabled self.now.program) self.now.action ss }
    {
        let in_order = placed_in_order(alloc, self.participants())?;
        let participants = in_order.as_slice();
        let mut drafts = Vec::new(alloc);
        let step = moved(
            alloc,
            &mut Workspace::new(alloc),
            &mut Vec::new(alloc),
            &mut drafts,
            participants,
            self.action(),
            states,
        )?;
        answer(alloc, participants, states, &drafts, step)
    }
}

/// What a step answers from these states of the action's participants, as `Participation::step_from` says.
pub fn step_from(
    alloc: Global,
    program: &Program,
    action: &Action,
    states: &[NodeState],
) -> Result<Moved, OutOfMemory>
    requires { types_of states.now ≡ spec.taken (steps.participants (tabled program.now) (act_of action.now)) (slot_types program.now.members) }
    ensures value { IfOk result (λ m. moved_of m ≡ spec.step_from (tabled program.now) (act_of action.now) (values_of states.now)) }
    ensures types { IfOk result (AreOfTypes (types_of states.now)) }
    ensures alone { (ss : List (List Val)) → spec.DependsOnParticipants (tabled program.now) (act_of action.now) ss }
{
    let participation = Participation::of(alloc, program, action)?;
    participation.step_from(alloc, states)
}

/// The participants where their states alone are at hand, in order.
fn placed_in_order<'a>(
    alloc: Global,
    participants: &[Participant<'a>],
) -> Result<Vec<Participant<'a>>, OutOfMemory>
    ensures { IfOk result (λ in_order. in_order.items ≡ placed 0 participants.now) }
{
    let mut in_order = Vec::new(alloc);
    for i in 0..participants.len() {
        let mut participant = participants[i];
        participant.place = i;
        in_order.push(participant)?;
    }
    Ok(in_order)
}

/// The step's answer with the states that it makes of the participants'.
fn answer(
    alloc: Global,
    participants: &[Participant<'_>],
    states: &[NodeState],
    drafts: &[Draft],
    step: Step,
) -> Result<Moved, OutOfMemory>
    requires states { All (IsLent states.now) participants.now }
    requires drafts { IfNext step (AreDrafts states.now participants.now drafts.now) }
    ensures value { IfOk result (λ m. moved_of m ≡ step_of step (values_of (drafted states.now participants.now drafts.now))) }
    ensures types { IfOk result (AreOfTypes (lent_types participants.now)) }
{
    match step {
        Step::Next => Ok(Moved::Next(changed(alloc, participants, states, drafts)?)),
        Step::NotAnAction => Ok(Moved::NotAnAction),
        Step::NotEnabled => Ok(Moved::NotEnabled),
        Step::Fault(component, fault) => Ok(Moved::Fault(component, fault)),
    }
}

/// Equals of the participants' states, with the new words of their drafts.
fn changed(
    alloc: Global,
    participants: &[Participant<'_>],
    states: &[NodeState],
    drafts: &[Draft],
) -> Result<Vec<NodeState>, OutOfMemory>
    requires states { All (IsLent states.now) participants.now }
    requires drafts { AreDrafts states.now participants.now drafts.now }
    ensures { IfOk result (λ after. after.items ≡ drafted states.now participants.now drafts.now) }
{
    let mut after = Vec::new(alloc);
    for i in 0..participants.len() {
        let participant = &participants[i];
        let mut state = states[participant.place].try_copy(alloc)?;
        state.change(&drafts[i]);
        after.push(state)?;
    }
    Ok(after)
}

/// What the participants' step answers from the states at hand. Where it answers `Next`, the drafts hold the new words of
/// the participants' variables, in order; the states stay as they are. The memory of the workspace, of the words of the action's values
/// and of the drafts is used again.
pub(crate) fn moved(
    alloc: Global,
    workspace: &mut Workspace,
    args: &mut Vec<i64>,
    drafts: &mut Vec<Draft>,
    participants: &[Participant<'_>],
    action: &Action,
    states: &[NodeState],
) -> Result<Step, OutOfMemory>
    requires { AreReady (act_of action.now) states.now participants.now }
    ensures value { IfOk result (λ s. step_of s (values_of (drafted states.now participants.now drafts.new.items)) ≡ spec.renumbered (numbers_of participants.now) (steps.step (components_of participants.now) (act_of action.now) (lent states.now participants.now))) }
    ensures drafts { IfOk result (λ s. IfNext s (AreDrafts states.now participants.now drafts.new.items)) }
{
    if participants.is_empty() {
        return Ok(Step::NotAnAction);
    }
    make_room(alloc, drafts, participants.len())?;
    write_arguments(participants, action, args)?;
    match asked(workspace, participants, action, args, states)? {
        Consent::Given => effects(workspace, drafts, participants, action, args, states),
        Consent::Denied => Ok(Step::NotEnabled),
        Consent::Faulted(component, fault) => Ok(Step::Fault(component, fault)),
    }
}

/// Sees to it that there are so many drafts, or more.
fn make_room(alloc: Global, drafts: &mut Vec<Draft>, count: usize) -> Result<(), OutOfMemory>
    ensures { OnOk result (count ≤ length drafts.new.items) }
{
    while drafts.len() < count {
        drafts.push(Draft::new(alloc))?;
    }
    Ok(())
}

/// The words of the action's values, in place of what was there: for the owner's precondition and for all effects.
fn write_arguments(
    participants: &[Participant<'_>],
    action: &Action,
    args: &mut Vec<i64>,
) -> Result<(), OutOfMemory>
    requires { HaveOneTable participants.now }
    ensures { OnOk result (AreArguments (act_of action.now) participants.now args.new.items) }
{
    if participants.is_empty() {
        return Ok(());
    }
    let member = participants[0].member;
    let layout = member.start.layout();
    write_values(layout, &action.vals, args)?;
    Ok(())
}

/// Whether the owner lets the action, whose values have these words, be performed.
fn asked(
    workspace: &mut Workspace,
    participants: &[Participant<'_>],
    action: &Action,
    args: &[i64],
    states: &[NodeState],
) -> Result<Consent, OutOfMemory>
    requires ready { AreReady (act_of action.now) states.now participants.now }
    requires words { AreArguments (act_of action.now) participants.now args.now }
    ensures { IfOk result (λ r. (m : steps.Moved (List Val)) → consented r (spec.renumbered (numbers_of participants.now) m)
        ≡ spec.renumbered (numbers_of participants.now) (steps.allowed (steps.asked 0 (components_of participants.now) (act_of action.now) (lent states.now participants.now)) m)) }
{
    for participant in participants {
        if participant.entry.kind.is_local() {
            let state = &states[participant.place];
            let answer = guard(
                workspace,
                participant.member,
                participant.entry,
                action,
                args,
                state,
            )?;
            return Ok(consent_by(participant.component, answer));
        }
    }
    Ok(Consent::Given)
}

/// What the answer of its owner's precondition says of an action.
fn consent_by(owner: usize, answer: Result<bool, Fault>) -> Consent
    ensures { (m : steps.Moved (List Val)) → consented result m ≡ steps.allowed (steps.owned owner answer) m }
{
    match answer {
        Ok(true) => Consent::Given,
        Ok(false) => Consent::Denied,
        Err(fault) => Consent::Faulted(owner, fault),
    }
}

/// The participants' effects in order, each on a draft of its own over its own state, up to the first fault.
fn effects(
    workspace: &mut Workspace,
    drafts: &mut [Draft],
    participants: &[Participant<'_>],
    action: &Action,
    args: &[i64],
    states: &[NodeState],
) -> Result<Step, OutOfMemory>
    requires ready { AreReady (act_of action.now) states.now participants.now }
    requires words { AreArguments (act_of action.now) participants.now args.now }
    requires room { length participants.now ≤ length drafts.old }
    ensures value { IfOk result (λ s. step_of s (values_of (drafted states.now participants.now drafts.new)) ≡ spec.renumbered (numbers_of participants.now) (steps.effects 0 (components_of participants.now) (act_of action.now) (lent states.now participants.now))) }
    ensures drafts { IfOk result (λ s. IfNext s (AreDrafts states.now participants.now drafts.new)) }
{
    for i in 0..participants.len() {
        let participant = &participants[i];
        let state = &states[participant.place];
        match effect_on(
            workspace,
            &mut drafts[i],
            participant.member,
            participant.entry,
            action,
            args,
            state,
        )? {
            Ok(()) => {}
            Err(fault) => return Ok(Step::Fault(participant.component, fault)),
        }
    }
    Ok(Step::Next)
}

/// What the component's precondition answers in this state. An entry without one allows its action.
fn guard(
    workspace: &mut Workspace,
    member: &Member,
    entry: &Entry,
    action: &Action,
    args: &[i64],
    state: &NodeState,
) -> Result<Result<bool, Fault>, OutOfMemory>
    requires sound { AreEntries (member_code member.now) (member_code member.now).entries }
    requires found { tables.entry_of (member_code member.now) (act_of action.now) ≡ Some (entry_code entry.now) }
    requires slots { slots_of state.now ≡ slots_of (member_code member.now).start }
    requires words { args.now ≡ flat_all (member_code member.now).start.table (act_of action.now).vals }
    ensures { IfOk result (λ r. r ≡ (table_component (member_code member.now)).guard (act_of action.now) state.now.values) }
{
    match &entry.pre {
        Some(code) => enabled_on(workspace, code, state, &action.vals, args),
        None => Ok(Ok(true)),
    }
}

/// The new words that the component's effect gives to this state's variables, in the draft, or the effect's fault.
fn effect_on(
    workspace: &mut Workspace,
    draft: &mut Draft,
    member: &Member,
    entry: &Entry,
    action: &Action,
    args: &[i64],
    state: &NodeState,
) -> Result<Result<(), Fault>, OutOfMemory>
    requires sound { AreEntries (member_code member.now) (member_code member.now).entries }
    requires found { tables.entry_of (member_code member.now) (act_of action.now) ≡ Some (entry_code entry.now) }
    requires slots { slots_of state.now ≡ slots_of (member_code member.now).start }
    requires words { args.now ≡ flat_all (member_code member.now).start.table (act_of action.now).vals }
    ensures value { IfOk result (λ r. left_by r (standing draft.new state.now) ≡ (table_component (member_code member.now)).effect (act_of action.now) state.now.values) }
    ensures fits { IfOk result (λ r. IfOk r (λ _. Fits draft.new state.now)) }
{
    draft_effect(workspace, draft, &entry.effect, state, &action.vals, args)
}
