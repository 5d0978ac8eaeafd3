//! Invariants against the runs that logs tell.

ghost use Rattle.std.specs.Prelude.{◌≡◌, ◌<◌, IfErr, IfOk, IsTrue, Some, length, map, slice_get};
ghost use Rattle.std.specs.Option.{option_map};
ghost use Rattle.std.specs.Str.{bytes_eq};
ghost use Rattle.ioa_value.specs.Plain.{plain};
ghost use Rattle.ioa_tree.specs.Compositions.{Member};
ghost use Rattle.ioa_tree.specs.Instances.{state_of};
ghost use Rattle.ioa_tree.specs.Invariants as spec;
ghost use Rattle.ioa_tree.specs.Meaning.{or_else};
ghost use Rattle.ioa_compose.specs.Held.{composed_of};
ghost use Rattle.ioa_compose.specs.Questions.{OfThese};
ghost use Rattle.ioa_compile.specs.Implements.{Implements};
ghost use Rattle.ioa_compile.specs.Subjects.{Subject, its_components, its_starts};
ghost use Rattle.ioa_compile.specs.Tables.{start_states, tabled};
ghost use Rattle.ioa_system.specs.Outcomes.{ending_of};
ghost use Rattle.ioa_system.specs.Logs.{actions_of, logged};
ghost use Rattle.ioa_system.specs.Records.{IsTableRun};
ghost use Rattle.ioa_system.specs.Systems.{values_of};
ghost use Rattle.ioa_log.specs.Judging.{TellsVerdict, agrees, judged};
ghost use Rattle.ioa_inspect.specs.Breaking.{AreStates, AreTyped, IsInspectionOf, IsState, IsTypedAt, SimulatesAs, broken_at_end, broken_of, its_first_broken, states_in};

use ioa_compile::{Asked, Program, compile};
use ioa_compose::Composition;
use ioa_device::LogErr;
use ioa_node::{NodeState, Workspace, state_values};
use ioa_replay::TracedJudge;
use ioa_system::{End, Log, Run};
use ioa_value::{OutOfMemory, Value};
use std::alloc::Global;

/// An invariant that is broken.
#[derive(Clone, Copy, Debug, PartialEq, Eq)]
pub struct Broken {
    /// After how many actions.
    pub state: usize,
    /// The number of the component that breaks it.
    pub component: usize,
    /// Its number among all of the source, from 0.
    pub invariant: usize,
}

/// The run that a log tells, and what is broken in its states.
#[derive(Drop)]
pub struct Inspection {
    pub run: Run,
    /// The first invariant that is broken: in the least state, by the least component, the least one.
    pub broken: Option<Broken>,
}

/// The first invariant that is broken along the run that a log tells: in the least state, by the least component, the least one.
///
/// # Errors
/// Those of `inspect`.
pub fn invariants(
    alloc: Global,
    composition: &Composition,
    log: &Log,
) -> Result<Option<Broken>, LogErr>
    ensures ok { IfOk result (λ b. (s : Subject) → SimulatesAs (composed_of composition.now) s
        → (judged (its_components s) (its_starts s) (logged log.now) ≡ agrees) × (option_map broken_of b ≡ its_first_broken s (actions_of (logged log.now)))) }
    ensures refused { IfErr result (λ e. (s : Subject) → SimulatesAs (composed_of composition.now) s → TellsVerdict e (judged (its_components s) (its_starts s) (logged log.now))) }
{
    match inspect(alloc, composition, log) {
        Ok(inspection) => Ok(inspection.broken),
        Err(error) => Err(error),
    }
}

/// The run that a log tells, where it is the composition's, and the first invariant that is broken along it. The run is performed once.
///
/// # Errors
/// `WrongOwner` and `Diverges`, where the log is not the composition's run, as `replay` answers them, whatever is broken before; `OutOfMemory`.
pub fn inspect(alloc: Global, composition: &Composition, log: &Log) -> Result<Inspection, LogErr>
    ensures ok { IfOk result (λ i. (s : Subject) → SimulatesAs (composed_of composition.now) s → IsInspectionOf (composed_of composition.now) s (logged log.now) i) }
    ensures refused { IfErr result (λ e. (s : Subject) → SimulatesAs (composed_of composition.now) s → TellsVerdict e (judged (its_components s) (its_starts s) (logged log.now))) }
{
    let program = compile(alloc, composition)?;
    let asked = Asked::of(alloc, composition)?;
    inspect_table(alloc, &asked, &program, log)
}

/// The same, said of the table of a program that means the composition. Invariants are asked for in each state on the way.
fn inspect_table(
    alloc: Global,
    asked: &Asked<'_>,
    program: &Program,
    log: &Log,
) -> Result<Inspection, LogErr>
    requires { Implements program.now (composed_of asked.now) }
    ensures run { IfOk result (λ i. (judged (tabled program.now) (start_states program.now) (logged log.now) ≡ agrees) × IsTableRun program.now (actions_of (logged log.now)) i.run) }
    ensures first { IfOk result (λ i. option_map broken_of i.broken ≡ spec.first_broken (composed_of asked.now) (actions_of (logged log.now))) }
    ensures verdict { IfErr result (λ e. TellsVerdict e (judged (tabled program.now) (start_states program.now) (logged log.now))) }
{
    let mut judge = TracedJudge::start(alloc, program)?;
    let mut workspace = Workspace::new(alloc);
    let mut broken = None;
    for count in 0..log.entries.len() {
        let states = judge.states();
        broken = or_broken_in(alloc, &mut workspace, asked, broken, count, states)?;
        let entry = &log.entries[count];
        judge.follow(entry)?;
    }
    let run = judge.finish(log.end)?;
    let broken = or_broken_at_end(
        alloc,
        &mut workspace,
        asked,
        broken,
        log.entries.len(),
        run.end,
        &run.states,
    )?;
    Ok(Inspection { run, broken })
}

/// The invariant that was found before or, without one, the first that is broken in these states, after so many actions.
fn or_broken_in(
    alloc: Global,
    workspace: &mut Workspace,
    asked: &Asked<'_>,
    before: Option<Broken>,
    count: usize,
    states: &[NodeState],
) -> Result<Option<Broken>, OutOfMemory>
    requires states { AreStates (composed_of asked.now).members (values_of states.now) }
    requires typed { AreTyped (composed_of asked.now).members states.now }
    ensures { IfOk result (λ b. option_map broken_of b ≡ or_else (option_map broken_of before)
        (spec.broken_at (composed_of asked.now) count (states_in (composed_of asked.now).members 0 (values_of states.now)))) }
{
    match before {
        Some(_) => Ok(before),
        None => broken_in(alloc, workspace, asked, count, states),
    }
}

/// The same in the states in which a run over so many actions ends. Where the last one faults, it changes nothing.
pub(crate) fn or_broken_at_end(
    alloc: Global,
    workspace: &mut Workspace,
    asked: &Asked<'_>,
    before: Option<Broken>,
    count: usize,
    end: End,
    states: &[NodeState],
) -> Result<Option<Broken>, OutOfMemory>
    requires states { AreStates (composed_of asked.now).members (values_of states.now) }
    requires typed { AreTyped (composed_of asked.now).members states.now }
    ensures { IfOk result (λ b. option_map broken_of b ≡ or_else (option_map broken_of before)
        (broken_at_end (composed_of asked.now) count (ending_of end) (states_in (composed_of asked.now).members 0 (values_of states.now)))) }
{
    match end {
        End::Done(_) => or_broken_in(alloc, workspace, asked, before, count, states),
        End::NotAnAction(_) | End::NotEnabled(_) | End::Fault(_, _, _) => Ok(before),
    }
}

/// The first invariant that is broken in these states, after so many actions.
fn broken_in(
    alloc: Global,
    workspace: &mut Workspace,
    asked: &Asked<'_>,
    count: usize,
    states: &[NodeState],
) -> Result<Option<Broken>, OutOfMemory>
    requires states { AreStates (composed_of asked.now).members (values_of states.now) }
    requires typed { AreTyped (composed_of asked.now).members states.now }
    ensures { IfOk result (λ b. option_map broken_of b
        ≡ spec.broken_at (composed_of asked.now) count (states_in (composed_of asked.now).members 0 (values_of states.now))) }
{
    for component in 0..states.len() {
        let state = &states[component];
        let first = broken_by(alloc, workspace, asked, component, state)?;
        if let Some(invariant) = first {
            return Ok(Some(Broken {
                state: count,
                component,
                invariant,
            }));
        }
    }
    Ok(None)
}

/// The number of the first invariant that the component of this number breaks in this state.
fn broken_by(
    alloc: Global,
    workspace: &mut Workspace,
    asked: &Asked<'_>,
    component: usize,
    state: &NodeState,
) -> Result<Option<usize>, OutOfMemory>
    requires state { IsState (composed_of asked.now).members component state.now.values }
    requires typed { IsTypedAt (composed_of asked.now).members component state.now }
    ensures { IfOk result (λ k. (m : Member) → slice_get (composed_of asked.now).members component ≡ Some m
        → k ≡ spec.broken_by 0 (composed_of asked.now).invariants m.instance (state_of m.instance.automaton state.now.values)) }
{
    for number in 0..asked.composition().invariants().len() {
        let broken = breaks(alloc, workspace, asked, component, number, state)?;
        if broken {
            return Ok(Some(number));
        }
    }
    Ok(None)
}

/// Whether the component of this number breaks the invariant of this number in this state.
fn breaks(
    alloc: Global,
    workspace: &mut Workspace,
    asked: &Asked<'_>,
    component: usize,
    invariant: usize,
    state: &NodeState,
) -> Result<bool, OutOfMemory>
    requires state { IsState (composed_of asked.now).members component state.now.values }
    requires typed { IsTypedAt (composed_of asked.now).members component state.now }
    requires invariant { invariant < length asked.now.invariants }
    ensures { IfOk result (λ b. OfThese (composed_of asked.now) component invariant
        (λ m v. b ≡ spec.breaks m.instance v (state_of m.instance.automaton state.now.values))) }
{
    let composition = asked.composition();
    if !composition.is_about(component, invariant) {
        return Ok(false);
    }
    let holds = match asked.holds(workspace, component, invariant, state)? {
        Some(holds) => holds,
        None => {
            let values = state_values(alloc, state)?;
            evaluated(composition, component, invariant, &values)?
        }
    };
    Ok(!holds)
}

/// Whether the invariant, which is of the component's automaton, is true where the component's variables have these values, as a tree is
/// evaluated. It names those variables alone that the component's source declares, which stand first.
fn evaluated(
    composition: &Composition,
    component: usize,
    invariant: usize,
    values: &[Value],
) -> Result<bool, OutOfMemory>
    requires state { IsState (composed_of composition.now).members component (map plain values.now) }
    requires about { OfThese (composed_of composition.now) component invariant (λ m v. IsTrue (bytes_eq v.automaton m.instance.automaton.name)) }
    requires invariant { invariant < length composition.now.invariants }
    ensures { IfOk result (λ b. OfThese (composed_of composition.now) component invariant
        (λ m v. b ≡ spec.holds m.instance v.condition (state_of m.instance.automaton (map plain values.now)))) }
{
    let declared = composition.members()[component].declared;
    composition.holds(component, invariant, &values[..declared])
}
