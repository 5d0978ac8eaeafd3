//! An entry's effect, and how often its arms and bodies were taken.

ghost use Rattle.std.specs.Prelude.{◌≡◌, length, map, slice_get};
ghost use Rattle.ioa_value.specs.Plain.{plain};
ghost use Rattle.ioa_coverage.specs.Effects.{is_up_by};

use crate::coverage::has;
use crate::effects::follow_all;
use crate::environment::environment;
use ioa_compile::{Entry, Member};
use ioa_node::{NodeState, state_values};
use ioa_tree::{Automaton, Entry as Declared, Statement};
use ioa_value::{Action, OutOfMemory, Types, Value};
use std::alloc::Global;

/// An entry of a component with its effect, and how often the effect's arms and bodies were taken.
#[derive(Drop)]
pub(crate) struct Effect<'a> {
    /// The number of the entry's component.
    pub(crate) number: usize,
    /// The entry as the program has it, with its component.
    pub(crate) member: &'a Member,
    pub(crate) entry: &'a Entry,
    pub(crate) types: &'a Types,
    /// The component's automaton, as it is declared, and the values of its formals.
    pub(crate) automaton: &'a Automaton,
    pub(crate) arguments: &'a [Value],
    /// The entry as the source has it, and the statements of its effect.
    pub(crate) declared: &'a Declared,
    pub(crate) statements: &'a [Statement],
    /// What its arms and bodies are called, by their places.
    pub(crate) labels: Vec<String>,
    /// How often each of them was taken.
    pub(crate) taken: Vec<u64>,
}

impl Effect<'_> {
    ghost use Rattle.std.specs.Prelude.{◌≡◌, OnOk, map, true};
    ghost use Rattle.ioa_value.specs.Actions.{act_of};
    ghost use Rattle.ioa_value.specs.Plain.{plain};
    ghost use Rattle.ioa_value.specs.Table.{AreTypes};
    ghost use Rattle.ioa_compile.specs.Programs.{Prog};
    ghost use Rattle.ioa_compile.specs.Tables.{is_in};
    ghost use Rattle.ioa_system.specs.Systems.{slot_types, types_of, values_of};
    ghost use Rattle.ioa_coverage.specs.Effects.{HasPlaces, MayTake, counts_of, effect_of, environment_in, taken_at, taken_in_slots};
    ghost use Rattle.ioa_coverage.specs.Following.{MayFollowAll, with_marks};

    /// Counts what the effect takes by an action, from these states of all components. It asks that the states are of the components' types, and that the
    /// effect keeps the rules of sources.
    pub(crate) fn take(
        &mut self,
        alloc: Global,
        action: &Action,
        states: &[NodeState],
    ) -> Result<(), OutOfMemory>
        requires may { (p : Prog) × MayTake p (effect_of self.old) × (types_of states.now ≡ slot_types p.members) }
        requires places { HasPlaces self.old }
        ensures effect { effect_of self.new ≡ effect_of self.old }
        ensures places { OnOk result (HasPlaces self.new) }
        ensures counts { OnOk result (counts_of self.new ≡ with_marks (counts_of self.old) (taken_at (effect_of self.old) (act_of action.now) (values_of states.now))) }
    {
        let Some(state) = states.get(self.number) else {
            return Ok(());
        };
        if !has(self.member, self.entry, action) {
            return Ok(());
        }
        // Called for its promise alone: the values are of the types of the variables.
        let _types = state.types();
        let slots = state_values(alloc, state)?;
        self.take_in(alloc, action, &slots)
    }

    /// The same by an action that the entry has, in these values of its component's slots.
    fn take_in(
        &mut self,
        alloc: Global,
        action: &Action,
        slots: &[Value],
    ) -> Result<(), OutOfMemory>
        requires has { is_in (effect_of self.old).member.start.table (act_of action.now) (effect_of self.old).code ≡ true }
        requires types { AreTypes (effect_of self.old).instance.types }
        requires may { MayFollowAll (effect_of self.old).instance.types (environment_in (effect_of self.old) (act_of action.now) (map plain slots.now)) (effect_of self.old).statements }
        requires places { HasPlaces self.old }
        ensures effect { effect_of self.new ≡ effect_of self.old }
        ensures places { OnOk result (HasPlaces self.new) }
        ensures counts { OnOk result (counts_of self.new ≡ with_marks (counts_of self.old) (taken_in_slots (effect_of self.old) (act_of action.now) (map plain slots.now))) }
    {
        if is_up(self.automaton, slots) {
            let mut scope = environment(
                alloc,
                self.types,
                self.automaton,
                self.arguments,
                self.declared,
                &action.vals,
                slots,
            )?;
            // (no effect faults here: the step was performed)
            let _ = follow_all(
                alloc,
                self.types,
                self.statements,
                0,
                &mut scope,
                &mut self.taken,
            )?;
        }
        Ok(())
    }
}

/// Whether a component is up, by the value behind its variables. One that does not crash has none there.
fn is_up(automaton: &Automaton, values: &[Value]) -> bool
    ensures { result ≡ is_up_by (slice_get (map plain values.now) (length automaton.now.variables.items)) }
{
    match values.get(automaton.variables.len()) {
        Some(Value::Truth(up)) => *up,
        Some(Value::Num(_) | Value::Name(_, _) | Value::Tuple(_, _) | Value::Items(_, _)) | None =>
            true,
    }
}
