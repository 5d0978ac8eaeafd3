//! The sources that programs come from, by which the effects of their entries are known.

ghost use Rattle.std.specs.Prelude.{◌≡◌, ◌+◌, ◌++◌, ◌<◌, ◌^◌, All, Some, IfOk, OnOk, length, map, take};
ghost use Rattle.std.specs.Option.{option_map_or};
ghost use Rattle.ioa_tree.specs.Instances.{transition_for};
ghost use Rattle.ioa_tree.specs.Tree.{AutomatonTree, TransitionTree, stop};
ghost use Rattle.ioa_tree.specs.View.{automaton_of, entry_of, stmts_of, transition_of, tree_of};
ghost use Rattle.ioa_compose.specs.Held.{member_of};
ghost use Rattle.ioa_compile.specs.Shown.{entry_code, member_code};
ghost use Rattle.ioa_coverage.specs.Effects as spec;
ghost use Rattle.ioa_coverage.specs.Effects.{HasPlaces, counts_of, effect_of, none_taken};

use crate::effect::Effect;
use crate::labels::labels_of;
use ioa_check::Checked;
use ioa_compile::{Entry, Member, Program};
use ioa_compose::{Composition, Member as Component};
use ioa_rules::automaton_named;
use ioa_tree::{Automaton, Declaration, Entry as Declared, Statement, Transition};
use ioa_value::{OutOfMemory, Types, Value};
use std::alloc::Global;

/// Where a program comes from: a source that is well formed, and a composition of it.
pub struct Origin {
    pub checked: Checked,
    pub composition: Composition,
}

/// Written out, so that who drops one calls this, and does not take it apart itself.
impl Drop for Origin {
    fn drop(self) {
        let Origin {
            checked: _,
            composition: _,
        } = self;
    }
}

/// What the entries of a component have in common.
#[derive(Clone, Copy)]
struct Shared<'a> {
    /// The component's number.
    number: usize,
    member: &'a Member,
    types: &'a Types,
    /// The automaton that is declared, and the values of its formals.
    automaton: &'a Automaton,
    arguments: &'a [Value],
}

/// The effects of the program's entries, as the source has them, of which nothing is taken yet.
pub(crate) fn effects_of<'a>(
    alloc: Global,
    program: &'a Program,
    origin: &'a Origin,
) -> Result<Vec<Effect<'a>>, OutOfMemory>
    ensures effects { IfOk result (λ es. map effect_of es.items ≡ spec.effects_in program.now (Some origin.now)) }
    ensures places { IfOk result (λ es. All HasPlaces es.items) }
    ensures none { IfOk result (λ es. map counts_of es.items ≡ map none_taken (map effect_of es.items)) }
    ensures fine { spec.IsFine (Some origin.now) }
{
    let mut effects = Vec::new(alloc);
    push_members(
        alloc,
        &mut effects,
        origin.checked.declarations(),
        origin.composition.types(),
        0,
        origin.composition.members(),
        program.members(),
    )?;
    Ok(effects)
}

/// Puts the effects of these components behind those before. The first of them has this number. There are few, so the recursion is short. It asks that their
/// numbers fit.
fn push_members<'a>(
    alloc: Global,
    effects: &mut Vec<Effect<'a>>,
    declarations: &'a [Declaration],
    types: &'a Types,
    number: usize,
    components: &'a [Component],
    members: &'a [Member],
) -> Result<(), OutOfMemory>
    requires few { number + length components.now < 2 ^ 64 }
    requires places { All HasPlaces effects.old.items }
    requires none { map counts_of effects.old.items ≡ map none_taken (map effect_of effects.old.items) }
    ensures effects { OnOk result (map effect_of effects.new.items ≡ map effect_of effects.old.items
        ++ spec.effects_from (tree_of declarations.now) types.now number (map member_of components.now) (map member_code members.now)) }
    ensures places { OnOk result (All HasPlaces effects.new.items) }
    ensures none { OnOk result (map counts_of effects.new.items ≡ map none_taken (map effect_of effects.new.items)) }
{
    match components {
        [] => Ok(()),
        [component, components @ ..] => match members {
            [] => Ok(()),
            [member, members @ ..] => {
                let shared = shared_by(declarations, types, number, component, member);
                push_entries(
                    alloc,
                    effects,
                    shared,
                    &component.automaton.entries,
                    &member.entries,
                )?;
                push_members(
                    alloc,
                    effects,
                    declarations,
                    types,
                    number + 1,
                    components,
                    members,
                )
            }
        },
    }
}

/// What the entries of this component have in common.
fn shared_by<'a>(
    declarations: &'a [Declaration],
    types: &'a Types,
    number: usize,
    component: &'a Component,
    member: &'a Member,
) -> Shared<'a>
    ensures number { result.number ≡ number }
    ensures member { result.member.now ≡ member.now }
    ensures instance { spec.instance_of result.types.now result.automaton.now result.arguments.now
        ≡ spec.declared_instance (tree_of declarations.now) types.now (member_of component.now) }
{
    let automaton = declared_automaton(declarations, &component.automaton);
    Shared {
        number,
        member,
        types,
        automaton,
        arguments: first_of(component.arguments.as_slice(), automaton.formals.len()),
    }
}

/// The automaton of this one's name as it is declared, without what is added by which components crash and recover.
fn declared_automaton<'a>(declarations: &'a [Declaration], own: &'a Automaton) -> &'a Automaton
    ensures { automaton_of result.now ≡ spec.declared_automaton (tree_of declarations.now) (automaton_of own.now) }
{
    match automaton_named(declarations, &own.name) {
        Some(declared) => declared,
        None => own,
    }
}

/// The first values, so many; all, where there are no more.
fn first_of(values: &[Value], count: usize) -> &[Value]
    ensures { result.now ≡ take count values.now }
{
    if count < values.len() {
        &values[..count]
    } else {
        values
    }
}

/// Puts the effects of these entries of a component behind those before. There are few, so the recursion is short.
fn push_entries<'a>(
    alloc: Global,
    effects: &mut Vec<Effect<'a>>,
    shared: Shared<'a>,
    entries: &'a [Declared],
    coded: &'a [Entry],
) -> Result<(), OutOfMemory>
    requires places { All HasPlaces effects.old.items }
    requires none { map counts_of effects.old.items ≡ map none_taken (map effect_of effects.old.items) }
    ensures effects { OnOk result (map effect_of effects.new.items ≡ map effect_of effects.old.items
        ++ spec.entry_effects shared.entry.number (member_code shared.entry.member.now)
        (spec.instance_of shared.entry.types.now shared.entry.automaton.now shared.entry.arguments.now) (map entry_of entries.now) (map entry_code coded.now)) }
    ensures places { OnOk result (All HasPlaces effects.new.items) }
    ensures none { OnOk result (map counts_of effects.new.items ≡ map none_taken (map effect_of effects.new.items)) }
{
    match entries {
        [] => Ok(()),
        [declared, entries @ ..] => match coded {
            [] => Ok(()),
            [entry, coded @ ..] => {
                effects.push(effect_before(alloc, shared, declared, entry)?)?;
                push_entries(alloc, effects, shared, entries, coded)
            }
        },
    }
}

/// The effect of an entry, of which nothing is taken yet.
fn effect_before<'a>(
    alloc: Global,
    shared: Shared<'a>,
    declared: &'a Declared,
    entry: &'a Entry,
) -> Result<Effect<'a>, OutOfMemory>
    ensures effect { IfOk result (λ e. effect_of e ≡ spec.entry_effect shared.entry.number (member_code shared.entry.member.now)
        (spec.instance_of shared.entry.types.now shared.entry.automaton.now shared.entry.arguments.now) (entry_of declared.now) (entry_code entry.now)) }
    ensures places { IfOk result HasPlaces }
    ensures none { IfOk result (λ e. counts_of e ≡ none_taken (effect_of e)) }
{
    let statements = statements_for(&shared.automaton.transitions, declared);
    let labels = labels_of(alloc, statements)?;
    let taken = vec![in alloc; 0; labels.len()]?;
    Ok(Effect {
        number: shared.number,
        member: shared.member,
        entry,
        types: shared.types,
        automaton: shared.automaton,
        arguments: shared.arguments,
        declared,
        statements,
        labels,
        taken,
    })
}

/// The effect of the first transition that has the entry's name; none, where no transition has it. There are few, so the recursion is short.
fn statements_for<'a>(transitions: &'a [Transition], entry: &Declared) -> &'a [Statement]
    ensures { (a : AutomatonTree) → a.transitions ≡ map transition_of transitions.now
        → stmts_of result.now ≡ option_map_or (λ (t : TransitionTree). t.effect) (transition_for a (entry_of entry.now)) stop }
{
    match transitions {
        [] => &[],
        [transition, others @ ..] => {
            if transition.name.is(entry.name.text.as_str()) {
                &transition.effect
            } else {
                statements_for(others, entry)
            }
        }
    }
}
