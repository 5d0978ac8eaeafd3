//! Which line of a source declares what its composition does unseen. The lines of the declarations are indices of tokens.

ghost use Rattle.std.specs.Prelude.{◌≡◌, IfSome, Some, option_map, slice_get};
ghost use Rattle.ioa_causes.specs.Composing.{IsAutomatonOf, IsHiddenLine, among};
ghost use Rattle.ioac.specs.UnseenLines as spec;

use crate::remarks::sources::line_on;
use crate::remarks::unseen::{Unseen, is_internal};
use ioa_causes::entry_named;
use ioa_lex::Token;
use ioa_tree::{Assembly, Automaton, Declaration, Entry, Instance, Name};

/// The line of the token that names what is unseen: an internal entry in the signature of its component's automaton, or a hidden name where the composition hides it. None,
/// where no token does.
pub fn line_of_unseen(
    tokens: &[Token],
    declarations: &[Declaration],
    assembly: &Assembly,
    unseen: Unseen<'_>,
) -> Option<u32>
    ensures { IfSome result (λ line. spec.IsUnseenOn tokens.now declarations.now assembly.now unseen.entry line) }
{
    match unseen {
        Unseen::Internal { action, component } => {
            line_of_entry(tokens, declarations, assembly, action, component)
        }
        Unseen::Hidden(name) => line_of_hidden(tokens, assembly, name),
    }
}

/// The line on which the signature of a component's automaton names an internal entry.
fn line_of_entry(
    tokens: &[Token],
    declarations: &[Declaration],
    assembly: &Assembly,
    action: &str,
    component: &str,
) -> Option<u32>
    ensures { IfSome result (λ line. spec.IsEntryLine tokens.now declarations.now assembly.now action.now component.now line) }
{
    match entry_in(declarations, assembly, action, component) {
        Some(entry) => line_on(tokens, &entry.name),
        None => None,
    }
}

/// The internal entry of this name, of the component of this name.
fn entry_in<'a>(
    declarations: &'a [Declaration],
    assembly: &Assembly,
    action: &str,
    component: &str,
) -> Option<&'a Entry>
    ensures { IfSome result (λ e. spec.IsEntryIn declarations.now assembly.now action.now component.now e.now) }
{
    match instance_named(&assembly.instances, component) {
        Some(instance) => entry_of(declarations, instance, action),
        None => None,
    }
}

/// The component of this name.
fn instance_named<'a>(instances: &'a [Instance], name: &str) -> Option<&'a Instance>
    ensures { option_map (λ n. n.now) result ≡ spec.instance_named name.now instances.now }
{
    for instance in instances {
        if instance.name.is(name) {
            return Some(instance);
        }
    }
    None
}

/// The internal entry of this name in the signature of a component's automaton.
fn entry_of<'a>(
    declarations: &'a [Declaration],
    instance: &Instance,
    action: &str,
) -> Option<&'a Entry>
    ensures { IfSome result (λ e. spec.IsEntryOf declarations.now instance.now action.now e.now) }
{
    match automaton_of(declarations, instance) {
        Some(automaton) => internal_of_name(automaton, action),
        None => None,
    }
}

/// The internal entry of this name in an automaton's signature.
fn internal_of_name<'a>(automaton: &'a Automaton, name: &str) -> Option<&'a Entry>
    ensures { IfSome result (λ e. spec.IsInternalOf automaton.now name.now e.now) }
{
    match entry_named(&automaton.entries, name) {
        Some(entry) if is_internal(entry.kind) => Some(entry),
        _ => None,
    }
}

/// The automaton that is declared under the name of a component's.
fn automaton_of<'a>(declarations: &'a [Declaration], instance: &Instance) -> Option<&'a Automaton>
    ensures { IfSome result (λ a. IsAutomatonOf declarations.now instance.now a.now) }
{
    for place in 0..declarations.len() {
        if let Some(automaton) = automaton_at(declarations, place)
            && automaton.name.is(instance.automaton.text.as_str())
        {
            return Some(automaton);
        }
    }
    None
}

/// The automaton that is the declaration of this index.
fn automaton_at(declarations: &[Declaration], place: usize) -> Option<&Automaton>
    ensures { IfSome result (λ a. slice_get declarations.now place ≡ Some (Declaration.Automaton a.now)) }
{
    match declarations.get(place) {
        Some(declaration) => automaton_in(declaration),
        None => None,
    }
}

fn automaton_in(declaration: &Declaration) -> Option<&Automaton>
    ensures { IfSome result (λ a. declaration.now ≡ Declaration.Automaton a.now) }
{
    match declaration {
        Declaration::Automaton(automaton) => Some(automaton),
        Declaration::Type(_) | Declaration::Composition(_) | Declaration::Invariant(_) => None,
    }
}

/// The line on which a composition hides this name.
fn line_of_hidden(tokens: &[Token], assembly: &Assembly, name: &str) -> Option<u32>
    ensures { IfSome result (λ line. IsHiddenLine tokens.now assembly.now name.now line) }
{
    match name_among(&assembly.hidden, name) {
        Some(hidden) => line_on(tokens, hidden),
        None => None,
    }
}

/// The first of the names that is this one.
fn name_among<'a>(names: &'a [Name], name: &str) -> Option<&'a Name>
    ensures { option_map (λ n. n.now) result ≡ among name.now names.now }
{
    for own in names {
        if own.is(name) {
            return Some(own);
        }
    }
    None
}
