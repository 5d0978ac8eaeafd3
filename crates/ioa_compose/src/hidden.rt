//! Hiding: which outputs the traces of a composition do not show.

ghost use Rattle.std.specs.Prelude.{◌≡◌, ◌&&◌, true, map, Some, IfOk, IfErr};
ghost use Rattle.std.specs.List.{list_all};
ghost use Rattle.std.specs.Str.{bytes_eq};
ghost use Rattle.std.specs.String.{string_bytes};
ghost use Rattle.ioa_value.specs.Table.{Table};
ghost use Rattle.ioa_tree.specs.View.{name_of, entry_of, automaton_of};
ghost use Rattle.ioa_tree.specs.Components.{is_output};
ghost use Rattle.ioa_tree.specs.Compositions as spec;
ghost use Rattle.ioa_compose.specs.Bindings.{plain_in};
ghost use Rattle.ioa_compose.specs.Refusals.{HidesIn, reason_of};

use crate::binding::Binding;
use ioa_syntax::Refusal;
use ioa_tree::{Automaton, Entry, Kind, Name};
use std::alloc::Global;

/// The hidden names in order, where each is the name of an output of one of the components; the first other one is refused.
pub(crate) fn hidden_outputs(
    alloc: Global,
    bindings: &[Binding],
    hidden: &[Name],
) -> Result<Vec<String>, Refusal>
    ensures names { IfOk result (λ names. map string_bytes names.items ≡ map name_of hidden.now) }
    ensures outputs { (types : Table) → IfOk result (λ names. list_all (spec.is_output_of (map (plain_in types) bindings.now)) (map name_of hidden.now) ≡ true) }
    ensures refused { (types : Table) → IfErr result (λ r. HidesIn (map (plain_in types) bindings.now) (map name_of hidden.now) (reason_of r)) }
{
    let mut names = Vec::new(alloc);
    for name in hidden {
        let text = String::from_str(alloc, name.text.as_str())?;
        if !is_output_of(bindings, name) {
            return Err(Refusal::HiddenUnknown(text));
        }
        names.push(text)?;
    }
    Ok(names)
}

/// Whether an output of one of the components has this name.
fn is_output_of(bindings: &[Binding], name: &Name) -> bool
    ensures { (types : Table) → result ≡ spec.is_output_of (map (plain_in types) bindings.now) (name_of name.now) }
{
    for binding in bindings {
        if has_output(binding.automaton, name) {
            return true;
        }
    }
    false
}

fn has_output(automaton: &Automaton, name: &Name) -> bool
    ensures { result ≡ spec.has_output (name_of name.now) (automaton_of automaton.now) }
{
    for entry in &automaton.entries {
        if is_output_named(entry, name) {
            return true;
        }
    }
    false
}

fn is_output_named(entry: &Entry, name: &Name) -> bool
    ensures { result ≡ (is_output (Some (entry_of entry.now).kind) && bytes_eq (entry_of entry.now).name (name_of name.now)) }
{
    match entry.kind {
        Kind::Output => entry.name.is(name.text.as_str()),
        Kind::Input | Kind::Internal => false,
    }
}
