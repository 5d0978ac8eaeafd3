//! The rules of a source, one after another, and those of a composition.

ghost use Rattle.std.specs.Prelude.{◌≡◌, [], map, true, false, IfOk, IsTrue};
ghost use Rattle.std.specs.List.{list_all, list_any};
ghost use Rattle.std.specs.Option.{option_map_or};
ghost use Rattle.ioa_value.specs.Table.{basic};
ghost use Rattle.ioa_tree.specs.Names.{LegalNames};
ghost use Rattle.ioa_tree.specs.View.{assembly_of, instance_of, tree_of, name_of, expr_of};
ghost use Rattle.ioa_tree.specs.Types.{types_of};
ghost use Rattle.ioa_tree.specs.WellFormed as well_formed;
ghost use Rattle.ioa_rules.specs.KnownTypes.{whole, early};
ghost use Rattle.ioa_rules.specs.Reasons as reasons;
ghost use Rattle.ioa_rules.specs.Types.{types_fine};
ghost use Rattle.ioa_rules.specs.Verdicts.{Says, SaysOrMemory};

use crate::automata::{automaton_fine, automaton_named};
use crate::expressions::type_of;
use crate::globals::global_names;
use crate::invariants::invariant_fine;
use crate::known_types::KnownTypes;
use crate::limits::source_within;
use crate::name_set::NameSet;
use crate::names::distinct;
use crate::scope::Scope;
use crate::types::source_types;
use ioa_lex::Refusal;
use ioa_tree::{Assembly, Declaration, Expression, Instance, Name};
use ioa_value::Types;
use std::alloc::Global;

/// The types of the source, if it is well formed. It asks that the names are legal. Limits come first: what follows takes time by the
/// sizes that they bound. Then come the global names, then the declarations of types, which all others need, and then these.
///
/// # Errors
/// `DuplicateName`, `UnknownName`, `TypeMismatch`, `BadSignature`, `NoProposal`, `TooMany` and `TooWide`, each only where a rule of its own
/// is broken somewhere in the source. `OutOfMemory`.
pub fn source_fine(alloc: Global, declarations: &[Declaration]) -> Result<Types, Refusal>
    requires { LegalNames (tree_of declarations.now) }
    ensures fine { SaysOrMemory result (well_formed.well_formed (tree_of declarations.now)) (reasons.in_source (tree_of declarations.now)) }
    ensures types { IfOk result (λ types. types ≡ types_of (tree_of declarations.now)) }
{
    source_within(declarations)?;
    let globals = global_names(alloc, declarations)?;
    let types = source_types(alloc, declarations)?;
    declarations_fine(&types, declarations, &globals)?;
    Ok(types)
}

/// Whether each declaration is well formed over those before it, where those of types are.
fn declarations_fine(
    types: &Types,
    declarations: &[Declaration],
    globals: &NameSet,
) -> Result<(), Refusal>
    requires types { types.now ≡ types_of (tree_of declarations.now) }
    requires fine { IsTrue (types_fine basic (tree_of declarations.now)) }
    ensures { let s = tree_of declarations.now in
        Says result (well_formed.declarations_fine types.now globals.now [] s) (reasons.in_declarations types.now globals.now [] s) }
{
    // Bool and Int are known from the start.
    let mut known = KnownTypes { types, count: 2 };
    for i in 0..declarations.len() {
        match &declarations[i] {
            Declaration::Type(_) => known.count += 1,
            Declaration::Automaton(automaton) => automaton_fine(&known, automaton, globals)?,
            Declaration::Composition(composition) => {
                composition_fine(&known, &declarations[..i], composition)?
            }
            Declaration::Invariant(invariant) => {
                invariant_fine(&known, &declarations[..i], invariant)?
            }
        }
    }
    Ok(())
}

/// Whether a composition's components have names of their own and are well formed, and no hidden name stands twice.
#[tactic(auto, using(crate::proofs::ViewLemmas::views))]
fn composition_fine(
    known: &KnownTypes,
    before: &[Declaration],
    composition: &Assembly,
) -> Result<(), Refusal>
    ensures { let c = assembly_of composition.now in Says result (well_formed.composition_fine (whole known.now) (early known.now) (tree_of before.now) c) (reasons.in_composition (whole known.now) (early known.now) (tree_of before.now) c) }
{
    distinct(&composition.instances)?;
    distinct(&composition.hidden)?;
    each_instance_fine(known, before, composition)
}

fn each_instance_fine(
    known: &KnownTypes,
    before: &[Declaration],
    composition: &Assembly,
) -> Result<(), Refusal>
    ensures { let is = (assembly_of composition.now).instances in Says result (list_all (well_formed.instance_fine (whole known.now) (early known.now) (tree_of before.now)) is) (reasons.in_any (reasons.in_instance (whole known.now) (early known.now) (tree_of before.now)) is) }
{
    for instance in &composition.instances {
        instance_fine(known, before, instance)?;
    }
    Ok(())
}

/// Whether a component is of an automaton declared before, and each argument has a type.
fn instance_fine(
    known: &KnownTypes,
    before: &[Declaration],
    instance: &Instance,
) -> Result<(), Refusal>
    ensures { let i = instance_of instance.now in Says result (well_formed.instance_fine (whole known.now) (early known.now) (tree_of before.now) i) (reasons.in_instance (whole known.now) (early known.now) (tree_of before.now) i) }
{
    if !has_automaton(before, &instance.automaton) {
        return Err(Refusal::UnknownName(instance.automaton.line));
    }
    arguments_fine(known, &instance.arguments)
}

fn has_automaton(declarations: &[Declaration], name: &Name) -> bool
    ensures { result ≡ list_any (well_formed.is_automaton_of (name_of name.now)) (tree_of declarations.now) }
{
    automaton_named(declarations, name).is_some()
}

fn arguments_fine(known: &KnownTypes, arguments: &[Expression]) -> Result<(), Refusal>
    ensures { let es = map expr_of arguments.now in Says result (list_all (λ e. option_map_or (λ ty. true) (well_formed.type_of (whole known.now) (early known.now) [] e) false) es) (reasons.in_any (reasons.in_expression (whole known.now) (early known.now) []) es) }
{
    for argument in arguments {
        argument_fine(known, argument)?;
    }
    Ok(())
}

/// Whether an argument has a type.
fn argument_fine(known: &KnownTypes, argument: &Expression) -> Result<(), Refusal>
    ensures { let e = expr_of argument.now in Says result (option_map_or (λ ty. true) (well_formed.type_of (whole known.now) (early known.now) [] e) false) (reasons.in_expression (whole known.now) (early known.now) [] e) }
{
    type_of(&Scope::empty(known), argument)?;
    Ok(())
}
