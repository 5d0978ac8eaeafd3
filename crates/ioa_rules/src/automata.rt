//! The rules of an automaton: of its names and types, its start values, signature and transitions.

ghost use Rattle.std.specs.Prelude.{◌≡◌, ◌&&◌, [], map, option_map};
ghost use Rattle.std.specs.List.{list_all};
ghost use Rattle.ioa_tree.specs.Compositions as compositions;
ghost use Rattle.ioa_tree.specs.View.{automaton_of, entry_of, variable_of, name_of, tree_of};
ghost use Rattle.ioa_tree.specs.WellFormed as well_formed;
ghost use Rattle.ioa_rules.specs.KnownTypes.{whole, early};
ghost use Rattle.ioa_rules.specs.Codes.{duplicate_name, tells};
ghost use Rattle.ioa_rules.specs.Reasons as reasons;
ghost use Rattle.ioa_rules.specs.Verdicts.{Says};

use crate::expressions::expect_type;
use crate::fields::types_known;
use crate::globals::apart_from_globals;
use crate::known_types::KnownTypes;
use crate::name_set::NameSet;
use crate::names::{apart, distinct, same_name};
use crate::positions::{parameters_apart, parameters_distinct, positions_fine};
use crate::scope::Scope;
use crate::transitions::{one_to_one, transitions_fine};
use ioa_lex::Refusal;
use ioa_tree::{Automaton, Declaration, Entry, Name, Variable};

/// The automaton of this name among the declarations.
pub fn automaton_named<'a>(declarations: &'a [Declaration], name: &Name) -> Option<&'a Automaton>
    ensures { option_map (λ a. automaton_of a.now) result ≡ compositions.automaton_named (tree_of declarations.now) (name_of name.now) }
{
    for declaration in declarations {
        if let Declaration::Automaton(automaton) = declaration
            && same_name(&automaton.name, name)
        {
            return Some(automaton);
        }
    }
    None
}

/// Whether an automaton is well formed beside these global names.
pub(crate) fn automaton_fine(
    known: &KnownTypes,
    automaton: &Automaton,
    globals: &NameSet,
) -> Result<(), Refusal>
    ensures { Says result (well_formed.automaton_fine (whole known.now) (early known.now) globals.now (automaton_of automaton.now)) (reasons.in_automaton (whole known.now) (early known.now) globals.now (automaton_of automaton.now)) }
{
    fields_fine(known, automaton, globals)?;
    starts_fine(known, automaton)?;
    entries_fine(known, automaton, globals)?;
    one_to_one(automaton)?;
    transitions_fine(known, automaton, globals)
}

/// Whether formals and variables have names of their own and known types.
#[tactic(auto, using(crate::proofs::ViewLemmas::views))]
fn fields_fine(known: &KnownTypes, automaton: &Automaton, globals: &NameSet) -> Result<(), Refusal>
    ensures { Says result (well_formed.fields_fine (whole known.now) (early known.now) globals.now (automaton_of automaton.now)) (reasons.in_fields (whole known.now) (early known.now) globals.now (automaton_of automaton.now)) }
{
    names_distinct(automaton)?;
    names_apart(automaton, globals)?;
    types_known(known, &automaton.formals)?;
    types_known(known, &automaton.variables)
}

#[tactic(auto, using(crate::proofs::ViewLemmas::views, crate::proofs::NameLemmas::joins))]
fn names_distinct(automaton: &Automaton) -> Result<(), Refusal>
    ensures { Says result (well_formed.distinct (well_formed.local_names [] [] [] (automaton_of automaton.now))) (tells duplicate_name) }
{
    distinct(&automaton.formals)?;
    distinct(&automaton.variables)?;
    apart(&automaton.variables, &automaton.formals)
}

#[tactic(auto, using(crate::proofs::ViewLemmas::views, crate::proofs::NameLemmas::joins))]
fn names_apart(automaton: &Automaton, globals: &NameSet) -> Result<(), Refusal>
    ensures { Says result (well_formed.apart (well_formed.local_names [] [] [] (automaton_of automaton.now)) globals.now) (tells duplicate_name) }
{
    apart_from_globals(&automaton.formals, globals)?;
    apart_from_globals(&automaton.variables, globals)
}

/// Whether each start expression has its variable's type.
fn starts_fine(known: &KnownTypes, automaton: &Automaton) -> Result<(), Refusal>
    ensures { let a = automaton_of automaton.now in Says result (list_all (well_formed.start_fine (whole known.now) (early known.now) [] a) a.variables) (reasons.in_any (reasons.in_start (whole known.now) (early known.now) [] a) a.variables) }
{
    for variable in &automaton.variables {
        start_fine(known, automaton, variable)?;
    }
    Ok(())
}

fn start_fine(known: &KnownTypes, automaton: &Automaton, variable: &Variable) -> Result<(), Refusal>
    ensures { let a = automaton_of automaton.now in let v = variable_of variable.now in Says result (well_formed.start_fine (whole known.now) (early known.now) [] a v) (reasons.in_start (whole known.now) (early known.now) [] a v) }
{
    match &variable.start {
        None => Ok(()),
        Some(start) => {
            let ty = &variable.field.ty;
            match known.named(ty) {
                Some(ty) => expect_type(&Scope::of_starts(known, automaton), start, ty),
                None => Err(Refusal::UnknownName(ty.line)),
            }
        }
    }
}

/// Whether entries have names of their own, and parameters and constants that are fine.
#[tactic(auto, using(crate::proofs::ViewLemmas::views))]
fn entries_fine(known: &KnownTypes, automaton: &Automaton, globals: &NameSet) -> Result<(), Refusal>
    ensures { let a = automaton_of automaton.now in Says result (well_formed.distinct (map (λ e. e.name) a.entries) && list_all (well_formed.entry_fine (whole known.now) (early known.now) globals.now a) a.entries) (reasons.in_entries (whole known.now) (early known.now) globals.now a) }
{
    distinct(&automaton.entries)?;
    each_entry_fine(known, automaton, globals)
}

fn each_entry_fine(
    known: &KnownTypes,
    automaton: &Automaton,
    globals: &NameSet,
) -> Result<(), Refusal>
    ensures { let a = automaton_of automaton.now in Says result (list_all (well_formed.entry_fine (whole known.now) (early known.now) globals.now a) a.entries) (reasons.in_any (reasons.in_entry (whole known.now) (early known.now) globals.now a) a.entries) }
{
    for entry in &automaton.entries {
        entry_fine(known, automaton, entry, globals)?;
    }
    Ok(())
}

/// Whether parameters have names of their own and known types, and constants name no variable and no parameter.
fn entry_fine(
    known: &KnownTypes,
    automaton: &Automaton,
    entry: &Entry,
    globals: &NameSet,
) -> Result<(), Refusal>
    ensures { let a = automaton_of automaton.now in let e = entry_of entry.now in Says result (well_formed.entry_fine (whole known.now) (early known.now) globals.now a e) (reasons.in_entry (whole known.now) (early known.now) globals.now a e) }
{
    parameters_distinct(&entry.positions)?;
    parameters_apart(automaton, &entry.positions, globals)?;
    positions_fine(&Scope::of_starts(known, automaton), &entry.positions)
}
