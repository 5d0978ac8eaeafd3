//! Positions of entries: their parameters, which have names, and their constants, which have none.

ghost use Rattle.std.specs.Prelude.{◌≡◌, ◌++◌, [], map, length, nat_le, is_some, pos, neg_ℤ};
ghost use Rattle.std.specs.List.{list_all};
ghost use Rattle.std.specs.Option.{option_map};
ghost use Rattle.ioa_arithmetic.specs.Arithmetic.{fits};
ghost use Rattle.ioa_value.specs.Plain.{number};
ghost use Rattle.ioa_tree.specs.Instances.{field_names};
ghost use Rattle.ioa_tree.specs.View.{name_of, automaton_of, constant_of, position_of};
ghost use Rattle.ioa_tree.specs.WellFormed as well_formed;
ghost use Rattle.ioa_tree.specs.WellFormed.{type_in, context_of};
ghost use Rattle.ioa_rules.specs.Codes.{duplicate_name, type_mismatch, too_many, tells};
ghost use Rattle.ioa_rules.specs.Fields.{parameters};
ghost use Rattle.ioa_rules.specs.KnownTypes.{early};
ghost use Rattle.ioa_rules.specs.Reasons as reasons;
ghost use Rattle.ioa_rules.specs.Scopes.{context};
ghost use Rattle.ioa_rules.specs.Verdicts.{Says};

use crate::expressions::number_type;
use crate::fields::{type_known, type_under};
use crate::globals::is_global;
use crate::known_types::KnownTypes;
use crate::name_set::NameSet;
use crate::names::{find_name, same_name};
use crate::scope::Scope;
use ioa_lex::Refusal;
use ioa_tree::{Automaton, Constant, Name, Position};
use ioa_value::{LIMITS, Ty};

/// The type of the first of the parameters that has this name and a type.
pub(crate) fn find_parameter(known: &KnownTypes, positions: &[Position], name: &Name) -> Option<Ty>
    ensures { option_map number result ≡ type_in (context_of (early known.now) (parameters positions.now)) (name_of name.now) }
{
    for position in positions {
        if let Position::Typed(field) = position
            && let Some(ty) = type_under(known, field, name)
        {
            return Some(ty);
        }
    }
    None
}

/// Whether no two parameters have one name. A line is that of the later one's name.
pub(crate) fn parameters_distinct(positions: &[Position]) -> Result<(), Refusal>
    ensures { Says result (well_formed.distinct (field_names (parameters positions.now))) (tells duplicate_name) }
{
    let mut rest = positions;
    while let [first, later @ ..] = rest {
        if let Position::Typed(field) = first
            && let Some(again) = parameter_named(later, &field.name)
        {
            return Err(Refusal::DuplicateName(again.line));
        }
        rest = later;
    }
    Ok(())
}

/// The name of the first of the parameters that has this name.
pub(crate) fn parameter_named<'a>(positions: &'a [Position], name: &Name) -> Option<&'a Name>
    ensures { is_some result ≡ well_formed.contains (field_names (parameters positions.now)) (name_of name.now) }
{
    for position in positions {
        if let Position::Typed(field) = position
            && same_name(&field.name, name)
        {
            return Some(&field.name);
        }
    }
    None
}

/// Whether no parameter has the name of a formal, of a variable or of something global. A line is that of the parameter.
pub(crate) fn parameters_apart(
    automaton: &Automaton,
    positions: &[Position],
    globals: &NameSet,
) -> Result<(), Refusal>
    ensures { Says result (well_formed.apart (field_names (parameters positions.now)) (globals.now ++ well_formed.local_names [] [] [] (automaton_of automaton.now))) (tells duplicate_name) }
{
    for position in positions {
        if let Position::Typed(field) = position
            && is_taken(automaton, &field.name, globals)
        {
            return Err(Refusal::DuplicateName(field.name.line));
        }
    }
    Ok(())
}

/// Whether a formal, a variable or something global has this name.
#[tactic(auto, using(crate::proofs::ViewLemmas::views, crate::proofs::NameLemmas::joins))]
pub(crate) fn is_taken(automaton: &Automaton, name: &Name, globals: &NameSet) -> bool
    ensures { result ≡ well_formed.contains (globals.now ++ well_formed.local_names [] [] [] (automaton_of automaton.now)) (name_of name.now) }
{
    is_global(name, globals)
        || find_name(&automaton.formals, name).is_some()
        || find_name(&automaton.variables, name).is_some()
}

/// Whether each parameter's type is declared before, and each constant is fine beside the names of the scope.
pub(crate) fn positions_fine(scope: &Scope, positions: &[Position]) -> Result<(), Refusal>
    ensures { let k = scope.now.known in let ps = map position_of positions.now in
        Says result (list_all (well_formed.position_fine (early k) (context scope.now)) ps) (reasons.in_any (reasons.in_position (early k) (context scope.now)) ps) }
{
    for position in positions {
        position_fine(scope, position)?;
    }
    Ok(())
}

fn position_fine(scope: &Scope, position: &Position) -> Result<(), Refusal>
    ensures { let k = scope.now.known in let p = position_of position.now in
        Says result (well_formed.position_fine (early k) (context scope.now) p) (reasons.in_position (early k) (context scope.now) p) }
{
    match position {
        Position::Typed(field) => type_known(&scope.known, field),
        Position::Constant(constant) => constant_fine(scope, constant),
    }
}

/// Whether a constant's number fits, and its name is one of the scope's or an enumeration's. A line is that of the number
/// or the name.
fn constant_fine(scope: &Scope, constant: &Constant) -> Result<(), Refusal>
    ensures { let k = scope.now.known in let c = constant_of constant.now in
        Says result (well_formed.constant_fine (early k) (context scope.now) c) (reasons.in_constant (early k) (context scope.now) c) }
{
    match constant {
        Constant::Number(n, line) => positive_fine(*n, *line),
        Constant::Negative(n, line) => negative_fine(*n, *line),
        Constant::Truth(_, _) => Ok(()),
        Constant::Name(name) => match scope.lookup(name) {
            Some(_) => Ok(()),
            None => Err(Refusal::UnknownName(name.line)),
        },
    }
}

fn positive_fine(n: u64, line: u32) -> Result<(), Refusal>
    ensures { Says result (fits (pos n)) (tells type_mismatch) }
{
    number_type(n, line)?;
    Ok(())
}

/// Whether a number fits after `-`: there is one negative number more.
fn negative_fine(n: u64, line: u32) -> Result<(), Refusal>
    ensures { Says result (fits (neg_ℤ (pos n))) (tells type_mismatch) }
{
    if n <= 0x8000_0000_0000_0000 {
        Ok(())
    } else {
        Err(Refusal::TypeMismatch(line))
    }
}

/// Whether there are no more positions than the limit. A line is that of the first that is too many.
pub(crate) fn positions_within(positions: &[Position]) -> Result<(), Refusal>
    ensures { Says result (nat_le (length positions.now) LIMITS.parameters) (tells too_many) }
{
    if positions.len() <= LIMITS.parameters {
        return Ok(());
    }
    Err(Refusal::TooMany(line(&positions[LIMITS.parameters])))
}

fn line(position: &Position) -> u32 {
    match position {
        Position::Typed(field) => field.name.line,
        Position::Constant(constant) => constant.line(),
    }
}
