//! Tuples in expressions: which types are of tuples, and of which types their fields are.

ghost use Rattle.std.specs.Prelude.{◌≡◌, Some, slice_get};
ghost use Rattle.std.specs.Option.{option_map};
ghost use Rattle.ioa_value.specs.Operators.{is_that};
ghost use Rattle.ioa_value.specs.Plain.{number};
ghost use Rattle.ioa_value.specs.Table.{field_types};
ghost use Rattle.ioa_tree.specs.View.{name_of};
ghost use Rattle.ioa_tree.specs.WellFormed as well_formed;
ghost use Rattle.ioa_rules.specs.KnownTypes.{whole, early};
ghost use Rattle.ioa_rules.specs.Reasons as reasons;
ghost use Rattle.ioa_rules.specs.Tuples.{tuple_named, in_tuple_name};
ghost use Rattle.ioa_rules.specs.Verdicts.{Finds};

use crate::known_types::KnownTypes;
use ioa_lex::Refusal;
use ioa_tree::Name;
use ioa_value::{Form, Op, Ty, Types, op_type};

/// The tuple type of this name.
pub(crate) fn tuple_named(known: &KnownTypes, name: &Name) -> Result<Ty, Refusal>
    ensures { Finds result (tuple_named (whole known.now) (early known.now) (name_of name.now)) (in_tuple_name (whole known.now) (early known.now) (name_of name.now)) }
{
    let Some(ty) = known.named(name) else {
        return Err(Refusal::UnknownName(name.line));
    };
    match known.types.form(ty) {
        Some(Form::Fields(_)) => Ok(ty),
        _ => Err(Refusal::TypeMismatch(name.line)),
    }
}

/// Whether the type is of tuples.
fn has_fields(types: &Types, ty: Ty) -> bool
    ensures { result ≡ reasons.has_fields types.now ty.0 }
{
    Op::Make(ty).arity(types) != 0
}

/// Whether tuples of a type have a field of this type at this place.
#[tactic(auto, using(ioa_value::proofs::PartLemmas::field_there, ioa_value::proofs::FieldLemmas::type_past))]
pub(crate) fn is_field(types: &Types, tuple: Ty, place: usize, ty: Ty) -> bool
    ensures { result ≡ is_that (slice_get (field_types types.now tuple.0) place) ty.0 }
{
    match types.form(tuple) {
        Some(Form::Fields(fields)) => place < fields.len() && fields[place].ty == ty,
        _ => false,
    }
}

/// The type of the field of this name, where tuples of the type have one. A line is that of the field's name or, where the
/// type is of no tuples, of what is of it.
pub(crate) fn selected_type(
    types: &Types,
    tuple: Ty,
    field: &Name,
    line: u32,
) -> Result<Ty, Refusal>
    ensures { Finds result (well_formed.selected_type types.now (name_of field.now) tuple.0) (reasons.in_selected types.now (name_of field.now) (Some tuple.0)) }
{
    match field_type(types, tuple, field) {
        Some(ty) => Ok(ty),
        None if has_fields(types, tuple) => Err(Refusal::UnknownName(field.line)),
        None => Err(Refusal::TypeMismatch(line)),
    }
}

fn field_type(types: &Types, tuple: Ty, field: &Name) -> Option<Ty>
    ensures { option_map number result ≡ well_formed.selected_type types.now (name_of field.now) tuple.0 }
{
    match types.field(tuple, field.text.as_str()) {
        Some(place) => op_type(types, Op::Field(place), &[tuple]),
        None => None,
    }
}
