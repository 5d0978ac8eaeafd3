//! Variables, formals and parameters by their types, which are declared before them.

ghost use Rattle.std.specs.Prelude.{◌≡◌, map};
ghost use Rattle.std.specs.List.{list_all};
ghost use Rattle.std.specs.Option.{option_map};
ghost use Rattle.ioa_tree.specs.Tree.{FieldTree};
ghost use Rattle.ioa_tree.specs.View.{name_of};
ghost use Rattle.ioa_tree.specs.View as view;
ghost use Rattle.ioa_value.specs.Plain.{number};
ghost use Rattle.ioa_tree.specs.WellFormed.{type_in, context_of, is_type};
ghost use Rattle.ioa_rules.specs.Fields.{type_under};
ghost use Rattle.ioa_rules.specs.Codes.{unknown_name, tells};
ghost use Rattle.ioa_rules.specs.KnownTypes.{early};
ghost use Rattle.ioa_rules.specs.Verdicts.{Says};

use crate::known_types::KnownTypes;
use crate::names::same_name;
use ioa_lex::Refusal;
use ioa_tree::{Field, Name, Variable};
use ioa_value::Ty;

/// What has a name and the name of a type in a source.
pub(crate) trait Typed {
    ghost tree: { Self → FieldTree };

    fn field(&self) -> &Field
        ensures { view.field_of result.now ≡ tree self.now };
}

impl Typed for Field {
    ghost use Rattle.ioa_tree.specs.View.{field_of};

    ghost tree = { field_of };

    fn field(&self) -> &Field {
        self
    }
}

impl Typed for Variable {
    ghost use Rattle.ioa_tree.specs.View.{field_of};

    ghost tree = { λ v. field_of v.field };

    fn field(&self) -> &Field {
        &self.field
    }
}

/// The type of the first of the items that has this name and a type.
pub(crate) fn find_type<T: Typed>(known: &KnownTypes, items: &[T], name: &Name) -> Option<Ty>
    ensures { option_map number result ≡ type_in (context_of (early known.now) (map T.tree items.now)) (name_of name.now) }
{
    for item in items {
        if let Some(ty) = type_under(known, item.field(), name) {
            return Some(ty);
        }
    }
    None
}

/// The type of a field, where it has this name.
pub(crate) fn type_under(known: &KnownTypes, field: &Field, name: &Name) -> Option<Ty>
    ensures { option_map number result ≡ type_under (early known.now) (view.field_of field.now) (name_of name.now) }
{
    if same_name(&field.name, name) {
        known.named(&field.ty)
    } else {
        None
    }
}

/// Whether each item's type is declared before.
pub(crate) fn types_known<T: Typed>(known: &KnownTypes, items: &[T]) -> Result<(), Refusal>
    ensures { Says result (list_all (is_type (early known.now)) (map T.tree items.now)) (tells unknown_name) }
{
    for item in items {
        type_known(known, item.field())?;
    }
    Ok(())
}

/// Whether the type of a field is declared before. A line is that of the type's name.
pub(crate) fn type_known(known: &KnownTypes, field: &Field) -> Result<(), Refusal>
    ensures { Says result (is_type (early known.now) (view.field_of field.now)) (tells unknown_name) }
{
    let ty = &field.ty;
    if known.named(ty).is_none() {
        return Err(Refusal::UnknownName(ty.line));
    }
    Ok(())
}
