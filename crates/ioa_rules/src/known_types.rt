//! Types are declared before they are used: a declaration sees the beginning of the table alone.

ghost use Rattle.std.specs.Prelude.{◌≡◌, Some, None, IfSome, IfNone};
ghost use Rattle.std.specs.Option.{option_map};
ghost use Rattle.ioa_value.specs.Plain.{number};
ghost use Rattle.ioa_value.specs.Shapes.{shape};
ghost use Rattle.ioa_value.specs.Table as table;
ghost use Rattle.ioa_tree.specs.Types.{constant_type};
ghost use Rattle.ioa_tree.specs.View.{name_of};
ghost use Rattle.ioa_rules.specs.KnownTypes.{whole, early};

use ioa_tree::Name;
use ioa_value::{Form, Ty, Types};

/// The types of a source, of which a part of it may name the first so many: those declared before it.
#[derive(Clone, Copy)]
pub(crate) struct KnownTypes<'a> {
    pub(crate) types: &'a Types,
    pub(crate) count: usize,
}

impl<'a> KnownTypes<'a> {
    /// All of these types.
    pub(crate) fn of_all(types: &'a Types) -> KnownTypes<'a>
        ensures whole { whole result ≡ types.now }
        ensures early { early result ≡ types.now }
    {
        KnownTypes {
            types,
            count: types.len(),
        }
    }

    /// The type of this name, if it is declared before.
    pub(crate) fn named(&self, name: &Name) -> Option<Ty>
        ensures { option_map number result ≡ table.type_named (early self.now) (name_of name.now) }
    {
        match self.types.named(name.text.as_str()) {
            Some(ty) if (ty.0 as usize) < self.count => Some(ty),
            _ => None,
        }
    }

    /// The enumeration that has this name, if it is declared before.
    pub(crate) fn constant(&self, name: &Name) -> Option<Ty>
        ensures { option_map number result ≡ constant_type (early self.now) (name_of name.now) }
    {
        match self.types.constant(name.text.as_str()) {
            Some((ty, _)) if (ty.0 as usize) < self.count => Some(ty),
            _ => None,
        }
    }

    /// What the type of this number is, if it is declared before.
    pub(crate) fn form(&self, ty: Ty) -> Option<&'a Form>
        ensures found { IfSome result (λ form. table.shape_at (early self.now) ty.0 ≡ Some (shape form.now)) }
        ensures missing { IfNone result (table.shape_at (early self.now) ty.0 ≡ None) }
    {
        if (ty.0 as usize) < self.count {
            self.types.form(ty)
        } else {
            None
        }
    }
}
