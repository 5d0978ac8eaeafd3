//! Loops that stand within each other.

ghost use Rattle.std.specs.Prelude.{◌≡◌, ◌∷◌, length, nat_lt, true, false, IfSome, IfNone};
ghost use Rattle.std.specs.Option.{option_map};
ghost use Rattle.ioa_value.specs.Plain.{number};
ghost use Rattle.ioa_value.specs.declared.limits.TheConstants.{LIMITS};
ghost use Rattle.ioa_tree.specs.View.{name_of};
ghost use Rattle.ioa_tree.specs.WellFormed.{type_in};
ghost use Rattle.ioa_rules.specs.Loops.{loop_of, loops_of, item_under};

use crate::names::same_name;
use ioa_tree::Name;
use ioa_value::Ty;

/// A loop: its name, and the type of the items for which the name stands.
#[derive(Clone, Copy)]
pub struct Loop<'a> {
    pub name: &'a Name,
    pub item: Ty,
}

impl<'a> Loop<'a> {
    /// The type of the items, where the loop has this name.
    fn item(&self, name: &Name) -> Option<Ty>
        ensures { option_map number result ≡ item_under self.now (name_of name.now) }
    {
        if same_name(self.name, name) {
            Some(self.item)
        } else {
            None
        }
    }
}

/// Loops within each other, the innermost first: no more than may be.
#[derive(Clone, Copy)]
pub enum Loops<'a> {
    None,
    One(Loop<'a>),
    Two(Loop<'a>, Loop<'a>),
    Three(Loop<'a>, Loop<'a>, Loop<'a>),
}

impl<'a> Loops<'a> {
    /// These and one more within them. None where this is one too many.
    pub fn with(&self, inner: Loop<'a>) -> Option<Loops<'a>>
        ensures more { IfSome result (λ loops. loops_of loops ≡ loop_of inner.entry ∷ loops_of self.now) }
        ensures within { IfSome result (λ loops. nat_lt (length (loops_of self.now)) LIMITS.loops ≡ true) }
        ensures full { IfNone result (nat_lt (length (loops_of self.now)) LIMITS.loops ≡ false) }
    {
        match *self {
            Loops::None => Some(Loops::One(inner)),
            Loops::One(first) => Some(Loops::Two(inner, first)),
            Loops::Two(first, second) => Some(Loops::Three(inner, first, second)),
            Loops::Three(_, _, _) => None,
        }
    }

    /// The type of the items of the innermost that has this name.
    pub fn item(&self, name: &Name) -> Option<Ty>
        ensures { option_map number result ≡ type_in (loops_of self.now) (name_of name.now) }
    {
        match self {
            Loops::None => None,
            Loops::One(first) => first.item(name),
            Loops::Two(first, second) => first.item(name).or(second.item(name)),
            Loops::Three(first, second, third) => first
                .item(name)
                .or(second.item(name))
                .or(third.item(name)),
        }
    }
}
