//! The operators of expressions and of code, by the types that they take and give.

ghost use Rattle.std.specs.Prelude.{◌≡◌, ◌&&◌, ◌==◌, map};
ghost use Rattle.std.specs.Option.{option_map};
ghost use Rattle.ioa_value.specs.Plain.{number};
ghost use Rattle.ioa_value.specs.Operators as spec;
ghost use Rattle.ioa_value.specs.declared.operator.Class.TheVariants.{Size, Item, Shortening, Change, Index, Membership, Construction, Projection};

use crate::parts::{are_fields, field_count, field_type, is_item, item_type};
use crate::types::Types;
use crate::value::Ty;

/// An operator on values.
#[derive(Clone, Copy, PartialEq, Eq, Debug)]
pub enum Op {
    /// The negative of a number.
    Neg,
    Add,
    Sub,
    Mul,
    /// The Euclidean quotient.
    Div,
    /// The remainder of the Euclidean quotient.
    Mod,
    Lt,
    Le,
    Gt,
    Ge,
    /// The other truth value.
    Not,
    Eq,
    Ne,
    /// How many items a sequence has.
    Len,
    /// The first item.
    Head,
    /// All items but the first.
    Tail,
    /// The last item.
    Last,
    /// All items but the last.
    Init,
    /// A sequence and one more item, put last.
    Append,
    /// The item of a sequence at a place, from 0.
    At,
    /// Whether an item is in a sequence.
    Member,
    /// A sequence less its first item that equals this one.
    Without,
    /// The tuple of this type, of its fields in order.
    Make(Ty),
    /// The field at this place, from 0, of a tuple.
    Field(u16),
}

/// What an operator takes and gives, which is said once for all operators of a class.
#[derive(Clone, Copy)]
pub(crate) enum Class {
    /// Of a number a number.
    Negation,
    /// Of two numbers a number.
    Arithmetic,
    /// Of two numbers a truth value.
    Comparison,
    /// Of a truth value a truth value.
    Denial,
    /// Of two values of one type a truth value.
    Equality,
    /// Of a sequence a number.
    Size,
    /// Of a sequence one of its items.
    Item,
    /// Of a sequence one of its type.
    Shortening,
    /// Of a sequence and an item a sequence of its type.
    Change,
    /// Of a sequence and a number one of its items.
    Index,
    /// Of an item and a sequence a truth value.
    Membership,
    /// Of the fields of a tuple the tuple.
    Construction(Ty),
    /// Of a tuple its field at this place.
    Projection(u16),
}

pub(crate) fn class_of(op: Op) -> Class
    ensures { result ≡ spec.class_of op }
{
    match op {
        Op::Neg => Class::Negation,
        Op::Add | Op::Sub | Op::Mul | Op::Div | Op::Mod => Class::Arithmetic,
        Op::Lt | Op::Le | Op::Gt | Op::Ge => Class::Comparison,
        Op::Not => Class::Denial,
        Op::Eq | Op::Ne => Class::Equality,
        Op::Len => Class::Size,
        Op::Head | Op::Last => Class::Item,
        Op::Tail | Op::Init => Class::Shortening,
        Op::Append | Op::Without => Class::Change,
        Op::At => Class::Index,
        Op::Member => Class::Membership,
        Op::Make(ty) => Class::Construction(ty),
        Op::Field(place) => Class::Projection(place),
    }
}

/// Whether the operator's value may take memory of its own: a number or a truth value takes none.
pub fn grows(op: Op) -> bool
    ensures { result ≡ spec.grows op }
{
    match class_of(op) {
        Class::Negation
        | Class::Arithmetic
        | Class::Comparison
        | Class::Denial
        | Class::Equality
        | Class::Size
        | Class::Membership => false,
        Class::Item
        | Class::Shortening
        | Class::Change
        | Class::Index
        | Class::Construction(_)
        | Class::Projection(_) => true,
    }
}

impl Op {
    /// How many operands the operator takes.
    pub fn arity(self, types: &Types) -> usize
        ensures { result ≡ spec.arity types.now self }
    {
        match class_of(self) {
            Class::Negation
            | Class::Denial
            | Class::Size
            | Class::Item
            | Class::Shortening
            | Class::Projection(_) => 1,
            Class::Arithmetic
            | Class::Comparison
            | Class::Equality
            | Class::Change
            | Class::Index
            | Class::Membership => 2,
            Class::Construction(ty) => field_count(types, ty),
        }
    }
}

/// The type of what the operator gives, where it takes operands of these types.
pub fn op_type(types: &Types, op: Op, operands: &[Ty]) -> Option<Ty>
    ensures { option_map number result ≡ spec.op_type types.now op (map number operands.now) }
{
    match class_of(op) {
        Class::Negation => of_one(Ty::INT, Ty::INT, operands),
        Class::Arithmetic => of_both(Ty::INT, Ty::INT, operands),
        Class::Comparison => of_both(Ty::INT, Ty::BOOL, operands),
        Class::Denial => of_one(Ty::BOOL, Ty::BOOL, operands),
        Class::Equality => of_alike(Ty::BOOL, operands),
        Class::Size => of_size(types, operands),
        Class::Item => of_item(types, operands),
        Class::Shortening => of_shortening(types, operands),
        Class::Change => of_change(types, operands),
        Class::Index => of_index(types, operands),
        Class::Membership => of_membership(types, operands),
        Class::Construction(ty) => of_construction(types, ty, operands),
        Class::Projection(place) => of_projection(types, place, operands),
    }
}

/// What is given of one operand of the type.
fn of_one(taken: Ty, given: Ty, operands: &[Ty]) -> Option<Ty>
    ensures { option_map number result ≡ spec.of_one (λ a. spec.given given.0 (a == taken.0)) (map number operands.now) }
{
    match operands {
        [a] if *a == taken => Some(given),
        _ => None,
    }
}

/// What is given of two operands of the type.
fn of_both(taken: Ty, given: Ty, operands: &[Ty]) -> Option<Ty>
    ensures { option_map number result ≡ spec.of_two (λ a b. spec.given given.0 ((a == taken.0) && (b == taken.0))) (map number operands.now) }
{
    match operands {
        [a, b] if *a == taken && *b == taken => Some(given),
        _ => None,
    }
}

/// What is given of two operands of one type.
fn of_alike(given: Ty, operands: &[Ty]) -> Option<Ty>
    ensures { option_map number result ≡ spec.of_two (λ a b. spec.given given.0 (a == b)) (map number operands.now) }
{
    match operands {
        [a, b] if *a == *b => Some(given),
        _ => None,
    }
}

fn of_size(types: &Types, operands: &[Ty]) -> Option<Ty>
    ensures { option_map number result ≡ spec.type_of types.now Size (map number operands.now) }
{
    match operands {
        [s] if item_type(types, *s).is_some() => Some(Ty::INT),
        _ => None,
    }
}

fn of_item(types: &Types, operands: &[Ty]) -> Option<Ty>
    ensures { option_map number result ≡ spec.type_of types.now Item (map number operands.now) }
{
    match operands {
        [s] => item_type(types, *s),
        _ => None,
    }
}

fn of_shortening(types: &Types, operands: &[Ty]) -> Option<Ty>
    ensures { option_map number result ≡ spec.type_of types.now Shortening (map number operands.now) }
{
    match operands {
        [s] if item_type(types, *s).is_some() => Some(*s),
        _ => None,
    }
}

fn of_change(types: &Types, operands: &[Ty]) -> Option<Ty>
    ensures { option_map number result ≡ spec.type_of types.now Change (map number operands.now) }
{
    match operands {
        [s, a] if is_item(types, *s, *a) => Some(*s),
        _ => None,
    }
}

fn of_index(types: &Types, operands: &[Ty]) -> Option<Ty>
    ensures { option_map number result ≡ spec.type_of types.now Index (map number operands.now) }
{
    match operands {
        [s, place] if *place == Ty::INT => item_type(types, *s),
        _ => None,
    }
}

fn of_membership(types: &Types, operands: &[Ty]) -> Option<Ty>
    ensures { option_map number result ≡ spec.type_of types.now Membership (map number operands.now) }
{
    match operands {
        [a, s] if is_item(types, *s, *a) => Some(Ty::BOOL),
        _ => None,
    }
}

fn of_construction(types: &Types, ty: Ty, operands: &[Ty]) -> Option<Ty>
    ensures { option_map number result ≡ spec.type_of types.now (Construction ty) (map number operands.now) }
{
    if are_fields(types, ty, operands) {
        Some(ty)
    } else {
        None
    }
}

fn of_projection(types: &Types, place: u16, operands: &[Ty]) -> Option<Ty>
    ensures { option_map number result ≡ spec.type_of types.now (Projection place) (map number operands.now) }
{
    match operands {
        [tuple] => field_type(types, *tuple, place),
        _ => None,
    }
}
