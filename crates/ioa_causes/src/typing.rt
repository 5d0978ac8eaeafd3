//! Where in an expression a rule of types is broken: which type is wanted there, and which is found.

ghost use Rattle.std.specs.Prelude.{◌≡◌, IfSome, None, Some};
ghost use Rattle.std.specs.Option.{option_map};
ghost use Rattle.ioa_value.specs.Plain.{number};
ghost use Rattle.ioa_tree.specs.View.{expr_of};
ghost use Rattle.ioa_causes.specs.declared.typing.Scope.{Scope};
ghost use Rattle.ioa_causes.specs.Typing as spec;
ghost use Rattle.ioa_causes.specs.Typing.{IsFound};

use ioa_grammar::word_of;
use ioa_lex::Terminal;
use ioa_rules::{Loops, expression_type};
use ioa_tree::{Expression, Field, Infix, Name, Position, Variable};
use ioa_value::{Form, Op, Ty, Types, op_type};

/// What the expressions of a place may name.
#[derive(Clone, Copy)]
pub struct Scope<'a> {
    pub types: &'a Types,
    pub variables: &'a [Variable],
    pub formals: &'a [Field],
    pub positions: &'a [Position],
    pub loops: Loops<'a>,
}

impl<'a> Scope<'a> {
    /// The type of an expression, where it has one.
    pub fn type_of(&self, expression: &Expression) -> Option<Ty>
        ensures { option_map number result ≡ spec.type_in self.now (expr_of expression.now) }
    {
        expression_type(
            self.types,
            self.variables,
            self.formals,
            self.positions,
            &self.loops,
            expression,
        )
    }
}

/// What wants an expression of a type.
#[derive(Clone, Copy)]
pub enum Part<'a> {
    /// The variable or the parameter of this name.
    Named(&'a Name),
    Precondition,
    Condition,
    Invariant,
    /// The bound of `any`.
    Bound,
    /// A word or sign round or between its operands.
    Word(Terminal),
    /// The field at this place of a tuple of this type.
    Field(Ty, usize),
}

/// Which types are wanted.
#[derive(Clone, Copy)]
pub enum Wanted {
    One(Ty),
    /// Any type of sequences.
    Sequence,
    /// Any type of sequences of these items.
    SequenceOf(Ty),
    /// Any type of tuples.
    Tuple,
    /// Any type on the left, and its sequences on the right.
    ItemAndSequence,
    /// Some others.
    Others,
}

/// How a rule of types is broken.
#[derive(Clone, Copy)]
pub enum Misfit<'a> {
    /// A part wants other types than that of the expression.
    Type {
        part: Part<'a>,
        wanted: Wanted,
        expression: &'a Expression,
        found: Ty,
    },
    /// A number is proposed for this parameter, which is of this type.
    Any(&'a Name, Ty, u32),
    /// The type of this name has no tuples.
    NoTuples(&'a Name),
    /// The type of this name has no sequences.
    NoSequences(&'a Name),
    /// Tuples of the type of this name have so many fields, and so many are given.
    Count(&'a Name, usize, usize),
}

impl Misfit<'_> {
    /// The index of the token at which the rule is broken.
    pub fn index(&self) -> u32 {
        match self {
            Misfit::Type { expression, .. } => expression.line(),
            Misfit::Any(_, _, index) => *index,
            Misfit::NoTuples(name) | Misfit::NoSequences(name) | Misfit::Count(name, _, _) => {
                name.line
            }
        }
    }
}

/// How the rules of types are broken by an expression of which a part wants this type. None, where they are not.
pub fn misfit_of<'a>(
    scope: &Scope<'a>,
    part: Part<'a>,
    wanted: Ty,
    expression: &'a Expression,
) -> Option<Misfit<'a>>
    ensures found { IfSome result (IsFound scope.now) }
    ensures fine { spec.type_in scope.now (expr_of expression.now) ≡ Some wanted.0 → result ≡ None }
{
    match scope.type_of(expression) {
        Some(found) if found.0 != wanted.0 => Some(Misfit::Type {
            part,
            wanted: Wanted::One(wanted),
            expression,
            found,
        }),
        Some(_) => None,
        None => misfit_within(scope, expression),
    }
}

/// How the rules of types are broken within an expression, at the first of its parts that has no type where its own parts have. None, where the
/// expression has a type, or breaks another rule.
pub fn misfit_within<'a>(scope: &Scope<'a>, expression: &'a Expression) -> Option<Misfit<'a>>
    ensures { IfSome result (IsFound scope.now) }
{
    if scope.type_of(expression).is_some() {
        return None;
    }
    match expression {
        Expression::Number(_, _) | Expression::Truth(_, _) | Expression::Name(_) => None,
        Expression::Parentheses(inner, _) => misfit_within(scope, inner),
        Expression::Prefix(op, operand, _) => match scope.type_of(operand) {
            None => misfit_within(scope, operand),
            Some(found) => Some(of_operand(scope.types, *op, operand, found)),
        },
        Expression::Binary(left, operator, right, _) => {
            match (scope.type_of(left), scope.type_of(right)) {
                (None, _) => misfit_within(scope, left),
                (_, None) => misfit_within(scope, right),
                (Some(first), Some(second)) => Some(of_operands(
                    scope.types,
                    *operator,
                    (left, first),
                    (right, second),
                )),
            }
        }
        Expression::Empty(name, _) => match scope.types.named(name.text.as_str()) {
            Some(_) => Some(Misfit::NoSequences(name)),
            None => None,
        },
        Expression::Make(name, fields) => {
            for field in fields {
                if scope.type_of(field).is_none() {
                    return misfit_within(scope, field);
                }
            }
            of_fields(scope, name, fields)
        }
        Expression::Select(operand, _, _) => match scope.type_of(operand) {
            None => misfit_within(scope, operand),
            Some(found) if is_tuple(scope.types, found) => None,
            Some(found) => Some(Misfit::Type {
                part: Part::Word(Terminal::Dot),
                wanted: Wanted::Tuple,
                expression: operand,
                found,
            }),
        },
    }
}

fn is_tuple(types: &Types, ty: Ty) -> bool {
    matches!(types.form(ty), Some(Form::Fields(_)))
}

/// How an operator does not take its one operand.
fn of_operand<'a>(types: &Types, op: Op, operand: &'a Expression, found: Ty) -> Misfit<'a>
    ensures { (s : Scope) → spec.type_in s (expr_of operand.now) ≡ Some found.0 → IsFound s result }
{
    let wanted = match op {
        Op::Len | Op::Head | Op::Tail | Op::Last | Op::Init => Wanted::Sequence,
        _ => one_of(taken_alone(types, op)),
    };
    Misfit::Type {
        part: Part::Word(word_of(Infix::Operator(op))),
        wanted,
        expression: operand,
        found,
    }
}

/// How an operator does not take two operands: its left one, where it takes none of its type, and else its right one.
fn of_operands<'a>(
    types: &Types,
    operator: Infix,
    left: (&'a Expression, Ty),
    right: (&'a Expression, Ty),
) -> Misfit<'a>
    ensures { (s : Scope) → spec.type_in s (expr_of left.entry.0.now) ≡ Some left.entry.1.0 → spec.type_in s (expr_of right.entry.0.now) ≡ Some right.entry.1.0 → IsFound s result }
{
    let part = Part::Word(word_of(operator));
    if taken_right(types, operator, left.1).is_some() {
        return Misfit::Type {
            part,
            wanted: wanted_right(types, operator, left.1),
            expression: right.0,
            found: right.1,
        };
    }
    Misfit::Type {
        part,
        wanted: wanted_left(types, operator, right.1),
        expression: left.0,
        found: left.1,
    }
}

/// Which types an operator takes on its right, beside this one.
fn wanted_right(types: &Types, operator: Infix, left: Ty) -> Wanted {
    match operator {
        Infix::Operator(Op::Member) => Wanted::SequenceOf(left),
        _ => one_of(taken_right(types, operator, left)),
    }
}

/// Which types an operator takes on its left, beside this one.
fn wanted_left(types: &Types, operator: Infix, right: Ty) -> Wanted {
    match operator {
        Infix::Operator(Op::Append | Op::At | Op::Without) => Wanted::Sequence,
        Infix::And | Infix::Or | Infix::Implies => Wanted::One(Ty::BOOL),
        Infix::Operator(Op::Member) => match taken_left(types, operator, right) {
            Some(ty) => Wanted::One(ty),
            None => Wanted::ItemAndSequence,
        },
        Infix::Operator(op) => match taken_left(types, operator, right) {
            Some(ty) => Wanted::One(ty),
            None if takes(types, Infix::Operator(op), Ty::INT, Ty::INT) => Wanted::One(Ty::INT),
            None => Wanted::Others,
        },
    }
}

fn one_of(ty: Option<Ty>) -> Wanted {
    match ty {
        Some(ty) => Wanted::One(ty),
        None => Wanted::Others,
    }
}

/// Whether an operator takes two operands of these types.
fn takes(types: &Types, operator: Infix, left: Ty, right: Ty) -> bool {
    match operator {
        Infix::Operator(op) => op_type(types, op, &[left, right]).is_some(),
        Infix::And | Infix::Or | Infix::Implies => left.0 == Ty::BOOL.0 && right.0 == Ty::BOOL.0,
    }
}

/// The first type of which an operator takes one operand.
fn taken_alone(types: &Types, op: Op) -> Option<Ty> {
    for n in 0..types.len() {
        let ty = Ty(n as u16);
        if op_type(types, op, &[ty]).is_some() {
            return Some(ty);
        }
    }
    None
}

/// The first type of which an operator takes its right operand beside a left one of this type.
fn taken_right(types: &Types, operator: Infix, left: Ty) -> Option<Ty> {
    for n in 0..types.len() {
        let ty = Ty(n as u16);
        if takes(types, operator, left, ty) {
            return Some(ty);
        }
    }
    None
}

/// The first type of which an operator takes its left operand beside a right one of this type.
fn taken_left(types: &Types, operator: Infix, right: Ty) -> Option<Ty> {
    for n in 0..types.len() {
        let ty = Ty(n as u16);
        if takes(types, operator, ty, right) {
            return Some(ty);
        }
    }
    None
}

/// How these are not the fields of tuples of the type of this name: there are too few or too many, or one is of another type.
fn of_fields<'a>(scope: &Scope<'a>, name: &'a Name, fields: &'a [Expression]) -> Option<Misfit<'a>>
    ensures { IfSome result (IsFound scope.now) }
{
    let ty = scope.types.named(name.text.as_str())?;
    match scope.types.form(ty) {
        Some(Form::Fields(declared)) if declared.len() != fields.len() => {
            Some(Misfit::Count(name, declared.len(), fields.len()))
        }
        Some(Form::Fields(declared)) => odd_field(scope, ty, declared, fields),
        _ => Some(Misfit::NoTuples(name)),
    }
}

/// The first of the fields that is of another type than the declared one in its place.
fn odd_field<'a>(
    scope: &Scope<'a>,
    tuple: Ty,
    declared: &[ioa_value::Field],
    fields: &'a [Expression],
) -> Option<Misfit<'a>>
    ensures { IfSome result (IsFound scope.now) }
{
    for (place, (field, expression)) in declared.iter().zip(fields).enumerate() {
        match scope.type_of(expression) {
            Some(found) if found.0 != field.ty.0 => {
                return Some(Misfit::Type {
                    part: Part::Field(tuple, place),
                    wanted: Wanted::One(field.ty),
                    expression,
                    found,
                });
            }
            _ => {}
        }
    }
    None
}
