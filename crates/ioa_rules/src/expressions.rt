//! Types of expressions, by the types of their operands, and the line at which there is none.

ghost use Rattle.std.specs.Prelude.{◌≡◌, [], ◌∷◌, Some, map};
ghost use Rattle.std.specs.Option.{option_map};
ghost use Rattle.ioa_value.specs.Operators as operators;
ghost use Rattle.ioa_value.specs.Plain.{number as number_of_type};
ghost use Rattle.ioa_tree.specs.Types.{sequence_named};
ghost use Rattle.ioa_tree.specs.View.{expr_of, exprs_of, name_of, field_of, position_of, variable_of};
ghost use Rattle.ioa_tree.specs.Tree.{number, make};
ghost use Rattle.ioa_tree.specs.WellFormed as well_formed;
ghost use Rattle.ioa_rules.specs.KnownTypes.{whole, early};
ghost use Rattle.ioa_rules.specs.Loops.{loops_of};
ghost use Rattle.ioa_rules.specs.Scopes.{context, context_in};
ghost use Rattle.ioa_rules.specs.Codes.{type_mismatch, tells};
ghost use Rattle.ioa_rules.specs.Reasons as reasons;
ghost use Rattle.ioa_rules.specs.Tuples.{are_fields, in_fields_made};
ghost use Rattle.ioa_rules.specs.Verdicts.{Says, Finds};

use crate::known_types::KnownTypes;
use crate::loops::Loops;
use crate::scope::Scope;
use crate::tuples::{is_field, selected_type, tuple_named};
use ioa_lex::Refusal;
use ioa_tree::{Expression, Field, Infix, Name, Position, Variable};
use ioa_value::{Form, Op, Ty, Types, op_type};

/// The type of an expression that may use these variables, formals, parameters and names of loops, where it has one.
pub fn expression_type(
    types: &Types,
    variables: &[Variable],
    formals: &[Field],
    positions: &[Position],
    loops: &Loops<'_>,
    expression: &Expression,
) -> Option<Ty>
    ensures { option_map number_of_type result ≡ well_formed.type_of types.now types.now (context_in types.now (loops_of loops.now) (map (λ v. v.field) (map variable_of variables.now)) (map field_of formals.now) (map position_of positions.now)) (expr_of expression.now) }
{
    let scope = Scope {
        known: KnownTypes::of_all(types),
        variables,
        formals,
        positions,
        loops: *loops,
    };
    match type_of(&scope, expression) {
        Ok(ty) => Some(ty),
        Err(_) => None,
    }
}

/// The type of an expression. A line is that of a name that is not known or is not of the type that its place wants (a
/// sequence's after `empty`, a tuple's before fields), of an operand whose type its operator does not take, or of a
/// field whose type is not that of its place.
#[cycle(typing)]
pub(crate) fn type_of(scope: &Scope, expression: &Expression) -> Result<Ty, Refusal>
    ensures { let k = scope.now.known in
        Finds result (well_formed.type_of (whole k) (early k) (context scope.now) (expr_of expression.now)) (reasons.in_expression (whole k) (early k) (context scope.now) (expr_of expression.now)) }
{
    match expression {
        Expression::Number(n, line) => number_type(*n, *line),
        Expression::Truth(_, _) => Ok(Ty::BOOL),
        Expression::Name(name) => match scope.lookup(name) {
            Some(ty) => Ok(ty),
            None => Err(Refusal::UnknownName(name.line)),
        },
        Expression::Parentheses(inner, _) => type_of(scope, inner),
        Expression::Prefix(op, operand, _) => {
            let own = type_of(scope, operand)?;
            prefix_type(scope.known.types, *op, own, operand.line())
        }
        Expression::Binary(left, operator, right, _) => {
            let first = type_of(scope, left)?;
            let second = type_of(scope, right)?;
            binary_type(
                scope.known.types,
                *operator,
                first,
                second,
                left.line(),
                right.line(),
            )
        }
        Expression::Empty(name, _) => empty_type(&scope.known, name),
        Expression::Make(name, fields) => made_type(scope, name, fields),
        Expression::Select(operand, name, _) => {
            let own = type_of(scope, operand)?;
            selected_type(scope.known.types, own, name, operand.line())
        }
    }
}

/// The tuple type of this name, where these are its fields.
#[cycle(typing)]
fn made_type(scope: &Scope, name: &Name, fields: &[Expression]) -> Result<Ty, Refusal>
    ensures { let k = scope.now.known in let made = make (name_of name.now) (exprs_of fields.now) in
        Finds result (well_formed.type_of (whole k) (early k) (context scope.now) made) (reasons.in_expression (whole k) (early k) (context scope.now) made) }
{
    let ty = tuple_named(&scope.known, name)?;
    fields_fine(scope, ty, fields, name.line)?;
    Ok(ty)
}

/// Whether these are the fields of a tuple type: as many, and each of the type of its place. What is wrong within a field
/// comes first, since a field without a type is of no other one. A line is that of the first field whose type is not that
/// of its place or, where there are too few or too many, this one.
#[cycle(typing)]
fn fields_fine(scope: &Scope, tuple: Ty, fields: &[Expression], line: u32) -> Result<(), Refusal>
    ensures { let k = scope.now.known in let es = exprs_of fields.now in
        Says result (are_fields (whole k) (early k) (context scope.now) es tuple.0) (in_fields_made (whole k) (early k) (context scope.now) es tuple.0) }
{
    let types = scope.known.types;
    let mut odd = None;
    for (i, field) in fields.iter().enumerate() {
        let ty = type_of(scope, field)?;
        if odd.is_none() && !is_field(types, tuple, i, ty) {
            odd = Some(field.line());
        }
    }
    if fields.len() != Op::Make(tuple).arity(types) {
        return Err(Refusal::TypeMismatch(line));
    }
    match odd {
        Some(line) => Err(Refusal::TypeMismatch(line)),
        None => Ok(()),
    }
}

/// The type of a number, if it is none too large.
pub(crate) fn number_type(n: u64, line: u32) -> Result<Ty, Refusal>
    ensures { Finds result (well_formed.type_of [] [] [] (number n)) (tells type_mismatch) }
{
    if n <= 0x7fff_ffff_ffff_ffff {
        Ok(Ty::INT)
    } else {
        Err(Refusal::TypeMismatch(line))
    }
}

/// The sequence type of this name.
fn empty_type(known: &KnownTypes, name: &Name) -> Result<Ty, Refusal>
    ensures { Finds result (sequence_named (early known.now) (name_of name.now)) (reasons.in_empty (early known.now) (name_of name.now)) }
{
    let Some(ty) = known.named(name) else {
        return Err(Refusal::UnknownName(name.line));
    };
    match known.form(ty) {
        Some(Form::Sequence(_, _)) => Ok(ty),
        _ => Err(Refusal::TypeMismatch(name.line)),
    }
}

/// The type of what an operator on one operand gives, where it takes one of this type. The line is the operand's.
fn prefix_type(types: &Types, op: Op, operand: Ty, line: u32) -> Result<Ty, Refusal>
    ensures { Finds result (operators.op_type types.now op (operand.0 ∷ [])) (tells type_mismatch) }
{
    match op_type(types, op, &[operand]) {
        Some(ty) => Ok(ty),
        None => Err(Refusal::TypeMismatch(line)),
    }
}

/// The type of what stands for two operands, where they may be of these types. A line is that of an operand which may not.
fn binary_type(
    types: &Types,
    operator: Infix,
    left: Ty,
    right: Ty,
    left_line: u32,
    right_line: u32,
) -> Result<Ty, Refusal>
    ensures { Finds result (well_formed.infix_type types.now operator (left.0 ∷ right.0 ∷ [])) (tells type_mismatch) }
{
    if let Some(ty) = infix_type(types, operator, left, right) {
        return Ok(ty);
    }
    let line = if is_left_taken(types, operator, left) {
        right_line
    } else {
        left_line
    };
    Err(Refusal::TypeMismatch(line))
}

/// Whether some right operand may stand beside a left one of this type. Only a fault asks, once.
fn is_left_taken(types: &Types, operator: Infix, left: Ty) -> bool {
    for n in 0..types.len() {
        if infix_type(types, operator, left, Ty(n as u16)).is_some() {
            return true;
        }
    }
    false
}

fn infix_type(types: &Types, operator: Infix, left: Ty, right: Ty) -> Option<Ty>
    ensures { option_map number_of_type result ≡ well_formed.infix_type types.now operator (left.0 ∷ right.0 ∷ []) }
{
    match operator {
        Infix::Operator(op) => op_type(types, op, &[left, right]),
        Infix::And | Infix::Or | Infix::Implies => of_truths(left, right),
    }
}

/// The type of what joins two truth values.
fn of_truths(left: Ty, right: Ty) -> Option<Ty>
    ensures { option_map number_of_type result ≡ well_formed.of_truths (left.0 ∷ right.0 ∷ []) }
{
    if left == Ty::BOOL && right == Ty::BOOL {
        Some(Ty::BOOL)
    } else {
        None
    }
}

/// Whether an expression has this type. A line is that of the expression, or of what is wrong in it.
pub(crate) fn expect_type(scope: &Scope, expression: &Expression, ty: Ty) -> Result<(), Refusal>
    ensures { let k = scope.now.known in
        Says result (well_formed.has_ty (whole k) (early k) (context scope.now) (expr_of expression.now) ty.0) (reasons.in_place (whole k) (early k) (Some ty.0) (context scope.now) (expr_of expression.now)) }
{
    let own = type_of(scope, expression)?;
    if own.0 != ty.0 {
        return Err(Refusal::TypeMismatch(expression.line()));
    }
    Ok(())
}
