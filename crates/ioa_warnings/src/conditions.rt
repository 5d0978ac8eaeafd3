//! What literals and connectives show of a condition, whatever its names stand for.

ghost use Rattle.std.specs.Prelude.{◌≡◌};
ghost use Rattle.std.specs.Option.{option_map};
ghost use Rattle.ioa_tree.specs.View.{expr_of};
ghost use Rattle.ioa_warnings.specs.Dead as dead;
ghost use Rattle.ioa_warnings.specs.Never as spec;

use ioa_tree::{Expression, Infix};
use ioa_value::Op;

/// Whether a precondition is true in no state. An omitted one is true in all.
pub(crate) fn is_never_enabled(pre: &Option<Expression>) -> bool
    ensures { result ≡ spec.is_never_enabled (option_map expr_of pre.now) }
{
    match pre {
        Some(condition) => is_never(condition, true),
        None => false,
    }
}

/// Whether a condition has this truth value in no state, as far as literals and connectives show.
#[cycle(is_never)]
#[tactic(auto, using(ioa_tree::proofs::ExpressionRows::expr_made))]
pub(crate) fn is_never(condition: &Expression, truth: bool) -> bool
    ensures { result ≡ spec.never truth (expr_of condition.now) }
{
    match condition {
        Expression::Truth(own, _) => *own != truth,
        Expression::Parentheses(part, _) => is_never(part, truth),
        Expression::Prefix(Op::Not, part, _) => is_never(part, !truth),
        Expression::Binary(left, infix, right, _) => match infix {
            Infix::And if truth => is_never(left, true) || is_never(right, true),
            Infix::And => is_never(left, false) && is_never(right, false),
            Infix::Or if truth => is_never(left, true) && is_never(right, true),
            Infix::Or => is_never(left, false) || is_never(right, false),
            Infix::Implies if truth => is_never(left, false) && is_never(right, true),
            Infix::Implies => is_never(left, true) || is_never(right, false),
            Infix::Operator(_) => false,
        },
        Expression::Number(_, _)
        | Expression::Name(_)
        | Expression::Prefix(_, _, _)
        | Expression::Empty(_, _)
        | Expression::Make(_, _)
        | Expression::Select(_, _, _) => false,
    }
}

/// Whether an expression is the literal 0.
#[cycle(is_nothing)]
#[tactic(auto, using(ioa_tree::proofs::ExpressionRows::expr_made))]
pub(crate) fn is_nothing(expression: &Expression) -> bool
    ensures { result ≡ dead.is_nothing (expr_of expression.now) }
{
    match expression {
        Expression::Number(number, _) => *number == 0,
        Expression::Parentheses(part, _) => is_nothing(part),
        Expression::Truth(_, _)
        | Expression::Name(_)
        | Expression::Prefix(_, _, _)
        | Expression::Binary(_, _, _, _)
        | Expression::Empty(_, _)
        | Expression::Make(_, _)
        | Expression::Select(_, _, _) => false,
    }
}
