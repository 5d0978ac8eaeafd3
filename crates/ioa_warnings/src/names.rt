//! Names that expressions ask for.

ghost use Rattle.std.specs.Prelude.{◌≡◌};
ghost use Rattle.ioa_tree.specs.View.{expr_of, exprs_of};
ghost use Rattle.ioa_warnings.specs.Mentions as spec;

use ioa_tree::Expression;

/// Whether an expression asks for the value of this name. The names of types and fields are not asked for a value.
#[cycle(mentions)]
#[tactic(auto, using(ioa_tree::proofs::ExpressionRows::expr_made))]
pub fn mentions(expression: &Expression, name: &str) -> bool
    ensures { result ≡ spec.mentions name.now (expr_of expression.now) }
{
    match expression {
        Expression::Number(_, _) | Expression::Truth(_, _) | Expression::Empty(_, _) => false,
        Expression::Name(other) => other.is(name),
        Expression::Parentheses(part, _)
        | Expression::Prefix(_, part, _)
        | Expression::Select(part, _, _) => mentions(part, name),
        Expression::Binary(left, _, right, _) => mentions(left, name) || mentions(right, name),
        Expression::Make(_, fields) => any_mentions(fields, name),
    }
}

/// Whether one of the expressions does.
#[cycle(mentions)]
fn any_mentions(expressions: &[Expression], name: &str) -> bool
    ensures { result ≡ spec.any_mentions name.now (exprs_of expressions.now) }
{
    for expression in expressions {
        if mentions(expression, name) {
            return true;
        }
    }
    false
}
