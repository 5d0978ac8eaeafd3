//! Lengths of code, by which jumps lead over code that is not there yet.

ghost use Rattle.std.specs.Prelude.{◌≡◌, ◌<◌, ◌^◌};
ghost use Rattle.ioa_tree.specs.View.{expr_of, exprs_of, stmt_of, stmts_of, arms_of};
ghost use Rattle.ioa_emit.specs.Extents.{extent, exprs_extent, infix_extent, stmt_extent, stmts_extent, arms_extent as extent_of_arms};

use ioa_tree::{Arm, Expression, Infix, Statement};

/// How many instructions the code of an expression has.
#[cycle(expression)]
pub fn expression_extent(e: &Expression) -> usize
    requires { extent (expr_of e.now) < 2 ^ 16 }
    ensures { result ≡ extent (expr_of e.now) }
{
    match e {
        Expression::Number(_, _)
        | Expression::Truth(_, _)
        | Expression::Name(_)
        | Expression::Empty(_, _) => 1,
        Expression::Parentheses(inner, _) => expression_extent(inner),
        Expression::Prefix(_, inner, _) | Expression::Select(inner, _, _) => {
            expression_extent(inner) + 1
        }
        Expression::Binary(left, operator, right, _) => {
            expression_extent(left) + expression_extent(right) + extent_beside(*operator)
        }
        Expression::Make(_, fields) => expressions_extent(fields) + 1,
    }
}

/// How many instructions the code of expressions has.
#[cycle(expression)]
fn expressions_extent(expressions: &[Expression]) -> usize
    requires { exprs_extent (exprs_of expressions.now) < 2 ^ 16 }
    ensures { result ≡ exprs_extent (exprs_of expressions.now) }
{
    let mut total = 0;
    for expression in expressions {
        total += expression_extent(expression);
    }
    total
}

/// How many instructions stand beside the code of two operands: the operator, or two jumps and a constant.
pub fn extent_beside(operator: Infix) -> usize
    ensures { result ≡ infix_extent operator }
{
    match operator {
        Infix::Operator(_) => 1,
        Infix::And | Infix::Or | Infix::Implies => 3,
    }
}

/// How many instructions the code of statements has.
#[cycle(statements)]
pub fn statements_extent(statements: &[Statement]) -> usize
    requires { stmts_extent (stmts_of statements.now) < 2 ^ 16 }
    ensures { result ≡ stmts_extent (stmts_of statements.now) }
{
    let mut total = 0;
    for statement in statements {
        total += statement_extent(statement);
    }
    total
}

#[cycle(statements)]
fn statement_extent(statement: &Statement) -> usize
    requires { stmt_extent (stmt_of statement.now) < 2 ^ 16 }
    ensures { result ≡ stmt_extent (stmt_of statement.now) }
{
    match statement {
        Statement::Assign(_, e) => expression_extent(e) + 1,
        Statement::If(arms, others, _) => arms_extent(arms) + statements_extent(others),
        Statement::For(_, items, body, _) => expression_extent(items) + 2 + statements_extent(body),
    }
}

/// How many instructions the code of arms has, each with two jumps.
#[cycle(statements)]
pub fn arms_extent(arms: &[Arm]) -> usize
    requires { extent_of_arms (arms_of arms.now) < 2 ^ 16 }
    ensures { result ≡ extent_of_arms (arms_of arms.now) }
{
    let mut total = 0;
    for arm in arms {
        total += expression_extent(&arm.condition) + 2 + statements_extent(&arm.statements);
    }
    total
}
