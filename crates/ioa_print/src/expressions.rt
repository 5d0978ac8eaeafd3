//! Expressions as they are printed.

ghost use Rattle.std.specs.Prelude.{◌≡◌, ◌++◌, ◌<◌, map, OnOk};
ghost use Rattle.std.specs.String.{string_bytes};
ghost use Rattle.ioa_print.specs.Layout.{space, text_expr, text_more};
ghost use Rattle.ioa_tree.specs.View.{expr_of};

use crate::words::{SPACE, call, name, number, word};
use ioa_grammar::{stands_around, word_of};
use ioa_lex::Terminal;
use ioa_tree::{Expression, Infix};
use ioa_value::OutOfMemory;

/// Writes an expression.
#[cycle(expression)]
#[tactic(auto, using(ioa_tree::proofs::ExpressionRows::expr_made))]
pub(crate) fn expression(
    text: &mut String,
    expression: &Expression,
    end: char,
) -> Result<(), OutOfMemory>
    requires { end < 128 }
    ensures { OnOk result (string_bytes text.new ≡ string_bytes text.old ++ text_expr end (expr_of expression.now)) }
{
    match expression {
        Expression::Number(n, _) => number(text, *n, end),
        Expression::Truth(true, _) => word(text, Terminal::True, end),
        Expression::Truth(false, _) => word(text, Terminal::False, end),
        Expression::Name(called) => name(text, called, end),
        Expression::Parentheses(inner, _) => {
            word(text, Terminal::Open, SPACE)?;
            self::expression(text, inner, SPACE)?;
            word(text, Terminal::Close, end)
        }
        Expression::Prefix(operator, inner, _) if stands_around(Infix::Operator(*operator)) => {
            call(text, word_of(Infix::Operator(*operator)))?;
            self::expression(text, inner, SPACE)?;
            word(text, Terminal::Close, end)
        }
        Expression::Prefix(operator, inner, _) => {
            word(text, word_of(Infix::Operator(*operator)), SPACE)?;
            self::expression(text, inner, end)
        }
        Expression::Binary(left, operator, right, _) if stands_around(*operator) => {
            call(text, word_of(*operator))?;
            self::expression(text, left, SPACE)?;
            word(text, Terminal::Comma, SPACE)?;
            self::expression(text, right, SPACE)?;
            word(text, Terminal::Close, end)
        }
        Expression::Binary(left, operator, right, _) => {
            self::expression(text, left, SPACE)?;
            word(text, word_of(*operator), SPACE)?;
            self::expression(text, right, end)
        }
        Expression::Empty(of, _) => {
            call(text, Terminal::Empty)?;
            name(text, of, SPACE)?;
            word(text, Terminal::Close, end)
        }
        Expression::Make(of, fields) => {
            name(text, of, SPACE)?;
            word(text, Terminal::Open, SPACE)?;
            if let Some((first, more)) = fields.split_first() {
                self::expression(text, first, SPACE)?;
                more_expressions(text, more)?;
            }
            word(text, Terminal::Close, end)
        }
        Expression::Select(inner, field, _) => {
            self::expression(text, inner, SPACE)?;
            word(text, Terminal::Dot, SPACE)?;
            name(text, field, end)
        }
    }
}

/// Writes a comma and an expression, for each expression.
#[cycle(expression)]
pub(crate) fn more_expressions(
    text: &mut String,
    expressions: &[Expression],
) -> Result<(), OutOfMemory>
    ensures { OnOk result (string_bytes text.new ≡ string_bytes text.old ++ text_more Terminal.Comma (text_expr space) (map expr_of expressions.now)) }
{
    for each in expressions {
        word(text, Terminal::Comma, SPACE)?;
        expression(text, each, SPACE)?;
    }
    Ok(())
}
