//! Expressions, by precedence climbing.

ghost use Rattle.std.specs.Prelude.{◌≡◌, ◌≤◌, ◌<◌, ◌+◌, IfOk};
ghost use Rattle.ioa_lex.specs.Tokens.{tokens_shown};
ghost use Rattle.ioa_grammar.specs.Reading as spec;
ghost use Rattle.ioa_grammar.specs.Reading.{ReadsAs};
ghost use Rattle.ioa_tree.specs.View.{expr_of};

use crate::calls::{after_name, around, empty, parentheses, selected};
use crate::cursor::Cursor;
use crate::fault::{Fault, ReadError};
use crate::measured::Measured;
use crate::operators::{TIGHTEST, after_of, around_of, level_of, operator_of, prefix_of, right_of};
use ioa_lex::{Kind, Terminal, Token};
use ioa_tree::{Expression, Infix};
use ioa_value::{LIMITS, Op};

/// How deep expressions and statements may be.
pub const MAX_DEPTH: u32 = LIMITS.depth as u32;

/// The operator before an expression that comes next.
#[tactic(auto, unfolding(crate::specs::Reading::prefix_at))]
fn prefix_at(cursor: &Cursor<'_>) -> Option<Op>
    ensures { result ≡ spec.prefix_at (tokens_shown cursor.now) }
{
    prefix_of(cursor.terminal()?)
}

/// What stands between two expressions and comes next, if its level is from `least` on and below `below`.
#[tactic(auto, unfolding(crate::specs::Reading::operator_at))]
fn operator_at(cursor: &Cursor<'_>, least: u32, below: u32) -> Option<Infix>
    ensures { result ≡ spec.operator_at least below (tokens_shown cursor.now) }
{
    let operator = operator_of(cursor.terminal()?)?;
    if least <= level_of(operator) && level_of(operator) < below {
        Some(operator)
    } else {
        None
    }
}

/// An expression with its depth, as deep as the limit allows.
#[tactic(auto, unfolding(crate::specs::Reading::expression))]
pub fn measured_expression(cursor: &mut Cursor<'_>) -> Result<Measured, ReadError>
    ensures { ReadsAs (λ m. expr_of m.expression) (spec.expression LIMITS.depth (tokens_shown cursor.old)) result (tokens_shown cursor.new) }
{
    expression(cursor, MAX_DEPTH, 0)
}

/// An expression, as deep as the limit allows.
pub fn whole_expression(cursor: &mut Cursor<'_>) -> Result<Expression, ReadError>
    ensures { ReadsAs expr_of (spec.expression LIMITS.depth (tokens_shown cursor.old)) result (tokens_shown cursor.new) }
{
    let whole = measured_expression(cursor)?;
    Ok(whole.alone())
}

/// An expression of at most `depth` levels, whose operators outside parentheses have a level from `least` on.
#[cycle(expression)]
#[tactic(auto, unfolding(crate::specs::Reading::expr))]
pub(crate) fn expression(
    cursor: &mut Cursor<'_>,
    depth: u32,
    least: u32,
) -> Result<Measured, ReadError>
    requires { depth < 1000 }
    ensures read { ReadsAs (λ m. expr_of m.expression) (spec.expr depth least (tokens_shown cursor.old)) result (tokens_shown cursor.new) }
    ensures within { IfOk result (λ m. m.depth ≤ depth) }
{
    if depth == 0 {
        return Err(cursor.too_deep());
    }
    let left = first(cursor, depth - 1, least)?;
    climb(cursor, left, depth - 1, least)
}

/// What an expression begins with, an operator and its operand or an operand alone, and the level below which operators
/// may follow it.
#[cycle(expression)]
#[tactic(auto, unfolding(crate::specs::Reading::first))]
fn first(cursor: &mut Cursor<'_>, depth: u32, least: u32) -> Result<(Measured, u32), ReadError>
    requires { depth < 999 }
    ensures read { ReadsAs (λ p. (expr_of p.0.expression, p.1)) (spec.first depth least (spec.expr depth) (tokens_shown cursor.old)) result (tokens_shown cursor.new) }
    ensures within { IfOk result (λ p. p.0.depth ≤ depth + 1) }
{
    let Some(operator) = prefix_at(cursor) else {
        return Ok((operand(cursor, depth)?, TIGHTEST));
    };
    let before = Infix::Operator(operator);
    if level_of(before) < least {
        return Err(cursor.fault());
    }
    let line = cursor.line();
    cursor.skip();
    let operand = expression(cursor, depth, right_of(before))?;
    let whole = operand.prefix(cursor.alloc(), operator, line)?;
    Ok((whole, after_of(before)))
}

/// A primary, whose inner expressions have at most `depth` levels, and fields of it.
#[cycle(expression)]
#[tactic(auto, unfolding(crate::specs::Reading::operand))]
fn operand(cursor: &mut Cursor<'_>, depth: u32) -> Result<Measured, ReadError>
    requires { depth < 999 }
    ensures read { ReadsAs (λ m. expr_of m.expression) (spec.operand depth (spec.expr depth 0) (tokens_shown cursor.old)) result (tokens_shown cursor.new) }
    ensures within { IfOk result (λ m. m.depth ≤ depth + 1) }
{
    let whole = primary(cursor, depth)?;
    selected(cursor, whole, depth)
}

/// A number, a truth value, a name, an empty sequence, or expressions of at most `depth` levels in parentheses, alone or
/// after the word of an operator or the name of a type.
#[cycle(expression)]
#[tactic(auto, unfolding(crate::specs::Reading::primary, crate::specs::Reading::start_at, crate::specs::Reading::start_of, crate::specs::Reading::a_name))]
fn primary(cursor: &mut Cursor<'_>, depth: u32) -> Result<Measured, ReadError>
    requires { depth < 999 }
    ensures read { ReadsAs (λ m. expr_of m.expression) (spec.primary (spec.expr depth 0) (tokens_shown cursor.old)) result (tokens_shown cursor.new) }
    ensures within { IfOk result (λ m. m.depth ≤ depth + 1) }
{
    let Some(Token { kind, line }) = cursor.peek() else {
        return Err(cursor.fault());
    };
    match kind {
        Kind::Number(n) => {
            cursor.skip();
            Ok(Measured::number(*n, *line))
        }
        Kind::Name(_) => {
            let name = cursor.name()?;
            after_name(cursor, name, depth)
        }
        Kind::Terminal(Terminal::True) => {
            cursor.skip();
            Ok(Measured::truth(true, *line))
        }
        Kind::Terminal(Terminal::False) => {
            cursor.skip();
            Ok(Measured::truth(false, *line))
        }
        Kind::Terminal(Terminal::Open) => {
            cursor.skip();
            parentheses(cursor, depth, *line)
        }
        Kind::Terminal(Terminal::Empty) => {
            cursor.skip();
            empty(cursor, *line)
        }
        Kind::Terminal(word) => {
            let Some(operator) = around_of(*word) else {
                return Err(cursor.fault());
            };
            cursor.skip();
            around(cursor, operator, depth, *line)
        }
    }
}

/// Operators of a level from `least` on, and their right operands, after this left operand. The first of them has a level
/// below the number beside it.
#[cycle(expression)]
#[tactic(auto, unfolding(crate::specs::Reading::climb))]
fn climb(
    cursor: &mut Cursor<'_>,
    first: (Measured, u32),
    depth: u32,
    least: u32,
) -> Result<Measured, ReadError>
    requires small { depth < 999 }
    requires within { first.0.depth ≤ depth + 1 }
    ensures read { ReadsAs (λ m. expr_of m.expression) (spec.climb depth (spec.expr depth) depth least first.1 (expr_of first.0.expression) (tokens_shown cursor.old)) result (tokens_shown cursor.new) }
    ensures within { IfOk result (λ m. m.depth ≤ depth + 1) }
{
    let (mut left, mut below) = first;
    for _turn in 0..depth {
        let Some(operator) = operator_at(cursor, least, below) else {
            return Ok(left);
        };
        if left.depth > depth {
            return Err(ReadError::Fault(Fault::TooDeep));
        }
        cursor.skip();
        let operand = expression(cursor, depth, right_of(operator))?;
        let line = left.expression.line();
        left = left.binary(cursor.alloc(), operator, operand, line)?;
        below = after_of(operator);
    }
    match operator_at(cursor, least, below) {
        None => Ok(left),
        Some(_) => Err(ReadError::Fault(Fault::TooDeep)),
    }
}
