//! Operands that a word or a name and parentheses make, and fields of operands.

ghost use Rattle.std.specs.Prelude.{◌≡◌, ◌≤◌, ◌<◌, ◌+◌, IfOk, map};
ghost use Rattle.ioa_lex.specs.Tokens.{tokens_shown};
ghost use Rattle.ioa_grammar.specs.Reading as spec;
ghost use Rattle.ioa_grammar.specs.Reading.{ReadsAs, built, ◌▸◌};
ghost use Rattle.ioa_tree.specs.Depth.{exprs_depth};
ghost use Rattle.ioa_tree.specs.Tree.{parens};
ghost use Rattle.ioa_tree.specs.View.{expr_of, exprs_of, name_of};

use crate::cursor::Cursor;
use crate::expressions::expression;
use crate::fault::{Fault, ReadError};
use crate::measured::Measured;
use crate::operators::encloses;
use ioa_lex::Terminal;
use ioa_tree::{Expression, Infix, Name};
use ioa_value::Op;

/// The empty sequence of a type, after the word `empty`, which stands on this line.
#[tactic(auto, unfolding(crate::specs::Reading::an_empty, crate::specs::Reading::enclosed, crate::specs::Reading::closing))]
pub(crate) fn empty(cursor: &mut Cursor<'_>, line: u32) -> Result<Measured, ReadError>
    ensures read { ReadsAs (λ m. expr_of m.expression) (spec.an_empty (tokens_shown cursor.old)) result (tokens_shown cursor.new) }
    ensures within { IfOk result (λ m. m.depth ≡ 1) }
{
    cursor.expect(Terminal::Open)?;
    let name = cursor.name()?;
    cursor.expect(Terminal::Close)?;
    Ok(Measured::empty(name, line))
}

/// An expression of at most `depth` levels and the parenthesis after it; the one before it stands on this line.
#[cycle(expression)]
#[tactic(auto, unfolding(crate::specs::Reading::closing))]
pub(crate) fn parentheses(
    cursor: &mut Cursor<'_>,
    depth: u32,
    line: u32,
) -> Result<Measured, ReadError>
    requires { depth < 999 }
    ensures read { ReadsAs (λ m. expr_of m.expression) (built parens (spec.closing (spec.expr depth 0)) (tokens_shown cursor.old)) result (tokens_shown cursor.new) }
    ensures within { IfOk result (λ m. m.depth ≤ depth + 1) }
{
    let inner = expression(cursor, depth, 0)?;
    cursor.expect(Terminal::Close)?;
    Ok(inner.parentheses(cursor.alloc(), line)?)
}

/// The operator on one expression of at most `depth` levels, after its word, which stands on this line.
#[cycle(expression)]
#[tactic(auto, unfolding(crate::specs::Reading::around_one, crate::specs::Reading::enclosed, crate::specs::Reading::closing))]
fn around_one(
    cursor: &mut Cursor<'_>,
    operator: Op,
    depth: u32,
    line: u32,
) -> Result<Measured, ReadError>
    requires { depth < 999 }
    ensures read { ReadsAs (λ m. expr_of m.expression) (spec.around_one (spec.expr depth 0) operator (tokens_shown cursor.old)) result (tokens_shown cursor.new) }
    ensures within { IfOk result (λ m. m.depth ≤ depth + 1) }
{
    cursor.expect(Terminal::Open)?;
    let operand = expression(cursor, depth, 0)?;
    cursor.expect(Terminal::Close)?;
    Ok(operand.prefix(cursor.alloc(), operator, line)?)
}

/// Two expressions of at most `depth` levels, with a comma between them.
#[cycle(expression)]
fn pair(cursor: &mut Cursor<'_>, depth: u32) -> Result<(Measured, Measured), ReadError>
    requires { depth < 999 }
    ensures read { ReadsAs (λ p. (expr_of p.0.expression, (tt, expr_of p.1.expression))) ((spec.expr depth 0 ▸ (spec.sign Terminal.Comma ▸ spec.expr depth 0)) (tokens_shown cursor.old)) result (tokens_shown cursor.new) }
    ensures first { IfOk result (λ p. p.0.depth ≤ depth) }
    ensures second { IfOk result (λ p. p.1.depth ≤ depth) }
{
    let first = expression(cursor, depth, 0)?;
    cursor.expect(Terminal::Comma)?;
    Ok((first, expression(cursor, depth, 0)?))
}

/// The operator on two expressions of at most `depth` levels, after its word, which stands on this line.
#[cycle(expression)]
#[tactic(auto, unfolding(crate::specs::Reading::around_two, crate::specs::Reading::enclosed, crate::specs::Reading::closing))]
fn around_two(
    cursor: &mut Cursor<'_>,
    operator: Op,
    depth: u32,
    line: u32,
) -> Result<Measured, ReadError>
    requires { depth < 999 }
    ensures read { ReadsAs (λ m. expr_of m.expression) (spec.around_two (spec.expr depth 0) operator (tokens_shown cursor.old)) result (tokens_shown cursor.new) }
    ensures within { IfOk result (λ m. m.depth ≤ depth + 1) }
{
    cursor.expect(Terminal::Open)?;
    let (first, second) = pair(cursor, depth)?;
    cursor.expect(Terminal::Close)?;
    Ok(first.binary(cursor.alloc(), Infix::Operator(operator), second, line)?)
}

/// The operator on as many expressions of at most `depth` levels as it is written around.
#[cycle(expression)]
#[tactic(auto, unfolding(crate::specs::Reading::around))]
pub(crate) fn around(
    cursor: &mut Cursor<'_>,
    operator: Op,
    depth: u32,
    line: u32,
) -> Result<Measured, ReadError>
    requires { depth < 999 }
    ensures read { ReadsAs (λ m. expr_of m.expression) (spec.around (spec.expr depth 0) operator (tokens_shown cursor.old)) result (tokens_shown cursor.new) }
    ensures within { IfOk result (λ m. m.depth ≤ depth + 1) }
{
    if encloses(Infix::Operator(operator)) == 1 {
        around_one(cursor, operator, depth, line)
    } else {
        around_two(cursor, operator, depth, line)
    }
}

/// Expressions of at most `depth` levels, with commas between them, and the depth of the deepest.
#[cycle(expression)]
#[tactic(auto, unfolding(crate::specs::Reading::separated), using(crate::proofs::Turns::items_turn, crate::proofs::Turns::items_close, crate::proofs::Turns::items_fail, crate::proofs::Turns::items_spent))]
fn fields(cursor: &mut Cursor<'_>, depth: u32) -> Result<(Vec<Expression>, u32), ReadError>
    requires { depth < 999 }
    ensures read { ReadsAs (λ p. map expr_of p.0.items) (spec.separated Terminal.Comma (spec.expr depth 0) (tokens_shown cursor.old)) result (tokens_shown cursor.new) }
    ensures exact { IfOk result (λ p. p.1 ≡ exprs_depth (exprs_of p.0.items)) }
    ensures within { IfOk result (λ p. p.1 ≤ depth) }
{
    let mut found = Vec::new(cursor.alloc());
    let mut deepest = 0;
    for _turn in 0..cursor.left() {
        let field = expression(cursor, depth, 0)?;
        deepest = field.depth.max(deepest);
        found.push(field.alone())?;
        if !cursor.take(Terminal::Comma) {
            return Ok((found, deepest));
        }
    }
    Err(cursor.fault())
}

/// What this name begins: a tuple of its type, of expressions of at most `depth` levels in parentheses, or the name alone.
#[cycle(expression)]
#[tactic(auto, unfolding(crate::specs::Reading::after_name, crate::specs::Reading::closing))]
pub(crate) fn after_name(
    cursor: &mut Cursor<'_>,
    name: Name,
    depth: u32,
) -> Result<Measured, ReadError>
    requires { depth < 999 }
    ensures read { ReadsAs (λ m. expr_of m.expression) (spec.after_name (spec.expr depth 0) (name_of name) (tokens_shown cursor.old)) result (tokens_shown cursor.new) }
    ensures within { IfOk result (λ m. m.depth ≤ depth + 1) }
{
    if !cursor.take(Terminal::Open) {
        return Ok(Measured::name(name));
    }
    let (fields, deepest) = fields(cursor, depth)?;
    cursor.expect(Terminal::Close)?;
    Ok(Measured::make(name, fields, deepest))
}

/// This operand, or a field of it, or of a field, as deep as `depth` and one level more.
#[tactic(auto, unfolding(crate::specs::Reading::fields_from, crate::specs::Reading::a_name))]
pub(crate) fn selected(
    cursor: &mut Cursor<'_>,
    operand: Measured,
    depth: u32,
) -> Result<Measured, ReadError>
    requires small { depth < 999 }
    requires within { operand.depth ≤ depth + 1 }
    ensures read { ReadsAs (λ m. expr_of m.expression) (spec.fields_from depth depth (expr_of operand.expression) (tokens_shown cursor.old)) result (tokens_shown cursor.new) }
    ensures within { IfOk result (λ m. m.depth ≤ depth + 1) }
{
    let mut whole = operand;
    for _turn in 0..depth {
        if !cursor.take(Terminal::Dot) {
            return Ok(whole);
        }
        if whole.depth > depth {
            return Err(ReadError::Fault(Fault::TooDeep));
        }
        let name = cursor.name()?;
        whole = whole.select(cursor.alloc(), name)?;
    }
    if cursor.take(Terminal::Dot) {
        return Err(ReadError::Fault(Fault::TooDeep));
    }
    Ok(whole)
}
