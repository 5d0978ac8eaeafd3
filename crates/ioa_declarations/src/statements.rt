//! Statements.

ghost use Rattle.ioa_value.specs.declared.limits.TheConstants.{LIMITS};
ghost use Rattle.std.specs.Prelude.{◌≡◌, ◌∷◌, map};
ghost use Rattle.ioa_lex.specs.Tokens.{tokens_shown};
ghost use Rattle.ioa_grammar.specs.Reading as spec;
ghost use Rattle.ioa_grammar.specs.Reading.{ReadsAs, built, ◌▸◌};
ghost use Rattle.ioa_tree.specs.View.{expr_of, stmt_of, stmts_of, arm_of};

use ioa_grammar::{Cursor, ReadError, measured_expression, whole_expression};
use ioa_lex::Terminal;
use ioa_tree::{Arm, Expression, Statement};

#[tactic(auto, unfolding(ioa_grammar::specs::Reading::assignment))]
fn assignment(cursor: &mut Cursor<'_>) -> Result<Statement, ReadError>
    ensures { ReadsAs stmt_of (spec.assignment LIMITS.depth (tokens_shown cursor.old)) result (tokens_shown cursor.new) }
{
    let name = cursor.name()?;
    cursor.expect(Terminal::Becomes)?;
    Ok(Statement::Assign(name, whole_expression(cursor)?))
}

/// A statement of at most `levels` levels.
#[cycle(statement)]
#[tactic(auto, unfolding(ioa_grammar::specs::Reading::statement))]
fn statement(cursor: &mut Cursor<'_>, levels: u32) -> Result<Statement, ReadError>
    ensures { ReadsAs stmt_of (spec.statement LIMITS.depth levels (tokens_shown cursor.old)) result (tokens_shown cursor.new) }
{
    if levels == 0 {
        return Err(cursor.too_deep());
    }
    let line = cursor.line();
    if cursor.take(Terminal::If) {
        return choice(cursor, levels - 1, line);
    }
    unconditional(cursor, levels - 1, line)
}

/// A statement that is no choice and stands on this line, of at most `levels` levels within it.
#[cycle(statement)]
#[tactic(auto, unfolding(ioa_grammar::specs::Reading::unconditional))]
fn unconditional(cursor: &mut Cursor<'_>, levels: u32, line: u32) -> Result<Statement, ReadError>
    ensures { ReadsAs stmt_of (spec.unconditional LIMITS.depth (spec.in_sequence (spec.statement LIMITS.depth levels)) (tokens_shown cursor.old)) result (tokens_shown cursor.new) }
{
    if cursor.take(Terminal::For) {
        return a_loop(cursor, levels, line);
    }
    assignment(cursor)
}

/// Statements of at most `levels` levels, one by one.
#[cycle(statement)]
#[tactic(auto, unfolding(ioa_grammar::specs::Reading::terminated), using(ioa_grammar::proofs::Turns::items_turn, ioa_grammar::proofs::Turns::items_close, ioa_grammar::proofs::Turns::items_fail, ioa_grammar::proofs::Turns::items_spent))]
fn each_statement(cursor: &mut Cursor<'_>, levels: u32) -> Result<Vec<Statement>, ReadError>
    ensures { ReadsAs (λ v. map stmt_of v.items) (spec.terminated spec.sees_statement Terminal.Semicolon (spec.statement LIMITS.depth levels) (tokens_shown cursor.old)) result (tokens_shown cursor.new) }
{
    let mut found = Vec::new(cursor.alloc());
    for _turn in 0..cursor.left() {
        found.push(statement(cursor, levels)?)?;
        if !cursor.take(Terminal::Semicolon) || !cursor.sees_statement() {
            return Ok(found);
        }
    }
    Err(cursor.fault())
}

/// Statements of at most `levels` levels, in sequence.
#[cycle(statement)]
#[tactic(auto, using(crate::proofs::Sequences::sequence_reads))]
fn statements(cursor: &mut Cursor<'_>, levels: u32) -> Result<Vec<Statement>, ReadError>
    ensures { ReadsAs (λ v. stmts_of v.items) (spec.in_sequence (spec.statement LIMITS.depth levels) (tokens_shown cursor.old)) result (tokens_shown cursor.new) }
{
    each_statement(cursor, levels)
}

/// Statements of at most `levels` levels that a word introduces, or none.
#[cycle(statement)]
#[tactic(auto, unfolding(ioa_grammar::specs::Reading::introduced))]
pub(crate) fn introduced(
    cursor: &mut Cursor<'_>,
    word: Terminal,
    levels: u32,
) -> Result<Vec<Statement>, ReadError>
    ensures { ReadsAs (λ v. stmts_of v.items) (spec.introduced word (spec.in_sequence (spec.statement LIMITS.depth levels)) (tokens_shown cursor.old)) result (tokens_shown cursor.new) }
{
    if !cursor.take(word) {
        return Ok(Vec::new(cursor.alloc()));
    }
    statements(cursor, levels)
}

/// A condition, and what is done where it is true.
#[cycle(statement)]
#[tactic(auto, unfolding(ioa_grammar::specs::Reading::an_arm))]
fn an_arm(cursor: &mut Cursor<'_>, levels: u32) -> Result<Arm, ReadError>
    ensures { ReadsAs arm_of (spec.an_arm LIMITS.depth (spec.in_sequence (spec.statement LIMITS.depth levels)) (tokens_shown cursor.old)) result (tokens_shown cursor.new) }
{
    let condition = measured_expression(cursor)?;
    cursor.expect(Terminal::Then)?;
    let statements = statements(cursor, levels)?;
    Ok(Arm {
        condition: condition.alone(),
        statements,
    })
}

/// An arm after `elseif`.
#[cycle(statement)]
#[tactic(auto)]
fn another_arm(cursor: &mut Cursor<'_>, levels: u32) -> Result<Arm, ReadError>
    ensures { ReadsAs arm_of (built (λ p. p.1) (spec.sign Terminal.Elseif ▸ spec.an_arm LIMITS.depth (spec.in_sequence (spec.statement LIMITS.depth levels))) (tokens_shown cursor.old)) result (tokens_shown cursor.new) }
{
    cursor.expect(Terminal::Elseif)?;
    an_arm(cursor, levels)
}

/// This arm and those that follow it.
#[cycle(statement)]
#[tactic(auto, unfolding(ioa_grammar::specs::Reading::more_arms, ioa_grammar::specs::Reading::many), using(ioa_grammar::proofs::Turns::many_turn, ioa_grammar::proofs::Turns::many_end, ioa_grammar::proofs::Turns::many_fail, ioa_grammar::proofs::Turns::many_spent, crate::proofs::Sequences::found_before))]
fn arms(cursor: &mut Cursor<'_>, first: Arm, levels: u32) -> Result<Vec<Arm>, ReadError>
    ensures { ReadsAs (λ v. map arm_of v.items) (built (λ more. arm_of first ∷ more) (spec.more_arms LIMITS.depth (spec.in_sequence (spec.statement LIMITS.depth levels))) (tokens_shown cursor.old)) result (tokens_shown cursor.new) }
{
    let mut found = Vec::new(cursor.alloc());
    found.push(first)?;
    for _turn in 0..cursor.left() {
        if !cursor.sees(Terminal::Elseif) {
            return Ok(found);
        }
        found.push(another_arm(cursor, levels)?)?;
    }
    Ok(found)
}

/// A choice that stands on this line, after `if`.
#[cycle(statement)]
#[tactic(auto, unfolding(ioa_grammar::specs::Reading::choice), using(crate::proofs::Sequences::choice_read, crate::proofs::Sequences::choice_fails, ioa_tree::proofs::StatementRows::stmt_choose))]
fn choice(cursor: &mut Cursor<'_>, levels: u32, line: u32) -> Result<Statement, ReadError>
    ensures { ReadsAs stmt_of (spec.choice LIMITS.depth (spec.in_sequence (spec.statement LIMITS.depth levels)) (tokens_shown cursor.old)) result (tokens_shown cursor.new) }
{
    let first = an_arm(cursor, levels)?;
    let arms = arms(cursor, first, levels)?;
    let others = introduced(cursor, Terminal::Else, levels)?;
    cursor.expect(Terminal::Fi)?;
    Ok(Statement::If(arms, others, line))
}

/// What a loop goes over, and what it does with each item.
#[cycle(statement)]
fn turns(cursor: &mut Cursor<'_>, levels: u32) -> Result<(Expression, Vec<Statement>), ReadError>
    ensures { ReadsAs (λ p. (expr_of p.0, (tt, (stmts_of p.1.items, tt)))) ((spec.expression LIMITS.depth ▸ (spec.sign Terminal.Do ▸ (spec.in_sequence (spec.statement LIMITS.depth levels) ▸ spec.sign Terminal.Od))) (tokens_shown cursor.old)) result (tokens_shown cursor.new) }
{
    let items = measured_expression(cursor)?;
    cursor.expect(Terminal::Do)?;
    let body = statements(cursor, levels)?;
    cursor.expect(Terminal::Od)?;
    Ok((items.alone(), body))
}

/// A loop that stands on this line, after `for`.
#[cycle(statement)]
#[tactic(auto, unfolding(ioa_grammar::specs::Reading::a_loop), using(ioa_tree::proofs::StatementRows::stmt_each))]
fn a_loop(cursor: &mut Cursor<'_>, levels: u32, line: u32) -> Result<Statement, ReadError>
    ensures { ReadsAs stmt_of (spec.a_loop LIMITS.depth (spec.in_sequence (spec.statement LIMITS.depth levels)) (tokens_shown cursor.old)) result (tokens_shown cursor.new) }
{
    let name = cursor.name()?;
    cursor.expect(Terminal::In)?;
    let (items, body) = turns(cursor, levels)?;
    Ok(Statement::For(name, items, body, line))
}
