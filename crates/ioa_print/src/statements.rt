//! Statements as they are printed.

ghost use Rattle.std.specs.Prelude.{◌≡◌, ◌++◌, ◌<◌, OnOk};
ghost use Rattle.std.specs.String.{string_bytes};
ghost use Rattle.ioa_print.specs.Layout as spec;
ghost use Rattle.ioa_tree.specs.Tree.{each};
ghost use Rattle.ioa_tree.specs.View.{expr_of, name_of, stmt_of, stmts_of, arms_of};

use crate::expressions::expression;
use crate::words::{LINE, SPACE, name, word};
use ioa_lex::Terminal;
use ioa_tree::{Arm, Expression, Name, Statement};
use ioa_value::OutOfMemory;

fn assignment(text: &mut String, called: &Name, value: &Expression) -> Result<(), OutOfMemory>
    ensures { OnOk result (string_bytes text.new ≡ string_bytes text.old ++ spec.text_assignment (name_of called.now) (expr_of value.now)) }
{
    name(text, called, SPACE)?;
    word(text, Terminal::Becomes, SPACE)?;
    expression(text, value, LINE)
}

#[cycle(statement)]
#[tactic(auto, using(ioa_tree::proofs::StatementRows::stmt_chosen, ioa_tree::proofs::StatementRows::stmt_looped))]
fn statement(text: &mut String, statement: &Statement) -> Result<(), OutOfMemory>
    ensures { OnOk result (string_bytes text.new ≡ string_bytes text.old ++ spec.text_stmt (stmt_of statement.now)) }
{
    let (arms, others) = match statement {
        Statement::Assign(called, value) => return assignment(text, called, value),
        Statement::For(called, items, body, _) => return a_loop(text, called, body, items),
        Statement::If(arms, others, _) => (arms, others),
    };
    let Some((first, more)) = arms.split_first() else {
        return Ok(());
    };
    arm(text, Terminal::If, first)?;
    more_arms(text, more)?;
    if let Some((other, rest)) = others.split_first() {
        word(text, Terminal::Else, LINE)?;
        self::statement(text, other)?;
        more_statements(text, rest)?;
    }
    word(text, Terminal::Fi, LINE)
}

#[cycle(statement)]
fn more_statements(text: &mut String, statements: &[Statement]) -> Result<(), OutOfMemory>
    ensures { OnOk result (string_bytes text.new ≡ string_bytes text.old ++ spec.text_more_stmts (stmts_of statements.now)) }
{
    for each in statements {
        word(text, Terminal::Semicolon, SPACE)?;
        statement(text, each)?;
    }
    Ok(())
}

/// Writes a loop: its name, what it goes over and its statements.
#[cycle(statement)]
fn a_loop(
    text: &mut String,
    called: &Name,
    body: &[Statement],
    items: &Expression,
) -> Result<(), OutOfMemory>
    ensures { OnOk result (string_bytes text.new ≡ string_bytes text.old ++ spec.text_stmt (each (name_of called.now) (expr_of items.now) (stmts_of body.now))) }
{
    word(text, Terminal::For, SPACE)?;
    name(text, called, SPACE)?;
    word(text, Terminal::In, SPACE)?;
    expression(text, items, SPACE)?;
    word(text, Terminal::Do, LINE)?;
    if let Some((first, more)) = body.split_first() {
        statement(text, first)?;
        more_statements(text, more)?;
    }
    word(text, Terminal::Od, LINE)
}

/// Writes a word, a condition and what is done where it is true.
#[cycle(statement)]
fn arm(text: &mut String, terminal: Terminal, arm: &Arm) -> Result<(), OutOfMemory>
    ensures { OnOk result (string_bytes text.new ≡ string_bytes text.old ++ (spec.text_word spec.space terminal ++ (spec.text_expr spec.space (expr_of arm.now.condition) ++ (spec.text_word spec.line Terminal.Then ++ spec.text_stmts (stmts_of arm.now.statements.items))))) }
{
    word(text, terminal, SPACE)?;
    expression(text, &arm.condition, SPACE)?;
    word(text, Terminal::Then, LINE)?;
    let Some((first, more)) = arm.statements.split_first() else {
        return Ok(());
    };
    statement(text, first)?;
    more_statements(text, more)
}

#[cycle(statement)]
fn more_arms(text: &mut String, arms: &[Arm]) -> Result<(), OutOfMemory>
    ensures { OnOk result (string_bytes text.new ≡ string_bytes text.old ++ spec.text_arms (arms_of arms.now)) }
{
    for each in arms {
        arm(text, Terminal::Elseif, each)?;
    }
    Ok(())
}

/// Writes `eff` and statements, or nothing.
pub(crate) fn effect(text: &mut String, statements: &[Statement]) -> Result<(), OutOfMemory>
    ensures { OnOk result (string_bytes text.new ≡ string_bytes text.old ++ spec.text_after (spec.text_word spec.space Terminal.Eff) (stmts_of statements.now)) }
{
    let Some((first, more)) = statements.split_first() else {
        return Ok(());
    };
    word(text, Terminal::Eff, SPACE)?;
    statement(text, first)?;
    more_statements(text, more)
}
