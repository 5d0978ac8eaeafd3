//! State variables.

ghost use Rattle.ioa_value.specs.declared.limits.TheConstants.{LIMITS};
ghost use Rattle.std.specs.Prelude.{◌≡◌, map};
ghost use Rattle.std.specs.Option.{option_map};
ghost use Rattle.ioa_lex.specs.Tokens.{tokens_shown};
ghost use Rattle.ioa_grammar.specs.Reading as spec;
ghost use Rattle.ioa_grammar.specs.Reading.{ReadsAs};
ghost use Rattle.ioa_tree.specs.View.{expr_of, variable_of};

use crate::signatures::field;
use ioa_grammar::{Cursor, ReadError, whole_expression};
use ioa_lex::Terminal;
use ioa_tree::{Expression, Variable};

#[tactic(auto, unfolding(ioa_grammar::specs::Reading::optional))]
fn start(cursor: &mut Cursor<'_>) -> Result<Option<Expression>, ReadError>
    ensures { ReadsAs (option_map expr_of) (spec.optional Terminal.Becomes (spec.expression LIMITS.depth) (tokens_shown cursor.old)) result (tokens_shown cursor.new) }
{
    if !cursor.take(Terminal::Becomes) {
        return Ok(None);
    }
    Ok(Some(whole_expression(cursor)?))
}

/// A variable with its start expression, if it has one.
#[tactic(auto, unfolding(ioa_grammar::specs::Reading::variable, ioa_grammar::specs::Reading::flag))]
fn variable(cursor: &mut Cursor<'_>) -> Result<Variable, ReadError>
    ensures { ReadsAs variable_of (spec.variable LIMITS.depth (tokens_shown cursor.old)) result (tokens_shown cursor.new) }
{
    let stable = cursor.take(Terminal::Stable);
    let field = field(cursor)?;
    let start = start(cursor)?;
    Ok(Variable {
        stable,
        field,
        start,
    })
}

#[tactic(auto, unfolding(ioa_grammar::specs::Reading::variables, ioa_grammar::specs::Reading::terminated), using(ioa_grammar::proofs::Turns::items_turn, ioa_grammar::proofs::Turns::items_close, ioa_grammar::proofs::Turns::items_fail, ioa_grammar::proofs::Turns::items_spent))]
fn variables(cursor: &mut Cursor<'_>) -> Result<Vec<Variable>, ReadError>
    ensures { ReadsAs (λ v. map variable_of v.items) (spec.variables LIMITS.depth (tokens_shown cursor.old)) result (tokens_shown cursor.new) }
{
    let mut found = Vec::new(cursor.alloc());
    for _turn in 0..cursor.left() {
        found.push(variable(cursor)?)?;
        if !cursor.take(Terminal::Semicolon) || !cursor.sees_variable() {
            return Ok(found);
        }
    }
    Err(cursor.fault())
}

/// The variables after the word `states`, or none.
#[tactic(auto, unfolding(ioa_grammar::specs::Reading::optional_list))]
pub(crate) fn states(cursor: &mut Cursor<'_>) -> Result<Vec<Variable>, ReadError>
    ensures { ReadsAs (λ v. map variable_of v.items) (spec.optional_list Terminal.States (spec.variables LIMITS.depth) (tokens_shown cursor.old)) result (tokens_shown cursor.new) }
{
    if !cursor.take(Terminal::States) {
        return Ok(Vec::new(cursor.alloc()));
    }
    variables(cursor)
}
