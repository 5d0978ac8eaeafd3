//! Transitions.

ghost use Rattle.ioa_value.specs.declared.limits.TheConstants.{LIMITS};
ghost use Rattle.std.specs.Prelude.{◌≡◌, map};
ghost use Rattle.std.specs.Option.{option_map};
ghost use Rattle.ioa_lex.specs.Tokens.{tokens_shown};
ghost use Rattle.ioa_grammar.specs.Reading as spec;
ghost use Rattle.ioa_grammar.specs.Reading.{ReadsAs, ◌▸◌};
ghost use Rattle.ioa_tree.specs.View.{expr_of, choice_of, proposal_of, stmts_of, transition_of};

use crate::statements::introduced;
use ioa_grammar::{Cursor, MAX_DEPTH, ReadError, measured_expression, whole_expression};
use ioa_lex::Terminal;
use ioa_tree::{Choice, Expression, Proposal, Statement, Transition};

#[tactic(auto, unfolding(ioa_grammar::specs::Reading::optional))]
fn precondition(cursor: &mut Cursor<'_>) -> Result<Option<Expression>, ReadError>
    ensures { ReadsAs (option_map expr_of) (spec.optional Terminal.Pre (spec.expression LIMITS.depth) (tokens_shown cursor.old)) result (tokens_shown cursor.new) }
{
    if !cursor.take(Terminal::Pre) {
        return Ok(None);
    }
    Ok(Some(whole_expression(cursor)?))
}

/// An expression, or one between parentheses after the word `any`.
#[tactic(auto, unfolding(ioa_grammar::specs::Reading::a_choice, ioa_grammar::specs::Reading::enclosed, ioa_grammar::specs::Reading::closing))]
fn choice(cursor: &mut Cursor<'_>) -> Result<Choice, ReadError>
    ensures { ReadsAs choice_of (spec.a_choice LIMITS.depth (tokens_shown cursor.old)) result (tokens_shown cursor.new) }
{
    let line = cursor.line();
    if !cursor.take(Terminal::Any) {
        return Ok(Choice::Value(whole_expression(cursor)?));
    }
    cursor.expect(Terminal::Open)?;
    let expression = measured_expression(cursor)?;
    cursor.expect(Terminal::Close)?;
    Ok(Choice::Any(expression.alone(), line))
}

#[tactic(auto, unfolding(ioa_grammar::specs::Reading::proposal))]
fn proposal(cursor: &mut Cursor<'_>) -> Result<Proposal, ReadError>
    ensures { ReadsAs proposal_of (spec.proposal LIMITS.depth (tokens_shown cursor.old)) result (tokens_shown cursor.new) }
{
    let name = cursor.name()?;
    cursor.expect(Terminal::Becomes)?;
    let choice = choice(cursor)?;
    Ok(Proposal { name, choice })
}

#[tactic(auto, unfolding(ioa_grammar::specs::Reading::proposals, ioa_grammar::specs::Reading::separated), using(ioa_grammar::proofs::Turns::items_turn, ioa_grammar::proofs::Turns::items_close, ioa_grammar::proofs::Turns::items_fail, ioa_grammar::proofs::Turns::items_spent))]
fn proposal_list(cursor: &mut Cursor<'_>) -> Result<Vec<Proposal>, ReadError>
    ensures { ReadsAs (λ v. map proposal_of v.items) (spec.proposals LIMITS.depth (tokens_shown cursor.old)) result (tokens_shown cursor.new) }
{
    let mut found = Vec::new(cursor.alloc());
    for _turn in 0..cursor.left() {
        found.push(proposal(cursor)?)?;
        if !cursor.take(Terminal::Comma) {
            return Ok(found);
        }
    }
    Err(cursor.fault())
}

#[tactic(auto, unfolding(ioa_grammar::specs::Reading::optional_list))]
fn proposals(cursor: &mut Cursor<'_>) -> Result<Vec<Proposal>, ReadError>
    ensures { ReadsAs (λ v. map proposal_of v.items) (spec.optional_list Terminal.Propose (spec.proposals LIMITS.depth) (tokens_shown cursor.old)) result (tokens_shown cursor.new) }
{
    if !cursor.take(Terminal::Propose) {
        return Ok(Vec::new(cursor.alloc()));
    }
    proposal_list(cursor)
}

#[tactic(auto, unfolding(ioa_grammar::specs::Reading::statements))]
fn effect(cursor: &mut Cursor<'_>) -> Result<Vec<Statement>, ReadError>
    ensures { ReadsAs (λ v. stmts_of v.items) (spec.introduced Terminal.Eff (spec.statements LIMITS.depth) (tokens_shown cursor.old)) result (tokens_shown cursor.new) }
{
    introduced(cursor, Terminal::Eff, MAX_DEPTH)
}

/// What is proposed, and what is done.
fn outcome(cursor: &mut Cursor<'_>) -> Result<(Vec<Proposal>, Vec<Statement>), ReadError>
    ensures { ReadsAs (λ p. (map proposal_of p.0.items, stmts_of p.1.items)) ((spec.optional_list Terminal.Propose (spec.proposals LIMITS.depth) ▸ spec.introduced Terminal.Eff (spec.statements LIMITS.depth)) (tokens_shown cursor.old)) result (tokens_shown cursor.new) }
{
    let proposals = proposals(cursor)?;
    Ok((proposals, effect(cursor)?))
}

/// A transition: a kind, a name, and the parts that it has.
#[tactic(auto, unfolding(ioa_grammar::specs::Reading::transition))]
fn transition(cursor: &mut Cursor<'_>) -> Result<Transition, ReadError>
    ensures { ReadsAs transition_of (spec.transition LIMITS.depth (tokens_shown cursor.old)) result (tokens_shown cursor.new) }
{
    let kind = cursor.kind()?;
    let name = cursor.name()?;
    let pre = precondition(cursor)?;
    let (proposals, effect) = outcome(cursor)?;
    Ok(Transition {
        kind,
        name,
        pre,
        proposals,
        effect,
    })
}

/// Transitions, as long as the word for a kind comes next.
#[tactic(auto, unfolding(ioa_grammar::specs::Reading::transitions, ioa_grammar::specs::Reading::many), using(ioa_grammar::proofs::Turns::many_turn, ioa_grammar::proofs::Turns::many_end, ioa_grammar::proofs::Turns::many_fail, ioa_grammar::proofs::Turns::many_spent))]
pub(crate) fn transitions(cursor: &mut Cursor<'_>) -> Result<Vec<Transition>, ReadError>
    ensures { ReadsAs (λ v. map transition_of v.items) (spec.transitions LIMITS.depth (tokens_shown cursor.old)) result (tokens_shown cursor.new) }
{
    let mut found = Vec::new(cursor.alloc());
    for _turn in 0..cursor.left() {
        if !cursor.sees_kind() {
            return Ok(found);
        }
        found.push(transition(cursor)?)?;
    }
    Ok(found)
}
