//! Compositions.

ghost use Rattle.ioa_value.specs.declared.limits.TheConstants.{LIMITS};
ghost use Rattle.std.specs.Prelude.{◌≡◌, map};
ghost use Rattle.std.specs.Option.{option_map};
ghost use Rattle.ioa_lex.specs.Tokens.{tokens_shown};
ghost use Rattle.ioa_grammar.specs.Reading as spec;
ghost use Rattle.ioa_grammar.specs.Reading.{ReadsAs};
ghost use Rattle.ioa_tree.specs.View.{name_of, expr_of, crash_of, instance_of, assembly_of};

use crate::types::name_list;
use ioa_grammar::{Cursor, ReadError, whole_expression};
use ioa_lex::Terminal;
use ioa_tree::{Assembly, Crash, Expression, Instance, Name};

#[tactic(auto, unfolding(ioa_grammar::specs::Reading::separated), using(ioa_grammar::proofs::Turns::items_turn, ioa_grammar::proofs::Turns::items_close, ioa_grammar::proofs::Turns::items_fail, ioa_grammar::proofs::Turns::items_spent))]
fn argument_list(cursor: &mut Cursor<'_>) -> Result<Vec<Expression>, ReadError>
    ensures { ReadsAs (λ v. map expr_of v.items) (spec.separated Terminal.Comma (spec.expression LIMITS.depth) (tokens_shown cursor.old)) result (tokens_shown cursor.new) }
{
    let mut found = Vec::new(cursor.alloc());
    for _turn in 0..cursor.left() {
        found.push(whole_expression(cursor)?)?;
        if !cursor.take(Terminal::Comma) {
            return Ok(found);
        }
    }
    Err(cursor.fault())
}

/// Arguments between parentheses, or none.
#[tactic(auto, unfolding(ioa_grammar::specs::Reading::optional_list, ioa_grammar::specs::Reading::arguments, ioa_grammar::specs::Reading::closing))]
fn arguments(cursor: &mut Cursor<'_>) -> Result<Vec<Expression>, ReadError>
    ensures { ReadsAs (λ v. map expr_of v.items) (spec.optional_list Terminal.Open (spec.arguments LIMITS.depth) (tokens_shown cursor.old)) result (tokens_shown cursor.new) }
{
    if !cursor.take(Terminal::Open) {
        return Ok(Vec::new(cursor.alloc()));
    }
    let found = argument_list(cursor)?;
    cursor.expect(Terminal::Close)?;
    Ok(found)
}

/// The names after the word `crash`, or none.
#[tactic(auto, unfolding(ioa_grammar::specs::Reading::optional, ioa_grammar::specs::Reading::a_crash))]
fn crash(cursor: &mut Cursor<'_>) -> Result<Option<Crash>, ReadError>
    ensures { ReadsAs (option_map crash_of) (spec.optional Terminal.Crash spec.a_crash (tokens_shown cursor.old)) result (tokens_shown cursor.new) }
{
    if !cursor.take(Terminal::Crash) {
        return Ok(None);
    }
    let crash = cursor.name()?;
    cursor.expect(Terminal::Recover)?;
    let recover = cursor.name()?;
    Ok(Some(Crash { crash, recover }))
}

/// A component: its name, its automaton's name, the arguments, and crash and recover.
#[tactic(auto, unfolding(ioa_grammar::specs::Reading::instance))]
fn instance(cursor: &mut Cursor<'_>) -> Result<Instance, ReadError>
    ensures { ReadsAs instance_of (spec.instance LIMITS.depth (tokens_shown cursor.old)) result (tokens_shown cursor.new) }
{
    let name = cursor.name()?;
    cursor.expect(Terminal::Colon)?;
    let automaton = cursor.name()?;
    let arguments = arguments(cursor)?;
    let crash = crash(cursor)?;
    Ok(Instance {
        name,
        automaton,
        arguments,
        crash,
    })
}

/// The components of a composition, the last of them with or without a semicolon.
#[tactic(auto, unfolding(ioa_grammar::specs::Reading::instances, ioa_grammar::specs::Reading::terminated), using(ioa_grammar::proofs::Turns::items_turn, ioa_grammar::proofs::Turns::items_close, ioa_grammar::proofs::Turns::items_fail, ioa_grammar::proofs::Turns::items_spent))]
fn instances(cursor: &mut Cursor<'_>) -> Result<Vec<Instance>, ReadError>
    ensures { ReadsAs (λ v. map instance_of v.items) (spec.instances LIMITS.depth (tokens_shown cursor.old)) result (tokens_shown cursor.new) }
{
    let mut found = Vec::new(cursor.alloc());
    for _turn in 0..cursor.left() {
        found.push(instance(cursor)?)?;
        if !cursor.take(Terminal::Semicolon) || !cursor.sees_name() {
            return Ok(found);
        }
    }
    Err(cursor.fault())
}

/// The names after the word `hidden`, with or without a semicolon at their end, or none.
#[tactic(auto, unfolding(ioa_grammar::specs::Reading::optional_list, ioa_grammar::specs::Reading::hidden_names, ioa_grammar::specs::Reading::perhaps))]
fn hidden(cursor: &mut Cursor<'_>) -> Result<Vec<Name>, ReadError>
    ensures { ReadsAs (λ v. map name_of v.items) (spec.optional_list Terminal.Hidden spec.hidden_names (tokens_shown cursor.old)) result (tokens_shown cursor.new) }
{
    if !cursor.take(Terminal::Hidden) {
        return Ok(Vec::new(cursor.alloc()));
    }
    let found = name_list(cursor)?;
    cursor.take(Terminal::Semicolon);
    Ok(found)
}

/// What stands after the word `composition`.
#[tactic(auto, unfolding(ioa_grammar::specs::Reading::a_composition))]
pub(crate) fn composition(cursor: &mut Cursor<'_>) -> Result<Assembly, ReadError>
    ensures { ReadsAs assembly_of (spec.a_composition LIMITS.depth (tokens_shown cursor.old)) result (tokens_shown cursor.new) }
{
    let name = cursor.name()?;
    cursor.expect(Terminal::Components)?;
    let instances = instances(cursor)?;
    let hidden = hidden(cursor)?;
    Ok(Assembly {
        name,
        instances,
        hidden,
    })
}
