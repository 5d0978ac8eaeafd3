//! Automata as they are printed.

ghost use Rattle.std.specs.Prelude.{◌≡◌, ◌++◌, ◌<◌, map, OnOk};
ghost use Rattle.std.specs.Option.{option_map};
ghost use Rattle.std.specs.String.{string_bytes};
ghost use Rattle.ioa_grammar.specs.Grammar.{kind_word};
ghost use Rattle.ioa_print.specs.Layout as spec;
ghost use Rattle.ioa_tree.specs.View.{expr_of, variable_of, choice_of, proposal_of, transition_of, automaton_of};

use crate::expressions::expression;
use crate::signatures::{before, entries, field, formals, word_of};
use crate::statements::effect;
use crate::words::{LINE, SPACE, call, name, word};
use ioa_lex::Terminal;
use ioa_tree::{Automaton, Choice, Expression, Proposal, Transition, Variable};
use ioa_value::OutOfMemory;

/// Writes a word and an expression, or nothing.
fn optional(
    text: &mut String,
    terminal: Terminal,
    part: &Option<Expression>,
) -> Result<(), OutOfMemory>
    ensures { OnOk result (string_bytes text.new ≡ string_bytes text.old ++ spec.text_option (spec.text_word spec.space terminal) (option_map expr_of part.now)) }
{
    match part {
        None => Ok(()),
        Some(inner) => {
            word(text, terminal, SPACE)?;
            expression(text, inner, LINE)
        }
    }
}

/// Writes a word where it is so.
fn flag(text: &mut String, terminal: Terminal, stands: bool) -> Result<(), OutOfMemory>
    ensures { OnOk result (string_bytes text.new ≡ string_bytes text.old ++ spec.text_flag terminal stands) }
{
    if stands {
        word(text, terminal, SPACE)
    } else {
        Ok(())
    }
}

fn variable(text: &mut String, variable: &Variable) -> Result<(), OutOfMemory>
    ensures { OnOk result (string_bytes text.new ≡ string_bytes text.old ++ spec.text_variable (variable_of variable.now)) }
{
    let end = match variable.start {
        None => LINE,
        Some(_) => SPACE,
    };
    flag(text, Terminal::Stable, variable.stable)?;
    field(text, &variable.field, end)?;
    optional(text, Terminal::Becomes, &variable.start)
}

fn more_variables(text: &mut String, variables: &[Variable]) -> Result<(), OutOfMemory>
    ensures { OnOk result (string_bytes text.new ≡ string_bytes text.old ++ spec.text_more Terminal.Semicolon spec.text_variable (map variable_of variables.now)) }
{
    for variable in variables {
        word(text, Terminal::Semicolon, SPACE)?;
        self::variable(text, variable)?;
    }
    Ok(())
}

fn states(text: &mut String, variables: &[Variable]) -> Result<(), OutOfMemory>
    ensures { OnOk result (string_bytes text.new ≡ string_bytes text.old ++ spec.text_optional_list (spec.text_word spec.line Terminal.States) (spec.text_list Terminal.Semicolon spec.text_variable) (map variable_of variables.now)) }
{
    let Some((first, more)) = variables.split_first() else {
        return Ok(());
    };
    word(text, Terminal::States, LINE)?;
    variable(text, first)?;
    more_variables(text, more)
}

fn choice(text: &mut String, choice: &Choice) -> Result<(), OutOfMemory>
    ensures { OnOk result (string_bytes text.new ≡ string_bytes text.old ++ spec.text_choice (choice_of choice.now)) }
{
    match choice {
        Choice::Value(inner) => expression(text, inner, LINE),
        Choice::Any(inner, _) => {
            call(text, Terminal::Any)?;
            expression(text, inner, SPACE)?;
            word(text, Terminal::Close, LINE)
        }
    }
}

fn proposal(text: &mut String, proposal: &Proposal) -> Result<(), OutOfMemory>
    ensures { OnOk result (string_bytes text.new ≡ string_bytes text.old ++ spec.text_proposal (proposal_of proposal.now)) }
{
    name(text, &proposal.name, SPACE)?;
    word(text, Terminal::Becomes, SPACE)?;
    choice(text, &proposal.choice)
}

fn more_proposals(text: &mut String, proposals: &[Proposal]) -> Result<(), OutOfMemory>
    ensures { OnOk result (string_bytes text.new ≡ string_bytes text.old ++ spec.text_more Terminal.Comma spec.text_proposal (map proposal_of proposals.now)) }
{
    for proposal in proposals {
        word(text, Terminal::Comma, SPACE)?;
        self::proposal(text, proposal)?;
    }
    Ok(())
}

fn proposals(text: &mut String, proposals: &[Proposal]) -> Result<(), OutOfMemory>
    ensures { OnOk result (string_bytes text.new ≡ string_bytes text.old ++ spec.text_optional_list (spec.text_word spec.space Terminal.Propose) (spec.text_list Terminal.Comma spec.text_proposal) (map proposal_of proposals.now)) }
{
    let Some((first, more)) = proposals.split_first() else {
        return Ok(());
    };
    word(text, Terminal::Propose, SPACE)?;
    proposal(text, first)?;
    more_proposals(text, more)
}

fn transition(text: &mut String, transition: &Transition) -> Result<(), OutOfMemory>
    ensures { OnOk result (string_bytes text.new ≡ string_bytes text.old ++ spec.text_transition (transition_of transition.now)) }
{
    word(text, word_of(transition.kind), SPACE)?;
    name(text, &transition.name, LINE)?;
    optional(text, Terminal::Pre, &transition.pre)?;
    proposals(text, &transition.proposals)?;
    effect(text, &transition.effect)
}

#[tactic(auto, unfolding(crate::specs::Layout::text_all))]
fn transitions(text: &mut String, transitions: &[Transition]) -> Result<(), OutOfMemory>
    ensures { OnOk result (string_bytes text.new ≡ string_bytes text.old ++ spec.text_all spec.text_transition (map transition_of transitions.now)) }
{
    for each in transitions {
        transition(text, each)?;
    }
    Ok(())
}

fn signature(text: &mut String, automaton: &Automaton) -> Result<(), OutOfMemory>
    ensures { OnOk result (string_bytes text.new ≡ string_bytes text.old ++ spec.text_signature (automaton_of automaton.now)) }
{
    name(text, &automaton.name, before(&automaton.formals))?;
    formals(text, &automaton.formals)?;
    word(text, Terminal::Signature, LINE)?;
    entries(text, &automaton.entries)
}

fn behaviour(text: &mut String, automaton: &Automaton) -> Result<(), OutOfMemory>
    ensures { OnOk result (string_bytes text.new ≡ string_bytes text.old ++ spec.text_behaviour (automaton_of automaton.now)) }
{
    states(text, &automaton.variables)?;
    word(text, Terminal::Transitions, LINE)?;
    transitions(text, &automaton.transitions)
}

/// Writes what stands after the word `automaton`.
pub(crate) fn automaton(text: &mut String, automaton: &Automaton) -> Result<(), OutOfMemory>
    ensures { OnOk result (string_bytes text.new ≡ string_bytes text.old ++ spec.text_automaton (automaton_of automaton.now)) }
{
    signature(text, automaton)?;
    behaviour(text, automaton)
}
