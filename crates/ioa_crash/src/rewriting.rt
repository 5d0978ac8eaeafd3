//! The rewriting of an automaton's tree by which it crashes and recovers. Nodes that are added have the line of the names by which
//! it does.

ghost use Rattle.std.specs.Prelude.{◌≡◌, ◌++◌, ◌∷◌, [], true, Some, IfOk, map, if◌then◌else◌};
ghost use Rattle.std.specs.Option.{option_map};
ghost use Rattle.ioa_tree.specs.Tree.{assign, truth, seq, stop};
ghost use Rattle.ioa_tree.specs.View.{name_of, expr_of, field_of, entry_of, variable_of, stmt_of, stmts_of, transition_of, automaton_of, crash_of};
ghost use Rattle.ioa_tree.specs.WellFormed.{is_input};
ghost use Rattle.ioa_crash.specs.Rewriting as spec;

use crate::copies::{
    copied_entries, copied_expression, copied_fields, copied_name, copied_option, copied_proposals,
    copied_statements, copied_variables,
};
use ioa_tree::{
    Arm, Automaton, Crash, Entry, Expression, Field, Infix, Kind, Name, Statement, Transition,
    Variable,
};
use ioa_value::OutOfMemory;
use std::alloc::Global;

/// The automaton that crashes and recovers by these names. What is added stands last.
pub fn rewritten(
    alloc: Global,
    names: &Crash,
    automaton: &Automaton,
) -> Result<Automaton, OutOfMemory>
    ensures { IfOk result (λ a. automaton_of a ≡ spec.rewritten (crash_of names.now) (automaton_of automaton.now)) }
{
    Ok(Automaton {
        name: copied_name(alloc, &automaton.name)?,
        formals: more_formals(alloc, &automaton.formals, &automaton.variables)?,
        entries: more_entries(alloc, names, &automaton.entries)?,
        variables: more_variables(alloc, names.crash.line, &automaton.variables)?,
        transitions: more_transitions(alloc, names, automaton)?,
    })
}

/// The formals, and one for the start value of each variable that a crash resets.
fn more_formals(
    alloc: Global,
    formals: &[Field],
    variables: &[Variable],
) -> Result<Vec<Field>, OutOfMemory>
    ensures { IfOk result (λ fs. map field_of fs.items ≡ map field_of formals.now ++ map spec.start_formal (spec.volatile (map variable_of variables.now))) }
{
    let mut out = copied_fields(alloc, formals)?;
    for variable in variables {
        if !variable.stable {
            out.push(start_formal(alloc, variable)?)?;
        }
    }
    Ok(out)
}

/// The formal for the variable's start value.
fn start_formal(alloc: Global, variable: &Variable) -> Result<Field, OutOfMemory>
    ensures { IfOk result (λ f. field_of f ≡ spec.start_formal (variable_of variable.now)) }
{
    Ok(Field {
        name: start_name(alloc, &variable.field.name)?,
        ty: copied_name(alloc, &variable.field.ty)?,
    })
}

/// The name for a variable's start value, which no text spells.
fn start_name(alloc: Global, name: &Name) -> Result<Name, OutOfMemory>
    ensures { IfOk result (λ n. name_of n ≡ spec.start_name (name_of name.now)) }
{
    let mut text = String::from_str(alloc, "##")?;
    text.push_str(name.text.as_str())?;
    Ok(Name {
        text,
        line: name.line,
    })
}

/// The name for whether the host is up, which no text spells.
fn up_name(alloc: Global, line: u32) -> Result<Name, OutOfMemory>
    ensures { IfOk result (λ n. name_of n ≡ spec.up_name) }
{
    Ok(Name {
        text: String::from_str(alloc, "#up")?,
        line,
    })
}

/// The entries, and those of crash and recover.
fn more_entries(alloc: Global, names: &Crash, entries: &[Entry]) -> Result<Vec<Entry>, OutOfMemory>
    ensures { IfOk result (λ es. map entry_of es.items ≡ map entry_of entries.now ++ spec.signals (crash_of names.now)) }
{
    let mut out = copied_entries(alloc, entries)?;
    out.push(signal_entry(alloc, &names.crash)?)?;
    out.push(signal_entry(alloc, &names.recover)?)?;
    Ok(out)
}

/// The entry of an input without parameters.
fn signal_entry(alloc: Global, name: &Name) -> Result<Entry, OutOfMemory>
    ensures { IfOk result (λ e. entry_of e ≡ spec.signal_entry (name_of name.now)) }
{
    Ok(Entry {
        kind: Kind::Input,
        name: copied_name(alloc, name)?,
        positions: Vec::new(alloc),
    })
}

/// The variables, and whether the host is up.
fn more_variables(
    alloc: Global,
    line: u32,
    variables: &[Variable],
) -> Result<Vec<Variable>, OutOfMemory>
    ensures { IfOk result (λ vs. map variable_of vs.items ≡ map variable_of variables.now ++ spec.up_variable ∷ []) }
{
    let mut out = copied_variables(alloc, variables)?;
    out.push(up_variable(alloc, line)?)?;
    Ok(out)
}

/// The variable for whether the host is up, which it is at the start.
fn up_variable(alloc: Global, line: u32) -> Result<Variable, OutOfMemory>
    ensures { IfOk result (λ v. variable_of v ≡ spec.up_variable) }
{
    let ty = Name {
        text: String::from_str(alloc, "Bool")?,
        line,
    };
    Ok(Variable {
        stable: false,
        field: Field {
            name: up_name(alloc, line)?,
            ty,
        },
        start: Some(Expression::Truth(true, line)),
    })
}

/// The transitions under guard, and those of crash and recover.
fn more_transitions(
    alloc: Global,
    names: &Crash,
    automaton: &Automaton,
) -> Result<Vec<Transition>, OutOfMemory>
    ensures { IfOk result (λ ts. map transition_of ts.items ≡ (spec.rewritten (crash_of names.now) (automaton_of automaton.now)).transitions) }
{
    let mut out = guarded_transitions(alloc, names.crash.line, &automaton.transitions)?;
    out.push(crash_transition(alloc, &names.crash, &automaton.variables)?)?;
    out.push(recover_transition(alloc, &names.recover)?)?;
    Ok(out)
}

fn guarded_transitions(
    alloc: Global,
    line: u32,
    transitions: &[Transition],
) -> Result<Vec<Transition>, OutOfMemory>
    ensures { IfOk result (λ ts. map transition_of ts.items ≡ map spec.guarded (map transition_of transitions.now)) }
{
    let mut out = Vec::new(alloc);
    for transition in transitions {
        out.push(guarded(alloc, line, transition)?)?;
    }
    Ok(out)
}

/// The transition that does nothing while the host is down, and is not enabled then where it is local.
fn guarded(alloc: Global, line: u32, transition: &Transition) -> Result<Transition, OutOfMemory>
    ensures { IfOk result (λ t. transition_of t ≡ spec.guarded (transition_of transition.now)) }
{
    let effect = copied_statements(alloc, &transition.effect)?;
    Ok(Transition {
        kind: transition.kind,
        name: copied_name(alloc, &transition.name)?,
        proposals: copied_proposals(alloc, &transition.proposals)?,
        effect: if_up(alloc, line, effect)?,
        pre: guarded_precondition(alloc, line, transition)?,
    })
}

/// The precondition of a transition under guard: inputs have none.
fn guarded_precondition(
    alloc: Global,
    line: u32,
    transition: &Transition,
) -> Result<Option<Expression>, OutOfMemory>
    ensures { IfOk result (λ p. option_map expr_of p ≡ (spec.guarded (transition_of transition.now)).pre) }
{
    match transition.kind {
        Kind::Input => copied_option(alloc, &transition.pre),
        Kind::Output | Kind::Internal => Ok(Some(only_up(alloc, line, &transition.pre)?)),
    }
}

/// Whether the host is up and the condition holds.
fn only_up(
    alloc: Global,
    line: u32,
    condition: &Option<Expression>,
) -> Result<Expression, OutOfMemory>
    ensures { IfOk result (λ e. expr_of e ≡ spec.only_up (option_map expr_of condition.now)) }
{
    let up = up_name(alloc, line)?;
    match condition {
        None => Ok(Expression::Name(up)),
        Some(condition) => {
            let up = Box::new(alloc, Expression::Name(up))?;
            let condition = copied_expression(alloc, condition)?;
            Ok(Expression::Binary(up, Infix::And, Box::new(alloc, condition)?, line))
        }
    }
}

/// The statements, where the host is up.
fn if_up(
    alloc: Global,
    line: u32,
    statements: Vec<Statement>,
) -> Result<Vec<Statement>, OutOfMemory>
    ensures { IfOk result (λ ss. stmts_of ss.items ≡ spec.if_up (stmts_of statements.items)) }
{
    let condition = Expression::Name(up_name(alloc, line)?);
    let mut arms = Vec::new(alloc);
    arms.push(Arm {
        condition,
        statements,
    })?;
    let mut out = Vec::new(alloc);
    out.push(Statement::If(arms, Vec::new(alloc), line))?;
    Ok(out)
}

/// The transition by which the host crashes.
fn crash_transition(
    alloc: Global,
    name: &Name,
    variables: &[Variable],
) -> Result<Transition, OutOfMemory>
    ensures { IfOk result (λ t. transition_of t ≡ spec.crash_transition (map variable_of variables.now) (name_of name.now)) }
{
    let effect = resets(alloc, name.line, variables)?;
    signal_transition(alloc, name, effect)
}

/// The transition by which the host recovers.
fn recover_transition(alloc: Global, name: &Name) -> Result<Transition, OutOfMemory>
    ensures { IfOk result (λ t. transition_of t ≡ spec.recover_transition (name_of name.now)) }
{
    let mut effect = Vec::new(alloc);
    effect.push(set_up(alloc, name.line, true)?)?;
    signal_transition(alloc, name, effect)
}

/// The transition of an input without parameters.
fn signal_transition(
    alloc: Global,
    name: &Name,
    effect: Vec<Statement>,
) -> Result<Transition, OutOfMemory>
    ensures { IfOk result (λ t. transition_of t ≡ spec.signal_transition (name_of name.now) (stmts_of effect.items)) }
{
    Ok(Transition {
        kind: Kind::Input,
        name: copied_name(alloc, name)?,
        pre: None,
        proposals: Vec::new(alloc),
        effect,
    })
}

/// The statements by which variables that are not stable get their start values, and the host is down.
fn resets(alloc: Global, line: u32, variables: &[Variable]) -> Result<Vec<Statement>, OutOfMemory>
    ensures { IfOk result (λ ss. stmts_of ss.items ≡ spec.resets (spec.volatile (map variable_of variables.now))) }
{
    let mut out = Vec::new(alloc);
    for variable in variables {
        if !variable.stable {
            out.push(reset(alloc, variable)?)?;
        }
    }
    out.push(set_up(alloc, line, false)?)?;
    Ok(out)
}

/// The statement by which the variable gets its start value.
fn reset(alloc: Global, variable: &Variable) -> Result<Statement, OutOfMemory>
    ensures { IfOk result (λ s. stmt_of s ≡ spec.reset (variable_of variable.now)) }
{
    let value = start_name(alloc, &variable.field.name)?;
    let name = copied_name(alloc, &variable.field.name)?;
    Ok(Statement::Assign(name, Expression::Name(value)))
}

/// The statement by which the host is up or down.
fn set_up(alloc: Global, line: u32, up: bool) -> Result<Statement, OutOfMemory>
    ensures { IfOk result (λ s. stmt_of s ≡ assign spec.up_name (truth up)) }
{
    Ok(Statement::Assign(up_name(alloc, line)?, Expression::Truth(up, line)))
}
