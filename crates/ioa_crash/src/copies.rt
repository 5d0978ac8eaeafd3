//! Copies of trees, since a composition keeps automata and invariants, and no source. An expression is copied last, or boxed at
//! once: where memory is short behind it, all of its kinds would have to be told apart to drop it.

ghost use Rattle.std.specs.Prelude.{◌≡◌, IfOk, map};
ghost use Rattle.std.specs.Option.{option_map};
ghost use Rattle.ioa_tree.specs.View as view;

use ioa_tree::{
    Arm, Automaton, Choice, Constant, Entry, Expression, Field, Invariant, Name, Position,
    Proposal, Statement, Transition, Variable,
};
use ioa_value::OutOfMemory;
use std::alloc::Global;

pub(crate) fn copied_name(alloc: Global, name: &Name) -> Result<Name, OutOfMemory>
    ensures { IfOk result (λ copy. view.name_of copy ≡ view.name_of name.now) }
{
    Ok(Name {
        text: String::from_str(alloc, name.text.as_str())?,
        line: name.line,
    })
}

#[cycle(expression)]
pub(crate) fn copied_expression(
    alloc: Global,
    expression: &Expression,
) -> Result<Expression, OutOfMemory>
    ensures { IfOk result (λ copy. view.expr_of copy ≡ view.expr_of expression.now) }
{
    match expression {
        Expression::Number(n, line) => Ok(Expression::Number(*n, *line)),
        Expression::Truth(b, line) => Ok(Expression::Truth(*b, *line)),
        Expression::Name(name) => Ok(Expression::Name(copied_name(alloc, name)?)),
        Expression::Parentheses(inner, line) => {
            let inner = Box::new(alloc, copied_expression(alloc, inner)?)?;
            Ok(Expression::Parentheses(inner, *line))
        }
        Expression::Prefix(operator, operand, line) => {
            let operand = Box::new(alloc, copied_expression(alloc, operand)?)?;
            Ok(Expression::Prefix(*operator, operand, *line))
        }
        Expression::Binary(left, operator, right, line) => {
            let left = Box::new(alloc, copied_expression(alloc, left)?)?;
            let right = Box::new(alloc, copied_expression(alloc, right)?)?;
            Ok(Expression::Binary(left, *operator, right, *line))
        }
        Expression::Empty(name, line) => Ok(Expression::Empty(copied_name(alloc, name)?, *line)),
        Expression::Make(name, fields) => {
            let name = copied_name(alloc, name)?;
            Ok(Expression::Make(name, copied_expressions(alloc, fields)?))
        }
        Expression::Select(tuple, name, line) => {
            let tuple = Box::new(alloc, copied_expression(alloc, tuple)?)?;
            Ok(Expression::Select(tuple, copied_name(alloc, name)?, *line))
        }
    }
}

#[cycle(expression)]
fn copied_expressions(
    alloc: Global,
    expressions: &[Expression],
) -> Result<Vec<Expression>, OutOfMemory>
    ensures { IfOk result (λ copies. view.exprs_of copies.items ≡ view.exprs_of expressions.now) }
{
    let mut out = Vec::new(alloc);
    for expression in expressions {
        out.push(copied_expression(alloc, expression)?)?;
    }
    Ok(out)
}

pub(crate) fn copied_option(
    alloc: Global,
    expression: &Option<Expression>,
) -> Result<Option<Expression>, OutOfMemory>
    ensures { IfOk result (λ copy. option_map view.expr_of copy ≡ option_map view.expr_of expression.now) }
{
    match expression {
        Some(expression) => Ok(Some(copied_expression(alloc, expression)?)),
        None => Ok(None),
    }
}

fn copied_field(alloc: Global, field: &Field) -> Result<Field, OutOfMemory>
    ensures { IfOk result (λ copy. view.field_of copy ≡ view.field_of field.now) }
{
    Ok(Field {
        name: copied_name(alloc, &field.name)?,
        ty: copied_name(alloc, &field.ty)?,
    })
}

pub(crate) fn copied_fields(alloc: Global, fields: &[Field]) -> Result<Vec<Field>, OutOfMemory>
    ensures { IfOk result (λ copies. map view.field_of copies.items ≡ map view.field_of fields.now) }
{
    let mut out = Vec::new(alloc);
    for field in fields {
        out.push(copied_field(alloc, field)?)?;
    }
    Ok(out)
}

fn copied_constant(alloc: Global, constant: &Constant) -> Result<Constant, OutOfMemory>
    ensures { IfOk result (λ copy. view.constant_of copy ≡ view.constant_of constant.now) }
{
    match constant {
        Constant::Number(n, line) => Ok(Constant::Number(*n, *line)),
        Constant::Negative(n, line) => Ok(Constant::Negative(*n, *line)),
        Constant::Truth(b, line) => Ok(Constant::Truth(*b, *line)),
        Constant::Name(name) => Ok(Constant::Name(copied_name(alloc, name)?)),
    }
}

fn copied_position(alloc: Global, position: &Position) -> Result<Position, OutOfMemory>
    ensures { IfOk result (λ copy. view.position_of copy ≡ view.position_of position.now) }
{
    match position {
        Position::Typed(field) => Ok(Position::Typed(copied_field(alloc, field)?)),
        Position::Constant(constant) => Ok(Position::Constant(copied_constant(alloc, constant)?)),
    }
}

fn copied_positions(alloc: Global, positions: &[Position]) -> Result<Vec<Position>, OutOfMemory>
    ensures { IfOk result (λ copies. map view.position_of copies.items ≡ map view.position_of positions.now) }
{
    let mut out = Vec::new(alloc);
    for position in positions {
        out.push(copied_position(alloc, position)?)?;
    }
    Ok(out)
}

pub(crate) fn copied_entries(alloc: Global, entries: &[Entry]) -> Result<Vec<Entry>, OutOfMemory>
    ensures { IfOk result (λ copies. map view.entry_of copies.items ≡ map view.entry_of entries.now) }
{
    let mut out = Vec::new(alloc);
    for entry in entries {
        out.push(copied_entry(alloc, entry)?)?;
    }
    Ok(out)
}

fn copied_entry(alloc: Global, entry: &Entry) -> Result<Entry, OutOfMemory>
    ensures { IfOk result (λ copy. view.entry_of copy ≡ view.entry_of entry.now) }
{
    Ok(Entry {
        kind: entry.kind,
        name: copied_name(alloc, &entry.name)?,
        positions: copied_positions(alloc, &entry.positions)?,
    })
}

fn copied_variable(alloc: Global, variable: &Variable) -> Result<Variable, OutOfMemory>
    ensures { IfOk result (λ copy. view.variable_of copy ≡ view.variable_of variable.now) }
{
    Ok(Variable {
        stable: variable.stable,
        field: copied_field(alloc, &variable.field)?,
        start: copied_option(alloc, &variable.start)?,
    })
}

pub(crate) fn copied_variables(
    alloc: Global,
    variables: &[Variable],
) -> Result<Vec<Variable>, OutOfMemory>
    ensures { IfOk result (λ copies. map view.variable_of copies.items ≡ map view.variable_of variables.now) }
{
    let mut out = Vec::new(alloc);
    for variable in variables {
        out.push(copied_variable(alloc, variable)?)?;
    }
    Ok(out)
}

fn copied_choice(alloc: Global, choice: &Choice) -> Result<Choice, OutOfMemory>
    ensures { IfOk result (λ copy. view.choice_of copy ≡ view.choice_of choice.now) }
{
    match choice {
        Choice::Value(value) => Ok(Choice::Value(copied_expression(alloc, value)?)),
        Choice::Any(bound, line) => Ok(Choice::Any(copied_expression(alloc, bound)?, *line)),
    }
}

pub(crate) fn copied_proposals(
    alloc: Global,
    proposals: &[Proposal],
) -> Result<Vec<Proposal>, OutOfMemory>
    ensures { IfOk result (λ copies. map view.proposal_of copies.items ≡ map view.proposal_of proposals.now) }
{
    let mut out = Vec::new(alloc);
    for proposal in proposals {
        out.push(Proposal {
            name: copied_name(alloc, &proposal.name)?,
            choice: copied_choice(alloc, &proposal.choice)?,
        })?;
    }
    Ok(out)
}

#[cycle(statement)]
fn copied_statement(alloc: Global, statement: &Statement) -> Result<Statement, OutOfMemory>
    ensures { IfOk result (λ copy. view.stmt_of copy ≡ view.stmt_of statement.now) }
{
    match statement {
        Statement::Assign(name, value) => Ok(Statement::Assign(
            copied_name(alloc, name)?,
            copied_expression(alloc, value)?,
        )),
        Statement::If(arms, others, line) => {
            let arms = copied_arms(alloc, arms)?;
            let others = copied_statements(alloc, others)?;
            Ok(Statement::If(arms, others, *line))
        }
        Statement::For(name, items, body, line) => {
            let name = copied_name(alloc, name)?;
            let body = copied_statements(alloc, body)?;
            let items = copied_expression(alloc, items)?;
            Ok(Statement::For(name, items, body, *line))
        }
    }
}

#[cycle(statement)]
pub(crate) fn copied_statements(
    alloc: Global,
    statements: &[Statement],
) -> Result<Vec<Statement>, OutOfMemory>
    ensures { IfOk result (λ copies. view.stmts_of copies.items ≡ view.stmts_of statements.now) }
{
    let mut out = Vec::new(alloc);
    for statement in statements {
        out.push(copied_statement(alloc, statement)?)?;
    }
    Ok(out)
}

#[cycle(statement)]
fn copied_arms(alloc: Global, arms: &[Arm]) -> Result<Vec<Arm>, OutOfMemory>
    ensures { IfOk result (λ copies. view.arms_of copies.items ≡ view.arms_of arms.now) }
{
    let mut out = Vec::new(alloc);
    for arm in arms {
        out.push(Arm {
            statements: copied_statements(alloc, &arm.statements)?,
            condition: copied_expression(alloc, &arm.condition)?,
        })?;
    }
    Ok(out)
}

fn copied_transition(alloc: Global, transition: &Transition) -> Result<Transition, OutOfMemory>
    ensures { IfOk result (λ copy. view.transition_of copy ≡ view.transition_of transition.now) }
{
    Ok(Transition {
        kind: transition.kind,
        name: copied_name(alloc, &transition.name)?,
        proposals: copied_proposals(alloc, &transition.proposals)?,
        effect: copied_statements(alloc, &transition.effect)?,
        pre: copied_option(alloc, &transition.pre)?,
    })
}

fn copied_transitions(
    alloc: Global,
    transitions: &[Transition],
) -> Result<Vec<Transition>, OutOfMemory>
    ensures { IfOk result (λ copies. map view.transition_of copies.items ≡ map view.transition_of transitions.now) }
{
    let mut out = Vec::new(alloc);
    for transition in transitions {
        out.push(copied_transition(alloc, transition)?)?;
    }
    Ok(out)
}

/// An automaton with the same tree.
pub fn copied_automaton(alloc: Global, automaton: &Automaton) -> Result<Automaton, OutOfMemory>
    ensures { IfOk result (λ copy. view.automaton_of copy ≡ view.automaton_of automaton.now) }
{
    Ok(Automaton {
        name: copied_name(alloc, &automaton.name)?,
        formals: copied_fields(alloc, &automaton.formals)?,
        entries: copied_entries(alloc, &automaton.entries)?,
        variables: copied_variables(alloc, &automaton.variables)?,
        transitions: copied_transitions(alloc, &automaton.transitions)?,
    })
}

/// An invariant with the same tree.
pub fn copied_invariant(alloc: Global, invariant: &Invariant) -> Result<Invariant, OutOfMemory>
    ensures { IfOk result (λ copy. view.invariant_of copy ≡ view.invariant_of invariant.now) }
{
    Ok(Invariant {
        automaton: copied_name(alloc, &invariant.automaton)?,
        condition: copied_expression(alloc, &invariant.condition)?,
    })
}
