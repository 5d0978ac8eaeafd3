//! The rules of limits, by counts alone, so that no other rule goes over a tree that is too large.

ghost use Rattle.std.specs.Prelude.{◌≡◌, ◌+◌, ◌≤◌, ◌&&◌, map, length, filter, sum, nat_le};
ghost use Rattle.std.specs.List.{list_all};
ghost use Rattle.ioa_tree.specs.View.{automaton_of, assembly_of, entry_of, transition_of, declaration_of, type_declaration_of, tree_of, proposal_of, stmt_of, stmts_of, arms_of, expr_of, exprs_of};
ghost use Rattle.ioa_tree.specs.Tree.{expr_in};
ghost use Rattle.ioa_tree.specs.WellFormed as well_formed;
ghost use Rattle.ioa_rules.specs.Codes.{too_many, tells};
ghost use Rattle.ioa_rules.specs.Sizes as sizes;
ghost use Rattle.ioa_rules.specs.Sizes.{counted, all_counted, Counts};
ghost use Rattle.ioa_rules.specs.Verdicts.{Says};

use crate::names::{Named, at_most};
use crate::positions::positions_within;
use ioa_lex::Refusal;
use ioa_tree::{
    Arm, Assembly, Automaton, Declaration, Entry, Expression, Proposal, Statement, Transition,
    TypeDeclaration, TypeForm,
};
use ioa_value::LIMITS;

/// Whether no declaration is too many, and none has a part that passes a limit.
pub(crate) fn source_within(declarations: &[Declaration]) -> Result<(), Refusal>
    ensures { Says result (well_formed.source_within LIMITS (tree_of declarations.now)) (tells too_many) }
{
    group_within(declarations, Group::Types, LIMITS.types)?;
    group_within(declarations, Group::Machines, LIMITS.automata)?;
    group_within(declarations, Group::Invariants, LIMITS.invariants)?;
    each_declaration_within(declarations)
}

/// Declarations that are counted together.
#[derive(Clone, Copy)]
enum Group {
    Types,
    /// Automata and compositions.
    Machines,
    Invariants,
}

/// Whether there are no more declarations of the group than this. A line is that of the first that is too many.
fn group_within(declarations: &[Declaration], group: Group, most: usize) -> Result<(), Refusal>
    ensures { Says result (nat_le (length (filter (sizes.is_among group) (tree_of declarations.now))) most) (tells too_many) }
{
    let mut count = 0;
    for declaration in declarations {
        if is_among(group, declaration) {
            if count == most {
                return Err(Refusal::TooMany(declaration.name().line));
            }
            count += 1;
        }
    }
    Ok(())
}

/// Whether the declaration is one of the group.
fn is_among(group: Group, declaration: &Declaration) -> bool
    ensures { result ≡ sizes.is_among group (declaration_of declaration.now) }
{
    match group {
        Group::Types => matches!(declaration, Declaration::Type(_)),
        Group::Machines => {
            matches!(
                declaration,
                Declaration::Automaton(_) | Declaration::Composition(_)
            )
        }
        Group::Invariants => matches!(declaration, Declaration::Invariant(_)),
    }
}

fn each_declaration_within(declarations: &[Declaration]) -> Result<(), Refusal>
    ensures { Says result (list_all (well_formed.declaration_within LIMITS) (tree_of declarations.now)) (tells too_many) }
{
    for declaration in declarations {
        declaration_within(declaration)?;
    }
    Ok(())
}

fn declaration_within(declaration: &Declaration) -> Result<(), Refusal>
    ensures { Says result (well_formed.declaration_within LIMITS (declaration_of declaration.now)) (tells too_many) }
{
    match declaration {
        Declaration::Type(declared) => form_within(declared),
        Declaration::Automaton(automaton) => automaton_within(automaton),
        Declaration::Composition(composition) => composition_within(composition),
        Declaration::Invariant(_) => Ok(()),
    }
}

/// Whether there are no more components and hidden names than the limits.
fn composition_within(composition: &Assembly) -> Result<(), Refusal>
    ensures { Says result (well_formed.composition_within LIMITS (assembly_of composition.now)) (tells too_many) }
{
    at_most(&composition.instances, LIMITS.components)?;
    at_most(&composition.hidden, LIMITS.hidden)
}

/// Whether an enumeration's names, a tuple's fields or a sequence's capacity are from one up to their limit. A line is that
/// of the type's name, or of the capacity.
fn form_within(declared: &TypeDeclaration) -> Result<(), Refusal>
    ensures { Says result (well_formed.form_within LIMITS (type_declaration_of declared.now).form) (tells too_many) }
{
    let line = declared.name.line;
    match &declared.form {
        TypeForm::Enumeration(names) => some_within(LIMITS.names, names.len() as u64, line),
        TypeForm::Tuple(fields) => some_within(LIMITS.fields, fields.len() as u64, line),
        TypeForm::Sequence(most, _, line) => some_within(LIMITS.capacity, *most, *line),
    }
}

fn some_within(limit: usize, count: u64, line: u32) -> Result<(), Refusal>
    ensures { Says result (well_formed.some_within limit count) (tells too_many) }
{
    if 1 <= count && count <= limit as u64 {
        Ok(())
    } else {
        Err(Refusal::TooMany(line))
    }
}

fn automaton_within(automaton: &Automaton) -> Result<(), Refusal>
    ensures { Says result (well_formed.automaton_within LIMITS (automaton_of automaton.now)) (tells too_many) }
{
    members_within(automaton)?;
    entries_within(&automaton.entries)?;
    transitions_within(&automaton.transitions)
}

/// Whether there are no more formals, variables and entries than the limits.
fn members_within(automaton: &Automaton) -> Result<(), Refusal>
    ensures { let a = automaton_of automaton.now in
        Says result (nat_le (length a.formals) LIMITS.parameters && nat_le (length a.variables) LIMITS.variables && nat_le (length a.entries) LIMITS.entries) (tells too_many) }
{
    at_most(&automaton.formals, LIMITS.parameters)?;
    at_most(&automaton.variables, LIMITS.variables)?;
    at_most(&automaton.entries, LIMITS.entries)
}

fn entries_within(entries: &[Entry]) -> Result<(), Refusal>
    ensures { Says result (list_all (well_formed.entry_within LIMITS) (map entry_of entries.now)) (tells too_many) }
{
    for entry in entries {
        entry_within(entry)?;
    }
    Ok(())
}

fn entry_within(entry: &Entry) -> Result<(), Refusal>
    ensures { Says result (well_formed.entry_within LIMITS (entry_of entry.now)) (tells too_many) }
{
    positions_within(&entry.positions)
}

fn transitions_within(transitions: &[Transition]) -> Result<(), Refusal>
    ensures { Says result (list_all (well_formed.transition_within LIMITS) (map transition_of transitions.now)) (tells too_many) }
{
    for transition in transitions {
        transition_within(transition)?;
    }
    Ok(())
}

fn transition_within(transition: &Transition) -> Result<(), Refusal>
    ensures { Says result (well_formed.transition_within LIMITS (transition_of transition.now)) (tells too_many) }
{
    pre_within(transition)?;
    proposals_within(&transition.proposals)?;
    effect_within(&transition.effect)
}

fn pre_within(transition: &Transition) -> Result<(), Refusal>
    ensures { Says result (well_formed.pre_within LIMITS (transition_of transition.now)) (tells too_many) }
{
    match &transition.pre {
        Some(pre) if nodes(pre) > LIMITS.nodes => Err(Refusal::TooMany(pre.line())),
        _ => Ok(()),
    }
}

/// Whether proposals together have no more nodes than the limit.
fn proposals_within(proposals: &[Proposal]) -> Result<(), Refusal>
    ensures { Says result (nat_le (sum (map (λ p. well_formed.nodes (expr_in p.choice)) (map proposal_of proposals.now))) LIMITS.nodes) (tells too_many) }
{
    let mut total = 0;
    for proposal in proposals {
        total += nodes(proposal.choice.expression());
        if total > LIMITS.nodes {
            return Err(Refusal::TooMany(proposal.name.line));
        }
    }
    Ok(())
}

/// Whether statements together have no more nodes than the limit.
fn effect_within(effect: &[Statement]) -> Result<(), Refusal>
    ensures { Says result (nat_le (well_formed.stmts_nodes (stmts_of effect.now)) LIMITS.nodes) (tells too_many) }
{
    statements_counted(0, effect)?;
    Ok(())
}

/// The count of nodes so far with those of these statements. A line is that of the statement or condition that passes the
/// limit.
#[cycle(counted)]
fn statements_counted(before: usize, statements: &[Statement]) -> Result<usize, Refusal>
    requires { before ≤ LIMITS.nodes }
    ensures { Counts result (before + well_formed.stmts_nodes (stmts_of statements.now)) }
{
    let mut count = before;
    for statement in statements {
        count = statement_counted(count, statement)?;
    }
    Ok(count)
}

#[cycle(counted)]
fn statement_counted(before: usize, statement: &Statement) -> Result<usize, Refusal>
    requires { before ≤ LIMITS.nodes }
    ensures { Counts result (before + well_formed.stmt_nodes (stmt_of statement.now)) }
{
    match statement {
        Statement::Assign(name, value) => count_on(before, nodes(value) + 1, name.line),
        Statement::If(arms, others, line) => {
            let with_own = count_on(before, 1, *line)?;
            let with_arms = arms_counted(with_own, arms)?;
            statements_counted(with_arms, others)
        }
        Statement::For(_, items, body, line) => {
            let with_items = count_on(before, nodes(items) + 1, *line)?;
            statements_counted(with_items, body)
        }
    }
}

#[cycle(counted)]
fn arms_counted(before: usize, arms: &[Arm]) -> Result<usize, Refusal>
    requires { before ≤ LIMITS.nodes }
    ensures { Counts result (before + well_formed.arms_nodes (arms_of arms.now)) }
{
    let mut count = before;
    for arm in arms {
        let condition = &arm.condition;
        let with_condition = count_on(count, nodes(condition), condition.line())?;
        count = statements_counted(with_condition, &arm.statements)?;
    }
    Ok(count)
}

/// The count with so many nodes more.
fn count_on(before: usize, more: usize, line: u32) -> Result<usize, Refusal>
    requires within { before ≤ LIMITS.nodes }
    requires counted { more ≤ LIMITS.nodes + 2 }
    ensures { Counts result (before + more) }
{
    let count = before + more;
    if count > LIMITS.nodes {
        return Err(Refusal::TooMany(line));
    }
    Ok(count)
}

/// How many nodes an expression has, but no more than one past the limit.
#[cycle(nodes)]
fn nodes(expression: &Expression) -> usize
    ensures { result ≡ counted (expr_of expression.now) }
{
    match expression {
        Expression::Number(_, _)
        | Expression::Truth(_, _)
        | Expression::Name(_)
        | Expression::Empty(_, _) => 1,
        Expression::Parentheses(inner, _)
        | Expression::Prefix(_, inner, _)
        | Expression::Select(inner, _, _) => (nodes(inner) + 1).min(LIMITS.nodes + 1),
        Expression::Binary(left, _, right, _) => {
            (nodes(left) + nodes(right) + 1).min(LIMITS.nodes + 1)
        }
        Expression::Make(_, fields) => (nodes_of_all(fields) + 1).min(LIMITS.nodes + 1),
    }
}

/// How many nodes expressions have together, but no more than one past the limit.
#[cycle(nodes)]
fn nodes_of_all(expressions: &[Expression]) -> usize
    ensures { result ≡ all_counted (exprs_of expressions.now) }
{
    let mut count = 0;
    for expression in expressions {
        count = (count + nodes(expression)).min(LIMITS.nodes + 1);
    }
    count
}
