//! Code of expressions and statements. What need not be evaluated is jumped over.

ghost use Rattle.ioa_value.specs.Table.{Table};
ghost use Rattle.std.specs.Prelude.{◌≡◌, ◌+◌, ◌<◌, ◌^◌, length, OnOk, Some};
ghost use Rattle.std.specs.Option.{option_map};
ghost use Rattle.ioa_value.specs.Plain.{plain};
ghost use Rattle.ioa_value.specs.Typing.{HasType, own};
ghost use Rattle.ioa_code.specs.Parts.{listing};
ghost use Rattle.ioa_tree.specs.View.{name_of, expr_of, exprs_of, stmt_of, stmts_of, arms_of};
ghost use Rattle.ioa_tree.specs.Tree.{named, assign, choose, each};
ghost use Rattle.ioa_tree.specs.WellFormed.{nodes, exprs_nodes, stmt_nodes, stmts_nodes};
ghost use Rattle.ioa_emit.specs.Scopes.{IsKnown, AreAllKnown, IsKnownStmt, AreKnown, IsKnownGuard, IsOrigin, origin};
ghost use Rattle.ioa_emit.specs.Extents.{extent, exprs_extent, infix_extent, guard_extent, stmt_extent, stmts_extent};
ghost use Rattle.ioa_emit.specs.Emitting.{AddsInstr, AddsConst, AddsExpr, AddsExprs, AddsCombined, AddsTrueSide, AddsFalseSide, AddsGuard, AddsStmt, AddsStmts, guard_nodes};

use crate::extents::{arms_extent, expression_extent, statements_extent};
use crate::name_places::named_type;
use crate::scope::Scope;
use ioa_code::{Code, Instr};
use ioa_compose::{constant, empty};
use ioa_tree::{Arm, Expression, Infix, Name, Statement};
use ioa_value::{Op, OutOfMemory, Value};
use std::alloc::Global;

/// The code of a precondition. An omitted one is the constant true.
pub fn emit_guard(
    alloc: Global,
    out: &mut Code,
    scope: &Scope<'_>,
    guard: &Option<Expression>,
) -> Result<(), OutOfMemory>
    requires known { IsKnownGuard scope.now (option_map expr_of guard.now) }
    requires room { length out.old.consts.items + guard_nodes (option_map expr_of guard.now) < 2 ^ 16 }
    requires short { length out.old.instrs.items + guard_extent (option_map expr_of guard.now) < 2 ^ 16 }
    ensures { OnOk result (AddsGuard (listing scope.now.types out.old) (listing scope.now.types out.new) scope.now (option_map expr_of guard.now)) }
{
    match guard {
        Some(e) => emit_expression(alloc, out, scope, e),
        None => put_constant(out, Value::Truth(true)),
    }
}

/// The code of statements, one after another.
#[cycle(statements)]
pub fn emit_statements<'a>(
    alloc: Global,
    out: &mut Code,
    scope: &Scope<'a>,
    statements: &'a [Statement],
) -> Result<(), OutOfMemory>
    requires known { AreKnown scope.now (stmts_of statements.now) }
    requires room { length out.old.consts.items + stmts_nodes (stmts_of statements.now) < 2 ^ 16 }
    requires short { length out.old.instrs.items + stmts_extent (stmts_of statements.now) < 2 ^ 16 }
    ensures { OnOk result (AddsStmts (listing scope.now.types out.old) (listing scope.now.types out.new) scope.now (stmts_of statements.now)) }
{
    for statement in statements {
        emit_statement(alloc, out, scope, statement)?;
    }
    Ok(())
}

/// The code of a statement.
#[cycle(statements)]
fn emit_statement<'a>(
    alloc: Global,
    out: &mut Code,
    scope: &Scope<'a>,
    statement: &'a Statement,
) -> Result<(), OutOfMemory>
    requires known { IsKnownStmt scope.now (stmt_of statement.now) }
    requires room { length out.old.consts.items + stmt_nodes (stmt_of statement.now) < 2 ^ 16 }
    requires short { length out.old.instrs.items + stmt_extent (stmt_of statement.now) < 2 ^ 16 }
    ensures { OnOk result (AddsStmt (listing scope.now.types out.old) (listing scope.now.types out.new) scope.now (stmt_of statement.now)) }
{
    match statement {
        Statement::Assign(name, e) => emit_assignment(alloc, out, scope, name, e),
        Statement::If(arms, others, _) => emit_choice(alloc, out, scope, arms, others),
        Statement::For(name, items, body, _) => emit_loop(alloc, out, scope, name, items, body),
    }
}

/// The code of a choice: arms, each a condition and statements that end with a jump over the rest, and the other statements.
#[cycle(statements)]
fn emit_choice<'a>(
    alloc: Global,
    out: &mut Code,
    scope: &Scope<'a>,
    arms: &'a [Arm],
    others: &'a [Statement],
) -> Result<(), OutOfMemory>
    requires known { IsKnownStmt scope.now (choose (arms_of arms.now) (stmts_of others.now)) }
    requires room { length out.old.consts.items + stmt_nodes (choose (arms_of arms.now) (stmts_of others.now)) < 2 ^ 16 }
    requires short { length out.old.instrs.items + stmt_extent (choose (arms_of arms.now) (stmts_of others.now)) < 2 ^ 16 }
    ensures { OnOk result (AddsStmt (listing scope.now.types out.old) (listing scope.now.types out.new) scope.now (choose (arms_of arms.now) (stmts_of others.now))) }
{
    let end = out.instrs.len() + arms_extent(arms) + statements_extent(others);
    for arm in arms {
        emit_expression(alloc, out, scope, &arm.condition)?;
        let next = out.instrs.len() + statements_extent(&arm.statements) + 2;
        put(out, Instr::JumpIfFalse(next as u16))?;
        emit_statements(alloc, out, scope, &arm.statements)?;
        put(out, Instr::Jump(end as u16))?;
    }
    emit_statements(alloc, out, scope, others)
}

/// The code of a loop: its sequence, which is evaluated once, and its body, which the place before it enters for each item and
/// which leads back there.
#[cycle(statements)]
fn emit_loop<'a>(
    alloc: Global,
    out: &mut Code,
    scope: &Scope<'a>,
    name: &'a Name,
    items: &Expression,
    body: &'a [Statement],
) -> Result<(), OutOfMemory>
    requires known { IsKnownStmt scope.now (each (name_of name.now) (expr_of items.now) (stmts_of body.now)) }
    requires room { length out.old.consts.items + stmt_nodes (each (name_of name.now) (expr_of items.now) (stmts_of body.now)) < 2 ^ 16 }
    requires short { length out.old.instrs.items + stmt_extent (each (name_of name.now) (expr_of items.now) (stmts_of body.now)) < 2 ^ 16 }
    ensures { OnOk result (AddsStmt (listing scope.now.types out.old) (listing scope.now.types out.new) scope.now (each (name_of name.now) (expr_of items.now) (stmts_of body.now))) }
{
    emit_expression(alloc, out, scope, items)?;
    let start = out.instrs.len();
    let past = start + statements_extent(body) + 2;
    put(out, Instr::Each(past as u16))?;
    emit_statements(alloc, out, &scope.within(name, items), body)?;
    put(out, Instr::Again(start as u16))
}

/// The code of an assignment: the expression's value, and its store.
fn emit_assignment(
    alloc: Global,
    out: &mut Code,
    scope: &Scope<'_>,
    name: &Name,
    e: &Expression,
) -> Result<(), OutOfMemory>
    requires known { IsKnownStmt scope.now (assign (name_of name.now) (expr_of e.now)) }
    requires room { length out.old.consts.items + nodes (expr_of e.now) + 1 < 2 ^ 16 }
    requires short { length out.old.instrs.items + extent (expr_of e.now) + 1 < 2 ^ 16 }
    ensures { OnOk result (AddsStmt (listing scope.now.types out.old) (listing scope.now.types out.new) scope.now (assign (name_of name.now) (expr_of e.now))) }
{
    emit_expression(alloc, out, scope, e)?;
    match scope.variable(name) {
        Some(i) => put(out, Instr::Store(i)),
        None => unreachable!(),
    }
}

/// The code of an expression, which leaves its value on the stack.
#[cycle(expression)]
pub fn emit_expression(
    alloc: Global,
    out: &mut Code,
    scope: &Scope<'_>,
    e: &Expression,
) -> Result<(), OutOfMemory>
    requires known { IsKnown scope.now (expr_of e.now) }
    requires room { length out.old.consts.items + nodes (expr_of e.now) < 2 ^ 16 }
    requires short { length out.old.instrs.items + extent (expr_of e.now) < 2 ^ 16 }
    ensures { OnOk result (AddsExpr (listing scope.now.types out.old) (listing scope.now.types out.new) scope.now (expr_of e.now)) }
{
    match e {
        Expression::Number(n, _) => put_constant(out, Value::Num(*n as i64)),
        Expression::Truth(b, _) => put_constant(out, Value::Truth(*b)),
        Expression::Name(name) => emit_name(alloc, out, scope, name),
        Expression::Empty(name, _) => put_constant(out, empty(alloc, scope.types(), name)),
        Expression::Parentheses(inner, _) => emit_expression(alloc, out, scope, inner),
        Expression::Prefix(op, inner, _) => {
            emit_expression(alloc, out, scope, inner)?;
            put(out, Instr::Apply(*op))
        }
        Expression::Binary(left, operator, right, _) => {
            emit_expression(alloc, out, scope, left)?;
            emit_combined(alloc, out, scope, *operator, right)
        }
        Expression::Make(name, fields) => {
            emit_expressions(alloc, out, scope, fields)?;
            put(out, Instr::Apply(Op::Make(named_type(scope.types(), name))))
        }
        Expression::Select(inner, name, _) => {
            emit_expression(alloc, out, scope, inner)?;
            let place = scope.field(inner, name);
            put(out, Instr::Apply(Op::Field(place)))
        }
    }
}

/// The code of expressions, one after another, which leaves their values on the stack.
#[cycle(expression)]
fn emit_expressions(
    alloc: Global,
    out: &mut Code,
    scope: &Scope<'_>,
    expressions: &[Expression],
) -> Result<(), OutOfMemory>
    requires known { AreAllKnown scope.now (exprs_of expressions.now) }
    requires room { length out.old.consts.items + exprs_nodes (exprs_of expressions.now) < 2 ^ 16 }
    requires short { length out.old.instrs.items + exprs_extent (exprs_of expressions.now) < 2 ^ 16 }
    ensures { OnOk result (AddsExprs (listing scope.now.types out.old) (listing scope.now.types out.new) scope.now (exprs_of expressions.now)) }
{
    for expression in expressions {
        emit_expression(alloc, out, scope, expression)?;
    }
    Ok(())
}

/// What stands after a first operand's code: the second's, and the operator, or a choice whether it is asked for.
#[cycle(expression)]
fn emit_combined(
    alloc: Global,
    out: &mut Code,
    scope: &Scope<'_>,
    operator: Infix,
    right: &Expression,
) -> Result<(), OutOfMemory>
    requires known { IsKnown scope.now (expr_of right.now) }
    requires room { length out.old.consts.items + (nodes (expr_of right.now) + 1) < 2 ^ 16 }
    requires short { length out.old.instrs.items + (extent (expr_of right.now) + infix_extent operator) < 2 ^ 16 }
    ensures { OnOk result (AddsCombined (listing scope.now.types out.old) (listing scope.now.types out.new) scope.now operator (expr_of right.now)) }
{
    match operator {
        Infix::Operator(op) => {
            emit_expression(alloc, out, scope, right)?;
            put(out, Instr::Apply(op))
        }
        Infix::And => emit_where_true(alloc, out, scope, right, false),
        Infix::Or => emit_where_false(alloc, out, scope, right),
        Infix::Implies => emit_where_true(alloc, out, scope, right, true),
    }
}

/// The code of an expression for where the value on the stack is true, and of the other value for where it is false.
#[cycle(expression)]
fn emit_where_true(
    alloc: Global,
    out: &mut Code,
    scope: &Scope<'_>,
    e: &Expression,
    other: bool,
) -> Result<(), OutOfMemory>
    requires known { IsKnown scope.now (expr_of e.now) }
    requires room { length out.old.consts.items + (nodes (expr_of e.now) + 1) < 2 ^ 16 }
    requires short { length out.old.instrs.items + (extent (expr_of e.now) + 3) < 2 ^ 16 }
    ensures { OnOk result (AddsTrueSide (listing scope.now.types out.old) (listing scope.now.types out.new) scope.now (expr_of e.now) other) }
{
    let next = out.instrs.len() + expression_extent(e) + 2;
    put(out, Instr::JumpIfFalse(next as u16))?;
    emit_expression(alloc, out, scope, e)?;
    put(out, Instr::Jump((next + 1) as u16))?;
    put_constant(out, Value::Truth(other))
}

/// The code of true for where the value on the stack is true, and of an expression for where it is false.
#[cycle(expression)]
fn emit_where_false(
    alloc: Global,
    out: &mut Code,
    scope: &Scope<'_>,
    e: &Expression,
) -> Result<(), OutOfMemory>
    requires known { IsKnown scope.now (expr_of e.now) }
    requires room { length out.old.consts.items + (nodes (expr_of e.now) + 1) < 2 ^ 16 }
    requires short { length out.old.instrs.items + (extent (expr_of e.now) + 3) < 2 ^ 16 }
    ensures { OnOk result (AddsFalseSide (listing scope.now.types out.old) (listing scope.now.types out.new) scope.now (expr_of e.now)) }
{
    let next = out.instrs.len() + 3;
    put(out, Instr::JumpIfFalse(next as u16))?;
    put_constant(out, Value::Truth(true))?;
    put(out, Instr::Jump((next + expression_extent(e)) as u16))?;
    emit_expression(alloc, out, scope, e)
}

/// The code that brings the item of a loop, the value of a variable, a formal or a parameter, or what an enumeration's name
/// stands for.
fn emit_name(
    alloc: Global,
    out: &mut Code,
    scope: &Scope<'_>,
    name: &Name,
) -> Result<(), OutOfMemory>
    requires known { IsOrigin (origin scope.now (name_of name.now)) }
    requires room { length out.old.consts.items + 1 < 2 ^ 16 }
    ensures { OnOk result (AddsExpr (listing scope.now.types out.old) (listing scope.now.types out.new) scope.now (named (name_of name.now))) }
{
    if let Some(d) = scope.item_place(name) {
        return put(out, Instr::Local(d));
    }
    if let Some(i) = scope.variable(name) {
        return put(out, Instr::Slot(i));
    }
    if let Some(value) = scope.formal(name) {
        return put_constant(out, value.try_copy(alloc)?);
    }
    match scope.parameter(name) {
        Some(i) => put(out, Instr::Arg(i)),
        None => put_constant(out, constant(scope.types(), name)),
    }
}

/// One instruction more, over any types.
pub fn put(out: &mut Code, instr: Instr) -> Result<(), OutOfMemory>
    ensures { OnOk result ((types : Table) → AddsInstr (listing types out.old) (listing types out.new) instr) }
{
    out.instrs.push(instr)?;
    Ok(())
}

/// One constant more, and the instruction that pushes it, over any types that the constant is of.
fn put_constant(out: &mut Code, value: Value) -> Result<(), OutOfMemory>
    requires { length out.old.consts.items < 2 ^ 16 }
    ensures { OnOk result ((types : Table) → HasType types (plain value) (own (plain value)) → AddsConst (listing types out.old) (listing types out.new) (plain value)) }
{
    let number = out.consts.len() as u16;
    out.consts.push(value)?;
    out.instrs.push(Instr::Const(number))?;
    Ok(())
}
