//! Effects that are followed over their trees, and the arms and bodies that they take.

ghost use Rattle.std.specs.Prelude.{◌≡◌, ◌≤◌, ◌<◌, ◌+◌, ◌^◌, ◌∷◌, None, IfOk, OnOk, length};
ghost use Rattle.ioa_value.specs.Plain.{plain, plain_all};
ghost use Rattle.ioa_value.specs.Table.{AreTypes};
ghost use Rattle.ioa_tree.specs.Invariants as invariants;
ghost use Rattle.ioa_tree.specs.Meaning.{does, eff, with_name};
ghost use Rattle.ioa_tree.specs.Tree.{assign as assignment, choose, each};
ghost use Rattle.ioa_tree.specs.View.{arm_of, arms_of, expr_of, name_of, stmt_of, stmts_of};
ghost use Rattle.ioa_value.specs.Operators.{gives};
ghost use Rattle.ioa_coverage.specs.Following.{KeepsNames, MayFollow, MayFollowAll, items_in, left, one_more, turned, with_marks};
ghost use Rattle.ioa_coverage.specs.Known.{known};
ghost use Rattle.ioa_coverage.specs.Taken as taken;
ghost use Rattle.ioa_coverage.specs.Taken.{marks, marks_in};

use crate::scope::{Binding, assign, bind, unbind};
use crate::values::evaluate;
use ioa_tree::{Arm, Expression, Name, Statement};
use ioa_value::{Fault, OutOfMemory, Types, Value};
use std::alloc::Global;

/// Follows well typed statements from what names stand for before them to what they leave, or to their fault, and counts each arm and body that
/// they take, by its place. The first of these has this place.
#[cycle(effects)]
pub(crate) fn follow_all<'a>(
    alloc: Global,
    types: &Types,
    statements: &'a [Statement],
    first: usize,
    scope: &mut Vec<Binding<'a>>,
    counts: &mut [u64],
) -> Result<Result<(), Fault>, OutOfMemory>
    requires types { AreTypes types.now }
    requires typed { MayFollowAll types.now (known scope.old.items) (stmts_of statements.now) }
    requires room { first + taken.places_in (stmts_of statements.now) ≤ length counts.old }
    ensures left { IfOk result (λ r. left r (known scope.new.items) ≡ eff types.now (stmts_of statements.now) (known scope.old.items)) }
    ensures marked { OnOk result (counts.new ≡ with_marks counts.old (marks_in types.now first (stmts_of statements.now) (known scope.old.items))) }
    ensures names { IfOk result (λ r. OnOk r (KeepsNames scope.old.items scope.new.items)) }
{
    let mut place = first;
    for statement in statements {
        if let Err(fault) = follow(alloc, types, statement, place, scope, counts)? {
            return Ok(Err(fault));
        }
        place += places(statement);
    }
    Ok(Ok(()))
}

/// Follows a statement.
#[cycle(effects)]
fn follow<'a>(
    alloc: Global,
    types: &Types,
    statement: &'a Statement,
    first: usize,
    scope: &mut Vec<Binding<'a>>,
    counts: &mut [u64],
) -> Result<Result<(), Fault>, OutOfMemory>
    requires types { AreTypes types.now }
    requires typed { MayFollow types.now (known scope.old.items) (stmt_of statement.now) }
    requires room { first + taken.places (stmt_of statement.now) ≤ length counts.old }
    ensures left { IfOk result (λ r. left r (known scope.new.items) ≡ does types.now (stmt_of statement.now) (known scope.old.items)) }
    ensures marked { OnOk result (counts.new ≡ with_marks counts.old (marks types.now first (stmt_of statement.now) (known scope.old.items))) }
    ensures names { IfOk result (λ r. OnOk r (KeepsNames scope.old.items scope.new.items)) }
{
    match statement {
        Statement::Assign(name, expression) => follow_assignment(
            alloc, types, name, expression, scope,
        ),
        Statement::If(arms, others, _) => {
            follow_choice(alloc, types, arms, others, first, scope, counts)
        }
        Statement::For(name, items, body, _) => {
            follow_loop(alloc, types, name, items, body, first, scope, counts)
        }
    }
}

/// Follows an assignment.
fn follow_assignment(
    alloc: Global,
    types: &Types,
    name: &Name,
    expression: &Expression,
    scope: &mut Vec<Binding<'_>>,
) -> Result<Result<(), Fault>, OutOfMemory>
    requires types { AreTypes types.now }
    requires typed { MayFollow types.now (known scope.old.items) (assignment (name_of name.now) (expr_of expression.now)) }
    ensures left { IfOk result (λ r. left r (known scope.new.items) ≡ does types.now (assignment (name_of name.now) (expr_of expression.now)) (known scope.old.items)) }
    ensures names { IfOk result (λ r. OnOk r (KeepsNames scope.old.items scope.new.items)) }
{
    match evaluate(alloc, types, scope, expression)? {
        Ok(value) => {
            assign(scope, name.text.as_str(), value);
            Ok(Ok(()))
        }
        Err(fault) => Ok(Err(fault)),
    }
}

/// Follows a choice: the first arm whose condition is true, and otherwise the other statements, where there are some.
#[cycle(effects)]
fn follow_choice<'a>(
    alloc: Global,
    types: &Types,
    arms: &'a [Arm],
    others: &'a [Statement],
    first: usize,
    scope: &mut Vec<Binding<'a>>,
    counts: &mut [u64],
) -> Result<Result<(), Fault>, OutOfMemory>
    requires types { AreTypes types.now }
    requires typed { MayFollow types.now (known scope.old.items) (choose (arms_of arms.now) (stmts_of others.now)) }
    requires room { first + taken.places (choose (arms_of arms.now) (stmts_of others.now)) ≤ length counts.old }
    ensures left { IfOk result (λ r. left r (known scope.new.items) ≡ does types.now (choose (arms_of arms.now) (stmts_of others.now)) (known scope.old.items)) }
    ensures marked { OnOk result (counts.new ≡ with_marks counts.old (marks types.now first (choose (arms_of arms.now) (stmts_of others.now)) (known scope.old.items))) }
    ensures names { IfOk result (λ r. OnOk r (KeepsNames scope.old.items scope.new.items)) }
{
    let mut place = first;
    for arm in arms {
        match evaluate(alloc, types, scope, &arm.condition)? {
            Ok(value) => {
                if is_true(&value) {
                    return follow_counted(alloc, types, &arm.statements, place, scope, counts);
                }
            }
            Err(fault) => return Ok(Err(fault)),
        }
        place += arm_places(arm);
    }
    if others.is_empty() {
        return Ok(Ok(()));
    }
    follow_counted(alloc, types, others, place, scope, counts)
}

/// Follows the statements of an arm or the body of a loop, which has this place, and counts it.
#[cycle(effects)]
fn follow_counted<'a>(
    alloc: Global,
    types: &Types,
    statements: &'a [Statement],
    place: usize,
    scope: &mut Vec<Binding<'a>>,
    counts: &mut [u64],
) -> Result<Result<(), Fault>, OutOfMemory>
    requires types { AreTypes types.now }
    requires typed { MayFollowAll types.now (known scope.old.items) (stmts_of statements.now) }
    requires room { place + (1 + taken.places_in (stmts_of statements.now)) ≤ length counts.old }
    ensures left { IfOk result (λ r. left r (known scope.new.items) ≡ eff types.now (stmts_of statements.now) (known scope.old.items)) }
    ensures marked { OnOk result (counts.new ≡ with_marks counts.old (place ∷ marks_in types.now (place + 1) (stmts_of statements.now) (known scope.old.items))) }
    ensures names { IfOk result (λ r. OnOk r (KeepsNames scope.old.items scope.new.items)) }
{
    count(counts, place)?;
    follow_all(alloc, types, statements, place + 1, scope, counts)
}

/// Follows a loop: its body once for each item of its sequence, as that is before the first turn.
#[cycle(effects)]
fn follow_loop<'a>(
    alloc: Global,
    types: &Types,
    name: &'a Name,
    items: &Expression,
    body: &'a [Statement],
    first: usize,
    scope: &mut Vec<Binding<'a>>,
    counts: &mut [u64],
) -> Result<Result<(), Fault>, OutOfMemory>
    requires types { AreTypes types.now }
    requires typed { MayFollow types.now (known scope.old.items) (each (name_of name.now) (expr_of items.now) (stmts_of body.now)) }
    requires room { first + taken.places (each (name_of name.now) (expr_of items.now) (stmts_of body.now)) ≤ length counts.old }
    ensures left { IfOk result (λ r. left r (known scope.new.items) ≡ does types.now (each (name_of name.now) (expr_of items.now) (stmts_of body.now)) (known scope.old.items)) }
    ensures marked { OnOk result (counts.new ≡ with_marks counts.old (marks types.now first (each (name_of name.now) (expr_of items.now) (stmts_of body.now)) (known scope.old.items))) }
    ensures names { IfOk result (λ r. OnOk r (KeepsNames scope.old.items scope.new.items)) }
{
    let given = match evaluate(alloc, types, scope, items)? {
        Ok(value) => value,
        Err(fault) => return Ok(Err(fault)),
    };
    for item in items_of(&given) {
        if let Err(fault) = follow_turn(alloc, types, name, item, body, first, scope, counts)? {
            return Ok(Err(fault));
        }
    }
    Ok(Ok(()))
}

/// Follows a turn of a loop: its body, where the name stands for this item. Behind it the name stands for nothing, as before.
#[cycle(effects)]
fn follow_turn<'a>(
    alloc: Global,
    types: &Types,
    name: &'a Name,
    item: &Value,
    body: &'a [Statement],
    first: usize,
    scope: &mut Vec<Binding<'a>>,
    counts: &mut [u64],
) -> Result<Result<(), Fault>, OutOfMemory>
    requires types { AreTypes types.now }
    requires typed { MayFollowAll types.now (with_name (known scope.old.items) (name_of name.now) (plain item.now)) (stmts_of body.now) }
    requires new { known scope.old.items (name_of name.now) ≡ None }
    requires room { first + (1 + taken.places_in (stmts_of body.now)) ≤ length counts.old }
    ensures left { IfOk result (λ r. left r (known scope.new.items) ≡ turned (eff types.now (stmts_of body.now)) (name_of name.now) (plain item.now) (known scope.old.items)) }
    ensures marked { OnOk result (counts.new ≡ with_marks counts.old (first ∷ marks_in types.now (first + 1) (stmts_of body.now) (with_name (known scope.old.items) (name_of name.now) (plain item.now)))) }
    ensures names { IfOk result (λ r. OnOk r (KeepsNames scope.old.items scope.new.items)) }
{
    let copy = item.try_copy(alloc)?;
    bind(scope, name, copy)?;
    if let Err(fault) = follow_counted(alloc, types, body, first, scope, counts)? {
        return Ok(Err(fault));
    }
    unbind(scope);
    Ok(Ok(()))
}

/// One more for this place. A count that has no room for it, which no run lives to see, wants memory.
fn count(counts: &mut [u64], place: usize) -> Result<(), OutOfMemory>
    requires { place < length counts.old }
    ensures { OnOk result (counts.new ≡ one_more counts.old place) }
{
    match counts[place].checked_add(1) {
        Some(more) => {
            counts[place] = more;
            Ok(())
        }
        None => Err(OutOfMemory),
    }
}

/// The items of a sequence.
fn items_of(value: &Value) -> &[Value]
    ensures { items_in (plain value.now) ≡ plain_all result.now }
{
    match value {
        Value::Items(_, items) => items,
        Value::Truth(_) | Value::Num(_) | Value::Name(_, _) | Value::Tuple(_, _) => &[],
    }
}

/// Whether it is the truth value true.
fn is_true(value: &Value) -> bool
    ensures { result ≡ invariants.is_true (gives (plain value.now)) }
{
    match value {
        Value::Truth(b) => *b,
        Value::Num(_) | Value::Name(_, _) | Value::Tuple(_, _) | Value::Items(_, _) => false,
    }
}

/// How many arms and bodies stand in an arm, with itself.
#[cycle(places)]
fn arm_places(arm: &Arm) -> usize
    requires { 1 + taken.places_in (arm_of arm.now).1 < 2 ^ 64 }
    ensures { result ≡ 1 + taken.places_in (arm_of arm.now).1 }
{
    1 + places_in(&arm.statements)
}

/// How many arms and bodies statements have.
#[cycle(places)]
pub(crate) fn places_in(statements: &[Statement]) -> usize
    requires { taken.places_in (stmts_of statements.now) < 2 ^ 64 }
    ensures { result ≡ taken.places_in (stmts_of statements.now) }
{
    let mut total = 0;
    for statement in statements {
        total += places(statement);
    }
    total
}

#[cycle(places)]
fn places(statement: &Statement) -> usize
    requires { taken.places (stmt_of statement.now) < 2 ^ 64 }
    ensures { result ≡ taken.places (stmt_of statement.now) }
{
    match statement {
        Statement::Assign(_, _) => 0,
        Statement::If(arms, others, _) => {
            let own = places_of(arms);
            if others.is_empty() {
                own
            } else {
                own + (1 + places_in(others))
            }
        }
        Statement::For(_, _, body, _) => 1 + places_in(body),
    }
}

/// How many arms have, and they themselves.
#[cycle(places)]
fn places_of(arms: &[Arm]) -> usize
    requires { taken.places_of (arms_of arms.now) < 2 ^ 64 }
    ensures { result ≡ taken.places_of (arms_of arms.now) }
{
    let mut total = 0;
    for arm in arms {
        total += arm_places(arm);
    }
    total
}
