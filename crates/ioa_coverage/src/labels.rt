//! What the arms and bodies of effects are called.

ghost use Rattle.std.specs.Prelude.{◌≡◌, ◌++◌, ◌∷◌, codes, IfOk, OnOk, map};
ghost use Rattle.std.specs.Fmt.{decimal};
ghost use Rattle.std.specs.String.{string_bytes};
ghost use Rattle.ioa_tree.specs.Tree.{choose};
ghost use Rattle.ioa_tree.specs.View.{arms_of, stmt_of, stmts_of};
ghost use Rattle.ioa_coverage.specs.Taken as spec;
ghost use Rattle.ioa_coverage.specs.Taken.{dotted, effect_labels, labels_in};

use ioa_tree::{Arm, Statement};
use ioa_value::OutOfMemory;
use std::alloc::Global;
use std::fmt::Write;

/// What the arms and bodies of these statements are called, by their places.
pub(crate) fn labels_of(alloc: Global, statements: &[Statement]) -> Result<Vec<String>, OutOfMemory>
    ensures { IfOk result (λ labels. map string_bytes labels.items ≡ effect_labels (stmts_of statements.now)) }
{
    let mut labels = Vec::new(alloc);
    push_all(alloc, &mut labels, "", statements)?;
    Ok(labels)
}

/// Puts those of statements behind the labels before; the words stand before the numbers of the statements.
#[cycle(labels)]
fn push_all(
    alloc: Global,
    labels: &mut Vec<String>,
    before: &str,
    statements: &[Statement],
) -> Result<(), OutOfMemory>
    ensures { OnOk result (map string_bytes labels.new.items ≡ map string_bytes labels.old.items ++ labels_in before.now 1 (stmts_of statements.now)) }
{
    let mut number: u64 = 1;
    for statement in statements {
        let at = joined(alloc, before, number)?;
        push_statement(alloc, labels, at.as_str(), statement)?;
        number += 1;
    }
    Ok(())
}

/// Puts those of a statement of this number.
#[cycle(labels)]
fn push_statement(
    alloc: Global,
    labels: &mut Vec<String>,
    at: &str,
    statement: &Statement,
) -> Result<(), OutOfMemory>
    ensures { OnOk result (map string_bytes labels.new.items ≡ map string_bytes labels.old.items ++ spec.labels at.now (stmt_of statement.now)) }
{
    match statement {
        Statement::Assign(_, _) => Ok(()),
        Statement::If(arms, others, _) => push_choice(alloc, labels, at, arms, others),
        Statement::For(_, _, body, _) => push_named(alloc, labels, "body", at, 1, body),
    }
}

/// Puts those of arms, and of the other statements, where there are some.
#[cycle(labels)]
fn push_choice(
    alloc: Global,
    labels: &mut Vec<String>,
    at: &str,
    arms: &[Arm],
    others: &[Statement],
) -> Result<(), OutOfMemory>
    ensures { OnOk result (map string_bytes labels.new.items ≡ map string_bytes labels.old.items ++ spec.labels at.now (choose (arms_of arms.now) (stmts_of others.now))) }
{
    let mut number: u64 = 1;
    for arm in arms {
        push_named(alloc, labels, "arm", at, number, &arm.statements)?;
        number += 1;
    }
    if others.is_empty() {
        return Ok(());
    }
    push_named(alloc, labels, "else", at, number, others)
}

/// Puts that of an arm or a body, and those of its statements.
#[cycle(labels)]
fn push_named(
    alloc: Global,
    labels: &mut Vec<String>,
    what: &str,
    at: &str,
    number: u64,
    statements: &[Statement],
) -> Result<(), OutOfMemory>
    ensures { OnOk result (map string_bytes labels.new.items ≡ map string_bytes labels.old.items
        ++ (what.now ++ (codes " " ++ dotted at.now number)) ∷ labels_in (dotted at.now number ++ codes ".") 1 (stmts_of statements.now)) }
{
    let mut label = String::new(alloc);
    write!(label, "{what} {at}.{number}")?;
    labels.push(label)?;
    let mut within = String::new(alloc);
    write!(within, "{at}.{number}.")?;
    push_all(alloc, labels, within.as_str(), statements)
}

/// These words, and then this number.
fn joined(alloc: Global, before: &str, number: u64) -> Result<String, OutOfMemory>
    ensures { IfOk result (λ text. string_bytes text ≡ before.now ++ decimal number) }
{
    let mut text = String::new(alloc);
    write!(text, "{before}{number}")?;
    Ok(text)
}
