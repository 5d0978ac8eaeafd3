//! What is likely a mistake in a source, also where it is accepted.

ghost use Rattle.std.specs.Prelude.{◌≡◌, [], IfOk, OnOk};
ghost use Rattle.std.specs.String.{string_bytes};
ghost use Rattle.ioac.specs.Remarks.{IsChecking};

use ioa_request::Request;
use ioa_serving::{Store, StoreErr, is_object};
use ioa_syntax::{Refusal, parse};
use ioa_tree::Declaration;
use ioa_value::OutOfMemory;
use ioa_warnings::{
    DeadTransition, FreeParameter, comments_in_statements, dead_transitions, free_parameters,
};
use std::alloc::Global;
use std::fmt::Write;

/// Puts the warnings of a source that was to be checked behind the text.
pub fn put<F: Store>(
    alloc: Global,
    text: &mut String,
    asked: &Request<'_>,
    store: &F,
) -> Result<(), OutOfMemory>
    ensures { (IsChecking asked.now → ⊥) → OnOk result (string_bytes text.new ≡ string_bytes text.old) }
{
    let found = warnings(alloc, asked, store)?;
    text.push_str(found.as_str())?;
    Ok(())
}

/// The warnings of a source that was to be checked. None, where it cannot be read now.
pub fn warnings<F: Store>(
    alloc: Global,
    asked: &Request<'_>,
    store: &F,
) -> Result<String, OutOfMemory>
    ensures { (IsChecking asked.now → ⊥) → IfOk result (λ found. string_bytes found ≡ []) }
{
    let mut text = String::new(alloc);
    let Request::Check { file, .. } = asked else {
        return Ok(text);
    };
    let source = match store.load(alloc, file) {
        Ok(source) => source,
        Err(StoreErr::Io) => return Ok(text),
        Err(StoreErr::OutOfMemory) => return Err(OutOfMemory),
    };
    if is_object(source.as_slice()) {
        return Ok(text);
    }
    put_of_source(alloc, &mut text, file, source.as_slice())?;
    Ok(text)
}

/// Puts those of a source. Of what is no source there are none but those of its lines.
fn put_of_source(
    alloc: Global,
    text: &mut String,
    file: &str,
    source: &[u8],
) -> Result<(), OutOfMemory> {
    put_comments(alloc, text, file, source)?;
    match parse(alloc, source) {
        Ok(parsed) => put_of_declarations(alloc, text, file, parsed.declarations()),
        Err(Refusal::OutOfMemory) => Err(OutOfMemory),
        Err(_) => Ok(()),
    }
}

/// Puts that nothing is declared, or the parameters that are free, and the transitions that are never performed.
fn put_of_declarations(
    alloc: Global,
    text: &mut String,
    file: &str,
    declarations: &[Declaration],
) -> Result<(), OutOfMemory> {
    if declarations.is_empty() {
        writeln!(text, "warning: {file}: nothing is declared")?;
    }
    let free = free_parameters(alloc, declarations)?;
    put_free(text, file, &free)?;
    let dead = dead_transitions(alloc, declarations)?;
    put_dead(text, file, &dead)
}

fn put_comments(
    alloc: Global,
    text: &mut String,
    file: &str,
    source: &[u8],
) -> Result<(), OutOfMemory> {
    let lines = comments_in_statements(alloc, source)?;
    for line in lines {
        writeln!(
            text,
            "warning: {file}, line {line}: a comment begins within a statement; a remainder is written `mod`"
        )?;
    }
    Ok(())
}

fn put_free(text: &mut String, file: &str, found: &[FreeParameter<'_>]) -> Result<(), OutOfMemory> {
    for free in found {
        let FreeParameter {
            parameter,
            action,
            line,
        } = free;
        writeln!(
            text,
            "warning: {file}, line {line}: no precondition names {parameter}, so {action} is enabled with any value of it"
        )?;
    }
    Ok(())
}

fn put_dead(
    text: &mut String,
    file: &str,
    found: &[DeadTransition<'_>],
) -> Result<(), OutOfMemory> {
    for dead in found {
        let DeadTransition {
            action,
            line,
            parameter,
        } = dead;
        match parameter {
            Some(parameter) => writeln!(
                text,
                "warning: {file}, line {line}: `any` has no number to give to {parameter}, so {action} is never proposed"
            )?,
            None => writeln!(
                text,
                "warning: {file}, line {line}: the precondition of {action} is true in no state, so it is never performed"
            )?,
        }
    }
    Ok(())
}
