//! Answers as JSON objects, an object a line. No text in them has anything that JSON would escape.

ghost use Rattle.std.specs.Prelude.{◌≡◌, IfOk, option_map};
ghost use Rattle.std.specs.String.{string_bytes};
ghost use Rattle.ioa_system.specs.Outcomes.{ending_of};
ghost use Rattle.ioa_inspect.specs.Breaking.{broken_of};
ghost use Rattle.ioa_serving.specs.Json.{answer_json, broken_json, verdict_line};

use ioa_inspect::Broken;
use ioa_system::End;
use ioa_value::OutOfMemory;
use ioa_watch::ending_members;
use std::alloc::{AllocError, Global};
use std::fmt::Write;

/// A line with the answer of a monitor as an object.
pub fn answer_object(alloc: Global, answer: Option<End>) -> Result<String, OutOfMemory>
    ensures { IfOk result (λ text. string_bytes text ≡ verdict_line (answer_json (option_map ending_of answer))) }
{
    match answer {
        None => verdict_object(alloc, "\"ok\""),
        Some(end) => {
            let verdict = ending_members(alloc, end)?;
            verdict_object(alloc, verdict.as_str())
        }
    }
}

/// What accepts all, or why it does not, as members behind the name of a verdict.
pub fn answer_members(alloc: Global, answer: Option<End>) -> Result<String, OutOfMemory>
    ensures { IfOk result (λ text. string_bytes text ≡ answer_json (option_map ending_of answer)) }
{
    match answer {
        None => {
            let text = String::from_str(alloc, "\"ok\"")?;
            Ok(text)
        }
        Some(end) => ending_members(alloc, end),
    }
}

/// That an invariant is broken, as members behind the name of a verdict: with its number, its component, and how many actions are performed before the state that
/// breaks it.
pub fn broken_members(alloc: Global, broken: Broken) -> Result<String, AllocError>
    ensures { IfOk result (λ text. string_bytes text ≡ broken_json (broken_of broken)) }
{
    let Broken {
        state,
        component,
        invariant,
    } = broken;
    format!(in alloc;
        "\"broken\",\"invariant\":{invariant},\"component\":{component},\"count\":{state}"
    )
}

/// A line with a verdict as an object: what stands behind its name.
pub fn verdict_object(alloc: Global, verdict: &str) -> Result<String, OutOfMemory>
    ensures { IfOk result (λ text. string_bytes text ≡ verdict_line verdict.now) }
{
    let mut text = String::new(alloc);
    writeln!(text, "{{\"verdict\":{verdict}}}")?;
    Ok(text)
}
