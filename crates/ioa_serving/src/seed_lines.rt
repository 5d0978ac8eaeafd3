//! The lines in which runs by many seeds are told.

ghost use Rattle.std.specs.Prelude.{◌≡◌, ◌++◌, ◌+◌, ◌<◌, ◌^◌, IfOk, OnOk, codes, length, map, flat_map, option_map};
ghost use Rattle.std.specs.List.{zip};
ghost use Rattle.std.specs.String.{string_bytes};
ghost use Rattle.ioa_system.specs.Outcomes.{ending_of};
ghost use Rattle.ioa_request.specs.Pasted.{texts};
ghost use Rattle.ioa_serving.specs.SeedRuns.{judged_of};
ghost use Rattle.ioa_inspect.specs.Breaking.{broken_of};
ghost use Rattle.ioa_serving.specs.Logs.{broken_words};
ghost use Rattle.ioa_serving.specs.Seeds as spec;
ghost use Rattle.ioa_serving.specs.Seeds.{answer_behind, answers_behind, broken_behind, counts_line, inspected_behind, refusals_behind, seed_line};

use crate::judged::JudgedRun;
use crate::seed_counts::Counts;
use crate::seed_objects::{counts_object, seed_object};
use ioa_inspect::Broken;
use ioa_request::numbered_digits;
use ioa_system::End;
use ioa_value::OutOfMemory;
use std::alloc::{AllocError, Global};
use std::fmt::Write;

/// The line of the run by the seed of this number, as a JSON object or not, with the answers of the specifications of these names, and the invariant that is
/// broken.
pub fn seed_text(
    alloc: Global,
    json: bool,
    names: &[&str],
    number: u64,
    judged: &JudgedRun,
) -> Result<String, OutOfMemory>
    requires { length judged.now.answers.items ≡ length names.now }
    ensures { IfOk result (λ text. string_bytes text ≡ seed_line json (texts names.now) number (judged_of judged.now)) }
{
    if json {
        return seed_object(alloc, names, number, judged);
    }
    seed_words(alloc, names, number, judged)
}

/// The same in words.
fn seed_words(
    alloc: Global,
    names: &[&str],
    number: u64,
    judged: &JudgedRun,
) -> Result<String, OutOfMemory>
    requires { length judged.now.answers.items ≡ length names.now }
    ensures { IfOk result (λ text. string_bytes text ≡ spec.seed_words (texts names.now) number (judged_of judged.now)) }
{
    let digits = numbered_digits(alloc, number)?;
    let end = judged.log.end.end();
    let answers = answers_text(alloc, names, &judged.answers)?;
    let inspected = inspected_text(alloc, judged.inspected)?;
    let mut text = String::new(alloc);
    writeln!(text, "{digits} end: {end}{answers}{inspected}")?;
    Ok(text)
}

/// The invariant that is broken, or that none is; nothing where none is asked for.
fn inspected_text(alloc: Global, inspected: Option<Option<Broken>>) -> Result<String, AllocError>
    ensures { IfOk result (λ text. string_bytes text ≡ inspected_behind (option_map (option_map broken_of) inspected)) }
{
    match inspected {
        None => Ok(String::new(alloc)),
        Some(None) => String::from_str(alloc, "; invariants: ok"),
        Some(Some(broken)) => broken_text(alloc, broken),
    }
}

/// The invariant that is broken.
fn broken_text(alloc: Global, broken: Broken) -> Result<String, AllocError>
    ensures { IfOk result (λ text. string_bytes text ≡ codes "; " ++ broken_words (broken_of broken)) }
{
    let Broken {
        state,
        component,
        invariant,
    } = broken;
    format!(in alloc; "; invariant {invariant} of component {component} broken after {state}")
}

/// What the specifications of these names answer.
fn answers_text(
    alloc: Global,
    names: &[&str],
    answers: &[Option<End>],
) -> Result<String, AllocError>
    requires { length answers.now ≡ length names.now }
    ensures { IfOk result (λ text. string_bytes text ≡ answers_behind (texts names.now) (map (option_map ending_of) answers.now)) }
{
    let mut text = String::new(alloc);
    for place in 0..names.len() {
        push_answer(&mut text, names[place], answers[place])?;
    }
    Ok(text)
}

/// Puts what the specification of this name answers.
fn push_answer(text: &mut String, name: &str, answer: Option<End>) -> Result<(), AllocError>
    ensures { OnOk result (string_bytes text.new ≡ string_bytes text.old ++ answer_behind (name.now, option_map ending_of answer)) }
{
    match answer {
        None => write!(text, "; {name}: ok")?,
        Some(end) => write!(text, "; {name}: {end}")?,
    }
    Ok(())
}

/// The line with the counts, as a JSON object or not, for specifications of these names, and with that of broken invariants, where these are asked for.
pub fn counts_text(
    alloc: Global,
    json: bool,
    names: &[&str],
    invariants: bool,
    counts: &Counts,
) -> Result<String, OutOfMemory>
    requires sums { counts.now.done + counts.now.fault < 2 ^ 128 }
    requires counted { length counts.now.refusals.items ≡ length names.now }
    ensures { IfOk result (λ text. string_bytes text ≡ counts_line json (texts names.now) invariants counts.now.done counts.now.fault counts.now.refusals.items counts.now.broken) }
{
    if json {
        return counts_object(alloc, names, invariants, counts);
    }
    counts_words(alloc, names, invariants, counts)
}

/// The same in words.
fn counts_words(
    alloc: Global,
    names: &[&str],
    invariants: bool,
    counts: &Counts,
) -> Result<String, OutOfMemory>
    requires sums { counts.now.done + counts.now.fault < 2 ^ 128 }
    requires counted { length counts.now.refusals.items ≡ length names.now }
    ensures { IfOk result (λ text. string_bytes text ≡ spec.counts_words (texts names.now) invariants counts.now.done counts.now.fault counts.now.refusals.items counts.now.broken) }
{
    let refusals = refusals_text(alloc, names, &counts.refusals)?;
    let broken = broken_count_text(alloc, invariants, counts.broken)?;
    let seeds = counts.done + counts.fault;
    let done = counts.done;
    let fault = counts.fault;
    let mut text = String::new(alloc);
    writeln!(
        text,
        "seeds {seeds}; done {done}; fault {fault}{refusals}{broken}"
    )?;
    Ok(text)
}

/// How many runs break an invariant, where these are asked for.
fn broken_count_text(alloc: Global, asked: bool, count: u128) -> Result<String, AllocError>
    ensures { IfOk result (λ text. string_bytes text ≡ broken_behind asked count) }
{
    if asked {
        format!(in alloc; "; invariants: broken {count}")
    } else {
        Ok(String::new(alloc))
    }
}

/// How many runs the specifications of these names do not accept.
fn refusals_text(alloc: Global, names: &[&str], counts: &[u128]) -> Result<String, AllocError>
    requires { length counts.now ≡ length names.now }
    ensures { IfOk result (λ text. string_bytes text ≡ flat_map refusals_behind (zip (texts names.now) counts.now)) }
{
    let mut text = String::new(alloc);
    for place in 0..names.len() {
        push_refusals(&mut text, names[place], counts[place])?;
    }
    Ok(text)
}

/// Puts how many runs the specification of this name does not accept.
fn push_refusals(text: &mut String, name: &str, count: u128) -> Result<(), AllocError>
    ensures { OnOk result (string_bytes text.new ≡ string_bytes text.old ++ refusals_behind (name.now, count)) }
{
    write!(text, "; {name}: not accepted {count}")?;
    Ok(())
}
