//! The lines in which runs by many seeds are told as JSON objects. No text in them has anything that JSON would escape.

ghost use Rattle.std.specs.Prelude.{◌≡◌, ◌++◌, ◌+◌, ◌<◌, ◌^◌, IfOk, OnOk, Some, codes, length, map, option_map};
ghost use Rattle.std.specs.List.{join_by, zip};
ghost use Rattle.std.specs.String.{string_bytes};
ghost use Rattle.ioa_system.specs.Outcomes.{ending_of};
ghost use Rattle.ioa_request.specs.Pasted.{texts};
ghost use Rattle.ioa_inspect.specs.Breaking.{broken_of};
ghost use Rattle.ioa_serving.specs.SeedRuns.{judged_of};
ghost use Rattle.ioa_serving.specs.Rows as rows;
ghost use Rattle.ioa_serving.specs.Seeds as spec;
ghost use Rattle.ioa_serving.specs.Seeds.{broken_count, inspected_json, refusals_object, verdict_object};

use crate::json::{answer_members, broken_members};
use crate::judged::JudgedRun;
use crate::seed_counts::Counts;
use ioa_inspect::Broken;
use ioa_request::numbered_digits;
use ioa_system::End;
use ioa_value::OutOfMemory;
use ioa_watch::ending_members;
use std::alloc::{AllocError, Global};
use std::fmt::Write;

/// The object of the run by the seed of this number, with the answers of the specifications of these names, and the invariant that is broken.
pub fn seed_object(
    alloc: Global,
    names: &[&str],
    number: u64,
    judged: &JudgedRun,
) -> Result<String, OutOfMemory>
    requires { length judged.now.answers.items ≡ length names.now }
    ensures { IfOk result (λ text. string_bytes text ≡ spec.seed_object (texts names.now) number (judged_of judged.now)) }
{
    let digits = numbered_digits(alloc, number)?;
    let end = ending_members(alloc, judged.log.end.end())?;
    let verdicts = verdicts_text(alloc, names, &judged.answers)?;
    let inspected = inspected_text(alloc, judged.inspected)?;
    let mut text = String::new(alloc);
    writeln!(
        text,
        "{{\"seed\":\"{digits}\",\"end\":{end},\"verdicts\":[{verdicts}]{inspected}}}"
    )?;
    Ok(text)
}

/// What the specifications of these names answer, in a row.
fn verdicts_text(
    alloc: Global,
    names: &[&str],
    answers: &[Option<End>],
) -> Result<String, OutOfMemory>
    requires { length answers.now ≡ length names.now }
    ensures { IfOk result (λ text. string_bytes text ≡ join_by verdict_object (codes ",") (zip (texts names.now) (map (option_map ending_of) answers.now))) }
{
    let mut text = String::new(alloc);
    for place in 0..names.len() {
        push_verdict(alloc, &mut text, place, names[place], answers[place])?;
    }
    Ok(text)
}

/// Puts what the specification of this name answers, in this place of the row.
fn push_verdict(
    alloc: Global,
    text: &mut String,
    place: usize,
    name: &str,
    answer: Option<End>,
) -> Result<(), OutOfMemory>
    ensures { OnOk result (string_bytes text.new ≡ string_bytes text.old ++ (rows.comma_at place ++ verdict_object (name.now, option_map ending_of answer))) }
{
    let comma = comma_at(place);
    let verdict = answer_members(alloc, answer)?;
    write!(
        text,
        "{comma}{{\"specification\":\"{name}\",\"verdict\":{verdict}}}"
    )?;
    Ok(())
}

/// What parts an object in this place of a row from those before it.
fn comma_at(place: usize) -> &'static str
    ensures { result.now ≡ rows.comma_at place }
{
    if place == 0 { "" } else { "," }
}

/// The invariant that is broken, or that none is; nothing where none is asked for.
fn inspected_text(alloc: Global, inspected: Option<Option<Broken>>) -> Result<String, AllocError>
    ensures { IfOk result (λ text. string_bytes text ≡ inspected_json (option_map (option_map broken_of) inspected)) }
{
    match inspected {
        None => Ok(String::new(alloc)),
        Some(None) => String::from_str(alloc, ",\"invariants\":{\"verdict\":\"ok\"}"),
        Some(Some(broken)) => broken_text(alloc, broken),
    }
}

/// The invariant that is broken.
fn broken_text(alloc: Global, broken: Broken) -> Result<String, AllocError>
    ensures { IfOk result (λ text. string_bytes text ≡ inspected_json (Some (Some (broken_of broken)))) }
{
    let members = broken_members(alloc, broken)?;
    format!(in alloc; ",\"invariants\":{{\"verdict\":{members}}}")
}

/// The object with the counts, for specifications of these names, and with that of broken invariants, where these are asked for.
pub fn counts_object(
    alloc: Global,
    names: &[&str],
    invariants: bool,
    counts: &Counts,
) -> Result<String, OutOfMemory>
    requires sums { counts.now.done + counts.now.fault < 2 ^ 128 }
    requires counted { length counts.now.refusals.items ≡ length names.now }
    ensures { IfOk result (λ text. string_bytes text ≡ spec.counts_object (texts names.now) invariants counts.now.done counts.now.fault counts.now.refusals.items counts.now.broken) }
{
    let refusals = refusals_text(alloc, names, &counts.refusals)?;
    let broken = broken_count_text(alloc, invariants, counts.broken)?;
    let seeds = counts.done + counts.fault;
    let done = counts.done;
    let fault = counts.fault;
    let mut text = String::new(alloc);
    writeln!(
        text,
        "{{\"seeds\":{seeds},\"done\":{done},\"fault\":{fault},\"verdicts\":[{refusals}]{broken}}}"
    )?;
    Ok(text)
}

/// How many runs break an invariant, where these are asked for.
fn broken_count_text(alloc: Global, asked: bool, count: u128) -> Result<String, AllocError>
    ensures { IfOk result (λ text. string_bytes text ≡ broken_count asked count) }
{
    if asked {
        format!(in alloc; ",\"invariants\":{{\"broken\":{count}}}")
    } else {
        Ok(String::new(alloc))
    }
}

/// How many runs the specifications of these names do not accept, in a row.
fn refusals_text(alloc: Global, names: &[&str], counts: &[u128]) -> Result<String, AllocError>
    requires { length counts.now ≡ length names.now }
    ensures { IfOk result (λ text. string_bytes text ≡ join_by refusals_object (codes ",") (zip (texts names.now) counts.now)) }
{
    let mut text = String::new(alloc);
    for place in 0..names.len() {
        push_refusals(&mut text, place, names[place], counts[place])?;
    }
    Ok(text)
}

/// Puts how many runs the specification of this name does not accept, in this place of the row.
fn push_refusals(text: &mut String, place: usize, name: &str, count: u128) -> Result<(), AllocError>
    ensures { OnOk result (string_bytes text.new ≡ string_bytes text.old ++ (rows.comma_at place ++ refusals_object (name.now, count))) }
{
    let comma = comma_at(place);
    write!(
        text,
        "{comma}{{\"specification\":\"{name}\",\"not accepted\":{count}}}"
    )?;
    Ok(())
}
