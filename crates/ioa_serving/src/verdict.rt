//! What a monitor answers that is asked strictly.

ghost use Rattle.std.specs.Prelude.{◌≡◌, false, IfOk, List, None, option_map};
ghost use Rattle.std.specs.String.{string_bytes};
ghost use Rattle.ioa_value.specs.Actions.{Act};
ghost use Rattle.ioa_compile.specs.Programs.{Prog};
ghost use Rattle.ioa_system.specs.Outcomes.{ending_of};
ghost use Rattle.ioa_watch.specs.Names.{names_of};
ghost use Rattle.ioa_watch.specs.Watchers.{HasHeard, refused_by};
ghost use Rattle.ioa_serving.specs.Json.{verdict_line};
ghost use Rattle.ioa_serving.specs.Strict.{StrictAnswer, answer_on, has_named, strict_json, strict_line, strict_of, strict_status, table_verdict};
ghost use Rattle.ioa_serving.specs.Strict as spec;

use crate::json::{answer_object, verdict_object};
use crate::status::Status;
use ioa_system::End;
use ioa_value::OutOfMemory;
use ioa_watch::Watcher;
use std::alloc::Global;
use std::fmt::Write;

/// Whether a specification accepts actions, of which it is to take one, and to pass over none that has a name of its own.
#[derive(Clone, Copy, Debug, PartialEq, Eq)]
pub enum Verdict {
    /// It accepts them, and took one.
    Accepted,
    /// It refuses one, as a monitor does: with its index, from 0.
    Refused(End),
    /// The action of this index, from 0, has a name of its own, and none of its components has the action.
    PassedOver(usize),
    /// None of them has a name of its own.
    NothingTaken,
}

/// What a specification answers that has heard actions.
pub fn verdict_of(watcher: &Watcher<'_>) -> Verdict
    ensures { (p : Prog) (acts : List Act) → HasHeard p acts watcher.now → strict_of result ≡ table_verdict p acts }
{
    verdict_on(took_some(watcher), watcher.refusal())
}

/// Whether a specification that refused nothing took something: not all that it heard is of other names.
fn took_some(watcher: &Watcher<'_>) -> bool
    ensures { (p : Prog) (acts : List Act) → HasHeard p acts watcher.now → refused_by p acts ≡ None → result ≡ has_named (names_of p.members) acts }
{
    let others = watcher.others();
    let heard = watcher.heard() as u64;
    !(others == heard)
}

/// By whether it took an action, and by why it refuses one, if it does.
fn verdict_on(taken: bool, refusal: Option<End>) -> Verdict
    ensures { strict_of result ≡ answer_on taken (option_map ending_of refusal) }
{
    match refusal {
        None => untaken_unless(taken),
        Some(End::NotAnAction(index)) => Verdict::PassedOver(index),
        Some(End::Done(count)) => Verdict::Refused(End::Done(count)),
        Some(End::NotEnabled(index)) => Verdict::Refused(End::NotEnabled(index)),
        Some(End::Fault(component, fault, index)) => {
            Verdict::Refused(End::Fault(component, fault, index))
        }
    }
}

/// Where none is refused.
fn untaken_unless(taken: bool) -> Verdict
    ensures { strict_of result ≡ spec.untaken_unless taken }
{
    if taken {
        Verdict::Accepted
    } else {
        Verdict::NothingTaken
    }
}

/// A line with the answer, as a JSON object or not.
pub fn verdict_text(alloc: Global, json: bool, verdict: Verdict) -> Result<String, OutOfMemory>
    ensures { IfOk result (λ text. string_bytes text ≡ strict_line json (strict_of verdict)) }
{
    if json {
        return strict_object(alloc, verdict);
    }
    strict_words(alloc, verdict)
}

/// A line with the answer in words.
fn strict_words(alloc: Global, verdict: Verdict) -> Result<String, OutOfMemory>
    ensures { IfOk result (λ text. string_bytes text ≡ strict_line false (strict_of verdict)) }
{
    let mut text = String::new(alloc);
    match verdict {
        Verdict::Accepted => writeln!(text, "monitor: ok")?,
        Verdict::Refused(end) => writeln!(text, "monitor: {end}")?,
        Verdict::PassedOver(index) => writeln!(text, "monitor: passed over at {index}")?,
        Verdict::NothingTaken => writeln!(text, "monitor: nothing taken")?,
    }
    Ok(text)
}

/// A line with the answer as an object.
fn strict_object(alloc: Global, verdict: Verdict) -> Result<String, OutOfMemory>
    ensures { IfOk result (λ text. string_bytes text ≡ verdict_line (strict_json (strict_of verdict))) }
{
    match verdict {
        Verdict::Accepted => answer_object(alloc, None),
        Verdict::Refused(end) => answer_object(alloc, Some(end)),
        Verdict::PassedOver(index) => passed_object(alloc, index),
        Verdict::NothingTaken => verdict_object(alloc, "\"nothing taken\""),
    }
}

/// That the action of this index is passed over, as an object.
fn passed_object(alloc: Global, index: usize) -> Result<String, OutOfMemory>
    ensures { IfOk result (λ text. string_bytes text ≡ verdict_line (strict_json (StrictAnswer.passed_over index))) }
{
    let mut text = String::new(alloc);
    writeln!(text, "{{\"verdict\":\"passed over\",\"index\":{index}}}")?;
    Ok(text)
}

/// The exit status of a monitor that answers so.
pub fn status_of_verdict(verdict: Verdict) -> Status
    ensures { result ≡ strict_status (strict_of verdict) }
{
    match verdict {
        Verdict::Accepted => Status::Done,
        Verdict::Refused(_) | Verdict::PassedOver(_) | Verdict::NothingTaken => {
            Status::NotAccepted
        }
    }
}
