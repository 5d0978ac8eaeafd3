//! What specifications tell of a stream, line by line.

ghost use Rattle.std.specs.Prelude.{◌≡◌, ◌<◌, ◌++◌, ◌∷◌, ◌-◌, ◌^◌, [], List, None, true, IfOk, OnOk, length, option_map, string_bytes};
ghost use Rattle.std.specs.List.{flat_map};
ghost use Rattle.ioa_value.specs.Actions.{Act, act_of};
ghost use Rattle.ioa_compile.specs.Programs.{Prog};
ghost use Rattle.ioa_system.specs.Outcomes.{ending_of};
ghost use Rattle.ioa_system.specs.Endings.{ending_text};
ghost use Rattle.ioa_watch.specs.Json.{ending_json};
ghost use Rattle.ioa_watch.specs.Streaming.{HaveHeard};
ghost use Rattle.ioa_watch.specs.Streams as spec;
ghost use Rattle.ioa_watch.specs.Streams.{accepted_line, refusal_line, told_at, verdict_line};
ghost use Rattle.ioa_watch.specs.Watchers.{HasHeard};

use crate::endings::ending_members;
use crate::watcher::Watcher;
use ioa_system::End;
use ioa_value::{Action, OutOfMemory};
use std::alloc::Global;

/// Hands the action to each watcher: answers what they tell of it.
pub(crate) fn hear_all(
    alloc: Global,
    json: bool,
    watchers: &mut [Watcher<'_>],
    action: &Action,
) -> Result<String, OutOfMemory>
    requires { (ps : List Prog) × (acts : List Act) × HaveHeard ps acts watchers.old × (length acts < 2 ^ 64 - 1) }
    ensures { IfOk result (λ news. (ps : List Prog) (acts : List Act) → HaveHeard ps acts watchers.old
        → HaveHeard ps (acts ++ act_of action.now ∷ []) watchers.new × (string_bytes news ≡ flat_map (told_at json acts (act_of action.now)) ps)) }
{
    let mut text = String::new(alloc);
    for i in 0..watchers.len() {
        hear_one(alloc, json, &mut text, &mut watchers[i], action)?;
    }
    Ok(text)
}

/// Hands the action to a watcher, and puts the line that it tells of it, if it tells one.
fn hear_one(
    alloc: Global,
    json: bool,
    text: &mut String,
    watcher: &mut Watcher<'_>,
    action: &Action,
) -> Result<(), OutOfMemory>
    requires { (p : Prog) × (acts : List Act) × HasHeard p acts watcher.old × (length acts < 2 ^ 64 - 1) }
    ensures { OnOk result ((p : Prog) (acts : List Act) → HasHeard p acts watcher.old
        → HasHeard p (acts ++ act_of action.now ∷ []) watcher.new × (string_bytes text.new ≡ string_bytes text.old ++ told_at json acts (act_of action.now) p)) }
{
    let refusal = watcher.hear(action)?;
    push_refusal(alloc, json, text, watcher.program().name(), refusal)
}

/// Puts a line with the name that tells why an action is refused, if one is.
fn push_refusal(
    alloc: Global,
    json: bool,
    text: &mut String,
    name: &str,
    refusal: Option<End>,
) -> Result<(), OutOfMemory>
    ensures { OnOk result (string_bytes text.new ≡ string_bytes text.old ++ refusal_line json name.now (option_map ending_of refusal)) }
{
    if let Some(end) = refusal {
        return push_end(alloc, json, text, name, end);
    }
    Ok(())
}

/// Puts a line with the name and an end.
fn push_end(
    alloc: Global,
    json: bool,
    text: &mut String,
    name: &str,
    end: End,
) -> Result<(), OutOfMemory>
    ensures { OnOk result (string_bytes text.new ≡ string_bytes text.old ++ verdict_line json name.now (ending_text (ending_of end)) (ending_json (ending_of end))) }
{
    if json {
        let object = ending_members(alloc, end)?;
        return push_object(text, name, object.as_str());
    }
    writeln!(text, "{name}: {end}")?;
    Ok(())
}

/// Puts a line with the name and a verdict as an object.
fn push_object(text: &mut String, name: &str, object: &str) -> Result<(), OutOfMemory>
    ensures { OnOk result (string_bytes text.new ≡ string_bytes text.old ++ verdict_line true name.now [] object.now) }
{
    writeln!(
        text,
        "{{\"specification\":\"{name}\",\"verdict\":{object}}}"
    )?;
    Ok(())
}

/// What is told where the stream ends.
pub(crate) fn accepted_text(
    alloc: Global,
    json: bool,
    watchers: &[Watcher<'_>],
) -> Result<String, OutOfMemory>
    ensures { IfOk result (λ text. (ps : List Prog) (acts : List Act) → HaveHeard ps acts watchers.now → string_bytes text ≡ spec.accepted json ps acts) }
{
    let mut text = String::new(alloc);
    for watcher in watchers {
        push_accepted(json, &mut text, watcher.program().name(), watcher.refusal())?;
    }
    Ok(text)
}

/// Puts a line with the name that tells that nothing was refused, if nothing was.
fn push_accepted(
    json: bool,
    text: &mut String,
    name: &str,
    refusal: Option<End>,
) -> Result<(), OutOfMemory>
    ensures { OnOk result (string_bytes text.new ≡ string_bytes text.old ++ accepted_line json name.now (option_map ending_of refusal)) }
{
    if refusal.is_none() {
        return push_ok(json, text, name);
    }
    Ok(())
}

/// Puts a line with the name that tells that nothing was refused.
fn push_ok(json: bool, text: &mut String, name: &str) -> Result<(), OutOfMemory>
    ensures { OnOk result (string_bytes text.new ≡ string_bytes text.old ++ accepted_line json name.now None) }
{
    if json {
        return push_object(text, name, "\"ok\"");
    }
    writeln!(text, "{name}: ok")?;
    Ok(())
}
