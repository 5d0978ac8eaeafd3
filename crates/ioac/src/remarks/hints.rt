//! Which entries an action may mean that no component has, and of which composition they are.

ghost use Rattle.std.specs.Prelude.{◌≡◌, ◌++◌, List, ℕ, OnOk, map};
ghost use Rattle.std.specs.String.{string_bytes};
ghost use Rattle.ioa_value.specs.Actions.{act_of};
ghost use Rattle.ioa_system.specs.Outcomes.{ending_of};
ghost use Rattle.ioac.specs.Hints as spec;
ghost use Rattle.ioac.specs.Hints.{HintsAt, TellsHint};

use crate::remarks::ended::{composed, loaded};
use crate::remarks::entries::{names_of, put_like};
use crate::remarks::places::source_of;
use ioa_account::{Told, account_of};
use ioa_causes::nearest::nearest;
use ioa_compile::compile;
use ioa_compose::{Composition, Member};
use ioa_log::begun_log;
use ioa_request::Request;
use ioa_serving::{Store, is_object};
use ioa_syntax::{Refusal, parse};
use ioa_system::{End, participants};
use ioa_tree::Declaration;
use ioa_value::{Action, OutOfMemory};
use std::alloc::Global;
use std::fmt::Write;

/// Puts behind the text which entries the action of a list may mean at which the run ends, since no component has it. Nothing, where the run ends otherwise.
pub fn put(
    alloc: Global,
    text: &mut String,
    told: &Told<'_>,
    name: Option<&str>,
    actions: &[Action],
) -> Result<(), OutOfMemory>
    ensures { OnOk result (TellsHint told.now (map act_of actions.now) (string_bytes text.old) (string_bytes text.new)) }
{
    let program = compile(alloc, told.composition)?;
    match account_of(alloc, told.composition, &program, actions)? {
        Some(found) => put_at(alloc, text, told, name, actions, found.end),
        None => Ok(()),
    }
}

fn put_at(
    alloc: Global,
    text: &mut String,
    told: &Told<'_>,
    name: Option<&str>,
    actions: &[Action],
    end: End,
) -> Result<(), OutOfMemory>
    ensures { OnOk result (HintsAt told.now.composition.now.members (map act_of actions.now) (ending_of end) (string_bytes text.old) (string_bytes text.new)) }
{
    match end {
        End::NotAnAction(index) => {
            let action = name_at(actions, index);
            put_meant(alloc, text, told.composition, told.source, name, action)
        }
        End::Done(_) => Ok(()),
        End::NotEnabled(_) => Ok(()),
        End::Fault(_, _, _) => Ok(()),
    }
}

/// The name of the action of this index.
fn name_at(actions: &[Action], index: usize) -> &str
    ensures { result.now ≡ spec.name_at (map act_of actions.now) index }
{
    match actions.get(index) {
        Some(action) => action.name.as_str(),
        None => "",
    }
}

/// Puts the components that have an entry of this name, and words behind it.
fn put_meant(
    alloc: Global,
    text: &mut String,
    composition: &Composition,
    source: &[u8],
    name: Option<&str>,
    action: &str,
) -> Result<(), OutOfMemory>
    ensures { OnOk result ((rest : List ℕ) × (string_bytes text.new ≡ string_bytes text.old ++ (spec.like_text action.now composition.now.members ++ rest))) }
{
    let rest = rest_text(alloc, composition, source, name, action)?;
    put_like_and(text, composition.members(), action, rest.as_str())
}

/// Puts the components that have an entry of this name, and a text behind it.
fn put_like_and(
    text: &mut String,
    members: &[Member],
    action: &str,
    rest: &str,
) -> Result<(), OutOfMemory>
    ensures { OnOk result (string_bytes text.new ≡ string_bytes text.old ++ (spec.like_text action.now members.now ++ rest.now)) }
{
    put_like(text, members, action)?;
    text.push_str(rest)?;
    Ok(())
}

/// The nearest name, where none is this one, and which composition was taken, where none was named.
fn rest_text(
    alloc: Global,
    composition: &Composition,
    source: &[u8],
    name: Option<&str>,
    action: &str,
) -> Result<String, OutOfMemory> {
    let mut text = String::new(alloc);
    let names = names_of(alloc, composition.members())?;
    if !names.contains(&action) {
        if let Some(near) = nearest(action, &names) {
            writeln!(text, "is `{near}` meant?")?;
        }
    }
    let taken = taken_text(alloc, composition, source, name)?;
    text.push_str(taken.as_str())?;
    Ok(text)
}

/// Which composition was taken, where none was named and there are several.
pub fn taken_text(
    alloc: Global,
    composition: &Composition,
    source: &[u8],
    name: Option<&str>,
) -> Result<String, OutOfMemory> {
    if name.is_some() {
        return Ok(String::new(alloc));
    }
    let count = count_compositions(alloc, source)?;
    if count < 2 {
        return Ok(String::new(alloc));
    }
    let taken = composition.name();
    Ok(format!(in alloc;
        "no composition was named, so that `{taken}` was taken, the last of {count}\n"
    )?)
}

/// How many compositions a source declares.
fn count_compositions(alloc: Global, source: &[u8]) -> Result<usize, OutOfMemory> {
    let parsed = match parse(alloc, source) {
        Ok(parsed) => parsed,
        Err(Refusal::OutOfMemory) => return Err(OutOfMemory),
        Err(_) => return Ok(0),
    };
    let mut count: usize = 0;
    for declaration in parsed.declarations() {
        if let Declaration::Composition(_) = declaration {
            count = count.saturating_add(1);
        }
    }
    Ok(count)
}

/// Which entries the action on this line of a log may mean, where no component has it. Nothing, where one has it, or the program is an object.
pub fn hint_of_log<F: Store>(
    alloc: Global,
    asked: &Request<'_>,
    store: &F,
    log: &[u8],
    line: usize,
) -> Result<String, OutOfMemory> {
    let mut text = String::new(alloc);
    let Some((file, name)) = source_of(asked) else {
        return Ok(text);
    };
    let source = loaded(alloc, file, store)?;
    if is_object(source.as_slice()) {
        return Ok(text);
    }
    let Some(composition) = composed(alloc, source.as_slice(), name)? else {
        return Ok(text);
    };
    if let Some(begun) = begun_log(alloc, composition.types(), log, line)?
        && let Some(entry) = begun.entries.last()
    {
        let program = compile(alloc, &composition)?;
        if participants(alloc, &program, &entry.action)?.is_empty() {
            let action = entry.action.name.as_str();
            put_meant(
                alloc,
                &mut text,
                &composition,
                source.as_slice(),
                name,
                action,
            )?;
        }
    }
    Ok(text)
}
