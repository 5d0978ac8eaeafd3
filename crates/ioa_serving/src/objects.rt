//! Texts of replays as JSON objects, an object a line. No text in them has anything that JSON would escape.

ghost use Rattle.std.specs.Prelude.{◌≡◌, ◌++◌, true, IfOk, OnOk};
ghost use Rattle.ioa_value.specs.Lists.{lines};
ghost use Rattle.ioa_system.specs.Outcomes.{ending_of};
ghost use Rattle.ioa_serving.specs.Objects as spec;
ghost use Rattle.ioa_serving.specs.Objects.{act_object, end_object, object_before};

use ioa_log::Replayed;
use ioa_system::End;
use ioa_value::{OutOfMemory, first_line};
use ioa_watch::ending_members;
use std::alloc::Global;
use std::fmt::Write;

/// A run that is performed as objects: one with each action of its trace, and then one with its end.
pub fn objects_of(alloc: Global, replayed: &Replayed) -> Result<Vec<u8>, OutOfMemory>
    ensures { IfOk result (λ objects. objects.items ≡ spec.objects_of replayed.now) }
{
    rendered(alloc, replayed.text.as_bytes(), replayed.end)
}

/// The text of a run that ends so as objects: one with the action of each line but the last, which tells the end, and then one with the end.
pub fn rendered(alloc: Global, text: &[u8], end: End) -> Result<Vec<u8>, OutOfMemory>
    ensures { IfOk result (λ objects. objects.items ≡ spec.rendered true text.now (ending_of end)) }
{
    let mut objects = act_objects(alloc, text)?;
    put_end(alloc, &mut objects, end)?;
    Ok(objects)
}

/// An object for each line but the last.
fn act_objects(alloc: Global, text: &[u8]) -> Result<Vec<u8>, OutOfMemory>
    ensures { IfOk result (λ objects. objects.items ≡ spec.act_objects (lines text.now)) }
{
    let mut objects = Vec::new(alloc);
    let mut rest = text;
    while !rest.is_empty() {
        let (line, after) = first_line(rest);
        rest = after;
        put_before(&mut objects, line, after)?;
    }
    Ok(objects)
}

/// Puts the action of a line, where others follow it.
fn put_before(objects: &mut Vec<u8>, line: &[u8], after: &[u8]) -> Result<(), OutOfMemory>
    ensures { OnOk result (objects.new.items ≡ objects.old.items ++ object_before (lines after.now) line.now) }
{
    if after.is_empty() {
        return Ok(());
    }
    put_act(objects, line)
}

/// Puts an action.
fn put_act(objects: &mut Vec<u8>, act: &[u8]) -> Result<(), OutOfMemory>
    ensures { OnOk result (objects.new.items ≡ objects.old.items ++ act_object act.now) }
{
    objects.extend_from_slice(b"{\"act\":\"")?;
    objects.extend_from_slice(act)?;
    objects.extend_from_slice(b"\"}\n")?;
    Ok(())
}

/// Puts an end.
fn put_end(alloc: Global, objects: &mut Vec<u8>, end: End) -> Result<(), OutOfMemory>
    ensures { OnOk result (objects.new.items ≡ objects.old.items ++ end_object (ending_of end)) }
{
    let members = ending_members(alloc, end)?;
    let mut line = String::new(alloc);
    writeln!(line, "{{\"end\":{members}}}")?;
    objects.extend_from_slice(line.as_bytes())?;
    Ok(())
}
