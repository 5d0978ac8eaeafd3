//! What there is to say of an object, which has no source, and whose variables have no names.

ghost use Rattle.std.specs.Prelude.{◌≡◌, true, IfOk, OnOk, map};
ghost use Rattle.std.specs.Option.{option_copied};
ghost use Rattle.std.specs.String.{string_bytes};
ghost use Rattle.ioa_value.specs.Actions.{act_of};
ghost use Rattle.ioa_serving.specs.Headline.{begins_object};
ghost use Rattle.ioac.specs.Remarks.{IsProgramOf, TellsNameless, TellsObjectCounted, TellsObjectLog, TellsObjectMonitor, TellsOfObject};

use crate::remarks::ended::{Ended, heard_log};
use ioa_account::put_object_monitored;
use ioa_compile::Program;
use ioa_object::ObjErr;
use ioa_request::Request;
use ioa_serving::{Failure, performed_in, program_of, put_monitor_counts};
use ioa_value::{Action, OutOfMemory};
use std::alloc::Global;

/// Puts behind the text what there is to say of a request of an object that ended so: of a monitor how many of the log's actions the object takes and has, and of the
/// first that it does not perform the log's line, why, and the component. Of others nothing is said.
pub fn put(
    alloc: Global,
    text: &mut String,
    asked: &Request<'_>,
    ended: Ended,
    object: &[u8],
    name: Option<&str>,
    input: &[u8],
) -> Result<(), OutOfMemory>
    requires { begins_object object.now ≡ true }
    ensures { OnOk result (TellsNameless asked.now ended object.now (option_copied name.entry) input.now (string_bytes text.old) (string_bytes text.new)) }
{
    match ended {
        Ended::Served(_) => put_served(alloc, text, asked, object, name, input),
        Ended::Diverged(_) => Ok(()),
    }
}

/// Puts what there is to say of a request that was served.
fn put_served(
    alloc: Global,
    text: &mut String,
    asked: &Request<'_>,
    object: &[u8],
    name: Option<&str>,
    input: &[u8],
) -> Result<(), OutOfMemory>
    requires { begins_object object.now ≡ true }
    ensures { OnOk result (TellsOfObject asked.now object.now (option_copied name.entry) input.now (string_bytes text.old) (string_bytes text.new)) }
{
    match asked {
        Request::Monitor { .. } => put_monitor(alloc, text, object, name, input),
        Request::MonitorJson { .. } => put_monitor(alloc, text, object, name, input),
        Request::StrictMonitor { .. } => put_monitor(alloc, text, object, name, input),
        Request::Watch { .. } => Ok(()),
        Request::Replay { .. } => Ok(()),
        Request::ReplayStates { .. } => Ok(()),
        Request::Log { .. } => Ok(()),
        Request::LogByLog { .. } => Ok(()),
        Request::ReplayLog { .. } => Ok(()),
        Request::ReplayLogStates { .. } => Ok(()),
        Request::ReplayInvariants { .. } => Ok(()),
        Request::ReplayCoverage { .. } => Ok(()),
        Request::Chart { .. } => Ok(()),
        Request::Run(_) => Ok(()),
        Request::Seeds(_) => Ok(()),
        Request::Graph { .. } => Ok(()),
        Request::Check { .. } => Ok(()),
        Request::Compile { .. } => Ok(()),
        Request::Dump { .. } => Ok(()),
        Request::Explain { .. } => Ok(()),
        Request::Library => Ok(()),
    }
}

/// Puts how many of the log's actions the object has, and what came of them.
fn put_monitor(
    alloc: Global,
    text: &mut String,
    object: &[u8],
    name: Option<&str>,
    input: &[u8],
) -> Result<(), OutOfMemory>
    requires { begins_object object.now ≡ true }
    ensures { OnOk result (TellsObjectMonitor object.now (option_copied name.entry) input.now (string_bytes text.old) (string_bytes text.new)) }
{
    let Some(program) = program_in(alloc, object, name)? else {
        return Ok(());
    };
    put_monitored(alloc, text, &program, input)
}

/// The program of the object. None, where the object is refused, or is of another composition than the one of this name.
pub fn program_in(
    alloc: Global,
    object: &[u8],
    name: Option<&str>,
) -> Result<Option<Program>, OutOfMemory>
    requires { begins_object object.now ≡ true }
    ensures { IfOk result (λ found. IsProgramOf object.now (option_copied name.entry) found) }
{
    match program_of(alloc, object, name) {
        Ok(program) => Ok(Some(program)),
        Err(Failure::Object(ObjErr::OutOfMemory)) => Err(OutOfMemory),
        Err(_) => Ok(None),
    }
}

/// Puts how many of the log's actions the program takes, by its names, how many it has, and what came of them.
fn put_monitored(
    alloc: Global,
    text: &mut String,
    program: &Program,
    input: &[u8],
) -> Result<(), OutOfMemory>
    ensures { OnOk result (TellsObjectLog program.now input.now (string_bytes text.old) (string_bytes text.new)) }
{
    match heard_log(alloc, program.types(), input)? {
        Some(log) => {
            let actions = performed_in(alloc, log)?;
            put_counted(alloc, text, program, input, &actions)
        }
        None => Ok(()),
    }
}

/// Puts how many of these actions the program takes, by its names, how many it has, and of the first that it does not perform why not.
fn put_counted(
    alloc: Global,
    text: &mut String,
    program: &Program,
    input: &[u8],
    actions: &[Action],
) -> Result<(), OutOfMemory>
    ensures { OnOk result (TellsObjectCounted program.now input.now (map act_of actions.now) (string_bytes text.old) (string_bytes text.new)) }
{
    put_monitor_counts(alloc, text, program, actions)?;
    put_object_monitored(alloc, text, program, input, actions)
}
