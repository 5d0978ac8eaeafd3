//! Traces of logs as texts.

ghost use Rattle.std.specs.Prelude.{◌≡◌, ◌≤◌, ◌++◌, ◌∷◌, [], IfOk, OnOk, length, map, if◌then◌else◌};
ghost use Rattle.std.specs.String.{string_bytes};
ghost use Rattle.ioa_value.specs.Actions.{act_of};
ghost use Rattle.ioa_value.specs.Written.{written_action};
ghost use Rattle.ioa_tree.specs.Runs.{is_external};
ghost use Rattle.ioa_compile.specs.Tables.{tabled};
ghost use Rattle.ioa_system.specs.Logs.{logged};
ghost use Rattle.ioa_serving.specs.Traces.{performed, traced_text};

use ioa_compile::Program;
use ioa_log::Trace;
use ioa_system::{Log, LogEnd, is_external};
use ioa_value::{Action, OutOfMemory};
use std::alloc::Global;

/// The external trace of a run that a log tells, one action a line, and then a line with its end.
pub fn trace_text(alloc: Global, program: &Program, log: &Log) -> Result<String, OutOfMemory>
    requires { performed log.now.end ≤ length log.now.entries.items }
    ensures { IfOk result (λ text. string_bytes text ≡ traced_text program.now (logged log.now) (performed log.now.end)) }
{
    let mut trace = Trace::new(alloc);
    for entry in &log.entries[..performed(log.end)] {
        push_external(&mut trace, program, &entry.action)?;
    }
    let end = log.end.end();
    trace.end(end)
}

/// How many actions of a log that ends so are performed.
fn performed(end: LogEnd) -> usize
    ensures { result ≡ performed end }
{
    match end {
        LogEnd::Done(count) => count,
        LogEnd::Fault(_, _, index) => index,
    }
}

/// Puts the action at the trace's end, where it is external.
fn push_external(trace: &mut Trace, program: &Program, action: &Action) -> Result<(), OutOfMemory>
    ensures { OnOk result (trace.new ≡ trace.old
        ++ (if is_external program.now.hidden (tabled program.now) (act_of action.now) then written_action program.now.types (act_of action.now) ++ 10 ∷ [] else [])) }
{
    if is_external(program, action) {
        trace.push(program.types(), action)?;
    }
    Ok(())
}
