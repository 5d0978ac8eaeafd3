//! What was lent to a call that was refused memory, compared with what it was.

use crate::tests::made::{self, Got, Setting};
use ioa_compile::Program;
use ioa_device::Counted;
use ioa_log::write_log;
use ioa_system::Log;
use ioa_value::{Action, Types, print_action};
use std::alloc::Global;
use std::process::Abort;

/// Whether the program is that of the source.
pub fn is_program(rt: &impl Abort, alloc: Global, program: &Program, source: &str) -> bool {
    program.same(&made::program(rt, alloc, source, None))
}

/// Whether the log is written as this text.
pub fn is_log(rt: &impl Abort, alloc: Global, types: &Types, log: &Log, text: &str) -> bool {
    let mut output = Counted::new(Vec::new(alloc));
    write_log(alloc, types, log, &mut output).got(rt);
    output.into_inner().as_slice() == text.as_bytes()
}

/// Whether the actions are printed as these texts.
fn are_actions(
    rt: &impl Abort,
    alloc: Global,
    types: &Types,
    actions: &[Action],
    texts: &[&str],
) -> bool {
    for (action, text) in actions.iter().zip(texts.iter()) {
        let printed = print_action(alloc, types, action).got(rt);
        if printed.as_str() != *text {
            return false;
        }
    }
    actions.len() == texts.len()
}

/// Whether the program is that of the source, and the log and the actions are written so.
pub fn is_setting(
    rt: &impl Abort,
    alloc: Global,
    setting: &Setting,
    source: &str,
    log: &str,
    texts: &[&str],
) -> bool {
    let program = &setting.program;
    is_program(rt, alloc, program, source)
        && is_log(rt, alloc, program.types(), &setting.log, log)
        && are_actions(rt, alloc, program.types(), &setting.script, texts)
}
