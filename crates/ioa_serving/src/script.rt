//! Scripts of environments, from files.

ghost use Rattle.std.specs.Prelude.{IfOk, IfErr, map};
ghost use Rattle.std.specs.Option.{option_copied};
ghost use Rattle.ioa_value.specs.Actions.{act_of};
ghost use Rattle.ioa_serving.specs.Alone.{IsScript, IsScriptless};

use crate::failure::Failure;
use crate::store::Store;
use ioa_device::LogErr;
use ioa_value::{Action, Types, read_list};
use std::alloc::Global;

/// The script of a run's environment: the list in a file or, without a file, no action.
///
/// # Errors
/// `List` where a line of the file is no action; `Io` where the file is not read; or want of memory.
pub fn load_script<F: Store>(
    alloc: Global,
    types: &Types,
    file: Option<&str>,
    store: &F,
) -> Result<Vec<Action>, Failure>
    ensures script { IfOk result (λ actions. IsScript (F.holds store.now) types.now (option_copied file.entry) (map act_of actions.items)) }
    ensures refused { IfErr result (λ e. IsScriptless (F.holds store.now) (F.lacks store.now) types.now (option_copied file.entry) e) }
{
    let Some(name) = file else {
        return Ok(Vec::new(alloc));
    };
    let text = store.load_whole(alloc, name)?;
    match read_list(alloc, types, text.as_slice())? {
        Ok(actions) => Ok(actions),
        Err(line) => Err(Failure::List(LogErr::BadEntry(line))),
    }
}
