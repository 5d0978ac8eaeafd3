//! Logs from which runs go on, from files.

ghost use Rattle.std.specs.Prelude.{◌≡◌, IfOk, IfErr};
ghost use Rattle.std.specs.Option.{option_copied};
ghost use Rattle.ioa_system.specs.Logs.{logged};
ghost use Rattle.ioa_serving.specs.Resuming.{IsFrom, IsLogless, unread_log};

use crate::failure::Failure;
use crate::store::Store;
use ioa_device::{Counted, LogErr};
use ioa_log::{Log, LogEnd};
use ioa_replay::read_log;
use ioa_value::Types;
use std::alloc::Global;

/// The log from which a run goes on: that in a file or, without a file, that of nothing.
///
/// # Errors
/// `RunLog` where the file holds no log; `Io` where it is not read; or want of memory.
pub fn load_log<F: Store>(
    alloc: Global,
    types: &Types,
    file: Option<&str>,
    store: &F,
) -> Result<Log, Failure>
    ensures from { IfOk result (λ log. IsFrom (F.holds store.now) types.now (option_copied file.entry) (logged log)) }
    ensures refused { IfErr result (λ e. IsLogless (F.holds store.now) (F.lacks store.now) types.now (option_copied file.entry) e) }
{
    let Some(name) = file else {
        return Ok(Log {
            entries: Vec::new(alloc),
            end: LogEnd::Done(0),
        });
    };
    let text = store.load_whole(alloc, name)?;
    let mut device = Counted::new(text.as_slice());
    match read_log(alloc, types, &mut device) {
        Ok(log) => Ok(log),
        Err(error) => Err(unread(error)),
    }
}

/// Why there is no run, where its log is refused so. The bytes are at hand, so that no device fails.
fn unread(error: LogErr) -> Failure
    ensures { result ≡ unread_log error }
{
    match error {
        LogErr::NotJson(_)
        | LogErr::BadEntry(_)
        | LogErr::WrongOwner(_)
        | LogErr::Diverges(_)
        | LogErr::NoEnd
        | LogErr::AfterEnd => Failure::RunLog(error),
        LogErr::Io | LogErr::OutOfMemory => Failure::OutOfMemory,
    }
}
