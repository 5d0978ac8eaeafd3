//! `compile`: objects in files, where only objects and empty files give way to them.

ghost use Rattle.std.specs.Prelude.{◌≡◌, OnOk, IfErr, IsErrOf};
ghost use Rattle.std.specs.Option.{option_copied};
ghost use Rattle.ioa_object.specs.Spelling.{mark};
ghost use Rattle.ioa_device.specs.Devices.{PassesUnless, change};
ghost use Rattle.ioa_device.specs.declared.failure.LogErr.{LogErr};
ghost use Rattle.ioa_serving.specs.Compiling.{IsMade, IsUnmade};
ghost use Rattle.ioa_serving.specs.Worlds.{files};
ghost use Rattle.ioa_serving.specs.Placing.{Blocks, Places};
ghost use Rattle.ioa_serving.specs.declared.store.StoreErr.{StoreErr};

use crate::compile::object_of;
use crate::failure::Failure;
use crate::placing::put_in_place;
use crate::store::{Store, StoreErr};
use ioa_device::{OutputDevice, send_all};
use std::alloc::Global;

/// The bytes with which an object begins.
pub const OBJECT_MARK: [u8; 4] = [0x7F, 0x49, 0x4F, 0x41];

/// Puts the object of a composition of a source in the file `out`, and writes `ok` on a line.
///
/// # Errors
/// `Io` where the source's file is not read, or the object is not put in its own, as where a file stands there that is no object; `Refused` where the source or its composition is;
/// `SourceWanted` where the file is an object itself; or want of memory. No file was changed then, and nothing written. `List` where the
/// device failed: the object stands in its file then, and no more than a beginning of the line was written.
pub fn compile_file<F: Store, W: OutputDevice>(
    alloc: Global,
    file: &str,
    out: &str,
    composition: Option<&str>,
    store: &mut F,
    output: &mut W,
) -> Result<(), Failure>
    ensures makes { OnOk result (IsMade (files F.holds F.lacks F.begins F.bars F.saves store.old store.new) file.now out.now (option_copied composition.entry) (change W.contents W.failure_count output.old output.new)) }
    ensures refused { IfErr result (λ e. IsUnmade (files F.holds F.lacks F.begins F.bars F.saves store.old store.new) file.now out.now (option_copied composition.entry)
        (change W.contents W.failure_count output.old output.new) e) }
    ensures devices { PassesUnless (IsErrOf result (Failure.List LogErr.Io)) (change W.contents W.failure_count output.old output.new) }
{
    let text = store.load(alloc, file)?;
    let object = object_of(alloc, text.as_slice(), composition)?;
    place(alloc, out, object.as_slice(), store)?;
    send_all(output, b"ok\n")?;
    Ok(())
}

/// Puts an object in the file `out`, where what stands there gives way to it.
///
/// # Errors
/// `Io` where a file stands there that is no object, or the store does not write it; or want of memory. No file was changed then.
fn place<F: Store>(alloc: Global, out: &str, object: &[u8], store: &mut F) -> Result<(), StoreErr>
    ensures ok { OnOk result (Places mark (F.begins store.old) (F.saves store.old store.new) out.now object.now) }
    ensures io { IsErrOf result StoreErr.Io → Blocks mark (F.begins store.old) (F.bars store.old) out.now }
    ensures kept { IfErr result (λ _. store.new ≡ store.old) }
{
    put_in_place(alloc, out, &OBJECT_MARK, object, store)
}
