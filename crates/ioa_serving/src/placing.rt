//! Files that are written where what stands there gives way: an empty file, or one that begins as what is written does.

ghost use Rattle.std.specs.Prelude.{◌≡◌, ◌↔◌, IsTrue, OnOk, IfErr, IsErrOf, Some};
ghost use Rattle.std.specs.Option.{option_map};
ghost use Rattle.ioa_serving.specs.Placing.{Blocks, GivesWay, Places, Yields};
ghost use Rattle.ioa_serving.specs.declared.store.StoreErr.{StoreErr};

use crate::store::{Store, StoreErr};
use std::alloc::Global;

/// Finds whether bytes that begin with this mark may be put in the file `out`. Nothing is put there.
///
/// # Errors
/// `Io` where a file stands there that is not empty and begins otherwise; or want of memory.
pub(crate) fn ask_place<F: Store>(
    alloc: Global,
    out: &str,
    mark: &[u8],
    store: &F,
) -> Result<(), StoreErr>
    ensures ok { OnOk result (Yields mark.now (F.begins store.now) out.now) }
    ensures io { IsErrOf result StoreErr.Io → Blocks mark.now (F.begins store.now) (F.bars store.now) out.now }
{
    let found = store.beginning(alloc, out)?;
    if !gives_way(mark, &found) {
        return Err(StoreErr::Io);
    }
    Ok(())
}

/// Puts bytes that begin with this mark in the file `out`, where what stands there gives way to them.
///
/// # Errors
/// `Io` where a file stands there that is not empty and begins otherwise, or the store does not write it; or want of memory. No file was changed then.
pub(crate) fn put_in_place<F: Store>(
    alloc: Global,
    out: &str,
    mark: &[u8],
    bytes: &[u8],
    store: &mut F,
) -> Result<(), StoreErr>
    ensures ok { OnOk result (Places mark.now (F.begins store.old) (F.saves store.old store.new) out.now bytes.now) }
    ensures io { IsErrOf result StoreErr.Io → Blocks mark.now (F.begins store.old) (F.bars store.old) out.now }
    ensures kept { IfErr result (λ _. store.new ≡ store.old) }
{
    ask_place(alloc, out, mark, store)?;
    store.save(alloc, out, bytes)
}

/// Whether bytes that begin with this mark may be put where this stands: no file that can be read, an empty one, or one that begins with it, too.
pub fn gives_way(mark: &[u8], found: &Option<Vec<u8>>) -> bool
    ensures { IsTrue result ↔ GivesWay mark.now (option_map (λ bytes. bytes.items) found.now) }
{
    match found {
        Some(bytes) => is_empty_or_marked(mark, bytes.as_slice()),
        None => true,
    }
}

fn is_empty_or_marked(mark: &[u8], bytes: &[u8]) -> bool
    ensures { IsTrue result ↔ GivesWay mark.now (Some bytes.now) }
{
    if bytes.is_empty() {
        return true;
    }
    bytes.starts_with(mark)
}
