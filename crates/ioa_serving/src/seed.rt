//! Words by chance for each worker of a run.

ghost use Rattle.std.specs.Prelude.{◌≡◌, ◌<◌, ℕ, IfOk, Some, length, slice_get};
ghost use Rattle.rand_chacha.specs.ChaCha.{key_of};
ghost use Rattle.ioa_serving.specs.Streams.{AreStreams};

use ioa_run::Seeded;
use ioa_value::OutOfMemory;
use std::alloc::Global;

/// The words of a key for so many workers: each has the stream of its number, from its start.
pub fn seeded(alloc: Global, key: [u8; 32], workers: usize) -> Result<Vec<Seeded>, OutOfMemory>
    ensures { IfOk result (λ sources. AreStreams key workers sources.items) }
{
    let mut sources = Vec::new(alloc);
    for worker in 0..workers {
        sources.push(Seeded::new(key, worker as u64))?;
    }
    Ok(sources)
}
