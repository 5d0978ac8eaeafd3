//! Words for the workers of a run, of either kind that its settings name.

ghost use Rattle.std.specs.Prelude.{IfOk, IfErr};
ghost use Rattle.ioa_serving.specs.Alone.{AreSources, IsWordless};

use crate::failure::Failure;
use crate::seed::seeded;
use crate::store::Store;
use crate::words_file::{ListedWords, read_words};
use ioa_request::WordsFrom;
use ioa_run::Seeded;
use std::alloc::Global;

/// A source of words for each worker of a run.
#[derive(Drop)]
pub enum WordSources {
    Seeded(Vec<Seeded>),
    Listed(Vec<ListedWords>),
}

/// A source of words for each of so many workers.
///
/// # Errors
/// `BadWords` where a line of the file is no list of words; `Io` where the file is not read; or want of memory.
pub fn load_words<F: Store>(
    alloc: Global,
    from: WordsFrom<'_>,
    workers: usize,
    store: &F,
) -> Result<WordSources, Failure>
    ensures words { IfOk result (λ sources. AreSources (F.holds store.now) from.entry workers sources) }
    ensures refused { IfErr result (λ e. IsWordless (F.holds store.now) (F.lacks store.now) from.entry workers e) }
{
    match from {
        WordsFrom::Key(key) => {
            let sources = seeded(alloc, key, workers)?;
            Ok(WordSources::Seeded(sources))
        }
        WordsFrom::File(name) => {
            let text = store.load_whole(alloc, name)?;
            match read_words(alloc, text.as_slice(), workers)? {
                Ok(sources) => Ok(WordSources::Listed(sources)),
                Err(line) => Err(Failure::BadWords(line)),
            }
        }
    }
}
