//! What a run is given, from files: the program and its source, the words of its workers, its script, and the log from which it goes on.

ghost use Rattle.std.specs.Prelude.{◌≡◌, IfOk, IfErr};
ghost use Rattle.ioa_compile.specs.Subjects.{RunsAs, Subject};
ghost use Rattle.ioa_coverage.specs.Covered.{IsOriginOf};
ghost use Rattle.ioa_serving.specs.Alone.{IsUnrun, MayGive};
ghost use Rattle.ioa_serving.specs.HasRun.{HasReady};

use crate::failure::Failure;
use crate::run_log::load_log;
use crate::script::load_script;
use crate::sourced::{Sourced, sourced_of};
use crate::store::Store;
use crate::word_sources::{WordSources, load_words};
use ioa_compile::Program;
use ioa_coverage::Origin;
use ioa_log::Log;
use ioa_request::Settings;
use ioa_value::Action;
use std::alloc::Global;

/// All that is read for a run.
#[derive(Drop)]
pub struct Ready {
    pub program: Program,
    /// The source that declares what is run; of an object none.
    pub source: Option<Origin>,
    pub words: WordSources,
    pub script: Vec<Action>,
    /// The log from which the run goes on; without a file, that of nothing.
    pub log: Log,
}

/// Reads what a run is given. Nothing is run.
///
/// # Errors
/// `Io` where a file is not read; `Refused` where the source or its composition is, `Object` where the object is; `BadWords` where a line of
/// the file of words is no list of words; `List` where a line of the script is no action; `RunLog` where the file to go on from is no log; or
/// want of memory.
pub fn load_run<F: Store>(
    alloc: Global,
    settings: &Settings<'_>,
    store: &F,
) -> Result<Ready, Failure>
    ensures ready { IfOk result (λ r. HasReady (F.holds store.now) settings.now r) }
    ensures refused { IfErr result (λ e. IsUnrun (F.holds store.now) (F.lacks store.now) settings.now e) }
{
    let text = store.load(alloc, settings.file)?;
    let sourced = sourced_of(alloc, text.as_slice(), settings.composition)?;
    ready_with(alloc, settings, sourced, store)
}

/// Reads what a run of this program is given besides.
///
/// # Errors
/// As those of `load_run` behind the program.
pub fn ready_with<F: Store>(
    alloc: Global,
    settings: &Settings<'_>,
    sourced: Sourced,
    store: &F,
) -> Result<Ready, Failure>
    ensures ready { IfOk result (λ r. (x : Subject) → MayGive (F.holds store.now) settings.now x → RunsAs sourced.program x → IsOriginOf sourced.source x
        → (k : HasReady (F.holds store.now) settings.now r) × (k.subject ≡ x)) }
    ensures refused { IfErr result (λ e. (x : Subject) → MayGive (F.holds store.now) settings.now x → RunsAs sourced.program x
        → IsUnrun (F.holds store.now) (F.lacks store.now) settings.now e) }
{
    let Sourced { program, source } = sourced;
    let components = program.members().len();
    let words = load_words(alloc, settings.words, components, store)?;
    let script = load_script(alloc, program.types(), settings.inputs, store)?;
    let log = load_log(alloc, program.types(), settings.resume, store)?;
    Ok(Ready {
        program,
        source,
        words,
        script,
        log,
    })
}
