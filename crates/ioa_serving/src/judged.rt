//! What specifications answer to a run that is over, of which the log is kept in memory, and which invariant its states break.

ghost use Rattle.std.specs.Prelude.{◌≡◌, IfOk, length, map, option_map};
ghost use Rattle.std.specs.Option.{option_copied};
ghost use Rattle.ioa_compile.specs.Tables.{start_states, tabled};
ghost use Rattle.ioa_system.specs.Outcomes.{ending_of};
ghost use Rattle.ioa_system.specs.Logs.{logged};
ghost use Rattle.ioa_monitor.specs.Monitoring.{monitored};
ghost use Rattle.ioa_inspect.specs.Breaking.{broken_of};
ghost use Rattle.ioa_serving.specs.Logs.{performed_in};
ghost use Rattle.ioa_serving.specs.SeedRuns.{broken_in, judged_of, table_answer};

use ioa_compile::Program;
use ioa_compose::Composition;
use ioa_inspect::{Broken, invariants};
use ioa_system::{End, Log, LogEnd, Step, System};
use ioa_value::OutOfMemory;
use std::alloc::Global;

/// A run, and what each specification answers to it: nothing where it accepts it, or else why not.
#[derive(Drop)]
pub struct JudgedRun {
    pub log: Log,
    pub answers: Vec<Option<End>>,
    /// Where it is asked whether its states keep the invariants: the first that is broken, or nothing where none is.
    pub inspected: Option<Option<Broken>>,
}

/// A run with the answers of these specifications, and with the first invariant that is broken, where a composition is given, whose run it is. It asks that all
/// that the specifications do is seen.
pub fn judged(
    alloc: Global,
    specifications: &[Program],
    composition: Option<&Composition>,
    log: Log,
) -> Result<JudgedRun, OutOfMemory>
    ensures log { IfOk result (λ j. (judged_of j).log ≡ logged log) }
    ensures answers { IfOk result (λ j. (judged_of j).answers ≡ map (table_answer (logged log)) specifications.now) }
    ensures inspected { IfOk result (λ j. (judged_of j).inspected ≡ broken_in (option_copied composition.entry) (logged log)) }
{
    let inspected = inspected_in(alloc, composition, &log)?;
    let answers = answers_of(alloc, specifications, &log)?;
    Ok(JudgedRun {
        log,
        answers,
        inspected,
    })
}

/// The first of the source's invariants that is broken in a state of the composition's run that the log tells, if one is; nothing without a composition. The
/// log of a run is one of the composition's, which leaves no other error than want of memory.
fn inspected_in(
    alloc: Global,
    composition: Option<&Composition>,
    log: &Log,
) -> Result<Option<Option<Broken>>, OutOfMemory>
    ensures { IfOk result (λ inspected. option_map (option_map broken_of) inspected ≡ broken_in (option_copied composition.entry) (logged log.now)) }
{
    let Some(composition) = composition else {
        return Ok(None);
    };
    match invariants(alloc, composition, log) {
        Ok(broken) => Ok(Some(broken)),
        Err(_) => Err(OutOfMemory),
    }
}

/// What each specification answers.
fn answers_of(
    alloc: Global,
    specifications: &[Program],
    log: &Log,
) -> Result<Vec<Option<End>>, OutOfMemory>
    ensures { IfOk result (λ answers. map (option_map ending_of) answers.items ≡ map (table_answer (logged log.now)) specifications.now) }
{
    let mut answers = Vec::new(alloc);
    for specification in specifications {
        let answer = answer_of(alloc, specification, log)?;
        answers.push(answer)?;
    }
    Ok(answers)
}

/// Why a specification does not accept what the log tells to be performed, with the index of the first action that it does not; nothing where it accepts it.
fn answer_of(alloc: Global, specification: &Program, log: &Log) -> Result<Option<End>, OutOfMemory>
    ensures { IfOk result (λ answer. option_map ending_of answer ≡ monitored (tabled specification.now) (performed_in (logged log.now)) (start_states specification.now)) }
{
    let entries = log.entries.as_slice();
    let mut system = System::start(alloc, specification)?;
    for index in 0..performed_count(log) {
        let entry = &entries[index];
        let answer = system.step(&entry.action)?;
        match answer {
            Step::Next | Step::NotAnAction => {}
            Step::NotEnabled => return Ok(Some(End::NotEnabled(index))),
            Step::Fault(component, fault) => {
                return Ok(Some(End::Fault(component, fault, index)));
            }
        }
    }
    Ok(None)
}

/// How many actions the log tells to be performed: the last one of a log that ends by a fault is not.
pub fn performed_count(log: &Log) -> usize
    ensures { result ≡ length (performed_in (logged log.now)) }
{
    match log.end {
        LogEnd::Done(_) => log.entries.len(),
        LogEnd::Fault(_, _, _) => log.entries.len().saturating_sub(1),
    }
}
