//! What is kept of the runs by many seeds that have ended: their counts, how often each entry was performed in them and each arm and body taken, and the shortest log that
//! is refused.

ghost use Rattle.std.specs.Prelude.{◌≡◌, ◌↔◌, ◌<◌, [], IsTrue, IfOk, IfSome, length, option_map, is_some, true};
ghost use Rattle.std.specs.List.{list_any};
ghost use Rattle.std.specs.Option.{option_copied};
ghost use Rattle.ioa_system.specs.Logs.{logged};
ghost use Rattle.ioa_serving.specs.SeedRuns.{IsCovered, judged_of};
ghost use Rattle.ioa_serving.specs.Seeds as spec;

use crate::covered::performed_entries;
use crate::judged::JudgedRun;
use crate::seed_counts::{Counts, is_broken};
use ioa_compile::Program;
use ioa_coverage::{Coverage, Origin};
use ioa_system::{End, Log};
use ioa_value::OutOfMemory;
use std::alloc::Global;

/// The counts of runs, and the shortest log of one that is refused: that a specification does not accept, or that breaks an invariant.
#[derive(Drop)]
pub struct Tally<'a> {
    pub counts: Counts,
    /// How often each entry was performed in them and each arm and body taken, where it is asked for.
    pub coverage: Option<Coverage<'a>>,
    /// The log with the fewest entries of the runs that are refused; of those that have as few the first one's.
    pub shortest: Option<Log>,
}

impl<'a> Tally<'a> {
    ghost use Rattle.std.specs.Prelude.{◌≡◌, ◌+◌, ◌++◌, ◌<◌, ◌≤◌, ◌^◌, ◌∷◌, [], ℕ, Bool, List, Option, IfOk, OnOk, length, option_map};
    ghost use Rattle.std.specs.Option.{option_copied};
    ghost use Rattle.std.specs.String.{string_bytes};
    ghost use Rattle.ioa_system.specs.Logs.{logged};
    ghost use Rattle.ioa_compile.specs.Programs.{Prog};
    ghost use Rattle.ioa_compile.specs.Subjects.{RunsAs, Subject};
    ghost use Rattle.ioa_coverage.specs.declared.origin.Origin.{Origin};
    ghost use Rattle.ioa_coverage.specs.Covered.{IsOriginOf};
    ghost use Rattle.ioa_coverage.specs.Performed.{all_of};
    ghost use Rattle.ioa_serving.specs.Coverage.{told_coverage};
    ghost use Rattle.ioa_serving.specs.Logs.{performed_in};
    ghost use Rattle.ioa_serving.specs.SeedRuns.{IsCountOf, IsCovered, IsTallyOf, judged_of};
    ghost use Rattle.ioa_serving.specs.Seeds.{Judged, performed_by_all};

    /// That of no run of the program, for so many specifications, and with or without counts of the program's entries and of what the effects of its source take.
    pub fn start(
        alloc: Global,
        specifications: usize,
        program: &'a Program,
        source: Option<&'a Origin>,
        covers: bool,
    ) -> Result<Tally<'a>, OutOfMemory>
        ensures tallied { IfOk result (λ t. IsTallyOf specifications t []) }
        ensures covered { IfOk result (λ t. IsCovered program.now (option_copied source.entry) covers t.coverage []) }
    {
        let coverage = coverage_before(alloc, program, source, covers)?;
        let counts = Counts::start(alloc, specifications)?;
        Ok(Tally {
            counts,
            coverage,
            shortest: None,
        })
    }

    /// Counts how often each entry was performed in one run more, and each arm and body taken, where it is asked for. It asks that all runs together performed fewer than
    /// 2^128 actions, and that the program runs as its source declares.
    pub fn cover(&mut self, alloc: Global, judged: &JudgedRun) -> Result<(), OutOfMemory>
        requires { (p : Prog) × (source : Option Origin) × (asked : Bool) × (x : Subject) × (js : List Judged) × IsCovered p source asked self.old.coverage js
            × RunsAs p x × IsOriginOf source x × (length (all_of (performed_by_all js)) + length (performed_in (logged judged.now.log)) < 2 ^ 128) }
        ensures covered { OnOk result ((p : Prog) (source : Option Origin) (asked : Bool) (js : List Judged) → IsCovered p source asked self.old.coverage js
            → IsCovered p source asked self.new.coverage (js ++ judged_of judged.now ∷ [])) }
        ensures counts { self.new.counts ≡ self.old.counts }
        ensures shortest { self.new.shortest ≡ self.old.shortest }
    {
        let Some(coverage) = &mut self.coverage else {
            return Ok(());
        };
        coverage.add(alloc, performed_entries(&judged.log))
    }

    /// How often each entry was performed in all of them, and each arm and body taken, where it is asked for.
    pub fn coverage_text(&self, alloc: Global) -> Result<Option<String>, OutOfMemory>
        ensures { IfOk result (λ told. (p : Prog) (source : Option Origin) (asked : Bool) (x : Subject) (js : List Judged) → IsCovered p source asked self.now.coverage js
            → RunsAs p x → IsOriginOf source x → option_map string_bytes told ≡ told_coverage x asked (performed_by_all js)) }
    {
        let Some(coverage) = &self.coverage else {
            return Ok(None);
        };
        let text = coverage.text(alloc)?;
        Ok(Some(text))
    }

    /// Counts one run more, and keeps its log where that is the shortest one by now. It asks that what was counted are no more than 2^64 runs, to which as
    /// many specifications answered.
    pub fn add(&mut self, judged: JudgedRun)
        requires counted { (k : ℕ) × (js : List Judged) × IsCountOf k self.old.counts js × (length js ≤ 2 ^ 64) }
        requires answered { length judged.answers.items ≤ length self.old.counts.refusals.items }
        ensures tallied { (k : ℕ) (js : List Judged) → IsTallyOf k self.old js → IsTallyOf k self.new (js ++ judged_of judged ∷ []) }
        ensures coverage { self.new.coverage ≡ self.old.coverage }
    {
        self.counts.add(&judged);
        if !takes_its_place(&judged, &self.shortest) {
            return;
        }
        self.shortest = Some(judged.log);
    }
}

/// The counts of the program's entries and of what their effects take before any run, where they are asked for.
fn coverage_before<'a>(
    alloc: Global,
    program: &'a Program,
    source: Option<&'a Origin>,
    covers: bool,
) -> Result<Option<Coverage<'a>>, OutOfMemory>
    ensures { IfOk result (λ coverage. IsCovered program.now (option_copied source.entry) covers coverage []) }
{
    if !covers {
        return Ok(None);
    }
    let coverage = Coverage::start(alloc, program, source)?;
    Ok(Some(coverage))
}

/// Whether a run is refused, and its log is shorter than the shortest one before, if there is one.
fn takes_its_place(judged: &JudgedRun, shortest: &Option<Log>) -> bool
    ensures { IsTrue result ↔ ((spec.is_refused (judged_of judged.now) ≡ true)
        × IfSome (option_map logged shortest.now) (λ log. length (logged judged.now.log).entries < length log.entries)) }
{
    if !is_refused(judged) {
        return false;
    }
    is_shorter(&judged.log, shortest)
}

/// Whether a specification does not accept a run, or it breaks an invariant.
fn is_refused(judged: &JudgedRun) -> bool
    ensures { result ≡ spec.is_refused (judged_of judged.now) }
{
    let refused = some_refuse(&judged.answers);
    let broken = is_broken(judged.inspected);
    refused || broken
}

/// Whether one of these answers is a refusal.
fn some_refuse(answers: &[Option<End>]) -> bool
    ensures { result ≡ list_any is_some answers.now }
{
    answers.iter().any(|answer| answer.is_some())
}

/// Whether a log has fewer entries than another one, if there is one.
fn is_shorter(log: &Log, other: &Option<Log>) -> bool
    ensures { IsTrue result ↔ IfSome (option_map logged other.now) (λ o. length (logged log.now).entries < length o.entries) }
{
    match other {
        Some(before) => log.entries.len() < before.entries.len(),
        None => true,
    }
}
