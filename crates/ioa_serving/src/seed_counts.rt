//! How many of the runs by many seeds ended in each way, how many each specification does not accept, and how many break an invariant.

ghost use Rattle.std.specs.Prelude.{◌≡◌, ◌==◌, ◌-◌, ◌<◌, ◌≤◌, ◌^◌, All, cond, false, is_some, length, map, not, option_map};
ghost use Rattle.std.specs.List.{list_any};
ghost use Rattle.std.specs.Option.{option_map_or};
ghost use Rattle.ioa_system.specs.Logs as logs;
ghost use Rattle.ioa_system.specs.Logs.{log_end};
ghost use Rattle.ioa_system.specs.Outcomes.{ending_of};
ghost use Rattle.ioa_inspect.specs.Breaking.{broken_of};
ghost use Rattle.ioa_serving.specs.Seeds.{with_refusals};

use crate::judged::JudgedRun;
use crate::status::Status;
use ioa_inspect::Broken;
use ioa_system::{End, LogEnd};
use std::alloc::{AllocError, Global};

/// How many runs ended in each of the two ways, how many each specification does not accept, and how many break an invariant.
#[derive(Drop)]
pub struct Counts {
    pub done: u128,
    pub fault: u128,
    pub refusals: Vec<u128>,
    pub broken: u128,
}

impl Counts {
    ghost use Rattle.std.specs.Prelude.{◌≡◌, ◌++◌, ◌<◌, ◌≤◌, ◌^◌, ◌∷◌, [], ℕ, List, IfOk, length};
    ghost use Rattle.ioa_serving.specs.SeedRuns.{IsCountOf, judged_of};
    ghost use Rattle.ioa_serving.specs.Seeds.{Judged, counts_status};

    /// The counts before the first run, for so many specifications.
    pub fn start(alloc: Global, specifications: usize) -> Result<Counts, AllocError>
        ensures { IfOk result (λ c. IsCountOf specifications c []) }
    {
        let refusals = vec![in alloc; 0u128; specifications]?;
        Ok(Counts {
            done: 0,
            fault: 0,
            refusals,
            broken: 0,
        })
    }

    /// Counts one run more. It asks that what was counted are no more than 2^64 runs, to which as many specifications answered.
    pub fn add(&mut self, judged: &JudgedRun)
        requires counted { (k : ℕ) × (js : List Judged) × IsCountOf k self.old js × (length js ≤ 2 ^ 64) }
        requires answered { length judged.now.answers.items ≤ length self.old.refusals.items }
        ensures { (k : ℕ) (js : List Judged) → IsCountOf k self.old js → IsCountOf k self.new (js ++ judged_of judged.now ∷ []) }
    {
        let faulted = is_faulted(judged.log.end);
        self.done += one_if(!faulted);
        self.fault += one_if(faulted);
        self.broken += one_if(is_broken(judged.inspected));
        add_refusals(&mut self.refusals, &judged.answers);
    }

    /// The exit status of these runs.
    pub fn status(&self) -> Status
        ensures { result ≡ counts_status self.now.fault self.now.refusals.items self.now.broken }
    {
        if some_counted(&self.refusals) || self.broken != 0 {
            Status::NotAccepted
        } else if self.fault == 0 {
            Status::Done
        } else {
            Status::Faulted
        }
    }
}

/// Whether one of these counts is not zero.
fn some_counted(counts: &[u128]) -> bool
    ensures { result ≡ list_any (λ n. not (n == 0)) counts.now }
{
    counts.iter().any(|count| *count != 0)
}

/// Whether a run ended by a fault.
fn is_faulted(end: LogEnd) -> bool
    ensures { result ≡ logs.is_fault (log_end end) }
{
    match end {
        LogEnd::Done(_) => false,
        LogEnd::Fault(_, _, _) => true,
    }
}

/// Whether an invariant is broken.
pub fn is_broken(inspected: Option<Option<Broken>>) -> bool
    ensures { result ≡ option_map_or is_some (option_map (option_map broken_of) inspected) false }
{
    match inspected {
        Some(Some(_)) => true,
        Some(None) | None => false,
    }
}

/// One where it is so, or else none.
fn one_if(so: bool) -> u128
    ensures { result ≡ cond so 1 0 }
{
    if so { 1 } else { 0 }
}

/// Counts for each specification one run more, where it does not accept it.
fn add_refusals(counts: &mut [u128], answers: &[Option<End>])
    requires roomy { All (λ n. n < 2 ^ 128 - 1) counts.old }
    requires answered { length answers.now ≤ length counts.old }
    ensures { counts.new ≡ with_refusals counts.old (map (option_map ending_of) answers.now) }
{
    for place in 0..answers.len() {
        if answers[place].is_some() {
            counts[place] += 1;
        }
    }
}
