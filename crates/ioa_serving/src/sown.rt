//! What runs by many seeds are given: what each of them is given, and the specifications and the invariants that are asked.

ghost use Rattle.std.specs.Prelude.{◌≡◌, ◌⊎◌, ◌↔◌, [], false, IsTrue, IfOk, IfErr};
ghost use Rattle.std.specs.List.{AllZip};
ghost use Rattle.std.specs.Option.{option_copied};
ghost use Rattle.ioa_tree.specs.Hosts.{Hosted};
ghost use Rattle.ioa_tree.specs.View.{tree_of};
ghost use Rattle.ioa_compile.specs.Subjects.{Runs, RunsAs, Subject, of_hosts};
ghost use Rattle.ioa_coverage.specs.Covered.{IsOriginOf};
ghost use Rattle.ioa_request.specs.Pasted.{texts};
ghost use Rattle.ioa_serving.specs.Alone.{IsUnrun};
ghost use Rattle.ioa_serving.specs.Failing.{IsRefusedGiven};
ghost use Rattle.ioa_serving.specs.Headline.{IsFileOf, begins_object};
ghost use Rattle.ioa_serving.specs.SeedRuns.{HasSown, IsSpecification, StandsFor, asked};
ghost use Rattle.ioa_serving.specs.Seeds.{IsUnmonitored};
ghost use Rattle.ioa_serving.specs.Watching.{IsFirstUnspecified, IsUnwatched, Specifies};

use crate::compile::{is_object, program_in};
use crate::failure::Failure;
use crate::ready::{Ready, ready_with};
use crate::sourced::{Sourced, compiled_in, with_source};
use crate::specifications::{checked_source, specifications};
use crate::store::Store;
use ioa_check::Checked;
use ioa_compile::Program;
use ioa_compose::Composition;
use ioa_request::Seeds;
use std::alloc::Global;

/// All that is read for runs by many seeds.
#[derive(Drop)]
pub struct Sown {
    /// What each run is given, but for its words.
    pub ready: Ready,
    /// The specifications that are asked whether they accept each run.
    pub specifications: Vec<Program>,
    /// Whether it is asked if the states of each run keep the invariants of the source.
    pub invariants: bool,
}

/// Reads what runs by many seeds are given. Nothing is run.
///
/// # Errors
/// As those of a single run; or where specifications or invariants are asked, `SourceWanted`, and of the first specification that is none `Refused` and
/// `SpecHasInternal`.
pub fn load_sown<F: Store>(alloc: Global, seeds: &Seeds<'_>, store: &F) -> Result<Sown, Failure>
    ensures sown { IfOk result (λ w. HasSown (F.holds store.now) seeds.now w) }
    ensures refused { IfErr result (λ e. IsUnrun (F.holds store.now) (F.lacks store.now) seeds.now.run e ⊎ IsUnmonitored (F.holds store.now) seeds.now e) }
{
    let text = store.load(alloc, seeds.run.file)?;
    let programs = programs_of(
        alloc,
        text.as_slice(),
        seeds.run.composition,
        seeds.monitors,
        seeds.invariants,
    )?;
    let ready = ready_with(alloc, &seeds.run, programs.sourced, store)?;
    Ok(Sown {
        ready,
        specifications: programs.specifications,
        invariants: seeds.invariants,
    })
}

/// The composition whose invariants are asked, where they are asked for.
pub(crate) fn asked_of(sown: &Sown) -> Option<&Composition>
    ensures { option_copied result ≡ asked sown.now.invariants sown.now.ready.source }
{
    if !sown.invariants {
        return None;
    }
    match &sown.ready.source {
        Some(source) => Some(&source.composition),
        None => None,
    }
}

/// The program that is run, with its source, and those of the specifications.
#[derive(Drop)]
struct Programs {
    sourced: Sourced,
    specifications: Vec<Program>,
}

/// The program that a file gives, as `program_of` gives it, with its source, and those of the specifications of these names, of which a source has to have
/// compositions. A source is checked once.
///
/// # Errors
/// As those of `program_of`; or where there are names, as those of `specified_in`; or `SourceWanted` where invariants are asked of an object.
fn programs_of(
    alloc: Global,
    text: &[u8],
    composition: Option<&str>,
    monitors: &[&str],
    invariants: bool,
) -> Result<Programs, Failure>
    ensures gives { IfOk result (λ p. (s : Subject) × IsFileOf text.now (option_copied composition.entry) s × RunsAs p.sourced.program s × IsOriginOf p.sourced.source s
        × StandsFor invariants s (asked invariants p.sourced.source)) }
    ensures specified { IfOk result (λ p. AllZip (IsSpecification text.now) (texts monitors.now) p.specifications.items) }
    ensures refused { IfErr result (λ e. IsRefusedGiven text.now (option_copied composition.entry) e
        ⊎ (((texts monitors.now ≡ []) × (invariants ≡ false) → ⊥) × IsUnwatched text.now (texts monitors.now) e)) }
{
    if !is_object(text) {
        return programs_in(alloc, text, composition, monitors);
    }
    if !asks_nothing(monitors, invariants) {
        return Err(Failure::SourceWanted);
    }
    let program = program_in(alloc, text, composition)?;
    Ok(Programs {
        sourced: Sourced {
            program,
            source: None,
        },
        specifications: Vec::new(alloc),
    })
}

/// Whether neither specifications nor invariants are asked.
fn asks_nothing(monitors: &[&str], invariants: bool) -> bool
    ensures { IsTrue result ↔ ((texts monitors.now ≡ []) × (invariants ≡ false)) }
{
    if invariants {
        return false;
    }
    monitors.is_empty()
}

/// The same of a source.
fn programs_in(
    alloc: Global,
    text: &[u8],
    composition: Option<&str>,
    monitors: &[&str],
) -> Result<Programs, Failure>
    requires { begins_object text.now ≡ false }
    ensures gives { IfOk result (λ p. (h : Hosted) × IsFileOf text.now (option_copied composition.entry) (of_hosts h) × Runs p.sourced.program h × IsOriginOf p.sourced.source (of_hosts h)) }
    ensures specified { IfOk result (λ p. AllZip (IsSpecification text.now) (texts monitors.now) p.specifications.items) }
    ensures refused { IfErr result (λ e. IsRefusedGiven text.now (option_copied composition.entry) e
        ⊎ ((texts monitors.now ≡ [] → ⊥) × IsUnwatched text.now (texts monitors.now) e)) }
{
    let checked = checked_source(alloc, text)?;
    let compiled = compiled_in(alloc, &checked, composition)?;
    let specifications = asked_specifications(alloc, &checked, monitors)?;
    Ok(Programs {
        sourced: with_source(checked, compiled),
        specifications,
    })
}

/// The specifications of these names, where there are names.
fn asked_specifications(
    alloc: Global,
    checked: &Checked,
    monitors: &[&str],
) -> Result<Vec<Program>, Failure>
    ensures specify { IfOk result (λ programs. AllZip (Specifies (tree_of checked.now)) (texts monitors.now) programs.items) }
    ensures refused { IfErr result (λ e. (texts monitors.now ≡ [] → ⊥) × (IsFirstUnspecified (tree_of checked.now) (texts monitors.now) e ⊎ (e ≡ Failure.OutOfMemory))) }
{
    if monitors.is_empty() {
        return Ok(Vec::new(alloc));
    }
    specifications(alloc, checked, monitors)
}
