//! Programs with the sources that declare them, by which more is told of runs than the programs alone tell.

ghost use Rattle.std.specs.Prelude.{◌≡◌, ◌⊎◌, Some, IfOk, IfErr, false};
ghost use Rattle.std.specs.Option.{option_copied};
ghost use Rattle.ioa_lex.specs.declared.refusal.Refusal.TheVariants as refusals;
ghost use Rattle.ioa_tree.specs.Compositions.{picked};
ghost use Rattle.ioa_tree.specs.Hosts.{Hosted, IsHosted};
ghost use Rattle.ioa_tree.specs.Tree.{CompositionTree};
ghost use Rattle.ioa_tree.specs.View.{tree_of};
ghost use Rattle.ioa_compose.specs.Held.{composed_of};
ghost use Rattle.ioa_compose.specs.Simulates.{Simulates};
ghost use Rattle.ioa_compile.specs.Subjects.{Runs, RunsAs, Subject, of_hosts};
ghost use Rattle.ioa_coverage.specs.Covered.{IsOriginOf};
ghost use Rattle.ioa_serving.specs.Failing.{IsRefusedGiven, IsRefusedNamed};
ghost use Rattle.ioa_serving.specs.Headline.{IsFileOf, begins_object};

use crate::compile::{is_object, program_in};
use crate::failure::Failure;
use crate::specifications::checked_source;
use ioa_check::Checked;
use ioa_compile::{Program, compile};
use ioa_compose::{Composition, compose};
use ioa_coverage::Origin;
use ioa_syntax::Refusal;
use std::alloc::Global;

/// A program and, where a source declares it, that source.
#[derive(Drop)]
pub struct Sourced {
    pub program: Program,
    /// Of an object there is none.
    pub source: Option<Origin>,
}

/// The program that a file gives, as `program_of` gives it, with its source. A source is parsed, checked, composed and compiled once.
///
/// # Errors
/// As those of `program_of`.
pub(crate) fn sourced_of(
    alloc: Global,
    bytes: &[u8],
    composition: Option<&str>,
) -> Result<Sourced, Failure>
    ensures gives { IfOk result (λ p. (s : Subject) × IsFileOf bytes.now (option_copied composition.entry) s × RunsAs p.program s × IsOriginOf p.source s) }
    ensures refused { IfErr result (λ e. IsRefusedGiven bytes.now (option_copied composition.entry) e) }
{
    if is_object(bytes) {
        let program = program_in(alloc, bytes, composition)?;
        return Ok(Sourced {
            program,
            source: None,
        });
    }
    sourced_in(alloc, bytes, composition)
}

/// The same of a source.
fn sourced_in(alloc: Global, text: &[u8], composition: Option<&str>) -> Result<Sourced, Failure>
    requires { begins_object text.now ≡ false }
    ensures gives { IfOk result (λ p. (s : Subject) × IsFileOf text.now (option_copied composition.entry) s × RunsAs p.program s × IsOriginOf p.source s) }
    ensures refused { IfErr result (λ e. IsRefusedGiven text.now (option_copied composition.entry) e) }
{
    let checked = checked_source(alloc, text)?;
    let compiled = compiled_in(alloc, &checked, composition)?;
    Ok(with_source(checked, compiled))
}

/// A composition, and its program.
#[derive(Drop)]
pub(crate) struct Compiled {
    pub program: Program,
    pub composition: Composition,
}

/// A composition of a checked source, and its program: the one of this name or, without one, the last.
pub(crate) fn compiled_in(
    alloc: Global,
    checked: &Checked,
    composition: Option<&str>,
) -> Result<Compiled, Refusal>
    ensures runs { IfOk result (λ p. (t : CompositionTree) × (h : Hosted) × (picked (tree_of checked.now) (option_copied composition.entry) ≡ Some t)
        × IsHosted (tree_of checked.now) t h × Runs p.program h × Simulates h (composed_of p.composition)) }
    ensures refused { IfErr result (λ r. (r ≡ refusals.OutOfMemory) ⊎ IsRefusedNamed (tree_of checked.now) (option_copied composition.entry) r) }
{
    let composition = compose(alloc, checked, composition)?;
    let program = compile(alloc, &composition)?;
    Ok(Compiled {
        program,
        composition,
    })
}

/// The program with its source.
pub(crate) fn with_source(checked: Checked, compiled: Compiled) -> Sourced
    ensures program { result.program ≡ compiled.program }
    ensures source { (t : CompositionTree) (h : Hosted) → IsHosted (tree_of checked) t h → Simulates h (composed_of compiled.composition) → IsOriginOf result.source (of_hosts h) }
{
    let Compiled {
        program,
        composition,
    } = compiled;
    Sourced {
        program,
        source: Some(Origin {
            checked,
            composition,
        }),
    }
}
