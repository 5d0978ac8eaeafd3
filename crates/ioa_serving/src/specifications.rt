//! Specifications by which streams are watched: compositions of a source, of which all is seen.

ghost use Rattle.std.specs.Prelude.{◌≡◌, ◌⊎◌, All, IfOk, IfErr, false};
ghost use Rattle.std.specs.List.{AllZip};
ghost use Rattle.ioa_tree.specs.View.{tree_of};
ghost use Rattle.ioa_tree.specs.WellFormed.{WellFormed};
ghost use Rattle.ioa_monitor.specs.Monitoring.{hides};
ghost use Rattle.ioa_request.specs.Pasted.{texts};
ghost use Rattle.ioa_serving.specs.declared.failure.Failure.{Failure};
ghost use Rattle.ioa_serving.specs.Headline.{Spells};
ghost use Rattle.ioa_serving.specs.Watching.{AreSpecified, IsFirstUnspecified, IsNoSource, IsNoSpecification, IsUnwatched, Specifies};

use crate::compile::is_object;
use crate::failure::Failure;
use ioa_check::{Checked, check};
use ioa_compile::{Program, compile};
use ioa_compose::compose;
use ioa_monitor::hides_actions;
use ioa_syntax::{Refusal, parse};
use std::alloc::Global;

/// A source, and its specifications.
#[derive(Drop)]
pub(crate) struct Specified {
    pub checked: Checked,
    pub programs: Vec<Program>,
}

/// The specifications of these names, by the bytes of a file.
///
/// # Errors
/// `SourceWanted` where the bytes are an object; `Refused` where they are no source, the source is not well formed, or it has no composition of one of the
/// names, or one that is refused; `SpecHasInternal` where not all that one does is seen; or want of memory. The first of the names that is no
/// specification's is told.
pub(crate) fn specified_in(
    alloc: Global,
    text: &[u8],
    compositions: &[&str],
) -> Result<Specified, Failure>
    ensures specified { IfOk result (λ s. AreSpecified text.now (texts compositions.now) (tree_of s.checked) s.programs.items) }
    ensures open { IfOk result (λ s. All (λ p. hides p ≡ false) s.programs.items) }
    ensures refused { IfErr result (λ e. IsUnwatched text.now (texts compositions.now) e) }
{
    if is_object(text) {
        return Err(Failure::SourceWanted);
    }
    let checked = checked_source(alloc, text)?;
    let programs = specifications(alloc, &checked, compositions)?;
    Ok(Specified { checked, programs })
}

/// A source that is given as a text, checked.
pub(crate) fn checked_source(alloc: Global, text: &[u8]) -> Result<Checked, Refusal>
    ensures spelled { IfOk result (λ c. Spells text.now (tree_of c)) }
    ensures well_formed { IfOk result (λ c. WellFormed (tree_of c)) }
    ensures refused { IfErr result (λ r. IsNoSource text.now r) }
{
    let source = parse(alloc, text)?;
    let checked = check(alloc, source)?;
    Ok(checked)
}

/// The programs of the compositions of these names, in their order.
pub(crate) fn specifications(
    alloc: Global,
    checked: &Checked,
    compositions: &[&str],
) -> Result<Vec<Program>, Failure>
    ensures specify { IfOk result (λ programs. AllZip (Specifies (tree_of checked.now)) (texts compositions.now) programs.items) }
    ensures open { IfOk result (λ programs. All (λ p. hides p ≡ false) programs.items) }
    ensures refused { IfErr result (λ e. (IsFirstUnspecified (tree_of checked.now) (texts compositions.now) e) ⊎ (e ≡ Failure.OutOfMemory)) }
{
    let mut programs = Vec::new(alloc);
    for composition in compositions {
        let program = specification(alloc, checked, composition)?;
        programs.push(program)?;
    }
    Ok(programs)
}

/// The program of the composition of this name.
fn specification(alloc: Global, checked: &Checked, composition: &str) -> Result<Program, Failure>
    ensures specifies { IfOk result (λ p. Specifies (tree_of checked.now) composition.now p) }
    ensures open { IfOk result (λ p. hides p ≡ false) }
    ensures refused { IfErr result (λ e. IsNoSpecification (tree_of checked.now) composition.now e) }
{
    let composed = compose(alloc, checked, Some(composition))?;
    let program = compile(alloc, &composed)?;
    if hides_actions(&program) {
        return Err(Failure::SpecHasInternal);
    }
    Ok(program)
}
