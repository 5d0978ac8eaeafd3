//! Programs, compositions and objects of the bytes of a file.

ghost use Rattle.std.specs.Prelude.{◌≡◌, true, false, not, IfOk, IfErr};
ghost use Rattle.std.specs.Option.{option_copied, option_map_or};
ghost use Rattle.std.specs.Str.{bytes_eq};
ghost use Rattle.ioa_tree.specs.Hosts.{Hosted};
ghost use Rattle.ioa_compose.specs.Held.{composed_of};
ghost use Rattle.ioa_compose.specs.Simulates.{Simulates};
ghost use Rattle.ioa_compile.specs.Subjects.{Runs, RunsAs, Subject};
ghost use Rattle.ioa_serving.specs.Compiling.{IsCompiled, IsUncompiled};
ghost use Rattle.ioa_serving.specs.Failing.{IsRefusedGiven, IsRefusedSource};
ghost use Rattle.ioa_serving.specs.Headline.{Declares, IsFileOf, IsObjectOf, begins_object};

use crate::failure::Failure;
use ioa_check::check;
use ioa_compile::{Program, compile};
use ioa_compose::{Composition, compose};
use ioa_loader::read_object;
use ioa_object::write_object;
use ioa_syntax::{Refusal, parse};
use std::alloc::Global;

/// A composition of a source that is given as a text: the one of this name or, without one, the last. It stands for the hosts that the
/// source declares.
///
/// # Errors
/// The text is no source, the source is not well formed, or it has no composition of the name, or one that is refused; or
/// want of memory.
pub fn compose_text(
    alloc: Global,
    text: &[u8],
    composition: Option<&str>,
) -> Result<Composition, Refusal>
    ensures composes { IfOk result (λ c. (h : Hosted) × Declares text.now (option_copied composition.entry) h × Simulates h (composed_of c)) }
    ensures refused { IfErr result (λ r. IsRefusedSource text.now (option_copied composition.entry) r) }
{
    let source = parse(alloc, text)?;
    let checked = check(alloc, source)?;
    compose(alloc, &checked, composition)
}

/// The program of a composition of a source that is given as a text, as `compose_text` gives it.
///
/// # Errors
/// As those of `compose_text`.
pub fn compile_text(
    alloc: Global,
    text: &[u8],
    composition: Option<&str>,
) -> Result<Program, Refusal>
    ensures compiles { IfOk result (λ p. (h : Hosted) × Declares text.now (option_copied composition.entry) h × Runs p h) }
    ensures refused { IfErr result (λ r. IsRefusedSource text.now (option_copied composition.entry) r) }
{
    let composed = compose_text(alloc, text, composition)?;
    let program = compile(alloc, &composed)?;
    Ok(program)
}

/// Whether a file is an object: by its first byte.
pub fn is_object(bytes: &[u8]) -> bool
    ensures { result ≡ begins_object bytes.now }
{
    match bytes {
        [0x7F, ..] => true,
        _ => false,
    }
}

/// The program that a file gives: of a source that of a composition, as `compile_text` gives it; of an object its own.
///
/// # Errors
/// As those of `compile_text`; or the object is refused, or of another composition than the one of this name.
pub fn program_of(
    alloc: Global,
    bytes: &[u8],
    composition: Option<&str>,
) -> Result<Program, Failure>
    ensures gives { IfOk result (λ p. (s : Subject) × IsFileOf bytes.now (option_copied composition.entry) s × RunsAs p s) }
    ensures refused { IfErr result (λ e. IsRefusedGiven bytes.now (option_copied composition.entry) e) }
{
    if is_object(bytes) {
        return program_in(alloc, bytes, composition);
    }
    Ok(compile_text(alloc, bytes, composition)?)
}

/// The program of an object.
///
/// # Errors
/// The bytes are no object, or it is of another composition than the one of this name; or want of memory.
pub(crate) fn program_in(
    alloc: Global,
    bytes: &[u8],
    composition: Option<&str>,
) -> Result<Program, Failure>
    ensures gives { IfOk result (λ p. IsObjectOf bytes.now (option_copied composition.entry) p) }
    ensures refused { IfErr result (λ e. begins_object bytes.now ≡ true → IsRefusedGiven bytes.now (option_copied composition.entry) e) }
{
    let program = read_object(alloc, bytes)?;
    if is_other(composition, program.name()) {
        return Err(Failure::Refused(Refusal::NoComposition));
    }
    Ok(program)
}

/// Whether another composition than the one of this name is asked for.
fn is_other(asked: Option<&str>, name: &str) -> bool
    ensures { result ≡ option_map_or (λ x. not (bytes_eq x name.now)) (option_copied asked.entry) false }
{
    match asked {
        Some(other) => other != name,
        None => false,
    }
}

/// The object of a composition of a source that is given as a text.
///
/// # Errors
/// As those of `compile_text`; or the bytes are an object themselves.
pub fn object_of(alloc: Global, text: &[u8], composition: Option<&str>) -> Result<Vec<u8>, Failure>
    ensures compiles { IfOk result (λ object. IsCompiled text.now (option_copied composition.entry) object.items) }
    ensures refused { IfErr result (λ e. IsUncompiled text.now (option_copied composition.entry) e) }
{
    if is_object(text) {
        return Err(Failure::SourceWanted);
    }
    let program = compile_text(alloc, text, composition)?;
    Ok(write_object(alloc, &program)?)
}
