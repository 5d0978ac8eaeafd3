//! What there is to say of a refusal that no line of the file itself breaks: of its composition, at a component or a hidden name; that there is none; or of what it
//! does unseen.

ghost use Rattle.std.specs.Prelude.{◌≡◌, ◌⊎◌, ◌++◌, Option, Some, IfOk, IfSome, OnOk, true};
ghost use Rattle.std.specs.List.{Contains};
ghost use Rattle.std.specs.Option.{option_copied};
ghost use Rattle.std.specs.String.{string_bytes};
ghost use Rattle.ioa_value.specs.Actions.{Name};
ghost use Rattle.ioa_request.specs.Pasted.{texts};
ghost use Rattle.ioa_serving.specs.FailureCodes.{refusal_code};
ghost use Rattle.ioa_serving.specs.Headline.{begins_object};
ghost use Rattle.ioac.specs.Composed as spec;
ghost use Rattle.ioac.specs.Places as places;
ghost use Rattle.ioac.specs.Refused.{TellsComposition, TellsCompositionIn, TellsMissing, TellsMissingIn, TellsUnseen, TellsUnseenIn};
ghost use Rattle.ioac.specs.Remarks.{IsChecking, jump_text};
ghost use Rattle.ioac.specs.UnseenLines as lines;

use crate::remarks::ended::loaded;
use crate::remarks::heads::{put_flat, put_jump};
use crate::remarks::heard::program_in;
use crate::remarks::nameless;
use crate::remarks::places::{file_of, source_of};
use crate::remarks::sources::{Placed, checked_in, first_refused, picked, placed_in, refusal_of};
use crate::remarks::unseen::{Unseen, unseen_in, unseen_words};
use crate::remarks::unseen_lines::line_of_unseen;
use ioa_causes::composing::{line_of_refusal, missing_words, refused_words};
use ioa_causes::words::general;
use ioa_compile::Program;
use ioa_request::{Code, Request, Seeds};
use ioa_serving::{Failure, Store, is_object};
use ioa_syntax::Refusal;
use ioa_tree::Assembly;
use ioa_value::OutOfMemory;
use std::alloc::Global;

/// What there is to say of a line of a source.
#[derive(Drop)]
struct Said {
    line: usize,
    words: String,
}

/// Puts the line on which the composition names what it is refused for, and why.
pub fn put_refused<F: Store>(
    alloc: Global,
    text: &mut String,
    asked: &Request<'_>,
    failure: &Failure,
    store: &F,
) -> Result<(), OutOfMemory>
    ensures { OnOk result (TellsComposition (F.holds store.now) (F.lacks store.now) (places.file_of asked.now) asked.now failure.now (string_bytes text.old) (string_bytes text.new)) }
{
    let Some(name) = file_of(asked) else {
        return Ok(());
    };
    let source = loaded(alloc, name, store)?;
    put_refused_in(alloc, text, asked, failure, name, source.as_slice())
}

/// Puts the same of what a file holds.
fn put_refused_in(
    alloc: Global,
    text: &mut String,
    asked: &Request<'_>,
    failure: &Failure,
    name: &str,
    source: &[u8],
) -> Result<(), OutOfMemory>
    ensures { OnOk result (TellsCompositionIn asked.now failure.now name.now source.now (string_bytes text.old) (string_bytes text.new)) }
{
    let code = failure.code();
    match refused_in(alloc, asked, failure, source)? {
        Some(said) => put_said(alloc, text, name, code, &said, source),
        None => Ok(()),
    }
}

fn put_said(
    alloc: Global,
    text: &mut String,
    name: &str,
    code: Code,
    said: &Said,
    source: &[u8],
) -> Result<(), OutOfMemory>
    ensures { OnOk result (string_bytes text.new ≡ string_bytes text.old ++ jump_text name.now said.now.line code (string_bytes said.now.words) source.now) }
{
    put_jump(
        alloc,
        text,
        name,
        said.line,
        code,
        said.words.as_str(),
        source,
    )
}

/// Where a source has the composition that is refused, and why it is. None, where the source is refused itself, or is another one by now.
fn refused_in(
    alloc: Global,
    asked: &Request<'_>,
    failure: &Failure,
    source: &[u8],
) -> Result<Option<Said>, OutOfMemory>
    ensures { IfOk result (λ found. IfSome found (λ said. spec.IsRefusedAt asked.now source.now failure.now said.line (string_bytes said.words))) }
{
    match placed_in(alloc, source)? {
        Some(placed) => asked_in(alloc, asked, failure, &placed),
        None => Ok(None),
    }
}

/// Where the composition is refused of which a request asks: of a check the first one that is.
fn asked_in(
    alloc: Global,
    asked: &Request<'_>,
    failure: &Failure,
    placed: &Placed,
) -> Result<Option<Said>, OutOfMemory>
    ensures { IfOk result (λ found. IfSome found (λ said. spec.IsRefusedFor asked.now placed.now.tokens.items placed.now.checked failure.now said.line (string_bytes said.words))) }
{
    if is_checking(asked) {
        return first_in(alloc, failure, placed);
    }
    if let Request::Watch { compositions, .. } = asked {
        return watched_in(alloc, compositions, failure, placed);
    }
    if let Request::Seeds(seeds) = asked {
        return sown_in(alloc, seeds, failure, placed);
    }
    let name = composition_of(asked);
    picked_in(alloc, failure, placed, name)
}

/// Where the composition of runs by many seeds is refused; or where that is not, the first of their specifications that is.
fn sown_in(
    alloc: Global,
    seeds: &Seeds<'_>,
    failure: &Failure,
    placed: &Placed,
) -> Result<Option<Said>, OutOfMemory>
    ensures { IfOk result (λ found. IfSome found (λ said. (name : Option Name) × ((name ≡ option_copied seeds.now.run.composition) ⊎ ((x : Name) × Contains (texts seeds.now.monitors.now) x × (name ≡ Some x)))
        × spec.IsRefusedAs placed.now.tokens.items placed.now.checked name failure.now said.line (string_bytes said.words))) }
{
    if let Some(said) = picked_in(alloc, failure, placed, seeds.run.composition)? {
        return Ok(Some(said));
    }
    watched_in(alloc, seeds.monitors, failure, placed)
}

/// Where the first of these compositions is refused that is, by this failure.
fn watched_in(
    alloc: Global,
    compositions: &[&str],
    failure: &Failure,
    placed: &Placed,
) -> Result<Option<Said>, OutOfMemory>
    ensures { IfOk result (λ found. IfSome found (λ said. (name : Name) × Contains (texts compositions.now) name × spec.IsRefusedAs placed.now.tokens.items placed.now.checked (Some name) failure.now said.line (string_bytes said.words))) }
{
    for composition in compositions {
        if let Some(said) = picked_in(alloc, failure, placed, Some(*composition))? {
            return Ok(Some(said));
        }
    }
    Ok(None)
}

/// Whether a request checks each composition.
fn is_checking(asked: &Request<'_>) -> bool
    ensures { result ≡ true → IsChecking asked.now }
{
    match asked {
        Request::Check { .. } => true,
        _ => false,
    }
}

/// Where the first composition is refused that is.
fn first_in(alloc: Global, failure: &Failure, placed: &Placed) -> Result<Option<Said>, OutOfMemory>
    ensures { IfOk result (λ found. IfSome found (λ said. (name : Option Name) × spec.IsRefusedAs placed.now.tokens.items placed.now.checked name failure.now said.line (string_bytes said.words))) }
{
    match first_refused(alloc, &placed.checked)? {
        Some(name) => picked_in(alloc, failure, placed, Some(name)),
        None => Ok(None),
    }
}

/// Where the composition of this name is refused, or the last one where no name is given. None, where it is not.
fn picked_in(
    alloc: Global,
    failure: &Failure,
    placed: &Placed,
    name: Option<&str>,
) -> Result<Option<Said>, OutOfMemory>
    ensures { IfOk result (λ found. IfSome found (λ said. spec.IsRefusedAs placed.now.tokens.items placed.now.checked (option_copied name.entry) failure.now said.line (string_bytes said.words))) }
{
    let declarations = placed.checked.declarations();
    let Some(assembly) = picked(declarations, name) else {
        return Ok(None);
    };
    let Some(refusal) = refusal_of(alloc, &placed.checked, name)? else {
        return Ok(None);
    };
    said_of(alloc, failure, placed, assembly, refusal)
}

/// Where a composition names what a refusal tells of, and how it is told. None, where the failure has another code.
fn said_of(
    alloc: Global,
    failure: &Failure,
    placed: &Placed,
    assembly: &Assembly,
    refusal: Refusal,
) -> Result<Option<Said>, OutOfMemory>
    ensures { IfOk result (λ found. IfSome found (λ said. spec.TellsRefused placed.now.tokens.items placed.now.checked assembly.now refusal failure.now said.line (string_bytes said.words))) }
{
    let said = said_on(alloc, failure, placed, assembly, &refusal);
    let own = code_of(refusal);
    let code = failure.code();
    if is_same_code(own, code) {
        return said;
    }
    Ok(None)
}

/// The code of a refusal.
fn code_of(refusal: Refusal) -> Code
    ensures { result ≡ refusal_code refusal }
{
    let failure = Failure::Refused(refusal);
    failure.code()
}

fn is_same_code(code: Code, other: Code) -> bool
    ensures { result ≡ true → code ≡ other }
{
    code == other
}

/// The line on which a composition names what a refusal tells of, and how it is told. None, where it names no such thing.
fn said_on(
    alloc: Global,
    failure: &Failure,
    placed: &Placed,
    assembly: &Assembly,
    refusal: &Refusal,
) -> Result<Option<Said>, OutOfMemory>
    ensures { IfOk result (λ found. IfSome found (λ said. spec.TellsOn placed.now.tokens.items placed.now.checked assembly.now refusal.now failure.now said.line (string_bytes said.words))) }
{
    match line_of_refusal(placed.tokens.as_slice(), assembly, refusal) {
        Some(line) => {
            let line = line as usize;
            let words = how_refused(alloc, failure, placed, assembly, refusal)?;
            Ok(Some(Said { line, words }))
        }
        None => Ok(None),
    }
}

/// How a composition is refused, or what the failure's code says in general.
fn how_refused(
    alloc: Global,
    failure: &Failure,
    placed: &Placed,
    assembly: &Assembly,
    refusal: &Refusal,
) -> Result<String, OutOfMemory>
    ensures { IfOk result (λ words. spec.TellsHow placed.now.tokens.items placed.now.checked assembly.now refusal.now failure.now (string_bytes words)) }
{
    let tokens = placed.tokens.as_slice();
    match refused_words(alloc, &placed.checked, tokens, assembly, refusal)? {
        Some(words) => Ok(words),
        None => Ok(general(alloc, failure.code())?),
    }
}

/// The composition that a request names.
fn composition_of<'a>(asked: &Request<'a>) -> Option<&'a str>
    ensures { option_copied result ≡ spec.composition_of asked.now }
{
    match source_of(asked) {
        Some((_, composition)) => composition,
        None => None,
    }
}

/// The composition that a request names; of the specifications of a watch, or of runs by many seeds of a composition that is not refused, the first that is
/// refused, or does something unseen.
fn composition_at_fault<'a>(
    alloc: Global,
    asked: &Request<'a>,
    bytes: &[u8],
) -> Result<Option<&'a str>, OutOfMemory>
    ensures { IfOk result (λ composition. spec.IsOf asked.now (option_copied composition)) }
{
    if let Request::Watch { compositions, .. } = asked
        && let Some(name) = first_at_fault(alloc, compositions, bytes)?
    {
        return Ok(Some(name));
    }
    if let Request::Seeds(seeds) = asked
        && program_in(alloc, bytes, seeds.run.composition)?.is_some()
        && let Some(name) = first_at_fault(alloc, seeds.monitors, bytes)?
    {
        return Ok(Some(name));
    }
    Ok(composition_of(asked))
}

/// The first of these compositions that is refused, or does something unseen. None, where none is by now.
fn first_at_fault<'a>(
    alloc: Global,
    compositions: &[&'a str],
    bytes: &[u8],
) -> Result<Option<&'a str>, OutOfMemory>
    ensures { IfOk result (λ found. IfSome found (λ name. Contains (texts compositions.now) name.now)) }
{
    for composition in compositions {
        if is_at_fault(alloc, composition, bytes)? {
            return Ok(Some(*composition));
        }
    }
    Ok(None)
}

/// Whether a composition is refused, or does something unseen.
fn is_at_fault(alloc: Global, composition: &str, bytes: &[u8]) -> Result<bool, OutOfMemory> {
    match program_in(alloc, bytes, Some(composition))? {
        Some(program) => Ok(unseen_in(&program).is_some()),
        None => Ok(true),
    }
}

/// Puts that there is no such composition, and which there are.
pub fn put_missing<F: Store>(
    alloc: Global,
    text: &mut String,
    asked: &Request<'_>,
    code: Code,
    store: &F,
) -> Result<(), OutOfMemory>
    ensures { OnOk result (TellsMissing (F.holds store.now) (F.lacks store.now) (places.file_of asked.now) asked.now code (string_bytes text.old) (string_bytes text.new)) }
{
    let Some(name) = file_of(asked) else {
        return Ok(());
    };
    let bytes = loaded(alloc, name, store)?;
    put_missing_in(alloc, text, asked, code, name, bytes.as_slice())
}

/// Puts the same of what a file holds.
fn put_missing_in(
    alloc: Global,
    text: &mut String,
    asked: &Request<'_>,
    code: Code,
    name: &str,
    bytes: &[u8],
) -> Result<(), OutOfMemory>
    ensures { OnOk result (TellsMissingIn asked.now code name.now bytes.now (string_bytes text.old) (string_bytes text.new)) }
{
    match missing_in(alloc, asked, bytes)? {
        Some(words) => put_flat(text, name, code, words.as_str()),
        None => Ok(()),
    }
}

/// That a file has no such composition, and which it has. None, where it is refused.
fn missing_in(
    alloc: Global,
    asked: &Request<'_>,
    bytes: &[u8],
) -> Result<Option<String>, OutOfMemory>
    ensures { IfOk result (λ found. IfSome found (λ words. spec.IsMissingFrom asked.now bytes.now (string_bytes words))) }
{
    if is_object(bytes) {
        return object_words(alloc, bytes);
    }
    source_words(alloc, asked, bytes)
}

/// That a source has no such composition, and which it has. None, where it is refused.
fn source_words(
    alloc: Global,
    asked: &Request<'_>,
    source: &[u8],
) -> Result<Option<String>, OutOfMemory>
    ensures { IfOk result (λ found. IfSome found (λ words. spec.IsMissingIn asked.now source.now (string_bytes words))) }
{
    match checked_in(alloc, source)? {
        Some(checked) => {
            let composition = composition_at_fault(alloc, asked, source)?;
            let declarations = checked.declarations();
            Ok(Some(missing_words(alloc, declarations, composition)?))
        }
        None => Ok(None),
    }
}

/// Of which composition an object is. None, where it is refused.
fn object_words(alloc: Global, object: &[u8]) -> Result<Option<String>, OutOfMemory>
    requires { begins_object object.now ≡ true }
    ensures { IfOk result (λ found. IfSome found (λ words. spec.IsOtherIn object.now (string_bytes words))) }
{
    match nameless::program_in(alloc, object, None)? {
        Some(program) => Ok(Some(own_words(alloc, program.name())?)),
        None => Ok(None),
    }
}

fn own_words(alloc: Global, name: &str) -> Result<String, OutOfMemory>
    ensures { IfOk result (λ words. string_bytes words ≡ spec.own_words name.now) }
{
    Ok(format!(in alloc; "the object is of the composition `{name}`")?)
}

/// Puts what the composition does unseen, so that it is no monitor: of a source with the line that declares it.
pub fn put_unseen<F: Store>(
    alloc: Global,
    text: &mut String,
    asked: &Request<'_>,
    code: Code,
    store: &F,
) -> Result<(), OutOfMemory>
    ensures { OnOk result (TellsUnseen (F.holds store.now) (F.lacks store.now) (places.file_of asked.now) asked.now code (string_bytes text.old) (string_bytes text.new)) }
{
    let Some(name) = file_of(asked) else {
        return Ok(());
    };
    let bytes = loaded(alloc, name, store)?;
    put_unseen_in(alloc, text, asked, code, name, bytes.as_slice())
}

/// Puts the same of what a file holds.
fn put_unseen_in(
    alloc: Global,
    text: &mut String,
    asked: &Request<'_>,
    code: Code,
    name: &str,
    bytes: &[u8],
) -> Result<(), OutOfMemory>
    ensures { OnOk result (TellsUnseenIn asked.now code name.now bytes.now (string_bytes text.old) (string_bytes text.new)) }
{
    match hiding_of(alloc, asked, bytes)? {
        Some(hiding) => put_hiding(alloc, text, name, code, &hiding, bytes),
        None => Ok(()),
    }
}

/// What a composition does unseen, in words, and where a source declares it.
#[derive(Drop)]
struct Hiding {
    line: Option<usize>,
    words: String,
}

fn put_hiding(
    alloc: Global,
    text: &mut String,
    name: &str,
    code: Code,
    hiding: &Hiding,
    bytes: &[u8],
) -> Result<(), OutOfMemory>
    ensures { OnOk result (string_bytes text.new ≡ string_bytes text.old ++ lines.line_text name.now hiding.now.line code (string_bytes hiding.now.words) bytes.now) }
{
    put_words(
        alloc,
        text,
        name,
        hiding.line,
        code,
        hiding.words.as_str(),
        bytes,
    )
}

/// Puts words of this line, or of the file alone.
fn put_words(
    alloc: Global,
    text: &mut String,
    name: &str,
    line: Option<usize>,
    code: Code,
    words: &str,
    bytes: &[u8],
) -> Result<(), OutOfMemory>
    ensures { OnOk result (string_bytes text.new ≡ string_bytes text.old ++ lines.line_text name.now line code words.now bytes.now) }
{
    match line {
        Some(line) => put_jump(alloc, text, name, line, code, words, bytes),
        None => put_flat(text, name, code, words),
    }
}

/// What the composition of a file does unseen. None, where the file is refused, or is another one by now.
fn hiding_of(
    alloc: Global,
    asked: &Request<'_>,
    bytes: &[u8],
) -> Result<Option<Hiding>, OutOfMemory>
    ensures { IfOk result (λ found. IfSome found (λ h. lines.IsUnseenAt asked.now bytes.now h.line (string_bytes h.words))) }
{
    let composition = composition_at_fault(alloc, asked, bytes)?;
    match program_in(alloc, bytes, composition)? {
        Some(program) => hiding_in(alloc, &program, bytes, composition),
        None => Ok(None),
    }
}

/// What the program of a file does unseen.
fn hiding_in(
    alloc: Global,
    program: &Program,
    bytes: &[u8],
    composition: Option<&str>,
) -> Result<Option<Hiding>, OutOfMemory>
    ensures { IfOk result (λ found. IfSome found (λ h. lines.TellsUnseenOf program.now bytes.now (option_copied composition.entry) h.line (string_bytes h.words))) }
{
    match unseen_in(program) {
        Some(unseen) => hiding_at(alloc, bytes, composition, unseen),
        None => Ok(None),
    }
}

/// What is unseen, with the line of a source that declares it. None, where no line does.
fn hiding_at(
    alloc: Global,
    bytes: &[u8],
    composition: Option<&str>,
    unseen: Unseen<'_>,
) -> Result<Option<Hiding>, OutOfMemory>
    ensures { IfOk result (λ found. IfSome found (λ h. lines.TellsUnseenOn bytes.now (option_copied composition.entry) unseen.entry h.line (string_bytes h.words))) }
{
    let words = unseen_words(alloc, unseen)?;
    if is_object(bytes) {
        return Ok(Some(Hiding { line: None, words }));
    }
    match line_in(alloc, bytes, composition, unseen)? {
        Some(line) => Ok(Some(Hiding {
            line: Some(line),
            words,
        })),
        None => Ok(None),
    }
}

/// The line on which a source declares what is unseen.
fn line_in(
    alloc: Global,
    source: &[u8],
    composition: Option<&str>,
    unseen: Unseen<'_>,
) -> Result<Option<usize>, OutOfMemory>
    ensures { IfOk result (λ found. IfSome found (λ line. lines.IsLineIn source.now (option_copied composition.entry) unseen.entry line)) }
{
    match placed_in(alloc, source)? {
        Some(placed) => Ok(line_among(&placed, composition, unseen)),
        None => Ok(None),
    }
}

/// The line of the token that names what is unseen.
fn line_among(placed: &Placed, composition: Option<&str>, unseen: Unseen<'_>) -> Option<usize>
    ensures { IfSome result (λ line. lines.IsPickedOn placed.now.tokens.items placed.now.checked (option_copied composition.entry) unseen.entry line) }
{
    let declarations = placed.checked.declarations();
    let assembly = picked(declarations, composition)?;
    let line = line_of_unseen(placed.tokens.as_slice(), declarations, assembly, unseen)?;
    Some(line as usize)
}
