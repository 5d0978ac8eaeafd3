//! What is wrong on a line, in words: the byte, the token or the name, where it is known.

ghost use Rattle.std.specs.Prelude.{◌≡◌, ℕ, IfOk};
ghost use Rattle.std.specs.String.{string_bytes};
ghost use Rattle.ioa_request.specs.declared.code.Code as code_names;
ghost use Rattle.ioa_causes.specs.Typing.{TellsMistyped};
ghost use Rattle.ioa_causes.specs.Worded as spec;
ghost use Rattle.ioa_causes.specs.Worded.{IsBrokenTold};
ghost use Rattle.ioa_causes.specs.Words.{TellsTwice, TellsUnknown, TellsUnmatched, TellsUnproposed};

use crate::broken::broken_in;
use crate::mistyped::mistyped_words;
use crate::names::{twice_words, unknown_words};
use crate::signatures::{unmatched_words, unproposed_words};
use crate::wordings::wording;
use crate::{misfits, signs};
use ioa_request::Code;
use ioa_syntax::Refusal;
use ioa_value::OutOfMemory;
use std::alloc::Global;

/// What a code says in general.
pub fn general(alloc: Global, code: Code) -> Result<String, OutOfMemory>
    ensures { IfOk result (λ words. string_bytes words ≡ spec.wording code) }
{
    Ok(String::from_str(alloc, wording(code))?)
}

/// What is wrong with a source that is refused so.
pub fn of_refusal(alloc: Global, refusal: &Refusal, source: &[u8]) -> Result<String, OutOfMemory>
    ensures { IfOk result (λ words. spec.TellsRefusal refusal.now source.now (string_bytes words)) }
{
    match refusal {
        Refusal::BadByte(_) => of_stop(alloc, source),
        Refusal::Syntax(_) => of_stuck(alloc, source),
        Refusal::DuplicateName(_) => of_twice(alloc, source),
        Refusal::UnknownName(_) => of_unknown(alloc, source),
        Refusal::TypeMismatch(_) => of_mistyped(alloc, source),
        Refusal::BadSignature(_) => of_unmatched(alloc, source),
        Refusal::NoProposal(_) => of_unproposed(alloc, source),
        Refusal::TooDeep(_) => general(alloc, Code::E4),
        Refusal::TooMany(_) => general(alloc, Code::E10),
        Refusal::TooWide(_) => general(alloc, Code::E11),
        Refusal::TextTooLong => general(alloc, Code::E1),
        Refusal::ArgMismatch(_) => general(alloc, Code::E12),
        Refusal::CrashName(_) => general(alloc, Code::E13),
        Refusal::Clash(_, _, _) => general(alloc, Code::E14),
        Refusal::HiddenUnknown(_) => general(alloc, Code::E15),
        Refusal::StartFault(_, _) => general(alloc, Code::E16),
        Refusal::NoComposition => general(alloc, Code::E17),
        Refusal::OutOfMemory => general(alloc, Code::Memory),
    }
}

/// What stands where the text stops.
fn of_stop(alloc: Global, source: &[u8]) -> Result<String, OutOfMemory>
    ensures { IfOk result (λ words. spec.IsStopTold source.now (string_bytes words)) }
{
    match signs::said(alloc, source)? {
        Some(words) => Ok(words),
        None => Ok(general(alloc, Code::E2)?),
    }
}

/// The token at which no source goes on.
fn of_stuck(alloc: Global, source: &[u8]) -> Result<String, OutOfMemory>
    ensures { IfOk result (λ words. spec.IsStuckTold source.now (string_bytes words)) }
{
    match misfits::said(alloc, source)? {
        Some(words) => Ok(words),
        None => Ok(general(alloc, Code::E3)?),
    }
}

/// The name that is declared twice.
fn of_twice(alloc: Global, source: &[u8]) -> Result<String, OutOfMemory>
    ensures { IfOk result (λ words. IsBrokenTold (λ ts ds. TellsTwice ts (string_bytes words)) code_names.Code.E5 source.now (string_bytes words)) }
{
    if let Some(broken) = broken_in(alloc, source)?
        && let Refusal::DuplicateName(at) = broken.refusal
    {
        let (declarations, tokens) = broken.parts();
        if let Some(words) = twice_words(alloc, declarations, tokens, at)? {
            return Ok(words);
        }
    }
    Ok(general(alloc, Code::E5)?)
}

/// The name that is not known.
fn of_unknown(alloc: Global, source: &[u8]) -> Result<String, OutOfMemory>
    ensures { IfOk result (λ words. IsBrokenTold (λ ts ds. TellsUnknown ts (string_bytes words)) code_names.Code.E6 source.now (string_bytes words)) }
{
    if let Some(broken) = broken_in(alloc, source)?
        && let Refusal::UnknownName(at) = broken.refusal
    {
        let (declarations, tokens) = broken.parts();
        if let Some(words) = unknown_words(alloc, declarations, tokens, at)? {
            return Ok(words);
        }
    }
    Ok(general(alloc, Code::E6)?)
}

/// Which type is wanted, and which is found.
fn of_mistyped(alloc: Global, source: &[u8]) -> Result<String, OutOfMemory>
    ensures { IfOk result (λ words. IsBrokenTold (λ ts ds. TellsMistyped ts ds (string_bytes words)) code_names.Code.E7 source.now (string_bytes words)) }
{
    if let Some(broken) = broken_in(alloc, source)?
        && let Refusal::TypeMismatch(at) = broken.refusal
    {
        let (declarations, tokens) = broken.parts();
        if let Some(words) = mistyped_words(alloc, declarations, tokens, at)? {
            return Ok(words);
        }
    }
    Ok(general(alloc, Code::E7)?)
}

/// How entries and transitions do not match.
fn of_unmatched(alloc: Global, source: &[u8]) -> Result<String, OutOfMemory>
    ensures { IfOk result (λ words. IsBrokenTold (λ ts ds. (index : ℕ) × TellsUnmatched index ds (string_bytes words)) code_names.Code.E8 source.now (string_bytes words)) }
{
    if let Some(broken) = broken_in(alloc, source)?
        && let Refusal::BadSignature(at) = broken.refusal
    {
        let (declarations, tokens) = broken.parts();
        if let Some(words) = unmatched_words(alloc, declarations, tokens, at)? {
            return Ok(words);
        }
    }
    Ok(general(alloc, Code::E8)?)
}

/// Which parameter has no proposal.
fn of_unproposed(alloc: Global, source: &[u8]) -> Result<String, OutOfMemory>
    ensures { IfOk result (λ words. IsBrokenTold (λ ts ds. (index : ℕ) × TellsUnproposed index ds (string_bytes words)) code_names.Code.E9 source.now (string_bytes words)) }
{
    if let Some(broken) = broken_in(alloc, source)?
        && let Refusal::NoProposal(at) = broken.refusal
    {
        let (declarations, _) = broken.parts();
        if let Some(words) = unproposed_words(alloc, declarations, at)? {
            return Ok(words);
        }
    }
    Ok(general(alloc, Code::E9)?)
}
