//! What a composition does unseen, so that it is no monitor.

ghost use Rattle.std.specs.Prelude.{◌≡◌, IfOk, IfSome, MatchOption, None, Some};
ghost use Rattle.std.specs.String.{string_bytes};
ghost use Rattle.ioac.specs.Unseen as spec;

use ioa_compile::{Entry, Member, Program};
use ioa_tree::Kind;
use ioa_value::OutOfMemory;
use std::alloc::Global;

/// What is unseen: an internal entry of a component, or a hidden name.
#[derive(Clone, Copy)]
pub enum Unseen<'a> {
    Internal { action: &'a str, component: &'a str },
    Hidden(&'a str),
}

/// The first internal entry of a program's components, or else the first name that it hides.
pub fn unseen_in(program: &Program) -> Option<Unseen<'_>>
    ensures { IfSome result (spec.IsUnseen program.now) }
{
    match internal_of(program.members()) {
        Some(found) => Some(found),
        None => hidden_of(program),
    }
}

/// The first internal entry of the components.
fn internal_of(members: &[Member]) -> Option<Unseen<'_>>
    ensures { IfSome result (spec.IsInternal members.now) }
{
    match busy_member(members) {
        Some(member) => internal_in(member),
        None => None,
    }
}

/// The first internal entry of a component, with the component's name.
fn internal_in(member: &Member) -> Option<Unseen<'_>>
    ensures { IfSome result (spec.HasInternal member.now) }
{
    match internal_entry(member) {
        Some(entry) => Some(Unseen::Internal {
            action: entry.name.as_str(),
            component: member.name.as_str(),
        }),
        None => None,
    }
}

/// The first component that has an internal entry.
fn busy_member(members: &[Member]) -> Option<&Member>
    ensures { MatchOption result (spec.busy_member members.now ≡ None) (λ m. spec.busy_member members.now ≡ Some m.now) }
{
    for member in members {
        if is_busy(member) {
            return Some(member);
        }
    }
    None
}

fn is_busy(member: &Member) -> bool
    ensures { result ≡ spec.is_busy member.now }
{
    match internal_entry(member) {
        Some(_) => true,
        None => false,
    }
}

/// The first internal entry of a component.
fn internal_entry(member: &Member) -> Option<&Entry>
    ensures { MatchOption result (spec.internal_entry member.now ≡ None) (λ e. spec.internal_entry member.now ≡ Some e.now) }
{
    for entry in &member.entries {
        if is_internal(entry.kind) {
            return Some(entry);
        }
    }
    None
}

/// Whether an entry of this kind is internal.
pub fn is_internal(kind: Kind) -> bool
    ensures { result ≡ spec.is_internal kind }
{
    match kind {
        Kind::Internal => true,
        Kind::Input | Kind::Output => false,
    }
}

/// The first name that a program hides.
fn hidden_of(program: &Program) -> Option<Unseen<'_>>
    ensures { IfSome result (spec.IsUnseen program.now) }
{
    match program.hidden() {
        [name, ..] => Some(Unseen::Hidden(name.as_str())),
        [] => None,
    }
}

/// What is unseen, in words.
pub fn unseen_words(alloc: Global, unseen: Unseen<'_>) -> Result<String, OutOfMemory>
    ensures { IfOk result (λ words. string_bytes words ≡ spec.unseen_text unseen.entry) }
{
    match unseen {
        Unseen::Internal { action, component } => Ok(internal_words(alloc, action, component)?),
        Unseen::Hidden(name) => Ok(hidden_words(alloc, name)?),
    }
}

fn internal_words(alloc: Global, action: &str, component: &str) -> Result<String, OutOfMemory>
    ensures { IfOk result (λ words. string_bytes words ≡ spec.internal_text action.now component.now) }
{
    Ok(format!(in alloc; "`{action}` is an internal action of {component}, which no log shows")?)
}

fn hidden_words(alloc: Global, name: &str) -> Result<String, OutOfMemory>
    ensures { IfOk result (λ words. string_bytes words ≡ spec.hidden_text name.now) }
{
    Ok(format!(in alloc; "`{name}` is hidden, and a log shows it")?)
}
