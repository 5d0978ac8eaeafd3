//! Which entry or transition has no partner, or more than one, and which parameter has no proposal.

ghost use Rattle.std.specs.Prelude.{◌≡◌, ◌++◌, IfOk, IfSome, MatchOption, None, Some, codes, false, slice_get};
ghost use Rattle.std.specs.Fmt.{decimal};
ghost use Rattle.std.specs.String.{string_bytes};
ghost use Rattle.ioa_tree.specs.View.{name_of};
ghost use Rattle.ioa_causes.specs.Entries.{named};
ghost use Rattle.ioa_causes.specs.Words as spec;

use crate::broken::line_of;
use crate::entries::entry_named;
use ioa_lex::Token;
use ioa_tree::{
    Automaton, Declaration, Entry, Field, Kind, Name, Position, Transition, TypeDeclaration,
    TypeForm,
};
use ioa_value::OutOfMemory;
use std::alloc::Global;

/// How entries and transitions do not match at the token of this index. None, where it names none of them.
pub fn unmatched_words(
    alloc: Global,
    declarations: &[Declaration],
    tokens: &[Token],
    index: u32,
) -> Result<Option<String>, OutOfMemory>
    ensures { IfOk result (λ found. IfSome found (λ words. spec.TellsUnmatched index declarations.now (string_bytes words))) }
{
    for place in 0..declarations.len() {
        if let Some(automaton) = automaton_at(declarations, place)
            && let Some(words) = match_words(alloc, automaton, tokens, index)?
        {
            return Ok(Some(words));
        }
    }
    Ok(None)
}

/// The automaton that is the declaration of this index.
pub fn automaton_at(declarations: &[Declaration], place: usize) -> Option<&Automaton>
    ensures { IfSome result (λ a. slice_get declarations.now place ≡ Some (Declaration.Automaton a.now)) }
{
    match declarations.get(place) {
        Some(declaration) => automaton_in(declaration),
        None => None,
    }
}

fn automaton_in(declaration: &Declaration) -> Option<&Automaton>
    ensures { IfSome result (λ a. declaration.now ≡ Declaration.Automaton a.now) }
{
    match declaration {
        Declaration::Automaton(automaton) => Some(automaton),
        Declaration::Type(_) | Declaration::Composition(_) | Declaration::Invariant(_) => None,
    }
}

/// How an entry or a transition of an automaton does not match, whose name is the token of this index.
fn match_words(
    alloc: Global,
    automaton: &Automaton,
    tokens: &[Token],
    index: u32,
) -> Result<Option<String>, OutOfMemory>
    ensures { IfOk result (λ found. IfSome found (λ words. spec.TellsMatch index automaton.now (string_bytes words))) }
{
    if let Some(transition) = transition_at(automaton, index) {
        return Ok(Some(transition_words(alloc, automaton, tokens, transition)?));
    }
    match entry_at(automaton, index) {
        Some(entry) => Ok(Some(entry_words(alloc, automaton, tokens, entry)?)),
        None => Ok(None),
    }
}

/// The transition whose name is the token of this index.
fn transition_at(automaton: &Automaton, index: u32) -> Option<&Transition>
    ensures { MatchOption result (spec.transition_at index automaton.now ≡ None) (λ t. spec.transition_at index automaton.now ≡ Some t.now) }
{
    for transition in &automaton.transitions {
        if transition.name.line == index {
            return Some(transition);
        }
    }
    None
}

/// The entry whose name is the token of this index.
fn entry_at(automaton: &Automaton, index: u32) -> Option<&Entry>
    ensures { MatchOption result (spec.entry_at index automaton.now ≡ None) (λ e. spec.entry_at index automaton.now ≡ Some e.now) }
{
    for entry in &automaton.entries {
        if entry.name.line == index {
            return Some(entry);
        }
    }
    None
}

/// What is wrong with a transition: it has no entry, or one of another kind, or is its entry's second, or is an input's with more than an effect.
fn transition_words(
    alloc: Global,
    automaton: &Automaton,
    tokens: &[Token],
    transition: &Transition,
) -> Result<String, OutOfMemory>
    ensures { IfOk result (λ words. spec.TellsTransition automaton.now transition.now (string_bytes words)) }
{
    match entry_of(automaton, &transition.name) {
        Some(entry) => Ok(signed_words(alloc, automaton, tokens, transition, entry)?),
        None => Ok(unsigned_words(alloc, automaton, transition)?),
    }
}

/// That a transition has no entry.
fn unsigned_words(
    alloc: Global,
    automaton: &Automaton,
    transition: &Transition,
) -> Result<String, OutOfMemory>
    ensures { IfOk result (λ words. string_bytes words ≡ spec.unsigned_words (name_of automaton.now.name) (name_of transition.now.name)) }
{
    let name = transition.name.text.as_str();
    let automaton = automaton.name.text.as_str();
    Ok(format!(in alloc; "the signature of {automaton} has no entry `{name}` for this transition")?)
}

/// What is wrong with a transition of an entry.
fn signed_words(
    alloc: Global,
    automaton: &Automaton,
    tokens: &[Token],
    transition: &Transition,
    entry: &Entry,
) -> Result<String, OutOfMemory>
    ensures { IfOk result (λ words. spec.TellsSigned transition.now entry.now (string_bytes words)) }
{
    let name = transition.name.text.as_str();
    if entry.kind != transition.kind {
        let line = line_of(tokens, entry.name.line);
        return Ok(kinds_words(alloc, name, (entry.kind, line), transition.kind)?);
    }
    match earlier(automaton, transition) {
        Some(first) => Ok(second_words(alloc, name, line_of(tokens, first.name.line))?),
        None => Ok(input_words(alloc, name)?),
    }
}

/// That a transition is of another kind than its entry, which stands on this line.
fn kinds_words(
    alloc: Global,
    name: &str,
    entry: (Kind, u32),
    kind: Kind,
) -> Result<String, OutOfMemory>
    ensures { IfOk result (λ words. string_bytes words ≡ spec.kinds_words name.now entry.0 entry.1 kind) }
{
    Ok(kinds_text(alloc, name, word_of(entry.0), entry.1, word_of(kind))?)
}

fn kinds_text(
    alloc: Global,
    name: &str,
    signed: &str,
    line: u32,
    kind: &str,
) -> Result<String, OutOfMemory>
    ensures { IfOk result (λ text. string_bytes text ≡ codes "`" ++ (name.now ++ (codes "` is an " ++ (signed.now ++ (codes " in the signature, on line " ++ (decimal line ++ (codes ", and an " ++ (kind.now ++ codes " here")))))))) }
{
    Ok(format!(in alloc;
        "`{name}` is an {signed} in the signature, on line {line}, and an {kind} here"
    )?)
}

fn second_words(alloc: Global, name: &str, line: u32) -> Result<String, OutOfMemory>
    ensures { IfOk result (λ words. string_bytes words ≡ spec.second_words name.now line) }
{
    Ok(format!(in alloc; "`{name}` has a transition already, on line {line}: join both by `if`")?)
}

fn input_words(alloc: Global, name: &str) -> Result<String, OutOfMemory>
    ensures { IfOk result (λ words. string_bytes words ≡ spec.input_words name.now) }
{
    Ok(format!(in alloc;
        "`{name}` is an input, which is always enabled: it has neither `pre` nor `propose`"
    )?)
}

/// That an entry has no transition, or which one of another kind.
fn entry_words(
    alloc: Global,
    automaton: &Automaton,
    tokens: &[Token],
    entry: &Entry,
) -> Result<String, OutOfMemory>
    ensures { IfOk result (λ words. spec.TellsEntry automaton.now entry.now (string_bytes words)) }
{
    match transition_named(automaton, entry.name.text.as_str()) {
        Some(transition) => Ok(other_words(alloc, entry, line_of(tokens, transition.name.line))?),
        None => Ok(lacking_words(alloc, automaton, entry)?),
    }
}

/// The first transition of this name.
fn transition_named<'a>(automaton: &'a Automaton, name: &str) -> Option<&'a Transition>
    ensures { MatchOption result (spec.transition_named name.now automaton.now.transitions.items ≡ None) (λ t. spec.transition_named name.now automaton.now.transitions.items ≡ Some t.now) }
{
    for transition in &automaton.transitions {
        if transition.name.is(name) {
            return Some(transition);
        }
    }
    None
}

fn other_words(alloc: Global, entry: &Entry, line: u32) -> Result<String, OutOfMemory>
    ensures { IfOk result (λ words. string_bytes words ≡ spec.other_words (name_of entry.now.name) entry.now.kind line) }
{
    let name = entry.name.text.as_str();
    let kind = word_of(entry.kind);
    Ok(format!(in alloc;
        "the {kind} `{name}` has no transition of its kind; that on line {line} is another"
    )?)
}

fn lacking_words(alloc: Global, automaton: &Automaton, entry: &Entry) -> Result<String, OutOfMemory>
    ensures { IfOk result (λ words. string_bytes words ≡ spec.lacking_words (name_of automaton.now.name) (name_of entry.now.name) entry.now.kind) }
{
    Ok(lacking_text(
        alloc,
        automaton.name.text.as_str(),
        entry.name.text.as_str(),
        word_of(entry.kind),
    )?)
}

fn lacking_text(
    alloc: Global,
    automaton: &str,
    name: &str,
    kind: &str,
) -> Result<String, OutOfMemory>
    ensures { IfOk result (λ text. string_bytes text ≡ codes "the " ++ (kind.now ++ (codes " `" ++ (name.now ++ (codes "` has no transition in " ++ automaton.now))))) }
{
    Ok(format!(in alloc; "the {kind} `{name}` has no transition in {automaton}")?)
}

fn word_of(kind: Kind) -> &'static str
    ensures { result.now ≡ spec.kind_word kind }
{
    match kind {
        Kind::Input => "input",
        Kind::Output => "output",
        Kind::Internal => "internal",
    }
}

fn is_same(a: &Name, b: &Name) -> bool {
    a.is(b.text.as_str())
}

/// The entry of this name.
pub fn entry_of<'a>(automaton: &'a Automaton, name: &Name) -> Option<&'a Entry>
    ensures { MatchOption result (named (name_of name.now) automaton.now.entries.items ≡ None) (λ e. named (name_of name.now) automaton.now.entries.items ≡ Some e.now) }
{
    match entry_named(&automaton.entries, name.text.as_str()) {
        Some(entry) => Some(entry),
        None => None,
    }
}

/// The transition of the same kind and name that stands before this one.
fn earlier<'a>(automaton: &'a Automaton, transition: &Transition) -> Option<&'a Transition> {
    automaton.transitions.iter().find(|other| {
        other.kind == transition.kind
            && is_same(&other.name, &transition.name)
            && other.name.line < transition.name.line
    })
}

/// Which parameter of the transition at the token of this index has no proposal. None, where there is no such transition.
pub fn unproposed_words(
    alloc: Global,
    declarations: &[Declaration],
    index: u32,
) -> Result<Option<String>, OutOfMemory>
    ensures { IfOk result (λ found. IfSome found (λ words. spec.TellsUnproposed index declarations.now (string_bytes words))) }
{
    for place in 0..declarations.len() {
        if let Some(automaton) = automaton_at(declarations, place)
            && let Some(transition) = transition_at(automaton, index)
        {
            return parameter_words(alloc, declarations, automaton, transition);
        }
    }
    Ok(None)
}

/// Which parameter of a transition has no proposal.
fn parameter_words(
    alloc: Global,
    declarations: &[Declaration],
    automaton: &Automaton,
    transition: &Transition,
) -> Result<Option<String>, OutOfMemory>
    ensures { IfOk result (λ found. IfSome found (λ words. spec.TellsParameter automaton.now transition.now (string_bytes words))) }
{
    let Some(entry) = entry_of(automaton, &transition.name) else {
        return Ok(None);
    };
    for place in 0..entry.positions.len() {
        if let Some(field) = unproposed_at(declarations, entry, transition, place) {
            return Ok(Some(field_words(alloc, &field.name, &transition.name)?));
        }
    }
    Ok(None)
}

/// The parameter that is the position of this index of an entry, where nothing is proposed for it and not all its values are tried.
fn unproposed_at<'a>(
    declarations: &[Declaration],
    entry: &'a Entry,
    transition: &Transition,
    place: usize,
) -> Option<&'a Field>
    ensures { IfSome result (λ f. (slice_get entry.now.positions.items place ≡ Some (Position.Typed f.now)) × spec.IsUnproposed (name_of f.now.name) transition.now) }
{
    let field = parameter_at(entry, place)?;
    if !is_proposed(transition, &field.name) && !is_tried(declarations, &field.ty) {
        Some(field)
    } else {
        None
    }
}

/// The parameter that is the position of this index of an entry.
fn parameter_at(entry: &Entry, place: usize) -> Option<&Field>
    ensures { IfSome result (λ f. slice_get entry.now.positions.items place ≡ Some (Position.Typed f.now)) }
{
    match entry.positions.get(place) {
        Some(position) => parameter_in(position),
        None => None,
    }
}

fn parameter_in(position: &Position) -> Option<&Field>
    ensures { IfSome result (λ f. position.now ≡ Position.Typed f.now) }
{
    match position {
        Position::Typed(field) => Some(field),
        Position::Constant(_) => None,
    }
}

/// That nothing is proposed for the parameter of this name.
fn field_words(alloc: Global, parameter: &Name, action: &Name) -> Result<String, OutOfMemory>
    ensures { IfOk result (λ words. string_bytes words ≡ spec.unproposed_words (name_of parameter.now) (name_of action.now)) }
{
    let parameter = parameter.text.as_str();
    let action = action.text.as_str();
    Ok(format!(in alloc;
        "no value is proposed for `{parameter}` of `{action}`: write `propose {parameter} := ..`"
    )?)
}

fn is_proposed(transition: &Transition, parameter: &Name) -> bool
    ensures { result ≡ false → spec.IsUnproposed (name_of parameter.now) transition.now }
{
    for proposal in &transition.proposals {
        if proposal.name.is(parameter.text.as_str()) {
            return true;
        }
    }
    false
}

/// Whether all values of a type are tried: it is Bool, or an enumeration.
fn is_tried(declarations: &[Declaration], ty: &Name) -> bool {
    ty.is("Bool")
        || declarations.iter().any(|declaration| match declaration {
            Declaration::Type(
                TypeDeclaration {
                    name,
                    form: TypeForm::Enumeration(_),
                },
            ) => is_same(name, ty),
            _ => false,
        })
}
