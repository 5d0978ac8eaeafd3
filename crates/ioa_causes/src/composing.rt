//! Why a composition of a source is refused, by the names of its components, their automata and their entries. The lines of its declarations are indices of tokens.

ghost use Rattle.std.specs.Prelude.{◌≡◌, ◌++◌, [], IfOk, IfSome, OnOk, Some, true};
ghost use Rattle.std.specs.Option.{option_copied, option_map};
ghost use Rattle.std.specs.String.{string_bytes};
ghost use Rattle.ioa_value.specs.Table as table;
ghost use Rattle.ioa_value.specs.Table.{type_named};
ghost use Rattle.ioa_tree.specs.Types.{types_of};
ghost use Rattle.ioa_tree.specs.View.{expr_of, name_of, tree_of};
ghost use Rattle.ioa_tree.specs.WellFormed as well_formed;
ghost use Rattle.ioa_causes.specs.Composing as spec;
ghost use Rattle.ioa_causes.specs.Words.{quoted};

use crate::broken::line_of_name;
use crate::entries::entry_named;
use crate::mistyped::{counted, type_name};
use crate::nearest::nearest;
use crate::signatures::{automaton_at, entry_of};
use ioa_check::Checked;
use ioa_lex::Token;
use ioa_rules::{Loops, expression_type};
use ioa_syntax::Refusal;
use ioa_tree::{
    Assembly, Automaton, Crash, Declaration, Entry, Expression, Field, Instance, Kind, Name,
};
use ioa_value::{OutOfMemory, Ty, Types};
use std::alloc::Global;
use std::fmt::Write;

/// The line on which a composition names what a refusal tells of: the component, of two that clash the later one, or the hidden name.
pub fn line_of_refusal(tokens: &[Token], assembly: &Assembly, refusal: &Refusal) -> Option<u32>
    ensures { IfSome result (λ line. spec.IsRefusedOn tokens.now assembly.now refusal.now line) }
{
    match refusal {
        Refusal::ArgMismatch(component) => line_of_component(tokens, assembly, *component),
        Refusal::CrashName(component) => line_of_component(tokens, assembly, *component),
        Refusal::StartFault(component, _) => line_of_component(tokens, assembly, *component),
        Refusal::Clash(_, component, _) => line_of_component(tokens, assembly, *component),
        Refusal::HiddenUnknown(name) => line_of_hidden(tokens, assembly, name.as_str()),
        _ => None,
    }
}

/// The line on which the component of this number is named.
fn line_of_component(tokens: &[Token], assembly: &Assembly, component: usize) -> Option<u32>
    ensures { IfSome result (λ line. spec.IsComponentLine tokens.now assembly.now component line) }
{
    match instance_at(assembly, component) {
        Some(instance) => line_on(tokens, &instance.name),
        None => None,
    }
}

/// The component of this number.
fn instance_at(assembly: &Assembly, component: usize) -> Option<&Instance>
    ensures { IfSome result (λ n. spec.component assembly.now component ≡ Some n.now) }
{
    let instance = assembly.instances.get(component)?;
    Some(instance)
}

/// The line on which a name is hidden.
fn line_of_hidden(tokens: &[Token], assembly: &Assembly, name: &str) -> Option<u32>
    ensures { IfSome result (λ line. spec.IsHiddenLine tokens.now assembly.now name.now line) }
{
    match name_among(&assembly.hidden, name) {
        Some(hidden) => line_on(tokens, hidden),
        None => None,
    }
}

/// The first of the names that is this one.
fn name_among<'a>(names: &'a [Name], name: &str) -> Option<&'a Name>
    ensures { option_map (λ n. n.now) result ≡ spec.among name.now names.now }
{
    for own in names {
        if own.is(name) {
            return Some(own);
        }
    }
    None
}

/// The line of the token that is the name.
fn line_on(tokens: &[Token], name: &Name) -> Option<u32>
    ensures { IfSome result (spec.IsOn tokens.now name.now) }
{
    line_of_name(tokens, name.line, name.text.as_str())
}

/// Why a composition is refused, in words. None, where no more is said than the refusal's code does.
pub fn refused_words(
    alloc: Global,
    checked: &Checked,
    tokens: &[Token],
    assembly: &Assembly,
    refusal: &Refusal,
) -> Result<Option<String>, OutOfMemory>
    ensures { IfOk result (λ found. IfSome found (λ words. spec.TellsComposed tokens.now checked.now assembly.now refusal.now (string_bytes words))) }
{
    let declarations = checked.declarations();
    match refusal {
        Refusal::ArgMismatch(component) => {
            arguments_words(alloc, checked.types(), declarations, assembly, *component)
        }
        Refusal::CrashName(component) => {
            crash_words(alloc, tokens, declarations, assembly, *component)
        }
        Refusal::Clash(first, second, name) => {
            clash_words(
                alloc,
                tokens,
                declarations,
                assembly,
                (*first, *second),
                name.as_str(),
            )
        }
        Refusal::HiddenUnknown(name) => {
            hidden_words(alloc, tokens, declarations, assembly, name.as_str())
        }
        _ => Ok(None),
    }
}

/// The component of this number, with its automaton.
fn component_of<'a>(
    declarations: &'a [Declaration],
    assembly: &'a Assembly,
    component: usize,
) -> Option<(&'a Instance, &'a Automaton)>
    ensures { IfSome result (λ p. spec.IsComponent declarations.now assembly.now component p.0.now p.1.now) }
{
    let instance = assembly.instances.get(component)?;
    let automaton = automaton_of(declarations, instance)?;
    Some((instance, automaton))
}

/// The automaton that is declared under the name of a component's.
fn automaton_of<'a>(declarations: &'a [Declaration], instance: &Instance) -> Option<&'a Automaton>
    ensures { IfSome result (λ a. spec.IsAutomatonOf declarations.now instance.now a.now) }
{
    for place in 0..declarations.len() {
        if let Some(automaton) = automaton_at(declarations, place)
            && automaton.name.is(instance.automaton.text.as_str())
        {
            return Some(automaton);
        }
    }
    None
}

/// How the arguments of a component are not those of its automaton: how many, or of which type the first is that differs.
fn arguments_words(
    alloc: Global,
    types: &Types,
    declarations: &[Declaration],
    assembly: &Assembly,
    component: usize,
) -> Result<Option<String>, OutOfMemory>
    requires { types.now ≡ types_of (tree_of declarations.now) }
    ensures { IfOk result (λ found. IfSome found (λ words. spec.TellsArguments declarations.now assembly.now component (string_bytes words))) }
{
    match component_of(declarations, assembly, component) {
        Some((instance, automaton)) => unfit_words(alloc, types, instance, automaton),
        None => Ok(None),
    }
}

fn unfit_words(
    alloc: Global,
    types: &Types,
    instance: &Instance,
    automaton: &Automaton,
) -> Result<Option<String>, OutOfMemory>
    ensures { IfOk result (λ found. IfSome found (λ words. spec.TellsUnfit types.now instance.now automaton.now (string_bytes words))) }
{
    let formals = formals_text(alloc, automaton)?;
    let name = automaton.name.text.as_str();
    let wanted = automaton.formals.len();
    let given = instance.arguments.len();
    if wanted != given {
        return Ok(Some(count_words(alloc, name, formals.as_str(), wanted, given)?));
    }
    match misfit_of(types, instance, automaton) {
        Some((formal, own)) => {
            Ok(Some(other_words(alloc, types, automaton, formals.as_str(), formal, own)?))
        }
        None => Ok(None),
    }
}

/// How many arguments an automaton wants, and how many are given.
fn count_words(
    alloc: Global,
    name: &str,
    formals: &str,
    wanted: usize,
    given: usize,
) -> Result<String, OutOfMemory>
    ensures { IfOk result (λ words. string_bytes words ≡ spec.count_words name.now formals.now wanted given) }
{
    let arguments = counted(wanted, "argument", "arguments");
    let are = counted(given, "is", "are");
    Ok(format!(in alloc; "{name}{formals} wants {wanted} {arguments}, and {given} {are} given")?)
}

/// Of which type an argument is, and not its formal.
fn other_words(
    alloc: Global,
    types: &Types,
    automaton: &Automaton,
    formals: &str,
    formal: &Field,
    own: Ty,
) -> Result<String, OutOfMemory>
    ensures { IfOk result (λ words. string_bytes words ≡ spec.type_words (name_of automaton.now.name) formals.now (name_of formal.now.ty) (name_of formal.now.name) (table.type_name types.now own.0)) }
{
    let name = automaton.name.text.as_str();
    Ok(type_words(alloc, name, formals, formal, type_name(types, own))?)
}

/// Which type an automaton wants for a formal, and which is given.
fn type_words(
    alloc: Global,
    name: &str,
    formals: &str,
    formal: &Field,
    own: &str,
) -> Result<String, OutOfMemory>
    ensures { IfOk result (λ words. string_bytes words ≡ spec.type_words name.now formals.now (name_of formal.now.ty) (name_of formal.now.name) own.now) }
{
    let ty = formal.ty.text.as_str();
    let formal = formal.name.text.as_str();
    Ok(format!(in alloc;
        "{name}{formals} wants type {ty} for `{formal}`, and what is given is of type {own}"
    )?)
}

/// The first formal of an automaton that is given an argument of another type, and this type.
fn misfit_of<'a>(
    types: &Types,
    instance: &Instance,
    automaton: &'a Automaton,
) -> Option<(&'a Field, Ty)>
    ensures { IfSome result (λ p. spec.IsOther types.now instance.now automaton.now p.0.now p.1.0) }
{
    for place in 0..automaton.formals.len() {
        if let Some(found) = misfit_at(types, instance, automaton, place) {
            return Some(found);
        }
    }
    None
}

fn misfit_at<'a>(
    types: &Types,
    instance: &Instance,
    automaton: &'a Automaton,
    place: usize,
) -> Option<(&'a Field, Ty)>
    ensures { IfSome result (λ p. spec.IsOther types.now instance.now automaton.now p.0.now p.1.0) }
{
    let formal = automaton.formals.get(place)?;
    let argument = instance.arguments.get(place)?;
    let own = other_type(types, formal, argument)?;
    Some((formal, own))
}

/// The type of an argument, where it is another than that of its formal.
fn other_type(types: &Types, formal: &Field, argument: &Expression) -> Option<Ty>
    ensures own { IfSome result (λ own. well_formed.type_of types.now types.now [] (expr_of argument.now) ≡ Some own.0) }
    ensures other { IfSome result (λ own. type_named types.now (name_of formal.now.ty) ≡ Some own.0 → ⊥) }
{
    let own = expression_type(types, &[], &[], &[], &Loops::None, argument)?;
    match types.named(formal.ty.text.as_str()) {
        Some(ty) if ty.0 == own.0 => None,
        _ => Some(own),
    }
}

/// The formals of an automaton, as they are declared.
fn formals_text(alloc: Global, automaton: &Automaton) -> Result<String, OutOfMemory> {
    let mut text = String::new(alloc);
    let mut sign = "(";
    for formal in &automaton.formals {
        let name = formal.name.text.as_str();
        let ty = formal.ty.text.as_str();
        write!(text, "{sign}{name}: {ty}")?;
        sign = ", ";
    }
    if !automaton.formals.is_empty() {
        text.push_str(")")?;
    }
    Ok(text)
}

/// Why a component cannot crash and recover by its names: they are one, or one of them is an entry's.
fn crash_words(
    alloc: Global,
    tokens: &[Token],
    declarations: &[Declaration],
    assembly: &Assembly,
    component: usize,
) -> Result<Option<String>, OutOfMemory>
    ensures { IfOk result (λ found. IfSome found (λ words. spec.TellsCrash tokens.now declarations.now assembly.now component (string_bytes words))) }
{
    let Some((instance, automaton)) = component_of(declarations, assembly, component) else {
        return Ok(None);
    };
    match &instance.crash {
        Some(crash) => names_words(alloc, tokens, automaton, crash),
        None => Ok(None),
    }
}

/// Which of both names is an entry's of the automaton, or that they are one.
fn names_words(
    alloc: Global,
    tokens: &[Token],
    automaton: &Automaton,
    crash: &Crash,
) -> Result<Option<String>, OutOfMemory>
    ensures { IfOk result (λ found. IfSome found (λ words. spec.TellsNames tokens.now automaton.now crash.now (string_bytes words))) }
{
    if let Some(entry) = entry_of(automaton, &crash.crash) {
        return taken_words(alloc, tokens, automaton, &crash.crash, entry);
    }
    match entry_of(automaton, &crash.recover) {
        Some(entry) => taken_words(alloc, tokens, automaton, &crash.recover, entry),
        None => Ok(Some(one_words(alloc, crash)?)),
    }
}

/// Where an entry has the name.
fn taken_words(
    alloc: Global,
    tokens: &[Token],
    automaton: &Automaton,
    name: &Name,
    entry: &Entry,
) -> Result<Option<String>, OutOfMemory>
    ensures { IfOk result (λ found. IfSome found (λ words. spec.TellsTakenBy tokens.now automaton.now name.now entry.now (string_bytes words))) }
{
    match line_on(tokens, &entry.name) {
        Some(line) => Ok(Some(entry_of_words(alloc, automaton, name, line)?)),
        None => Ok(None),
    }
}

fn entry_of_words(
    alloc: Global,
    automaton: &Automaton,
    name: &Name,
    line: u32,
) -> Result<String, OutOfMemory>
    ensures { IfOk result (λ words. string_bytes words ≡ spec.taken_words (name_of name.now) (name_of automaton.now.name) line) }
{
    Ok(taken_text(
        alloc,
        name.text.as_str(),
        automaton.name.text.as_str(),
        line,
    )?)
}

fn taken_text(alloc: Global, name: &str, automaton: &str, line: u32) -> Result<String, OutOfMemory>
    ensures { IfOk result (λ words. string_bytes words ≡ spec.taken_words name.now automaton.now line) }
{
    Ok(format!(in alloc; "`{name}` is the name of an entry of {automaton}, on line {line}")?)
}

fn one_words(alloc: Global, crash: &Crash) -> Result<String, OutOfMemory>
    ensures { IfOk result (λ words. string_bytes words ≡ spec.one_words (name_of crash.now.crash)) }
{
    let name = crash.crash.text.as_str();
    Ok(format!(in alloc; "`{name}` is to be both crash and recover, which need two names")?)
}

/// What the action of this name is in both components that have it, and may not.
fn clash_words(
    alloc: Global,
    tokens: &[Token],
    declarations: &[Declaration],
    assembly: &Assembly,
    components: (usize, usize),
    name: &str,
) -> Result<Option<String>, OutOfMemory>
    ensures { IfOk result (λ found. IfSome found (λ words. spec.TellsClash tokens.now declarations.now assembly.now components.0 components.1 name.now (string_bytes words))) }
{
    let Some((first, one)) = component_of(declarations, assembly, components.0) else {
        return Ok(None);
    };
    let Some((second, other)) = component_of(declarations, assembly, components.1) else {
        return Ok(None);
    };
    let Some(role) = role_words(alloc, tokens, first, one, name)? else {
        return Ok(None);
    };
    let Some(role_of_other) = role_words(alloc, tokens, second, other, name)? else {
        return Ok(None);
    };
    let more = more_words(alloc, first, second)?;
    Ok(Some(both_words(
        alloc,
        name,
        role.as_str(),
        role_of_other.as_str(),
        more.as_str(),
    )?))
}

fn both_words(
    alloc: Global,
    name: &str,
    first: &str,
    second: &str,
    more: &str,
) -> Result<String, OutOfMemory>
    ensures { IfOk result (λ words. string_bytes words ≡ spec.both_words name.now first.now second.now more.now) }
{
    Ok(format!(in alloc; "`{name}` is {first} and {second}{more}")?)
}

/// Of two instances of one automaton, what tells their actions apart.
fn more_words(alloc: Global, first: &Instance, second: &Instance) -> Result<String, OutOfMemory>
    ensures { IfOk result (λ words. string_bytes words ≡ spec.more_words first.now second.now) }
{
    if first.automaton.is(second.automaton.text.as_str()) {
        Ok(apart_words(alloc, first.automaton.text.as_str())?)
    } else {
        Ok(String::new(alloc))
    }
}

fn apart_words(alloc: Global, automaton: &str) -> Result<String, OutOfMemory>
    ensures { IfOk result (λ words. string_bytes words ≡ spec.apart_words automaton.now) }
{
    Ok(format!(in alloc;
        ": both are of {automaton}, and a `const` formal among the positions tells their actions apart"
    )?)
}

/// What the action of this name is in a component: what its automaton's entry says, or the input by which it crashes or recovers.
fn role_words(
    alloc: Global,
    tokens: &[Token],
    instance: &Instance,
    automaton: &Automaton,
    action: &str,
) -> Result<Option<String>, OutOfMemory>
    ensures { IfOk result (λ found. IfSome found (λ words. spec.TellsRole tokens.now instance.now automaton.now action.now (string_bytes words))) }
{
    match entry_named(&automaton.entries, action) {
        Some(entry) => entry_words(alloc, tokens, instance, entry),
        None => Ok(Some(signal_words(alloc, instance, action)?)),
    }
}

/// What an entry is of a component, and where.
fn entry_words(
    alloc: Global,
    tokens: &[Token],
    instance: &Instance,
    entry: &Entry,
) -> Result<Option<String>, OutOfMemory>
    ensures { IfOk result (λ found. IfSome found (λ words. spec.TellsEntryOn tokens.now instance.now entry.now (string_bytes words))) }
{
    match line_on(tokens, &entry.name) {
        Some(line) => Ok(Some(kind_of_words(alloc, instance, entry, line)?)),
        None => Ok(None),
    }
}

fn kind_of_words(
    alloc: Global,
    instance: &Instance,
    entry: &Entry,
    line: u32,
) -> Result<String, OutOfMemory>
    ensures { IfOk result (λ words. string_bytes words ≡ spec.entry_words entry.now.kind (name_of instance.now.name) line) }
{
    let kind = kind_words(entry.kind);
    let name = instance.name.text.as_str();
    Ok(format!(in alloc; "{kind} of {name} (line {line})")?)
}

/// That an action is the input by which a component crashes or recovers.
fn signal_words(alloc: Global, instance: &Instance, action: &str) -> Result<String, OutOfMemory>
    ensures { IfOk result (λ words. string_bytes words ≡ spec.signal_words (spec.signal_word instance.now.crash action.now) (name_of instance.now.name)) }
{
    let signal = signal_word(&instance.crash, action);
    let name = instance.name.text.as_str();
    Ok(format!(in alloc; "the {signal} of {name}")?)
}

fn signal_word(crash: &Option<Crash>, action: &str) -> &'static str
    ensures { result.now ≡ spec.signal_word crash.now action.now }
{
    match crash {
        Some(names) => {
            if names.crash.is(action) {
                "crash"
            } else {
                "recover"
            }
        }
        None => "recover",
    }
}

/// What an action of an entry of this kind is.
pub fn kind_words(kind: Kind) -> &'static str
    ensures { result.now ≡ spec.kind_words kind }
{
    match kind {
        Kind::Input => "an input",
        Kind::Output => "an output",
        Kind::Internal => "an internal action",
    }
}

/// What a hidden name is, which is no output of a component; or the nearest that is one.
fn hidden_words(
    alloc: Global,
    tokens: &[Token],
    declarations: &[Declaration],
    assembly: &Assembly,
    name: &str,
) -> Result<Option<String>, OutOfMemory>
    ensures { IfOk result (λ found. IfSome found (λ words. spec.TellsHidden tokens.now declarations.now assembly.now name.now (string_bytes words))) }
{
    for component in 0..assembly.instances.len() {
        if let Some((instance, automaton)) = component_of(declarations, assembly, component)
            && let Some(entry) = entry_named(&automaton.entries, name)
        {
            return no_output_words(alloc, tokens, instance, entry, name);
        }
    }
    let names = outputs_of(alloc, declarations, assembly)?;
    let more = nearest_words(alloc, name, &names)?;
    Ok(Some(nowhere_words(alloc, name, more.as_str())?))
}

/// That a hidden name is no output of a component, but this entry.
fn no_output_words(
    alloc: Global,
    tokens: &[Token],
    instance: &Instance,
    entry: &Entry,
    name: &str,
) -> Result<Option<String>, OutOfMemory>
    ensures { IfOk result (λ found. IfSome found (λ words. spec.TellsNoOutput tokens.now instance.now entry.now name.now (string_bytes words))) }
{
    match entry_words(alloc, tokens, instance, entry)? {
        Some(what) => Ok(Some(only_outputs_words(alloc, name, what.as_str())?)),
        None => Ok(None),
    }
}

fn only_outputs_words(alloc: Global, name: &str, what: &str) -> Result<String, OutOfMemory>
    ensures { IfOk result (λ words. string_bytes words ≡ spec.no_output_words name.now what.now) }
{
    Ok(format!(in alloc; "`{name}` is {what}, and only outputs are hidden")?)
}

/// That no component has an output of this name, and more.
fn nowhere_words(alloc: Global, name: &str, more: &str) -> Result<String, OutOfMemory>
    ensures { IfOk result (λ words. string_bytes words ≡ spec.nowhere_words name.now more.now) }
{
    Ok(format!(in alloc; "no component has an output `{name}`{more}")?)
}

/// Which of the names is nearest to one that is none of them.
fn nearest_words(alloc: Global, name: &str, names: &[&str]) -> Result<String, OutOfMemory> {
    match nearest(name, names) {
        Some(near) => Ok(format!(in alloc; ": is `{near}` meant?")?),
        None => Ok(String::new(alloc)),
    }
}

/// The names of the outputs of the components.
fn outputs_of<'a>(
    alloc: Global,
    declarations: &'a [Declaration],
    assembly: &'a Assembly,
) -> Result<Vec<&'a str>, OutOfMemory> {
    let mut names = Vec::new(alloc);
    for component in 0..assembly.instances.len() {
        if let Some((_, automaton)) = component_of(declarations, assembly, component) {
            push_outputs(&mut names, automaton)?;
        }
    }
    Ok(names)
}

fn push_outputs<'a>(names: &mut Vec<&'a str>, automaton: &'a Automaton) -> Result<(), OutOfMemory> {
    for entry in &automaton.entries {
        if entry.kind == Kind::Output {
            names.push(entry.name.text.as_str())?;
        }
    }
    Ok(())
}

/// That a source has no composition of this name, or none at all, and which it has.
pub fn missing_words(
    alloc: Global,
    declarations: &[Declaration],
    name: Option<&str>,
) -> Result<String, OutOfMemory>
    ensures { IfOk result (λ words. string_bytes words ≡ spec.missing_words (option_copied name.entry) (spec.declared declarations.now)) }
{
    let mut text = none_words(alloc, name)?;
    put_declared(&mut text, declarations)?;
    Ok(text)
}

fn none_words(alloc: Global, name: Option<&str>) -> Result<String, OutOfMemory>
    ensures { IfOk result (λ words. string_bytes words ≡ spec.none_words (option_copied name.entry)) }
{
    match name {
        Some(name) => Ok(none_named_words(alloc, name)?),
        None => Ok(String::from_str(alloc, "the source declares no composition")?),
    }
}

fn none_named_words(alloc: Global, name: &str) -> Result<String, OutOfMemory>
    ensures { IfOk result (λ words. string_bytes words ≡ spec.none_words (Some name.now)) }
{
    Ok(format!(in alloc; "the source declares no composition `{name}`")?)
}

/// Puts which compositions there are.
fn put_declared(text: &mut String, declarations: &[Declaration]) -> Result<(), OutOfMemory>
    ensures { OnOk result (string_bytes text.new ≡ string_bytes text.old ++ spec.listed true (spec.declared declarations.now)) }
{
    let mut is_first = true;
    for declaration in declarations {
        if let Declaration::Composition(assembly) = declaration {
            put_listed(text, sign_of(is_first), assembly.name.text.as_str())?;
            is_first = false;
        }
    }
    Ok(())
}

/// What stands before one of the compositions that there are.
fn sign_of(is_first: bool) -> &'static str
    ensures { result.now ≡ spec.sign is_first }
{
    if is_first { ": there is " } else { ", " }
}

/// Puts one of the compositions that there are.
fn put_listed(text: &mut String, sign: &str, name: &str) -> Result<(), OutOfMemory>
    ensures { OnOk result (string_bytes text.new ≡ string_bytes text.old ++ (sign.now ++ quoted name.now)) }
{
    write!(text, "{sign}`{name}`")?;
    Ok(())
}
