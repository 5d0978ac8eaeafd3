//! Graphs: the components of a program, and the actions that they share.

ghost use Rattle.std.specs.Prelude.{◌≡◌, ◌++◌, ℕ, IfOk, OnOk, map, length};
ghost use Rattle.std.specs.List.{flat_map, list_any};
ghost use Rattle.std.specs.Str.{bytes_eq};
ghost use Rattle.std.specs.String.{string_bytes};
ghost use Rattle.ioa_compile.specs.Shown.{entry_code, member_code};
ghost use Rattle.ioa_picture.specs.Graphs as spec;
ghost use Rattle.ioa_picture.specs.Lines.{numbered, numbers};

use ioa_compile::{Entry, Member, Program};
use ioa_tree::Kind;
use ioa_value::{OutOfMemory, Types, all_meet};
use std::alloc::Global;
use std::fmt::Write;

/// A program as a graph in the form of Graphviz: the components and the environment, and edges from who performs actions of a name to
/// those that take them.
///
/// # Errors
/// `OutOfMemory`.
pub fn graph(alloc: Global, program: &Program) -> Result<String, OutOfMemory>
    ensures { IfOk result (λ text. string_bytes text ≡ spec.graph program.now) }
{
    let mut text = String::new(alloc);
    put_head(&mut text, program.name())?;
    put_members(&mut text, program.members())?;
    put_environment(&mut text, program.members().len())?;
    put_edges(alloc, &mut text, program)?;
    text.push_str("}\n")?;
    Ok(text)
}

fn put_head(text: &mut String, name: &str) -> Result<(), OutOfMemory>
    ensures { OnOk result (string_bytes text.new ≡ string_bytes text.old ++ spec.head name.now) }
{
    writeln!(text, "digraph \"{name}\" {{\n  node [shape=box];")?;
    Ok(())
}

/// The components.
fn put_members(text: &mut String, members: &[Member]) -> Result<(), OutOfMemory>
    ensures { OnOk result (string_bytes text.new ≡ string_bytes text.old ++ numbered spec.member_line 0 (map member_code members.now)) }
{
    for i in 0..members.len() {
        put_member(text, i, &members[i])?;
    }
    Ok(())
}

/// A component by its number: its name and its internal names.
fn put_member(text: &mut String, number: usize, member: &Member) -> Result<(), OutOfMemory>
    ensures { OnOk result (string_bytes text.new ≡ string_bytes text.old ++ spec.member_line number (member_code member.now)) }
{
    let name = member.name.as_str();
    write!(text, "  P{number} [label=\"{name}")?;
    put_internals(text, &member.entries)?;
    text.push_str("\"];\n")?;
    Ok(())
}

/// The internal names of a component.
fn put_internals(text: &mut String, entries: &[Entry]) -> Result<(), OutOfMemory>
    ensures { OnOk result (string_bytes text.new ≡ string_bytes text.old ++ flat_map spec.internal_text (map entry_code entries.now)) }
{
    for entry in entries {
        put_internal(text, entry)?;
    }
    Ok(())
}

fn put_internal(text: &mut String, entry: &Entry) -> Result<(), OutOfMemory>
    ensures { OnOk result (string_bytes text.new ≡ string_bytes text.old ++ spec.internal_text (entry_code entry.now)) }
{
    if entry.kind == Kind::Internal {
        let name = entry.name.as_str();
        write!(text, "\\ninternal {name}")?;
    }
    Ok(())
}

fn put_environment(text: &mut String, number: usize) -> Result<(), OutOfMemory>
    ensures { OnOk result (string_bytes text.new ≡ string_bytes text.old ++ spec.environment_line number) }
{
    writeln!(text, "  P{number} [label=\"environment\", shape=ellipse];")?;
    Ok(())
}

/// The edges of all components.
fn put_edges(alloc: Global, text: &mut String, program: &Program) -> Result<(), OutOfMemory>
    ensures { OnOk result (string_bytes text.new ≡ string_bytes text.old ++ numbered (spec.member_edges program.now) 0 program.now.members) }
{
    let members = program.members();
    for i in 0..members.len() {
        put_member_edges(alloc, text, program, i, &members[i].entries)?;
    }
    Ok(())
}

/// The edges of a component's entries.
fn put_member_edges(
    alloc: Global,
    text: &mut String,
    program: &Program,
    number: usize,
    entries: &[Entry],
) -> Result<(), OutOfMemory>
    ensures { OnOk result (string_bytes text.new ≡ string_bytes text.old ++ flat_map (spec.entry_edges program.now number) (map entry_code entries.now)) }
{
    for entry in entries {
        put_entry_edges(alloc, text, program, number, entry)?;
    }
    Ok(())
}

/// An output's edges to those that take it, or an input's edge from the environment where no component gives it.
fn put_entry_edges(
    alloc: Global,
    text: &mut String,
    program: &Program,
    number: usize,
    entry: &Entry,
) -> Result<(), OutOfMemory>
    ensures { OnOk result (string_bytes text.new ≡ string_bytes text.old ++ spec.entry_edges program.now number (entry_code entry.now)) }
{
    match entry.kind {
        Kind::Output => put_output(alloc, text, program, number, entry),
        Kind::Input => put_input(text, program, number, entry),
        Kind::Internal => Ok(()),
    }
}

/// The edges of an output: to those that take it or, where there are none, to the environment.
fn put_output(
    alloc: Global,
    text: &mut String,
    program: &Program,
    number: usize,
    entry: &Entry,
) -> Result<(), OutOfMemory>
    ensures { OnOk result (string_bytes text.new ≡ string_bytes text.old ++ spec.output_edges program.now number (entry_code entry.now)) }
{
    let name = entry.name.as_str();
    let style = style_of(program, name);
    let takers = takers(alloc, program.types(), program.members(), entry)?;
    if takers.is_empty() {
        return put_edge(text, number, name, style, program.members().len());
    }
    put_edges_to(text, number, name, style, &takers)
}

/// The edge of an input that no component gives.
fn put_input(
    text: &mut String,
    program: &Program,
    number: usize,
    entry: &Entry,
) -> Result<(), OutOfMemory>
    ensures { OnOk result (string_bytes text.new ≡ string_bytes text.old ++ spec.input_edges program.now number (entry_code entry.now)) }
{
    if is_given(program.types(), program.members(), entry) {
        return Ok(());
    }
    put_edge(
        text,
        program.members().len(),
        entry.name.as_str(),
        "",
        number,
    )
}

/// Edges to each of these.
fn put_edges_to(
    text: &mut String,
    from: usize,
    name: &str,
    style: &str,
    numbers: &[usize],
) -> Result<(), OutOfMemory>
    ensures { OnOk result (string_bytes text.new ≡ string_bytes text.old ++ flat_map (spec.edge from name.now style.now) numbers.now) }
{
    for to in numbers {
        put_edge(text, from, name, style, *to)?;
    }
    Ok(())
}

fn put_edge(
    text: &mut String,
    from: usize,
    name: &str,
    style: &str,
    to: usize,
) -> Result<(), OutOfMemory>
    ensures { OnOk result (string_bytes text.new ≡ string_bytes text.old ++ spec.edge from name.now style.now to) }
{
    writeln!(text, "  P{from} -> P{to} [label=\"{name}\"{style}];")?;
    Ok(())
}

/// What an edge of this name has besides its label.
fn style_of(program: &Program, name: &str) -> &'static str
    ensures { result.now ≡ spec.style_of program.now name.now }
{
    if is_hidden(program.hidden(), name) {
        ", style=dashed"
    } else {
        ""
    }
}

fn is_hidden(hidden: &[String], name: &str) -> bool
    ensures { result ≡ list_any (λ h. bytes_eq h name.now) (map string_bytes hidden.now) }
{
    for own in hidden {
        if own.as_str() == name {
            return true;
        }
    }
    false
}

/// The numbers of the components that have an action of the entry as input.
fn takers(
    alloc: Global,
    types: &Types,
    members: &[Member],
    entry: &Entry,
) -> Result<Vec<usize>, OutOfMemory>
    ensures { IfOk result (λ takers. takers.items ≡ numbers (spec.has_of types.now Kind.Input (entry_code entry.now)) 0 (map member_code members.now)) }
{
    let mut takers = Vec::new(alloc);
    for i in 0..members.len() {
        if has_of(types, Kind::Input, entry, &members[i]) {
            takers.push(i)?;
        }
    }
    Ok(takers)
}

/// Whether a component has an action of the entry as output.
fn is_given(types: &Types, members: &[Member], entry: &Entry) -> bool
    ensures { result ≡ list_any (spec.has_of types.now Kind.Output (entry_code entry.now)) (map member_code members.now) }
{
    for member in members {
        if has_of(types, Kind::Output, entry, member) {
            return true;
        }
    }
    false
}

/// Whether the component has an action of the entry, by an entry of this kind.
fn has_of(types: &Types, kind: Kind, entry: &Entry, member: &Member) -> bool
    ensures { result ≡ spec.has_of types.now kind (entry_code entry.now) (member_code member.now) }
{
    for other in &member.entries {
        if shares(types, kind, entry, other) {
            return true;
        }
    }
    false
}

/// Whether the other entry is of this kind, and some action is of both.
fn shares(types: &Types, kind: Kind, entry: &Entry, other: &Entry) -> bool
    ensures { result ≡ spec.shares types.now kind (entry_code entry.now) (entry_code other.now) }
{
    kind == other.kind
        && entry.name == other.name
        && all_meet(types, &entry.positions, &other.positions)
}
