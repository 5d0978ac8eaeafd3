//! Programs that are made of given tables, each component with one entry without positions, which is enabled at any time and does nothing.

use crate::tests::code::decoded;
use crate::tests::made::{Got, basic};
use ioa_code::{Code, Env, Instr, PartKind, verify};
use ioa_compile::{Entry, Member, Program, TableErr, Tables};
use ioa_node::{Decoded, from_values};
use ioa_tree::Kind;
use ioa_value::{Ty, Types, Value};
use std::alloc::Global;
use std::process::Abort;

/// A component's name, and its entry's kind and name.
type Given = (&'static str, Kind, &'static str);

/// Components, hidden names, and why they are no program, if they are none.
type Row = (&'static [Given], &'static [&'static str], Option<TableErr>);

static ROWS: [Row; 9] = [
    (&[("A", Kind::Output, "go")], &[], None),
    (&[("A", Kind::Internal, "go")], &[], None),
    (
        &[("A", Kind::Output, "go"), ("B", Kind::Input, "go")],
        &["go"],
        None,
    ),
    (
        &[("A", Kind::Output, "go"), ("B", Kind::Output, "go")],
        &[],
        Some(TableErr::Clash(0, 1)),
    ),
    (
        &[
            ("A", Kind::Output, "go"),
            ("B", Kind::Internal, "stay"),
            ("C", Kind::Input, "stay"),
        ],
        &[],
        Some(TableErr::Clash(1, 2)),
    ),
    (
        &[("A", Kind::Output, "go"), ("A", Kind::Output, "stay")],
        &[],
        Some(TableErr::Table),
    ),
    (&[("A", Kind::Input, "go")], &["go"], Some(TableErr::Table)),
    (&[("A", Kind::Output, "1")], &[], Some(TableErr::Table)),
    (&[], &[], Some(TableErr::Table)),
];

/// Code of this kind over no variables and no positions, with the constant true, which a precondition gives.
fn part(rt: &impl Abort, alloc: Global, types: &Types, kind: PartKind) -> Decoded {
    let (instrs, result): (&[Instr], &[Ty]) = match kind {
        PartKind::Pre => (&[Instr::Const(0)], &[Ty::BOOL]),
        _ => (&[], &[]),
    };
    let code = Code {
        instrs: instrs.to_vec(alloc).got(rt),
        consts: vec![in alloc; Value::Truth(true)].got(rt),
    };
    let env = Env {
        types,
        kind,
        slots: &[],
        arguments: &[],
        result,
    };
    let code = verify(alloc, code, &env).expect(rt, "valid code");
    decoded(rt, alloc, code)
}

/// The same of an entry of this kind: an input has neither precondition nor proposal.
fn own_part(
    rt: &impl Abort,
    alloc: Global,
    types: &Types,
    entry: Kind,
    kind: PartKind,
) -> Option<Decoded> {
    match entry {
        Kind::Input => None,
        _ => Some(part(rt, alloc, types, kind)),
    }
}

/// An entry of this kind and name.
fn entry(rt: &impl Abort, alloc: Global, types: &Types, kind: Kind, name: &str) -> Entry {
    Entry {
        kind,
        name: String::from_str(alloc, name).got(rt),
        positions: Vec::new(alloc),
        pre: own_part(rt, alloc, types, kind, PartKind::Pre),
        propose: own_part(rt, alloc, types, kind, PartKind::Propose),
        effect: part(rt, alloc, types, PartKind::Eff),
    }
}

fn member(rt: &impl Abort, alloc: Global, types: &Types, given: Given) -> Member {
    let entry = entry(rt, alloc, types, given.1, given.2);
    Member {
        name: String::from_str(alloc, given.0).got(rt),
        start: from_values(alloc, types, &[], &[]).got(rt),
        entries: vec![in alloc; entry].got(rt),
    }
}

/// These components.
fn members(rt: &impl Abort, alloc: Global, types: &Types, given: &[Given]) -> Vec<Member> {
    let mut members = Vec::new(alloc);
    for component in given {
        let member = member(rt, alloc, types, *component);
        members.push(member).got(rt);
    }
    members
}

/// These names.
fn hidden(rt: &impl Abort, alloc: Global, names: &[&str]) -> Vec<String> {
    let mut hidden = Vec::new(alloc);
    for name in names {
        let name = String::from_str(alloc, *name).got(rt);
        hidden.push(name).got(rt);
    }
    hidden
}

/// Why these components are no program, if they are none.
fn refusal(rt: &impl Abort, alloc: Global, given: &[Given], names: &[&str]) -> Option<TableErr> {
    let types = basic(rt, alloc);
    let members = members(rt, alloc, &types, given);
    let tables = Tables {
        types,
        name: String::from_str(alloc, "X").got(rt),
        members,
        hidden: hidden(rt, alloc, names),
    };
    Program::from_tables(alloc, tables).err()
}

#[test]
fn right_tables_are_programs(rt: HostRuntime) {
    for (given, hidden, wanted) in &ROWS {
        assert!(rt; refusal(&rt, rt.alloc(), given, hidden) == *wanted);
    }
}
