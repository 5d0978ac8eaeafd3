//! The operators, on values that are read as those of an action.

ghost use Rattle.std.specs.Prelude.{◌≡◌, true, map};
ghost use Rattle.ioa_value.specs.Operators.{Takes};
ghost use Rattle.ioa_value.specs.Plain.{plain};

use crate::tests::made::{Got, action, expect_so, parsed};
use ioa_check::check;
use ioa_rows::{column, columns};
use ioa_value::{Action, Op, Ty, Types, Value, apply, print_action};
use std::alloc::Global;
use std::process::Abort;

const DECLARED: &str = "type S = seq 3 of Int type T = tuple { a: Int, b: Int }";

/// The type of pairs that is declared so, after Bool, Int and the sequences.
const PAIR: Ty = Ty(3);

/// Operators, each with rows: an action that has its operands, and what it gives: its value, as an action's without a name, or its fault.
static OPERATORS: [(Op, &str); 23] = [
    // those that give numbers
    (
        Op::Add,
        "\
on(2, 3) | (5)
on(9223372036854775807, 0) | (9223372036854775807)
on(9223372036854775807, -9223372036854775808) | (-1)
on(9223372036854775807, 1) | fault 1
on(-9223372036854775808, -1) | fault 1",
    ),
    (
        Op::Sub,
        "\
on(2, 3) | (-1)
on(-1, 9223372036854775807) | (-9223372036854775808)
on(-1, -9223372036854775808) | (9223372036854775807)
on(-9223372036854775808, 1) | fault 1
on(0, -9223372036854775808) | fault 1",
    ),
    (
        Op::Mul,
        "\
on(-7, 6) | (-42)
on(-9223372036854775808, -1) | fault 1",
    ),
    (
        Op::Div,
        "\
on(-7, 2) | (-4)
on(-7, -2) | (4)
on(7, -2) | (-3)
on(-9223372036854775808, -1) | fault 1
on(3, 0) | fault 2",
    ),
    (
        Op::Mod,
        "\
on(-7, 2) | (1)
on(-7, -2) | (1)
on(-9223372036854775808, -1) | (0)
on(3, 0) | fault 2",
    ),
    (
        Op::Neg,
        "\
on(7) | (-7)
on(-9223372036854775808) | fault 1",
    ),
    // those that give truth values
    (
        Op::Lt,
        "\
on(2, 2) | (false)",
    ),
    (
        Op::Le,
        "\
on(2, 2) | (true)",
    ),
    (
        Op::Gt,
        "\
on(3, 2) | (true)",
    ),
    (
        Op::Ge,
        "\
on(-9223372036854775808, 9223372036854775807) | (false)",
    ),
    (
        Op::Eq,
        "\
on(2, 2) | (true)
on(2, 3) | (false)
on(-9223372036854775808, -9223372036854775808) | (true)
on(-9223372036854775808, 9223372036854775807) | (false)",
    ),
    (
        Op::Ne,
        "\
on(2, 3) | (true)",
    ),
    (
        Op::Not,
        "\
on(false) | (true)",
    ),
    // those on sequences, and one that makes a tuple
    (
        Op::Len,
        "\
on(S[]) | (0)
on(S[5, 6]) | (2)",
    ),
    (
        Op::Head,
        "\
on(S[5, 6]) | (5)
on(S[]) | fault 3",
    ),
    (
        Op::Tail,
        "\
on(S[5, 6, 7]) | (S[6, 7])
on(S[5]) | (S[])
on(S[]) | fault 3",
    ),
    (
        Op::Last,
        "\
on(S[5, 6]) | (6)
on(S[]) | fault 3",
    ),
    (
        Op::Init,
        "\
on(S[5, 6, 7]) | (S[5, 6])
on(S[5]) | (S[])
on(S[]) | fault 3",
    ),
    (
        Op::Append,
        "\
on(S[], 5) | (S[5])
on(S[5, 6], 7) | (S[5, 6, 7])
on(S[5, 6, 7], 8) | fault 5",
    ),
    (
        Op::At,
        "\
on(S[5, 6], 0) | (5)
on(S[5, 6], 1) | (6)
on(S[5, 6], 2) | fault 4
on(S[5, 6], -1) | fault 4
on(S[], 0) | fault 4",
    ),
    (
        Op::Member,
        "\
on(6, S[5, 6]) | (true)
on(7, S[5, 6]) | (false)
on(0, S[]) | (false)",
    ),
    (
        Op::Without,
        "\
on(S[5, 6, 5], 5) | (S[6, 5])
on(S[5, 6], 7) | (S[5, 6])
on(S[], 5) | (S[])
on(S[5], 5) | (S[])",
    ),
    (
        Op::Make(PAIR),
        "\
on(5, 6) | (T(5, 6))",
    ),
];

/// Whether these are operands of the operator, and numbers where it takes values of any type.
fn takes(types: &Types, op: Op, operands: &[Value]) -> bool
    ensures { result ≡ true → Takes types.now op (map plain operands.now) }
{
    match op {
        Op::Neg => matches!(operands, [Value::Num(_)]),
        Op::Not => matches!(operands, [Value::Truth(_)]),
        Op::Add
        | Op::Sub
        | Op::Mul
        | Op::Div
        | Op::Mod
        | Op::Lt
        | Op::Le
        | Op::Gt
        | Op::Ge
        | Op::Eq
        | Op::Ne => matches!(operands, [Value::Num(_), Value::Num(_)]),
        Op::Len | Op::Head | Op::Tail | Op::Last | Op::Init => {
            matches!(operands, [Value::Items(_, _)])
        }
        Op::Append | Op::At | Op::Without => {
            matches!(operands, [Value::Items(_, _), Value::Num(_)])
        }
        Op::Member => matches!(operands, [Value::Num(_), Value::Items(_, _)]),
        Op::Make(_) => operands.len() == op.arity(types),
        Op::Field(_) => false,
    }
}

/// The value, as an action's without a name.
fn nameless(rt: &impl Abort, alloc: Global, types: &Types, value: Value) -> String {
    let mut vals = Vec::new(alloc);
    vals.push(value).got(rt);
    let name = String::new(alloc);
    print_action(alloc, types, &Action { name, vals }).got(rt)
}

/// What an operator gives of these operands, or the fault.
fn given(rt: &impl Abort, alloc: Global, types: &Types, op: Op, operands: &[Value]) -> String {
    assert!(rt; takes(types, op, operands));
    match apply(alloc, types, op, operands).got(rt) {
        Ok(value) => nameless(rt, alloc, types, value),
        Err(fault) => {
            let number = fault.number();
            format!(in alloc; "fault {number}").got(rt)
        }
    }
}

fn expect_rows(rt: &impl Abort, alloc: Global, types: &Types, op: Op, rows: &str) {
    for row in rows.lines() {
        let columns = columns(alloc, row).expect(rt, "a row");
        let action = action(rt, alloc, types, column(&columns, 0));
        let given = given(rt, alloc, types, op, &action.vals);
        expect_so(rt, given.as_str() == column(&columns, 1), row);
    }
}

#[test]
fn operators_give_values_and_faults(rt: HostRuntime) {
    let alloc = rt.alloc();
    let source = parsed(&rt, alloc, DECLARED.as_bytes());
    let checked = check(alloc, source).expect(&rt, "a checked source");
    for (op, rows) in &OPERATORS {
        expect_rows(&rt, alloc, checked.types(), *op, rows);
    }
}
