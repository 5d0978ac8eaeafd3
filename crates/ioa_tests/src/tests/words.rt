//! Operators on words beside those on values, over types and values that are drawn.

ghost use Rattle.std.specs.Prelude.{◌≡◌, true, map};
ghost use Rattle.ioa_value.specs.Plain.{number, plain};
ghost use Rattle.ioa_value.specs.Typing.{HaveTypes};

use crate::tests::made::{Got, parsed};
use ioa_check::check;
use ioa_node::Words;
use ioa_run::Seeded;
use ioa_value::{Field, Form, Op, Ty, Types, Value, apply, has_type, op_type};
use ioa_words::{Layout, decode, push_value, push_values};
use std::alloc::Global;
use std::process::Abort;

/// Types that have words of each kind: of one word and of more, with items and fields that are such.
const DECLARED: &str = "\
type Mode = enum { idle, busy } type Packet = tuple { mode: Mode, tag: Int } type Packets = seq 16 of Packet \
type Pair = tuple { a: Int, b: Bool } type Pairs = seq 2 of Pair type Ints = seq 3 of Int type Bools = seq 1 of Bool \
type Window = tuple { low: Int, sent: Ints, top: Pair } type Windows = seq 2 of Window type Nested = seq 2 of Pairs";

/// How many sources are drawn, how many types each declares, and how many values of each type are drawn.
const SOURCES: u64 = 20;

const TYPES: u32 = 6;

const VALUES: usize = 5;

/// Numbers that come often: about zero, where items are equal and places are within, and the ends of the range.
static NUMBERS: [i64; 8] = [0, 0, 1, 1, 2, -1, i64::MAX, i64::MIN];

/// The operators that take one operand, and those that take two.
static UNARY: [Op; 10] = [
    Op::Neg,
    Op::Not,
    Op::Len,
    Op::Head,
    Op::Last,
    Op::Tail,
    Op::Init,
    Op::Field(0),
    Op::Field(1),
    Op::Field(2),
];

static BINARY: [Op; 15] = [
    Op::Add,
    Op::Sub,
    Op::Mul,
    Op::Div,
    Op::Mod,
    Op::Lt,
    Op::Le,
    Op::Gt,
    Op::Ge,
    Op::Eq,
    Op::Ne,
    Op::Append,
    Op::At,
    Op::Without,
    Op::Member,
];

/// The type of this number.
fn numbered(rt: &impl Abort, number: usize) -> Ty {
    Ty(u16::try_from(number).expect(rt, "a type's number"))
}

/// The place of one of so many names, by the next word.
fn drawn_place(rt: &impl Abort, words: &mut Seeded, count: usize) -> u8 {
    let place = words.next() as usize % count.max(1);
    u8::try_from(place).expect(rt, "a name's place")
}

/// One of these, by the next word.
fn pick<'a, T>(rt: &impl Abort, words: &mut Seeded, items: &'a [T]) -> &'a T {
    let place = words.next() as usize % items.len().max(1);
    items.get(place).expect(rt, "an item")
}

/// The name of a type that stands before the one of this number.
fn drawn_name(rt: &impl Abort, alloc: Global, words: &mut Seeded, number: u32) -> String {
    let name = match words.next() as usize % (number as usize + 2) {
        0 => String::from_str(alloc, "Bool"),
        1 => String::from_str(alloc, "Int"),
        place => format!(in alloc; "T{}", place - 2),
    };
    name.got(rt)
}

/// The form of a type of this number.
fn drawn_form(rt: &impl Abort, alloc: Global, words: &mut Seeded, number: u32) -> String {
    let first = drawn_name(rt, alloc, words, number);
    let second = drawn_name(rt, alloc, words, number);
    let form = match words.next() % 5 {
        0 => format!(in alloc; "enum {{ x{number}, y{number}, z{number} }}"),
        1 | 2 => format!(in alloc; "tuple {{ a: {first}, b: {second} }}"),
        most => format!(in alloc; "seq {} of {first}", most - 2),
    };
    form.got(rt)
}

/// Declarations of types, each over those before it.
fn drawn_source(rt: &impl Abort, alloc: Global, words: &mut Seeded) -> String {
    let mut text = String::new(alloc);
    for number in 0..TYPES {
        let form = drawn_form(rt, alloc, words, number);
        let declaration = format!(in alloc; "type T{number} = {form} ").got(rt);
        text.push_str(&declaration).got(rt);
    }
    text
}

/// One of the drawn values of this type.
fn drawn_of(
    rt: &impl Abort,
    alloc: Global,
    words: &mut Seeded,
    drawn: &[Vec<Value>],
    ty: Ty,
) -> Value {
    let values = drawn.get(ty.0 as usize).expect(rt, "values");
    pick(rt, words, values).try_copy(alloc).got(rt)
}

/// Values of the fields.
fn drawn_parts(
    rt: &impl Abort,
    alloc: Global,
    words: &mut Seeded,
    drawn: &[Vec<Value>],
    fields: &[Field],
) -> Vec<Value> {
    let mut parts = Vec::new(alloc);
    for field in fields {
        let part = drawn_of(rt, alloc, words, drawn, field.ty);
        parts.push(part).got(rt);
    }
    parts
}

/// So many items, or fewer.
fn drawn_items(
    rt: &impl Abort,
    alloc: Global,
    words: &mut Seeded,
    drawn: &[Vec<Value>],
    most: u32,
    of: Ty,
) -> Vec<Value> {
    let mut items = Vec::new(alloc);
    for _ in 0..words.next() as usize % (most as usize + 1) {
        let item = drawn_of(rt, alloc, words, drawn, of);
        items.push(item).got(rt);
    }
    items
}

/// A value of the type, whose parts are among the drawn values of the types before it.
fn drawn_value(
    rt: &impl Abort,
    alloc: Global,
    words: &mut Seeded,
    types: &Types,
    drawn: &[Vec<Value>],
    ty: Ty,
) -> Value {
    match types.form(ty).expect(rt, "a type") {
        Form::Truths => Value::Truth(words.next() % 2 == 0),
        Form::Numbers => Value::Num(*pick(rt, words, &NUMBERS)),
        Form::Names(names) => Value::Name(ty, drawn_place(rt, words, names.len())),
        Form::Fields(fields) => Value::Tuple(ty, drawn_parts(rt, alloc, words, drawn, fields)),
        Form::Sequence(most, of) => {
            Value::Items(ty, drawn_items(rt, alloc, words, drawn, *most as u32, *of))
        }
    }
}

/// Values of each type, in the types' order.
fn drawn_values(
    rt: &impl Abort,
    alloc: Global,
    words: &mut Seeded,
    types: &Types,
) -> Vec<Vec<Value>> {
    let mut drawn = Vec::new(alloc);
    for number in 0..types.len() {
        let mut values = Vec::new(alloc);
        for _ in 0..VALUES {
            let value = drawn_value(rt, alloc, words, types, &drawn, numbered(rt, number));
            values.push(value).got(rt);
        }
        drawn.push(values).got(rt);
    }
    drawn
}

/// Whether these are values of these types, three at most.
fn have_types(types: &Types, values: &[Value], own: &[Ty]) -> bool
    ensures { result ≡ true → HaveTypes types.now (map plain values.now) (map number own.now) }
{
    match (values, own) {
        ([x], [a]) => has_type(types, x, *a),
        ([x, y], [a, b]) => has_type(types, x, *a) && has_type(types, y, *b),
        ([x, y, z], [a, b, c]) => {
            has_type(types, x, *a) && has_type(types, y, *b) && has_type(types, z, *c)
        }
        _ => false,
    }
}

/// Whether the operator on words makes of the words of these operands the words of what the operator makes of the operands, or has its
/// fault, where it takes operands of these types.
fn agrees(
    rt: &impl Abort,
    alloc: Global,
    layout: &Layout,
    op: Op,
    own: &[Ty],
    operands: &[Value],
) -> bool {
    let types = layout.types();
    let Some(_) = op_type(types, op, own) else {
        return true;
    };
    assert!(rt; have_types(types, operands, own));
    let mut words = Vec::new(alloc);
    push_values(layout, operands, &mut words).got(rt);
    let made = decode(layout, op, own).work(&mut words);
    match (apply(alloc, types, op, operands).got(rt), made) {
        (Ok(value), Ok(count)) => are_words(rt, alloc, layout, &value, &words, count),
        (Err(fault), Err(same)) => fault == same,
        _ => false,
    }
}

/// Whether the first so many words are the value's, and no others.
fn are_words(
    rt: &impl Abort,
    alloc: Global,
    layout: &Layout,
    value: &Value,
    words: &[i64],
    count: usize,
) -> bool {
    let mut wanted = Vec::new(alloc);
    push_value(layout, value, &mut wanted).got(rt);
    wanted.len() == count && words.starts_with(&wanted)
}

/// The types of a tuple's fields.
fn field_types(rt: &impl Abort, alloc: Global, types: &Types, ty: Ty) -> Vec<Ty> {
    let mut own = Vec::new(alloc);
    if let Some(Form::Fields(fields)) = types.form(ty) {
        for field in fields {
            own.push(field.ty).got(rt);
        }
    }
    own
}

/// The tuples among these values are made of their parts.
fn expect_made(rt: &impl Abort, alloc: Global, layout: &Layout, values: &[Value]) {
    for value in values {
        if let Value::Tuple(ty, parts) = value {
            let own = field_types(rt, alloc, layout.types(), *ty);
            assert!(rt; agrees(rt, alloc, layout, Op::Make(*ty), &own, parts));
        }
    }
}

/// The operator on each of these values of one type.
fn expect_each(rt: &impl Abort, alloc: Global, layout: &Layout, op: Op, ty: Ty, values: &[Value]) {
    for value in values {
        let operand = value.try_copy(alloc).got(rt);
        assert!(rt; agrees(rt, alloc, layout, op, &[ty], &[operand]));
    }
}

/// The operator on this value of a type and each of these of another.
fn expect_beside(
    rt: &impl Abort,
    alloc: Global,
    layout: &Layout,
    op: Op,
    own: [Ty; 2],
    value: &Value,
    others: &[Value],
) {
    for other in others {
        let operands = [value.try_copy(alloc).got(rt), other.try_copy(alloc).got(rt)];
        assert!(rt; agrees(rt, alloc, layout, op, &own, &operands));
    }
}

/// The operator on all drawn values of each type. Whether it takes any.
fn expect_unary(
    rt: &impl Abort,
    alloc: Global,
    layout: &Layout,
    drawn: &[Vec<Value>],
    op: Op,
) -> bool {
    let mut taken = false;
    for (number, values) in drawn.iter().enumerate() {
        let ty = numbered(rt, number);
        if op_type(layout.types(), op, &[ty]).is_some() {
            taken = true;
            expect_each(rt, alloc, layout, op, ty, values);
        }
    }
    taken
}

/// The operator on all drawn values of this type beside those of each type. Whether it takes any.
fn expect_binary_of(
    rt: &impl Abort,
    alloc: Global,
    layout: &Layout,
    drawn: &[Vec<Value>],
    op: Op,
    first: Ty,
    values: &[Value],
) -> bool {
    let mut taken = false;
    for (number, others) in drawn.iter().enumerate() {
        let own = [first, numbered(rt, number)];
        if op_type(layout.types(), op, &own).is_some() {
            taken = true;
            for value in values {
                expect_beside(rt, alloc, layout, op, own, value, others);
            }
        }
    }
    taken
}

/// The operator on all drawn values of each two types. Whether it takes any.
fn expect_binary(
    rt: &impl Abort,
    alloc: Global,
    layout: &Layout,
    drawn: &[Vec<Value>],
    op: Op,
) -> bool {
    let mut taken = false;
    for (number, values) in drawn.iter().enumerate() {
        let ty = numbered(rt, number);
        taken |= expect_binary_of(rt, alloc, layout, drawn, op, ty, values);
    }
    taken
}

/// All operators, over the types of this source and values of them that are drawn. Whether each of them takes some.
fn expect_operators(rt: &impl Abort, alloc: Global, words: &mut Seeded, source: &str) -> bool {
    let source = parsed(rt, alloc, source.as_bytes());
    let checked = check(alloc, source).expect(rt, "a checked source");
    let layout = Layout::new(alloc, checked.types().share().got(rt)).got(rt);
    let drawn = drawn_values(rt, alloc, words, layout.types());
    let mut all = true;
    for op in &UNARY {
        all &= expect_unary(rt, alloc, &layout, &drawn, *op);
    }
    for op in &BINARY {
        all &= expect_binary(rt, alloc, &layout, &drawn, *op);
    }
    for values in &drawn {
        expect_made(rt, alloc, &layout, values);
    }
    all
}

#[test]
fn operators_on_words_make_what_operators_make(rt: HostRuntime) {
    let alloc = rt.alloc();
    let mut words = Seeded::new([0; 32], 0);
    assert!(rt; expect_operators(&rt, alloc, &mut words, DECLARED));
    for _ in 0..SOURCES {
        let source = drawn_source(&rt, alloc, &mut words);
        expect_operators(&rt, alloc, &mut words, &source);
    }
}
