//! Objects: they are whole, and bytes of which one is another are no object or the one object of another program, which is performed.

use crate::tests::made::{self, Got, expect_so, expect_text};
use ioa_compile::Program;
use ioa_device::Counted;
use ioa_loader::read_object;
use ioa_object::{ObjErr, write_object};
use ioa_replay::replay_list;
use ioa_rows::COUNTER;
use std::alloc::Global;
use std::process::Abort;

/// An object of a composition `X`, whose component `A` has the output `go`, with a precondition that is true.
static SMALLEST: [u8; 39] = [
    0x7F, 0x49, 0x4F, 0x41, 0x01, 0, 0, 1, 0x58, 1, 0, 1, 0x41, 0, 0, 1, 0, 1, 2, 0x67, 0x6F, 0, 0,
    1, 0, 0, 0, 1, 1, 0, 1, 0, 0, 0, 0, 0, 0, 0, 0,
];

/// A source with each form of type, of position and of value, and a component that crashes.
const STORE: &str = "type Hue = enum { red, green, blue } type S = seq 3 of Int \
    type P = tuple { hue: Hue, list: S, on: Bool } type Ps = seq 2 of P \
    automaton Store(n: Int, h: Hue) signature output put(const n, p: P); input take(p: P, const h); internal drop(k: Hue) \
    states ps: Ps; old: P; h0: Hue := h; m: Int := -n \
    transitions output put pre len(ps) > 0 /\\ p = head(ps) propose p := head(ps) \
    eff ps := tail(ps); if p.on then m := m * 2 else m := m mod 3 fi \
    input take eff if len(ps) < 2 then ps := append(ps, P(h0, append(empty(S), m), ~p.on)) fi; old := p \
    internal drop pre member(old, ps) \\/ k = green propose k := red eff ps := without(ps, old) \
    automaton Other signature input put(const 4, p: P); output take(p: P, const red) states x: Bool; stable y: Int \
    transitions input put eff x := ~x; y := y + 1 \
    output take pre x => at(p.list, 0) <= 4 propose p := P(blue, empty(S), true) \
    composition Both components A: Store(4, red); B: Other crash down recover up hidden take";

/// The sum of what was put, by a loop whose statements empty the sequence.
pub const SUMS: &str =
    "type S = seq 3 of Int automaton Sum signature input put(a: Int); internal fold states s: S; n: Int \
    transitions input put eff s := append(s, a) internal fold eff for y in s do n := n + y; s := empty(S) od \
    composition Sums components A: Sum";

/// What is put, and added up.
const FOLDED: &str = "put(2)\nput(5)\nfold\n";

/// The object of the source's program.
fn object(rt: &impl Abort, alloc: Global, source: &str) -> Vec<u8> {
    let program = made::program(rt, alloc, source, None);
    write_object(alloc, &program).got(rt)
}

/// Whether the program performs the list up to an end.
fn performs(alloc: Global, program: &Program, list: &str) -> bool {
    let mut input = Counted::new(list.as_bytes());
    let mut output = Counted::new(Vec::new(alloc));
    replay_list(alloc, program, &mut input, &mut output).is_ok()
}

/// Whether the bytes are the one object of the program that is read of them, if one is, and whether that performs the list.
fn is_object(rt: &impl Abort, alloc: Global, bytes: &[u8], list: &str) -> Option<bool> {
    match read_object(alloc, bytes) {
        Ok(program) => {
            let again = write_object(alloc, &program).got(rt);
            Some(again.as_slice() == bytes && performs(alloc, &program, list))
        }
        Err(_) => None,
    }
}

/// Of how many values of this byte the bytes are an object. Each other one is refused, and none is the object's own.
fn taken_at(rt: &impl Abort, alloc: Global, object: &[u8], place: usize, list: &str) -> u32 {
    let mut bytes = Vec::from_slice(alloc, object).got(rt);
    let mut taken: u32 = 0;
    for byte in 0..=255 {
        if let Some(changed) = bytes.get_mut(place) {
            *changed = byte;
        }
        let (is_right, count) = match is_object(rt, alloc, &bytes, list) {
            Some(is_right) => (is_right, 1),
            None => (bytes.as_slice() != object, 0),
        };
        assert!(rt; is_right, "{place} {byte}");
        taken = taken.saturating_add(count);
    }
    taken
}

/// Each other byte in each place is refused, or gives another object, and some do.
fn expect_changes(rt: &impl Abort, alloc: Global, object: &[u8], list: &str) {
    let mut taken: u32 = 0;
    for place in 0..object.len() {
        taken = taken.saturating_add(taken_at(rt, alloc, object, place, list));
    }
    assert!(rt; taken as usize > object.len());
}

#[test]
fn each_byte_is_changed(rt: HostRuntime) {
    expect_changes(&rt, rt.alloc(), &SMALLEST, "go\n");
}

#[test]
fn each_byte_of_a_loop_is_changed(rt: HostRuntime) {
    let alloc = rt.alloc();
    let sums = object(&rt, alloc, SUMS);
    expect_changes(&rt, alloc, &sums, FOLDED);
}

/// Whether no part of the bytes that ends before them is an object, but is told to be none or a cut one.
fn is_cut(alloc: Global, bytes: &[u8]) -> bool {
    for length in 0..bytes.len() {
        let wanted = if length < 4 {
            ObjErr::Magic
        } else {
            ObjErr::Truncated
        };
        match read_object(alloc, &bytes[..length]) {
            Err(error) if error == wanted => {}
            _ => return false,
        }
    }
    true
}

/// Whether the bytes are an object, and cut anywhere are told to be no object or a cut one.
fn is_whole(rt: &impl Abort, alloc: Global, bytes: &[u8]) -> bool {
    let read = read_object(alloc, bytes).expect(rt, "an object");
    let again = write_object(alloc, &read).got(rt);
    again.as_slice() == bytes && is_cut(alloc, bytes)
}

/// The same of the object of the source's program, of which that program is read.
fn expect_whole(rt: &impl Abort, alloc: Global, source: &str) {
    let program = made::program(rt, alloc, source, None);
    let bytes = write_object(alloc, &program).got(rt);
    let read = read_object(alloc, &bytes).expect(rt, "an object");
    expect_so(
        rt,
        read.same(&program) && is_whole(rt, alloc, &bytes),
        source,
    );
}

#[test]
fn objects_are_whole(rt: HostRuntime) {
    let alloc = rt.alloc();
    assert!(rt; is_whole(&rt, alloc, &SMALLEST));
    expect_whole(&rt, alloc, COUNTER);
    expect_whole(&rt, alloc, STORE);
    expect_whole(&rt, alloc, SUMS);
}

/// A source, the version of its object, another one, and why the object is refused with that. The second version is that of objects with a
/// loop: one without has it for nothing, and the first does not know a loop's first instruction, here the second one of the effect of `fold`,
/// which is the fourth part.
static VERSIONS: [(&str, u8, u8, ObjErr); 5] = [
    (COUNTER, 1, 2, ObjErr::Version),
    (STORE, 1, 2, ObjErr::Version),
    (SUMS, 2, 1, ObjErr::BadCode(3, 1)),
    (SUMS, 2, 0, ObjErr::Version),
    (SUMS, 2, 3, ObjErr::Version),
];

/// Whether the source's object has this version, and with the other one is refused so.
fn is_refused(
    rt: &impl Abort,
    alloc: Global,
    source: &str,
    version: u8,
    other: u8,
    wanted: ObjErr,
) -> bool {
    let mut bytes = object(rt, alloc, source);
    let byte = bytes.get_mut(4).expect(rt, "a version");
    let is_own = *byte == version;
    *byte = other;
    is_own && read_object(alloc, &bytes).err() == Some(wanted)
}

#[test]
fn versions_are_needed(rt: HostRuntime) {
    for (source, version, other, wanted) in &VERSIONS {
        let is_so = is_refused(&rt, rt.alloc(), source, *version, *other, *wanted);
        expect_so(&rt, is_so, source);
    }
}

/// Why bytes are no object, and the text that tells it: with the byte, or with the part and the place, counted from 0.
static TEXTS: [(ObjErr, &str); 8] = [
    (ObjErr::Magic, "no object"),
    (ObjErr::Version, "another version"),
    (ObjErr::Truncated, "the object is cut"),
    (ObjErr::Trailing, "bytes follow the object"),
    (ObjErr::BadTable(37), "byte 37 is wrong"),
    (ObjErr::BadCode(3, 1), "part 3 is wrong at place 1"),
    (ObjErr::Clash, "components clash"),
    (ObjErr::OutOfMemory, "memory"),
];

#[test]
fn refusals_have_texts(rt: HostRuntime) {
    let alloc = rt.alloc();
    for (refusal, wanted) in &TEXTS {
        let told = format!(in alloc; "{refusal}").got(&rt);
        expect_text(&rt, told.as_str(), wanted);
    }
}
