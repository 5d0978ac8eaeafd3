//! Words of chance, and what is proposed by them.

ghost use Rattle.std.specs.Prelude.{◌≡◌, [], IfSome};
ghost use Rattle.ioa_code.specs.declared.instr.PartKind.TheVariants as kinds;

use crate::tests::made::{Got, expect_so, program};
use ioa_compile::Program;
use ioa_node::{Decoded, NodeState, Words, Workspace, propose, propose_with};
use ioa_rows::GAME;
use ioa_run::Seeded;
use ioa_value::{Action, Value, print_action, same_all};
use std::alloc::Global;
use std::process::Abort;

const ZERO: [u8; 32] = [0; 32];

const ONE: [u8; 32] = [
    1, 0, 0, 0, 0, 0, 0, 0, 0, 0, 0, 0, 0, 0, 0, 0, 0, 0, 0, 0, 0, 0, 0, 0, 0, 0, 0, 0, 0, 0, 0, 0,
];

/// A key, a stream, how many words are passed over, and those that come then: of the published keystreams of ChaCha8 whose key and nonce
/// are zero, whose key begins with 1, and whose nonce begins with 1.
static SEEDS: [([u8; 32], u64, usize, [u32; 4]); 4] = [
    (ZERO, 0, 0, [0x2fef003e, 0xd6405f89, 0xe8b85b7f, 0xa1a5091f]),
    (
        ZERO,
        0,
        16,
        [0x0dfaaed2, 0x51c1a5ea, 0x6cdb0abf, 0xada5f201],
    ),
    (ONE, 0, 0, [0xa0e95ecf, 0x61a94a49, 0xedd5053e, 0x4b805b72]),
    (ZERO, 1, 0, [0xb34b8f2b, 0xca068379, 0x7cd43051, 0xd14e8d4f]),
];

#[test]
fn seeds_give_words(rt: HostRuntime) {
    for (key, stream, passed, wanted) in &SEEDS {
        let mut words = Seeded::new(*key, *stream);
        for _ in 0..*passed {
            words.next();
        }
        for word in wanted {
            assert!(rt; words.next() == *word);
        }
    }
}

/// Words that are given, and then 0 for ever.
#[derive(Drop)]
pub struct Given<'a> {
    pub words: &'a [u32],
}

impl<'a> Words for Given<'a> {
    ghost use Rattle.std.specs.Prelude.{get_or};

    ghost stream = { λ s k. get_or s.words.now k 0 };

    fn next(&mut self) -> u32 {
        match self.words.split_first() {
            Some((first, rest)) => {
                self.words = rest;
                *first
            }
            None => 0,
        }
    }
}

/// What is proposed by chance, and not at all.
const DRAW: &str = "
type Hue = enum { red, green, blue }
automaton Draw(n: Int) signature output all(d: Int, b: Bool, const n, h: Hue, x: Int);
internal none(const n, b: Bool, e: Int, c: Bool); internal fault(b: Bool, e: Int, const n, h: Hue); internal least(e: Int, const n)
states s: Int := 3 transitions output all propose x := s + n, d := any(n) internal none propose e := any(n - 6)
internal fault propose e := 1 div (s - 3) internal least propose e := any(0 - 1)
composition One components A: Draw(6); B: Draw(7)";

/// The number of a component, and the place of an entry in it.
type Place = (usize, usize);

/// A source, the place of an entry, words, what is proposed, and how many words are left.
type Draw = (
    &'static str,
    Place,
    &'static [u32],
    Option<&'static str>,
    usize,
);

static DRAWS: [Draw; 9] = [
    (GAME, (0, 0), &[17, 4], Some("roll(5)"), 1),
    (GAME, (0, 0), &[4294967295], Some("roll(3)"), 0),
    (GAME, (1, 1), &[1, 2], Some("tell(0)"), 2),
    (
        DRAW,
        (0, 0),
        &[17, 3, 5, 9],
        Some("all(5, true, blue, 9)"),
        1,
    ),
    (
        DRAW,
        (1, 0),
        &[17, 4, 3, 9],
        Some("all(3, false, red, 10)"),
        1,
    ),
    (DRAW, (0, 1), &[1, 2, 3], None, 2),
    (DRAW, (1, 1), &[1, 2, 3], Some("none(true, 0, true)"), 0),
    (DRAW, (0, 2), &[1, 2, 3], None, 2),
    (DRAW, (0, 3), &[1, 2, 3], None, 3),
];

/// The code that proposes, of the entry in this place of the component of this number, with the state in which the component starts.
pub fn proposing(program: &Program, number: usize, place: usize) -> Option<(&Decoded, &NodeState)>
    ensures { IfSome result (λ r. (r.0.now.kind ≡ kinds.Propose) × (r.0.now.args ≡ []) × (r.1.now.table ≡ r.0.now.code.types) × (r.1.now.types ≡ r.0.now.slots)) }
{
    let member = program.members().get(number)?;
    let entry = member.entries.get(place)?;
    let code = entry.propose.as_ref()?;
    Some((code, &member.start))
}

/// Whether this is proposed by the words, and so many of them are left, with a workspace and without one.
fn is_drawn(
    rt: &impl Abort,
    alloc: Global,
    workspace: &mut Workspace,
    program: &Program,
    draw: &Draw,
) -> bool {
    let (code, state) = proposing(program, draw.1.0, draw.1.1).expect(rt, "a proposal");
    let mut given = Given { words: draw.2 };
    let values = propose(alloc, code, state, &mut given).got(rt);
    let mut again = Given { words: draw.2 };
    let same = propose_with(alloc, workspace, code, state, &mut again).got(rt);
    are_same(&values, &same)
        && given.words.len() == draw.4
        && again.words.len() == draw.4
        && are_wanted(rt, alloc, program, draw, values)
}

fn are_same(these: &Option<Vec<Value>>, those: &Option<Vec<Value>>) -> bool {
    match (these, those) {
        (Some(these), Some(those)) => same_all(these, those),
        (None, None) => true,
        _ => false,
    }
}

/// Whether these values are wanted.
fn are_wanted(
    rt: &impl Abort,
    alloc: Global,
    program: &Program,
    draw: &Draw,
    values: Option<Vec<Value>>,
) -> bool {
    match values {
        Some(values) => draw.3 == Some(told_values(rt, alloc, program, draw.1, values).as_str()),
        None => draw.3.is_none(),
    }
}

/// The values, as those of the entry's action.
fn told_values(
    rt: &impl Abort,
    alloc: Global,
    program: &Program,
    place: Place,
    vals: Vec<Value>,
) -> String {
    let member = program.members().get(place.0).expect(rt, "a component");
    let entry = member.entries.get(place.1).expect(rt, "an entry");
    let name = entry.name.clone().got(rt);
    print_action(alloc, program.types(), &Action { name, vals }).got(rt)
}

#[test]
fn words_decide_what_is_proposed(rt: HostRuntime) {
    let alloc = rt.alloc();
    let mut workspace = Workspace::new(alloc);
    for draw in &DRAWS {
        let program = program(&rt, alloc, draw.0, None);
        let is_so = is_drawn(&rt, alloc, &mut workspace, &program, draw);
        expect_so(&rt, is_so, draw.0);
    }
}
