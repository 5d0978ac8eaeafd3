//! Programs in memory: the states that lists of actions reach, and who performs an action.

use crate::tests::made::{Got, action, expect_so, expect_text, program};
use ioa_compile::Program;
use ioa_node::{NodeState, state_values};
use ioa_rows::COUNTER;
use ioa_system::{End, Participation, Run, is_external, owner, participants, run_list};
use ioa_value::{Action, Fault, Types, print_action, read_list};
use std::alloc::Global;
use std::process::Abort;

/// A step in which two inputs fault.
pub const TWO: &str = "
type S = seq 1 of Int
automaton Go signature output go states n: Int transitions output go eff n := n + 1
automaton Pick signature input go states s: S; x: Int transitions input go eff x := at(s, 0)
automaton Top signature input go states x: Int := 9223372036854775807 transitions input go eff x := x + 1
composition Two components G: Go; P: Pick; T: Top";

const FULL: &str = "
type S = seq 1 of Int
automaton Go signature output go states n: Int transitions output go eff n := n + 1
automaton Full signature input go states s: S transitions input go eff s := append(s, 1)
composition Both components G: Go; F: Full";

/// Two owners whose actions each change a third component.
pub const PUTS: &str = "
automaton Put(i: Int) signature output put(const i) states n: Int transitions output put eff n := n + 1
automaton Cell signature input put(i: Int) states x: Int transitions input put eff x := 1 - x
composition Puts components P: Put(0); Q: Put(1); C: Cell
hidden put";

const HOST: &str = "
type Ints = seq 16 of Int
automaton Host signature output put(m: Int) states q: Ints; stable t: Int
transitions output put pre m = t propose m := t eff q := append(q, m); t := t + 1
composition One components A: Host crash down recover up";

/// A source, a list of actions, and what is told of its run: how it ends, how many actions are performed, how many of them the trace
/// shows, and each component's values, as those of an action; of a host the last one is whether it is up.
static RUNS: [(&str, &str, &str); 10] = [
    (
        COUNTER,
        "tick(5)\ntick(6)\nreset\n",
        "done after 3, 3 performed, 3 shown, state(5)",
    ),
    (
        COUNTER,
        "tick(5)\nreset\ntick(6)",
        "not enabled at 2, 2 performed, 2 shown, state(5)",
    ),
    (
        TWO,
        "go",
        "fault 4 in component 1 at 0, 0 performed, 0 shown, state(0), state(S[], 0), state(9223372036854775807)",
    ),
    (
        FULL,
        "go\ngo",
        "fault 5 in component 1 at 1, 1 performed, 1 shown, state(1), state(S[1])",
    ),
    (
        PUTS,
        "put(0)\nput(1)\nput(1)\nput(2)",
        "done after 4, 4 performed, 1 shown, state(1), state(2), state(0)",
    ),
    (
        HOST,
        "put(0)\nput(1)",
        "done after 2, 2 performed, 2 shown, state(Ints[0, 1], 2, true)",
    ),
    (
        HOST,
        "put(0)\ndown\nput(1)",
        "not enabled at 2, 2 performed, 2 shown, state(Ints[], 1, false)",
    ),
    (
        HOST,
        "put(0)\ndown\ndown\nup\nup\nput(1)",
        "done after 6, 6 performed, 6 shown, state(Ints[1], 2, true)",
    ),
    (
        HOST,
        "put(0)\nup",
        "done after 2, 2 performed, 2 shown, state(Ints[0], 1, true)",
    ),
    (
        HOST,
        "down\nput(0)",
        "not enabled at 1, 1 performed, 1 shown, state(Ints[], 0, false)",
    ),
];

const PAIRS: &str = "
type Pair = tuple { a: Int, b: Bool }
type P = seq 2 of Pair
automaton A signature output take states q: P := append(empty(P), Pair(7, true)) transitions output take eff q := tail(q)
composition One components X: A";

/// A source of one component, a list of actions, and the words of the state that they reach.
static WORDS: [(&str, &str, &[i64]); 4] = [
    // no number in the queue, and room for 16; none is told yet; the host is up
    (
        HOST,
        "",
        &[0, 0, 0, 0, 0, 0, 0, 0, 0, 0, 0, 0, 0, 0, 0, 0, 0, 0, 1],
    ),
    (
        HOST,
        "put(0)\nput(1)",
        &[2, 0, 1, 0, 0, 0, 0, 0, 0, 0, 0, 0, 0, 0, 0, 0, 0, 2, 1],
    ),
    (PAIRS, "", &[1, 7, 1, 0, 0]),
    (PAIRS, "take", &[0, 0, 0, 0, 0]),
];

/// The values of a state, told as those of an action.
pub fn told_state(rt: &impl Abort, alloc: Global, types: &Types, state: &NodeState) -> String {
    let values = Action {
        name: String::from_str(alloc, ", state").got(rt),
        vals: state_values(alloc, state).got(rt),
    };
    print_action(alloc, types, &values).got(rt)
}

/// The values of these states.
pub fn told_states(rt: &impl Abort, alloc: Global, types: &Types, states: &[NodeState]) -> String {
    let mut text = String::new(alloc);
    for state in states {
        let told = told_state(rt, alloc, types, state);
        text.push_str(told.as_str()).got(rt);
    }
    text
}

/// The run of the list that is spelled so.
pub fn run_of(rt: &impl Abort, alloc: Global, program: &Program, list: &str) -> Run {
    let read = read_list(alloc, program.types(), list.as_bytes()).got(rt);
    let actions = read.ok().expect(rt, "a list");
    run_list(alloc, program, &actions).got(rt)
}

fn reached(rt: &impl Abort, alloc: Global, source: &str, list: &str) -> String {
    let program = program(rt, alloc, source, None);
    let run = run_of(rt, alloc, &program, list);
    let states = told_states(rt, alloc, program.types(), &run.states);
    let (end, performed, shown) = (run.end, run.performed, run.trace.len());
    let told = format!(in alloc; "{end}, {performed} performed, {shown} shown{states}");
    told.got(rt)
}

/// Whether the only state that the list reaches has these words.
fn has_words(rt: &impl Abort, alloc: Global, source: &str, list: &str, words: &[i64]) -> bool {
    let program = program(rt, alloc, source, None);
    let run = run_of(rt, alloc, &program, list);
    match run.states.as_slice() {
        [state] => state.words() == words,
        _ => false,
    }
}

#[test]
fn states_are_words(rt: HostRuntime) {
    for (source, list, words) in &WORDS {
        assert!(rt; has_words(&rt, rt.alloc(), source, list, words));
    }
}

#[test]
fn runs_reach_their_states(rt: HostRuntime) {
    for (source, list, wanted) in &RUNS {
        let told = reached(&rt, rt.alloc(), source, list);
        expect_text(&rt, told.as_str(), wanted);
    }
}

/// An end, and how many actions are performed before it.
static ENDS: [(End, usize); 4] = [
    (End::Done(3), 3),
    (End::NotAnAction(2), 2),
    (End::NotEnabled(1), 1),
    (End::Fault(0, Fault::Overflow, 4), 4),
];

#[test]
fn ends_count_actions(rt: HostRuntime) {
    for (end, count) in &ENDS {
        assert!(rt; end.performed() == *count);
    }
}

/// Who performs an action: its owner, how many components have it, and whether it is external.
type Performers = (Option<usize>, usize, bool);

/// A source, an action, and who performs it.
static OWNERS: [(&str, &str, Performers); 7] = [
    (COUNTER, "tick(5)", (Some(0), 1, true)),
    (COUNTER, "reset", (None, 1, true)),
    (COUNTER, "tock", (None, 0, true)),
    (PUTS, "put(0)", (Some(0), 2, false)),
    (PUTS, "put(1)", (Some(1), 2, false)),
    (PUTS, "put(2)", (None, 1, true)),
    (PUTS, "put(true)", (None, 0, true)),
];

fn performers(rt: &impl Abort, alloc: Global, source: &str, text: &str) -> Performers {
    let program = program(rt, alloc, source, None);
    let action = action(rt, alloc, program.types(), text);
    let participants = participants(alloc, &program, &action).got(rt);
    let participation = Participation::of(alloc, &program, &action).got(rt);
    let external = is_external(&program, &action);
    expect_so(rt, participation.is_external() == external, text);
    (owner(&program, &action), participants.len(), external)
}

#[test]
fn actions_have_owners(rt: HostRuntime) {
    for (source, text, wanted) in &OWNERS {
        let is_so = performers(&rt, rt.alloc(), source, text) == *wanted;
        expect_so(&rt, is_so, text);
    }
}
