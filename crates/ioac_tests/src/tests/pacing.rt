//! Which workers of a run on threads are of one group, and which wait for others as they begin a turn.

use ioa_serving::{Pace, groups_of, program_of};
use ioa_value::Action;
use std::alloc::Global;
use std::fmt::Write;
use std::process::Abort;

/// The group of each worker by a letter or a digit, and who begins a turn after whom: its number, then `h` where it is held and `g` where it
/// lets others go, and at last `x` where it waits in vain.
static ROWS: [(&str, &str); 11] = [
    ("0", "0g 0 0 0 0"),
    // all wait for the last one to come
    ("000", "0h 1h 2g 0 1 2"),
    // who is four turns ahead waits until the other has come to the fourth one
    ("00", "0h 1g 0 0 0 0h 1 1 1g 1 1 1"),
    // and it is the last one that lets go
    ("000", "0h 1h 2g 0 0 0 0h 1 1 1 2 2 2g"),
    // one that never comes is waited for once
    ("00", "0hx 0 0 0 0 0"),
    // where it comes late, it is waited for again, and lets go once the others are near
    ("00", "0hx 0 0 0 0 0 1g 0h 1 1 1g"),
    // so is one that stays away for a while, but not before it comes
    ("000", "0h 1h 2g 0 1 0 1 0 1 0hx 1 0 1 2 0h 1h 2 2g"),
    // those of two groups wait for each other at their first turn alone, and let nobody go from there
    ("01", "0h 1g 0 0 0 0 0 0 1 1 1 1"),
    // and where one never comes, or comes late, no later than that
    ("01", "0hx 0 0 0 0 1g 0 0 1 1 1"),
    // one between them is no matter to the others, and they are none to it
    ("010", "0h 1h 2g 0 0 0 0h 2 2 2g 1 1 1 1 1 1 0 0 0h 2"),
    // each group has its own pace
    ("0110", "0h 1h 2h 3g 0 0 0 0h 1 1 1 1h 2 2 2g 1 3 3 3g 0"),
];

/// Begins the turns of a row, one after another.
fn expect_row(rt: &impl Abort, alloc: Global, groups: &str, turns: &str) {
    let mut numbers = Vec::new(alloc);
    for group in groups.as_bytes() {
        numbers.push(usize::from(*group)).expect(rt, "memory");
    }
    let mut pace = Pace::new(alloc, &numbers).expect(rt, "memory");
    for turn in turns.split(' ') {
        let (who, marks) = turn.as_bytes().split_first().expect(rt, "a number");
        let arrival = pace.begin(usize::from(who.saturating_sub(b'0')));
        assert!(rt;
            arrival.is_held == marks.contains(&b'h'),
            "{turn} of {turns}"
        );
        assert!(rt;
            arrival.lets_go == marks.contains(&b'g'),
            "{turn} of {turns}"
        );
        if marks.contains(&b'x') {
            pace.give_up(arrival.worker);
            assert!(rt; !pace.is_held(arrival.worker), "{turn} of {turns}");
        }
    }
}

#[test]
fn workers_wait_for_those_behind(rt: HostRuntime) {
    for (groups, turns) in &ROWS {
        expect_row(&rt, rt.alloc(), groups, turns);
    }
}

/// A source, the names of the actions of a script, and for each component and for the environment the first worker of its group.
static GROUPS: [(&str, &str, &str); 8] = [
    // nobody has an action of another, also where there is one name
    (
        "automaton A(i: Int) signature internal go(const i) transitions internal go composition C components P: A(0); Q: A(1); R: A(2)",
        "",
        "0 1 2 3 ",
    ),
    // who gives something is with those that take it
    (
        "automaton G signature output go transitions output go automaton T signature input go transitions input go \
         automaton N signature internal no transitions internal no composition C components P: T; Q: N; R: G; S: T",
        "",
        "0 1 0 0 4 ",
    ),
    // by way of others, in whatever order
    (
        "automaton A signature output x transitions output x automaton B signature input x; output y transitions input x output y \
         automaton D signature input y; output z transitions input y output z automaton E signature input z transitions input z \
         composition C components P: A; Q: E; R: D; S: B",
        "",
        "0 0 0 0 4 ",
    ),
    // two that take something which none gives
    (
        "automaton T signature input go transitions input go composition C components P: T; Q: T",
        "",
        "0 0 2 ",
    ),
    // the environment is with those on which its script acts
    (
        "automaton T signature input go transitions input go composition C components P: T; Q: T",
        "go",
        "0 0 0 ",
    ),
    (
        "automaton S signature input here transitions input here automaton T signature input there transitions input there \
         composition C components P: S; Q: T",
        "there",
        "0 1 1 ",
    ),
    (
        "automaton S signature input here transitions input here automaton T signature input there transitions input there \
         composition C components P: S; Q: T",
        "there here",
        "0 0 0 ",
    ),
    // what takes a host down is an action like others
    (
        "automaton N(i: Int) signature internal no(const i) transitions internal no \
         composition C components P: N(0) crash down recover up; Q: N(1) crash down recover rise; R: N(2)",
        "",
        "0 0 2 3 ",
    ),
];

/// The actions of these names, which have no values.
fn script_of(rt: &impl Abort, alloc: Global, names: &str) -> Vec<Action> {
    let mut script = Vec::new(alloc);
    for name in names.split(' ') {
        if !name.is_empty() {
            let action = Action {
                name: String::from_str(alloc, name).expect(rt, "memory"),
                vals: Vec::new(alloc),
            };
            script.push(action).expect(rt, "memory");
        }
    }
    script
}

/// For each of these groups its first worker.
fn first_workers(rt: &impl Abort, alloc: Global, groups: &[usize]) -> String {
    let mut text = String::new(alloc);
    for group in groups {
        let first = first_worker(groups, *group).expect(rt, "a worker");
        write!(text, "{first} ").expect(rt, "memory");
    }
    text
}

/// The first worker of the group.
fn first_worker(groups: &[usize], group: usize) -> Option<usize> {
    for (who, other) in groups.iter().enumerate() {
        if *other == group {
            return Some(who);
        }
    }
    None
}

#[test]
fn workers_are_in_groups(rt: HostRuntime) {
    for (source, names, wanted) in &GROUPS {
        let program = program_of(rt.alloc(), source.as_bytes(), None);
        assert!(rt; program.is_ok(), "no program of {source}");
        let program = program.ok().expect(&rt, "a program");
        let script = script_of(&rt, rt.alloc(), names);
        let groups = groups_of(rt.alloc(), &program, &script).expect(&rt, "memory");
        let found = first_workers(&rt, rt.alloc(), &groups);
        assert!(rt; found.as_str() == *wanted, "{source}");
    }
}
