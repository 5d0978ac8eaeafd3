//! Parts of code, steps, and whole lists and logs, with little memory.

use crate::tests::code::{
    DIFFERENCE, SUMMING, changed, changing, comparing, holds, looping, number_of, numbered,
};
use crate::tests::drawn::{Given, proposing};
use crate::tests::made::{self, Got, Setting};
use crate::tests::memory::hoard::Spare;
use crate::tests::memory::lent::{is_log, is_program};
use crate::tests::memory::{Came, all_but};
use crate::tests::reached::told_states;
use crate::tests::resumed::TICKED;
use ioa_check::check;
use ioa_code::CodeErr;
use ioa_compile::{Program, compile};
use ioa_compose::{Composition, compose};
use ioa_device::LogErr;
use ioa_inspect::{Broken, invariants};
use ioa_monitor::{MonitorErr, monitor};
use ioa_node::propose;
use ioa_replay::replay;
use ioa_system::{End, Run, Step, System, run_list};
use ioa_value::{Action, Value};
use std::alloc::Global;
use std::process::Abort;

/// The code of a loop that adds the items of a sequence to a number.
pub fn verified(rt: &impl Abort, alloc: Global, lent: &Setting, spare: Spare) -> Came {
    let hoard = all_but(rt, alloc, spare);
    let answer = looping(alloc, lent.program.types(), SUMMING);
    drop(hoard);
    match answer {
        Ok(code) => Came::Answered.and(code.bound() == 20),
        Err(CodeErr::OutOfMemory) => Came::Wanting,
        Err(_) => Came::Wrong,
    }
}

/// A precondition of a variable and an argument.
pub fn enabled(rt: &impl Abort, alloc: Global, spare: Spare) -> Came {
    let types = made::basic(rt, alloc);
    let code = comparing(rt, alloc, &types);
    let state = numbered(rt, alloc, &types, 5);
    let hoard = all_but(rt, alloc, spare);
    let answer = holds(alloc, &code, &state, 5);
    drop(hoard);
    let came = match answer {
        Ok(answer) => Came::Answered.and(answer == Ok(true)),
        Err(_) => Came::Wanting,
    };
    came.and(number_of(rt, alloc, &state) == Some(5))
}

/// An effect that lessens a variable by an argument.
pub fn effect(rt: &impl Abort, alloc: Global, spare: Spare) -> Came {
    let types = made::basic(rt, alloc);
    let code = changing(rt, alloc, &types, &DIFFERENCE);
    let state = numbered(rt, alloc, &types, 5);
    let hoard = all_but(rt, alloc, spare);
    let answer = changed(alloc, &code, &state, 7);
    drop(hoard);
    let came = match answer {
        Ok(Ok(after)) => Came::Answered.and(number_of(rt, alloc, &after) == Some(-2)),
        Ok(Err(_)) => Came::Wrong,
        Err(_) => Came::Wanting,
    };
    came.and(number_of(rt, alloc, &state) == Some(5))
}

/// A proposal by a word, which a refusal may have taken.
pub fn proposed(rt: &impl Abort, alloc: Global, lent: &Setting, spare: Spare) -> Came {
    let (code, state) = proposing(&lent.program, 0, 0).expect(rt, "a proposal");
    let mut words = Given { words: &[17, 4] };
    let hoard = all_but(rt, alloc, spare);
    let answer = propose(alloc, code, state, &mut words);
    drop(hoard);
    match answer {
        Ok(Some(values)) => {
            let is_five = matches!(values.as_slice(), [Value::Num(5)]);
            Came::Answered.and(is_five && words.words.len() == 1)
        }
        Ok(None) => Came::Wrong,
        Err(_) => Came::Wanting,
    }
}

/// The states before the last action of a setting, and behind it.
type Stepped = (&'static str, &'static str);

/// A step of two components.
pub static ROLLED: Stepped = (", state(0, true), state(0)", ", state(1, true), state(5)");

/// A step whose effect is a loop over two items.
pub static FOLDED: Stepped = (", state(S[2, 5], 0)", ", state(S[], 7)");

/// The system in which the actions are performed.
fn reached_by<'a>(
    rt: &impl Abort,
    alloc: Global,
    program: &'a Program,
    actions: &[Action],
) -> System<'a> {
    let mut system = System::start(alloc, program).got(rt);
    for action in actions {
        assert!(rt; system.step(action).got(rt) == Step::Next);
    }
    system
}

/// The step of the last action.
pub fn stepped(
    rt: &impl Abort,
    alloc: Global,
    lent: &Setting,
    states: &Stepped,
    spare: Spare,
) -> Came {
    let (last, first) = lent.script.split_last().expect(rt, "an action");
    let mut system = reached_by(rt, alloc, &lent.program, first);
    let hoard = all_but(rt, alloc, spare);
    let answer = system.step(last);
    drop(hoard);
    let now = told_states(rt, alloc, lent.program.types(), system.states());
    match answer {
        Ok(step) => Came::Answered.and(step == Step::Next && now.as_str() == states.1),
        Err(_) => Came::Wanting.and(now.as_str() == states.0),
    }
}

/// A list whose last action is not enabled.
pub fn run(rt: &impl Abort, alloc: Global, lent: &Setting, spare: Spare) -> Came {
    let hoard = all_but(rt, alloc, spare);
    let answer = run_list(alloc, &lent.program, &lent.script);
    drop(hoard);
    match answer {
        Ok(run) => Came::Answered.and(is_played(rt, alloc, &lent.program, &run)),
        Err(_) => Came::Wanting,
    }
}

fn is_played(rt: &impl Abort, alloc: Global, program: &Program, run: &Run) -> bool {
    let states = told_states(rt, alloc, program.types(), &run.states);
    run.performed == 2
        && run.end == End::NotEnabled(2)
        && run.trace.len() == 2
        && states.as_str() == ", state(1, false), state(5)"
}

/// What came of a log that is refused so.
pub fn refused(error: LogErr) -> Came {
    match error {
        LogErr::OutOfMemory => Came::Wanting,
        _ => Came::Wrong,
    }
}

/// The log of the counter's run.
pub fn replayed(rt: &impl Abort, alloc: Global, lent: &Setting, spare: Spare) -> Came {
    let hoard = all_but(rt, alloc, spare);
    let answer = replay(alloc, &lent.program, &lent.log);
    drop(hoard);
    match answer {
        Ok(run) => Came::Answered.and(run.end == End::Done(3) && run.performed == 3),
        Err(error) => refused(error),
    }
}

/// Actions of which the specification does not accept the third one.
pub fn monitored(rt: &impl Abort, alloc: Global, lent: &Setting, spare: Spare) -> Came {
    let hoard = all_but(rt, alloc, spare);
    let answer = monitor(alloc, &lent.program, &lent.script);
    drop(hoard);
    match answer {
        Err(MonitorErr::OutOfMemory) => Came::Wanting,
        answer => Came::Answered.and(answer == Err(UNACCEPTED)),
    }
}

/// What the monitor answers.
const UNACCEPTED: MonitorErr = MonitorErr::At {
    index: 2,
    answer: Step::NotEnabled,
};

/// The counter, which is to stay below seven.
const BELOW: &str = "automaton Counter(start: Int) signature output tick(k: Int); input reset \
    states c: Int := start transitions output tick pre k = c propose k := c eff c := c + 1 \
    input reset eff c := start composition One components A: Counter(5) invariant of Counter: c < 7";

pub fn bounded(rt: &impl Abort, alloc: Global) -> Composition {
    let source = made::parsed(rt, alloc, BELOW.as_bytes());
    let checked = check(alloc, source).expect(rt, "a checked source");
    compose(alloc, &checked, None).expect(rt, "a composition")
}

/// Whether the composition is compiled as it is with ample memory, and its invariant is broken.
pub fn is_bounded(rt: &impl Abort, alloc: Global, composition: &Composition) -> bool {
    let program = compile(alloc, composition).got(rt);
    let log = made::log(rt, alloc, program.types(), TICKED);
    let broken = invariants(alloc, composition, &log).expect(rt, "a log of the program");
    broken == Some(BROKEN) && is_program(rt, alloc, &program, BELOW)
}

/// What is broken of the log's run.
pub const BROKEN: Broken = Broken {
    state: 2,
    component: 0,
    invariant: 0,
};

/// An invariant that is broken after two actions.
pub fn asked(rt: &impl Abort, alloc: Global, spare: Spare) -> Came {
    let composition = bounded(rt, alloc);
    let log = made::log(rt, alloc, composition.types(), TICKED);
    let hoard = all_but(rt, alloc, spare);
    let answer = invariants(alloc, &composition, &log);
    drop(hoard);
    let came = match answer {
        Ok(broken) => Came::Answered.and(broken == Some(BROKEN)),
        Err(error) => refused(error),
    };
    came.and(is_log(rt, alloc, composition.types(), &log, TICKED))
        .and(is_bounded(rt, alloc, &composition))
}
