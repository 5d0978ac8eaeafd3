//! How a replay, a run or a monitor comes to its end, and what is printed of it.

use crate::explanation::{Example, Explanation};
use crate::topic::Topic;

pub static DONE: Explanation = Explanation {
    topic: Topic::Done,
    meaning: "All actions of the list or the log were performed: their number stands behind `after`. Of a run it is what was\n\
        performed until each worker had had its turns.",
    example: Example::Replay {
        source: "automaton Door\n\
        signature input open\n\
        transitions input open\n\
        composition One components D: Door",
        list: "open",
    },
    mending: "There is nothing to mend.",
};

pub static NOT_AN_ACTION: Explanation = Explanation {
    topic: Topic::NotAnAction,
    meaning: "No component of the composition has this action: none has an entry of its name with as many positions, whose types\n\
        and constants its values fit. Its number in the list, from 0, stands behind `at`; what came before it was performed.",
    example: Example::Replay {
        source: "automaton Counter\n\
        signature output tick(k: Int)\n\
        states c: Int\n\
        transitions output tick pre k = c propose k := c eff c := c + 1\n\
        composition One components A: Counter",
        list: "tick(0)\n\
        tick",
    },
    mending: "Compare the line with the signatures, or take the composition that has the action by `--comp`. In this example:\n\
        it is `tick(1)`.",
};

pub static NOT_ENABLED: Explanation = Explanation {
    topic: Topic::NotEnabled,
    meaning: "The precondition of the component whose output or internal action this is, is false in the state to which the\n\
        actions before it lead, or that component is down. Its number in the list, from 0, stands behind `at`; what came\n\
        before it was performed. Of a monitor it says that the specification does not allow the action there.",
    example: Example::Replay {
        source: "automaton Counter\n\
        signature output tick(k: Int)\n\
        states c: Int\n\
        transitions output tick pre k = c propose k := c eff c := c + 1\n\
        composition One components A: Counter",
        list: "tick(0)\n\
        tick(0)",
    },
    mending: "Follow the states by hand up to this action. In this example: `c` is 1 after the first one, so `tick(1)`\n\
        is enabled.",
};

pub static PASSED_OVER: Explanation = Explanation {
    topic: Topic::PassedOver,
    meaning: "The specification has the name of this action, but no entry with as many positions, whose types and constants its values\n\
        fit: often the action is misspelled, or the specification is of another version. `ioac monitor` passes such an action\n\
        over, and with `--strict` tells the first one. Its number in the log, from 0, stands behind `at`.",
    example: Example::Monitor {
        source: "automaton Counter\n\
        signature output tick(k: Int)\n\
        states c: Int\n\
        transitions output tick pre k = c propose k := c eff c := c + 1\n\
        composition One components A: Counter",
        log: "{\"act\":\"tick(0)\",\"who\":0}\n\
        {\"act\":\"tick\",\"who\":0}\n\
        {\"end\":\"done after 2\"}",
    },
    mending: "Compare the action with the signatures of the specification, and mend the one that is wrong. In this example: it is\n\
        `tick(1)`.",
};

pub static NOTHING_TAKEN: Explanation = Explanation {
    topic: Topic::NothingTaken,
    meaning: "No action that the log tells to be performed has a name of the specification, so that nothing was specified of it.\n\
        `ioac monitor` accepts such a log, and with `--strict` tells it.",
    example: Example::Monitor {
        source: "automaton Counter\n\
        signature output tick(k: Int)\n\
        states c: Int\n\
        transitions output tick pre k = c propose k := c eff c := c + 1\n\
        composition One components A: Counter",
        log: "{\"act\":\"tock(0)\",\"who\":0}\n\
        {\"end\":\"done after 1\"}",
    },
    mending: "Compare the names in the log with those of the specification, or take the composition that has them by `--comp`. In\n\
        this example: it is `tick(0)`.",
};

pub static BROKEN: Explanation = Explanation {
    topic: Topic::Broken,
    meaning: "`invariant V of component C broken after N`: in the state after N actions of the log, the source's invariant of\n\
        number V, from 0, is false of component C, or its condition faults. It is the first one, by state, then by component,\n\
        then by its number.",
    example: Example::ReplayLog {
        source: "automaton Room\n\
        signature input enter\n\
        states inside: Int\n\
        transitions input enter eff inside := inside + 1\n\
        invariant of Room: inside <= 1\n\
        composition One components R: Room",
        log: "{\"act\":\"enter\",\"who\":1}\n\
        {\"act\":\"enter\",\"who\":1}\n\
        {\"end\":\"done after 2\"}",
    },
    mending: "Replay the log's first N actions, and see what the last of them does. Mend the transitions, or the invariant.",
};

pub static FINE: Explanation = Explanation {
    topic: Topic::Fine,
    meaning: "A check or a compilation has nothing to object to. Of a monitor, `monitor: ok` says that the specification accepts\n\
        each of its actions in the log.",
    example: Example::Told(
        "No source is needed to see it: `ioac library > links.ioa` and `ioac check links.ioa` print it.",
    ),
    mending: "There is nothing to mend. Whether compositions compose, `ioac check --compositions` tells.",
};
