//! Why an operator has no value.

use crate::explanation::{Example, Explanation};
use crate::topic::Topic;
use ioa_arithmetic::Fault;

pub static OVERFLOW: Explanation = Explanation {
    topic: Topic::Fault(Fault::Overflow),
    meaning: "The result of `+`, `-`, `*` or `div` is no number of 64 bits. Where a precondition or an effect faults, the run\n\
        ends before this action, and nothing of it is done.",
    example: Example::Replay {
        source: "automaton Counter\n\
        signature output tick\n\
        states c: Int := 9223372036854775807\n\
        transitions output tick eff c := c + 1\n\
        composition One components A: Counter",
        list: "tick",
    },
    mending: "Say in the precondition up to where it counts, as `pre c < 100`, or begin again at 0.",
};

pub static ZERO_DIVISOR: Explanation = Explanation {
    topic: Topic::Fault(Fault::ZeroDivisor),
    meaning: "The divisor of `div` or `mod` is 0. Where a precondition or an effect faults, the run ends before this action,\n\
        and nothing of it is done.",
    example: Example::Replay {
        source: "automaton Turns\n\
        signature output next\n\
        states turn: Int; workers: Int\n\
        transitions output next eff turn := (turn + 1) mod workers\n\
        composition One components A: Turns",
        list: "next",
    },
    mending: "Ask before, as in `pre workers > 0`. In this example: `workers` has no start value, so it is 0: give it one.",
};

pub static EMPTY: Explanation = Explanation {
    topic: Topic::Fault(Fault::Empty),
    meaning: "`head`, `last`, `tail` or `init` is asked of a sequence that is empty. Where a precondition or an effect faults,\n\
        the run ends before this action, and nothing of it is done.",
    example: Example::Replay {
        source: "type Queue = seq 4 of Int\n\
        automaton Channel\n\
        signature output recv(m: Int)\n\
        states q: Queue\n\
        transitions output recv pre m = head(q) propose m := head(q) eff q := tail(q)\n\
        composition One components A: Channel",
        list: "recv(1)",
    },
    mending: "Ask before whether there is an item. In this example: `pre len(q) > 0 /\\ m = head(q)`, since `/\\` stops where\n\
        its first part is false.",
};

pub static OUT_OF_RANGE: Explanation = Explanation {
    topic: Topic::Fault(Fault::OutOfRange),
    meaning: "`at(s, i)` is asked for an item that the sequence does not have: its items are numbered from 0. Where a precondition\n\
        or an effect faults, the run ends before this action, and nothing of it is done.",
    example: Example::Replay {
        source: "type Row = seq 4 of Int\n\
        automaton Reader\n\
        signature output read(m: Int)\n\
        states row: Row := append(empty(Row), 7)\n\
        transitions output read pre m = at(row, 1) propose m := 7\n\
        composition One components A: Reader",
        list: "read(7)",
    },
    mending: "Compare the index with the length before, as in `i < len(row)`. In this example: the one item is `at(row, 0)`.",
};

pub static FULL: Explanation = Explanation {
    topic: Topic::Fault(Fault::Full),
    meaning: "`append` is asked of a sequence that has as many items as its type allows. Where a precondition or an effect faults,\n\
        the run ends before this action, and nothing of it is done.",
    example: Example::Replay {
        source: "type Queue = seq 1 of Int\n\
        automaton Channel\n\
        signature input send(m: Int)\n\
        states q: Queue\n\
        transitions input send eff q := append(q, m)\n\
        composition One components A: Channel",
        list: "send(1)\n\
        send(2)",
    },
    mending: "Make the type's capacity larger, or let the effect drop what does not fit: `if len(q) < 1 then q := append(q, m) fi`.",
};
