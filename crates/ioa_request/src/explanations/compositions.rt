//! What is wrong with a composition.

use crate::code::Code;
use crate::explanation::{Example, Explanation};
use crate::topic::Topic;

pub static E12: Explanation = Explanation {
    topic: Topic::Code(Code::E12),
    meaning: "The arguments of a component are not those of its automaton's formals, in number or type. Components count\n\
        from 0.",
    example: Example::Source(
        "automaton Counter(start: Int)\n\
        signature output tick\n\
        states c: Int := start\n\
        transitions output tick eff c := c + 1\n\
        composition One components A: Counter(true)",
    ),
    mending: "Give one value for each formal, of its type and in order. In this example: `A: Counter(5)`.",
};

pub static E13: Explanation = Explanation {
    topic: Topic::Code(Code::E13),
    meaning: "A component crashes and recovers by one name, or one of the two is the name of an entry of its automaton.\n\
        Components count from 0.",
    example: Example::Source(
        "automaton Counter\n\
        signature output tick; input reset\n\
        states c: Int\n\
        transitions output tick eff c := c + 1 input reset eff c := 0\n\
        composition One components A: Counter crash reset recover up",
    ),
    mending: "Take two names that the automaton does not have. In this example: `A: Counter crash down recover up`.\n\
        Another component may have them, so two hosts may crash together.",
};

pub static E14: Explanation = Explanation {
    topic: Topic::Code(Code::E14),
    meaning: "Two components are not compatible: both have one output, or one has an action as internal that the other has\n\
        too.",
    example: Example::Source(
        "automaton Door\n\
        signature output open\n\
        transitions output open\n\
        composition Two components A: Door; B: Door",
    ),
    mending: "An action has one owner, and an internal one is nobody else's: give one of the two another name or another\n\
        constant, or make an output an input of the other component. In this example: one Door is enough.",
};

pub static E15: Explanation = Explanation {
    topic: Topic::Code(Code::E15),
    meaning: "A hidden name is the name of no component's output: inputs cannot be hidden, and internal actions are not seen\n\
        anyway.",
    example: Example::Source(
        "automaton Door\n\
        signature input open; output ring\n\
        transitions input open output ring\n\
        composition House components D: Door\n\
        hidden open",
    ),
    mending: "Hide names of outputs alone. In this example: `hidden ring`.",
};

pub static E16: Explanation = Explanation {
    topic: Topic::Code(Code::E16),
    meaning: "A component cannot start: one of its arguments, or a start expression, faults. Components count from 0. Fault 1\n\
        is a number that does not fit into 64 bits.",
    example: Example::Source(
        "automaton Counter(start: Int)\n\
        signature output tick\n\
        states c: Int := start + 1\n\
        transitions output tick eff c := c + 1\n\
        composition One components A: Counter(9223372036854775807)",
    ),
    mending: "Give other arguments, or write another start expression. In this example: any smaller number will do.",
};

pub static E17: Explanation = Explanation {
    topic: Topic::Code(Code::E17),
    meaning: "The source has no composition of the name that was asked for, or none at all, so there is nothing to run.",
    example: Example::Source(
        "automaton Door\n\
        signature input open\n\
        transitions input open",
    ),
    mending: "Name a composition that the source has, or add one. In this example: `composition One components D: Door`.",
};
