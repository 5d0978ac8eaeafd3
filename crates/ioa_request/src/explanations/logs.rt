//! What is wrong with a log, or with a monitor of one.

use crate::code::Code;
use crate::explanation::{Example, Explanation};
use crate::topic::Topic;

/// A counter from 0.
const COUNTER: &str = "automaton Counter\n\
    signature output tick(k: Int)\n\
    states c: Int\n\
    transitions output tick pre k = c propose k := c eff c := c + 1\n\
    composition One components A: Counter";

pub static L1: Explanation = Explanation {
    topic: Topic::Code(Code::L1),
    meaning: "This line of the log is no JSON text, and the lines above it are entries. Each line of a log is one JSON object.",
    example: Example::ReplayLog {
        source: COUNTER,
        log: "{\"act\":\"tick(0)\",\"who\":0}\n\
        tick(1)\n\
        {\"end\":\"done after 2\"}",
    },
    mending: "Write the line as `{\"act\":\"tick(1)\",\"who\":0}`. A log has no blank lines and no comments. A list of actions is replayed\n\
        without `--log`.",
};

pub static L3: Explanation = Explanation {
    topic: Topic::Code(Code::L3),
    meaning: "This line of the log has another worker than its action. The worker of an action is the number of the component that\n\
        owns it; of an input of the composition, the number of components. Components count from 0.",
    example: Example::ReplayLog {
        source: COUNTER,
        log: "{\"act\":\"tick(0)\",\"who\":1}\n\
        {\"end\":\"done after 1\"}",
    },
    mending: "Give the log to the composition that it is of, or mend the number. In this example: `\"who\":0`.",
};

pub static L4: Explanation = Explanation {
    topic: Topic::Code(Code::L4),
    meaning: "This line of the log is the first that is not as the composition does it: its action is none of the composition's, is not\n\
        enabled or faults; or the end is another.",
    example: Example::ReplayLog {
        source: COUNTER,
        log: "{\"act\":\"tick(0)\",\"who\":0}\n\
        {\"act\":\"tick(2)\",\"who\":0}\n\
        {\"end\":\"done after 2\"}",
    },
    mending: "Give the log to the composition that it is of. To see how far the actions can be performed, replay them as a list.",
};

pub static L5: Explanation = Explanation {
    topic: Topic::Code(Code::L5),
    meaning: "All lines of the log are entries, and its end is missing.",
    example: Example::ReplayLog {
        source: COUNTER,
        log: "{\"act\":\"tick(0)\",\"who\":0}",
    },
    mending: "The log was cut off. If nothing but the end is missing, add it. In this example: `{\"end\":\"done after 1\"}`.",
};

pub static L6: Explanation = Explanation {
    topic: Topic::Code(Code::L6),
    meaning: "A line stands after the log's end.",
    example: Example::ReplayLog {
        source: COUNTER,
        log: "{\"act\":\"tick(0)\",\"who\":0}\n\
        {\"end\":\"done after 1\"}\n\
        {\"act\":\"tick(1)\",\"who\":0}",
    },
    mending: "The end is the last line of a log. Take away what comes after it, a blank line too.",
};

pub static L7: Explanation = Explanation {
    topic: Topic::Code(Code::L7),
    meaning: "The composition cannot be a monitor: an entry of one of its components is internal, or it hides a name. A log cannot show\n\
        what a specification does unseen.",
    example: Example::Monitor {
        source: "automaton Once\n\
        signature input tick(k: Int); internal rest\n\
        states n: Int\n\
        transitions\n  \
        input tick eff n := n + 1\n  \
        internal rest pre n > 0 eff n := 0\n\
        composition Spec components M: Once",
        log: "{\"act\":\"tick(0)\",\"who\":0}\n\
        {\"end\":\"done after 1\"}",
    },
    mending: "Write a specification whose actions are all inputs and outputs, and hide none.",
};
