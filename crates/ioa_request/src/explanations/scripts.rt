//! Why a run does not begin.

use crate::code::Code;
use crate::explanation::{Example, Explanation};
use crate::topic::Topic;

/// A switch that can always be turned on.
const SWITCH: &str = "automaton Switch\n\
    signature output on\n\
    transitions output on\n\
    composition Room components s: Switch";

pub static N1: Explanation = Explanation {
    topic: Topic::Code(Code::N1),
    meaning: "A worker may have 100,000 turns at most. Nothing was run.",
    example: Example::Told("`run --alone --turns 100001` gives it, whatever the source."),
    mending: "Ask for fewer turns.",
};

pub static N2: Explanation = Explanation {
    topic: Topic::Code(Code::N2),
    meaning: "The environment performs inputs alone: actions that a component takes and that no component has as an output or an\n\
        internal action. The script's action of this index is none, and is the first such. Actions count from 0, lines that are\n\
        skipped are not counted. Nothing was run.",
    example: Example::Told(
        "A script gives it with the line `tick(5)`, where a component has `output tick(k: Int)`.",
    ),
    mending: "Take the action out of the script, or run another composition.",
};

pub static N3: Explanation = Explanation {
    topic: Topic::Code(Code::N3),
    meaning: "A run takes a thread for each component and one for the environment, and the system refused one of them. The other threads were\n\
        stopped, and nothing was written.",
    example: Example::Told(
        "No source gives it by itself. A limit on the number of threads or processes does, as `ulimit -u` sets one.",
    ),
    mending: "Raise the limit, or run it with `--alone`, on one thread.",
};

pub static N4: Explanation = Explanation {
    topic: Topic::Code(Code::N4),
    meaning: "A run goes on only from a log of the composition itself: each action is performed, by the worker that is told with it, and the\n\
        end counts them all. The log's action of this index is the first that is not so; or, where the end alone has another count,\n\
        the index is the number of the log's actions. Actions count from 0. Nothing was run.",
    example: Example::Resume {
        source: SWITCH,
        log: "{\"act\":\"on\",\"who\":0}\n\
        {\"end\":\"done after 2\"}",
    },
    mending: "Take the log as a run of this composition wrote it.",
};

pub static N5: Explanation = Explanation {
    topic: Topic::Code(Code::N5),
    meaning: "The log from which the run was to go on ends by a fault, and after a fault nothing is performed. Nothing was run.",
    example: Example::Resume {
        source: SWITCH,
        log: "{\"act\":\"on\",\"who\":0}\n\
        {\"end\":\"fault 1 in component 0 at 0\"}",
    },
    mending: "Take a log that ends by `done`.",
};

pub static WORDS: Explanation = Explanation {
    topic: Topic::Code(Code::Words),
    meaning: "This line of the file of words is no list of words. A word is a decimal number up to 4294967295, of digits alone, and one\n\
        space stands between two words. The first line has the words of the first component, and so on; a line that is empty or\n\
        missing has none. Nothing was run.",
    example: Example::Told(
        "A file of words gives it with the line `9,17`, or `9  17` with two spaces, or with a space at a line's end.",
    ),
    mending: "Write the line as `9 17 4`.",
};
