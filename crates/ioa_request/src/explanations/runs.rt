//! What is wrong with a list or a line of a log, a device or a file.

use crate::code::Code;
use crate::explanation::{Example, Explanation};
use crate::topic::Topic;

pub static L2: Explanation = Explanation {
    topic: Topic::Code(Code::L2),
    meaning: "This line of the list is no action. An action is a name and, for one value or more, the values in parentheses. Or this\n\
        line of the log is neither an entry nor the end, as an entry is an object with `act`, such an action, and `who`, a number,\n\
        and no other key.",
    example: Example::Replay {
        source: "automaton Counter\n\
        signature output tick(k: Int)\n\
        states c: Int\n\
        transitions output tick pre k = c propose k := c eff c := c + 1\n\
        composition One components A: Counter",
        list: "tick(0)\n\
        tick(1",
    },
    mending: "Write the line as `reset` or `tick(5)`; in a list blank lines, and lines that begin with %, are skipped. In a log write it as\n\
        `{\"act\":\"tick(5)\",\"who\":0}`, or the last one as `{\"end\":\"done after 1\"}`. Nothing was performed.",
};

pub static L8: Explanation = Explanation {
    topic: Topic::Code(Code::L8),
    meaning: "Reading the list or the log, or writing the answer, failed. A beginning of the answer may have been written.",
    example: Example::Told(
        "No source or list gives it. A full disk does, or a pipe whose reader has gone.",
    ),
    mending: "See to the disk or the pipe, and run it again.",
};

pub static MEMORY: Explanation = Explanation {
    topic: Topic::Code(Code::Memory),
    meaning: "There was not enough memory.",
    example: Example::Told(
        "No source or list gives it by itself. A list that is too long for the machine's memory does.",
    ),
    mending: "Run it again where more memory is free, or with a shorter list.",
};

pub static IO: Explanation = Explanation {
    topic: Topic::Code(Code::Io),
    meaning: "The file cannot be read, or the object or the log cannot be put in its file, as where another file than an object or a log stands there.",
    example: Example::Told(
        "No source or list gives it. A name that no file has does, a file that you may not read, or a folder in which you may not write.",
    ),
    mending: "Mend the name of the file, or its rights. Beside an object OUT no file OUT.part may stand: it would be another run's. A file OUT that is no object is not replaced, nor a file KFILE that is no log: give another name, or remove it.",
};
