//! What is wrong with a text that is no source.

use crate::code::Code;
use crate::explanation::{Example, Explanation};
use crate::topic::Topic;

pub static E1: Explanation = Explanation {
    topic: Topic::Code(Code::E1),
    meaning: "The source has more than 1,048,576 bytes.",
    example: Example::Told("For example, 1,048,577 spaces."),
    mending: "Write it shorter: take comments out, or part it into several sources.",
};

pub static E2: Explanation = Explanation {
    topic: Topic::Code(Code::E2),
    meaning: "On this line stands something that is no word of the language: a sign that it does not have, a name of\n\
        more than 64 bytes, or a number above 9223372036854775807.",
    example: Example::Source(
        "automaton Door\n\
        signature input open\n\
        transitions input open # nothing to do",
    ),
    mending: "Take the sign away, or shorten the name. A comment begins with %.",
};

pub static E3: Explanation = Explanation {
    topic: Topic::Code(Code::E3),
    meaning: "The words up to this line are no beginning of a source: something is missing before the first word on this\n\
        line that does not fit, or that word is too many. What is often the cause: a reserved word as a name, as `output` or\n\
        `len`; `==` for `=`, or `:=` for `=` in a condition; `and`, `or` and `not` for `/\\`, `\\/` and `~`; `else if` for `elseif`;\n\
        a missing `fi` or `od`, or a missing `;` between two parts, which is told at the part that follows; and parameters in\n\
        `transitions`, where an entry stands by its name alone.",
    example: Example::Source(
        "automaton Door\n\
        signature input open\n\
        composition One components D: Door",
    ),
    mending: "Compare the line with the grammar in docs/language.md. In this example: `transitions input open` is missing.",
};

pub static E4: Explanation = Explanation {
    topic: Topic::Code(Code::E4),
    meaning: "The declaration that begins on this line has parts within parts more than 64 deep.",
    example: Example::Source(
        "automaton Door\n\
        signature input open\n\
        states n: Int :=\n\
        ((((((((((((((((((((((((((((((((((((((((((((((((((((((((((((((((1))))))))))))))))))))))))))))))))))))))))))))))))))))))))))))))))\n\
        transitions input open",
    ),
    mending: "Drop parentheses that are not needed, or part the expression into several assignments.",
};
