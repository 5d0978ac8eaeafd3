//! What is wrong with an object, or with the file that was given in the place of a source.

use crate::code::Code;
use crate::explanation::{Example, Explanation};
use crate::topic::Topic;

const COMPILE: &str =
    "Compile the source again, with `ioac compile FILE OUT`, or get the object again from where it came.";

pub static O1: Explanation = Explanation {
    topic: Topic::Code(Code::O1),
    meaning: "The file begins with the byte 7F, as objects do, but not with the bytes 7F 49 4F 41: it is no object, or is cut.",
    example: Example::Object("7f494f"),
    mending: COMPILE,
};

pub static O2: Explanation = Explanation {
    topic: Topic::Code(Code::O2),
    meaning: "The object is of another version than 1 and 2, which this program reads; or it is of version 2, which is for objects with\n\
        loops, and has none.",
    example: Example::Object("7f494f4103"),
    mending: COMPILE,
};

pub static O3: Explanation = Explanation {
    topic: Topic::Code(Code::O3),
    meaning: "The object is cut: the file ends before it does.",
    example: Example::Object(
        "7f494f41010000015801000141000001000102676f0000010000000101000100000000000000",
    ),
    mending: COMPILE,
};

pub static O4: Explanation = Explanation {
    topic: Topic::Code(Code::O4),
    meaning: "Bytes follow the end of the object.",
    example: Example::Object(
        "7f494f41010000015801000141000001000102676f00000100000001010001000000000000000000",
    ),
    mending: COMPILE,
};

pub static O5: Explanation = Explanation {
    topic: Topic::Code(Code::O5),
    meaning: "What begins at this byte of the object, counted from 0, may not stand there: a tag, a number, a name or a value. For example,\n\
        a number is over its limit, a name stands twice, or a type is none of those before it.",
    example: Example::Object(
        "7f494f41010000015801000141000001000302676f000001000000010100010000000000000000",
    ),
    mending: COMPILE,
};

pub static O6: Explanation = Explanation {
    topic: Topic::Code(Code::O6),
    meaning: "A part of the object's code is not valid: the part of this number, in the order of the bytes, at this place. Both count from 0.\n\
        Each instruction has to find operands of its types, and to be one that its part may have.",
    example: Example::Object(
        "7f494f41010000015801000141000001000102676f000001000000010100020000000000000000",
    ),
    mending: COMPILE,
};

pub static O7: Explanation = Explanation {
    topic: Topic::Code(Code::O7),
    meaning: "Two components of the object are not compatible: an action is an output of both, or is internal to one of them.",
    example: Example::Object(
        "7f494f4101000001580200014100000100010161000001000000010100010000\
        0000000001420000010001016100000100000001010001000000000000000000",
    ),
    mending: COMPILE,
};

pub static OBJECT: Explanation = Explanation {
    topic: Topic::Code(Code::Object),
    meaning: "The file is an object, and a source is wanted: an object is not compiled again, and has no invariants and no names of variables.",
    example: Example::Told("For example, `ioac compile OUT OTHER`, where OUT is an object."),
    mending: "Give the source that the object was compiled from.",
};
