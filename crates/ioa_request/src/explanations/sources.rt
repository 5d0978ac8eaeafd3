//! What is wrong with a source that is not well formed.

use crate::code::Code;
use crate::explanation::{Example, Explanation};
use crate::topic::Topic;

pub static E5: Explanation = Explanation {
    topic: Topic::Code(Code::E5),
    meaning: "A name is declared twice, or has two entries or two proposals, or is hidden twice. Within an automaton its\n\
        formals, its variables and the parameters of an entry differ from each other, and from the names of types, of the\n\
        values of enumerations, of automata and of compositions; so do these.",
    example: Example::Source(
        "automaton Door\n\
        signature input open\n\
        states n: Int; n: Bool\n\
        transitions input open",
    ),
    mending: "Give one of the two another name.",
};

pub static E6: Explanation = Explanation {
    topic: Topic::Code(Code::E6),
    meaning: "A name is not known here: it is declared nowhere, or only later, or it may not stand in this place; or a tuple\n\
        has no field of this name. Only variables are assigned to; start expressions, arguments and constants of positions\n\
        read no variable.",
    example: Example::Source(
        "automaton Door\n\
        signature input open\n\
        states n: Int\n\
        transitions input open eff m := 1",
    ),
    mending: "Mend its spelling, or declare it before its use. In this example: `m` should be `n`.",
};

pub static E7: Explanation = Explanation {
    topic: Topic::Code(Code::E7),
    meaning: "An expression has another type than its place wants: a Bool where an Int belongs, or the other way round. A\n\
        precondition, the condition of a choice and an invariant are Bools. A tuple wants a value for each of its fields,\n\
        each of the field's type; only tuples have fields.",
    example: Example::Source(
        "automaton Door\n\
        signature input open\n\
        states n: Int := true\n\
        transitions input open",
    ),
    mending: "Change the expression, or the declared type. In this example: the variable should be a Bool.",
};

pub static E8: Explanation = Explanation {
    topic: Topic::Code(Code::E8),
    meaning: "Entries of the signature and transitions do not match: each entry has exactly one transition of its kind and\n\
        name. An input is always enabled, so it has neither `pre` nor `propose`.",
    example: Example::Source(
        "automaton Door\n\
        signature input open\n\
        states is_open: Bool\n\
        transitions input open pre is_open = false eff is_open := true",
    ),
    mending: "Add the missing transition, or take the needless one away. In this example: `pre` has to go: let the\n\
        effect do nothing where the input does not matter.",
};

pub static E9: Explanation = Explanation {
    topic: Topic::Code(Code::E9),
    meaning: "An output or internal action has a parameter for which no value is proposed. A runner would not know which\n\
        value to try; only parameters of Bool or of an enumeration need no proposal.",
    example: Example::Source(
        "automaton Counter\n\
        signature output tick(k: Int)\n\
        states c: Int\n\
        transitions output tick pre k = c eff c := c + 1",
    ),
    mending: "Say which value to try. In this example: `propose k := c` after the precondition.",
};

pub static E10: Explanation = Explanation {
    topic: Topic::Code(Code::E10),
    meaning: "A limit is passed: 1,024 types, 256 names of an enumeration, 16 fields of a tuple, a capacity from 1 to 256,\n\
        256 automata and compositions, 256 invariants, 32 components, 64 hidden names, 64 variables or entries of an\n\
        automaton, 8 formals, 8 positions of an entry, 4,096 nodes in a precondition, a transition's proposals, or an effect.",
    example: Example::Source(
        "automaton Door(a: Int, b: Int, c: Int, d: Int, e: Int, f: Int, g: Int, h: Int, i: Int)\n\
        signature input open\n\
        transitions input open",
    ),
    mending: "Part the automaton into several, or keep fewer things in it. In this example: one formal has to go.",
};

pub static E11: Explanation = Explanation {
    topic: Topic::Code(Code::E11),
    meaning: "A type's values are too large: they would take more than 4,096 words. A truth value, a number and a name of an\n\
        enumeration take one, a tuple those of its fields, a sequence one and its capacity times an item's.",
    example: Example::Source(
        "type Row = seq 256 of Int\n\
        type Board = seq 16 of Row",
    ),
    mending: "Make a capacity smaller, or leave out a field. In this example: 15 rows are the most.",
};
