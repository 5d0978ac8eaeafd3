//! The explanation of each topic, in a module for each kind of what goes wrong.

mod compositions;
mod ends;
mod faults;
mod logs;
mod objects;
mod runs;
mod scripts;
mod sources;
mod texts;

ghost use Rattle.std.specs.Prelude.{◌≡◌};
ghost use Rattle.ioa_request.specs.declared.topic.Topic.{Topic};

use crate::code::Code;
use crate::explanation::Explanation;
use crate::topic::Topic;
use ioa_arithmetic::Fault;

/// What is said of a topic.
pub fn explanation(topic: Topic) -> Explanation
    ensures { result.topic ≡ topic }
{
    *of_topic(topic)
}

fn of_topic(topic: Topic) -> &'static Explanation
    ensures { result.now.topic ≡ topic }
{
    match topic {
        Topic::Code(code) => of_code(code),
        Topic::Fault(fault) => of_fault(fault),
        Topic::Done => &ends::DONE,
        Topic::NotAnAction => &ends::NOT_AN_ACTION,
        Topic::NotEnabled => &ends::NOT_ENABLED,
        Topic::PassedOver => &ends::PASSED_OVER,
        Topic::NothingTaken => &ends::NOTHING_TAKEN,
        Topic::Broken => &ends::BROKEN,
        Topic::Fine => &ends::FINE,
    }
}

fn of_fault(fault: Fault) -> &'static Explanation
    ensures { result.now.topic ≡ Topic.Fault fault }
{
    match fault {
        Fault::Overflow => &faults::OVERFLOW,
        Fault::ZeroDivisor => &faults::ZERO_DIVISOR,
        Fault::Empty => &faults::EMPTY,
        Fault::OutOfRange => &faults::OUT_OF_RANGE,
        Fault::Full => &faults::FULL,
    }
}

fn of_code(code: Code) -> &'static Explanation
    ensures { result.now.topic ≡ Topic.Code code }
{
    match code {
        Code::E1 => &texts::E1,
        Code::E2 => &texts::E2,
        Code::E3 => &texts::E3,
        Code::E4 => &texts::E4,
        Code::E5 => &sources::E5,
        Code::E6 => &sources::E6,
        Code::E7 => &sources::E7,
        Code::E8 => &sources::E8,
        Code::E9 => &sources::E9,
        Code::E10 => &sources::E10,
        Code::E11 => &sources::E11,
        Code::E12 => &compositions::E12,
        Code::E13 => &compositions::E13,
        Code::E14 => &compositions::E14,
        Code::E15 => &compositions::E15,
        Code::E16 => &compositions::E16,
        Code::E17 => &compositions::E17,
        Code::O1 => &objects::O1,
        Code::O2 => &objects::O2,
        Code::O3 => &objects::O3,
        Code::O4 => &objects::O4,
        Code::O5 => &objects::O5,
        Code::O6 => &objects::O6,
        Code::O7 => &objects::O7,
        Code::L1 => &logs::L1,
        Code::L2 => &runs::L2,
        Code::L3 => &logs::L3,
        Code::L4 => &logs::L4,
        Code::L5 => &logs::L5,
        Code::L6 => &logs::L6,
        Code::L7 => &logs::L7,
        Code::L8 => &runs::L8,
        Code::N1 => &scripts::N1,
        Code::N2 => &scripts::N2,
        Code::N3 => &scripts::N3,
        Code::N4 => &scripts::N4,
        Code::N5 => &scripts::N5,
        Code::Words => &scripts::WORDS,
        Code::Object => &objects::OBJECT,
        Code::Memory => &runs::MEMORY,
        Code::Io => &runs::IO,
    }
}
