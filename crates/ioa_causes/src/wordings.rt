//! What a code says in a few words, where no more is said of its cause.

ghost use Rattle.std.specs.Prelude.{◌≡◌};
ghost use Rattle.ioa_causes.specs.Worded as spec;

use ioa_request::Code;

/// What the code says of the line that it names. Nothing, for a code that names none, and for that of a log of another run, of which more is said.
pub fn wording(code: Code) -> &'static str
    ensures { result.now ≡ spec.wording code }
{
    match code {
        Code::E2 => "no token begins here",
        Code::E3 => "no source goes on so",
        Code::E4 => "this declaration is more than 64 deep",
        Code::E5 => "this name is declared already",
        Code::E6 => "this name is not known here",
        Code::E7 => "this has another type than its place wants",
        Code::E8 => "signature and transitions do not match here",
        Code::E9 => "a parameter of this transition has no proposal",
        Code::E10 => "there are too many of these",
        Code::E11 => "this type takes more than 4096 words",
        Code::E12 => "the arguments of this component are not those of its automaton",
        Code::E13 => "`crash` or `recover` of this component has a name that is taken",
        Code::E14 => "this component and one above it are not compatible",
        Code::E16 => "the start of this component faults",
        Code::L1 => "this line is no JSON",
        Code::L2 => "this line cannot be read",
        Code::L3 => "this action is another worker's",
        Code::N2 => "this action is no input of the composition",
        Code::N4 => "this line is not of the composition's run",
        Code::Words => "this line is no list of words",
        Code::E1
        | Code::E15
        | Code::E17
        | Code::O1
        | Code::O2
        | Code::O3
        | Code::O4
        | Code::O5
        | Code::O6
        | Code::O7
        | Code::L4
        | Code::L5
        | Code::L6
        | Code::L7
        | Code::L8
        | Code::N1
        | Code::N3
        | Code::N5
        | Code::Object
        | Code::Memory
        | Code::Io => "",
    }
}
