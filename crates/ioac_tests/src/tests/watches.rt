//! Streams of actions that specifications watch.

/// Specifications that take so many ticks, one that has a fault, and one of which not all is seen.
pub const ONCE: &str =
    "automaton Once(n: Int) signature output tick(k: Int); input reset states left: Int := n \
    transitions output tick pre left > 0 propose k := 0 eff left := left - 1 input reset eff left := n \
    automaton Top signature output up states x: Int := 9223372036854775807 transitions output up eff x := x + 1 \
    automaton Unseen signature internal tick(k: Int) transitions internal tick propose k := any(2) \
    composition Spec components M: Once(1) composition Twice components M: Once(2) \
    composition Full components T: Top composition Hiding components U: Unseen";

/// The words after the program's name, a stream, what is printed, what is told of errors, and the exit status.
pub const ROWS: &str = r#"
watch f --comp Spec | {"act":"tick(5)"}^{"act":"reset"}^{"act":"tick(6)"}^ | Spec: ok^ |  | 0
watch f --comp Spec |  | Spec: ok^ |  | 0
watch f --comp Spec --comp Twice | {"act":"tick(5)"}^{"act":"tick(6)"}^{"act":"tick(7)"}^ | Spec: not enabled at 1^Twice: not enabled at 2^ |  | 4
watch f --comp Twice --comp Spec | {"act":"tick(5)"}^{"act":"tick(6)"}^ | Spec: not enabled at 1^Twice: ok^ |  | 4
watch f --comp Spec --comp Spec | {"act":"tick(5)"}^{"act":"tick(6)"}^ | Spec: not enabled at 1^Spec: not enabled at 1^ |  | 4
watch f --comp Full | {"act":"reset"}^{"act":"up"}^ | Full: fault 1 in component 0 at 1^ |  | 4
-- nothing is read behind the refusal of all, or of one, where that is enough
watch f --comp Spec | {"act":"tick(5)"}^{"act":"tick(6)"}^x^ | Spec: not enabled at 1^ |  | 4
watch f --comp Spec --comp Twice | {"act":"tick(5)"}^{"act":"tick(6)"}^x^ | Spec: not enabled at 1^ | L1 line 3^ | 4
watch f --first --comp Spec --comp Twice | {"act":"tick(5)"}^{"act":"tick(6)"}^x^ | Spec: not enabled at 1^ |  | 4
watch f --first --comp Spec --comp Twice | {"act":"tick(5)"}^ | Spec: ok^Twice: ok^ |  | 0
-- a name that the specification has is not passed over, and others are, whatever their values
watch f --comp Spec | {"act":"tick(true)"}^ | Spec: not an action at 0^ |  | 4
watch f --comp Spec | {"act":"tick(5, 5)"}^ | Spec: not an action at 0^ |  | 4
watch f --comp Spec | {"act":"up"}^{"act":"tock(Any[1], none)"}^{"act":"tick(5)"}^ | Spec: ok^ |  | 0
watch f --comp Spec | {"act":"up"}^{"act":"tick(Any[1])"}^ |  | L2 line 2^ | 4
watch f --comp Full | {"act":"tick(Any[1])"}^ | Full: ok^ |  | 0
-- what else an object has does not matter, and an end ends nothing
watch f --comp Spec | {"at":"09:00","act":"tick(5)","who":[1,{}]}^{"end":"whatever"}^{"act":"tick(6)"} | Spec: not enabled at 1^ |  | 4
watch f --comp Spec | {"act":"tick(5)","end":"done"}^{"act":"up","act":"tick(6)"}^ | Spec: not enabled at 1^ |  | 4
watch f --comp Spec | {"act":5}^ |  | L2 line 1^ | 4
watch f --comp Spec | {"act":"up"}^{"note":"tick(5)"}^ |  | L2 line 2^ | 4
watch f --comp Spec | [1]^ |  | L2 line 1^ | 4
watch f --comp Spec | {"act":"up"}^^ |  | L1 line 2^ | 4
-- streams that are longer than what is read at once
watch f --comp Spec | &{"act":"up","at":"09:00"}^@3000&{"act":"tick(5)"}^{"act":"tick(6)"}^ | Spec: not enabled at 3001^ |  | 4
-- the same as objects
watch f --json --comp Spec --comp Twice | {"act":"tick(5)"}^{"act":"tick(6)"}^ | {"specification":"Spec","verdict":"not enabled","index":1}^{"specification":"Twice","verdict":"ok"}^ |  | 4
watch f --comp Spec --json | {"act":"reset"}^{"act":"tick"}^ | {"specification":"Spec","verdict":"not an action","index":1}^ |  | 4
watch f --comp Full --json | {"act":"reset"}^{"act":"up"}^ | {"specification":"Full","verdict":"fault","fault":1,"component":0,"index":1}^ |  | 4
watch f --comp Spec --json | x^ |  | L1 line 1^ | 4
watch f --json --comp Twice --comp Spec |  | {"specification":"Twice","verdict":"ok"}^{"specification":"Spec","verdict":"ok"}^ |  | 0
watch f --json --first --comp Spec --comp Twice | {"act":"tick(5)"}^{"act":"tick(6)"}^x^ | {"specification":"Spec","verdict":"not enabled","index":1}^ |  | 4
watch f --json --comp Spec --comp Twice | {"act":"tick(5)"}^{"act":"tick(6)"}^x^ | {"specification":"Spec","verdict":"not enabled","index":1}^ | L1 line 3^ | 4
watch f --json --comp Spec --comp Hiding | x |  | L7^ | 4
-- the file and its compositions come first
watch g --comp Spec | x |  | io^ | 5
watch f --comp Spec --comp Hiding | x |  | L7^ | 4
watch f --comp Hiding --comp Nine | x |  | L7^ | 4
watch f --comp Nine --comp Hiding | x |  | E17^ | 1
-- words
watch f |  |  | error: the following required arguments were not provided:^  --comp <SPEC>^^Usage: ioac watch --comp <SPEC> [--comp <SPEC>].. [--first] [--json] [--explain] <FILE>^^For more information, try '--help'.^ | 2
watch --comp Spec |  |  | error: the following required arguments were not provided:^  <FILE>^^Usage: ioac watch --comp <SPEC> [--comp <SPEC>].. [--first] [--json] [--explain] <FILE>^^For more information, try '--help'.^ | 2
watch f --comp Spec --log |  |  | error: unexpected argument '--log' found^^  tip: to pass '--log' as a value, use '-- --log'^^Usage: ioac watch --comp <SPEC> [--comp <SPEC>].. [--first] [--json] [--explain] <FILE>^^For more information, try '--help'.^ | 2
watch --help |  | Reads actions on standard input as they come, and prints which specifications refuse one^^Usage: ioac watch --comp <SPEC> [--comp <SPEC>].. [--first] [--json] [--explain] <FILE>^^Arguments:^  <FILE>  A source of I/O automata^^Options:^      --comp <SPEC>  A composition that is a specification; once for each^      --first        The first refusal ends it; without it, it goes on until each specification refused something^      --json         A JSON object a line is printed in place of the text^      --explain      Says more of the outcome on standard error: which line, why, and in which state^  -h, --help         Print help^^Each line is a JSON object with a text `act`, as `{"act":"tick(5)"}`, whatever else it has; one with a text `end` instead is passed over.^A specification has no internal action, and hides none. It takes the actions whose names it has; the others are passed over.^Of each a line is printed as soon as it is known, as `Spec: not enabled at 4`, or at the end of input `Spec: ok`.^With --json each line is an object, as `{"specification":"Spec","verdict":"not enabled","index":4}`.^With --explain it is told how many actions of each of its names it took, and how many of other names came.^Example: tail -f system.log &| ioac watch specification.ioa --comp Safety --comp Order^Exit status: 0 none refused anything, 1 source refused, 2 bad command line or no source,^4 a specification refused an action, a line is none, or no specification, 5 memory, the file or a device.^ |  | 0
"#;
