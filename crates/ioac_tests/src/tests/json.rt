//! Replays that are told in JSON objects.

/// The words after the program's name, a list or a log for the counter, what is printed, what is told of errors, and the exit status.
pub const ROWS: &str = r#"
-- an object for each external action, and last the end
replay f --json | tick(5)^tick(6)^reset^ | {"act":"tick(5)"}^{"act":"tick(6)"}^{"act":"reset"}^{"end":"done","count":3}^ |  | 0
replay --json f --comp One |  | {"end":"done","count":0}^ |  | 0
replay f --json | tick(5) | {"act":"tick(5)"}^{"end":"done","count":1}^ |  | 0
replay f --json | tick(5)^tick(5)^tick(6)^ | {"act":"tick(5)"}^{"end":"not enabled","index":1}^ |  | 4
replay f --json | tick(5)^tock^tick(6)^ | {"act":"tick(5)"}^{"end":"not an action","index":1}^ |  | 4
replay f --json | tock^ | {"end":"not an action","index":0}^ |  | 4
-- actions are in their own spelling, whatever the list's
replay f --json | % a comment^^ tick ( 005 ) ^ ^tick(6)^ | {"act":"tick(5)"}^{"act":"tick(6)"}^{"end":"done","count":2}^ |  | 0
-- nothing is printed where a list, a source or a file is refused
replay f --json | tick(5)^tick(^ |  | L2 line 2^ | 4
replay f --json --comp Nine | tick(5)^ |  | E17^ | 1
replay g --json | tick(5)^ |  | io^ | 5
-- up to a bound
replay f --json --until 1 | tick(5)^tick(6)^ | {"act":"tick(5)"}^{"end":"done","count":1}^ |  | 0
replay f --json --until 0 | x y^ | {"end":"done","count":0}^ |  | 0
-- more than is read or written at once
replay f --json | &reset^@12000& | &{"act":"reset"}^@12000&{"end":"done","count":12000}^ |  | 0
-- the same of a log
replay f --log --json | {"act":"tick(5)","who":0}^{"act":"reset","who":1}^{"end":"done after 2"}^ | {"act":"tick(5)"}^{"act":"reset"}^{"end":"done","count":2}^ |  | 0
replay f --json --log | {"end":"done after 0"}^ | {"end":"done","count":0}^ |  | 0
replay f --log --json --until 1 | {"act":"tick(5)","who":0}^{"act":"reset","who":1}^{"end":"done after 2"}^ | {"act":"tick(5)"}^{"end":"done","count":1}^ |  | 0
replay f --log --json | {"act":"tick(5)","who":0}^{"act":"tick(5)","who":0}^{"end":"done after 2"}^ |  | L4 line 2^ | 4
replay f --log --json | {"act":"tick(5)","who":1}^{"end":"done after 1"}^ |  | L3 line 1^ | 4
replay f --log --json | {"act":"tick(5)","who":0}^{"end":"done after 2"}^ |  | L4 line 2^ | 4
replay f --log --json | {"act":"tick(5)","who":0}^x^ |  | L1 line 2^ | 4
replay f --log --json | {"act":"tick(5)","who":0}^ |  | L5^ | 4
replay f --log --json | {"act":"tick(5)","who":0}^{"end":"done after 1"}^x |  | L6^ | 4
replay f --log --json | &{"act":"reset","who":1}^@3000&{"end":"done after 3000"}^ | &{"act":"reset"}^@3000&{"end":"done","count":3000}^ |  | 0
-- not with what has no objects
replay f --json --states | tick(5) |  | error: the argument '--json' cannot be used with '--states' or '--enabled'^^For more information, try '--help'.^ | 2
replay f --enabled --json | tick(5) |  | error: the argument '--json' cannot be used with '--states' or '--enabled'^^For more information, try '--help'.^ | 2
replay f --json --invariants | tick(5) |  | error: the following required arguments were not provided:^  --log^^Usage: ioac replay --log --invariants <FILE>^^For more information, try '--help'.^ | 2
replay f --log --json --states --invariants | {"end":"done after 0"}^ |  | error: the argument '--json' cannot be used with '--states' or '--enabled'^^For more information, try '--help'.^ | 2
replay f --json --states --until x | tick(5) |  | error: invalid value 'x' for '--until <N>'^  [wanted: a whole number of 64 bits]^^For more information, try '--help'.^ | 2
replay f --json --json | tick(5) |  | error: the argument '--json' cannot be used multiple times^^Usage: ioac replay [--comp <NAME>] [--log [--invariants]] [--states] [--enabled] [--coverage] [--until <N>] [--json] [--explain] <FILE>^^For more information, try '--help'.^ | 2
log f --json | tick(5) |  | error: unexpected argument '--json' found^^  tip: to pass '--json' as a value, use '-- --json'^^Usage: ioac log <FILE>^^For more information, try '--help'.^ | 2
"#;

/// The words after the program's name, a source, a list or a log, what is printed, what is told of errors, and the exit status.
pub const COMPOSED: &str = r#"
-- a fault, with its number, its component and the index of the action that faults, which is none of the trace
replay f --json | automaton Top signature output up; output see(x: Int) states n: Int := 9223372036854775806 transitions output up eff n := n + 1 output see pre x = n propose x := n composition One components A: Top | up^up^up^ | {"act":"up"}^{"end":"fault","fault":1,"component":0,"index":1}^ |  | 3
replay f --log --json | automaton Top signature output up; output see(x: Int) states n: Int := 9223372036854775806 transitions output up eff n := n + 1 output see pre x = n propose x := n composition One components A: Top | {"act":"up","who":0}^{"act":"up","who":0}^{"end":"fault 1 in component 0 at 1"}^ | {"act":"up"}^{"end":"fault","fault":1,"component":0,"index":1}^ |  | 3
replay f --json | automaton Go signature output go states n: Int transitions output go eff n := n + 1 automaton Bad signature input go states x: Int := 1 transitions input go eff x := 1 div x - 1 composition Two components G: Go; B: Bad | go^go^ | {"act":"go"}^{"end":"fault","fault":2,"component":1,"index":1}^ |  | 3
-- the first invariant that is broken, in place of all else; where none is, the same as without
replay f --log --invariants --json | automaton Up signature output up states n: Int; m: Int transitions output up eff n := n + 1; m := n automaton Ups signature input up states k: Int transitions input up eff k := k + 1 composition Two components A: Up; B: Ups invariant of Up: m <= n invariant of Ups: k < 2 | {"act":"up","who":0}^{"act":"up","who":0}^{"act":"up","who":0}^{"end":"done after 3"}^ | {"verdict":"broken","invariant":1,"component":1,"count":2}^ |  | 4
replay f --log --invariants --json | automaton Up signature output up states n: Int transitions output up eff n := n + 1 composition One components A: Up invariant of Up: n < 2 | {"act":"up","who":0}^{"end":"done after 1"}^ | {"act":"up"}^{"end":"done","count":1}^ |  | 0
replay f --json --log --invariants | automaton Up signature output up states n: Int transitions output up eff n := n + 1 composition One components A: Up invariant of Up: n < 2 | {"act":"up","who":0}^{"act":"up","who":0}^{"end":"done after 3"}^ |  | L4 line 3^ | 4
replay f --log --invariants --until 2 --json | automaton Up signature output up states n: Int transitions output up eff n := n + 1 composition One components A: Up invariant of Up: n < 2 | {"act":"up","who":0}^{"act":"up","who":0}^x^ | {"verdict":"broken","invariant":0,"component":0,"count":2}^ |  | 4
-- internal and hidden actions are not of the trace, and are counted
replay f --json | automaton A signature internal step; output go states n: Int transitions internal step eff n := n + 1 output go eff n := n * 10 composition C components P: A hidden go | step^go^step^ | {"end":"done","count":3}^ |  | 0
-- values of declared types
replay f --json | type Mode = enum { idle, busy } type Pair = tuple { m: Mode, n: Int } type Ints = seq 4 of Int automaton A signature input put(p: Pair, s: Ints) transitions input put composition C components P: A | put(Pair(busy, -8), Ints[1, 2])^put(Pair(idle,0),Ints[])^ | {"act":"put(Pair(busy, -8), Ints[1, 2])"}^{"act":"put(Pair(idle, 0), Ints[])"}^{"end":"done","count":2}^ |  | 0
"#;
