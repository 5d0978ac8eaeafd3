//! Lists and logs that are taken up to one of their actions, and logs that are written again.

/// The words after the program's name, a list or a log for the counter, what is printed, what is told of errors, and the exit status.
pub const ROWS: &str = r#"
-- a list is taken up to its action of this number, where it has so many
replay f --until 2 | tick(5)^tick(6)^reset^ | tick(5)^tick(6)^end: done after 2^ |  | 0
replay f --until 3 | tick(5)^tick(6)^reset^ | tick(5)^tick(6)^reset^end: done after 3^ |  | 0
replay f --until 4 | tick(5)^tick(6)^reset^ | tick(5)^tick(6)^reset^end: done after 3^ |  | 0
replay f --until 0 | tick(5)^tick(6)^reset^ | end: done after 0^ |  | 0
replay f --until 0 |  | end: done after 0^ |  | 0
replay f --until 18446744073709551615 | tick(5)^tick(6)^reset^ | tick(5)^tick(6)^reset^end: done after 3^ |  | 0
replay --until 001 f --comp One | reset^tick(5)^ | reset^end: done after 1^ |  | 0
-- lines that are no actions are not counted
replay f --until 2 | % a comment^^tick(5)^ ^%^tick(6)^% another^reset^ | tick(5)^tick(6)^end: done after 2^ |  | 0
replay f --until 1 | ^^^^% tick(4)^tick(5)^tick(5)^ | tick(5)^end: done after 1^ |  | 0
replay f --until 2 | ^% tick(4)^ | end: done after 0^ |  | 0
-- the last line may be without its LF
replay f --until 2 | tick(5)^tick(6) | tick(5)^tick(6)^end: done after 2^ |  | 0
replay f --until 1 | tick(5) | tick(5)^end: done after 1^ |  | 0
-- nothing behind it is judged, and what is before it is
replay f --until 1 | tick(5)^tick(5)^ | tick(5)^end: done after 1^ |  | 0
replay f --until 1 | tick(5)^tock^ | tick(5)^end: done after 1^ |  | 0
replay f --until 1 | tick(5)^tick(^ | tick(5)^end: done after 1^ |  | 0
replay f --until 0 | x y^ | end: done after 0^ |  | 0
replay f --until 2 | tick(5)^tick(5)^tick(6)^ | tick(5)^end: not enabled at 1^ |  | 4
replay f --until 3 | tick(5)^tock^tick(6)^ | tick(5)^end: not an action at 1^ |  | 4
replay f --until 2 | tick(5)^tick(^reset^ |  | L2 line 2^ | 4
replay f --until 3 | tick(5)^% a comment^x y^ |  | L2 line 3^ | 4
-- a list that is longer than what is read at once
replay f --until 3000 | &reset^@4000&x y^ | &reset^@3000&end: done after 3000^ |  | 0
replay f --until 1 | &^@70000&reset^x y^ | reset^end: done after 1^ |  | 0
-- so many entries of a log are taken, and its end is not compared
replay f --log --until 2 | {"act":"tick(5)","who":0}^{"act":"tick(6)","who":0}^{"act":"reset","who":1}^{"end":"done after 3"}^ | tick(5)^tick(6)^end: done after 2^ |  | 0
replay f --log --until 3 | {"act":"tick(5)","who":0}^{"act":"tick(6)","who":0}^{"act":"reset","who":1}^{"end":"done after 3"}^ | tick(5)^tick(6)^reset^end: done after 3^ |  | 0
replay f --log --until 0 | {"act":"tick(5)","who":0}^{"act":"tick(6)","who":0}^{"act":"reset","who":1}^{"end":"done after 3"}^ | end: done after 0^ |  | 0
replay f --log --until 3 | {"act":"tick(5)","who":0}^{"act":"tick(6)","who":0}^{"act":"reset","who":1}^{"end":"done after 7"}^ | tick(5)^tick(6)^reset^end: done after 3^ |  | 0
replay f --log --until 2 | {"act":"tick(5)","who":0}^{"act":"tick(6)","who":0}^{"end":"fault 1 in component 0 at 1"}^ | tick(5)^tick(6)^end: done after 2^ |  | 0
replay f --log --until 1 | {"act":"tick(5)","who":0}^{"end":"done after 1"} | tick(5)^end: done after 1^ |  | 0
-- nothing behind them is judged, and what is before it is
replay f --log --until 2 | {"act":"tick(5)","who":0}^{"act":"tick(6)","who":0}^x | tick(5)^tick(6)^end: done after 2^ |  | 0
replay f --log --until 1 | {"act":"tick(5)","who":0}^{"act":"tick(5)","who":1}^ | tick(5)^end: done after 1^ |  | 0
replay f --log --until 1 | {"act":"tick(5)","who":0}^^ | tick(5)^end: done after 1^ |  | 0
replay f --log --until 0 | x^ | end: done after 0^ |  | 0
replay f --log --until 2 | {"act":"tick(6)","who":0}^{"act":"tick(5)","who":0}^{"end":"done after 2"}^ |  | L4 line 1^ | 4
replay f --log --until 2 | {"act":"tick(5)","who":0}^x^{"end":"done after 2"}^ |  | L1 line 2^ | 4
replay f --log --until 2 | {"act":"tick(5)","who":0}^{}^{"end":"done after 2"}^ |  | L2 line 2^ | 4
replay f --log --until 1 | {"act":"tick(5)","who":1}^{"act":"tick(6)","who":0}^{"end":"done after 2"}^ |  | L3 line 1^ | 4
replay f --log --until 1 | tick(5)^tick(6)^reset^ |  | L1 line 1^ | 4
-- a log with no line behind them is replayed whole
replay f --log --until 4 | {"act":"tick(5)","who":0}^{"act":"tick(6)","who":0}^{"act":"reset","who":1}^{"end":"done after 3"}^ | tick(5)^tick(6)^reset^end: done after 3^ |  | 0
replay f --log --until 18446744073709551615 | {"act":"tick(5)","who":0}^{"act":"tick(6)","who":0}^{"act":"reset","who":1}^{"end":"done after 3"}^ | tick(5)^tick(6)^reset^end: done after 3^ |  | 0
replay f --log --until 4 | {"act":"tick(5)","who":0}^{"act":"tick(6)","who":0}^{"act":"reset","who":1}^{"end":"done after 7"}^ |  | L4 line 4^ | 4
replay f --log --until 2 | {"act":"tick(5)","who":0}^{"end":"done after 1"}^ | tick(5)^end: done after 1^ |  | 0
replay f --log --until 2 | {"act":"tick(5)","who":0}^{"end":"done after 1"}^x^ |  | L6^ | 4
replay f --log --until 2 | {"act":"tick(5)","who":0}^{"act":"tick(6)","who":0}^ |  | L5^ | 4
replay f --log --until 0 |  |  | L5^ | 4
-- logs that are longer than what is read at once
replay f --log --until 3000 | &{"act":"reset","who":1}^@4000&x^ | &reset^@3000&end: done after 3000^ |  | 0
replay f --log --until 1 | {"act":"reset","who":1}^&x@70000& | reset^end: done after 1^ |  | 0
-- the log of a list that is cut
log f --until 2 | tick(5)^tick(6)^reset^ | {"act":"tick(5)","who":0}^{"act":"tick(6)","who":0}^{"end":"done after 2"}^ |  | 0
log f --until 3 | tick(5)^tick(6)^reset^ | {"act":"tick(5)","who":0}^{"act":"tick(6)","who":0}^{"act":"reset","who":1}^{"end":"done after 3"}^ |  | 0
log f --until 9 | tick(5)^tick(6)^reset^ | {"act":"tick(5)","who":0}^{"act":"tick(6)","who":0}^{"act":"reset","who":1}^{"end":"done after 3"}^ |  | 0
log f --until 0 | tick(5)^tick(6)^reset^ | {"end":"done after 0"}^ |  | 0
log f --until 1 | tick(5)^tick(^ | {"act":"tick(5)","who":0}^{"end":"done after 1"}^ |  | 0
log f --until 2 | tick(5)^tick(5)^tick(6)^ | {"act":"tick(5)","who":0}^{"end":"done after 1"}^ |  | 4
log f --until 2 | tick(5)^tick(^ |  | L2 line 2^ | 4
-- a log is written again, whole or cut, in its one spelling
log f --log | {"act":"tick(5)","who":0}^{"act":"tick(6)","who":0}^{"act":"reset","who":1}^{"end":"done after 3"}^ | {"act":"tick(5)","who":0}^{"act":"tick(6)","who":0}^{"act":"reset","who":1}^{"end":"done after 3"}^ |  | 0
log --log --comp One f | {"act":"tick(5)","who":0}^{"act":"tick(6)","who":0}^{"act":"reset","who":1}^{"end":"done after 3"} | {"act":"tick(5)","who":0}^{"act":"tick(6)","who":0}^{"act":"reset","who":1}^{"end":"done after 3"}^ |  | 0
log f --log | {"end":"done after 0"}^ | {"end":"done after 0"}^ |  | 0
log f --log --until 2 | {"act":"tick(5)","who":0}^{"act":"tick(6)","who":0}^{"act":"reset","who":1}^{"end":"done after 3"}^ | {"act":"tick(5)","who":0}^{"act":"tick(6)","who":0}^{"end":"done after 2"}^ |  | 0
log f --log --until 3 | {"act":"tick(5)","who":0}^{"act":"tick(6)","who":0}^{"act":"reset","who":1}^{"end":"done after 3"}^ | {"act":"tick(5)","who":0}^{"act":"tick(6)","who":0}^{"act":"reset","who":1}^{"end":"done after 3"}^ |  | 0
log f --log --until 4 | {"act":"tick(5)","who":0}^{"act":"tick(6)","who":0}^{"act":"reset","who":1}^{"end":"done after 3"}^ | {"act":"tick(5)","who":0}^{"act":"tick(6)","who":0}^{"act":"reset","who":1}^{"end":"done after 3"}^ |  | 0
log f --log --until 0 | {"act":"tick(5)","who":0}^{"act":"tick(6)","who":0}^{"act":"reset","who":1}^{"end":"done after 3"}^ | {"end":"done after 0"}^ |  | 0
log f --log --until 2 | {"act":"tick(5)","who":0}^{"act":"tick(6)","who":0}^x | {"act":"tick(5)","who":0}^{"act":"tick(6)","who":0}^{"end":"done after 2"}^ |  | 0
log f --log |  { "who" : 0 , "act" : " tick ( 005 ) " }^{"end":"done\u0020after 1"} | {"act":"tick(5)","who":0}^{"end":"done after 1"}^ |  | 0
log f --log | {"act":"reset","who":1}^{"\u0061ct":"tick(5)","who":7,"who":0}^{"end":"done after 2"}^ | {"act":"reset","who":1}^{"act":"tick(5)","who":0}^{"end":"done after 2"}^ |  | 0
-- it is read and judged as by a replay, and nothing is written where it is refused
log f --log | tick(5)^tick(6)^reset^ |  | L1 line 1^ | 4
log f --log | {"act":"tick(5)","who":0}^{"act":"tick(6","who":0}^{"end":"done after 2"}^ |  | L2 line 2^ | 4
log f --log | {"act":"tick(5)","who":0}^{"act":"reset","who":0}^{"end":"done after 2"}^ |  | L3 line 2^ | 4
log f --log | {"act":"tick(6)","who":0}^{"end":"done after 1"}^ |  | L4 line 1^ | 4
log f --log | {"act":"tick(5)","who":0}^{"end":"done after 2"}^ |  | L4 line 2^ | 4
log f --log | {"act":"tick(5)","who":0}^ |  | L5^ | 4
log f --log |  |  | L5^ | 4
log f --log | {"act":"tick(5)","who":0}^{"end":"done after 1"}^{"act":"tick(6)","who":0}^ |  | L6^ | 4
log f --log --until 1 | {"act":"tick(6)","who":0}^{"act":"tick(5)","who":0}^{"end":"done after 2"}^ |  | L4 line 1^ | 4
-- what is taken is read before the file and its composition
replay g --until 1 | tick(5)^ |  | io^ | 5
replay f --until 1 --comp Nine | x^ |  | E17^ | 1
log g --log | x |  | io^ | 5
-- bounds that are none
replay f --until x | tick(5)^tick(6)^reset^ |  | error: invalid value 'x' for '--until <N>'^  [wanted: a whole number of 64 bits]^^For more information, try '--help'.^ | 2
replay f --until +1 | tick(5)^tick(6)^reset^ |  | error: invalid value '+1' for '--until <N>'^  [wanted: a whole number of 64 bits]^^For more information, try '--help'.^ | 2
replay f --until 18446744073709551616 | tick(5)^tick(6)^reset^ |  | error: invalid value '18446744073709551616' for '--until <N>'^  [wanted: a whole number of 64 bits]^^For more information, try '--help'.^ | 2
replay f --log --states --until 1.0 | tick(5)^tick(6)^reset^ |  | error: invalid value '1.0' for '--until <N>'^  [wanted: a whole number of 64 bits]^^For more information, try '--help'.^ | 2
replay f --invariants --until x | tick(5)^tick(6)^reset^ |  | error: invalid value 'x' for '--until <N>'^  [wanted: a whole number of 64 bits]^^For more information, try '--help'.^ | 2
log f --until 0x1 | tick(5)^tick(6)^reset^ |  | error: invalid value '0x1' for '--until <N>'^  [wanted: a whole number of 64 bits]^^For more information, try '--help'.^ | 2
log f --log --until x | {"act":"tick(5)","who":0}^{"act":"tick(6)","who":0}^{"act":"reset","who":1}^{"end":"done after 3"}^ |  | error: invalid value 'x' for '--until <N>'^  [wanted: a whole number of 64 bits]^^For more information, try '--help'.^ | 2
replay f --until |  |  | error: a value is required for '--until <N>' but none was supplied^^For more information, try '--help'.^ | 2
replay f --invariants --until 1 | tick(5)^tick(6)^reset^ |  | error: the following required arguments were not provided:^  --log^^Usage: ioac replay --log --invariants <FILE>^^For more information, try '--help'.^ | 2
monitor f --until 1 | {"act":"tick(5)","who":0}^{"act":"tick(6)","who":0}^{"act":"reset","who":1}^{"end":"done after 3"}^ |  | error: unexpected argument '--until' found^^  tip: to pass '--until' as a value, use '-- --until'^^Usage: ioac monitor <FILE>^^For more information, try '--help'.^ | 2
"#;

/// The words after the program's name, a source, a list or a log, what is printed, what is told of errors, and the exit status.
pub const COMPOSED: &str = r#"
-- a list that is cut behind an action that faults ends by the fault; a log is cut before it, or is taken whole
replay f --until 1 | automaton Top signature output up; output see(x: Int) states n: Int := 9223372036854775806 transitions output up eff n := n + 1 output see pre x = n propose x := n composition One components A: Top | up^up^up^ | up^end: done after 1^ |  | 0
replay f --until 2 | automaton Top signature output up; output see(x: Int) states n: Int := 9223372036854775806 transitions output up eff n := n + 1 output see pre x = n propose x := n composition One components A: Top | up^up^up^ | up^end: fault 1 in component 0 at 1^ |  | 3
replay f --until 3 | automaton Top signature output up; output see(x: Int) states n: Int := 9223372036854775806 transitions output up eff n := n + 1 output see pre x = n propose x := n composition One components A: Top | up^up^up^ | up^end: fault 1 in component 0 at 1^ |  | 3
log f --until 2 | automaton Top signature output up; output see(x: Int) states n: Int := 9223372036854775806 transitions output up eff n := n + 1 output see pre x = n propose x := n composition One components A: Top | up^up^up^ | {"act":"up","who":0}^{"act":"up","who":0}^{"end":"fault 1 in component 0 at 1"}^ |  | 3
replay f --log --until 1 | automaton Top signature output up; output see(x: Int) states n: Int := 9223372036854775806 transitions output up eff n := n + 1 output see pre x = n propose x := n composition One components A: Top | {"act":"up","who":0}^{"act":"up","who":0}^{"end":"fault 1 in component 0 at 1"}^ | up^end: done after 1^ |  | 0
replay f --log --until 2 | automaton Top signature output up; output see(x: Int) states n: Int := 9223372036854775806 transitions output up eff n := n + 1 output see pre x = n propose x := n composition One components A: Top | {"act":"up","who":0}^{"act":"up","who":0}^{"end":"fault 1 in component 0 at 1"}^ |  | L4 line 2^ | 4
replay f --log --until 3 | automaton Top signature output up; output see(x: Int) states n: Int := 9223372036854775806 transitions output up eff n := n + 1 output see pre x = n propose x := n composition One components A: Top | {"act":"up","who":0}^{"act":"up","who":0}^{"end":"fault 1 in component 0 at 1"}^ | up^end: fault 1 in component 0 at 1^ |  | 3
log f --log | automaton Top signature output up; output see(x: Int) states n: Int := 9223372036854775806 transitions output up eff n := n + 1 output see pre x = n propose x := n composition One components A: Top | {"act":"up","who":0}^{"act":"up","who":0}^{"end":"fault 1 in component 0 at 1"}^ | {"act":"up","who":0}^{"act":"up","who":0}^{"end":"fault 1 in component 0 at 1"}^ |  | 3
log f --log --until 1 | automaton Top signature output up; output see(x: Int) states n: Int := 9223372036854775806 transitions output up eff n := n + 1 output see pre x = n propose x := n composition One components A: Top | {"act":"up","who":0}^{"act":"up","who":0}^{"end":"fault 1 in component 0 at 1"}^ | {"act":"up","who":0}^{"end":"done after 1"}^ |  | 0
log f --log --until 2 | automaton Top signature output up; output see(x: Int) states n: Int := 9223372036854775806 transitions output up eff n := n + 1 output see pre x = n propose x := n composition One components A: Top | {"act":"up","who":0}^{"act":"up","who":0}^{"end":"fault 1 in component 0 at 1"}^ |  | L4 line 2^ | 4
-- states behind so many actions, and at the start
replay f --states --until 1 | automaton Counter(start: Int) signature output tick(k: Int); input reset states c: Int := start transitions output tick pre k = c propose k := c eff c := c + 1 input reset eff c := start composition One components A: Counter(5) | tick(5)^tick(6)^reset^ | tick(5)^end: done after 1^A.c = 6^ |  | 0
replay f --states --until 0 | automaton Counter(start: Int) signature output tick(k: Int); input reset states c: Int := start transitions output tick pre k = c propose k := c eff c := c + 1 input reset eff c := start composition One components A: Counter(5) | tick(5)^tick(6)^reset^ | end: done after 0^A.c = 5^ |  | 0
replay f --states --until 9 | automaton Counter(start: Int) signature output tick(k: Int); input reset states c: Int := start transitions output tick pre k = c propose k := c eff c := c + 1 input reset eff c := start composition One components A: Counter(5) | tick(5)^tick(6)^reset^ | tick(5)^tick(6)^reset^end: done after 3^A.c = 5^ |  | 0
replay f --log --states --until 2 | automaton Counter(start: Int) signature output tick(k: Int); input reset states c: Int := start transitions output tick pre k = c propose k := c eff c := c + 1 input reset eff c := start composition One components A: Counter(5) | {"act":"tick(5)","who":0}^{"act":"tick(6)","who":0}^{"act":"reset","who":1}^{"end":"done after 3"}^ | tick(5)^tick(6)^end: done after 2^A.c = 7^ |  | 0
replay f --log --states --until 0 | automaton Counter(start: Int) signature output tick(k: Int); input reset states c: Int := start transitions output tick pre k = c propose k := c eff c := c + 1 input reset eff c := start composition One components A: Counter(5) | {"act":"tick(5)","who":0}^{"act":"tick(6)","who":0}^{"act":"reset","who":1}^{"end":"done after 3"}^ | end: done after 0^A.c = 5^ |  | 0
-- invariants of so many states behind the start
replay f --log --invariants | automaton Counter(start: Int) signature output tick(k: Int); input reset states c: Int := start transitions output tick pre k = c propose k := c eff c := c + 1 input reset eff c := start composition One components A: Counter(5) invariant of Counter: c < 7 | {"act":"tick(5)","who":0}^{"act":"tick(6)","who":0}^{"act":"reset","who":1}^{"end":"done after 3"}^ | invariant 0 of component 0 broken after 2^ |  | 4
replay f --log --invariants --until 2 | automaton Counter(start: Int) signature output tick(k: Int); input reset states c: Int := start transitions output tick pre k = c propose k := c eff c := c + 1 input reset eff c := start composition One components A: Counter(5) invariant of Counter: c < 7 | {"act":"tick(5)","who":0}^{"act":"tick(6)","who":0}^{"act":"reset","who":1}^{"end":"done after 3"}^ | invariant 0 of component 0 broken after 2^ |  | 4
replay f --log --invariants --until 1 | automaton Counter(start: Int) signature output tick(k: Int); input reset states c: Int := start transitions output tick pre k = c propose k := c eff c := c + 1 input reset eff c := start composition One components A: Counter(5) invariant of Counter: c < 7 | {"act":"tick(5)","who":0}^{"act":"tick(6)","who":0}^{"act":"reset","who":1}^{"end":"done after 3"}^ | tick(5)^end: done after 1^ |  | 0
-- a worker is told by its component, and an internal action is an entry
log f --log | automaton A signature output put(x: Int) states n: Int transitions output put pre x = n propose x := n eff n := n + 1 automaton B signature input put(x: Int); internal rest; input stop states n: Int transitions input put eff n := n + x internal rest pre n > 0 eff n := 0 input stop composition C components P: B; Q: A hidden put | {"act":"put(0)","who":1}^{"act":"put(1)","who":1}^{"act":"rest","who":0}^{"act":"stop","who":2}^{"end":"done after 4"}^ | {"act":"put(0)","who":1}^{"act":"put(1)","who":1}^{"act":"rest","who":0}^{"act":"stop","who":2}^{"end":"done after 4"}^ |  | 0
log f --log --until 3 | automaton A signature output put(x: Int) states n: Int transitions output put pre x = n propose x := n eff n := n + 1 automaton B signature input put(x: Int); internal rest; input stop states n: Int transitions input put eff n := n + x internal rest pre n > 0 eff n := 0 input stop composition C components P: B; Q: A hidden put | {"act":"put(0)","who":1}^{"act":"put(1)","who":1}^{"act":"rest","who":0}^{"act":"stop","who":2}^{"end":"done after 4"}^ | {"act":"put(0)","who":1}^{"act":"put(1)","who":1}^{"act":"rest","who":0}^{"end":"done after 3"}^ |  | 0
replay f --log --until 3 | automaton A signature output put(x: Int) states n: Int transitions output put pre x = n propose x := n eff n := n + 1 automaton B signature input put(x: Int); internal rest; input stop states n: Int transitions input put eff n := n + x internal rest pre n > 0 eff n := 0 input stop composition C components P: B; Q: A hidden put | {"act":"put(0)","who":1}^{"act":"put(1)","who":1}^{"act":"rest","who":0}^{"act":"stop","who":2}^{"end":"done after 4"}^ | end: done after 3^ |  | 0
replay f --until 4 | automaton A signature output put(x: Int) states n: Int transitions output put pre x = n propose x := n eff n := n + 1 automaton B signature input put(x: Int); internal rest; input stop states n: Int transitions input put eff n := n + x internal rest pre n > 0 eff n := 0 input stop composition C components P: B; Q: A hidden put | put(0)^put(1)^rest^stop^put(2)^ | stop^end: done after 4^ |  | 0
"#;
