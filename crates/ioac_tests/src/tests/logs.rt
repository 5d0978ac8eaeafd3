//! Logs that are replayed, and logs that are monitored.

/// The words after the program's name, a log of the counter, what is printed, what is told of errors, and the exit status.
pub const REPLAYS: &str = r#"
replay f --log | {"act":"tick(5)","who":0}^{"act":"tick(6)","who":0}^{"act":"reset","who":1}^{"end":"done after 3"}^ | tick(5)^tick(6)^reset^end: done after 3^ |  | 0
replay f --log | {"act":"tick(5)","who":0}^{"act":"tick(6)","who":0}^{"act":"reset","who":1}^{"end":"done after 3"} | tick(5)^tick(6)^reset^end: done after 3^ |  | 0
replay --log --comp One f | {"act":"reset","who":1}^{"act":"tick(5)","who":0}^{"end":"done after 2"}^ | reset^tick(5)^end: done after 2^ |  | 0
replay f --log | {"end":"done after 0"}^ | end: done after 0^ |  | 0
-- another worker; an action that no component has is not asked for one
replay f --log | {"act":"tick(5)","who":1}^{"act":"tick(6)","who":0}^{"act":"reset","who":1}^{"end":"done after 3"}^ |  | L3 line 1^ | 4
replay f --log | {"act":"tick(5)","who":0}^{"act":"tick(6)","who":0}^{"act":"reset","who":0}^{"end":"done after 3"}^ |  | L3 line 3^ | 4
replay f --log | {"act":"reset","who":18446744073709551615}^{"end":"done after 1"}^ |  | L3 line 1^ | 4
replay f --log | {"act":"tick(7)","who":1}^{"end":"done after 1"}^ |  | L3 line 1^ | 4
replay f --log | {"act":"tock","who":7}^{"end":"done after 1"}^ |  | L4 line 1^ | 4
replay f --log | {"act":"tick(true)","who":7}^{"end":"done after 1"}^ |  | L4 line 1^ | 4
-- another run
replay f --log | {"act":"tick(6)","who":0}^{"act":"tick(5)","who":0}^{"act":"reset","who":1}^{"end":"done after 3"}^ |  | L4 line 1^ | 4
replay f --log | {"act":"tick(5)","who":0}^{"act":"tick(5)","who":0}^{"act":"reset","who":0}^{"end":"done after 3"}^ |  | L4 line 2^ | 4
replay f --log | {"act":"tick(5)","who":0}^{"act":"tick(6)","who":0}^{"act":"reset","who":1}^{"end":"done after 2"}^ |  | L4 line 4^ | 4
replay f --log | {"act":"tick(5)","who":0}^{"act":"tick(6)","who":0}^{"act":"reset","who":1}^{"end":"done after 4"}^ |  | L4 line 4^ | 4
replay f --log | {"end":"done after 1"}^ |  | L4 line 1^ | 4
replay f --log | {"end":"fault 1 in component 0 at 0"}^ |  | L4 line 1^ | 4
replay f --log | {"act":"tick(5)","who":0}^{"end":"fault 1 in component 0 at 0"}^ |  | L4 line 1^ | 4
replay f --log | {"act":"tick(5)","who":0}^{"act":"tick(7)","who":0}^{"end":"fault 1 in component 0 at 1"}^ |  | L4 line 2^ | 4
-- no end, and lines after it
replay f --log | {"act":"tick(5)","who":0}^{"act":"tick(6)","who":0}^{"act":"reset","who":1}^ |  | L5^ | 4
replay f --log |  |  | L5^ | 4
replay f --log | {"act":"tick(5)","who":0}^{"end":"done after 1"}^{"end":"done after 1"}^ |  | L6^ | 4
replay f --log | {"act":"tick(5)","who":0}^{"end":"done after 1"}^{"act":"tick(6)","who":0}^ |  | L6^ | 4
replay f --log | {"end":"done after 0"}^^ |  | L6^ | 4
replay f --log | {"end":"done after 0"}^x^ |  | L6^ | 4
-- lines that are no JSON
replay f --log | {"act":"tick(5)","who":0}^x^{"act":"reset","who":1}^{"end":"done after 3"}^ |  | L1 line 2^ | 4
replay f --log | ^{"end":"done after 0"}^ |  | L1 line 1^ | 4
replay f --log | {"act":"tick(5)","who":0}^ ^{"end":"done after 1"}^ |  | L1 line 2^ | 4
replay f --log | % a comment^{"end":"done after 0"}^ |  | L1 line 1^ | 4
replay f --log | tick(5)^ |  | L1 line 1^ | 4
replay f --log | {"act":"tick(5)","who":00}^{"end":"done after 1"}^ |  | L1 line 1^ | 4
replay f --log | {"act":"tick(5)","who":0},^{"end":"done after 1"}^ |  | L1 line 1^ | 4
replay f --log | {"act":"tick(5)",^"who":0}^{"end":"done after 1"}^ |  | L1 line 1^ | 4
replay f --log | {'act':'tick(5)','who':0}^{"end":"done after 1"}^ |  | L1 line 1^ | 4
replay f --log | &[@200&&]@200&^{"end":"done after 0"}^ |  | L1 line 1^ | 4
-- lines of JSON that are neither entry nor end
replay f --log | {"act":"tick(5)","who":0}^[]^{"act":"reset","who":1}^{"end":"done after 3"}^ |  | L2 line 2^ | 4
replay f --log | {}^{"end":"done after 0"}^ |  | L2 line 1^ | 4
replay f --log | "done after 0"^ |  | L2 line 1^ | 4
replay f --log | {"act":"tick(5)","who":0,"at":0}^{"end":"done after 1"}^ |  | L2 line 1^ | 4
replay f --log | {"act":"tick(5)"}^{"end":"done after 1"}^ |  | L2 line 1^ | 4
replay f --log | {"act":"tick(5)","by":0}^{"end":"done after 1"}^ |  | L2 line 1^ | 4
replay f --log | {"act":"tick(5)","end":"done after 1"}^{"end":"done after 1"}^ |  | L2 line 1^ | 4
replay f --log | {"act":5,"who":0}^{"end":"done after 1"}^ |  | L2 line 1^ | 4
replay f --log | {"act":"tick(5)","who":"0"}^{"end":"done after 1"}^ |  | L2 line 1^ | 4
replay f --log | {"act":"tick(5)","who":-1}^{"end":"done after 1"}^ |  | L2 line 1^ | 4
replay f --log | {"act":"tick(5)","who":0.0}^{"end":"done after 1"}^ |  | L2 line 1^ | 4
replay f --log | {"act":"tick(5)","who":18446744073709551616}^{"end":"done after 1"}^ |  | L2 line 1^ | 4
replay f --log | {"act":"tick(5","who":0}^{"end":"done after 1"}^ |  | L2 line 1^ | 4
replay f --log | {"act":"recv(0, Pkt(data, 1, 0, 7))","who":0}^{"end":"done after 1"}^ |  | L2 line 1^ | 4
replay f --log | {"act":"","who":0}^{"end":"done after 1"}^ |  | L2 line 1^ | 4
-- an end has one spelling
replay f --log | {"act":"tick(5)","who":0}^{"act":"tick(6)","who":0}^{"act":"reset","who":1}^{"end":"done after 03"}^ |  | L2 line 4^ | 4
replay f --log | {"end":"done after 0 "}^ |  | L2 line 1^ | 4
replay f --log | {"end":"Done after 0"}^ |  | L2 line 1^ | 4
replay f --log | {"end":"done after -0"}^ |  | L2 line 1^ | 4
replay f --log | {"end":"done after 18446744073709551616"}^ |  | L2 line 1^ | 4
replay f --log | {"end":"not enabled at 0"}^ |  | L2 line 1^ | 4
replay f --log | {"end":"not an action at 0"}^ |  | L2 line 1^ | 4
replay f --log | {"end":"fault 6 in component 0 at 0"}^ |  | L2 line 1^ | 4
replay f --log | {"end":"fault 0 in component 0 at 0"}^ |  | L2 line 1^ | 4
replay f --log | {"end":0}^ |  | L2 line 1^ | 4
replay f --log | {"end":"done after 0","who":0}^ |  | L2 line 1^ | 4
-- an entry and an end have any spelling of JSON, and an action any of its own
replay f --log | {"who":0,"act":"tick(5)"}^{"end":"done after 1"}^ | tick(5)^end: done after 1^ |  | 0
replay f --log |  { "act" : "tick(5)" , "who" : 0 } ^ {"end" : "done after 1"} ^ | tick(5)^end: done after 1^ |  | 0
replay f --log | {"\u0061ct":"\u0074ick\u00285)","who":0}^{"end":"done\u0020after 1"}^ | tick(5)^end: done after 1^ |  | 0
replay f --log | {"act":" tick ( 005 )","who":0}^{"end":"done after 1"}^ | tick(5)^end: done after 1^ |  | 0
-- of doubled keys the last counts
replay f --log | {"act":"x","act":"tick(5)","who":7,"who":0}^{"end":"done after 9","end":"done after 1"}^ | tick(5)^end: done after 1^ |  | 0
-- a log is judged as its lines come: the first line at fault is told, and of the same line what is wrong with its text
replay f --log | {"act":"tick(5)","who":1}^{"act":"tick(6)","who":0}^x^{"end":"done after 3"}^ |  | L3 line 1^ | 4
replay f --log | {"act":"tick(5)","who":1}^{"act":"tock","who":0}^x^ |  | L3 line 1^ | 4
replay f --log | {"act":"tick(6)","who":0}^ |  | L4 line 1^ | 4
replay f --log | {"act":"tick(6)","who":0}^[]^ |  | L4 line 1^ | 4
replay f --log | {"act":"tick(5)","who":0}^{"act":"tick(5)","who":1}^x^ |  | L3 line 2^ | 4
replay f --log | x^{"act":"tick(5)","who":1}^ |  | L1 line 1^ | 4
replay f --log | {"act":"tick(5)","who":0}^{"act":"tick(6","who":1}^x^ |  | L2 line 2^ | 4
-- so is its end, whatever is behind it
replay f --log | {"act":"tick(5)","who":0}^{"end":"done after 2"}^x^ |  | L4 line 2^ | 4
replay f --log | {"end":"done after 1"}^{"end":"done after 0"}^ |  | L4 line 1^ | 4
replay f --log | {"end":"fault 1 in component 0 at 0"}^x^ |  | L4 line 1^ | 4
replay f --log | {"act":"tick(5)","who":0}^{"end":"done after 1"}^x |  | L6^ | 4
-- logs and lines that are longer than what is read at once
replay f --log | &{"act":"reset","who":1}^@3000&{"end":"done after 3000"}^ | &reset^@3000&end: done after 3000^ |  | 0
replay f --log | {"act":"reset",& @70000&"who":1}^{"end":"done after 1"}^ | reset^end: done after 1^ |  | 0
replay f --log | &{"act":"reset","who":1}^@3000&x^ |  | L1 line 3001^ | 4
replay f --log | &{"act":"reset","who":1}^@3000&{"act":"reset","who":0}^x^ |  | L3 line 3001^ | 4
replay f --log | &{"act":"reset","who":1}^@3000&{"act":"tick(6)","who":0}^[]^ |  | L4 line 3001^ | 4
replay f --log | &{"act":"reset","who":1}^@3000&{"end":"done after 2999"}^x^ |  | L4 line 3001^ | 4
replay f --log | &{"act":"reset","who":1}^@3000& |  | L5^ | 4
replay f --log | {"end":"done after 0"}^&x@70000& |  | L6^ | 4
-- a list is no log, and a log no list
replay f | {"act":"tick(5)","who":0}^{"end":"done after 1"}^ |  | L2 line 1^ | 4
-- the file and its composition come first
replay g --log | x |  | io^ | 5
replay f --log --comp Nine | x |  | E17^ | 1
-- words
replay f --log g |  |  | error: unexpected argument 'g' found^^Usage: ioac replay [--comp <NAME>] [--log [--invariants]] [--states] [--enabled] [--coverage] [--until <N>] [--json] [--explain] <FILE>^^For more information, try '--help'.^ | 2
replay f --log --log |  |  | error: the argument '--log' cannot be used multiple times^^Usage: ioac replay [--comp <NAME>] [--log [--invariants]] [--states] [--enabled] [--coverage] [--until <N>] [--json] [--explain] <FILE>^^For more information, try '--help'.^ | 2
replay --log |  |  | error: the following required arguments were not provided:^  <FILE>^^Usage: ioac replay [--comp <NAME>] [--log [--invariants]] [--states] [--enabled] [--coverage] [--until <N>] [--json] [--explain] <FILE>^^For more information, try '--help'.^ | 2
"#;

/// Logs with CR and tabs, which are blanks of JSON, and of actions.
pub const BLANKS: &str = "\
replay f --log | {\"act\":\"tick(5)\",\"who\":0}\r^{\"end\":\"done after 1\"}\r^ | tick(5)^end: done after 1^ |  | 0
replay f --log | \t{\"act\":\"tick(\\t5)\\r\",\t\"who\":0}^{\"end\":\"done after 1\"}^ | tick(5)^end: done after 1^ |  | 0
replay f --log | {\"end\":\"done after 0\\r\"}^ |  | L2 line 1^ | 4
replay f --log | {\"end\":\"done after 0\"}^\r^ |  | L6^ | 4
";

/// The words after the program's name, a source, a log, what is printed, what is told of errors, and the exit status.
pub const FAULTS: &str = r#"
-- the last action of a log that ends by a fault is the one that faults
replay f --log | automaton Top signature output up; output see(x: Int) states n: Int := 9223372036854775806 transitions output up eff n := n + 1 output see pre x = n propose x := n composition One components A: Top | {"act":"up","who":0}^{"act":"up","who":0}^{"end":"fault 1 in component 0 at 1"}^ | up^end: fault 1 in component 0 at 1^ |  | 3
replay f --log | automaton Top signature output up; output see(x: Int) states n: Int := 9223372036854775806 transitions output up eff n := n + 1 output see pre x = n propose x := n composition One components A: Top | {"act":"up","who":0}^{"act":"up","who":0}^{"end":"fault 2 in component 0 at 1"}^ |  | L4 line 3^ | 4
replay f --log | automaton Top signature output up; output see(x: Int) states n: Int := 9223372036854775806 transitions output up eff n := n + 1 output see pre x = n propose x := n composition One components A: Top | {"act":"up","who":0}^{"act":"up","who":0}^{"end":"fault 1 in component 1 at 1"}^ |  | L4 line 3^ | 4
replay f --log | automaton Top signature output up; output see(x: Int) states n: Int := 9223372036854775806 transitions output up eff n := n + 1 output see pre x = n propose x := n composition One components A: Top | {"act":"up","who":0}^{"act":"up","who":0}^{"end":"fault 1 in component 0 at 2"}^ |  | L4 line 3^ | 4
replay f --log | automaton Top signature output up; output see(x: Int) states n: Int := 9223372036854775806 transitions output up eff n := n + 1 output see pre x = n propose x := n composition One components A: Top | {"act":"up","who":0}^{"act":"up","who":0}^{"end":"done after 2"}^ |  | L4 line 2^ | 4
replay f --log | automaton Top signature output up; output see(x: Int) states n: Int := 9223372036854775806 transitions output up eff n := n + 1 output see pre x = n propose x := n composition One components A: Top | {"act":"up","who":0}^{"act":"up","who":0}^{"act":"see(0)","who":0}^{"end":"fault 1 in component 0 at 1"}^ |  | L4 line 2^ | 4
replay f --log | automaton Top signature output up; output see(x: Int) states n: Int := 9223372036854775806 transitions output up eff n := n + 1 output see pre x = n propose x := n composition One components A: Top | {"act":"up","who":0}^{"end":"fault 1 in component 0 at 0"}^ |  | L4 line 1^ | 4
replay f --log | automaton Top signature output up; output see(x: Int) states n: Int := 9223372036854775806 transitions output up eff n := n + 1 output see pre x = n propose x := n composition One components A: Top | {"act":"up","who":0}^{"act":"up","who":1}^{"end":"fault 1 in component 0 at 1"}^ |  | L3 line 2^ | 4
-- an action that faults is judged with the line after it: one that cannot be read, another action, the end, or none
replay f --log | automaton Top signature output up; output see(x: Int) states n: Int := 9223372036854775806 transitions output up eff n := n + 1 output see pre x = n propose x := n composition One components A: Top | {"act":"up","who":0}^{"act":"up","who":0}^x^{"end":"fault 1 in component 0 at 1"}^ |  | L1 line 3^ | 4
replay f --log | automaton Top signature output up; output see(x: Int) states n: Int := 9223372036854775806 transitions output up eff n := n + 1 output see pre x = n propose x := n composition One components A: Top | {"act":"up","who":0}^{"act":"up","who":0}^{}^{"end":"fault 1 in component 0 at 1"}^ |  | L2 line 3^ | 4
replay f --log | automaton Top signature output up; output see(x: Int) states n: Int := 9223372036854775806 transitions output up eff n := n + 1 output see pre x = n propose x := n composition One components A: Top | {"act":"up","who":0}^{"act":"up","who":0}^{"act":"up(","who":0}^ |  | L2 line 3^ | 4
replay f --log | automaton Top signature output up; output see(x: Int) states n: Int := 9223372036854775806 transitions output up eff n := n + 1 output see pre x = n propose x := n composition One components A: Top | {"act":"up","who":0}^{"act":"up","who":0}^{"act":"up","who":0}^ |  | L4 line 2^ | 4
replay f --log | automaton Top signature output up; output see(x: Int) states n: Int := 9223372036854775806 transitions output up eff n := n + 1 output see pre x = n propose x := n composition One components A: Top | {"act":"up","who":0}^{"act":"up","who":0}^{"act":"up","who":1}^x^ |  | L4 line 2^ | 4
replay f --log | automaton Top signature output up; output see(x: Int) states n: Int := 9223372036854775806 transitions output up eff n := n + 1 output see pre x = n propose x := n composition One components A: Top | {"act":"up","who":0}^{"act":"up","who":0}^{"act":"down","who":0}^ |  | L4 line 2^ | 4
replay f --log | automaton Top signature output up; output see(x: Int) states n: Int := 9223372036854775806 transitions output up eff n := n + 1 output see pre x = n propose x := n composition One components A: Top | {"act":"up","who":0}^{"act":"up","who":0}^{"end":"done after 1"}^x^ |  | L4 line 2^ | 4
replay f --log | automaton Top signature output up; output see(x: Int) states n: Int := 9223372036854775806 transitions output up eff n := n + 1 output see pre x = n propose x := n composition One components A: Top | {"act":"up","who":0}^{"act":"up","who":0}^{"end":"fault 2 in component 0 at 1"}^x^ |  | L4 line 3^ | 4
replay f --log | automaton Top signature output up; output see(x: Int) states n: Int := 9223372036854775806 transitions output up eff n := n + 1 output see pre x = n propose x := n composition One components A: Top | {"act":"up","who":0}^{"act":"up","who":0}^ |  | L5^ | 4
replay f --log | automaton Top signature output up; output see(x: Int) states n: Int := 9223372036854775806 transitions output up eff n := n + 1 output see pre x = n propose x := n composition One components A: Top | {"act":"up","who":0}^{"act":"up","who":0}^{"end":"fault 1 in component 0 at 1"}^{"end":"fault 1 in component 0 at 1"}^ |  | L6^ | 4
-- its worker is asked first, whatever follows; an action that is performed before the end of a fault is told at once
replay f --log | automaton Top signature output up; output see(x: Int) states n: Int := 9223372036854775806 transitions output up eff n := n + 1 output see pre x = n propose x := n composition One components A: Top | {"act":"up","who":0}^{"act":"up","who":1}^x^ |  | L3 line 2^ | 4
replay f --log | automaton Top signature output up; output see(x: Int) states n: Int := 9223372036854775806 transitions output up eff n := n + 1 output see pre x = n propose x := n composition One components A: Top | {"act":"up","who":0}^{"end":"fault 1 in component 0 at 0"}^x^ |  | L4 line 1^ | 4
-- an action that no component has is told before its worker is asked
replay f --log | automaton Go signature output go states n: Int transitions output go eff n := n + 1 composition Solo components G: Go | {"act":"tick(5)","who":0}^{"act":"tick(6)","who":0}^{"act":"reset","who":1}^{"end":"done after 3"}^ |  | L4 line 1^ | 4
replay f --log | automaton Go signature output go states n: Int transitions output go eff n := n + 1 composition Solo components G: Go | {"act":"tick(5)","who":1}^{"act":"tick(6)","who":0}^{"act":"reset","who":1}^{"end":"done after 3"}^ |  | L4 line 1^ | 4
-- workers are owners; who performs an input is the environment; hidden actions leave no trace
replay f --log | automaton A signature output put(x: Int) states n: Int transitions output put pre x = n propose x := n eff n := n + 1 automaton B signature input put(x: Int); internal rest; input stop states n: Int transitions input put eff n := n + x internal rest pre n > 0 eff n := 0 input stop composition C components P: B; Q: A hidden put | {"act":"put(0)","who":1}^{"act":"put(1)","who":1}^{"act":"rest","who":0}^{"act":"stop","who":2}^{"end":"done after 4"}^ | stop^end: done after 4^ |  | 0
replay f --log | automaton A signature output put(x: Int) states n: Int transitions output put pre x = n propose x := n eff n := n + 1 automaton B signature input put(x: Int); internal rest; input stop states n: Int transitions input put eff n := n + x internal rest pre n > 0 eff n := 0 input stop composition C components P: B; Q: A hidden put | {"act":"put(0)","who":0}^{"end":"done after 1"}^ |  | L3 line 1^ | 4
replay f --log | automaton A signature output put(x: Int) states n: Int transitions output put pre x = n propose x := n eff n := n + 1 automaton B signature input put(x: Int); internal rest; input stop states n: Int transitions input put eff n := n + x internal rest pre n > 0 eff n := 0 input stop composition C components P: B; Q: A hidden put | {"act":"stop","who":1}^{"end":"done after 1"}^ |  | L3 line 1^ | 4
"#;

/// The same of monitors.
pub const MONITORS: &str = r#"
monitor f | automaton Once(n: Int) signature output tick(k: Int); input reset states left: Int := n transitions output tick pre left > 0 propose k := 0 eff left := left - 1 input reset eff left := n composition Spec components M: Once(1) | {"act":"tick(5)","who":0}^{"act":"tick(6)","who":0}^{"act":"reset","who":1}^{"end":"done after 3"}^ | monitor: not enabled at 1^ |  | 4
monitor f | automaton Once(n: Int) signature output tick(k: Int); input reset states left: Int := n transitions output tick pre left > 0 propose k := 0 eff left := left - 1 input reset eff left := n composition Spec components M: Once(2) | {"act":"tick(5)","who":0}^{"act":"tick(6)","who":0}^{"act":"reset","who":1}^{"end":"done after 3"}^ | monitor: ok^ |  | 0
monitor f | automaton Once(n: Int) signature output tick(k: Int); input reset states left: Int := n transitions output tick pre left > 0 propose k := 0 eff left := left - 1 input reset eff left := n composition Spec components M: Once(1) composition Other components M: Once(2) | {"act":"tick(5)","who":0}^{"act":"tick(6)","who":0}^{"end":"done after 2"}^ | monitor: ok^ |  | 0
monitor f --comp Spec | automaton Once(n: Int) signature output tick(k: Int); input reset states left: Int := n transitions output tick pre left > 0 propose k := 0 eff left := left - 1 input reset eff left := n composition Spec components M: Once(1) composition Other components M: Once(2) | {"act":"tick(5)","who":0}^{"act":"tick(6)","who":0}^{"end":"done after 2"}^ | monitor: not enabled at 1^ |  | 4
monitor f | automaton Once signature output tick(k: Int) states left: Int := 1 transitions output tick pre left > 0 propose k := 0 eff left := left - 1 composition Spec components M: Once | {"end":"done after 0"} | monitor: ok^ |  | 0
-- actions that the specification lacks are passed over, and counted; it is asked of no worker, and of no end
monitor f | automaton Once signature output tick(k: Int) states left: Int := 1 transitions output tick pre left > 0 propose k := 0 eff left := left - 1 composition Spec components M: Once | {"act":"reset","who":1}^{"act":"tick(5)","who":0}^{"act":"tick(true)","who":0}^{"act":"tick(6)","who":0}^{"end":"done after 4"}^ | monitor: not enabled at 3^ |  | 4
monitor f | automaton Once signature output tick(k: Int) states left: Int := 1 transitions output tick pre left > 0 propose k := 0 eff left := left - 1 composition Spec components M: Once | {"act":"tick(5)","who":9}^{"end":"done after 7"}^ | monitor: ok^ |  | 0
monitor f | automaton Top signature output tick(k: Int) states x: Int := 9223372036854775807 transitions output tick propose k := 0 eff x := x + 1 composition Spec components M: Top | {"act":"reset","who":1}^{"act":"tick(5)","who":0}^{"act":"tick(5)","who":0}^{"end":"done after 3"}^ | monitor: fault 1 in component 0 at 1^ |  | 4
-- the last action of a log that ends by a fault was not performed
monitor f | automaton Once signature output tick(k: Int) states left: Int := 1 transitions output tick pre left > 0 propose k := 0 eff left := left - 1 composition Spec components M: Once | {"act":"tick(5)","who":0}^{"act":"tick(6)","who":0}^{"end":"fault 1 in component 0 at 1"}^ | monitor: ok^ |  | 0
monitor f | automaton Once signature output tick(k: Int) states left: Int := 1 transitions output tick pre left > 0 propose k := 0 eff left := left - 1 composition Spec components M: Once | {"act":"tick(5)","who":0}^{"act":"tick(6)","who":0}^{"act":"tick(7)","who":0}^{"end":"fault 1 in component 0 at 2"}^ | monitor: not enabled at 1^ |  | 4
monitor f | automaton Once signature output tick(k: Int) states left: Int := 1 transitions output tick pre left > 0 propose k := 0 eff left := left - 1 composition Spec components M: Once | {"end":"fault 1 in component 0 at 0"}^ | monitor: ok^ |  | 0
-- a specification of which not all is seen, whatever is read
monitor f | automaton Once(n: Int) signature internal tick(k: Int); input reset states left: Int := n transitions internal tick pre left > 0 propose k := 0 eff left := left - 1 input reset eff left := n composition Spec components M: Once(1) | {"act":"tick(5)","who":0}^{"act":"tick(6)","who":0}^{"act":"reset","who":1}^{"end":"done after 3"}^ |  | L7^ | 4
monitor f | automaton Once signature internal tick(k: Int) states left: Int := 1 transitions internal tick pre left > 0 propose k := 0 eff left := left - 1 composition Spec components M: Once | x |  | L7^ | 4
monitor f | automaton Once signature output tick(k: Int) states left: Int := 1 transitions output tick pre left > 0 propose k := 0 eff left := left - 1 composition Spec components M: Once hidden tick | {"end":"done after 0"}^ |  | L7^ | 4
monitor f | automaton A signature output go transitions output go automaton B signature internal rest transitions internal rest composition Spec components P: A; Q: B | {"end":"done after 0"}^ |  | L7^ | 4
-- what is no log
monitor f | automaton A signature output go transitions output go composition Spec components P: A | {"act":"go","who":0}^x^{"end":"done after 1"}^ |  | L1 line 2^ | 4
monitor f | automaton A signature output go transitions output go composition Spec components P: A | {"act":"go","who":0}^[]^{"end":"done after 1"}^ |  | L2 line 2^ | 4
monitor f | automaton A signature output go transitions output go composition Spec components P: A | {"act":"put(data)","who":0}^{"end":"done after 1"}^ |  | L2 line 1^ | 4
monitor f | type Kind = enum { data, ack } automaton A signature output go transitions output go composition Spec components P: A | {"act":"put(data)","who":0}^{"end":"done after 1"}^ | monitor: ok^ |  | 0
monitor f | automaton A signature output go transitions output go composition Spec components P: A | {"act":"go","who":0}^ |  | L5^ | 4
monitor f | automaton A signature output go transitions output go composition Spec components P: A | {"end":"done after 0"}^^ |  | L6^ | 4
-- it is told whatever the answer would be, which waits for the end of the log
monitor f | automaton Once signature output tick(k: Int) states left: Int := 1 transitions output tick pre left > 0 propose k := 0 eff left := left - 1 composition Spec components M: Once | {"act":"tick(5)","who":0}^{"act":"tick(6)","who":0}^{"act":"tick(7)","who":0}^x^ |  | L1 line 4^ | 4
monitor f | automaton Once signature output tick(k: Int) states left: Int := 1 transitions output tick pre left > 0 propose k := 0 eff left := left - 1 composition Spec components M: Once | {"act":"tick(5)","who":0}^{"act":"tick(6)","who":0}^{"act":"tick(7)","who":0}^[]^ |  | L2 line 4^ | 4
monitor f | automaton Once signature output tick(k: Int) states left: Int := 1 transitions output tick pre left > 0 propose k := 0 eff left := left - 1 composition Spec components M: Once | {"act":"tick(5)","who":0}^{"act":"tick(6)","who":0}^{"act":"tick(7)","who":0}^ |  | L5^ | 4
monitor f | automaton Once signature output tick(k: Int) states left: Int := 1 transitions output tick pre left > 0 propose k := 0 eff left := left - 1 composition Spec components M: Once | {"act":"tick(5)","who":0}^{"act":"tick(6)","who":0}^{"end":"done after 2"}^x |  | L6^ | 4
monitor f | automaton Once signature output tick(k: Int) states left: Int := 1 transitions output tick pre left > 0 propose k := 0 eff left := left - 1 composition Spec components M: Once | {"act":"tick(5)","who":0}^{"act":"tick(6)","who":0}^{"end":"fault 1 in component 0 at 1"}^{"end":"done after 0"} |  | L6^ | 4
-- strictly: an action that has a name of the specification, and is none of its actions, is told, by its index among all
monitor f --strict | automaton Once signature output tick(k: Int) states left: Int := 1 transitions output tick pre left > 0 propose k := 0 eff left := left - 1 composition Spec components M: Once | {"act":"reset","who":0}^{"act":"tick(5)","who":0}^{"act":"tick(true)","who":0}^{"act":"tick(6)","who":0}^{"end":"done after 4"}^ | monitor: passed over at 2^ |  | 4
monitor f --strict | automaton Once signature output tick(k: Int) states left: Int := 1 transitions output tick pre left > 0 propose k := 0 eff left := left - 1 composition Spec components M: Once | {"act":"tick(5)","who":0}^{"act":"tick(6, 6)","who":0}^{"end":"done after 2"}^ | monitor: passed over at 1^ |  | 4
monitor f --strict | automaton Once signature output tick(k: Int) states left: Int := 1 transitions output tick pre left > 0 propose k := 0 eff left := left - 1 composition Spec components M: Once | {"act":"up","who":0}^{"act":"go(1)","who":0}^{"act":"tick","who":0}^{"end":"done after 3"}^ | monitor: passed over at 2^ |  | 4
monitor f --strict | automaton Once signature output tick(k: Int) states left: Int := 1 transitions output tick pre left > 0 propose k := 0 eff left := left - 1 composition Spec components M: Once | {"act":"tick","who":0}^{"act":"tick(5)","who":0}^{"act":"tick(6)","who":0}^{"act":"tick","who":0}^{"end":"done after 4"}^ | monitor: passed over at 0^ |  | 4
-- or the first that is refused, whichever comes first; and others are passed over, whatever their values
monitor f --strict | automaton Once signature output tick(k: Int) states left: Int := 1 transitions output tick pre left > 0 propose k := 0 eff left := left - 1 composition Spec components M: Once | {"act":"up","who":0}^{"act":"tick(5)","who":0}^{"act":"tick(6)","who":0}^{"act":"tick","who":0}^{"end":"done after 4"}^ | monitor: not enabled at 2^ |  | 4
monitor f --strict | automaton Top signature output tick(k: Int) states x: Int := 9223372036854775807 transitions output tick propose k := 0 eff x := x + 1 composition Spec components M: Top | {"act":"reset","who":0}^{"act":"tick(5)","who":0}^{"act":"tick","who":0}^{"end":"done after 3"}^ | monitor: fault 1 in component 0 at 1^ |  | 4
monitor f --strict | automaton Once signature output tick(k: Int) states left: Int := 1 transitions output tick pre left > 0 propose k := 0 eff left := left - 1 composition Spec components M: Once | {"act":"tock(5)","who":0}^{"act":"tick(5)","who":0}^{"act":"tock(true)","who":0}^{"end":"done after 3"}^ | monitor: ok^ |  | 0
monitor f --strict --comp Spec | automaton Once(n: Int) signature output tick(k: Int); input reset states left: Int := n transitions output tick pre left > 0 propose k := 0 eff left := left - 1 input reset eff left := n composition Spec components M: Once(1) composition Other components M: Once(2) | {"act":"tick(5)","who":0}^{"act":"reset","who":0}^{"act":"tick(6)","who":0}^{"end":"done after 3"}^ | monitor: ok^ |  | 0
monitor f --strict --comp Spec | automaton Once(n: Int) signature output tick(k: Int); input reset states left: Int := n transitions output tick pre left > 0 propose k := 0 eff left := left - 1 input reset eff left := n composition Spec components M: Once(1) composition Other components M: Once(2) | {"act":"tick(5)","who":0}^{"act":"tick(6)","who":0}^{"end":"done after 2"}^ | monitor: not enabled at 1^ |  | 4
monitor --strict f | automaton Once(n: Int) signature output tick(k: Int); input reset states left: Int := n transitions output tick pre left > 0 propose k := 0 eff left := left - 1 input reset eff left := n composition Spec components M: Once(1) composition Other components M: Once(2) | {"act":"tick(5)","who":0}^{"act":"tick(6)","who":0}^{"end":"done after 2"}^ | monitor: ok^ |  | 0
-- one has to be taken, and the last action of a log that ends by a fault is not
monitor f --strict | automaton Once signature output tick(k: Int) states left: Int := 1 transitions output tick pre left > 0 propose k := 0 eff left := left - 1 composition Spec components M: Once | {"end":"done after 0"}^ | monitor: nothing taken^ |  | 4
monitor f --strict | automaton Once signature output tick(k: Int) states left: Int := 1 transitions output tick pre left > 0 propose k := 0 eff left := left - 1 composition Spec components M: Once | {"act":"tock(5)","who":0}^{"act":"reset","who":0}^{"end":"done after 2"}^ | monitor: nothing taken^ |  | 4
monitor f --strict | automaton Once signature output tick(k: Int) states left: Int := 1 transitions output tick pre left > 0 propose k := 0 eff left := left - 1 composition Spec components M: Once | {"act":"reset","who":0}^{"act":"tick(5)","who":0}^{"end":"fault 1 in component 0 at 1"}^ | monitor: nothing taken^ |  | 4
monitor f --strict | automaton Once signature output tick(k: Int) states left: Int := 1 transitions output tick pre left > 0 propose k := 0 eff left := left - 1 composition Spec components M: Once | {"act":"tick(5)","who":0}^{"act":"tick","who":0}^{"end":"fault 1 in component 0 at 1"}^ | monitor: ok^ |  | 0
-- the file and the log are refused as without it
monitor f --strict | automaton A signature internal go transitions internal go composition Spec components P: A | x |  | L7^ | 4
monitor f --strict --comp Nine | automaton A signature output go transitions output go composition Spec components P: A | x |  | E17^ | 1
monitor g --strict | automaton A signature output go transitions output go composition Spec components P: A | x |  | io^ | 5
monitor f --strict | automaton Once signature output tick(k: Int) states left: Int := 1 transitions output tick pre left > 0 propose k := 0 eff left := left - 1 composition Spec components M: Once | {"act":"tick","who":0}^x^ |  | L1 line 2^ | 4
monitor f --strict | automaton Once signature output tick(k: Int) states left: Int := 1 transitions output tick pre left > 0 propose k := 0 eff left := left - 1 composition Spec components M: Once | {"act":"tick","who":0}^{"act":"tick(Any[1])","who":0}^x^ |  | L2 line 2^ | 4
monitor f --strict | automaton Once signature output tick(k: Int) states left: Int := 1 transitions output tick pre left > 0 propose k := 0 eff left := left - 1 composition Spec components M: Once | {"act":"tick(5)","who":0}^ |  | L5^ | 4
monitor f --strict | automaton Once signature output tick(k: Int) states left: Int := 1 transitions output tick pre left > 0 propose k := 0 eff left := left - 1 composition Spec components M: Once | {"act":"tick","who":0}^{"end":"done after 1"}^x |  | L6^ | 4
monitor f --strict | automaton Once signature output tick(k: Int) states left: Int := 1 transitions output tick pre left > 0 propose k := 0 eff left := left - 1 composition Spec components M: Once | &{"act":"reset","who":1}^@3000&{"act":"tick(5)","who":0}^{"act":"tick","who":0}^{"end":"done after 3002"}^ | monitor: passed over at 3001^ |  | 4
-- the same as objects
monitor f --json | automaton Once signature output tick(k: Int) states left: Int := 1 transitions output tick pre left > 0 propose k := 0 eff left := left - 1 composition Spec components M: Once | {"act":"tick(5)","who":0}^{"act":"reset","who":0}^{"end":"done after 2"}^ | {"verdict":"ok"}^ |  | 0
monitor f --json | automaton Once signature output tick(k: Int) states left: Int := 1 transitions output tick pre left > 0 propose k := 0 eff left := left - 1 composition Spec components M: Once | {"act":"reset","who":0}^{"act":"tick(5)","who":0}^{"act":"tick(6)","who":0}^{"end":"done after 3"}^ | {"verdict":"not enabled","index":2}^ |  | 4
monitor f --json | automaton Idle signature input see transitions input see automaton Top signature output tick(k: Int) states x: Int := 9223372036854775807 transitions output tick propose k := 0 eff x := x + 1 composition Spec components N: Idle; M: Top | {"act":"see","who":0}^{"act":"tick(5)","who":0}^{"end":"done after 2"}^ | {"verdict":"fault","fault":1,"component":1,"index":1}^ |  | 4
monitor f --json | automaton Once signature output tick(k: Int) states left: Int := 1 transitions output tick pre left > 0 propose k := 0 eff left := left - 1 composition Spec components M: Once | {"act":"tick","who":0}^{"end":"done after 1"}^ | {"verdict":"ok"}^ |  | 0
monitor f --strict --json | automaton Once signature output tick(k: Int) states left: Int := 1 transitions output tick pre left > 0 propose k := 0 eff left := left - 1 composition Spec components M: Once | {"act":"tick(5)","who":0}^{"end":"done after 1"}^ | {"verdict":"ok"}^ |  | 0
monitor f --json --strict | automaton Once signature output tick(k: Int) states left: Int := 1 transitions output tick pre left > 0 propose k := 0 eff left := left - 1 composition Spec components M: Once | {"act":"reset","who":0}^{"act":"tick","who":0}^{"end":"done after 2"}^ | {"verdict":"passed over","index":1}^ |  | 4
monitor f --strict --json | automaton Once signature output tick(k: Int) states left: Int := 1 transitions output tick pre left > 0 propose k := 0 eff left := left - 1 composition Spec components M: Once | {"act":"reset","who":0}^{"end":"done after 1"}^ | {"verdict":"nothing taken"}^ |  | 4
monitor f --strict --json | automaton Once signature output tick(k: Int) states left: Int := 1 transitions output tick pre left > 0 propose k := 0 eff left := left - 1 composition Spec components M: Once | {"act":"tick(5)","who":0}^{"act":"tick(6)","who":0}^{"end":"done after 2"}^ | {"verdict":"not enabled","index":1}^ |  | 4
monitor f --strict --json | automaton Idle signature input see transitions input see automaton Top signature output tick(k: Int) states x: Int := 9223372036854775807 transitions output tick propose k := 0 eff x := x + 1 composition Spec components N: Idle; M: Top | {"act":"tick(5)","who":0}^{"act":"see","who":0}^{"end":"done after 2"}^ | {"verdict":"fault","fault":1,"component":1,"index":0}^ |  | 4
monitor f --json | automaton Once signature output tick(k: Int) states left: Int := 1 transitions output tick pre left > 0 propose k := 0 eff left := left - 1 composition Spec components M: Once | x |  | L1 line 1^ | 4
-- logs that are longer than what is read at once, and entries in other spellings
monitor f | automaton Once signature output tick(k: Int) states left: Int := 1 transitions output tick pre left > 0 propose k := 0 eff left := left - 1 composition Spec components M: Once | &{"act":"reset","who":1}^@3000&{"act":"tick(5)","who":0}^{"act":"tick(6)","who":0}^{"end":"done after 3002"}^ | monitor: not enabled at 3001^ |  | 4
monitor f | automaton Once signature output tick(k: Int) states left: Int := 1 transitions output tick pre left > 0 propose k := 0 eff left := left - 1 composition Spec components M: Once | &{"act":"reset","who":1}^@3000&{"act":"tick(5)","who":0}^{"act":"tick(6)","who":0}^{"end":"fault 1 in component 0 at 3001"}^ | monitor: ok^ |  | 0
monitor f | automaton Once signature output tick(k: Int) states left: Int := 1 transitions output tick pre left > 0 propose k := 0 eff left := left - 1 composition Spec components M: Once | {"who":0,"act":"tick(5)"}^{"act":"tick(6)","who":0}^{"who":0,"act":"reset"}^{"end":"done after 3"}^ | monitor: not enabled at 1^ |  | 4
-- the file and its composition come first
monitor g | automaton A signature output go transitions output go composition Spec components P: A | x |  | io^ | 5
monitor f | automaton A signature internal go transitions internal go composition Spec components P: A hidden stop | x |  | E15 stop^ | 1
monitor f --comp Nine | automaton A signature internal go transitions internal go composition Spec components P: A | x |  | E17^ | 1
-- words
monitor |  |  |  | error: the following required arguments were not provided:^  <FILE>^^Usage: ioac monitor <FILE>^^For more information, try '--help'.^ | 2
monitor f --log |  |  |  | error: unexpected argument '--log' found^^  tip: to pass '--log' as a value, use '-- --log'^^Usage: ioac monitor <FILE>^^For more information, try '--help'.^ | 2
check f --log |  |  |  | error: unexpected argument '--log' found^^  tip: to pass '--log' as a value, use '-- --log'^^Usage: ioac check <FILE>^^For more information, try '--help'.^ | 2
monitor --help |  |  | Reads a log on standard input, and prints whether a composition accepts its actions^^Usage: ioac monitor [OPTIONS] <FILE>^^Arguments:^  <FILE>  A source of I/O automata, or an object of one^^Options:^      --comp <NAME>  The composition to take; without it, the last one^      --strict       An action that has a name of the composition and is none of its actions is told, and a log without any of its actions^      --json         A JSON object a line is printed in place of the text^      --explain      Says more of the outcome on standard error: which line, why, and in which state^  -h, --help         Print help^^The composition has no internal action, and hides none. It is run on those of the log's actions that its components have.^With --strict the first action with a name of the composition that no component has is told, as `monitor: passed over at 3`,^and a log of which it takes no action, as `monitor: nothing taken`.^With --json it prints an object, as `{"verdict":"not enabled","index":4}`.^Example: ioac monitor specification.ioa < run.log^Exit status: 0 accepted, 1 source or object refused, 2 bad command line,^4 not accepted, log refused, or no monitor, 5 memory, the file or a device.^ |  | 0
"#;
