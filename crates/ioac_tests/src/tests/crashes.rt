//! Components that crash and recover, and their stable variables.

/// The words after the program's name, a source, what is printed, what is told of errors, and the exit status.
pub const CHECKS: &str = "\
-- the grammar
check f | automaton A signature input a states stable n: Int; m: Int transitions input a | ok^ |  | 0
check f | automaton A signature input a states n: Int; stable m: Int := 1; stable k: Bool transitions input a | ok^ |  | 0
check f | automaton A signature input a states stable^stable: Int transitions input a |  | E3 line 2^ | 1
check f | automaton A signature input a states stable^: Int transitions input a |  | E3 line 2^ | 1
check f | automaton A signature input a transitions input a composition C components P: A crash down recover up | ok^ |  | 0
check f | automaton A signature input a transitions input a composition C components P: A crash down recover up; | ok^ |  | 0
check f | automaton A(n: Int) signature input a transitions input a composition C components P: A(1) crash down recover up; Q: A(2); R: A(3) crash down recover up | ok^ |  | 0
check f | automaton A(n: Int) signature input a transitions input a composition C components P: A crash down recover up^(1) |  | E3 line 2^ | 1
check f | automaton A signature input a transitions input a composition C components P: A crash down^ |  | E3 line 2^ | 1
check f | automaton A signature input a transitions input a composition C components P: A crash^recover up |  | E3 line 2^ | 1
check f | automaton A signature input a transitions input a composition C components P: A^recover up crash down |  | E3 line 2^ | 1
check f | automaton A signature input a transitions input a composition C components P: A crash^1 recover up |  | E3 line 2^ | 1
check f | automaton A signature input a transitions input a composition C components P: A crash down recover up^crash fall recover rise |  | E3 line 2^ | 1
-- crash names are action names: they are no variable's, component's or automaton's
check f | automaton A signature input a states up: Int transitions input a composition C components down: A crash down recover up | ok^ |  | 0
-- names of crash and recover: two, and no entry's; of the picked composition alone
replay f | automaton A signature input a transitions input a composition C components P: A crash x recover x |  | E13 component 0^ | 1
replay f | automaton A signature input a transitions input a composition C components P: A crash a recover up |  | E13 component 0^ | 1
replay f | automaton A signature input a transitions input a composition C components P: A crash down recover a |  | E13 component 0^ | 1
replay f | automaton A signature internal a(k: Int) transitions internal a propose k := 0 composition C components P: A crash down recover up; Q: A crash down recover a |  | E13 component 1^ | 1
replay f | automaton Counter(start: Int) signature output tick(k: Int); input reset states c: Int := start transitions output tick pre k = c propose k := c eff c := c + 1 input reset eff c := start composition One components A: Counter(5) crash reset recover up |  | E13 component 0^ | 1
check f | automaton A signature input a transitions input a composition C components P: A crash x recover x | ok^ |  | 0
replay f | automaton A signature input a transitions input a composition C components P: A crash x recover x composition D components P: A | end: done after 0^ |  | 0
replay f --comp C | automaton A signature input a transitions input a composition C components P: A crash x recover x composition D components P: A |  | E13 component 0^ | 1
-- arguments before crash names, and crash names before clashes
replay f | automaton A(n: Int) signature output a transitions output a composition C components P: A(true) crash x recover x |  | E12 component 0^ | 1
replay f | automaton A signature output a transitions output a composition C components P: A; Q: A crash x recover x |  | E13 component 1^ | 1
-- crash and recover are inputs: another component may output them, and has none of them as internal
replay f | automaton A signature input a transitions input a automaton B signature output down transitions output down composition C components P: A crash down recover up; Q: B | end: done after 0^ |  | 0
replay f | automaton A signature input a transitions input a automaton B signature internal down transitions internal down composition C components P: A crash down recover up; Q: B |  | E14 components 0 and 1 on down^ | 1
replay f | automaton A signature input a transitions input a automaton B signature internal up transitions internal up composition C components Q: B; P: A crash down recover up |  | E14 components 0 and 1 on up^ | 1
replay f | automaton A signature input a transitions input a automaton B signature internal down(k: Int) transitions internal down propose k := 0 composition C components P: A crash down recover up; Q: B | end: done after 0^ |  | 0
replay f | automaton A signature input a transitions input a automaton B signature internal a transitions internal a composition C components P: A crash down recover up; Q: B crash down recover up |  | E14 components 0 and 1 on a^ | 1
-- an entry's place is before those of crash and recover
replay f | automaton A signature input a transitions input a automaton B signature internal down; internal a transitions internal down internal a composition C components P: A crash down recover up; Q: B |  | E14 components 0 and 1 on a^ | 1
-- hidden names are outputs
replay f | automaton A signature input a transitions input a composition C components P: A crash down recover up hidden down |  | E15 down^ | 1
replay f | automaton A signature input a transitions input a automaton B signature output down transitions output down composition C components P: A crash down recover up; Q: B hidden down | end: done after 0^ |  | 0
replay f | automaton A signature input a transitions input a automaton B signature output down transitions output down composition C components P: A crash down recover up; Q: B hidden up |  | E15 up^ | 1
-- what a start expression faults by
replay f | automaton A signature input a states stable n: Int := 1 div 0 transitions input a composition C components P: A crash down recover up |  | E16 component 0 fault 2^ | 1
-- hosts at the limits: 64 variables, 64 entries, 8 formals, depth 64
replay f | automaton A(&f#: Int@1&&, g#: Int@7&) signature &input a#; @63&output go states &n#: Int; @64&transitions &input a# @63&output go pre &(@63&true&)@63& composition C components P: A(0&, 0@7&) crash down recover up | end: done after 0^ |  | 0
";

/// A source, a list, what is printed, what is told of errors, and the exit status.
pub const REPLAYS: &str = "\
-- what is stable survives, and nothing else; while it is down the host does nothing
type Ints = seq 16 of Int automaton Host signature output put(m: Int) states q: Ints; stable t: Int transitions output put pre m = t propose m := t eff q := append(q, m); t := t + 1 composition C components A: Host crash down recover up | put(0)^down^put(1) | put(0)^down^end: not enabled at 2^ |  | 4
type Ints = seq 16 of Int automaton Host signature output put(m: Int) states q: Ints; stable t: Int transitions output put pre m = t propose m := t eff q := append(q, m); t := t + 1 composition C components A: Host crash down recover up | put(0)^down^down^up^up^put(1) | put(0)^down^down^up^up^put(1)^end: done after 6^ |  | 0
type Ints = seq 16 of Int automaton Host signature output put(m: Int) states q: Ints; stable t: Int transitions output put pre m = t propose m := t eff q := append(q, m); t := t + 1 composition C components A: Host crash down recover up | put(0)^down^up^put(0) | put(0)^down^up^end: not enabled at 3^ |  | 4
type Ints = seq 16 of Int automaton Host signature output put(m: Int) states q: Ints; t: Int transitions output put pre m = t propose m := t eff q := append(q, m); t := t + 1 composition C components A: Host crash down recover up | put(0)^down^up^put(0) | put(0)^down^up^put(0)^end: done after 4^ |  | 0
-- a precondition is not evaluated while it is down
automaton Host signature output put(m: Int) states t: Int transitions output put pre 1 div 0 = m propose m := t composition C components A: Host crash down recover up | down^put(0) | down^end: not enabled at 1^ |  | 4
automaton Host signature output put(m: Int) states t: Int transitions output put pre 1 div 0 = m propose m := t composition C components A: Host crash down recover up | down^up^put(0) | down^up^end: fault 2 in component 0 at 2^ |  | 3
automaton Host signature output put(m: Int) states t: Int transitions output put pre 1 div 0 = m propose m := t composition C components A: Host crash down recover up | put(0) | end: fault 2 in component 0 at 0^ |  | 3
automaton Host signature output put(m: Int) transitions output put propose m := 0 composition C components A: Host crash down recover up | down^put(7)^up | down^end: not enabled at 1^ |  | 4
-- inputs while it is down change nothing, also those whose effects would fault; recover does not reset
automaton Host signature input take(m: Int); output tell(m: Int) states stable n: Int := 3 transitions input take eff n := 6 div m output tell pre m = n propose m := n composition C components A: Host crash down recover up | take(1)^down^take(2)^take(0)^up^tell(6) | take(1)^down^take(2)^take(0)^up^tell(6)^end: done after 6^ |  | 0
automaton Host signature input take(m: Int); output tell(m: Int) states n: Int := 3 transitions input take eff n := 6 div m output tell pre m = n propose m := n composition C components A: Host crash down recover up | take(1)^up^tell(6)^down^up^tell(3)^take(0) | take(1)^up^tell(6)^down^up^tell(3)^end: fault 2 in component 0 at 6^ |  | 3
-- to start values that come from formals
automaton Host(n: Int) signature input take(m: Int); output tell(m: Int) states x: Int := n + 1; stable y: Int := n transitions input take eff x := m; y := m output tell pre m = 10 * x + y propose m := 10 * x + y composition C components A: Host(3) crash down recover up | take(5)^tell(55)^down^up^tell(45) | take(5)^tell(55)^down^up^tell(45)^end: done after 5^ |  | 0
-- a variable, and a formal, that are called as the actions are
automaton Host(down: Int) signature output tell(m: Int) states up: Int := down transitions output tell pre m = up propose m := up eff up := up + 1 composition C components A: Host(1) crash down recover up | tell(1)^tell(2)^down^up^tell(1) | tell(1)^tell(2)^down^up^tell(1)^end: done after 5^ |  | 0
-- crash and recover have no values
automaton Host signature input take transitions input take composition C components A: Host crash down recover up | down(1) | end: not an action at 0^ |  | 4
automaton Host signature input take transitions input take composition C components A: Host | down | end: not an action at 0^ |  | 4
-- one crash of two hosts, and a third one that does not crash
automaton Host(i: Int) signature output tell(const i) states n: Int transitions output tell pre n < 1 eff n := n + 1 composition C components A: Host(0) crash down recover up; B: Host(1) crash down recover rise; D: Host(2) | tell(0)^tell(1)^tell(2)^down^up^tell(0)^tell(1) | tell(0)^tell(1)^tell(2)^down^up^tell(0)^end: not enabled at 6^ |  | 4
automaton Host(i: Int) signature output tell(const i) states n: Int transitions output tell pre n < 1 eff n := n + 1 composition C components A: Host(0) crash down recover up; B: Host(1) crash down recover rise; D: Host(2) | tell(0)^tell(1)^tell(2)^down^rise^tell(1)^tell(2) | tell(0)^tell(1)^tell(2)^down^rise^tell(1)^end: not enabled at 6^ |  | 4
-- the crash of one is the recovery of another
automaton Host(i: Int) signature output tell(const i) states n: Int transitions output tell composition C components A: Host(0) crash left recover right; B: Host(1) crash right recover left | left^tell(1)^right^tell(0)^tell(1) | left^tell(1)^right^tell(0)^end: not enabled at 4^ |  | 4
-- crashes that another component outputs, as often as it will
automaton Crasher(n: Int) signature output crash_s; output recover_s states left: Int := n transitions output crash_s pre left > 0 eff left := left - 1 output recover_s automaton Host signature output tell(m: Int) states n: Int transitions output tell pre m = n propose m := n eff n := n + 1 composition C components S: Host crash crash_s recover recover_s; C: Crasher(1) | tell(0)^crash_s^recover_s^tell(0)^crash_s | tell(0)^crash_s^recover_s^tell(0)^end: not enabled at 4^ |  | 4
automaton Crasher(n: Int) signature output crash_s; output recover_s states left: Int := n transitions output crash_s pre left > 0 eff left := left - 1 output recover_s automaton Host signature output tell(m: Int) states n: Int transitions output tell pre m = n propose m := n eff n := n + 1 composition C components S: Host crash crash_s recover recover_s; C: Crasher(1) hidden crash_s, recover_s | tell(0)^crash_s^recover_s^tell(0) | tell(0)^tell(0)^end: done after 4^ |  | 0
-- no host is crashed by an action of its own
automaton Crasher signature output fall states stable left: Int := 1; done: Int transitions output fall pre left > 0 eff left := left - 1; done := 1 composition C components A: Crasher crash down recover up; B: Crasher crash fall recover rise |  |  | E13 component 1^ | 1
";

/// The words after the program's name, a source, a log, what is printed, what is told of errors, and the exit status.
pub const LOGS: &str = r#"
-- crashes that no component outputs are the environment's
replay f --log | type Ints = seq 16 of Int automaton Host signature output put(m: Int) states q: Ints; stable t: Int transitions output put pre m = t propose m := t eff q := append(q, m); t := t + 1 composition C components A: Host crash down recover up | {"act":"put(0)","who":0}^{"act":"down","who":1}^{"act":"up","who":1}^{"act":"put(1)","who":0}^{"end":"done after 4"}^ | put(0)^down^up^put(1)^end: done after 4^ |  | 0
replay f --log | type Ints = seq 16 of Int automaton Host signature output put(m: Int) states q: Ints; stable t: Int transitions output put pre m = t propose m := t eff q := append(q, m); t := t + 1 composition C components A: Host crash down recover up | {"act":"put(0)","who":0}^{"act":"down","who":0}^{"end":"done after 2"}^ |  | L3 line 2^ | 4
replay f --log | type Ints = seq 16 of Int automaton Host signature output put(m: Int) states q: Ints; stable t: Int transitions output put pre m = t propose m := t eff q := append(q, m); t := t + 1 composition C components A: Host crash down recover up | {"act":"put(0)","who":0}^{"act":"down","who":1}^{"act":"put(1)","who":0}^{"end":"done after 3"}^ |  | L4 line 3^ | 4
replay f --log | automaton Crasher(n: Int) signature output crash_s; output recover_s states left: Int := n transitions output crash_s pre left > 0 eff left := left - 1 output recover_s automaton Host signature output tell(m: Int) states n: Int transitions output tell pre m = n propose m := n eff n := n + 1 composition C components S: Host crash crash_s recover recover_s; C: Crasher(1) | {"act":"crash_s","who":1}^{"end":"done after 1"}^ | crash_s^end: done after 1^ |  | 0
replay f --log | automaton Crasher(n: Int) signature output crash_s; output recover_s states left: Int := n transitions output crash_s pre left > 0 eff left := left - 1 output recover_s automaton Host signature output tell(m: Int) states n: Int transitions output tell pre m = n propose m := n eff n := n + 1 composition C components S: Host crash crash_s recover recover_s; C: Crasher(1) | {"act":"crash_s","who":2}^{"end":"done after 1"}^ |  | L3 line 1^ | 4
-- monitors that crash: an action of one that is down is not accepted
monitor f | automaton Spec signature output tick(k: Int) states left: Int := 1 transitions output tick pre left > 0 propose k := 0 eff left := left - 1 composition S components M: Spec crash down recover up | {"act":"tick(5)","who":0}^{"act":"down","who":1}^{"act":"up","who":1}^{"act":"tick(6)","who":0}^{"end":"done after 4"}^ | monitor: ok^ |  | 0
monitor f | automaton Spec signature output tick(k: Int) states left: Int := 1 transitions output tick pre left > 0 propose k := 0 eff left := left - 1 composition S components M: Spec crash down recover up | {"act":"tick(5)","who":0}^{"act":"down","who":1}^{"act":"tick(6)","who":0}^{"end":"done after 3"}^ | monitor: not enabled at 2^ |  | 4
monitor f | automaton Spec signature output tick(k: Int) states stable left: Int := 1 transitions output tick pre left > 0 propose k := 0 eff left := left - 1 composition S components M: Spec crash down recover up | {"act":"tick(5)","who":0}^{"act":"down","who":1}^{"act":"up","who":1}^{"act":"tick(6)","who":0}^{"end":"done after 4"}^ | monitor: not enabled at 3^ |  | 4
monitor f | automaton Spec signature internal rest transitions internal rest composition S components M: Spec crash down recover up | {"end":"done after 0"}^ |  | L7^ | 4
-- invariants hold of declared variables, also while a host is down
replay f --log --invariants | automaton Host signature input take(m: Int) states n: Int := 1; stable k: Int transitions input take eff n := m; k := m composition C components A: Host crash down recover up invariant of Host: n = 1 \/ k = n | {"act":"take(5)","who":1}^{"act":"down","who":1}^{"act":"up","who":1}^{"end":"done after 3"}^ | take(5)^down^up^end: done after 3^ |  | 0
replay f --log --invariants | automaton Host signature input take(m: Int) states n: Int := 1; stable k: Int transitions input take eff n := m; k := m composition C components A: Host crash down recover up invariant of Host: k = 0 \/ k = n | {"act":"take(5)","who":1}^{"act":"down","who":1}^{"act":"up","who":1}^{"end":"done after 3"}^ | invariant 0 of component 0 broken after 2^ |  | 4
replay f --log --invariants | automaton Host signature input take(m: Int) states n: Int := 1; stable k: Int transitions input take eff n := m; k := m composition C components A: Host crash down recover up invariant of Host: k < 5 | {"act":"down","who":1}^{"act":"take(5)","who":1}^{"act":"up","who":1}^{"end":"done after 3"}^ | down^take(5)^up^end: done after 3^ |  | 0
replay f --log --invariants | automaton Host signature input take(m: Int) states n: Int := 1; stable k: Int transitions input take eff n := m; k := m composition C components B: Host; A: Host crash down recover up invariant of Host: k = n \/ n = 1 /\ k = 0 | {"act":"take(5)","who":2}^{"act":"down","who":2}^{"end":"done after 2"}^ | invariant 0 of component 1 broken after 2^ |  | 4
"#;
