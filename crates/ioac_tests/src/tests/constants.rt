//! Constants in signatures, and hidden names.

/// The words after the program's name, a source, what is printed, what is told of errors, and the exit status.
pub const CHECKS: &str = "\
-- what may stand after `const`
check f | type Kind = enum { data, ack } automaton A(i: Int) signature output send(const 0, m: Int, const -5, const true, const false, const data, const i) transitions output send propose m := 0 | ok^ |  | 0
check f | automaton A signature output send(const 0); input recv(m: Int, const 9223372036854775807) transitions output send input recv | ok^ |  | 0
check f | automaton A signature output send(const^) transitions output send |  | E3 line 2^ | 1
check f | automaton A signature output send(const -^true) transitions output send |  | E3 line 2^ | 1
check f | automaton A signature output send(const 0^+ 1) transitions output send |  | E3 line 2^ | 1
check f | automaton A signature output send(const ^(0)) transitions output send |  | E3 line 2^ | 1
check f | automaton A signature output send(const m^: Int) transitions output send |  | E3 line 2^ | 1
check f | automaton A signature output send(m: Int, const ^^empty) transitions output send |  | E3 line 3^ | 1
check f | automaton A(const^0) signature output send transitions output send |  | E3 line 1^ | 1
-- names of constants: formals and names of enumerations
check f | automaton A signature output send(const 0, ^const x) transitions output send |  | E6 line 2^ | 1
check f | automaton A signature output send(^const^x) states x: Int transitions output send |  | E6 line 3^ | 1
check f | automaton A signature output send(m: Int, ^const m) transitions output send propose m := 0 |  | E6 line 2^ | 1
check f | automaton A signature output send(^const data) transitions output send type Kind = enum { data, ack } |  | E6 line 2^ | 1
check f | automaton A signature output send(^const Int) transitions output send |  | E6 line 2^ | 1
-- parameters beside constants have names of their own, and need proposals
check f | automaton A signature input send(m: Int, const 0, ^m: Int) transitions input send |  | E5 line 2^ | 1
check f | automaton A(i: Int) signature input send(const i, ^i: Int) transitions input send |  | E5 line 2^ | 1
check f | automaton A signature output send(const 0, m: Int)^transitions output send propose^k := 0, m := 0 |  | E6 line 3^ | 1
check f | automaton A signature output send(const 0, m: Int)^transitions^output send |  | E9 line 3^ | 1
-- 8 and 9 positions
check f | automaton A signature input send(const 0&, const #@7&) transitions input send | ok^ |  | 0
check f | automaton A signature input send(const 0&, const #@7&, ^const true) transitions input send |  | E10 line 2^ | 1
check f | automaton A signature input send(const 0&, const #@7&, ^const 9, ^const true) transitions input send |  | E10 line 2^ | 1
check f | automaton A signature input send(const 0&, const #@7&, const ^-9, ^m: Int) transitions input send |  | E10 line 2^ | 1
check f | automaton A signature input send(const 0&, const #@7&, ^m: Int, ^const x) transitions input send |  | E10 line 2^ | 1
-- hidden names
check f | automaton D signature output open transitions output open composition C components A: D hidden open | ok^ |  | 0
check f | automaton D signature output open; output close transitions output open output close composition C components A: D; hidden open, close; composition E components A: D hidden close | ok^ |  | 0
check f | automaton D signature input open transitions input open composition C components A: D hidden open, shut | ok^ |  | 0
check f | automaton D signature output open transitions output open composition C components A: D hidden^ |  | E3 line 2^ | 1
check f | automaton D signature output open transitions output open composition C components A: D hidden open,^ |  | E3 line 2^ | 1
check f | automaton D signature output open transitions output open composition C components A: D hidden open;^; type K = enum { a } |  | E3 line 2^ | 1
check f | automaton D signature output open transitions output open composition C hidden^open components A: D |  | E3 line 1^ | 1
check f | automaton D signature output open transitions output open composition C components A: D hidden open,^open |  | E5 line 2^ | 1
check f | automaton D signature input open transitions input open composition C components A: D hidden a0&, a#x@63& | ok^ |  | 0
check f | automaton D signature input open transitions input open composition C components A: D hidden a0&, a#x@63&,^last1 |  | E10 line 2^ | 1
check f | automaton D signature input open transitions input open composition C components A: D&; A#: D@32& hidden^open |  | E10 line 1^ | 1
";

/// A source, a list, what is printed, what is told of errors, and the exit status.
pub const REPLAYS: &str = "\
-- compatible: two constants that differ part entries, and so does a constant of another type than the position's
automaton D signature output send(const 0, m: Int) transitions output send propose m := 0 automaton E signature output send(k: Int, m: Int) transitions output send propose k := 0, m := 0 composition C components A: D; B: E |  |  | E14 components 0 and 1 on send^ | 1
automaton D signature output send(const 0, m: Int) transitions output send propose m := 0 automaton E signature output send(const 1, m: Int) transitions output send propose m := 0 composition C components A: D; B: E |  | end: done after 0^ |  | 0
automaton D signature output send(const 0, m: Int) transitions output send propose m := 0 automaton E signature output send(k: Bool, m: Int) transitions output send propose m := 0 composition C components A: D; B: E |  | end: done after 0^ |  | 0
automaton D signature output send(const 0, m: Int) transitions output send propose m := 0 automaton E signature output send(k: Int, const -7) transitions output send propose k := 0 composition C components A: D; B: E |  |  | E14 components 0 and 1 on send^ | 1
automaton D signature internal drop(const 0) transitions internal drop automaton E signature internal drop(const 1) transitions internal drop composition C components A: D; B: E | drop(0)^drop(1) | end: done after 2^ |  | 0
automaton D(i: Int) signature internal drop(const i) transitions internal drop composition C components A: D(0); B: D(1) | drop(1)^drop(0)^drop(2) | end: not an action at 2^ |  | 4
automaton D(i: Int) signature internal drop(const i) transitions internal drop composition C components A: D(0); B: D(1); E: D(1); F: D(0) |  |  | E14 components 0 and 3 on drop^ | 1
type Kind = enum { data, ack } automaton D signature output send(const ack) transitions output send automaton E signature output send(const data) transitions output send composition C components A: D; B: E | send(ack)^send(data) | send(ack)^send(data)^end: done after 2^ |  | 0
type Kind = enum { data, ack } automaton D signature output send(const ack) transitions output send automaton E signature output send(k: Kind) transitions output send composition C components A: D; B: E |  |  | E14 components 0 and 1 on send^ | 1
type Kind = enum { data, ack } automaton D signature output send(const ack) transitions output send automaton E(k: Kind) signature internal send(const k) transitions internal send composition C components A: E(data); B: E(ack); F: D |  |  | E14 components 1 and 2 on send^ | 1
automaton D signature output send(const true) transitions output send automaton E signature output send(k: Bool) transitions output send composition C components A: D; B: E |  |  | E14 components 0 and 1 on send^ | 1
automaton D signature output send(const 0) transitions output send automaton E signature output send(const -0) transitions output send composition C components A: D; B: E |  |  | E14 components 0 and 1 on send^ | 1
automaton D signature output a(const 0); output b transitions output a output b automaton E signature output a(const 1); output b transitions output a output b composition C components A: D; B: E |  |  | E14 components 0 and 1 on b^ | 1
automaton D signature output a; output b transitions output a output b automaton E signature output b transitions output b automaton F signature output a transitions output a composition C components A: D; B: E; G: F |  |  | E14 components 0 and 1 on b^ | 1
-- an action has the constants' values in their places; a formal stands for its value
automaton A(i: Int) signature output put(const i, n: Int, const -5, m: Int) transitions output put pre n < m propose n := 0, m := i composition C components P: A(1) | put(1, 2, -5, 3)^put(1, 3, -5, 2) | put(1, 2, -5, 3)^end: not enabled at 1^ |  | 4
automaton A(i: Int) signature output put(const i, n: Int, const -5, m: Int) transitions output put pre n < m propose n := 0, m := i composition C components P: A(1) | put(2, 2, -5, 3) | end: not an action at 0^ |  | 4
automaton A(i: Int) signature output put(const i, n: Int, const -5, m: Int) transitions output put pre n < m propose n := 0, m := i composition C components P: A(1) | put(1, 2, 5, 3) | end: not an action at 0^ |  | 4
automaton A(i: Int) signature output put(const i, n: Int, const -5, m: Int) transitions output put pre n < m propose n := 0, m := i composition C components P: A(1) | put(1, true, -5, 3) | end: not an action at 0^ |  | 4
automaton A(i: Int) signature output put(const i, n: Int, const -5, m: Int) transitions output put pre n < m propose n := 0, m := i composition C components P: A(1) | put(1, 2, -5) | end: not an action at 0^ |  | 4
automaton A(i: Int) signature output put(const i, n: Int, const -5, m: Int) transitions output put pre n < m propose n := 0, m := i composition C components P: A(1) | put(true, 2, -5, 3) | end: not an action at 0^ |  | 4
type S = seq 2 of Int automaton A(s: S) signature input put(const s, const false) states t: S := s transitions input put eff t := append(t, 7) composition C components P: A(append(empty(S), 1)) | put(S[1], false)^put(S[1], false) | put(S[1], false)^end: fault 5 in component 0 at 1^ |  | 3
automaton A(i: Int) signature output put(const i) states n: Int transitions output put eff n := n + 1 automaton Cell signature input put(i: Int); output see(k: Int) states x: Int transitions input put eff x := 1 - x output see pre k = x propose k := x composition C components P: A(0); Q: A(1); R: Cell | put(0)^put(1)^put(1)^see(1)^put(2) | put(0)^put(1)^put(1)^see(1)^put(2)^end: done after 5^ |  | 0
-- hidden outputs leave no trace; an action without an owner is external though its name is hidden
automaton Counter(start: Int) signature output tick(k: Int); input reset states c: Int := start transitions output tick pre k = c propose k := c eff c := c + 1 input reset eff c := start composition One components A: Counter(5) hidden tick | tick(5)^tick(6)^reset | reset^end: done after 3^ |  | 0
automaton Counter(start: Int) signature output tick(k: Int); input reset states c: Int := start transitions output tick pre k = c propose k := c eff c := c + 1 input reset eff c := start composition One components A: Counter(5) hidden tick | tick(5)^reset^tick(6)^reset | reset^end: not enabled at 2^ |  | 4
automaton Counter(start: Int) signature output tick(k: Int); input reset states c: Int := start transitions output tick pre k = c propose k := c eff c := c + 1 input reset eff c := start composition One components A: Counter(5) hidden reset |  |  | E15 reset^ | 1
automaton Counter(start: Int) signature output tick(k: Int); input reset states c: Int := start transitions output tick pre k = c propose k := c eff c := c + 1 input reset eff c := start composition One components A: Counter(5) hidden tick, tock, reset |  |  | E15 tock^ | 1
automaton D signature output send(const 0, m: Int) transitions output send propose m := 0 automaton R signature input send(k: Int, m: Int) transitions input send composition C components A: D; B: R hidden send | send(0, 7)^send(1, 7)^send(0, 8)^send(2, 0) | send(1, 7)^send(2, 0)^end: done after 4^ |  | 0
automaton D signature output open; internal rest; output shut transitions output open internal rest output shut composition C components A: D hidden open | open^rest^shut^open | shut^end: done after 4^ |  | 0
type S = seq 1 of Int automaton Go signature output go states n: Int transitions output go eff n := n + 1 automaton Full signature input go states s: S transitions input go eff s := append(s, 1) composition Both components G: Go; F: Full hidden go | go^go | end: fault 5 in component 1 at 1^ |  | 3
automaton D signature internal x(const 0) transitions internal x automaton E signature output x(const 1) transitions output x composition C components A: D; B: E hidden x | x(0)^x(1)^x(2) | end: not an action at 2^ |  | 4
-- arguments before clashes, clashes before hidden names, and these before starts
automaton D(n: Int) signature output open states x: Int := 1 div n transitions output open composition C components A: D(0); B: D(true) |  |  | E12 component 1^ | 1
automaton D(n: Int) signature output open states x: Int := 1 div n transitions output open composition C components A: D(0); B: D(1 div 0) hidden shut |  |  | E16 component 1 fault 2^ | 1
automaton D(n: Int) signature output open states x: Int := 1 div n transitions output open composition C components A: D(true) hidden shut |  |  | E12 component 0^ | 1
automaton D(n: Int) signature output open states x: Int := 1 div n transitions output open composition C components A: D(1 div 0) hidden shut |  |  | E16 component 0 fault 2^ | 1
automaton D(n: Int) signature output open states x: Int := 1 div n transitions output open composition C components A: D(0); B: D(1) hidden shut |  |  | E14 components 0 and 1 on open^ | 1
automaton D(n: Int) signature output open states x: Int := 1 div n transitions output open composition C components A: D(0) hidden shut |  |  | E15 shut^ | 1
automaton D(n: Int) signature output open states x: Int := 1 div n transitions output open composition C components A: D(0) hidden open |  |  | E16 component 0 fault 2^ | 1
automaton D(n: Int) signature output open states x: Int := 1 div n transitions output open automaton E signature input open; output shut transitions input open output shut composition C components A: D(1); B: E hidden shut, open | open^shut | end: done after 2^ |  | 0
automaton D signature internal open transitions internal open composition C components A: D hidden open |  |  | E15 open^ | 1
";
