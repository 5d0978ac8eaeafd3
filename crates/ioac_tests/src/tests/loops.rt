//! Loops over sequences: texts and meaning.

/// The words after the program's name, a source, what is printed, what is told of errors, and the exit status.
pub const CHECKS: &str = "\
check f | type S = seq 3 of Int automaton A signature internal a states s: S; n: Int transitions internal a eff for y in s do n := n + y od | ok^ |  | 0
-- the grammar
check f | type S = seq 3 of Int automaton A signature internal a states s: S; n: Int transitions internal a eff for y in s do n := n + y; n := n; od; | ok^ |  | 0
check f | type S = seq 3 of Int automaton A signature internal a states s: S; n: Int transitions internal a eff for y in s do^od |  | E3 line 2^ | 1
check f | type S = seq 3 of Int automaton A signature internal a states s: S; n: Int transitions internal a eff for y in s^n := y od |  | E3 line 2^ | 1
check f | type S = seq 3 of Int automaton A signature internal a states s: S; n: Int transitions internal a eff for y^s do n := y od |  | E3 line 2^ | 1
check f | type S = seq 3 of Int automaton A signature internal a states s: S; n: Int transitions internal a eff for^in s do n := 1 od |  | E3 line 2^ | 1
check f | type S = seq 3 of Int automaton A signature internal a states s: S; n: Int transitions internal a eff for^(y) in s do n := y od |  | E3 line 2^ | 1
check f | type S = seq 3 of Int automaton A signature internal a states s: S; n: Int transitions internal a eff for y in^do n := 1 od |  | E3 line 2^ | 1
check f | type S = seq 3 of Int automaton A signature internal a states s: S; n: Int transitions internal a eff for y in s do n := y^fi |  | E3 line 2^ | 1
check f | type S = seq 3 of Int automaton A signature internal a states s: S; n: Int transitions internal a eff for y in s do n := y^ |  | E3 line 2^ | 1
check f | type S = seq 3 of Int automaton A signature internal a states s: S; n: Int transitions internal a eff if true then for y in s do n := y od elseif n = 1 then for y in s do n := y od else for y in s do n := y od; n := 1 fi | ok^ |  | 0
check f | automaton A signature internal a states^for: Int transitions internal a |  | E3 line 2^ | 1
check f | automaton A signature internal a states n: Int transitions internal a pre^for y in n do n := y od |  | E3 line 2^ | 1
-- a loop is one level more than its deepest statement, whatever it goes over
check f | type S = seq 3 of Int automaton A signature internal a states s: S; n: Int transitions internal a eff for x in s do for y in s do for z in s do &if true then @60&n := 1& fi@60& od od od | ok^ |  | 0
check f | ^type S = seq 3 of Int automaton A signature internal a states s: S; n: Int transitions internal a eff for x in s do for y in s do for z in s do &if true then @61&n := 1& fi@61& od od od |  | E4 line 2^ | 1
check f | type S = seq 3 of Int automaton A signature internal a states s: S; n: Int transitions internal a eff for x in &(@63&s&)@63& do n := x od | ok^ |  | 0
check f | type S = seq 3 of Int automaton A signature internal a states s: S; n: Int transitions internal a eff for x in &(@64&s&)@64& do n := x od |  | E4 line 1^ | 1
check f | ^type S = seq 3 of Int automaton A signature internal a states s: S; n: Int transitions internal a eff &for x in s do @64&n := 1& od@64& |  | E4 line 2^ | 1
-- its name is new: no formal, variable, parameter or loop round it, and nothing global
check f | type S = seq 3 of Int automaton A(y: Int) signature internal a states s: S; n: Int transitions internal a eff for^y in s do n := 1 od |  | E5 line 2^ | 1
check f | type S = seq 3 of Int automaton A signature internal a states s: S; n: Int transitions internal a eff for^n in s do n := 1 od |  | E5 line 2^ | 1
check f | type S = seq 3 of Int automaton A signature internal a states s: S; n: Int transitions internal a eff for^s in s do n := 1 od |  | E5 line 2^ | 1
check f | type S = seq 3 of Int automaton A signature input a(y: Int) states s: S; n: Int transitions input a eff for^y in s do n := 1 od |  | E5 line 2^ | 1
check f | type S = seq 3 of Int automaton A signature input a(y: Int); internal b states s: S; n: Int transitions input a internal b eff for y in s do n := y od | ok^ |  | 0
check f | type S = seq 3 of Int automaton A signature internal a states s: S; n: Int transitions internal a eff for y in s do for^y in s do n := 1 od od |  | E5 line 2^ | 1
check f | type S = seq 3 of Int automaton A signature internal a states s: S; n: Int transitions internal a eff for y in s do for z in s do for^y in s do n := 1 od od od |  | E5 line 2^ | 1
check f | type S = seq 3 of Int automaton A signature internal a states s: S; n: Int transitions internal a eff for y in s do n := y od; for y in s do n := y od | ok^ |  | 0
check f | type S = seq 3 of Int automaton A signature internal a states s: S; n: Int transitions internal a eff for^S in s do n := 1 od |  | E5 line 2^ | 1
check f | type S = seq 3 of Int automaton A signature internal a states s: S; n: Int transitions internal a eff for^Int in s do n := 1 od |  | E5 line 2^ | 1
check f | type S = seq 3 of Int type K = enum { y } automaton A signature internal a states s: S; n: Int transitions internal a eff for^y in s do n := 1 od |  | E5 line 2^ | 1
check f | type S = seq 3 of Int automaton A signature internal a states s: S; n: Int transitions internal a eff for^A in s do n := 1 od |  | E5 line 2^ | 1
check f | type S = seq 3 of Int automaton A signature internal a states s: S; n: Int transitions internal a eff for^y in s do n := 1 od type K = enum { y } |  | E5 line 2^ | 1
check f | type S = seq 3 of Int type T = tuple { y: Int } automaton A signature internal y states s: S; n: Int transitions internal y eff for y in s do n := y od composition C components y: A | ok^ |  | 0
-- it may be read in the loop's statements alone
check f | type S = seq 3 of Int automaton A signature internal a states s: S; n: Int transitions internal a eff for y in s do n := y od; n :=^y |  | E6 line 2^ | 1
check f | type S = seq 3 of Int automaton A signature internal a states s: S; n: Int transitions internal a eff n :=^y; for y in s do n := y od |  | E6 line 2^ | 1
check f | type S = seq 3 of Int automaton A signature internal a states s: S; n: Int transitions internal a eff for y in^y do n := 1 od |  | E6 line 2^ | 1
check f | type S = seq 3 of Int automaton A signature internal a states s: S; n: Int transitions internal a pre^y = 1 eff for y in s do n := y od |  | E6 line 2^ | 1
check f | type S = seq 3 of Int automaton A signature internal a(k: Int) states s: S; n: Int transitions internal a propose k :=^y eff for y in s do n := y od |  | E6 line 2^ | 1
check f | type S = seq 3 of Int automaton A signature internal a states s: S; n: Int transitions internal a eff if true then for y in s do n := y od else n :=^y fi |  | E6 line 2^ | 1
check f | type S = seq 3 of Int automaton A signature internal a; internal b states s: S; n: Int transitions internal a eff for y in s do n := y od internal b eff n :=^y |  | E6 line 2^ | 1
-- and it is not assigned
check f | type S = seq 3 of Int automaton A signature internal a states s: S; n: Int transitions internal a eff for y in s do^y := 1 od |  | E6 line 2^ | 1
check f | type S = seq 3 of Int automaton A signature internal a states s: S; n: Int transitions internal a eff for y in s do for z in s do^y := z od od |  | E6 line 2^ | 1
-- it stands for items of what the loop goes over, which is a sequence
check f | type S = seq 3 of Int automaton A signature internal a states s: S; n: Int transitions internal a eff for y in^n do n := 1 od |  | E7 line 2^ | 1
check f | type S = seq 3 of Int automaton A signature internal a states s: S; n: Int transitions internal a eff for y in^len(s) do n := 1 od |  | E7 line 2^ | 1
check f | type S = seq 3 of Int automaton A signature internal a states s: S; n: Int transitions internal a eff for y in s do for z in^y do n := 1 od od |  | E7 line 2^ | 1
check f | type S = seq 3 of Int automaton A signature internal a states s: S; n: Int transitions internal a eff for y in append(s,^true) do n := 1 od |  | E7 line 2^ | 1
check f | type S = seq 3 of Bool automaton A signature internal a states s: S; n: Int transitions internal a eff for y in s do n :=^y od |  | E7 line 2^ | 1
check f | type S = seq 3 of Bool automaton A signature internal a states s: S; n: Int transitions internal a eff for y in s do if y then n := 1 fi od | ok^ |  | 0
check f | type S = seq 3 of Int type M = seq 2 of S automaton A signature internal a states m: M; n: Int transitions internal a eff for row in m do for y in row do n := n + y od od | ok^ |  | 0
check f | type T = tuple { f: Int } type S = seq 3 of T automaton A signature internal a states s: S; n: Int transitions internal a eff for p in s do n := p.f od | ok^ |  | 0
-- three within each other, and no four
check f | type S = seq 3 of Int automaton A signature internal a states s: S; n: Int transitions internal a eff for x in s do for y in s do for z in s do n := x + y + z od od od | ok^ |  | 0
check f | type S = seq 3 of Int automaton A signature internal a states s: S; n: Int transitions internal a eff for x in s do for y in s do for z in s do for^w in s do n := x + y + z + w od od od od |  | E10 line 2^ | 1
check f | type S = seq 3 of Int automaton A signature internal a states s: S; n: Int transitions internal a eff for x in s do for y in s do if true then for z in s do if true then for^w in s do n := w od fi od fi od od |  | E10 line 2^ | 1
check f | type S = seq 3 of Int automaton A signature internal a states s: S; n: Int transitions internal a eff for x in s do for y in s do for z in s do n := x od; for w in s do n := w od od od | ok^ |  | 0
-- a loop is one node, with those of what it goes over and of its statements
check f | type S = seq 3 of Int automaton A signature internal a states s: S; n: Int transitions internal a eff &for y in s do n := y od;@1024& | ok^ |  | 0
check f | type S = seq 3 of Int automaton A signature internal a states s: S; n: Int transitions internal a eff &for y in s do n := y od;@1023&^for y in s do n := (y) od |  | E10 line 2^ | 1
check f | type S = seq 3 of Int automaton A signature internal a states s: S; n: Int transitions internal a eff &for y in s do n := y od;@1023&^for y in (s) do n := y od |  | E10 line 2^ | 1
";

/// A source, a list, what is printed, what is told of errors, and the exit status.
pub const REPLAYS: &str = "\
-- the list is that at the loop's start, whatever the statements do to it
type S = seq 3 of Int automaton Sum signature input put(a: Int); internal fold states s: S; n: Int transitions input put eff s := append(s, a) internal fold eff for y in s do n := n + y; s := empty(S) od composition Sums components A: Sum | put(2)^put(5)^fold | put(2)^put(5)^end: done after 3^ |  | 0
type S = seq 3 of Int automaton Sum signature input put(a: Int); internal fold states s: S; n: Int transitions input put eff s := append(s, a) internal fold eff for y in s do n := n + y; s := append(s, y) od composition Sums components A: Sum | put(2)^put(5)^fold | put(2)^put(5)^end: fault 5 in component 0 at 2^ |  | 3
type S = seq 3 of Int automaton Sum signature input put(a: Int); internal fold states s: S; n: Int transitions input put eff s := append(s, a) internal fold eff for y in s do n := n + y; s := empty(S) od composition Sums components A: Sum | fold | end: done after 1^ |  | 0
type S = seq 3 of Int automaton Sum signature input put(a: Int); internal fold; output total(k: Int) states s: S; n: Int transitions input put eff s := append(s, a) internal fold eff for y in s do n := n + y; s := empty(S) od output total pre k = n /\\ len(s) = 0 propose k := n composition Sums components A: Sum | put(2)^put(5)^fold^total(7)^total(8) | put(2)^put(5)^total(7)^end: not enabled at 4^ |  | 4
type S = seq 3 of Int automaton Sum signature input put(a: Int); internal fold; output total(k: Int) states s: S; n: Int transitions input put eff s := append(s, a) internal fold eff n := 4; for y in s do n := n + y od output total pre k = n propose k := n composition Sums components A: Sum | fold^total(4) | total(4)^end: done after 2^ |  | 0
type S = seq 8 of Int automaton Sum signature input put(a: Int); internal fold; output total(k: Int) states s: S transitions input put eff s := append(s, a) internal fold eff for y in s do s := append(s, y + 10) od output total pre k = last(s) * 10 + len(s) propose k := 0 composition Sums components A: Sum | put(1)^put(2)^fold^total(124) | put(1)^put(2)^total(124)^end: done after 4^ |  | 0
-- items in order, and what the statements read and assign
type S = seq 8 of Int automaton Sum signature input put(a: Int); internal fold; output total(k: Int) states s: S; n: Int transitions input put eff s := append(s, a) internal fold eff for y in s do n := n * 10 + y od output total pre k = n propose k := n composition Sums components A: Sum | put(1)^put(2)^put(3)^fold^total(123) | put(1)^put(2)^put(3)^total(123)^end: done after 5^ |  | 0
type S = seq 8 of Int automaton Sum signature input put(a: Int); internal fold; output total(k: Int) states s: S; n: Int transitions input put eff s := append(s, a) internal fold eff for y in s do if y > n then n := y fi od; n := n + 100 output total pre k = n propose k := n composition Sums components A: Sum | put(1)^put(3)^put(2)^fold^total(103) | put(1)^put(3)^put(2)^total(103)^end: done after 5^ |  | 0
type S = seq 8 of Int automaton Sum signature input put(a: Int); internal fold; output total(k: Int) states s: S; n: Int transitions input put eff s := append(s, a) internal fold eff for y in s do n := n + y od; for y in tail(s) do n := n - y od output total pre k = n propose k := n composition Sums components A: Sum | put(4)^put(3)^put(2)^fold^total(4) | put(4)^put(3)^put(2)^total(4)^end: done after 5^ |  | 0
-- within each other
type S = seq 8 of Int automaton Sum signature input put(a: Int); internal fold; output total(k: Int) states s: S; n: Int transitions input put eff s := append(s, a) internal fold eff for x in s do for y in s do n := n + x * y od od output total pre k = n propose k := n composition Sums components A: Sum | put(2)^put(5)^fold^total(49) | put(2)^put(5)^total(49)^end: done after 4^ |  | 0
type S = seq 8 of Int automaton Sum signature input put(a: Int); internal fold; output total(k: Int) states s: S; n: Int transitions input put eff s := append(s, a) internal fold eff for x in s do for y in s do for z in s do n := n + x * y * z od; n := n + x od; n := n + 1000 * x od output total pre k = n propose k := n composition Sums components A: Sum | put(2)^put(5)^fold^total(7357) | put(2)^put(5)^total(7357)^end: done after 4^ |  | 0
type S = seq 8 of Int type M = seq 2 of S automaton Sum signature input put(a: Int); input line; internal fold; output total(k: Int) states s: S; m: M; n: Int transitions input put eff s := append(s, a) input line eff m := append(m, s); s := empty(S) internal fold eff for row in m do for y in row do n := n + y od; n := n * 10 od output total pre k = n propose k := n composition Sums components A: Sum | put(1)^put(2)^line^put(4)^line^fold^total(340) | put(1)^put(2)^line^put(4)^line^total(340)^end: done after 7^ |  | 0
type T = tuple { f: Int, b: Bool } type S = seq 2 of T automaton A(t: T) signature internal a; output total(k: Int) states s: S; n: Int transitions internal a eff s := append(append(s, t), T(7, false)); for p in s do if p.b then n := n + p.f fi od output total pre k = n propose k := n composition C components X: A(T(5, true)) | a^total(5) | total(5)^end: done after 2^ |  | 0
-- faults: of what it goes over, of the first turn, and of the second
type S = seq 3 of Int automaton Sum signature internal fold states s: S; n: Int transitions internal fold eff for y in tail(s) do n := 1 od composition Sums components A: Sum | fold | end: fault 3 in component 0 at 0^ |  | 3
type S = seq 3 of Int automaton Sum signature input put(a: Int); internal fold states s: S; n: Int transitions input put eff s := append(s, a) internal fold eff for y in s do n := 1 div y od composition Sums components A: Sum | put(0)^put(1)^fold | put(0)^put(1)^end: fault 2 in component 0 at 2^ |  | 3
type S = seq 3 of Int automaton Sum signature input put(a: Int); internal fold states s: S; n: Int transitions input put eff s := append(s, a) internal fold eff for y in s do n := 1 div y; n := 9223372036854775807 + y od composition Sums components A: Sum | put(1)^put(0)^fold | put(1)^put(0)^end: fault 1 in component 0 at 2^ |  | 3
type S = seq 3 of Int automaton Sum signature input put(a: Int); internal fold states s: S; n: Int transitions input put eff s := append(s, a) internal fold eff for y in s do n := 1 div y od composition Sums components A: Sum | put(1)^put(0)^fold | put(1)^put(0)^end: fault 2 in component 0 at 2^ |  | 3
type S = seq 3 of Int automaton Sum signature input put(a: Int); internal fold states s: S; n: Int transitions input put eff s := append(s, a) internal fold eff for y in s do n := n + 1 od; n := 1 div (n - 2) composition Sums components A: Sum | put(0)^fold^put(0)^put(0)^fold | put(0)^put(0)^put(0)^end: fault 2 in component 0 at 4^ |  | 3
-- parameters, formals and positions
type S = seq 3 of Int automaton A(l: S) signature input go(m: Int); output total(k: Int) states n: Int transitions input go eff for y in l do n := n + m * y od output total pre k = n propose k := n composition C components X: A(append(append(empty(S), 1), 2)) | go(5)^total(15) | go(5)^total(15)^end: done after 2^ |  | 0
type S = seq 3 of Int automaton A(l: S) signature input go(m: Int); output total(k: Int) states n: Int transitions input go eff for y in l do n := n + m * y od output total pre k = n propose k := n composition C components X: A(empty(S)) | go(5)^total(5) | go(5)^end: not enabled at 1^ |  | 4
-- a host that crashes
type S = seq 3 of Int automaton Sum signature input put(a: Int); internal fold; output total(k: Int) states stable s: S; n: Int transitions input put eff s := append(s, a) internal fold eff for y in s do n := n + y od output total pre k = n propose k := n composition Sums components A: Sum crash down recover up | put(2)^put(5)^fold^total(7)^down^put(9)^up^total(0)^fold^fold^total(14) | put(2)^put(5)^total(7)^down^put(9)^up^total(0)^total(14)^end: done after 11^ |  | 0
type S = seq 3 of Int automaton Sum signature input put(a: Int); internal fold states s: S; n: Int transitions input put eff s := append(s, a) internal fold eff for y in s do n := 1 div y od composition Sums components A: Sum crash down recover up | put(0)^down^up^fold^put(0)^down^fold | put(0)^down^up^put(0)^down^end: not enabled at 6^ |  | 4
";

/// A source that adds up what it is given.
pub const SUM: &str =
    "type S = seq 3 of Int automaton Sum signature input put(a: Int); internal fold; output total(k: Int) \
    states s: S; n: Int transitions input put eff s := append(s, a) \
    internal fold eff for y in s do n := n + y od; s := empty(S) output total pre k = n propose k := n \
    composition Sums components A: Sum";

/// A list, which is replayed on the object of `SUM`, what is printed, what is told of errors, and the exit status.
pub const SUMS: &str = "\
put(2)^put(5)^fold^total(7) | put(2)^put(5)^total(7)^end: done after 4^ |  | 0
put(2)^fold^put(5)^fold^fold^total(7) | put(2)^put(5)^total(7)^end: done after 6^ |  | 0
put(2)^put(5)^fold^total(2) | put(2)^put(5)^end: not enabled at 3^ |  | 4
fold^total(0) | total(0)^end: done after 2^ |  | 0
put(9223372036854775807)^put(1)^fold | put(9223372036854775807)^put(1)^end: fault 1 in component 0 at 2^ |  | 3
";
