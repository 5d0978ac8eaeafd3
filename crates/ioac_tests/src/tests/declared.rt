//! Declared types: texts and meaning, both sides of each limit, and values in lists.

/// The words after the program's name, a source, what is printed, what is told of errors, and the exit status.
pub const CHECKS: &str = "\
check f | type Mode = enum { idle, busy } type Packet = tuple { mode: Mode, tag: Int } type Packets = seq 16 of Packet | ok^ |  | 0
-- the grammar
check f | type T = enum { a b } |  | E3 line 1^ | 1
check f | type T = enum { } |  | E3 line 1^ | 1
check f | type T = enum { a, } |  | E3 line 1^ | 1
check f | type T = tuple { } |  | E3 line 1^ | 1
check f | type T = tuple { f: Int,^} |  | E3 line 2^ | 1
check f | type T = seq of Int |  | E3 line 1^ | 1
check f | type T = seq 4^of |  | E3 line 2^ | 1
check f | type T = Int |  | E3 line 1^ | 1
check f | type T = seq 4 of Int automaton A signature internal a states s: T transitions internal a eff s := append(s)^ |  | E3 line 1^ | 1
check f | type T = seq 4 of Int automaton A signature internal a states s: T transitions internal a pre len(s^, s) = 0 |  | E3 line 2^ | 1
check f | type T = tuple { f: Int } automaton A signature internal a states t: T transitions internal a eff t := T(^) |  | E3 line 2^ | 1
check f | type T = tuple { f: Int } automaton A signature internal a states t: T transitions internal a eff t := T(1,^) |  | E3 line 2^ | 1
check f | type T = tuple { f: Int } automaton A signature internal a states t: T transitions internal a eff t := T(1^t := t |  | E3 line 2^ | 1
check f | type T = tuple { f: Int } automaton A signature internal a states t: T transitions internal a pre t.^1 = 1 |  | E3 line 2^ | 1
check f | type T = tuple { f: Int } automaton A signature internal a states t: T transitions internal a pre^t(1) = t |  | E6 line 2^ | 1
check f | type T = tuple { f: Int } automaton A signature internal a states t: T transitions internal a pre (t)^(1) = t |  | E3 line 2^ | 1
-- a field is one level deeper than its tuple
check f | automaton A signature internal a states x: Int transitions internal a eff x :=^x&.f@63& |  | E7 line 2^ | 1
check f | ^automaton A signature internal a states x: Int transitions internal a eff x := x&.f@64& |  | E4 line 2^ | 1
check f | automaton A signature internal a states x: Int transitions internal a eff x :=^&T(@63&1&)@63& |  | E6 line 2^ | 1
check f | automaton A signature internal a states x: Int transitions internal a eff x :=^&T(@64&1&)@64& |  | E4 line 1^ | 1
-- and a tuple is one node more than its fields
check f | automaton A signature internal a states x: Int transitions internal a eff x := T(1&, 1@4093&) |  | E6 line 1^ | 1
check f | automaton A signature internal a states x: Int transitions internal a eff x := T(1&, 1@4094&) |  | E10 line 1^ | 1
-- a name is declared once
check f | type T = enum { a, a } |  | E5 line 1^ | 1
check f | type T = enum {^T } |  | E5 line 2^ | 1
check f | type T = enum { a }^type U = enum { b, a } |  | E5 line 2^ | 1
check f | type Int = enum { a } |  | E5 line 1^ | 1
check f | type T = enum { a } type^T = enum { b } |  | E5 line 2^ | 1
check f | type T = tuple { a: Int,^a: Bool } |  | E5 line 2^ | 1
check f | type T = tuple { a: Int } type U = tuple { a: Int } | ok^ |  | 0
check f | type T = enum { b }^automaton A signature input a(b: Int) transitions input a |  | E5 line 2^ | 1
check f | automaton A signature input a states b: Int transitions input a^type T = enum { b } |  | E5 line 1^ | 1
check f | type T = enum { a } automaton A signature input a transitions input a | ok^ |  | 0
-- and before its use
check f | type T = tuple { a: Int,^b: T } |  | E6 line 2^ | 1
check f | type T = seq 4 of^U^type U = enum { a } |  | E6 line 2^ | 1
check f | automaton A signature input a(x: T) transitions input a^type T = enum { b } |  | E6 line 1^ | 1
check f | automaton A signature internal a transitions internal a pre^b = b^type T = enum { b } |  | E6 line 2^ | 1
check f | type T = enum { b } automaton A signature internal a transitions internal a pre b = b | ok^ |  | 0
check f | type T = enum { b } automaton A signature internal a transitions internal a pre^T = T |  | E6 line 2^ | 1
check f | automaton A signature internal a transitions internal a pre len(empty(^T)) = 0 type T = seq 1 of Int |  | E6 line 2^ | 1
-- types of operands
check f | type S = seq 2 of Int type U = seq 2 of Int automaton A signature internal a states s: S; u: U transitions internal a pre^s = u |  | E7 line 2^ | 1
check f | type S = seq 2 of Int type U = seq 2 of Int automaton A signature internal a states s: S; u: U transitions internal a eff s :=^u |  | E7 line 2^ | 1
check f | type T = enum { b } automaton A signature internal a transitions internal a pre^b = 0 |  | E7 line 2^ | 1
check f | type T = enum { b } type U = enum { c } automaton A signature internal a transitions internal a pre^b = c |  | E7 line 2^ | 1
check f | type S = seq 2 of Int automaton A signature internal a states s: S transitions internal a eff s := append(s, true) |  | E7 line 1^ | 1
check f | type S = seq 2 of Int automaton A signature internal a states s: S transitions internal a pre member(s, 1) |  | E7 line 1^ | 1
check f | type S = seq 2 of Int automaton A signature internal a states s: S transitions internal a pre at(s, true) = 1 |  | E7 line 1^ | 1
check f | type S = seq 2 of Int automaton A signature internal a states s: S transitions internal a eff s := head(s) |  | E7 line 1^ | 1
check f | type S = seq 2 of Int automaton A signature internal a states s: S transitions internal a eff s := without(tail(s), last(init(s))) | ok^ |  | 0
check f | automaton A signature internal a transitions internal a pre len(1) = 0 |  | E7 line 1^ | 1
check f | automaton A signature internal a transitions internal a pre len(^empty(Int)) = 0 |  | E7 line 2^ | 1
-- tuples and their fields
check f | type T = tuple { a: Int, b: Bool } automaton A(t: T) signature internal i states u: T := T(t.a + 1, ~t.b) transitions internal i pre T(u.a, true).b eff u := T(-t.a, u.b => t.b) | ok^ |  | 0
check f | type T = tuple { a: Int } type U = tuple { t: T } automaton A signature internal i states u: U transitions internal i pre u.t.a = U(T(1)).t.a eff u := U(u.t) | ok^ |  | 0
check f | automaton A signature internal i transitions internal i pre^T(1) = T(1) type T = tuple { a: Int } |  | E6 line 2^ | 1
check f | type T = tuple { a: Int } automaton A signature internal i states t: T transitions internal i pre t.^b = 1 |  | E6 line 2^ | 1
check f | type T = tuple { a: Int } automaton A signature internal i states t: T transitions internal i pre^t.a.a = 1 |  | E7 line 2^ | 1
check f | automaton A signature internal i states n: Int transitions internal i pre^n.a = 1 |  | E7 line 2^ | 1
check f | automaton A signature internal i transitions internal i pre^Int(1) = 1 |  | E7 line 2^ | 1
check f | type S = seq 1 of Int automaton A signature internal i transitions internal i pre^S(1) = empty(S) |  | E7 line 2^ | 1
check f | type T = tuple { a: Int, b: Bool } automaton A signature internal i states t: T transitions internal i eff t :=^T(1) |  | E7 line 2^ | 1
check f | type T = tuple { a: Int, b: Bool } automaton A signature internal i states t: T transitions internal i eff t :=^T(1, true, 2) |  | E7 line 2^ | 1
check f | type T = tuple { a: Int, b: Bool } automaton A signature internal i states t: T transitions internal i eff t := T(1,^2) |  | E7 line 2^ | 1
check f | type T = tuple { a: Int } type U = tuple { a: Int } automaton A signature internal i states t: T transitions internal i eff t :=^U(1) |  | E7 line 2^ | 1
-- proposals
check f | type T = enum { b } automaton A signature output a(x: T) transitions output a | ok^ |  | 0
check f | type T = tuple { f: Int } automaton A signature output a(x: T) transitions^output a |  | E9 line 2^ | 1
check f | type T = seq 1 of Int automaton A signature output a(x: T) transitions^output a |  | E9 line 2^ | 1
check f | type T = seq 1 of Int automaton A signature output a(x: T) transitions output a propose x := empty(T) | ok^ |  | 0
-- a capacity of 0, 1, 256 and 257
check f | type S = seq 0 of Int |  | E10 line 1^ | 1
check f | type S = seq 1 of Int | ok^ |  | 0
check f | type S = seq 256 of Int | ok^ |  | 0
check f | type S = seq 257 of Int |  | E10 line 1^ | 1
check f | type S = seq 9223372036854775807 of Int |  | E10 line 1^ | 1
-- 256 and 257 names, 16 and 17 fields
check f | type T = enum { a&, a#@255& } | ok^ |  | 0
check f | type T = enum { a&, a#@256& } |  | E10 line 1^ | 1
check f | type T = tuple { f: Int&, f#: Int@15& } | ok^ |  | 0
check f | type T = tuple { f: Int&, f#: Int@16& } |  | E10 line 1^ | 1
-- 1,024 and 1,025 types
check f | type T# = seq 1 of Int @1024 | ok^ |  | 0
check f | type T# = seq 1 of Int @1025 |  | E10 line 1^ | 1
-- 3,856 and 4,113, 4,096 and 4,097 words
check f | type B = seq 256 of Int type C = seq 15 of B | ok^ |  | 0
check f | type B = seq 256 of Int^type C = seq 16 of B |  | E11 line 2^ | 1
check f | type S = seq 255 of Int type T = tuple { f: S&, f#: S@15& } | ok^ |  | 0
check f | type S = seq 255 of Int type P = tuple { a: S, b: Bool }^type T = tuple { f: P&, f#: S@15& } |  | E11 line 2^ | 1
check f | type Row = seq 63 of Int type Board = seq 63 of Row type Book = seq 256 of Board type Shelf = seq 256 of Book |  | E11 line 1^ | 1
";

/// A source, a list, what is printed, what is told of errors, and the exit status.
pub const REPLAYS: &str = "\
-- sequences that are empty, too short and full
type Ints = seq 4 of Int automaton A signature output give(p: Int) states b: Ints transitions output give pre p = head(b) propose p := 0 composition One components A: A | give(1) | end: fault 3 in component 0 at 0^ |  | 3
type Ints = seq 4 of Int automaton A signature output give(p: Int) states b: Ints transitions output give pre len(b) > 0 /\\ p = head(b) propose p := 0 composition One components A: A | give(1) | end: not enabled at 0^ |  | 4
type S = seq 1 of Int automaton Pick signature input go states s: S; x: Int transitions input go eff x := at(s, 0) composition One components P: Pick | go | end: fault 4 in component 0 at 0^ |  | 3
type S = seq 1 of Int automaton Pick signature input go(i: Int) states s: S; x: Int transitions input go eff s := append(empty(S), 7); x := at(s, i) composition One components P: Pick | go(0)^go(-1) | go(0)^end: fault 4 in component 0 at 1^ |  | 3
type S = seq 1 of Int automaton A signature input go states s: S transitions input go eff s := append(s, 1) composition One components A: A | go^go | go^end: fault 5 in component 0 at 1^ |  | 3
type S = seq 1 of Int automaton A signature input go states s: S transitions input go eff s := tail(s) composition One components A: A | go | end: fault 3 in component 0 at 0^ |  | 3
-- a queue of the names of an enumeration
type Kind = enum { data, ack } type Kinds = seq 2 of Kind automaton Queue signature input put(k: Kind); output get(k: Kind) states q: Kinds transitions input put eff if len(q) < 2 then q := append(q, k) fi output get pre len(q) > 0 /\\ k = head(q) eff q := tail(q) composition One components A: Queue | put(data)^put(ack)^put(ack)^get(data)^get(ack)^get(ack) | put(data)^put(ack)^put(ack)^get(data)^get(ack)^end: not enabled at 5^ |  | 4
-- last, init, at, member, without
type S = seq 3 of Int automaton A signature input put(x: Int); output see(x: Int); input drop(x: Int); input undo states s: S transitions input put eff s := append(s, x) output see pre member(x, s) /\\ last(s) = at(s, len(s) - 1) propose x := 0 input drop eff s := without(s, x) input undo eff s := init(s) composition One components A: A | put(1)^put(2)^put(1)^drop(1)^see(2)^see(1)^undo^see(2)^see(1) | put(1)^put(2)^put(1)^drop(1)^see(2)^see(1)^undo^see(2)^end: not enabled at 8^ |  | 4
-- first values, start expressions and arguments
type Mode = enum { idle, busy } automaton A(start: Mode) signature output is(m: Mode); output was(m: Mode) states first: Mode; then_: Mode := start transitions output is pre m = first output was pre m = then_ composition One components A: A(busy) | is(idle)^was(busy)^was(idle) | is(idle)^was(busy)^end: not enabled at 2^ |  | 4
type Mode = enum { idle, busy } type P = tuple { m: Mode, n: Int } automaton A signature input is(p: P); output see(p: P) states q: P transitions input is eff q := p output see pre p = q propose p := q composition One components A: A | see(P(idle, 0))^is(P(busy, -7))^see( P ( busy,-007 ) )^see(P(idle, 0)) | see(P(idle, 0))^is(P(busy, -7))^see(P(busy, -7))^end: not enabled at 3^ |  | 4
-- tuples that expressions make, and their fields, by their places in each type
type Kind = enum { data, ack } type Packet = tuple { kind: Kind, tag: Int } type Packets = seq 2 of Packet automaton Sender signature input put(n: Int); output send(p: Packet) states q: Packets := append(empty(Packets), Packet(ack, 0)) transitions input put eff if len(q) < 2 then q := append(q, Packet(data, n)) fi output send pre len(q) > 0 /\\ p = head(q) propose p := head(q) eff q := tail(q) composition One components A: Sender | put(5)^send(Packet(ack, 0))^send(Packet(data, 5))^send(Packet(data, 5)) | put(5)^send(Packet(ack, 0))^send(Packet(data, 5))^end: not enabled at 3^ |  | 4
type T = tuple { n: Int, b: Bool } type U = tuple { b: Bool, n: Int } automaton A(t: T) signature output see(x: Int) states u: U := U(t.b, 4) transitions output see pre u.b /\\ x = t.n - u.n propose x := 0 composition One components A: A(T(3, true)) | see(-1)^see(1) | see(-1)^end: not enabled at 1^ |  | 4
type In = tuple { v: Int } type Out = tuple { i: In, w: Int } automaton A signature input set(o: Out); output see(x: Int) states last_: Out transitions input set eff last_ := Out(In(o.w), o.i.v) output see pre x = last_.i.v * 10 + last_.w propose x := 0 composition One components A: A | see(0)^set(Out(In(1), 2))^see(21)^see(12) | see(0)^set(Out(In(1), 2))^see(21)^end: not enabled at 3^ |  | 4
type S = seq 1 of Int type T = tuple { a: Int, b: Int } automaton A signature input go states s: S; t: T transitions input go eff t := T(1 div 0, head(s)) composition One components A: A | go | end: fault 2 in component 0 at 0^ |  | 3
type S = seq 1 of Int type T = tuple { a: Int, b: Int } automaton A signature input go states s: S; t: T transitions input go eff t := T(head(s), 1 div 0) composition One components A: A | go | end: fault 3 in component 0 at 0^ |  | 3
type S = seq 1 of Int type T = tuple { a: Int, b: Int } automaton A signature input go states s: S; n: Int transitions input go eff n := T(1, head(s)).a composition One components A: A | go | end: fault 3 in component 0 at 0^ |  | 3
-- texts of values
type S = seq 1 of Int automaton A signature input p(s: S) transitions input p composition One components A: A | p( S[ 1 ] )^p(S[])^ p\t(S [ ] ) | p(S[1])^p(S[])^p(S[])^end: done after 3^ |  | 0
type S = seq 1 of Int automaton A signature input p(s: S) transitions input p composition One components A: A | p(S[1, 2]) |  | L2 line 1^ | 4
type S = seq 1 of Int automaton A signature input p(s: S) transitions input p composition One components A: A | p(S[true]) |  | L2 line 1^ | 4
type S = seq 1 of Int automaton A signature input p(s: S) transitions input p composition One components A: A | p(S[1)) |  | L2 line 1^ | 4
type S = seq 1 of Int automaton A signature input p(s: S) transitions input p composition One components A: A | p(S) |  | L2 line 1^ | 4
type S = seq 1 of Int automaton A signature input p(s: S) transitions input p composition One components A: A | p(T[1]) |  | L2 line 1^ | 4
type S = seq 1 of Int automaton A signature input p(s: S) transitions input p composition One components A: A | p(Int[1]) |  | L2 line 1^ | 4
type S = seq 1 of Int type T = seq 1 of Int automaton A signature input p(s: S) transitions input p composition One components A: A | p(T[1]) | end: not an action at 0^ |  | 4
type T = tuple { a: Int, b: Bool } automaton A signature input p(t: T) transitions input p composition One components A: A | p(T(1, true))^p(T(1)) |  | L2 line 2^ | 4
type T = tuple { a: Int, b: Bool } automaton A signature input p(t: T) transitions input p composition One components A: A | p(T(true, 1)) |  | L2 line 1^ | 4
type T = tuple { a: Int, b: Bool } automaton A signature input p(t: T) transitions input p composition One components A: A | p(T()) |  | L2 line 1^ | 4
type T = enum { a, b } automaton A signature input p(t: T) transitions input p composition One components A: A | p(a)^p(c) |  | L2 line 2^ | 4
type T = enum { a, b } automaton A signature input p(t: T) transitions input p composition One components A: A | p(b)^p(0) | p(b)^end: not an action at 1^ |  | 4
";
