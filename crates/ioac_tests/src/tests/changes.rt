//! One counter, changed in one place: what each rule refuses, and on which line.

/// A counter with a part on each line.
pub const LINES: &str =
    "automaton Counter(start: Int)\nsignature\n output tick(k: Int);\n input reset\n\
    states\n c: Int := start;\n d: Bool\ntransitions\n output tick\n  pre k = c\n  propose k := c\n  eff c := c + 1\n \
    input reset\n  eff c := start;\n  d := true\ncomposition One components\n A: Counter(5)\n";

/// A part of the counter, what stands in its place, a list, what is printed, what is told of errors, and the exit status.
pub const ROWS: &str = "\
-- bytes and tokens
pre k = c | pre k = c^$ |  |  | E2 line 11^ | 1
pre k = c | pre k = _c |  |  | E2 line 10^ | 1
c + 1 | c + 9223372036854775808 |  |  | E2 line 12^ | 1
c + 1 | c + 9223372036854775807 |  | end: done after 0^ |  | 0
c + 1 | c % any byte: $\u{e9}^ + 1 |  | end: done after 0^ |  | 0
tick(k: Int); | tick(k: Int); % $ |  | end: done after 0^ |  | 0
-- the grammar
pre k = c | pre k = (c |  |  | E3 line 11^ | 1
pre k = c | pre k = c = c |  |  | E3 line 10^ | 1
pre k = c | pre k = |  |  | E3 line 11^ | 1
pre k = c | pre |  |  | E3 line 11^ | 1
signature |  |  |  | E3 line 3^ | 1
A: Counter(5) | A: Counter() |  |  | E3 line 17^ | 1
A: Counter(5) | A: if(5) |  |  | E3 line 17^ | 1
A: Counter(5)^ |  |  |  | E3 line 17^ | 1
A: Counter(5)^ | A: Counter(5);^ |  | end: done after 0^ |  | 0
d := true | d := true; |  | end: done after 0^ |  | 0
d := true | d := true;; |  |  | E3 line 15^ | 1
d: Bool | d: Bool; |  | end: done after 0^ |  | 0
input reset^ | input reset;^ |  | end: done after 0^ |  | 0
-- a name is declared once
d: Bool | c: Bool |  |  | E5 line 7^ | 1
d: Bool | start: Bool |  |  | E5 line 7^ | 1
d: Bool | One: Bool |  |  | E5 line 7^ | 1
c: Int := start | k: Int := start |  |  | E5 line 3^ | 1
tick(k: Int) | tick(start: Int) |  |  | E5 line 3^ | 1
tick(k: Int) | tick(k: Int, k: Int) |  |  | E5 line 3^ | 1
start: Int | start: Int,^start: Int |  |  | E5 line 2^ | 1
 input reset^states |  input tick^states |  |  | E5 line 4^ | 1
propose k := c | propose k := c,^ k := 1 |  |  | E5 line 12^ | 1
composition One | composition Int |  |  | E5 line 16^ | 1
composition One | composition Counter |  |  | E5 line 16^ | 1
automaton Counter | automaton Bool |  |  | E5 line 1^ | 1
-- a name is known where it stands
d: Bool | d: Real |  |  | E6 line 7^ | 1
tick(k: Int) | tick(k: Counter) |  |  | E6 line 3^ | 1
start: Int | start: Nat |  |  | E6 line 1^ | 1
c: Int := start | c: Int := d |  |  | E6 line 6^ | 1
pre k = c | pre k = e |  |  | E6 line 10^ | 1
pre k = c | pre k =^ (One) |  |  | E6 line 11^ | 1
propose k := c | propose k := k |  |  | E6 line 11^ | 1
propose k := c | propose j := c |  |  | E6 line 11^ | 1
c := start; | c := k; |  |  | E6 line 14^ | 1
d := true | start := 1 |  |  | E6 line 15^ | 1
d := true | k := 1 |  |  | E6 line 15^ | 1
A: Counter(5) | A: Count(5) |  |  | E6 line 17^ | 1
A: Counter(5) | A: One(5) |  |  | E6 line 17^ | 1
A: Counter(5) | A: Counter(c) |  |  | E6 line 17^ | 1
A: Counter(5) | A: Counter(start) |  |  | E6 line 17^ | 1
-- an expression has the type of its place
c: Int := start | c: Int := true |  |  | E7 line 6^ | 1
pre k = c | pre k + c |  |  | E7 line 10^ | 1
pre k = c | pre k = d |  |  | E7 line 10^ | 1
pre k = c | pre (k = c) = d |  | end: done after 0^ |  | 0
propose k := c | propose k := d |  |  | E7 line 11^ | 1
c + 1 | c + true |  |  | E7 line 12^ | 1
c + 1 | c^ + 1^ - d |  |  | E7 line 14^ | 1
d := true | d := 1 |  |  | E7 line 15^ | 1
A: Counter(5) | A: Counter(5 + true) |  |  | E7 line 17^ | 1
-- the line of a parenthesis, where its expression is at fault
c: Int := start | c: Int := (^^true) |  |  | E7 line 6^ | 1
pre k = c | pre (^^ k + c) |  |  | E7 line 10^ | 1
propose k := c | propose k := (^ d) |  |  | E7 line 11^ | 1
c + 1 | c + (^^^ true) |  |  | E7 line 12^ | 1
c + 1 | (^ true) + c |  |  | E7 line 12^ | 1
d := true | d :=^ ((^^ 1)) |  |  | E7 line 16^ | 1
A: Counter(5) | A: Counter(5 + (^ true)) |  |  | E7 line 17^ | 1
-- entries and transitions match
 input reset^  eff c := start;^  d := true^ |  |  |  | E8 line 4^ | 1
  eff c := start; |   pre d eff c := start; |  |  | E8 line 13^ | 1
  eff c := start; |   propose k := c eff c := start; |  |  | E8 line 13^ | 1
composition |  input reset^composition |  |  | E8 line 16^ | 1
composition |  internal tock^composition |  |  | E8 line 16^ | 1
 output tick^ |  internal tick^ |  |  | E8 line 9^ | 1
-- each parameter of a local action that is no Bool has a proposal
  propose k := c^ |  |  |  | E9 line 9^ | 1
tick(k: Int) | tick(k: Int, j: Int) |  |  | E9 line 9^ | 1
tick(k: Int) | tick(k: Int, b: Bool) |  | end: done after 0^ |  | 0
-- limits
start: Int | start: Int&, f#: Int@7 |  |  | E12 component 0^ | 1
start: Int | start: Int&, f#: Int@8 |  |  | E10 line 1^ | 1
tick(k: Int | tick(k: Int&, b#: Bool@7 |  | end: done after 0^ |  | 0
tick(k: Int | tick(k: Int&, b#: Bool@8 |  |  | E10 line 3^ | 1
d: Bool | d: Bool&; v#: Int@62 |  | end: done after 0^ |  | 0
d: Bool | d: Bool&; v#: Int@63 |  |  | E10 line 7^ | 1
-- the composition
A: Counter(5) | A: Counter |  |  | E12 component 0^ | 1
A: Counter(5) | A: Counter(true) |  |  | E12 component 0^ | 1
A: Counter(5) | A: Counter(5, 5) |  |  | E12 component 0^ | 1
A: Counter(5) | A: Counter((5) - 6) |  | end: done after 0^ |  | 0
A: Counter(5) | A: Counter(9223372036854775807 + 1) |  |  | E16 component 0 fault 1^ | 1
c: Int := start | c: Int := start + 9223372036854775807 |  |  | E16 component 0 fault 1^ | 1
c: Int := start | c: Int := 0 - start - 9223372036854775807 |  |  | E16 component 0 fault 1^ | 1
";
