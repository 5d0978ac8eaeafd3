//! What preconditions, proposals and effects mean, as the transition of a counter shows.

/// A counter in which `?` stands for what a tick asks, proposes and does.
pub const COUNTER: &str =
    "automaton Counter(start: Int) signature output tick(k: Int); input reset \
    states c: Int := start transitions output tick ? input reset eff c := start \
    composition One components A: Counter(5)";

/// What stands for `?`, after it, a list, what is printed, what is told of errors, and the exit status.
pub const ROWS: &str = "\
-- the second operand is asked for only where the first does not decide
? | pre c > 5 /\\ 1 div 0 = k propose k := c eff c := c + 1 | tick(5) | end: not enabled at 0^ |  | 4
? | pre c = 5 \\/ 1 div 0 = k propose k := c eff c := c + 1 | tick(5) | tick(5)^end: done after 1^ |  | 0
? | pre c = 5 => 1 div 0 = k propose k := c eff c := c + 1 | tick(5) | end: fault 2 in component 0 at 0^ |  | 3
? | pre c = 5 /\\ 1 div 0 = k propose k := c eff c := c + 1 | tick(5) | end: fault 2 in component 0 at 0^ |  | 3
? | pre c > 5 \\/ 1 div 0 = k propose k := c eff c := c + 1 | tick(5) | end: fault 2 in component 0 at 0^ |  | 3
? | pre c > 5 => 1 div 0 = k propose k := c eff c := c + 1 | tick(5) | tick(5)^end: done after 1^ |  | 0
? | pre 1 div 0 = k /\\ c > 5 propose k := c eff c := c + 1 | tick(5) | end: fault 2 in component 0 at 0^ |  | 3
-- quotients, remainders, and what does not fit
? | pre k = -7 div 2 propose k := c eff c := 5 | tick(-4) | tick(-4)^end: done after 1^ |  | 0
? | pre k = -(7 div 2) propose k := c eff c := 5 | tick(-3) | tick(-3)^end: done after 1^ |  | 0
? | pre k = -7 mod 2 propose k := c eff c := 5 | tick(1) | tick(1)^end: done after 1^ |  | 0
? | pre k = -7 mod -2 propose k := c eff c := 5 | tick(1) | tick(1)^end: done after 1^ |  | 0
? | pre k = -7 div -2 propose k := c eff c := 5 | tick(4) | tick(4)^end: done after 1^ |  | 0
? | pre k = 7 div -2 propose k := c eff c := 5 | tick(-3) | tick(-3)^end: done after 1^ |  | 0
? | pre k = 3 mod 0 propose k := c eff c := 5 | tick(0) | end: fault 2 in component 0 at 0^ |  | 3
? | pre k = 3 div 0 propose k := c eff c := 5 | tick(0) | end: fault 2 in component 0 at 0^ |  | 3
? | pre k = (0 - 9223372036854775807 - 1) mod -1 propose k := c eff c := 5 | tick(0) | tick(0)^end: done after 1^ |  | 0
? | pre k = (0 - 9223372036854775807 - 1) div -1 propose k := c eff c := 5 | tick(0) | end: fault 1 in component 0 at 0^ |  | 3
? | pre k = -(0 - 9223372036854775807 - 1) propose k := c eff c := 5 | tick(0) | end: fault 1 in component 0 at 0^ |  | 3
? | pre k = 3037000499 * 3037000499 propose k := c eff c := 5 | tick(9223372030926249001) | tick(9223372030926249001)^end: done after 1^ |  | 0
? | pre k = 3037000500 * 3037000500 propose k := c eff c := 5 | tick(0) | end: fault 1 in component 0 at 0^ |  | 3
-- levels and grouping
? | pre k = 2 * 3 + 4 propose k := c eff c := 5 | tick(10) | tick(10)^end: done after 1^ |  | 0
? | pre k = 2 + 3 * 4 propose k := c eff c := 5 | tick(14) | tick(14)^end: done after 1^ |  | 0
? | pre k = 20 div 3 mod 4 propose k := c eff c := 5 | tick(2) | tick(2)^end: done after 1^ |  | 0
? | pre k = 20 mod 3 * 4 propose k := c eff c := 5 | tick(8) | tick(8)^end: done after 1^ |  | 0
? | pre k = 10 - 3 - 2 propose k := c eff c := 5 | tick(5) | tick(5)^end: done after 1^ |  | 0
? | pre k = 2 - -3 propose k := c eff c := 5 | tick(5) | tick(5)^end: done after 1^ |  | 0
? | pre k = - - 3 propose k := c eff c := 5 | tick(3) | tick(3)^end: done after 1^ |  | 0
? | pre k = -2 * 3 propose k := c eff c := 5 | tick(-6) | tick(-6)^end: done after 1^ |  | 0
? | pre c = 4 => c = 5 => c = 4 propose k := c eff c := 5 | tick(5) | tick(5)^end: done after 1^ |  | 0
? | pre c = 5 => c = 5 => c = 4 propose k := c eff c := 5 | tick(5) | end: not enabled at 0^ |  | 4
? | pre c = 5 \\/ c = 5 /\\ c = 4 propose k := c eff c := 5 | tick(5) | tick(5)^end: done after 1^ |  | 0
? | pre c = 5 \\/ c = 5 => c = 4 propose k := c eff c := 5 | tick(5) | end: not enabled at 0^ |  | 4
? | pre ~ c = 5 /\\ c = 4 propose k := c eff c := 5 | tick(5) | end: not enabled at 0^ |  | 4
? | pre ~ ~ c = 5 propose k := c eff c := 5 | tick(5) | tick(5)^end: done after 1^ |  | 0
-- comparisons
? | pre k < c propose k := c eff c := 5 | tick(4)^tick(5) | tick(4)^end: not enabled at 1^ |  | 4
? | pre k <= c propose k := c eff c := 5 | tick(5)^tick(6) | tick(5)^end: not enabled at 1^ |  | 4
? | pre k > c propose k := c eff c := 5 | tick(6)^tick(5) | tick(6)^end: not enabled at 1^ |  | 4
? | pre k >= c propose k := c eff c := 5 | tick(5)^tick(4) | tick(5)^end: not enabled at 1^ |  | 4
? | pre k ~= c propose k := c eff c := 5 | tick(4)^tick(5) | tick(4)^end: not enabled at 1^ |  | 4
? | pre ~ k = c propose k := c eff c := 5 | tick(4)^tick(5) | tick(4)^end: not enabled at 1^ |  | 4
? | pre (k = c) = (c > 4) propose k := c eff c := 5 | tick(5)^tick(4) | tick(5)^end: not enabled at 1^ |  | 4
-- the first arm whose condition is true, and what is after `else`
? | pre k = c propose k := c eff if c < 7 then c := c + 1 fi | tick(5)^tick(6)^tick(7)^tick(7) | tick(5)^tick(6)^tick(7)^tick(7)^end: done after 4^ |  | 0
? | pre k = c propose k := c eff if c = 5 then c := 8 elseif c = 8 then c := 9 else c := 0 fi | tick(5)^tick(8)^tick(9)^tick(0) | tick(5)^tick(8)^tick(9)^tick(0)^end: done after 4^ |  | 0
? | pre k = c propose k := c eff if c = 5 then c := 6 elseif c = 5 then c := 7 fi | tick(5)^tick(6) | tick(5)^tick(6)^end: done after 2^ |  | 0
? | pre k = c propose k := c eff if c = 5 then c := 6 elseif c = 6 then c := 9 fi | tick(5)^tick(6)^tick(9) | tick(5)^tick(6)^tick(9)^end: done after 3^ |  | 0
? | pre k = c propose k := c eff if c = 5 then if k = 5 then c := 1; c := c + 1 else c := 9 fi; c := c * 10 fi; c := c + 3 | tick(5)^tick(23) | tick(5)^tick(23)^end: done after 2^ |  | 0
? | pre k = c propose k := c eff if c = 5 then c := 6; fi; | tick(5)^tick(6) | tick(5)^tick(6)^end: done after 2^ |  | 0
? | pre k = c propose k := c eff if c = 4 then c := 1 else if c = 5 then c := 2 fi fi | tick(5)^tick(2) | tick(5)^tick(2)^end: done after 2^ |  | 0
-- faults of conditions and within arms
? | pre k = c propose k := c eff if 1 div 0 = c then c := 1 fi | tick(5) | end: fault 2 in component 0 at 0^ |  | 3
? | pre k = c propose k := c eff if c = 5 then c := 6 elseif 1 div 0 = c then c := 7 fi | tick(5)^tick(6) | tick(5)^end: fault 2 in component 0 at 1^ |  | 3
? | pre k = c propose k := c eff c := 9; if c = 9 then c := c mod 0 fi | tick(5) | end: fault 2 in component 0 at 0^ |  | 3
-- refused
? | pre k = c propose k := c eff if c then c := 1 fi |  |  | E7 line 1^ | 1
? | pre k = c propose k := c eff if c = 5 then c := 6 elseif k then c := 1 fi |  |  | E7 line 1^ | 1
? | pre k = c propose k := c eff if c = 5 then c := true fi |  |  | E7 line 1^ | 1
? | pre k = c propose k := c eff if c = 5 then c := 6 else c := true fi |  |  | E7 line 1^ | 1
? | pre k = c propose k := c eff if c = 5 then k := 1 fi |  |  | E6 line 1^ | 1
? | pre k = c propose k := c eff if d = 5 then c := 1 fi |  |  | E6 line 1^ | 1
? | pre k = c propose k := c eff if c = 5 then fi |  |  | E3 line 1^ | 1
? | pre k = c propose k := c eff if c = 5 then c := 1 |  |  | E3 line 1^ | 1
? | pre k = c propose k := c eff if c = 5 c := 1 fi |  |  | E3 line 1^ | 1
? | pre k = c propose k := c eff if c = 5 then c := 1 else fi |  |  | E3 line 1^ | 1
? | pre k = c propose k := c eff if c = 5 then c := 1 else c := 2 elseif c = 3 then c := 1 fi |  |  | E3 line 1^ | 1
? | pre k = c propose k := c eff fi |  |  | E3 line 1^ | 1
? | pre k = c = k propose k := c eff c := 5 |  |  | E3 line 1^ | 1
? | pre k < c < 7 propose k := c eff c := 5 |  |  | E3 line 1^ | 1
? | pre k = ~c propose k := c eff c := 5 |  |  | E3 line 1^ | 1
? | pre ~c propose k := c eff c := 5 |  |  | E7 line 1^ | 1
? | pre -(k = c) propose k := c eff c := 5 |  |  | E7 line 1^ | 1
? | pre k /\\ k = c propose k := c eff c := 5 |  |  | E7 line 1^ | 1
? | pre k = c => c propose k := c eff c := 5 |  |  | E7 line 1^ | 1
? | pre k = (c < 7) propose k := c eff c := 5 |  |  | E7 line 1^ | 1
-- choices of depth 64 and 65
? | pre k = c propose k := c eff &if c = 5 then @63&c := 6& fi@63 | tick(5)^tick(6) | tick(5)^tick(6)^end: done after 2^ |  | 0
? | pre k = c propose k := c eff &if c = 5 then @64&c := 6& fi@64 |  |  | E4 line 1^ | 1
? | pre k = c propose k := c eff if ((c)) = 5 then & if c = 5 then @62&c := 6& fi@62& else c := 7 fi | tick(5)^tick(6)^tick(7) | tick(5)^tick(6)^tick(7)^end: done after 3^ |  | 0
? | pre & ~@62& k = c propose k := c eff c := 5 | tick(4) | end: not enabled at 0^ |  | 4
? | pre & ~@63& k = c propose k := c eff c := 5 |  |  | E4 line 1^ | 1
";
