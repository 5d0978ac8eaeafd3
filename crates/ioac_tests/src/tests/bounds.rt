//! Both sides of each limit, in sources that are made of repeated pieces.

/// A source, a list, what is printed, what is told of errors, and the exit status.
pub const ROWS: &str = "\
-- the text
 |  |  | E17^ | 1
% nothing but a comment |  |  | E17^ | 1
 @1048576 |  |  | E17^ | 1
 @1048577 |  |  | E1^ | 1
\u{7f}IOA |  |  | O3^ | 1
 \u{7f}IOA |  |  | E2 line 1^ | 1
automaton A signature internal \u{0} |  |  | E2 line 1^ | 1
type T = enum { a b } |  |  | E3 line 1^ | 1
automaton^A^ |  |  | E3 line 3^ | 1
automaton A signature internal a transitions internal a pre ((( |  |  | E3 line 1^ | 1
automaton A signature internal a transitions internal a pre &(@1048516 |  |  | E4 line 1^ | 1
automaton A signature internal a transitions internal a pre &(@400000&true&)@400000 |  |  | E4 line 1^ | 1
-- 400 tokens, of which the last is one too many
type T = enum { &a#, @196&b }^} |  |  | E3 line 2^ | 1
-- names of 64 and of 65 letters
automaton &A@64& signature internal a transitions internal a composition One components A: &A@64 |  | end: done after 0^ |  | 0
automaton B signature internal b transitions internal b^automaton &A@65& signature internal a transitions internal a |  |  | E2 line 2^ | 1
-- expressions of depth 64 and 65
automaton Counter(start: Int) signature output tick(k: Int) states c: Int := &(@63&1&)@63& transitions output tick pre k = c propose k := c eff c := c + 1 composition One components A: Counter(0) |  | end: done after 0^ |  | 0
automaton Counter(start: Int) signature output tick(k: Int) states c: Int := &(@64&1&)@64& transitions output tick pre k = c propose k := c eff c := c + 1 composition One components A: Counter(0) |  |  | E4 line 1^ | 1
automaton Counter(start: Int) signature output tick(k: Int) states c: Int := &1+@63&1 transitions output tick pre k = c propose k := c eff c := c + 1 composition One components A: Counter(0) |  | end: done after 0^ |  | 0
automaton Counter(start: Int) signature output tick(k: Int) states c: Int := &1+@64&1 transitions output tick pre k = c propose k := c eff c := c + 1 composition One components A: Counter(0) |  |  | E4 line 1^ | 1
automaton Counter(start: Int) signature output tick(k: Int) states c: Int := &(@400000&true&)@400000& transitions output tick pre k = c propose k := c eff c := c + 1 composition One components A: Counter(0) |  |  | E4 line 1^ | 1
automaton B signature internal b transitions internal b^automaton Counter(start: Int) signature output tick(k: Int) states c: Int := &^(@64&1&)@64& transitions output tick pre k = c propose k := c eff c := c + 1 composition One components A: Counter(0) |  |  | E4 line 2^ | 1
-- an effect of 63 and of 64 choices within each other: the line is that of the automaton's first word
automaton B signature internal b transitions internal b^automaton A signature internal a states v: Int transitions internal a eff^&if true then @63&v := 1& fi@63& composition One components X: A |  | end: done after 0^ |  | 0
automaton B signature internal b transitions internal b^automaton A signature internal a states v: Int transitions internal a eff^&if true then @64&v := 1& fi@64& composition One components X: A |  |  | E4 line 2^ | 1
-- 64 and 65 entries
automaton A signature internal a&; input e#@63& transitions internal a& input e#@63& composition One components A: A | e62 | e62^end: done after 1^ |  | 0
automaton A signature internal a&; input e#@64& transitions internal a& input e#@64& composition One components A: A |  |  | E10 line 1^ | 1
-- 256 and 257 automata and compositions
automaton A# signature internal a transitions internal a @255&composition One components A: A254 |  | end: done after 0^ |  | 0
automaton A# signature internal a transitions internal a @256&composition One components A: A254 |  |  | E10 line 1^ | 1
automaton A signature internal a transitions internal a& composition C# components A: A@255 |  | end: done after 0^ |  | 0
automaton A signature internal a transitions internal a& composition C# components A: A@256 |  |  | E10 line 1^ | 1
-- 4,096 and 4,097 nodes of a precondition, of proposals together, and of an effect
automaton Counter signature output tick(k: Int, j: Int) states c: Int transitions output tick pre k = ((1+1+1+1+1+1+1)+(1+1+1+1+1+1+1)+(1+1+1+1+1+1+1)+(1+1+1+1+1+1+1)+(1+1+1+1+1+1+1)+(1+1+1+1+1+1+1))&+((1+1+1+1+1+1+1)+(1+1+1+1+1+1+1)+(1+1+1+1+1+1+1)+(1+1+1+1+1+1+1)+(1+1+1+1+1+1+1)+(1+1+1+1+1+1+1))@44& propose k := c, j := (1) eff c := 1 composition One components A: Counter |  | end: done after 0^ |  | 0
automaton Counter signature output tick(k: Int, j: Int) states c: Int transitions output tick pre (k) = ((1+1+1+1+1+1+1)+(1+1+1+1+1+1+1)+(1+1+1+1+1+1+1)+(1+1+1+1+1+1+1)+(1+1+1+1+1+1+1)+(1+1+1+1+1+1+1))&+((1+1+1+1+1+1+1)+(1+1+1+1+1+1+1)+(1+1+1+1+1+1+1)+(1+1+1+1+1+1+1)+(1+1+1+1+1+1+1)+(1+1+1+1+1+1+1))@44& propose k := c, j := (1) eff c := 1 composition One components A: Counter |  |  | E10 line 1^ | 1
automaton Counter signature output tick(k: Int, j: Int) states c: Int transitions output tick pre k = c propose k := ((1+1+1+1+1+1+1)+(1+1+1+1+1+1+1)+(1+1+1+1+1+1+1)+(1+1+1+1+1+1+1)+(1+1+1+1+1+1+1)+(1+1+1+1+1+1+1))&+((1+1+1+1+1+1+1)+(1+1+1+1+1+1+1)+(1+1+1+1+1+1+1)+(1+1+1+1+1+1+1)+(1+1+1+1+1+1+1)+(1+1+1+1+1+1+1))@44&, j := (1) eff c := 1 composition One components A: Counter |  | end: done after 0^ |  | 0
automaton Counter signature output tick(k: Int, j: Int) states c: Int transitions output tick pre k = c propose k := (((1+1+1+1+1+1+1)+(1+1+1+1+1+1+1)+(1+1+1+1+1+1+1)+(1+1+1+1+1+1+1)+(1+1+1+1+1+1+1)+(1+1+1+1+1+1+1))&+((1+1+1+1+1+1+1)+(1+1+1+1+1+1+1)+(1+1+1+1+1+1+1)+(1+1+1+1+1+1+1)+(1+1+1+1+1+1+1)+(1+1+1+1+1+1+1))@44&), j := (1) eff c := 1 composition One components A: Counter |  |  | E10 line 1^ | 1
automaton Counter signature output tick(k: Int, j: Int) states c: Int transitions output tick pre k = c propose k := c, j := (1) eff &c := 1;@2048& composition One components A: Counter |  | end: done after 0^ |  | 0
automaton Counter signature output tick(k: Int, j: Int) states c: Int transitions output tick pre k = c propose k := c, j := (1) eff &c := 1;@2047&c := (1) composition One components A: Counter |  |  | E10 line 1^ | 1
-- lists and traces of more than 4,096 bytes
automaton Counter(start: Int) signature output tick(k: Int) states c: Int := start transitions output tick pre k = c propose k := c eff c := c + 1 composition One components A: Counter(0) | tick(#)^@2000 | tick(#)^@2000&end: done after 2000^ |  | 0
automaton Counter(start: Int) signature output tick(k: Int) states c: Int := start transitions output tick pre k = c propose k := c eff c := c + 1 composition One components A: Counter(0) | tick(&0000000000@100000&0)\r^tick(1) | tick(#)^@2&end: done after 2^ |  | 0
-- faults of an effect and of a precondition
automaton Counter(start: Int) signature output tick(k: Int) states c: Int := start + 9223372036854775806 transitions output tick pre k = c propose k := c eff c := c + 1 composition One components A: Counter(0) | tick(9223372036854775806)^tick(9223372036854775807) | tick(9223372036854775806)^end: fault 1 in component 0 at 1^ |  | 3
automaton A signature output a(k: Int); input b states c: Int transitions output a pre k + c = c propose k := 0 eff c := c + 1 input b eff c := 0 - 5 composition One components A: A | a(0)^a(9223372036854775807)^b^ | a(0)^end: fault 1 in component 0 at 1^ |  | 3
";
