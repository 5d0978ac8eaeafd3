//! Compositions of several components: texts, compatibility, and steps that span components.

/// The words after the program's name, a source, what is printed, what is told of errors, and the exit status.
pub const CHECKS: &str = "\
check f | automaton D signature input open transitions input open composition C components A: D; B: D | ok^ |  | 0
check f | automaton D signature input open transitions input open composition C components A: D; B: D; | ok^ |  | 0
check f | automaton D signature input open transitions input open composition C components A: D; B: D; composition E components A: D | ok^ |  | 0
check f | automaton D signature input open transitions input open composition C components |  | E3 line 1^ | 1
check f | automaton D signature input open transitions input open composition C components A: D^B: D |  | E3 line 2^ | 1
check f | automaton D signature input open transitions input open composition C components A: D;^; B: D |  | E3 line 2^ | 1
check f | automaton D signature input open transitions input open composition C components A: D,^B: D |  | E3 line 1^ | 1
check f | automaton D signature input open transitions input open composition C components A: D;^A: D |  | E5 line 2^ | 1
check f | automaton D signature input open transitions input open composition C components A: D;^B: E |  | E6 line 2^ | 1
check f | automaton D signature input open transitions input open composition C components A: D;^B: D(1 + true) |  | E7 line 2^ | 1
-- 32 and 33 components
check f | automaton D signature input open transitions input open composition C components A: D&; A#: D@31& | ok^ |  | 0
check f | automaton D signature input open transitions input open composition C components A: D&; A#: D@32& |  | E10 line 1^ | 1
-- compatible: no output of two, no internal action of one that another has
replay f | automaton D signature output open transitions output open composition C components A: D; B: D |  | E14 components 0 and 1 on open^ | 1
replay f | automaton D signature internal drop transitions internal drop composition C components A: D; B: D |  | E14 components 0 and 1 on drop^ | 1
replay f | automaton D signature internal drop transitions internal drop automaton E signature input drop transitions input drop composition C components B: E; A: D |  | E14 components 0 and 1 on drop^ | 1
replay f | automaton D signature output send(k: Int, m: Int) transitions output send propose k := 0, m := 0 automaton E signature output send(j: Int, n: Int) transitions output send propose j := 0, n := 0 composition C components A: D; B: E |  | E14 components 0 and 1 on send^ | 1
replay f | automaton D signature output send(k: Int) transitions output send propose k := 0 automaton E signature output send(k: Bool) transitions output send composition C components A: D; B: E | end: done after 0^ |  | 0
replay f | automaton D signature output send(k: Int) transitions output send propose k := 0 automaton E signature output send transitions output send composition C components A: D; B: E | end: done after 0^ |  | 0
replay f | automaton I signature input go transitions input go automaton D signature output go transitions output go composition C components A: I; B: D; E: I; F: D |  | E14 components 1 and 3 on go^ | 1
check f | automaton D signature output open; output close transitions output open output close composition C components A: D; B: D | ok^ |  | 0
replay f | automaton D signature output open; output close transitions output close output open composition C components A: D; B: D |  | E14 components 0 and 1 on open^ | 1
-- arguments before clashes, and clashes before starts
replay f | automaton D(n: Int) signature output open transitions output open composition C components A: D(1); B: D(true) |  | E12 component 1^ | 1
replay f | automaton D(n: Int) signature output open transitions output open composition C components A: D(1); B: D(1 div 0) |  | E16 component 1 fault 2^ | 1
replay f | automaton D signature output open states n: Int := 1 div 0 transitions output open composition C components A: D; B: D |  | E14 components 0 and 1 on open^ | 1
replay f | automaton D signature input open transitions input open automaton E signature input open states n: Int := 1 div 0 transitions input open composition C components A: D; B: E |  | E16 component 1 fault 2^ | 1
";

/// A source, a list, what is printed, what is told of errors, and the exit status.
pub const REPLAYS: &str = "\
-- the first fault in the order of components, and nothing changes
type S = seq 1 of Int automaton Go signature output go states n: Int transitions output go eff n := n + 1 automaton Pick signature input go states s: S; x: Int transitions input go eff x := at(s, 0) automaton Top signature input go states x: Int := 9223372036854775807 transitions input go eff x := x + 1 composition Two components G: Go; P: Pick; T: Top | go | end: fault 4 in component 1 at 0^ |  | 3
type S = seq 1 of Int automaton Go signature output go states n: Int transitions output go eff n := n + 1 automaton Full signature input go states s: S transitions input go eff s := append(s, 1) composition Both components G: Go; F: Full | go^go | go^end: fault 5 in component 1 at 1^ |  | 3
type S = seq 1 of Int automaton Go signature output go; output see(k: Int) states n: Int transitions output go pre n < 1 eff n := n + 1 output see pre k = n propose k := n automaton Full signature input go states s: S transitions input go eff s := append(s, 1) composition Both components F: Full; G: Go | go^see(1)^go | go^see(1)^end: not enabled at 2^ |  | 4
-- effects read the state before the action, each component its own
automaton A signature output put(x: Int); input take(x: Int) states n: Int := 1 transitions output put pre x = n propose x := n eff n := n + 1 input take eff n := x automaton B signature input put(x: Int); output take(x: Int) states n: Int transitions input put eff n := n + x output take pre x = n propose x := n eff n := 0 composition C components P: A; Q: B | put(1)^put(2)^take(3)^put(3)^take(3)^take(1) | put(1)^put(2)^take(3)^put(3)^take(3)^end: not enabled at 5^ |  | 4
-- an action of some components alone, of none, and one without an owner; internal actions leave no trace
automaton A signature input tell(x: Int); internal rest states n: Int transitions input tell eff n := x internal rest pre n > 0 eff n := 0 automaton B signature input tell(x: Bool); output sing states b: Bool transitions input tell eff b := x output sing pre b composition C components P: A; Q: B | tell(2)^tell(true)^sing^tell(1, 1) | tell(2)^tell(true)^sing^end: not an action at 3^ |  | 4
automaton A signature internal rest states n: Int transitions internal rest pre n < 2 eff n := n + 1 automaton B signature output sing transitions output sing composition C components P: A; Q: B | rest^sing^rest^sing^rest | sing^sing^end: not enabled at 4^ |  | 4
";
