//! Proposals of any number below one: which sources have them, and how they are printed.

pub use ioa_rows::GAME;

/// A source to check, what is printed, what is told of errors, and the exit status.
pub const CHECKS: &str = "\
automaton A(n: Int) signature output roll(d: Int) states k: Int transitions output roll pre k < 2 propose d := any(n) eff k := k + 1 | ok^ |  | 0
automaton A(n: Int) signature output roll(d: Int) states k: Int transitions output roll propose d := any((n + k) * 2) | ok^ |  | 0
automaton A signature internal roll(d: Int, const 1, e: Int) transitions internal roll propose e := 1, d := any(0) | ok^ |  | 0
automaton A signature output roll(d: Int, e: Int, b: Bool) transitions output roll propose d := any(1), b := true, e := any(2) | ok^ |  | 0
type S = seq 2 of Int type P = tuple { f: Int } automaton A signature output roll(d: Int, e: Int) states s: S; p: P transitions output roll propose d := any(len(s)), e := any(p.f) | ok^ |  | 0
automaton A signature output roll(d: Int) transitions output roll propose d := any(-1) | ok^ |  | 0
-- one expression between parentheses, and nothing after them
automaton A signature output roll(d: Int) states n: Int transitions output roll propose d := any^n |  | E3 line 2^ | 1
automaton A signature output roll(d: Int) states n: Int transitions output roll propose d := any^eff n := 1 |  | E3 line 2^ | 1
automaton A signature output roll(d: Int) transitions output roll propose d := any^ |  | E3 line 2^ | 1
automaton A signature output roll(d: Int) transitions output roll propose d := any(^) |  | E3 line 2^ | 1
automaton A signature output roll(d: Int) transitions output roll propose d := any(1^, 2) |  | E3 line 2^ | 1
automaton A signature output roll(d: Int) transitions output roll propose d := any(1^ |  | E3 line 2^ | 1
automaton A signature output roll(d: Int) transitions output roll propose d := any(1)^+ 1 |  | E3 line 2^ | 1
automaton A signature output roll(d: Int) transitions output roll propose d := any(1)^(1) |  | E3 line 2^ | 1
automaton A signature output roll(d: Int) transitions output roll propose^any(1) |  | E3 line 2^ | 1
-- it is no expression
automaton A signature output roll(d: Int) transitions output roll propose d := 1 +^any(1) |  | E3 line 2^ | 1
automaton A signature output roll(d: Int) transitions output roll propose d := -^any(1) |  | E3 line 2^ | 1
automaton A signature output roll(d: Int) transitions output roll propose d := (^any(1)) |  | E3 line 2^ | 1
automaton A signature output roll(d: Int) transitions output roll propose d := any(^any(1)) |  | E3 line 2^ | 1
automaton A signature output roll(d: Int) transitions output roll pre d =^any(1) propose d := 1 |  | E3 line 2^ | 1
automaton A signature input roll(d: Int) states k: Int transitions input roll eff k :=^any(1) |  | E3 line 2^ | 1
automaton A signature input roll states k: Int :=^any(1) transitions input roll |  | E3 line 2^ | 1
automaton A signature input roll transitions input roll invariant of A:^any(1) = 0 |  | E3 line 2^ | 1
automaton A(n: Int) signature input roll transitions input roll composition C components P: A(^any(1)) |  | E3 line 2^ | 1
automaton A signature input roll(const^any(1)) transitions input roll |  | E3 line 2^ | 1
-- it is no name
automaton^any signature input roll transitions input roll |  | E3 line 2^ | 1
automaton A signature input^any transitions input roll |  | E3 line 2^ | 1
automaton A signature input roll states^any: Int transitions input roll |  | E3 line 2^ | 1
-- it makes nothing deeper, and counts as no node
automaton A signature output roll(d: Int) transitions output roll propose d := any(&(@63&1&)@63&) | ok^ |  | 0
automaton A signature output roll(d: Int) transitions^output roll propose d := any(&(@64&1&)@64&) |  | E4 line 1^ | 1
automaton A signature output roll(d: Int) transitions output roll propose d := any(^T(1&, 1@4094&)) |  | E6 line 2^ | 1
automaton A signature output roll(d: Int) transitions output roll propose^d^:= any(T(1&, 1@4095&)) |  | E10 line 2^ | 1
automaton A signature output roll(d: Int, e: Int) transitions output roll propose d := any(1),^e^:= any(T(1&, 1@4094&)) |  | E10 line 2^ | 1
-- it names variables and formals, and is for a parameter
automaton A signature output roll(d: Int) transitions output roll propose d := any(^n) |  | E6 line 2^ | 1
automaton A signature output roll(d: Int) transitions output roll propose d := any(^d) |  | E6 line 2^ | 1
automaton A signature output roll(d: Int) states k: Int transitions output roll propose d := 1,^k := any(1) |  | E6 line 2^ | 1
-- it is of an Int
automaton A signature output roll(b: Bool) transitions output roll propose b :=^any^(2) |  | E7 line 2^ | 1
type T = enum { a, b } automaton A signature output roll(d: T) transitions output roll propose d :=^any^(2) |  | E7 line 2^ | 1
type T = tuple { f: Int } automaton A signature output roll(d: T) transitions output roll propose d :=^any^(2) |  | E7 line 2^ | 1
type T = seq 2 of Int automaton A signature output roll(d: T) transitions output roll propose d :=^any^(2) |  | E7 line 2^ | 1
automaton A signature output roll(d: Int, b: Bool) transitions output roll propose d := any(2), b :=^any^(2) |  | E7 line 2^ | 1
-- and so is its expression
automaton A signature output roll(d: Int) transitions output roll propose d := any(^true^) |  | E7 line 2^ | 1
automaton A signature output roll(d: Int) transitions output roll propose d := any(1 +^true^) |  | E7 line 2^ | 1
automaton A signature output roll(d: Int) transitions output roll propose d := any(9223372036854775807) | ok^ |  | 0
type T = enum { a, b } automaton A signature output roll(d: Int) transitions output roll propose d := any(^b^) |  | E7 line 2^ | 1
type T = seq 2 of Int automaton A signature output roll(d: Int) states s: T transitions output roll propose d := any(^s^) |  | E7 line 2^ | 1
automaton A signature output roll(b: Bool) transitions output roll propose b :=^any(^true) |  | E7 line 2^ | 1
-- it is the parameter's one proposal, and an input has none
automaton A signature output roll(d: Int) transitions output roll propose d := any(1),^d := any(1) |  | E5 line 2^ | 1
automaton A signature output roll(d: Int) transitions output roll propose d := 1,^d := any(1) |  | E5 line 2^ | 1
automaton A signature output roll(d: Int, e: Int) transitions output^roll propose d := any(1) |  | E9 line 2^ | 1
automaton A signature input roll(d: Int) transitions input^roll propose d := any(1) |  | E8 line 2^ | 1
";

/// A list and a file, what is printed, what is told of errors, and the exit status: what is proposed decides nothing of what can be done.
pub const REPLAYS: &str = "\
roll(5)^clear^roll(0)^tell(0)^tell(0) | roll(5)^roll(0)^tell(0)^tell(0)^end: done after 5^ |  | 0
roll(6)^roll(-1)^tell(5) | roll(6)^roll(-1)^tell(5)^end: done after 3^ |  | 0
roll(1)^down^up^roll(1)^tell(2) | roll(1)^down^up^roll(1)^tell(2)^end: done after 5^ |  | 0
roll(1)^roll(1)^roll(1) | roll(1)^roll(1)^end: not enabled at 2^ |  | 4
";
