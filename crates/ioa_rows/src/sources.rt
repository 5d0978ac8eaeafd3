//! Small sources that tests replay and run.

/// The counter that most tests replay.
pub const COUNTER: &str =
    "automaton Counter(start: Int) signature output tick(k: Int); input reset \
    states c: Int := start transitions output tick pre k = c propose k := c eff c := c + 1 \
    input reset eff c := start composition One components A: Counter(5)";

/// A die that is rolled twice between crashes, and one who sums up.
pub const GAME: &str = "\
automaton Dice(n: Int) signature output roll(d: Int) states stable k: Int \
transitions output roll pre k < 2 propose d := any(n) eff k := k + 1 \
automaton Keep signature input roll(d: Int); output tell(s: Int); internal clear states sum: Int \
transitions input roll eff sum := sum + d output tell pre s = sum propose s := sum internal clear pre sum > 0 eff sum := 0 \
composition Game components D: Dice(6) crash down recover up; K: Keep";
