//! What people write who are new to the language, and with which words `--explain` tells them.

use crate::tests::shelf::{Given, Ran, run};
use std::alloc::Global;
use std::process::Abort;
use std::sync::Wait;
use std::thread::Threads;
use std::time::Clock;

/// A counter, and one who watches it, without a mistake.
const SOURCE: &str = r#"% a counter and one who watches
type Ints = seq 4 of Int
type Colour = enum { red, green }
type Pair = tuple { a: Int, b: Bool }
automaton Counter(start: Int)
signature
  output tick(k: Int); input reset; internal rest(k: Int)
states c: Int := start; q: Ints; light: Colour; p: Pair
transitions
  output tick
    pre k = c /\ c < 9
    propose k := c
    eff if c < 7 then
        c := c + 1
      else
        c := start
      fi;
      q := empty(Ints)
  input reset
    eff c := start
  internal rest
    pre k = 0 /\ c = 8
    propose k := any(3)
    eff c := 0
automaton Watch
signature input tick(k: Int)
states seen: Int
transitions
  input tick eff seen := k
invariant of Watch: seen < 9
composition One
components A: Counter(5); W: Watch
"#;

/// The words; a part of the source, and what stands in its place; standard input; how that begins which is told behind what is told without the flag; and the
/// words that stand in it, parted by ` ^ `. A line break is written `^`.
const MISTAKES: &str = r#"
-- signs and tokens
check --compositions f |       fi;^      q |       ;^      q |  | f:19: E3:  | `input` does not fit ^ `fi` is missing ^ the `if` of line 13 is open
check --compositions f |       fi;^ |       fi^ |  | f:18: E3:  | `q` does not fit ^ `;` is missing
check --compositions f | k = c /\ | k == c /\ |  | f:11: E3:  | `=` ^ equality is one `=`
check --compositions f | eff c := start | eff c = start |  | f:20: E3:  | `=` ^ an assignment is written `:=`
check --compositions f | pre k = c | pre k := c |  | f:11: E3:  | `:=` ^ equality is written `=`
check --compositions f | k = c /\ c < 9 | k = c and c < 9 |  | f:11: E3:  | `and` ^ write `/\`
check --compositions f | k = c /\ c < 9 | k = c && c < 9 |  | f:11: E2:  | `&&` ^ `/\`
check --compositions f | k = c /\ c < 9 | k != c |  | f:11: E2:  | `!=` ^ `~=`
check --compositions f |   output tick^    pre |   output tick(k)^    pre |  | f:10: E3:  | `(` ^ in the signature
check --compositions f | input reset; internal | input reset, internal |  | f:7: E3:  | `,` ^ `;` stands between these
check --compositions f | output tick(k: Int); input | output tick(k: Int) input |  | f:7: E3:  | `input` ^ `;` is missing
check --compositions f | c: Int := start; q: Ints | c: Int := start, q: Ints |  | f:8: E3:  | `,` ^ `;` stands between these
check --compositions f |       else^        c := start^ |       else if c < 8 then^        c := start^ |  | f:19: E3:  | `input` ^ the `if` of line 13 is open ^ `elseif`
check --compositions f | light: Colour | last: Colour |  | f:8: E3:  | `last` ^ reserved word
check --compositions f |     eff if c < 7 |     effect if c < 7 |  | f:13: E3:  | `effect` ^ write `eff`
check --compositions f | % a counter | // a counter |  | f:1: E2:  | `//` ^ `%`
check --compositions f | k = c /\ c < 9 | k = c = 9 |  | f:11: E3:  | `=` ^ comparisons stand in no row
check --compositions f | c := c + 1 | p.a := 1 |  | f:14: E3:  | `.` ^ a field is not assigned to
check --compositions f | propose k := any(3) | propose k := any(3) + 1 |  | f:23: E3:  | `+` does not fit ^ here may stand
check --compositions f | pre k = c | pre \A x: k = c |  | f:11: E2:  | `\A` ^ no quantifiers
check --compositions f | W: Watch^ | W: Watch crash down^ |  | f:33: E3:  | the source ends here ^ `recover`
check --compositions f | c := c + 1 | c := c / 2 |  | f:14: E2:  | `/` ^ `div`
check --compositions f | empty(Ints) | append(q, (1) |  | f:19: E3:  | `input` does not fit ^ `)` is missing ^ the `(` of line 18 is open
check --compositions f | seen := k | seen := "k" |  | f:29: E2:  | `"` ^ there are no texts
check f | c := c + 1 | c := c + 1 c := c |  | f:14: E3:  | `c` does not fit ^ `;` is missing
check f | c := c + 1 | c += 1 |  | f:14: E3:  | `+` does not fit ^ `:=`
check f | c := c + 1 | c++ |  | f:14: E3:  | `+` does not fit ^ `:=`
check f | k = c /\ | k = q[0] /\ |  | f:11: E2:  | `[` ^ `at(q, i)`
check f | automaton Counter | Automaton Counter |  | f:5: E3:  | `Automaton` ^ write `automaton`
check f |     pre k = c |     precondition k = c |  | f:11: E3:  | `precondition` ^ write `pre`
check f | k = c /\ | k = len q /\ |  | f:11: E3:  | `q` does not fit ^ `(` is missing
check f | c := c + 1 | append(q, 1) |  | f:14: E3:  | `append` does not fit ^ here may stand a name, `if`
check f | c := c + 1^ | ^ |  | f:15: E3:  | `else` does not fit ^ here may stand a name, `if`
check f | reset; internal | reset(const start + 1); internal |  | f:7: E3:  | `+` does not fit ^ here may stand `,` or `)`
check f | seq 4 of Int | seq of Int |  | f:2: E3:  | `of` does not fit ^ here may stand a number
check f | seq 4 of Int | seq 4 of seq 4 of Int |  | f:2: E3:  | `seq` does not fit ^ here may stand a name
check f | A: Counter(5) | Counter(5) |  | f:32: E3:  | `(` does not fit ^ here may stand `:`
check f | states seen: Int | states seen stable: Int |  | f:27: E3:  | `stable` does not fit ^ here may stand `:`
check f | states seen: Int | seen: Int |  | f:27: E3:  | `seen` does not fit ^ `states`
check f | transitions^  input tick |   input tick |  | f:28: E3:  | `input` does not fit ^ `transitions` is missing
check f | components A: Counter | A: Counter |  | f:32: E3:  | `A` does not fit ^ `components` is missing
-- names
check --compositions f | c := c + 1 | c := d + 1 |  | f:14: E6:  | `d` is declared nowhere
check --compositions f | seen: Int | seen: Nat |  | f:27: E6:  | `Nat` ^ write `Int`
check --compositions f | type Ints = seq 4 of Int^ |  |  | f:7: E6:  | `Ints` is declared nowhere
check --compositions f | c := c + 1 | k := c + 1 |  | f:14: E6:  | `k` is a parameter of tick ^ only variables
check --compositions f | c := c + 1 | start := c + 1 |  | f:14: E6:  | `start` is a formal of Counter ^ only variables
check --compositions f | output tick(k: Int); input | output tick(k: Int); output tick(const red, k: Int); input |  | f:7: E5:  | `tick` ^ line 7 ^ an entry of Counter
check --compositions f | light: Colour | red: Colour |  | f:8: E5:  | `red` ^ line 3 ^ a name of the enumeration Colour
check --compositions f | W: Watch | W: Watcher |  | f:32: E6:  | `Watcher` is declared nowhere ^ is `Watch` meant?
check --compositions f | seen < 9 | seen < c |  | f:30: E6:  | `c` is a variable of Counter ^ line 8
check --compositions f | invariant of Watch | invariant of One |  | f:30: E6:  | `One` is a composition
-- types
check --compositions f | c := c + 1 | c := c < 1 |  | f:14: E7:  | `c` is of type Int ^ of type Bool
check --compositions f | c := c + 1 | c := red |  | f:14: E7:  | `c` is of type Int ^ `red` is of type Colour
check --compositions f | if c < 7 then | if c then |  | f:13: E7:  | a condition is of type Bool ^ `c` is of type Int
check --compositions f | k = c /\ c < 9 | k = p |  | f:11: E7:  | `=` ^ Int ^ `p` is of type Pair
check --compositions f | c := c + 1 | p := Pair(1) |  | f:14: E7:  | Pair has 2 fields ^ 1 is given
check f | q := empty(Ints) | q := append(q, true) |  | f:18: E7:  | `append` wants type Int ^ `true` is of type Bool
check f | q := empty(Ints) | q := empty(Int) |  | f:18: E7:  | `empty` wants a type of sequences ^ `Int`
check f | k = c /\ | member(q, 1) /\ |  | f:11: E7:  | `member` ^ `q` is of type Ints
check f | propose k := any(3) | propose k := any(true) |  | f:23: E7:  | the bound of `any` is of type Int ^ `true` is of type Bool
-- entries and transitions
check --compositions f |     propose k := c^ |  |  | f:10: E9:  | `k` ^ `tick`
check --compositions f |   input reset^    eff |   input reset^    pre c > 0^    eff |  | f:19: E8:  | `reset` is an input ^ neither `pre` nor `propose`
check --compositions f |   input reset^    eff c := start^ |  |  | f:7: E8:  | `reset` has no transition in Counter
check --compositions f | output tick(k: Int); input reset; | output tick(k: Int); |  | f:19: E8:  | no entry `reset` ^ Counter
check --compositions f |   input reset^    eff |   output reset^    eff |  | f:19: E8:  | `reset` is an input ^ on line 7 ^ an output here
check --compositions f | automaton Watch^signature input | automaton Watch^signature output |  | f:29: E8:  | `tick` is an output ^ an input here
-- components, hidden names and compositions
check --compositions f | signature input tick(k: Int)^states seen: Int^transitions^  input tick eff seen := k | signature output tick(k: Int)^states seen: Int^transitions^  output tick pre k = seen propose k := seen eff seen := k |  | f:32: E14:  | `tick` ^ an output of A ^ an output of W
check --compositions f | A: Counter(5); W | A: Counter(5); B: Counter(6); W |  | f:32: E14:  | `tick` ^ an output of A ^ an output of B ^ `const` formal
check --compositions f | A: Counter(5) | A: Counter(true) |  | f:32: E12:  | Counter(start: Int) ^ type Int for `start` ^ of type Bool
check --compositions f | A: Counter(5) | A: Counter |  | f:32: E12:  | Counter(start: Int) ^ 1 argument ^ 0 are given
check --compositions f | W: Watch^ | W: Watch^hidden tock^ |  | f:33: E15:  | `tock` ^ is `tick` meant?
check --compositions f | W: Watch^ | W: Watch^hidden reset^ |  | f:33: E15:  | `reset` is an input of A ^ only outputs are hidden
run --comp Two --alone f |  |  |  | f: E17:  | `Two` ^ there is `One`
check --compositions f | W: Watch^ | W: Watch crash tick recover up^ |  | f:32: E13:  | `tick` is the name of an entry of Watch ^ line 26
check --compositions f | A: Counter(5) | A: Counter(5, 6) |  | f:32: E12:  | Counter(start: Int) ^ 1 argument ^ 2 are given
-- lists and logs that cannot be read, and actions that no component has
replay f |  |  | tick(5)^tick(true)^ | list, line 2: | no component has tick(true) ^ A has `tick(k: Int)`
replay f |  |  | tick(5)^tick^ | list, line 2: | no component has tick ^ A has `tick(k: Int)`
replay f |  |  | tick(5)^tik(6)^ | list, line 2: | no component has tik(6) ^ is `tick` meant?
replay f |  |  | tick(5)^tick(6^ | list:2: L2:  | `tick(5)`
replay --log f |  |  | tick(5)^tick(6)^ | log:1: L1:  | a log is wanted here
replay f |  |  | {"act":"tick(5)","who":0}^{"end":"done after 1"}^ | list:1: L2:  | a list is wanted here ^ `--log`
replay --log f |  |  | {"act":"tick(5)","who":1}^{"end":"done after 1"}^ | log:1: L3:  | tick(5) is performed by A, worker 0
replay --log f |  |  | {"act":"tick(5)","who":0,"time":12}^{"end":"done after 1"}^ | log:1: L2:  | `{"act":"tick(5)","who":0}`
replay --log f |  |  | {"act":"tick(5)","who":"A"}^{"end":"done after 1"}^ | log:1: L2:  | `{"act":"tick(5)","who":0}`
replay --log f |  |  | {'act':'tick(5)','who':0}^{'end':'done after 1'}^ | log:1: L1:  | no JSON ^ `{"act":"tick(5)","who":0}`
-- how a list, a log, a monitor or an invariant ends
replay f |  |  | tick(5)^tick(5)^ | list, line 2: | the precondition of tick(5) in A is false ^ f, line 10: ^ A.c = 6
replay --log f |  |  | {"act":"tick(2)","who":0}^{"act":"tick(3)","who":0}^{"end":"done after 2"}^ | log:1: L4:  | the precondition of tick(2) in A is false ^ A.c = 5
replay --log f |  |  | {"act":"tick(5)","who":0}^{"end":"done after 2"}^ | log:2: L4:  | the run's end is: done after 1
replay --log f |  |  | {"act":"tick(5)","who":0}^ | ^L5:  | its end is missing
replay --log --invariants f | seen < 9 | seen < 6 | {"act":"tick(5)","who":0}^{"act":"tick(6)","who":0}^{"end":"done after 2"}^ | invariants asked: 1 in each of 3 states^log, line 2: | an invariant of W is broken ^ seen < 6 ^ W.seen = 6
replay --log --invariants f | seen < 9 | 10 div seen > 0 | {"act":"tick(5)","who":0}^{"end":"done after 1"}^ | invariants asked: 1 in each of 1 states^ | an invariant of W has fault 2: the divisor is 0
replay f | pre k = c /\ c < 9 | pre k = head(q) | tick(5)^ | list, line 1: | in the precondition of tick(5) in A: the sequence is empty ^ A.q = Ints[]
replay f | q := empty(Ints) | q := append(append(append(q, 1), 1), 1) | tick(5)^tick(6)^ | list, line 2: | in the effect of tick(6) in A: the sequence is full
replay f | c := c + 1 | c := c * 9223372036854775807 | tick(5)^ | list, line 1: | in the effect of tick(5) in A: the result does not fit 64 bits
monitor f |  |  | {"act":"tick(5)","who":0}^{"end":"done after 1"}^ | f:7: L7:  | `rest` is an internal action of A
monitor --comp One2 f | W: Watch^ | W: Watch^composition One2 components W: Watch^ | {"act":"tock","who":0}^{"end":"done after 1"}^ | One2: 0 tick, 1 passed over^the specification has 0 of 1 actions of the log | nothing was specified
-- warnings
check f | pre k = c /\ c < 9 | pre c < 9 |  | warning: f, line 10:  | k ^ tick
check --compositions f | c := c + 1^ | c := c % 3^ |  | warning: f, line 14:  | `mod`
-- command lines and files
replay --invariants f |  |  | tick(5)^ |  | --log
run --alone --turns -1 f |  |  |  |  | -1
run --alone --turns abc f |  |  |  |  | a whole number from 0 to 100000
run --alone --seed 9 f |  |  |  |  | 64 hexadecimal digits
check g |  |  |  | g was not read | there is none
-- runs in which some actions are never performed, or in which another composition than the first is taken
run --alone --turns 20 --reports f | any(3) | any(0) |  | no `rest` of A was performed^ | `rest` ^ these are enabled ^ A: tick(
run --alone --turns 20 --reports f | propose k := c^ | propose k := c + 1^ |  | no `tick` of A was performed^no `rest` of A was performed^ | `tick` ^ nothing more happens without an input
run --alone --turns 20 f | c < 9 | c < 0 |  | no `tick` of A was performed^no `rest` of A was performed^ | `tick` ^ nothing more happens without an input
run --alone --turns 5 f | W: Watch^ | W: Watch^composition Spec components W: Watch^ |  | none is enabled | nothing more happens without an input ^ no composition was named ^ `Spec` was taken ^ the last of 2
"#;

/// The lines of a column.
fn lines_of(rt: &impl Abort, alloc: Global, column: &str) -> String {
    let mut text = String::new(alloc);
    for letter in column.chars() {
        let letter = if letter == '^' { '\n' } else { letter };
        text.push(letter).expect(rt, "memory");
    }
    text
}

/// The source, with another text in the place of this part.
fn mistaken(rt: &impl Abort, alloc: Global, part: &str, other: &str) -> String {
    let (before, after) = SOURCE.split_once(part).expect(rt, "the part");
    format!(in alloc; "{before}{other}{after}").expect(rt, "memory")
}

/// What the program prints by these words.
fn ran<H: Abort + Threads + Wait + Clock + Sync>(
    rt: &H,
    alloc: Global,
    words: &str,
    file: &str,
    list: &str,
) -> Ran {
    let given = Given {
        words,
        file: file.as_bytes(),
        list,
    };
    run(rt, alloc, &given)
}

/// What is told by these words with the flag, and how that begins without it.
fn told<H: Abort + Threads + Wait + Clock + Sync>(
    rt: &H,
    alloc: Global,
    words: &str,
    file: &str,
    list: &str,
) -> (Vec<u8>, Vec<u8>) {
    let without = ran(rt, alloc, words, file, list);
    let flagged = format!(in alloc; "{words} --explain").expect(rt, "memory");
    let with = ran(rt, alloc, flagged.as_str(), file, list);
    assert!(rt; with.output == without.output, "output of {words}");
    assert!(rt; with.status == without.status, "status of {words}");
    (with.errors, without.errors)
}

fn expect_words<H: Abort + Threads + Wait + Clock + Sync>(rt: &H, alloc: Global, row: &str) {
    let mut columns = row.split(" | ");
    let words = columns.next().unwrap_or("");
    let part = lines_of(rt, alloc, columns.next().unwrap_or(""));
    let other = lines_of(rt, alloc, columns.next().unwrap_or(""));
    let list = lines_of(rt, alloc, columns.next().unwrap_or(""));
    let begins = lines_of(rt, alloc, columns.next().unwrap_or(""));
    let file = mistaken(rt, alloc, part.as_str(), other.as_str());
    let (errors, mut front) = told(rt, alloc, words, file.as_str(), list.as_str());
    front
        .extend_from_slice(begins.as_bytes())
        .expect(rt, "memory");
    assert!(rt;
        errors.as_slice().starts_with(front.as_slice()),
        "beginning in {row}"
    );
    let errors = str::from_utf8(errors.as_slice()).expect(rt, "a text");
    for word in columns.next().unwrap_or("").split(" ^ ") {
        assert!(rt; errors.split_once(word).is_some(), "{word} in {row}");
    }
}

#[test]
fn mistakes_are_told_by_their_words(rt: HostRuntime) {
    for row in MISTAKES.lines() {
        if !row.is_empty() && !row.starts_with("-- ") {
            expect_words(&rt, rt.alloc(), row);
        }
    }
}
