//! Runs: what they print, by their words and their scripts, on one thread and, where that is the same in every schedule, on threads.

use crate::tests::shelf::{COUNTER, Ran, expect_answer, wanted_in, words};
use ioa_device::Counted;
use ioa_rows::{column, columns, is_row};
use ioac::command::command;
use ioac::{Store, StoreErr, Tee};
use std::alloc::{AllocError, Global};
use std::process::Abort;
use std::sync::Wait;
use std::thread::Threads;
use std::time::Clock;

/// A component that rolls, twice at most, and one that adds and tells.
const GAME: &str = "\
automaton Dice(n: Int) signature output roll(d: Int) states k: Int \
transitions output roll pre k < 2 propose d := any(n) eff k := k + 1 \
automaton Keep signature input roll(d: Int); output tell(s: Int); internal clear states sum: Int \
transitions input roll eff sum := sum + d output tell pre s = sum propose s := sum internal clear pre sum > 0 eff sum := 0 \
composition Zero components D: Dice(0); K: Keep \
composition Game components D: Dice(6); K: Keep";

/// A component whose action faults in another one.
pub const FAULTY: &str = "\
type S = seq 1 of Int \
automaton Go signature output go states n: Int transitions output go eff n := n + 1 \
automaton Pick signature input go states s: S; x: Int transitions input go eff x := at(s, 0) \
composition Two components G: Go; P: Pick";

/// A component of which one proposal faults, one draws below no number, and one action is enabled once.
const LOSSES: &str = "\
type S = seq 1 of Int \
automaton Pick(n: Int) signature output pick(x: Int); output draw(x: Int); internal count states s: S; c: Int \
transitions output pick propose x := at(s, 0) output draw propose x := any(n) internal count pre c < 1 eff c := c + 1 \
composition Nothing components P: Pick(0)";

/// The words after `run f`, the file of words `w`, the script `l`, what is printed, what is told of errors, and the exit status.
const GAMES: &str = "\
--alone --turns 3 --words w | 9 17 4^1 2^ |  | roll(5)^roll(0)^tell(0)^tell(0)^end: done after 5^ |  | 0
--alone --turns 3 --words w --reports | 9 17 4^1 2 |  | roll(5)^roll(0)^tell(0)^tell(0)^end: done after 5^ | D: 2 committed, 1 idle, 0 stale, turns done^K: 3 committed, 0 idle, 0 stale, turns done^environment: 0 committed, 3 idle, 0 stale, turns done^D: roll: 3 tried, 0 nothing proposed, 0 proposal faulted, 1 not enabled, 0 stale, 2 performed^K: tell: 2 tried, 0 nothing proposed, 0 proposal faulted, 0 not enabled, 0 stale, 2 performed^K: clear: 1 tried, 0 nothing proposed, 0 proposal faulted, 0 not enabled, 0 stale, 1 performed^ | 0
--alone --turns 3 --words w --log | 9 17 4^1 2 |  | {\"act\":\"roll(5)\",\"who\":0}^{\"act\":\"clear\",\"who\":1}^{\"act\":\"roll(0)\",\"who\":0}^{\"act\":\"tell(0)\",\"who\":1}^{\"act\":\"tell(0)\",\"who\":1}^{\"end\":\"done after 5\"}^ |  | 0
--alone --turns 3 --words w --comp Zero --reports | 9 17 4^1 2 |  | tell(0)^tell(0)^end: done after 2^ | D: 0 committed, 3 idle, 0 stale, turns done^K: 2 committed, 1 idle, 0 stale, turns done^environment: 0 committed, 3 idle, 0 stale, turns done^D: roll: 3 tried, 3 nothing proposed, 0 proposal faulted, 0 not enabled, 0 stale, 0 performed^K: tell: 2 tried, 0 nothing proposed, 0 proposal faulted, 0 not enabled, 0 stale, 2 performed^K: clear: 1 tried, 0 nothing proposed, 0 proposal faulted, 1 not enabled, 0 stale, 0 performed^ | 0
--turns 3 --words w --comp Zero --reports | 9 17 4^1 2 |  | tell(0)^tell(0)^end: done after 2^ | D: 0 committed, 3 idle, 0 stale, turns done^K: 2 committed, 1 idle, 0 stale, turns done^environment: 0 committed, 3 idle, 0 stale, turns done^D: roll: 3 tried, 3 nothing proposed, 0 proposal faulted, 0 not enabled, 0 stale, 0 performed^K: tell: 2 tried, 0 nothing proposed, 0 proposal faulted, 0 not enabled, 0 stale, 2 performed^K: clear: 1 tried, 0 nothing proposed, 0 proposal faulted, 1 not enabled, 0 stale, 0 performed^ | 0
-- lines past the components' are not looked at, and words that are used up, or of a line that is missing, are 0
--alone --turns 3 --words w | 9 17 4^1 2^x |  | roll(5)^roll(0)^tell(0)^tell(0)^end: done after 5^ |  | 0
--alone --turns 3 --words w |  |  | roll(0)^tell(0)^roll(0)^tell(0)^tell(0)^end: done after 5^ |  | 0
--alone --turns 3 --words w | ^1 |  | roll(0)^roll(0)^tell(0)^tell(0)^end: done after 4^ |  | 0
--alone --turns 1 --words w | 4294967295 4294967295 |  | roll(3)^tell(3)^end: done after 2^ |  | 0
-- lines that are no list of words
--alone --words w | 9  17 |  |  | words line 1^ | 2
--alone --words w | 9 17 ^1 |  |  | words line 1^ | 2
--alone --words w | 9^1 4294967296 |  |  | words line 2^ | 2
--alone --words w | 9^+1 |  |  | words line 2^ | 2
--alone --words w | 9^-1 |  |  | words line 2^ | 2
--alone --words w | 9,1 |  |  | words line 1^ | 2
--words w | 9  17 |  |  | words line 1^ | 2
--alone --words w --comp Nine | x |  |  | E17^ | 1
--alone --words w --inputs l --turns 100001 | x | roll( |  | words line 1^ | 2
--alone --words q --inputs l | x | roll( |  | io^ | 5
";

/// The same.
const COUNTS: &str = "\
--alone --turns 2 --inputs l |  | reset | tick(5)^reset^tick(5)^end: done after 3^ |  | 0
--alone --turns 2 --inputs l --reports |  | % once^^reset^ | tick(5)^reset^tick(5)^end: done after 3^ | A: 2 committed, 0 idle, 0 stale, turns done^environment: 1 committed, 1 idle, 0 stale, turns done^A: tick: 2 tried, 0 nothing proposed, 0 proposal faulted, 0 not enabled, 0 stale, 2 performed^ | 0
--alone --turns 2 --inputs l --reports |  | reset^reset^% twice^reset^reset^ | tick(5)^reset^tick(5)^reset^end: done after 4^ | A: 2 committed, 0 idle, 0 stale, turns done^environment: 2 committed, 0 idle, 0 stale, turns done^A: tick: 2 tried, 0 nothing proposed, 0 proposal faulted, 0 not enabled, 0 stale, 2 performed^environment: reset was not performed^environment: reset was not performed^ | 0
--alone --turns 2 --inputs l --log |  | reset | {\"act\":\"tick(5)\",\"who\":0}^{\"act\":\"reset\",\"who\":1}^{\"act\":\"tick(5)\",\"who\":0}^{\"end\":\"done after 3\"}^ |  | 0
-- how often each entry is performed, by the run's log, behind the reports
--alone --turns 2 --inputs l --coverage |  | reset | tick(5)^reset^tick(5)^end: done after 3^ | A: tick: performed 2^A: reset: performed 1^ | 0
--alone --turns 2 --inputs l --coverage --reports |  | reset | tick(5)^reset^tick(5)^end: done after 3^ | A: 2 committed, 0 idle, 0 stale, turns done^environment: 1 committed, 1 idle, 0 stale, turns done^A: tick: 2 tried, 0 nothing proposed, 0 proposal faulted, 0 not enabled, 0 stale, 2 performed^A: tick: performed 2^A: reset: performed 1^ | 0
--alone --turns 1 --inputs l --coverage --reports |  | reset^reset | tick(5)^reset^end: done after 2^ | A: 1 committed, 0 idle, 0 stale, turns done^environment: 1 committed, 0 idle, 0 stale, turns done^A: tick: 1 tried, 0 nothing proposed, 0 proposal faulted, 0 not enabled, 0 stale, 1 performed^environment: reset was not performed^A: tick: performed 1^A: reset: performed 1^ | 0
--turns 3 --coverage |  |  | tick(5)^tick(6)^tick(7)^end: done after 3^ | A: tick: performed 3^A: reset: never performed^ | 0
--alone --turns 0 --coverage |  |  | end: done after 0^ | A: tick: never performed^A: reset: never performed^ | 0
--alone --turns 0 |  |  | end: done after 0^ |  | 0
--alone --turns 2 --inputs l |  | tick(5) |  | N2 index 0^ | 4
--alone --turns 2 --inputs l |  | reset^% no^tick( |  | L2 line 3^ | 4
--alone --turns 2 --inputs l |  | reset^reset^tock |  | N2 index 2^ | 4
--alone --turns 2 --inputs l |  | reset^% no^tick(5) |  | N2 index 1^ | 4
--alone --turns 100001 --inputs l |  | tick(5) |  | N1^ | 2
--alone --turns 100001 --inputs l |  | tick( |  | L2 line 1^ | 4
--alone --turns 100001 |  |  |  | N1^ | 2
--alone --turns 18446744073709551615 |  |  |  | N1^ | 2
--alone --inputs q |  |  |  | io^ | 5
--turns 3 |  |  | tick(5)^tick(6)^tick(7)^end: done after 3^ |  | 0
--turns 2 --log --reports |  |  | {\"act\":\"tick(5)\",\"who\":0}^{\"act\":\"tick(6)\",\"who\":0}^{\"end\":\"done after 2\"}^ | A: 2 committed, 0 idle, 0 stale, turns done^environment: 0 committed, 2 idle, 0 stale, turns done^A: tick: 2 tried, 0 nothing proposed, 0 proposal faulted, 0 not enabled, 0 stale, 2 performed^ | 0
--turns 0 --inputs l |  | reset | end: done after 0^ |  | 0
-- more turns than a run that is given up early takes, and nothing is told of memory
--alone --turns 64 |  |  | tick(5)^tick(6)^tick(7)^tick(8)^tick(9)^tick(10)^tick(11)^tick(12)^tick(13)^tick(14)^tick(15)^tick(16)^tick(17)^tick(18)^tick(19)^tick(20)^tick(21)^tick(22)^tick(23)^tick(24)^tick(25)^tick(26)^tick(27)^tick(28)^tick(29)^tick(30)^tick(31)^tick(32)^tick(33)^tick(34)^tick(35)^tick(36)^tick(37)^tick(38)^tick(39)^tick(40)^tick(41)^tick(42)^tick(43)^tick(44)^tick(45)^tick(46)^tick(47)^tick(48)^tick(49)^tick(50)^tick(51)^tick(52)^tick(53)^tick(54)^tick(55)^tick(56)^tick(57)^tick(58)^tick(59)^tick(60)^tick(61)^tick(62)^tick(63)^tick(64)^tick(65)^tick(66)^tick(67)^tick(68)^end: done after 64^ |  | 0
--turns 64 --reports |  |  | tick(5)^tick(6)^tick(7)^tick(8)^tick(9)^tick(10)^tick(11)^tick(12)^tick(13)^tick(14)^tick(15)^tick(16)^tick(17)^tick(18)^tick(19)^tick(20)^tick(21)^tick(22)^tick(23)^tick(24)^tick(25)^tick(26)^tick(27)^tick(28)^tick(29)^tick(30)^tick(31)^tick(32)^tick(33)^tick(34)^tick(35)^tick(36)^tick(37)^tick(38)^tick(39)^tick(40)^tick(41)^tick(42)^tick(43)^tick(44)^tick(45)^tick(46)^tick(47)^tick(48)^tick(49)^tick(50)^tick(51)^tick(52)^tick(53)^tick(54)^tick(55)^tick(56)^tick(57)^tick(58)^tick(59)^tick(60)^tick(61)^tick(62)^tick(63)^tick(64)^tick(65)^tick(66)^tick(67)^tick(68)^end: done after 64^ | A: 64 committed, 0 idle, 0 stale, turns done^environment: 0 committed, 64 idle, 0 stale, turns done^A: tick: 64 tried, 0 nothing proposed, 0 proposal faulted, 0 not enabled, 0 stale, 64 performed^ | 0
--turns 2 --inputs l |  | reset^% no^tick(5) |  | N2 index 1^ | 4
--turns 100001 --inputs l |  | tick(5) |  | N1^ | 2
--turns 100001 --inputs l |  | tick( |  | L2 line 1^ | 4
--inputs q |  |  |  | io^ | 5
-- words that are none of a run's
--alone --turns x |  |  |  | error: invalid value 'x' for '--turns <N>'^  [wanted: a whole number from 0 to 100000]^^For more information, try '--help'.^ | 2
--alone --turns +5 |  |  |  | error: invalid value '+5' for '--turns <N>'^  [wanted: a whole number from 0 to 100000]^^For more information, try '--help'.^ | 2
--alone --turns 18446744073709551616 |  |  |  | error: invalid value '18446744073709551616' for '--turns <N>'^  [wanted: a whole number from 0 to 100000]^^For more information, try '--help'.^ | 2
--alone --seed 12 |  |  |  | error: invalid value '12' for '--seed <HEX>'^  [wanted: 64 hexadecimal digits]^^For more information, try '--help'.^ | 2
--alone --seed 00000000000000000000000000000000000000000000000000000000000000000 |  |  |  | error: invalid value '00000000000000000000000000000000000000000000000000000000000000000' for '--seed <HEX>'^  [wanted: 64 hexadecimal digits]^^For more information, try '--help'.^ | 2
--alone --seed g000000000000000000000000000000000000000000000000000000000000000 |  |  |  | error: invalid value 'g000000000000000000000000000000000000000000000000000000000000000' for '--seed <HEX>'^  [wanted: 64 hexadecimal digits]^^For more information, try '--help'.^ | 2
--alone --seed 12 --words w |  |  |  | error: the argument '--seed <HEX>' cannot be used with '--words <WFILE>'^^For more information, try '--help'.^ | 2
-- runs by many seeds: the decimal digits of each number, in order, from the first to the last
--alone --turns 2 --seeds 9..11 |  |  | 0000000000000000000000000000000000000000000000000000000000000009 end: done after 2^0000000000000000000000000000000000000000000000000000000000000010 end: done after 2^0000000000000000000000000000000000000000000000000000000000000011 end: done after 2^seeds 3; done 3; fault 0^ |  | 0
--alone --turns 2 --inputs l --seeds 7..7 |  | reset | 0000000000000000000000000000000000000000000000000000000000000007 end: done after 3^seeds 1; done 1; fault 0^ |  | 0
-- how often each entry is performed in all of them together
--alone --turns 2 --seeds 9..11 --coverage |  |  | 0000000000000000000000000000000000000000000000000000000000000009 end: done after 2^0000000000000000000000000000000000000000000000000000000000000010 end: done after 2^0000000000000000000000000000000000000000000000000000000000000011 end: done after 2^seeds 3; done 3; fault 0^ | A: tick: performed 6^A: reset: never performed^ | 0
--alone --turns 2 --inputs l --seeds 7..8 --coverage |  | reset | 0000000000000000000000000000000000000000000000000000000000000007 end: done after 3^0000000000000000000000000000000000000000000000000000000000000008 end: done after 3^seeds 2; done 2; fault 0^ | A: tick: performed 4^A: reset: performed 2^ | 0
--alone --turns 2 --seeds 9..9 --coverage --json |  |  | {\"seed\":\"0000000000000000000000000000000000000000000000000000000000000009\",\"end\":\"done\",\"count\":2,\"verdicts\":[]}^{\"seeds\":1,\"done\":1,\"fault\":0,\"verdicts\":[]}^ | A: tick: performed 2^A: reset: never performed^ | 0
--alone --turns 0 --seeds 000255..256 |  |  | 0000000000000000000000000000000000000000000000000000000000000255 end: done after 0^0000000000000000000000000000000000000000000000000000000000000256 end: done after 0^seeds 2; done 2; fault 0^ |  | 0
--alone --turns 1 --seeds 18446744073709551615..18446744073709551615 |  |  | 0000000000000000000000000000000000000000000018446744073709551615 end: done after 1^seeds 1; done 1; fault 0^ |  | 0
-- the same as objects
--alone --turns 2 --seeds 9..10 --json |  |  | {\"seed\":\"0000000000000000000000000000000000000000000000000000000000000009\",\"end\":\"done\",\"count\":2,\"verdicts\":[]}^{\"seed\":\"0000000000000000000000000000000000000000000000000000000000000010\",\"end\":\"done\",\"count\":2,\"verdicts\":[]}^{\"seeds\":2,\"done\":2,\"fault\":0,\"verdicts\":[]}^ |  | 0
--json --alone --turns 1 --seeds 18446744073709551615..18446744073709551615 |  |  | {\"seed\":\"0000000000000000000000000000000000000000000018446744073709551615\",\"end\":\"done\",\"count\":1,\"verdicts\":[]}^{\"seeds\":1,\"done\":1,\"fault\":0,\"verdicts\":[]}^ |  | 0
--alone --turns 2 --inputs l --seeds 1..2 --json |  | tick(5) |  | N2 index 0^ | 4
--alone --comp Nine --seeds 1..2 --json |  |  |  | E17^ | 1
-- which are those of many seeds
--alone --json |  |  |  | error: the argument '--json' needs '--seeds <A..B>'^^For more information, try '--help'.^ | 2
--json --turns x |  |  |  | error: the argument '--json' needs '--seeds <A..B>'^^For more information, try '--help'.^ | 2
--json --keep k |  |  |  | error: the argument '--keep <KFILE>' needs '--seeds <A..B>'^^For more information, try '--help'.^ | 2
--log --json |  |  |  | error: the argument '--json' needs '--seeds <A..B>'^^For more information, try '--help'.^ | 2
--seeds 1..2 --json |  |  |  | error: the argument '--seeds <A..B>' needs '--alone', and cannot be used with '--seed', '--words', '--resume', '--log' or '--reports'^^For more information, try '--help'.^ | 2
-- what refuses a run refuses these before a line
--alone --turns 100001 --seeds 1..2 |  |  |  | N1^ | 2
--alone --turns 2 --inputs l --seeds 1..2 |  | tick(5) |  | N2 index 0^ | 4
--alone --inputs l --seeds 1..2 |  | reset^tick( |  | L2 line 2^ | 4
--alone --inputs q --seeds 1..2 |  |  |  | io^ | 5
--alone --comp Nine --seeds 1..2 |  |  |  | E17^ | 1
-- numbers that are none
--alone --seeds 2..1 |  |  |  | error: invalid value '2..1' for '--seeds <A..B>'^  [wanted: two whole numbers, the first no greater, as 1..500]^^For more information, try '--help'.^ | 2
--alone --seeds 1 |  |  |  | error: invalid value '1' for '--seeds <A..B>'^  [wanted: two whole numbers, the first no greater, as 1..500]^^For more information, try '--help'.^ | 2
--alone --seeds 1.. |  |  |  | error: invalid value '1..' for '--seeds <A..B>'^  [wanted: two whole numbers, the first no greater, as 1..500]^^For more information, try '--help'.^ | 2
--alone --seeds ..2 |  |  |  | error: invalid value '..2' for '--seeds <A..B>'^  [wanted: two whole numbers, the first no greater, as 1..500]^^For more information, try '--help'.^ | 2
--alone --seeds 1...2 |  |  |  | error: invalid value '1...2' for '--seeds <A..B>'^  [wanted: two whole numbers, the first no greater, as 1..500]^^For more information, try '--help'.^ | 2
--alone --seeds 1.2 |  |  |  | error: invalid value '1.2' for '--seeds <A..B>'^  [wanted: two whole numbers, the first no greater, as 1..500]^^For more information, try '--help'.^ | 2
--alone --seeds 1..18446744073709551616 |  |  |  | error: invalid value '1..18446744073709551616' for '--seeds <A..B>'^  [wanted: two whole numbers, the first no greater, as 1..500]^^For more information, try '--help'.^ | 2
--alone --seeds a..b |  |  |  | error: invalid value 'a..b' for '--seeds <A..B>'^  [wanted: two whole numbers, the first no greater, as 1..500]^^For more information, try '--help'.^ | 2
--alone --seeds +1..2 |  |  |  | error: invalid value '+1..2' for '--seeds <A..B>'^  [wanted: two whole numbers, the first no greater, as 1..500]^^For more information, try '--help'.^ | 2
--alone --seeds 1..2..3 |  |  |  | error: invalid value '1..2..3' for '--seeds <A..B>'^  [wanted: two whole numbers, the first no greater, as 1..500]^^For more information, try '--help'.^ | 2
--alone --seeds 2..1 --turns x |  |  |  | error: invalid value '2..1' for '--seeds <A..B>'^  [wanted: two whole numbers, the first no greater, as 1..500]^^For more information, try '--help'.^ | 2
--alone --seeds 1..2 --turns x |  |  |  | error: invalid value 'x' for '--turns <N>'^  [wanted: a whole number from 0 to 100000]^^For more information, try '--help'.^ | 2
-- what does not go with them
--seeds 1..2 |  |  |  | error: the argument '--seeds <A..B>' needs '--alone', and cannot be used with '--seed', '--words', '--resume', '--log' or '--reports'^^For more information, try '--help'.^ | 2
--seeds 1..2 --turns 2 |  |  |  | error: the argument '--seeds <A..B>' needs '--alone', and cannot be used with '--seed', '--words', '--resume', '--log' or '--reports'^^For more information, try '--help'.^ | 2
--alone --seeds 1..2 --seed 12 |  |  |  | error: the argument '--seeds <A..B>' needs '--alone', and cannot be used with '--seed', '--words', '--resume', '--log' or '--reports'^^For more information, try '--help'.^ | 2
--alone --seeds 1..2 --seed 0000000000000000000000000000000000000000000000000000000000000000 |  |  |  | error: the argument '--seeds <A..B>' needs '--alone', and cannot be used with '--seed', '--words', '--resume', '--log' or '--reports'^^For more information, try '--help'.^ | 2
--alone --seeds 1..2 --words w |  |  |  | error: the argument '--seeds <A..B>' needs '--alone', and cannot be used with '--seed', '--words', '--resume', '--log' or '--reports'^^For more information, try '--help'.^ | 2
--alone --seeds 1..2 --resume r |  |  |  | error: the argument '--seeds <A..B>' needs '--alone', and cannot be used with '--seed', '--words', '--resume', '--log' or '--reports'^^For more information, try '--help'.^ | 2
--alone --seeds 1..2 --log |  |  |  | error: the argument '--seeds <A..B>' needs '--alone', and cannot be used with '--seed', '--words', '--resume', '--log' or '--reports'^^For more information, try '--help'.^ | 2
--alone --seeds 1..2 --reports |  |  |  | error: the argument '--seeds <A..B>' needs '--alone', and cannot be used with '--seed', '--words', '--resume', '--log' or '--reports'^^For more information, try '--help'.^ | 2
";

/// The same.
const FAULTS: &str = "\
--alone --turns 1 |  |  | end: fault 4 in component 1 at 0^ |  | 3
-- the action that faults is not performed
--alone --turns 1 --coverage |  |  | end: fault 4 in component 1 at 0^ | G: go: never performed^P: go: never performed^ | 3
--alone --turns 1 --seeds 0..0 --coverage |  |  | 0000000000000000000000000000000000000000000000000000000000000000 end: fault 4 in component 1 at 0^seeds 1; done 0; fault 1^ | G: go: never performed^P: go: never performed^ | 3
--alone --turns 1 --log --reports |  |  | {\"act\":\"go\",\"who\":0}^{\"end\":\"fault 4 in component 1 at 0\"}^ | G: 0 committed, 0 idle, 0 stale, faulted^P: 0 committed, 1 idle, 0 stale, turns done^environment: 0 committed, 1 idle, 0 stale, turns done^G: go: 0 tried, 0 nothing proposed, 0 proposal faulted, 0 not enabled, 0 stale, 0 performed^ | 3
--alone --turns 1 --seeds 0..1 |  |  | 0000000000000000000000000000000000000000000000000000000000000000 end: fault 4 in component 1 at 0^0000000000000000000000000000000000000000000000000000000000000001 end: fault 4 in component 1 at 0^seeds 2; done 0; fault 2^ |  | 3
--alone --turns 0 --seeds 3..3 |  |  | 0000000000000000000000000000000000000000000000000000000000000003 end: done after 0^seeds 1; done 1; fault 0^ |  | 0
-- the action that faults is not performed, and the specification is not asked of it
--alone --turns 1 --seeds 3..3 --monitor Two |  |  | 0000000000000000000000000000000000000000000000000000000000000003 end: fault 4 in component 1 at 0; Two: ok^seeds 1; done 0; fault 1; Two: not accepted 0^ |  | 3
-- the same as an object
--alone --turns 1 --seeds 3..3 --monitor Two --json |  |  | {\"seed\":\"0000000000000000000000000000000000000000000000000000000000000003\",\"end\":\"fault\",\"fault\":4,\"component\":1,\"index\":0,\"verdicts\":[{\"specification\":\"Two\",\"verdict\":\"ok\"}]}^{\"seeds\":1,\"done\":0,\"fault\":1,\"verdicts\":[{\"specification\":\"Two\",\"not accepted\":0}]}^ |  | 3
-- no invariant is broken by it, since nothing of it is done
--alone --turns 1 --seeds 3..3 --invariants |  |  | 0000000000000000000000000000000000000000000000000000000000000003 end: fault 4 in component 1 at 0; invariants: ok^seeds 1; done 0; fault 1; invariants: broken 0^ |  | 3
-- and a fault is no refusal
--alone --turns 1 --seeds 3..3 --monitor Two --keep k |  |  | 0000000000000000000000000000000000000000000000000000000000000003 end: fault 4 in component 1 at 0; Two: ok^seeds 1; done 0; fault 1; Two: not accepted 0^ |  | 3
--turns 1 |  |  | end: fault 4 in component 1 at 0^ |  | 3
--turns 1 --log --reports |  |  | {\"act\":\"go\",\"who\":0}^{\"end\":\"fault 4 in component 1 at 0\"}^ | G: 0 committed, 0 idle, 0 stale, faulted^P: 0 committed, 1 idle, 0 stale, turns done^environment: 0 committed, 1 idle, 0 stale, turns done^G: go: 0 tried, 0 nothing proposed, 0 proposal faulted, 0 not enabled, 0 stale, 0 performed^ | 3
";

/// The same.
const LOST: &str = "\
--alone --turns 4 --words w --reports | 3 1 2 2 |  | end: done after 1^ | P: 1 committed, 3 idle, 0 stale, turns done^environment: 0 committed, 4 idle, 0 stale, turns done^P: pick: 1 tried, 0 nothing proposed, 1 proposal faulted, 0 not enabled, 0 stale, 0 performed^P: draw: 1 tried, 1 nothing proposed, 0 proposal faulted, 0 not enabled, 0 stale, 0 performed^P: count: 2 tried, 0 nothing proposed, 0 proposal faulted, 1 not enabled, 0 stale, 1 performed^ | 0
--turns 4 --words w --reports | 3 1 2 2 |  | end: done after 1^ | P: 1 committed, 3 idle, 0 stale, turns done^environment: 0 committed, 4 idle, 0 stale, turns done^P: pick: 1 tried, 0 nothing proposed, 1 proposal faulted, 0 not enabled, 0 stale, 0 performed^P: draw: 1 tried, 1 nothing proposed, 0 proposal faulted, 0 not enabled, 0 stale, 0 performed^P: count: 2 tried, 0 nothing proposed, 0 proposal faulted, 1 not enabled, 0 stale, 1 performed^ | 0
";

/// A component that ticks, and specifications of it: one that accepts each tick, one that accepts two, one in which each faults, and one of which not all
/// is seen.
pub const TICKS: &str = "\
type S = seq 1 of Int \
automaton Ticker signature output tick(n: Int) states k: Int transitions output tick pre n = k propose n := k eff k := k + 1 \
automaton Taker signature input tick(n: Int) states x: Int transitions input tick eff x := n \
automaton Pair signature output tick(n: Int) states k: Int transitions output tick pre n < 2 propose n := k eff k := n \
automaton Picker signature input tick(n: Int) states s: S; x: Int transitions input tick eff x := at(s, n) \
automaton Hider signature input tick(n: Int); internal rest states x: Int transitions input tick eff x := n internal rest eff x := 0 \
composition All components A: Taker \
composition Two components T: Pair \
composition Picks components P: Picker \
composition Hides components H: Hider \
composition Ticks components T: Ticker \
invariant of Ticker: k < 3";

/// The same, of these.
const MONITORED: &str = "\
--alone --turns 3 --seeds 1..2 --monitor All |  |  | 0000000000000000000000000000000000000000000000000000000000000001 end: done after 3; All: ok^0000000000000000000000000000000000000000000000000000000000000002 end: done after 3; All: ok^seeds 2; done 2; fault 0; All: not accepted 0^ |  | 0
--alone --turns 3 --seeds 7..7 --monitor Two --monitor All --monitor Picks |  |  | 0000000000000000000000000000000000000000000000000000000000000007 end: done after 3; Two: not enabled at 2; All: ok; Picks: fault 4 in component 0 at 0^seeds 1; done 1; fault 0; Two: not accepted 1; All: not accepted 0; Picks: not accepted 1^ |  | 4
--alone --turns 2 --seeds 7..7 --monitor Two --comp Ticks --monitor Two |  |  | 0000000000000000000000000000000000000000000000000000000000000007 end: done after 2; Two: ok; Two: ok^seeds 1; done 1; fault 0; Two: not accepted 0; Two: not accepted 0^ |  | 0
--alone --turns 0 --seeds 0..0 --monitor Picks |  |  | 0000000000000000000000000000000000000000000000000000000000000000 end: done after 0; Picks: ok^seeds 1; done 1; fault 0; Picks: not accepted 0^ |  | 0
-- the file for a log is not written: it is told behind all lines, or not missed, where no run is refused
--alone --turns 3 --seeds 7..7 --monitor All --monitor Two --keep k |  |  | 0000000000000000000000000000000000000000000000000000000000000007 end: done after 3; All: ok; Two: not enabled at 2^seeds 1; done 1; fault 0; All: not accepted 0; Two: not accepted 1^ | io^ | 5
--alone --turns 2 --seeds 7..7 --monitor All --monitor Two --keep k |  |  | 0000000000000000000000000000000000000000000000000000000000000007 end: done after 2; All: ok; Two: ok^seeds 1; done 1; fault 0; All: not accepted 0; Two: not accepted 0^ |  | 0
--alone --turns 3 --seeds 7..7 --keep k |  |  | 0000000000000000000000000000000000000000000000000000000000000007 end: done after 3^seeds 1; done 1; fault 0^ |  | 0
--alone --turns 3 --seeds 1..3 --monitor Two |  |  | 0000000000000000000000000000000000000000000000000000000000000001 end: done after 3; Two: not enabled at 2^0000000000000000000000000000000000000000000000000000000000000002 end: done after 3; Two: not enabled at 2^0000000000000000000000000000000000000000000000000000000000000003 end: done after 3; Two: not enabled at 2^seeds 3; done 3; fault 0; Two: not accepted 3^ |  | 4
-- the same as objects
--alone --turns 3 --seeds 7..7 --monitor Two --monitor All --monitor Picks --json |  |  | {\"seed\":\"0000000000000000000000000000000000000000000000000000000000000007\",\"end\":\"done\",\"count\":3,\"verdicts\":[{\"specification\":\"Two\",\"verdict\":\"not enabled\",\"index\":2},{\"specification\":\"All\",\"verdict\":\"ok\"},{\"specification\":\"Picks\",\"verdict\":\"fault\",\"fault\":4,\"component\":0,\"index\":0}]}^{\"seeds\":1,\"done\":1,\"fault\":0,\"verdicts\":[{\"specification\":\"Two\",\"not accepted\":1},{\"specification\":\"All\",\"not accepted\":0},{\"specification\":\"Picks\",\"not accepted\":1}]}^ |  | 4
--alone --turns 2 --seeds 7..7 --monitor All --json --keep k |  |  | {\"seed\":\"0000000000000000000000000000000000000000000000000000000000000007\",\"end\":\"done\",\"count\":2,\"verdicts\":[{\"specification\":\"All\",\"verdict\":\"ok\"}]}^{\"seeds\":1,\"done\":1,\"fault\":0,\"verdicts\":[{\"specification\":\"All\",\"not accepted\":0}]}^ |  | 0
--alone --turns 3 --seeds 7..7 --monitor Two --json --keep k |  |  | {\"seed\":\"0000000000000000000000000000000000000000000000000000000000000007\",\"end\":\"done\",\"count\":3,\"verdicts\":[{\"specification\":\"Two\",\"verdict\":\"not enabled\",\"index\":2}]}^{\"seeds\":1,\"done\":1,\"fault\":0,\"verdicts\":[{\"specification\":\"Two\",\"not accepted\":1}]}^ | io^ | 5
--alone --seeds 1..2 --monitor Hides --json |  |  |  | L7^ | 4
-- the composition of the run is looked for first, then the specifications in their order, and then the rest is read
--alone --seeds 1..2 --monitor Nine |  |  |  | E17^ | 1
--alone --seeds 1..2 --monitor All --monitor Hides --monitor Nine |  |  |  | L7^ | 4
--alone --seeds 1..2 --comp Nine --monitor Hides |  |  |  | E17^ | 1
--alone --seeds 1..2 --inputs q --monitor Hides |  |  |  | L7^ | 4
--alone --seeds 1..2 --inputs q --monitor All |  |  |  | io^ | 5
--alone --turns 100001 --seeds 1..2 --monitor All |  |  |  | N1^ | 2
-- specifications are those of many seeds
--alone --monitor All |  |  |  | error: the argument '--monitor <SPEC>' needs '--seeds <A..B>'^^For more information, try '--help'.^ | 2
--monitor All --turns x |  |  |  | error: the argument '--monitor <SPEC>' needs '--seeds <A..B>'^^For more information, try '--help'.^ | 2
--seeds 1..2 --monitor All |  |  |  | error: the argument '--seeds <A..B>' needs '--alone', and cannot be used with '--seed', '--words', '--resume', '--log' or '--reports'^^For more information, try '--help'.^ | 2
-- and so is a file for a log
--alone --keep k |  |  |  | error: the argument '--keep <KFILE>' needs '--seeds <A..B>'^^For more information, try '--help'.^ | 2
--keep k --turns x |  |  |  | error: the argument '--keep <KFILE>' needs '--seeds <A..B>'^^For more information, try '--help'.^ | 2
--keep k --monitor All |  |  |  | error: the argument '--monitor <SPEC>' needs '--seeds <A..B>'^^For more information, try '--help'.^ | 2
--alone --invariants |  |  |  | error: the argument '--invariants' needs '--seeds <A..B>'^^For more information, try '--help'.^ | 2
--keep k --invariants |  |  |  | error: the argument '--invariants' needs '--seeds <A..B>'^^For more information, try '--help'.^ | 2
--invariants --monitor All |  |  |  | error: the argument '--monitor <SPEC>' needs '--seeds <A..B>'^^For more information, try '--help'.^ | 2
--seeds 1..2 --invariants |  |  |  | error: the argument '--seeds <A..B>' needs '--alone', and cannot be used with '--seed', '--words', '--resume', '--log' or '--reports'^^For more information, try '--help'.^ | 2
--seeds 1..2 --keep k |  |  |  | error: the argument '--seeds <A..B>' needs '--alone', and cannot be used with '--seed', '--words', '--resume', '--log' or '--reports'^^For more information, try '--help'.^ | 2
";

/// A component that ticks, another one that hears it, and what of them is broken after two ticks, or never.
const KEEPS: &str = "\
automaton Ticker signature output tick(n: Int) states k: Int transitions output tick pre n = k propose n := k eff k := k + 1 \
automaton Taker signature input tick(n: Int) states x: Int transitions input tick eff x := n \
automaton Pair signature output tick(n: Int) states k: Int transitions output tick pre n < 2 propose n := k eff k := n \
composition Two components T: Pair \
composition Calm components A: Taker \
composition Both components T: Ticker; A: Taker \
invariant of Taker: x >= 0 invariant of Taker: x < 1 invariant of Ticker: k < 4";

/// The same, of these.
const INSPECTED: &str = "\
--alone --turns 1 --seeds 1..2 --invariants |  |  | 0000000000000000000000000000000000000000000000000000000000000001 end: done after 1; invariants: ok^0000000000000000000000000000000000000000000000000000000000000002 end: done after 1; invariants: ok^seeds 2; done 2; fault 0; invariants: broken 0^ |  | 0
-- the first that is broken, in the least state, by the least component: a broken one is not looked for behind it
--alone --turns 2 --seeds 1..1 --invariants |  |  | 0000000000000000000000000000000000000000000000000000000000000001 end: done after 2; invariant 1 of component 1 broken after 2^seeds 1; done 1; fault 0; invariants: broken 1^ |  | 4
--alone --turns 6 --seeds 7..8 --invariants |  |  | 0000000000000000000000000000000000000000000000000000000000000007 end: done after 6; invariant 1 of component 1 broken after 2^0000000000000000000000000000000000000000000000000000000000000008 end: done after 6; invariant 1 of component 1 broken after 2^seeds 2; done 2; fault 0; invariants: broken 2^ |  | 4
-- behind the specifications, and counted behind theirs
--alone --turns 3 --seeds 7..7 --invariants --monitor Two --monitor Calm |  |  | 0000000000000000000000000000000000000000000000000000000000000007 end: done after 3; Two: not enabled at 2; Calm: ok; invariant 1 of component 1 broken after 2^seeds 1; done 1; fault 0; Two: not accepted 1; Calm: not accepted 0; invariants: broken 1^ |  | 4
--alone --turns 1 --seeds 7..7 --invariants --monitor Two |  |  | 0000000000000000000000000000000000000000000000000000000000000007 end: done after 1; Two: ok; invariants: ok^seeds 1; done 1; fault 0; Two: not accepted 0; invariants: broken 0^ |  | 0
-- the same as objects
--alone --turns 2 --seeds 1..1 --invariants --json |  |  | {\"seed\":\"0000000000000000000000000000000000000000000000000000000000000001\",\"end\":\"done\",\"count\":2,\"verdicts\":[],\"invariants\":{\"verdict\":\"broken\",\"invariant\":1,\"component\":1,\"count\":2}}^{\"seeds\":1,\"done\":1,\"fault\":0,\"verdicts\":[],\"invariants\":{\"broken\":1}}^ |  | 4
--alone --turns 1 --seeds 7..7 --invariants --monitor Two --json |  |  | {\"seed\":\"0000000000000000000000000000000000000000000000000000000000000007\",\"end\":\"done\",\"count\":1,\"verdicts\":[{\"specification\":\"Two\",\"verdict\":\"ok\"}],\"invariants\":{\"verdict\":\"ok\"}}^{\"seeds\":1,\"done\":1,\"fault\":0,\"verdicts\":[{\"specification\":\"Two\",\"not accepted\":0}],\"invariants\":{\"broken\":0}}^ |  | 0
-- a composition in which no component is of an automaton that has one
--alone --turns 6 --seeds 7..7 --invariants --comp Two |  |  | 0000000000000000000000000000000000000000000000000000000000000007 end: done after 6; invariants: ok^seeds 1; done 1; fault 0; invariants: broken 0^ |  | 0
-- what refuses them
--alone --seeds 1..2 --invariants --comp Nine |  |  |  | E17^ | 1
--alone --seeds 1..2 --invariants --monitor Nine |  |  |  | E17^ | 1
--alone --seeds 1..2 --invariants --inputs q |  |  |  | io^ | 5
--alone --seeds 1..2 --invariants --seed 0000000000000000000000000000000000000000000000000000000000000000 |  |  |  | error: the argument '--seeds <A..B>' needs '--alone', and cannot be used with '--seed', '--words', '--resume', '--log' or '--reports'^^For more information, try '--help'.^ | 2
--alone --seeds 1..2 --invariants --words w |  |  |  | error: the argument '--seeds <A..B>' needs '--alone', and cannot be used with '--seed', '--words', '--resume', '--log' or '--reports'^^For more information, try '--help'.^ | 2
--alone --seeds 1..2 --invariants --resume r |  |  |  | error: the argument '--seeds <A..B>' needs '--alone', and cannot be used with '--seed', '--words', '--resume', '--log' or '--reports'^^For more information, try '--help'.^ | 2
--alone --seeds 1..2 --invariants --log |  |  |  | error: the argument '--seeds <A..B>' needs '--alone', and cannot be used with '--seed', '--words', '--resume', '--log' or '--reports'^^For more information, try '--help'.^ | 2
--alone --seeds 1..2 --invariants --reports |  |  |  | error: the argument '--seeds <A..B>' needs '--alone', and cannot be used with '--seed', '--words', '--resume', '--log' or '--reports'^^For more information, try '--help'.^ | 2
";

/// A host that sums up a sequence each time that it tells the sum before.
const FOLD: &str = "\
type S = seq 4 of Int \
automaton Fold signature output tell(k: Int); input put(a: Int) states stable s: S; n: Int \
transitions output tell pre k = n propose k := n eff n := 0; for y in s do n := n + y od \
input put eff s := append(s, a) \
composition One components A: Fold crash down recover up";

/// The same.
const LOOPS: &str = "\
--alone --turns 6 --inputs l |  | put(2)^put(5)^down^up | tell(0)^put(2)^tell(0)^put(5)^tell(2)^down^up^tell(0)^tell(7)^end: done after 9^ |  | 0
--turns 3 |  |  | tell(0)^tell(0)^tell(0)^end: done after 3^ |  | 0
-- its body is taken once for each item, of many runs in all of them together
--alone --turns 6 --inputs l --coverage |  | put(2)^put(5)^down^up | tell(0)^put(2)^tell(0)^put(5)^tell(2)^down^up^tell(0)^tell(7)^end: done after 9^ | A: tell: performed 5^A: tell: body 2.1: taken 7^A: put: performed 2^A: down: performed 1^A: up: performed 1^ | 0
--alone --turns 3 --inputs l --seeds 7..8 --coverage |  | put(2) | 0000000000000000000000000000000000000000000000000000000000000007 end: done after 4^0000000000000000000000000000000000000000000000000000000000000008 end: done after 4^seeds 2; done 2; fault 0^ | A: tell: performed 6^A: tell: body 2.1: taken 4^A: put: performed 2^A: down: never performed^A: up: never performed^ | 0
";

/// Four files in memory: the source or the object `f`, the words `w`, the script `l`, and the log `r`.
#[derive(Drop)]
pub struct Rack<'a> {
    pub file: &'a [u8],
    pub words: &'a str,
    pub script: &'a str,
    pub log: &'a [u8],
}

impl<'a> Store for Rack<'a> {
    ghost holds = { λ _ _ _. Unit {0} };

    ghost lacks = { λ _ _. Unit {0} };

    ghost begins = { λ _ _ _. Unit {0} };

    ghost bars = { λ _ _. Unit {0} };

    ghost saves = { λ _ _ _ _. ⊥ };

    fn load(&self, alloc: Global, name: &str) -> Result<Vec<u8>, StoreErr> {
        let bytes = match name {
            "f" => self.file,
            "w" => self.words.as_bytes(),
            "l" => self.script.as_bytes(),
            "r" => self.log,
            _ => return Err(StoreErr::Io),
        };
        Ok(Vec::from_slice(alloc, bytes)?)
    }

    fn load_whole(&self, alloc: Global, name: &str) -> Result<Vec<u8>, StoreErr> {
        self.load(alloc, name)
    }

    fn beginning(&self, _alloc: Global, _name: &str) -> Result<Option<Vec<u8>>, AllocError> {
        Ok(None)
    }

    fn save(&mut self, _alloc: Global, _name: &str, _bytes: &[u8]) -> Result<(), StoreErr> {
        Err(StoreErr::Io)
    }

    fn complaint(&self, _alloc: Global, _name: &str) -> Result<Option<String>, StoreErr> {
        Ok(None)
    }
}

/// Runs the program by these words after `run f`.
pub fn run_by<H: Abort + Threads + Wait + Clock + Sync, F: Store>(
    rt: &H,
    alloc: Global,
    options: &str,
    rack: &mut F,
) -> Ran {
    let line = format!(in alloc; "run f {options}").expect(rt, "memory");
    let words = words(rt, alloc, line.as_str());
    let mut input = Tee::new(Counted::new(b"".as_slice()));
    let mut output = Counted::new(Vec::new(alloc));
    let mut errors = Counted::new(Vec::new(alloc));
    let status = command(
        rt,
        alloc,
        words.as_slice(),
        rack,
        &mut input,
        &mut output,
        &mut errors,
    );
    Ran {
        output: output.into_inner(),
        errors: errors.into_inner(),
        status,
        saved: None,
    }
}

/// Runs the row of a table on this source.
fn expect_run<H: Abort + Threads + Wait + Clock + Sync>(
    rt: &H,
    alloc: Global,
    row: &str,
    source: &str,
) {
    let columns = columns(alloc, row).expect(rt, "a row");
    let mut rack = Rack {
        file: source.as_bytes(),
        words: column(&columns, 1),
        script: column(&columns, 2),
        log: b"",
    };
    let ran = run_by(rt, alloc, column(&columns, 0), &mut rack);
    let wanted = wanted_in(rt, &columns, 3);
    expect_answer(rt, row, &ran, &wanted);
}

/// Runs each row of a table on this source.
fn expect_runs<H: Abort + Threads + Wait + Clock + Sync>(
    rt: &H,
    alloc: Global,
    rows: &str,
    source: &str,
) {
    for row in rows.lines() {
        if is_row(row) {
            expect_run(rt, alloc, row, source);
        }
    }
}

#[test]
fn runs_print_what_is_wanted(rt: HostRuntime) {
    expect_runs(&rt, rt.alloc(), GAMES, GAME);
    expect_runs(&rt, rt.alloc(), COUNTS, COUNTER);
    expect_runs(&rt, rt.alloc(), FAULTS, FAULTY);
    expect_runs(&rt, rt.alloc(), LOST, LOSSES);
    expect_runs(&rt, rt.alloc(), LOOPS, FOLD);
    expect_runs(&rt, rt.alloc(), MONITORED, TICKS);
    expect_runs(&rt, rt.alloc(), INSPECTED, KEEPS);
}

/// What a run of the game prints by these words.
fn printed<H: Abort + Threads + Wait + Clock + Sync>(
    rt: &H,
    alloc: Global,
    options: &str,
) -> Vec<u8> {
    let mut rack = Rack {
        file: GAME.as_bytes(),
        words: "",
        script: "",
        log: b"",
    };
    let ran = run_by(rt, alloc, options, &mut rack);
    assert!(rt; ran.status == 0);
    ran.output
}

#[test]
fn a_run_without_a_seed_has_one_of_zeros(rt: HostRuntime) {
    let zeros =
        "--alone --turns 50 --log --seed 0000000000000000000000000000000000000000000000000000000000000000";
    let ones =
        "--alone --turns 50 --log --seed 1111111111111111111111111111111111111111111111111111111111111111";
    let without = printed(&rt, rt.alloc(), "--alone --turns 50 --log");
    assert!(rt; without.as_slice() == printed(&rt, rt.alloc(), zeros).as_slice());
    assert!(rt; without.as_slice() != printed(&rt, rt.alloc(), ones).as_slice());
}
