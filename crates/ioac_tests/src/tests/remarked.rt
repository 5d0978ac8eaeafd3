//! What `--explain` adds, outcome by outcome.

use crate::tests::shelf::{Given, Ran, object, run};
use ioa_rows::{column, columns, is_row};
use std::alloc::Global;
use std::process::Abort;
use std::sync::Wait;
use std::thread::Threads;
use std::time::Clock;

/// The words, a file and standard input; what `--explain` tells behind what is told without it; and the code of which it then says what it means, if it
/// does so.
const REMARKS: &str = r#"
-- an end of a list, a fault among them
replay f | automaton C^signature output tick(k: Int)^states c: Int^transitions^  output tick^  pre k = c /\ c < 2^  propose k := c^  eff c := c + 1^composition One components A: C | tick(0)^^% more^tick(5)^ | list, line 4:^    tick(5)^the precondition of tick(5) in A is false^f, line 5:^      output tick^      pre k = c /\ c < 2^      propose k := c^      eff c := c + 1^A.c = 1^
replay f --states | automaton C^signature internal a^states c: Int^transitions internal a pre c < 1 eff c := c + 1^composition One components A: C | a^b^ | list, line 2:^    b^no component has b^
replay f | automaton D^signature internal a^states n: Int^transitions^  internal a eff n := 1 div n^^composition One components E: D | a^ | list, line 1:^    a^fault 2 in the effect of a in E: the divisor is 0^f, line 5:^      internal a eff n := 1 div n^E.n = 0^
log f | automaton D^signature internal a^states n: Int^transitions^  internal a eff n := 1 div n^composition One components E: D | a^ | list, line 1:^    a^fault 2 in the effect of a in E: the divisor is 0^f, line 5:^      internal a eff n := 1 div n^E.n = 0^
replay f | automaton D^signature internal a^transitions internal a^composition One components E: D | a^a^
-- of what is taken of a list, and of a log that is written again
replay f --until 2 | automaton C^signature output tick(k: Int)^states c: Int^transitions^  output tick^  pre k = c /\ c < 2^  propose k := c^  eff c := c + 1^composition One components A: C | tick(0)^^% more^tick(5)^x y^ | list, line 4:^    tick(5)^the precondition of tick(5) in A is false^f, line 5:^      output tick^      pre k = c /\ c < 2^      propose k := c^      eff c := c + 1^A.c = 1^
log f --log | automaton D^signature internal a^states n: Int^transitions^  internal a eff n := 1 div n^composition One components E: D | {"act":"a","who":0}^{"end":"fault 2 in component 0 at 0"}^ | log, line 1:^    {"act":"a","who":0}^fault 2 in the effect of a in E: the divisor is 0^f, line 5:^      internal a eff n := 1 div n^E.n = 0^
-- of an action that no component has those that have an entry of its name, or the nearest name, and which composition was taken
replay f | automaton C^signature output tick(k: Int)^transitions output tick pre true propose k := 1^automaton D^signature input tick(k: Int)^transitions input tick^composition One components A: C; B: D^composition Two components A: C; B: D | tick(true)^ | list, line 1:^    tick(true)^no component has tick(true)^A has `tick(k: Int)`^B has `tick(k: Int)`^no composition was named, so that `Two` was taken, the last of 2^
replay f --comp One --states | automaton C^signature output tick(k: Int)^transitions output tick pre true propose k := 1^automaton D^signature input tick(k: Int)^transitions input tick^composition One components A: C; B: D^composition Two components A: C; B: D | tik(6)^ | list, line 1:^    tik(6)^no component has tik(6)^is `tick` meant?^
log f --comp One | automaton C^signature output tick(k: Int)^transitions output tick pre true propose k := 1^automaton D^signature input tick(k: Int)^transitions input tick^composition One components A: C; B: D^composition Two components A: C; B: D | other^ | list, line 1:^    other^no component has other^
replay f | automaton C(me: Int)^signature input send(const me, const -3, const true, p: Int); input stop^transitions input send input stop^composition One components A: C(4) | send(1)^ | list, line 1:^    send(1)^no component has send(1)^A has `send(const me, const -3, const true, p: Int)`^
replay f | automaton C(me: Int)^signature input send(const me, const -3, const true, p: Int); input stop^transitions input send input stop^composition One components A: C(4) crash down recover up | stop(1)^ | list, line 1:^    stop(1)^no component has stop(1)^A has `stop`^
replay f --log --comp One | automaton C^signature output tick(k: Int)^transitions output tick pre true propose k := 1^automaton D^signature input tick(k: Int)^transitions input tick^composition One components A: C; B: D^composition Two components A: C; B: D | {"act":"tik(6)","who":0}^{"end":"done after 1"}^ | log:1: L4: the composition's run differs from here on^    {"act":"tik(6)","who":0}^no component has tik(6)^is `tick` meant?^ | L4
-- a fault that ends a run, by its log, also where that is not printed; and a run that is done
run f --alone --turns 1 | automaton D^signature internal a^states n: Int^transitions internal a eff n := 1 div n^composition One components E: D |  | log, line 1:^    {"act":"a","who":0}^fault 2 in the effect of a in E: the divisor is 0^f, line 4:^    transitions internal a eff n := 1 div n^E.n = 0^
run f --alone --turns 9 --log --reports | automaton D^signature internal a^states n: Int := 2; m: Int^transitions^  internal a^    eff n := n - 1; m := 1 div n^^composition One components E: D |  | log, line 2:^    {"act":"a","who":0}^fault 2 in the effect of a in E: the divisor is 0^f, line 5:^      internal a^        eff n := n - 1; m := 1 div n^E.n = 1^E.m = 1^
run f --alone --turns 2 --log | automaton A^signature internal a^transitions internal a^composition One components X: A |  | these are enabled in the state that the run reached:^X: a^
run f --alone --turns 2 --log | automaton A(n: Int)^signature output a(const n)^transitions output a pre n = 0^composition One components X: A(0); Y: A(1) |  | no `a` of Y was performed^these are enabled in the state that the run reached:^X: a(0)^
run f --alone --turns 2 --log | automaton A^signature input b; output c; internal a^transitions input b output c pre false internal a^composition One components X: A |  | no `c` of X was performed^these are enabled in the state that the run reached:^X: a^
-- what is enabled in the state that the run reached, and not in the one in which it began; no input is told
run f --alone --turns 2 | automaton A^signature output a(k: Int); input b^states n: Int^transitions output a pre k = n propose k := n eff n := n + 1 input b^composition One components X: A |  | these are enabled in the state that the run reached:^X: a(2)^
run f --alone --turns 0 | automaton A^signature output a(k: Int); input b^states n: Int^transitions output a pre k = n propose k := n eff n := n + 1 input b^composition One components X: A |  | no `a` of X was performed^these are enabled in the state that the run reached:^X: a(0)^
-- nothing, of all words: a precondition is false by now, a proposal is never allowed or has nothing to give, or the component is down
run f --alone --turns 9 | automaton A^signature output a; input b^states n: Int^transitions output a pre n < 2 eff n := n + 1 input b eff n := 0^composition One components X: A |  | none is enabled in the state that the run reached, whatever words come: nothing more happens without an input^
run f --alone --turns 9 --reports | automaton A^signature output a(k: Int, c: Bool)^states n: Int := 5^transitions output a pre n <= k propose k := any(n)^composition One components X: A |  | no `a` of X was performed^none is enabled in the state that the run reached, whatever words come: nothing more happens without an input^
run f --alone --turns 9 | automaton A^signature output a(k: Int)^transitions output a pre true propose k := any(0)^composition One components X: A |  | no `a` of X was performed^none is enabled in the state that the run reached, whatever words come: nothing more happens without an input^
run f --alone --turns 2 | automaton A^signature output a^transitions output a^automaton B^signature output down^states n: Int^transitions output down pre n = 0 eff n := 1^composition Two components X: A crash down recover up; Y: B |  | none is enabled in the state that the run reached, whatever words come: nothing more happens without an input^
run f --alone --turns 2 | automaton A^signature input b^transitions input b^composition One components X: A |  | none is enabled in the state that the run reached, whatever words come: nothing more happens without an input^
-- nothing of what was tried, and the entries of which more may be proposed; up to 64 all are tried
run f --alone --turns 1 | automaton A^signature output pick(k: Int)^transitions output pick pre k < 0 propose k := any(65)^composition One components X: A |  | no `pick` of X was performed^none of those tried is enabled in the state that the run reached:^X: pick: more than 64 proposals, 0 of the first 64 are enabled^
run f --alone --turns 1 | automaton A^signature output pick(k: Int)^transitions output pick pre k < 0 propose k := any(64)^composition One components X: A |  | no `pick` of X was performed^none is enabled in the state that the run reached, whatever words come: nothing more happens without an input^
-- the lines of all of them, in the order of the components and of their entries
run f --alone --turns 0 | automaton A(n: Int)^signature output pick(const n, k: Int); internal go(const n, c: Bool); output no(const n)^transitions output pick pre k < 0 propose k := any(100) internal go pre c \/ n = 1 output no pre n = 3^composition Two components X: A(0); Y: A(1) |  | no `pick` of X was performed^no `go` of X was performed^no `no` of X was performed^no `pick` of Y was performed^no `go` of Y was performed^no `no` of Y was performed^these are enabled in the state that the run reached:^X: pick: more than 64 proposals, 0 of the first 64 are enabled^X: go(0, true)^Y: pick: more than 64 proposals, 0 of the first 64 are enabled^Y: go(1, false)^Y: go(1, true)^
run f --alone --turns 0 | automaton A^signature output pick(k: Int)^transitions output pick pre k < 2 propose k := any(100)^composition One components X: A |  | no `pick` of X was performed^these are enabled in the state that the run reached:^X: pick: more than 64 proposals, 2 of the first 64 are enabled^
-- which composition was taken stands behind it
run f --alone --turns 0 | automaton A^signature output a^transitions output a^automaton B^signature input a^transitions input a^composition One components X: A^composition Two components Y: B |  | none is enabled in the state that the run reached, whatever words come: nothing more happens without an input^no composition was named, so that `Two` was taken, the last of 2^
-- of a host that is down no precondition is asked; it is told as false of one that is up again
replay f | type Ints = seq 16 of Int^automaton Host^signature output put(m: Int)^states q: Ints; stable t: Int^transitions output put pre m = t propose m := t eff q := append(q, m); t := t + 1^composition One components A: Host crash down recover up | put(0)^down^put(1)^ | list, line 3:^    put(1)^A is down, so that put(1) is not enabled^f, line 5:^    transitions output put pre m = t propose m := t eff q := append(q, m); t := t + 1^A.q = Ints[]^A.t = 1^A.up = false^
replay f | type Ints = seq 16 of Int^automaton Host^signature output put(m: Int)^states q: Ints; stable t: Int^transitions output put pre m = t propose m := t eff q := append(q, m); t := t + 1^composition One components A: Host crash down recover up | put(0)^down^up^put(2)^ | list, line 4:^    put(2)^the precondition of put(2) in A is false^f, line 5:^    transitions output put pre m = t propose m := t eff q := append(q, m); t := t + 1^A.q = Ints[]^A.t = 1^A.up = true^
replay f | automaton Host^signature output put(m: Int)^states up: Bool^transitions output put pre m = 0 propose m := 0^automaton Other^signature input x^transitions input x^composition One components A: Host; B: Other crash down recover up | down^put(1)^ | list, line 2:^    put(1)^the precondition of put(1) in A is false^f, line 4:^    transitions output put pre m = 0 propose m := 0^A.up = false^
-- each fault by what it is
replay f | automaton A^signature internal a^states n: Int := 9223372036854775807^transitions internal a eff n := n + 1^composition One components X: A | a^ | list, line 1:^    a^fault 1 in the effect of a in X: the result does not fit 64 bits^f, line 4:^    transitions internal a eff n := n + 1^X.n = 9223372036854775807^
replay f | type Q = seq 1 of Int^automaton A^signature internal a^states q: Q^transitions internal a pre head(q) = 1^composition One components X: A | a^ | list, line 1:^    a^fault 3 in the precondition of a in X: the sequence is empty^f, line 5:^    transitions internal a pre head(q) = 1^X.q = Q[]^
replay f | type Q = seq 1 of Int^automaton A^signature internal a^states q: Q; n: Int^transitions internal a eff n := at(q, 0)^composition One components X: A | a^ | list, line 1:^    a^fault 4 in the effect of a in X: the index is not from 0 to less than the sequence's length^f, line 5:^    transitions internal a eff n := at(q, 0)^X.q = Q[]^X.n = 0^
replay f | type Q = seq 1 of Int^automaton A^signature internal a^states q: Q^transitions internal a eff q := append(q, 7)^composition One components X: A | a^a^ | list, line 2:^    a^fault 5 in the effect of a in X: the sequence is full^f, line 5:^    transitions internal a eff q := append(q, 7)^X.q = Q[7]^
-- the effect of another component that has the action, and an owner's whose precondition is true
replay f | automaton A^signature output a^transitions output a^automaton B^signature input a^states n: Int^transitions input a eff n := 1 mod n^composition Two components X: A; Y: B | a^ | list, line 1:^    a^fault 2 in the effect of a in Y: the divisor is 0^f, line 7:^    transitions input a eff n := 1 mod n^Y.n = 0^
replay f | automaton A^signature output a^states n: Int^transitions output a pre 1 = 1 eff n := 1 mod n^composition One components X: A | a^ | list, line 1:^    a^fault 2 in the effect of a in X: the divisor is 0^f, line 4:^    transitions output a pre 1 = 1 eff n := 1 mod n^X.n = 0^
replay f | automaton A^signature output a^states n: Int^transitions output a pre 1 mod n = 0 eff n := 1 mod n^composition One components X: A | a^ | list, line 1:^    a^fault 2 in the precondition of a in X: the divisor is 0^f, line 4:^    transitions output a pre 1 mod n = 0 eff n := 1 mod n^X.n = 0^
-- refusals
check f | automaton A^signature internal a^states n: Int := true^transitions internal a |  | f:3: E7: `n` is of type Int, and `true` is of type Bool^    states n: Int := true^ | E7
check f | automaton A signature &a@170 |  | f:1: E2: a name has at most 64 bytes, and `aaaaaaaaaaaaaaaaaaaaaaaa..` has 170^    automaton A signature &a@138& ..^ | E2
-- the sign at which no token begins
check f | automaton A^signature internal a^states n: Int^transitions internal a pre n != 0 |  | f:4: E2: `!=` is no sign of the language: unequal is written `~=`^    transitions internal a pre n != 0^ | E2
check f | automaton A^signature internal a // b |  | f:2: E2: `//` is no sign of the language: a comment begins with `%`^    signature internal a // b^ | E2
check f | automaton A^signature internal a^transitions internal a pre 1 ≤ 2 |  | f:3: E2: `≤` is no sign of the language: write `<=`^    transitions internal a pre 1 ≤ 2^ | E2
check f | automaton A$ |  | f:1: E2: `$` is no sign of the language^    automaton A$^ | E2
check f | type T = seq 9223372036854775808 of Int |  | f:1: E2: this number is above 9223372036854775807^    type T = seq 9223372036854775808 of Int^ | E2
-- the token with which no source goes on, and what may stand in its place
check f | automaton A^signature internal a; internal b^states n: Int^transitions^  internal a eff^    if n < 1 then n := 1^  internal b |  | f:7: E3: `internal` does not fit: `fi` is missing before it; here may stand `;`, `elseif`, `else`, `fi` or an operator; the `if` of line 6 is open^      internal b^ | E3
check f | automaton A^signature internal a; internal b^states n: Int^transitions^  internal a eff^    if n < 1 then n := 1 else if n < 2 then n := 2 fi^  internal b |  | f:7: E3: `internal` does not fit: `fi` is missing before it; here may stand `;` or `fi`; the `if` of line 6 is open, and `else if` is written `elseif`^      internal b^ | E3
check f | automaton A^signature internal a^states last: Int^transitions internal a |  | f:3: E3: `last` does not fit: it is a reserved word; here may stand a name or `stable`^    states last: Int^ | E3
check f | automaton A^signature internal a^states n: Int^transitions internal a pre n == 0 |  | f:4: E3: `=` does not fit: equality is one `=`; here may stand an expression^    transitions internal a pre n == 0^ | E3
check f | automaton A^signature internal a^states n: Int^transitions internal a eff n = 0 |  | f:4: E3: `=` does not fit: an assignment is written `:=`; here may stand `:=`^    transitions internal a eff n = 0^ | E3
check f | automaton A^signature internal a^states n: Int^transitions internal a pre n = 0 and n < 1 |  | f:4: E3: `and` does not fit: write `/\`; here may stand `propose`, `eff`, `input`, `output`, `internal`, an operator or a declaration^    transitions internal a pre n = 0 and n < 1^ | E3
check f | automaton A^signature output a(k: Int)^transitions^  output a(k) |  | f:4: E3: `(` does not fit: a transition has the name of its entry alone, and the parameters stand in the signature; here may stand `pre`, `propose`, `eff`, `input`, `output`, `internal` or a declaration^      output a(k)^ | E3
check f | automaton A^signature internal a^transitions internal a^composition One components X: A crash down |  | f:4: E3: the source ends here, where only this may stand: `recover`^    composition One components X: A crash down^ | E3
check f | Automaton A^signature internal a^transitions internal a |  | f:1: E3: `Automaton` does not fit: write `automaton`; here may stand a declaration^    Automaton A^ | E3
check f | automaton A^signature internal a^transition internal a |  | f:3: E3: `transition` does not fit: write `transitions`; here may stand `;`, `(`, `states` or `transitions`^    transition internal a^ | E3
check f | type S = seq 3 of Int^automaton A^signature internal a; internal b^states s: S; n: Int^transitions^  internal a eff^    for y in s do n := y^  internal b |  | f:8: E3: `internal` does not fit: `od` is missing before it; here may stand `;`, `od` or an operator; the `for` of line 7 is open^      internal b^ | E3
check f | type S = seq 3 of Int^automaton A^signature internal a^states s: S; n: Int^transitions^  internal a eff for y s do n := y od |  | f:6: E3: `s` does not fit: `in` is missing before it; here may stand `in`^      internal a eff for y s do n := y od^ | E3
check f | type S = seq 3 of Int^automaton A^signature internal a^states s: S; n: Int^transitions^  internal a eff n := 1; then |  | f:6: E3: `then` does not fit: it is a reserved word; here may stand a name, `if`, `for`, `input`, `output`, `internal` or a declaration^      internal a eff n := 1; then^ | E3
-- the name, and what else it is
check f | type S = seq 3 of Int^automaton A^signature internal a^states s: S; n: Int^transitions^  internal a eff for n in s do n := 1 od |  | f:6: E5: `n` is declared on line 4 already, as a variable of A^      internal a eff for n in s do n := 1 od^ | E5
check f | type S = seq 3 of Int^automaton A^signature internal a^states s: S; n: Int^transitions^  internal a eff for y in s do n := y od;^  for y in s do^  for y in s do n := y od od |  | f:8: E5: `y` is declared on line 7 already, as the name of a loop of a^      for y in s do n := y od od^ | E5
check f | type S = seq 3 of Int^automaton A^signature input a(y: Int)^states s: S; n: Int^transitions^  input a eff for y in s do n := y od |  | f:6: E5: `y` is declared on line 3 already, as a parameter of a^      input a eff for y in s do n := y od^ | E5
check f | type S = seq 3 of Int^automaton A^signature internal a^states s: S; n: Int^transitions^  internal a eff for y in s do n := y od;^  n := y |  | f:7: E6: `y` is the name of a loop of a, which is not read here^      n := y^ | E6
check f | type S = seq 3 of Int^automaton A^signature internal a^states s: S; n: Int^transitions^  internal a eff for y in s do y := 1 od |  | f:6: E6: `y` is the name of a loop of a, and only variables of the automaton are assigned to^      internal a eff for y in s do y := 1 od^ | E6
check f | automaton A(n: Int)^signature internal a^states n: Int^transitions internal a |  | f:3: E5: `n` is declared on line 1 already, as a formal of A^    states n: Int^ | E5
check f | type T = enum { red }^^automaton red^signature internal a^transitions internal a |  | f:3: E5: `red` is declared on line 1 already, as a name of the enumeration T^    automaton red^ | E5
check f | type Int = seq 1 of Bool |  | f:1: E5: `Int` is a type without a declaration^    type Int = seq 1 of Bool^ | E5
check f | automaton A^signature output a(k: Int)^transitions output a pre true propose k := 1,^  k := 2 |  | f:4: E5: `k` stands here again, as on line 3^      k := 2^ | E5
check f | automaton A^signature internal a^states count: Int^transitions internal a eff count := coumt + 1 |  | f:4: E6: `coumt` is declared nowhere: is `count` meant?^    transitions internal a eff count := coumt + 1^ | E6
check f | automaton A^signature internal a^states n: Nat^transitions internal a |  | f:3: E6: `Nat` is declared nowhere: write `Int`^    states n: Nat^ | E6
check f | automaton A^signature input a(k: Int)^transitions input a eff k := 1 |  | f:3: E6: `k` is a parameter of a, and only variables of the automaton are assigned to^    transitions input a eff k := 1^ | E6
check f | automaton A^signature internal a^states t: T^transitions internal a^type T = enum { red } |  | f:3: E6: `T` is a type, and is declared later, on line 5^    states t: T^ | E6
check f | automaton A^signature internal a^states n: Int^transitions internal a^automaton B^signature internal b^transitions internal b pre n = 1 |  | f:7: E6: `n` is a variable of A (line 3), and is not known here^    transitions internal b pre n = 1^ | E6
-- the entry, the transition and the parameter
check f | automaton A^signature input a^transitions input a pre 1 = 1 |  | f:3: E8: `a` is an input, which is always enabled: it has neither `pre` nor `propose`^    transitions input a pre 1 = 1^ | E8
check f | automaton A^signature internal a; internal b^transitions internal a |  | f:2: E8: the internal `b` has no transition in A^    signature internal a; internal b^ | E8
check f | automaton A^signature internal a^transitions internal a; |  | f:3: E3: `;` does not fit: here may stand `pre`, `propose`, `eff`, `input`, `output`, `internal` or a declaration^    transitions internal a;^ | E3
check f | automaton A^signature input a^transitions output a |  | f:3: E8: `a` is an input in the signature, on line 2, and an output here^    transitions output a^ | E8
check f | automaton A^signature internal a^transitions^  internal a^  internal b |  | f:5: E8: the signature of A has no entry `b` for this transition^      internal b^ | E8
check f | automaton A^signature internal a^transitions^  internal a^  internal a |  | f:5: E8: `a` has a transition already, on line 4: join both by `if`^      internal a^ | E8
check f | automaton A^signature output a(k: Int)^transitions output a pre true |  | f:3: E9: no value is proposed for `k` of `a`: write `propose k := ..`^    transitions output a pre true^ | E9
replay f | automaton A(n: Int)^signature internal a^transitions internal a^composition One components^  X: A(1);^  Y: A(true)^ |  | f:6: E12: A(n: Int) wants type Int for `n`, and what is given is of type Bool^      Y: A(true)^ | E12
graph f --comp Two | automaton A^signature internal a^transitions internal a^composition One components X: A |  | f: E17: the source declares no composition `Two`: there is `One`^ | E17
-- of runs by many seeds the composition, or else the first specification that is none
run f --alone --seeds 1..2 --comp One --monitor One --monitor Nine | automaton A^signature output a^transitions output a^composition One components X: A^composition Two components X: A |  | f: E17: the source declares no composition `Nine`: there is `One`, `Two`^ | E17
run f --alone --seeds 1..2 --comp Nine --monitor Ten | automaton A^signature output a^transitions output a^composition One components X: A |  | f: E17: the source declares no composition `Nine`: there is `One`^ | E17
replay f | automaton A^signature internal a^transitions internal a^composition One components X: A | a^a(^ | list:2: L2: this line cannot be read: an action is written as `tick(5)`^    a(^ | L2
-- the type that is wanted, the type that is found, and of which part
check f | automaton A^signature internal a^states c: Int^transitions internal a eff c := c < 1 |  | f:4: E7: `c` is of type Int, and what begins with `c` is of type Bool^    transitions internal a eff c := c < 1^ | E7
check f | type T = enum { red }^automaton A^signature internal a^states c: Int^transitions internal a eff c := red |  | f:5: E7: `c` is of type Int, and `red` is of type T^    transitions internal a eff c := red^ | E7
check f | automaton A^signature internal a^states c: Int^transitions internal a eff if c then c := 1 fi |  | f:4: E7: a condition is of type Bool, and `c` is of type Int^    transitions internal a eff if c then c := 1 fi^ | E7
check f | automaton A^signature internal a^states c: Int^transitions internal a eff if c < 1 then c := 1 elseif c = true then c := 2 else c := 3 fi |  | f:4: E7: `=` wants type Int, and `true` is of type Bool^    transitions internal a eff if c < 1 then c := 1 elseif c = true then c := 2 else c := 3 fi^ | E7
check f | automaton A^signature internal a^states c: Int^transitions internal a eff if c < 1 then c := 1 else c := false fi |  | f:4: E7: `c` is of type Int, and `false` is of type Bool^    transitions internal a eff if c < 1 then c := 1 else c := false fi^ | E7
check f | automaton A^signature internal a^states c: Int^transitions internal a pre c |  | f:4: E7: a precondition is of type Bool, and `c` is of type Int^    transitions internal a pre c^ | E7
check f | automaton A^signature internal a^states c: Int^transitions internal a eff c := c + true |  | f:4: E7: `+` wants type Int, and `true` is of type Bool^    transitions internal a eff c := c + true^ | E7
check f | automaton A^signature internal a^states c: Int^transitions internal a eff c := true + c |  | f:4: E7: `+` wants type Int, and `true` is of type Bool^    transitions internal a eff c := true + c^ | E7
check f | automaton A^signature internal a^states c: Int^transitions internal a pre (c < 1) + 1 = 2 |  | f:4: E7: `+` wants type Int, and what begins with `(` is of type Bool^    transitions internal a pre (c < 1) + 1 = 2^ | E7
check f | automaton A^signature internal a^states c: Int^transitions internal a pre c /\ true |  | f:4: E7: `/\` wants type Bool, and `c` is of type Int^    transitions internal a pre c /\ true^ | E7
check f | automaton A^signature internal a^states c: Int^transitions internal a pre ~c |  | f:4: E7: `~` wants type Bool, and `c` is of type Int^    transitions internal a pre ~c^ | E7
check f | automaton A^signature internal a^states c: Int^transitions internal a eff c := c.a |  | f:4: E7: `.` wants a tuple here, and `c` is of type Int^    transitions internal a eff c := c.a^ | E7
check f | type P = tuple { a: Int, b: Bool }^automaton A^signature internal a^states p: P; c: Int^transitions internal a pre c = p |  | f:5: E7: `=` wants type Int, and `p` is of type P^    transitions internal a pre c = p^ | E7
check f | type P = tuple { a: Int, b: Bool }^automaton A^signature internal a^states p: P; c: Int^transitions internal a eff p := P(1) |  | f:5: E7: P has 2 fields, and 1 is given^    transitions internal a eff p := P(1)^ | E7
check f | type P = tuple { a: Int, b: Bool }^automaton A^signature internal a^states p: P; c: Int^transitions internal a eff p := P(1, true, 2) |  | f:5: E7: P has 2 fields, and 3 are given^    transitions internal a eff p := P(1, true, 2)^ | E7
check f | type P = tuple { a: Int, b: Bool }^automaton A^signature internal a^states p: P; c: Int^transitions internal a eff p := P(true, false) |  | f:5: E7: the field `a` of P is of type Int, and `true` is of type Bool^    transitions internal a eff p := P(true, false)^ | E7
check f | type S = seq 4 of Int^automaton A^signature internal a^states q: S; c: Int^transitions internal a eff q := S(1) |  | f:5: E7: `S` is no type of tuples^    transitions internal a eff q := S(1)^ | E7
check f | type S = seq 4 of Int^automaton A^signature internal a^states q: S; c: Int^transitions internal a eff q := empty(Int) |  | f:5: E7: `empty` wants a type of sequences, and `Int` is none^    transitions internal a eff q := empty(Int)^ | E7
check f | type S = seq 4 of Int^automaton A^signature internal a^states q: S; c: Int^transitions internal a eff q := append(q, true) |  | f:5: E7: `append` wants type Int, and `true` is of type Bool^    transitions internal a eff q := append(q, true)^ | E7
check f | type S = seq 4 of Int^automaton A^signature internal a^states q: S; c: Int^transitions internal a eff q := append(c, 1) |  | f:5: E7: `append` wants a sequence here, and `c` is of type Int^    transitions internal a eff q := append(c, 1)^ | E7
check f | type S = seq 4 of Int^automaton A^signature internal a^states q: S; c: Int^transitions internal a eff c := len(c) |  | f:5: E7: `len` wants a sequence here, and `c` is of type Int^    transitions internal a eff c := len(c)^ | E7
check f | type S = seq 4 of Int^automaton A^signature internal a^states q: S; c: Int^transitions internal a pre member(1, c) |  | f:5: E7: `member` wants a sequence of Int here, and `c` is of type Int^    transitions internal a pre member(1, c)^ | E7
check f | type S = seq 4 of Int^automaton A^signature internal a^states q: S; c: Int^transitions internal a pre member(true, q) |  | f:5: E7: `member` wants type Int, and `true` is of type Bool^    transitions internal a pre member(true, q)^ | E7
check f | type S = seq 4 of Int^automaton A^signature internal a^states q: S; c: Int^transitions internal a pre member(q, 1) |  | f:5: E7: `member` wants a value and then a sequence of such values, and `q` is of type S^    transitions internal a pre member(q, 1)^ | E7
check f | type S = seq 4 of Int^automaton A^signature internal a^states q: S; c: Int^transitions internal a eff for y in c do c := y od |  | f:5: E7: `for` wants a sequence here, and `c` is of type Int^    transitions internal a eff for y in c do c := y od^ | E7
check f | type S = seq 4 of Int^automaton A^signature internal a^states q: S; c: Int^transitions internal a eff for y in q do c := y = c od |  | f:5: E7: `c` is of type Int, and what begins with `y` is of type Bool^    transitions internal a eff for y in q do c := y = c od^ | E7
check f | automaton A^signature output a(k: Int); output b(t: Bool)^states c: Int^transitions^  output a pre true propose k := true^  output b pre true propose t := true |  | f:5: E7: `k` is of type Int, and `true` is of type Bool^      output a pre true propose k := true^ | E7
check f | automaton A^signature output a(k: Int); output b(t: Bool)^states c: Int^transitions^  output a pre true propose k := any(true)^  output b pre true |  | f:5: E7: the bound of `any` is of type Int, and `true` is of type Bool^      output a pre true propose k := any(true)^ | E7
check f | automaton A^signature output a(k: Int); output b(t: Bool)^states c: Int^transitions^  output a pre true propose k := c^  output b pre true propose t := any(3) |  | f:6: E7: `any` gives an Int, and `t` is of type Bool^      output b pre true propose t := any(3)^ | E7
check f | automaton A^signature internal a^states c: Int^transitions internal a ^invariant of A: true^invariant of A: c |  | f:6: E7: an invariant is of type Bool, and `c` is of type Int^    invariant of A: c^ | E7
check f | automaton A(n: Int)^signature internal a^transitions internal a^composition One components X: A(1 + true) |  | f:4: E7: `+` wants type Int, and `true` is of type Bool^    composition One components X: A(1 + true)^ | E7
-- the arguments, and the formals
replay f | automaton A(n: Int, t: Bool)^signature internal a^transitions internal a^composition One components^  X: A |  | f:5: E12: A(n: Int, t: Bool) wants 2 arguments, and 0 are given^      X: A^ | E12
replay f | automaton A(n: Int, t: Bool)^signature internal a^transitions internal a^composition One components^  X: A(1, 2) |  | f:5: E12: A(n: Int, t: Bool) wants type Bool for `t`, and what is given is of type Int^      X: A(1, 2)^ | E12
replay f | automaton A^signature internal a^transitions internal a^composition One components^  X: A(1) |  | f:5: E12: A wants 0 arguments, and 1 is given^      X: A(1)^ | E12
-- names in place of numbers, what they are, and on which lines
replay f | automaton A^signature internal a^transitions internal a^composition One components X: A crash a recover up |  | f:4: E13: `a` is the name of an entry of A, on line 2^    composition One components X: A crash a recover up^ | E13
replay f | automaton A^signature internal a^transitions internal a^composition One components X: A crash up recover up |  | f:4: E13: `up` is to be both crash and recover, which need two names^    composition One components X: A crash up recover up^ | E13
replay f | automaton A^signature internal a^transitions internal a^composition One components ^  X: A;^  Y: A |  | f:6: E14: `a` is an internal action of X (line 2) and an internal action of Y (line 2): both are of A, and a `const` formal among the positions tells their actions apart^      Y: A^ | E14
check f --compositions | automaton A^signature internal a^transitions internal a^composition One components ^  X: A;^  Y: A^composition Two components Z: A |  | f:6: E14: `a` is an internal action of X (line 2) and an internal action of Y (line 2): both are of A, and a `const` formal among the positions tells their actions apart^      Y: A^ | E14
replay f | automaton A^signature output a^transitions output a^automaton B^signature internal a^transitions internal a^composition Two components^  X: A;^  Y: B |  | f:9: E14: `a` is an output of X (line 2) and an internal action of Y (line 5)^      Y: B^ | E14
replay f | automaton A^signature internal a^transitions internal a^automaton B^signature input x^transitions input x^composition Two components^  X: A;^  Y: B crash a recover up |  | f:9: E14: `a` is an internal action of X (line 2) and the crash of Y^      Y: B crash a recover up^ | E14
replay f | automaton A^signature output tick; input reset^transitions output tick input reset^composition One components X: A^hidden tock |  | f:5: E15: no component has an output `tock`: is `tick` meant?^    hidden tock^ | E15
replay f | automaton A^signature output tick; input reset^transitions output tick input reset^composition One components X: A^hidden other |  | f:5: E15: no component has an output `other`^    hidden other^ | E15
replay f | automaton A^signature output tick; input reset^transitions output tick input reset^composition One components X: A^hidden reset |  | f:5: E15: `reset` is an input of X (line 2), and only outputs are hidden^    hidden reset^ | E15
replay f | automaton A^signature internal a^transitions internal a |  | f: E17: the source declares no composition^ | E17
replay f --comp Nine | automaton A^signature internal a^transitions internal a^composition One components X: A^composition Two components X: A |  | f: E17: the source declares no composition `Nine`: there is `One`, `Two`^ | E17
-- a list for a log, a log for a list, and what is not known in them
replay f --log | automaton A^signature internal a^transitions internal a^composition One components X: A | a^ | log:1: L1: this is an action, as a list has, and a log is wanted here: `ioac log` makes one of a list^    a^ | L1
replay f --log | automaton A^signature internal a^transitions internal a^composition One components X: A | {'act':'a','who':0}^ | log:1: L1: this line is no JSON: a log has one JSON object a line, as `{"act":"tick(5)","who":0}`, and last `{"end":"done after 1"}`^    {'act':'a','who':0}^ | L1
replay f | automaton A^signature internal a^transitions internal a^composition One components X: A | {"act":"a","who":0}^ | list:1: L2: this is a line of a log, and a list is wanted here: with `--log` a log is read^    {"act":"a","who":0}^ | L2
log f | automaton A^signature internal a^transitions internal a^composition One components X: A | {"act":"a","who":0}^ | list:1: L2: this is a line of a log, and a list is wanted here: with `--log` a log is read^    {"act":"a","who":0}^ | L2
replay f | type P = tuple { n: Int, t: Bool }^automaton A^signature input send(p: P)^transitions input send^composition One components X: A | send(P(1, true))^send(Q(1, true))^ | list:2: L2: the source has neither a type nor a name of an enumeration `Q`^    send(Q(1, true))^ | L2
replay f --log | type P = tuple { n: Int, t: Bool }^automaton A^signature input send(p: P)^transitions input send^composition One components X: A | {"act":"send(Packet(1, true))","who":1}^{"end":"done after 1"}^ | log:1: L2: the source has neither a type nor a name of an enumeration `Packet`^    {"act":"send(Packet(1, true))","who":1}^ | L2
replay f --log | automaton A^signature internal a^transitions internal a^composition One components X: A | {"act":"a","who":"X"}^{"end":"done after 1"}^ | log:1: L2: this line cannot be read: a log has one JSON object a line, as `{"act":"tick(5)","who":0}`, and last `{"end":"done after 1"}`^    {"act":"a","who":"X"}^ | L2
-- whose action it is, and what stands behind the end
replay f --log | automaton A^signature internal a^transitions internal a^composition One components X: A | {"act":"a","who":1}^{"end":"done after 1"}^ | log:1: L3: a is performed by X, worker 0, and the log says worker 1^    {"act":"a","who":1}^ | L3
replay f --log | type P = tuple { n: Int, t: Bool }^automaton A^signature input send(p: P)^transitions input send^composition One components X: A | {"act":"send(P(1, true))","who":0}^{"end":"done after 1"}^ | log:1: L3: send(P(1, true)) is performed by the environment, worker 1, and the log says worker 0^    {"act":"send(P(1, true))","who":0}^ | L3
replay f --log | automaton A^signature internal a^transitions internal a^composition One components X: A | {"act":"a","who":0}^{"end":"done after 1"}^{"act":"a","who":0}^ | log:3: L6: the log ends on line 2, and nothing stands behind its end^    {"act":"a","who":0}^ | L6
-- what a monitor cannot see
monitor f | automaton A^signature internal a^transitions internal a^composition One components X: A | {"end":"done after 0"}^ | f:2: L7: `a` is an internal action of X, which no log shows^    signature internal a^ | L7
monitor f | automaton A^signature output tick^transitions output tick^composition One components X: A^hidden tick | {"end":"done after 0"}^ | f:5: L7: `tick` is hidden, and a log shows it^    hidden tick^ | L7
replay g |  |  | g was not read: there is none^
compile f p | automaton A^signature internal a^transitions internal a^composition One components X: A |  | p was not written: it is no file, p.part is there already, or the system refuses^
run f --alone --turns 1 --seeds 1..1 --monitor No --keep p | automaton A^signature output a^transitions output a^automaton B^signature output a^transitions output a pre false^composition No components X: B^composition One components X: A |  | p was not written: it is no file, p.part is there already, or the system refuses^
-- what a watch counted, and where its specification is full
watch f --comp One | type Q = seq 1 of Int^automaton A^signature output put(k: Int); input reset^states q: Q^transitions output put propose k := 0 eff q := append(q, k) input reset^composition One components X: A | {"act":"put(7)"}^{"act":"other(7)"}^{"act":"reset"}^{"act":"reset"}^ | One: 1 put, 2 reset, 1 of other names^
watch f --comp One | type Q = seq 1 of Int^automaton A^signature output put(k: Int); input reset^states q: Q^transitions output put propose k := 0 eff q := append(q, k) input reset^composition One components X: A | {"act":"reset"}^{"act":"put(7)"}^{"act":"put(8)"}^ | One: 1 put, 1 reset, 0 of other names^One: the specification is full, which tells nothing of the system^
watch f --comp One | automaton A^signature output up^states n: Int := 9223372036854775807^transitions output up eff n := n + 1^composition One components X: A | {"act":"up"}^ | One: 0 up, 0 of other names^
watch f --comp One --comp Two | automaton A^signature output a^transitions output a^automaton B^signature input a; output b^transitions input a output b pre false^composition One components X: A; Y: B^composition Two components X: A | {"act":"a"}^{"act":"b"}^{"act":"a"}^ | One: 1 a, 0 b, 0 of other names^Two: 2 a, 1 of other names^
-- logs, monitors and invariants
replay f --log | automaton C^signature output tick(k: Int)^states c: Int^transitions^  output tick pre k = c propose k := c eff c := c + 1^composition One components A: C | {"act":"tick(0)","who":0}^{"act":"tick(5)","who":0}^{"end":"done after 2"}^ | log:2: L4: the composition's run differs from here on^    {"act":"tick(5)","who":0}^the precondition of tick(5) in A is false^f, line 5:^      output tick pre k = c propose k := c eff c := c + 1^A.c = 1^ | L4
replay f --log | automaton A^signature internal a^transitions internal a^composition One components X: A | {"act":"a","who":0}^{"end":"done after 2"}^ | log:2: L4: the composition's run differs from here on^    {"end":"done after 2"}^all actions of the log are performed, so that the run's end is: done after 1^ | L4
-- the line on which a log differs, and how: the last action is performed, or is not enabled, or faults otherwise; or there is none
replay f --log | automaton A^signature output a(k: Int)^states n: Int^transitions output a pre k = n propose k := n eff n := n + 1^composition One components X: A | {"act":"a(0)","who":0}^{"end":"fault 2 in component 1 at 0"}^ | log:1: L4: the composition's run differs from here on^    {"act":"a(0)","who":0}^the log says that a(0) faults, and it is performed^ | L4
replay f --log | automaton A^signature output a(k: Int)^states n: Int^transitions^  output a pre k = n propose k := n eff n := n + 1^composition One components X: A | {"act":"a(0)","who":0}^{"act":"a(5)","who":0}^{"end":"fault 2 in component 0 at 1"}^ | log:2: L4: the composition's run differs from here on^    {"act":"a(5)","who":0}^the precondition of a(5) in X is false^f, line 5:^      output a pre k = n propose k := n eff n := n + 1^X.n = 1^ | L4
replay f --log | automaton D^signature internal a^states n: Int^transitions^  internal a eff n := 1 div n^composition One components E: D | {"act":"a","who":0}^{"end":"fault 1 in component 0 at 0"}^ | log:2: L4: the composition's run differs from here on^    {"end":"fault 1 in component 0 at 0"}^the run's end is: fault 2 in component 0 at 0^fault 2 in the effect of a in E: the divisor is 0^f, line 5:^      internal a eff n := 1 div n^E.n = 0^ | L4
replay f --log | automaton D^signature internal a^states n: Int^transitions^  internal a eff n := 1 div n^composition One components E: D | {"act":"a","who":0}^{"end":"done after 1"}^ | log:1: L4: the composition's run differs from here on^    {"act":"a","who":0}^fault 2 in the effect of a in E: the divisor is 0^f, line 5:^      internal a eff n := 1 div n^E.n = 0^ | L4
replay f --log | automaton A^signature internal a^transitions internal a^composition One components X: A | {"end":"fault 1 in component 0 at 0"}^ | log:1: L4: the composition's run differs from here on^    {"end":"fault 1 in component 0 at 0"}^all actions of the log are performed, so that the run's end is: done after 0^ | L4
replay f --log | automaton A^signature internal a^transitions internal a^composition One components X: A | {"act":"b","who":1}^{"end":"done after 1"}^ | log:1: L4: the composition's run differs from here on^    {"act":"b","who":1}^no component has b^ | L4
-- what is told needs no more of the log than comes up to that line, and its end where this comes next
replay f --log | automaton C^signature output tick(k: Int)^states c: Int^transitions^  output tick pre k = c propose k := c eff c := c + 1^composition One components A: C | {"act":"tick(5)","who":0}^x^ | log:1: L4: the composition's run differs from here on^    {"act":"tick(5)","who":0}^the precondition of tick(5) in A is false^f, line 5:^      output tick pre k = c propose k := c eff c := c + 1^A.c = 0^ | L4
replay f --log | automaton C^signature output tick(k: Int)^states c: Int^transitions^  output tick pre k = c propose k := c eff c := c + 1^composition One components A: C | {"act":"tick(5)","who":0}^&{"act":"tick(0)","who":0}^@4000&{"end":"done after 4001"}^ | log:1: L4: the composition's run differs from here on^    {"act":"tick(5)","who":0}^the precondition of tick(5) in A is false^f, line 5:^      output tick pre k = c propose k := c eff c := c + 1^A.c = 0^ | L4
replay f --log | automaton A^signature internal a^transitions internal a^composition One components X: A | {"act":"a","who":0}^{"end":"done after 2"}^x^ | log:2: L4: the composition's run differs from here on^    {"end":"done after 2"}^all actions of the log are performed, so that the run's end is: done after 1^ | L4
replay f --log | automaton D^signature internal a^states n: Int^transitions^  internal a eff n := 1 div n^composition One components E: D | {"act":"a","who":0}^{"act":"a","who":0}^x^ | log:1: L4: the composition's run differs from here on^    {"act":"a","who":0}^fault 2 in the effect of a in E: the divisor is 0^f, line 5:^      internal a eff n := 1 div n^E.n = 0^ | L4
replay f --log | automaton D^signature internal a^states n: Int^transitions^  internal a eff n := 1 div n^composition One components E: D | {"act":"a","who":0}^{"end":"fault 1 in component 0 at 0"}^x^ | log:2: L4: the composition's run differs from here on^    {"end":"fault 1 in component 0 at 0"}^the run's end is: fault 2 in component 0 at 0^fault 2 in the effect of a in E: the divisor is 0^f, line 5:^      internal a eff n := 1 div n^E.n = 0^ | L4
monitor f | automaton C^signature output tick(k: Int)^states c: Int^transitions output tick pre k = c propose k := c eff c := c + 1^composition One components A: C | {"act":"tick(0)","who":0}^{"act":"other","who":1}^{"end":"done after 2"}^ | One: 1 tick, 1 passed over^the specification has 1 of 2 actions of the log^
monitor f | automaton C^signature output tick(k: Int)^states c: Int^transitions output tick pre k = c propose k := c eff c := c + 1^composition One components A: C | {"act":"other","who":1}^{"end":"done after 1"}^ | One: 0 tick, 1 passed over^the specification has 0 of 1 actions of the log: nothing was specified^
monitor f | automaton C^signature output tick(k: Int)^states c: Int^transitions^  output tick pre k = c propose k := c eff c := c + 1^composition One components A: C | {"act":"tick(0)","who":0}^{"act":"other","who":1}^{"act":"tick(5)","who":0}^{"end":"done after 3"}^ | One: 1 tick, 1 passed over^the specification has 2 of 3 actions of the log^log, line 3:^    {"act":"tick(5)","who":0}^the precondition of tick(5) in A is false^f, line 5:^      output tick pre k = c propose k := c eff c := c + 1^A.c = 1^
-- of a monitor that is asked strictly the same is told
monitor f --strict | automaton C^signature output tick(k: Int)^states c: Int^transitions output tick pre k = c propose k := c eff c := c + 1^composition One components A: C | {"act":"tick(0)","who":0}^{"act":"other","who":1}^{"act":"tick(1)","who":0}^{"end":"done after 3"}^ | One: 2 tick, 1 passed over^the specification has 2 of 3 actions of the log^
monitor f --strict | automaton C^signature output tick(k: Int)^states c: Int^transitions output tick pre k = c propose k := c eff c := c + 1^composition One components A: C | {"act":"other","who":1}^{"end":"done after 1"}^ | One: 0 tick, 1 passed over^the specification has 0 of 1 actions of the log: nothing was specified^
monitor f --strict | automaton C^signature output tick(k: Int)^states c: Int^transitions output tick pre k = c propose k := c eff c := c + 1^composition One components A: C | {"act":"tick(0)","who":0}^{"act":"tick","who":0}^{"act":"tick(1)","who":0}^{"end":"done after 3"}^ | One: 2 tick, 1 passed over^the specification has 2 of 3 actions of the log^
monitor f --strict | automaton C^signature output tick(k: Int)^states c: Int^transitions^  output tick pre k = c propose k := c eff c := c + 1^composition One components A: C | {"act":"tick(0)","who":0}^{"act":"other","who":1}^{"act":"tick(5)","who":0}^{"end":"done after 3"}^ | One: 1 tick, 1 passed over^the specification has 2 of 3 actions of the log^log, line 3:^    {"act":"tick(5)","who":0}^the precondition of tick(5) in A is false^f, line 5:^      output tick pre k = c propose k := c eff c := c + 1^A.c = 1^
replay f --log --invariants | automaton C^signature internal a^states c: Int^transitions internal a eff c := c + 1^composition One components A: C^invariant of C: c < 2 | {"act":"a","who":0}^{"end":"done after 1"}^ | invariants asked: 1 in each of 2 states^
replay f --log --invariants | automaton C^signature internal a^states c: Int^transitions internal a eff c := c + 1^composition One components A: C^invariant of C: c < 2 | {"act":"a","who":0}^{"act":"a","who":0}^{"act":"a","who":0}^{"end":"done after 3"}^ | invariants asked: 1 in each of 3 states^log, line 2:^    {"act":"a","who":0}^after this action an invariant of A is broken:^f, line 6:^    invariant of C: c < 2^A.c = 2^
replay f --log --invariants | automaton C^signature internal a^states c: Int^transitions internal a eff c := c + 1^invariant of C:^  c < 3 /\^  1 <= c^^invariant of C: c < 0^composition One components A: C | {"end":"done after 0"}^ | invariants asked: 2 in each of 1 states^in the first state an invariant of A is broken:^f, line 5:^    invariant of C:^      c < 3 /\^      1 <= c^A.c = 0^
replay f --log --invariants | automaton C^signature internal a^transitions internal a^composition One components A: C | {"act":"a","who":0}^{"end":"done after 1"}^ | no invariant is declared of a component's automaton: nothing was asked^
-- one that has a fault, also of a component that crashes
replay f --log --invariants | automaton D^signature internal a^states n: Int^transitions internal a eff n := n + 1^invariant of D: 1 div n = 1^composition One components X: D | {"end":"done after 0"}^ | invariants asked: 1 in each of 1 states^in the first state an invariant of X has fault 2: the divisor is 0^f, line 5:^    invariant of D: 1 div n = 1^X.n = 0^
replay f --log --invariants | automaton D^signature internal a^states n: Int := 1^transitions internal a eff n := n - 1^composition One components X: D^invariant of D: 0 <= n^invariant of D: 1 div n = 1 | {"act":"a","who":0}^{"act":"a","who":0}^{"end":"done after 2"}^ | invariants asked: 2 in each of 2 states^log, line 1:^    {"act":"a","who":0}^after this action an invariant of X has fault 2: the divisor is 0^f, line 7:^    invariant of D: 1 div n = 1^X.n = 0^
replay f --log --invariants | type Q = seq 2 of Int^automaton A^signature internal a^states q: Q^transitions internal a eff q := append(q, 7)^automaton B^signature input b^transitions input b^invariant of A: head(q) = 7^composition Two components Y: B; X: A crash down recover up | {"end":"done after 0"}^ | invariants asked: 1 in each of 1 states^in the first state an invariant of X has fault 3: the sequence is empty^f, line 9:^    invariant of A: head(q) = 7^X.q = Q[]^X.up = true^
-- warnings
check f |  |  | warning: f: nothing is declared^
check f --compositions | % only this |  | warning: f: nothing is declared^
check f | automaton C^signature output tick(k: Int)^states c: Int^transitions^  output tick^  pre c < 9^  propose k := c^  eff c := c + 1 |  | warning: f, line 5: no precondition names k, so tick is enabled with any value of it^
check f | automaton C^signature output tick(k: Int); internal a^states c: Int^transitions^  output tick^  pre ~(true \/ c < 9)^  propose k := any(0)^  eff c := c + 1^  internal a^  pre c < 9 |  | warning: f, line 5: the precondition of tick is true in no state, so it is never performed^warning: f, line 5: `any` has no number to give to k, so tick is never proposed^
check f | automaton C^signature internal a^states c: Int^transitions internal a^  eff c := c % 2^ |  | warning: f, line 5: a comment begins within a statement; a remainder is written `mod`^
check f | automaton C^signature internal a^states c: Int^transitions internal a^  eff c := c + 1   % count up^
check f | automaton C^signature output tick(k: Int)^states c: Int^transitions^  output tick^  propose k := any(9)^  eff c := c + 1
check f | automaton C^signature output tick(k: Int)^states c: Int^transitions^  output tick^  pre true^  propose k := c^  eff c := c + 1
check f | automaton C^signature output tick(k: Int)^states c: Int := true^transitions^  output tick^  pre c < 9^  propose k := c^  eff c := c + 1 |  | f:3: E7: `c` is of type Int, and `true` is of type Bool^    states c: Int := true^warning: f, line 5: no precondition names k, so tick is enabled with any value of it^ | E7
"#;

/// The same, where the file is the object of this source: of a monitor what can be said without the source, and of what is no monitor nothing.
const OBJECTS: &str = r#"
monitor f | automaton C^signature output tick(k: Int)^states c: Int^transitions output tick pre k = c propose k := c eff c := c + 1^composition One components A: C | {"act":"tick(0)","who":0}^{"act":"other","who":1}^{"end":"done after 2"}^ | One: 1 tick, 1 passed over^the specification has 1 of 2 actions of the log^
monitor f | automaton C^signature output tick(k: Int)^states c: Int^transitions output tick pre k = c propose k := c eff c := c + 1^composition One components A: C | {"act":"other","who":1}^{"end":"done after 1"}^ | One: 0 tick, 1 passed over^the specification has 0 of 1 actions of the log: nothing was specified^
monitor f --strict | automaton C^signature output tick(k: Int)^states c: Int^transitions output tick pre k = c propose k := c eff c := c + 1^composition One components A: C | {"act":"tick(0)","who":0}^{"act":"tick","who":1}^{"end":"done after 2"}^ | One: 1 tick, 1 passed over^the specification has 1 of 2 actions of the log^
monitor f --comp One | automaton C^signature output tick(k: Int)^states c: Int^transitions output tick pre k = c propose k := c eff c := c + 1^composition One components A: C | {"act":"tick(0)","who":0}^{"act":"other","who":1}^{"act":"tick(5)","who":0}^{"end":"done after 3"}^ | One: 1 tick, 1 passed over^the specification has 2 of 3 actions of the log^log, line 3:^    {"act":"tick(5)","who":0}^tick(5) is not enabled in A^
-- the action at which a log ends by a fault is none that is monitored; another's fault is told with its component
monitor f | automaton C^signature output tick(k: Int)^states c: Int^transitions output tick pre k = c propose k := c eff c := c + 1^composition One components A: C | {"act":"tick(0)","who":0}^{"act":"tick(5)","who":0}^{"end":"fault 1 in component 0 at 1"}^ | One: 1 tick, 0 passed over^the specification has 1 of 1 actions of the log^
monitor f | automaton A^signature output a^transitions output a^automaton B^signature input a^states n: Int^transitions input a eff n := 1 mod n^composition Two components X: A; Y: B | {"act":"a","who":0}^{"end":"done after 1"}^ | Two: 0 a, 0 passed over^the specification has 1 of 1 actions of the log^log, line 1:^    {"act":"a","who":0}^fault 2 of a in Y: the divisor is 0^
monitor f | automaton C^signature output tick(k: Int)^transitions output tick propose k := 0^composition One components A: C | {"act":"tick(0)","who":0}^tick^ | log:2: L1: this is an action, as a list has, and a log is wanted here: `ioac log` makes one of a list^    tick^ | L1
monitor f --comp Two | automaton C^signature output tick^transitions output tick^composition One components A: C | {"end":"done after 0"}^ | f: E17: the object is of the composition `One`^ | E17
monitor f | automaton C^signature output tick^transitions output tick^composition One components A: C^hidden tick | {"end":"done after 0"}^ | f: L7: `tick` is hidden, and a log shows it^ | L7
-- what is no monitor
run f --alone --turns 1 | automaton D^signature internal a^states n: Int^transitions internal a eff n := 1 div n^composition One components E: D |  |
replay f | automaton C^signature output tick(k: Int)^states c: Int^transitions output tick pre k = c propose k := c eff c := c + 1^composition One components A: C | tick(5)^
replay f --log | automaton C^signature output tick(k: Int)^states c: Int^transitions output tick pre k = c propose k := c eff c := c + 1^composition One components A: C | {"act":"tick(5)","who":0}^{"end":"done after 1"}^ | log:1: L4: the composition's run differs from here on^    {"act":"tick(5)","who":0}^ | L4
monitor f | automaton C^signature internal a^transitions internal a^composition One components A: C | {"end":"done after 0"}^ | f: L7: `a` is an internal action of A, which no log shows^ | L7
"#;

/// What the program prints by these words and this file.
fn ran<H: Abort + Threads + Wait + Clock + Sync>(
    rt: &H,
    alloc: Global,
    words: &str,
    file: &[u8],
    columns: &[String],
) -> Ran {
    let given = Given {
        words,
        file,
        list: column(columns, 2),
    };
    run(rt, alloc, &given)
}

/// What is told in all: what is told without the flag, this behind it, and what `explain` says of a code, if there is one.
fn told<H: Abort + Threads + Wait + Clock + Sync>(
    rt: &H,
    alloc: Global,
    errors: &[u8],
    columns: &[String],
) -> Vec<u8> {
    let mut told = Vec::from_slice(alloc, errors).expect(rt, "memory");
    told.extend_from_slice(column(columns, 3).as_bytes())
        .expect(rt, "memory");
    let code = column(columns, 4);
    if !code.is_empty() {
        let words = format!(in alloc; "explain {code}").expect(rt, "memory");
        let said = ran(rt, alloc, words.as_str(), b"", columns);
        told.push(b'\n').expect(rt, "memory");
        told.extend_from_slice(&said.output).expect(rt, "memory");
    }
    told
}

fn expect_remark<H: Abort + Threads + Wait + Clock + Sync>(
    rt: &H,
    alloc: Global,
    row: &str,
    file: &[u8],
    columns: &[String],
) {
    let words = column(columns, 0);
    let without = ran(rt, alloc, words, file, columns);
    let flagged = format!(in alloc; "{words} --explain").expect(rt, "memory");
    let with = ran(rt, alloc, flagged.as_str(), file, columns);
    assert!(rt; with.output == without.output, "output in {row}");
    assert!(rt; with.status == without.status, "status in {row}");
    let wanted = told(rt, alloc, &without.errors, columns);
    assert!(rt; with.errors == wanted, "errors in {row}");
}

#[test]
fn outcomes_are_explained(rt: HostRuntime) {
    for row in REMARKS.lines() {
        if is_row(row) {
            let columns = columns(rt.alloc(), row).expect(&rt, "columns");
            let file = column(&columns, 1).as_bytes();
            expect_remark(&rt, rt.alloc(), row, file, &columns);
        }
    }
}

#[test]
fn outcomes_of_objects_are_explained(rt: HostRuntime) {
    for row in OBJECTS.lines() {
        if is_row(row) {
            let columns = columns(rt.alloc(), row).expect(&rt, "columns");
            let file = object(&rt, rt.alloc(), column(&columns, 1));
            expect_remark(&rt, rt.alloc(), row, &file, &columns);
        }
    }
}
