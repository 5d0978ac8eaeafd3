//! Lists of actions: how they are read, and how they end.

/// A list for the counter, what is printed, what is told of errors, and the exit status.
pub const ROWS: &str = "\
tick(5)^tick(6)^reset^ | tick(5)^tick(6)^reset^end: done after 3^ |  | 0
 | end: done after 0^ |  | 0
^ \t\r^%^% a comment | end: done after 0^ |  | 0
reset^reset | reset^reset^end: done after 2^ |  | 0
tick(5)^reset^tick(5)^ | tick(5)^reset^tick(5)^end: done after 3^ |  | 0
-- spelled otherwise, and printed in the one way
% a comment^^ \t tick ( 005 )\r^ | tick(5)^end: done after 1^ |  | 0
tick\t(5)% |  | L2 line 1^ | 4
\ttick(5)\t\r^% | tick(5)^end: done after 1^ |  | 0
tick(-0) | end: not enabled at 0^ |  | 4
-- not enabled
tick(6) | end: not enabled at 0^ |  | 4
tick(5)^tick(5)^tick(6) | tick(5)^end: not enabled at 1^ |  | 4
tick(5)^reset^tick(6)^ | tick(5)^reset^end: not enabled at 2^ |  | 4
tick(-9223372036854775808) | end: not enabled at 0^ |  | 4
tick(9223372036854775807) | end: not enabled at 0^ |  | 4
-- not an action
tick(true) | end: not an action at 0^ |  | 4
tick(5, 5) | end: not an action at 0^ |  | 4
tick | end: not an action at 0^ |  | 4
tock | end: not an action at 0^ |  | 4
Tick(5) | end: not an action at 0^ |  | 4
reset(1) | end: not an action at 0^ |  | 4
reset^tick(5)^tock^reset | reset^tick(5)^end: not an action at 2^ |  | 4
-- no list
tick(5 |  | L2 line 1^ | 4
tick(5)) |  | L2 line 1^ | 4
tick(5,) |  | L2 line 1^ | 4
tick() |  | L2 line 1^ | 4
tick(5) reset |  | L2 line 1^ | 4
tick(x) |  | L2 line 1^ | 4
tick(5)^^% so far^tick(- 5)^ |  | L2 line 4^ | 4
tick(9223372036854775808) |  | L2 line 1^ | 4
tick(-9223372036854775809) |  | L2 line 1^ | 4
if^ |  | L2 line 1^ | 4
 % not a comment |  | L2 line 1^ | 4
-- the whole list is read before it is performed, and its first bad line is named
tick(6)^tick(5 |  | L2 line 2^ | 4
tick(5)^(^) |  | L2 line 2^ | 4
";
