//! Logs of lists' runs.

/// The words after the program's name, a list for the counter, what is printed, what is told of errors, and the exit status.
pub const ROWS: &str = r#"
log f | tick(5)^tick(6)^reset^ | {"act":"tick(5)","who":0}^{"act":"tick(6)","who":0}^{"act":"reset","who":1}^{"end":"done after 3"}^ |  | 0
log f | tick(5)^tick(6)^reset | {"act":"tick(5)","who":0}^{"act":"tick(6)","who":0}^{"act":"reset","who":1}^{"end":"done after 3"}^ |  | 0
log --comp One f | reset^tick(5)^ | {"act":"reset","who":1}^{"act":"tick(5)","who":0}^{"end":"done after 2"}^ |  | 0
log f |  | {"end":"done after 0"}^ |  | 0
log f | % nothing^^ ^ | {"end":"done after 0"}^ |  | 0
-- actions have their one spelling
log f |  tick ( 005 ) ^% a comment^^reset^ | {"act":"tick(5)","who":0}^{"act":"reset","who":1}^{"end":"done after 2"}^ |  | 0
-- the log ends before the action that is not performed, and nothing is told of it but by the exit status
log f | tick(6)^ | {"end":"done after 0"}^ |  | 4
log f | tick(5)^tick(5)^tick(6)^ | {"act":"tick(5)","who":0}^{"end":"done after 1"}^ |  | 4
log f | tick(5)^tock^tick(6)^ | {"act":"tick(5)","who":0}^{"end":"done after 1"}^ |  | 4
log f | reset^reset(1)^ | {"act":"reset","who":1}^{"end":"done after 1"}^ |  | 4
-- the whole list is read before the log is written
log f | tick(5)^tick(6^ |  | L2 line 2^ | 4
log f | tick(9)^^% a comment^x y^reset^ |  | L2 line 4^ | 4
log f | {"act":"tick(5)","who":0}^{"end":"done after 1"}^ |  | L2 line 1^ | 4
-- the file and its composition come first
log g | x y |  | io^ | 5
log f --comp Nine | x y |  | E17^ | 1
-- words
log |  |  | error: the following required arguments were not provided:^  <FILE>^^Usage: ioac log <FILE>^^For more information, try '--help'.^ | 2
log f g |  |  | error: unexpected argument 'g' found^^Usage: ioac log [OPTIONS] <FILE>^^For more information, try '--help'.^ | 2
log --help |  | Performs a list of actions, read on standard input, and prints the log of this run^^Usage: ioac log [OPTIONS] <FILE>^^Arguments:^  <FILE>  A source of I/O automata, or an object of one^^Options:^      --comp <NAME>  The composition to take; without it, the last one^      --log          Standard input is a log, which has to be of the composition's run^      --until <N>    Stops after N actions; nothing behind them is judged, a log's end neither^      --explain      Says more of the outcome on standard error: which line, why, and in which state^  -h, --help         Print help^^The log has each action that is performed, with its worker, and last the end. An action that faults is its last entry;^where one is not enabled or none, the log ends as done before it. `replay --log` and `monitor` take the log.^With --log a log is read, as by `replay --log`, and printed; with --until its beginning, as a log that is done.^Example: ioac log --log --until 40 protocol.ioa < run.log > part.log^Exit status: 0 done, 1 source or object refused, 2 bad command line, 3 ended by a fault,^4 list or log refused, or ended not enabled or not an action, 5 memory, the file or a device.^ |  | 0
"#;

/// The words after the program's name, a source, a list, what is printed, what is told of errors, and the exit status.
pub const COMPOSED: &str = r#"
-- the action that faults is the last entry, and the fault is the end
log f | automaton Top signature output up; output see(x: Int) states n: Int := 9223372036854775806 transitions output up eff n := n + 1 output see pre x = n propose x := n composition One components A: Top | up^up^up^ | {"act":"up","who":0}^{"act":"up","who":0}^{"end":"fault 1 in component 0 at 1"}^ |  | 3
log f | automaton Top signature output up; output see(x: Int) states n: Int := 9223372036854775806 transitions output up eff n := n + 1 output see pre x = n propose x := n composition One components A: Top | up^see(0)^up^ | {"act":"up","who":0}^{"end":"done after 1"}^ |  | 4
log f | automaton Top signature output up; output see(x: Int) states n: Int := 9223372036854775806 transitions output up eff n := n + 1 output see pre x = n propose x := n composition One components A: Top | see(9223372036854775806)^up^up^ | {"act":"see(9223372036854775806)","who":0}^{"act":"up","who":0}^{"act":"up","who":0}^{"end":"fault 1 in component 0 at 2"}^ |  | 3
-- a component faults in an action that is another's
log f | automaton A signature output go transitions output go automaton B signature input go states n: Int := 1 transitions input go eff n := 1 div n; n := 0 composition C components P: A; Q: B | go^go^go^ | {"act":"go","who":0}^{"act":"go","who":0}^{"end":"fault 2 in component 1 at 1"}^ |  | 3
-- workers are owners, who come before and after the others; who performs an input is the environment; hidden and internal actions are told
log f | automaton A signature output put(x: Int) states n: Int transitions output put pre x = n propose x := n eff n := n + 1 automaton B signature input put(x: Int); internal rest; input stop states n: Int transitions input put eff n := n + x internal rest pre n > 0 eff n := 0 input stop composition C components P: B; Q: A hidden put | put(0)^put(1)^rest^stop^ | {"act":"put(0)","who":1}^{"act":"put(1)","who":1}^{"act":"rest","who":0}^{"act":"stop","who":2}^{"end":"done after 4"}^ |  | 0
log f --comp C | automaton A signature output go transitions output go automaton B signature input go transitions input go composition C components P: A; Q: B; R: B composition D components P: B; Q: B | go^ | {"act":"go","who":0}^{"end":"done after 1"}^ |  | 0
log f | automaton A signature output go transitions output go automaton B signature input go transitions input go composition C components P: A; Q: B; R: B composition D components P: B; Q: B | go^ | {"act":"go","who":2}^{"end":"done after 1"}^ |  | 0
-- crashes and recoveries are the environment's
log f | automaton A signature output put states n: Int transitions output put eff n := n + 1 composition C components P: A crash down recover up; Q: A crash fall recover rise | put |  | E14 components 0 and 1 on put^ | 1
log f | automaton A signature output put states n: Int transitions output put eff n := n + 1 composition C components P: A crash down recover up | put^down^up^down^put^ | {"act":"put","who":0}^{"act":"down","who":1}^{"act":"up","who":1}^{"act":"down","who":1}^{"end":"done after 4"}^ |  | 4
-- values are spelled as in lists
log f | type Kind = enum { data, ack } type Packet = tuple { kind: Kind, tag: Int } type Packets = seq 2 of Packet automaton A signature input send(ps: Packets, more: Bool) transitions input send composition C components P: A | send(Packets[Packet(data,1),Packet( ack , -02 )],true)^send(Packets[], false)^ | {"act":"send(Packets[Packet(data, 1), Packet(ack, -2)], true)","who":1}^{"act":"send(Packets[], false)","who":1}^{"end":"done after 2"}^ |  | 0
"#;
