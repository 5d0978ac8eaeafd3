//! Requests that replay nothing: checks, objects, explanations, the library.

/// The words after the program's name, a source, what is printed, what is told of errors, and the exit status.
pub const ROWS: &str = "\
check f |  | ok^ |  | 0
check f | automaton A signature input a transitions input a | ok^ |  | 0
check f | automaton A signature input a^states n: Int^transitions input a^eff n := true |  | E7 line 4^ | 1
check f | automaton A signature input a^transitions^$ |  | E2 line 3^ | 1
check f | automaton A signature input a^ |  | E3 line 2^ | 1
-- a check composes nothing
check f | automaton A signature input a transitions input a composition One components A: A(1) | ok^ |  | 0
replay f | automaton A signature input a transitions input a composition One components A: A(1) |  | E12 component 0^ | 1
-- with --compositions it composes each, and tells of the first that is refused
check f --compositions | automaton A signature input a transitions input a | ok^ |  | 0
check f --compositions | automaton A signature input a transitions input a composition One components A: A composition Two components A: A; B: A | ok^ |  | 0
check f --compositions | automaton A signature input a transitions input a composition One components A: A(1) composition Two components A: A |  | E12 component 0^ | 1
check --compositions f | automaton D signature output open transitions output open composition One components A: D composition Two components A: D; B: D |  | E14 components 0 and 1 on open^ | 1
check f --compositions | automaton D signature output open transitions output open composition One components A: D; B: D(1) composition Two components A: D; B: D composition Three components A: D |  | E12 component 1^ | 1
check f --compositions | automaton D signature output open transitions output open composition One components A: D hidden open composition Two components A: D hidden close composition Three components A: D; B: D |  | E15 close^ | 1
check f --compositions | automaton A signature input a transitions input b composition One components A: A(1) |  | E8 line 1^ | 1
check g --compositions |  |  | io^ | 5
check g |  |  | io^ | 5
check |  |  | error: the following required arguments were not provided:^  <FILE>^^Usage: ioac check <FILE>^^For more information, try '--help'.^ | 2
check f --comp One |  |  | error: unexpected argument '--comp' found^^  tip: a similar argument exists: '--compositions'^^Usage: ioac check --compositions <FILE>^^For more information, try '--help'.^ | 2
check --help |  | Parses and checks a source, or verifies an object, and prints ok where it is fine^^Usage: ioac check [OPTIONS] <FILE>^^Arguments:^  <FILE>  A source of I/O automata, or an object of one^^Options:^      --compositions  Each composition of a source is composed, too, and the first that is refused is told^      --explain       Says more of the outcome on standard error: which line, why, and in which state^  -h, --help          Print help^^Without --compositions, compositions of a source are composed by the other commands alone.^Example: ioac check --compositions protocol.ioa^Exit status: 0 done, 1 source or object refused, 2 bad command line, 5 memory, the file or a device.^ |  | 0
-- objects
compile f o | automaton A signature input a transitions input a composition One components A: A | ok^ |  | 0
compile f o --comp One | automaton A signature input a transitions input a composition One components A: A composition Two components A: A(1) | ok^ |  | 0
compile f o | automaton A signature input a transitions input a composition One components A: A composition Two components A: A(1) |  | E12 component 0^ | 1
compile f o --comp Nine | automaton A signature input a transitions input a composition One components A: A |  | E17^ | 1
compile f o | automaton A signature input a transitions input b |  | E8 line 1^ | 1
compile f o |  |  | E17^ | 1
compile f f | automaton A signature input a transitions input a composition One components A: A |  | io^ | 5
compile g o |  |  | io^ | 5
compile f |  |  | error: the following required arguments were not provided:^  <OUT>^^Usage: ioac compile <FILE> <OUT>^^For more information, try '--help'.^ | 2
compile --help |  | Compiles a composition, puts its object in a file, and prints ok^^Usage: ioac compile [OPTIONS] <FILE> <OUT>^^Arguments:^  <FILE>  A source of I/O automata^  <OUT>   The file to put the object in^^Options:^      --comp <NAME>  The composition to take; without it, the last one^      --explain      Says more of the outcome on standard error: which line, why, and in which state^  -h, --help         Print help^^`check`, `replay`, `run` and `monitor` take the object in the place of a source.^OUT is replaced where it is an object, empty or cannot be read; any other file there is refused.^Example: ioac compile protocol.ioa protocol.object^Exit status: 0 done, 1 source refused, 2 bad command line or no source, 5 memory, a file or a device.^ |  | 0
dump f | automaton A signature input a transitions input a composition One components A: A |  | O1^ | 1
dump f |  |  | O1^ | 1
dump g |  |  | io^ | 5
dump |  |  | error: the following required arguments were not provided:^  <FILE>^^Usage: ioac dump <FILE>^^For more information, try '--help'.^ | 2
dump --help |  | Prints the tables and the code of an object, an item a line^^Usage: ioac dump [OPTIONS] <FILE>^^Arguments:^  <FILE>  An object that `compile` made^^Options:^      --explain  Says more of the outcome on standard error: which line, why, and in which state^  -h, --help     Print help^^Types, variables, positions and constants have the numbers by which instructions name them.^Example: ioac dump protocol.object^Exit status: 0 done, 1 no object, 2 bad command line, 5 memory, the file or a device.^ |  | 0
-- explanations
explain io |  | io: The file cannot be read, or the object or the log cannot be put in its file, as where another file than an object or a log stands there.^^No source or list gives it. A name that no file has does, a file that you may not read, or a folder in which you may not write.^^Mend the name of the file, or its rights. Beside an object OUT no file OUT.part may stand: it would be another run's. A file OUT that is no object is not replaced, nor a file KFILE that is no log: give another name, or remove it.^ |  | 0
explain E18 |  |  | error: invalid value 'E18' for '<TEXT>...'^  [possible values: E1, E2, E3, E4, E5, E6, E7, E8, E9, E10, E11, E12, E13, E14, E15, E16, E17, O1, O2, O3, O4, O5, O6, O7, L1, L2, L3, L4, L5, L6, L7, L8, N1, N2, N3, N4, N5, words, object, memory, io, fault 1 to fault 5, done, not an action, not enabled, invariant, ok]^^For more information, try '--help'.^ | 2
explain fault |  |  | error: invalid value 'fault' for '<TEXT>...'^  [possible values: E1, E2, E3, E4, E5, E6, E7, E8, E9, E10, E11, E12, E13, E14, E15, E16, E17, O1, O2, O3, O4, O5, O6, O7, L1, L2, L3, L4, L5, L6, L7, L8, N1, N2, N3, N4, N5, words, object, memory, io, fault 1 to fault 5, done, not an action, not enabled, invariant, ok]^^For more information, try '--help'.^ | 2
explain fault 6 in component 0 at 2 |  |  | error: invalid value 'fault' for '<TEXT>...'^  [possible values: E1, E2, E3, E4, E5, E6, E7, E8, E9, E10, E11, E12, E13, E14, E15, E16, E17, O1, O2, O3, O4, O5, O6, O7, L1, L2, L3, L4, L5, L6, L7, L8, N1, N2, N3, N4, N5, words, object, memory, io, fault 1 to fault 5, done, not an action, not enabled, invariant, ok]^^For more information, try '--help'.^ | 2
explain not |  |  | error: invalid value 'not' for '<TEXT>...'^  [possible values: E1, E2, E3, E4, E5, E6, E7, E8, E9, E10, E11, E12, E13, E14, E15, E16, E17, O1, O2, O3, O4, O5, O6, O7, L1, L2, L3, L4, L5, L6, L7, L8, N1, N2, N3, N4, N5, words, object, memory, io, fault 1 to fault 5, done, not an action, not enabled, invariant, ok]^^For more information, try '--help'.^ | 2
explain not at 4 |  |  | error: invalid value 'not' for '<TEXT>...'^  [possible values: E1, E2, E3, E4, E5, E6, E7, E8, E9, E10, E11, E12, E13, E14, E15, E16, E17, O1, O2, O3, O4, O5, O6, O7, L1, L2, L3, L4, L5, L6, L7, L8, N1, N2, N3, N4, N5, words, object, memory, io, fault 1 to fault 5, done, not an action, not enabled, invariant, ok]^^For more information, try '--help'.^ | 2
explain end: |  |  | error: invalid value 'end:' for '<TEXT>...'^  [possible values: E1, E2, E3, E4, E5, E6, E7, E8, E9, E10, E11, E12, E13, E14, E15, E16, E17, O1, O2, O3, O4, O5, O6, O7, L1, L2, L3, L4, L5, L6, L7, L8, N1, N2, N3, N4, N5, words, object, memory, io, fault 1 to fault 5, done, not an action, not enabled, invariant, ok]^^For more information, try '--help'.^ | 2
explain monitor: refused |  |  | error: invalid value 'monitor:' for '<TEXT>...'^  [possible values: E1, E2, E3, E4, E5, E6, E7, E8, E9, E10, E11, E12, E13, E14, E15, E16, E17, O1, O2, O3, O4, O5, O6, O7, L1, L2, L3, L4, L5, L6, L7, L8, N1, N2, N3, N4, N5, words, object, memory, io, fault 1 to fault 5, done, not an action, not enabled, invariant, ok]^^For more information, try '--help'.^ | 2
explain line 3 |  |  | error: invalid value 'line' for '<TEXT>...'^  [possible values: E1, E2, E3, E4, E5, E6, E7, E8, E9, E10, E11, E12, E13, E14, E15, E16, E17, O1, O2, O3, O4, O5, O6, O7, L1, L2, L3, L4, L5, L6, L7, L8, N1, N2, N3, N4, N5, words, object, memory, io, fault 1 to fault 5, done, not an action, not enabled, invariant, ok]^^For more information, try '--help'.^ | 2
explain |  |  | error: the following required arguments were not provided:^  <TEXT>...^^Usage: ioac explain <TEXT>...^^For more information, try '--help'.^ | 2
explain --help |  | Says what a text means that the program printed, what gives it, and how to mend it^^Usage: ioac explain [OPTIONS] <TEXT>...^^Arguments:^  <TEXT>...  What the program printed: a code, as E7, a fault, as fault 3, or an end, as not enabled at 4^^Options:^      --explain  Says more of the outcome on standard error: which line, why, and in which state^  -h, --help     Print help^^The first words tell, in capitals or not; more may stand behind them, and `end:` or `monitor:` before.^Example: ioac explain fault 3 in component 0 at 2^Exit status: 0 done, 2 bad command line or nothing to explain, 5 memory or a device.^ |  | 0
-- the library
library x |  |  | error: unexpected argument 'x' found^^Usage: ioac library [OPTIONS]^^For more information, try '--help'.^ | 2
library --help |  | Prints the library of link protocols, a source to check, run and replay^^Usage: ioac library [OPTIONS]^^Options:^      --explain  Says more of the outcome on standard error: which line, why, and in which state^  -h, --help     Print help^^Example: ioac library > links.ioa^Exit status: 0 done, 2 bad command line, 5 memory or a device.^ |  | 0
-- the version
--version |  | ioac 0.2.0^ |  | 0
-V |  | ioac 0.2.0^ |  | 0
replay --version |  |  | error: unexpected argument '--version' found^^  tip: to pass '--version' as a value, use '-- --version'^^Usage: ioac replay [--comp <NAME>] [--log [--invariants]] [--states] [--enabled] [--coverage] [--until <N>] [--json] [--explain] <FILE>^^For more information, try '--help'.^ | 2
";
