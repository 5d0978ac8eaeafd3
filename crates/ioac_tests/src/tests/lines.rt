//! The lines of refusals: what is at fault stands on a line of its own, so that another line is told where it is not its own.

/// A source to check, what is printed, what is told of errors, and the exit status.
pub const ROWS: &str = "\
-- the first declaration that is too many
type T# = enum { t# } @1024&type^Over^= enum { over } |  | E10 line 2^ | 1
automaton A# signature internal a transitions internal a @256&automaton^Over^signature internal a transitions internal a |  | E10 line 2^ | 1
automaton A# signature internal a transitions internal a @256&composition^Over^components X: A0 |  | E10 line 2^ | 1
automaton A signature internal a transitions internal a &invariant of A: true @256&invariant of^A^: true |  | E10 line 2^ | 1
-- the first formal, variable, entry, component and hidden name
automaton A(f: Int&, f#: Int@7&,^over^: Int) signature internal a transitions internal a |  | E10 line 2^ | 1
automaton A signature internal a states v: Int&; v#: Int@63&;^over^: Int transitions internal a |  | E10 line 2^ | 1
automaton A signature internal a&; internal a#@63&; internal^over^transitions internal a |  | E10 line 2^ | 1
automaton A signature internal a transitions internal a composition C components X: A&; X#: A@31&;^Over^: A |  | E10 line 2^ | 1
automaton A signature internal a transitions internal a composition C components X: A hidden a&, a#@63&,^over^ |  | E10 line 2^ | 1
-- the type whose names or fields are too many, and the capacity
type^T^= enum { a&, a#@256& } |  | E10 line 2^ | 1
type^T^= tuple { f: Int&, f#: Int@16& } |  | E10 line 2^ | 1
type T = seq^0^of Int |  | E10 line 2^ | 1
type T = seq^257^of Int |  | E10 line 2^ | 1
-- the first position
automaton A signature input a(p: Int&, p#: Int@7&,^over^: Int) transitions input a |  | E10 line 2^ | 1
automaton A signature input a(p: Int&, p#: Int@7&, const^9^) transitions input a |  | E10 line 2^ | 1
automaton A signature input a(p: Int&, p#: Int@7&, const^-^9) transitions input a |  | E10 line 2^ | 1
automaton A signature input a(p: Int&, p#: Int@7&, const^true^) transitions input a |  | E10 line 2^ | 1
automaton A signature input a(p: Int&, p#: Int@7&, const^i^) transitions input a |  | E10 line 2^ | 1
-- a precondition, and the proposal or statement with which there are too many nodes
automaton A signature internal a transitions internal a pre^T^(1&, 1@4095&) |  | E10 line 2^ | 1
automaton A signature output a(k: Int, j: Int) transitions output a propose k := 1,^j^:= T(1&, 1@4094&) |  | E10 line 2^ | 1
automaton A signature internal a states x: Int transitions internal a eff x := 1;^x^:= T(1&, 1@4092&) |  | E10 line 2^ | 1
automaton A signature internal a states x: Int transitions internal a eff &x := 1;@2048&^if^x = 1 then x := 1 fi |  | E10 line 2^ | 1
automaton A signature internal a states x: Int transitions internal a eff &x := 1;@2047& if^x^= 1 then x := 1 fi |  | E10 line 2^ | 1
automaton A signature internal a states x: Int transitions internal a eff &x := 1;@2047& if x then^x^:= 1 fi |  | E10 line 2^ | 1
automaton A signature internal a states x: Int transitions internal a eff &x := 1;@2046& if x then x := 1 elseif^x^then x := 1 fi |  | E10 line 2^ | 1
automaton A signature internal a states x: Int transitions internal a eff &x := 1;@2046& if x then x := 1 else^x^:= 1 fi |  | E10 line 2^ | 1
-- the second one of a name
type A = enum { a } automaton^A^signature internal a transitions internal a |  | E5 line 2^ | 1
automaton A signature internal a transitions internal a composition^A^components X: A |  | E5 line 2^ | 1
automaton A signature internal a transitions internal a type^A^= enum { b } |  | E5 line 2^ | 1
type T = enum { a,^a^} |  | E5 line 2^ | 1
type T = enum { a } type U = enum { b,^a^, c } |  | E5 line 2^ | 1
type T = tuple { f: Int,^f^: Bool } |  | E5 line 2^ | 1
automaton A(x: Int,^x^: Int) signature internal a transitions internal a |  | E5 line 2^ | 1
automaton A signature internal a states x: Int;^x^: Int transitions internal a |  | E5 line 2^ | 1
automaton A(x: Int) signature internal a states^x^: Int transitions internal a |  | E5 line 2^ | 1
automaton A(^A^: Int) signature internal a transitions internal a |  | E5 line 2^ | 1
automaton A signature internal a states^A^: Int transitions internal a |  | E5 line 2^ | 1
automaton A signature internal a; input^a^transitions internal a |  | E5 line 2^ | 1
automaton A signature input a(p: Int,^p^: Int) transitions input a |  | E5 line 2^ | 1
automaton A(x: Int) signature input a(^x^: Int) transitions input a |  | E5 line 2^ | 1
automaton A signature input a(^x^: Int) states x: Int transitions input a |  | E5 line 2^ | 1
automaton A signature input a(^A^: Int) transitions input a |  | E5 line 2^ | 1
automaton A signature output a(p: Int) transitions output a propose p := 0,^p^:= 1 |  | E5 line 2^ | 1
automaton A signature internal a transitions internal a composition C components X: A;^X^: A |  | E5 line 2^ | 1
automaton A signature output a transitions output a composition C components X: A hidden a,^a^ |  | E5 line 2^ | 1
-- a name that is not known
type T = tuple { f:^U^} |  | E6 line 2^ | 1
type T = seq 1 of^U^ |  | E6 line 2^ | 1
automaton A(x:^U^) signature internal a transitions internal a |  | E6 line 2^ | 1
automaton A signature internal a states x:^U^transitions internal a |  | E6 line 2^ | 1
automaton A signature input a(p:^U^) transitions input a |  | E6 line 2^ | 1
automaton A signature input a(const^x^) transitions input a |  | E6 line 2^ | 1
automaton A signature internal a transitions internal a pre^x^= 1 |  | E6 line 2^ | 1
automaton A signature internal a transitions internal a pre len(empty(^U^)) = 0 |  | E6 line 2^ | 1
automaton A signature internal a transitions internal a pre^U^(1) = 1 |  | E6 line 2^ | 1
type T = tuple { f: Int } automaton A signature internal a states t: T transitions internal a pre t.^g^= 1 |  | E6 line 2^ | 1
automaton A signature internal a transitions internal a eff^x^:= 1 |  | E6 line 2^ | 1
automaton A signature output a transitions output a propose^p^:= 1 |  | E6 line 2^ | 1
invariant of^A^: true |  | E6 line 2^ | 1
composition C components X:^A^(1) |  | E6 line 2^ | 1
-- an operand of a type that its operator does not take
automaton A signature internal a transitions internal a pre -^true^= 1 |  | E7 line 2^ | 1
automaton A signature internal a transitions internal a pre ~^1^ |  | E7 line 2^ | 1
automaton A signature internal a transitions internal a pre len(^1^) = 0 |  | E7 line 2^ | 1
automaton A signature internal a transitions internal a pre^true^+ 1 = 1 |  | E7 line 2^ | 1
automaton A signature internal a transitions internal a pre 1 +^true^= 1 |  | E7 line 2^ | 1
automaton A signature internal a transitions internal a pre true /\\^1^ |  | E7 line 2^ | 1
automaton A signature internal a transitions internal a pre 1 =^true^ |  | E7 line 2^ | 1
type S = seq 1 of Int automaton A signature internal a states s: S transitions internal a eff s := append(^1^, 1) |  | E7 line 2^ | 1
type S = seq 1 of Int automaton A signature internal a states s: S transitions internal a eff s := append(s,^true^) |  | E7 line 2^ | 1
-- a name of a type of another form, and what is no tuple
automaton A signature internal a transitions internal a pre len(empty(^Int^)) = 0 |  | E7 line 2^ | 1
automaton A signature internal a transitions internal a pre^Int^(1) = 1 |  | E7 line 2^ | 1
automaton A signature internal a states n: Int transitions internal a pre^n^.^f^= 1 |  | E7 line 2^ | 1
-- fields: what is wrong within one, then their number, then the first one of another type
type T = tuple { f: Int, g: Int } automaton A signature internal a states t: T transitions internal a eff t := T(true,^true^+ 1) |  | E7 line 2^ | 1
type T = tuple { f: Int, g: Int } automaton A signature internal a states t: T transitions internal a eff t :=^T^(true) |  | E7 line 2^ | 1
type T = tuple { f: Int, g: Int } automaton A signature internal a states t: T transitions internal a eff t := T(^true^,^true^) |  | E7 line 2^ | 1
type T = tuple { f: Int, g: Int } automaton A signature internal a states t: T transitions internal a eff t := T(0,^true^) |  | E7 line 2^ | 1
-- an expression of another type than its place
automaton A signature internal a states x: Int :=^true^transitions internal a |  | E7 line 2^ | 1
automaton A signature internal a states x: Int transitions internal a pre^x^+^1 |  | E7 line 2^ | 1
automaton A signature output a(p: Int) transitions output a propose p :=^true^ |  | E7 line 2^ | 1
automaton A signature internal a states x: Int transitions internal a eff x :=^true^ |  | E7 line 2^ | 1
automaton A signature internal a states x: Int transitions internal a eff if^x^then x := 1 fi |  | E7 line 2^ | 1
automaton A signature internal a states x: Int transitions internal a eff if true then x := 1 elseif^x^then x := 1 fi |  | E7 line 2^ | 1
automaton A signature internal a states x: Int transitions internal a invariant of A:^x^ |  | E7 line 2^ | 1
automaton A(x: Int) signature internal a transitions internal a composition C components X: A(1 +^true^) |  | E7 line 2^ | 1
-- its line is that of its first token, whatever its form
automaton A signature internal a states b: Bool transitions internal a eff b :=^1^ |  | E7 line 2^ | 1
automaton A signature internal a states b: Bool; x: Int transitions internal a eff b :=^x^ |  | E7 line 2^ | 1
automaton A signature internal a states b: Bool transitions internal a eff b :=^(^1) |  | E7 line 2^ | 1
automaton A signature internal a states b: Bool transitions internal a eff b :=^-^1 |  | E7 line 2^ | 1
automaton A signature internal a states b: Bool transitions internal a eff b :=^1^+^2 |  | E7 line 2^ | 1
type S = seq 1 of Int automaton A signature internal a states b: Bool; s: S transitions internal a eff b :=^len^(s) |  | E7 line 2^ | 1
type S = seq 1 of Int automaton A signature internal a states b: Bool transitions internal a eff b :=^append^(empty(S),^1) |  | E7 line 2^ | 1
type S = seq 1 of Int automaton A signature internal a states b: Bool transitions internal a eff b :=^empty^(^S) |  | E7 line 2^ | 1
type T = tuple { f: Int } automaton A signature internal a states b: Bool transitions internal a eff b :=^T^(1) |  | E7 line 2^ | 1
type T = tuple { f: Int } automaton A signature internal a states b: Bool; t: T transitions internal a eff b :=^t^.^f |  | E7 line 2^ | 1
-- entries and transitions that do not match
automaton A signature internal a transitions internal a internal^b^ |  | E8 line 2^ | 1
automaton A signature internal a; internal^b^transitions internal a |  | E8 line 2^ | 1
automaton A signature internal a transitions internal a internal^a^ |  | E8 line 2^ | 1
automaton A signature input a transitions input^a^pre true |  | E8 line 2^ | 1
automaton A signature input a(p: Int) transitions input^a^propose p := 0 |  | E8 line 2^ | 1
-- a transition without a proposal, and a type that is too wide
automaton A signature output a(p: Int) transitions output^a^pre true |  | E9 line 2^ | 1
type B = seq 256 of Int type^C^= seq 16 of B |  | E11 line 2^ | 1
";
