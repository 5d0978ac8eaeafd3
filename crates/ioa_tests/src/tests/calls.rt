//! Single calls: actions and sources as they are printed, first values, and steps.

ghost use Rattle.std.specs.Prelude.{◌≡◌, ◌<◌, length, IfOk};
ghost use Rattle.ioa_value.specs.Actions.{act_of};
ghost use Rattle.ioa_tree.specs.Steps as steps;
ghost use Rattle.ioa_compile.specs.Tables.{tabled};
ghost use Rattle.ioa_system.specs.Participants.{taken};
ghost use Rattle.ioa_system.specs.Systems.{slot_types, types_of};

use crate::tests::code::number_of;
use crate::tests::made::{EMPTY, Got, action, basic, expect_so, parsed, program, set_up};
use ioa_compile::Program;
use ioa_node::NodeState;
use ioa_print::print;
use ioa_rows::{COUNTER, column, columns, is_row};
use ioa_system::{Moved, Step, System, participants, run_list, step_from};
use ioa_value::{
    Action, OutOfMemory, Ty, Types, Value, first, has_type, print_action, read_action, same,
};
use std::alloc::Global;
use std::process::Abort;

/// A text, and the action that it spells, as it is printed.
static ACTIONS: [(&str, Option<&str>); 17] = [
    (" tick( 0005 ,\ttrue ) \r", Some("tick(5, true)")),
    ("reset", Some("reset")),
    (
        "a_1(-9223372036854775808)",
        Some("a_1(-9223372036854775808)"),
    ),
    ("a(9223372036854775807)", Some("a(9223372036854775807)")),
    ("a(-0,-007,false)", Some("a(0, -7, false)")),
    ("tick(9223372036854775808)", None),
    ("tick(-9223372036854775809)", None),
    ("tick()", None),
    ("tick(- 5)", None),
    ("tick(+5)", None),
    ("tick(5) x", None),
    ("tick(5", None),
    ("tick(5,)", None),
    ("tick(red)", None),
    ("5", None),
    ("", None),
    ("fi", None),
];

// Whether the text spells the action that is printed so, or no action.
fn is_printed_so(
    rt: &impl Abort,
    alloc: Global,
    types: &Types,
    text: &str,
    wanted: Option<&str>,
) -> bool {
    match read_action(alloc, types, text.as_bytes()).got(rt) {
        Some(action) => wanted == Some(printed_copy(rt, alloc, types, &action).as_str()),
        None => wanted.is_none(),
    }
}

/// An equal of the action, as it is printed.
fn printed_copy(rt: &impl Abort, alloc: Global, types: &Types, action: &Action) -> String {
    let copy = action.try_copy(alloc).got(rt);
    print_action(alloc, types, &copy).got(rt)
}

#[test]
fn reads_and_prints_actions(rt: HostRuntime) {
    let alloc = rt.alloc();
    let types = basic(&rt, alloc);
    for (text, wanted) in &ACTIONS {
        let is_so = is_printed_so(&rt, alloc, &types, text, *wanted);
        expect_so(&rt, is_so, text);
    }
}

/// A source, and its text as it is printed: after each token a space, or the end of the line; and of some another source.
const PRINTED: &str = "\
-- types
type K = enum { a, b } type P = tuple { k: K, n: Int } type S = seq 4 of P | type K = enum { a , b }^type P = tuple { k : K , n : Int }^type S = seq 4 of P^
-- formals, entries, variables and transitions
automaton A signature internal r transitions internal r | automaton A^signature^internal r^transitions^internal r^
automaton A(i: Int, b: Bool) signature input go; output put(const i, const -5, const 7, const true, const false, n: Int) transitions input go output put pre true propose n := i | automaton A ( i : Int , b : Bool )^signature^input go^; output put ( const i , const - 5 , const 7 , const true , const false , n : Int )^transitions^input go^output put^pre true^propose n := i^
automaton A signature output a(j: Int, k: Int) states stable x: Int := 7; y: Bool; transitions output a propose j := x, k := 0 eff x := 1; y := false; | automaton A^signature^output a ( j : Int , k : Int )^states^stable x : Int := 7^; y : Bool^transitions^output a^propose j := x^, k := 0^eff x := 1^; y := false^
-- expressions
automaton A signature internal r transitions internal r pre ~true /\\ false \\/ a => b | automaton A^signature^internal r^transitions^internal r^pre ~ true /\\ false \\/ a => b^
automaton A signature internal r transitions internal r eff x := 1 + 2 - 3 * 4 div 5 mod 6; x := -(7) | automaton A^signature^internal r^transitions^internal r^eff x := 1 + 2 - 3 * 4 div 5 mod 6^; x := - ( 7 )^
automaton A signature internal r transitions internal r eff b := 1 = 2; b := 1 ~= 2; b := 1 < 2; b := 1 <= 2; b := 1 > 2; b := 1 >= 2 | automaton A^signature^internal r^transitions^internal r^eff b := 1 = 2^; b := 1 ~= 2^; b := 1 < 2^; b := 1 <= 2^; b := 1 > 2^; b := 1 >= 2^
automaton A signature internal r transitions internal r eff s := append(tail(s), head(s)); s := without(init(s), last(s)); n := at(s, len(s)); b := member(0, empty(S)) | automaton A^signature^internal r^transitions^internal r^eff s := append ( tail ( s ) , head ( s ) )^; s := without ( init ( s ) , last ( s ) )^; n := at ( s , len ( s ) )^; b := member ( 0 , empty ( S ) )^
automaton A signature internal r transitions internal r eff t := T(1, true); n := -t.a.b | automaton A^signature^internal r^transitions^internal r^eff t := T ( 1 , true )^; n := - t . a . b^
-- statements
automaton A signature internal r transitions internal r eff if a then x := 1; x := 2 elseif b then if c then x := 3 fi else x := 4 fi; x := 5 | automaton A^signature^internal r^transitions^internal r^eff if a then^x := 1^; x := 2^elseif b then^if c then^x := 3^fi^else^x := 4^fi^; x := 5^
-- compositions and invariants
composition C components X: A; Y: B(1, true) crash down recover up; Z: A crash d recover u hidden a, b | composition C components^X : A^; Y : B ( 1 , true )^crash down recover up^; Z : A^crash d recover u^hidden a^, b^
invariant of A: x < 1 | invariant of A : x < 1^
-- proposals of any number below one
automaton A signature output r(d: Int) transitions output r propose d:=any(1) | automaton A^signature^output r ( d : Int )^transitions^output r^propose d := any ( 1 )^ | automaton A signature output r(d: Int) transitions output r propose d := 1
automaton A signature output r(d: Int) transitions output r propose d:=any((1)),e:=any(1+n) eff x:=1 | automaton A^signature^output r ( d : Int )^transitions^output r^propose d := any ( ( 1 ) )^, e := any ( 1 + n )^eff x := 1^ | automaton A signature output r(d: Int) transitions output r propose d := any((1)), e := 1 + n eff x := 1
";

// Whether the source is printed so, and the text is of an equal source, which the other one, or that of nothing, is not.
fn is_source(rt: &impl Abort, alloc: Global, source: &str, text: &str, other: &str) -> bool {
    let source = parsed(rt, alloc, source.as_bytes());
    let printed = print(alloc, &source).got(rt);
    let again = parsed(rt, alloc, printed.as_slice());
    let other = parsed(rt, alloc, other.as_bytes());
    printed.as_slice() == text.as_bytes()
        && source.same(&again)
        && !source.same(&other)
        && !again.same(&other)
}

#[test]
fn prints_what_is_parsed(rt: HostRuntime) {
    let alloc = rt.alloc();
    for row in PRINTED.lines() {
        if is_row(row) {
            let row = columns(alloc, row).expect(&rt, "a row");
            let (source, text, other) = (column(&row, 0), column(&row, 1), column(&row, 2));
            expect_so(&rt, is_source(&rt, alloc, source, text, other), text);
        }
    }
}

/// Whether the first value of this type is the one that is wanted, of this type, and not of the other.
fn is_first(rt: &impl Abort, alloc: Global, ty: Ty, other: Ty, wanted: &Value) -> bool
    requires { ty.0 < 2 }
{
    let types = basic(rt, alloc);
    let value = first(alloc, &types, ty).got(rt);
    same(&value, wanted) && has_type(&types, &value, ty) && !has_type(&types, &value, other)
}

/// The first number, and the first truth value.
#[test]
fn types_have_first_values(rt: HostRuntime) {
    let alloc = rt.alloc();
    assert!(rt; is_first(&rt, alloc, Ty::INT, Ty::BOOL, &Value::Num(0)));
    assert!(rt; is_first(&rt, alloc, Ty::BOOL, Ty::INT, &Value::Truth(false)));
}

// Equals of the states of the action's participants, in order.
fn lent(alloc: Global, system: &System<'_>, action: &Action) -> Result<Vec<NodeState>, OutOfMemory>
    ensures { IfOk result (λ lent. types_of lent.items ≡ taken (steps.participants (tabled system.now.program) (act_of action.now)) (slot_types system.now.program.members)) }
{
    let mut lent = Vec::new(alloc);
    for i in &participants(alloc, system.program(), action)? {
        if let Some(state) = system.states().get(*i) {
            lent.push(state.try_copy(alloc)?)?;
        }
    }
    Ok(lent)
}

/// What a step answers on equals of the participants' states, without the new states.
fn step_on_copies(rt: &impl Abort, alloc: Global, system: &System<'_>, action: &Action) -> Step {
    let states = lent(alloc, system, action).got(rt);
    let moved = step_from(alloc, system.program(), action, &states).got(rt);
    answered(&moved)
}

/// The answer without the new states.
fn answered(moved: &Moved) -> Step {
    match moved {
        Moved::Next(_) => Step::Next,
        Moved::NotAnAction => Step::NotAnAction,
        Moved::NotEnabled => Step::NotEnabled,
        Moved::Fault(component, fault) => Step::Fault(*component, *fault),
    }
}

/// Whether the only variable of the first component is this number.
fn is_at(rt: &impl Abort, alloc: Global, system: &System<'_>, number: i64) -> bool {
    match system.states().first() {
        Some(state) => number_of(rt, alloc, state) == Some(number),
        None => false,
    }
}

/// Actions of the counter, one after another, what each step answers, and the count then.
static STEPS: [(&str, Step, i64); 6] = [
    ("tick(6)", Step::NotEnabled, 5),
    ("tock", Step::NotAnAction, 5),
    ("tick(5)", Step::Next, 6),
    ("tick(6)", Step::Next, 7),
    ("reset", Step::Next, 5),
    ("tick(7)", Step::NotEnabled, 5),
];

/// Whether the action is answered so, on copies and by the system, and the number is this one then.
fn is_step(
    rt: &impl Abort,
    alloc: Global,
    system: &mut System<'_>,
    action: &Action,
    wanted: &Step,
    count: i64,
) -> bool {
    step_on_copies(rt, alloc, system, action) == *wanted
        && system.step(action).got(rt) == *wanted
        && is_at(rt, alloc, system, count)
}

#[test]
fn steps_a_program(rt: HostRuntime) {
    let alloc = rt.alloc();
    let program = program(&rt, alloc, COUNTER, Some("One"));
    let mut system = System::start(alloc, &program).got(&rt);
    for (text, wanted, count) in &STEPS {
        let action = action(&rt, alloc, program.types(), text);
        let is_so = is_step(&rt, alloc, &mut system, &action, wanted, *count);
        expect_so(&rt, is_so, text);
    }
}

/// Whether the last action is performed from the states that the others reach, and the number is this one then.
fn goes_on(
    rt: &impl Abort,
    alloc: Global,
    program: &Program,
    script: &[Action],
    number: i64,
) -> bool {
    let (last, before) = script.split_last().expect(rt, "an action");
    let run = run_list(alloc, program, before).got(rt);
    let mut system = System::of(alloc, program, run.states);
    let answer = system.step(last).got(rt);
    answer == Step::Next && is_at(rt, alloc, &system, number)
}

#[test]
fn a_system_goes_on_from_states(rt: HostRuntime) {
    let alloc = rt.alloc();
    let setting = set_up(&rt, alloc, COUNTER, EMPTY, &["tick(5)", "tick(6)"]);
    assert!(rt; goes_on(&rt, alloc, &setting.program, &setting.script, 7));
}
