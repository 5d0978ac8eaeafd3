//! What tests make of texts, and how they compare texts.

ghost use Rattle.std.specs.Prelude.{◌≡◌, Ok};
ghost use Rattle.ioa_value.specs.Table as tables;

use ioa_check::check;
use ioa_compile::{Program, compile};
use ioa_compose::compose;
use ioa_device::Counted;
use ioa_replay::read_log;
use ioa_syntax::{Source, parse};
use ioa_system::Log;
use ioa_value::{Action, Declarations, Types, read_action};
use std::alloc::Global;
use std::fmt::Debug;
use std::process::Abort;

/// What a call gives that has all the memory that it asks for.
pub trait Got {
    type Value;

    ghost got_gives: { Self → Self.Value → Type 0 };

    fn got<R: Abort>(self, rt: &R) -> Self::Value
        ensures { got_gives self result };
}

impl<T, E: Debug> Got for Result<T, E> {
    type Value = T;

    ghost got_gives = { λ r x. r ≡ Ok x };

    fn got<R: Abort>(self, rt: &R) -> T {
        self.expect(rt, "memory")
    }
}

/// The log of nothing.
pub const EMPTY: &str = "{\"end\":\"done after 0\"}";

/// What is told is what is wanted.
pub fn expect_text(rt: &impl Abort, told: &str, wanted: &str) {
    assert!(rt; told == wanted, "{told}");
}

/// It is so in the row that begins so.
pub fn expect_so(rt: &impl Abort, is_so: bool, row: &str) {
    assert!(rt; is_so, "{row}");
}

/// Bool and Int alone.
pub fn basic(rt: &impl Abort, alloc: Global) -> Types
    ensures { result ≡ tables.basic }
{
    let declarations = Declarations::new(alloc).got(rt);
    declarations.finish(alloc).got(rt)
}

/// The action that is spelled so.
pub fn action(rt: &impl Abort, alloc: Global, types: &Types, text: &str) -> Action {
    let read = read_action(alloc, types, text.as_bytes()).got(rt);
    read.expect(rt, "an action")
}

/// The log of this text.
pub fn log(rt: &impl Abort, alloc: Global, types: &Types, text: &str) -> Log {
    let mut input = Counted::new(text.as_bytes());
    read_log(alloc, types, &mut input).expect(rt, "a log")
}

/// The source of this text.
pub fn parsed(rt: &impl Abort, alloc: Global, text: &[u8]) -> Source {
    parse(alloc, text).expect(rt, "a source")
}

/// The program of a source's composition of this name, or of its last one.
pub fn program(rt: &impl Abort, alloc: Global, source: &str, composition: Option<&str>) -> Program {
    let source = parsed(rt, alloc, source.as_bytes());
    let checked = check(alloc, source).expect(rt, "a checked source");
    let composed = compose(alloc, &checked, composition).expect(rt, "a composition");
    compile(alloc, &composed).got(rt)
}

/// A program, a log for it, and actions.
pub struct Setting {
    pub program: Program,
    pub log: Log,
    pub script: Vec<Action>,
}

/// It is let go in one step wherever a test ends.
impl Drop for Setting {
    fn drop(self) {
        let Setting {
            program: _,
            log: _,
            script: _,
        } = self;
    }
}

/// The program of the source's last composition, with the log and the actions that are spelled so.
pub fn set_up(rt: &impl Abort, alloc: Global, source: &str, log: &str, texts: &[&str]) -> Setting {
    let program = program(rt, alloc, source, None);
    set_up_of(rt, alloc, program, log, texts)
}

/// The program of the library's composition of this name, with nothing done and nothing to do.
pub fn of_library(rt: &impl Abort, alloc: Global, composition: &str) -> Setting {
    let library = str::from_utf8(ioa_links::text()).expect(rt, "a text");
    let program = program(rt, alloc, library, Some(composition));
    set_up_of(rt, alloc, program, EMPTY, &[])
}

fn set_up_of(
    rt: &impl Abort,
    alloc: Global,
    program: Program,
    log_text: &str,
    texts: &[&str],
) -> Setting {
    let log = log(rt, alloc, program.types(), log_text);
    let script = script(rt, alloc, program.types(), texts);
    Setting {
        program,
        log,
        script,
    }
}

/// The actions that are spelled so.
pub fn script(rt: &impl Abort, alloc: Global, types: &Types, texts: &[&str]) -> Vec<Action> {
    let mut actions = Vec::new(alloc);
    for text in texts {
        actions.push(action(rt, alloc, types, text)).got(rt);
    }
    actions
}
