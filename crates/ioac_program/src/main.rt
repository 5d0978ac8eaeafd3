//! `ioac`: checks, composes, compiles, runs, replays and monitors I/O automata.
#![tactic(auto)]

mod files;
mod progress;

use crate::files::Files;
use crate::progress::{Emptying, Metered};
use ioa_device::Counted;
use ioac::command::command;
use ioac::{Tee, told_unread};
use std::io::IsTerminal;
use std::process::ExitCode;
use std::{env, io};

fn main(rt: HostRuntime) -> ExitCode {
    let words = match words_of(&rt) {
        Ok(words) => words,
        Err(error) => {
            let mut errors = Counted::new(rt.stderr());
            return ExitCode::from(told_unread(&error, &mut errors).number());
        }
    };
    let shows = has_progress(&rt, words.as_slice());
    let terminal = if shows { Some(rt.stderr()) } else { None };
    let mut store = Files::new(&rt);
    let mut input = Tee::new(Counted::new(rt.stdin()));
    let mut output = Counted::new(Metered::new(rt.stdout(), terminal));
    let mut errors = Counted::new(Emptying::new(rt.stderr(), shows));
    let status = command(
        &rt,
        rt.alloc(),
        words.as_slice(),
        &mut store,
        &mut input,
        &mut output,
        &mut errors,
    );
    errors.into_inner().empty();
    ExitCode::from(status)
}

/// Whether how far it is is shown: of runs by many seeds, on a terminal that does not have their lines.
fn has_progress(rt: &HostRuntime, words: &[String]) -> bool {
    has_seeds(words) && rt.stderr().is_terminal() && !rt.stdout().is_terminal()
}

/// Whether the words ask for runs by many seeds.
fn has_seeds(words: &[String]) -> bool {
    for word in words {
        if word.as_str().starts_with("--seeds") {
            return true;
        }
    }
    false
}

/// The words of the command line, the program's own first.
fn words_of(rt: &HostRuntime) -> io::Result<Vec<String>> {
    let words = env::args(rt)?;
    Ok(words.collect(rt.alloc())?)
}
