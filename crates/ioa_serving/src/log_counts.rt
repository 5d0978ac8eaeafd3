//! What a monitor counts of a log's actions, for people.

ghost use Rattle.std.specs.Prelude.{◌≡◌, ◌++◌, ◌∷◌, ◌<◌, ◌-◌, ◌^◌, List, [], IfOk, OnOk, length, map, string_bytes};
ghost use Rattle.ioa_value.specs.Actions.{Act, act_of};
ghost use Rattle.ioa_compile.specs.Programs.{Prog};
ghost use Rattle.ioa_serving.specs.LogCounts.{HasHeardKnown, counts_line, monitor_counts};

use crate::stream_counts::taken_text;
use ioa_compile::Program;
use ioa_system::participants;
use ioa_value::{Action, OutOfMemory};
use ioa_watch::Watcher;
use std::alloc::{AllocError, Global};
use std::fmt::Write;

/// Puts behind the text a line with the program's name: how many of the actions it takes as a monitor, of each name of its entries, up to the first that it
/// does not accept; and how many of all of them it passes over, since no component has them.
pub fn put_monitor_counts(
    alloc: Global,
    text: &mut String,
    program: &Program,
    actions: &[Action],
) -> Result<(), OutOfMemory>
    ensures { OnOk result (string_bytes text.new ≡ string_bytes text.old ++ monitor_counts program.now (map act_of actions.now)) }
{
    let known = hear_known(alloc, program, actions)?;
    let taken = taken_text(alloc, known.watcher.names(), known.watcher.counts())?;
    push_counts(text, program.name(), taken.as_str(), known.passed)?;
    Ok(())
}

/// A specification that hears those of some actions that its components have, and how many of them they have not.
#[derive(Drop)]
struct Known<'a> {
    watcher: Watcher<'a>,
    passed: u64,
}

impl Known<'_> {
    /// Takes one action more.
    fn take(&mut self, alloc: Global, action: &Action) -> Result<(), OutOfMemory>
        requires { (p : Prog) × (acts : List Act) × HasHeardKnown p acts self.old × (length acts < 2 ^ 64 - 1) }
        ensures { OnOk result ((p : Prog) (acts : List Act) → HasHeardKnown p acts self.old → HasHeardKnown p (acts ++ act_of action.now ∷ []) self.new) }
    {
        let found = participants(alloc, self.watcher.program(), action)?;
        if found.is_empty() {
            self.passed += 1;
            return Ok(());
        }
        self.watcher.hear(action)?;
        Ok(())
    }
}

/// A specification that has heard those of the actions that its components have.
fn hear_known<'a>(
    alloc: Global,
    program: &'a Program,
    actions: &[Action],
) -> Result<Known<'a>, OutOfMemory>
    ensures { IfOk result (HasHeardKnown program.now (map act_of actions.now)) }
{
    let mut known = Known {
        watcher: Watcher::start(alloc, program)?,
        passed: 0,
    };
    for action in actions {
        known.take(alloc, action)?;
    }
    Ok(known)
}

/// Puts a line of these words.
fn push_counts(text: &mut String, name: &str, taken: &str, passed: u64) -> Result<(), AllocError>
    ensures { OnOk result (string_bytes text.new ≡ string_bytes text.old ++ counts_line name.now taken.now passed) }
{
    writeln!(text, "{name}: {taken}{passed} passed over")?;
    Ok(())
}
