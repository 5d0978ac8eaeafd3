//! Traces as texts.

ghost use Rattle.std.specs.Prelude.{◌≡◌, ◌++◌, ◌∷◌, [], IfOk, OnOk, codes};
ghost use Rattle.std.specs.String.{string_bytes};
ghost use Rattle.ioa_value.specs.Actions.{act_of};
ghost use Rattle.ioa_value.specs.Written.{written_action};
ghost use Rattle.ioa_system.specs.Outcomes.{ending_of};
ghost use Rattle.ioa_system.specs.Endings.{ending_text};

use ioa_system::End;
use ioa_value::{Action, OutOfMemory, Types, push_action};
use std::alloc::Global;
use std::marker::Model;

/// A run's trace as a text: the external actions that were performed, one a line, and at last a line with the run's end. Replays of lists and
/// of logs write it, and runs do.
#[derive(Drop)]
pub struct Trace {
    text: String,
}

impl Model for Trace {
    ghost use Rattle.std.specs.Prelude.{ℕ, List};
    ghost use Rattle.std.specs.Coded.{coded_list, coded_ℕ};
    ghost use Rattle.std.specs.String.{string_bytes};

    ghost Value = { List ℕ };

    ghost coded = { coded_list coded_ℕ };

    ghost view = { λ t. string_bytes t.text };
}

impl Trace {
    /// The trace of no action.
    pub fn new(alloc: Global) -> Trace
        ensures { result ≡ [] }
    {
        Trace {
            text: String::new(alloc),
        }
    }

    /// Puts a line with the action, as it is written, at the end. After a refusal of memory the trace may end within the line.
    pub fn push(&mut self, types: &Types, action: &Action) -> Result<(), OutOfMemory>
        ensures { OnOk result (self.new ≡ self.old ++ (written_action types.now (act_of action.now) ++ 10 ∷ [])) }
    {
        push_action(types, &mut self.text, action)?;
        self.text.push_str("\n")?;
        Ok(())
    }

    /// The whole text: the trace, and a line that tells the end.
    pub fn end(mut self, end: End) -> Result<String, OutOfMemory>
        ensures { IfOk result (λ text. string_bytes text ≡ self ++ (codes "end: " ++ (ending_text (ending_of end) ++ 10 ∷ []))) }
    {
        writeln!(self.text, "end: {end}")?;
        Ok(self.text)
    }
}
