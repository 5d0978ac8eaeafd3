//! Invariants as they are printed.

ghost use Rattle.std.specs.Prelude.{◌≡◌, ◌++◌, OnOk};
ghost use Rattle.std.specs.String.{string_bytes};
ghost use Rattle.ioa_print.specs.Layout as spec;
ghost use Rattle.ioa_tree.specs.View.{invariant_of};

use crate::expressions::expression;
use crate::words::{LINE, SPACE, name, word};
use ioa_lex::Terminal;
use ioa_tree::Invariant;
use ioa_value::OutOfMemory;

/// Writes what stands after the word `invariant`.
pub(crate) fn invariant(text: &mut String, invariant: &Invariant) -> Result<(), OutOfMemory>
    ensures { OnOk result (string_bytes text.new ≡ string_bytes text.old ++ spec.text_invariant (invariant_of invariant.now)) }
{
    word(text, Terminal::Of, SPACE)?;
    name(text, &invariant.automaton, SPACE)?;
    word(text, Terminal::Colon, SPACE)?;
    expression(text, &invariant.condition, LINE)
}
