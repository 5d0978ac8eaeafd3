//! Tokens and what stands after them.

ghost use Rattle.std.specs.Prelude.{◌≡◌, ◌++◌, ◌<◌, OnOk};
ghost use Rattle.std.specs.String.{string_bytes};
ghost use Rattle.ioa_print.specs.Layout.{space, text_word, text_name, text_number};
ghost use Rattle.ioa_tree.specs.View.{name_of};

use ioa_lex::Terminal;
use ioa_tree::Name;
use ioa_value::OutOfMemory;

/// What stands after a token.
pub(crate) const SPACE: char = ' ';
/// What stands after the last token of a line.
pub(crate) const LINE: char = '\n';

/// Writes a word or sign.
pub(crate) fn word(text: &mut String, terminal: Terminal, end: char) -> Result<(), OutOfMemory>
    requires { end < 128 }
    ensures { OnOk result (string_bytes text.new ≡ string_bytes text.old ++ text_word end terminal) }
{
    text.push_str(terminal.text())?;
    text.push(end)?;
    Ok(())
}

/// Writes a word and the parenthesis after it.
pub(crate) fn call(text: &mut String, terminal: Terminal) -> Result<(), OutOfMemory>
    ensures { OnOk result (string_bytes text.new ≡ string_bytes text.old ++ (text_word space terminal ++ text_word space Terminal.Open)) }
{
    word(text, terminal, SPACE)?;
    word(text, Terminal::Open, SPACE)
}

/// Writes a name.
pub(crate) fn name(text: &mut String, name: &Name, end: char) -> Result<(), OutOfMemory>
    requires { end < 128 }
    ensures { OnOk result (string_bytes text.new ≡ string_bytes text.old ++ text_name end (name_of name.now)) }
{
    text.push_str(name.text.as_str())?;
    text.push(end)?;
    Ok(())
}

/// Writes a number.
pub(crate) fn number(text: &mut String, number: u64, end: char) -> Result<(), OutOfMemory>
    requires { end < 128 }
    ensures { OnOk result (string_bytes text.new ≡ string_bytes text.old ++ text_number end number) }
{
    write!(text, "{number}")?;
    text.push(end)?;
    Ok(())
}
