//! Texts read as actions, however their blanks and their leading zeros stand.

ghost use Rattle.std.specs.Prelude.{◌≡◌, List, [], IsTrue, MatchBool, IfSome, IfNone, IfOk, IsSomeAnd, map, string_bytes, IsUtf8};
ghost use Rattle.ioa_value.specs.Plain.{Val, plain};
ghost use Rattle.ioa_value.specs.Actions.{Act, act_of};
ghost use Rattle.ioa_value.specs.Reads.{Reads, ReadsArguments, ReadsValues};

use crate::action::Action;
use crate::memory::OutOfMemory;
use crate::names::is_name;
use crate::scanning::first_value;
use crate::tokens::{after_mark, first_word, is_blank_text};
use crate::types::Types;
use crate::value::Value;
use std::alloc::Global;

/// The action that the text says, where it is the text of an action whose values have types among
/// these. Blanks (spaces, tabs and CR) may stand between tokens and at both ends, and numbers may
/// have zeros in front.
pub fn read_action(alloc: Global, types: &Types, text: &[u8]) -> Result<Option<Action>, OutOfMemory>
    ensures found { IfOk result (λ r. IfSome r (λ a. Reads types.now text.now (act_of a))) }
    ensures none { IfOk result (λ r. IfNone r ((a : Act) → Reads types.now text.now a → ⊥)) }
    ensures only { (a : Act) → Reads types.now text.now a → IfOk result (λ r. IsSomeAnd r (λ b. act_of b ≡ a)) }
{
    let mut action = Action {
        name: String::new(alloc),
        vals: Vec::new(alloc),
    };
    if action.read(alloc, types, text)? {
        Ok(Some(action))
    } else {
        Ok(None)
    }
}

impl Action {
    /// Whether the text is that of an action, as `read_action` says, which then stands in place of
    /// this one, in the memory that this one had. Where it is none, and where memory runs out, this
    /// one is left as some action or other.
    pub fn read(&mut self, alloc: Global, types: &Types, text: &[u8]) -> Result<bool, OutOfMemory>
        ensures found { IfOk result (λ r. MatchBool r (Reads types.now text.now (act_of self.new)) ((a : Act) → Reads types.now text.now a → ⊥)) }
        ensures only { (a : Act) → Reads types.now text.now a → IfOk result (λ r. IsTrue r × (act_of self.new ≡ a)) }
    {
        let front = first_word(text);
        if !is_name(front.word) {
            return Ok(false);
        }
        self.vals.clear();
        if !read_arguments(alloc, types, front.rest, &mut self.vals)? {
            return Ok(false);
        }
        rename(&mut self.name, front.word)
    }
}

/// Whether the word is text, which then stands in place of the name. In a list the next action
/// often has the name of the last: the same text is not written again.
fn rename(name: &mut String, word: &[u8]) -> Result<bool, OutOfMemory>
    ensures { IfOk result (λ r. MatchBool r (string_bytes name.new ≡ word.now) (IsUtf8 word.now → ⊥)) }
{
    if name.as_bytes() == word {
        return Ok(true);
    }
    let Ok(text) = str::from_utf8(word) else {
        return Ok(false);
    };
    name.clear();
    name.push_str(text)?;
    Ok(true)
}

/// The values in parentheses, or none where the text is empty, put into an empty list.
fn read_arguments(
    alloc: Global,
    types: &Types,
    text: &[u8],
    vals: &mut Vec<Value>,
) -> Result<bool, OutOfMemory>
    requires { vals.old.items ≡ [] }
    ensures read { IfOk result (λ r. MatchBool r (ReadsArguments types.now text.now (map plain vals.new.items)) ((vs : List Val) → ReadsArguments types.now text.now vs → ⊥)) }
    ensures only { (vs : List Val) → ReadsArguments types.now text.now vs → IfOk result (λ r. IsTrue r × (map plain vals.new.items ≡ vs)) }
{
    if text.is_empty() {
        return Ok(true);
    }
    match after_mark(text, b'(') {
        Some(inner) => read_values(alloc, types, inner, vals),
        None => Ok(false),
    }
}

/// One value or more, parted by `,`, up to `)` and the end, put into an empty list.
fn read_values(
    alloc: Global,
    types: &Types,
    text: &[u8],
    vals: &mut Vec<Value>,
) -> Result<bool, OutOfMemory>
    requires { vals.old.items ≡ [] }
    ensures read { IfOk result (λ r. MatchBool r (ReadsValues types.now text.now (map plain vals.new.items)) ((vs : List Val) → ReadsValues types.now text.now vs → ⊥)) }
    ensures only { (vs : List Val) → ReadsValues types.now text.now vs → IfOk result (λ r. IsTrue r × (map plain vals.new.items ≡ vs)) }
{
    let mut rest = text;
    loop {
        let Some(front) = first_value(alloc, types, rest)? else {
            return Ok(false);
        };
        vals.push(front.value)?;
        if let Some(after) = after_mark(front.rest, b')') {
            if is_blank_text(after) {
                return Ok(true);
            }
            return Ok(false);
        }
        let Some(after) = after_mark(front.rest, b',') else {
            return Ok(false);
        };
        rest = after;
    }
}
