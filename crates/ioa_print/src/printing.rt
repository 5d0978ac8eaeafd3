//! From a source to a text.

ghost use Rattle.std.specs.Prelude.{◌≡◌, ◌++◌, ℕ, List, map, OnOk, IfOk};
ghost use Rattle.std.specs.String.{string_bytes};
ghost use Rattle.ioa_lex.specs.Tokens.{Tok};
ghost use Rattle.ioa_lex.specs.Lexing.{Lexes};
ghost use Rattle.ioa_grammar.specs.Grammar.{SpellsSource};
ghost use Rattle.ioa_print.specs.Layout as spec;
ghost use Rattle.ioa_syntax.specs.Source.{plain};
ghost use Rattle.ioa_tree.specs.View.{declaration_of, tree_of};

use crate::automata::automaton;
use crate::compositions::composition;
use crate::invariants::invariant;
use crate::types::type_declaration;
use crate::words::{SPACE, word};
use ioa_lex::Terminal;
use ioa_syntax::Source;
use ioa_tree::Declaration;
use ioa_value::OutOfMemory;
use std::alloc::Global;

fn declaration(text: &mut String, declaration: &Declaration) -> Result<(), OutOfMemory>
    ensures { OnOk result (string_bytes text.new ≡ string_bytes text.old ++ spec.text_declaration (declaration_of declaration.now)) }
{
    match declaration {
        Declaration::Type(inner) => {
            word(text, Terminal::Type, SPACE)?;
            type_declaration(text, inner)
        }
        Declaration::Automaton(inner) => {
            word(text, Terminal::Automaton, SPACE)?;
            automaton(text, inner)
        }
        Declaration::Composition(inner) => {
            word(text, Terminal::Composition, SPACE)?;
            composition(text, inner)
        }
        Declaration::Invariant(inner) => {
            word(text, Terminal::Invariant, SPACE)?;
            invariant(text, inner)
        }
    }
}

#[tactic(auto, unfolding(crate::specs::Layout::text_all))]
fn declarations(text: &mut String, declarations: &[Declaration]) -> Result<(), OutOfMemory>
    ensures { OnOk result (string_bytes text.new ≡ string_bytes text.old ++ spec.text_source (tree_of declarations.now)) }
{
    for each in declarations {
        declaration(text, each)?;
    }
    Ok(())
}

/// A text of the source, a line for each part of it.
pub fn print(alloc: Global, source: &Source) -> Result<Vec<u8>, OutOfMemory>
    ensures laid { IfOk result (λ bytes. bytes.items ≡ spec.text_source (tree_of source.now)) }
    // Its tokens spell the source.
    ensures spelled { IfOk result (λ bytes. (ts : List (Tok × ℕ)) × Lexes bytes.items ts × SpellsSource (tree_of source.now) (plain ts)) }
{
    let mut text = String::new(alloc);
    declarations(&mut text, source.declarations())?;
    Ok(text.into_bytes())
}
