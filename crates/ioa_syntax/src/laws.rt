//! A law of the grammar. The function does nothing: what it says is in its contract.

ghost use Rattle.std.specs.Prelude.{◌≡◌, List};
ghost use Rattle.ioa_lex.specs.Tokens.{Tok};
ghost use Rattle.ioa_tree.specs.Tree.{SourceTree};
ghost use Rattle.ioa_grammar.specs.Grammar.{SpellsSource};

/// Tokens spell one source at most, of any depth.
pub fn one_tree()
    ensures { (ts : List Tok) (t u : SourceTree) → SpellsSource t ts → SpellsSource u ts → t ≡ u }
{}
