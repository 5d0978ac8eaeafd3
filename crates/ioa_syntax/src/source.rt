//! A source that was read.

ghost use Rattle.std.specs.Prelude.{◌≡◌, ◌↔◌, IsTrue};
ghost use Rattle.ioa_tree.specs.Names.{LegalNames};
ghost use Rattle.ioa_syntax.specs.Source.{IsSource};
ghost use Rattle.ioa_tree.specs.View.{tree_of};

use ioa_tree::{Declaration, same_list};
use std::marker::Model;

/// A source: types, automata, compositions and invariants in order. Some text spells it, and no expression is more than 64 deep.
#[derive(Drop)]
pub struct Source {
    declarations: Vec<Declaration>,
}

impl Model for Source {
    ghost use Rattle.std.specs.Prelude.{List};
    ghost use Rattle.std.specs.Coded.{coded_list};
    ghost use Rattle.ioa_tree.specs.declared.tree.Declaration.{Declaration};
    ghost use Rattle.ioa_tree.specs.contracts.tree.Declaration as d;
    ghost use Rattle.ioa_syntax.specs.Source.{IsSource};
    ghost use Rattle.ioa_tree.specs.View.{tree_of};

    ghost Value = { List Declaration };

    ghost coded = { coded_list d.the_row.coded };

    ghost view = { λ s. s.declarations.items };

    ghost invariant = { λ s. IsSource (tree_of s.declarations.items) };
}

impl Source {
    /// Keeps declarations that some tokens spell.
    pub(crate) fn new(declarations: Vec<Declaration>) -> Source
        requires { IsSource (tree_of declarations.items) }
        ensures { result ≡ declarations.items }
    {
        Source { declarations }
    }

    /// The declarations in order.
    pub fn declarations(&self) -> &[Declaration]
        ensures value { result.now ≡ self.now }
        // Every source is spelled by some tokens, and at most 64 deep.
        ensures kept { IsSource (tree_of self.now) }
        ensures legal { LegalNames (tree_of self.now) }
    {
        self.declarations.as_slice()
    }

    /// Whether the sources are equal but for lines.
    pub fn same(&self, other: &Source) -> bool
        ensures { IsTrue result ↔ (tree_of self.now ≡ tree_of other.now) }
    {
        same_list(&self.declarations, &other.declarations)
    }
}
