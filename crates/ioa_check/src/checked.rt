//! The type that keeps the rules of sources, so that nothing above asks them again.

ghost use Rattle.std.specs.Prelude.{◌≡◌, ◌≢◌, IsTrue, IfOk, IfErr, OnOk};
ghost use Rattle.ioa_tree.specs.Names.{LegalNames};
ghost use Rattle.ioa_tree.specs.Types.{types_of};
ghost use Rattle.ioa_tree.specs.View.{tree_of};
ghost use Rattle.ioa_tree.specs.WellFormed.{WellFormed};
ghost use Rattle.ioa_syntax.specs.Source.{IsSource};
ghost use Rattle.ioa_rules.specs.Reasons.{in_source};
ghost use Rattle.ioa_lex.specs.declared.refusal.Refusal.TheVariants.{OutOfMemory};

use ioa_rules::source_fine;
use ioa_syntax::{Refusal, Source};
use ioa_tree::Declaration;
use ioa_value::Types;
use std::alloc::Global;
use std::marker::Model;

/// A source that is well formed, with its types.
pub struct Checked {
    source: Source,
    types: Types,
}

/// Written out, so that who drops one calls this, and does not take it apart itself.
impl Drop for Checked {
    fn drop(self) {
        let Checked {
            source: _,
            types: _,
        } = self;
    }
}

impl Model for Checked {
    ghost use Rattle.std.specs.Prelude.{◌≡◌, List};
    ghost use Rattle.std.specs.Coded.{coded_list};
    ghost use Rattle.ioa_tree.specs.declared.tree.Declaration.{Declaration};
    ghost use Rattle.ioa_tree.specs.contracts.tree.Declaration as declaration;
    ghost use Rattle.ioa_tree.specs.Types.{types_of};
    ghost use Rattle.ioa_tree.specs.View.{tree_of};
    ghost use Rattle.ioa_tree.specs.WellFormed.{WellFormed};

    ghost Value = { List Declaration };

    ghost coded = { coded_list declaration.the_row.coded };

    ghost view = { λ c. c.source };

    ghost invariant = { λ c. WellFormed (tree_of c.source) × (c.types ≡ types_of (tree_of c.source)) };
}

impl Checked {
    /// The declarations in order.
    pub fn declarations(&self) -> &[Declaration]
        ensures value { result.now ≡ self.now }
        // Some tokens spell them.
        ensures kept { IsSource (tree_of self.now) }
        ensures well_formed { WellFormed (tree_of self.now) }
        ensures legal { LegalNames (tree_of self.now) }
    {
        self.source.declarations()
    }

    /// The source's types.
    pub fn types(&self) -> &Types
        ensures { result.now ≡ types_of (tree_of self.now) }
    {
        &self.types
    }
}

/// The source, if it is well formed.
///
/// # Errors
/// `DuplicateName`, `UnknownName` (also a name used before its declaration, or where it may not stand), `TypeMismatch`,
/// `BadSignature`, `NoProposal`, `TooMany` and `TooWide`, each only where a rule of its own is broken somewhere in the source; which of
/// several comes first, and that its line is the one at fault, is tested, not proved. `OutOfMemory`.
pub fn check(alloc: Global, source: Source) -> Result<Checked, Refusal>
    ensures same { IfOk result (λ c. tree_of c ≡ tree_of source) }
    ensures well_formed { OnOk result (WellFormed (tree_of source)) }
    ensures refused { IfErr result (λ r. r ≢ OutOfMemory → WellFormed (tree_of source) → ⊥) }
    ensures reason { IfErr result (λ r. r ≢ OutOfMemory → IsTrue (in_source (tree_of source) r)) }
{
    let types = source_fine(alloc, source.declarations())?;
    Ok(Checked { source, types })
}
