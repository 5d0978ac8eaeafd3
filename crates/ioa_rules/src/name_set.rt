//! Names that are taken.

ghost use Rattle.std.specs.Prelude.{◌≡◌, [], ◌∷◌, ◌++◌, not, IfOk, OnErr, if◌then◌else◌};
ghost use Rattle.ioa_value.specs.Table.{contains};

use ioa_value::OutOfMemory;
use std::alloc::Global;
use std::collections::BTreeSet;
use std::marker::Model;

/// Names in the order in which they were put in, none twice. Looking one up takes a logarithm of their number, whichever they are:
/// who chooses them cannot make them collide.
pub struct NameSet<'a> {
    names: Vec<&'a str>,
    // The same names in their own order.
    sorted: BTreeSet<&'a str>,
}

/// Written out, so that who drops one calls this, and does not take it apart itself.
impl Drop for NameSet<'_> {
    fn drop(self) {
        let NameSet {
            names: _,
            sorted: _,
        } = self;
    }
}

impl<'a> Model for NameSet<'a> {
    ghost use Rattle.std.specs.Prelude.{List, map};
    ghost use Rattle.ioa_value.specs.Actions.{Name};
    ghost use Rattle.ioa_rules.specs.NameSets.{HasJust};

    ghost Value = { List Name };

    ghost view = { λ s. map (λ name. name.now) s.names.items };

    ghost invariant = { λ s. HasJust s.sorted (map (λ name. name.now) s.names.items) };
}

impl<'a> NameSet<'a> {
    /// No names.
    pub fn new(alloc: Global) -> NameSet<'a>
        ensures { result ≡ [] }
    {
        NameSet {
            names: Vec::new(alloc),
            sorted: BTreeSet::new(alloc),
        }
    }

    /// Whether the name is among them.
    pub fn contains(&self, name: &str) -> bool
        ensures { result ≡ contains self.now name.now }
    {
        self.sorted.contains(name)
    }

    /// Puts the name behind the others, and says whether it was new: one that is there already changes nothing.
    ///
    /// # Errors
    /// A growth of memory was refused. The names are as they were.
    pub fn insert(&mut self, name: &'a str) -> Result<bool, OutOfMemory>
        ensures added { IfOk result (λ added. added ≡ not (contains self.old name.now)) }
        ensures names { IfOk result (λ added. self.new ≡ (if added then self.old ++ name.now ∷ [] else self.old)) }
        ensures memory { OnErr result (self.new ≡ self.old) }
    {
        // Room in the list comes first, so that a refusal leaves both as they are.
        self.names.reserve(1)?;
        let added = self.sorted.insert(name)?;
        if added {
            self.names.push(name)?;
        }
        Ok(added)
    }
}
