//! Names in lists, of whatever they are: which item has one, and whether all differ.

ghost use Rattle.std.specs.Prelude.{◌≡◌, ℕ, List, map, length, nat_le, is_some};
ghost use Rattle.ioa_tree.specs.View.{name_of};
ghost use Rattle.ioa_tree.specs.WellFormed as well_formed;
ghost use Rattle.std.specs.Str.{bytes_eq};
ghost use Rattle.ioa_rules.specs.Codes.{duplicate_name, too_many, tells};
ghost use Rattle.ioa_rules.specs.Verdicts.{Says};

use ioa_lex::Refusal;
use ioa_tree::{Declaration, Entry, Field, Instance, Name, Proposal, Variable};

/// What has a name in a source.
pub(crate) trait Named {
    ghost called: { Self → List ℕ };

    fn name(&self) -> &Name
        ensures { name_of result.now ≡ called self.now };
}

impl Named for Name {
    ghost use Rattle.ioa_tree.specs.View.{name_of};

    ghost called = { name_of };

    fn name(&self) -> &Name {
        self
    }
}

impl Named for Field {
    ghost use Rattle.ioa_tree.specs.View.{name_of};

    ghost called = { λ f. name_of f.name };

    fn name(&self) -> &Name {
        &self.name
    }
}

impl Named for Variable {
    ghost use Rattle.ioa_tree.specs.View.{name_of};

    ghost called = { λ v. name_of v.field.name };

    fn name(&self) -> &Name {
        &self.field.name
    }
}

impl Named for Entry {
    ghost use Rattle.ioa_tree.specs.View.{name_of};

    ghost called = { λ x. name_of x.name };

    fn name(&self) -> &Name {
        &self.name
    }
}

impl Named for Proposal {
    ghost use Rattle.ioa_tree.specs.View.{name_of};

    ghost called = { λ x. name_of x.name };

    fn name(&self) -> &Name {
        &self.name
    }
}

impl Named for Instance {
    ghost use Rattle.ioa_tree.specs.View.{name_of};

    ghost called = { λ x. name_of x.name };

    fn name(&self) -> &Name {
        &self.name
    }
}

impl Named for Declaration {
    ghost use Rattle.ioa_tree.specs.View.{declaration_of};
    ghost use Rattle.ioa_tree.specs.WellFormed.{first_name};

    ghost called = { λ d. first_name (declaration_of d) };

    fn name(&self) -> &Name {
        match self {
            Declaration::Type(declared) => &declared.name,
            Declaration::Automaton(automaton) => &automaton.name,
            Declaration::Composition(composition) => &composition.name,
            Declaration::Invariant(invariant) => &invariant.automaton,
        }
    }
}

/// Whether the two names are the same word.
pub(crate) fn same_name(a: &Name, b: &Name) -> bool
    ensures { result ≡ bytes_eq (name_of a.now) (name_of b.now) }
{
    a.is(b.text.as_str())
}

/// The first of the items that has this name.
pub(crate) fn find_name<'a, T: Named>(items: &'a [T], name: &Name) -> Option<&'a Name>
    ensures { is_some result ≡ well_formed.contains (map T.called items.now) (name_of name.now) }
{
    for item in items {
        if same_name(item.name(), name) {
            return Some(item.name());
        }
    }
    None
}

/// Whether no name stands twice.
pub(crate) fn distinct<T: Named>(items: &[T]) -> Result<(), Refusal>
    ensures { Says result (well_formed.distinct (map T.called items.now)) (tells duplicate_name) }
{
    let mut rest = items;
    while let [first, later @ ..] = rest {
        if let Some(again) = find_name(later, first.name()) {
            return Err(Refusal::DuplicateName(again.line));
        }
        rest = later;
    }
    Ok(())
}

/// Whether no item has the name of one of the others. A line is that of the item.
pub(crate) fn apart<T: Named, U: Named>(items: &[T], others: &[U]) -> Result<(), Refusal>
    ensures { Says result (well_formed.apart (map T.called items.now) (map U.called others.now)) (tells duplicate_name) }
{
    for item in items {
        let name = item.name();
        if find_name(others, name).is_some() {
            return Err(Refusal::DuplicateName(name.line));
        }
    }
    Ok(())
}

/// Whether there are no more items than this. A line is that of the first item that is too many.
pub(crate) fn at_most<T: Named>(items: &[T], most: usize) -> Result<(), Refusal>
    ensures { Says result (nat_le (length items.now) most) (tells too_many) }
{
    if items.len() <= most {
        return Ok(());
    }
    Err(Refusal::TooMany(items[most].name().line))
}
