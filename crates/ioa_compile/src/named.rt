//! Names of what stands beside others of its kind.

ghost use Rattle.std.specs.Prelude.{◌≡◌, ◌↔◌, IsTrue, map};
ghost use Rattle.ioa_value.specs.Table.{AreTypes, all_names, contains, distinct};
ghost use Rattle.ioa_compile.specs.Tables.{AreFew};

use crate::table::{Entry, Member};
use ioa_value::{Field, Types};

/// What has a name among others of its kind.
pub trait Named {
    ghost use Rattle.ioa_value.specs.Actions.{Name};

    ghost called: { Self → Name };

    fn name(&self) -> &str
        ensures { result.now ≡ called self.now };
}

impl Named for String {
    ghost use Rattle.std.specs.String.{string_bytes};

    ghost called = { string_bytes };

    fn name(&self) -> &str {
        self.as_str()
    }
}

impl Named for Field {
    ghost use Rattle.ioa_value.specs.Shapes.{tuple_field};

    ghost called = { λ f. (tuple_field f).name };

    fn name(&self) -> &str {
        self.name.as_str()
    }
}

impl Named for Entry {
    ghost use Rattle.ioa_compile.specs.Shown.{entry_code};

    ghost called = { λ e. (entry_code e).name };

    fn name(&self) -> &str {
        self.name.as_str()
    }
}

impl Named for Member {
    ghost use Rattle.ioa_compile.specs.Shown.{member_code};

    ghost called = { λ m. (member_code m).name };

    fn name(&self) -> &str {
        self.name.as_str()
    }
}

/// Whether a type gives the name: its own, or one of an enumeration.
pub fn is_given(types: &Types, name: &str) -> bool
    ensures types { AreTypes types.now }
    ensures given { result ≡ contains (all_names types.now) name.now }
{
    types.named(name).is_some() || types.constant(name).is_some()
}

/// Whether one of these has the name. There are few.
pub fn is_named<T: Named>(items: &[T], name: &str) -> bool
    ensures { result ≡ contains (map T.called items.now) name.now }
{
    for item in items {
        if item.name() == name {
            return true;
        }
    }
    false
}

/// Whether there are some of these, no more than so many, and no two of one name.
pub(crate) fn are_few<T: Named>(items: &[T], most: usize) -> bool
    ensures { IsTrue result ↔ AreFew most (map T.called items.now) }
{
    !items.is_empty() && items.len() <= most && are_distinct(items)
}

/// Whether no two of these have one name. There are few.
pub(crate) fn are_distinct<T: Named>(items: &[T]) -> bool
    ensures { result ≡ distinct (map T.called items.now) }
{
    for i in 0..items.len() {
        if is_named(&items[i + 1..], items[i].name()) {
            return false;
        }
    }
    true
}
