//! Where the actions of each name stand in a table: an index of its entries.

ghost use Rattle.std.specs.Prelude.{map, IfOk};
ghost use Rattle.std.specs.String.{string_bytes};
ghost use Rattle.ioa_compile.specs.Shown.{member_code};
ghost use Rattle.ioa_compile.specs.Sites.{AreSites};

use crate::named::is_named;
use crate::table::{Entry, Member};
use ioa_compose::Index;
use ioa_sites::{Site, Sited, add_sites};
use ioa_tree::Kind;
use ioa_value::OutOfMemory;
use std::alloc::Global;

impl Sited for Entry {
    ghost use Rattle.ioa_compile.specs.Programs.{EntryCode};
    ghost use Rattle.ioa_compile.specs.Shown.{entry_code};
    ghost use Rattle.ioa_compile.specs.Sites as spec;

    ghost Listed = { EntryCode };

    ghost listed = { entry_code };

    ghost called = { spec.code_name };

    ghost seen = { spec.is_shown };

    fn name(&self) -> &str {
        self.name.as_str()
    }

    fn is_shown(&self, hidden: &[String]) -> bool {
        match self.kind {
            Kind::Output => !is_named(hidden, self.name.as_str()),
            Kind::Input | Kind::Internal => false,
        }
    }
}

/// The sites of all entries of these components by their names.
pub(crate) fn index_of(
    alloc: Global,
    members: &[Member],
    hidden: &[String],
) -> Result<Index<Site>, OutOfMemory>
    ensures { IfOk result (AreSites (map member_code members.now) (map string_bytes hidden.now)) }
{
    let mut index = Index::new(alloc);
    for component in 0..members.len() {
        let member = &members[component];
        add_sites(&mut index, component, &member.entries, hidden)?;
    }
    Ok(index)
}
