//! Where the entries of a component stand, in an index by their names.

ghost use Rattle.std.specs.Prelude.{map, OnOk};
ghost use Rattle.std.specs.String.{string_bytes};
ghost use Rattle.ioa_clash.specs.Index.{AddsAll};
ghost use Rattle.ioa_sites.specs.Sites.{site_by};

use ioa_clash::Index;
use ioa_value::OutOfMemory;

/// Where an entry stands, and whether its actions are seen from outside.
#[derive(Clone, Copy)]
pub struct Site {
    /// The component's number.
    pub component: usize,
    /// The entry's number among the component's.
    pub entry: usize,
    /// Whether the entry is an output, and its name is not hidden.
    pub shown: bool,
}

/// An entry of a component: it has a name, and is seen from outside or not.
pub trait Sited {
    ghost use Rattle.std.specs.Prelude.{◌≡◌, Bool, List, map};
    ghost use Rattle.std.specs.String.{string_bytes};
    ghost use Rattle.ioa_value.specs.Actions.{Name};

    ghost Listed: { Type 0 };

    ghost listed: { Self → Listed };

    ghost called: { Listed → Name };

    ghost seen: { List Name → Listed → Bool };

    fn name(&self) -> &str
        ensures { result.now ≡ called (listed self.now) };

    /// Whether the entry's actions are seen, where these names are hidden.
    fn is_shown(&self, hidden: &[String]) -> bool
        ensures { result ≡ seen (map string_bytes hidden.now) (listed self.now) };
}

/// Adds the sites of the component's entries.
pub fn add_sites<E: Sited>(
    index: &mut Index<Site>,
    component: usize,
    entries: &[E],
    hidden: &[String],
) -> Result<(), OutOfMemory>
    ensures { OnOk result (AddsAll E.called (site_by (E.seen (map string_bytes hidden.now))) index.old component (map E.listed entries.now) index.new) }
{
    for k in 0..entries.len() {
        let entry = &entries[k];
        let site = Site {
            component,
            entry: k,
            shown: entry.is_shown(hidden),
        };
        index.add(entry.name(), site)?;
    }
    Ok(())
}
