//! Entries of automata, by their names.

ghost use Rattle.std.specs.Prelude.{◌≡◌};
ghost use Rattle.std.specs.Option.{option_map};
ghost use Rattle.ioa_causes.specs.Entries as spec;

use ioa_tree::Entry;

/// The first of the entries that has this name.
pub fn entry_named<'a>(entries: &'a [Entry], name: &str) -> Option<&'a Entry>
    ensures { option_map (λ e. e.now) result ≡ spec.named name.now entries.now }
{
    for entry in entries {
        if entry.name.is(name) {
            return Some(entry);
        }
    }
    None
}
