//! The places of entries by their names.

ghost use Rattle.std.specs.Prelude.{map, IfOk, OnOk};
ghost use Rattle.ioa_clash.specs.Clashes.{signature_of, signed_of};
ghost use Rattle.ioa_clash.specs.Index.{AddsAll, IsIndexOf, entry_name, place_of};

use crate::clashes::SignedEntry;
use crate::index::Index;
use ioa_value::OutOfMemory;
use std::alloc::Global;

/// The place of an entry: its component's, and its own among that component's entries.
#[derive(Clone, Copy)]
pub struct Place {
    pub component: usize,
    pub entry: usize,
}

/// The places of all entries of these signatures by their names.
pub(crate) fn places_of(
    alloc: Global,
    signatures: &[Vec<SignedEntry>],
) -> Result<Index<Place>, OutOfMemory>
    ensures { IfOk result (λ index. IsIndexOf entry_name place_of index (map signature_of signatures.now)) }
{
    let mut index = Index::new(alloc);
    for component in 0..signatures.len() {
        add_places(&mut index, component, &signatures[component])?;
    }
    Ok(index)
}

/// Adds the places of the component's entries.
fn add_places(
    index: &mut Index<Place>,
    component: usize,
    entries: &[SignedEntry],
) -> Result<(), OutOfMemory>
    ensures { OnOk result (AddsAll entry_name place_of index.old component (map signed_of entries.now) index.new) }
{
    for k in 0..entries.len() {
        let name = entries[k].name;
        let place = Place {
            component,
            entry: k,
        };
        index.add(name, place)?;
    }
    Ok(())
}
