//! Which components have an action in common that may not be. It is asked of their signatures alone, so of components of any kind.

ghost use Rattle.std.specs.Prelude.{◌≡◌, ◌↔◌, ◌<◌, ◌≤◌, map, length, All, None, IfOk, IfSome, IfNone};
ghost use Rattle.ioa_value.specs.Table.{AreTypes};
ghost use Rattle.ioa_tree.specs.Components.{Compatible};
ghost use Rattle.ioa_clash.specs.Clashes as spec;
ghost use Rattle.ioa_clash.specs.Clashes.{signed_of, signature_of, signed_components, IsSignature, IsFirstClash, IsFirstHit, IsHit, IsClearTill};
ghost use Rattle.ioa_clash.specs.Index.{IsAt, IsIndexOf, entry_name, place_of};

use crate::index::Index;
use crate::places::{Place, places_of};
use ioa_tree::Kind;
use ioa_value::{OutOfMemory, Position, Types, all_meet};
use std::alloc::Global;

/// An entry as it is compared with others: its kind, its name, and what its actions may have in their places.
#[derive(Drop)]
pub struct SignedEntry<'a> {
    pub kind: Kind,
    pub name: &'a str,
    pub positions: &'a [Position],
}

/// Two components that are not compatible, by their places, and the first one's first entry with an action that may not be in
/// both.
#[derive(Clone, Copy)]
pub struct Clash {
    pub first: usize,
    pub second: usize,
    pub entry: usize,
}

/// The first two components that are not compatible, by the first one's place and then by the other's, or none if all are. It is
/// given the entries of each component, whose names differ, and whose positions have values.
///
/// # Errors
/// `OutOfMemory`.
pub fn first_clash(
    alloc: Global,
    types: &Types,
    signatures: &[Vec<SignedEntry>],
) -> Result<Option<Clash>, OutOfMemory>
    requires table { AreTypes types.now }
    requires signed { All (IsSignature types.now) (map signature_of signatures.now) }
    ensures exact { IfOk result (λ clash. (clash ≡ None) ↔ Compatible (signed_components types.now (map signature_of signatures.now))) }
    ensures first { IfOk result (λ clash. IfSome clash (IsFirstClash types.now (map signature_of signatures.now))) }
{
    let index = places_of(alloc, signatures)?;
    for i in 0..signatures.len() {
        if let Some(hit) = first_of(types, signatures, &index, i) {
            return Ok(Some(Clash {
                first: i,
                second: hit.other,
                entry: hit.entry,
            }));
        }
    }
    Ok(None)
}

/// An entry of a component, and the place of another component with which it clashes.
#[derive(Clone, Copy)]
struct Hit {
    entry: usize,
    other: usize,
}

/// The first later component with which this one clashes, and the first entry on which it does.
fn first_of(
    types: &Types,
    signatures: &[Vec<SignedEntry>],
    index: &Index<Place>,
    i: usize,
) -> Option<Hit>
    requires within { i < length signatures.now }
    requires indexed { IsIndexOf entry_name place_of index.now (map signature_of signatures.now) }
    ensures none { IfNone result (IsClearTill types.now (map signature_of signatures.now) i (length signatures.now)) }
    ensures before { IfSome result (λ c. IsClearTill types.now (map signature_of signatures.now) i c.other) }
    ensures hit { IfSome result (λ c. IsHit types.now (map signature_of signatures.now) i c.other c.entry) }
{
    let entries = signatures[i].as_slice();
    let mut end = signatures.len();
    let mut first = 0;
    for k in 0..entries.len() {
        let other = first_hit(types, signatures, index, &entries[k], i + 1, end);
        if other < end {
            end = other;
            first = k;
        }
    }
    if end == signatures.len() {
        return None;
    }
    Some(Hit {
        entry: first,
        other: end,
    })
}

/// The first component from the start on, and before the end, with which the entry clashes; or the end. Only entries of its
/// name are tried.
fn first_hit(
    types: &Types,
    signatures: &[Vec<SignedEntry>],
    index: &Index<Place>,
    entry: &SignedEntry,
    start: usize,
    end: usize,
) -> usize
    requires indexed { IsIndexOf entry_name place_of index.now (map signature_of signatures.now) }
    requires within { end ≤ length signatures.now }
    ensures { IsFirstHit types.now (map signature_of signatures.now) (signed_of entry.now) start end result }
{
    let mut first = end;
    let places = index.named(entry.name);
    for k in 0..places.len() {
        let place = places[k];
        if start <= place.component
            && place.component < first
            && entries_clash(types, entry, entry_at(signatures, place))
        {
            first = place.component;
        }
    }
    first
}

/// The entry in this place.
pub fn entry_at<'s, 'a>(signatures: &'s [Vec<SignedEntry<'a>>], place: Place) -> &'s SignedEntry<'a>
    requires { (e : spec.SignedEntry) × IsAt (map signature_of signatures.now) place e }
    ensures { IsAt (map signature_of signatures.now) place (signed_of result.now) }
{
    &signatures[place.component][place.entry]
}

/// Whether two entries have an action in common that is internal to one of them, or an output of both.
fn entries_clash(types: &Types, a: &SignedEntry, b: &SignedEntry) -> bool
    ensures { result ≡ spec.clash types.now (signed_of a.now) (signed_of b.now) }
{
    a.name == b.name && all_meet(types, a.positions, b.positions) && kinds_clash(a.kind, b.kind)
}

/// Whether one is internal, or both are outputs.
fn kinds_clash(a: Kind, b: Kind) -> bool
    ensures { result ≡ spec.kinds_clash a b }
{
    match (a, b) {
        (Kind::Internal, _) | (_, Kind::Internal) => true,
        (Kind::Output, Kind::Output) => true,
        (Kind::Input, Kind::Input | Kind::Output) | (Kind::Output, Kind::Input) => false,
    }
}
