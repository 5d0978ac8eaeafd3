//! Components of a table are compatible by their entries, as those of a source are.

ghost use Rattle.std.specs.Prelude.{◌≡◌, ◌↔◌, map, None, IfOk, IfSome};
ghost use Rattle.ioa_value.specs.Table.{AreTypes};
ghost use Rattle.ioa_tree.specs.Components.{Compatible};
ghost use Rattle.ioa_clash.specs.Clashes.{signature_of};
ghost use Rattle.ioa_compile.specs.Clashes.{signed_entry, signature_in, IsFirstClash};
ghost use Rattle.ioa_compile.specs.Shown.{entry_code, member_code};
ghost use Rattle.ioa_compile.specs.Tables.{AreMembers, table_component};

use crate::table::{Entry, Member};
use ioa_compose::{Clash, SignedEntry, first_clash};
use ioa_value::{OutOfMemory, Types};
use std::alloc::Global;

/// The first two of these components that are not compatible, by the first one's place and then by the other's, or none if all
/// are. It asks for components of a program over these types.
///
/// # Errors
/// `OutOfMemory`.
pub fn clash_among(
    alloc: Global,
    types: &Types,
    members: &[Member],
) -> Result<Option<Clash>, OutOfMemory>
    requires table { AreTypes types.now }
    requires members { AreMembers types.now (map member_code members.now) }
    ensures exact { IfOk result (λ clash. (clash ≡ None) ↔ Compatible (map table_component (map member_code members.now))) }
    ensures first { IfOk result (λ clash. IfSome clash (IsFirstClash (map member_code members.now))) }
{
    let signatures = signatures(alloc, members)?;
    first_clash(alloc, types, &signatures)
}

/// The entries of the components as they are compared.
fn signatures<'m>(
    alloc: Global,
    members: &'m [Member],
) -> Result<Vec<Vec<SignedEntry<'m>>>, OutOfMemory>
    ensures { IfOk result (λ ss. map signature_of ss.items ≡ map signature_in (map member_code members.now)) }
{
    let mut signatures = Vec::with_capacity(alloc, members.len())?;
    for member in members {
        signatures.push(signature(alloc, &member.entries)?)?;
    }
    Ok(signatures)
}

fn signature<'m>(alloc: Global, entries: &'m [Entry]) -> Result<Vec<SignedEntry<'m>>, OutOfMemory>
    ensures { IfOk result (λ s. signature_of s ≡ map signed_entry (map entry_code entries.now)) }
{
    let mut signature = Vec::with_capacity(alloc, entries.len())?;
    for entry in entries {
        signature.push(SignedEntry {
            kind: entry.kind,
            name: entry.name.as_str(),
            positions: &entry.positions,
        })?;
    }
    Ok(signature)
}
