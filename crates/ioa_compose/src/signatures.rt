//! The entries of components as they are compared.

ghost use Rattle.std.specs.Prelude.{◌≡◌, map, IfOk};
ghost use Rattle.ioa_value.specs.Table.{Table};
ghost use Rattle.ioa_compose.specs.Bindings.{HasPositions, AllPositioned};
ghost use Rattle.ioa_clash.specs.Clashes.{signature_of};
ghost use Rattle.ioa_compose.specs.Signatures.{signature_in};

use crate::binding::Binding;
use ioa_clash::SignedEntry;
use ioa_value::OutOfMemory;
use std::alloc::Global;

/// The entries of each component's own automaton, in order: behind those that are declared the inputs by which it crashes and recovers.
pub(crate) fn signatures<'b>(
    alloc: Global,
    bindings: &'b [Binding<'_>],
) -> Result<Vec<Vec<SignedEntry<'b>>>, OutOfMemory>
    requires { (types : Table) × AllPositioned types bindings.now }
    ensures { IfOk result (λ ss. map signature_of ss.items ≡ map signature_in bindings.now) }
{
    let mut signatures = Vec::with_capacity(alloc, bindings.len())?;
    for binding in bindings {
        signatures.push(signature(alloc, binding)?)?;
    }
    Ok(signatures)
}

fn signature<'b>(
    alloc: Global,
    binding: &'b Binding<'_>,
) -> Result<Vec<SignedEntry<'b>>, OutOfMemory>
    requires { (types : Table) × HasPositions types binding.now }
    ensures { IfOk result (λ s. signature_of s ≡ signature_in binding.now) }
{
    let mut signature = Vec::with_capacity(alloc, binding.own.entries.len())?;
    for k in 0..binding.own.entries.len() {
        let entry = &binding.own.entries[k];
        signature.push(SignedEntry {
            kind: entry.kind,
            name: entry.name.text.as_str(),
            positions: &binding.positions[k],
        })?;
    }
    Ok(signature)
}
