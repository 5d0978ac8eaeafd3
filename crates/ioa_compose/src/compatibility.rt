//! Components are compatible by the signatures of their automata.

ghost use Rattle.std.specs.Prelude.{map, OnOk, IfErr};
ghost use Rattle.ioa_value.specs.Table.{AreTypes};
ghost use Rattle.ioa_compose.specs.Bindings.{plain_in, instance_in, AllSound, AllStartable, AllApart, AllOwn, AllPositioned};
ghost use Rattle.ioa_compose.specs.Refusals.{NoneClash, ClashesIn, reason_of};

use crate::binding::Binding;
use crate::signatures::signatures;
use ioa_clash::{Place, entry_at, first_clash};
use ioa_syntax::Refusal;
use ioa_value::Types;
use std::alloc::Global;

/// Whether no two of these clash, with inputs for crash and recover. It asks for well formed automata, with arguments of their
/// formals' types.
pub(crate) fn compatible(alloc: Global, types: &Types, bindings: &[Binding]) -> Result<(), Refusal>
    requires table { AreTypes types.now }
    requires sound { AllSound (map (plain_in types.now) bindings.now) }
    requires startable { AllStartable (map (plain_in types.now) bindings.now) }
    requires apart { AllApart bindings.now }
    requires own { AllOwn bindings.now }
    requires positions { AllPositioned types.now bindings.now }
    ensures ok { OnOk result (NoneClash (map (instance_in types.now) bindings.now)) }
    ensures refused { IfErr result (λ r. ClashesIn (map (instance_in types.now) bindings.now) (reason_of r)) }
{
    let signatures = signatures(alloc, bindings)?;
    match first_clash(alloc, types, &signatures)? {
        None => Ok(()),
        Some(clash) => {
            let place = Place {
                component: clash.first,
                entry: clash.entry,
            };
            let entry = entry_at(&signatures, place);
            let name = String::from_str(alloc, entry.name)?;
            Err(Refusal::Clash(clash.first, clash.second, name))
        }
    }
}
