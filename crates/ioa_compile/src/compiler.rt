//! The compiler: of the components of a composition it makes the tables of a program.

ghost use Rattle.std.specs.Prelude.{◌≡◌, map, IfOk};
ghost use Rattle.std.specs.List.{AllZip};
ghost use Rattle.std.specs.String.{string_bytes};
ghost use Rattle.ioa_value.specs.Table.{Table, AreTypes};
ghost use Rattle.ioa_compose.specs.Fine.{IsFine, AllFine, AreOver};
ghost use Rattle.ioa_crash.specs.Limits.{component_limits};
ghost use Rattle.ioa_compose.specs.Held.{composed_of, member_of, HoldsPositions, AllHoldPositions};
ghost use Rattle.ioa_compile.specs.Implements.{Implements};
ghost use Rattle.ioa_compile.specs.Shown.{member_code};
ghost use Rattle.ioa_compile.specs.Translated.{DoesSame};

use crate::entries::compile_entries;
use crate::program::Program;
use crate::table::Member;
use crate::types::variable_types;
use ioa_compose::{Composition, Member as MemberTree};
use ioa_node::from_values;
use ioa_value::OutOfMemory;
use ioa_words::Layout;
use std::alloc::Global;

/// The program that means the composition. It refuses nothing but for want of memory.
pub fn compile(alloc: Global, composition: &Composition) -> Result<Program, OutOfMemory>
    ensures { IfOk result (λ p. Implements p (composed_of composition.now)) }
{
    let types = composition.types().share()?;
    let members = compile_members(alloc, composition.members())?;
    let name = composition.name().to_string(alloc)?;
    let hidden = names(alloc, composition.hidden())?;
    Program::new(alloc, types, name, members, hidden)
}

/// The components, compiled, in order.
fn compile_members(alloc: Global, members: &[MemberTree]) -> Result<Vec<Member>, OutOfMemory>
    requires fine { AllFine component_limits (map member_of members.now) }
    requires positions { AllHoldPositions members.now }
    requires table { (types : Table) × AreTypes types × AreOver types (map member_of members.now) }
    ensures { IfOk result (λ codes. AllZip DoesSame (map member_of members.now) (map member_code codes.items)) }
{
    let mut codes = Vec::new(alloc);
    for member in members {
        codes.push(compile_member(alloc, member)?)?;
    }
    Ok(codes)
}

/// A component, compiled.
fn compile_member(alloc: Global, member: &MemberTree) -> Result<Member, OutOfMemory>
    requires fine { IsFine component_limits (member_of member.now) }
    requires positions { HoldsPositions member.now }
    requires table { AreTypes member.now.types }
    ensures { IfOk result (λ c. DoesSame (member_of member.now) (member_code c)) }
{
    let slots = variable_types(alloc, &member.types, &member.automaton.variables)?;
    let layout = Layout::new(alloc, member.types.share()?)?;
    Ok(Member {
        name: member.name.clone()?,
        start: from_values(alloc, &member.types, &slots, &member.starts)?,
        entries: compile_entries(alloc, &layout, member, &slots)?,
    })
}

/// Names that equal these.
fn names(alloc: Global, names: &[String]) -> Result<Vec<String>, OutOfMemory>
    ensures { IfOk result (λ copies. map string_bytes copies.items ≡ map string_bytes names.now) }
{
    let mut copies = Vec::new(alloc);
    for name in names {
        copies.push(name.clone()?)?;
    }
    Ok(copies)
}
