//! Whether tables are right: what a program keeps, but for the compatibility of its components.

ghost use Rattle.std.specs.Prelude.{◌≡◌, ◌↔◌, ◌<◌, ◌≤◌, ◌&&◌, [], not, All, IfOk, IfSome, IsTrue, Some, length, map};
ghost use Rattle.std.specs.List.{list_all};
ghost use Rattle.std.specs.String.{string_bytes};
ghost use Rattle.ioa_value.specs.Names as names;
ghost use Rattle.ioa_value.specs.Plain.{number, plain};
ghost use Rattle.ioa_value.specs.Positions.{IsDomain, domain_of};
ghost use Rattle.ioa_value.specs.Table.{AreTypes, all_names, contains, distinct};
ghost use Rattle.ioa_value.specs.declared.limits.TheConstants.{LIMITS as most};
ghost use Rattle.ioa_code.specs.declared.instr.PartKind.TheVariants as kinds;
ghost use Rattle.ioa_crash.specs.Limits.{component_limits};
ghost use Rattle.ioa_compile.specs.Given.{prog_of};
ghost use Rattle.ioa_compile.specs.Shown.{entry_code, member_code};
ghost use Rattle.ioa_compile.specs.Tables.{AreFew, AreRight, AreMembers, AreEntries, IsMember, IsEntry, IsPart, IsPartOf, HasLocal, HasPre, HasPropose, have_output, is_output_of};
ghost use Rattle.ioa_compile.specs.Tables as tables;

use crate::limits::MOST_PLACES;
use crate::named::{are_distinct, are_few, is_given};
use crate::same::{Alike, are_alike};
use crate::table::{Entry, Member};
use crate::tables::Tables;
use crate::types::{parameter_types, position_types};
use ioa_code::{PartKind, Verified};
use ioa_compose::COMPONENT_LIMITS;
use ioa_node::Decoded;
use ioa_tree::Kind;
use ioa_value::{LIMITS, OutOfMemory, Position, Ty, Types, Value, has_type, is_name};
use std::alloc::Global;

/// Whether the tables are right, whether the components are compatible or not.
pub(crate) fn are_right(alloc: Global, tables: &Tables) -> Result<bool, OutOfMemory>
    ensures { IfOk result (λ b. IsTrue b ↔ AreRight (prog_of tables.now)) }
{
    if !is_well_named(&tables.types, tables.name.as_str()) || !hides_outputs(tables) {
        return Ok(false);
    }
    are_members(alloc, &tables.types, &tables.members)
}

/// Whether the name is legal, and none that a type gives.
fn is_well_named(types: &Types, name: &str) -> bool
    ensures types { AreTypes types.now }
    ensures well_named { result ≡ (names.is_name name.now && not (contains (all_names types.now) name.now)) }
{
    !is_given(types, name) && is_name(name.as_bytes())
}

/// Whether the hidden names are different names of outputs, and not too many.
fn hides_outputs(tables: &Tables) -> bool
    ensures { IsTrue result ↔ ((length (prog_of tables.now).hidden ≤ most.hidden) × IsTrue (distinct (prog_of tables.now).hidden) × IsTrue (list_all (is_output_of (prog_of tables.now)) (prog_of tables.now).hidden)) }
{
    tables.hidden.len() <= LIMITS.hidden
        && are_distinct(&tables.hidden)
        && are_outputs(&tables.members, &tables.hidden)
}

/// Whether each of the names is an output's.
fn are_outputs(members: &[Member], names: &[String]) -> bool
    ensures { result ≡ list_all (have_output (map member_code members.now)) (map string_bytes names.now) }
{
    for name in names {
        if !is_output(members, name.as_str()) {
            return false;
        }
    }
    true
}

/// Whether an output of one of the components has this name.
pub fn is_output(members: &[Member], name: &str) -> bool
    ensures { result ≡ have_output (map member_code members.now) name.now }
{
    for member in members {
        if has_output(&member.entries, name) {
            return true;
        }
    }
    false
}

/// Whether one of the entries is an output of this name.
fn has_output(entries: &[Entry], name: &str) -> bool
    ensures { result ≡ tables.has_output (map entry_code entries.now) name.now }
{
    for entry in entries {
        if entry.kind == Kind::Output && entry.name.as_str() == name {
            return true;
        }
    }
    false
}

/// Whether these are components of one program: some, not too many, of different names, and each right.
fn are_members(alloc: Global, types: &Types, members: &[Member]) -> Result<bool, OutOfMemory>
    ensures { IfOk result (λ b. IsTrue b ↔ (AreFew most.components (map (λ m. m.name) (map member_code members.now)) × AreMembers types.now (map member_code members.now))) }
{
    if !are_few(members, LIMITS.components) {
        return Ok(false);
    }
    all_members(alloc, types, members)
}

/// Whether each of the components is right by itself.
fn all_members(alloc: Global, types: &Types, members: &[Member]) -> Result<bool, OutOfMemory>
    ensures { IfOk result (λ b. IsTrue b ↔ AreMembers types.now (map member_code members.now)) }
{
    for member in members {
        if !is_member(alloc, types, member)? {
            return Ok(false);
        }
    }
    Ok(true)
}

/// Whether a component is right by itself, over these types.
fn is_member(alloc: Global, types: &Types, member: &Member) -> Result<bool, OutOfMemory>
    ensures { IfOk result (λ b. IsTrue b ↔ IsMember types.now (member_code member.now)) }
{
    if !is_name(member.name.as_bytes())
        || !member.start.declared().is_like(types)
        || member.start.types().len() > COMPONENT_LIMITS.variables
    {
        return Ok(false);
    }
    are_entries(alloc, member)
}

/// Whether a component has some entries, not too many, of different names, and each right.
fn are_entries(alloc: Global, member: &Member) -> Result<bool, OutOfMemory>
    ensures { IfOk result (λ b. IsTrue b ↔ (AreFew component_limits.entries (map (λ e. e.name) (member_code member.now).entries) × AreEntries (member_code member.now) (member_code member.now).entries)) }
{
    if !are_few(&member.entries, COMPONENT_LIMITS.entries) {
        return Ok(false);
    }
    all_entries(alloc, member, &member.entries)
}

/// Whether each of these entries of the component is right.
fn all_entries(alloc: Global, member: &Member, entries: &[Entry]) -> Result<bool, OutOfMemory>
    ensures { IfOk result (λ b. IsTrue b ↔ AreEntries (member_code member.now) (map entry_code entries.now)) }
{
    for entry in entries {
        if !is_entry(alloc, member, entry)? {
            return Ok(false);
        }
    }
    Ok(true)
}

/// Whether an entry of the component is right.
fn is_entry(alloc: Global, member: &Member, entry: &Entry) -> Result<bool, OutOfMemory>
    ensures { IfOk result (λ b. IsTrue b ↔ IsEntry (member_code member.now) (entry_code entry.now)) }
{
    if !is_name(entry.name.as_bytes())
        || entry.positions.len() > LIMITS.parameters
        || !are_positions(member.start.declared(), &entry.positions)
        || entry.effect.code().consts().len() > MOST_PLACES
        || !has_its_consts(entry)
    {
        return Ok(false);
    }
    are_parts(alloc, member, entry)
}

/// Whether the parts of the entry's code are right.
fn are_parts(alloc: Global, member: &Member, entry: &Entry) -> Result<bool, OutOfMemory>
    ensures { IfOk result (λ b. IsTrue b ↔ (HasPre (member_code member.now) (entry_code entry.now) entry.now.kind entry.now.pre
        × HasPropose (member_code member.now) (entry_code entry.now) entry.now.kind entry.now.propose
        × IsPartOf (member_code member.now) (entry_code entry.now) kinds.Eff [] entry.now.effect)) }
{
    let values = position_types(alloc, &entry.positions)?;
    let parameters = parameter_types(alloc, &entry.positions)?;
    let kind = entry.kind;
    Ok(
        is_local_part(
            member,
            kind,
            PartKind::Pre,
            &values,
            &[Ty::BOOL],
            &entry.pre,
        ) && is_local_part(
            member,
            kind,
            PartKind::Propose,
            &[],
            &parameters,
            &entry.propose,
        ) && is_part(member, PartKind::Eff, &values, &[], entry.effect.code()),
    )
}

/// Whether each position has a value.
fn are_positions(types: &Types, positions: &[Position]) -> bool
    ensures { IsTrue result ↔ All (IsDomain types.now) (map domain_of positions.now) }
{
    for position in positions {
        if !is_position(types, position) {
            return false;
        }
    }
    true
}

/// Whether the position has a value: its type is declared, or its one value is of the type that it says it has.
fn is_position(types: &Types, position: &Position) -> bool
    ensures { IsTrue result ↔ IsDomain types.now (domain_of position.now) }
{
    match position {
        Position::Typed(ty) => (ty.0 as usize) < types.len(),
        Position::Constant(value) => has_type(types, value, value.ty()),
    }
}

/// Whether the parts of the entry carry one table of constants.
fn has_its_consts(entry: &Entry) -> bool
    ensures { IsTrue result ↔ (IfSome entry.now.pre (λ part. part.code.consts ≡ entry.now.effect.code.consts) × IfSome entry.now.propose (λ part. part.code.consts ≡ entry.now.effect.code.consts)) }
{
    let consts = entry.effect.code().consts();
    carries(&entry.pre, consts) && carries(&entry.propose, consts)
}

/// Whether the part, if there is one, carries these constants.
fn carries(part: &Option<Decoded>, consts: &[Value]) -> bool
    ensures { IsTrue result ↔ IfSome part.now (λ part. part.code.consts ≡ map plain consts.now) }
{
    match part {
        Some(part) => are_alike(part.code().consts(), consts),
        None => true,
    }
}

/// Whether an input has no such part, and any other entry has one that is right.
fn is_local_part(
    member: &Member,
    of: Kind,
    kind: PartKind,
    values: &[Ty],
    end: &[Ty],
    part: &Option<Decoded>,
) -> bool
    ensures { IsTrue result ↔ HasLocal (IsPart (member_code member.now) kind (map number values.now) (map number end.now)) of part.now }
{
    match (of, part) {
        (Kind::Input, None) => true,
        (Kind::Output | Kind::Internal, Some(part)) => {
            is_part(member, kind, values, end, part.code())
        }
        (Kind::Input, Some(_)) | (Kind::Output | Kind::Internal, None) => false,
    }
}

/// Whether the part is code of this kind over the component's types and variables and values of these types, and ends with values
/// of those types on the stack.
fn is_part(member: &Member, kind: PartKind, values: &[Ty], end: &[Ty], part: &Verified) -> bool
    ensures { IsTrue result ↔ IsPart (member_code member.now) kind (map number values.now) (map number end.now) part.now }
{
    part.kind() == kind
        && part.types().is_like(member.start.declared())
        && are_alike(part.result(), end)
        && are_alike(part.slots(), member.start.types())
        && are_alike(part.arguments(), values)
        && part.instrs().len() <= MOST_PLACES
}
