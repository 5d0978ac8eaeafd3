//! Components and their entries.

ghost use Rattle.std.specs.Prelude.{◌≡◌, IfOk, map};
ghost use Rattle.std.specs.String.{string_bytes};
ghost use Rattle.ioa_value.specs.Plain.{number, plain};
ghost use Rattle.ioa_value.specs.Positions.{domain_of};
ghost use Rattle.ioa_value.specs.Table.{AreTypes};
ghost use Rattle.ioa_value.specs.Typing.{own, OwnTypes};
ghost use Rattle.ioa_value.specs.declared.limits.TheConstants.{LIMITS as most};
ghost use Rattle.ioa_crash.specs.Limits.{component_limits};
ghost use Rattle.ioa_compile.specs.Shown.{entry_code, member_code};
ghost use Rattle.ioa_object.specs.Openings.{opening};
ghost use Rattle.ioa_object.specs.Reading as spec;
ghost use Rattle.ioa_bytes.specs.Items.{ReadsItem, list_at};

use crate::parts::{local_part, part};
use ioa_bytes::{Cursor, ObjErr, value, values};
use ioa_code::{Env, PartKind};
use ioa_compile::{Entry, MOST_PLACES, Member, is_named, parameter_types, position_types};
use ioa_compose::COMPONENT_LIMITS;
use ioa_node::from_values;
use ioa_tree::Kind;
use ioa_value::{LIMITS, OutOfMemory, Position, Ty, Types, Value};
use ioa_words::Layout;
use std::alloc::Global;

/// The components of a program over these types, in whose code loops may stand or not.
pub(crate) fn components(
    cursor: &mut Cursor<'_>,
    loops: bool,
    types: &Types,
) -> Result<Vec<Member>, ObjErr>
    requires { AreTypes types.now }
    ensures { ReadsItem (λ v. map member_code v.items) (list_at 1 most.components (spec.component_at loops types.now) cursor.old) result cursor.new }
{
    let count = cursor.count(1, LIMITS.components)?;
    let mut found = Vec::new(cursor.alloc());
    let layout = Layout::new(cursor.alloc(), types.share()?)?;
    for _ in 0..count {
        found.push(component(cursor, loops, &layout, types, &found)?)?;
    }
    Ok(found)
}

/// The component that comes after these.
#[tactic(auto, unfolding(crate::specs::Reading::component_at, ioa_bytes::specs::Items::name_at))]
fn component(
    cursor: &mut Cursor<'_>,
    loops: bool,
    layout: &Layout,
    types: &Types,
    before: &[Member],
) -> Result<Member, ObjErr>
    requires layout { layout.now ≡ types.now }
    requires types { AreTypes types.now }
    ensures { ReadsItem member_code (spec.component_at loops types.now (map member_code before.now) cursor.old) result cursor.new }
{
    let alloc = cursor.alloc();
    let name = cursor.name()?;
    if is_named(before, name.text) {
        return Err(ObjErr::BadTable(name.at));
    }
    let starts = values(cursor, types, COMPONENT_LIMITS.variables)?;
    let slots = types_of(alloc, &starts)?;
    let entries = entries(cursor, loops, layout, types, &slots)?;
    Ok(Member {
        name: text(alloc, name.text)?,
        start: from_values(alloc, types, &slots, &starts)?,
        entries,
    })
}

/// A name that is kept.
fn text(alloc: Global, name: &str) -> Result<String, OutOfMemory>
    ensures { IfOk result (λ s. string_bytes s ≡ name.now) }
{
    Ok(String::from_str(alloc, name)?)
}

/// The types of values.
fn types_of(alloc: Global, values: &[Value]) -> Result<Vec<Ty>, OutOfMemory>
    ensures { IfOk result (λ found. map number found.items ≡ map own (map plain values.now)) }
{
    let mut found = Vec::new(alloc);
    for value in values {
        found.push(value.ty())?;
    }
    Ok(found)
}

/// The entries of a component, over variables of these types.
#[tactic(auto, unfolding(ioa_bytes::specs::Items::list_at))]
fn entries(
    cursor: &mut Cursor<'_>,
    loops: bool,
    layout: &Layout,
    types: &Types,
    slots: &[Ty],
) -> Result<Vec<Entry>, ObjErr>
    requires layout { layout.now ≡ types.now }
    requires types { AreTypes types.now }
    ensures { ReadsItem (λ v. map entry_code v.items) (list_at 1 component_limits.entries (spec.entry_at loops types.now (map number slots.now)) cursor.old) result cursor.new }
{
    let count = cursor.count(1, COMPONENT_LIMITS.entries)?;
    let mut found = Vec::new(cursor.alloc());
    for _ in 0..count {
        found.push(entry(cursor, loops, layout, types, slots, &found)?)?;
    }
    Ok(found)
}

/// What an entry is before its code.
struct Front {
    kind: Kind,
    name: String,
    positions: Vec<Position>,
    consts: Vec<Value>,
}

/// Written out, so that who drops one calls this, and does not take it apart itself.
impl Drop for Front {
    fn drop(self) {
        let Front {
            kind: _,
            name: _,
            positions: _,
            consts: _,
        } = self;
    }
}

/// The entry that comes after these.
#[tactic(auto, unfolding(crate::specs::Reading::entry_at))]
fn entry(
    cursor: &mut Cursor<'_>,
    loops: bool,
    layout: &Layout,
    types: &Types,
    slots: &[Ty],
    before: &[Entry],
) -> Result<Entry, ObjErr>
    requires layout { layout.now ≡ types.now }
    requires types { AreTypes types.now }
    ensures { ReadsItem entry_code (spec.entry_at loops types.now (map number slots.now) (map entry_code before.now) cursor.old) result cursor.new }
{
    let front = front_of(cursor, types, before)?;
    front.coded(cursor, loops, layout, types, slots)
}

/// What the entry is that comes after these, before its code.
#[tactic(auto, unfolding(crate::specs::Reading::opening_at, ioa_bytes::specs::Items::name_at))]
fn front_of(cursor: &mut Cursor<'_>, types: &Types, before: &[Entry]) -> Result<Front, ObjErr>
    requires { AreTypes types.now }
    ensures typed { IfOk result (λ front. OwnTypes types.now (map plain front.consts.items)) }
    ensures read { ReadsItem opening (spec.opening_at types.now (map entry_code before.now) cursor.old) result cursor.new }
{
    let alloc = cursor.alloc();
    let kind = kind(cursor)?;
    let name = cursor.name()?;
    if is_named(before, name.text) {
        return Err(ObjErr::BadTable(name.at));
    }
    let positions = positions(cursor, types)?;
    let consts = values(cursor, types, MOST_PLACES)?;
    Ok(Front {
        kind,
        name: text(alloc, name.text)?,
        positions,
        consts,
    })
}

/// The kind of an entry.
#[tactic(auto, unfolding(crate::specs::Reading::kind_at))]
fn kind(cursor: &mut Cursor<'_>) -> Result<Kind, ObjErr>
    ensures { ReadsItem (λ kind. kind) (spec.kind_at cursor.old) result cursor.new }
{
    let at = cursor.place();
    match cursor.byte()? {
        0 => Ok(Kind::Input),
        1 => Ok(Kind::Output),
        2 => Ok(Kind::Internal),
        _ => Err(ObjErr::BadTable(at)),
    }
}

/// The positions of an entry.
fn positions(cursor: &mut Cursor<'_>, types: &Types) -> Result<Vec<Position>, ObjErr>
    ensures { ReadsItem (λ v. map domain_of v.items) (list_at 0 most.parameters (λ _. spec.position_at types.now) cursor.old) result cursor.new }
{
    let count = cursor.count(0, LIMITS.parameters)?;
    let mut found = Vec::new(cursor.alloc());
    for _ in 0..count {
        found.push(position(cursor, types)?)?;
    }
    Ok(found)
}

/// A position: any value of a type, or a single value.
#[tactic(auto, unfolding(crate::specs::Reading::position_at))]
fn position(cursor: &mut Cursor<'_>, types: &Types) -> Result<Position, ObjErr>
    ensures { ReadsItem domain_of (spec.position_at types.now cursor.old) result cursor.new }
{
    let at = cursor.place();
    match cursor.byte()? {
        0 => Ok(Position::Typed(cursor.ty(types.len())?)),
        1 => Ok(Position::Constant(value(cursor, types)?)),
        _ => Err(ObjErr::BadTable(at)),
    }
}

impl Front {
    /// The entry with its code, over variables of these types.
    #[tactic(auto, unfolding(crate::specs::Reading::coded_at))]
    fn coded(
        self,
        cursor: &mut Cursor<'_>,
        loops: bool,
        layout: &Layout,
        types: &Types,
        slots: &[Ty],
    ) -> Result<Entry, ObjErr>
        requires layout { layout.now ≡ types.now }
        requires typed { OwnTypes types.now (map plain self.consts.items) }
        ensures { ReadsItem entry_code (spec.coded_at loops types.now (map number slots.now) (opening self) cursor.old) result cursor.new }
    {
        let alloc = cursor.alloc();
        let arguments = position_types(alloc, &self.positions)?;
        let parameters = parameter_types(alloc, &self.positions)?;
        let env = Env {
            types,
            kind: PartKind::Pre,
            slots,
            arguments: &arguments,
            result: &[Ty::BOOL],
        };
        let pre = local_part(cursor, loops, self.kind, layout, &self.consts, &env)?;
        let env = Env {
            types,
            kind: PartKind::Propose,
            slots,
            arguments: &[],
            result: &parameters,
        };
        let propose = local_part(cursor, loops, self.kind, layout, &self.consts, &env)?;
        let env = Env {
            types,
            kind: PartKind::Eff,
            slots,
            arguments: &arguments,
            result: &[],
        };
        let effect = part(cursor, loops, layout, &self.consts, &env)?;
        let Front {
            kind,
            name,
            positions,
            consts: _,
        } = self;
        Ok(Entry {
            pre,
            propose,
            effect,
            kind,
            name,
            positions,
        })
    }
}
