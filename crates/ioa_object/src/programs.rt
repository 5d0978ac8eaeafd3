//! What an object says of a program: its tables, behind the version.

ghost use Rattle.std.specs.Prelude.{map};
ghost use Rattle.std.specs.String.{string_bytes};
ghost use Rattle.ioa_value.specs.Table.{all_names, contains};
ghost use Rattle.ioa_value.specs.declared.limits.TheConstants.{LIMITS as most};
ghost use Rattle.ioa_compile.specs.Given.{prog_of};
ghost use Rattle.ioa_compile.specs.Shown.{member_code};
ghost use Rattle.ioa_bytes.specs.Items.{ReadsItem, name_at, list_at};
ghost use Rattle.ioa_object.specs.Reading as spec;

use crate::components::components;
use crate::types::types;
use ioa_bytes::{Cursor, ObjErr};
use ioa_compile::{Member, Tables, is_given, is_named, is_output};
use ioa_value::{LIMITS, Types};

/// The tables of a program, in whose code loops may stand or not.
///
/// # Errors
/// `Truncated`, `BadTable` or `BadCode` of the first item, from the left, that may not stand in its place; `OutOfMemory`.
#[tactic(auto, unfolding(crate::specs::Reading::tables_at))]
pub fn read_tables(cursor: &mut Cursor<'_>, loops: bool) -> Result<Tables, ObjErr>
    ensures { ReadsItem prog_of (spec.tables_at loops cursor.old) result cursor.new }
{
    let types = types(cursor)?;
    let name = name(cursor, &types)?;
    let members = components(cursor, loops, &types)?;
    let hidden = hidden_names(cursor, &members)?;
    Ok(Tables {
        types,
        name,
        members,
        hidden,
    })
}

/// The composition's name, which no type gives.
#[tactic(auto, unfolding(ioa_bytes::specs::Items::name_at))]
fn name(cursor: &mut Cursor<'_>, types: &Types) -> Result<String, ObjErr>
    ensures { ReadsItem string_bytes (name_at (contains (all_names types.now)) cursor.old) result cursor.new }
{
    let name = cursor.name()?;
    if is_given(types, name.text) {
        return Err(ObjErr::BadTable(name.at));
    }
    Ok(String::from_str(cursor.alloc(), name.text)?)
}

/// The hidden names, each of an output.
#[tactic(auto, unfolding(ioa_bytes::specs::Items::list_at))]
fn hidden_names(cursor: &mut Cursor<'_>, members: &[Member]) -> Result<Vec<String>, ObjErr>
    ensures { ReadsItem (λ v. map string_bytes v.items) (list_at 0 most.hidden (spec.hidden_at (map member_code members.now)) cursor.old) result cursor.new }
{
    let count = cursor.count(0, LIMITS.hidden)?;
    let mut found = Vec::new(cursor.alloc());
    for _ in 0..count {
        found.push(hidden_name(cursor, members, &found)?)?;
    }
    Ok(found)
}

/// The hidden name that comes after these.
#[tactic(auto, unfolding(crate::specs::Reading::hidden_at, ioa_bytes::specs::Items::name_at))]
fn hidden_name(
    cursor: &mut Cursor<'_>,
    members: &[Member],
    before: &[String],
) -> Result<String, ObjErr>
    ensures { ReadsItem string_bytes (spec.hidden_at (map member_code members.now) (map string_bytes before.now) cursor.old) result cursor.new }
{
    let name = cursor.name()?;
    if is_named(before, name.text) || !is_output(members, name.text) {
        return Err(ObjErr::BadTable(name.at));
    }
    Ok(String::from_str(cursor.alloc(), name.text)?)
}
