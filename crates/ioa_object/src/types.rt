//! Types, and how they are declared.

ghost use Rattle.std.specs.Prelude.{◌≡◌, ◌+◌, ◌<◌, ◌++◌, ◌∷◌, [], IfOk, length, map};
ghost use Rattle.std.specs.String.{string_bytes};
ghost use Rattle.ioa_value.specs.Shapes.{shape, tuple_field};
ghost use Rattle.ioa_value.specs.Table.{AreTypes, all_names, contains, names_in};
ghost use Rattle.ioa_value.specs.declared.limits.TheConstants.{LIMITS as most};
ghost use Rattle.ioa_object.specs.Reading as spec;
ghost use Rattle.ioa_bytes.specs.Items.{ReadsItem, built, name_at, list_at};

use ioa_bytes::{Cursor, ObjErr};
use ioa_compile::is_named;
use ioa_rules::NameSet;
use ioa_value::{Declarations, Declared, Field, Form, LIMITS, Types};

/// The types of a program. Bool and Int are there without a declaration.
#[tactic(auto, unfolding(crate::specs::Reading::types_at))]
pub(crate) fn types(cursor: &mut Cursor<'_>) -> Result<Types, ObjErr>
    ensures read { ReadsItem (λ types. types) (spec.types_at cursor.old) result cursor.new }
    ensures table { IfOk result AreTypes }
{
    let alloc = cursor.alloc();
    let count = cursor.count(0, LIMITS.types)?;
    let mut declarations = Declarations::new(alloc)?;
    let mut taken = NameSet::new(alloc);
    taken.insert("Bool")?;
    taken.insert("Int")?;
    for _ in 0..count {
        declarations = one_more(cursor, declarations, &mut taken)?;
    }
    Ok(declarations.finish(alloc)?)
}

/// One more declaration, and the names that it gives among those that are taken.
fn one_more<'a>(
    cursor: &mut Cursor<'a>,
    declarations: Declarations,
    taken: &mut NameSet<'a>,
) -> Result<Declarations, ObjErr>
    requires room { length declarations < 2 + most.types }
    requires names { taken.old ≡ all_names declarations }
    ensures read { ReadsItem (λ types. types) (built (λ d. declarations ++ d ∷ []) (spec.declaration_at declarations cursor.old)) result cursor.new }
    ensures names { IfOk result (λ types. taken.new ≡ all_names types) }
{
    let alloc = cursor.alloc();
    let at = cursor.place();
    let tag = cursor.byte()?;
    if tag < 1 || 3 < tag {
        return Err(ObjErr::BadTable(at));
    }
    let name = new_name(cursor, taken)?;
    let form = form(cursor, tag, declarations.len(), taken)?;
    if declarations.width(&form) > LIMITS.words {
        return Err(ObjErr::BadTable(at));
    }
    let name = String::from_str(alloc, name)?;
    Ok(declarations.push(Declared { name, form })?)
}

/// A name that is not taken, and is taken from here on.
#[tactic(auto, unfolding(ioa_bytes::specs::Items::name_at))]
fn new_name<'a>(cursor: &mut Cursor<'a>, taken: &mut NameSet<'a>) -> Result<&'a str, ObjErr>
    ensures read { ReadsItem (λ x. x.now) (name_at (contains taken.old) cursor.old) result cursor.new }
    ensures names { IfOk result (λ x. taken.new ≡ taken.old ++ x.now ∷ []) }
{
    let name = cursor.name()?;
    if taken.insert(name.text)? {
        Ok(name.text)
    } else {
        Err(ObjErr::BadTable(name.at))
    }
}

/// What a type of this tag is, where there are so many types before it.
#[tactic(auto, unfolding(crate::specs::Reading::form_at))]
fn form<'a>(
    cursor: &mut Cursor<'a>,
    tag: u8,
    count: usize,
    taken: &mut NameSet<'a>,
) -> Result<Form, ObjErr>
    ensures read { ReadsItem shape (spec.form_at tag taken.old count cursor.old) result cursor.new }
    ensures names { IfOk result (λ form. taken.new ≡ taken.old ++ names_in (shape form)) }
{
    match tag {
        1 => Ok(Form::Names(constants(cursor, taken)?)),
        2 => Ok(Form::Fields(fields(cursor, count)?)),
        _ => sequence(cursor, count),
    }
}

/// The names of an enumeration.
fn constants<'a>(cursor: &mut Cursor<'a>, taken: &mut NameSet<'a>) -> Result<Vec<String>, ObjErr>
    ensures read { ReadsItem (λ v. map string_bytes v.items) (list_at 1 most.names (λ before. name_at (contains (taken.old ++ before))) cursor.old) result cursor.new }
    ensures names { IfOk result (λ v. taken.new ≡ taken.old ++ map string_bytes v.items) }
{
    let alloc = cursor.alloc();
    let count = cursor.count(1, LIMITS.names)?;
    let mut names = Vec::new(alloc);
    for _ in 0..count {
        names.push(String::from_str(alloc, new_name(cursor, taken)?)?)?;
    }
    Ok(names)
}

/// The fields of a tuple, each of one of so many types.
fn fields(cursor: &mut Cursor<'_>, count: usize) -> Result<Vec<Field>, ObjErr>
    ensures { ReadsItem (λ v. map tuple_field v.items) (list_at 1 most.fields (spec.field_at count) cursor.old) result cursor.new }
{
    let length = cursor.count(1, LIMITS.fields)?;
    let mut found = Vec::new(cursor.alloc());
    for _ in 0..length {
        found.push(field(cursor, count, &found)?)?;
    }
    Ok(found)
}

/// The field that comes after these.
#[tactic(auto, unfolding(crate::specs::Reading::field_at, ioa_bytes::specs::Items::name_at))]
fn field(cursor: &mut Cursor<'_>, count: usize, before: &[Field]) -> Result<Field, ObjErr>
    ensures { ReadsItem tuple_field (spec.field_at count (map tuple_field before.now) cursor.old) result cursor.new }
{
    let name = cursor.name()?;
    if is_named(before, name.text) {
        return Err(ObjErr::BadTable(name.at));
    }
    let ty = cursor.ty(count)?;
    Ok(Field {
        name: String::from_str(cursor.alloc(), name.text)?,
        ty,
    })
}

/// A sequence of items of one of so many types.
#[tactic(auto, unfolding(crate::specs::Reading::sequence_at))]
fn sequence(cursor: &mut Cursor<'_>, count: usize) -> Result<Form, ObjErr>
    ensures read { ReadsItem shape (spec.sequence_at count cursor.old) result cursor.new }
    ensures names { IfOk result (λ form. names_in (shape form) ≡ []) }
{
    let most = cursor.count(1, LIMITS.capacity)? as u16;
    let of = cursor.ty(count)?;
    Ok(Form::Sequence(most, of))
}
