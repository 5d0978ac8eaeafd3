//! The making of a table of types, one declaration after another, each judged as it comes.

ghost use Rattle.std.specs.Prelude.{◌≡◌, ◌∷◌, [], ◌++◌, ◌+◌, IfSome, IfOk, OnOk, ℕ, List, ◌<◌, ◌≤◌, ◌↔◌, IsTrue, All, map, length, string_bytes, Some, if◌then◌else◌};
ghost use Rattle.std.specs.BTreeMap.{get_by_text};
ghost use Rattle.std.specs.Str.{bytes_eq};
ghost use Rattle.std.specs.Option.{option_map, unwrap_or};
ghost use Rattle.std.specs.List.{sum};
ghost use Rattle.ioa_value.specs.Plain.{number};
ghost use Rattle.ioa_value.specs.Table as table;
ghost use Rattle.ioa_value.specs.Table.{Table, basic, types_of, field_names, type_named, MayStand, MayFollow, AreTypes};
ghost use Rattle.ioa_value.specs.Widths.{shape_width, widths, width_at};
ghost use Rattle.ioa_value.specs.Shapes.{shape, tuple_field, declaration, FindsConstants, FindsMore};
ghost use Rattle.ioa_value.specs.Names.{IsName};

use crate::limits::LIMITS;
use crate::memory::OutOfMemory;
use crate::names::is_name;
use crate::types::{Declared, Field, Form, Listing, Types};
use crate::value::Ty;
use std::alloc::Global;
use std::collections::BTreeMap;
use std::marker::Model;

/// Types that are still being declared: Bool, Int, and then the declared ones.
pub struct Declarations {
    declared: Vec<Declared>,
    // Of each type how many words a value takes at most.
    widths: Vec<usize>,
    // The types by name.
    types: BTreeMap<String, Ty>,
}

/// Written out, so that who drops one calls this, and does not take it apart itself.
impl Drop for Declarations {
    fn drop(self) {
        let Declarations {
            declared: _,
            widths: _,
            types: _,
        } = self;
    }
}

impl Model for Declarations {
    ghost use Rattle.std.specs.Prelude.{◌≡◌, map};
    ghost use Rattle.ioa_value.specs.Table.{Table, AreTypes};
    ghost use Rattle.ioa_value.specs.Widths as spec;
    ghost use Rattle.ioa_value.specs.Shapes.{declaration, FindsTypes};

    ghost Value = { Table };

    ghost view = { λ t. map declaration t.declared.items };

    ghost invariant = { λ t. AreTypes (map declaration t.declared.items)
        × (t.widths.items ≡ spec.widths (map declaration t.declared.items))
        × FindsTypes t.types (map declaration t.declared.items) };
}

impl Declarations {
    /// Bool and Int alone.
    pub fn new(alloc: Global) -> Result<Declarations, OutOfMemory>
        ensures { IfOk result (λ t. t ≡ basic) }
    {
        let mut declared = Vec::new(alloc);
        declared.push(Declared {
            name: String::from_str(alloc, "Bool")?,
            form: Form::Truths,
        })?;
        declared.push(Declared {
            name: String::from_str(alloc, "Int")?,
            form: Form::Numbers,
        })?;
        let mut widths = Vec::new(alloc);
        widths.push(1)?;
        widths.push(1)?;
        let mut types = BTreeMap::new(alloc);
        types.insert(String::from_str(alloc, "Int")?, Ty::INT)?;
        types.insert(String::from_str(alloc, "Bool")?, Ty::BOOL)?;
        Ok(Declarations {
            declared,
            widths,
            types,
        })
    }

    /// How many types there are.
    pub fn len(&self) -> usize
        ensures count { result ≡ length self.now }
        ensures types { AreTypes self.now }
    {
        self.declared.len()
    }

    /// The type of this name.
    pub fn named(&self, name: &str) -> Option<Ty>
        ensures place { option_map number result ≡ type_named self.now name.now }
        ensures within { IfSome result (λ ty. ty.0 < length self.now) }
        ensures types { AreTypes self.now }
    {
        self.types.get(name).copied()
    }

    /// Whether a type of this form may come next: it names earlier types alone, has a first value,
    /// names its fields legally and differently, and keeps within the limits of numbers.
    pub fn allows(&self, form: &Form) -> bool
        ensures { IsTrue result ↔ ((length self.now < 2 + LIMITS.types) × MayStand (length self.now) (shape form.now)) }
    {
        let count = self.declared.len();
        count < 2 + LIMITS.types && may_stand(count, form)
    }

    /// How many words a value of a type of this form takes at most. It asks that the form names earlier types alone.
    pub fn width(&self, form: &Form) -> usize
        requires { MayStand (length self.now) (shape form.now) }
        ensures { result ≡ shape_width (widths self.now) (shape form.now) }
    {
        match form {
            Form::Truths | Form::Numbers | Form::Names(_) => 1,
            Form::Fields(fields) => sum_of_widths(&self.widths, fields),
            Form::Sequence(most, of) => 1 + *most as usize * self.widths[of.0 as usize],
        }
    }

    // The number of the type that comes next.
    fn next(&self) -> Ty
        ensures { result.0 ≡ length self.now }
    {
        Ty(self.declared.len() as u16)
    }

    /// One more type. It asks that the type may come next.
    pub fn push(self, declared: Declared) -> Result<Declarations, OutOfMemory>
        requires { MayFollow self (declaration declared) }
        ensures { IfOk result (λ t. t ≡ self ++ declaration declared ∷ []) }
    {
        let width = self.width(&declared.form);
        let ty = self.next();
        let name = declared.name.clone()?;
        let Declarations {
            declared: mut all,
            mut widths,
            mut types,
        } = self;
        types.insert(name, ty)?;
        widths.push(width)?;
        add_declared(&mut all, declared)?;
        Ok(Declarations {
            declared: all,
            widths,
            types,
        })
    }

    /// The types, to be shared.
    pub fn finish(self, alloc: Global) -> Result<Types, OutOfMemory>
        ensures { IfOk result (λ t. t ≡ self) }
    {
        let constants = constants_of(alloc, &self.declared)?;
        let Declarations {
            declared,
            widths: _,
            types,
        } = self;
        let listing = Listing {
            declared,
            types,
            constants,
        };
        Types::of(alloc, listing)
    }
}

fn add_declared(all: &mut Vec<Declared>, declared: Declared) -> Result<(), OutOfMemory>
    ensures { OnOk result (map declaration all.new.items ≡ map declaration all.old.items ++ declaration declared ∷ []) }
{
    all.push(declared)?;
    Ok(())
}

// The names of enumerations, each with its type and its place.
fn constants_of(
    alloc: Global,
    declared: &[Declared],
) -> Result<BTreeMap<String, (Ty, u8)>, OutOfMemory>
    requires { AreTypes (map declaration declared.now) }
    ensures { IfOk result (λ constants. FindsConstants constants (map declaration declared.now)) }
{
    let mut constants = BTreeMap::new(alloc);
    for i in 0..declared.len() {
        if let Form::Names(names) = &declared[i].form {
            add_names(&mut constants, Ty(i as u16), names)?;
        }
    }
    Ok(constants)
}

// Puts an enumeration's names among the others.
fn add_names(
    constants: &mut BTreeMap<String, (Ty, u8)>,
    ty: Ty,
    names: &[String],
) -> Result<(), OutOfMemory>
    requires { length names.now ≤ LIMITS.names }
    ensures { OnOk result (FindsMore constants.old constants.new ty.0 (map string_bytes names.now)) }
{
    for n in 0..names.len() {
        add_name(constants, &names[n], (ty, n as u8))?;
    }
    Ok(())
}

fn add_name(
    constants: &mut BTreeMap<String, (Ty, u8)>,
    name: &String,
    stands_for: (Ty, u8),
) -> Result<(), OutOfMemory>
    ensures { OnOk result ((x : List ℕ) → get_by_text constants.new x ≡ (if bytes_eq x (string_bytes name.now) then Some (unwrap_or (get_by_text constants.old x) stands_for) else get_by_text constants.old x)) }
{
    constants.entry(name.clone()?)?.or_insert(stands_for);
    Ok(())
}

// Whether a type of this form may have this number.
fn may_stand(count: usize, form: &Form) -> bool
    ensures { IsTrue result ↔ MayStand count (shape form.now) }
{
    match form {
        Form::Truths => count == 0,
        Form::Numbers => count == 1,
        Form::Names(names) => !names.is_empty() && names.len() <= LIMITS.names,
        Form::Fields(fields) => {
            !fields.is_empty()
                && fields.len() <= LIMITS.fields
                && are_earlier(fields, count)
                && are_legal(fields)
                && are_distinct(fields)
        }
        Form::Sequence(most, of) => 0 < *most
            && *most as usize <= LIMITS.capacity
            && (of.0 as usize) < count,
    }
}

// Whether each field's type is one of the first so many.
fn are_earlier(fields: &[Field], count: usize) -> bool
    ensures { IsTrue result ↔ All (λ t. t < count) (types_of (map tuple_field fields.now)) }
{
    for i in 0..fields.len() {
        if fields[i].ty.0 as usize >= count {
            return false;
        }
    }
    true
}

// Whether each field has a legal name.
fn are_legal(fields: &[Field]) -> bool
    ensures { IsTrue result ↔ All IsName (field_names (map tuple_field fields.now)) }
{
    for i in 0..fields.len() {
        if !is_name(fields[i].name.as_bytes()) {
            return false;
        }
    }
    true
}

// Whether no two fields have one name. There are few.
fn are_distinct(fields: &[Field]) -> bool
    ensures { result ≡ table.distinct (field_names (map tuple_field fields.now)) }
{
    for i in 0..fields.len() {
        if has_field(&fields[i + 1..], fields[i].name.as_str()) {
            return false;
        }
    }
    true
}

// Whether one of the fields has this name.
fn has_field(fields: &[Field], name: &str) -> bool
    ensures { result ≡ table.contains (field_names (map tuple_field fields.now)) name.now }
{
    for i in 0..fields.len() {
        if fields[i].name.as_str() == name {
            return true;
        }
    }
    false
}

// The sum of the widths of the fields' types.
fn sum_of_widths(widths: &[usize], fields: &[Field]) -> usize
    requires few { length fields.now ≤ LIMITS.fields }
    requires within { All (λ t. t < length widths.now) (types_of (map tuple_field fields.now)) }
    requires narrow { All (λ w. w ≤ LIMITS.words) widths.now }
    ensures { result ≡ shape_width widths.now (table.fields (map tuple_field fields.now)) }
{
    let mut sum = 0;
    for i in 0..fields.len() {
        sum += widths[fields[i].ty.0 as usize];
    }
    sum
}
