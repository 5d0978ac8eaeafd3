//! The table of a source's types, made from its declarations.

ghost use Rattle.std.specs.Prelude.{◌≡◌, ◌&&◌, Some, IfOk, IsTrue, map};
ghost use Rattle.std.specs.List.{list_all};
ghost use Rattle.std.specs.String.{string_bytes};
ghost use Rattle.ioa_value.specs.Shapes.{shape, tuple_field};
ghost use Rattle.ioa_value.specs.Table.{basic, distinct as are_distinct, type_named};
ghost use Rattle.ioa_tree.specs.Names.{LegalNames};
ghost use Rattle.ioa_tree.specs.Types.{with_type, types_of, shape_of, numbered};
ghost use Rattle.ioa_tree.specs.View.{name_of, field_of, type_form_of, type_declaration_of, tree_of};
ghost use Rattle.ioa_tree.specs.WellFormed as well_formed;
ghost use Rattle.ioa_rules.specs.Codes.{unknown_name, too_wide, tells};
ghost use Rattle.ioa_rules.specs.Reasons as reasons;
ghost use Rattle.ioa_rules.specs.Reasons.{◌or◌, broken};
ghost use Rattle.ioa_rules.specs.Types.{types_fine, is_narrow, ComesNext};
ghost use Rattle.ioa_rules.specs.Verdicts.{SaysOrMemory, Finds};

use crate::names::distinct;
use ioa_lex::Refusal;
use ioa_tree::{Declaration, Field, Name, TypeDeclaration, TypeForm};
use ioa_value::{Declarations, Declared, Form, LIMITS, OutOfMemory, Ty, Types};
use std::alloc::Global;

/// The types of the source, if each is well formed over those before it, and none too wide. It asks that the source is
/// within the limits, and that its global names are legal and different.
pub(crate) fn source_types(alloc: Global, declarations: &[Declaration]) -> Result<Types, Refusal>
    requires legal { LegalNames (tree_of declarations.now) }
    requires different { IsTrue (are_distinct (well_formed.global_names (tree_of declarations.now))) }
    requires within { IsTrue (well_formed.source_within LIMITS (tree_of declarations.now)) }
    ensures says { let s = tree_of declarations.now in
        SaysOrMemory result (types_fine basic s && well_formed.types_narrow LIMITS s) (reasons.in_types basic s or broken too_wide (well_formed.types_narrow LIMITS s)) }
    ensures types { IfOk result (λ types. types ≡ types_of (tree_of declarations.now)) }
{
    let mut types = Declarations::new(alloc)?;
    for declaration in declarations {
        if let Declaration::Type(declared) = declaration {
            types = with_declared(alloc, types, declared)?;
        }
    }
    Ok(types.finish(alloc)?)
}

/// The types with one more, if it is well formed over them and not too wide.
fn with_declared(
    alloc: Global,
    types: Declarations,
    declared: &TypeDeclaration,
) -> Result<Declarations, Refusal>
    requires { ComesNext types (type_declaration_of declared.now) }
    ensures says { let d = type_declaration_of declared.now in
        SaysOrMemory result (well_formed.type_fine types d && is_narrow types d) (reasons.in_form types d.form or broken too_wide (is_narrow types d)) }
    ensures types { IfOk result (λ more. more ≡ with_type types (type_declaration_of declared.now)) }
{
    let form = form_of(alloc, &types, &declared.form)?;
    if types.width(&form) > LIMITS.words {
        return Err(Refusal::TooWide(declared.name.line));
    }
    let name = declared.name.text.clone()?;
    Ok(types.push(Declared { name, form })?)
}

/// What a type is declared to be, over the types before it.
fn form_of(alloc: Global, types: &Declarations, form: &TypeForm) -> Result<Form, Refusal>
    requires { IsTrue (well_formed.form_within LIMITS (type_form_of form.now)) }
    ensures says { SaysOrMemory result (well_formed.form_fine types.now (type_form_of form.now)) (reasons.in_form types.now (type_form_of form.now)) }
    ensures shape { IfOk result (λ made. shape_of types.now (type_form_of form.now) ≡ Some (shape made)) }
{
    match form {
        TypeForm::Enumeration(names) => Ok(Form::Names(texts_of(alloc, names)?)),
        TypeForm::Tuple(fields) => {
            distinct(fields)?;
            Ok(Form::Fields(fields_of(alloc, types, fields)?))
        }
        TypeForm::Sequence(most, of, _) => Ok(Form::Sequence(*most as u16, named(types, of)?)),
    }
}

/// The texts of names.
fn texts_of(alloc: Global, names: &[Name]) -> Result<Vec<String>, OutOfMemory>
    ensures { IfOk result (λ texts. map string_bytes texts.items ≡ map name_of names.now) }
{
    let mut texts = Vec::new(alloc);
    for name in names {
        texts.push(name.text.clone()?)?;
    }
    Ok(texts)
}

/// The fields of a tuple, if their types are declared before.
fn fields_of(
    alloc: Global,
    types: &Declarations,
    fields: &[Field],
) -> Result<Vec<ioa_value::Field>, Refusal>
    ensures says { SaysOrMemory result (list_all (well_formed.is_type types.now) (map field_of fields.now)) (tells unknown_name) }
    ensures fields { IfOk result (λ made. numbered types.now (map field_of fields.now) ≡ Some (map tuple_field made.items)) }
{
    let mut made = Vec::new(alloc);
    for field in fields {
        let name = field.name.text.clone()?;
        let ty = named(types, &field.ty)?;
        made.push(ioa_value::Field { name, ty })?;
    }
    Ok(made)
}

/// The type of this name, if it is declared before.
fn named(types: &Declarations, name: &Name) -> Result<Ty, Refusal>
    ensures { Finds result (type_named types.now (name_of name.now)) (tells unknown_name) }
{
    match types.named(name.text.as_str()) {
        Some(ty) => Ok(ty),
        None => Err(Refusal::UnknownName(name.line)),
    }
}
