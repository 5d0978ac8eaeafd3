//! The global space of names, which types, automata and compositions share.

ghost use Rattle.std.specs.Prelude.{◌≡◌, [], ◌∷◌, IfOk, map};
ghost use Rattle.ioa_tree.specs.Tree.{declared_type};
ghost use Rattle.ioa_tree.specs.View.{name_of, declaration_of, type_declaration_of, type_form_of, tree_of};
ghost use Rattle.ioa_tree.specs.WellFormed as well_formed;
ghost use Rattle.ioa_rules.specs.Codes.{duplicate_name, tells};
ghost use Rattle.ioa_rules.specs.Verdicts.{Says, SaysOrMemory};
ghost use Rattle.ioa_rules.specs.Globals.{Adds};

use crate::name_set::NameSet;
use crate::names::Named;
use ioa_lex::Refusal;
use ioa_tree::{Declaration, Name, TypeDeclaration, TypeForm};
use std::alloc::Global;

/// The names of the global space: the types that are there without a declaration, and what the source declares, with the
/// names of enumerations.
pub(crate) fn global_names(
    alloc: Global,
    declarations: &[Declaration],
) -> Result<NameSet<'_>, Refusal>
    ensures distinct { SaysOrMemory result (well_formed.distinct (well_formed.global_names (tree_of declarations.now))) (tells duplicate_name) }
    ensures names { IfOk result (λ names. names ≡ well_formed.global_names (tree_of declarations.now)) }
{
    let mut names = NameSet::new(alloc);
    names.insert("Bool")?;
    names.insert("Int")?;
    for declaration in declarations {
        add_declared(&mut names, declaration)?;
    }
    Ok(names)
}

/// Puts the names that a declaration gives among the others.
fn add_declared<'a>(names: &mut NameSet<'a>, declaration: &'a Declaration) -> Result<(), Refusal>
    ensures { Adds result names.old (well_formed.declared_names (declaration_of declaration.now)) names.new }
{
    match declaration {
        Declaration::Type(declared) => add_type(names, declared),
        Declaration::Automaton(automaton) => add(names, &automaton.name),
        Declaration::Composition(composition) => add(names, &composition.name),
        Declaration::Invariant(_) => Ok(()),
    }
}

/// Puts a type's name among the others, and those of the enumeration that it is, if it is one.
fn add_type<'a>(names: &mut NameSet<'a>, declared: &'a TypeDeclaration) -> Result<(), Refusal>
    ensures { Adds result names.old (well_formed.declared_names (declared_type (type_declaration_of declared.now))) names.new }
{
    add(names, &declared.name)?;
    add_all(names, constants_of(&declared.form))
}

/// The names of an enumeration; of what is none, no names.
fn constants_of(form: &TypeForm) -> &[Name]
    ensures { map name_of result.now ≡ well_formed.constants_of (type_form_of form.now) }
{
    match form {
        TypeForm::Enumeration(names) => names,
        TypeForm::Tuple(_) | TypeForm::Sequence(_, _, _) => &[],
    }
}

/// Puts names among the others. A line is that of the first that is there already.
fn add_all<'a>(names: &mut NameSet<'a>, added: &'a [Name]) -> Result<(), Refusal>
    ensures { Adds result names.old (map name_of added.now) names.new }
{
    for name in added {
        add(names, name)?;
    }
    Ok(())
}

/// Puts a name among the others. A line is that of the name, if it is there already.
fn add<'a>(names: &mut NameSet<'a>, name: &'a Name) -> Result<(), Refusal>
    ensures { Adds result names.old (name_of name.now ∷ []) names.new }
{
    if names.insert(name.text.as_str())? {
        Ok(())
    } else {
        Err(Refusal::DuplicateName(name.line))
    }
}

/// Whether no item has a global name. A line is that of the item.
pub(crate) fn apart_from_globals<T: Named>(items: &[T], globals: &NameSet) -> Result<(), Refusal>
    ensures { Says result (well_formed.apart (map T.called items.now) globals.now) (tells duplicate_name) }
{
    for item in items {
        if is_global(item.name(), globals) {
            return Err(Refusal::DuplicateName(item.name().line));
        }
    }
    Ok(())
}

/// Whether something global has this name.
pub(crate) fn is_global(name: &Name, globals: &NameSet) -> bool
    ensures { result ≡ well_formed.contains globals.now (name_of name.now) }
{
    globals.contains(name.text.as_str())
}
