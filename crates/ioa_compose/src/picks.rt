//! Which of the compositions that a source declares is composed.

ghost use Rattle.std.specs.Prelude.{◌≡◌, find, reverse, option_map, option_copied};
ghost use Rattle.std.specs.Str.{bytes_eq};
ghost use Rattle.ioa_tree.specs.View.{tree_of, assembly_of};
ghost use Rattle.ioa_tree.specs.Compositions as spec;

use ioa_tree::{Assembly, Declaration};

/// The composition of this name, or the last one where no name is given.
pub(crate) fn picked<'a>(
    declarations: &'a [Declaration],
    name: Option<&str>,
) -> Option<&'a Assembly>
    ensures { option_map (λ c. assembly_of c.now) result ≡ spec.picked (tree_of declarations.now) (option_copied name.entry) }
{
    match name {
        Some(name) => composition_named(declarations, name),
        None => last_composition(declarations),
    }
}

fn composition_named<'a>(declarations: &'a [Declaration], name: &str) -> Option<&'a Assembly>
    ensures { option_map (λ c. assembly_of c.now) result ≡ find (λ c. bytes_eq c.name name.now) (spec.compositions (tree_of declarations.now)) }
{
    for declaration in declarations {
        if let Declaration::Composition(composition) = declaration
            && composition.name.is(name)
        {
            return Some(composition);
        }
    }
    None
}

fn last_composition(declarations: &[Declaration]) -> Option<&Assembly>
    ensures { option_map (λ c. assembly_of c.now) result ≡ spec.first_item (reverse (spec.compositions (tree_of declarations.now))) }
{
    let mut last = None;
    for declaration in declarations {
        if let Declaration::Composition(composition) = declaration {
            last = Some(composition);
        }
    }
    last
}
