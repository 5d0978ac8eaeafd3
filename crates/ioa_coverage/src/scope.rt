//! What names stand for while an effect is followed.

ghost use Rattle.std.specs.Prelude.{◌≡◌, ◌++◌, ◌∷◌, ◌≢◌, [], None, Some, IfSome, IfNone, OnOk};
ghost use Rattle.ioa_value.specs.Plain.{plain};
ghost use Rattle.ioa_tree.specs.Meaning.{with_name};
ghost use Rattle.ioa_tree.specs.View.{name_of};
ghost use Rattle.ioa_coverage.specs.Known.{Unbinds, known, names_in, place_in};

use ioa_tree::Name;
use ioa_value::{OutOfMemory, Value};

/// A name, and the value that it stands for. Of several of one name the last counts.
#[derive(Drop)]
pub(crate) struct Binding<'a> {
    pub(crate) name: &'a Name,
    pub(crate) value: Value,
}

/// The place of the last binding of this name. There are few, so the recursion is short.
fn place_of(scope: &[Binding<'_>], name: &str) -> Option<usize>
    ensures { result ≡ place_in scope.now name.now }
{
    match scope {
        [] => None,
        [binding, others @ ..] => match place_of(others, name) {
            Some(place) => Some(place + 1),
            None if binding.name.is(name) => Some(0),
            None => None,
        },
    }
}

/// What the name stands for.
pub(crate) fn value_of<'b>(scope: &'b [Binding<'_>], name: &str) -> Option<&'b Value>
    ensures found { IfSome result (λ v. known scope.now name.now ≡ Some (plain v.now)) }
    ensures missing { IfNone result (known scope.now name.now ≡ None) }
{
    match place_of(scope, name) {
        Some(place) => Some(&scope[place].value),
        None => None,
    }
}

/// Lets a name stand for another value. It asks that it stands for one.
pub(crate) fn assign(scope: &mut Vec<Binding<'_>>, name: &str, value: Value)
    requires { known scope.old.items name.now ≢ None }
    ensures known { known scope.new.items ≡ with_name (known scope.old.items) name.now (plain value) }
    ensures names { names_in scope.new.items ≡ names_in scope.old.items }
{
    match place_of(scope, name) {
        Some(place) => scope[place].value = value,
        None => unreachable!(),
    }
}

/// Lets a name stand for a value in front of what it stands for.
pub(crate) fn bind<'a>(
    scope: &mut Vec<Binding<'a>>,
    name: &'a Name,
    value: Value,
) -> Result<(), OutOfMemory>
    ensures known { OnOk result (known scope.new.items ≡ with_name (known scope.old.items) (name_of name.now) (plain value)) }
    ensures names { OnOk result (names_in scope.new.items ≡ names_in scope.old.items ++ name_of name.now ∷ []) }
{
    scope.push(Binding { name, value })?;
    Ok(())
}

/// Takes the last binding away, where it is of a name that stood for nothing before it.
pub(crate) fn unbind(scope: &mut Vec<Binding<'_>>)
    ensures { Unbinds scope.old.items scope.new.items }
{
    scope.pop();
}
