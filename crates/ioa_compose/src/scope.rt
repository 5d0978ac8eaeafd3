//! Scopes in which expressions are evaluated: what their names stand for.

ghost use Rattle.std.specs.Prelude.{◌≡◌, ◌≤◌, [], Some, None, map, length, take, IfSome, IfNone};
ghost use Rattle.ioa_value.specs.Plain.{plain};
ghost use Rattle.ioa_tree.specs.Tree.{FieldTree};
ghost use Rattle.ioa_tree.specs.View.{field_of, automaton_of};
ghost use Rattle.ioa_tree.specs.Answers.{Suits};
ghost use Rattle.ioa_tree.specs.Meaning.{values_of, nothing_known, over};
ghost use Rattle.ioa_tree.specs.Instances.{Fit, field_names, formal_values, state_of};
ghost use Rattle.ioa_tree.specs.WellFormed.{context_of, held, variable_fields};
ghost use Rattle.ioa_compose.specs.Held.{member_of};
ghost use Rattle.ioa_compose.specs.Questions.{first_of};
ghost use Rattle.ioa_compose.specs.Scopes.{context, environment};

use crate::member::Member;
use ioa_tree::{Field, Variable};
use ioa_value::{Types, Value};

/// What has a name in a source and a value where an expression is evaluated.
pub(crate) trait Named {
    ghost tree: { Self → FieldTree };

    fn name(&self) -> &str
        ensures { result.now ≡ (tree self.now).name };
}

impl Named for Field {
    ghost use Rattle.ioa_tree.specs.View.{field_of};

    ghost tree = { field_of };

    fn name(&self) -> &str {
        self.name.text.as_str()
    }
}

impl Named for Variable {
    ghost use Rattle.ioa_tree.specs.View.{field_of};

    ghost tree = { λ v. field_of v.field };

    fn name(&self) -> &str {
        self.field.name.text.as_str()
    }
}

/// The types, and the names that an expression may use with their values: variables and formals, beside those of
/// enumerations.
#[derive(Clone, Copy)]
pub(crate) struct Scope<'a> {
    pub(crate) types: &'a Types,
    pub(crate) variables: &'a [Variable],
    pub(crate) values: &'a [Value],
    pub(crate) formals: &'a [Field],
    pub(crate) arguments: &'a [Value],
}

impl<'a> Scope<'a> {
    /// No name at all: the scope of an argument.
    pub(crate) fn empty(types: &'a Types) -> Scope<'a>
        ensures types { result.types.now ≡ types.now }
        ensures names { context result ≡ [] }
        ensures values { environment result ≡ nothing_known }
        ensures suits { Suits types.now (context result) (environment result) }
    {
        Scope {
            types,
            variables: &[],
            values: &[],
            formals: &[],
            arguments: &[],
        }
    }

    /// The formals with their values: the scope of a start expression.
    pub(crate) fn of_starts(
        types: &'a Types,
        formals: &'a [Field],
        arguments: &'a [Value],
    ) -> Scope<'a>
        requires { Fit types.now (map field_of formals.now) (map plain arguments.now) }
        ensures types { result.types.now ≡ types.now }
        ensures names { context result ≡ context_of types.now (map field_of formals.now) }
        ensures values { environment result ≡ values_of (field_names (map field_of formals.now)) (map plain arguments.now) }
        ensures suits { Suits types.now (context result) (environment result) }
    {
        Scope {
            types,
            variables: &[],
            values: &[],
            formals,
            arguments,
        }
    }

    /// The variables that the component's source declares with these values, and its formals with theirs: the scope of an
    /// invariant.
    pub(crate) fn of_state(member: &'a Member, values: &'a [Value]) -> Scope<'a>
        requires within { member.now.declared ≤ length member.now.automaton.variables.items }
        requires formals { Fit member.now.types (automaton_of member.now.automaton).formals (map plain member.now.arguments.items) }
        requires variables { Fit member.now.types (variable_fields (first_of member.now.declared (automaton_of member.now.automaton))) (map plain values.now) }
        ensures types { result.types.now ≡ member.now.types }
        ensures names { context result ≡ held member.now.types member.now.types [] (first_of member.now.declared (automaton_of member.now.automaton)) }
        ensures values { environment result ≡ over (state_of (first_of member.now.declared (automaton_of member.now.automaton)) (map plain values.now)) (formal_values (member_of member.now).instance) }
        ensures suits { Suits member.now.types (context result) (environment result) }
    {
        Scope {
            types: &member.types,
            variables: declared_variables(member),
            values,
            formals: &member.automaton.formals,
            arguments: &member.arguments,
        }
    }

    /// The value of the variable or the formal of this name.
    pub(crate) fn value(&self, name: &str) -> Option<&'a Value>
        ensures found { IfSome result (λ v. environment self.now name.now ≡ Some (plain v.now)) }
        ensures missing { IfNone result (environment self.now name.now ≡ None) }
    {
        match found(self.variables, self.values, name) {
            Some(value) => Some(value),
            None => found(self.formals, self.arguments, name),
        }
    }
}

/// The variables that the component's source declares.
fn declared_variables(member: &Member) -> &[Variable]
    requires { member.now.declared ≤ length member.now.automaton.variables.items }
    ensures { result.now ≡ take member.now.declared member.now.automaton.variables.items }
{
    &member.automaton.variables[..member.declared]
}

/// The value of the first of the items that has this name. Automata have few of them, so the recursion is short.
pub(crate) fn found<'a, T: Named>(items: &[T], values: &'a [Value], name: &str) -> Option<&'a Value>
    ensures found { IfSome result (λ v. values_of (field_names (map T.tree items.now)) (map plain values.now) name.now ≡ Some (plain v.now)) }
    ensures missing { IfNone result (values_of (field_names (map T.tree items.now)) (map plain values.now) name.now ≡ None) }
{
    match items {
        [] => None,
        [item, items @ ..] => match values {
            [] => None,
            [value, values @ ..] => {
                if item.name() == name {
                    Some(value)
                } else {
                    found(items, values, name)
                }
            }
        },
    }
}
