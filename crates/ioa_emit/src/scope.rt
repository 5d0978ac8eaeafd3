//! Scopes of code: an emitter asks what a name stands for, and knows of no component and no entry.

ghost use Rattle.std.specs.Prelude.{◌≡◌, ℕ, ◌<◌, ◌++◌, map, length, Some, None, IfSome, IfNone, IsSome, slice_get};
ghost use Rattle.ioa_value.specs.Plain.{plain, number};
ghost use Rattle.std.specs.Option.{option_map};
ghost use Rattle.ioa_value.specs.Table.{place_from};
ghost use Rattle.ioa_value.specs.Typing.{OwnTypes};
ghost use Rattle.ioa_tree.specs.WellFormed.{type_of};
ghost use Rattle.ioa_tree.specs.View.{name_of, expr_of, position_of};
ghost use Rattle.ioa_compose.specs.Held.{member_of};
ghost use Rattle.ioa_rules.specs.Loops.{loops_of};
ghost use Rattle.ioa_value.specs.declared.limits.TheConstants.{LIMITS};
ghost use Rattle.ioa_emit.specs.Scopes.{IsScope, scope_in, scope_over, scope_of_proposals, within, item_of, item_place, place_of, parameter_from};

use crate::name_places::{
    field_place, item_place as place_of_item, parameter_place, variable_place,
};
use ioa_compose::Member;
use ioa_rules::{Loop, Loops, expression_type};
use ioa_tree::{Entry, Expression, Field, Name, Position, Variable};
use ioa_value::{Form, Ty, Types, Value};
use std::marker::Model;

/// What names stand for where code is emitted: items of the loops round it, variables, formals with their values, and the
/// parameters among positions, beside what the types name. They are as few as those of well-formed automata, so that an instruction holds each place.
#[derive(Drop)]
pub struct Scope<'a> {
    types: &'a Types,
    loops: Loops<'a>,
    variables: &'a [Variable],
    formals: &'a [Field],
    arguments: &'a [Value],
    positions: &'a [Position],
}

impl<'a> Model for Scope<'a> {
    ghost use Rattle.ioa_emit.specs.Scopes.{Scope};
    ghost use Rattle.ioa_emit.specs.CodedScopes.{coded_scope};

    ghost Value = { Scope };

    ghost coded = { coded_scope };

    ghost use Rattle.std.specs.Prelude.{[], map};
    ghost use Rattle.ioa_value.specs.Plain.{plain};
    ghost use Rattle.ioa_tree.specs.View.{field_of, position_of, variable_of};
    ghost use Rattle.ioa_tree.specs.Instances.{field_names};
    ghost use Rattle.ioa_rules.specs.Loops.{loops_of};
    ghost use Rattle.ioa_rules.specs.Scopes.{context_in};

    ghost view = { λ s. record {
      types = s.types.now;
      loops = loops_of s.loops;
      variables = map (λ v. v.field.name) (map variable_of s.variables.now);
      formals = field_names (map field_of s.formals.now);
      arguments = map plain s.arguments.now;
      parameters = map position_of s.positions.now;
      context = context_in s.types.now [] (map (λ v. v.field) (map variable_of s.variables.now)) (map field_of s.formals.now) (map position_of s.positions.now);
    } };

    ghost use Rattle.ioa_emit.specs.Scopes.{IsScope};

    ghost invariant = { λ s. IsScope (record {
      types = s.types.now;
      loops = loops_of s.loops;
      variables = map (λ v. v.field.name) (map variable_of s.variables.now);
      formals = field_names (map field_of s.formals.now);
      arguments = map plain s.arguments.now;
      parameters = map position_of s.positions.now;
      context = context_in s.types.now [] (map (λ v. v.field) (map variable_of s.variables.now)) (map field_of s.formals.now) (map position_of s.positions.now);
    }) };
}

impl<'a> Scope<'a> {
    /// The scope of a transition: the automaton's variables and formals, and the parameters of its entry.
    pub fn of(member: &'a Member, entry: &'a Entry) -> Scope<'a>
        requires { IsScope (scope_in member.now entry.now) }
        ensures { result ≡ scope_in member.now entry.now }
    {
        Scope::over(member, &entry.positions)
    }

    /// The scope of a transition's proposals: the automaton's variables and formals.
    pub fn of_proposals(member: &'a Member) -> Scope<'a>
        requires { IsScope (scope_of_proposals (member_of member.now)) }
        ensures { result ≡ scope_of_proposals (member_of member.now) }
    {
        Scope::over(member, &[])
    }

    /// The scope of the automaton's variables and formals, and the parameters among these positions.
    fn over(member: &'a Member, positions: &'a [Position]) -> Scope<'a>
        requires { IsScope (scope_over (member_of member.now) (map position_of positions.now)) }
        ensures { result ≡ scope_over (member_of member.now) (map position_of positions.now) }
    {
        Scope {
            types: &member.types,
            loops: Loops::None,
            variables: &member.automaton.variables,
            formals: &member.automaton.formals,
            arguments: &member.arguments,
            positions,
        }
    }

    /// The declared types.
    pub fn types(&self) -> &'a Types
        ensures { result.now ≡ self.now.types }
    {
        self.types
    }

    /// The scope of statements within one loop more, of this name and over these items.
    pub fn within(&self, name: &'a Name, items: &Expression) -> Scope<'a>
        requires few { length self.now.loops < LIMITS.loops }
        requires sequence { IsSome (item_of self.now (expr_of items.now)) }
        ensures { (ty : ℕ) × (item_of self.now (expr_of items.now) ≡ Some ty) × (result ≡ within self.now (name_of name.now) ty) }
    {
        let item = self.item(items);
        let Some(loops) = self.loops.with(Loop { name, item }) else {
            unreachable!()
        };
        Scope {
            types: self.types,
            loops,
            variables: self.variables,
            formals: self.formals,
            arguments: self.arguments,
            positions: self.positions,
        }
    }

    /// The place on the stack of the item for which the name stands.
    pub fn item_place(&self, name: &Name) -> Option<u16>
        ensures { result ≡ item_place self.now.loops (name_of name.now) }
    {
        let place = place_of_item(&self.loops, name)?;
        Some(place as u16)
    }

    /// The type of the items of the sequences that an expression gives.
    fn item(&self, e: &Expression) -> Ty
        requires { IsSome (item_of self.now (expr_of e.now)) }
        ensures { item_of self.now (expr_of e.now) ≡ Some (number result) }
    {
        match self.ty(e) {
            Some(ty) => match self.types.form(ty) {
                Some(Form::Sequence(_, item)) => *item,
                _ => unreachable!(),
            },
            None => unreachable!(),
        }
    }

    /// The place of the variable of this name.
    pub fn variable(&self, name: &Name) -> Option<u16>
        ensures { result ≡ place_from 0 self.now.variables (name_of name.now) }
    {
        match variable_place(self.variables, name) {
            Some(place) => Some(place as u16),
            None => None,
        }
    }

    /// The value of the formal of this name.
    pub fn formal(&self, name: &Name) -> Option<&'a Value>
        ensures found { IfSome result (λ v. (i : ℕ) × (place_from 0 self.now.formals (name_of name.now) ≡ Some i) × (slice_get self.now.arguments i ≡ Some (plain v.now))) }
        ensures typed { OwnTypes self.now.types self.now.arguments }
        ensures missing { IfNone result (place_from 0 self.now.formals (name_of name.now) ≡ None) }
    {
        match field_place(self.formals, name) {
            Some(place) => self.arguments.get(place),
            None => None,
        }
    }

    /// The place of the parameter of this name among all positions.
    pub fn parameter(&self, name: &Name) -> Option<u16>
        ensures { result ≡ parameter_from 0 self.now.parameters (name_of name.now) }
    {
        match parameter_place(self.positions, name) {
            Some(place) => Some(place as u16),
            None => None,
        }
    }

    /// The place of the field of this name in the tuples that an expression gives.
    pub fn field(&self, e: &Expression, name: &Name) -> u16
        requires { IsSome (place_of self.now (expr_of e.now) (name_of name.now)) }
        ensures { place_of self.now (expr_of e.now) (name_of name.now) ≡ Some result }
    {
        match self.ty(e) {
            Some(ty) => match self.types.field(ty, name.text.as_str()) {
                Some(place) => place,
                None => unreachable!(),
            },
            None => unreachable!(),
        }
    }

    /// The type of an expression, where it has one.
    fn ty(&self, e: &Expression) -> Option<Ty>
        ensures { option_map number result ≡ type_of self.now.types self.now.types (self.now.loops ++ self.now.context) (expr_of e.now) }
    {
        expression_type(
            self.types,
            self.variables,
            self.formals,
            self.positions,
            &self.loops,
            e,
        )
    }
}
