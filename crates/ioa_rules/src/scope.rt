//! Scopes: which names each kind of expression may use, and of which types they are.

ghost use Rattle.std.specs.Prelude.{◌≡◌, [], map};
ghost use Rattle.std.specs.Option.{option_map};
ghost use Rattle.ioa_tree.specs.View.{name_of, automaton_of, entry_of};
ghost use Rattle.ioa_value.specs.Plain.{number};
ghost use Rattle.ioa_tree.specs.WellFormed as well_formed;
ghost use Rattle.ioa_tree.specs.WellFormed.{type_in};
ghost use Rattle.ioa_tree.specs.Meaning.{or_else};
ghost use Rattle.ioa_tree.specs.Types.{constant_type};
ghost use Rattle.ioa_rules.specs.KnownTypes.{whole, early};
ghost use Rattle.ioa_rules.specs.Loops.{loops_of};
ghost use Rattle.ioa_rules.specs.Scopes.{context};

use crate::fields::find_type;
use crate::known_types::KnownTypes;
use crate::loops::Loops;
use crate::positions::find_parameter;
use ioa_tree::{Automaton, Entry, Field, Name, Position, Variable};
use ioa_value::Ty;

/// The types, and the names that an expression may use: of loops, variables, formals and an entry's parameters, beside those
/// of enumerations.
#[derive(Clone, Copy)]
pub(crate) struct Scope<'a> {
    pub(crate) known: KnownTypes<'a>,
    pub(crate) variables: &'a [Variable],
    pub(crate) formals: &'a [Field],
    pub(crate) positions: &'a [Position],
    pub(crate) loops: Loops<'a>,
}

impl<'a> Scope<'a> {
    /// No name at all: the scope of an argument.
    pub(crate) fn empty(known: &KnownTypes<'a>) -> Scope<'a>
        ensures known { result.known ≡ known.now }
        ensures names { context result ≡ [] }
    {
        Scope {
            known: *known,
            variables: &[],
            formals: &[],
            positions: &[],
            loops: Loops::None,
        }
    }

    /// The formals: the scope of a start expression.
    pub(crate) fn of_starts(known: &KnownTypes<'a>, automaton: &'a Automaton) -> Scope<'a>
        ensures known { result.known ≡ known.now }
        ensures names { context result ≡ well_formed.formals (whole known.now) (early known.now) [] (automaton_of automaton.now) }
    {
        Scope {
            known: *known,
            variables: &[],
            formals: &automaton.formals,
            positions: &[],
            loops: Loops::None,
        }
    }

    /// Variables and formals: the scope of a proposal or an invariant.
    pub(crate) fn of_proposals(known: &KnownTypes<'a>, automaton: &'a Automaton) -> Scope<'a>
        ensures known { result.known ≡ known.now }
        ensures names { context result ≡ well_formed.held (whole known.now) (early known.now) [] (automaton_of automaton.now) }
    {
        Scope {
            known: *known,
            variables: &automaton.variables,
            formals: &automaton.formals,
            positions: &[],
            loops: Loops::None,
        }
    }

    /// Variables, formals and the entry's parameters: the scope of a precondition.
    pub(crate) fn of_entry(
        known: &KnownTypes<'a>,
        automaton: &'a Automaton,
        entry: &'a Entry,
    ) -> Scope<'a>
        ensures known { result.known ≡ known.now }
        ensures names { context result ≡ well_formed.scope (whole known.now) (early known.now) [] (automaton_of automaton.now) (entry_of entry.now) }
    {
        Scope::within(known, automaton, entry, Loops::None)
    }

    /// The same and the names of loops: the scope of an effect's statements within them.
    pub(crate) fn within(
        known: &KnownTypes<'a>,
        automaton: &'a Automaton,
        entry: &'a Entry,
        loops: Loops<'a>,
    ) -> Scope<'a>
        ensures known { result.known ≡ known.now }
        ensures names { context result ≡ well_formed.scope_in (whole known.now) (early known.now) [] (automaton_of automaton.now) (entry_of entry.now) (loops_of loops.entry) }
    {
        Scope {
            known: *known,
            variables: &automaton.variables,
            formals: &automaton.formals,
            positions: &entry.positions,
            loops,
        }
    }

    /// The type of what has this name: of a loop's item, a variable, a formal or a parameter, or else of an enumeration's name.
    pub(crate) fn lookup(&self, name: &Name) -> Option<Ty>
        ensures { option_map number result ≡ or_else (type_in (context self.now) (name_of name.now)) (constant_type (early self.now.known) (name_of name.now)) }
    {
        match self.held(name) {
            Some(ty) => Some(ty),
            None => self.known.constant(name),
        }
    }

    /// The type of the loop's item, variable, formal or parameter of this name.
    fn held(&self, name: &Name) -> Option<Ty>
        ensures { option_map number result ≡ type_in (context self.now) (name_of name.now) }
    {
        if let Some(ty) = self.loops.item(name) {
            return Some(ty);
        }
        if let Some(ty) = find_type(&self.known, self.variables, name) {
            return Some(ty);
        }
        if let Some(ty) = find_type(&self.known, self.formals, name) {
            return Some(ty);
        }
        find_parameter(&self.known, self.positions, name)
    }
}
