//! Automata bound to arguments: formals have values, constants of positions are evaluated, and what
//! crashes and recovers is rewritten.

ghost use Rattle.std.specs.Prelude.{◌≡◌, ◌&&◌, [], ◌∷◌, true, map, Some, Ok, Err, length, IfOk, IfErr};
ghost use Rattle.std.specs.List.{AllZip, list_all};
ghost use Rattle.std.specs.Option.{option_map};
ghost use Rattle.ioa_value.specs.Plain.{plain};
ghost use Rattle.ioa_value.specs.Table.{AreTypes, contains};
ghost use Rattle.ioa_tree.specs.Types as named;
ghost use Rattle.ioa_tree.specs.Types.{types_of};
ghost use Rattle.ioa_tree.specs.View.{name_of, expr_of, field_of, crash_of, instance_of, automaton_of, tree_of};
ghost use Rattle.ioa_tree.specs.Hosts.{crash_fine};
ghost use Rattle.ioa_tree.specs.Instances as instances;
ghost use Rattle.ioa_tree.specs.Tree.{AutomatonTree};
ghost use Rattle.ioa_tree.specs.Compositions as spec;
ghost use Rattle.ioa_tree.specs.WellFormed.{WellFormed};
ghost use Rattle.ioa_compose.specs.Bindings.{IsReady, AllReady, Binds, fit, closed, values_in};
ghost use Rattle.ioa_compose.specs.Refusals.{IsUnbound, IsRefusedAt, reason_of};
ghost use Rattle.ioa_crash.specs.Rewriting as rewriting;

use crate::domains::all_positions;
use crate::evaluate::evaluate_all;
use crate::scope::Scope;
use ioa_crash::{copied_automaton, rewritten};
use ioa_rules::automaton_named;
use ioa_syntax::Refusal;
use ioa_tree::{Automaton, Crash, Declaration, Expression, Field, Instance, Name};
use ioa_value::{Fault, OutOfMemory, Position, Types, Value, has_type};
use std::alloc::Global;

/// A component's automaton with the values of its formals, and the names by which it crashes and recovers.
#[derive(Drop)]
pub(crate) struct Binding<'a> {
    pub(crate) name: &'a Name,
    /// The automaton that is declared.
    pub(crate) automaton: &'a Automaton,
    /// The component's own one, which is made here and nowhere else: a copy, or the rewritten automaton of what crashes and recovers.
    pub(crate) own: Automaton,
    /// The positions of its own automaton's entries, a list for each. Their constants are evaluated here and nowhere else.
    pub(crate) positions: Vec<Vec<Position>>,
    pub(crate) arguments: Vec<Value>,
    pub(crate) crash: Option<&'a Crash>,
}

/// The components' automata with their arguments, in order. It asks for instances of a well formed source.
pub(crate) fn bind_all<'a>(
    alloc: Global,
    types: &Types,
    declarations: &'a [Declaration],
    instances: &'a [Instance],
) -> Result<Vec<Binding<'a>>, Refusal>
    requires types { types.now ≡ types_of (tree_of declarations.now) }
    requires table { AreTypes types.now }
    requires well_formed { WellFormed (tree_of declarations.now) }
    requires ready { AllReady (tree_of declarations.now) (map instance_of instances.now) }
    ensures bound { IfOk result (λ bs. AllZip (λ i b. Binds (tree_of declarations.now) (instance_of i) b) instances.now bs.items) }
    ensures refused { IfErr result (λ r. IsUnbound (tree_of declarations.now) (map instance_of instances.now) (reason_of r)) }
{
    let mut bindings = Vec::new(alloc);
    for index in 0..instances.len() {
        bindings.push(bind(alloc, types, declarations, index, &instances[index])?)?;
    }
    Ok(bindings)
}

fn bind<'a>(
    alloc: Global,
    types: &Types,
    declarations: &'a [Declaration],
    index: usize,
    instance: &'a Instance,
) -> Result<Binding<'a>, Refusal>
    requires types { types.now ≡ types_of (tree_of declarations.now) }
    requires table { AreTypes types.now }
    requires well_formed { WellFormed (tree_of declarations.now) }
    requires ready { IsReady (tree_of declarations.now) (instance_of instance.now) }
    ensures bound { IfOk result (λ b. Binds (tree_of declarations.now) (instance_of instance.now) b) }
    ensures refused { IfErr result (λ r. IsRefusedAt (tree_of declarations.now) index (instance_of instance.now) (reason_of r)) }
{
    let automaton = declared(declarations, &instance.automaton);
    match argument_values(alloc, types, &instance.arguments)? {
        Err(fault) => Err(Refusal::StartFault(index, fault)),
        Ok(arguments) => {
            if !fits(types, &automaton.formals, &arguments) {
                return Err(Refusal::ArgMismatch(index));
            }
            if !crashes_apart(&instance.crash, automaton) {
                return Err(Refusal::CrashName(index));
            }
            let crash = instance.crash.as_ref();
            let own = own_automaton(alloc, crash, automaton)?;
            let positions = all_positions(alloc, types, automaton, &arguments, &own.entries)?;
            Ok(Binding {
                name: &instance.name,
                automaton,
                own,
                positions,
                arguments,
                crash,
            })
        }
    }
}

/// A component's own automaton: a copy of the one that is declared, or the one by which it crashes and recovers.
fn own_automaton(
    alloc: Global,
    crash: Option<&Crash>,
    automaton: &Automaton,
) -> Result<Automaton, OutOfMemory>
    ensures { IfOk result (λ a. automaton_of a ≡ rewriting.own_automaton (option_map (λ c. crash_of c.now) crash.entry) (automaton_of automaton.now)) }
{
    match crash {
        Some(names) => rewritten(alloc, names, automaton),
        None => copied_automaton(alloc, automaton),
    }
}

/// Whether crash and recover have names of their own, where the component has them: two, and no entry's.
fn crashes_apart(crash: &Option<Crash>, automaton: &Automaton) -> bool
    ensures { result ≡ crash_fine (option_map crash_of crash.now) (automaton_of automaton.now) }
{
    match crash {
        None => true,
        Some(names) => {
            names.crash.text.as_str() != names.recover.text.as_str()
                && !has_entry(automaton, &names.crash)
                && !has_entry(automaton, &names.recover)
        }
    }
}

/// Whether an entry of the automaton has this name.
fn has_entry(automaton: &Automaton, name: &Name) -> bool
    ensures { result ≡ contains (map (λ e. e.name) (automaton_of automaton.now).entries) (name_of name.now) }
{
    for entry in &automaton.entries {
        if entry.name.is(name.text.as_str()) {
            return true;
        }
    }
    false
}

/// The automaton of this name, which is declared.
fn declared<'a>(declarations: &'a [Declaration], name: &Name) -> &'a Automaton
    requires { (a : AutomatonTree) × (spec.automaton_named (tree_of declarations.now) (name_of name.now) ≡ Some a) }
    ensures { spec.automaton_named (tree_of declarations.now) (name_of name.now) ≡ Some (automaton_of result.now) }
{
    match automaton_named(declarations, name) {
        Some(automaton) => automaton,
        None => unreachable!(),
    }
}

/// The values of arguments in order, or the first fault.
fn argument_values(
    alloc: Global,
    types: &Types,
    arguments: &[Expression],
) -> Result<Result<Vec<Value>, Fault>, OutOfMemory>
    requires table { AreTypes types.now }
    requires closed { list_all (closed types.now) (map expr_of arguments.now) ≡ true }
    ensures { IfOk result (λ r. values_in r ≡ instances.argument_values types.now (map expr_of arguments.now)) }
{
    evaluate_all(alloc, &Scope::empty(types), arguments)
}

/// Whether the values are of the fields' types, one for each.
fn fits(types: &Types, fields: &[Field], values: &[Value]) -> bool
    ensures { result ≡ fit types.now (map field_of fields.now) (map plain values.now) }
{
    if fields.len() != values.len() {
        return false;
    }
    for i in 0..fields.len() {
        if !is_named(types, &fields[i].ty, &values[i]) {
            return false;
        }
    }
    true
}

/// Whether the value is of the type of this name.
fn is_named(types: &Types, name: &Name, value: &Value) -> bool
    ensures { result ≡ named.is_named types.now (name_of name.now) (plain value.now) }
{
    match types.named(name.text.as_str()) {
        Some(ty) => has_type(types, value, ty),
        None => false,
    }
}
