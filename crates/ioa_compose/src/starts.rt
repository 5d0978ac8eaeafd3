//! Start states of components, and what a crash restores of them.

ghost use Rattle.std.specs.Prelude.{◌≡◌, ◌++◌, [], true, map, length, IfOk, IfErr};
ghost use Rattle.std.specs.List.{AllZip};
ghost use Rattle.std.specs.Option.{option_map};
ghost use Rattle.ioa_value.specs.Plain.{plain};
ghost use Rattle.ioa_value.specs.Table.{AreTypes};
ghost use Rattle.ioa_tree.specs.Types as named;
ghost use Rattle.ioa_tree.specs.View.{name_of, field_of, variable_of, crash_of, automaton_of};
ghost use Rattle.ioa_tree.specs.Meaning.{values_of};
ghost use Rattle.ioa_tree.specs.Instances.{Fit, field_names};
ghost use Rattle.ioa_tree.specs.Instances as instances;
ghost use Rattle.ioa_tree.specs.WellFormed.{start_fine, is_type};
ghost use Rattle.ioa_compose.specs.Bindings.{value_in, values_in, plain_in, instance_in, host_in, IsStarted, IsOwn, IsStartable, AllStartable, AllOwn};
ghost use Rattle.ioa_compose.specs.Refusals.{FaultsAt, FaultsIn, reason_of};
ghost use Rattle.ioa_compose.specs.Held.{member_of, KeepsPositions};
ghost use Rattle.ioa_crash.specs.Rewriting as spec;
ghost use Rattle.ioa_crash.specs.Rewriting.{added_arguments, volatile_values};
ghost use Rattle.ioa_compose.specs.Simulates.{member_for};

use crate::binding::Binding;
use crate::evaluate::value_of;
use crate::member::Member;
use crate::scope::Scope;
use ioa_syntax::Refusal;
use ioa_tree::{Crash, Name, Variable};
use ioa_value::{Fault, OutOfMemory, Types, Value, first};
use std::alloc::Global;

/// The components with the start values of their variables, in order. Each keeps its own automaton, and the positions of its entries.
pub(crate) fn start_all(
    alloc: Global,
    types: &Types,
    bindings: Vec<Binding<'_>>,
) -> Result<Vec<Member>, Refusal>
    requires table { AreTypes types.now }
    requires startable { AllStartable (map (plain_in types.now) bindings.items) }
    requires own { AllOwn bindings.items }
    ensures started { IfOk result (λ ms. AllZip (λ b m. IsStarted types.now b (member_of m)) bindings.entry.items ms.items) }
    ensures positions { IfOk result (λ ms. AllZip KeepsPositions bindings.entry.items ms.items) }
    ensures refused { IfErr result (λ r. FaultsIn (map (instance_in types.now) bindings.entry.items) (reason_of r)) }
{
    let mut members = Vec::new(alloc);
    for binding in bindings {
        let member = start(alloc, types, members.len(), binding)?;
        members.push(member)?;
    }
    Ok(members)
}

fn start(
    alloc: Global,
    types: &Types,
    index: usize,
    binding: Binding<'_>,
) -> Result<Member, Refusal>
    requires table { AreTypes types.now }
    requires startable { IsStartable (plain_in types.now binding) }
    requires own { IsOwn binding }
    ensures started { IfOk result (λ m. IsStarted types.now binding.entry (member_of m)) }
    ensures positions { IfOk result (λ m. KeepsPositions binding.entry m) }
    ensures refused { IfErr result (λ r. FaultsAt index (instance_in types.now binding.entry) (reason_of r)) }
{
    match start_values(alloc, types, &binding)? {
        Err(fault) => Err(Refusal::StartFault(index, fault)),
        Ok(starts) => Ok(member(alloc, types, binding, starts)?),
    }
}

/// The component that starts with these values, and up where it crashes and recovers.
fn member(
    alloc: Global,
    types: &Types,
    binding: Binding<'_>,
    starts: Vec<Value>,
) -> Result<Member, OutOfMemory>
    requires long { length starts.items ≡ length binding.automaton.now.variables.items }
    requires own { IsOwn binding }
    ensures value { IfOk result (λ m. member_of m ≡ member_for (host_in types.now binding.entry (map plain starts.items))) }
    ensures positions { IfOk result (λ m. KeepsPositions binding.entry m) }
{
    let Binding {
        name,
        automaton,
        own,
        positions,
        arguments,
        crash,
    } = binding;
    let arguments = own_arguments(alloc, crash, &automaton.variables, arguments, &starts)?;
    Ok(Member {
        name: String::from_str(alloc, name.text.as_str())?,
        types: types.share()?,
        automaton: own,
        positions,
        arguments,
        starts: own_starts(crash, starts)?,
        declared: automaton.variables.len(),
    })
}

/// The arguments, and behind them, where the component crashes, the start values of the variables that a crash resets.
fn own_arguments(
    alloc: Global,
    crash: Option<&Crash>,
    variables: &[Variable],
    arguments: Vec<Value>,
    starts: &[Value],
) -> Result<Vec<Value>, OutOfMemory>
    requires { length starts.now ≡ length variables.now }
    ensures { IfOk result (λ vs. map plain vs.items ≡ map plain arguments.items ++ added_arguments (option_map (λ c. crash_of c.now) crash.entry) (map variable_of variables.now) (map plain starts.now)) }
{
    match crash {
        Some(_) => with_resets(alloc, variables, arguments, starts),
        None => Ok(arguments),
    }
}

/// The arguments, and behind them the start values of the variables that a crash resets.
fn with_resets(
    alloc: Global,
    variables: &[Variable],
    arguments: Vec<Value>,
    starts: &[Value],
) -> Result<Vec<Value>, OutOfMemory>
    requires { length starts.now ≡ length variables.now }
    ensures { IfOk result (λ vs. map plain vs.items ≡ map plain arguments.items ++ volatile_values (map variable_of variables.now) (map plain starts.now)) }
{
    let mut arguments = arguments;
    for i in 0..variables.len() {
        if !variables[i].stable {
            arguments.push(starts[i].try_copy(alloc)?)?;
        }
    }
    Ok(arguments)
}

/// The start values, and behind them that the component is up, where it crashes.
fn own_starts(crash: Option<&Crash>, starts: Vec<Value>) -> Result<Vec<Value>, OutOfMemory>
    ensures { IfOk result (λ vs. map plain vs.items ≡ spec.own_starts (option_map (λ c. crash_of c.now) crash.entry) (map plain starts.items)) }
{
    let mut starts = starts;
    if crash.is_some() {
        starts.push(Value::Truth(true))?;
    }
    Ok(starts)
}

/// The start values of the variables in order, or the first fault.
fn start_values(
    alloc: Global,
    types: &Types,
    binding: &Binding,
) -> Result<Result<Vec<Value>, Fault>, OutOfMemory>
    requires table { AreTypes types.now }
    requires startable { IsStartable (plain_in types.now binding.now) }
    ensures { IfOk result (λ r. values_in r ≡ instances.start_values (plain_in types.now binding.now)) }
{
    let mut values = Vec::new(alloc);
    for variable in &binding.automaton.variables {
        match start_value(alloc, types, binding, variable)? {
            Ok(value) => values.push(value)?,
            Err(fault) => return Ok(Err(fault)),
        }
    }
    Ok(Ok(values))
}

/// A variable's start value: that of its start expression, or the first of its type.
fn start_value(
    alloc: Global,
    types: &Types,
    binding: &Binding,
    variable: &Variable,
) -> Result<Result<Value, Fault>, OutOfMemory>
    requires table { AreTypes types.now }
    requires fit { Fit types.now (plain_in types.now binding.now).automaton.formals (plain_in types.now binding.now).arguments }
    requires fine { start_fine types.now types.now [] (automaton_of binding.now.automaton.now) (variable_of variable.now) ≡ true }
    requires known { is_type types.now (variable_of variable.now).field ≡ true }
    ensures { let n = plain_in types.now binding.now in IfOk result (λ r. value_in r ≡ instances.start_value n.types (values_of (field_names n.automaton.formals) n.arguments) (variable_of variable.now)) }
{
    match &variable.start {
        Some(expression) => {
            let scope = Scope::of_starts(types, &binding.automaton.formals, &binding.arguments);
            value_of(alloc, &scope, expression)
        }
        None => Ok(Ok(first_named(alloc, types, &variable.field.ty)?)),
    }
}

/// The first value of the type of this name, which is known.
fn first_named(alloc: Global, types: &Types, name: &Name) -> Result<Value, OutOfMemory>
    requires table { AreTypes types.now }
    requires known { is_type types.now (record { name = []; ty = name_of name.now }) ≡ true }
    ensures { IfOk result (λ v. plain v ≡ named.first_named types.now (name_of name.now)) }
{
    match types.named(name.text.as_str()) {
        Some(ty) => first(alloc, types, ty),
        None => unreachable!(),
    }
}
