//! Invariants of a composition, and whether a state of a component keeps one.

ghost use Rattle.std.specs.Prelude.{◌≡◌, IfOk, map};
ghost use Rattle.ioa_value.specs.Operators.{gives};
ghost use Rattle.ioa_value.specs.Plain.{plain};
ghost use Rattle.ioa_tree.specs.View.{tree_of, invariant_of, expr_of};
ghost use Rattle.ioa_tree.specs.Compositions as spec;
ghost use Rattle.ioa_tree.specs.Instances.{state_of};
ghost use Rattle.ioa_tree.specs.Invariants as meaning;
ghost use Rattle.ioa_compose.specs.Faults as faults;
ghost use Rattle.ioa_compose.specs.Givens.{answer_in};
ghost use Rattle.ioa_compose.specs.Held.{member_of};
ghost use Rattle.ioa_compose.specs.Questions.{IsAnswerable, first_of};

use crate::evaluate::evaluate;
use crate::given::Given;
use crate::member::Member;
use crate::scope::Scope;
use ioa_crash::copied_invariant;
use ioa_tree::{Declaration, Expression, Invariant};
use ioa_value::{Fault, OutOfMemory, Value};
use std::alloc::Global;

/// The invariants that are declared, in order.
pub(crate) fn declared_invariants(
    alloc: Global,
    declarations: &[Declaration],
) -> Result<Vec<Invariant>, OutOfMemory>
    ensures { IfOk result (λ vs. map invariant_of vs.items ≡ spec.invariants (tree_of declarations.now)) }
{
    let mut invariants = Vec::new(alloc);
    for declaration in declarations {
        if let Declaration::Invariant(invariant) = declaration {
            invariants.push(copied_invariant(alloc, invariant)?)?;
        }
    }
    Ok(invariants)
}

/// Whether the condition is true where the variables that the component's source declares have these values. A fault is not.
pub(crate) fn is_kept(
    alloc: Global,
    member: &Member,
    condition: &Expression,
    values: &[Value],
) -> Result<bool, OutOfMemory>
    requires { IsAnswerable (member_of member.now) (expr_of condition.now) (map plain values.now) }
    ensures { let n = (member_of member.now).instance in IfOk result (λ b. b ≡ meaning.holds n (expr_of condition.now) (state_of (first_of member.now.declared n.automaton) (map plain values.now))) }
{
    let scope = Scope::of_state(member, values);
    Ok(is_true(evaluate(alloc, &scope, condition)?))
}

/// The fault that the condition has where the variables that the component's source declares have these values. None where it has a value.
pub(crate) fn condition_fault(
    alloc: Global,
    member: &Member,
    condition: &Expression,
    values: &[Value],
) -> Result<Option<Fault>, OutOfMemory>
    requires { IsAnswerable (member_of member.now) (expr_of condition.now) (map plain values.now) }
    ensures { let n = (member_of member.now).instance in IfOk result (λ f. f ≡ faults.condition_fault n.types n (expr_of condition.now) (state_of (first_of member.now.declared n.automaton) (map plain values.now))) }
{
    let scope = Scope::of_state(member, values);
    let answer = evaluate(alloc, &scope, condition)?;
    Ok(fault_of(&answer))
}

/// The fault that is answered, if one is.
fn fault_of(answer: &Result<Given<'_>, Fault>) -> Option<Fault>
    ensures { result ≡ faults.fault_of (answer_in answer.now) }
{
    match answer {
        Ok(_) => None,
        Err(fault) => Some(*fault),
    }
}

/// Whether the value true is given. A fault is not.
fn is_true(answer: Result<Given<'_>, Fault>) -> bool
    ensures { result ≡ meaning.is_true (answer_in answer.entry) }
{
    match answer {
        Ok(given) => is_truth(given.value()),
        Err(_) => false,
    }
}

/// Whether it is the truth value true.
fn is_truth(value: &Value) -> bool
    ensures { result ≡ meaning.is_true (gives (plain value.now)) }
{
    match value {
        Value::Truth(b) => *b,
        Value::Num(_) | Value::Name(_, _) | Value::Tuple(_, _) | Value::Items(_, _) => false,
    }
}
