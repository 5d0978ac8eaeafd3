//! The conditions of a composition's invariants, compiled beside its program, and asked of components' states.

ghost use Rattle.std.specs.Prelude.{◌≡◌, ◌<◌, [], map, length, Some, IfOk, IfSome, IsTrue, slice_get};
ghost use Rattle.ioa_value.specs.Plain.{number};
ghost use Rattle.ioa_value.specs.Table.{AreTypes};
ghost use Rattle.ioa_code.specs.Valid.{Part};
ghost use Rattle.ioa_tree.specs.Compositions.{Member as composed};
ghost use Rattle.ioa_tree.specs.Instances.{state_of};
ghost use Rattle.ioa_tree.specs.Invariants as meaning;
ghost use Rattle.ioa_tree.specs.View.{automaton_of, expr_of};
ghost use Rattle.ioa_tree.specs.WellFormed.{has_ty, held, variable_fields};
ghost use Rattle.ioa_compose.specs.Fine.{IsFine};
ghost use Rattle.ioa_crash.specs.Limits.{component_limits};
ghost use Rattle.ioa_compose.specs.Held.{composed_of, member_of};
ghost use Rattle.ioa_compose.specs.Questions.{OfThese};
ghost use Rattle.ioa_compile.specs.Asking.{AskAll, Asks, IsStateOf};
ghost use Rattle.ioa_compile.specs.Matching.{AreTypesOf};

use crate::entries::verified;
use crate::space::Space;
use crate::types::variable_types;
use ioa_code::{Code, PartKind};
use ioa_compose::{Composition, Member};
use ioa_emit::{Scope, emit_expression};
use ioa_node::{Decoded, NodeState, Workspace, enabled_with};
use ioa_tree::Expression;
use ioa_value::{OutOfMemory, Ty};
use ioa_words::Layout;
use std::alloc::Global;
use std::marker::Model;

/// A composition's invariants as they are asked of its components' states: of each component, for each invariant of its automaton, verified code,
/// beside the composition's program, of which it is no part. A condition whose code or constants a part could not number has none.
pub struct Asked<'a> {
    composition: &'a Composition,
    codes: Vec<Vec<Option<Decoded>>>,
}

/// Written out, so that who drops one calls this, and does not take it apart itself.
impl Drop for Asked<'_> {
    fn drop(self) {
        let Asked {
            composition: _,
            codes: _,
        } = self;
    }
}

impl<'a> Model for Asked<'a> {
    ghost use Rattle.std.specs.Prelude.{map};
    ghost use Rattle.ioa_compose.specs.Held.{Held, held_code, composed_of};
    ghost use Rattle.ioa_compile.specs.Asking.{AreAsked};

    ghost Value = { Held };

    ghost coded = { held_code };

    ghost view = { λ a. a.composition.now };

    ghost invariant = { λ a. AreAsked (composed_of a.composition.now) (map (λ c. c.items) a.codes.items) };
}

impl<'a> Asked<'a> {
    /// The invariants of a composition, compiled.
    pub fn of(alloc: Global, composition: &'a Composition) -> Result<Asked<'a>, OutOfMemory>
        ensures { IfOk result (λ a. a ≡ composition.now) }
    {
        let mut codes = Vec::new(alloc);
        for component in 0..composition.members().len() {
            codes.push(component_codes(alloc, composition, component)?)?;
        }
        Ok(Asked { composition, codes })
    }

    /// The composition.
    pub fn composition(&self) -> &'a Composition
        ensures { result.now ≡ self.now }
    {
        self.composition
    }

    /// Whether the invariant of this number is true of the component of this number in this state. A fault is not. None where there is no code for
    /// it: the invariant is of another automaton, or too large. The memory of the workspace is used again.
    ///
    /// # Errors
    /// `OutOfMemory`.
    pub fn holds(
        &self,
        workspace: &mut Workspace,
        component: usize,
        invariant: usize,
        state: &NodeState,
    ) -> Result<Option<bool>, OutOfMemory>
        requires state { (m : composed) → slice_get (composed_of self.now).members component ≡ Some m → IsStateOf m state.now }
        requires there { component < length self.now.members }
        requires asked { invariant < length self.now.invariants }
        ensures { IfOk result (λ a. IfSome a (λ b. OfThese (composed_of self.now) component invariant
            (λ m v. b ≡ meaning.holds m.instance v.condition (state_of m.instance.automaton state.now.values)))) }
    {
        let Some(codes) = self.codes.get(component) else {
            return Ok(None);
        };
        let Some(Some(code)) = codes.get(invariant) else {
            return Ok(None);
        };
        match enabled_with(workspace, code, state, &[])? {
            Ok(holds) => Ok(Some(holds)),
            Err(_) => Ok(Some(false)),
        }
    }
}

/// The code of the conditions for the component of this number, one for each invariant where it is of the component's automaton and not too large.
fn component_codes(
    alloc: Global,
    composition: &Composition,
    component: usize,
) -> Result<Vec<Option<Decoded>>, OutOfMemory>
    requires { component < length composition.now.members }
    ensures { IfOk result (λ codes. AskAll (composed_of composition.now) component codes.items) }
{
    let member = &composition.members()[component];
    let slots = variable_types(alloc, &member.types, &member.automaton.variables)?;
    let layout = Layout::new(alloc, member.types.share()?)?;
    let mut codes = Vec::new(alloc);
    for number in 0..composition.invariants().len() {
        if composition.is_about(component, number) {
            let condition = &composition.invariants()[number].condition;
            codes.push(condition_code(alloc, &layout, member, &slots, condition)?)?;
        } else {
            codes.push(None)?;
        }
    }
    Ok(codes)
}

/// The code of a condition over a component's variables and formals, verified, unless it is too large.
fn condition_code(
    alloc: Global,
    layout: &Layout,
    member: &Member,
    slots: &[Ty],
    condition: &Expression,
) -> Result<Option<Decoded>, OutOfMemory>
    requires layout { layout.now ≡ member.now.types }
    requires fine { IsFine component_limits (member_of member.now) }
    requires table { AreTypes member.now.types }
    requires slots { AreTypesOf member.now.types (variable_fields (automaton_of member.now.automaton)) (map number slots.now) }
    requires typed { IsTrue (has_ty member.now.types member.now.types (held member.now.types member.now.types [] (automaton_of member.now.automaton)) (expr_of condition.now) 0) }
    ensures { IfOk result (λ part. IfSome part (λ p. Asks (member_of member.now) (expr_of condition.now) p)) }
{
    if Space::of_a_part().after(condition).is_none() {
        return Ok(None);
    }
    let scope = Scope::of_proposals(member);
    let mut code = Code {
        instrs: Vec::new(alloc),
        consts: Vec::new(alloc),
    };
    emit_expression(alloc, &mut code, &scope, condition)?;
    let part = verified(
        alloc,
        layout,
        &member.types,
        code,
        PartKind::Pre,
        slots,
        &[],
        &[Ty::BOOL],
    )?;
    Ok(Some(part))
}
