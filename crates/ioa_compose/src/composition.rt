//! The composition of automata: from the instances that a source declares to components that fit.

ghost use Rattle.std.specs.Prelude.{◌≡◌, ◌≢◌, ◌↔◌, ◌<◌, ◌++◌, length, List, Some, None, IfOk, IfErr, IsErrOf, option_copied, map};
ghost use Rattle.std.specs.Str.{bytes_eq};
ghost use Rattle.std.specs.String.{string_bytes};
ghost use Rattle.ioa_value.specs.Plain.{Val, plain};
ghost use Rattle.ioa_lex.specs.declared.refusal.Refusal.TheVariants as refusals;
ghost use Rattle.ioa_tree.specs.Tree.{CompositionTree};
ghost use Rattle.ioa_tree.specs.View.{tree_of, assembly_of};
ghost use Rattle.ioa_tree.specs.Names.{LegalNames};
ghost use Rattle.ioa_tree.specs.Types.{types_of};
ghost use Rattle.ioa_tree.specs.WellFormed.{WellFormed};
ghost use Rattle.ioa_tree.specs.Components.{Compatible};
ghost use Rattle.ioa_tree.specs.Instances.{Instance, component_of, state_of};
ghost use Rattle.ioa_tree.specs.Invariants as meaning;
ghost use Rattle.ioa_compose.specs.Bindings.{AreBound, IsComposable};
ghost use Rattle.ioa_compose.specs.Refusals.{IsRefused, TellsClash, reason_of};
ghost use Rattle.ioa_tree.specs.Compositions.{picked};
ghost use Rattle.ioa_tree.specs.Hosts.{Hosted, IsHosted};
ghost use Rattle.ioa_compose.specs.Simulates.{Simulates};
ghost use Rattle.ioa_compose.specs.Faults.{condition_fault};
ghost use Rattle.ioa_compose.specs.Fine.{IsSound};
ghost use Rattle.ioa_compose.specs.Held.{composed_of, AllHoldPositions};
ghost use Rattle.ioa_compose.specs.Questions.{OfThese, IsQuestion};

use crate::binding::bind_all;
use crate::compatibility::compatible;
use crate::hidden::hidden_outputs;
use crate::invariants::{condition_fault, declared_invariants, is_kept};
use crate::member::Member;
use crate::picks;
use crate::starts::start_all;
use ioa_check::Checked;
use ioa_syntax::Refusal;
use ioa_tree::{Assembly, Declaration, Invariant};
use ioa_value::{Fault, OutOfMemory, Types, Value};
use std::alloc::Global;
use std::marker::Model;

/// A composition: its types, its components in order, compatible with one another, and the invariants of its source.
pub struct Composition {
    types: Types,
    name: String,
    members: Vec<Member>,
    hidden: Vec<String>,
    invariants: Vec<Invariant>,
}

/// Written out, so that who drops one calls this, and does not take it apart itself.
impl Drop for Composition {
    fn drop(self) {
        let Composition {
            types: _,
            name: _,
            members: _,
            hidden: _,
            invariants: _,
        } = self;
    }
}

impl Model for Composition {
    ghost use Rattle.std.specs.Prelude.{map};
    ghost use Rattle.std.specs.String.{string_bytes};
    ghost use Rattle.ioa_compose.specs.Held.{Held, held_code, IsKept};

    ghost Value = { Held };

    ghost coded = { held_code };

    ghost view = { λ c. record { types = c.types; name = string_bytes c.name; members = c.members.items; hidden = map string_bytes c.hidden.items; invariants = c.invariants.items } };

    ghost invariant = { λ c. IsKept (record { types = c.types; name = string_bytes c.name; members = c.members.items; hidden = map string_bytes c.hidden.items; invariants = c.invariants.items }) };
}

impl Composition {
    /// The types of the composition's values.
    pub fn types(&self) -> &Types
        ensures value { result.now ≡ self.now.types }
        ensures sound { IsSound (composed_of self.now) }
    {
        &self.types
    }

    /// The components in order.
    pub fn members(&self) -> &[Member]
        ensures value { result.now ≡ self.now.members }
        ensures sound { IsSound (composed_of self.now) }
        ensures positions { AllHoldPositions self.now.members }
    {
        self.members.as_slice()
    }

    /// The composition's name.
    pub fn name(&self) -> &str
        ensures { result.now ≡ self.now.name }
    {
        self.name.as_str()
    }

    /// The names that are hidden.
    pub fn hidden(&self) -> &[String]
        ensures { map string_bytes result.now ≡ self.now.hidden }
    {
        self.hidden.as_slice()
    }

    /// The source's invariants in order, by which they are numbered.
    pub fn invariants(&self) -> &[Invariant]
        ensures value { result.now ≡ self.now.invariants }
        ensures sound { IsSound (composed_of self.now) }
    {
        self.invariants.as_slice()
    }

    /// Whether the invariant is of the component's automaton.
    pub fn is_about(&self, component: usize, invariant: usize) -> bool
        requires component { component < length self.now.members }
        requires invariant { invariant < length self.now.invariants }
        ensures { OfThese (composed_of self.now) component invariant (λ m v. result ≡ bytes_eq v.automaton m.instance.automaton.name) }
    {
        let automaton = &self.members[component].automaton;
        self.invariants[invariant]
            .automaton
            .is(automaton.name.text.as_str())
    }

    /// Whether the invariant, which is of the component's automaton, is true where the first `declared` of the component's variables
    /// have these values, whatever the others have. A fault is not.
    ///
    /// # Errors
    /// `OutOfMemory`.
    pub fn holds(
        &self,
        component: usize,
        invariant: usize,
        values: &[Value],
    ) -> Result<bool, OutOfMemory>
        requires asked { IsQuestion (composed_of self.now) component invariant (map plain values.now) }
        ensures { IfOk result (λ b. OfThese (composed_of self.now) component invariant (λ m v. (more : List Val) → b ≡ meaning.holds m.instance v.condition (state_of m.instance.automaton (map plain values.now ++ more)))) }
    {
        let member = &self.members[component];
        let condition = &self.invariants[invariant].condition;
        is_kept(*self.members.allocator(), member, condition, values)
    }

    /// The fault that the invariant, which is of the component's automaton, has where the first `declared` of the component's variables
    /// have these values, whatever the others have. None where it has a value.
    ///
    /// # Errors
    /// `OutOfMemory`.
    pub fn fault_of(
        &self,
        component: usize,
        invariant: usize,
        values: &[Value],
    ) -> Result<Option<Fault>, OutOfMemory>
        requires asked { IsQuestion (composed_of self.now) component invariant (map plain values.now) }
        ensures { IfOk result (λ f. OfThese (composed_of self.now) component invariant (λ m v. (more : List Val)
            → f ≡ condition_fault m.instance.types m.instance v.condition (state_of m.instance.automaton (map plain values.now ++ more)))) }
    {
        let asked = &self.members[component];
        let condition = &self.invariants[invariant].condition;
        condition_fault(*self.members.allocator(), asked, condition, values)
    }
}

/// The composition of this name, or the source's last one where no name is given. Its hidden names are the declaration's. A
/// component that crashes and recovers is rewritten, and stands for one whose state is lost but for its stable variables.
///
/// # Errors
/// - `NoComposition`: there is no such composition.
/// - `ArgMismatch`: a component's arguments are not of its formals' types, one for each.
/// - `CrashName`: a component's arguments fit, but its crash and recover are one name, or one of them names an entry of its automaton.
/// - `StartFault`: an argument of a component faults, or a start expression.
/// - `Clash`: two components are not compatible. They are the first two, by the first one's place and then the other's, and the
///   name is that of the first one's first entry that clashes.
/// - `HiddenUnknown`: no component has an output of this hidden name, the first such one. It comes after `Clash`, and before a
///   start expression's `StartFault`.
/// - `OutOfMemory`.
///
/// Of several components with faulting arguments, `ArgMismatch` or `CrashName` the first is told, and so of several with faulting
/// start expressions.
pub fn compose(alloc: Global, checked: &Checked, name: Option<&str>) -> Result<Composition, Refusal>
    ensures composed { IfOk result (λ c. (t : CompositionTree) × (picked (tree_of checked.now) (option_copied name.entry) ≡ Some t) × (h : Hosted) × IsHosted (tree_of checked.now) t h × Simulates h (composed_of c)) }
    ensures missing { (picked (tree_of checked.now) (option_copied name.entry) ≡ None) ↔ IsErrOf result refusals.NoComposition }
    ensures exact { IfErr result (λ r. r ≢ refusals.OutOfMemory → (t : CompositionTree) → picked (tree_of checked.now) (option_copied name.entry) ≡ Some t → (h : Hosted) → IsHosted (tree_of checked.now) t h → ⊥) }
    ensures refused { (t : CompositionTree) → picked (tree_of checked.now) (option_copied name.entry) ≡ Some t → IfErr result (λ r. IsRefused (tree_of checked.now) t r) }
    ensures clash { IfErr result (λ r. r ≢ refusals.OutOfMemory → (t : CompositionTree) → picked (tree_of checked.now) (option_copied name.entry) ≡ Some t → (ns : List Instance) → AreBound (tree_of checked.now) t.instances ns → (Compatible (map component_of ns) → ⊥) → TellsClash (reason_of r)) }
{
    let declarations = checked.declarations();
    match picks::picked(declarations, name) {
        Some(assembly) => composed(alloc, checked.types(), declarations, assembly),
        None => Err(Refusal::NoComposition),
    }
}

/// The composition that a declaration of a well formed source stands for.
fn composed(
    alloc: Global,
    types: &Types,
    declarations: &[Declaration],
    assembly: &Assembly,
) -> Result<Composition, Refusal>
    requires types { types.now ≡ types_of (tree_of declarations.now) }
    requires well_formed { WellFormed (tree_of declarations.now) }
    requires legal { LegalNames (tree_of declarations.now) }
    requires composable { IsComposable (tree_of declarations.now) (assembly_of assembly.now) }
    ensures composed { IfOk result (λ c. (h : Hosted) × IsHosted (tree_of declarations.now) (assembly_of assembly.now) h × Simulates h (composed_of c)) }
    ensures refused { IfErr result (λ r. IsRefused (tree_of declarations.now) (assembly_of assembly.now) r) }
{
    let shared = types.share()?;
    let bindings = bind_all(alloc, &shared, declarations, &assembly.instances)?;
    compatible(alloc, &shared, &bindings)?;
    let hidden = hidden_outputs(alloc, &bindings, &assembly.hidden)?;
    let members = start_all(alloc, &shared, bindings)?;
    let name = String::from_str(alloc, assembly.name.text.as_str())?;
    let invariants = declared_invariants(alloc, declarations)?;
    Ok(Composition {
        types: shared,
        name,
        members,
        hidden,
        invariants,
    })
}
