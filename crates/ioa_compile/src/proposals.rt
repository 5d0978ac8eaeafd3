//! Code of proposals, in which each parameter gets a value.

ghost use Rattle.std.specs.Prelude.{◌≡◌, [], ◌∷◌, ◌+◌, ◌<◌, ◌^◌, map, length, OnOk};
ghost use Rattle.std.specs.Option.{option_map};
ghost use Rattle.ioa_code.specs.Parts.{listing};
ghost use Rattle.ioa_tree.specs.View.{field_of, choice_of, position_of, proposal_of};
ghost use Rattle.ioa_tree.specs.Tree.{expr_in};
ghost use Rattle.ioa_tree.specs.WellFormed.{nodes};
ghost use Rattle.ioa_emit.specs.Scopes.{IsKnown, IsKnownProposal, AreKnownProposals, proposal_for as proposal_tree};
ghost use Rattle.ioa_emit.specs.Extents.{choice_extent, proposal_extent, proposals_extent};
ghost use Rattle.ioa_emit.specs.Emitting.{proposal_nodes, proposals_nodes, AddsChoice, AddsProposal, AddsProposals};

use ioa_code::{Code, Instr};
use ioa_emit::{Scope, emit_expression, named_type, put};
use ioa_tree::{Choice, Field, Position, Proposal};
use ioa_value::OutOfMemory;
use std::alloc::Global;

/// The code of proposals, which leaves a value for each parameter among the positions, in their order.
pub(crate) fn emit_proposals(
    alloc: Global,
    out: &mut Code,
    scope: &Scope<'_>,
    proposals: &[Proposal],
    positions: &[Position],
) -> Result<(), OutOfMemory>
    requires known { AreKnownProposals scope.now (map proposal_of proposals.now) (map position_of positions.now) }
    requires room { length out.old.consts.items + proposals_nodes (map proposal_of proposals.now) (map position_of positions.now) < 2 ^ 16 }
    requires short { length out.old.instrs.items + proposals_extent (map proposal_of proposals.now) (map position_of positions.now) < 2 ^ 16 }
    ensures { OnOk result (AddsProposals (listing scope.now.types out.old) (listing scope.now.types out.new) scope.now (map proposal_of proposals.now) (map position_of positions.now)) }
{
    for position in positions {
        emit_position(alloc, out, scope, proposals, position)?;
    }
    Ok(())
}

/// The code of the proposal for a parameter. A constant has none.
fn emit_position(
    alloc: Global,
    out: &mut Code,
    scope: &Scope<'_>,
    proposals: &[Proposal],
    position: &Position,
) -> Result<(), OutOfMemory>
    requires known { AreKnownProposals scope.now (map proposal_of proposals.now) (position_of position.now ∷ []) }
    requires room { length out.old.consts.items + proposals_nodes (map proposal_of proposals.now) (position_of position.now ∷ []) < 2 ^ 16 }
    requires short { length out.old.instrs.items + proposals_extent (map proposal_of proposals.now) (position_of position.now ∷ []) < 2 ^ 16 }
    ensures { OnOk result (AddsProposals (listing scope.now.types out.old) (listing scope.now.types out.new) scope.now (map proposal_of proposals.now) (position_of position.now ∷ [])) }
{
    match position {
        Position::Typed(field) => {
            emit_proposal(alloc, out, scope, field, proposal_for(proposals, field))
        }
        Position::Constant(_) => Ok(()),
    }
}

/// The proposal for a parameter, where it has one.
fn proposal_for<'a>(proposals: &'a [Proposal], field: &Field) -> Option<&'a Proposal>
    ensures { option_map (λ r. proposal_of r.now) result ≡ proposal_tree (map proposal_of proposals.now) (field_of field.now) }
{
    for proposal in proposals {
        if proposal.name.is(field.name.text.as_str()) {
            return Some(proposal);
        }
    }
    None
}

/// The code of a parameter's proposal. Where it has none, a value of its type is picked.
fn emit_proposal(
    alloc: Global,
    out: &mut Code,
    scope: &Scope<'_>,
    field: &Field,
    proposal: Option<&Proposal>,
) -> Result<(), OutOfMemory>
    requires known { IsKnownProposal scope.now (field_of field.now) (option_map (λ r. proposal_of r.now) proposal) }
    requires room { length out.old.consts.items + proposal_nodes (option_map (λ r. proposal_of r.now) proposal) < 2 ^ 16 }
    requires short { length out.old.instrs.items + proposal_extent (option_map (λ r. proposal_of r.now) proposal) < 2 ^ 16 }
    ensures { OnOk result (AddsProposal (listing scope.now.types out.old) (listing scope.now.types out.new) scope.now (field_of field.now) (option_map (λ r. proposal_of r.now) proposal.entry)) }
{
    match proposal {
        Some(proposal) => emit_choice(alloc, out, scope, &proposal.choice),
        None => put(out, Instr::Pick(named_type(scope.types(), &field.ty))),
    }
}

/// The code of an expression, and of any number below it where that is proposed.
fn emit_choice(
    alloc: Global,
    out: &mut Code,
    scope: &Scope<'_>,
    choice: &Choice,
) -> Result<(), OutOfMemory>
    requires known { IsKnown scope.now (expr_in (choice_of choice.now)) }
    requires room { length out.old.consts.items + nodes (expr_in (choice_of choice.now)) < 2 ^ 16 }
    requires short { length out.old.instrs.items + choice_extent (choice_of choice.now) < 2 ^ 16 }
    ensures { OnOk result (AddsChoice (listing scope.now.types out.old) (listing scope.now.types out.new) scope.now (choice_of choice.now)) }
{
    match choice {
        Choice::Value(expression) => emit_expression(alloc, out, scope, expression),
        Choice::Any(expression, _) => {
            emit_expression(alloc, out, scope, expression)?;
            put(out, Instr::Any)
        }
    }
}
