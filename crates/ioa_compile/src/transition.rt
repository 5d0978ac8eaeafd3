//! The parts of a transition's code, emitted one after another over constants that they share.

ghost use Rattle.std.specs.Prelude.{◌≡◌, ◌≤◌, ◌+◌, ◌*◌, map, length, Some, None, IfOk};
ghost use Rattle.std.specs.Option.{option_map};
ghost use Rattle.ioa_value.specs.Plain.{plain};
ghost use Rattle.ioa_value.specs.Typing.{OwnTypes};
ghost use Rattle.ioa_code.specs.Parts.{listing};
ghost use Rattle.ioa_tree.specs.View.{expr_of, stmts_of, entry_of, transition_of, position_of, proposal_of};
ghost use Rattle.ioa_tree.specs.WellFormed.{stmts_nodes};
ghost use Rattle.ioa_value.specs.declared.limits.TheConstants.{LIMITS};
ghost use Rattle.ioa_crash.specs.Limits.{component_limits};
ghost use Rattle.ioa_emit.specs.Scopes.{AreKnown, AreKnownProposals, IsKnownGuard};
ghost use Rattle.ioa_emit.specs.Emitting.{guard_nodes, proposals_nodes, IsGrown};
ghost use Rattle.ioa_compile.specs.Translated.{IsGuard, IsProposing, IsEffect, IsTransition};

use crate::proposals::emit_proposals;
use ioa_code::{Code, Instr};
use ioa_emit::{Scope, emit_guard, emit_statements};
use ioa_tree::{Entry, Expression, Kind, Proposal, Statement, Transition};
use ioa_value::{OutOfMemory, Value, copies};
use std::alloc::Global;

/// The code of a transition: its precondition's and its proposals', but for an input, and its effect's. All name one table of constants.
#[derive(Drop)]
pub(crate) struct TransitionCode {
    pub(crate) guard: Option<Code>,
    pub(crate) proposals: Option<Code>,
    pub(crate) effect: Code,
}

/// The code of an entry's transition over a scope, and of its proposals over the one that is theirs.
pub(crate) fn transition_code<'a>(
    alloc: Global,
    scope: &Scope<'a>,
    held: &Scope<'_>,
    entry: &Entry,
    transition: &'a Transition,
) -> Result<TransitionCode, OutOfMemory>
    requires types { held.now.types ≡ scope.now.types }
    requires guard { IsKnownGuard scope.now (transition_of transition.now).pre }
    requires proposals { AreKnownProposals held.now (transition_of transition.now).proposals (entry_of entry.now).positions }
    requires effect { AreKnown scope.now (transition_of transition.now).effect }
    requires guard_size { guard_nodes (transition_of transition.now).pre ≤ component_limits.nodes }
    requires proposals_size { proposals_nodes (transition_of transition.now).proposals (entry_of entry.now).positions ≤ component_limits.nodes }
    requires effect_size { stmts_nodes (transition_of transition.now).effect ≤ component_limits.nodes }
    requires positions { length (entry_of entry.now).positions ≤ LIMITS.parameters }
    ensures { IfOk result (λ c. IsTransition (entry_of entry.now) scope.now held.now (transition_of transition.now) (option_map (listing scope.now.types) c.guard) (option_map (listing scope.now.types) c.proposals) (listing scope.now.types c.effect)) }
{
    match entry.kind {
        Kind::Input => Ok(TransitionCode {
            guard: None,
            proposals: None,
            effect: effect_code(alloc, Vec::new(alloc), scope, &transition.effect)?,
        }),
        Kind::Output | Kind::Internal => {
            let guard = guard_code(alloc, scope, &transition.pre)?;
            let proposals = proposals_code(
                alloc,
                guard.consts,
                held,
                entry,
                &transition.proposals,
            )?;
            let effect = effect_code(alloc, proposals.consts, scope, &transition.effect)?;
            Ok(TransitionCode {
                guard: Some(with_constants(alloc, guard.instrs, &effect.consts)?),
                proposals: Some(with_constants(alloc, proposals.instrs, &effect.consts)?),
                effect,
            })
        }
    }
}

/// These instructions with a table of constants that equals this one.
fn with_constants(alloc: Global, instrs: Vec<Instr>, consts: &[Value]) -> Result<Code, OutOfMemory>
    ensures instrs { IfOk result (λ code. code.instrs ≡ instrs) }
    ensures consts { IfOk result (λ code. map plain code.consts.items ≡ map plain consts.now) }
{
    let consts = copies(alloc, consts)?;
    Ok(Code { instrs, consts })
}

/// The code of a precondition.
fn guard_code(
    alloc: Global,
    scope: &Scope<'_>,
    guard: &Option<Expression>,
) -> Result<Code, OutOfMemory>
    requires known { IsKnownGuard scope.now (option_map expr_of guard.now) }
    requires size { guard_nodes (option_map expr_of guard.now) ≤ component_limits.nodes }
    ensures guard { IfOk result (λ code. IsGuard (listing scope.now.types code) scope.now (option_map expr_of guard.now)) }
    ensures few { IfOk result (λ code. length code.consts.items ≤ guard_nodes (option_map expr_of guard.now)) }
{
    let mut code = Code {
        instrs: Vec::new(alloc),
        consts: Vec::new(alloc),
    };
    emit_guard(alloc, &mut code, scope, guard)?;
    Ok(code)
}

/// The code of proposals for an entry's parameters, with constants after these.
fn proposals_code(
    alloc: Global,
    consts: Vec<Value>,
    scope: &Scope<'_>,
    entry: &Entry,
    proposals: &[Proposal],
) -> Result<Code, OutOfMemory>
    requires known { AreKnownProposals scope.now (map proposal_of proposals.now) (entry_of entry.now).positions }
    requires size { proposals_nodes (map proposal_of proposals.now) (entry_of entry.now).positions ≤ component_limits.nodes }
    requires positions { length (entry_of entry.now).positions ≤ LIMITS.parameters }
    requires few { length consts.items ≤ component_limits.nodes }
    requires typed { OwnTypes scope.now.types (map plain consts.items) }
    ensures proposals { IfOk result (λ code. IsProposing (listing scope.now.types code) scope.now (map proposal_of proposals.now) (entry_of entry.now).positions) }
    ensures grown { IfOk result (λ code. IsGrown (map plain consts.items) (map plain code.consts.items)) }
    ensures few { IfOk result (λ code. length code.consts.items ≤ length consts.items + proposals_nodes (map proposal_of proposals.now) (entry_of entry.now).positions) }
{
    let mut code = Code {
        instrs: Vec::new(alloc),
        consts,
    };
    emit_proposals(alloc, &mut code, scope, proposals, &entry.positions)?;
    Ok(code)
}

/// The code of statements, with constants after these.
fn effect_code<'a>(
    alloc: Global,
    consts: Vec<Value>,
    scope: &Scope<'a>,
    statements: &'a [Statement],
) -> Result<Code, OutOfMemory>
    requires known { AreKnown scope.now (stmts_of statements.now) }
    requires size { stmts_nodes (stmts_of statements.now) ≤ component_limits.nodes }
    requires few { length consts.items ≤ 2 * component_limits.nodes }
    requires typed { OwnTypes scope.now.types (map plain consts.items) }
    ensures effect { IfOk result (λ code. IsEffect (listing scope.now.types code) scope.now (stmts_of statements.now)) }
    ensures grown { IfOk result (λ code. IsGrown (map plain consts.items) (map plain code.consts.items)) }
    ensures few { IfOk result (λ code. length code.consts.items ≤ length consts.items + stmts_nodes (stmts_of statements.now)) }
{
    let mut code = Code {
        instrs: Vec::new(alloc),
        consts,
    };
    emit_statements(alloc, &mut code, scope, statements)?;
    Ok(code)
}
