//! What a component means to do next: its words decide what its automaton leaves open.

ghost use Rattle.std.specs.Prelude.{◌≡◌, All, List, IfOk, IfSome, IsOk, length, map};
ghost use Rattle.std.specs.Bool.{OnTrue};
ghost use Rattle.std.specs.Option.{option_map};
ghost use Rattle.ioa_value.specs.Plain.{Val, plain};
ghost use Rattle.ioa_value.specs.Positions.{domain_of};
ghost use Rattle.ioa_compile.specs.Programs.{Prog};
ghost use Rattle.ioa_board.specs.Wishes.{IsWishOf, act_meant};
ghost use Rattle.ioa_run.specs.Locals.{HasSites, code_of};
ghost use Rattle.ioa_run.specs.Proposers.{action_with, filled};
ghost use Rattle.ioa_run.specs.Choices.{AreOfState, Chooses, GivesAction, IsOfState};
ghost use Rattle.ioa_parts.specs.Proposals.{values_in};
ghost use Rattle.ioa_run.specs.Tallies.{IsPick, lost_by};

use crate::locals::Local;
use crate::tally::{Lost, Pick};
use ioa_board::Wish;
use ioa_node::{NodeState, Proposal, Words, Workspace, proposal_with};
use ioa_value::{OutOfMemory, Position, Value};
use std::alloc::Global;
use std::mem;

/// The action that a component with these local entries means to perform in this state: one word picks one of them, whose proposal goes on
/// with the words after it. None where it has no local entry, which takes no word, or the proposal gives none. Behind it the pick tells which entry it is,
/// and why the turn is idle, if it is.
///
/// It asks that the entries' proposals are over the state's types.
pub(crate) fn choose<'p, W: Words>(
    alloc: Global,
    workspace: &mut Workspace,
    locals: &[Local<'p>],
    state: &NodeState,
    words: &mut W,
    pick: &mut Pick,
) -> Result<Option<Wish<'p>>, OutOfMemory>
    requires { AreOfState state.now (map code_of locals.now) }
    ensures chosen { IfOk result (λ r. Chooses (map code_of locals.now) state.now.values (W.stream words.old) (option_map act_meant r) (W.stream words.new)) }
    ensures known { IfOk result (λ r. (p : Prog) → All (HasSites p) locals.now → IfSome r (IsWishOf p)) }
    ensures picks { IsOk result → IsPick (map code_of locals.now) state.now.values (W.stream words.old) pick.new }
{
    let count = locals.len();
    if count == 0 {
        return Ok(None);
    }
    pick.word = words.next();
    let number = pick.word as usize % count;
    let local = &locals[number];
    propose_by(alloc, workspace, local, state, words, &mut pick.lost)
}

/// The action that the entry proposes, and why a turn is idle in which it is tried.
fn propose_by<'p, W: Words>(
    alloc: Global,
    workspace: &mut Workspace,
    local: &Local<'p>,
    state: &NodeState,
    words: &mut W,
    lost: &mut Lost,
) -> Result<Option<Wish<'p>>, OutOfMemory>
    requires { IfSome (code_of local.now).propose (IsOfState state.now) }
    ensures gives { IfOk result (λ r. GivesAction (code_of local.now) state.now.values (W.stream words.old) (option_map act_meant r) (W.stream words.new)) }
    ensures known { IfOk result (λ r. (p : Prog) → HasSites p local.now → IfSome r (IsWishOf p)) }
    ensures lost { IsOk result → lost.new ≡ lost_by (code_of local.now).propose state.now.values (W.stream words.old) }
{
    *lost = Lost::NoProposal;
    let Some(code) = &local.entry.propose else {
        return Ok(None);
    };
    match proposal_with(alloc, workspace, code, state, words)? {
        Proposal::Values(values) => {
            *lost = Lost::NotEnabled;
            let wish = wish_for(alloc, local, values)?;
            Ok(Some(wish))
        }
        Proposal::Nothing => Ok(None),
        Proposal::Faulted => {
            *lost = Lost::ProposalFaulted;
            Ok(None)
        }
    }
}

/// The wish for the action of the entry with these values of its parameters.
fn wish_for<'p>(
    alloc: Global,
    local: &Local<'p>,
    values: Vec<Value>,
) -> Result<Wish<'p>, OutOfMemory>
    ensures act { IfOk result (λ w. act_meant w ≡ action_with (code_of local.now) (values_in values)) }
    ensures known { IfOk result (λ w. (p : Prog) → HasSites p local.now → IsWishOf p w) }
{
    let entry = local.entry;
    let vals = fill(alloc, &entry.positions, values)?;
    Ok(Wish {
        name: entry.name.as_str(),
        sites: local.sites,
        vals,
    })
}

/// These values, each in its place among equals of the constants. Where all positions are theirs, they stand in their places already.
fn fill(
    alloc: Global,
    positions: &[Position],
    mut values: Vec<Value>,
) -> Result<Vec<Value>, OutOfMemory>
    ensures { IfOk result (λ all. map plain all.items ≡ filled (map domain_of positions.now) (map plain values.items)) }
{
    if are_all(positions, values.len()) {
        return Ok(values);
    }
    let mut all = Vec::with_capacity(alloc, positions.len())?;
    let mut used = 0;
    for position in positions {
        match position {
            Position::Constant(value) => all.push(value.try_copy(alloc)?)?,
            Position::Typed(_) => {
                if used < values.len() {
                    all.push(mem::replace(&mut values[used], Value::Truth(false)))?;
                    used += 1;
                }
            }
        }
    }
    Ok(all)
}

/// Whether so many values are those of all positions, of which none is a constant.
fn are_all(positions: &[Position], count: usize) -> bool
    ensures { OnTrue result ((vs : List Val) → length vs ≡ count → filled (map domain_of positions.now) vs ≡ vs) }
{
    if positions.len() != count {
        return false;
    }
    for position in positions {
        match position {
            Position::Constant(_) => return false,
            Position::Typed(_) => {}
        }
    }
    true
}
