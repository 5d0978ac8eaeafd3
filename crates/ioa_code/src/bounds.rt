//! How many instructions a run of valid code has at most: the sum of what its places weigh.

ghost use Rattle.std.specs.Prelude.{◌≡◌, ◌≤◌, ◌<◌, ◌+◌, ◌^◌, ℕ, List, [], length, slice_get, IfOk, Some};
ghost use Rattle.std.specs.Option.{option_map_or};
ghost use Rattle.ioa_value.specs.Plain.{number};
ghost use Rattle.ioa_value.specs.Table.{capacity as capacity_of};
ghost use Rattle.ioa_code.specs.Parts.{part_for};
ghost use Rattle.ioa_code.specs.Valid.{Valid};
ghost use Rattle.ioa_code.specs.Scan.{Brought, types_in, came};
ghost use Rattle.ioa_code.specs.Loops.{bodies};
ghost use Rattle.ioa_code.specs.Machine.{on_top};
ghost use Rattle.ioa_code.specs.Bound.{capacity_on, turns as turns_of, product, visits as visits_of, weight_at, bound};
ghost use Rattle.ioa_code.specs.Pending.{Represents, RepresentAll, Reached};

use crate::instr::{Code, Env, Instr};
use crate::nests::{advance, end};
use crate::pending::{Pending, at};
use crate::stacks::{Stacks, top};
use ioa_value::{Form, Ty, Types};
use std::alloc::{AllocError, Global};

// The bound of valid code, of which all places were scanned.
pub(crate) fn bound_of(
    alloc: Global,
    code: &Code,
    env: &Env<'_>,
    stacks: &Stacks,
    pending: &[Pending],
) -> Result<u64, AllocError>
    requires reached { Reached (part_for code.now env.now) stacks.now pending.now (length code.now.instrs.items) }
    requires valid { Valid (part_for code.now env.now) }
    ensures { IfOk result (λ n. n ≡ bound (part_for code.now env.now)) }
{
    let mut total: u64 = 0;
    let mut round = Vec::new(alloc);
    for place in 0..code.instrs.len() {
        total += weight(code, env, stacks, pending, &round, place);
        round = advance(alloc, &code.instrs, &round, place)?;
    }
    Ok(total)
}

// How often the instruction at this place is run at most, with these loops round it.
fn weight(
    code: &Code,
    env: &Env<'_>,
    stacks: &Stacks,
    pending: &[Pending],
    round: &[usize],
    place: usize,
) -> u64
    requires within { place < length code.now.instrs.items }
    requires here { round.now ≡ bodies code.now.instrs.items place }
    requires near { 65535 ≤ place → round.now ≡ [] }
    requires long { length pending.now ≡ length code.now.instrs.items + 1 }
    requires valid { Valid (part_for code.now env.now) }
    ensures value { (brought : ℕ → Brought) → RepresentAll stacks.now pending.now brought → result ≡ weight_at (part_for code.now env.now) (came brought) place }
    ensures small { result ≤ 2 ^ 33 }
    ensures far { 65535 ≤ place → result ≤ 1 }
{
    let runs = product_of(env.types, stacks, pending, round);
    if end(&code.instrs, place) > place {
        (turns(env.types, stacks, at(pending, place)) + 1) * runs
    } else {
        runs
    }
}

// The product of the capacities of these loops.
fn product_of(types: &Types, stacks: &Stacks, pending: &[Pending], round: &[usize]) -> u64
    requires within { (k i : ℕ) → slice_get round.now i ≡ Some k → k < length pending.now }
    requires few { length round.now ≤ 3 }
    ensures value { (brought : ℕ → Brought) → RepresentAll stacks.now pending.now brought → result ≡ product (turns_of types.now (came brought)) round.now }
    ensures small { result ≤ 2 ^ 24 }
    ensures alone { round.now ≡ [] → result ≤ 1 }
{
    let mut runs: u64 = 1;
    for each in round {
        runs *= turns(types, stacks, at(pending, *each));
    }
    runs
}

// How often the body of an Each that finds what is pending is run at most: the capacity of its sequence.
fn turns(types: &Types, stacks: &Stacks, found: Pending) -> u64
    ensures value { (b : Brought) → Represents stacks.now.nodes (Some found) b → result ≡ on_top 1 (types_in b) 0 (λ below top. capacity_on types.now top) }
    ensures small { result ≤ 256 }
{
    match found {
        Pending::Stack(stack) => match top(stacks, stack) {
            Some((_, ty)) => capacity(types, Ty(ty)),
            None => 0,
        },
        Pending::Nothing | Pending::Clash => 0,
    }
}

// How many items a sequence of the type may have; 0 where it is no sequence type.
fn capacity(types: &Types, ty: Ty) -> u64
    ensures value { result ≡ capacity_of types.now (number ty) }
    ensures small { result ≤ 256 }
{
    match types.form(ty) {
        Some(Form::Sequence(most, _)) => *most as u64,
        Some(Form::Truths | Form::Numbers | Form::Names(_) | Form::Fields(_)) | None => 0,
    }
}
