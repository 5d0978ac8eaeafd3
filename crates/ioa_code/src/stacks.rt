//! Stacks of types, of which the verifier compares any two at once, however deep they are.

ghost use Rattle.std.specs.Prelude.{◌≡◌, ◌<◌, ◌+◌, ◌^◌, ℕ, suc, List, length, map, IfOk, IfSome, Some, slice_get};
ghost use Rattle.std.specs.Option.{option_map};
ghost use Rattle.ioa_value.specs.Plain.{number};
ghost use Rattle.ioa_code.specs.Scan.{same_types};
ghost use Rattle.ioa_code.specs.Stacks.{node_at, IsStack, IsNumber, Searched, Grows, IsDepth, Deepens, topmost, taken};

use crate::links::{Link, Links, hang, target, turn};
use ioa_value::Ty;
use std::alloc::{AllocError, Global};
use std::marker::Model;

/// Stacks of types, each known by a number: 0 is the empty one, k + 1 has the number of a stack, and on it a type.
/// No two are equal, so equal stacks have equal numbers.
///
/// The stacks that lie directly on another are searched by the bits of their types, so however many there are, a search
/// passes no more of them than a type has bits, and finds or adds a stack after that.
///
/// From each stack one that lies beneath it is reached at once, so that a type far down is found in few steps.
#[derive(Drop)]
pub(crate) struct Stacks {
    nodes: Vec<(usize, u16)>,
    links: Vec<Links>,
    depths: Vec<Depth>,
}

/// How many types are on a stack, and the number of one that lies beneath it.
#[derive(Clone, Copy)]
pub(crate) struct Depth {
    height: usize,
    under: usize,
}

impl Model for Stacks {
    ghost use Rattle.ioa_code.specs.Stacks.{Numbering, IsNumbered};

    ghost Value = { Numbering };

    ghost view = { λ s. record { nodes = s.nodes.items; links = s.links.items; depths = s.depths.items } };

    ghost invariant = { λ s. IsNumbered (record { nodes = s.nodes.items; links = s.links.items; depths = s.depths.items }) };
}

impl Stacks {
    // The empty stack alone.
    pub(crate) fn new(alloc: Global) -> Result<Stacks, AllocError> {
        let mut links = Vec::new(alloc);
        links.push(Links::NONE)?;
        let mut depths = Vec::new(alloc);
        depths.push(Depth {
            height: 0,
            under: 0,
        })?;
        Ok(Stacks {
            nodes: Vec::new(alloc),
            links,
            depths,
        })
    }
}

// The number of the stack with this type on that one, or the link at which to hang it.
fn find(stacks: &Stacks, below: usize, ty: u16) -> Result<usize, Link>
    requires { IsNumber stacks.now below }
    ensures { Searched stacks.now (below, ty) result }
{
    let mut link = Link::Children(below);
    let mut bits = ty;
    loop {
        let stack = target(&stacks.links, link);
        if stack == 0 {
            return Err(link);
        }
        // Only stacks on `below` hang here. Comparing it too costs nothing, and no invariant has to say so.
        if stacks.nodes[stack - 1] == (below, ty) {
            return Ok(stack);
        }
        link = turn(stack, bits);
        bits /= 2;
    }
}

// The number of the stack with this type on that one.
pub(crate) fn push(stacks: &mut Stacks, below: usize, ty: Ty) -> Result<usize, AllocError>
    requires { IsNumber stacks.old below }
    ensures grows { IfOk result (λ k. Grows stacks.old stacks.new) }
    ensures node { IfOk result (λ k. node_at stacks.new.nodes k ≡ Some (below, number ty)) }
{
    match find(stacks, below, ty.0) {
        Ok(stack) => Ok(stack),
        Err(link) => {
            let depth = deepened(stacks, below);
            // Where memory is short the stacks stay as they are, so what may fail goes first.
            stacks.nodes.reserve(1)?;
            stacks.depths.reserve(1)?;
            stacks.links.push(Links::NONE)?;
            stacks.nodes.push_reserved((below, ty.0));
            stacks.depths.push_reserved(depth);
            let stack = stacks.nodes.len();
            hang(&mut stacks.links, link, stack);
            Ok(stack)
        }
    }
}

// Whether two stacks have the same types. No two do, so their numbers tell.
pub(crate) fn same(stacks: &Stacks, one: usize, other: usize) -> bool
    ensures { (ts us : List ℕ) → IsStack stacks.now.nodes one ts → IsStack stacks.now.nodes other us → result ≡ same_types ts us }
{
    // That no two do is known where the stacks are opened.
    let _nodes = &stacks.nodes;
    one == other
}

// What is kept of how deep the stack is.
fn depth_of(stacks: &Stacks, stack: usize) -> Depth
    requires { IsNumber stacks.now stack }
    ensures is { IsDepth stacks.now.nodes stack result }
    ensures small { result.height + 1 < 2 ^ 64 }
{
    stacks.depths[stack]
}

// The same of a stack with one type more on this one.
//
// Where the two steps down from here are equally long, the new stack's step is as long as both and one more. So the steps down from
// any stack grow, and come to any of those beneath it in as many turns as its height has bits, or twice as many.
fn deepened(stacks: &Stacks, below: usize) -> Depth
    requires { IsNumber stacks.now below }
    ensures { Deepens stacks.now below result }
{
    let here = depth_of(stacks, below);
    let next = depth_of(stacks, here.under);
    let last = depth_of(stacks, next.under);
    let first_step = here.height.saturating_sub(next.height);
    let second_step = next.height.saturating_sub(last.height);
    let under = if first_step == second_step {
        next.under
    } else {
        below
    };
    Depth {
        height: here.height + 1,
        under,
    }
}

// How many types are on the stack.
pub(crate) fn height(stacks: &Stacks, stack: usize) -> usize
    requires { IsNumber stacks.now stack }
    ensures { (ts : List ℕ) → IsStack stacks.now.nodes stack ts → result ≡ length ts }
{
    depth_of(stacks, stack).height
}

// How many types are on the stack with one more.
pub(crate) fn height_with_one(stacks: &Stacks, stack: usize) -> usize
    requires { IsNumber stacks.now stack }
    ensures { (ts : List ℕ) → IsStack stacks.now.nodes stack ts → result ≡ suc (length ts) }
{
    depth_of(stacks, stack).height + 1
}

// The stack's topmost type, and the stack below it.
pub(crate) fn top(stacks: &Stacks, stack: usize) -> Option<(usize, u16)>
    ensures node { result ≡ node_at stacks.now.nodes stack }
    ensures number { IfSome result (λ node. IsNumber stacks.now node.0) }
    ensures earlier { IfSome result (λ node. node.0 < stack) }
{
    node(&stacks.nodes, stack)
}

// The node of this number, where there is one: the empty stack has none.
fn node(nodes: &[(usize, u16)], stack: usize) -> Option<(usize, u16)>
    ensures { result ≡ node_at nodes.now stack }
{
    if stack == 0 {
        return None;
    }
    nodes.get(stack - 1).copied()
}

// The type at this place of the stack, counted from the bottom.
pub(crate) fn item_at(stacks: &Stacks, stack: usize, d: usize) -> Option<Ty>
    requires { IsNumber stacks.now stack }
    ensures { (ts : List ℕ) → IsStack stacks.now.nodes stack ts → option_map number result ≡ slice_get ts d }
{
    let mut at = stack;
    while d < height(stacks, at) {
        let (below, ty) = top(stacks, at)?;
        if height(stacks, below) == d {
            return Some(Ty(ty));
        }
        let under = depth_of(stacks, at).under;
        at = if d < height(stacks, under) {
            under
        } else {
            below
        };
    }
    None
}

// The n topmost types, with the last on top, and the stack below them, if there are so many.
pub(crate) fn take(
    alloc: Global,
    stacks: &Stacks,
    stack: usize,
    n: usize,
) -> Result<Option<(usize, Vec<Ty>)>, AllocError>
    ensures taken { IfOk result (λ r. taken r ≡ topmost stacks.now.nodes stack n) }
    ensures number { IsNumber stacks.now stack → IfOk result (λ r. IfSome r (λ rest. IsNumber stacks.now rest.0)) }
{
    if n == 0 {
        return Ok(Some((stack, Vec::new(alloc))));
    }
    match top(stacks, stack) {
        Some((below, ty)) => match take(alloc, stacks, below, n - 1)? {
            Some((rest, mut types)) => {
                types.push(Ty(ty))?;
                Ok(Some((rest, types)))
            }
            None => Ok(None),
        },
        None => Ok(None),
    }
}

// The number of the stack of these types.
pub(crate) fn spell(stacks: &mut Stacks, types: &[Ty]) -> Result<usize, AllocError>
    ensures grows { IfOk result (λ k. Grows stacks.old stacks.new) }
    ensures stack { IfOk result (λ k. IsStack stacks.new.nodes k (map number types.now)) }
{
    let mut stack = 0;
    for ty in types {
        stack = push(stacks, stack, *ty)?;
    }
    Ok(stack)
}
