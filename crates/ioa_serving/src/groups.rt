//! The groups of the workers of a run on threads: those that can influence each other are of one group.

ghost use Rattle.std.specs.Prelude.{◌≡◌, ◌+◌, ◌<◌, IfOk, IsTrue, length, map, slice_index};
ghost use Rattle.std.specs.List.{range_with_len};
ghost use Rattle.ioa_value.specs.Actions.{act_of};
ghost use Rattle.ioa_serving.specs.Grouping as spec;
ghost use Rattle.ioa_serving.specs.Grouping.{AreGroups, AreLinked, AreTogether, HasJoined, Keeps};
ghost use Rattle.ioa_serving.specs.Links.{ShareGroups, are_linked};

use crate::links::are_linked;
use ioa_compile::Program;
use ioa_value::Action;
use std::alloc::{AllocError, Global};

/// For each component and then for the environment the number of its group. Those that share an action are of one group, and no two are that
/// need not be for this.
pub fn groups_of(
    alloc: Global,
    program: &Program,
    script: &[Action],
) -> Result<Vec<usize>, AllocError>
    ensures groups { IfOk result (λ gs. AreGroups (are_linked program.now (map act_of script.now)) (length program.now.members + 1) gs.items) }
    ensures shared { IfOk result (λ gs. ShareGroups program.now (map act_of script.now) gs.items) }
{
    let mut groups = apart(alloc, program.members().len())?;
    for worker in 0..groups.len() {
        join_linked(&mut groups, program, script, worker);
    }
    Ok(groups)
}

/// So many components and the environment, each in a group of its own.
fn apart(alloc: Global, components: usize) -> Result<Vec<usize>, AllocError>
    ensures { IfOk result (λ gs. gs.items ≡ range_with_len 0 (components + 1)) }
{
    let mut groups = Vec::new(alloc);
    for component in 0..components {
        groups.push(component)?;
    }
    groups.push(components)?;
    Ok(groups)
}

/// Makes one group of the worker's and those of all that are linked with it.
fn join_linked(groups: &mut [usize], program: &Program, script: &[Action], worker: usize)
    requires within { worker < length groups.old }
    requires linked { AreLinked (are_linked program.now (map act_of script.now)) (length groups.old) groups.old }
    ensures linked { AreLinked (are_linked program.now (map act_of script.now)) (length groups.old) groups.new }
    ensures keeps { Keeps groups.old groups.new }
    ensures joined { HasJoined (are_linked program.now (map act_of script.now)) groups.new worker (length groups.old) }
{
    for other in 0..groups.len() {
        join_if_linked(groups, program, script, worker, other);
    }
}

/// Makes one group of those of these workers, if they are linked.
fn join_if_linked(
    groups: &mut [usize],
    program: &Program,
    script: &[Action],
    worker: usize,
    other: usize,
)
    requires worker { worker < length groups.old }
    requires other { other < length groups.old }
    requires linked { AreLinked (are_linked program.now (map act_of script.now)) (length groups.old) groups.old }
    ensures linked { AreLinked (are_linked program.now (map act_of script.now)) (length groups.old) groups.new }
    ensures keeps { Keeps groups.old groups.new }
    ensures joined { IsTrue (are_linked program.now (map act_of script.now) worker other) → AreTogether groups.new worker other }
{
    if are_linked(program, script, worker, other) {
        join(groups, worker, other);
    }
}

/// Makes one group of those of these workers.
fn join(groups: &mut [usize], worker: usize, other: usize)
    requires worker { worker < length groups.old }
    requires other { other < length groups.old }
    ensures { groups.new ≡ map (spec.merged (slice_index groups.old other) (slice_index groups.old worker)) groups.old }
{
    let from = groups[other];
    let to = groups[worker];
    merge(groups, from, to);
}

/// Lets one group go into another.
fn merge(groups: &mut [usize], from: usize, to: usize)
    ensures { groups.new ≡ map (spec.merged from to) groups.old }
{
    for i in 0..groups.len() {
        groups[i] = merged(from, to, groups[i]);
    }
}

/// The group, where one has gone into another.
fn merged(from: usize, to: usize, group: usize) -> usize
    ensures { result ≡ spec.merged from to group }
{
    if group == from { to } else { group }
}
