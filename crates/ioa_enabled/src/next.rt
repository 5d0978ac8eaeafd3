//! What the components may perform next by themselves, in words.

ghost use Rattle.std.specs.Prelude.{◌≡◌, ◌++◌, List, IfOk, OnOk};
ghost use Rattle.std.specs.String.{string_bytes};
ghost use Rattle.ioa_tree.specs.Hosts.{HostState, Hosted};
ghost use Rattle.ioa_tree.specs.Likes.{AllRelated};
ghost use Rattle.ioa_tree.specs.Meaning.{Env};
ghost use Rattle.ioa_compose.specs.Held.{composed_of};
ghost use Rattle.ioa_compose.specs.Simulates.{Simulates};
ghost use Rattle.ioa_compile.specs.Implements.{Implements};
ghost use Rattle.ioa_compile.specs.Subjects.{HoldsTyped};
ghost use Rattle.ioa_system.specs.Systems.{values_of};
ghost use Rattle.ioa_enabled.specs.Next as spec;
ghost use Rattle.ioa_enabled.specs.Told.{ShareTypes, part_lines};

use crate::part::Part;
use crate::telling::put_part;
use ioa_compile::Program;
use ioa_compose::Composition;
use ioa_node::NodeState;
use ioa_value::OutOfMemory;
use std::alloc::Global;

/// Puts one of three behind the text, of the states of the composition's components that a run reached: which of their own actions are enabled, by a line for
/// each as `put_enabled` puts it; that none is, of all that the entries may propose; or that none is of the first `MOST`, with a line for each entry that may
/// propose more.
///
/// The program is the composition's.
pub fn put_next(
    alloc: Global,
    text: &mut String,
    composition: &Composition,
    program: &Program,
    states: &[NodeState],
) -> Result<(), OutOfMemory>
    ensures { OnOk result ((h : Hosted) (hs : List (HostState Env)) → ShareTypes h → Simulates h (composed_of composition.now) → Implements program.now (composed_of composition.now)
        → AllRelated (HoldsTyped h.hosts program.now.members) 0 hs (values_of states.now)
        → string_bytes text.new ≡ string_bytes text.old ++ spec.next_lines h.types h.hosts hs) }
{
    let enabled = part_text(alloc, Part::Enabled, composition, program, states)?;
    let own = part_text(alloc, Part::Own, composition, program, states)?;
    put_headed(text, enabled.as_str(), own.as_str())
}

/// This part of the lines that tell what is enabled.
fn part_text(
    alloc: Global,
    part: Part,
    composition: &Composition,
    program: &Program,
    states: &[NodeState],
) -> Result<String, OutOfMemory>
    ensures { IfOk result (λ text. (h : Hosted) (hs : List (HostState Env)) → ShareTypes h → Simulates h (composed_of composition.now) → Implements program.now (composed_of composition.now)
        → AllRelated (HoldsTyped h.hosts program.now.members) 0 hs (values_of states.now)
        → string_bytes text ≡ part_lines part h.types h.hosts hs) }
{
    let mut text = String::new(alloc);
    put_part(alloc, part, &mut text, composition, program, states)?;
    Ok(text)
}

/// Puts the lines that are told of entries under their heading.
fn put_headed(text: &mut String, enabled: &str, own: &str) -> Result<(), OutOfMemory>
    ensures { OnOk result (string_bytes text.new ≡ string_bytes text.old ++ spec.headed enabled.now own.now) }
{
    text.push_str(heading(enabled, own))?;
    text.push_str(own)?;
    Ok(())
}

fn heading(enabled: &str, own: &str) -> &'static str
    ensures { result.now ≡ spec.heading enabled.now own.now }
{
    if own.is_empty() {
        return "none is enabled in the state that the run reached, whatever words come: nothing more happens without an input\n";
    }
    if enabled.is_empty() {
        return "none of those tried is enabled in the state that the run reached:\n";
    }
    "these are enabled in the state that the run reached:\n"
}
