//! `check`: whether a source keeps the rules, or the code of an object is valid.

ghost use Rattle.std.specs.Prelude.{◌≡◌, ◌∷◌, [], All, List, Some, OnOk, IfErr, IsErrOf};
ghost use Rattle.ioa_device.specs.Devices.{PassesUnless, change};
ghost use Rattle.ioa_device.specs.declared.failure.LogErr.{LogErr};
ghost use Rattle.ioa_device.specs.Failing.{HasFailed};
ghost use Rattle.ioa_tree.specs.Compositions.{compositions};
ghost use Rattle.ioa_tree.specs.Tree.{CompositionTree};
ghost use Rattle.ioa_tree.specs.View.{declaration_of, tree_of};
ghost use Rattle.ioa_serving.specs.Checks.{Composes, IsCheck, IsCheckFailure, IsFine, IsFineSource, IsFirstRefused, IsUnchecked, IsUnfine, IsUnfineSource};
ghost use Rattle.ioa_serving.specs.Failing.{IsRefusedNamed};

use crate::compile::is_object;
use crate::failure::Failure;
use ioa_check::{Checked, check};
use ioa_compose::compose;
use ioa_device::{OutputDevice, send_all};
use ioa_loader::read_object;
use ioa_syntax::{Refusal, parse};
use ioa_tree::Declaration;
use std::alloc::Global;

/// Parses and checks a source, or reads an object and verifies its code, and writes `ok` on a line where that is fine. Of a source
/// each composition is composed, too, in their order, where `compositions` says so; the one composition of an object is in it.
///
/// # Errors
/// `Refused` where the text is no source, or the source is not well formed, or by the first composition that is refused, where they
/// are composed; `Object` where the bytes are no object; `List` where the device failed in this call; or want of memory. Nothing was
/// written then, or, where the device failed, no more than a beginning of the line.
pub fn check_text<W: OutputDevice>(
    alloc: Global,
    text: &[u8],
    compositions: bool,
    output: &mut W,
) -> Result<(), Failure>
    ensures checks { OnOk result (IsCheck text.now compositions (W.contents output.old) (W.contents output.new)) }
    ensures refused { IfErr result (λ e. IsCheckFailure text.now compositions (HasFailed (W.failure_count output.old) (W.failure_count output.new)) e) }
    ensures unwritten { IfErr result (λ e. IsUnchecked (W.contents output.old) (W.contents output.new) e) }
    ensures devices { PassesUnless (IsErrOf result (Failure.List LogErr.Io)) (change W.contents W.failure_count output.old output.new) }
{
    accept(alloc, text, compositions)?;
    send_all(output, b"ok\n")?;
    Ok(())
}

/// Whether a file is fine: a source, or an object.
fn accept(alloc: Global, text: &[u8], compositions: bool) -> Result<(), Failure>
    ensures fine { OnOk result (IsFine text.now compositions) }
    ensures refused { IfErr result (λ e. IsUnfine text.now compositions e) }
{
    if is_object(text) {
        let _program = read_object(alloc, text)?;
        return Ok(());
    }
    accept_source(alloc, text, compositions)?;
    Ok(())
}

/// Whether a source is fine, and each of its compositions, where these are asked for.
fn accept_source(alloc: Global, text: &[u8], compositions: bool) -> Result<(), Refusal>
    ensures fine { OnOk result (IsFineSource text.now compositions) }
    ensures refused { IfErr result (λ r. IsUnfineSource text.now compositions r) }
{
    let source = parse(alloc, text)?;
    let checked = check(alloc, source)?;
    if compositions {
        return compose_each(alloc, &checked);
    }
    Ok(())
}

/// Composes each composition of a source, in their order.
///
/// # Errors
/// That of the first one that is refused, where those before it are not; or want of memory.
fn compose_each(alloc: Global, checked: &Checked) -> Result<(), Refusal>
    ensures composed { OnOk result (All (Composes (tree_of checked.now)) (compositions (tree_of checked.now))) }
    ensures refused { IfErr result (λ r. IsFirstRefused (tree_of checked.now) r) }
{
    let declarations = checked.declarations();
    for declaration in declarations {
        compose_declared(alloc, checked, declaration)?;
    }
    Ok(())
}

/// Composes what a declaration of a source declares, where that is a composition.
///
/// # Errors
/// The composition is refused; or want of memory.
fn compose_declared(
    alloc: Global,
    checked: &Checked,
    declaration: &Declaration,
) -> Result<(), Refusal>
    ensures composed { OnOk result (All (Composes (tree_of checked.now)) (compositions (declaration_of declaration.now ∷ []))) }
    ensures refused { IfErr result (λ r. (c : CompositionTree) × (compositions (declaration_of declaration.now ∷ []) ≡ c ∷ []) × IsRefusedNamed (tree_of checked.now) (Some c.name) r) }
{
    match declaration {
        Declaration::Composition(assembly) => {
            let _composition = compose(alloc, checked, Some(assembly.name.text.as_str()))?;
            Ok(())
        }
        Declaration::Type(_) | Declaration::Automaton(_) | Declaration::Invariant(_) => Ok(()),
    }
}
