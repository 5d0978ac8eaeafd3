//! Compositions as they are printed.

ghost use Rattle.std.specs.Prelude.{◌≡◌, ◌++◌, ◌<◌, map, OnOk};
ghost use Rattle.std.specs.Option.{option_map};
ghost use Rattle.std.specs.String.{string_bytes};
ghost use Rattle.ioa_print.specs.Layout as spec;
ghost use Rattle.ioa_tree.specs.View.{name_of, expr_of, crash_of, instance_of, assembly_of};

use crate::expressions::{expression, more_expressions};
use crate::signatures::before;
use crate::types::name_list;
use crate::words::{LINE, SPACE, name, word};
use ioa_lex::Terminal;
use ioa_tree::{Assembly, Crash, Expression, Instance, Name};
use ioa_value::OutOfMemory;

fn arguments(text: &mut String, arguments: &[Expression]) -> Result<(), OutOfMemory>
    ensures { OnOk result (string_bytes text.new ≡ string_bytes text.old ++ spec.text_parens (spec.text_expr spec.space) (map expr_of arguments.now)) }
{
    let Some((first, more)) = arguments.split_first() else {
        return Ok(());
    };
    word(text, Terminal::Open, SPACE)?;
    expression(text, first, SPACE)?;
    more_expressions(text, more)?;
    word(text, Terminal::Close, LINE)
}

/// Writes by which actions a component crashes and recovers, or nothing.
fn crash(text: &mut String, crash: &Option<Crash>) -> Result<(), OutOfMemory>
    ensures { OnOk result (string_bytes text.new ≡ string_bytes text.old ++ spec.text_crash (option_map crash_of crash.now)) }
{
    match crash {
        None => Ok(()),
        Some(names) => {
            word(text, Terminal::Crash, SPACE)?;
            name(text, &names.crash, SPACE)?;
            word(text, Terminal::Recover, SPACE)?;
            name(text, &names.recover, LINE)
        }
    }
}

fn instance(text: &mut String, instance: &Instance) -> Result<(), OutOfMemory>
    ensures { OnOk result (string_bytes text.new ≡ string_bytes text.old ++ spec.text_instance (instance_of instance.now)) }
{
    name(text, &instance.name, SPACE)?;
    word(text, Terminal::Colon, SPACE)?;
    name(text, &instance.automaton, before(&instance.arguments))?;
    arguments(text, &instance.arguments)?;
    crash(text, &instance.crash)
}

fn more_instances(text: &mut String, instances: &[Instance]) -> Result<(), OutOfMemory>
    ensures { OnOk result (string_bytes text.new ≡ string_bytes text.old ++ spec.text_more Terminal.Semicolon spec.text_instance (map instance_of instances.now)) }
{
    for each in instances {
        word(text, Terminal::Semicolon, SPACE)?;
        instance(text, each)?;
    }
    Ok(())
}

fn instances(text: &mut String, instances: &[Instance]) -> Result<(), OutOfMemory>
    ensures { OnOk result (string_bytes text.new ≡ string_bytes text.old ++ spec.text_list Terminal.Semicolon spec.text_instance (map instance_of instances.now)) }
{
    let Some((first, more)) = instances.split_first() else {
        return Ok(());
    };
    instance(text, first)?;
    more_instances(text, more)
}

fn hidden(text: &mut String, names: &[Name]) -> Result<(), OutOfMemory>
    ensures { OnOk result (string_bytes text.new ≡ string_bytes text.old ++ spec.text_hidden (map name_of names.now)) }
{
    if names.is_empty() {
        return Ok(());
    }
    word(text, Terminal::Hidden, SPACE)?;
    name_list(text, names, LINE)
}

/// Writes what stands after the word `composition`.
pub(crate) fn composition(text: &mut String, composition: &Assembly) -> Result<(), OutOfMemory>
    ensures { OnOk result (string_bytes text.new ≡ string_bytes text.old ++ spec.text_composition (assembly_of composition.now)) }
{
    name(text, &composition.name, SPACE)?;
    word(text, Terminal::Components, LINE)?;
    instances(text, &composition.instances)?;
    hidden(text, &composition.hidden)
}
