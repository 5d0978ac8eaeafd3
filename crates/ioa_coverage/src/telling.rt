//! Lines that tell how often entries were performed, and arms and bodies taken.

ghost use Rattle.std.specs.Prelude.{◌≡◌, ◌++◌, OnOk};
ghost use Rattle.std.specs.List.{flat_map};
ghost use Rattle.std.specs.String.{string_bytes};
ghost use Rattle.ioa_coverage.specs.Counts.{told_row};
ghost use Rattle.ioa_coverage.specs.Effects.{place_row, told_effect, told_rows};
ghost use Rattle.ioa_coverage.specs.Taken.{line_by, row_of_entry, told_of};

use crate::coverage::Row;
use crate::effect::Effect;
use ioa_value::OutOfMemory;
use std::fmt::Write;

/// Puts the lines of these counts behind the text: of the entries that were performed and the arms and bodies that were taken, and then of those that never were.
pub(crate) fn put_counts(
    text: &mut String,
    rows: &[Row<'_>],
    effects: &[Effect<'_>],
) -> Result<(), OutOfMemory>
    ensures { OnOk result (string_bytes text.new ≡ string_bytes text.old ++ told_of (told_rows rows.now effects.now)) }
{
    put_lines(text, rows, effects, true)?;
    put_lines(text, rows, effects, false)
}

/// Puts a line for each entry, and behind it for each arm and body of its effect: of what was done, or of what never was.
fn put_lines(
    text: &mut String,
    rows: &[Row<'_>],
    effects: &[Effect<'_>],
    done: bool,
) -> Result<(), OutOfMemory>
    ensures { OnOk result (string_bytes text.new ≡ string_bytes text.old ++ flat_map (line_by done) (told_rows rows.now effects.now)) }
{
    for index in 0..rows.len() {
        let row = &rows[index];
        put_entry(text, row, done)?;
        if let Some(effect) = effects.get(index) {
            put_places(text, row, effect, done)?;
        }
    }
    Ok(())
}

/// Puts a line for each arm and body of an entry's effect.
fn put_places(
    text: &mut String,
    row: &Row<'_>,
    effect: &Effect<'_>,
    done: bool,
) -> Result<(), OutOfMemory>
    ensures { OnOk result (string_bytes text.new ≡ string_bytes text.old ++ flat_map (line_by done) (told_effect row.now effect.now)) }
{
    for index in 0..effect.labels.len() {
        if let Some(times) = effect.taken.get(index) {
            put_place(text, row, effect.labels[index].as_str(), *times, done)?;
        }
    }
    Ok(())
}

fn put_place(
    text: &mut String,
    row: &Row<'_>,
    label: &str,
    times: u64,
    done: bool,
) -> Result<(), OutOfMemory>
    ensures { OnOk result (string_bytes text.new ≡ string_bytes text.old ++ line_by done (place_row row.now label.now times)) }
{
    let component = row.member.name.as_str();
    let entry = row.entry.name.as_str();
    if done && times != 0 {
        writeln!(text, "{component}: {entry}: {label}: taken {times}")?;
    } else if !done && times == 0 {
        writeln!(text, "{component}: {entry}: {label}: never taken")?;
    }
    Ok(())
}

fn put_entry(text: &mut String, row: &Row<'_>, done: bool) -> Result<(), OutOfMemory>
    ensures { OnOk result (string_bytes text.new ≡ string_bytes text.old ++ line_by done (row_of_entry (told_row row.now))) }
{
    let component = row.member.name.as_str();
    let entry = row.entry.name.as_str();
    if done && row.times != 0 {
        let times = row.times;
        writeln!(text, "{component}: {entry}: performed {times}")?;
    } else if !done && row.times == 0 {
        writeln!(text, "{component}: {entry}: never performed")?;
    }
    Ok(())
}
