//! Tables as texts. A row is a line, and its columns are parted by `|` between two spaces. Blank lines, and those that
//! begin with `-- `, are no rows.
//!
//! A column is a text in pieces, parted by `&`. A piece with `@` stands as many times as the number after it tells, and `#`
//! in it is the number of its turn, from 0. `^` is LF.

use std::alloc::{AllocError, AllocFailed, Global};
use thiserror::Error;

/// Why no text is made of a column: memory is wanted, or what stands after `@` is no number.
#[derive(Clone, Copy, Debug, PartialEq, Eq, Error)]
pub enum RowErr {
    #[error("memory")]
    OutOfMemory,
    #[error("no number")]
    NoNumber,
}

impl From<AllocError> for RowErr {
    fn from(_error: AllocError) -> RowErr {
        RowErr::OutOfMemory
    }
}

impl<T: Drop> From<AllocFailed<T>> for RowErr {
    fn from(_error: AllocFailed<T>) -> RowErr {
        RowErr::OutOfMemory
    }
}

/// Whether a line of a table is a row.
pub fn is_row(line: &str) -> bool {
    !line.is_empty() && !line.starts_with("-- ")
}

/// The columns of a row, as they are meant.
pub fn columns(alloc: Global, row: &str) -> Result<Vec<String>, RowErr> {
    let mut columns = Vec::new(alloc);
    for column in row.split(" | ") {
        columns.push(text(alloc, column)?)?;
    }
    Ok(columns)
}

/// The column of this number; it is empty where the row has fewer.
pub fn column(columns: &[String], number: usize) -> &str {
    match columns.get(number) {
        Some(column) => column.as_str(),
        None => "",
    }
}

/// The text in these pieces.
pub fn text(alloc: Global, pieces: &str) -> Result<String, RowErr> {
    let mut text = String::new(alloc);
    for piece in pieces.split("&") {
        let (part, times) = piece.split_once("@").unwrap_or((piece, "1"));
        for turn in 0..number(times)? {
            push_turn(&mut text, part, turn)?;
        }
    }
    Ok(text)
}

/// The number that is written so.
fn number(digits: &str) -> Result<usize, RowErr> {
    match digits.parse::<usize>() {
        Ok(number) => Ok(number),
        Err(_) => Err(RowErr::NoNumber),
    }
}

fn push_turn(text: &mut String, part: &str, turn: usize) -> Result<(), AllocError> {
    for letter in part.chars() {
        match letter {
            '#' => write!(text, "{turn}")?,
            '^' => text.push('\n')?,
            _ => text.push(letter)?,
        }
    }
    Ok(())
}
