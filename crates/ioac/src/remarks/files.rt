//! Which file could not be read or written, and what is wrong with it.

use crate::remarks::places::{files_of, out_of};
use ioa_request::Request;
use ioa_serving::{LOG_MARK, OBJECT_MARK, Store, StoreErr, gives_way};
use ioa_value::OutOfMemory;
use std::alloc::Global;
use std::fmt::Write;

/// Puts behind the text which of a request's files cannot be read, or else which could not be written.
pub fn put<F: Store>(
    alloc: Global,
    text: &mut String,
    asked: &Request<'_>,
    store: &F,
) -> Result<(), OutOfMemory> {
    for file in files_of(asked) {
        if let Some(name) = file {
            if put_unread(alloc, text, name, store)? {
                return Ok(());
            }
        }
    }
    if let Some(name) = out_of(asked) {
        put_unwritten(alloc, text, asked, name, store)?;
    }
    Ok(())
}

/// Puts why an object, or a log, was not put in a file.
fn put_unwritten<F: Store>(
    alloc: Global,
    text: &mut String,
    asked: &Request<'_>,
    name: &str,
    store: &F,
) -> Result<(), OutOfMemory> {
    let found = store.beginning(alloc, name)?;
    let (kind, gives_way) = match asked {
        Request::Seeds(_) => ("log", gives_way(&LOG_MARK, &found)),
        _ => ("object", gives_way(&OBJECT_MARK, &found)),
    };
    if gives_way {
        writeln!(
            text,
            "{name} was not written: it is no file, {name}.part is there already, or the system refuses"
        )?;
    } else {
        writeln!(text, "{name} is there and is no {kind}")?;
    }
    Ok(())
}

/// Puts what is wrong with a file, and answers whether something is.
fn put_unread<F: Store>(
    alloc: Global,
    text: &mut String,
    name: &str,
    store: &F,
) -> Result<bool, OutOfMemory> {
    match store.load(alloc, name) {
        Ok(_) => Ok(false),
        Err(StoreErr::OutOfMemory) => Err(OutOfMemory),
        Err(StoreErr::Io) => {
            put_complaint(alloc, text, name, store)?;
            Ok(true)
        }
    }
}

fn put_complaint<F: Store>(
    alloc: Global,
    text: &mut String,
    name: &str,
    store: &F,
) -> Result<(), OutOfMemory> {
    match store.complaint(alloc, name) {
        Ok(Some(complaint)) => writeln!(text, "{name} was not read: {complaint}")?,
        Ok(None) | Err(_) => writeln!(text, "{name} was not read")?,
    }
    Ok(())
}
