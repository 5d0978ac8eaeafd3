//! Versions of the format. Version 2 has the instructions of loops, version 1 has not: a program is
//! written under version 2 exactly where some part of its code has one, so that it has one object.

ghost use Rattle.std.specs.Prelude.{◌≡◌, map};
ghost use Rattle.std.specs.List.{list_any};
ghost use Rattle.ioa_code.specs.Loops.{of_loops};
ghost use Rattle.ioa_compile.specs.Shown.{entry_code, member_code};
ghost use Rattle.ioa_object.specs.Versions as spec;

use ioa_code::{Instr, Verified};
use ioa_compile::{Entry, Member};
use ioa_node::Decoded;

/// The byte of the version that has the instructions of loops, or of the one that has not.
pub(crate) fn version_byte(loops: bool) -> u8
    ensures { result ≡ spec.version_byte loops }
{
    if loops { 2 } else { 1 }
}

/// Whether loops may stand under the version of this byte, if it is a version's.
pub fn version_of(byte: u8) -> Option<bool>
    ensures { result ≡ spec.version_of byte }
{
    match byte {
        1 => Some(false),
        2 => Some(true),
        _ => None,
    }
}

/// Whether some part of the components' code has an instruction of loops.
pub(crate) fn have_loops(members: &[Member]) -> bool
    ensures { result ≡ list_any spec.member_loops (map member_code members.now) }
{
    for member in members {
        if entries_loop(&member.entries) {
            return true;
        }
    }
    false
}

/// Whether loops may stand, and the components' code has none.
pub fn is_needless(loops: bool, members: &[Member]) -> bool
    ensures { result ≡ spec.is_needless loops (list_any spec.member_loops (map member_code members.now)) }
{
    loops && !have_loops(members)
}

fn entries_loop(entries: &[Entry]) -> bool
    ensures { result ≡ list_any spec.entry_loops (map entry_code entries.now) }
{
    for entry in entries {
        if entry_loops(entry) {
            return true;
        }
    }
    false
}

fn entry_loops(entry: &Entry) -> bool
    ensures { result ≡ spec.entry_loops (entry_code entry.now) }
{
    local_loops(&entry.pre) || local_loops(&entry.propose) || part_loops(entry.effect.code())
}

fn local_loops(part: &Option<Decoded>) -> bool
    ensures { result ≡ spec.local_loops part.now }
{
    match part {
        Some(part) => part_loops(part.code()),
        None => false,
    }
}

fn part_loops(part: &Verified) -> bool
    ensures { result ≡ spec.part_loops part.now }
{
    for instr in part.instrs() {
        if is_of_loops(*instr) {
            return true;
        }
    }
    false
}

fn is_of_loops(instr: Instr) -> bool
    ensures { result ≡ of_loops instr }
{
    match instr {
        Instr::Each(_) | Instr::Again(_) | Instr::Local(_) => true,
        _ => false,
    }
}
