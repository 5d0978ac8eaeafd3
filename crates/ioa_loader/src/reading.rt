//! Bytes as programs.

ghost use Rattle.std.specs.Prelude.{◌≡◌, ◌↔◌, IfOk, IfErr, IsErrOf};
ghost use Rattle.ioa_bytes.specs.declared.failure.ObjErr.{ObjErr};
ghost use Rattle.ioa_compile.specs.Programs.{Prog};
ghost use Rattle.ioa_object.specs.Objects.{IsObject};
ghost use Rattle.ioa_object.specs.Refusals.{HasNoMark, HasUnknownVersion, HasOtherVersion, GoesOn, IsCut, IsRefused, IsRefusal};

use ioa_bytes::{Cursor, ObjErr};
use ioa_compile::{Program, TableErr};
use ioa_object::{MARK, is_marked, is_needless, read_tables, version_of};
use std::alloc::Global;

/// The program whose object the bytes are. Its code is verified.
///
/// Whatever their numbers say, no more memory is taken than a fixed multiple of the bytes that are there for each level to which types are
/// declared over one another (at most 1,024): of a value the bytes tell only what is innermost, and it takes memory for each type around that.
/// Besides, each component's start state takes all the words of its variables' types.
///
/// # Errors
/// - `Magic`, exactly where the first four bytes are not all there, or are others.
/// - `Version`, exactly where they are, and behind them a byte that is no version's; or where the bytes are all of a program
///   without loops, but under version 2: it has one object, which is under version 1.
/// - `Truncated`, where the bytes end inside an item, and so where they are a beginning of an object, of four bytes or more.
/// - `BadTable`, where a tag, a number, a name or a payload may not stand in its place: the first byte of it.
/// - `BadCode`, where a part of code is not valid: the part's number, and the first place at which it is not, or which has an unknown
///   instruction, as those of loops are under version 1.
/// - `Clash`, where all this is right, and two components clash.
/// - `Trailing`, exactly where a program under one of the versions ends before the bytes do.
/// - `OutOfMemory`.
pub fn read_object(alloc: Global, bytes: &[u8]) -> Result<Program, ObjErr>
    ensures found { IfOk result (IsObject bytes.now) }
    ensures only { (p : Prog) → IsObject bytes.now p → IfErr result (λ e. e ≡ ObjErr.OutOfMemory) }
    ensures magic { IsErrOf result ObjErr.Magic ↔ HasNoMark bytes.now }
    ensures unknown { HasUnknownVersion bytes.now → IsErrOf result ObjErr.Version }
    ensures version { (IsErrOf result ObjErr.Version → HasOtherVersion bytes.now) × (HasOtherVersion bytes.now → IsRefusal result ObjErr.Version) }
    ensures cut { IsCut bytes.now → IsRefusal result ObjErr.Truncated }
    ensures trailing { GoesOn bytes.now → IsRefusal result ObjErr.Trailing }
    ensures refused { IfErr result (IsRefused bytes.now) }
{
    if !is_marked(bytes) {
        return Err(ObjErr::Magic);
    }
    let mut cursor = Cursor::new(alloc, bytes, MARK.len());
    let loops = match version_of(cursor.byte()?) {
        Some(loops) => loops,
        None => return Err(ObjErr::Version),
    };
    let tables = read_tables(&mut cursor, loops)?;
    let program = match Program::from_right(alloc, tables) {
        Ok(program) => program,
        Err(TableErr::Clash(..)) => return Err(ObjErr::Clash),
        Err(TableErr::OutOfMemory) => return Err(ObjErr::OutOfMemory),
        Err(TableErr::Table) => unreachable!(),
    };
    let members = program.members();
    if cursor.left() > 0 {
        return Err(ObjErr::Trailing);
    }
    if is_needless(loops, members) {
        return Err(ObjErr::Version);
    }
    Ok(program)
}
