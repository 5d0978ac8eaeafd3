//! Parts of code, which are verified.

ghost use Rattle.std.specs.Prelude.{◌≡◌, ◌<◌, OnOk, map};
ghost use Rattle.ioa_value.specs.Plain.{number, plain};
ghost use Rattle.ioa_value.specs.Typing.{OwnTypes};
ghost use Rattle.ioa_object.specs.Reading as spec;
ghost use Rattle.ioa_bytes.specs.Items.{ReadsItem};

use crate::instructions::instruction;
use ioa_bytes::{Cursor, ObjErr};
use ioa_code::{Code, CodeErr, Env, Instr, verify};
use ioa_decode::decode_code;
use ioa_node::Decoded;
use ioa_tree::Kind;
use ioa_value::{Value, copies};
use ioa_words::Layout;

/// The part of an entry that an input has not.
#[tactic(auto, unfolding(crate::specs::Reading::local_at))]
pub(crate) fn local_part(
    cursor: &mut Cursor<'_>,
    loops: bool,
    kind: Kind,
    layout: &Layout,
    consts: &[Value],
    env: &Env<'_>,
) -> Result<Option<Decoded>, ObjErr>
    requires layout { layout.now ≡ env.now.types.now }
    requires typed { OwnTypes env.now.types.now (map plain consts.now) }
    ensures { ReadsItem (λ part. part) (spec.local_at kind (spec.part_at loops env.now.types.now (map number env.now.slots.now) (map plain consts.now) env.now.kind (map number env.now.arguments.now) (map number env.now.result.now)) cursor.old) result cursor.new }
{
    match kind {
        Kind::Input => Ok(None),
        Kind::Output | Kind::Internal => Ok(Some(part(cursor, loops, layout, consts, env)?)),
    }
}

/// A part of code over these constants, in which loops may stand or not, verified and decoded.
#[tactic(auto, unfolding(crate::specs::Reading::part_at))]
pub(crate) fn part(
    cursor: &mut Cursor<'_>,
    loops: bool,
    layout: &Layout,
    consts: &[Value],
    env: &Env<'_>,
) -> Result<Decoded, ObjErr>
    requires layout { layout.now ≡ env.now.types.now }
    requires typed { OwnTypes env.now.types.now (map plain consts.now) }
    ensures { ReadsItem (λ v. v) (spec.part_at loops env.now.types.now (map number env.now.slots.now) (map plain consts.now) env.now.kind (map number env.now.arguments.now) (map number env.now.result.now) cursor.old) result cursor.new }
{
    let alloc = cursor.alloc();
    let instrs = instructions(cursor, loops)?;
    let code = Code {
        instrs,
        consts: copies(alloc, consts)?,
    };
    match verify(alloc, code, env) {
        Ok(verified) => {
            let decoded = decode_code(alloc, layout, verified)?;
            cursor.count_part();
            Ok(decoded)
        }
        Err(CodeErr::Bad { at, .. }) => Err(ObjErr::BadCode(cursor.parts(), at)),
        Err(CodeErr::OutOfMemory) => Err(ObjErr::OutOfMemory),
    }
}

/// The instructions of a part.
#[tactic(auto, unfolding(crate::specs::Reading::instrs_at))]
fn instructions(cursor: &mut Cursor<'_>, loops: bool) -> Result<Vec<Instr>, ObjErr>
    ensures read { ReadsItem (λ v. v.items) (spec.instrs_at loops cursor.old) result cursor.new }
    ensures further { OnOk result ((cursor.old.place < cursor.new.place) × (cursor.new.parts ≡ cursor.old.parts)) }
{
    let part = cursor.parts();
    let count = cursor.short()? as usize;
    let mut found = Vec::new(cursor.alloc());
    for _ in 0..count {
        found.push(instruction(cursor, loops, part, &found)?)?;
    }
    Ok(found)
}
