// Reading and writing the operations of a commit.
ghost use Rattle.std.specs.Prelude.{◌≡◌, ◌++◌, ◌∷◌, OnOk, IfSome};
ghost use Rattle.std.specs.List.{flat_map, AllByRecursion};
ghost use Rattle.tw_bodies.specs.Body.{task_bytes, op_bytes, update_bytes, IsTask, IsOp};
ghost use Rattle.tw_bodies.specs.Reading.{create_at, delete_at, update_at, op_at};
ghost use Rattle.tw_fields.specs.Fields.{IsText, IsUuid};
ghost use Rattle.tw_fields.specs.Reading.{Gives, many_at};

use crate::room::room_for;
use crate::task::{put_task, read_task};
use std::alloc::Global;
use tw_fields::{
    ReadError, put_moment, put_option, put_text, put_uuid, read_moment, read_option, read_text,
    read_uuid,
};
use tw_model::{Op, TaskMap};
use tw_world::{Memory, Moment, Text};
use uuid::Uuid;

#[tactic(auto, unfolding(crate::specs::Reading::create_at))]
fn read_create(bytes: &[u8]) -> Result<(Op, &[u8]), ReadError>
    ensures { Gives (λ x. (x.0, x.1.now)) result (create_at bytes.now) }
{
    let (uuid, rest) = read_uuid(bytes)?;
    let uuid = Uuid::from_bytes(uuid);
    Ok((Op::Create { uuid }, rest))
}

#[tactic(auto, unfolding(crate::specs::Reading::delete_at))]
fn read_delete(alloc: Global, bytes: &[u8]) -> Result<(Op, &[u8]), ReadError>
    ensures { Gives (λ x. (x.0, x.1.now)) result (delete_at bytes.now) }
{
    let (uuid, rest) = read_uuid(bytes)?;
    let (before, rest) = read_task(alloc, rest)?;
    let uuid = Uuid::from_bytes(uuid);
    Ok((Op::Delete { uuid, before }, rest))
}

#[tactic(auto, unfolding(crate::specs::Reading::update_at))]
fn read_update(alloc: Global, bytes: &[u8]) -> Result<(Op, &[u8]), ReadError>
    ensures { Gives (λ x. (x.0, x.1.now)) result (update_at bytes.now) }
{
    let (uuid, rest) = read_uuid(bytes)?;
    let (property, rest) = read_text(alloc, rest)?;
    let (before, rest) = read_option(alloc, rest)?;
    let (after, rest) = read_option(alloc, rest)?;
    let (at, rest) = read_moment(rest)?;
    Ok((
        Op::Update {
            uuid: Uuid::from_bytes(uuid),
            property,
            before,
            after,
            at,
        },
        rest,
    ))
}

#[tactic(auto, unfolding(crate::specs::Reading::op_at))]
pub fn read_op(alloc: Global, bytes: &[u8]) -> Result<(Op, &[u8]), ReadError>
    ensures { Gives (λ x. (x.0, x.1.now)) result (op_at bytes.now) }
{
    match bytes {
        [1, rest @ ..] => read_create(rest),
        [2, rest @ ..] => read_delete(alloc, rest),
        [3, rest @ ..] => read_update(alloc, rest),
        [4, rest @ ..] => Ok((Op::UndoPoint, rest)),
        _ => Err(ReadError::Malformed),
    }
}

pub(crate) fn read_ops(
    alloc: Global,
    count: u32,
    bytes: &[u8],
) -> Result<(Vec<Op>, &[u8]), ReadError>
    ensures { Gives (λ x. (x.0.items, x.1.now)) result (many_at op_at count bytes.now) }
{
    let mut ops = Vec::with_capacity(alloc, room_for(count, bytes))?;
    let mut rest = bytes;
    for _ in 0..count {
        let (op, after) = read_op(alloc, rest)?;
        ops.push(op)?;
        rest = after;
    }
    Ok((ops, rest))
}

fn put_delete(out: &mut Vec<u8>, uuid: &Uuid, before: &TaskMap) -> Result<(), Memory>
    ensures put { OnOk result (out.new.items ≡ out.old.items ++ 2 ∷ (uuid.now ++ task_bytes before.now)) }
    ensures is { OnOk result (IsUuid uuid.now × IsTask before.now) }
{
    out.push(2)?;
    put_uuid(out, uuid)?;
    put_task(out, before)
}

fn put_update(
    out: &mut Vec<u8>,
    uuid: &Uuid,
    property: &Text,
    before: &Option<Text>,
    after: &Option<Text>,
    at: &Moment,
) -> Result<(), Memory>
    ensures put { OnOk result (out.new.items ≡ out.old.items ++ update_bytes uuid.now property.now before.now after.now at.now) }
    ensures is { OnOk result (IsUuid uuid.now × IsText property.now × IfSome before.now IsText × IfSome after.now IsText) }
{
    out.push(3)?;
    put_uuid(out, uuid)?;
    put_text(out, property.as_str())?;
    put_option(out, before)?;
    put_option(out, after)?;
    put_moment(out, at)
}

fn put_op(out: &mut Vec<u8>, op: &Op) -> Result<(), Memory>
    ensures put { OnOk result (out.new.items ≡ out.old.items ++ op_bytes op.now) }
    ensures is { OnOk result (IsOp op.now) }
{
    match op {
        Op::Create { uuid } => {
            out.push(1)?;
            put_uuid(out, uuid)
        }
        Op::Delete { uuid, before } => put_delete(out, uuid, before),
        Op::Update {
            uuid,
            property,
            before,
            after,
            at,
        } => put_update(out, uuid, property, before, after, at),
        Op::UndoPoint => {
            out.push(4)?;
            Ok(())
        }
    }
}

pub(crate) fn put_ops(out: &mut Vec<u8>, ops: &Vec<Op>) -> Result<(), Memory>
    ensures put { OnOk result (out.new.items ≡ out.old.items ++ flat_map op_bytes ops.now.items) }
    ensures is { OnOk result (AllByRecursion IsOp ops.now.items) }
{
    for op in ops {
        put_op(out, op)?;
    }
    Ok(())
}
