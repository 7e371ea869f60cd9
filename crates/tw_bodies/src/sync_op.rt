// Reading and writing the operations that a sync brought.
ghost use Rattle.std.specs.Prelude.{◌≡◌, ◌++◌, ◌∷◌, IfOk, OnOk, IfSome};
ghost use Rattle.std.specs.List.{flat_map, AllByRecursion};
ghost use Rattle.tw_bodies.specs.Body.{sync_op_bytes, sync_update_bytes, body_of, IsSyncOp, IsStep};
ghost use Rattle.tw_fields.specs.Fields.{IsText, IsUuid};
ghost use Rattle.tw_bodies.specs.Body.Step.{Sync};
ghost use Rattle.tw_bodies.specs.Views.{IsRead};
ghost use Rattle.tw_bodies.specs.Reading.{sync_create_at, sync_delete_at, sync_update_at, sync_op_at, sync_of, carried_of};
ghost use Rattle.tw_fields.specs.Reading.{Gives, many_at};

use crate::room::room_for;
use crate::step::Read;
use std::alloc::Global;
use tw_fields::{
    ReadError, put_count, put_moment, put_option, put_text, put_uuid, read_moment, read_option,
    read_text, read_uuid, u32_at,
};
use tw_model::SyncOp;
use tw_world::{Memory, Moment, Text};
use uuid::Uuid;

#[tactic(auto, unfolding(crate::specs::Reading::sync_create_at))]
fn read_create(bytes: &[u8]) -> Result<(SyncOp, &[u8]), ReadError>
    ensures { Gives (λ x. (x.0, x.1.now)) result (sync_create_at bytes.now) }
{
    let (uuid, rest) = read_uuid(bytes)?;
    let uuid = Uuid::from_bytes(uuid);
    Ok((SyncOp::Create { uuid }, rest))
}

#[tactic(auto, unfolding(crate::specs::Reading::sync_delete_at))]
fn read_delete(bytes: &[u8]) -> Result<(SyncOp, &[u8]), ReadError>
    ensures { Gives (λ x. (x.0, x.1.now)) result (sync_delete_at bytes.now) }
{
    let (uuid, rest) = read_uuid(bytes)?;
    let uuid = Uuid::from_bytes(uuid);
    Ok((SyncOp::Delete { uuid }, rest))
}

#[tactic(auto, unfolding(crate::specs::Reading::sync_update_at))]
fn read_update(alloc: Global, bytes: &[u8]) -> Result<(SyncOp, &[u8]), ReadError>
    ensures { Gives (λ x. (x.0, x.1.now)) result (sync_update_at bytes.now) }
{
    let (uuid, rest) = read_uuid(bytes)?;
    let (property, rest) = read_text(alloc, rest)?;
    let (value, rest) = read_option(alloc, rest)?;
    let (at, rest) = read_moment(rest)?;
    Ok((
        SyncOp::Update {
            uuid: Uuid::from_bytes(uuid),
            property,
            value,
            at,
        },
        rest,
    ))
}

#[tactic(auto, unfolding(crate::specs::Reading::sync_op_at))]
pub(crate) fn read_sync_op(alloc: Global, bytes: &[u8]) -> Result<(SyncOp, &[u8]), ReadError>
    ensures { Gives (λ x. (x.0, x.1.now)) result (sync_op_at bytes.now) }
{
    match bytes {
        [1, rest @ ..] => read_create(rest),
        [2, rest @ ..] => read_delete(rest),
        [3, rest @ ..] => read_update(alloc, rest),
        _ => Err(ReadError::Malformed),
    }
}

/// So many operations, and the bytes after them.
pub fn read_sync_ops(
    alloc: Global,
    count: u32,
    bytes: &[u8],
) -> Result<(Vec<SyncOp>, &[u8]), ReadError>
    ensures { Gives (λ x. (x.0.items, x.1.now)) result (many_at sync_op_at count bytes.now) }
{
    let mut ops = Vec::with_capacity(alloc, room_for(count, bytes))?;
    let mut rest = bytes;
    for _ in 0..count {
        let (op, after) = read_sync_op(alloc, rest)?;
        ops.push(op)?;
        rest = after;
    }
    Ok((ops, rest))
}

/// What a sync brought, of the body after its first byte. The operations are not read yet.
#[tactic(auto, unfolding(crate::specs::Reading::sync_of))]
pub(crate) fn read_sync(bytes: &[u8]) -> Result<Read<'_>, ReadError>
    ensures { IsRead result (sync_of bytes.now) }
{
    let (base, rest) = read_uuid(bytes)?;
    let (count, ops) = u32_at(rest)?;
    Ok(Read::Sync { base, count, ops })
}

/// What a sync in place brought, of the body after its first byte. The operations are not read yet.
#[tactic(auto, unfolding(crate::specs::Reading::carried_of))]
pub(crate) fn read_carried(bytes: &[u8]) -> Result<Read<'_>, ReadError>
    ensures { IsRead result (carried_of bytes.now) }
{
    let (base, rest) = read_uuid(bytes)?;
    let (count, ops) = u32_at(rest)?;
    Ok(Read::Carried { base, count, ops })
}

fn put_update(
    out: &mut Vec<u8>,
    uuid: &Uuid,
    property: &Text,
    value: &Option<Text>,
    at: &Moment,
) -> Result<(), Memory>
    ensures put { OnOk result (out.new.items ≡ out.old.items ++ sync_update_bytes uuid.now property.now value.now at.now) }
    ensures is { OnOk result (IsUuid uuid.now × IsText property.now × IfSome value.now IsText) }
{
    out.push(3)?;
    put_uuid(out, uuid)?;
    put_text(out, property.as_str())?;
    put_option(out, value)?;
    put_moment(out, at)
}

pub(crate) fn put_sync_op(out: &mut Vec<u8>, op: &SyncOp) -> Result<(), Memory>
    ensures put { OnOk result (out.new.items ≡ out.old.items ++ sync_op_bytes op.now) }
    ensures is { OnOk result (IsSyncOp op.now) }
{
    match op {
        SyncOp::Create { uuid } => {
            out.push(1)?;
            put_uuid(out, uuid)
        }
        SyncOp::Delete { uuid } => {
            out.push(2)?;
            put_uuid(out, uuid)
        }
        SyncOp::Update {
            uuid,
            property,
            value,
            at,
        } => put_update(out, uuid, property, value, at),
    }
}

pub(crate) fn put_sync_ops(out: &mut Vec<u8>, ops: &Vec<SyncOp>) -> Result<(), Memory>
    ensures put { OnOk result (out.new.items ≡ out.old.items ++ flat_map sync_op_bytes ops.now.items) }
    ensures is { OnOk result (AllByRecursion IsSyncOp ops.now.items) }
{
    for op in ops {
        put_sync_op(out, op)?;
    }
    Ok(())
}

/// The body of a sync's record.
pub fn sync_body(alloc: Global, base: &Uuid, ops: &Vec<SyncOp>) -> Result<Vec<u8>, Memory>
    ensures body { IfOk result (λ body. body.items ≡ body_of (Sync base.now ops.now.items)) }
    ensures is { OnOk result (IsStep (Sync base.now ops.now.items)) }
{
    let mut body = Vec::new(alloc);
    body.push(3)?;
    put_uuid(&mut body, base)?;
    put_count(&mut body, ops.len())?;
    put_sync_ops(&mut body, ops)?;
    Ok(body)
}
