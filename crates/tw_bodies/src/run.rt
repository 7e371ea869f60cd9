// Reading operations of versions one task at a time.
ghost use Rattle.std.specs.Prelude.{◌≡◌, ◌<◌, List, ℕ, Some, true, IfOk, IfErr};
ghost use Rattle.tw_model.specs.declared.SyncOp.{SyncOp as AnySyncOp};
ghost use Rattle.tw_bodies.specs.Reading.{sync_op_at};
ghost use Rattle.tw_bodies.specs.Runs.{goes_on, ReadsRun};
ghost use Rattle.tw_fields.specs.Reading.{Fails, many_at};

use crate::room::room_for;
use crate::sync_op::read_sync_op;
use std::alloc::Global;
use tw_fields::{ReadError, uuid_from};
use tw_model::SyncOp;

// A run has at most so many operations: one task may have many.
const AT_ONCE: usize = 256;

// For how many operations of a run room is made at first.
const AT_FIRST: u32 = 8;

// Whether bytes begin with those of an update of the task that an operation leaves.
fn goes_on(first: &SyncOp, bytes: &[u8]) -> bool
    ensures { result ≡ true → (read : AnySyncOp × List ℕ) → sync_op_at bytes.now ≡ Some read → goes_on first.now read.0 ≡ true }
{
    if bytes.len() < 17 || bytes[0] != 3 {
        return false;
    }
    match first {
        SyncOp::Create { uuid } => uuid_from(bytes, 1) == *uuid,
        SyncOp::Delete { .. } => false,
        SyncOp::Update { uuid, .. } => uuid_from(bytes, 1) == *uuid,
    }
}

/// One operation and those after it that update the task which it leaves, how many are left, and the bytes after them.
pub fn read_run(
    alloc: Global,
    count: u32,
    bytes: &[u8],
) -> Result<(Vec<SyncOp>, u32, &[u8]), ReadError>
    requires { 0 < count }
    ensures read { IfOk result (λ x. ReadsRun count bytes.now x.0.items x.1 x.2.now) }
    ensures refused { IfErr result (λ e. Fails e (many_at sync_op_at count bytes.now)) }
{
    let (first, after) = read_sync_op(alloc, bytes)?;
    let mut ops = Vec::with_capacity(alloc, room_for(count.min(AT_FIRST), bytes))?;
    ops.push(first)?;
    let mut left = count - 1;
    let mut rest = after;
    while left > 0 && ops.len() < AT_ONCE && goes_on(&ops[0], rest) {
        let (op, after) = read_sync_op(alloc, rest)?;
        ops.push(op)?;
        left -= 1;
        rest = after;
    }
    Ok((ops, left, rest))
}
