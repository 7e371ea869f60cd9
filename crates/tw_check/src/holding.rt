// What is told of a journal of tasks.
ghost use Rattle.std.specs.Prelude.{◌≡◌, IfOk, IfErr};
ghost use Rattle.tw_model.specs.LocalOps.{take_back_all};
ghost use Rattle.tw_replica.specs.Replica.{held_state};
ghost use Rattle.tw_check.specs.Cause.{IsCause};
ghost use Rattle.tw_check.specs.Look.{IsHeld, IsHeldBy, digest_of, update_in, last_update};

use crate::error::CheckError;
use crate::opening::replica_of;
use sha1::Sha1;
use std::alloc::Global;
use tw_model::{Op, Tasks};
use tw_replica::Replica;
use tw_snapshot::write_snapshot;
use tw_state::take_back_from;
use tw_world::{Memory, Moment};
use uuid::Uuid;

/// What a journal of tasks holds.
#[derive(Drop)]
pub struct Held {
    /// How many tasks there are.
    pub tasks: u64,
    /// The version of the server that the tasks before the pending operations are those of; nil before the first sync.
    pub base: Uuid,
    /// How many operations no server has seen yet, undo points with them.
    pub pending: u64,
    /// The moment of the last pending update.
    pub changed: Option<Moment>,
    /// The SHA-1 of the snapshot of the tasks before the pending operations. `None` if that would have more than 16,777,216 bytes.
    pub digest: Option<[u8; 20]>,
}

/// Opens a copy of the bytes, and tells what it holds. Two journals with the same base and digest agree on the tasks there.
/// It takes at least twice the bytes in memory.
pub fn look(alloc: Global, file: &[u8]) -> Result<Held, CheckError>
    ensures held { IfOk result (IsHeld file.now) }
    ensures refused { IfErr result (IsCause file.now) }
{
    let replica = replica_of(alloc, file)?;
    match held_by(alloc, &replica) {
        Ok(held) => Ok(held),
        Err(Memory) => Err(CheckError::Memory),
    }
}

// What a replica holds.
fn held_by(alloc: Global, replica: &Replica) -> Result<Held, Memory>
    ensures { IfOk result (IsHeldBy (held_state replica.now)) }
{
    let ops = replica.pending().ops(alloc)?;
    let digest = digest_before(alloc, replica.tasks(), &ops)?;
    Ok(Held {
        tasks: replica.tasks().len(),
        base: replica.base(),
        pending: ops.len() as u64,
        changed: last_update(&ops),
        digest,
    })
}

// The digest of the tasks before these operations.
fn digest_before(alloc: Global, tasks: &Tasks, ops: &Vec<Op>) -> Result<Option<[u8; 20]>, Memory>
    ensures { IfOk result (λ digest. digest ≡ digest_of (take_back_all tasks.now ops.now.items)) }
{
    let mut before = tasks.copy(alloc)?;
    take_back_from(alloc, &mut before, ops, 0)?;
    match write_snapshot(alloc, &before)? {
        Some(text) => Ok(Some(Sha1::digest(&text))),
        None => Ok(None),
    }
}

// The moment of the last update among operations.
fn last_update(ops: &Vec<Op>) -> Option<Moment>
    ensures { result ≡ last_update ops.now.items }
{
    let mut last = None;
    for n in 0..ops.len() {
        last = update_in(&ops[n], last);
    }
    last
}

// The moment of an operation that is an update, or else that of the last update before it.
fn update_in(op: &Op, before: Option<Moment>) -> Option<Moment>
    ensures { result ≡ update_in before op.now }
{
    match op {
        Op::Update {
            uuid: _,
            property: _,
            before: _,
            after: _,
            at,
        } => Some(*at),
        _ => before,
    }
}
