// Records of syncs that leave the tasks at hand in place, and of those that were cut short.
ghost use Rattle.std.specs.Prelude.{◌≡◌, true, IfOk};
ghost use Rattle.tw_model.specs.Ops.{TasksValue};
ghost use Rattle.tw_state.specs.State.{may_pend};

use super::{ADDED, Counts, counts, disk_of, milk, opened, refusal, undone, version};
use std::alloc::Global;
use std::test::Fail;
use tw_bodies::SyncOps;
use tw_model::{Op, SyncOp};
use tw_replica::{OpenError, Replica, ReplicaError, UndoError};
use tw_world::Memory;
use uuid::Uuid;

// The record of a sync to version 9 that carried nothing: its body has 21 bytes.
pub(super) const NOTHING: [u8; 26] = [
    1, 0, 0, 0, 21, 4, 9, 9, 9, 9, 9, 9, 9, 9, 9, 9, 9, 9, 9, 9, 9, 9, 0, 0, 0, 0,
];

// The record of one that carried another task, and that the milk is gone.
const CARRIED: [u8; 60] = [
    1, 0, 0, 0, 55, 4, 9, 9, 9, 9, 9, 9, 9, 9, 9, 9, 9, 9, 9, 9, 9, 9, 0, 0, 0, 2, 1, 8, 8, 8, 8,
    8, 8, 8, 8, 8, 8, 8, 8, 8, 8, 8, 8, 2, 7, 7, 7, 7, 7, 7, 7, 7, 7, 7, 7, 7, 7, 7, 7, 7,
];

fn other(alloc: Global) -> Result<SyncOps, Memory> {
    let mut ops = SyncOps::new(alloc);
    let create = SyncOp::Create {
        uuid: Uuid::from_bytes([8; 16]),
    };
    ops.push(&create)?;
    Ok(ops)
}

fn carried(alloc: Global) -> Result<SyncOps, Memory> {
    let mut ops = other(alloc)?;
    let delete = SyncOp::Delete { uuid: milk() };
    ops.push(&delete)?;
    Ok(ops)
}

// Whether these operations are carried over the added task by this record, and it is opened to what they leave.
fn is_carried(
    alloc: Global,
    ops: SyncOps,
    record: &[u8],
    left: Counts,
) -> Result<bool, ReplicaError> {
    let mut disk = disk_of(alloc, &ADDED)?;
    let mut replica = Replica::open(alloc, &mut disk)?;
    replica.finish_carried(alloc, &mut disk, version(), ops)?;
    let (held, base, _) = opened(alloc, disk.bytes())?;
    Ok(
        counts(&replica) == left
            && replica.base() == version()
            && disk.bytes().get(110..) == Some(record)
            && held == left
            && base == version(),
    )
}

// More operations than are read at once.
fn many(alloc: Global) -> Result<SyncOps, Memory> {
    let mut ops = SyncOps::new(alloc);
    for n in 0..300_u32 {
        let create = SyncOp::Create {
            uuid: Uuid::from_u128(n as u128),
        };
        ops.push(&create)?;
    }
    Ok(ops)
}

// Whether they are carried, and the record is opened to what they leave.
fn are_carried(alloc: Global) -> Result<bool, ReplicaError> {
    let mut disk = disk_of(alloc, &ADDED)?;
    let mut replica = Replica::open(alloc, &mut disk)?;
    replica.finish_carried(alloc, &mut disk, version(), many(alloc)?)?;
    let (held, _, _) = opened(alloc, disk.bytes())?;
    let left = (301, 0, Some(1));
    Ok(counts(&replica) == left && held == left)
}

#[test]
fn a_sync_in_place_carries_more_than_is_read_at_once(rt: HostRuntime) -> Result<(), Fail> {
    assert!(rt; are_carried(rt.alloc())?);
    Ok(())
}

#[test]
fn a_sync_in_place_writes_what_it_carried(rt: HostRuntime) -> Result<(), Fail> {
    let alloc = rt.alloc();
    assert!(rt; is_carried(alloc, SyncOps::new(alloc), &NOTHING, (1, 0, Some(1)))?);
    assert!(rt; is_carried(alloc, carried(alloc)?, &CARRIED, (1, 0, None))?);
    Ok(())
}

// Whether these records are damaged over an empty replica.
fn is_damaged(alloc: Global, records: &[u8]) -> Result<bool, Memory> {
    Ok(refusal(alloc, records)? == Some(OpenError::Damaged { offset: 29 }))
}

// The same of the record that carried nothing, if it counts one operation.
fn is_longer_damaged(alloc: Global) -> Result<bool, Memory> {
    let mut record = Vec::new(alloc);
    record.extend_from_slice(&NOTHING[..25])?;
    record.push(1)?;
    is_damaged(alloc, record.as_slice())
}

// What was carried that does not fit, and fewer operations than are counted.
#[test]
fn a_record_of_a_sync_that_does_not_fit_is_damaged(rt: HostRuntime) -> Result<(), Fail> {
    assert!(rt; is_damaged(rt.alloc(), &CARRIED)? && is_longer_damaged(rt.alloc())?);
    Ok(())
}

// What is carried over the added task: another one, and a status.
pub(super) const OTHER: [u8; 21] = [
    0, 0, 0, 1, 1, 8, 8, 8, 8, 8, 8, 8, 8, 8, 8, 8, 8, 8, 8, 8, 8,
];

const STATUS: [u8; 55] = [
    0, 0, 0, 1, 3, 7, 7, 7, 7, 7, 7, 7, 7, 7, 7, 7, 7, 7, 7, 7, 7, 0, 0, 0, 6, 115, 116, 97, 116,
    117, 115, 1, 0, 0, 0, 7, 119, 97, 105, 116, 105, 110, 103, 0, 0, 0, 0, 101, 83, 241, 0, 0, 0,
    0, 0,
];

// The record of a sync that was cut short at version 9, whose body has so many bytes, with what it carried and what is pending then.
pub(super) fn partial(
    alloc: Global,
    size: u8,
    ops: &[u8],
    pending: &[u8],
) -> Result<Vec<u8>, Memory> {
    let mut record = Vec::new(alloc);
    record.extend_from_slice(&[1, 0, 0, 0, size, 6])?;
    record.extend_from_slice(&[9; 16])?;
    record.extend_from_slice(ops)?;
    record.extend_from_slice(pending)?;
    Ok(record)
}

// The added task's file with such a record.
fn cut_short(alloc: Global, size: u8, ops: &[u8], pending: &[u8]) -> Result<Vec<u8>, Memory> {
    let mut bytes = ADDED.to_vec(alloc)?;
    bytes.extend_from_slice(partial(alloc, size, ops, pending)?.as_slice())?;
    Ok(bytes)
}

// Whether the added task is still pending behind another one, and is taken back.
fn is_still_pending(alloc: Global) -> Result<bool, ReplicaError> {
    let bytes = cut_short(alloc, 112, &OTHER, &ADDED[36..])?;
    let (held, base, _) = opened(alloc, bytes.as_slice())?;
    let nothing = Some(UndoError::NothingToUndo);
    Ok(
        held == (2, 3, Some(1))
            && base == version()
            && undone(alloc, bytes.as_slice())? == (2, (1, 0, None), nothing),
    )
}

// An undo point alone may be pending on all tasks.
fn point(alloc: Global) -> Result<Vec<Op>, Memory>
    ensures { IfOk result (λ ops. (tasks : TasksValue) → may_pend tasks ops.items ≡ true) }
{
    let mut ops = Vec::new(alloc);
    ops.push(Op::UndoPoint)?;
    Ok(ops)
}

// Whether a sync that is cut short writes its record, which is opened to what it leaves.
fn is_cut_short(alloc: Global) -> Result<bool, ReplicaError> {
    let ops = other(alloc)?;
    let pending = point(alloc)?;
    let mut disk = disk_of(alloc, &ADDED)?;
    let mut replica = Replica::open(alloc, &mut disk)?;
    replica.finish_partial(alloc, &mut disk, version(), ops, pending)?;
    let wanted = cut_short(alloc, 43, &OTHER, &[0, 0, 0, 1, 4])?;
    let (held, base, _) = opened(alloc, disk.bytes())?;
    Ok(
        counts(&replica) == (2, 1, Some(1))
            && disk.bytes() == wanted.as_slice()
            && held == (2, 1, Some(1))
            && base == version(),
    )
}

#[test]
fn a_sync_that_is_cut_short_keeps_what_is_pending(rt: HostRuntime) -> Result<(), Fail> {
    assert!(rt; is_still_pending(rt.alloc())?);
    assert!(rt; is_cut_short(rt.alloc())?);
    Ok(())
}

// Whether a record with these operations, carried and pending, is damaged behind the added task.
fn is_refused(alloc: Global, size: u8, ops: &[u8], pending: &[u8]) -> Result<bool, Memory> {
    let bytes = cut_short(alloc, size, ops, pending)?;
    let mut disk = disk_of(alloc, bytes.as_slice())?;
    Ok(Replica::open(alloc, &mut disk).err() == Some(OpenError::Damaged { offset: 110 }))
}

// One operation, which creates a task that is not there, and the same after an undo point.
const CREATED: [u8; 21] = [
    0, 0, 0, 1, 1, 5, 5, 5, 5, 5, 5, 5, 5, 5, 5, 5, 5, 5, 5, 5, 5,
];

const AFTER_POINT: [u8; 22] = [
    0, 0, 0, 2, 4, 1, 5, 5, 5, 5, 5, 5, 5, 5, 5, 5, 5, 5, 5, 5, 5, 5,
];

// One operation, which creates the added task.
const AGAIN: [u8; 21] = [
    0, 0, 0, 1, 1, 7, 7, 7, 7, 7, 7, 7, 7, 7, 7, 7, 7, 7, 7, 7, 7,
];

// Old values of before what was carried, a task carried that is there, a byte that is left over.
fn are_carried_refused(alloc: Global) -> Result<bool, Memory> {
    let pending = &ADDED[36..];
    Ok(
        is_refused(alloc, 146, &STATUS, pending)?
            && is_refused(alloc, 112, &AGAIN, pending)?
            && is_refused(alloc, 43, &OTHER, &[0, 0, 0, 0, 4])?,
    )
}

#[test]
fn pending_operations_that_do_not_lead_to_the_tasks_are_damaged(
    rt: HostRuntime,
) -> Result<(), Fail> {
    assert!(rt; are_carried_refused(rt.alloc())?);
    // no undo point first, a task that is not there
    assert!(rt; is_refused(rt.alloc(), 59, &OTHER, &CREATED)?);
    assert!(rt; is_refused(rt.alloc(), 60, &OTHER, &AFTER_POINT)?);
    Ok(())
}
