// Files of the first version, which the first opening brings to the second.
use super::openings::{STATE, file_of};
use super::states::state;
use super::syncs::{NOTHING, OTHER, partial};
use super::{ADDED, Counts, MADE, SYNCED, disk_of, opened, version};
use std::alloc::Global;
use std::test::Fail;
use tw_replica::{Replica, ReplicaError};
use tw_world::{Memory, MemoryDisk};
use uuid::Uuid;

// The front of a row, and of files with areas of which the first slot counts, and the second.
const ROW: [u8; 13] = [1, 0, 0, 0, 8, 84, 87, 82, 69, 80, 76, 48, 49];

const FIRST: [u8; 29] = [
    2, 0, 0, 0, 8, 84, 87, 82, 69, 80, 76, 48, 49, 0, 0, 0, 0, 0, 0, 0, 29, 0, 0, 0, 0, 0, 0, 0, 0,
];

const SECOND: [u8; 29] = [
    3, 0, 0, 0, 8, 84, 87, 82, 69, 80, 76, 48, 49, 0, 0, 0, 0, 0, 0, 0, 0, 0, 0, 0, 0, 0, 0, 0, 29,
];

// A record of each kind, after which the added task is there and nothing is pending: it is added, another one comes with a sync
// that was cut short, it is taken back, a sync brings it, a state has it as pending, and a sync carries nothing.
fn put_kinds(alloc: Global, out: &mut Vec<u8>) -> Result<(), Memory> {
    out.extend_from_slice(&ADDED[29..])?;
    out.extend_from_slice(partial(alloc, 112, &OTHER, &ADDED[36..])?.as_slice())?;
    out.extend_from_slice(&[1, 0, 0, 0, 1, 2])?;
    out.extend_from_slice(&SYNCED)?;
    out.extend_from_slice(&STATE[1..])?;
    out.extend_from_slice(&ADDED[40..])?;
    out.extend_from_slice(&NOTHING)?;
    Ok(())
}

fn kinds(alloc: Global) -> Result<Vec<u8>, Memory> {
    let mut row = ROW.to_vec(alloc)?;
    put_kinds(alloc, &mut row)?;
    Ok(row)
}

// Whether bytes are those of a row that was replaced by one record with this body, which is apart from the row, where the first slot says.
fn is_renewed(bytes: &[u8], row: &[u8], body: &[u8]) -> bool {
    let place = (row.len() as u64 + 1).to_be_bytes();
    let size = (body.len() as u64).to_be_bytes();
    let Some(record) = bytes.get(row.len() + 1..) else {
        return false;
    };
    bytes.get(..13) == MADE.get(..13)
        && bytes.get(13..21) == Some(place.as_slice())
        && bytes.get(21..29) == Some([0; 8].as_slice())
        && record.first() == Some(&1)
        && record.get(1..5) == size.get(4..)
        && record.get(5..) == Some(body)
}

// The body of the state in which the added task is pending.
fn added_body(alloc: Global) -> Result<Vec<u8>, Memory> {
    let mut body = Vec::new(alloc);
    body.extend_from_slice(&STATE[6..])?;
    body.extend_from_slice(&ADDED[40..])?;
    Ok(body)
}

// What is held, and the base.
type Held = (Counts, Uuid);

fn added_held() -> Held {
    ((1, 3, Some(1)), Uuid::nil())
}

fn kinds_held() -> Held {
    ((1, 0, Some(1)), version())
}

// Whether a row is opened to this, and is replaced by this body.
fn is_row(alloc: Global, row: &[u8], body: &[u8], wanted: Held) -> Result<bool, ReplicaError> {
    let (held, base, bytes) = opened(alloc, row)?;
    Ok((held, base) == wanted && is_renewed(&bytes, row, body))
}

// Whether rows of one record, of a thousand, and of each kind are replaced by one record of the state.
fn are_rows(alloc: Global) -> Result<bool, ReplicaError> {
    let added = added_body(alloc)?;
    let kept = state(alloc, &[Some(7)], &[7], 0, &[])?;
    Ok(
        is_row(alloc, &file_of(alloc, &ROW, 0)?, &added, added_held())?
            && is_row(alloc, &file_of(alloc, &ROW, 999)?, &added, added_held())?
            && is_row(alloc, &kinds(alloc)?, &kept, kinds_held())?,
    )
}

// Whether in a file with areas one byte is another after it was opened.
fn is_marked(alloc: Global, front: &[u8]) -> Result<bool, ReplicaError> {
    let file = file_of(alloc, front, 0)?;
    let (held, base, bytes) = opened(alloc, &file)?;
    Ok(
        (held, base) == added_held()
            && bytes.get(..12) == file.get(..12)
            && bytes.get(12) == Some(&50)
            && bytes.get(13..) == file.get(13..),
    )
}

#[test]
fn files_of_the_first_version_are_brought_to_the_second(rt: HostRuntime) -> Result<(), Fail> {
    assert!(rt; are_rows(rt.alloc())?);
    assert!(rt; is_marked(rt.alloc(), &FIRST)? && is_marked(rt.alloc(), &SECOND)?);
    Ok(())
}

// Whether what a crash leaves is opened to this, and its bytes are then those that the opening leaves without a crash.
fn is_alike(
    alloc: Global,
    disk: &MemoryDisk,
    call: u64,
    pick: u8,
    wanted: Held,
) -> Result<bool, ReplicaError> {
    if call > disk.calls() || pick > 3 {
        return Ok(false);
    }
    let image = disk.image(call, pick)?;
    let (held, base, bytes) = opened(alloc, &image)?;
    Ok((held, base) == wanted && bytes.as_slice() == disk.bytes())
}

// The same of whatever a crash in this call leaves.
fn are_alike(
    alloc: Global,
    disk: &MemoryDisk,
    call: u64,
    wanted: Held,
) -> Result<bool, ReplicaError> {
    for pick in 0..4 {
        if !is_alike(alloc, disk, call, pick, wanted)? {
            return Ok(false);
        }
    }
    Ok(true)
}

// The same of whatever a crash in any call of an opening leaves.
fn is_always_alike(alloc: Global, file: &[u8], wanted: Held) -> Result<bool, ReplicaError> {
    let mut disk = disk_of(alloc, file)?;
    let _ = Replica::open(alloc, &mut disk)?;
    for call in 0..=disk.calls() {
        if !are_alike(alloc, &disk, call, wanted)? {
            return Ok(false);
        }
    }
    Ok(true)
}

// A row of one record, one of each kind, and files with areas of which the first slot counts, and the second.
fn are_always_alike(alloc: Global) -> Result<bool, ReplicaError> {
    Ok(
        is_always_alike(alloc, &file_of(alloc, &ROW, 0)?, added_held())?
            && is_always_alike(alloc, &kinds(alloc)?, kinds_held())?
            && is_always_alike(alloc, &file_of(alloc, &FIRST, 0)?, added_held())?
            && is_always_alike(alloc, &file_of(alloc, &SECOND, 0)?, added_held())?,
    )
}

#[test]
fn a_crash_while_a_file_is_brought_to_the_second_version_loses_nothing(
    rt: HostRuntime,
) -> Result<(), Fail> {
    assert!(rt; are_always_alike(rt.alloc())?);
    Ok(())
}
