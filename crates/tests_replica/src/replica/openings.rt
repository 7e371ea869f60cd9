// Openings that write one record of the state in place of many records.
use super::{ADDED, MADE, disk_of, opened};
use std::alloc::Global;
use std::test::Fail;
use tw_replica::{Replica, ReplicaError};
use tw_world::{Memory, MemoryDisk};
use uuid::Uuid;

// The record of a commit of nothing.
const NOTHING: [u8; 11] = [1, 0, 0, 0, 6, 1, 0, 0, 0, 0, 0];

// The front of a row of the second version.
const ROW: [u8; 13] = [1, 0, 0, 0, 8, 84, 87, 82, 69, 80, 76, 48, 50];

// A file of this form with so many commits of nothing, and the one that adds a task.
pub(super) fn file_of(alloc: Global, form: &[u8], nothing: u32) -> Result<Vec<u8>, Memory> {
    let mut bytes = form.to_vec(alloc)?;
    for _ in 0..nothing {
        bytes.extend_from_slice(&NOTHING)?;
    }
    bytes.extend_from_slice(&ADDED[29..])?;
    Ok(bytes)
}

// The gate behind the records, and the record of the state up to what is pending, which are the operations of the commit.
pub(super) const STATE: [u8; 52] = [
    0, 1, 0, 0, 0, 116, 5, 0, 0, 0, 0, 0, 0, 0, 0, 0, 0, 0, 0, 0, 0, 0, 0, 0, 0, 0, 1, 1, 7, 7, 7,
    7, 7, 7, 7, 7, 7, 7, 7, 7, 7, 7, 7, 7, 0, 0, 0, 0, 0, 0, 0, 3,
];

// Whether bytes are those of a file once the state stands behind its records, at this place, which the second slot tells.
fn is_replaced(bytes: &[u8], file: &[u8], place: [u8; 2]) -> bool {
    let Some(state) = bytes.get(file.len()..) else {
        return false;
    };
    bytes.first() == Some(&3)
        && bytes.get(1..27) == MADE.get(1..27)
        && bytes.get(27..29) == Some(place.as_slice())
        && bytes.get(29..file.len()) == file.get(29..)
        && state.get(..52) == Some(STATE.as_slice())
        && state.get(52..) == ADDED.get(40..)
}

// Whether a file that is opened holds the added task, and its bytes are as they were, or the state stands in place of its records.
fn is_opened(
    alloc: Global,
    form: &[u8],
    nothing: u32,
    place: Option<[u8; 2]>,
) -> Result<bool, ReplicaError> {
    let file = file_of(alloc, form, nothing)?;
    let (held, _, bytes) = opened(alloc, &file)?;
    let stands = match place {
        Some(place) => is_replaced(&bytes, &file, place),
        None => bytes.as_slice() == file.as_slice(),
    };
    Ok(stands && held == (1, 3, Some(1)))
}

// Whether the records of files are replaced by the state where they are a thousand, and in no row of the second version.
fn are_replaced(alloc: Global) -> Result<bool, ReplicaError> {
    let kept = is_opened(alloc, &MADE, 998, None)?;
    let replaced = is_opened(alloc, &MADE, 999, Some([0x2b, 0x5c]))?;
    let row = is_opened(alloc, &ROW, 999, None)?;
    Ok(kept && replaced && row)
}

#[test]
fn a_thousand_records_are_replaced_by_the_state(rt: HostRuntime) -> Result<(), Fail> {
    assert!(rt; are_replaced(rt.alloc())?);
    Ok(())
}

// A disk over which a thousand records were replaced.
fn replaced(alloc: Global) -> Result<MemoryDisk, ReplicaError> {
    let file = file_of(alloc, &MADE, 999)?;
    let mut disk = disk_of(alloc, &file)?;
    let _ = Replica::open(alloc, &mut disk)?;
    Ok(disk)
}

// Whether what a crash leaves is opened with the added task, and the state in place of the records.
fn is_whole(alloc: Global, disk: &MemoryDisk, call: u64, pick: u8) -> Result<bool, ReplicaError> {
    if call > disk.calls() || pick > 3 {
        return Ok(false);
    }
    let image = disk.image(call, pick)?;
    let (held, base, bytes) = opened(alloc, &image)?;
    Ok(held == (1, 3, Some(1)) && base == Uuid::nil() && bytes.first() == Some(&3))
}

// Whether whatever a crash in this call leaves is whole.
fn are_whole(alloc: Global, disk: &MemoryDisk, call: u64) -> Result<bool, ReplicaError> {
    for pick in 0..4 {
        if !is_whole(alloc, disk, call, pick)? {
            return Ok(false);
        }
    }
    Ok(true)
}

// Whether whatever a crash in any call leaves is whole.
fn is_always_whole(alloc: Global) -> Result<bool, ReplicaError> {
    let disk = replaced(alloc)?;
    for call in 0..=disk.calls() {
        if !are_whole(alloc, &disk, call)? {
            return Ok(false);
        }
    }
    Ok(true)
}

#[test]
fn a_crash_while_records_are_replaced_leaves_the_same_state(rt: HostRuntime) -> Result<(), Fail> {
    assert!(rt; is_always_whole(rt.alloc())?);
    Ok(())
}
