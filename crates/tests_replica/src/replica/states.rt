// Records that tell a whole state.
use super::{ADDED, MADE, counts, disk_of, version};
use std::alloc::Global;
use std::test::Fail;
use tw_replica::{OpenError, Replica, ReplicaError};
use tw_world::{Memory, MemoryDisk};
use uuid::Uuid;

// Four bytes of a number.
fn put_number(out: &mut Vec<u8>, number: usize) -> Result<(), Memory> {
    let bytes = (number as u64).to_be_bytes();
    out.extend_from_slice(&bytes[4..])?;
    Ok(())
}

// Places, of which each is vacant or has the uuid whose bytes are all this one.
fn put_places(out: &mut Vec<u8>, places: &[Option<u8>]) -> Result<(), Memory> {
    put_number(out, places.len())?;
    for place in places {
        match place {
            None => out.push(0)?,
            Some(byte) => {
                out.push(1)?;
                out.extend_from_slice(&[*byte; 16])?;
            }
        }
    }
    Ok(())
}

// The property that makes a task an open one.
const PENDING: [u8; 25] = [
    0, 0, 0, 1, 0, 0, 0, 6, 115, 116, 97, 116, 117, 115, 0, 0, 0, 7, 112, 101, 110, 100, 105, 110,
    103,
];

// Open tasks with these uuids.
fn put_tasks(out: &mut Vec<u8>, tasks: &[u8]) -> Result<(), Memory> {
    put_number(out, tasks.len())?;
    for byte in tasks {
        out.extend_from_slice(&[*byte; 16])?;
        out.extend_from_slice(&PENDING)?;
    }
    Ok(())
}

// A state at version 9 up to its pending operations.
fn put_state(out: &mut Vec<u8>, places: &[Option<u8>], tasks: &[u8]) -> Result<(), Memory> {
    out.push(5)?;
    out.extend_from_slice(&[9; 16])?;
    put_places(out, places)?;
    put_tasks(out, tasks)
}

// The body of a state at version 9, with so many pending operations in these bytes.
pub(super) fn state(
    alloc: Global,
    places: &[Option<u8>],
    tasks: &[u8],
    count: usize,
    ops: &[u8],
) -> Result<Vec<u8>, Memory> {
    let mut body = Vec::new(alloc);
    put_state(&mut body, places, tasks)?;
    put_number(&mut body, count)?;
    body.extend_from_slice(ops)?;
    Ok(body)
}

// A file of records with one more that has this body.
fn with_record(alloc: Global, records: &[u8], body: &Vec<u8>) -> Result<MemoryDisk, Memory> {
    let mut bytes = records.to_vec(alloc)?;
    bytes.push(1)?;
    put_number(&mut bytes, body.len())?;
    bytes.extend_from_slice(body)?;
    disk_of(alloc, &bytes)
}

// Two tasks of which the one is pending, and a vacant place between theirs.
const PLACES: [Option<u8>; 3] = [Some(8), None, Some(7)];

// Whether a replica over these records and that of this state holds what the state tells, and its last group is taken back.
fn is_taken(alloc: Global, records: &[u8], body: &Vec<u8>) -> Result<bool, ReplicaError> {
    let mut disk = with_record(alloc, records, body)?;
    let mut replica = Replica::open(alloc, &mut disk)?;
    let first = Some(Uuid::from_bytes([8; 16]));
    let is_held = counts(&replica) == (2, 3, Some(3))
        && replica.base() == version()
        && replica.uuid_of(1) == first;
    let undone = replica.undo(alloc, &mut disk)?;
    Ok(is_held && undone == 2 && counts(&replica) == (1, 0, None))
}

// Whether the state is taken in a new file, and behind the record of a commit.
fn is_taken_anywhere(alloc: Global) -> Result<bool, ReplicaError> {
    let body = state(alloc, &PLACES, &[8], 3, &ADDED[40..])?;
    Ok(is_taken(alloc, &MADE, &body)? && is_taken(alloc, &ADDED, &body)?)
}

#[test]
fn a_state_takes_the_place_of_what_was_there(rt: HostRuntime) -> Result<(), Fail> {
    assert!(rt; is_taken_anywhere(rt.alloc())?);
    Ok(())
}

// Whether a file is damaged whose one record has such a state.
fn is_damaged(
    alloc: Global,
    places: &[Option<u8>],
    tasks: &[u8],
    count: usize,
    ops: &[u8],
) -> Result<bool, Memory> {
    let body = state(alloc, places, tasks, count, ops)?;
    let mut disk = with_record(alloc, &MADE, &body)?;
    Ok(Replica::open(alloc, &mut disk).err() == Some(OpenError::Damaged { offset: 29 }))
}

// Pending operations that do not begin with an undo point, that do not fit, that are longer than their number, and shorter.
fn are_operations_damaged(alloc: Global) -> Result<bool, Memory> {
    let add = &ADDED[40..];
    Ok(
        is_damaged(alloc, &PLACES, &[8], 2, &ADDED[41..])?
            && is_damaged(alloc, &[Some(7)], &[7], 2, &ADDED[40..58])?
            && is_damaged(alloc, &PLACES, &[8], 2, add)?
            && is_damaged(alloc, &PLACES, &[8], 4, add)?,
    )
}

// A uuid at two places, at the place of no task, an open task without a place; tasks whose uuids fall, and one that stands twice.
fn are_places_damaged(alloc: Global) -> Result<bool, Memory> {
    Ok(
        is_damaged(alloc, &[Some(8), Some(8)], &[8], 0, &[])?
            && is_damaged(alloc, &[Some(8), Some(6)], &[8], 0, &[])?
            && is_damaged(alloc, &[None], &[8], 0, &[])?
            && is_damaged(alloc, &[Some(7), Some(8)], &[8, 7], 0, &[])?
            && is_damaged(alloc, &[Some(8)], &[8, 8], 0, &[])?,
    )
}

#[test]
fn a_state_that_is_not_sound_is_damaged(rt: HostRuntime) -> Result<(), Fail> {
    assert!(rt; are_operations_damaged(rt.alloc())?);
    assert!(rt; are_places_damaged(rt.alloc())?);
    Ok(())
}

// Whether the tasks of a state are taken over by an empty replica, with the version, by one record of that state.
fn is_taken_over(alloc: Global) -> Result<bool, Fail> {
    let body = state(alloc, &[Some(7)], &[7], 0, &[])?;
    let mut other = with_record(alloc, &MADE, &body)?;
    let tasks = Replica::open(alloc, &mut other)?.tasks().copy(alloc)?;
    let mut disk = disk_of(alloc, &MADE)?;
    let mut replica = Replica::open(alloc, &mut disk)?;
    if replica.pending().len() != 0 {
        return Ok(false);
    }
    let taken = replica.finish_from(alloc, &mut disk, version(), tasks);
    Ok(taken.is_ok() && counts(&replica) == (1, 0, Some(1)) && disk.bytes() == other.bytes())
}

#[test]
fn a_snapshot_is_taken_over_by_one_record(rt: HostRuntime) -> Result<(), Fail> {
    assert!(rt; is_taken_over(rt.alloc())?);
    Ok(())
}
