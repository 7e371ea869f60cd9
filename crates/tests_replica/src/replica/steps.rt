// Steps that are made in memory, and then written.
ghost use Rattle.std.specs.Prelude.{◌≡◌, IfOk};

use super::{ADDED, MADE, disk_of, milk};
use std::alloc::Global;
use std::test::Fail;
use tw_model::{Change, TaskMap};
use tw_replica::{Prepared, Replica, ReplicaError, TakeBackError};
use tw_world::{Memory, Moment};

// The step by which the one task gets a status.
fn with_status(
    alloc: Global,
    replica: Replica,
    status: &str,
    renumber: bool,
) -> Result<Prepared, Memory>
    ensures { IfOk result (λ prepared. prepared.journal ≡ replica.journal) }
{
    let mut task = TaskMap::new(alloc);
    task.set(alloc, "status", Some(status))?;
    let mut changes = Vec::new(alloc);
    changes.push(Change {
        uuid: milk(),
        task: Some(task),
    })?;
    let Some(at) = Moment::new(1_700_000_000, 0) else {
        return Err(Memory);
    };
    let mut editing = replica.edit(alloc);
    editing.make(alloc, changes, at)?;
    editing.prepare(alloc, renumber)
}

// Whether a step that adds the task changes no byte before it is written, and then those of the record.
fn is_written_later(alloc: Global) -> Result<bool, ReplicaError> {
    let mut disk = disk_of(alloc, &MADE)?;
    let replica = Replica::open(alloc, &mut disk)?;
    let prepared = with_status(alloc, replica, "pending", false)?;
    let is_made = prepared.tasks().len() == 1
        && prepared.pending().len() == 3
        && prepared.numbers().as_slice() == [Some(milk())].as_slice()
        && disk.bytes().len() == 29;
    prepared.write(&mut disk)?;
    Ok(is_made && disk.bytes() == ADDED.as_slice())
}

#[test]
fn a_step_is_made_in_memory_and_then_written(rt: HostRuntime) -> Result<(), Fail> {
    assert!(rt; is_written_later(rt.alloc())?);
    Ok(())
}

// How many places there are once the task has got a status, and how long the file is then.
fn written(alloc: Global, status: &str, renumber: bool) -> Result<(usize, usize), ReplicaError> {
    let mut disk = disk_of(alloc, &ADDED)?;
    let replica = Replica::open(alloc, &mut disk)?;
    let prepared = with_status(alloc, replica, status, renumber)?;
    let places = prepared.numbers().len();
    prepared.write(&mut disk)?;
    Ok((places, disk.bytes().len()))
}

// Whether each of these statuses leads to so many places, and to so many bytes behind those of the file.
fn are_written(alloc: Global, rows: &[(&str, bool, usize, usize)]) -> Result<bool, ReplicaError> {
    for (status, renumber, places, bytes) in rows {
        let (found, len) = written(alloc, status, *renumber)?;
        if found != *places || len.checked_sub(110) != Some(*bytes) {
            return Ok(false);
        }
    }
    Ok(true)
}

// Each row is a status that the pending task gets, whether the places are packed, how many there are then, and how many
// bytes its record has with its gate and length.
#[test]
fn a_step_that_changes_nothing_writes_nothing(rt: HostRuntime) -> Result<(), Fail> {
    let table = [
        ("pending", false, 1, 0),
        ("pending", true, 1, 11),
        ("completed", false, 1, 77),
        ("completed", true, 0, 77),
    ];
    assert!(rt; are_written(rt.alloc(), &table)?);
    Ok(())
}

// Whether the last group is taken back in memory, and what is written then is the record of an undo.
fn is_taken_back(alloc: Global) -> Result<bool, ReplicaError> {
    let mut disk = disk_of(alloc, &ADDED)?;
    let replica = Replica::open(alloc, &mut disk)?;
    let Ok(prepared) = replica.take_back(alloc) else {
        return Ok(false);
    };
    let is_made = prepared.tasks().len() == 0
        && prepared.pending().len() == 0
        && prepared.numbers().as_slice() == [None].as_slice()
        && disk.bytes() == ADDED.as_slice();
    prepared.write(&mut disk)?;
    Ok(is_made && disk.bytes().get(110..) == Some([1, 0, 0, 0, 1, 2].as_slice()))
}

// Why nothing is taken back in an empty replica.
fn refusal(alloc: Global) -> Result<Option<TakeBackError>, ReplicaError> {
    let mut disk = disk_of(alloc, &MADE)?;
    Ok(Replica::open(alloc, &mut disk)?.take_back(alloc).err())
}

#[test]
fn the_last_group_is_taken_back_in_memory(rt: HostRuntime) -> Result<(), Fail> {
    let alloc = rt.alloc();
    assert!(rt; is_taken_back(alloc)?);
    assert!(rt; refusal(alloc)? == Some(TakeBackError::NothingToUndo));
    Ok(())
}
