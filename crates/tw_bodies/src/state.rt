// Reading and writing the body that holds a whole state.
ghost use Rattle.std.specs.Prelude.{◌≡◌, ◌++◌, IfOk, OnOk};
ghost use Rattle.std.specs.List.{flat_map, AllByRecursion};
ghost use Rattle.std.specs.FinMap as map;
ghost use Rattle.tw_bodies.specs.Body.{place_bytes, entry_bytes, body_of, IsPlace, IsEntry, IsStep};
ghost use Rattle.tw_bodies.specs.Body.Step.{Checkpoint};
ghost use Rattle.tw_bodies.specs.Views.{IsRead};
ghost use Rattle.tw_bodies.specs.Reading.{place_at, entry_at, tasks_at, checkpoint_of};
ghost use Rattle.tw_fields.specs.Reading.{Gives, many_at, with_last, counted_at};

use crate::op::put_ops;
use crate::room::room_for;
use crate::step::Read;
use crate::task::{put_task, read_task};
use std::alloc::Global;
use tw_fields::{ReadError, put_count, put_uuid, read_uuid, u32_at};
use tw_model::{Op, TaskMap, Tasks};
use tw_world::Memory;
use uuid::Uuid;

// Reads one place after others.
#[tactic(auto, unfolding(crate::specs::Reading::place_at))]
fn read_place<'a>(places: &mut Vec<Option<Uuid>>, bytes: &'a [u8]) -> Result<&'a [u8], ReadError>
    ensures { Gives (λ rest. (places.new.items, rest.now)) result (with_last places.old.items (place_at bytes.now)) }
{
    match bytes {
        [0, rest @ ..] => {
            places.push(None)?;
            Ok(rest)
        }
        [1, rest @ ..] => {
            let (uuid, rest) = read_uuid(rest)?;
            places.push(Some(Uuid::from_bytes(uuid)))?;
            Ok(rest)
        }
        _ => Err(ReadError::Malformed),
    }
}

fn read_places(
    alloc: Global,
    count: u32,
    bytes: &[u8],
) -> Result<(Vec<Option<Uuid>>, &[u8]), ReadError>
    ensures { Gives (λ x. (x.0.items, x.1.now)) result (many_at place_at count bytes.now) }
{
    let mut places = Vec::with_capacity(alloc, room_for(count, bytes))?;
    let mut rest = bytes;
    for _ in 0..count {
        let after = read_place(&mut places, rest)?;
        rest = after;
    }
    Ok((places, rest))
}

#[tactic(auto, unfolding(crate::specs::Reading::entry_at))]
fn read_entry(alloc: Global, bytes: &[u8]) -> Result<((Uuid, TaskMap), &[u8]), ReadError>
    ensures { Gives (λ x. (x.0, x.1.now)) result (entry_at bytes.now) }
{
    let (uuid, rest) = read_uuid(bytes)?;
    let (task, rest) = read_task(alloc, rest)?;
    Ok(((Uuid::from_bytes(uuid), task), rest))
}

fn read_entries(
    alloc: Global,
    count: u32,
    bytes: &[u8],
) -> Result<(Vec<(Uuid, TaskMap)>, &[u8]), ReadError>
    ensures { Gives (λ x. (x.0.items, x.1.now)) result (many_at entry_at count bytes.now) }
{
    let mut entries = Vec::with_capacity(alloc, room_for(count, bytes))?;
    let mut rest = bytes;
    for _ in 0..count {
        let (entry, after) = read_entry(alloc, rest)?;
        entries.push(entry)?;
        rest = after;
    }
    Ok((entries, rest))
}

#[tactic(auto, unfolding(tw_fields::specs::Reading::counted_at))]
fn counted_places(alloc: Global, bytes: &[u8]) -> Result<(Vec<Option<Uuid>>, &[u8]), ReadError>
    ensures { Gives (λ x. (x.0.items, x.1.now)) result (counted_at place_at bytes.now) }
{
    let (count, rest) = u32_at(bytes)?;
    read_places(alloc, count, rest)
}

#[tactic(auto, unfolding(tw_fields::specs::Reading::counted_at))]
fn counted_entries(alloc: Global, bytes: &[u8]) -> Result<(Vec<(Uuid, TaskMap)>, &[u8]), ReadError>
    ensures { Gives (λ x. (x.0.items, x.1.now)) result (counted_at entry_at bytes.now) }
{
    let (count, rest) = u32_at(bytes)?;
    read_entries(alloc, count, rest)
}

#[tactic(auto, unfolding(crate::specs::Reading::tasks_at))]
fn read_tasks(alloc: Global, bytes: &[u8]) -> Result<(Tasks, &[u8]), ReadError>
    ensures { Gives (λ x. (x.0, x.1.now)) result (tasks_at bytes.now) }
{
    let (entries, rest) = counted_entries(alloc, bytes)?;
    match Tasks::from_entries(alloc, entries)? {
        Some(tasks) => Ok((tasks, rest)),
        None => Err(ReadError::Malformed),
    }
}

/// A whole state, of the body after its first byte. The pending operations are not read yet.
#[tactic(auto, unfolding(crate::specs::Reading::checkpoint_of))]
pub(crate) fn read_checkpoint(alloc: Global, bytes: &[u8]) -> Result<Read<'_>, ReadError>
    ensures { IsRead result (checkpoint_of bytes.now) }
{
    let (base, rest) = read_uuid(bytes)?;
    let (places, rest) = counted_places(alloc, rest)?;
    let (tasks, rest) = read_tasks(alloc, rest)?;
    let (count, ops) = u32_at(rest)?;
    Ok(Read::Checkpoint {
        base,
        places,
        tasks,
        count,
        ops,
    })
}

fn put_place(out: &mut Vec<u8>, place: &Option<Uuid>) -> Result<(), Memory>
    ensures put { OnOk result (out.new.items ≡ out.old.items ++ place_bytes place.now) }
    ensures is { OnOk result (IsPlace place.now) }
{
    match place {
        None => {
            out.push(0)?;
            Ok(())
        }
        Some(uuid) => {
            out.push(1)?;
            put_uuid(out, uuid)
        }
    }
}

fn put_places(out: &mut Vec<u8>, places: &Vec<Option<Uuid>>) -> Result<(), Memory>
    ensures put { OnOk result (out.new.items ≡ out.old.items ++ flat_map place_bytes places.now.items) }
    ensures is { OnOk result (AllByRecursion IsPlace places.now.items) }
{
    for place in places {
        put_place(out, place)?;
    }
    Ok(())
}

fn put_entry(out: &mut Vec<u8>, uuid: &Uuid, task: &TaskMap) -> Result<(), Memory>
    ensures put { OnOk result (out.new.items ≡ out.old.items ++ entry_bytes (uuid.now, task.now)) }
    ensures is { OnOk result (IsEntry (uuid.now, task.now)) }
{
    put_uuid(out, uuid)?;
    put_task(out, task)
}

fn put_entries(out: &mut Vec<u8>, tasks: &Tasks) -> Result<(), Memory>
    ensures put { OnOk result (out.new.items ≡ out.old.items ++ flat_map entry_bytes (map.entries tasks.now)) }
    ensures is { OnOk result (AllByRecursion IsEntry (map.entries tasks.now)) }
{
    for (uuid, task) in tasks.iter() {
        put_entry(out, uuid, task)?;
    }
    Ok(())
}

/// The body of the record that holds a whole state: the version, the places, the tasks before the pending operations, and these.
pub fn checkpoint_body(
    alloc: Global,
    base: &Uuid,
    places: &Vec<Option<Uuid>>,
    tasks: &Tasks,
    pending: &Vec<Op>,
) -> Result<Vec<u8>, Memory>
    ensures body { IfOk result (λ body. body.items ≡ body_of (Checkpoint base.now places.now.items tasks.now pending.now.items)) }
    ensures is { OnOk result (IsStep (Checkpoint base.now places.now.items tasks.now pending.now.items)) }
{
    let mut body = Vec::new(alloc);
    body.push(5)?;
    put_uuid(&mut body, base)?;
    put_count(&mut body, places.len())?;
    put_places(&mut body, places)?;
    put_count(&mut body, tasks.len() as usize)?;
    put_entries(&mut body, tasks)?;
    put_count(&mut body, pending.len())?;
    put_ops(&mut body, pending)?;
    Ok(body)
}
