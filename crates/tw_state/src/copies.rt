// The tasks that a step is about: copies of them, and putting these in the place of what the tasks have.
ghost use Rattle.std.specs.Prelude.{◌≡◌, None, true, is_some, IfOk, OnOk, OnErr};
ghost use Rattle.std.specs.FinMap.{get};
ghost use Rattle.tw_model.specs.Maps.{set_at};
ghost use Rattle.tw_state.specs.Part.{with_part, part_of, taken_out, is_fresh, fresh_among, with_room, HasNone, HasRoom};

use std::alloc::Global;
use std::collections::BTreeSet;
use tw_model::{TaskMap, Tasks};
use tw_world::Memory;
use uuid::Uuid;

fn copy_task(alloc: Global, part: &mut Tasks, tasks: &Tasks, uuid: Uuid) -> Result<(), Memory>
    requires { get part.old uuid ≡ None }
    ensures { OnOk result (part.new ≡ set_at part.old uuid (get tasks.now uuid)) }
{
    match tasks.get(uuid) {
        Some(task) => {
            let _ = part.insert(uuid, task.copy(alloc)?)?;
            Ok(())
        }
        None => Ok(()),
    }
}

/// Copies of the tasks of these uuids.
pub fn part_of(alloc: Global, tasks: &Tasks, touched: &BTreeSet<Uuid>) -> Result<Tasks, Memory>
    ensures { IfOk result (λ part. part ≡ part_of touched.now.keys tasks.now) }
{
    let mut part = Tasks::new(alloc);
    for uuid in touched {
        copy_task(alloc, &mut part, tasks, *uuid)?;
    }
    Ok(part)
}

fn is_fresh(part: &Tasks, tasks: &Tasks, uuid: Uuid) -> bool
    ensures { result ≡ is_fresh part.now tasks.now uuid }
{
    part.get(uuid).is_some() && tasks.get(uuid).is_none()
}

/// The uuids of which a part has a task and the tasks have none.
pub(crate) fn fresh_among(
    alloc: Global,
    part: &Tasks,
    tasks: &Tasks,
    touched: &BTreeSet<Uuid>,
) -> Result<Vec<Uuid>, Memory>
    ensures { IfOk result (λ fresh. fresh.items ≡ fresh_among part.now tasks.now touched.now.keys) }
{
    let mut fresh = Vec::new(alloc);
    for uuid in touched {
        if is_fresh(part, tasks, *uuid) {
            fresh.push(*uuid)?;
        }
    }
    Ok(fresh)
}

/// Takes the tasks of these uuids out. It takes no memory.
pub fn take_out(tasks: &mut Tasks, uuids: &Vec<Uuid>)
    ensures { tasks.new ≡ taken_out uuids.now.items tasks.old }
{
    for uuid in uuids {
        let _ = tasks.remove(*uuid);
    }
}

fn add_room(alloc: Global, tasks: &mut Tasks, fresh: &Vec<Uuid>) -> Result<(), Memory>
    ensures ok { OnOk result (tasks.new ≡ with_room fresh.now.items tasks.old) }
    ensures err { OnErr result (taken_out fresh.now.items tasks.new ≡ taken_out fresh.now.items tasks.old) }
{
    for uuid in fresh {
        let _ = tasks.insert(*uuid, TaskMap::new(alloc))?;
    }
    Ok(())
}

/// Makes an empty task for each of these uuids, or for none.
pub fn make_room(alloc: Global, tasks: &mut Tasks, fresh: &Vec<Uuid>) -> Result<(), Memory>
    requires { HasNone fresh.now.items tasks.old }
    ensures ok { OnOk result (tasks.new ≡ with_room fresh.now.items tasks.old) }
    ensures err { OnErr result (tasks.new ≡ tasks.old) }
{
    if let Err(memory) = add_room(alloc, tasks, fresh) {
        take_out(tasks, fresh);
        return Err(memory);
    }
    Ok(())
}

fn take_task(tasks: &mut Tasks, part: &mut Tasks, uuid: Uuid)
    requires { is_some (get part.old uuid) ≡ true → is_some (get tasks.old uuid) ≡ true }
    ensures tasks { tasks.new ≡ set_at tasks.old uuid (get part.old uuid) }
    ensures part { part.new ≡ set_at part.old uuid None }
{
    match part.remove(uuid) {
        Some(task) => {
            let mut task = task;
            let _ = tasks.swap(uuid, &mut task);
        }
        None => {
            let _ = tasks.remove(uuid);
        }
    }
}

/// Puts what a part has of these uuids in the place of what the tasks have. It takes no memory.
pub(crate) fn take_part(tasks: &mut Tasks, part: Tasks, touched: &BTreeSet<Uuid>)
    requires { HasRoom touched.now.keys part tasks.old }
    ensures { tasks.new ≡ with_part touched.now.keys part tasks.old }
{
    let mut part = part;
    for uuid in touched {
        take_task(tasks, &mut part, *uuid);
    }
}
