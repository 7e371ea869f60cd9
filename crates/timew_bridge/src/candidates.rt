// The tasks that may be active after a command.
ghost use Rattle.std.specs.Prelude.{◌≡◌, ◌++◌, is_some, IfOk, OnOk};
ghost use Rattle.tw_model.specs.Ops.{TasksValue};
ghost use Rattle.timew_bridge.specs.Active.{started, latest};
ghost use Rattle.timew_bridge.specs.Candidates.{ChangedAmong, active_at, put_if, with_active, active_among};
ghost use Rattle.timew_bridge.specs.Known.{AreDrivers};

use crate::active::{Active, latest, start_of, started};
use crate::drivers::Drivers;
use std::alloc::Global;
use std::collections::BTreeSet;
use tw_model::{TaskMap, Tasks};
use tw_world::Memory;
use uuid::Uuid;

fn is_active(now: u64, uuid: Uuid, task: &TaskMap) -> bool
    ensures { result ≡ is_some (started now (uuid, task.now)) }
{
    started(now, uuid, task, start_of(task)).is_some()
}

// Puts the task of a uuid beside others, if it is active.
fn put_active(
    alloc: Global,
    part: &mut Tasks,
    tasks: &Tasks,
    now: u64,
    uuid: Uuid,
) -> Result<(), Memory>
    ensures { OnOk result (part.new ≡ put_if uuid (active_at tasks.now now uuid) part.old) }
{
    match tasks.get(uuid) {
        Some(task) if is_active(now, uuid, task) => {
            let _ = part.insert(uuid, task.copy(alloc)?)?;
            Ok(())
        }
        _ => Ok(()),
    }
}

fn put_all_started(
    alloc: Global,
    part: &mut Tasks,
    tasks: &Tasks,
    now: u64,
    uuids: &[Uuid],
) -> Result<(), Memory>
    ensures { OnOk result (part.new ≡ with_active tasks.now now uuids.now part.old) }
{
    for uuid in uuids {
        put_active(alloc, part, tasks, now, *uuid)?;
    }
    Ok(())
}

fn put_all_named(
    alloc: Global,
    part: &mut Tasks,
    tasks: &Tasks,
    now: u64,
    named: &BTreeSet<Uuid>,
) -> Result<(), Memory>
    ensures { OnOk result (part.new ≡ with_active tasks.now now named.now.keys part.old) }
{
    for uuid in named {
        put_active(alloc, part, tasks, now, *uuid)?;
    }
    Ok(())
}

// Copies of the active ones among the tasks of these uuids and those that are named.
fn active_among(
    alloc: Global,
    tasks: &Tasks,
    now: u64,
    uuids: &[Uuid],
    named: &BTreeSet<Uuid>,
) -> Result<Tasks, Memory>
    ensures { IfOk result (λ part. part ≡ active_among tasks.now now (uuids.now ++ named.now.keys)) }
{
    let mut part = Tasks::new(alloc);
    put_all_started(alloc, &mut part, tasks, now, uuids)?;
    put_all_named(alloc, &mut part, tasks, now, named)?;
    Ok(part)
}

/// The task that was started last, after a command that changed no task but the named ones.
pub fn latest_among(
    alloc: Global,
    before: &Drivers,
    named: &BTreeSet<Uuid>,
    tasks: &Tasks,
    now: u64,
) -> Result<Option<Active>, Memory>
    requires { (old : TasksValue) × AreDrivers old now before.now × ChangedAmong named.now.keys old tasks.now }
    ensures { IfOk result (λ last. last ≡ latest tasks.now now) }
{
    let part = active_among(alloc, tasks, now, &before.started, named)?;
    Ok(latest(&part, now))
}
