// The instances of a parent.
ghost use Rattle.std.specs.Prelude.{◌≡◌, ◌<◌, ◌++◌, ◌∷◌, [], true, string_bytes, chars, length, Some, IfOk, IfSome, OnOk};
ghost use Rattle.std.specs.Option.{option_copied};
ghost use Rattle.std.specs.FinMap.{get};
ghost use Rattle.tw_urgency.specs.Status.{status_of};
ghost use Rattle.tw_recur.specs.Recurrence.{IsRecurrence, are_due, due_of};
ghost use Rattle.tw_recur.specs.Instances.{instance_uuid, instance, mark, grown_by, in_either, with_instance, base_of, grown};
ghost use Rattle.tw_recur.specs.Grown.{asked_in, growth_in};

use crate::instance::{instance, instance_uuid};
use crate::recurrence::{Recurrence, due_of, wanted};
use std::alloc::Global;
use tw_model::{TaskMap, Tasks};
use tw_time::Zone;
use tw_urgency::{Status, moment_at, status_of};
use tw_world::{MOMENT_LIMIT, Memory};
use uuid::Uuid;

/// What is asked of all parents.
#[derive(Clone, Copy)]
pub(crate) struct Asking<'a> {
    pub(crate) tasks: &'a Tasks,
    pub(crate) zone: &'a Zone,
    pub(crate) second: u64,
    pub(crate) limit: u32,
}

fn mark(status: Status) -> char
    ensures { result ≡ mark status }
{
    match status {
        Status::Waiting => 'W',
        _ => '-',
    }
}

fn push_mark(mask: &mut String, task: &TaskMap, now: u64) -> Result<(), Memory>
    ensures { OnOk result (string_bytes mask.new ≡ string_bytes mask.old ++ mark (status_of task.now now) ∷ []) }
{
    mask.push(mark(status_of(task, now)))?;
    Ok(())
}

// What is there of a uuid, before or since.
fn there_of<'a>(tasks: &'a Tasks, made: &'a Tasks, uuid: Uuid) -> Option<&'a TaskMap>
    ensures { option_copied result ≡ in_either (get tasks.now uuid) (get made.now uuid) }
{
    match tasks.get(uuid) {
        Some(task) => Some(task),
        None => made.get(uuid),
    }
}

// An instance that is there stays, another one is made. The mask grows either way.
fn grow_by(
    alloc: Global,
    asking: &Asking<'_>,
    made: &mut Tasks,
    mask: &mut String,
    parent: Uuid,
    task: &TaskMap,
    base: u64,
    i: u64,
    at: u64,
) -> Result<(), Memory>
    requires { at < MOMENT_LIMIT }
    ensures { OnOk result (growth_in made.new mask.new ≡ with_instance (asked_in asking.now) parent task.now base i at (growth_in made.old mask.old)) }
{
    let uuid = instance_uuid(alloc, parent, i)?;
    if let Some(there) = there_of(asking.tasks, made, uuid) {
        return push_mark(mask, there, asking.second);
    }
    let new = instance(alloc, parent, task, asking.second, base, i, at)?;
    push_mark(mask, &new, asking.second)?;
    let _ = made.insert(uuid, new)?;
    Ok(())
}

fn base_of(recurrence: &Recurrence, zone: &Zone) -> u64
    requires { IsRecurrence recurrence.now }
    ensures { result ≡ base_of recurrence.now zone.now }
{
    match due_of(recurrence, zone, 0) {
        Some(at) => at,
        None => recurrence.due,
    }
}

/// Makes the instances of a parent from number `from` on, at most a thousand.
pub(crate) fn grow(
    alloc: Global,
    asking: &Asking<'_>,
    made: &mut Tasks,
    mask: &mut String,
    parent: Uuid,
    task: &TaskMap,
    recurrence: &Recurrence,
    from: u64,
) -> Result<(), Memory>
    requires { IsRecurrence recurrence.now }
    ensures { OnOk result (growth_in made.new mask.new ≡ grown (asked_in asking.now) parent task.now recurrence.now from 1000 (growth_in made.old mask.old)) }
{
    let until = moment_at(task, "until");
    let base = base_of(recurrence, asking.zone);
    let mut known = 0;
    let mut i = from;
    for count in 0..1000u64 {
        let Some(at) = wanted(
            recurrence,
            until,
            asking.zone,
            asking.second,
            asking.limit,
            i,
            &mut known,
        ) else {
            return Ok(());
        };
        grow_by(alloc, asking, made, mask, parent, task, base, i, at)?;
        i += 1;
    }
    Ok(())
}
