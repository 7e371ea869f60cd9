// What becomes of tasks by the instances that are due.
ghost use Rattle.std.specs.Prelude.{◌≡◌, ◌++◌, ◌∷◌, [], length, chars, string_bytes, Some, None, IfOk, OnOk};
ghost use Rattle.std.specs.Option.{option_copied};
ghost use Rattle.tw_world.specs.declared.Moment.{Moment as AtMoment};
ghost use Rattle.std.specs.FinMap as map;
ghost use Rattle.tw_model.specs.Changes.{change_ops, ops_of};
ghost use Rattle.tw_recur.specs.Recurrence.{mask_of};
ghost use Rattle.tw_recur.specs.Instances.{with_mask, mask_change, with_parent, made_changes, instance_changes, ops_each, instances_of};
ghost use Rattle.tw_recur.specs.Grown.{asked_in, making_in, with_all_parents};

use crate::growth::{Asking, grow};
use crate::instance::{set_number, set_text};
use crate::recurrence::{mask_of, recurrence_of};
use std::alloc::Global;
use tw_model::{Change, Op, TaskMap, Tasks, edits};
use tw_time::Zone;
use tw_world::{Memory, Moment};
use uuid::Uuid;

// Adds what becomes of a parent, if its mask has grown.
fn push_mask_change(
    alloc: Global,
    parents: &mut Vec<Change>,
    parent: Uuid,
    task: &TaskMap,
    now: u64,
    mask: &str,
) -> Result<(), Memory>
    ensures { OnOk result (parents.new.items ≡ parents.old.items ++ mask_change parent task.now now mask.now) }
{
    if mask.len() <= mask_of(task).len() {
        return Ok(());
    }
    let mut after = task.copy(alloc)?;
    set_text(alloc, &mut after, "mask", mask)?;
    set_number(alloc, &mut after, "modified", now)?;
    parents.push(Change {
        uuid: parent,
        task: Some(after),
    })?;
    Ok(())
}

fn chars_in(text: &str) -> u64
    ensures { result ≡ length (chars text.now) }
{
    text.chars().count() as u64
}

// What a task makes, if it is a parent.
fn push_parent(
    alloc: Global,
    asking: &Asking<'_>,
    made: &mut Tasks,
    parents: &mut Vec<Change>,
    parent: Uuid,
    task: &TaskMap,
) -> Result<(), Memory>
    ensures { OnOk result (making_in made.new parents.new ≡ with_parent (asked_in asking.now) parent task.now (making_in made.old parents.old)) }
{
    let Some(recurrence) = recurrence_of(task) else {
        return Ok(());
    };
    let old = mask_of(task);
    let from = chars_in(old);
    let mut mask = String::new(alloc);
    mask.push_str(old)?;
    grow(
        alloc,
        asking,
        made,
        &mut mask,
        parent,
        task,
        &recurrence,
        from,
    )?;
    push_mask_change(alloc, parents, parent, task, asking.second, mask.as_str())
}

fn push_parents(
    alloc: Global,
    asking: &Asking<'_>,
    made: &mut Tasks,
    parents: &mut Vec<Change>,
) -> Result<(), Memory>
    ensures { OnOk result (making_in made.new parents.new ≡ with_all_parents asking.now (making_in made.old parents.old)) }
{
    for (uuid, task) in asking.tasks.iter() {
        push_parent(alloc, asking, made, parents, *uuid, task)?;
    }
    Ok(())
}

// Each task is taken out, so that none is copied.
fn push_made(changes: &mut Vec<Change>, made: Tasks) -> Result<(), Memory>
    ensures { OnOk result (changes.new.items ≡ changes.old.items ++ made_changes (map.entries made)) }
{
    let mut left = made;
    while left.len() > 0 {
        let uuid = left.uuid_at(0);
        let task = left.remove(uuid);
        changes.push(Change { uuid, task })?;
    }
    Ok(())
}

/// What becomes of tasks by the instances that are to be made by now, in Unix seconds (task(1), under "recur"): each
/// instance in byte order of its uuid, and then the parents whose masks grow.
/// Instance `i` is due `i` times its parent's `recur` after the parent's own `due`, so a month keeps its end. Those that
/// are due are made and `limit` more, none after `until`, and at most a thousand of one parent at once.
/// One whose uuid is a task already stays as it is, and the mask grows all the same. The mask has a character for each
/// instance, `W` for one that waits and `-` for any other.
/// A task whose `due` or `recur` can't be read makes none; a `wait` or `scheduled` that can't be read is copied as it is.
#[tactic(auto, unfolding(crate::specs::Instances::instance_changes))]
pub fn due_changes(
    alloc: Global,
    tasks: &Tasks,
    now: u64,
    zone: &Zone,
    limit: u32,
) -> Result<Vec<Change>, Memory>
    ensures { IfOk result (λ changes. changes.items ≡ instance_changes tasks.now now zone.now limit) }
{
    let asking = Asking {
        tasks,
        zone,
        second: now,
        limit,
    };
    let mut made = Tasks::new(alloc);
    let mut parents = Vec::new(alloc);
    push_parents(alloc, &asking, &mut made, &mut parents)?;
    let mut changes = Vec::new(alloc);
    push_made(&mut changes, made)?;
    changes.append(&mut parents)?;
    Ok(changes)
}

fn push_making(
    alloc: Global,
    ops: &mut Vec<Op>,
    uuid: Uuid,
    task: &TaskMap,
    at: Moment,
) -> Result<(), Memory>
    ensures { OnOk result (ops.new.items ≡ ops.old.items ++ change_ops uuid None (Some task.now) at) }
{
    ops.push(Op::Create { uuid })?;
    let mut more = edits(alloc, uuid, &TaskMap::new(alloc), task, at)?;
    ops.append(&mut more)?;
    Ok(())
}

fn push_edits(
    alloc: Global,
    ops: &mut Vec<Op>,
    uuid: Uuid,
    before: &TaskMap,
    after: &TaskMap,
    at: Moment,
) -> Result<(), Memory>
    ensures { OnOk result (ops.new.items ≡ ops.old.items ++ change_ops uuid (Some before.now) (Some after.now) at) }
{
    let mut more = edits(alloc, uuid, before, after, at)?;
    ops.append(&mut more)?;
    Ok(())
}

fn push_end(
    alloc: Global,
    ops: &mut Vec<Op>,
    uuid: Uuid,
    before: Option<&TaskMap>,
) -> Result<(), Memory>
    ensures { (at : AtMoment) → OnOk result (ops.new.items ≡ ops.old.items ++ change_ops uuid (option_copied before.entry) None at) }
{
    if let Some(before) = before {
        let before = before.copy(alloc)?;
        ops.push(Op::Delete { uuid, before })?;
    }
    Ok(())
}

fn push_ops(
    alloc: Global,
    ops: &mut Vec<Op>,
    tasks: &Tasks,
    change: &Change,
    at: Moment,
) -> Result<(), Memory>
    ensures { OnOk result (ops.new.items ≡ ops.old.items ++ ops_of tasks.now change.now at) }
{
    match &change.task {
        Some(after) => match tasks.get(change.uuid) {
            Some(before) => push_edits(alloc, ops, change.uuid, before, after, at),
            None => push_making(alloc, ops, change.uuid, after, at),
        },
        None => push_end(alloc, ops, change.uuid, tasks.get(change.uuid)),
    }
}

fn push_each(
    alloc: Global,
    ops: &mut Vec<Op>,
    tasks: &Tasks,
    changes: &Vec<Change>,
    at: Moment,
) -> Result<(), Memory>
    ensures { OnOk result (ops.new.items ≡ ops.old.items ++ ops_each tasks.now changes.now.items at) }
{
    for change in changes {
        push_ops(alloc, ops, tasks, change, at)?;
    }
    Ok(())
}

/// The operations of the same changes, without an undo point. Each has the moment `now`.
#[tactic(auto, unfolding(crate::specs::Instances::instances_of))]
pub fn due_instances(
    alloc: Global,
    tasks: &Tasks,
    now: Moment,
    zone: &Zone,
    limit: u32,
) -> Result<Vec<Op>, Memory>
    ensures { IfOk result (λ ops. ops.items ≡ instances_of tasks.now now zone.now limit) }
{
    let changes = due_changes(alloc, tasks, now.seconds, zone, limit)?;
    let mut ops = Vec::new(alloc);
    push_each(alloc, &mut ops, tasks, &changes, now)?;
    Ok(ops)
}
