// What becomes of tasks.
ghost use Rattle.std.specs.Prelude.{◌≡◌, ◌++◌, ◌∷◌, Some, None, OnOk};
ghost use Rattle.std.specs.FinMap.{get, empty};
ghost use Rattle.tw_world.specs.declared.Moment.{Moment as AtMoment};
ghost use Rattle.tw_model.specs.Maps.{set_at};
ghost use Rattle.tw_model.specs.Edits.{edits_of};
ghost use Rattle.tw_model.specs.declared.operations.Op.TheVariants.{Create};
ghost use Rattle.tw_model.specs.Changes.{change_ops, changed, ops_of};

use crate::{Op, TaskMap, Tasks, edits};
use std::alloc::Global;
use tw_world::{Memory, Moment};
use uuid::Uuid;

/// What becomes of the task of a uuid: it is `task` from then on, or there is none.
#[derive(Drop)]
pub struct Change {
    pub uuid: Uuid,
    pub task: Option<TaskMap>,
}

// Puts a task if there is none.
fn add(
    alloc: Global,
    tasks: &mut Tasks,
    ops: &mut Vec<Op>,
    uuid: Uuid,
    task: TaskMap,
    at: Moment,
) -> Result<(), Memory>
    requires { get tasks.old uuid ≡ None }
    ensures tasks { OnOk result (tasks.new ≡ set_at tasks.old uuid (Some task)) }
    ensures ops { OnOk result (ops.new.items ≡ ops.old.items ++ Create uuid ∷ edits_of uuid empty task at) }
{
    let mut more = edits(alloc, uuid, &TaskMap::new(alloc), &task, at)?;
    ops.push(Op::Create { uuid })?;
    ops.append(&mut more)?;
    let _ = tasks.insert(uuid, task)?;
    Ok(())
}

// Puts a task in the place of another, or where there is none.
fn put(
    alloc: Global,
    tasks: &mut Tasks,
    ops: &mut Vec<Op>,
    uuid: Uuid,
    task: TaskMap,
    at: Moment,
) -> Result<(), Memory>
    ensures tasks { OnOk result (tasks.new ≡ set_at tasks.old uuid (Some task)) }
    ensures ops { OnOk result (ops.new.items ≡ ops.old.items ++ change_ops uuid (get tasks.old uuid) (Some task) at) }
{
    match tasks.get(uuid) {
        Some(before) => {
            let mut more = edits(alloc, uuid, before, &task, at)?;
            ops.append(&mut more)?;
            let mut task = task;
            let _ = tasks.swap(uuid, &mut task);
            Ok(())
        }
        None => add(alloc, tasks, ops, uuid, task, at),
    }
}

// Takes a task out, if there is one.
fn take_out(tasks: &mut Tasks, ops: &mut Vec<Op>, uuid: Uuid) -> Result<(), Memory>
    ensures tasks { OnOk result (tasks.new ≡ set_at tasks.old uuid None) }
    ensures ops { (at : AtMoment) → OnOk result (ops.new.items ≡ ops.old.items ++ change_ops uuid (get tasks.old uuid) None at) }
{
    match tasks.remove(uuid) {
        Some(before) => {
            ops.push(Op::Delete { uuid, before })?;
            Ok(())
        }
        None => Ok(()),
    }
}

/// Makes a change, and puts the operations that lead there after others; each update is stamped with the moment `at`.
/// A change that leaves the task as it is has none. After want of memory a part of it may be made.
pub fn make(
    alloc: Global,
    tasks: &mut Tasks,
    ops: &mut Vec<Op>,
    change: Change,
    at: Moment,
) -> Result<(), Memory>
    ensures tasks { OnOk result (tasks.new ≡ changed tasks.old change) }
    ensures ops { OnOk result (ops.new.items ≡ ops.old.items ++ ops_of tasks.old change at) }
{
    let Change { uuid, task } = change;
    match task {
        Some(task) => put(alloc, tasks, ops, uuid, task, at),
        None => take_out(tasks, ops, uuid),
    }
}
