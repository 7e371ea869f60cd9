// The pending operations that groups become, with the old values that they find.
ghost use Rattle.std.specs.Prelude.{◌≡◌, ◌++◌, ◌∷◌, [], IfOk, OnOk};
ghost use Rattle.std.specs.Option.{option_copied};
ghost use Rattle.std.specs.FinMap.{get};
ghost use Rattle.tw_model.specs.Ops.{apply, apply_all};
ghost use Rattle.tw_model.specs.declared.Op.TheVariants.{UndoPoint};
ghost use Rattle.tw_groups.specs.Groups.{joined, value_in, task_in, with_old, renewed, pending_on};
ghost use Rattle.tw_groups.specs.Held.{groups_in};

use std::alloc::Global;
use tw_model::{Op, SyncOp, TaskMap, Tasks};
use tw_world::{Memory, Text};
use uuid::Uuid;

fn copy_value(alloc: Global, value: Option<&str>) -> Result<Option<Text>, Memory>
    ensures { IfOk result (λ copy. copy ≡ option_copied value.entry) }
{
    match value {
        Some(text) => Ok(Some(Text::from_str(alloc, text)?)),
        None => Ok(None),
    }
}

fn as_str(value: &Option<Text>) -> Option<&str>
    ensures { option_copied result ≡ value.now }
{
    match value {
        Some(text) => Some(text.as_str()),
        None => None,
    }
}

// The value of a property, if there is a task.
fn value_at(
    alloc: Global,
    tasks: &Tasks,
    uuid: Uuid,
    property: &Text,
) -> Result<Option<Text>, Memory>
    ensures { IfOk result (λ value. value ≡ value_in property.now (get tasks.now uuid)) }
{
    match tasks.get(uuid) {
        Some(task) => copy_value(alloc, task.get(property.as_str())),
        None => Ok(None),
    }
}

// The task, or one without properties.
fn task_at(alloc: Global, tasks: &Tasks, uuid: Uuid) -> Result<TaskMap, Memory>
    ensures { IfOk result (λ task. task ≡ task_in (get tasks.now uuid)) }
{
    match tasks.get(uuid) {
        Some(task) => task.copy(alloc),
        None => Ok(TaskMap::new(alloc)),
    }
}

// An operation with the old value that it finds.
fn with_old(alloc: Global, tasks: &Tasks, op: &SyncOp) -> Result<Op, Memory>
    ensures { IfOk result (λ local. local ≡ with_old tasks.now op.now) }
{
    match op {
        SyncOp::Create { uuid } => Ok(Op::Create { uuid: *uuid }),
        SyncOp::Delete { uuid } => Ok(Op::Delete {
            uuid: *uuid,
            before: task_at(alloc, tasks, *uuid)?,
        }),
        SyncOp::Update {
            uuid,
            property,
            value,
            at,
        } => Ok(Op::Update {
            uuid: *uuid,
            property: property.copy(alloc)?,
            before: value_at(alloc, tasks, *uuid, property)?,
            after: copy_value(alloc, as_str(value))?,
            at: *at,
        }),
    }
}

// Adds an operation with the old value that it finds, and applies it.
fn put_renewed(
    alloc: Global,
    tasks: &mut Tasks,
    op: &SyncOp,
    ops: &mut Vec<Op>,
) -> Result<(), Memory>
    ensures ops { OnOk result (ops.new.items ≡ ops.old.items ++ with_old tasks.old op.now ∷ []) }
    ensures tasks { OnOk result (tasks.new ≡ apply tasks.old op.now) }
{
    ops.push(with_old(alloc, tasks, op)?)?;
    let _ = tasks.apply_sync(alloc, op)?;
    Ok(())
}

fn put_all_renewed(
    alloc: Global,
    tasks: &mut Tasks,
    group: &Vec<SyncOp>,
    ops: &mut Vec<Op>,
) -> Result<(), Memory>
    ensures ops { OnOk result (ops.new.items ≡ ops.old.items ++ renewed tasks.old group.now.items) }
    ensures tasks { OnOk result (tasks.new ≡ apply_all tasks.old group.now.items) }
{
    let mut at = 0;
    while at < group.len() {
        put_renewed(alloc, tasks, &group[at], ops)?;
        at += 1;
    }
    Ok(())
}

// Adds an undo point and a group after it.
fn put_group(
    alloc: Global,
    tasks: &mut Tasks,
    group: &Vec<SyncOp>,
    ops: &mut Vec<Op>,
) -> Result<(), Memory>
    ensures ops { OnOk result (ops.new.items ≡ ops.old.items ++ UndoPoint ∷ renewed tasks.old group.now.items) }
    ensures tasks { OnOk result (tasks.new ≡ apply_all tasks.old group.now.items) }
{
    ops.push(Op::UndoPoint)?;
    put_all_renewed(alloc, tasks, group, ops)
}

/// The pending operations that groups become on these tasks: an undo point before each group, and each operation with its old value.
/// Only the tasks are read that the operations are about.
pub fn pending_on(
    alloc: Global,
    tasks: &mut Tasks,
    groups: &Vec<Vec<SyncOp>>,
) -> Result<Vec<Op>, Memory>
    ensures pending { IfOk result (λ ops. ops.items ≡ pending_on tasks.old (groups_in groups.now.items)) }
    ensures tasks { OnOk result (tasks.new ≡ apply_all tasks.old (joined (groups_in groups.now.items))) }
{
    let mut ops = Vec::new(alloc);
    let mut at = 0;
    while at < groups.len() {
        put_group(alloc, tasks, &groups[at], &mut ops)?;
        at += 1;
    }
    Ok(ops)
}
