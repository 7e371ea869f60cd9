use crate::model::{is_left, moment, put_new, task_of};
use std::alloc::Global;
use std::test::Fail;
use tw_model::{Change, Op, Tasks, make};
use tw_world::Memory;
use uuid::Uuid;

// What an operation is, and the property that it sets.
fn deed(op: &Op) -> (&str, &str) {
    match op {
        Op::Create { .. } => ("create", ""),
        Op::Delete { .. } => ("delete", ""),
        Op::Update { property, .. } => ("update", property.as_str()),
        Op::UndoPoint => ("undo point", ""),
    }
}

// A change of a task into one with these properties, or its removal.
fn change(alloc: Global, uuid: Uuid, pairs: Option<&[(&str, &str)]>) -> Result<Change, Memory> {
    let task = match pairs {
        Some(pairs) => Some(task_of(alloc, pairs)?),
        None => None,
    };
    Ok(Change { uuid, task })
}

const COMPLETED: [(&str, &str); 2] = [("status", "completed"), ("wait", "2")];

// Makes a change, and puts its operations behind the others.
fn put(
    alloc: Global,
    tasks: &mut Tasks,
    ops: &mut Vec<Op>,
    uuid: Uuid,
    pairs: Option<&[(&str, &str)]>,
) -> Result<(), Memory> {
    let change = change(alloc, uuid, pairs)?;
    make(alloc, tasks, ops, change, moment())
}

// The operations of changes of two tasks, of which the first is there with a status and a project.
fn changed(alloc: Global, tasks: &mut Tasks, here: Uuid, new: Uuid) -> Result<Vec<Op>, Memory> {
    let mut ops = Vec::new(alloc);
    put(alloc, tasks, &mut ops, new, Some(&[("status", "pending")]))?;
    put(alloc, tasks, &mut ops, here, Some(&COMPLETED))?;
    put(alloc, tasks, &mut ops, here, None)?;
    put(alloc, tasks, &mut ops, here, None)?;
    Ok(ops)
}

const DEEDS: [(&str, &str); 6] = [
    ("create", ""),
    ("update", "status"),
    ("update", "project"),
    ("update", "status"),
    ("update", "wait"),
    ("delete", ""),
];

fn are_deeds(ops: &Vec<Op>) -> bool {
    for (op, want) in ops.iter().zip(DEEDS.iter()) {
        if deed(op) != *want {
            return false;
        }
    }
    ops.len() == DEEDS.len()
}

// A task with a status and a project.
fn one_task(alloc: Global, here: Uuid) -> Result<Tasks, Fail> {
    let mut tasks = Tasks::new(alloc);
    let task = task_of(alloc, &[("status", "pending"), ("project", "Home")])?;
    put_new(&mut tasks, here, task)?;
    Ok(tasks)
}

#[test]
fn a_change_puts_its_operations_after_the_others(rt: HostRuntime) -> Result<(), Fail> {
    let alloc = rt.alloc();
    let (here, new) = (Uuid::from_u128(7), Uuid::from_u128(8));
    let mut tasks = one_task(alloc, here)?;
    assert!(rt; are_deeds(&changed(alloc, &mut tasks, here, new)?));
    assert!(rt; is_left(&tasks, new, &Some(&[("status", "pending")])));
    Ok(())
}
