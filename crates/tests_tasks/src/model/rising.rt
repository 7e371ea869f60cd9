use crate::model::{holds, task_of};
use std::alloc::Global;
use std::test::Fail;
use tw_model::{TaskMap, Tasks};
use tw_world::Memory;
use uuid::Uuid;

// A task with one property for each number, in this order.
fn entries_of(alloc: Global, numbers: &[u128]) -> Result<Vec<(Uuid, TaskMap)>, Memory> {
    let mut entries = Vec::new(alloc);
    for number in numbers {
        let task = task_of(alloc, &[("status", "pending")])?;
        entries.push((Uuid::from_u128(*number), task))?;
    }
    Ok(entries)
}

// Whether there is a database with the tasks of these numbers, and with no others.
fn has_numbers(tasks: Option<&Tasks>, numbers: &[u128]) -> bool {
    match tasks {
        Some(tasks) => tasks.len() == numbers.len() as u64 && has_each(tasks, numbers),
        None => false,
    }
}

fn has_each(tasks: &Tasks, numbers: &[u128]) -> bool {
    for number in numbers {
        let task = tasks.get(Uuid::from_u128(*number));
        if !holds(task, &[("status", "pending")]) {
            return false;
        }
    }
    true
}

// Whether tasks of these numbers are a database.
fn is_database(alloc: Global, numbers: &[u128]) -> Result<bool, Memory> {
    let tasks = Tasks::from_entries(alloc, entries_of(alloc, numbers)?)?;
    Ok(has_numbers(tasks.as_ref(), numbers))
}

#[test]
fn tasks_whose_uuids_rise_are_a_database(rt: HostRuntime) -> Result<(), Fail> {
    let alloc = rt.alloc();
    assert!(rt; is_database(alloc, &[])? && is_database(alloc, &[9])?);
    assert!(rt; is_database(alloc, &[2, 9, 255, 256])?);
    Ok(())
}

#[test]
fn tasks_whose_uuids_do_not_rise_are_no_database(rt: HostRuntime) -> Result<(), Fail> {
    let alloc = rt.alloc();
    assert!(rt; !is_database(alloc, &[2, 2])? && !is_database(alloc, &[9, 2])?);
    assert!(rt; !is_database(alloc, &[2, 256, 255])?);
    Ok(())
}
