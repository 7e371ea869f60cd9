use crate::model::edits::is_update;
use crate::transform::{are, operations};
use std::alloc::Global;
use std::test::Fail;
use tw_groups::{cross, pending_on};
use tw_model::{Op, SyncOp, TaskMap, Tasks};
use tw_world::Memory;
use uuid::Uuid;

// Groups as these tables spell them: operations of one after another, with a bar between two groups.
pub(crate) fn groups(alloc: Global, words: &str) -> Result<Vec<Vec<SyncOp>>, Memory> {
    let mut groups = Vec::new(alloc);
    for group in words.split('|') {
        groups.push(operations(alloc, group)?)?;
    }
    Ok(groups)
}

pub(crate) fn are_groups(
    alloc: Global,
    groups: &Vec<Vec<SyncOp>>,
    words: &str,
) -> Result<bool, Memory> {
    let mut at = 0;
    for group in words.split('|') {
        match groups.get(at) {
            Some(ops) if are(alloc, ops, group)? => at += 1,
            _ => return Ok(false),
        }
    }
    Ok(at == groups.len())
}

// Operations of a version, groups, and what is left of both.
const CROSSED: [[&str; 4]; 3] = [
    ["U1aX30", "U1aA10|U1aB50 U1bB50", "", "|U1aB50 U1bB50"],
    ["D1", "U1aA10 C2|U1aB50", "D1", "C2|"],
    ["U1aX30 U2aX30", "U1aX40|U3aA10", "U2aX30", "|U3aA10"],
];

fn is_crossed(alloc: Global, row: &[&str; 4]) -> Result<bool, Memory> {
    let mut ops = operations(alloc, row[0])?;
    let mut groups = groups(alloc, row[1])?;
    cross(&mut ops, &mut groups);
    Ok(are(alloc, &ops, row[2])? && are_groups(alloc, &groups, row[3])?)
}

// How many of the rows are crossed as wanted, up to the first that is not.
fn crossed_so_far(alloc: Global) -> Result<usize, Memory> {
    for (number, row) in CROSSED.iter().enumerate() {
        if !is_crossed(alloc, row)? {
            return Ok(number);
        }
    }
    Ok(CROSSED.len())
}

#[test]
fn each_group_keeps_its_own(rt: HostRuntime) -> Result<(), Fail> {
    assert_eq!(rt; crossed_so_far(rt.alloc())?, CROSSED.len());
    Ok(())
}

fn is_undo_point(op: &Op) -> bool {
    match op {
        Op::UndoPoint => true,
        _ => false,
    }
}

pub(crate) fn one_task(alloc: Global) -> Result<Tasks, Memory> {
    let mut task = TaskMap::new(alloc);
    task.set(alloc, "a", Some("Z"))?;
    let mut tasks = Tasks::new(alloc);
    let _ = tasks.insert(Uuid::from_u128(b'1' as u128), task)?;
    Ok(tasks)
}

fn is_deletion_of_b(op: &Op) -> bool {
    match op {
        Op::Delete { before, .. } => before.get("a") == Some("B"),
        _ => false,
    }
}

// Whether these are the operations of two groups, the first about a value Z, with the old values that they find.
fn find_their_values(ops: &Vec<Op>) -> bool {
    ops.len() == 5
        && is_undo_point(&ops[0])
        && is_update(&ops[1], &("a", Some("Z"), Some("A")))
        && is_undo_point(&ops[2])
        && is_update(&ops[3], &("a", Some("A"), Some("B")))
        && is_deletion_of_b(&ops[4])
}

#[test]
fn old_values_are_those_that_operations_find(rt: HostRuntime) -> Result<(), Fail> {
    let alloc = rt.alloc();
    let mut tasks = one_task(alloc)?;
    let ops = pending_on(alloc, &mut tasks, &groups(alloc, "U1aA10|U1aB50 D1")?)?;
    assert!(rt; find_their_values(&ops) && tasks.len() == 0);
    Ok(())
}

fn thousand_groups(alloc: Global) -> Result<Vec<Vec<SyncOp>>, Memory> {
    let mut groups = Vec::new(alloc);
    for _ in 0..1000 {
        groups.push(operations(alloc, "U1aA10 U1aB50")?)?;
    }
    Ok(groups)
}

#[test]
fn a_thousand_groups_become_pending_operations(rt: HostRuntime) -> Result<(), Fail> {
    let alloc = rt.alloc();
    let mut tasks = one_task(alloc)?;
    let ops = pending_on(alloc, &mut tasks, &thousand_groups(alloc)?)?;
    assert!(rt; ops.len() == 3000 && is_update(&ops[2999], &("a", Some("A"), Some("B"))));
    Ok(())
}
