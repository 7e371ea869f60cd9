use crate::model::{CHANGES, holds, life, push_updates};
use std::alloc::Global;
use std::test::Fail;
use tw_model::{Op, SyncOp, Tasks};
use tw_world::Memory;
use uuid::Uuid;

// Where the run from an index ends.
fn run_end(alloc: Global, tasks: &mut Tasks, ops: &Vec<Op>, from: usize) -> Result<usize, Memory> {
    if from < ops.len() {
        tasks.apply_run(alloc, ops, from)
    } else {
        Ok(from)
    }
}

// A task that is there when its life is over, and a second undo point among its operations.
fn second_life(alloc: Global, uuid: Uuid, ops: &mut Vec<Op>) -> Result<(), Memory> {
    ops.push(Op::Create { uuid })?;
    push_updates(alloc, ops, uuid, &CHANGES[..1])?;
    ops.push(Op::UndoPoint)?;
    push_updates(alloc, ops, uuid, &[("status", Some("completed"), None)])?;
    Ok(())
}

// Whether runs from these indexes end there, one after another.
fn end_at(
    alloc: Global,
    tasks: &mut Tasks,
    ops: &Vec<Op>,
    runs: &[(usize, usize)],
) -> Result<bool, Memory> {
    for (from, to) in runs {
        if run_end(alloc, tasks, ops, *from)? != *to {
            return Ok(false);
        }
    }
    Ok(true)
}

// The operations of two lives.
fn two_lives(alloc: Global, uuid: Uuid, other: Uuid) -> Result<Vec<Op>, Memory> {
    let mut ops = life(alloc, uuid)?;
    second_life(alloc, other, &mut ops)?;
    Ok(ops)
}

#[test]
fn runs_about_one_task_are_applied_at_once(rt: HostRuntime) -> Result<(), Fail> {
    let alloc = rt.alloc();
    let (uuid, other) = (Uuid::from_u128(7), Uuid::from_u128(8));
    let ops = two_lives(alloc, uuid, other)?;
    let mut tasks = Tasks::new(alloc);
    let runs = [(0, 1), (1, 6), (6, 7), (7, 10), (10, 10)];
    assert!(rt; end_at(alloc, &mut tasks, &ops, &runs)?);
    let is_left = tasks.len() == 1 && holds(tasks.get(other), &[("status", "pending")]);
    assert!(rt; is_left && end_at(alloc, &mut tasks, &ops, &[(7, 7), (2, 2)])?);
    Ok(())
}

// Operations as they are exchanged.
fn exchanged(alloc: Global, ops: &Vec<Op>) -> Result<Vec<SyncOp>, Memory> {
    let mut plain = Vec::new(alloc);
    for op in ops {
        if let Some(op) = op.to_sync(alloc)? {
            plain.push(op)?;
        }
    }
    Ok(plain)
}

// Where the run of exchanged operations from an index ends.
fn sync_run_end(
    alloc: Global,
    tasks: &mut Tasks,
    ops: &Vec<SyncOp>,
    from: usize,
) -> Result<usize, Memory> {
    if from < ops.len() {
        tasks.apply_sync_run(alloc, ops, from)
    } else {
        Ok(from)
    }
}

// Whether runs from these indexes end there, one after another.
fn exchanges_end_at(
    alloc: Global,
    tasks: &mut Tasks,
    ops: &Vec<SyncOp>,
    runs: &[(usize, usize)],
) -> Result<bool, Memory> {
    for (from, to) in runs {
        if sync_run_end(alloc, tasks, ops, *from)? != *to {
            return Ok(false);
        }
    }
    Ok(true)
}

// The operations of a life, and one that makes another task.
fn life_and_other(alloc: Global, uuid: Uuid, other: Uuid) -> Result<Vec<SyncOp>, Memory> {
    let mut ops = exchanged(alloc, &life(alloc, uuid)?)?;
    ops.push(SyncOp::Create { uuid: other })?;
    Ok(ops)
}

#[test]
fn exchanged_runs_skip_what_does_not_fit(rt: HostRuntime) -> Result<(), Fail> {
    let alloc = rt.alloc();
    let (uuid, other) = (Uuid::from_u128(7), Uuid::from_u128(8));
    let ops = life_and_other(alloc, uuid, other)?;
    let mut tasks = Tasks::new(alloc);
    let runs = [(0, 5), (0, 1), (5, 6), (1, 2), (6, 7), (6, 7)];
    assert!(rt; exchanges_end_at(alloc, &mut tasks, &ops, &runs)?);
    assert!(rt; tasks.len() == 1 && holds(tasks.get(other), &[]));
    Ok(())
}
