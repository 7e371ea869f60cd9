// What becomes of the tasks that are generated.
ghost use Rattle.std.specs.Prelude.{◌≡◌, ◌<◌, ◌≤◌, ◌%◌, ◌++◌, ◌==◌, [], cond, ◌∷◌, IfOk, OnOk};
ghost use Rattle.tw_generate.specs.Changes as spec;

use crate::tasks::{moved_task, task_of, uuid_of};
use std::alloc::Global;
use tw_model::Change;
use tw_world::Memory;

/// The first so many tasks are made.
pub(crate) fn made(alloc: Global, seed: u64, count: u64) -> Result<Vec<Change>, Memory>
    requires { count ≤ 10000 }
    ensures { IfOk result (λ changes. changes.items ≡ spec.made seed count) }
{
    let mut changes = Vec::new(alloc);
    for i in 0..count {
        let task = Some(task_of(alloc, seed, i)?);
        changes.push(Change {
            uuid: uuid_of(seed, i),
            task,
        })?;
    }
    Ok(changes)
}

// A task goes to another project, if the number divides its own.
fn push_moved(
    alloc: Global,
    changes: &mut Vec<Change>,
    seed: u64,
    divisor: u64,
    project: &str,
    i: u64,
) -> Result<(), Memory>
    requires few { i < 10000 }
    requires some { 0 < divisor }
    ensures { OnOk result (changes.new.items ≡ changes.old.items ++ cond (i % divisor == 0) (spec.moved_one seed i project.now ∷ []) []) }
{
    if i % divisor != 0 {
        return Ok(());
    }
    let task = Some(moved_task(alloc, seed, i, project)?);
    changes.push(Change {
        uuid: uuid_of(seed, i),
        task,
    })?;
    Ok(())
}

/// Those of the first so many tasks whose number this divides go to another project.
pub(crate) fn moved(
    alloc: Global,
    seed: u64,
    divisor: u64,
    project: &str,
    count: u64,
) -> Result<Vec<Change>, Memory>
    requires few { count ≤ 10000 }
    requires some { 0 < divisor }
    ensures { IfOk result (λ changes. changes.items ≡ spec.moved seed divisor project.now count) }
{
    let mut changes = Vec::new(alloc);
    for i in 0..count {
        push_moved(alloc, &mut changes, seed, divisor, project, i)?;
    }
    Ok(changes)
}
