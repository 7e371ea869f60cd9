// `done` and `delete`: a task ends, as completed or as deleted.
ghost use Rattle.std.specs.Prelude.{◌≡◌, IfOk, OnOk};
ghost use Rattle.tw_urgency.specs.declared.status.Status.TheVariants.{Pending};
ghost use Rattle.tw_changes.specs.Effects.Done as spec;

use crate::effects::{Effect, put_second};
use std::alloc::Global;
use tw_model::TaskMap;
use tw_urgency::{Status, status_of};
use tw_world::{Memory, Moment};

// Ends a task at this moment with a status.
fn end(alloc: Global, now: Moment, status: &str, task: &mut TaskMap) -> Result<(), Memory>
    ensures { OnOk result (task.new ≡ spec.ended now status.now task.old) }
{
    put_second(alloc, task, "end", now)?;
    task.set(alloc, "status", Some(status))
}

fn completed(alloc: Global, now: Moment, task: &TaskMap) -> Result<Effect, Memory>
    ensures { IfOk result (λ effect. effect ≡ spec.done_by now Pending task.now) }
{
    let mut left = task.copy(alloc)?;
    left.set(alloc, "start", None)?;
    end(alloc, now, "completed", &mut left)?;
    Ok(Effect::Becomes(left))
}

fn deleted(alloc: Global, now: Moment, task: &TaskMap) -> Result<Effect, Memory>
    ensures { IfOk result (λ effect. effect ≡ spec.delete_by now Pending task.now) }
{
    let mut left = task.copy(alloc)?;
    end(alloc, now, "deleted", &mut left)?;
    Ok(Effect::Becomes(left))
}

/// What `done` makes of a task (task(1), "done").
pub(crate) fn done(alloc: Global, now: Moment, task: &TaskMap) -> Result<Effect, Memory>
    ensures { IfOk result (λ effect. effect ≡ spec.done now task.now) }
{
    match status_of(task, now.seconds) {
        Status::Pending | Status::Waiting => completed(alloc, now, task),
        _ => Ok(Effect::Nothing),
    }
}

/// What `delete` makes of a task (task(1), "delete").
pub(crate) fn delete(alloc: Global, now: Moment, task: &TaskMap) -> Result<Effect, Memory>
    ensures { IfOk result (λ effect. effect ≡ spec.delete now task.now) }
{
    match status_of(task, now.seconds) {
        Status::Pending | Status::Waiting | Status::Recurring => { deleted(alloc, now, task) }
        _ => Ok(Effect::Nothing),
    }
}
