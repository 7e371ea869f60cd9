// The tasks that commands make of drawn uuids.
ghost use Rattle.std.specs.Prelude.{◌≡◌, IfOk};
ghost use Rattle.tw_changes.specs.Makes.{made_task};

pub(crate) mod add;
pub(crate) mod duplicate;
pub(crate) mod import;

use crate::effects::put_second;
use std::alloc::Global;
use tw_model::TaskMap;
use tw_world::{Memory, Moment};

/// A task with a status, made at this moment of another.
pub(crate) fn made_task(
    alloc: Global,
    now: Moment,
    status: &str,
    task: TaskMap,
) -> Result<TaskMap, Memory>
    ensures { IfOk result (λ made. made ≡ made_task now status.now task) }
{
    let mut task = task;
    put_second(alloc, &mut task, "entry", now)?;
    put_second(alloc, &mut task, "modified", now)?;
    task.set(alloc, "status", Some(status))?;
    Ok(task)
}
