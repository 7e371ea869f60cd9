// `add` and `log`: the task that they make.
ghost use Rattle.std.specs.Prelude.{◌≡◌, IfOk};
ghost use Rattle.tw_changes.specs.Makes.Add as spec;

use crate::effects::put_second;
use crate::makes::made_task;
use std::alloc::Global;
use tw_model::TaskMap;
use tw_words::{Modification, apply};
use tw_world::{Memory, Moment};

/// Whether a task recurs.
pub fn recurs(task: &TaskMap) -> bool
    ensures { result ≡ spec.recurs task.now }
{
    task.get("recur").is_some()
}

// A task that recurs is a template.
fn as_template(alloc: Global, task: TaskMap) -> Result<TaskMap, Memory>
    ensures { IfOk result (λ made. made ≡ spec.as_template task) }
{
    let mut task = task;
    if recurs(&task) {
        task.set(alloc, "status", Some("recurring"))?;
    }
    Ok(task)
}

/// The task that `add` makes.
pub fn added(alloc: Global, words: &Vec<Modification>, now: Moment) -> Result<TaskMap, Memory>
    ensures { IfOk result (λ task. task ≡ spec.added words.now.items now) }
{
    let task = made_task(alloc, now, "pending", TaskMap::new(alloc))?;
    as_template(alloc, apply(alloc, words, &task)?)
}

/// The task that `log` makes.
pub fn logged(alloc: Global, words: &Vec<Modification>, now: Moment) -> Result<TaskMap, Memory>
    ensures { IfOk result (λ task. task ≡ spec.logged words.now.items now) }
{
    let mut task = made_task(alloc, now, "completed", TaskMap::new(alloc))?;
    put_second(alloc, &mut task, "end", now)?;
    apply(alloc, words, &task)
}
