// `start` and `stop`: what the one puts into a task that is pending or waiting, the other takes out.
ghost use Rattle.std.specs.Prelude.{◌≡◌, IfOk};
ghost use Rattle.std.specs.Option.{option_copied};
ghost use Rattle.std.specs.FinMap.{get};
ghost use Rattle.std.specs.Prelude.{codes};
ghost use Rattle.tw_changes.specs.Effects.Start as spec;

use crate::effects::{Effect, second_text, with_property, without_property};
use std::alloc::Global;
use tw_model::TaskMap;
use tw_urgency::{Status, status_of};
use tw_world::{Memory, Moment};

fn begun(alloc: Global, now: Moment, task: &TaskMap) -> Result<Effect, Memory>
    ensures { IfOk result (λ effect. effect ≡ spec.begun now task.now (get task.now (codes "start"))) }
{
    if task.get("start").is_some() {
        return Ok(Effect::Nothing);
    }
    let second = second_text(alloc, now)?;
    with_property(alloc, task, "start", second.as_str())
}

/// What `start` makes of a task (task(1), "start").
pub(crate) fn start(alloc: Global, now: Moment, task: &TaskMap) -> Result<Effect, Memory>
    ensures { IfOk result (λ effect. effect ≡ spec.start now task.now) }
{
    match status_of(task, now.seconds) {
        Status::Pending | Status::Waiting => begun(alloc, now, task),
        _ => Ok(Effect::Nothing),
    }
}

fn left(alloc: Global, task: &TaskMap) -> Result<Effect, Memory>
    ensures { IfOk result (λ effect. effect ≡ spec.left task.now (get task.now (codes "start"))) }
{
    if task.get("start").is_none() {
        return Ok(Effect::Nothing);
    }
    without_property(alloc, task, "start")
}

/// What `stop` makes of a task (task(1), "stop").
pub(crate) fn stop(alloc: Global, now: Moment, task: &TaskMap) -> Result<Effect, Memory>
    ensures { IfOk result (λ effect. effect ≡ spec.stop now task.now) }
{
    match status_of(task, now.seconds) {
        Status::Pending | Status::Waiting => left(alloc, task),
        _ => Ok(Effect::Nothing),
    }
}
