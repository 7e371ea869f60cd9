// Running the hooks of a whole call.
ghost use Rattle.std.specs.Prelude.{◌≡◌, [], IfOk, IfErr};
ghost use Rattle.tw_spawn.specs.Spawner.{SpawnerKept};
ghost use Rattle.tw_hooks.specs.All.{AllHookedBy, AllRefusedBy, AllHookedNow, AllRefused};

use crate::error::HookError;
use crate::event::Event;
use crate::run::{hooks_now, run_each};
use std::alloc::Global;
use std::collections::BTreeSet;
use tw_model::TaskMap;
use tw_spawn::Spawner;
use tw_world::{Moment, Text};
use uuid::Uuid;

/// A task that hooks are asked about.
pub struct Ask {
    pub uuid: Uuid,
    /// The task as it was. For `Event::Add` it is in no line.
    pub before: TaskMap,
    /// The task as it is to be.
    pub after: TaskMap,
}

// It is written out, so that a caller does not prove again how each part is dropped.
impl Drop for Ask {
    fn drop(self) {
        let Ask {
            uuid: _,
            before: _,
            after: _,
        } = self;
    }
}

// Runs these hooks for each task in turn.
fn run_asks<P: Spawner>(
    alloc: Global,
    spawner: &mut P,
    event: Event,
    hooks: &BTreeSet<Text>,
    asks: &[Ask],
    now: Moment,
) -> Result<Vec<TaskMap>, HookError>
    ensures hooked { IfOk result (λ finals. AllHookedBy event now.seconds P.model spawner.old spawner.new hooks.now.keys asks.now finals.items) }
    ensures refused { IfErr result (AllRefusedBy event now.seconds P.model spawner.old spawner.new hooks.now.keys asks.now) }
    ensures kept { SpawnerKept P.model spawner.old spawner.new }
{
    let mut finals = Vec::new(alloc);
    for ask in asks {
        match run_each(
            alloc,
            spawner,
            event,
            hooks,
            ask.uuid,
            &ask.before,
            &ask.after,
            now,
        ) {
            Ok(last) => {
                if finals.push(last).is_err() {
                    return Err(HookError::Memory);
                }
            }
            Err(error) => return Err(error),
        }
    }
    Ok(finals)
}

/// Runs the hooks of an event for each of these tasks in turn, and gives the task that the last hook of each answers. The names of
/// the hooks are asked for once, and not at all if there is no task.
pub fn run_all<P: Spawner>(
    alloc: Global,
    spawner: &mut P,
    event: Event,
    asks: &[Ask],
    now: Moment,
) -> Result<Vec<TaskMap>, HookError>
    ensures hooked { IfOk result (λ finals. AllHookedNow event now.seconds P.model spawner.old spawner.new asks.now finals.items) }
    ensures refused { IfErr result (AllRefused event now.seconds P.model spawner.old spawner.new asks.now) }
    ensures untouched { asks.now ≡ [] → spawner.new ≡ spawner.old }
    ensures kept { SpawnerKept P.model spawner.old spawner.new }
{
    if asks.is_empty() {
        return Ok(Vec::new(alloc));
    }
    match hooks_now(alloc, spawner, event) {
        Ok(hooks) => run_asks(alloc, spawner, event, &hooks, asks, now),
        Err(error) => Err(error),
    }
}
