// Running the hooks of a task.
ghost use Rattle.std.specs.Prelude.{◌≡◌, IfOk, IfErr};
ghost use Rattle.tw_spawn.specs.Spawner.{SpawnerKept, TellsRuns};
ghost use Rattle.tw_hooks.specs.Names.{told_hooks};
ghost use Rattle.tw_hooks.specs.Hooked.{HookedBy, RefusedBy, HookedNow, HookRefused};
ghost use Rattle.tw_hooks.specs.One.{OneAnswered, OneRefused, NoneBegun};

use crate::answer::{answered, given};
use crate::error::HookError;
use crate::event::Event;
use crate::names::hooks_of;
use std::alloc::Global;
use std::collections::BTreeSet;
use tw_model::TaskMap;
use tw_spawn::Spawner;
use tw_world::{Moment, Text};
use uuid::Uuid;

// Runs one hook on a task as it is so far.
fn run_one<P: Spawner>(
    alloc: Global,
    spawner: &mut P,
    event: Event,
    name: &str,
    uuid: Uuid,
    before: &TaskMap,
    so_far: &TaskMap,
    now: Moment,
) -> Result<TaskMap, HookError>
    ensures answered { IfOk result (OneAnswered event uuid now.seconds before.now P.model spawner.old spawner.new name.now so_far.now) }
    ensures refused { IfErr result (OneRefused event uuid now.seconds before.now P.model spawner.old spawner.new name.now so_far.now) }
    ensures kept { SpawnerKept P.model spawner.old spawner.new }
{
    let input = given(alloc, event, uuid, before, so_far, now)?;
    let mut output = Vec::new(alloc);
    let status = spawner.run(name, input.as_slice(), &mut output)?;
    if status != 0 {
        return Err(HookError::Refused {
            name: Text::from_str(alloc, name)?,
            status,
        });
    }
    match answered(alloc, uuid, output.as_slice(), now)? {
        Some(task) => Ok(task),
        None => Err(HookError::Answer {
            name: Text::from_str(alloc, name)?,
        }),
    }
}

// The hooks of an event, in byte order of their names.
pub(crate) fn hooks_now<P: Spawner>(
    alloc: Global,
    spawner: &mut P,
    event: Event,
) -> Result<BTreeSet<Text>, HookError>
    ensures hooks { IfOk result (λ hooks. TellsRuns P.model spawner.old → hooks.keys ≡ told_hooks event P.model spawner.old) }
    ensures refused { IfErr result (NoneBegun P.model spawner.old spawner.new) }
    ensures runs { TellsRuns P.model spawner.old → P.model.runs spawner.new ≡ P.model.runs spawner.old }
    ensures kept { SpawnerKept P.model spawner.old spawner.new }
{
    let names = match spawner.names(alloc) {
        Ok(names) => names,
        Err(error) => return Err(HookError::from(error)),
    };
    match hooks_of(alloc, event, &names) {
        Ok(hooks) => Ok(hooks),
        Err(_) => Err(HookError::Memory),
    }
}

// Runs these hooks for a task, one after another.
pub(crate) fn run_each<P: Spawner>(
    alloc: Global,
    spawner: &mut P,
    event: Event,
    hooks: &BTreeSet<Text>,
    uuid: Uuid,
    before: &TaskMap,
    after: &TaskMap,
    now: Moment,
) -> Result<TaskMap, HookError>
    ensures hooked { IfOk result (HookedBy event uuid now.seconds before.now P.model spawner.old spawner.new hooks.now.keys after.now) }
    ensures refused { IfErr result (RefusedBy event uuid now.seconds before.now P.model spawner.old spawner.new hooks.now.keys after.now) }
    ensures kept { SpawnerKept P.model spawner.old spawner.new }
{
    let mut so_far = match after.copy(alloc) {
        Ok(task) => task,
        Err(_) => return Err(HookError::Memory),
    };
    for name in hooks {
        match run_one(
            alloc,
            spawner,
            event,
            name.as_str(),
            uuid,
            before,
            &so_far,
            now,
        ) {
            Ok(next) => so_far = next,
            Err(error) => return Err(error),
        }
    }
    Ok(so_far)
}

/// Runs the hooks of an event for a task, in byte order of their names, and gives the task that the last one answers. Each is given the
/// task as the one before it answered, and for `Event::Modify` a line of the task `before` first.
pub fn run_hooks<P: Spawner>(
    alloc: Global,
    spawner: &mut P,
    event: Event,
    uuid: Uuid,
    before: &TaskMap,
    after: &TaskMap,
    now: Moment,
) -> Result<TaskMap, HookError>
    ensures hooked { IfOk result (HookedNow event uuid now.seconds before.now P.model spawner.old spawner.new after.now) }
    ensures refused { IfErr result (HookRefused event uuid now.seconds before.now P.model spawner.old spawner.new after.now) }
    ensures kept { SpawnerKept P.model spawner.old spawner.new }
{
    match hooks_now(alloc, spawner, event) {
        Ok(hooks) => run_each(alloc, spawner, event, &hooks, uuid, before, after, now),
        Err(error) => Err(error),
    }
}
