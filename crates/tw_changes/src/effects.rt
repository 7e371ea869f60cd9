// What commands make of single tasks.
ghost use Rattle.std.specs.Prelude.{◌≡◌, ◌++◌, None, IfOk, OnOk, string_bytes};
ghost use Rattle.std.specs.Fmt.{decimal};
ghost use Rattle.std.specs.FinMap.{insert};
ghost use Rattle.tw_model.specs.Maps.{set_at};
ghost use Rattle.tw_changes.specs.Stamps.{stamped};
ghost use Rattle.tw_changes.specs.Effects.{change_by};

pub(crate) mod annotate;
pub(crate) mod append;
pub(crate) mod denotate;
pub(crate) mod done;
pub(crate) mod modify;
pub(crate) mod purge;
pub(crate) mod start;

use std::alloc::Global;
use tw_model::{Change, TaskMap};
use tw_world::{Memory, Moment};
use uuid::Uuid;

/// What a command makes of a task.
#[derive(Drop)]
pub enum Effect {
    /// It does not act on the task.
    Nothing,
    /// The task becomes this one, which may be the same.
    Becomes(TaskMap),
    /// The task is removed.
    Removed,
}

/// The second of a moment, in decimal.
pub(crate) fn second_text(alloc: Global, now: Moment) -> Result<String, Memory>
    ensures { IfOk result (λ text. string_bytes text ≡ decimal now.seconds) }
{
    Ok(format!(in alloc; "{}", now.seconds)?)
}

/// Puts the second of a moment into a property.
pub(crate) fn put_second(
    alloc: Global,
    task: &mut TaskMap,
    property: &str,
    now: Moment,
) -> Result<(), Memory>
    ensures { OnOk result (task.new ≡ insert task.old property.now (decimal now.seconds)) }
{
    let second = second_text(alloc, now)?;
    task.set(alloc, property, Some(second.as_str()))
}

/// A task with a property of this value.
pub(crate) fn with_property(
    alloc: Global,
    task: &TaskMap,
    property: &str,
    value: &str,
) -> Result<Effect, Memory>
    ensures { IfOk result (λ effect. effect ≡ Effect.Becomes (insert task.now property.now value.now)) }
{
    let mut after = task.copy(alloc)?;
    after.set(alloc, property, Some(value))?;
    Ok(Effect::Becomes(after))
}

/// A task without a property.
pub(crate) fn without_property(
    alloc: Global,
    task: &TaskMap,
    property: &str,
) -> Result<Effect, Memory>
    ensures { IfOk result (λ effect. effect ≡ Effect.Becomes (set_at task.now property.now None)) }
{
    let mut after = task.copy(alloc)?;
    after.set(alloc, property, None)?;
    Ok(Effect::Becomes(after))
}

/// A task of which a property was changed at this moment, with that moment.
pub(crate) fn stamped(
    alloc: Global,
    now: Moment,
    before: &TaskMap,
    after: TaskMap,
) -> Result<TaskMap, Memory>
    ensures { IfOk result (λ task. task ≡ stamped now before.now after) }
{
    if before.is_same(&after) {
        return Ok(after);
    }
    let mut after = after;
    put_second(alloc, &mut after, "modified", now)?;
    Ok(after)
}

/// Puts the change that an effect is after others.
pub(crate) fn push_change(
    alloc: Global,
    changes: &mut Vec<Change>,
    now: Moment,
    uuid: Uuid,
    before: &TaskMap,
    effect: Effect,
) -> Result<(), Memory>
    ensures { OnOk result (changes.new.items ≡ changes.old.items ++ change_by now uuid before.now effect) }
{
    match effect {
        Effect::Nothing => Ok(()),
        Effect::Becomes(after) => {
            let task = Some(stamped(alloc, now, before, after)?);
            changes.push(Change { uuid, task })?;
            Ok(())
        }
        Effect::Removed => {
            changes.push(Change { uuid, task: None })?;
            Ok(())
        }
    }
}
