// The task of an instance.
ghost use Rattle.std.specs.Prelude.{◌≡◌, ◌<◌, Some, IfOk, OnOk, IfSome};
ghost use Rattle.std.specs.Fmt.{decimal};
ghost use Rattle.std.specs.FinMap.{insert};
ghost use Rattle.uuid.specs.Text.{hyphenated_text, lower};
ghost use Rattle.tw_recur.specs.Instances.{instance_uuid, moved, with_moved, moved_in, instance};

use std::alloc::Global;
use tw_model::TaskMap;
use tw_urgency::moment_at;
use tw_world::{MOMENT_LIMIT, Memory};
use uuid::Uuid;

/// The uuid of an instance: version 5, of its parent's uuid and its number.
#[tactic(auto, unfolding(crate::specs::Instances::instance_uuid))]
pub(crate) fn instance_uuid(alloc: Global, parent: Uuid, i: u64) -> Result<Uuid, Memory>
    ensures { IfOk result (λ u. u ≡ instance_uuid parent i) }
{
    let name = format!(in alloc; "{i}")?;
    Ok(Uuid::new_v5(&parent, name.as_bytes()))
}

pub(crate) fn set_text(
    alloc: Global,
    task: &mut TaskMap,
    name: &str,
    value: &str,
) -> Result<(), Memory>
    ensures { OnOk result (task.new ≡ insert task.old name.now value.now) }
{
    task.set(alloc, name, Some(value))
}

pub(crate) fn set_number(
    alloc: Global,
    task: &mut TaskMap,
    name: &str,
    number: u64,
) -> Result<(), Memory>
    ensures { OnOk result (task.new ≡ insert task.old name.now (decimal number)) }
{
    let digits = format!(in alloc; "{number}")?;
    task.set(alloc, name, Some(digits.as_str()))
}

// A moment as far from another as this one is from the base.
fn moved(base: u64, at: u64, was: u64) -> Option<u64>
    requires at { at < MOMENT_LIMIT }
    requires was { was < MOMENT_LIMIT }
    ensures { result ≡ moved base at was }
{
    if was + at < base {
        return None;
    }
    let moved = was + at - base;
    if moved < MOMENT_LIMIT {
        Some(moved)
    } else {
        None
    }
}

fn with_moved(
    alloc: Global,
    base: u64,
    at: u64,
    name: &str,
    task: &mut TaskMap,
    was: Option<u64>,
) -> Result<(), Memory>
    requires at { at < MOMENT_LIMIT }
    requires was { IfSome was (λ n. n < MOMENT_LIMIT) }
    ensures { OnOk result (task.new ≡ with_moved base at name.now task.old was) }
{
    let Some(was) = was else {
        return Ok(());
    };
    match moved(base, at, was) {
        Some(now) => set_number(alloc, task, name, now),
        None => task.set(alloc, name, None),
    }
}

fn move_in(alloc: Global, base: u64, at: u64, name: &str, task: &mut TaskMap) -> Result<(), Memory>
    requires { at < MOMENT_LIMIT }
    ensures { OnOk result (task.new ≡ moved_in base at name.now task.old) }
{
    let was = moment_at(task, name);
    with_moved(alloc, base, at, name, task, was)
}

fn uuid_text(task: &mut TaskMap, alloc: Global, name: &str, uuid: Uuid) -> Result<(), Memory>
    ensures { OnOk result (task.new ≡ insert task.old name.now (hyphenated_text lower uuid)) }
{
    task.set(
        alloc,
        name,
        Some(uuid.hyphenated().encode_lower(&mut Uuid::encode_buffer())),
    )
}

// Makes a copy of a parent the task of its instance `i`.
#[tactic(auto, unfolding(crate::specs::Instances::instance))]
fn become_instance(
    alloc: Global,
    task: &mut TaskMap,
    parent: Uuid,
    now: u64,
    base: u64,
    i: u64,
    at: u64,
) -> Result<(), Memory>
    requires { at < MOMENT_LIMIT }
    ensures { OnOk result (task.new ≡ instance parent task.old now base i at) }
{
    task.set(alloc, "mask", None)?;
    set_text(alloc, task, "status", "pending")?;
    set_number(alloc, task, "entry", now)?;
    set_number(alloc, task, "modified", now)?;
    set_number(alloc, task, "due", at)?;
    set_number(alloc, task, "imask", i)?;
    uuid_text(task, alloc, "parent", parent)?;
    move_in(alloc, base, at, "wait", task)?;
    move_in(alloc, base, at, "scheduled", task)
}

/// The task of instance `i` of a parent, which is due at a moment.
pub(crate) fn instance(
    alloc: Global,
    parent: Uuid,
    task: &TaskMap,
    now: u64,
    base: u64,
    i: u64,
    at: u64,
) -> Result<TaskMap, Memory>
    requires { at < MOMENT_LIMIT }
    ensures { IfOk result (λ m. m ≡ instance parent task.now now base i at) }
{
    let mut made = task.copy(alloc)?;
    become_instance(alloc, &mut made, parent, now, base, i, at)?;
    Ok(made)
}
