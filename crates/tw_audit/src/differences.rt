// What differs between two task databases.
ghost use Rattle.std.specs.Prelude.{◌≡◌, ◌++◌, Some, OnOk, IfOk};
ghost use Rattle.std.specs.Option.{option_copied, option_eq};
ghost use Rattle.std.specs.FinMap as map;
ghost use Rattle.tw_model.specs.LocalOps.{same_task};
ghost use Rattle.tw_audit.specs.Differences.{unlike, lacking, least, lesser, differing, difference_at, difference};

use crate::names::first_value;
use std::alloc::Global;
use std::cmp::Ordering;
use tw_model::{TaskMap, Tasks};
use tw_world::{Memory, Text};
use uuid::Uuid;

/// What differs of a task.
pub enum What {
    /// Only the replica has it.
    OnlyHere,
    /// Only the server's chain has it.
    OnlyThere,
    /// A property, the first one in byte order that differs, has these values here and there, or none.
    Value {
        property: Text,
        here: Option<Text>,
        there: Option<Text>,
    },
}

// It is written out, so that a caller does not prove again how each part is dropped.
impl Drop for What {
    fn drop(self) {
        match self {
            What::OnlyHere => {}
            What::OnlyThere => {}
            What::Value {
                property: _,
                here: _,
                there: _,
            } => {}
        }
    }
}

/// How many tasks differ, and what of the first one in byte order of the uuids.
#[derive(Drop)]
pub struct Difference {
    pub tasks: u64,
    pub uuid: Uuid,
    pub what: What,
}

// Whether a task is among others as it is.
fn has_same(tasks: &Tasks, uuid: Uuid, task: &TaskMap) -> bool
    ensures { result ≡ option_eq same_task (map.get tasks.now uuid) (Some task.now) }
{
    match tasks.get(uuid) {
        Some(there) => there.is_same(task),
        None => false,
    }
}

// Puts the uuids of the tasks that others lack or have otherwise after uuids.
fn add_unlike(uuids: &mut Vec<Uuid>, tasks: &Tasks, others: &Tasks) -> Result<(), Memory>
    ensures { OnOk result (uuids.new.items ≡ uuids.old.items ++ unlike same_task others.now (map.entries tasks.now)) }
{
    for (uuid, task) in tasks.iter() {
        if !has_same(others, *uuid, task) {
            uuids.push(*uuid)?;
        }
    }
    Ok(())
}

// Puts the uuids of the tasks that others lack after uuids.
fn add_lacking(uuids: &mut Vec<Uuid>, tasks: &Tasks, others: &Tasks) -> Result<(), Memory>
    ensures { OnOk result (uuids.new.items ≡ uuids.old.items ++ lacking others.now (map.entries tasks.now)) }
{
    for (uuid, _task) in tasks.iter() {
        if others.get(*uuid).is_none() {
            uuids.push(*uuid)?;
        }
    }
    Ok(())
}

fn differing(alloc: Global, here: &Tasks, there: &Tasks) -> Result<Vec<Uuid>, Memory>
    ensures { IfOk result (λ uuids. uuids.items ≡ differing same_task here.now there.now) }
{
    let mut uuids = Vec::new(alloc);
    add_unlike(&mut uuids, here, there)?;
    add_lacking(&mut uuids, there, here)?;
    Ok(uuids)
}

fn lesser(uuid: Uuid, other: Option<Uuid>) -> Uuid
    ensures { result ≡ lesser uuid other }
{
    match other {
        Some(other) if other.cmp(&uuid) == Ordering::Less => other,
        _ => uuid,
    }
}

// The first uuid in byte order.
fn least(uuids: &Vec<Uuid>) -> Option<Uuid>
    ensures { result ≡ least uuids.now.items }
{
    let mut first = None;
    let mut at = uuids.len();
    while at > 0 {
        at -= 1;
        first = Some(lesser(uuids[at], first));
    }
    first
}

// What differs of one task, if something does.
fn difference_at(
    alloc: Global,
    here: Option<&TaskMap>,
    there: Option<&TaskMap>,
) -> Result<Option<What>, Memory>
    ensures { IfOk result (λ what. what ≡ difference_at (option_copied here.entry) (option_copied there.entry)) }
{
    match (here, there) {
        (Some(here), Some(there)) => first_value(alloc, here, there),
        (Some(_), None) => Ok(Some(What::OnlyHere)),
        (None, Some(_)) => Ok(Some(What::OnlyThere)),
        (None, None) => Ok(None),
    }
}

/// What differs first, if something does: by the bytes of the uuids, then by those of the properties.
pub(crate) fn compare(
    alloc: Global,
    here: &Tasks,
    there: &Tasks,
) -> Result<Option<Difference>, Memory>
    ensures { IfOk result (λ found. found ≡ difference here.now there.now) }
{
    let uuids = differing(alloc, here, there)?;
    let Some(uuid) = least(&uuids) else {
        return Ok(None);
    };
    match difference_at(alloc, here.get(uuid), there.get(uuid))? {
        Some(what) => Ok(Some(Difference {
            tasks: uuids.len() as u64,
            uuid,
            what,
        })),
        None => Ok(None),
    }
}
