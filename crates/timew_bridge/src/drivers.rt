// What drives intervals at a moment.
ghost use Rattle.std.specs.Prelude.{◌≡◌, ◌++◌, IfOk, OnOk};
ghost use Rattle.timew_bridge.specs.Active.{latest, uuid_if, active_uuids};
ghost use Rattle.timew_bridge.specs.Known.{all_known, AreDrivers};

use crate::active::{Active, later, start_of, started};
use crate::known::{Known, known_of};
use crate::label::label_of;
use std::alloc::Global;
use timew_interval::Texts;
use tw_model::Tasks;
use tw_world::{Memory, Moment};
use uuid::Uuid;

/// All that intervals ask of tasks at a moment, which stays as it was when the tasks change: of each one whether it was started and
/// when it was changed, which ones are active, and of the one that was started last its label.
pub struct Drivers {
    pub(crate) known: Vec<Known>,
    pub(crate) started: Vec<Uuid>,
    pub(crate) active: Option<Active>,
    pub(crate) label: Texts,
}

// It is written out, so that a caller does not prove again how each part is dropped.
impl Drop for Drivers {
    fn drop(self) {
        let Drivers {
            known: _,
            started: _,
            active: _,
            label: _,
        } = self;
    }
}

// What intervals ask of each task, in byte order of the uuids, those that are active, and the one of them that was started last.
struct Asked {
    known: Vec<Known>,
    started: Vec<Uuid>,
    active: Option<Active>,
}

fn push_uuid(uuids: &mut Vec<Uuid>, active: Option<Active>) -> Result<(), Memory>
    ensures { OnOk result (uuids.new.items ≡ uuids.old.items ++ uuid_if active) }
{
    if let Some(active) = active {
        uuids.push(active.uuid)?;
    }
    Ok(())
}

fn asked_of(alloc: Global, tasks: &Tasks, now: u64) -> Result<Asked, Memory>
    ensures known { IfOk result (λ asked. asked.known.items ≡ all_known tasks.now) }
    ensures started { IfOk result (λ asked. asked.started.items ≡ active_uuids tasks.now now) }
    ensures active { IfOk result (λ asked. asked.active ≡ latest tasks.now now) }
{
    let mut known = Vec::with_capacity(alloc, tasks.len() as usize)?;
    let mut uuids = Vec::new(alloc);
    let mut active = None;
    for (uuid, task) in tasks.iter() {
        let start = start_of(task);
        known.push(known_of(alloc, *uuid, task, start)?)?;
        let next = started(now, *uuid, task, start);
        push_uuid(&mut uuids, next)?;
        active = later(active, next);
    }
    Ok(Asked {
        known,
        started: uuids,
        active,
    })
}

impl Drivers {
    /// What intervals ask of these tasks. It takes memory for each task.
    pub fn of(alloc: Global, tasks: &Tasks, now: Moment) -> Result<Drivers, Memory>
        ensures { IfOk result (AreDrivers tasks.now now.seconds) }
    {
        let Asked {
            known,
            started,
            active,
        } = asked_of(alloc, tasks, now.seconds)?;
        match active {
            Some(active) => {
                let label = label_of(alloc, tasks, active.uuid)?;
                Ok(Drivers {
                    known,
                    started,
                    active: Some(active),
                    label,
                })
            }
            None => Ok(Drivers {
                known,
                started,
                active: None,
                label: Texts::new(alloc),
            }),
        }
    }
}
