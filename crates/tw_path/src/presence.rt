// Which uuids have a task at a place of the chain, beside the tasks at hand.
ghost use Rattle.std.specs.Prelude.{◌≡◌, List, ℕ, cond, OnOk};

use std::alloc::Global;
use std::collections::BTreeMap;
use tw_model::{Op, SyncOp, Tasks};
use tw_world::Memory;
use uuid::Uuid;

/// Which uuids have a task at a place: it notes those whose tasks came or went since the tasks at hand, or before them.
#[derive(Drop)]
pub struct Presence {
    changed: BTreeMap<Uuid, bool>,
}

impl Presence {
    ghost use Rattle.tw_model.specs.Maps.{same_bytes};
    ghost use Rattle.tw_model.specs.Ops.{TasksValue, fits, apply};
    ghost use Rattle.tw_model.specs.LocalOps.{take_back};
    ghost use Rattle.tw_path.specs.Presence.{has, Tells};

    /// No difference.
    pub(crate) fn new(alloc: Global) -> Presence
        ensures { (tasks : TasksValue) → Tells result tasks tasks }
    {
        Presence {
            changed: BTreeMap::new(alloc),
        }
    }

    /// Whether an operation of a version fits there.
    pub fn fits(&self, tasks: &Tasks, op: &SyncOp) -> bool
        ensures { (other : TasksValue) → Tells self.now tasks.now other → result ≡ fits other op.now }
    {
        let there = self.has(tasks, op.uuid());
        match op {
            SyncOp::Create { .. } => !there,
            SyncOp::Delete { .. } => there,
            SyncOp::Update { .. } => there,
        }
    }

    /// Goes on to the place after an operation of a version.
    pub fn follow(&mut self, op: &SyncOp) -> Result<(), Memory>
        ensures { OnOk result ((tasks other : TasksValue) → Tells self.old tasks other → Tells self.new tasks (apply other op.now)) }
    {
        match op {
            SyncOp::Create { uuid } => self.set(*uuid, true),
            SyncOp::Delete { uuid } => self.set(*uuid, false),
            SyncOp::Update { .. } => Ok(()),
        }
    }

    /// Goes back to the place before an operation of this replica.
    pub fn take_back(&mut self, op: &Op) -> Result<(), Memory>
        ensures { OnOk result ((tasks other : TasksValue) → Tells self.old tasks other → Tells self.new tasks (take_back other op.now)) }
    {
        match op {
            Op::Create { uuid } => self.set(*uuid, false),
            Op::Delete { uuid, .. } => self.set(*uuid, true),
            Op::Update { .. } => Ok(()),
            Op::UndoPoint => Ok(()),
        }
    }

    // Whether a uuid has a task there.
    fn has(&self, tasks: &Tasks, uuid: Uuid) -> bool
        ensures { result ≡ has self.now tasks.now uuid }
    {
        match self.changed.get(&uuid) {
            Some(there) => *there,
            None => tasks.get(uuid).is_some(),
        }
    }

    fn set(&mut self, uuid: Uuid, there: bool) -> Result<(), Memory>
        ensures { OnOk result ((tasks : TasksValue) (u : List ℕ) → has self.new tasks u ≡ cond (same_bytes u uuid) there (has self.old tasks u)) }
    {
        self.changed.insert(uuid, there)?;
        Ok(())
    }
}
