// The place at which the path of a replica begins.
ghost use Rattle.std.specs.Prelude.{◌≡◌, ◌∷◌, [], List, None, option_map, OnOk, IfOk};
ghost use Rattle.std.specs.FinMap.{get};
ghost use Rattle.tw_model.specs.Maps.{set_at};
ghost use Rattle.tw_model.specs.Ops.{uuid_of};
ghost use Rattle.tw_model.specs.LocalOps.{synced};
ghost use Rattle.tw_model.specs.declared.Op.{Op as LocalOp};
ghost use Rattle.tw_path.specs.Walk.{GainsCopy};

use crate::grouped::groups_of;
use crate::presence::Presence;
use crate::walker::Walker;
use std::alloc::Global;
use std::collections::BTreeSet;
use tw_bodies::SyncOps;
use tw_model::{Op, Tasks};
use tw_world::Memory;
use uuid::Uuid;

impl Walker {
    ghost use Rattle.tw_path.specs.Walk.{StandsAt, IsBefore, before_pending};

    /// The place before all that is pending: the base of a replica with these tasks. The operations are let go as their groups are made.
    pub fn start(
        alloc: Global,
        hand: &Tasks,
        base: Uuid,
        pending: Vec<Op>,
    ) -> Result<Walker, Memory>
        ensures { IfOk result (λ walker. StandsAt hand.now (before_pending base hand.now pending.items) walker) }
    {
        let mine = BTreeSet::new(alloc);
        let tasks = Tasks::new(alloc);
        let there = Presence::new(alloc);
        let left = Vec::new(alloc);
        let carried = SyncOps::new(alloc);
        let mut walker = Walker {
            at: base,
            mine,
            tasks,
            there,
            left,
            carried,
        };
        walker.take_back_all(alloc, hand, &pending)?;
        walker.left = groups_of(alloc, pending)?;
        Ok(walker)
    }

    // Takes operations back, the last one first.
    fn take_back_all(&mut self, alloc: Global, hand: &Tasks, ops: &Vec<Op>) -> Result<(), Memory>
        requires { IsBefore hand.now [] self.old }
        ensures at { self.new.at ≡ self.old.at }
        ensures carried { self.new.carried ≡ self.old.carried }
        ensures before { OnOk result (IsBefore hand.now ops.now.items self.new) }
    {
        let mut at = ops.len();
        while at > 0 {
            at -= 1;
            self.take_back(alloc, hand, &ops[at])?;
        }
        Ok(())
    }

    // Takes one operation back, and first copies its task, if no later one is about it.
    fn take_back(&mut self, alloc: Global, hand: &Tasks, op: &Op) -> Result<(), Memory>
        ensures at { self.new.at ≡ self.old.at }
        ensures carried { self.new.carried ≡ self.old.carried }
        ensures before { OnOk result ((ops : List LocalOp) → IsBefore hand.now ops self.old → IsBefore hand.now (op.now ∷ ops) self.new) }
    {
        self.there.take_back(op)?;
        copy_once(alloc, &mut self.mine, &mut self.tasks, hand, uuid_in(op))?;
        self.tasks.invert(alloc, op)?;
        Ok(())
    }
}

// The uuid of the task that an operation is about.
fn uuid_in(op: &Op) -> Option<Uuid>
    ensures { result ≡ option_map uuid_of (synced op.now) }
{
    match op {
        Op::Create { uuid } => Some(*uuid),
        Op::Delete { uuid, .. } => Some(*uuid),
        Op::Update { uuid, .. } => Some(*uuid),
        Op::UndoPoint => None,
    }
}

// Copies the task of a uuid, if there is one. This is not done twice.
fn copy_once(
    alloc: Global,
    mine: &mut BTreeSet<Uuid>,
    tasks: &mut Tasks,
    hand: &Tasks,
    uuid: Option<Uuid>,
) -> Result<(), Memory>
    ensures { OnOk result (GainsCopy hand.now uuid mine.old tasks.old mine.new tasks.new) }
{
    let Some(uuid) = uuid else {
        return Ok(());
    };
    if mine.contains(&uuid) {
        return Ok(());
    }
    copy_task(alloc, tasks, hand, uuid)?;
    mine.insert(uuid)?;
    Ok(())
}

fn copy_task(alloc: Global, part: &mut Tasks, tasks: &Tasks, uuid: Uuid) -> Result<(), Memory>
    ensures { OnOk result (get part.old uuid ≡ None → part.new ≡ set_at part.old uuid (get tasks.now uuid)) }
{
    if let Some(task) = tasks.get(uuid) {
        let _ = part.insert(uuid, task.copy(alloc)?)?;
    }
    Ok(())
}
