// Code that goes along a path.
ghost use Rattle.std.specs.Prelude.{◌≡◌, ◌++◌, ◌∷◌, [], List, ℕ, true, false, OnOk, IfOk};
ghost use Rattle.std.specs.BTreeSet as set;
ghost use Rattle.tw_model.specs.Maps.{bytes_cmp};
ghost use Rattle.tw_model.specs.Ops.{TasksValue, apply, apply_all, uuid_of};
ghost use Rattle.tw_groups.specs.Cross.{cross};
ghost use Rattle.tw_groups.specs.Held.{groups_in};
ghost use Rattle.tw_path.specs.Path.{Reached};
ghost use Rattle.tw_path.specs.Over.{over, over_all};
ghost use Rattle.tw_path.specs.Presence.{Tells};
ghost use Rattle.tw_path.specs.Batch.{IsFirstBatch};

mod start;

use crate::batch::Batch;
use crate::presence::Presence;
use std::alloc::Global;
use std::collections::BTreeSet;
use tw_bodies::SyncOps;
use tw_groups::{cross, pending_on};
use tw_model::{Op, SyncOp, Tasks};
use tw_world::Memory;
use uuid::Uuid;

/// A place of a path: a version, what of the tasks is known there, what is left of pending operations, and what is carried.
pub struct Walker {
    /// The version.
    pub at: Uuid,
    /// The uuids that pending operations are about.
    pub mine: BTreeSet<Uuid>,
    /// Their tasks there.
    pub tasks: Tasks,
    /// Which uuids have a task there, beside the tasks at hand.
    pub there: Presence,
    /// The operations that are left, a group for each undo point.
    pub left: Vec<Vec<SyncOp>>,
    /// The operations that follow on the tasks at hand.
    pub carried: SyncOps,
}

// It is written out, so that a caller does not prove again how each part is dropped.
impl Drop for Walker {
    fn drop(self) {
        let Walker {
            at: _at,
            mine: _mine,
            tasks: _tasks,
            there: _there,
            left: _left,
            carried: _carried,
        } = self;
    }
}

impl Walker {
    ghost use Rattle.tw_path.specs.Walk.{StandsAt, IsCarriedAlone, IsCrossed, GoesOverPull, GoesOverPush, IsPendingThere};

    /// Goes on to another's version with these operations. After want of memory it is of no use.
    pub fn pull(
        &mut self,
        alloc: Global,
        hand: &Tasks,
        id: Uuid,
        ops: &Vec<SyncOp>,
    ) -> Result<(), Memory>
        ensures { OnOk result (GoesOverPull hand.now id ops.now.items self.old self.new) }
    {
        self.go_over_all(alloc, hand, ops)?;
        self.at = id;
        Ok(())
    }

    /// Goes on to a version that was added, with the operations that were sent as this batch. After want of memory it is of no use.
    pub fn push(
        &mut self,
        alloc: Global,
        id: Uuid,
        ops: &Vec<SyncOp>,
        batch: Batch,
    ) -> Result<(), Memory>
        requires { IsFirstBatch batch self.old.left.items }
        ensures { OnOk result (GoesOverPush id ops.now.items self.old self.new) }
    {
        apply_sent(alloc, &mut self.tasks, &mut self.there, ops)?;
        batch.take_from(&mut self.left);
        self.at = id;
        Ok(())
    }

    /// What is left as pending operations, each with the old value that it finds there. The tasks are then those after them.
    pub fn pending(&mut self, alloc: Global) -> Result<Vec<Op>, Memory>
        ensures pending { IfOk result (λ ops. IsPendingThere self.old ops.items) }
        ensures carried { self.new.carried ≡ self.old.carried }
    {
        pending_on(alloc, &mut self.tasks, &self.left)
    }

    /// What is carried. All else is let go.
    pub fn into_carried(self) -> SyncOps
        ensures { result ≡ self.carried }
    {
        let Walker {
            at: _at,
            mine: _mine,
            tasks: _tasks,
            there: _there,
            left: _left,
            carried,
        } = self;
        carried
    }

    fn go_over_all(&mut self, alloc: Global, hand: &Tasks, ops: &Vec<SyncOp>) -> Result<(), Memory>
        ensures { OnOk result ((r : Reached) → StandsAt hand.now r self.old → StandsAt hand.now (over_all r ops.now.items) self.new) }
    {
        let mut at = 0;
        while at < ops.len() {
            self.go_over(alloc, hand, &ops[at])?;
            at += 1;
        }
        Ok(())
    }

    // Goes over an operation of a version.
    fn go_over(&mut self, alloc: Global, hand: &Tasks, op: &SyncOp) -> Result<(), Memory>
        ensures { OnOk result ((r : Reached) → StandsAt hand.now r self.old → StandsAt hand.now (over r op.now) self.new) }
    {
        if !self.there.fits(hand, op) {
            return Ok(());
        }
        self.there.follow(op)?;
        self.go_over_fitting(alloc, op)?;
        Ok(())
    }

    // Goes over one that fits. One that is about no task of what is left is carried at once.
    fn go_over_fitting(&mut self, alloc: Global, op: &SyncOp) -> Result<(), Memory>
        ensures at { self.new.at ≡ self.old.at }
        ensures mine { self.new.mine ≡ self.old.mine }
        ensures there { self.new.there ≡ self.old.there }
        ensures apart { OnOk result (set.contains bytes_cmp self.old.mine (uuid_of op.now) ≡ false → IsCarriedAlone op.now self.old self.new) }
        ensures met { OnOk result (set.contains bytes_cmp self.old.mine (uuid_of op.now) ≡ true → IsCrossed op.now self.old self.new) }
    {
        if self.mine.contains(&op.uuid()) {
            self.meet(alloc, op)
        } else {
            self.carry(alloc, op)
        }
    }

    // Carries an operation across what is left.
    fn meet(&mut self, alloc: Global, op: &SyncOp) -> Result<(), Memory>
        ensures at { self.new.at ≡ self.old.at }
        ensures mine { self.new.mine ≡ self.old.mine }
        ensures there { self.new.there ≡ self.old.there }
        ensures tasks { OnOk result (self.new.tasks ≡ apply self.old.tasks op.now) }
        ensures left { OnOk result (groups_in self.new.left.items ≡ (cross (op.now ∷ []) (groups_in self.old.left.items)).1) }
        ensures carried { OnOk result (self.new.carried ≡ self.old.carried ++ (cross (op.now ∷ []) (groups_in self.old.left.items)).0) }
    {
        let _ = self.tasks.apply_sync(alloc, op)?;
        let mut one = Vec::new(alloc);
        one.push(op.copy(alloc)?)?;
        cross(&mut one, &mut self.left);
        self.carried.append(&one)?;
        Ok(())
    }

    // Carries an operation that meets nothing.
    fn carry(&mut self, alloc: Global, op: &SyncOp) -> Result<(), Memory>
        ensures at { self.new.at ≡ self.old.at }
        ensures mine { self.new.mine ≡ self.old.mine }
        ensures there { self.new.there ≡ self.old.there }
        ensures tasks { self.new.tasks ≡ self.old.tasks }
        ensures left { self.new.left ≡ self.old.left }
        ensures carried { OnOk result (self.new.carried ≡ self.old.carried ++ op.now ∷ []) }
    {
        self.carried.push(op)?;
        Ok(())
    }
}

// Applies operations that were sent to the tasks, and notes which of them come and go.
fn apply_sent(
    alloc: Global,
    tasks: &mut Tasks,
    there: &mut Presence,
    ops: &Vec<SyncOp>,
) -> Result<(), Memory>
    ensures tasks { OnOk result (tasks.new ≡ apply_all tasks.old ops.now.items) }
    ensures there { OnOk result ((hand other : TasksValue) → Tells there.old hand other → Tells there.new hand (apply_all other ops.now.items)) }
{
    let mut at = 0;
    while at < ops.len() {
        let op = &ops[at];
        let _ = tasks.apply_sync(alloc, op)?;
        there.follow(op)?;
        at += 1;
    }
    Ok(())
}
