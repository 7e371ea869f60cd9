// The end of a sync.
ghost use Rattle.std.specs.Prelude.{◌≡◌, length, Some, true, false, Err as AnErr, IfOk, OnOk, IfErr};
ghost use Rattle.tw_world.specs.Disk.{FaultsRise};
ghost use Rattle.tw_journal.specs.Record.{rows};
ghost use Rattle.tw_model.specs.Ops.{apply_all};
ghost use Rattle.tw_numbers.specs.Numbering.{assigned};
ghost use Rattle.tw_numbers.specs.Assigned.{IsAssignedIn};
ghost use Rattle.tw_bodies.specs.Body.{body_of, body_size};
ghost use Rattle.tw_bodies.specs.Body.Step.{Sync};
ghost use Rattle.tw_state.specs.State.{start_of, synced};
ghost use Rattle.tw_state.specs.Core.{state_of};
ghost use Rattle.tw_state.specs.Next.{after, IsNextOf};
ghost use Rattle.tw_replica.specs.Prepared.{step_bodies, IsWithinLimit};
ghost use Rattle.tw_replica.specs.Replica.{IsLengthKept, StandsAfter, LeavesStep, GrowsBy, one_more};
ghost use Rattle.tw_replica.specs.Replica.{is_replica_closed, SyncingRefused};

use crate::error::RecordError;
use crate::keeping::record::write_next;
use crate::replica::Replica;
use std::alloc::Global;
use tw_bodies::sync_body;
use tw_journal::AppendError;
use tw_model::SyncOp;
use tw_state::{
    Core, Next, Pending, add_all_synced, apply_sync_ops, next_on, part_of, take_back_from,
    touched_uuids,
};
use tw_world::{Disk, Memory};
use uuid::Uuid;

// What it leads to that what is pending is taken back and operations of versions follow.
fn next_of_sync(alloc: Global, core: &Core, ops: &Vec<SyncOp>) -> Result<Next, Memory>
    requires { IsAssignedIn core.now.numbers.items core.now.tasks }
    ensures tasks { IfOk result (λ next. after next core.now.tasks ≡ apply_all (start_of (state_of core.now)) ops.now.items) }
    ensures numbers { IfOk result (λ next. next.numbers.items ≡ assigned core.now.numbers.items (apply_all (start_of (state_of core.now)) ops.now.items)) }
    ensures next { IfOk result (λ next. IsNextOf core.now.tasks next) }
{
    let pending = core.pending.ops(alloc)?;
    let mut touched = touched_uuids(alloc, &pending, 0)?;
    add_all_synced(&mut touched, ops)?;
    let mut part = part_of(alloc, &core.tasks, &touched)?;
    take_back_from(alloc, &mut part, &pending, 0)?;
    apply_sync_ops(alloc, &mut part, ops)?;
    let next = next_on(alloc, core, touched, part, false)?;
    Ok(next)
}

impl Replica {
    /// Takes what a sync brought: the operations of all versions from the old base to `base`, in their order.
    /// What is pending is taken back and gone, and an operation that does not fit there is skipped.
    /// A refusal leaves the replica as it was; after a fault of the disk it is closed.
    pub fn finish_sync<D: Disk>(
        &mut self,
        alloc: Global,
        disk: &mut D,
        base: Uuid,
        remote: Vec<SyncOp>,
    ) -> Result<(), RecordError>
        requires length { IsLengthKept D.model self.old disk.old }
        ensures synced { OnOk result (state_of self.new.core ≡ synced base remote.items (state_of self.old.core)) }
        ensures stands { OnOk result (StandsAfter D.model self.old self.new disk.old disk.new (one_more (body_of (Sync base remote.items)))) }
        ensures any_moment { LeavesStep D.model self.old disk.old disk.new (Some (synced base remote.items (state_of self.old.core))) }
        ensures growth { GrowsBy D.model self.old disk.old disk.new (length (rows (step_bodies (Sync base remote.items)))) }
        ensures within { OnOk result (IsWithinLimit (step_bodies (Sync base remote.items))) }
        ensures closed { is_replica_closed self.old ≡ true → result ≡ AnErr (RecordError.Journal AppendError.Closed) }
        ensures live { OnOk result (is_replica_closed self.new ≡ false) }
        ensures length { IsLengthKept D.model self.new disk.new }
        ensures refused { IfErr result (λ e. SyncingRefused D.model self.old self.new disk.old disk.new (body_size (Sync base remote.items)) e) }
        ensures kept { FaultsRise D.model disk.old disk.new }
    {
        if self.journal.is_closed() {
            return Err(RecordError::Journal(AppendError::Closed));
        }
        let next = next_of_sync(alloc, &self.core, &remote)?;
        let body = sync_body(alloc, &base, &remote)?;
        let none = Pending::new(alloc);
        write_next(alloc, &mut self.journal, disk, &mut self.core, next, &body)?;
        self.core.pending = none;
        self.core.base = base;
        Ok(())
    }
}
