// The end of a sync that leaves the tasks at hand in place.
ghost use Rattle.std.specs.Prelude.{◌≡◌, length, None, Some, true, false, Err as AnErr, IfOk, OnOk, IfErr};
ghost use Rattle.tw_world.specs.Disk.{FaultsRise};
ghost use Rattle.tw_journal.specs.Record.{rows};
ghost use Rattle.tw_model.specs.Ops.{apply_all};
ghost use Rattle.tw_numbers.specs.Numbering.{assigned};
ghost use Rattle.tw_numbers.specs.Assigned.{IsAssignedIn};
ghost use Rattle.tw_bodies.specs.Body.{body_of, body_size};
ghost use Rattle.tw_bodies.specs.Body.Step.{Carried};
ghost use Rattle.tw_state.specs.State.{carried, misfit_synced};
ghost use Rattle.tw_state.specs.Core.{state_of};
ghost use Rattle.tw_state.specs.Next.{after, IsNextOf};
ghost use Rattle.tw_replica.specs.Prepared.{step_bodies, IsWithinLimit};
ghost use Rattle.tw_replica.specs.Replica.{IsLengthKept, StandsAfter, LeavesStep, GrowsBy, one_more};
ghost use Rattle.tw_replica.specs.Replica.{is_replica_closed, CarryRefused, CarryingRefused};

use crate::error::CommitError;
use crate::keeping::commit::NextError;
use crate::keeping::record::write_next;
use crate::replica::Replica;
use std::alloc::Global;
use tw_bodies::SyncOps;
use tw_journal::AppendError;
use tw_state::{Core, Next, Pending, apply_carried, next_on, part_of, synced_uuids};
use tw_world::Disk;
use uuid::Uuid;

// What operations of versions lead to that follow on the tasks at hand.
pub(crate) fn next_of_carried(alloc: Global, core: &Core, ops: &SyncOps) -> Result<Next, NextError>
    requires { IsAssignedIn core.now.numbers.items core.now.tasks }
    ensures fits { OnOk result (misfit_synced 0 core.now.tasks ops.now ≡ None) }
    ensures tasks { IfOk result (λ next. after next core.now.tasks ≡ apply_all core.now.tasks ops.now) }
    ensures numbers { IfOk result (λ next. next.numbers.items ≡ assigned core.now.numbers.items (apply_all core.now.tasks ops.now)) }
    ensures next { IfOk result (λ next. IsNextOf core.now.tasks next) }
    ensures refused { IfErr result (λ e. CarryRefused core.now.tasks ops.now e) }
{
    let touched = synced_uuids(alloc, ops)?;
    let mut part = part_of(alloc, &core.tasks, &touched)?;
    if let Some(index) = apply_carried(alloc, &mut part, ops)? {
        return Err(NextError::Invalid { index });
    }
    let next = next_on(alloc, core, touched, part, false)?;
    Ok(next)
}

impl Replica {
    /// Takes what a sync in place brought: what of all versions from the old base to `base` is to follow on the tasks at hand.
    /// These stay as they are, and nothing is pending afterwards. An operation that does not fit is refused.
    /// A refusal leaves the replica as it was; after a fault of the disk it is closed.
    pub fn finish_carried<D: Disk>(
        &mut self,
        alloc: Global,
        disk: &mut D,
        base: Uuid,
        ops: SyncOps,
    ) -> Result<(), CommitError>
        requires length { IsLengthKept D.model self.old disk.old }
        ensures carried { OnOk result (carried base ops (state_of self.old.core) ≡ Some (state_of self.new.core)) }
        ensures stands { OnOk result (StandsAfter D.model self.old self.new disk.old disk.new (one_more (body_of (Carried base ops)))) }
        ensures any_moment { LeavesStep D.model self.old disk.old disk.new (carried base ops (state_of self.old.core)) }
        ensures growth { GrowsBy D.model self.old disk.old disk.new (length (rows (step_bodies (Carried base ops)))) }
        ensures within { OnOk result (IsWithinLimit (step_bodies (Carried base ops))) }
        ensures closed { is_replica_closed self.old ≡ true → result ≡ AnErr (CommitError.Journal AppendError.Closed) }
        ensures live { OnOk result (is_replica_closed self.new ≡ false) }
        ensures length { IsLengthKept D.model self.new disk.new }
        ensures refused { IfErr result (λ e. CarryingRefused D.model self.old self.new disk.old disk.new ops (body_size (Carried base ops)) e) }
        ensures kept { FaultsRise D.model disk.old disk.new }
    {
        if self.journal.is_closed() {
            return Err(CommitError::Journal(AppendError::Closed));
        }
        let next = next_of_carried(alloc, &self.core, &ops)?;
        let body = ops.into_carried(&base)?;
        let none = Pending::new(alloc);
        write_next(alloc, &mut self.journal, disk, &mut self.core, next, &body)?;
        self.core.pending = none;
        self.core.base = base;
        Ok(())
    }
}
