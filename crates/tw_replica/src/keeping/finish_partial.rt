// The end of a sync that was cut short.
ghost use Rattle.std.specs.Prelude.{◌≡◌, length, Some, true, false, Err as AnErr, IfOk, OnOk, IfErr};
ghost use Rattle.tw_world.specs.Disk.{FaultsRise};
ghost use Rattle.tw_journal.specs.Record.{rows};
ghost use Rattle.tw_bodies.specs.Body.{body_of};
ghost use Rattle.tw_bodies.specs.Body.Step.{Partial};
ghost use Rattle.tw_state.specs.State.{partly};
ghost use Rattle.tw_state.specs.Core.{state_of};
ghost use Rattle.tw_replica.specs.Prepared.{step_bodies, IsWithinLimit};
ghost use Rattle.tw_replica.specs.Replica.{IsLengthKept, StandsAfter, LeavesStep, GrowsBy, one_more};
ghost use Rattle.tw_replica.specs.Replica.{is_replica_closed, MayPendThen, PartialRefused};

use crate::error::CommitError;
use crate::keeping::finish_carried::next_of_carried;
use crate::keeping::record::write_next;
use crate::replica::Replica;
use std::alloc::Global;
use tw_bodies::SyncOps;
use tw_journal::AppendError;
use tw_model::Op;
use tw_state::pending_of;
use tw_world::Disk;
use uuid::Uuid;

impl Replica {
    /// Takes what a sync brought that was cut short at the version `base`: what of all versions from the old base to it is to follow
    /// on the tasks at hand, and what is pending then. The caller knows that this may be pending there; an operation that does not fit
    /// is refused. A refusal leaves the replica as it was; after a fault of the disk it is closed.
    pub fn finish_partial<D: Disk>(
        &mut self,
        alloc: Global,
        disk: &mut D,
        base: Uuid,
        ops: SyncOps,
        pending: Vec<Op>,
    ) -> Result<(), CommitError>
        requires length { IsLengthKept D.model self.old disk.old }
        requires pends { MayPendThen self.old.core.tasks ops pending.items }
        ensures partly { OnOk result (partly base ops pending.items (state_of self.old.core) ≡ Some (state_of self.new.core)) }
        ensures stands { OnOk result (StandsAfter D.model self.old self.new disk.old disk.new (one_more (body_of (Partial base ops pending.items)))) }
        ensures any_moment { LeavesStep D.model self.old disk.old disk.new (partly base ops pending.items (state_of self.old.core)) }
        ensures growth { GrowsBy D.model self.old disk.old disk.new (length (rows (step_bodies (Partial base ops pending.items)))) }
        ensures within { OnOk result (IsWithinLimit (step_bodies (Partial base ops pending.items))) }
        ensures closed { is_replica_closed self.old ≡ true → result ≡ AnErr (CommitError.Journal AppendError.Closed) }
        ensures live { OnOk result (is_replica_closed self.new ≡ false) }
        ensures length { IsLengthKept D.model self.new disk.new }
        ensures refused { IfErr result (λ e. PartialRefused D.model self.old self.new disk.old disk.new base ops pending.items e) }
        ensures kept { FaultsRise D.model disk.old disk.new }
    {
        if self.journal.is_closed() {
            return Err(CommitError::Journal(AppendError::Closed));
        }
        let next = next_of_carried(alloc, &self.core, &ops)?;
        let body = ops.into_partial(&base, &pending)?;
        let kept = pending_of(alloc, &pending)?;
        write_next(alloc, &mut self.journal, disk, &mut self.core, next, &body)?;
        self.core.pending = kept;
        self.core.base = base;
        Ok(())
    }
}
