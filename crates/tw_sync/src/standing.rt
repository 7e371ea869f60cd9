// Moving a replica to the place at which a sync is done, or is stopped.
ghost use Rattle.std.specs.Prelude.{◌≡◌, ◌^◌, true, false, None, OnOk, IfErr};
ghost use Rattle.tw_world.specs.Disk.{FaultsRise};
ghost use Rattle.tw_journal.specs.Journal.{is_closed};
ghost use Rattle.tw_model.specs.Ops.{TasksValue, apply_all};
ghost use Rattle.tw_groups.specs.Groups.{pending_on};
ghost use Rattle.tw_path.specs.Path.{Reached};
ghost use Rattle.tw_path.specs.Walk.{StandsAt};
ghost use Rattle.tw_state.specs.Core.{state_of};
ghost use Rattle.tw_state.specs.State.{misfit_synced, may_pend};
ghost use Rattle.tw_replica.specs.Replica.{IsLengthKept, GrowsBy};
ghost use Rattle.tw_outcome.specs.Start.{IsNewReplica};
ghost use Rattle.tw_sync.specs.Ends.Moved.{done_step, stopped_step, taken_step, MovesBy, LeavesMove, IsNotMoved};

use crate::cursor::Cursor;
use std::alloc::Global;
use tw_model::Tasks;
use tw_replica::{CommitError, RecordError, Replica};
use tw_state::apply_synced;
use tw_world::Disk;

/// Moves the replica to a cursor at which nothing is left, by one record, unless its base is there.
pub(crate) fn end_at<D: Disk>(
    alloc: Global,
    replica: &mut Replica,
    disk: &mut D,
    cursor: Cursor,
) -> Result<(), RecordError>
    requires length { IsLengthKept D.model replica.old disk.old }
    requires open { is_closed replica.old.journal ≡ false }
    requires fits { misfit_synced 0 replica.old.core.tasks cursor.walker.carried ≡ None }
    ensures moved { OnOk result ((hand : TasksValue) (r : Reached) → StandsAt hand r cursor.walker
        → MovesBy D.model replica.old replica.new disk.old disk.new r.at (done_step r)) }
    ensures any_moment { (hand : TasksValue) (r : Reached) → StandsAt hand r cursor.walker
        → LeavesMove D.model replica.old disk.old disk.new r.at (done_step r) }
    ensures growth { GrowsBy D.model replica.old disk.old disk.new (2 ^ 30) }
    ensures length { IsLengthKept D.model replica.new disk.new }
    ensures refused { IfErr result (λ e. (hand : TasksValue) (r : Reached) → StandsAt hand r cursor.walker
        → IsNotMoved D.model replica.old replica.new disk.old disk.new r.at (done_step r) e) }
    ensures kept { FaultsRise D.model disk.old disk.new }
{
    let base = cursor.at();
    if base == replica.base() {
        return Ok(());
    }
    let carried = cursor.into_carried();
    match replica.finish_carried(alloc, disk, base, carried) {
        Ok(()) => Ok(()),
        Err(CommitError::Journal(error)) => Err(RecordError::Journal(error)),
        Err(CommitError::Memory) => Err(RecordError::Memory),
        Err(CommitError::Invalid { .. }) => unreachable!(),
    }
}

/// Moves the replica to a cursor where a sync was stopped, with what is left there pending, unless its base is there.
pub(crate) fn stop_at<D: Disk>(
    alloc: Global,
    replica: &mut Replica,
    disk: &mut D,
    cursor: Cursor,
) -> Result<(), RecordError>
    requires length { IsLengthKept D.model replica.old disk.old }
    requires open { is_closed replica.old.journal ≡ false }
    requires fits { misfit_synced 0 replica.old.core.tasks cursor.walker.carried ≡ None }
    requires pends { (hand : TasksValue) × (r : Reached) × StandsAt hand r cursor.walker
        × (may_pend (apply_all replica.old.core.tasks r.carried) (pending_on r.tasks r.left) ≡ true) }
    ensures moved { OnOk result ((hand : TasksValue) (r : Reached) → StandsAt hand r cursor.walker
        → MovesBy D.model replica.old replica.new disk.old disk.new r.at (stopped_step r)) }
    ensures any_moment { (hand : TasksValue) (r : Reached) → StandsAt hand r cursor.walker
        → LeavesMove D.model replica.old disk.old disk.new r.at (stopped_step r) }
    ensures growth { GrowsBy D.model replica.old disk.old disk.new (2 ^ 30) }
    ensures length { IsLengthKept D.model replica.new disk.new }
    ensures refused { IfErr result (λ e. (hand : TasksValue) (r : Reached) → StandsAt hand r cursor.walker
        → IsNotMoved D.model replica.old replica.new disk.old disk.new r.at (stopped_step r) e) }
    ensures kept { FaultsRise D.model disk.old disk.new }
{
    let base = cursor.at();
    if base == replica.base() {
        return Ok(());
    }
    let mut cursor = cursor;
    let pending = cursor.pending_there(alloc)?;
    let carried = cursor.into_carried();
    match replica.finish_partial(alloc, disk, base, carried, pending) {
        Ok(()) => Ok(()),
        Err(CommitError::Journal(error)) => Err(RecordError::Journal(error)),
        Err(CommitError::Memory) => Err(RecordError::Memory),
        Err(CommitError::Invalid { .. }) => unreachable!(),
    }
}

/// Moves a new replica to a cursor of a sync from a snapshot, with the tasks there in the place of its own, unless its base is there.
pub(crate) fn take_over<D: Disk>(
    alloc: Global,
    replica: &mut Replica,
    disk: &mut D,
    cursor: Cursor,
    tasks: Tasks,
) -> Result<(), RecordError>
    requires length { IsLengthKept D.model replica.old disk.old }
    requires open { is_closed replica.old.journal ≡ false }
    requires fresh { IsNewReplica (state_of replica.old.core) }
    ensures moved { OnOk result ((r : Reached) → StandsAt tasks r cursor.walker → r.tasks ≡ apply_all tasks r.carried
        → MovesBy D.model replica.old replica.new disk.old disk.new r.at (taken_step (state_of replica.old.core) r)) }
    ensures any_moment { (r : Reached) → StandsAt tasks r cursor.walker → r.tasks ≡ apply_all tasks r.carried
        → LeavesMove D.model replica.old disk.old disk.new r.at (taken_step (state_of replica.old.core) r) }
    ensures growth { GrowsBy D.model replica.old disk.old disk.new (2 ^ 30) }
    ensures length { IsLengthKept D.model replica.new disk.new }
    ensures refused { IfErr result (λ e. (r : Reached) → StandsAt tasks r cursor.walker → r.tasks ≡ apply_all tasks r.carried
        → IsNotMoved D.model replica.old replica.new disk.old disk.new r.at (taken_step (state_of replica.old.core) r) e) }
    ensures kept { FaultsRise D.model disk.old disk.new }
{
    let base = cursor.at();
    if base == replica.base() {
        return Ok(());
    }
    let carried = cursor.into_carried();
    let mut there = tasks;
    apply_synced(alloc, &mut there, &carried)?;
    replica.finish_from(alloc, disk, base, there)
}
