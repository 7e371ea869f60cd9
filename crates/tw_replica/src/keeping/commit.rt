// A commit of operations.
ghost use Rattle.std.specs.Prelude.{◌≡◌, ◌≤◌, ◌+◌, ◌^◌, ◌++◌, List, length, None, Some, true, false, Err as AnErr, IfOk, OnOk, IfErr};
ghost use Rattle.tw_world.specs.Disk.{FaultsRise};
ghost use Rattle.tw_journal.specs.Record.{rows};
ghost use Rattle.tw_journal.specs.Journal.{RecordsOrMore, is_closed, journal_end};
ghost use Rattle.tw_model.specs.declared.Op.{Op as AnyOp};
ghost use Rattle.tw_model.specs.LocalOps.{apply_all_local};
ghost use Rattle.tw_numbers.specs.Assigned.{IsAssignedIn};
ghost use Rattle.tw_bodies.specs.Body.{body_size, is_group};
ghost use Rattle.tw_bodies.specs.Body.Step.{Commit};
ghost use Rattle.tw_state.specs.State.{committed, misfit, renewed};
ghost use Rattle.tw_state.specs.Core.{state_of};
ghost use Rattle.tw_state.specs.Groups.{group_in};
ghost use Rattle.tw_state.specs.Next.{after, IsNextOf};
ghost use Rattle.tw_replica.specs.Prepared.{step_bodies, IsWithinLimit};
ghost use Rattle.tw_replica.specs.Replica.{IsLengthKept, StandsAfter, LeavesStep, GrowsBy, RecordsAfter, LeavesRecords, JournalGrowsBy, bodies_after, one_more};
ghost use Rattle.tw_replica.specs.Replica.{magic, is_replica_closed, CommitRefused, NextRefused, RecordRefused};

use crate::error::{CommitError, RecordError};
use crate::keeping::record::write_next;
use crate::replica::Replica;
use std::alloc::Global;
use tw_bodies::commit_body;
use tw_journal::{AppendError, Journal};
use tw_model::Op;
use tw_state::{Core, Next, Pending, apply_ops, copy_of, is_idle, next_on, part_of, touched_uuids};
use tw_world::{Disk, Memory};

/// Why operations lead to nothing.
#[derive(Clone, Copy, Drop)]
pub(crate) enum NextError {
    /// The operation with this number, counted from 0, does not fit what those before it leave.
    Invalid { index: u64 },
    /// There was no memory left.
    Memory,
}

impl From<Memory> for NextError {
    ghost use Rattle.tw_replica.specs.declared.keeping.commit.NextError.TheVariants.{Memory as NoMemory};

    ghost from_gives = { λ _ e. e ≡ NoMemory };

    fn from(_: Memory) -> NextError {
        NextError::Memory
    }
}

impl From<NextError> for CommitError {
    ghost use Rattle.std.specs.Prelude.{◌≡◌};
    ghost use Rattle.tw_replica.specs.Errors.{next_in_commit};

    ghost from_gives = { λ error e. e ≡ next_in_commit error };

    fn from(error: NextError) -> CommitError {
        match error {
            NextError::Invalid { index } => CommitError::Invalid { index },
            NextError::Memory => CommitError::Memory,
        }
    }
}

// What operations lead to.
fn next_of_commit(
    alloc: Global,
    core: &Core,
    ops: &Vec<Op>,
    renumber: bool,
) -> Result<Next, NextError>
    requires { IsAssignedIn core.now.numbers.items core.now.tasks }
    ensures fits { OnOk result (misfit 0 core.now.tasks ops.now.items ≡ None) }
    ensures tasks { IfOk result (λ next. after next core.now.tasks ≡ apply_all_local core.now.tasks ops.now.items) }
    ensures numbers { IfOk result (λ next. next.numbers.items ≡ renewed renumber core.now.numbers.items (apply_all_local core.now.tasks ops.now.items)) }
    ensures next { IfOk result (λ next. IsNextOf core.now.tasks next) }
    ensures refused { IfErr result (λ e. NextRefused core.now.tasks ops.now.items e) }
{
    let touched = touched_uuids(alloc, ops, 0)?;
    let mut part = part_of(alloc, &core.tasks, &touched)?;
    if let Some(index) = apply_ops(alloc, &mut part, ops)? {
        return Err(NextError::Invalid { index });
    }
    let next = next_on(alloc, core, touched, part, renumber)?;
    Ok(next)
}

// Takes the operations out again that a body put after others, if it held any.
fn take_out_again(pending: &mut Pending, count: usize)
    ensures { (before more : List AnyOp) → pending.old ≡ before ++ more → is_group more ≡ true → count ≡ length more → pending.new ≡ before }
{
    if count > 0 {
        pending.pop();
    }
}

// Writes a commit's record, and then takes what it leads to. What is kept of it holds so many operations.
fn commit_record<D: Disk>(
    alloc: Global,
    journal: &mut Journal,
    disk: &mut D,
    core: &mut Core,
    kept: Vec<u8>,
    count: usize,
    next: Next,
    body: &[u8],
) -> Result<(), RecordError>
    requires kept { count ≡ length (group_in kept.items) }
    requires length { is_closed journal.old ≡ false → D.model.len disk.old ≡ journal_end journal.old }
    requires next { IsNextOf core.old.tasks next }
    ensures journal { IfOk result (λ u. RecordsAfter D.model journal.old journal.new disk.old disk.new (one_more body.now)) }
    ensures any_moment { LeavesRecords D.model journal.old disk.old disk.new (λ bodies. RecordsOrMore magic bodies body.now) }
    ensures growth { JournalGrowsBy D.model journal.old disk.old disk.new (length body.now + 5) }
    ensures accepted { OnOk result ((is_closed journal.new ≡ false) × (length body.now + 5 ≤ 2 ^ 30)) }
    ensures length { is_closed journal.new ≡ false → D.model.len disk.new ≡ journal_end journal.new }
    ensures base { core.new.base ≡ core.old.base }
    ensures pending { OnOk result (core.new.pending ≡ core.old.pending ++ group_in kept.items) }
    ensures tasks { OnOk result (core.new.tasks ≡ after next core.old.tasks) }
    ensures numbers { OnOk result (core.new.numbers.items ≡ next.numbers.items) }
    ensures refused { IfErr result (λ e. RecordRefused D.model journal.old journal.new core.old core.new disk.old disk.new (length body.now) e) }
    ensures kept { FaultsRise D.model disk.old disk.new }
{
    core.pending.keep(kept, count)?;
    if let Err(error) = write_next(alloc, journal, disk, core, next, body) {
        take_out_again(&mut core.pending, count);
        return Err(error);
    }
    Ok(())
}

impl Replica {
    /// Applies operations and puts them after what is pending.
    pub fn commit<D: Disk>(
        &mut self,
        alloc: Global,
        disk: &mut D,
        ops: Vec<Op>,
        renumber: bool,
    ) -> Result<(), CommitError>
        requires group { is_group ops.items ≡ true }
        requires length { IsLengthKept D.model self.old disk.old }
        ensures committed { OnOk result (committed renumber ops.items (state_of self.old.core) ≡ Some (state_of self.new.core)) }
        ensures stands { OnOk result (StandsAfter D.model self.old self.new disk.old disk.new (bodies_after renumber ops.items)) }
        ensures any_moment { LeavesStep D.model self.old disk.old disk.new (committed renumber ops.items (state_of self.old.core)) }
        ensures growth { GrowsBy D.model self.old disk.old disk.new (length (rows (step_bodies (Commit renumber ops.items)))) }
        ensures within { OnOk result (IsWithinLimit (step_bodies (Commit renumber ops.items))) }
        ensures closed { is_replica_closed self.old ≡ true → result ≡ AnErr (CommitError.Journal AppendError.Closed) }
        ensures live { OnOk result (is_replica_closed self.new ≡ false) }
        ensures length { IsLengthKept D.model self.new disk.new }
        ensures refused { IfErr result (λ e. CommitRefused D.model self.old self.new disk.old disk.new ops.items (body_size (Commit renumber ops.items)) e) }
        ensures kept { FaultsRise D.model disk.old disk.new }
    {
        if self.journal.is_closed() {
            return Err(CommitError::Journal(AppendError::Closed));
        }
        if is_idle(renumber, &ops) {
            return Ok(());
        }
        let next = next_of_commit(alloc, &self.core, &ops, renumber)?;
        let body = commit_body(alloc, &ops, renumber)?;
        let kept = copy_of(alloc, &body)?;
        commit_record(
            alloc,
            &mut self.journal,
            disk,
            &mut self.core,
            kept,
            ops.len(),
            next,
            &body,
        )?;
        Ok(())
    }
}
