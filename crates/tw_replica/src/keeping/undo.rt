// An undo of the last group.
ghost use Rattle.std.specs.Prelude.{◌≡◌, ◌≤◌, ◌+◌, length, drop, Some, true, false, Err as AnErr, IfOk, OnOk, IfErr};
ghost use Rattle.tw_world.specs.Disk.{FaultsRise};
ghost use Rattle.tw_journal.specs.Record.{rows};
ghost use Rattle.tw_model.specs.LocalOps.{take_back_all};
ghost use Rattle.tw_numbers.specs.Numbering.{assigned};
ghost use Rattle.tw_numbers.specs.Assigned.{IsAssignedIn};
ghost use Rattle.tw_bodies.specs.Body.{body_of};
ghost use Rattle.tw_bodies.specs.Body.Step.{Undo};
ghost use Rattle.tw_state.specs.State.{undone};
ghost use Rattle.tw_state.specs.Core.{state_of};
ghost use Rattle.tw_state.specs.Next.{after, IsNextOf};
ghost use Rattle.tw_replica.specs.Prepared.{step_bodies, IsWithinLimit};
ghost use Rattle.tw_replica.specs.Replica.{IsLengthKept, StandsAfter, LeavesStep, GrowsBy, one_more};
ghost use Rattle.tw_replica.specs.Replica.{held_state, is_replica_closed, UndoRefused};

use crate::error::UndoError;
use crate::keeping::record::write_next;
use crate::replica::Replica;
use std::alloc::Global;
use tw_bodies::UNDO;
use tw_journal::AppendError;
use tw_model::Op;
use tw_state::{Core, Next, next_on, part_of, take_back_from, touched_uuids};
use tw_world::{Disk, Memory};

// What it leads to that the operations after an undo point are taken back.
fn next_of_undo(alloc: Global, core: &Core, group: &Vec<Op>) -> Result<Next, Memory>
    requires inside { 1 ≤ length group.now.items }
    requires assigned { IsAssignedIn core.now.numbers.items core.now.tasks }
    ensures tasks { IfOk result (λ next. after next core.now.tasks ≡ take_back_all core.now.tasks (drop 1 group.now.items)) }
    ensures numbers { IfOk result (λ next. next.numbers.items ≡ assigned core.now.numbers.items (take_back_all core.now.tasks (drop 1 group.now.items))) }
    ensures next { IfOk result (λ next. IsNextOf core.now.tasks next) }
{
    let touched = touched_uuids(alloc, group, 1)?;
    let mut part = part_of(alloc, &core.tasks, &touched)?;
    take_back_from(alloc, &mut part, group, 1)?;
    let next = next_on(alloc, core, touched, part, false)?;
    Ok(next)
}

impl Replica {
    /// Takes the last group back.
    pub fn undo<D: Disk>(&mut self, alloc: Global, disk: &mut D) -> Result<u64, UndoError>
        requires length { IsLengthKept D.model self.old disk.old }
        ensures undone { OnOk result (undone (state_of self.old.core) ≡ Some (state_of self.new.core)) }
        ensures answer { IfOk result (λ n. length (held_state self.old).pending ≡ length (held_state self.new).pending + 1 + n) }
        ensures stands { OnOk result (StandsAfter D.model self.old self.new disk.old disk.new (one_more (body_of Undo))) }
        ensures any_moment { LeavesStep D.model self.old disk.old disk.new (undone (state_of self.old.core)) }
        ensures growth { GrowsBy D.model self.old disk.old disk.new (length (rows (step_bodies Undo))) }
        ensures within { OnOk result (IsWithinLimit (step_bodies Undo)) }
        ensures closed { is_replica_closed self.old ≡ true → result ≡ AnErr (UndoError.Journal AppendError.Closed) }
        ensures live { OnOk result (is_replica_closed self.new ≡ false) }
        ensures length { IsLengthKept D.model self.new disk.new }
        ensures refused { IfErr result (λ e. UndoRefused D.model self.old self.new disk.old disk.new e) }
        ensures kept { FaultsRise D.model disk.old disk.new }
    {
        if self.journal.is_closed() {
            return Err(UndoError::Journal(AppendError::Closed));
        }
        let Some(group) = self.core.pending.last(alloc)? else {
            return Err(UndoError::NothingToUndo);
        };
        let count = group.len() - 1;
        let next = next_of_undo(alloc, &self.core, &group)?;
        write_next(alloc, &mut self.journal, disk, &mut self.core, next, &UNDO)?;
        self.core.pending.pop();
        Ok(count as u64)
    }
}
