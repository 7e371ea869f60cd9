// A step of what is held, made in memory.
ghost use Rattle.std.specs.Prelude.{◌≡◌, ◌++◌, ◌<◌, ◌^◌, true, false, length, drop, IfOk, OnOk};
ghost use Rattle.std.specs.List.{AllByRecursion};
ghost use Rattle.tw_model.specs.LocalOps.{take_back_all};
ghost use Rattle.tw_model.specs.Changes.{group_of};
ghost use Rattle.tw_numbers.specs.Numbering.{assigned};
ghost use Rattle.tw_numbers.specs.Assigned.{IsAssignedIn};
ghost use Rattle.tw_bodies.specs.Body.{IsOp, is_group};
ghost use Rattle.tw_bodies.specs.Body.Step.{Commit};
ghost use Rattle.tw_state.specs.Groups.{group_in, IsLastOf};
ghost use Rattle.tw_state.specs.State.{is_idle};
ghost use Rattle.tw_state.specs.Core.{RenewsNumbers};
ghost use Rattle.tw_replica.specs.Prepared.{bodies_in, step_bodies};

use std::alloc::Global;
use std::collections::BTreeSet;
use tw_bodies::commit_body;
use tw_model::Op;
use tw_numbers::renew_places;
use tw_state::{Core, Pending, copy_of, is_idle, take_back_from, touched_uuids};
use tw_world::Memory;
use uuid::Uuid;

// Puts an undo point in front of operations, if there are any.
fn grouped(ops: Vec<Op>) -> Result<Vec<Op>, Memory>
    ensures { IfOk result (λ group. group.items ≡ group_of ops.items) }
{
    let mut ops = ops;
    if ops.len() != 0 {
        ops.insert(0, Op::UndoPoint)?;
    }
    Ok(ops)
}

// Puts the operations of a commit after those that are pending, by its body. One that no record could hold is not kept.
fn keep_body(
    alloc: Global,
    pending: &mut Pending,
    body: &Vec<u8>,
    count: usize,
) -> Result<(), Memory>
    requires { length body.now.items < 2 ^ 32 → count ≡ length (group_in body.now.items) }
    ensures short { OnOk result (length body.now.items < 2 ^ 32) }
    ensures kept { OnOk result (pending.new ≡ pending.old ++ group_in body.now.items) }
{
    let copy = copy_of(alloc, body)?;
    pending.keep(copy, count)
}

/// Takes operations that were made of the tasks into a replica, and gives the body of their record, if there is one.
pub(crate) fn commit_core(
    alloc: Global,
    core: &mut Core,
    ops: Vec<Op>,
    touched: &BTreeSet<Uuid>,
    renumber: bool,
) -> Result<Option<Vec<u8>>, Memory>
    requires { is_group (group_of ops.items) ≡ true }
    ensures base { core.new.base ≡ core.old.base }
    ensures tasks { core.new.tasks ≡ core.old.tasks }
    ensures idle { OnOk result (is_idle renumber (group_of ops.items) ≡ true → core.new ≡ core.old) }
    ensures pending { OnOk result (is_idle renumber (group_of ops.items) ≡ false → core.new.pending ≡ core.old.pending ++ group_of ops.items) }
    ensures numbers { OnOk result (is_idle renumber (group_of ops.items) ≡ false → RenewsNumbers renumber core.old core.new touched.now.keys) }
    ensures body { IfOk result (λ body. bodies_in body ≡ step_bodies (Commit renumber (group_of ops.items))) }
    ensures is { OnOk result (is_idle renumber (group_of ops.items) ≡ false → AllByRecursion IsOp (group_of ops.items)) }
{
    let group = grouped(ops)?;
    if is_idle(renumber, &group) {
        return Ok(None);
    }
    let body = commit_body(alloc, &group, renumber)?;
    renew_places(alloc, &mut core.numbers, &core.tasks, touched, renumber)?;
    keep_body(alloc, &mut core.pending, &body, group.len())?;
    Ok(Some(body))
}

/// Takes the last group back: the operations after an undo point, and the point with them.
pub(crate) fn take_back_core(alloc: Global, core: &mut Core, group: &Vec<Op>) -> Result<(), Memory>
    requires last { IsLastOf core.old.pending group.now.items }
    requires assigned { IsAssignedIn core.old.numbers.items core.old.tasks }
    ensures base { OnOk result (core.new.base ≡ core.old.base) }
    ensures pending { OnOk result ((last : IsLastOf core.old.pending group.now.items) → core.new.pending ≡ last.left) }
    ensures tasks { OnOk result (core.new.tasks ≡ take_back_all core.old.tasks (drop 1 group.now.items)) }
    ensures numbers { OnOk result (core.new.numbers.items ≡ assigned core.old.numbers.items core.new.tasks) }
{
    let touched = touched_uuids(alloc, group, 1)?;
    take_back_from(alloc, &mut core.tasks, group, 1)?;
    renew_places(alloc, &mut core.numbers, &core.tasks, &touched, false)?;
    core.pending.pop();
    Ok(())
}
