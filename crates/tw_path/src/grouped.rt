// Pending operations as groups.
ghost use Rattle.std.specs.Prelude.{◌≡◌, ◌≤◌, [], length, is_none, IfOk, OnOk};
ghost use Rattle.tw_model.specs.LocalOps.{synced};
ghost use Rattle.tw_groups.specs.Groups.{put_in_front, groups_of};
ghost use Rattle.tw_groups.specs.Held.{groups_in};
ghost use Rattle.tw_path.specs.Grouped.{parts_held};

use std::alloc::Global;
use std::mem::replace;
use tw_model::{Op, SyncOp};
use tw_world::Memory;

/// The groups of pending operations: what is exchanged of those after each undo point.
///
/// The operations are let go one by one, the last one first, and give their memory back as the groups take theirs.
pub fn groups_of(alloc: Global, pending: Vec<Op>) -> Result<Vec<Vec<SyncOp>>, Memory>
    ensures { IfOk result (λ groups. groups_in groups.items ≡ groups_of pending.items) }
{
    let mut pending = pending;
    let mut group = room_for_last(alloc, &pending)?;
    let mut groups = Vec::new(alloc);
    while let Some(op) = pending.pop() {
        put_in_front(alloc, &op, &pending, &mut group, &mut groups)?;
        release(&mut pending);
    }
    groups.reverse();
    Ok(groups)
}

// Room for the operations after the last undo point.
fn room_for_last(alloc: Global, pending: &Vec<Op>) -> Result<Vec<SyncOp>, Memory>
    ensures { IfOk result (λ group. group.items ≡ []) }
{
    Ok(Vec::with_capacity(alloc, count_last(pending))?)
}

// How many operations come after the last undo point.
fn count_last(pending: &Vec<Op>) -> usize
    ensures { result ≤ length pending.now.items }
{
    let mut at = pending.len();
    while at > 0 && !is_point(&pending[at - 1]) {
        at -= 1;
    }
    pending.len() - at
}

fn is_point(op: &Op) -> bool
    ensures { result ≡ is_none (synced op.now) }
{
    match op {
        Op::Create { .. } => false,
        Op::Delete { .. } => false,
        Op::Update { .. } => false,
        Op::UndoPoint => true,
    }
}

// Puts an operation in front of others. Each of the two lists has its last one first. An undo point ends the group after it.
fn put_in_front(
    alloc: Global,
    op: &Op,
    before: &Vec<Op>,
    group: &mut Vec<SyncOp>,
    groups: &mut Vec<Vec<SyncOp>>,
) -> Result<(), Memory>
    ensures { OnOk result (parts_held group.new.items groups.new.items ≡ put_in_front (synced op.now) (parts_held group.old.items groups.old.items)) }
{
    match op.to_sync(alloc)? {
        Some(op) => group.push(op)?,
        None => {
            let mut whole = replace(group, room_for_last(alloc, before)?);
            whole.reverse();
            groups.push(whole)?;
        }
    }
    Ok(())
}

// Gives the memory of operations that were let go back, so many at a time.
fn release(pending: &mut Vec<Op>)
    ensures { pending.new.items ≡ pending.old.items }
{
    if pending.len() % 4096 == 0 {
        pending.shrink_to_fit();
    }
}
