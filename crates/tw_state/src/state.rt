// The state of a replica, and its steps in memory.
ghost use Rattle.std.specs.Prelude.{◌≡◌, ◌≤◌, ◌++◌, length, drop, IfOk, OnOk, IfNone};
ghost use Rattle.tw_model.specs.Ops.{apply_all};
ghost use Rattle.tw_model.specs.LocalOps.{apply_all_local, take_back_all};
ghost use Rattle.tw_numbers.specs.Assigned.{RenewsByPart};
ghost use Rattle.tw_state.specs.State.{is_idle, misfit, start};
ghost use Rattle.tw_state.specs.Core.{state_of};

use crate::pending::Pending;
use std::alloc::Global;
use std::collections::BTreeSet;
use tw_bodies::SyncOps;
use tw_model::{Op, SyncOp, Tasks};
use tw_numbers::{assigned, pack};
use tw_world::Memory;
use uuid::Uuid;

/// What a replica holds.
pub struct Core {
    pub base: Uuid,
    pub pending: Pending,
    pub tasks: Tasks,
    pub numbers: Vec<Option<Uuid>>,
}

// It is written out, so that a caller does not prove again how each part is dropped.
impl Drop for Core {
    fn drop(self) {
        let Core {
            base: _,
            pending: _,
            tasks: _,
            numbers: _,
        } = self;
    }
}

impl Core {
    /// A replica that holds nothing.
    pub fn new(alloc: Global) -> Core
        ensures { state_of result ≡ start }
    {
        Core {
            base: Uuid::nil(),
            pending: Pending::new(alloc),
            tasks: Tasks::new(alloc),
            numbers: Vec::new(alloc),
        }
    }
}

/// Applies operations one after another, and answers the number of the first that does not fit.
pub fn apply_ops(alloc: Global, tasks: &mut Tasks, ops: &Vec<Op>) -> Result<Option<u64>, Memory>
    ensures fit { IfOk result (λ at. at ≡ misfit 0 tasks.old ops.now.items) }
    ensures left { IfOk result (λ at. IfNone at (tasks.new ≡ apply_all_local tasks.old ops.now.items)) }
{
    let mut at = 0;
    while at < ops.len() {
        let next = tasks.apply_run(alloc, ops, at)?;
        if next == at {
            return Ok(Some(at as u64));
        }
        at = next;
    }
    Ok(None)
}

/// Applies operations of versions one after another. One that does not fit is skipped.
pub fn apply_sync_ops(alloc: Global, tasks: &mut Tasks, ops: &Vec<SyncOp>) -> Result<(), Memory>
    ensures { OnOk result (tasks.new ≡ apply_all tasks.old ops.now.items) }
{
    let mut at = 0;
    while at < ops.len() {
        at = tasks.apply_sync_run(alloc, ops, at)?;
    }
    Ok(())
}

/// Applies operations of versions that are held as bytes, one after another. One that does not fit is skipped.
pub fn apply_synced(alloc: Global, tasks: &mut Tasks, ops: &SyncOps) -> Result<(), Memory>
    ensures { OnOk result (tasks.new ≡ apply_all tasks.old ops.now) }
{
    let mut unread = ops.unread();
    while unread.left() > 0 {
        let some = unread.read_some(alloc)?;
        apply_sync_ops(alloc, tasks, &some)?;
    }
    Ok(())
}

/// The places for tasks once a part of them has changed, packed if it is asked.
pub(crate) fn places_for(
    alloc: Global,
    numbers: &Vec<Option<Uuid>>,
    part: &Tasks,
    touched: &BTreeSet<Uuid>,
    renumber: bool,
) -> Result<Vec<Option<Uuid>>, Memory>
    ensures { IfOk result (λ places. RenewsByPart renumber numbers.now.items places.items part.now touched.now.keys) }
{
    let mut places = assigned(alloc, numbers, part, touched)?;
    if renumber {
        pack(&mut places);
    }
    Ok(places)
}

/// Takes the operations from a number on back, the last one first.
pub fn take_back_from(
    alloc: Global,
    tasks: &mut Tasks,
    ops: &Vec<Op>,
    from: usize,
) -> Result<(), Memory>
    requires { from ≤ length ops.now.items }
    ensures { OnOk result (tasks.new ≡ take_back_all tasks.old (drop from ops.now.items)) }
{
    let mut at = ops.len();
    while at > from {
        at -= 1;
        tasks.invert(alloc, &ops[at])?;
    }
    Ok(())
}

/// Whether a commit has nothing to do.
pub fn is_idle(renumber: bool, ops: &Vec<Op>) -> bool
    ensures { result ≡ is_idle renumber ops.now.items }
{
    if renumber {
        return false;
    }
    ops.len() == 0
}
