// Applying operations of versions as long as each fits. They are read one task at a time, so that each task gets the room that it needs.
ghost use Rattle.std.specs.Prelude.{◌≡◌, List, ℕ, true, cond, Some, None, IfOk, OnOk, IfNone};
ghost use Rattle.std.specs.Option.{option_copied};
ghost use Rattle.tw_model.specs.Ops.{apply_all};
ghost use Rattle.tw_bodies.specs.Runs.{IsRun};
ghost use Rattle.tw_state.specs.State.{misfit_synced};
ghost use Rattle.tw_state.specs.Touched.{Gains, is_touched_by_synced};
ghost use Rattle.tw_state.specs.Applied.{AppliesFitting};

use crate::state::apply_sync_ops;
use crate::touched::add_all_synced;
use std::alloc::Global;
use std::collections::BTreeSet;
use tw_bodies::{SyncOps, read_run};
use tw_fields::ReadError;
use tw_model::{SyncOp, Tasks};
use tw_world::Memory;
use uuid::Uuid;

// Applies a run, and answers whether it fits. One that does not fit changes nothing.
fn apply_run(alloc: Global, tasks: &mut Tasks, ops: &Vec<SyncOp>) -> Result<bool, Memory>
    requires { IsRun ops.now.items }
    ensures fit { IfOk result (λ done. (n : ℕ) → misfit_synced n tasks.old ops.now.items ≡ cond done None (Some n)) }
    ensures tasks { IfOk result (λ done. done ≡ true → tasks.new ≡ apply_all tasks.old ops.now.items) }
{
    if !tasks.fits(&ops[0]) {
        return Ok(false);
    }
    apply_sync_ops(alloc, tasks, ops)?;
    Ok(true)
}

/// Applies operations of versions one after another, and answers the number of the first that does not fit.
pub fn apply_carried(alloc: Global, tasks: &mut Tasks, ops: &SyncOps) -> Result<Option<u64>, Memory>
    ensures fit { IfOk result (λ at. at ≡ misfit_synced 0 tasks.old ops.now) }
    ensures left { IfOk result (λ at. IfNone at (tasks.new ≡ apply_all tasks.old ops.now)) }
{
    let mut unread = ops.unread();
    let all = unread.left();
    while unread.left() > 0 {
        let at = all - unread.left();
        let run = unread.read_run(alloc)?;
        if !apply_run(alloc, tasks, &run)? {
            return Ok(Some(at as u64));
        }
    }
    Ok(None)
}

// Applies a run likewise, and puts the uuid of its task beside others.
fn take_run(
    alloc: Global,
    tasks: &mut Tasks,
    touched: &mut BTreeSet<Uuid>,
    ops: &Vec<SyncOp>,
) -> Result<bool, Memory>
    requires { IsRun ops.now.items }
    ensures fit { IfOk result (λ done. (n : ℕ) → misfit_synced n tasks.old ops.now.items ≡ cond done None (Some n)) }
    ensures tasks { IfOk result (λ done. done ≡ true → tasks.new ≡ apply_all tasks.old ops.now.items) }
    ensures touched { OnOk result (Gains touched.old touched.new (is_touched_by_synced ops.now.items)) }
{
    add_all_synced(touched, ops)?;
    apply_run(alloc, tasks, ops)
}

/// Applies so many operations of versions as they are read, as long as each fits, and puts the uuids of their tasks beside others.
/// It answers the bytes after them, or none if the bytes are no such operations or one does not fit.
pub(crate) fn apply_fitting<'a>(
    alloc: Global,
    tasks: &mut Tasks,
    touched: &mut BTreeSet<Uuid>,
    count: u32,
    bytes: &'a [u8],
) -> Result<Option<&'a [u8]>, Memory>
    ensures { IfOk result (λ rest. AppliesFitting (option_copied rest) count bytes.now tasks.old tasks.new touched.old.keys touched.new.keys) }
{
    let mut left = count;
    let mut rest = bytes;
    while left > 0 {
        match read_run(alloc, left, rest) {
            Ok((ops, more, after)) => {
                if !take_run(alloc, tasks, touched, &ops)? {
                    return Ok(None);
                }
                left = more;
                rest = after;
            }
            Err(ReadError::Malformed) => return Ok(None),
            Err(ReadError::Memory) => return Err(Memory),
        }
    }
    Ok(Some(rest))
}
