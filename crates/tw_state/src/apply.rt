// Applying the operations of a sync as they are read.
ghost use Rattle.std.specs.Prelude.{◌≡◌, ◌||◌, List, ℕ, IfOk, OnOk};
ghost use Rattle.tw_model.specs.Ops.{apply_all};
ghost use Rattle.tw_numbers.specs.Assigned.{is_among};
ghost use Rattle.tw_state.specs.Touched.{is_touched_by_synced};
ghost use Rattle.tw_state.specs.Applied.{AppliesRead};

use crate::state::apply_sync_ops;
use crate::touched::add_all_synced;
use std::alloc::Global;
use std::collections::BTreeSet;
use tw_bodies::read_sync_ops;
use tw_fields::ReadError;
use tw_model::{SyncOp, Tasks};
use tw_world::Memory;
use uuid::Uuid;

// How many operations of a sync are read before they are applied.
const AT_ONCE: u32 = 256;

// Applies operations of versions, and puts the uuids of their tasks beside others.
fn apply_these(
    alloc: Global,
    tasks: &mut Tasks,
    touched: &mut BTreeSet<Uuid>,
    ops: &Vec<SyncOp>,
) -> Result<(), Memory>
    ensures tasks { OnOk result (tasks.new ≡ apply_all tasks.old ops.now.items) }
    ensures touched { OnOk result ((u : List ℕ) → is_among touched.new.keys u ≡ (is_among touched.old.keys u || is_touched_by_synced ops.now.items u)) }
{
    add_all_synced(touched, ops)?;
    apply_sync_ops(alloc, tasks, ops)
}

/// Applies so many operations of versions as they are read, and answers whether the bytes are those.
pub(crate) fn apply_read(
    alloc: Global,
    tasks: &mut Tasks,
    touched: &mut BTreeSet<Uuid>,
    count: u32,
    bytes: &[u8],
) -> Result<bool, Memory>
    ensures { IfOk result (λ done. AppliesRead done count bytes.now tasks.old tasks.new touched.old.keys touched.new.keys) }
{
    let mut left = count;
    let mut rest = bytes;
    while left > 0 {
        let some = left.min(AT_ONCE);
        match read_sync_ops(alloc, some, rest) {
            Ok((ops, after)) => {
                apply_these(alloc, tasks, touched, &ops)?;
                rest = after;
            }
            Err(ReadError::Malformed) => return Ok(false),
            Err(ReadError::Memory) => return Err(Memory),
        }
        left -= some;
    }
    Ok(rest.len() == 0)
}
