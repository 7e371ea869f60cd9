// A cursor goes on to a version that was added.
ghost use Rattle.std.specs.Prelude.{◌≡◌, OnOk};
ghost use Rattle.tw_path.specs.Batch.{IsFirstBatch};
ghost use Rattle.tw_sync.specs.Way.Cursor.{AddsVersion};

use crate::cursor::Cursor;
use std::alloc::Global;
use tw_model::SyncOp;
use tw_path::Batch;
use tw_world::Memory;
use uuid::Uuid;

impl Cursor {
    /// Goes on to a version that was added with the operations of a batch, which are no longer left. The server wants a snapshot then, or not.
    ///
    /// After a refusal the cursor must not be used.
    pub fn add(
        &mut self,
        alloc: Global,
        id: Uuid,
        ops: Vec<SyncOp>,
        batch: Batch,
        wanted: bool,
    ) -> Result<(), Memory>
        requires { IsFirstBatch batch self.old.walker.left.items }
        ensures { OnOk result (AddsVersion self.old self.new id ops.items wanted) }
    {
        let count = ops.len() as u64;
        self.walker.push(alloc, id, &ops, batch)?;
        self.unsent = self.unsent.saturating_sub(count);
        self.wanted = self.wanted || wanted;
        Ok(())
    }
}
