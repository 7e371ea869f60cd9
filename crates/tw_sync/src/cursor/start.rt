// The cursor at which a sync of a replica begins.
ghost use Rattle.std.specs.Prelude.{◌≡◌, ◌≤◌, ◌∷◌, [], length, IfOk};
ghost use Rattle.tw_model.specs.LocalOps.{plain};
ghost use Rattle.tw_replica.specs.Replica.{held_state};
ghost use Rattle.tw_state.specs.State.{State};
ghost use Rattle.tw_sync.specs.Way.Cursor.{IsAtStart};
ghost use Rattle.tw_sync.specs.Start.{from_state};
ghost use Rattle.tw_sync.specs.Start.Start.{Snapshot};

use crate::cursor::Cursor;
use std::alloc::Global;
use tw_model::{Op, Tasks};
use tw_path::Walker;
use tw_replica::Replica;
use tw_world::Memory;
use uuid::Uuid;

impl Cursor {
    /// A cursor at the base of a replica, where all that is pending is left.
    pub fn start(alloc: Global, replica: &Replica) -> Result<Cursor, Memory>
        ensures { IfOk result (λ cursor. IsAtStart (held_state replica.now) cursor) }
    {
        let ops = replica.pending().ops(alloc)?;
        let pending = count_exchanged(&ops);
        let walker = Walker::start(alloc, replica.tasks(), replica.base(), ops)?;
        Ok(Cursor {
            walker,
            versions: 0,
            bytes: 0,
            conflicts: 0,
            pending,
            unsent: pending,
            wanted: false,
        })
    }

    /// A cursor at a snapshot, where nothing is left.
    pub fn at_snapshot(alloc: Global, tasks: &Tasks, version: Uuid) -> Result<Cursor, Memory>
        ensures { IfOk result (λ cursor. (state : State) → IsAtStart (from_state (Snapshot version tasks.now) state) cursor) }
    {
        let none = Vec::new(alloc);
        let walker = Walker::start(alloc, tasks, version, none)?;
        Ok(Cursor {
            walker,
            versions: 0,
            bytes: 0,
            conflicts: 0,
            pending: 0,
            unsent: 0,
            wanted: false,
        })
    }
}

// How many of the operations replicas exchange: undo points are left out.
fn count_exchanged(ops: &Vec<Op>) -> u64
    ensures { result ≡ length (plain ops.now.items) }
{
    let mut count = 0;
    let mut at = 0;
    while at < ops.len() {
        count += count_one(&ops[at]);
        at += 1;
    }
    count
}

fn count_one(op: &Op) -> u64
    ensures counted { result ≡ length (plain (op.now ∷ [])) }
    ensures within { result ≤ 1 }
{
    match op {
        Op::Create { .. } => 1,
        Op::Delete { .. } => 1,
        Op::Update { .. } => 1,
        Op::UndoPoint => 0,
    }
}
