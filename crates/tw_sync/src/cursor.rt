// Where a sync is in the chain.
ghost use Rattle.std.specs.Prelude.{◌≡◌, ◌≤◌, ◌⊎◌, [], true, false, IfOk};
ghost use Rattle.tw_groups.specs.Groups.{joined};
ghost use Rattle.tw_groups.specs.Held.{groups_in};
ghost use Rattle.tw_path.specs.Walk.{IsPendingThere};
ghost use Rattle.tw_sync.specs.Ends.Refused.{max_pull};

mod add;
mod report;
mod start;
mod take_version;

use std::alloc::Global;
use tw_bodies::SyncOps;
use tw_model::{Op, SyncOp};
use tw_path::Walker;
use tw_world::Memory;
use uuid::Uuid;

/// Where a sync is: at a version, with what is left there of the local list, and what is carried.
pub struct Cursor {
    /// The version, what of the tasks is known there, what is left of the pending operations, and what is carried.
    pub walker: Walker,
    /// How many versions were pulled.
    pub versions: u64,
    /// How many bytes their segments have.
    pub bytes: u64,
    /// How often others had added a version before what was sent came.
    pub conflicts: u64,
    /// How many operations were pending at the start.
    pub pending: u64,
    /// How many of them were not sent.
    pub unsent: u64,
    /// Whether the server has asked for a snapshot.
    pub wanted: bool,
    ghost few: { versions ≤ bytes },
    ghost within: { bytes ≤ max_pull },
}

// It is written out, so that a caller does not prove again how each part is dropped.
impl Drop for Cursor {
    fn drop(self) {
        let Cursor {
            walker: _walker,
            versions: _versions,
            bytes: _bytes,
            conflicts: _conflicts,
            pending: _pending,
            unsent: _unsent,
            wanted: _wanted,
        } = self;
    }
}

impl Cursor {
    /// Whether an operation is left. No more are left than were not sent.
    pub fn has_left(&self) -> bool
        ensures some { result ≡ true → ¬ (joined (groups_in self.now.walker.left.items) ≡ []) }
        ensures more { result ≡ true → 1 ≤ self.now.unsent }
        ensures none { result ≡ false → (self.now.unsent ≡ 0) ⊎ (joined (groups_in self.now.walker.left.items) ≡ []) }
    {
        self.unsent > 0 && hold_any(&self.walker.left)
    }

    /// The version at which it is.
    pub fn at(&self) -> Uuid
        ensures { result ≡ self.now.walker.at }
    {
        self.walker.at
    }

    /// What is left, as pending operations with the old values that they find there. Then the cursor is good for what is carried alone.
    pub fn pending_there(&mut self, alloc: Global) -> Result<Vec<Op>, Memory>
        ensures pending { IfOk result (λ ops. IsPendingThere self.old.walker ops.items) }
        ensures carried { self.new.walker.carried ≡ self.old.walker.carried }
    {
        self.walker.pending(alloc)
    }

    /// What is carried to the tasks at hand. All else is let go.
    pub fn into_carried(self) -> SyncOps
        ensures { result ≡ self.walker.carried }
    {
        let Cursor {
            walker,
            versions: _versions,
            bytes: _bytes,
            conflicts: _conflicts,
            pending: _pending,
            unsent: _unsent,
            wanted: _wanted,
        } = self;
        walker.into_carried()
    }
}

// Whether groups hold an operation.
fn hold_any(groups: &Vec<Vec<SyncOp>>) -> bool
    ensures some { result ≡ true → ¬ (joined (groups_in groups.now.items) ≡ []) }
    ensures none { result ≡ false → joined (groups_in groups.now.items) ≡ [] }
{
    let mut at = 0;
    while at < groups.len() {
        if !groups[at].is_empty() {
            return true;
        }
        at += 1;
    }
    false
}
