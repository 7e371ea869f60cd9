// Operations of versions that are read back some at a time.
ghost use Rattle.std.specs.Prelude.{◌≡◌, ◌<◌, ◌++◌, length, IfOk, OnOk};
ghost use Rattle.tw_bodies.specs.Runs.{IsRun};

use crate::run::read_run;
use crate::sync_op::read_sync_ops;
use std::alloc::Global;
use std::marker::Model;
use tw_model::SyncOp;
use tw_world::Memory;

/// Operations of versions that are still to be read, seen as their list.
#[derive(Drop)]
pub struct Unread<'a> {
    pub(crate) left: u32,
    pub(crate) rest: &'a [u8],
}

impl<'a> Model for Unread<'a> {
    ghost use Rattle.std.specs.Prelude.{◌≡◌, List, [], Some};
    ghost use Rattle.tw_model.specs.declared.SyncOp.{SyncOp as AnySyncOp};
    ghost use Rattle.tw_bodies.specs.Reading.{sync_op_at};
    ghost use Rattle.tw_bodies.specs.SyncOps.{ops_in};
    ghost use Rattle.tw_fields.specs.Reading.{many_at};

    ghost Value = { List AnySyncOp };

    ghost view = { λ u. ops_in u.left u.rest.now };

    ghost invariant = { λ u. many_at sync_op_at u.left u.rest.now ≡ Some (ops_in u.left u.rest.now, []) };
}

// How many operations are read at once.
const AT_ONCE: u32 = 256;

impl<'a> Unread<'a> {
    /// How many are left.
    pub fn left(&self) -> u32
        ensures { result ≡ length self.now }
    {
        self.left
    }

    /// The next ones, at most 256. They were written of operations, so that only memory can be wanting.
    pub fn read_some(&mut self, alloc: Global) -> Result<Vec<SyncOp>, Memory>
        ensures read { IfOk result (λ ops. self.old ≡ ops.items ++ self.new) }
        ensures fewer { OnOk result (0 < length self.old → length self.new < length self.old) }
    {
        let some = self.left.min(AT_ONCE);
        let Ok((ops, rest)) = read_sync_ops(alloc, some, self.rest) else {
            return Err(Memory);
        };
        self.left -= some;
        self.rest = rest;
        Ok(ops)
    }

    /// The next one, and those after it that update the task which it leaves.
    pub fn read_run(&mut self, alloc: Global) -> Result<Vec<SyncOp>, Memory>
        requires { 0 < length self.old }
        ensures read { IfOk result (λ ops. self.old ≡ ops.items ++ self.new) }
        ensures run { IfOk result (λ ops. IsRun ops.items) }
    {
        let Ok((ops, left, rest)) = read_run(alloc, self.left, self.rest) else {
            return Err(Memory);
        };
        self.left = left;
        self.rest = rest;
        Ok(ops)
    }
}
