// Operations of versions, held as a record's body spells them.
ghost use Rattle.std.specs.Prelude.{◌≡◌, ◌<◌, ◌^◌, ◌++◌, ◌∷◌, [], length, Some, IfOk, OnOk, OnErr};
ghost use Rattle.std.specs.List.{flat_map};
ghost use Rattle.std.specs.Int.{w32, to_be_bytes};
ghost use Rattle.tw_bodies.specs.Body.{sync_op_bytes, body_of, IsStep};
ghost use Rattle.tw_bodies.specs.Body.Step.{Carried, Partial};
ghost use Rattle.tw_bodies.specs.Reading.{sync_op_at};
ghost use Rattle.tw_fields.specs.Fields.{IsUuid};
ghost use Rattle.tw_fields.specs.Reading.{many_at};

use crate::op::put_ops;
use crate::sync_op::put_sync_op;
use crate::unread::Unread;
use std::alloc::Global;
use std::marker::Model;
use tw_fields::{put_count, put_uuid};
use tw_model::{Op, SyncOp};
use tw_world::Memory;
use uuid::Uuid;

/// Operations of versions, one after another, as a record's body spells them. Their bytes are fewer than 2^32.
pub struct SyncOps {
    count: usize,
    bytes: Vec<u8>,
    // The bytes of one operation, before they are put after the others.
    next: Vec<u8>,
}

// It is written out, so that a caller does not prove again how each part is dropped.
impl Drop for SyncOps {
    fn drop(self) {
        let SyncOps {
            count: _,
            bytes: _,
            next: _,
        } = self;
    }
}

impl Model for SyncOps {
    ghost use Rattle.std.specs.Prelude.{List};
    ghost use Rattle.tw_model.specs.declared.SyncOp.{SyncOp as AnySyncOp};
    ghost use Rattle.tw_bodies.specs.SyncOps.{ops_in, AreSpelled};

    ghost Value = { List AnySyncOp };

    ghost view = { λ s. ops_in s.count s.bytes.items };

    ghost invariant = { λ s. AreSpelled s.count s.bytes.items };
}

// The bytes of operations are fewer.
const LIMIT: usize = 4_294_967_296;

// How many bytes a body has before those of its operations: its kind, the version and the number.
const HEAD: usize = 21;

// Puts the kind of a body, the version and the number of operations before their bytes.
fn put_head(body: &mut Vec<u8>, kind: u8, base: &Uuid, count: usize) -> Result<(), Memory>
    ensures put { OnOk result (body.new.items ≡ kind ∷ (base.now ++ (to_be_bytes w32 count ++ body.old.items))) }
    ensures is { OnOk result (IsUuid base.now) }
{
    body.push(kind)?;
    put_uuid(body, base)?;
    put_count(body, count)?;
    body.rotate_right(HEAD);
    Ok(())
}

impl SyncOps {
    /// No operations.
    pub fn new(alloc: Global) -> SyncOps
        ensures { result ≡ [] }
    {
        let bytes = Vec::new(alloc);
        let next = Vec::new(alloc);
        SyncOps {
            count: 0,
            bytes,
            next,
        }
    }

    /// How many operations there are.
    pub fn len(&self) -> usize
        ensures count { result ≡ length self.now }
        ensures few { result < 2 ^ 32 }
    {
        self.count
    }

    /// The bytes that spell them.
    pub fn as_bytes(&self) -> &[u8]
        ensures spelled { result.now ≡ flat_map sync_op_bytes self.now }
        ensures read { many_at sync_op_at (length self.now) result.now ≡ Some (self.now, []) }
    {
        &self.bytes
    }

    /// Puts an operation after the others, or changes nothing.
    pub fn push(&mut self, op: &SyncOp) -> Result<(), Memory>
        ensures ok { OnOk result (self.new ≡ self.old ++ op.now ∷ []) }
        ensures err { OnErr result (self.new ≡ self.old) }
    {
        self.next.clear();
        put_sync_op(&mut self.next, op)?;
        if self.next.len() >= LIMIT - self.bytes.len() {
            return Err(Memory);
        }
        self.bytes.extend_from_slice(&self.next)?;
        self.count += 1;
        Ok(())
    }

    /// Puts operations after the others. After want of memory some of them are there.
    pub fn append(&mut self, ops: &Vec<SyncOp>) -> Result<(), Memory>
        ensures { OnOk result (self.new ≡ self.old ++ ops.now.items) }
    {
        for op in ops {
            self.push(op)?;
        }
        Ok(())
    }

    /// A reader of them, from the first on.
    pub fn unread(&self) -> Unread<'_>
        ensures { result ≡ self.now }
    {
        Unread {
            left: self.count as u32,
            rest: &self.bytes,
        }
    }

    /// The body of the record of a sync in place, made of the bytes at hand.
    pub fn into_carried(self, base: &Uuid) -> Result<Vec<u8>, Memory>
        ensures body { IfOk result (λ body. body.items ≡ body_of (Carried base.now self)) }
        ensures is { OnOk result (IsStep (Carried base.now self)) }
    {
        let SyncOps {
            count,
            bytes,
            next: _,
        } = self;
        let mut body = bytes;
        put_head(&mut body, 4, base, count)?;
        Ok(body)
    }

    /// The body of the record of a sync that was cut short, made of the bytes at hand.
    pub fn into_partial(self, base: &Uuid, pending: &Vec<Op>) -> Result<Vec<u8>, Memory>
        ensures body { IfOk result (λ body. body.items ≡ body_of (Partial base.now self pending.now.items)) }
        ensures is { OnOk result (IsStep (Partial base.now self pending.now.items)) }
    {
        let SyncOps {
            count,
            bytes,
            next: _,
        } = self;
        let mut body = bytes;
        put_head(&mut body, 6, base, count)?;
        put_count(&mut body, pending.len())?;
        put_ops(&mut body, pending)?;
        Ok(body)
    }
}
