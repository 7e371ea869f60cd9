// Reading the body of a step, and writing that of a commit and of an undo.
ghost use Rattle.std.specs.Prelude.{◌≡◌, IfOk, OnOk};
ghost use Rattle.std.specs.List.{AllByRecursion};
ghost use Rattle.tw_bodies.specs.Body.{body_of, is_undo_point, is_group, IsOp};
ghost use Rattle.tw_bodies.specs.Body.Step.{Commit, Undo};
ghost use Rattle.tw_bodies.specs.Views.{IsRead};
ghost use Rattle.tw_bodies.specs.Reading.{group_of, commit_of, step_of};
ghost use Rattle.tw_fields.specs.Reading.{Gives};

use crate::op::{put_ops, read_ops};
use crate::partial::read_partial;
use crate::state::read_checkpoint;
use crate::sync_op::{read_carried, read_sync};
use std::alloc::Global;
use tw_fields::{ReadError, put_count, u32_at};
use tw_model::{Op, Tasks};
use tw_world::Memory;
use uuid::Uuid;

pub fn is_undo_point(op: &Op) -> bool
    ensures { result ≡ is_undo_point op.now }
{
    match op {
        Op::UndoPoint => true,
        _ => false,
    }
}

/// Whether there are no operations, or an undo point and no other after it.
pub(crate) fn is_group(ops: &Vec<Op>) -> bool
    ensures { result ≡ is_group ops.now.items }
{
    if ops.len() == 0 {
        return true;
    }
    if !is_undo_point(&ops[0]) {
        return false;
    }
    let mut at = 1;
    while at < ops.len() {
        if is_undo_point(&ops[at]) {
            return false;
        }
        at += 1;
    }
    true
}

#[tactic(auto, unfolding(crate::specs::Reading::group_of))]
pub fn read_group(alloc: Global, bytes: &[u8]) -> Result<Vec<Op>, ReadError>
    ensures { Gives (λ ops. ops.items) result (group_of bytes.now) }
{
    let (count, rest) = u32_at(bytes)?;
    let (ops, rest) = read_ops(alloc, count, rest)?;
    if rest.len() == 0 && is_group(&ops) {
        Ok(ops)
    } else {
        Err(ReadError::Malformed)
    }
}

/// A step that was read. The operations of a sync and those that are pending on a whole state may be many, and are read later.
#[derive(Drop)]
pub enum Read<'a> {
    Commit {
        renumber: bool,
        ops: Vec<Op>,
    },
    Undo,
    Sync {
        base: [u8; 16],
        count: u32,
        ops: &'a [u8],
    },
    Carried {
        base: [u8; 16],
        count: u32,
        ops: &'a [u8],
    },
    /// What is pending comes after the operations.
    Partial {
        base: [u8; 16],
        count: u32,
        ops: &'a [u8],
    },
    Checkpoint {
        base: [u8; 16],
        places: Vec<Option<Uuid>>,
        tasks: Tasks,
        count: u32,
        ops: &'a [u8],
    },
}

#[tactic(auto, unfolding(crate::specs::Reading::commit_of))]
fn read_commit(alloc: Global, bytes: &[u8]) -> Result<Read<'_>, ReadError>
    ensures { IsRead result (commit_of bytes.now) }
{
    match bytes {
        [0, rest @ ..] => Ok(Read::Commit {
            renumber: false,
            ops: read_group(alloc, rest)?,
        }),
        [1, rest @ ..] => Ok(Read::Commit {
            renumber: true,
            ops: read_group(alloc, rest)?,
        }),
        _ => Err(ReadError::Malformed),
    }
}

/// The step that a body holds.
#[tactic(auto, unfolding(crate::specs::Reading::step_of))]
pub fn read_step(alloc: Global, bytes: &[u8]) -> Result<Read<'_>, ReadError>
    ensures { IsRead result (step_of bytes.now) }
{
    match bytes {
        [1, rest @ ..] => read_commit(alloc, rest),
        [2] => Ok(Read::Undo),
        [3, rest @ ..] => read_sync(rest),
        [4, rest @ ..] => read_carried(rest),
        [5, rest @ ..] => read_checkpoint(alloc, rest),
        [6, rest @ ..] => read_partial(rest),
        _ => Err(ReadError::Malformed),
    }
}

// For how many bytes of a commit room is made at first: most operations take fewer than 64.
fn commit_room(ops: usize) -> usize {
    ops.min(1 << 20) * 64
}

/// The body of a commit's record.
pub fn commit_body(alloc: Global, ops: &Vec<Op>, renumber: bool) -> Result<Vec<u8>, Memory>
    ensures body { IfOk result (λ body. body.items ≡ body_of (Commit renumber ops.now.items)) }
    ensures ops { OnOk result (AllByRecursion IsOp ops.now.items) }
{
    let mut body = Vec::with_capacity(alloc, commit_room(ops.len()))?;
    body.push(1)?;
    body.push(renumber as u8)?;
    put_count(&mut body, ops.len())?;
    put_ops(&mut body, ops)?;
    Ok(body)
}

/// The body of an undo.
pub const UNDO: [u8; 1] = [2];

/// The body of an undo, in memory of its own.
pub fn undo_body(alloc: Global) -> Result<Vec<u8>, Memory>
    ensures { IfOk result (λ body. body.items ≡ body_of Undo) }
{
    Ok(UNDO.to_vec(alloc)?)
}
