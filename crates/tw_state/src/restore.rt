// Taking the pending operations of a whole state, those of one command at a time.
ghost use Rattle.std.specs.Prelude.{◌≡◌, ◌<◌, ◌++◌, [], true, is_none, IfOk, IfErr, OnOk};
ghost use Rattle.tw_model.specs.LocalOps.{apply_all_local};
ghost use Rattle.tw_bodies.specs.Body.{is_group};
ghost use Rattle.tw_bodies.specs.Reading.{op_at};
ghost use Rattle.tw_fields.specs.Reading.{Fails, many_at};
ghost use Rattle.tw_state.specs.State.{misfit};
ghost use Rattle.tw_state.specs.Restoring.{begins_a_command, ReadsCommand, TakesPending};

use crate::pending::{BODY_LIMIT, Pending};
use crate::state::apply_ops;
use std::alloc::Global;
use tw_bodies::{commit_body, read_op, room_for};
use tw_fields::ReadError;
use tw_model::{Op, Tasks};
use tw_world::Memory;

// For how many operations of a command room is made at first.
const AT_FIRST: u32 = 8;

// Whether bytes begin with those of an undo point.
fn begins_a_command(bytes: &[u8]) -> bool
    ensures { result ≡ begins_a_command bytes.now }
{
    match bytes {
        [first, ..] => *first == 4,
        [] => false,
    }
}

// Reads one operation, and those after it up to an undo point. How many are left, and the bytes after them.
fn read_command(alloc: Global, count: u32, bytes: &[u8]) -> Result<(Vec<Op>, u32, &[u8]), ReadError>
    requires { 0 < count }
    ensures read { IfOk result (λ x. ReadsCommand count bytes.now x.0.items x.1 x.2.now) }
    ensures refused { IfErr result (λ e. Fails e (many_at op_at count bytes.now)) }
{
    let (first, after) = read_op(alloc, bytes)?;
    let mut ops = Vec::with_capacity(alloc, room_for(count.min(AT_FIRST), bytes))?;
    ops.push(first)?;
    let mut left = count - 1;
    let mut rest = after;
    while left > 0 && !begins_a_command(rest) {
        let (op, after) = read_op(alloc, rest)?;
        ops.push(op)?;
        left -= 1;
        rest = after;
    }
    Ok((ops, left, rest))
}

// Puts the operations of a command after those that are pending.
pub(crate) fn keep_command(
    alloc: Global,
    pending: &mut Pending,
    ops: &Vec<Op>,
) -> Result<(), Memory>
    requires { is_group ops.now.items ≡ true }
    ensures { OnOk result (pending.new ≡ pending.old ++ ops.now.items) }
{
    let body = commit_body(alloc, ops, false)?;
    if body.len() >= BODY_LIMIT {
        return Err(Memory);
    }
    pending.keep(body, ops.len())
}

// Applies the operations of a command and puts them after those that are pending, and answers whether they fit.
fn take_command(
    alloc: Global,
    tasks: &mut Tasks,
    pending: &mut Pending,
    ops: &Vec<Op>,
) -> Result<bool, Memory>
    requires { is_group ops.now.items ≡ true }
    ensures fit { IfOk result (λ done. done ≡ is_none (misfit 0 tasks.old ops.now.items)) }
    ensures tasks { IfOk result (λ done. done ≡ true → tasks.new ≡ apply_all_local tasks.old ops.now.items) }
    ensures pending { IfOk result (λ done. done ≡ true → pending.new ≡ pending.old ++ ops.now.items) }
{
    if let Some(_) = apply_ops(alloc, tasks, ops)? {
        return Ok(false);
    }
    keep_command(alloc, pending, ops)?;
    Ok(true)
}

/// Takes the pending operations of a whole state, and answers whether they are so many in these bytes, begin with an undo point and fit.
pub(crate) fn take_pending(
    alloc: Global,
    tasks: &mut Tasks,
    pending: &mut Pending,
    count: u32,
    bytes: &[u8],
) -> Result<bool, Memory>
    requires { pending.old ≡ [] }
    ensures { IfOk result (λ done. TakesPending done count bytes.now tasks.old tasks.new pending.new) }
{
    if count > 0 && !begins_a_command(bytes) {
        return Ok(false);
    }
    let mut left = count;
    let mut rest = bytes;
    while left > 0 {
        match read_command(alloc, left, rest) {
            Ok((ops, more, after)) => {
                if !take_command(alloc, tasks, pending, &ops)? {
                    return Ok(false);
                }
                left = more;
                rest = after;
            }
            Err(ReadError::Malformed) => return Ok(false),
            Err(ReadError::Memory) => return Err(Memory),
        }
    }
    Ok(rest.len() == 0)
}
