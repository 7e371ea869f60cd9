// Operations that are to be pending on the tasks at hand: whether they may, and how they are kept.
ghost use Rattle.std.specs.Prelude.{◌≡◌, ◌≤◌, ◌++◌, ◌∷◌, [], length, true, cond, Some, None, IfOk, OnOk};
ghost use Rattle.std.specs.Option.{option_copied, option_eq};
ghost use Rattle.tw_model.specs.Maps.{same_bytes};
ghost use Rattle.tw_bodies.specs.Body.{is_group};
ghost use Rattle.tw_state.specs.State.{begins_with_point, is_left_by, before_all, may_pend};

use crate::pending::Pending;
use crate::restore::keep_command;
use crate::state::apply_ops;
use std::alloc::Global;
use tw_bodies::is_undo_point;
use tw_model::{Op, TaskMap, Tasks};
use tw_world::{Memory, Text};

fn begins_with_point(ops: &Vec<Op>) -> bool
    ensures { result ≡ begins_with_point ops.now.items }
{
    if ops.len() == 0 {
        return true;
    }
    is_undo_point(&ops[0])
}

fn is_value(a: Option<&str>, b: &Option<Text>) -> bool
    ensures { result ≡ option_eq same_bytes (option_copied a.entry) b.now }
{
    match (a, b) {
        (None, None) => true,
        (Some(a), Some(b)) => a == b.as_str(),
        _ => false,
    }
}

// Whether the tasks are some that an operation leaves.
fn is_left_by(alloc: Global, tasks: &Tasks, op: &Op) -> bool
    ensures { result ≡ is_left_by tasks.now op.now }
{
    match op {
        Op::Create { uuid } => match tasks.get(*uuid) {
            Some(task) => task.is_same(&TaskMap::new(alloc)),
            None => false,
        },
        Op::Delete { uuid, .. } => tasks.get(*uuid).is_none(),
        Op::Update {
            uuid,
            property,
            after,
            ..
        } => match tasks.get(*uuid) {
            Some(task) => is_value(task.get(property.as_str()), after),
            None => false,
        },
        Op::UndoPoint => true,
    }
}

// Takes operations back, the last one first, as long as each can have led to the tasks. Answers whether all could.
fn take_all_back(alloc: Global, tasks: &mut Tasks, ops: &Vec<Op>) -> Result<bool, Memory>
    ensures { IfOk result (λ done. before_all tasks.old ops.now.items ≡ cond done (Some tasks.new) None) }
{
    let mut at = ops.len();
    while at > 0 {
        at -= 1;
        let op = &ops[at];
        if !is_left_by(alloc, tasks, op) {
            return Ok(false);
        }
        tasks.invert(alloc, op)?;
    }
    Ok(true)
}

/// Whether operations may be pending on the tasks: they begin with an undo point, fit some tasks, and lead from those to these.
/// They are taken back, the last one first, and then applied again. What is left of the tasks if they may not is of no use.
pub(crate) fn may_pend(alloc: Global, tasks: &mut Tasks, ops: &Vec<Op>) -> Result<bool, Memory>
    ensures told { IfOk result (λ done. done ≡ may_pend tasks.old ops.now.items) }
    ensures same { IfOk result (λ done. done ≡ true → tasks.new ≡ tasks.old) }
{
    if !begins_with_point(ops) {
        return Ok(false);
    }
    if !take_all_back(alloc, tasks, ops)? {
        return Ok(false);
    }
    let _ = apply_ops(alloc, tasks, ops)?;
    Ok(true)
}

// Puts an operation after those of its command. An undo point is the first of the next one, and those before it are kept.
fn keep_next(
    alloc: Global,
    pending: &mut Pending,
    command: &mut Vec<Op>,
    op: &Op,
) -> Result<(), Memory>
    requires group { is_group command.old.items ≡ true }
    requires begins { begins_with_point (command.old.items ++ op.now ∷ []) ≡ true }
    ensures group { OnOk result (is_group command.new.items ≡ true) }
    ensures all { OnOk result (pending.new ++ command.new.items ≡ (pending.old ++ command.old.items) ++ op.now ∷ []) }
    ensures begins { OnOk result (begins_with_point command.new.items ≡ true) }
    ensures some { OnOk result (1 ≤ length command.new.items) }
{
    let next = op.copy(alloc)?;
    if !is_undo_point(op) {
        command.push(next)?;
        return Ok(());
    }
    keep_command(alloc, pending, command)?;
    command.clear();
    command.push(next)?;
    Ok(())
}

/// Operations as a replica keeps them, those of each command in a body of their own.
pub fn pending_of(alloc: Global, ops: &Vec<Op>) -> Result<Pending, Memory>
    requires { begins_with_point ops.now.items ≡ true }
    ensures { IfOk result (λ pending. pending ≡ ops.now.items) }
{
    let mut pending = Pending::new(alloc);
    let mut command = Vec::new(alloc);
    let mut at = 0;
    while at < ops.len() {
        keep_next(alloc, &mut pending, &mut command, &ops[at])?;
        at += 1;
    }
    keep_command(alloc, &mut pending, &command)?;
    Ok(pending)
}
