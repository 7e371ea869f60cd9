// The tasks that operations are about.
ghost use Rattle.std.specs.Prelude.{◌≡◌, List, ℕ, true, drop, IfOk, OnOk, IfSome};
ghost use Rattle.std.specs.BTreeSet as set;
ghost use Rattle.tw_model.specs.Maps.{bytes_cmp, same_bytes};
ghost use Rattle.tw_model.specs.Places.{has_uuid};
ghost use Rattle.tw_state.specs.Indexed.{MakesOne};
ghost use Rattle.tw_state.specs.Touched.{Gains, is_about, is_touched, is_touched_by_synced};

use std::alloc::Global;
use std::collections::BTreeSet;
use tw_bodies::SyncOps;
use tw_model::{Op, SyncOp};
use tw_world::Memory;
use uuid::Uuid;

fn add_uuid(touched: &mut BTreeSet<Uuid>, uuid: &Uuid) -> Result<(), Memory>
    ensures { OnOk result (Gains touched.old touched.new (λ u. same_bytes u uuid.now)) }
{
    touched.insert(*uuid)?;
    Ok(())
}

// The uuid of the task that an operation is about.
fn task_of(op: &Op) -> Option<Uuid>
    ensures { (u : List ℕ) → has_uuid u result ≡ is_about u op.now }
{
    match op {
        Op::Create { uuid } => Some(*uuid),
        Op::Delete { uuid, .. } => Some(*uuid),
        Op::Update { uuid, .. } => Some(*uuid),
        Op::UndoPoint => None,
    }
}

fn is_that(last: Option<Uuid>, uuid: Uuid) -> bool
    ensures { result ≡ has_uuid uuid last }
{
    match last {
        Some(last) => last == uuid,
        None => false,
    }
}

// Puts the uuid of a task beside others, unless it was put there last.
fn add_next(touched: &mut BTreeSet<Uuid>, last: &mut Option<Uuid>, uuid: Uuid) -> Result<(), Memory>
    requires { (u : List ℕ) → has_uuid u last.old ≡ true → set.contains bytes_cmp touched.old u ≡ true }
    ensures added { OnOk result (Gains touched.old touched.new (λ u. same_bytes u uuid)) }
    ensures last { OnOk result ((u : List ℕ) → has_uuid u last.new ≡ true → set.contains bytes_cmp touched.new u ≡ true) }
{
    if is_that(*last, uuid) {
        return Ok(());
    }
    add_uuid(touched, &uuid)?;
    *last = Some(uuid);
    Ok(())
}

fn add_touched(touched: &mut BTreeSet<Uuid>, last: &mut Option<Uuid>, op: &Op) -> Result<(), Memory>
    requires { (u : List ℕ) → has_uuid u last.old ≡ true → set.contains bytes_cmp touched.old u ≡ true }
    ensures added { OnOk result (Gains touched.old touched.new (λ u. is_about u op.now)) }
    ensures last { OnOk result ((u : List ℕ) → has_uuid u last.new ≡ true → set.contains bytes_cmp touched.new u ≡ true) }
{
    match task_of(op) {
        Some(uuid) => add_next(touched, last, uuid),
        None => Ok(()),
    }
}

/// The uuids of the tasks that the operations from a number on are about.
pub fn touched_uuids(alloc: Global, ops: &Vec<Op>, from: usize) -> Result<BTreeSet<Uuid>, Memory>
    ensures { IfOk result (λ touched. (u : List ℕ) → set.contains bytes_cmp touched u ≡ is_touched (drop from ops.now.items) u) }
{
    let mut touched = BTreeSet::new(alloc);
    let mut last = None;
    let mut at = from;
    while at < ops.len() {
        add_touched(&mut touched, &mut last, &ops[at])?;
        at += 1;
    }
    Ok(touched)
}

/// Puts the uuids of the tasks that operations are about beside others.
pub(crate) fn add_all_touched(touched: &mut BTreeSet<Uuid>, ops: &Vec<Op>) -> Result<(), Memory>
    ensures { OnOk result (Gains touched.old touched.new (is_touched ops.now.items)) }
{
    let mut last = None;
    for op in ops {
        add_touched(touched, &mut last, op)?;
    }
    Ok(())
}

/// Puts the uuids of the tasks that operations of versions are about beside others.
pub fn add_all_synced(touched: &mut BTreeSet<Uuid>, ops: &Vec<SyncOp>) -> Result<(), Memory>
    ensures { OnOk result (Gains touched.old touched.new (is_touched_by_synced ops.now.items)) }
{
    let mut last = None;
    for op in ops {
        add_next(touched, &mut last, op.uuid())?;
    }
    Ok(())
}

/// The uuids of the tasks that operations of versions are about.
pub fn synced_uuids(alloc: Global, ops: &SyncOps) -> Result<BTreeSet<Uuid>, Memory>
    ensures { IfOk result (λ touched. (u : List ℕ) → set.contains bytes_cmp touched u ≡ is_touched_by_synced ops.now u) }
{
    let mut touched = BTreeSet::new(alloc);
    let mut unread = ops.unread();
    while unread.left() > 0 {
        let some = unread.read_some(alloc)?;
        add_all_synced(&mut touched, &some)?;
    }
    Ok(touched)
}

// Whether an operation is about the task of a uuid, or about none.
fn stays_with(op: &Op, uuid: Uuid) -> bool
    ensures { result ≡ true → (u : List ℕ) → is_about u op.now ≡ true → same_bytes u uuid ≡ true }
{
    match task_of(op) {
        Some(other) => other == uuid,
        None => true,
    }
}

// Whether the operations from a number on are about the task of a uuid, or about none.
fn stay_with(ops: &Vec<Op>, from: usize, uuid: Uuid) -> bool
    ensures { result ≡ true → (u : List ℕ) → is_touched (drop from ops.now.items) u ≡ true → same_bytes u uuid ≡ true }
{
    let mut at = from;
    while at < ops.len() {
        if !stays_with(&ops[at], uuid) {
            return false;
        }
        at += 1;
    }
    true
}

/// The uuid of the task that operations make, if they begin with that after an undo point and are about no other.
pub(crate) fn made_task(ops: &Vec<Op>) -> Option<Uuid>
    ensures { IfSome result (λ uuid. MakesOne uuid ops.now.items) }
{
    let [first, second, ..] = ops.as_slice() else {
        return None;
    };
    match (first, second) {
        (Op::UndoPoint, Op::Create { uuid }) if stay_with(ops, 2, *uuid) => Some(*uuid),
        _ => None,
    }
}
