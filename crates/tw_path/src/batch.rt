// What is sent first of groups.
ghost use Rattle.std.specs.Prelude.{◌≡◌, ◌+◌, ◌<◌, ◌≤◌, ◌++◌, nat_le, min, true, false, length, take, drop, IfOk, OnOk};
ghost use Rattle.tw_groups.specs.Held.{groups_in};
ghost use Rattle.tw_path.specs.Lengths.{op_len, ops_len, max_sum};
ghost use Rattle.tw_path.specs.Sums.{IsSumWithin, IsFirstPart};
ghost use Rattle.tw_path.specs.Batch.{IsFirstBatch, cut_front};

use std::alloc::Global;
use tw_model::SyncOp;
use tw_segment::{SegmentError, write_segment};
use tw_world::Memory;

/// So many whole groups, and so many operations of the group after them.
#[derive(Clone, Copy, Drop)]
pub struct Batch {
    pub whole: usize,
    pub part: usize,
}

// The most that the lengths of a batch's operations add up to.
const MOST: u64 = 1_048_560;

/// What is sent first as one version: at most 1,048,576 bytes, or one operation. The lengths of operations are added up to the limit, and
/// of no operation after it.
pub fn first_batch(alloc: Global, left: &Vec<Vec<SyncOp>>) -> Result<Batch, Memory>
    ensures { IfOk result (λ batch. IsFirstBatch batch left.now.items) }
{
    let mut sum = 0;
    let mut at = 0;
    while at < left.len() {
        let group = &left[at];
        match sum_within(alloc, group, sum)? {
            Some(next) => sum = next,
            None => return batch_in(alloc, group, at, sum),
        }
        at += 1;
    }
    Ok(Batch { whole: at, part: 0 })
}

impl Batch {
    ghost use Rattle.tw_path.specs.Batch.{sent_by, left_by};

    /// The operations that are sent.
    pub fn sent(self, alloc: Global, left: &Vec<Vec<SyncOp>>) -> Result<Vec<SyncOp>, Memory>
        ensures { IfOk result (λ ops. ops.items ≡ sent_by self left.now.items) }
    {
        let mut ops = Vec::new(alloc);
        let whole = lesser(self.whole, left.len());
        let mut at = 0;
        while at < whole {
            let group = &left[at];
            let count = group.len();
            put_first(alloc, group, count, &mut ops)?;
            at += 1;
        }
        if self.whole < left.len() {
            put_first(alloc, &left[self.whole], self.part, &mut ops)?;
        }
        Ok(ops)
    }

    /// Lets the operations that were sent go, in place.
    pub fn take_from(self, left: &mut Vec<Vec<SyncOp>>)
        ensures { groups_in left.new.items ≡ left_by self left.old.items }
    {
        let whole = lesser(self.whole, left.len());
        let_go(left, whole);
        take_front(left, self.part);
    }
}

fn lesser(a: usize, b: usize) -> usize
    ensures { result ≡ min a b }
{
    if a < b { a } else { b }
}

// Puts the first operations of a group after others.
fn put_first(
    alloc: Global,
    group: &Vec<SyncOp>,
    count: usize,
    ops: &mut Vec<SyncOp>,
) -> Result<(), Memory>
    ensures { OnOk result (ops.new.items ≡ ops.old.items ++ take count group.now.items) }
{
    let end = lesser(count, group.len());
    let mut at = 0;
    while at < end {
        ops.push(group[at].copy(alloc)?)?;
        at += 1;
    }
    Ok(())
}

// Lets the first operations of the first group go, and the group with them if they are all.
fn take_front(groups: &mut Vec<Vec<SyncOp>>, part: usize)
    ensures { groups_in groups.new.items ≡ cut_front part (groups_in groups.old.items) }
{
    if part == 0 || groups.is_empty() {
        return;
    }
    let front = &mut groups[0];
    let count = lesser(part, front.len());
    let_go(front, count);
    if front.is_empty() {
        let_go(groups, 1);
    }
}

// Lets the first of a list go, and gives their memory back.
fn let_go<T: Drop>(list: &mut Vec<T>, count: usize)
    requires { count ≤ length list.old.items }
    ensures { list.new.items ≡ drop count list.old.items }
{
    list.rotate_left(count);
    list.truncate(list.len() - count);
    list.shrink_to_fit();
}

// What is sent if a group, after so many whole ones, is too long with them.
fn batch_in(alloc: Global, group: &Vec<SyncOp>, whole: usize, sum: u64) -> Result<Batch, Memory>
    requires short { sum ≤ max_sum }
    requires long { nat_le (sum + ops_len group.now.items) max_sum ≡ false }
    ensures whole { IfOk result (λ b. b.whole ≡ whole) }
    ensures none { IfOk result (λ b. ¬ (sum ≡ 0) → b.part ≡ 0) }
    ensures part { IfOk result (λ b. sum ≡ 0 → IsFirstPart group.now.items b.part) }
{
    if sum > 0 {
        return Ok(Batch { whole, part: 0 });
    }
    let part = part_within(alloc, group)?;
    Ok(Batch { whole, part })
}

// The sum with the lengths of operations, if it is within the limit. It is not added up any further than that.
fn sum_within(alloc: Global, ops: &Vec<SyncOp>, from: u64) -> Result<Option<u64>, Memory>
    requires { from ≤ max_sum }
    ensures { IfOk result (λ sum. IsSumWithin from ops.now.items sum) }
{
    let mut sum = from;
    let mut at = 0;
    while at < ops.len() {
        let len = op_len(alloc, &ops[at])?;
        if len > MOST - sum {
            return Ok(None);
        }
        sum += len;
        at += 1;
    }
    Ok(Some(sum))
}

// How many operations of a group are within the limit, but one at least.
fn part_within(alloc: Global, ops: &Vec<SyncOp>) -> Result<usize, Memory>
    requires { 1 ≤ length ops.now.items }
    ensures { IfOk result (λ k. IsFirstPart ops.now.items k) }
{
    let mut sum = op_len(alloc, &ops[0])?;
    let mut at = 1;
    while at < ops.len() {
        let len = op_len(alloc, &ops[at])?;
        if is_over(sum, len) {
            return Ok(at);
        }
        sum += len;
        at += 1;
    }
    Ok(at)
}

// How long the text of an operation is, with the comma after it.
fn op_len(alloc: Global, op: &SyncOp) -> Result<u64, Memory>
    ensures { IfOk result (λ n. n ≡ op_len op.now) }
{
    let mut one = Vec::new(alloc);
    one.push(op.copy(alloc)?)?;
    match write_segment(alloc, &one) {
        Ok(text) => Ok(text.len() as u64 - 16),
        Err(SegmentError::TooLong { bytes }) => Ok(bytes - 16),
        Err(_) => Err(Memory),
    }
}

// Whether a sum and one length more pass the limit.
fn is_over(sum: u64, len: u64) -> bool
    ensures over { result ≡ true → max_sum < sum + len }
    ensures within { result ≡ false → sum + len ≤ max_sum }
{
    sum > MOST || len > MOST - sum
}
