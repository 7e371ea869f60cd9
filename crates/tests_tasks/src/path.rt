use crate::groups::{are_groups, groups, one_task};
use crate::model::edits::is_update;
use crate::transform::operations;
use std::alloc::Global;
use std::test::Fail;
use tw_bodies::SyncOps;
use tw_groups::pending_on;
use tw_model::{Op, SyncOp, Tasks};
use tw_path::{Batch, Walker, first_batch};
use tw_segment::write_segment;
use tw_world::{Memory, Moment, Text};
use uuid::Uuid;

// ---- pulling

// The walker of a replica with these tasks, which are changed by the groups that are pending on them.
fn started(alloc: Global, hand: &mut Tasks, pending: &str) -> Result<Walker, Memory> {
    let ops = pending_on(alloc, hand, &groups(alloc, pending)?)?;
    Walker::start(alloc, hand, Uuid::nil(), ops)
}

fn pull(alloc: Global, walker: &mut Walker, hand: &Tasks, version: &str) -> Result<(), Memory> {
    let ops = operations(alloc, version)?;
    walker.pull(alloc, hand, Uuid::from_u128(7), &ops)
}

// The walker of a replica that has the task 1, and these groups pending on it, once it has pulled a version.
fn pulled(alloc: Global, pending: &str, version: &str) -> Result<Walker, Memory> {
    let mut hand = one_task(alloc)?;
    let mut walker = started(alloc, &mut hand, pending)?;
    pull(alloc, &mut walker, &hand, version)?;
    Ok(walker)
}

// Groups, the operations of a version, and what is left and carried.
const PULLED: [[&str; 4]; 5] = [
    ["U1aA10|U1aB50", "U1aX30", "|U1aB50", ""],
    ["U1aA10|U1aB50 U1bB50", "D1", "|", "D1"],
    ["C2|U2aA10", "U2aX30 C3 U3aX30", "C2|U2aA10", "C3 U3aX30"],
    ["C2|U2aA10", "C2 U2aX30", "|", "U2aX30"],
    ["D1", "C1 U1aX30 C3", "D1", "C3"],
];

// Whether these are the operations of a text.
fn are_carried(alloc: Global, ops: &SyncOps, text: &str) -> Result<bool, Memory> {
    let mut wanted = SyncOps::new(alloc);
    wanted.append(&operations(alloc, text)?)?;
    Ok(ops.as_bytes() == wanted.as_bytes())
}

fn is_pulled(alloc: Global, row: &[&str; 4]) -> Result<bool, Memory> {
    let walker = pulled(alloc, row[0], row[1])?;
    let left = are_groups(alloc, &walker.left, row[2])?;
    let carried = are_carried(alloc, &walker.carried, row[3])?;
    Ok(left && carried && walker.at == Uuid::from_u128(7))
}

// How many of the rows are pulled as wanted, up to the first that is not.
fn pulled_so_far(alloc: Global) -> Result<usize, Memory> {
    for (number, row) in PULLED.iter().enumerate() {
        if !is_pulled(alloc, row)? {
            return Ok(number);
        }
    }
    Ok(PULLED.len())
}

#[test]
fn each_group_keeps_its_own_and_the_rest_is_carried(rt: HostRuntime) -> Result<(), Fail> {
    assert_eq!(rt; pulled_so_far(rt.alloc())?, PULLED.len());
    Ok(())
}

fn is_renewed(alloc: Global) -> Result<bool, Memory> {
    let ops = pulled(alloc, "U1aA10|U1aB50", "U1aX30")?.pending(alloc)?;
    Ok(ops.len() == 3 && is_update(&ops[2], &("a", Some("X"), Some("B"))))
}

#[test]
fn what_is_left_has_the_old_value_of_the_version(rt: HostRuntime) -> Result<(), Fail> {
    assert!(rt; is_renewed(rt.alloc())?);
    Ok(())
}

// As many operations that make tasks, the first of them with this number.
fn creates(alloc: Global, first: u128, count: usize) -> Result<Vec<SyncOp>, Memory> {
    let mut ops = Vec::new(alloc);
    for n in 0..count {
        ops.push(SyncOp::Create {
            uuid: Uuid::from_u128(first.wrapping_add(n as u128)),
        })?;
    }
    Ok(ops)
}

// How many operations are carried of so many on other tasks than so many pending ones.
fn carried_beside(alloc: Global, pending: usize, others: usize) -> Result<usize, Memory> {
    let mut groups = Vec::new(alloc);
    groups.push(creates(alloc, 1, pending)?)?;
    let mut hand = Tasks::new(alloc);
    let ops = pending_on(alloc, &mut hand, &groups)?;
    let mut walker = Walker::start(alloc, &hand, Uuid::nil(), ops)?;
    let version = creates(alloc, 1_000_000, others)?;
    walker.pull(alloc, &hand, Uuid::from_u128(7), &version)?;
    Ok(walker.into_carried().len())
}

#[test]
fn a_hundred_thousand_operations_pass_ten_thousand_on_other_tasks(
    rt: HostRuntime,
) -> Result<(), Fail> {
    assert_eq!(rt; carried_beside(rt.alloc(), 10_000, 100_000)?, 100_000);
    Ok(())
}

// ---- batches

// A group of operations that make tasks. Each of them has 59 bytes of a segment, with its comma: 17,772 of them are within 1,048,576 bytes
// beside the 16 bytes around them, and one more is not.
fn groups_of_creates(alloc: Global, counts: &[usize]) -> Result<Vec<Vec<SyncOp>>, Memory> {
    let mut groups = Vec::new(alloc);
    for count in counts {
        groups.push(creates(alloc, 1, *count)?)?;
    }
    Ok(groups)
}

// How many operations groups have, and how many are sent first: of whole groups, and of the next one.
const BATCHES: [([usize; 3], usize, usize); 5] = [
    ([17_772, 0, 0], 3, 0),
    ([17_773, 0, 1], 0, 17_772),
    ([1, 17_772, 1], 1, 0),
    ([17_771, 1, 1], 2, 0),
    ([0, 0, 1], 3, 0),
];

fn length_of(groups: &Vec<Vec<SyncOp>>) -> usize {
    let mut length: usize = 0;
    for group in groups {
        length = length.saturating_add(group.len());
    }
    length
}

// Whether so many operations are sent first, and the others are left.
fn is_first(alloc: Global, counts: &[usize], whole: usize, part: usize) -> Result<bool, Memory> {
    let mut left = groups_of_creates(alloc, counts)?;
    let all = length_of(&left);
    let batch = first_batch(alloc, &left)?;
    let sent = batch.sent(alloc, &left)?.len();
    batch.take_from(&mut left);
    let is_whole = sent.saturating_add(length_of(&left)) == all;
    Ok(is_whole && batch.whole == whole && batch.part == part)
}

// How many of the batches are as wanted, up to the first that is not.
fn batches_so_far(alloc: Global) -> Result<usize, Memory> {
    for (number, (counts, whole, part)) in BATCHES.iter().enumerate() {
        if !is_first(alloc, counts.as_slice(), *whole, *part)? {
            return Ok(number);
        }
    }
    Ok(BATCHES.len())
}

#[test]
fn whole_groups_are_sent_first_if_they_are_short(rt: HostRuntime) -> Result<(), Fail> {
    assert_eq!(rt; batches_so_far(rt.alloc())?, BATCHES.len());
    Ok(())
}

// An operation whose text alone is above the limit.
fn long_operation(alloc: Global) -> Result<SyncOp, Memory> {
    let mut value = String::new(alloc);
    for _ in 0..1_048_576 {
        value.push('a')?;
    }
    Ok(SyncOp::Update {
        uuid: Uuid::from_u128(1),
        property: Text::from_str(alloc, "a")?,
        value: Some(Text::from_str(alloc, value.as_str())?),
        at: Moment {
            seconds: 1,
            nanos: 0,
        },
    })
}

fn long_batch(alloc: Global) -> Result<Batch, Memory> {
    let mut group = Vec::new(alloc);
    group.push(long_operation(alloc)?)?;
    group.push(SyncOp::Delete {
        uuid: Uuid::from_u128(1),
    })?;
    let mut left = Vec::new(alloc);
    left.push(group)?;
    first_batch(alloc, &left)
}

#[test]
fn an_operation_above_the_limit_is_sent_alone(rt: HostRuntime) -> Result<(), Fail> {
    let batch = long_batch(rt.alloc())?;
    assert!(rt; batch.whole == 0 && batch.part == 1);
    Ok(())
}

// The operations that make so many tasks as a generated world has them, as one group.
fn generated(alloc: Global, count: u64) -> Result<Vec<Vec<SyncOp>>, Memory> {
    let mut group = Vec::new(alloc);
    for n in 0..count {
        put_generated(alloc, n, &mut group)?;
    }
    let mut left = Vec::new(alloc);
    left.push(group)?;
    Ok(left)
}

fn put_update(
    alloc: Global,
    ops: &mut Vec<SyncOp>,
    uuid: Uuid,
    property: &str,
    value: &str,
) -> Result<(), Memory> {
    let property = Text::from_str(alloc, property)?;
    let value = Some(Text::from_str(alloc, value)?);
    ops.push(SyncOp::Update {
        uuid,
        property,
        value,
        at: Moment {
            seconds: 1_700_000_000,
            nanos: 0,
        },
    })?;
    Ok(())
}

// An update whose value is a number after these characters.
fn put_number(
    alloc: Global,
    ops: &mut Vec<SyncOp>,
    uuid: Uuid,
    property: &str,
    front: &str,
    number: u64,
) -> Result<(), Memory> {
    let value = format!(in alloc; "{front}{number}")?;
    put_update(alloc, ops, uuid, property, value.as_str())
}

fn put_generated(alloc: Global, n: u64, ops: &mut Vec<SyncOp>) -> Result<(), Memory> {
    let uuid = Uuid::from_u128(n as u128);
    let entry = 1_700_000_000 + n % 10_000;
    ops.push(SyncOp::Create { uuid })?;
    put_number(alloc, ops, uuid, "description", "Task ", n)?;
    put_number(
        alloc,
        ops,
        uuid,
        "due",
        "",
        1_800_000_000 + 60 * (n % 10_000),
    )?;
    put_number(alloc, ops, uuid, "entry", "", entry)?;
    put_number(alloc, ops, uuid, "modified", "", entry)?;
    put_update(alloc, ops, uuid, "priority", "H")?;
    put_number(alloc, ops, uuid, "project", "p", n % 10)?;
    put_update(alloc, ops, uuid, "status", "pending")?;
    put_update(alloc, ops, uuid, "tag_a", "")
}

// How many operations are sent first of those that make a thousand tasks, and how long their segment is.
fn generated_batch(alloc: Global) -> Result<(usize, usize), Memory> {
    let left = generated(alloc, 1000)?;
    let sent = first_batch(alloc, &left)?.sent(alloc, &left)?;
    match write_segment(alloc, &sent) {
        Ok(text) => Ok((sent.len(), text.len())),
        Err(_) => Err(Memory),
    }
}

#[test]
fn the_first_version_of_a_generated_world_has_7917_operations(rt: HostRuntime) -> Result<(), Fail> {
    let (count, bytes) = generated_batch(rt.alloc())?;
    assert!(rt; count == 7917 && bytes == 1_048_452, "{count} in {bytes}");
    Ok(())
}
