// Reading and writing a task: its properties with their values.
ghost use Rattle.std.specs.Prelude.{◌≡◌, ◌<◌, ◌++◌, OnOk};
ghost use Rattle.std.specs.List.{flat_map};
ghost use Rattle.std.specs.FinMap as map;
ghost use Rattle.tw_bodies.specs.Body.{pair_bytes, pair_of, task_bytes, IsPair, IsTask};
ghost use Rattle.tw_bodies.specs.Reading.{pair_at, task_at};
ghost use Rattle.tw_fields.specs.Reading.{Gives, many_at};

use crate::room::room_for;
use std::alloc::Global;
use tw_fields::{ReadError, put_count, put_text, read_text, u32_at};
use tw_model::TaskMap;
use tw_world::{Memory, Text};

#[tactic(auto, unfolding(crate::specs::Reading::pair_at))]
fn read_pair(alloc: Global, bytes: &[u8]) -> Result<((Text, Text), &[u8]), ReadError>
    ensures { Gives (λ x. (x.0, x.1.now)) result (pair_at bytes.now) }
{
    let (key, rest) = read_text(alloc, bytes)?;
    let (value, rest) = read_text(alloc, rest)?;
    Ok(((key, value), rest))
}

fn read_pairs(
    alloc: Global,
    count: u32,
    bytes: &[u8],
) -> Result<(Vec<(Text, Text)>, &[u8]), ReadError>
    ensures { Gives (λ x. (x.0.items, x.1.now)) result (many_at pair_at count bytes.now) }
{
    let mut pairs = Vec::with_capacity(alloc, room_for(count, bytes))?;
    let mut rest = bytes;
    for _ in 0..count {
        let (pair, after) = read_pair(alloc, rest)?;
        pairs.push(pair)?;
        rest = after;
    }
    Ok((pairs, rest))
}

#[tactic(auto, unfolding(crate::specs::Reading::task_at))]
pub(crate) fn read_task(alloc: Global, bytes: &[u8]) -> Result<(TaskMap, &[u8]), ReadError>
    ensures { Gives (λ x. (x.0, x.1.now)) result (task_at bytes.now) }
{
    let (count, rest) = u32_at(bytes)?;
    let (pairs, rest) = read_pairs(alloc, count, rest)?;
    match TaskMap::from_pairs(pairs) {
        Some(task) => Ok((task, rest)),
        None => Err(ReadError::Malformed),
    }
}

// The property with number `n`, and its value.
fn put_pair(out: &mut Vec<u8>, task: &TaskMap, n: u64) -> Result<(), Memory>
    requires { n < map.len task.now }
    ensures put { OnOk result (out.new.items ≡ out.old.items ++ pair_bytes (pair_of task.now n)) }
    ensures is { OnOk result (IsPair (pair_of task.now n)) }
{
    put_text(out, task.key(n))?;
    put_text(out, task.value(n))
}

fn put_pairs(out: &mut Vec<u8>, task: &TaskMap) -> Result<(), Memory>
    ensures put { OnOk result (out.new.items ≡ out.old.items ++ flat_map pair_bytes (map.entries task.now)) }
    ensures is { OnOk result (IsTask task.now) }
{
    for n in 0..task.len() {
        put_pair(out, task, n)?;
    }
    Ok(())
}

pub(crate) fn put_task(out: &mut Vec<u8>, task: &TaskMap) -> Result<(), Memory>
    ensures put { OnOk result (out.new.items ≡ out.old.items ++ task_bytes task.now) }
    ensures is { OnOk result (IsTask task.now) }
{
    put_count(out, task.len() as usize)?;
    put_pairs(out, task)
}
