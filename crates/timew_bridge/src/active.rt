// The task that was started last.
ghost use Rattle.std.specs.Prelude.{◌≡◌, codes, cond, None};
ghost use Rattle.tw_urgency.specs.Status.{has_status};
ghost use Rattle.tw_urgency.specs.Stored.{moment_at};
ghost use Rattle.timew_bridge.specs.Active.{started_from, later, latest};

use tw_model::{TaskMap, Tasks};
use tw_urgency::moment_at;
use uuid::Uuid;

/// A task that was started, and when.
#[derive(Clone, Copy)]
pub struct Active {
    pub uuid: Uuid,
    pub start: u64,
}

// Whether a task is pending or waiting.
fn is_pending(task: &TaskMap) -> bool
    ensures { result ≡ has_status (codes "pending") task.now }
{
    task.get("status") == Some("pending")
}

/// When a task was started.
pub fn start_of(task: &TaskMap) -> Option<u64>
    ensures { result ≡ moment_at (codes "start") task.now }
{
    moment_at(task, "start")
}

/// A task with this start, if it is pending or waiting and was started, now or before.
pub fn started(now: u64, uuid: Uuid, task: &TaskMap, start: Option<u64>) -> Option<Active>
    ensures { result ≡ cond (has_status (codes "pending") task.now) (started_from now uuid start) None }
{
    match start {
        Some(start) if start <= now && is_pending(task) => Some(Active { uuid, start }),
        _ => None,
    }
}

/// Of two, the one that was started later; the second one, if both were at once.
pub fn later(one: Option<Active>, other: Option<Active>) -> Option<Active>
    ensures { result ≡ later one other }
{
    match (one, other) {
        (one, None) => one,
        (None, other) => other,
        (Some(one), Some(other)) => {
            if other.start < one.start {
                Some(one)
            } else {
                Some(other)
            }
        }
    }
}

/// The task that is pending or waiting and was started last, not after now; of those that were at once, the one with the greatest
/// uuid.
pub fn latest(tasks: &Tasks, now: u64) -> Option<Active>
    ensures { result ≡ latest tasks.now now }
{
    let mut last = None;
    for (uuid, task) in tasks.iter() {
        last = later(last, started(now, *uuid, task, start_of(task)));
    }
    last
}
