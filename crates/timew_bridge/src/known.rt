// What intervals ask of a task.
ghost use Rattle.std.specs.Prelude.{◌≡◌, IfOk};
ghost use Rattle.std.specs.Option.{option_copied};
ghost use Rattle.tw_text.specs.Natural.{natural};
ghost use Rattle.tw_urgency.specs.Stored.{moment_of, in_years};
ghost use Rattle.timew_bridge.specs.Known.{known_with, find_known};

use std::alloc::Global;
use tw_model::TaskMap;
use tw_text::read_u64;
use tw_world::{MOMENT_LIMIT, Memory, Text};
use uuid::Uuid;

/// What intervals ask of a task: whether it was started, and the text of when it was changed, which is read only of a task whose
/// interval is open.
#[derive(Drop)]
pub struct Known {
    pub uuid: Uuid,
    pub is_started: bool,
    pub changed: Option<Text>,
}

// The moment that a text tells.
fn moment_in(text: &str) -> Option<u64>
    ensures { result ≡ in_years (natural text.now) }
{
    match read_u64(text) {
        Some(at) if at < MOMENT_LIMIT => Some(at),
        _ => None,
    }
}

impl Known {
    /// When the task was changed.
    pub fn modified(&self) -> Option<u64>
        ensures { result ≡ moment_of self.now.changed }
    {
        match &self.changed {
            Some(text) => moment_in(text.as_str()),
            None => None,
        }
    }
}

fn copy_value(alloc: Global, value: Option<&str>) -> Result<Option<Text>, Memory>
    ensures { IfOk result (λ copy. copy ≡ option_copied value.entry) }
{
    match value {
        Some(text) => Ok(Some(Text::from_str(alloc, text)?)),
        None => Ok(None),
    }
}

/// What intervals ask of a task with this start. A moment as usual takes no memory of its own.
pub fn known_of(
    alloc: Global,
    uuid: Uuid,
    task: &TaskMap,
    start: Option<u64>,
) -> Result<Known, Memory>
    ensures { IfOk result (λ known. known ≡ known_with uuid task.now start) }
{
    let changed = copy_value(alloc, task.get("modified"))?;
    Ok(Known {
        uuid,
        is_started: start.is_some(),
        changed,
    })
}

/// What is known of the task of a uuid.
pub fn find_known(known: &[Known], uuid: Uuid) -> Option<&Known>
    ensures { option_copied result ≡ find_known uuid known.now }
{
    for one in known {
        if uuid == one.uuid {
            return Some(one);
        }
    }
    None
}
