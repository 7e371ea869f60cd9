// Which tasks are open, and by which rank those are numbered.
ghost use Rattle.std.specs.Prelude.{◌≡◌};
ghost use Rattle.std.specs.Option.{option_copied};
ghost use Rattle.std.specs.FinMap as map;
ghost use Rattle.tw_text.specs.Natural.{natural};
ghost use Rattle.tw_model.specs.Ops.{TasksValue};
ghost use Rattle.tw_numbers.specs.Numbering.{second_or_zero, second_of, second_at, is_open_status, is_open, rank};

use tw_model::TaskMap;
use tw_text::read_u64;
use tw_world::MOMENT_LIMIT;
use uuid::Uuid;

// The second that a text holds, or 0.
fn second_in(text: &str) -> u64
    ensures { result ≡ second_or_zero (natural text.now) }
{
    match read_u64(text) {
        Some(second) if second < MOMENT_LIMIT => second,
        _ => 0,
    }
}

fn second_of(text: Option<&str>) -> u64
    ensures { result ≡ second_of (option_copied text.entry) }
{
    match text {
        Some(text) => second_in(text),
        None => 0,
    }
}

fn second_at(task: Option<&TaskMap>, property: &str) -> u64
    ensures { result ≡ second_at property.now (option_copied task.entry) }
{
    match task {
        Some(task) => second_of(task.get(property)),
        None => 0,
    }
}

fn is_open_status(status: Option<&str>) -> bool
    ensures { result ≡ is_open_status (option_copied status.entry) }
{
    match status {
        Some(status) => status == "pending" || status == "recurring",
        None => false,
    }
}

pub(crate) fn is_open(task: Option<&TaskMap>) -> bool
    ensures { result ≡ is_open (option_copied task.entry) }
{
    match task {
        Some(task) => is_open_status(task.get("status")),
        None => false,
    }
}

/// The rank of a task, by what `tasks` has of it.
pub(crate) fn rank(task: Option<&TaskMap>, uuid: Uuid) -> (u64, u64, Uuid)
    ensures { (tasks : TasksValue) → option_copied task.entry ≡ map.get tasks uuid → result ≡ rank tasks uuid }
{
    let entry = second_at(task, "entry");
    let due = second_at(task, "due");
    (entry, due, uuid)
}
