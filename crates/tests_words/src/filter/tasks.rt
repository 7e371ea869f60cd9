// The tasks that filters are held against, and the moment.
use std::alloc::Global;
use tw_model::{TaskMap, Tasks};
use tw_world::{Memory, Moment};
use uuid::Uuid;

// Tasks by the last two digits of their uuids.
pub(crate) const TASKS: [(u8, &str); 9] = [
    (
        1,
        "description=Buy milk|status=pending|entry=1700000000|modified=1772600000|project=a.b|priority=H|tag_shop=|due=1772622000",
    ),
    (
        2,
        "description=Call Ann|status=pending|entry=1772600000|wait=1772618410|project=ab|priority=M|tag_shop=|due=1772668799|scheduled=1772582400",
    ),
    (
        3,
        "description=milkshake_bar|status=completed|end=1772500000|project=a|priority=L|entry=1772582399",
    ),
    (
        4,
        "status=deleted|end=1772582400|tag_next=x|annotation_1700000100=Bring milk|project=b.a",
    ),
    (
        5,
        "description=Rent the a.b|status=recurring|recur=monthly|due=1772582400|until=1803859200|mask=--|project=Home",
    ),
    (
        6,
        "description=Ship, milk. it|status=pending|dep_00000000-0000-4000-8000-000000000001=|dep_00000000-0000-4000-8000-000000000099=|\
        start=1772618395|due=1772618399|project=a.b.c|annotation_x=hidden",
    ),
    (
        7,
        "description=cafémilk|status=strange|due=soon|entry=01|dep_00000000-0000-4000-8000-000000000003=|wait=0|start=x|tag_été=",
    ),
    (
        8,
        "description=milk|status=pending|wait=1772618400|due=253370764799|parent=00000000-0000-4000-8000-000000000005|imask=0|\
        dep_00000000-0000-4000-8000-000000000006=|dep_0000000A-0000-4000-8000-000000000004=|scheduled=1772618400|priority=|modified=253370764800|recur=weekly",
    ),
    (9, ""),
];

// The tasks in the first places, where 0 stands for a vacant one.
const PLACES: [u8; 8] = [3, 0, 1, 2, 0x99, 0, 9, 6];

pub(crate) fn uuid_ending(digits: u8) -> Uuid {
    Uuid::from_u128(0x00000000_0000_4000_8000_000000000000 | u128::from(digits))
}

// The task of a text `property=value|property=value`.
pub(crate) fn task_of(alloc: Global, text: &str) -> Result<TaskMap, Memory> {
    let mut task = TaskMap::new(alloc);
    for pair in text.split('|') {
        if let Some((property, value)) = pair.split_once('=') {
            task.set(alloc, property, Some(value))?;
        }
    }
    Ok(task)
}

pub(crate) fn made_tasks(alloc: Global) -> Result<Tasks, Memory> {
    let mut tasks = Tasks::new(alloc);
    for (digits, text) in &TASKS {
        let task = task_of(alloc, text)?;
        let _ = tasks.insert(uuid_ending(*digits), task)?;
    }
    Ok(tasks)
}

fn place_of(digits: u8) -> Option<Uuid> {
    if digits == 0 {
        None
    } else {
        Some(uuid_ending(digits))
    }
}

pub(crate) fn made_places(alloc: Global) -> Result<Vec<Option<Uuid>>, Memory> {
    let mut places = Vec::new(alloc);
    for digits in &PLACES {
        places.push(place_of(*digits))?;
    }
    Ok(places)
}

// 2026-03-04T10:00:00Z, a Wednesday.
pub(crate) fn now() -> Moment {
    Moment {
        seconds: 1_772_618_400,
        nanos: 0,
    }
}
