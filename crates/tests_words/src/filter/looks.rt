// How many tasks a selection looks at: those of the first tag, status or project among the parts of one `and`, or all.
use super::tasks::{made_places, made_tasks, now, task_of, uuid_ending};
use super::words_of;
use std::alloc::Global;
use std::test::Fail;
use tw_filter::{Looks, read_filter, select};
use tw_model::Tasks;
use tw_terms::View;
use tw_time::Zone;
use tw_world::Memory;

// Words, and at how many of the nine tasks they look.
const ROWS: [(&str, u128); 28] = [
    ("+shop", 2),
    ("1 +shop", 2),
    ("milk and +shop", 2),
    ("( milk or 1 ) +shop", 2),
    ("! ( milk ) +shop", 2),
    ("+shop -- or", 2),
    ("+shop status:completed", 2),
    ("status:completed +shop", 1),
    ("( +shop or +next ) status:completed", 1),
    ("priority.none: +été", 1),
    ("-shop", 9),
    ("! +shop", 9),
    ("! ! +shop", 9),
    ("( +shop )", 9),
    ("-- +shop", 9),
    ("+shop or +next", 9),
    ("+shop xor +next", 9),
    ("+ACTIVE", 9),
    ("status:waiting", 4),
    ("status:pending", 4),
    ("+PENDING", 4),
    ("status.isnt:pending", 9),
    ("project:a", 3),
    ("project:a.b", 2),
    ("project:H", 0),
    ("project.is:a", 9),
    ("project:", 9),
    ("project:a or project:none", 9),
];

// How many tasks words select, and how many they look at.
fn counts(alloc: Global, words: &str, tasks: &Tasks) -> Result<(usize, u128), Fail> {
    let numbers = made_places(alloc)?;
    let (words, plain) = words_of(alloc, words)?;
    let zone = Zone::utc();
    let Ok(filter) = read_filter(alloc, &words, 0, words.len() as u64, plain, now(), &zone) else {
        return Err("words that are no filter")?;
    };
    let view = View {
        tasks,
        numbers: &numbers,
        now: now(),
        zone: &zone,
    };
    let mut looks = Looks::new();
    let uuids = select(alloc, &filter, &view, &mut looks)?;
    Ok((uuids.len(), looks.taken()))
}

// The first row whose words look at another number of tasks.
fn other_row(alloc: Global) -> Result<Option<&'static str>, Fail> {
    let tasks = made_tasks(alloc)?;
    for (words, want) in ROWS.iter() {
        let (_, looked) = counts(alloc, *words, &tasks)?;
        if looked != *want {
            return Ok(Some(*words));
        }
    }
    Ok(None)
}

// Puts the task of a text.
fn put(alloc: Global, tasks: &mut Tasks, digits: u8, text: &str) -> Result<(), Memory> {
    let task = task_of(alloc, text)?;
    let _ = tasks.insert(uuid_ending(digits), task)?;
    Ok(())
}

fn are_counted(
    alloc: Global,
    words: &str,
    tasks: &Tasks,
    selected: usize,
    looked: u128,
) -> Result<bool, Fail> {
    let counts = counts(alloc, words, tasks)?;
    Ok(counts.0 == selected && counts.1 == looked)
}

// A project, one below it, and none.
fn home_tasks(alloc: Global) -> Result<Tasks, Memory> {
    let mut tasks = Tasks::new(alloc);
    put(alloc, &mut tasks, 1, "project=Home")?;
    put(alloc, &mut tasks, 2, "project=Home.x")?;
    put(alloc, &mut tasks, 3, "status=pending")?;
    Ok(tasks)
}

// Whether a project and one below it are looked at, and a third task only after `or`.
fn are_homes_counted(alloc: Global) -> Result<bool, Fail> {
    let tasks = home_tasks(alloc)?;
    let alone = are_counted(alloc, "project:Home", &tasks, 2, 2)?;
    Ok(alone && are_counted(alloc, "project:Home or project:none", &tasks, 2, 3)?)
}

// A text, and after it a project of a hundred thousand points.
fn with_long_project(alloc: Global, before: &str) -> Result<String, Memory> {
    let mut text = String::from_str(alloc, before)?;
    text.push_str("p")?;
    for _ in 0..100_000 {
        text.push_str(".p")?;
    }
    Ok(text)
}

// A task of it, and one of another project.
fn long_tasks(alloc: Global) -> Result<Tasks, Memory> {
    let text = with_long_project(alloc, "project=")?;
    let mut tasks = Tasks::new(alloc);
    put(alloc, &mut tasks, 1, text.as_str())?;
    put(alloc, &mut tasks, 2, "project=pp")?;
    Ok(tasks)
}

// Whether it is found by its first part and by the whole.
fn is_long_project_found(alloc: Global) -> Result<bool, Fail> {
    let tasks = long_tasks(alloc)?;
    let words = with_long_project(alloc, "project:")?;
    let by_first = are_counted(alloc, "project:p", &tasks, 1, 1)?;
    Ok(by_first && are_counted(alloc, words.as_str(), &tasks, 1, 1)?)
}

#[test]
fn a_selection_looks_at_the_tasks_that_a_part_lists(rt: HostRuntime) -> Result<(), Fail> {
    let alloc = rt.alloc();
    assert_eq!(rt; other_row(alloc)?, None);
    assert!(rt; are_homes_counted(alloc)? && is_long_project_found(alloc)?);
    Ok(())
}
