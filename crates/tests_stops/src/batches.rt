// A command that is sent in two versions.

use crate::given::Given;
use crate::runs::run_given;
use crate::stores::SECOND;
use crate::world::{On, Row, Then, World};
use std::alloc::Global;
use std::test::Fail;
use tw_server::Fate;

// Puts a task that is made by five operations, one of which has 400,000 bytes.
fn put_task(text: &mut String, front: &str) -> Result<(), Fail> {
    text.push_str(front)?;
    text.push_str("{\"description\":\"")?;
    for _ in 0..40_000 {
        text.push_str("0123456789")?;
    }
    text.push_str("\",\"entry\":\"20231114T221320Z\"}")?;
    Ok(())
}

fn three_tasks(alloc: Global) -> Result<String, Fail> {
    let mut text = String::new(alloc);
    put_task(&mut text, "[")?;
    put_task(&mut text, ",")?;
    put_task(&mut text, ",")?;
    text.push_str("]")?;
    Ok(text)
}

// Machines of which the desk imports these tasks, with a link whose third exchange ends so: a sync asks, and sends twice.
fn imported(alloc: Global, fate: Fate) -> Result<World, Fail> {
    let nothing: &[&str] = &[];
    let exchanges = [
        (nothing, Fate::Deliver),
        (nothing, Fate::Deliver),
        (nothing, fate),
    ];
    let mut world = World::new(alloc, &exchanges)?;
    let tasks = three_tasks(alloc)?;
    let mut given = Given::new(1, SECOND);
    given.input = tasks.as_str();
    let ended = run_given(
        alloc,
        &given,
        "import",
        &mut world.desk,
        &mut world.link,
        &[],
    )?;
    if ended.said() == Some(b"Imported 3 tasks.\n".as_slice()) {
        Ok(world)
    } else {
        Err(Fail::new("import"))
    }
}

// The first version has eleven operations: those of two tasks, and the third's creation.
const STOPPED: [Row; 3] = [
    (On::Desk, SECOND, "sync", Then::LinkFault),
    (
        On::Desk,
        SECOND,
        "undo",
        Then::Prints("Undone 4 operations.\n"),
    ),
    (On::Desk, SECOND, "count", Then::Prints("3\n")),
];

const WHOLE: [Row; 1] = [(
    On::Desk,
    SECOND,
    "sync",
    Then::Prints("Synced: 0 pulled, 0 dropped, 15 pushed.\n"),
)];

// Runs these lines, if the second add-version ends so.
fn follow(alloc: Global, fate: Fate, rows: &[Row]) -> Result<(), Fail> {
    let mut world = imported(alloc, fate)?;
    world.follow(rows)
}

#[test]
fn what_was_sent_before_a_loss_is_kept(rt: HostRuntime) -> Result<(), Fail> {
    follow(rt.alloc(), Fate::LoseRequest, &STOPPED)
}

#[test]
fn a_long_command_is_sent_in_two_versions(rt: HostRuntime) -> Result<(), Fail> {
    follow(rt.alloc(), Fate::Deliver, &WHOLE)
}
