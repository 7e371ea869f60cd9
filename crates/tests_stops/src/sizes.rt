// Commands over many tasks, with ample memory.

use crate::given::Given;
use crate::runs::{machine, run_alone};
use std::alloc::Global;
use std::test::Fail;
use tw_cli::Cause;
use tw_world::{Memory, MemoryDisk};

const SECOND: u64 = 1_700_000_000;

// Texts with the numbers from 1 to before the end between them.
fn numbered(alloc: Global, front: &str, end: u64, back: &str) -> Result<String, Memory> {
    let mut text = String::new(alloc);
    for number in 1..end {
        let one = format!(in alloc; "{}{}{}", front, number, back)?;
        text.push_str(one.as_str())?;
    }
    Ok(text)
}

// An input of a thousand tasks, the first of which has a thousand annotations of one second.
fn thousand(alloc: Global) -> Result<String, Memory> {
    let notes = numbered(
        alloc,
        ",{\"entry\":\"20231114T221320Z\",\"description\":\"note ",
        1_000,
        "\"}",
    )?;
    let tasks = numbered(alloc, ",{\"description\":\"task ", 1_000, "\"}")?;
    let front =
        "[{\"description\":\"task 0\",\"annotations\":[{\"entry\":\"20231114T221320Z\",\"description\":\"note 0\"}";
    Ok(format!(in alloc; "{}{}]}}{}]", front, notes, tasks)?)
}

// A line, the first identifier that it draws, and how its text ends.
type Row = (&'static str, u128, &'static str);

const LINES: [Row; 6] = [
    ("import", 1, "Imported 1000 tasks.\n"),
    ("list", 2_000, " task 999\n\n1000 tasks\n"),
    ("1|denotate|note|999", 2_000, "Denotated 1 task.\n"),
    (
        "status:pending|modify|project:Home",
        2_000,
        "Modified 1000 tasks.\n",
    ),
    ("status:pending|done", 2_000, "Completed 1000 tasks.\n"),
    (
        "status:completed|duplicate",
        2_000,
        "Duplicated 1000 tasks.\n",
    ),
];

// Whether a line with an input prints a text that ends so.
fn prints(alloc: Global, input: &str, row: &Row, disk: &mut MemoryDisk) -> Result<bool, Fail> {
    let (line, first, end) = *row;
    let mut given = Given::new(first, SECOND);
    given.input = input;
    let ended = run_alone(alloc, &given, line, disk)?;
    Ok(ended.is(0, &Cause::Done) && ended.out.bytes().ends_with(end.as_bytes()))
}

// How many of the lines print what is wanted, up to the first that does not.
fn lines_so_far(
    alloc: Global,
    input: &str,
    rows: &[Row],
    disk: &mut MemoryDisk,
) -> Result<usize, Fail> {
    for (number, row) in rows.iter().enumerate() {
        if !prints(alloc, input, row, disk)? {
            return Ok(number);
        }
    }
    Ok(rows.len())
}

#[test]
fn a_thousand_tasks_are_no_want_of_memory(rt: HostRuntime) -> Result<(), Fail> {
    let alloc = rt.alloc();
    let input = thousand(alloc)?;
    let mut disk = machine(alloc)?;
    assert_eq!(rt;
        lines_so_far(alloc, input.as_str(), &LINES, &mut disk)?,
        LINES.len()
    );
    Ok(())
}

// Puts a task with this number of four digits that depends on the one before it.
fn put_link(alloc: Global, number: u64, text: &mut String) -> Result<(), Memory> {
    let before = number.saturating_sub(1);
    let front = format!(in alloc;
        "{{\"description\":\"a\",\"depends\":[\"00000000-0000-4000-8000-00000000{}\"]",
        before
    )?;
    let back = format!(in alloc;
        ",\"uuid\":\"00000000-0000-4000-8000-00000000{}\"}}",
        number
    )?;
    text.push_str(front.as_str())?;
    text.push_str(back.as_str())?;
    Ok(())
}

// An input of tasks with numbers from 1001 to before the end, each of which depends on the one before it.
fn chain(alloc: Global, end: u64) -> Result<String, Memory> {
    let mut text = String::new(alloc);
    for number in 1_001..end {
        text.push_str(if number == 1_001 { "[" } else { "," })?;
        put_link(alloc, number, &mut text)?;
    }
    text.push_str("]")?;
    Ok(text)
}

const CHAINED: [Row; 2] = [
    ("import", 1, "Imported 500 tasks.\n"),
    ("2-500|modify|depends:1", 1, "Modified 499 tasks.\n"),
];

// Whether the dependency of all tasks of a chain on the last one is refused.
fn closes_a_circle(alloc: Global, disk: &mut MemoryDisk) -> Result<bool, Fail> {
    let given = Given::new(1, SECOND);
    let ended = run_alone(alloc, &given, "1-500|modify|depends:500", disk)?;
    let line = b"task: dependency on 00000000-0000-4000-8000-000000001500 closes a circle\n";
    Ok(ended.outcome.status == 2 && ended.said() == Some(line.as_slice()))
}

#[test]
fn a_chain_of_dependencies_is_searched_once(rt: HostRuntime) -> Result<(), Fail> {
    let alloc = rt.alloc();
    let input = chain(alloc, 1_501)?;
    let mut disk = machine(alloc)?;
    assert_eq!(rt;
        lines_so_far(alloc, input.as_str(), &CHAINED, &mut disk)?,
        CHAINED.len()
    );
    assert!(rt; closes_a_circle(alloc, &mut disk)?);
    Ok(())
}
