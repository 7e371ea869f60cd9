use crate::model::{put_new, task_of};
use std::alloc::Global;
use std::test::Fail;
use tw_model::{TaskMap, Tasks};
use tw_snapshot::{read_snapshot, write_snapshot};
use tw_world::Memory;
use uuid::Uuid;

fn uuid(n: u8) -> Uuid {
    Uuid::from_bytes([0, 0, 0, 0, 0, 0, 0x40, 0, 0x80, 0, 0, 0, 0, 0, 0, n])
}

fn push_properties(lines: &mut String, task: &TaskMap) -> Result<(), Memory> {
    for n in 0..task.len() {
        lines.push_str(" ")?;
        lines.push_str(task.key(n))?;
        lines.push_str("=")?;
        lines.push_str(task.value(n))?;
    }
    Ok(())
}

fn push_task(lines: &mut String, uuid: Uuid, task: &TaskMap) -> Result<(), Memory> {
    lines.push_str(uuid.hyphenated().encode_lower(&mut Uuid::encode_buffer()))?;
    push_properties(lines, task)?;
    lines.push_str("\n")?;
    Ok(())
}

fn push_tasks(lines: &mut String, tasks: &Tasks) -> Result<(), Memory> {
    for (uuid, task) in tasks.iter() {
        push_task(lines, *uuid, task)?;
    }
    Ok(())
}

// The tasks, one a line, or that there are none.
fn lines_of(alloc: Global, tasks: &Option<Tasks>) -> Result<String, Memory> {
    let mut lines = String::new(alloc);
    match tasks {
        Some(tasks) => push_tasks(&mut lines, tasks)?,
        None => lines.push_str("none")?,
    }
    Ok(lines)
}

fn read(alloc: Global, bytes: &[u8]) -> Result<String, Memory> {
    lines_of(alloc, &read_snapshot(alloc, bytes)?)
}

const ONE: &str =
    "{\"00000000-0000-4000-8000-000000000001\":{\"description\":\"Buy milk\",\"entry\":\"1700000000\",\"modified\":\"1700000000\",\"status\":\"pending\"}}";

const MILK: [(&str, &str); 4] = [
    ("status", "pending"),
    ("description", "Buy milk"),
    ("modified", "1700000000"),
    ("entry", "1700000000"),
];

fn milk(alloc: Global) -> Result<Tasks, Fail> {
    let mut tasks = Tasks::new(alloc);
    put_new(&mut tasks, uuid(1), task_of(alloc, &MILK)?)?;
    Ok(tasks)
}

// Whether the snapshot of tasks is this text.
fn is_written(alloc: Global, tasks: &Tasks, want: &str) -> Result<bool, Memory> {
    Ok(match write_snapshot(alloc, tasks)? {
        Some(text) => text.as_slice() == want.as_bytes(),
        None => false,
    })
}

#[test]
fn the_snapshot_of_a_task_has_131_bytes(rt: HostRuntime) -> Result<(), Fail> {
    let tasks = milk(rt.alloc())?;
    assert!(rt; ONE.len() == 131 && is_written(rt.alloc(), &tasks, ONE)?);
    Ok(())
}

const ODD: [(&str, &str); 3] = [
    ("", "a \"b\" \\ \u{7}\n"),
    ("caf\u{e9}", "\u{1f600}"),
    ("dep_x", ""),
];

// A task with odd properties, and one without any.
fn two_tasks(alloc: Global) -> Result<Tasks, Fail> {
    let mut tasks = Tasks::new(alloc);
    put_new(&mut tasks, uuid(255), task_of(alloc, &ODD)?)?;
    put_new(&mut tasks, uuid(2), TaskMap::new(alloc))?;
    Ok(tasks)
}

const TWO: &str = "{\"00000000-0000-4000-8000-000000000002\":{},\
     \"00000000-0000-4000-8000-0000000000ff\":{\"\":\"a \\\"b\\\" \\\\ \\u0007\\n\",\
     \"caf\u{e9}\":\"\u{1f600}\",\"dep_x\":\"\"}}";

// Whether the two tasks are read from a text.
fn are_read(alloc: Global, text: &str) -> Result<bool, Fail> {
    let again = read(alloc, text.as_bytes())?;
    let lines = lines_of(alloc, &Some(two_tasks(alloc)?))?;
    Ok(again.as_str() == lines.as_str())
}

#[test]
fn what_is_written_is_read_again(rt: HostRuntime) -> Result<(), Fail> {
    let alloc = rt.alloc();
    assert!(rt; is_written(alloc, &Tasks::new(alloc), "{}")?);
    assert!(rt; is_written(alloc, &two_tasks(alloc)?, TWO)? && are_read(alloc, TWO)?);
    Ok(())
}

// Texts, and the tasks of those that are snapshots.
const TEXTS: [(&str, &str); 30] = [
    ("{}", ""),
    (" { } \n", ""),
    (
        ONE,
        "00000000-0000-4000-8000-000000000001 description=Buy milk entry=1700000000 modified=1700000000 status=pending\n",
    ),
    (
        "{\"00000000-0000-4000-8000-00000000000B\":{},\"00000000-0000-4000-8000-00000000000a\":{\"b\":\"2\",\"a\":\"1\"}}",
        "00000000-0000-4000-8000-00000000000a a=1 b=2\n00000000-0000-4000-8000-00000000000b\n",
    ),
    (
        "{\"\\u00300000000-0000-4000-8000-000000000001\" : {\"a\":\"\\ud83d\\ude00\",\"\\u0061\":\"x\"}}",
        "00000000-0000-4000-8000-000000000001 a=x\n",
    ),
    ("", "none"),
    ("[]", "none"),
    ("null", "none"),
    ("\"a\"", "none"),
    ("{", "none"),
    ("{}}", "none"),
    ("{} {}", "none"),
    ("{,}", "none"),
    ("{\"x\":{}}", "none"),
    ("{\"\":{}}", "none"),
    ("{\"00000000000040008000000000000001\":{}}", "none"),
    ("{\"{00000000-0000-4000-8000-000000000001}\":{}}", "none"),
    (
        "{\"urn:uuid:00000000-0000-4000-8000-000000000001\":{}}",
        "none",
    ),
    ("{\"00000000-0000-4000-8000-000000000001\":[]}", "none"),
    ("{\"00000000-0000-4000-8000-000000000001\":null}", "none"),
    ("{\"00000000-0000-4000-8000-000000000001\":\"a\"}", "none"),
    (
        "{\"00000000-0000-4000-8000-000000000001\":{\"a\":1}}",
        "none",
    ),
    (
        "{\"00000000-0000-4000-8000-000000000001\":{\"a\":null}}",
        "none",
    ),
    (
        "{\"00000000-0000-4000-8000-000000000001\":{\"a\":{}}}",
        "none",
    ),
    (
        "{\"00000000-0000-4000-8000-000000000001\":{\"a\":true,\"a\":\"b\"}}",
        "none",
    ),
    (
        "{\"00000000-0000-4000-8000-000000000001\":{},\"00000000-0000-4000-8000-000000000001\":{}}",
        "none",
    ),
    (
        "{\"00000000-0000-4000-8000-00000000000a\":{},\"00000000-0000-4000-8000-00000000000A\":{}}",
        "none",
    ),
    (
        "{\"00000000-0000-4000-8000-000000000001\":{\"a\":\"b\"},}",
        "none",
    ),
    (
        "{\"00000000-0000-4000-8000-000000000001\":{\"a\":\"\\ud800\"}}",
        "none",
    ),
    (
        "{\"00000000-0000-4000-8000-000000000001\":{\"a\":\"b\"}",
        "none",
    ),
];

fn is_read(alloc: Global, bytes: &[u8], want: &str) -> Result<bool, Fail> {
    Ok(read(alloc, bytes)?.as_str() == want)
}

// How many of the texts are read as wanted, up to the first that is not.
fn texts_so_far(alloc: Global) -> Result<usize, Fail> {
    for (number, (text, want)) in TEXTS.iter().enumerate() {
        if !is_read(alloc, text.as_bytes(), want)? {
            return Ok(number);
        }
    }
    Ok(TEXTS.len())
}

const NO_UTF8: &[u8] = b"{\"00000000-0000-4000-8000-000000000001\":{\"a\":\"\xff\"}}";

#[test]
fn bytes_are_read_as_tasks_or_as_none(rt: HostRuntime) -> Result<(), Fail> {
    assert_eq!(rt; texts_so_far(rt.alloc())?, TEXTS.len());
    assert!(rt; is_read(rt.alloc(), NO_UTF8, "none")?);
    Ok(())
}

fn letters(alloc: Global, count: usize) -> Result<String, Memory> {
    let mut text = String::new(alloc);
    for _ in 0..count {
        text.push('x')?;
    }
    Ok(text)
}

// A task whose snapshot has so many bytes.
fn long(alloc: Global, bytes: usize) -> Result<Tasks, Memory> {
    let value = letters(alloc, bytes.saturating_sub(49))?;
    let mut tasks = Tasks::new(alloc);
    tasks.insert(uuid(1), task_of(alloc, &[("d", value.as_str())])?)?;
    Ok(tasks)
}

// Whether a text of so many bytes is read as tasks, and as none with one byte more.
fn is_longest(alloc: Global, text: &mut Vec<u8>) -> Result<bool, Memory> {
    let is_whole = text.len() == 16_777_216 && read_snapshot(alloc, text.as_slice())?.is_some();
    text.push(b' ')?;
    Ok(is_whole && read_snapshot(alloc, text.as_slice())?.is_none())
}

// The snapshot of a task for so many bytes, if there is one.
fn long_text(alloc: Global, bytes: usize) -> Result<Option<Vec<u8>>, Memory> {
    write_snapshot(alloc, &long(alloc, bytes)?)
}

#[test]
fn a_snapshot_has_at_most_16_777_216_bytes(rt: HostRuntime) -> Result<(), Fail> {
    let mut text = long_text(rt.alloc(), 16_777_216)?.ok_or("no snapshot")?;
    assert!(rt; is_longest(rt.alloc(), &mut text)?);
    assert!(rt; long_text(rt.alloc(), 16_777_217)?.is_none());
    Ok(())
}
