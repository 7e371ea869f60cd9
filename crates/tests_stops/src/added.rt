// The journal after tasks are added, by its bytes.

use crate::given::{Ended, Given};
use crate::link::link_over;
use crate::runs::{disk_of, machine, run_alone, run_given};
use std::alloc::Global;
use std::test::Fail;
use tw_cli::Cause;
use tw_world::MemoryDisk;

// The journal after a task was added to an empty store: its magic, two slots of which the first says 29, and one commit of six
// operations.
const ADDED: [u8; 279] = [
    2, 0, 0, 0, 8, 84, 87, 82, 69, 80, 76, 48, 50, 0, 0, 0, 0, 0, 0, 0, 29, 0, 0, 0, 0, 0, 0, 0, 0,
    1, 0, 0, 0, 245, 1, 0, 0, 0, 0, 6, 4, 1, 0, 0, 0, 0, 0, 0, 64, 0, 128, 0, 0, 0, 0, 0, 0, 1, 3,
    0, 0, 0, 0, 0, 0, 64, 0, 128, 0, 0, 0, 0, 0, 0, 1, 0, 0, 0, 11, 100, 101, 115, 99, 114, 105,
    112, 116, 105, 111, 110, 0, 1, 0, 0, 0, 8, 66, 117, 121, 32, 109, 105, 108, 107, 0, 0, 0, 0,
    101, 83, 241, 0, 0, 0, 0, 0, 3, 0, 0, 0, 0, 0, 0, 64, 0, 128, 0, 0, 0, 0, 0, 0, 1, 0, 0, 0, 5,
    101, 110, 116, 114, 121, 0, 1, 0, 0, 0, 10, 49, 55, 48, 48, 48, 48, 48, 48, 48, 48, 0, 0, 0, 0,
    101, 83, 241, 0, 0, 0, 0, 0, 3, 0, 0, 0, 0, 0, 0, 64, 0, 128, 0, 0, 0, 0, 0, 0, 1, 0, 0, 0, 8,
    109, 111, 100, 105, 102, 105, 101, 100, 0, 1, 0, 0, 0, 10, 49, 55, 48, 48, 48, 48, 48, 48, 48,
    48, 0, 0, 0, 0, 101, 83, 241, 0, 0, 0, 0, 0, 3, 0, 0, 0, 0, 0, 0, 64, 0, 128, 0, 0, 0, 0, 0, 0,
    1, 0, 0, 0, 6, 115, 116, 97, 116, 117, 115, 0, 1, 0, 0, 0, 7, 112, 101, 110, 100, 105, 110,
    103, 0, 0, 0, 0, 101, 83, 241, 0, 0, 0, 0, 0,
];

// Runs a line at the moment 2023-11-14T22:13:20Z, with identifiers from `first` on.
fn run_from(alloc: Global, first: u128, line: &str, disk: &mut MemoryDisk) -> Result<Ended, Fail> {
    run_alone(alloc, &Given::new(first, 1_700_000_000), line, disk)
}

// Whether a task is added if these calls of the output fail, and the run ends so.
fn adds(
    alloc: Global,
    out_fails: &[u64],
    status: u8,
    cause: &Cause,
    said: &str,
) -> Result<bool, Fail> {
    let mut disk = machine(alloc)?;
    let mut none = link_over(alloc, &[])?;
    let given = Given::new(1, 1_700_000_000);
    let ended = run_given(
        alloc,
        &given,
        "add|Buy|milk",
        &mut disk,
        &mut none,
        out_fails,
    )?;
    let is_told = ended.is(status, cause) && ended.said() == Some(said.as_bytes());
    Ok(is_told && disk.bytes() == ADDED.as_slice())
}

#[test]
fn a_task_is_added_whether_its_text_is_printed_or_not(rt: HostRuntime) -> Result<(), Fail> {
    let alloc = rt.alloc();
    assert!(rt; adds(alloc, &[], 0, &Cause::Done, "Created task 1.\n")?);
    assert!(rt; adds(alloc, &[0], 6, &Cause::OutFault, "task: output failed\n")?);
    Ok(())
}

// Where the last two bytes of the task's uuid stand in the record of an added task.
const NUMBERS: [usize; 5] = [27, 44, 102, 156, 213];

fn put(bytes: &mut Vec<u8>, at: usize, byte: u8) {
    if let Some(place) = bytes.get_mut(at) {
        *place = byte;
    }
}

// Puts the record of one more added task behind a journal, whose uuid ends with this number.
fn push_added(bytes: &mut Vec<u8>, number: u16) -> Result<(), Fail> {
    let start = bytes.len();
    let [high, low] = number.to_be_bytes();
    bytes.extend_from_slice(&ADDED[29..])?;
    for at in &NUMBERS {
        let place = start.saturating_add(*at);
        put(bytes, place, high);
        put(bytes, place.saturating_add(1), low);
    }
    Ok(())
}

// The journal after so many tasks were added, whose uuids end with their numbers.
fn added(alloc: Global, count: u16) -> Result<Vec<u8>, Fail> {
    let mut bytes = ADDED[..29].to_vec(alloc)?;
    for number in 0..count {
        push_added(&mut bytes, number)?;
    }
    Ok(bytes)
}

// A line that adds a task of so many words.
fn line_of(alloc: Global, words: u8) -> Result<String, Fail> {
    let mut line = String::from_str(alloc, "add")?;
    for _ in 0..words {
        line.push_str("|word")?;
    }
    Ok(line)
}

// Whether a line prints this, and the store holds the state.
fn prints_over_state(
    alloc: Global,
    disk: &mut MemoryDisk,
    line: &str,
    printed: &str,
) -> Result<bool, Fail> {
    let ended = run_from(alloc, 2001, line, disk)?;
    Ok(ended.out.bytes() == printed.as_bytes() && disk.bytes().first() == Some(&3))
}

// Whether a line adds to a store of 2,000 tasks, and an undo takes that back. The first command writes the state in place of the
// records.
fn adds_over_state(alloc: Global, line: &str, disk: &mut MemoryDisk) -> Result<bool, Fail> {
    Ok(
        prints_over_state(alloc, disk, "count", "2000\n")?
            && prints_over_state(alloc, disk, line, "Created task 2001.\n")?
            && prints_over_state(alloc, disk, "count", "2001\n")?
            && prints_over_state(alloc, disk, "undo", "Undone 5 operations.\n")?
            && prints_over_state(alloc, disk, "count", "2000\n")?,
    )
}

#[test]
fn a_line_of_200_words_adds_to_2000_tasks(rt: HostRuntime) -> Result<(), Fail> {
    let alloc = rt.alloc();
    let mut disk = disk_of(alloc, &added(alloc, 2000)?, &[])?;
    let line = line_of(alloc, 200)?;
    assert!(rt; adds_over_state(alloc, line.as_str(), &mut disk)?);
    Ok(())
}
