// `tw check`.

use crate::hours::hours_folder;
use crate::print::{print_bytes, say};
use crate::settings::settings;
use crate::start::StartError;
use crate::task_paths::{replica_path, task_folder};
use crate::timew_paths::undo_path;
use std::alloc::Global;
use std::fs;
use std::io::ErrorKind;
use tw_check::{
    CheckError, Held, Kind, damage, damaged_text, held_text, journal_text, kind_of, look,
    lost_text, record_count, rescue, too_long_text,
};
use tw_text::cell;
use tw_world::Memory;

/// Tells what the journals of this machine hold, or those of a folder, or a file. It opens copies in memory, so it waits for no other run and
/// writes nothing. The status is that of the first journal that is refused: 7 if it is damaged, 3 if it can't be read.
pub fn run_check(rt: &HostRuntime, alloc: Global, words: &Vec<String>) -> Result<u8, StartError> {
    match words.len() {
        0 => check_machine(rt, alloc),
        1 => check_named(rt, alloc, words[0].as_str()),
        _ => Err(StartError::CommandLine),
    }
}

// The journals where the commands have them.
fn check_machine(rt: &HostRuntime, alloc: Global) -> Result<u8, StartError> {
    let settings = settings(rt, alloc)?;
    let tasks = task_folder(rt, alloc, &settings)?;
    let hours = hours_folder(rt, alloc)?;
    check_both(rt, alloc, tasks.as_str(), hours.as_str())
}

fn check_named(rt: &HostRuntime, alloc: Global, path: &str) -> Result<u8, StartError> {
    match fs::metadata(rt, path) {
        Ok(metadata) if metadata.is_dir() => check_both(rt, alloc, path, path),
        _ => check_file(rt, alloc, path, true),
    }
}

fn check_both(rt: &HostRuntime, alloc: Global, tasks: &str, hours: &str) -> Result<u8, StartError> {
    let replica = replica_path(alloc, tasks)?;
    let first = check_file(rt, alloc, replica.as_str(), false)?;
    let undo = undo_path(alloc, hours)?;
    let second = check_file(rt, alloc, undo.as_str(), false)?;
    Ok(if first == 0 { second } else { first })
}

// Checks a file. If it need not be there and is not, nothing is told of it.
fn check_file(
    rt: &HostRuntime,
    alloc: Global,
    path: &str,
    is_needed: bool,
) -> Result<u8, StartError> {
    match fs::read(rt, path) {
        Ok(bytes) => Ok(check_bytes(rt, alloc, path, bytes.as_slice())?),
        Err(error) => match error.kind() {
            ErrorKind::OutOfMemory => Err(StartError::Memory),
            ErrorKind::NotFound if !is_needed => Ok(0),
            _ => Ok(say_unread(rt, alloc, path)),
        },
    }
}

/// Says that a file can't be read, and gives the status.
pub fn say_unread(rt: &HostRuntime, alloc: Global, path: &str) -> u8 {
    if let Ok(name) = cell(alloc, path)
        && let Ok(line) = format!(in alloc; "tw: {} can't be read\n", name.as_str())
    {
        say(rt, line.as_bytes());
    }
    3
}

fn check_bytes(rt: &HostRuntime, alloc: Global, path: &str, bytes: &[u8]) -> Result<u8, Memory> {
    let name = cell(alloc, path)?;
    match kind_of(bytes) {
        Kind::Tasks => check_tasks(rt, alloc, name.as_str(), bytes),
        kind => check_journal(rt, alloc, kind, name.as_str(), bytes),
    }
}

fn check_tasks(rt: &HostRuntime, alloc: Global, name: &str, bytes: &[u8]) -> Result<u8, Memory> {
    match look(alloc, bytes) {
        Ok(held) => tell_held(rt, alloc, name, bytes, &held),
        Err(CheckError::Damaged { offset }) => {
            tell_damage(rt, alloc, Kind::Tasks, name, bytes, offset)
        }
        Err(CheckError::TooLong { bytes }) => {
            say(rt, too_long_text(alloc, name, bytes)?.as_slice());
            Ok(3)
        }
        Err(CheckError::Memory) => Err(Memory),
    }
}

fn tell_held(
    rt: &HostRuntime,
    alloc: Global,
    name: &str,
    bytes: &[u8],
    held: &Held,
) -> Result<u8, Memory> {
    let records = record_count(alloc, Kind::Tasks, bytes)?;
    let text = held_text(alloc, name, bytes.len() as u64, records, held)?;
    Ok(print_bytes(rt, text.as_slice()))
}

fn check_journal(
    rt: &HostRuntime,
    alloc: Global,
    kind: Kind,
    name: &str,
    bytes: &[u8],
) -> Result<u8, Memory> {
    if let Some(offset) = damage(alloc, kind, bytes)? {
        return tell_damage(rt, alloc, kind, name, bytes, offset as u64);
    }
    let records = record_count(alloc, kind, bytes)?;
    let text = journal_text(alloc, kind, name, bytes.len() as u64, records)?;
    Ok(print_bytes(rt, text.as_bytes()))
}

// Tells of damage, and what can be saved.
fn tell_damage(
    rt: &HostRuntime,
    alloc: Global,
    kind: Kind,
    name: &str,
    bytes: &[u8],
    offset: u64,
) -> Result<u8, Memory> {
    let size = bytes.len() as u64;
    let text = match rescue(alloc, kind, bytes)? {
        Some(saved) => damaged_text(alloc, name, offset, size, saved.is_older, saved.records)?,
        None => lost_text(alloc, name, offset, size)?,
    };
    say(rt, text.as_bytes());
    Ok(7)
}
