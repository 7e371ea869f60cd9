// `tw rescue`.

use crate::check::say_unread;
use crate::print::{print_bytes, say};
use crate::start::StartError;
use std::alloc::Global;
use std::fs::OpenOptions;
use std::io::{ErrorKind, Write};
use std::os::unix::fs::OpenOptionsExt;
use std::{fs, io};
use tw_check::{Kind, Rescued, damage, kind_of, lost_text, rescue, saved_text, sound_text};
use tw_text::cell;
use tw_world::Memory;

/// Writes what is whole of a damaged journal beside it, to a new file with `.rescued` after its name, and never changes the journal. The
/// status is 1 if it is not damaged, 3 if it can't be read or the new file can't be made, 7 if no record is whole.
pub fn run_rescue(rt: &HostRuntime, alloc: Global, words: &Vec<String>) -> Result<u8, StartError> {
    if words.len() != 1 {
        return Err(StartError::CommandLine);
    }
    let path = words[0].as_str();
    match fs::read(rt, path) {
        Ok(bytes) => Ok(rescue_bytes(rt, alloc, path, bytes.as_slice())?),
        Err(error) => match error.kind() {
            ErrorKind::OutOfMemory => Err(StartError::Memory),
            _ => Ok(say_unread(rt, alloc, path)),
        },
    }
}

fn rescue_bytes(rt: &HostRuntime, alloc: Global, path: &str, bytes: &[u8]) -> Result<u8, Memory> {
    let name = cell(alloc, path)?;
    let kind = kind_of(bytes);
    match damage(alloc, kind, bytes)? {
        None => {
            say(rt, sound_text(alloc, name.as_str())?.as_bytes());
            Ok(1)
        }
        Some(offset) => rescue_damaged(rt, alloc, path, name.as_str(), kind, bytes, offset as u64),
    }
}

fn rescue_damaged(
    rt: &HostRuntime,
    alloc: Global,
    path: &str,
    name: &str,
    kind: Kind,
    bytes: &[u8],
    offset: u64,
) -> Result<u8, Memory> {
    let size = bytes.len() as u64;
    let Some(saved) = rescue(alloc, kind, bytes)? else {
        say(rt, lost_text(alloc, name, offset, size)?.as_bytes());
        return Ok(7);
    };
    let mut beside = String::from_str(alloc, path)?;
    beside.push_str(".rescued")?;
    if let Err(error) = write_new(rt, beside.as_str(), saved.bytes.as_slice()) {
        return Ok(say_unmade(rt, alloc, beside.as_str(), &error));
    }
    tell_saved(rt, alloc, name, size, &saved)
}

fn tell_saved(
    rt: &HostRuntime,
    alloc: Global,
    name: &str,
    size: u64,
    saved: &Rescued,
) -> Result<u8, Memory> {
    let kept = saved.bytes.len() as u64;
    let left_out = size.saturating_sub(kept);
    let text = saved_text(alloc, name, saved.records, kept, saved.is_older, left_out)?;
    Ok(print_bytes(rt, text.as_bytes()))
}

// Makes a file that is not there yet, which only its owner may read, and sees that its bytes are stable.
fn write_new(rt: &HostRuntime, path: &str, bytes: &[u8]) -> io::Result<()> {
    let mut file = OpenOptions::new()
        .write(true)
        .create_new(true)
        .mode(0o600)
        .open(rt, path)?;
    file.write_all(bytes)?;
    file.sync_all()
}

// Says why the new file was not made, and gives the status.
fn say_unmade(rt: &HostRuntime, alloc: Global, path: &str, error: &io::Error) -> u8 {
    let why = match error.kind() {
        ErrorKind::AlreadyExists => "is there already",
        _ => "can't be written",
    };
    if let Ok(name) = cell(alloc, path)
        && let Ok(line) = format!(in alloc; "tw: {} {why}\n", name.as_str())
    {
        say(rt, line.as_bytes());
    }
    3
}
