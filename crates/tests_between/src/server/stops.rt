// Stops and failing calls while a version is added.
use super::{CHILD, FIRST_CHILD, Opened, calls_of_opening, open_on};
use crate::texts::{ADD, ADDED_0, UP_TO_DATE};
use std::alloc::Global;
use std::test::Fail;
use tw_server::ServeEnd;
use tw_world::MemoryDisk;

/// Whether a server over these bytes has the version, or none, or answers otherwise.
fn has_version(alloc: Global, bytes: &[u8]) -> Result<Option<bool>, Fail> {
    let mut server = open_on(alloc, bytes, &[], 1)?;
    Ok(if server.serves(alloc, FIRST_CHILD, 200, CHILD)? {
        Some(true)
    } else if server.serves(alloc, FIRST_CHILD, 404, UP_TO_DATE)? {
        Some(false)
    } else {
        None
    })
}

/// A server without versions once it has added one.
fn added(alloc: Global) -> Result<Opened, Fail> {
    let mut server = open_on(alloc, &[], &[], 1)?;
    if server.serves(alloc, ADD, 200, ADDED_0)? {
        Ok(server)
    } else {
        Err(Fail::new("not added"))
    }
}

/// Whether an image that a crash leaves after so many calls has the version, or none if there are calls left.
fn is_opened(alloc: Global, disk: &MemoryDisk, calls: u64, pick: u8) -> Result<bool, Fail> {
    if calls > disk.calls() || pick > 3 {
        return Ok(false);
    }
    let image = disk.image(calls, pick)?;
    Ok(match has_version(alloc, &image)? {
        Some(true) => true,
        Some(false) => calls < disk.calls(),
        None => false,
    })
}

/// The same of each image after each number of calls.
fn each_is_opened(alloc: Global, disk: &MemoryDisk) -> Result<bool, Fail> {
    for calls in 0..disk.calls().saturating_add(1) {
        for pick in 0..4 {
            if !is_opened(alloc, disk, calls, pick)? {
                return Ok(false);
            }
        }
    }
    Ok(true)
}

#[test]
fn a_stop_leaves_the_version_or_none(rt: HostRuntime) -> Result<(), Fail> {
    let alloc = rt.alloc();
    assert!(rt; each_is_opened(alloc, &added(alloc)?.disk)?);
    Ok(())
}

/// Whether an add-version ends by a fault of the disk if the call with this number fails, and leaves the version or none.
fn is_told_at(alloc: Global, failing: u64) -> Result<bool, Fail> {
    let mut server = open_on(alloc, &[], &[failing], 1)?;
    let is_told = server.ends(alloc, ADD.as_bytes(), &[], ServeEnd::DiskFault, "")?;
    Ok(is_told && has_version(alloc, server.disk.bytes())?.is_some())
}

/// The same of each call after the opening.
fn each_is_told(alloc: Global) -> Result<bool, Fail> {
    for failing in calls_of_opening(alloc)?..added(alloc)?.disk.calls() {
        if !is_told_at(alloc, failing)? {
            return Ok(false);
        }
    }
    Ok(true)
}

#[test]
fn each_failing_call_leaves_the_version_or_none(rt: HostRuntime) -> Result<(), Fail> {
    assert!(rt; each_is_told(rt.alloc())?);
    Ok(())
}
