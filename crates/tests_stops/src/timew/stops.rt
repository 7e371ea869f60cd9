// Stops and failing calls while an interval is split.

use super::{Machine, ONE, TWO, disk_of, folder_with, holding};
use std::alloc::Global;
use std::test::Fail;
use tw_world::MemoryDisk;

pub(super) const FOLDER_FAILED: &str = "8 timew: the folder failed\n";

const DISK_FAILED: &str = "3 timew: the journal failed\n";

pub(super) const NONE_ACTIVE: &str = "1 timew: no active tracking\n";

// A machine on which the interval was split.
fn split(alloc: Global) -> Result<Machine, Fail> {
    let mut machine = holding(alloc, ONE, &[], &[])?;
    if machine.leaves("split @1", "0 Stored 2 intervals.\n", TWO)? {
        Ok(machine)
    } else {
        Err(Fail::new("not split"))
    }
}

// Whether the next command finds the interval split, or whole if the split was not carried out.
fn is_split_or_whole(machine: &mut Machine, is_done: bool) -> Result<bool, Fail> {
    Ok(machine.tells("", NONE_ACTIVE)? && (machine.holds(TWO)? || !is_done && machine.holds(ONE)?))
}

// Whether this is told of a split if these calls fail, and the next command finds the interval split or whole.
fn is_told_at(
    alloc: Global,
    folder_fails: &[u64],
    disk_fails: &[u64],
    want: &str,
) -> Result<bool, Fail> {
    let mut machine = holding(alloc, ONE, folder_fails, disk_fails)?;
    let is_told = machine.tells("split @1", want)?;
    machine.disk = disk_of(alloc, machine.disk.bytes(), &[])?;
    Ok(is_told && is_split_or_whole(&mut machine, false)?)
}

// Each of the four calls of the folder fails in turn.
fn each_of_the_folder(alloc: Global) -> Result<bool, Fail> {
    for call in 0..4 {
        if !is_told_at(alloc, &[call], &[], FOLDER_FAILED)? {
            return Ok(false);
        }
    }
    Ok(true)
}

// Each call of the journal's disk fails in turn.
fn each_of_the_disk(alloc: Global) -> Result<bool, Fail> {
    for call in 0..split(alloc)?.disk.calls() {
        if !is_told_at(alloc, &[], &[call], DISK_FAILED)? {
            return Ok(false);
        }
    }
    Ok(true)
}

#[test]
fn a_split_is_whole_or_not_there(rt: HostRuntime) -> Result<(), Fail> {
    assert!(rt; each_of_the_folder(rt.alloc())?);
    assert!(rt; each_of_the_disk(rt.alloc())?);
    Ok(())
}

// Whether a machine with what a crash leaves of the journal, before the file is replaced, holds the interval split, or whole if
// there were calls left.
fn is_loaded(alloc: Global, disk: &MemoryDisk, calls: u64, pick: u8) -> Result<bool, Fail> {
    if calls > disk.calls() || pick > 3 {
        return Ok(false);
    }
    let image = disk.image(calls, pick)?;
    let mut machine = Machine {
        alloc,
        folder: folder_with(alloc, ONE, &[])?,
        disk: disk_of(alloc, &image, &[])?,
    };
    is_split_or_whole(&mut machine, calls == disk.calls())
}

// Each image that a crash may leave of the journal while an interval is split, and at its end.
fn each_is_loaded(alloc: Global, disk: &MemoryDisk) -> Result<bool, Fail> {
    for calls in 0..disk.calls().saturating_add(1) {
        for pick in 0..4 {
            if !is_loaded(alloc, disk, calls, pick)? {
                return Ok(false);
            }
        }
    }
    Ok(true)
}

#[test]
fn every_image_is_loaded(rt: HostRuntime) -> Result<(), Fail> {
    let alloc = rt.alloc();
    assert!(rt; each_is_loaded(alloc, &split(alloc)?.disk)?);
    Ok(())
}
