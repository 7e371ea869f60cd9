// A change of two month files, and the bytes of a record.

use super::stops::{FOLDER_FAILED, NONE_ACTIVE};
use super::{Machine, disk_of, empty, folder_with};
use std::alloc::Global;
use std::test::Fail;
use tw_world::Folder;

const OVER_THE_END: &str = "inc 20260131T230000Z - 20260201T010000Z # code\n";

const TO_THE_END: &str = "inc 20260131T230000Z - 20260201T000000Z # code\n";

const FROM_THE_END: &str = "inc 20260201T000000Z - 20260201T010000Z # code\n";

// A machine with an interval over the end of January, whose folder fails at the fourth call: after the names, the file and its
// replacement this is the one that makes the file of February.
fn over_the_end(alloc: Global) -> Result<Machine, Fail> {
    Ok(Machine {
        alloc,
        folder: folder_with(alloc, OVER_THE_END, &[3])?,
        disk: disk_of(alloc, &[], &[])?,
    })
}

// Whether the file of February holds this, or is not there.
fn is_february(machine: &mut Machine, want: &str) -> Result<bool, Fail> {
    let file = machine.folder.read(machine.alloc, "2026-02.data");
    Ok(match file.or(Err("no folder"))? {
        Some(bytes) => bytes.as_slice() == want.as_bytes(),
        None => want.is_empty(),
    })
}

fn is_cut_off(machine: &mut Machine) -> Result<bool, Fail> {
    Ok(machine.leaves("split @1", FOLDER_FAILED, TO_THE_END)? && is_february(machine, "")?)
}

fn is_finished(machine: &mut Machine) -> Result<bool, Fail> {
    Ok(machine.leaves("", NONE_ACTIVE, TO_THE_END)? && is_february(machine, FROM_THE_END)?)
}

// The folder fails at the second of two files: the next command replaces it.
#[test]
fn a_change_of_two_files_is_finished(rt: HostRuntime) -> Result<(), Fail> {
    let mut machine = over_the_end(rt.alloc())?;
    assert!(rt; is_cut_off(&mut machine)? && is_finished(&mut machine)?);
    Ok(())
}

// One file, which is made: its name, no bytes before, and its bytes after.
const CHANGE: &[u8] =
    b"\x01\0\0\0\x01\0\0\0\x0c2026-01.data\0\0\0\0\0\0\0\x15inc 20260105T090000Z\n";

#[test]
fn a_body_is_its_fields(rt: HostRuntime) -> Result<(), Fail> {
    let mut machine = empty(rt.alloc())?;
    let is_stored = machine.tells("start 9:00", "0 Stored 1 interval.\n")?;
    assert!(rt; is_stored && machine.disk.bytes().ends_with(CHANGE));
    Ok(())
}
