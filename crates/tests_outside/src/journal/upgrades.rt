// Files of the first version, opened by a magic of the second, and their upgrade.
use super::{ADDED, MOVED, Opened, ROW_ADDED, THREE, disk_of, image_of, refusal};
use std::alloc::Global;
use std::test::Fail;
use tw_journal::{Journal, OpenError};
use tw_world::MemoryDisk;

const SECOND: [u8; 8] = *b"TWREPL02";

// The row with the one record, replaced by the record of the body 9, which is put at 29.
const UPGRADED: [u8; 35] = [
    2, 0, 0, 0, 8, 84, 87, 82, 69, 80, 76, 48, 50, 0, 0, 0, 0, 0, 0, 0, 29, 0, 0, 0, 0, 0, 0, 0, 0,
    1, 0, 0, 0, 1, 9,
];

// The row with three records ends at 32, so the record is put at 33. What was there before it is not read.
const THREE_UPGRADED: [u8; 39] = [
    2, 0, 0, 0, 8, 84, 87, 82, 69, 80, 76, 48, 50, 0, 0, 0, 0, 0, 0, 0, 33, 0, 0, 0, 0, 0, 0, 0, 0,
    0, 1, 5, 0, 1, 0, 0, 0, 1, 9,
];

// A file with areas: one byte is another.
const ADDED_UPGRADED: [u8; 35] = [
    2, 0, 0, 0, 8, 84, 87, 82, 69, 80, 76, 48, 50, 0, 0, 0, 0, 0, 0, 0, 29, 0, 0, 0, 0, 0, 0, 0, 0,
    1, 0, 0, 0, 1, 2,
];

// The row with the one record in the middle of its upgrade: the record of the body 9 counts, by the last eight bytes.
const APART: [u8; 43] = [
    4, 0, 0, 0, 8, 84, 87, 82, 69, 80, 76, 48, 49, 1, 0, 0, 0, 1, 2, 0, 0, 0, 0, 0, 0, 0, 0, 0, 0,
    1, 0, 0, 0, 1, 9, 0, 0, 0, 0, 0, 0, 0, 29,
];

fn open_second(alloc: Global, content: &[u8]) -> Result<Result<Opened, OpenError>, Fail> {
    let mut disk = disk_of(alloc, content, &[])?;
    Ok(match Journal::open(alloc, &mut disk, &SECOND) {
        Ok(journal) => Ok(Opened { disk, journal }),
        Err(error) => Err(error),
    })
}

// How many records there are, the byte of the first body, and the version.
fn told_of(alloc: Global, content: &[u8]) -> Result<(u64, u8, u8), Fail> {
    let mut opened = open_second(alloc, content)?.or(Err("not opened"))?;
    let (count, first) = opened.first(alloc)?;
    Ok((count, first, opened.journal.version()))
}

fn first_files_are_opened(alloc: Global) -> Result<bool, Fail> {
    Ok(
        told_of(alloc, &ROW_ADDED)? == (1, 2, 49)
            && told_of(alloc, &THREE)? == (3, 2, 49)
            && told_of(alloc, &ADDED)? == (1, 2, 49)
            && told_of(alloc, &MOVED)? == (1, 9, 49),
    )
}

fn second_files_are_opened(alloc: Global) -> Result<bool, Fail> {
    Ok(told_of(alloc, &APART)? == (1, 9, 50) && told_of(alloc, &UPGRADED)? == (1, 9, 50))
}

// A magic of the second version takes files of the first.
#[test]
fn files_of_both_versions_are_opened(rt: HostRuntime) -> Result<(), Fail> {
    assert!(rt; first_files_are_opened(rt.alloc())?);
    assert!(rt; second_files_are_opened(rt.alloc())?);
    Ok(())
}

// Why a file of the second version is not opened by a magic of the first.
fn first_refuses(alloc: Global) -> Result<bool, Fail> {
    let mut disk = disk_of(alloc, &UPGRADED, &[])?;
    let why = refusal(alloc, &mut disk);
    Ok((why == Some(OpenError::Damaged { offset: 0 })) & (disk.bytes() == UPGRADED.as_slice()))
}

// Whether an upgrade that was cut off is ended by an opening, or the file is damaged where one of its bytes is 255.
fn is_ended_or_damaged(alloc: Global, at: usize) -> Result<bool, Fail> {
    let mut content = APART.to_vec(alloc)?;
    *content.get_mut(at).ok_or("no byte")? = 255;
    let is_free = (at > 12) & (at < 29) || at == 34;
    match open_second(alloc, &content)? {
        Ok(opened) => Ok(is_free & (opened.disk.bytes().len() == UPGRADED.len())),
        Err(error) => Ok(!is_free & (error == OpenError::Damaged { offset: 0 })),
    }
}

// How many of the bytes may so be 255, up to the first that may not.
fn cut_off_so_far(alloc: Global) -> Result<usize, Fail> {
    for at in 0..43 {
        if !is_ended_or_damaged(alloc, at)? {
            return Ok(at);
        }
    }
    Ok(43)
}

#[test]
fn an_upgrade_that_was_cut_off_is_ended_or_damaged(rt: HostRuntime) -> Result<(), Fail> {
    assert!(rt; first_refuses(rt.alloc())?);
    assert_eq!(rt; cut_off_so_far(rt.alloc())?, 43);
    Ok(())
}

impl Opened {
    // Whether a journal of the first version is upgraded, with the body 9.
    fn upgrade(&mut self) -> bool {
        self.journal.version() == 49
            && self.journal.upgrade(&mut self.disk, &SECOND, &[9]).is_ok()
            && self.journal.version() == 50
    }
}

// A file that was brought to the second version by so many calls, and the calls before that.
fn upgraded(alloc: Global, content: &[u8], made: &[u8], calls: u64) -> Result<(Opened, u64), Fail> {
    let mut opened = open_second(alloc, content)?.or(Err("not opened"))?;
    let first = opened.disk.calls();
    let is_upgraded = opened.upgrade() && opened.disk.bytes() == made;
    if is_upgraded & (opened.disk.calls() == first.saturating_add(calls)) {
        Ok((opened, first))
    } else {
        Err(Fail::new("not upgraded"))
    }
}

// Whether a crash at a call leaves the records before it or after it, and the first ones only up to the call that counts.
fn is_either(
    alloc: Global,
    disk: &MemoryDisk,
    first: u64,
    call: u64,
    pick: u8,
    counts: u64,
    before: (u64, u8),
) -> Result<bool, Fail> {
    let content = image_of(disk, first.saturating_add(call), pick)?;
    let mut left = open_second(alloc, &content)?.or(Err("not opened"))?;
    let found = left.first(alloc)?;
    let is_after = (found == (1, 9)) & (left.disk.bytes() == disk.bytes());
    Ok((found == before) & (call <= counts) || is_after & (counts <= call))
}

fn is_either_at_each(
    alloc: Global,
    content: &[u8],
    made: &[u8],
    before: (u64, u8),
) -> Result<bool, Fail> {
    let (opened, first) = upgraded(alloc, content, made, 17)?;
    for call in 0..18 {
        for pick in 0..4 {
            if !is_either(alloc, &opened.disk, first, call, pick, 7, before)? {
                return Ok(false);
            }
        }
    }
    Ok(true)
}

// The first byte is written by the seventh call, and from then on the one record counts.
#[test]
fn a_crash_in_an_upgrade_leaves_the_row_or_the_record(rt: HostRuntime) -> Result<(), Fail> {
    let alloc = rt.alloc();
    assert!(rt; is_either_at_each(alloc, &ROW_ADDED, &UPGRADED, (1, 2))?);
    assert!(rt; is_either_at_each(alloc, &THREE, &THREE_UPGRADED, (3, 2))?);
    Ok(())
}

// A write and a sync.
#[test]
fn a_file_with_areas_gets_one_byte(rt: HostRuntime) -> Result<(), Fail> {
    let alloc = rt.alloc();
    let (opened, _) = upgraded(alloc, &ADDED, &ADDED_UPGRADED, 2)?;
    assert_eq!(rt; opened.journal.count(), 1);
    Ok(())
}
