// What a crash leaves in making a file, in an append and in a checkpoint.
use super::{
    ADDED, MADE, MOVED, MOVED_BACK, Opened, ROW, ROW_ADDED, disk_of, image_of, journal_on, refusal,
};
use std::alloc::Global;
use std::test::Fail;
use tw_world::MemoryDisk;

// Whether a crash may leave this: before the call that counts what was there, after it what comes, and in it either.
fn may_stand(call: u64, counts: u64, before: bool, after: bool) -> bool {
    (before && call <= counts) || (after && counts <= call)
}

// Whether what a crash leaves becomes a new file when it is opened.
fn is_made_anew(alloc: Global, disk: &MemoryDisk, call: u64, pick: u8) -> Result<bool, Fail> {
    let content = image_of(disk, call, pick)?;
    let mut image = disk_of(alloc, &content, &[])?;
    let opens = refusal(alloc, &mut image).is_none();
    Ok(opens && content.len() < 30 && image.bytes() == MADE.as_slice())
}

// The same of each crash in ten calls.
fn is_made_anew_at_each(alloc: Global, disk: &MemoryDisk) -> Result<bool, Fail> {
    for call in 0..10 {
        for pick in 0..4 {
            if !is_made_anew(alloc, disk, call, pick)? {
                return Ok(false);
            }
        }
    }
    Ok(true)
}

// A disk on which a file was made: by six calls after a sync, a size and a read.
fn made(alloc: Global) -> Result<MemoryDisk, Fail> {
    let mut disk = disk_of(alloc, &[0, 7, 7], &[])?;
    let opens = refusal(alloc, &mut disk).is_none();
    if opens & (disk.bytes() == MADE.as_slice()) & (disk.calls() == 9) {
        Ok(disk)
    } else {
        Err(Fail::new("not made"))
    }
}

#[test]
fn a_crash_while_a_file_is_made_leaves_no_record(rt: HostRuntime) -> Result<(), Fail> {
    let alloc = rt.alloc();
    let disk = made(alloc)?;
    assert!(rt; is_made_anew_at_each(alloc, &disk)?);
    Ok(())
}

// How many records a crash leaves, and the byte of the first body.
fn first_at(alloc: Global, disk: &MemoryDisk, call: u64, pick: u8) -> Result<(u64, u8), Fail> {
    let content = image_of(disk, call, pick)?;
    journal_on(alloc, &content)?.first(alloc)
}

impl Opened {
    // The calls made before the first and the second of two checkpoints, where both leave the file that they must, and the
    // record of the first is found.
    fn checkpoints_twice(&mut self) -> Option<(u64, u64)> {
        let is_added = self.append(&[3, 4]).is_ok();
        let first = self.disk.calls();
        let is_moved = self.checkpoint(&[9]) && self.disk.bytes() == MOVED.as_slice();
        let moved = self.disk.calls();
        let is_found = self.offset(0) == Some(43);
        let second = self.disk.calls();
        let is_moved_back = self.checkpoint(&[8]) && self.disk.bytes() == MOVED_BACK.as_slice();
        let third = self.disk.calls();
        let counted = moved == first.saturating_add(12) && third == second.saturating_add(10);
        if is_added & is_moved & is_found & is_moved_back & counted {
            Some((first, second))
        } else {
            None
        }
    }
}

// Whether a crash in one of these calls leaves what was there before, or after the selector what comes.
fn leaves_either(
    alloc: Global,
    disk: &MemoryDisk,
    begun: u64,
    calls: u64,
    selector: u64,
    before: (u64, u8),
    after: (u64, u8),
) -> Result<bool, Fail> {
    for call in 0..=calls {
        for pick in 0..4 {
            let found = first_at(alloc, disk, begun.saturating_add(call), pick)?;
            if !may_stand(call, selector, found == before, found == after) {
                return Ok(false);
            }
        }
    }
    Ok(true)
}

// The selector is written by the ninth call of the first checkpoint, and by the seventh of the second, which needs no room.
#[test]
fn a_crash_in_a_checkpoint_leaves_the_records_or_the_one(rt: HostRuntime) -> Result<(), Fail> {
    let alloc = rt.alloc();
    let mut two = journal_on(alloc, &ADDED)?;
    let (first, second) = two.checkpoints_twice().ok_or("no checkpoint")?;
    assert!(rt; leaves_either(alloc, &two.disk, first, 12, 9, (2, 2), (1, 9))?);
    assert!(rt; leaves_either(alloc, &two.disk, second, 10, 7, (1, 9), (1, 8))?);
    Ok(())
}

// What a crash leaves when it is opened.
fn cut_at(alloc: Global, disk: &MemoryDisk, call: u64, pick: u8) -> Result<Opened, Fail> {
    let content = image_of(disk, call, pick)?;
    if content.len() >= 20 {
        return Err(Fail::new("a long file"));
    }
    journal_on(alloc, &content)
}

// The disk of a row to which a record was added, and the calls before that. The append makes seven.
fn appended(alloc: Global) -> Result<(Opened, u64), Fail> {
    let mut row = journal_on(alloc, &ROW)?;
    let first = row.disk.calls();
    let is_added = row.append(&[2]).is_ok();
    if is_added & (row.disk.calls() == first.saturating_add(7)) {
        Ok((row, first))
    } else {
        Err(Fail::new("not added"))
    }
}

// Whether a crash in a call of the append leaves the records before it, or after the sixth, which writes the gate, those
// after it.
fn is_cut(alloc: Global, disk: &MemoryDisk, first: u64, call: u64, pick: u8) -> Result<bool, Fail> {
    let left = cut_at(alloc, disk, first.saturating_add(call), pick)?;
    let before = left.disk.bytes() == ROW.as_slice();
    let after = left.disk.bytes() == ROW_ADDED.as_slice();
    Ok(may_stand(call, 6, before, after))
}

// The same of each call.
fn is_cut_at_each(alloc: Global, disk: &MemoryDisk, first: u64) -> Result<bool, Fail> {
    for call in 0..8 {
        for pick in 0..4 {
            if !is_cut(alloc, disk, first, call, pick)? {
                return Ok(false);
            }
        }
    }
    Ok(true)
}

#[test]
fn a_crash_in_an_append_leaves_the_records_before_or_after(rt: HostRuntime) -> Result<(), Fail> {
    let alloc = rt.alloc();
    let (row, first) = appended(alloc)?;
    assert!(rt; is_cut_at_each(alloc, &row.disk, first)?);
    Ok(())
}
