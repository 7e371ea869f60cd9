// By how many calls of the disk records are read.
use super::{MAGIC, MAX_LEN, Opened, ROW, disk_of, journal_on};
use std::alloc::Global;
use std::test::Fail;
use tw_journal::Journal;
use tw_world::{Disk, DiskError};

impl Opened {
    // Adds a record of one byte, for whose offset room is made or not.
    fn add(&mut self, n: u8, has_room: bool) -> bool {
        if has_room && self.journal.make_room().is_err() {
            return false;
        }
        self.append(&[n]).is_ok()
    }

    // Adds a hundred of them.
    fn add_hundred(&mut self, has_room: bool) -> bool {
        for n in 0..100 {
            if !self.add(n, has_room) {
                return false;
            }
        }
        true
    }
}

// By how many calls of the disk the last of a hundred added records is read.
fn calls_for_the_last(alloc: Global, has_room: bool) -> Result<u64, Fail> {
    let mut row = journal_on(alloc, &ROW)?;
    let is_added = row.add_hundred(has_room);
    let first = row.disk.calls();
    let body = row.body(alloc, 99).ok_or("not read")?;
    if is_added & (body.as_slice() == [99].as_slice()) {
        Ok(row.disk.calls().saturating_sub(first))
    } else {
        Err(Fail::new("not added"))
    }
}

// Its head and its body are read, and without room the heads of all before it.
#[test]
fn an_added_record_is_found_at_once_if_there_was_room(rt: HostRuntime) -> Result<(), Fail> {
    let alloc = rt.alloc();
    let found = (
        calls_for_the_last(alloc, true)?,
        calls_for_the_last(alloc, false)?,
    );
    assert_eq!(rt; found, (2, 101));
    Ok(())
}

// A record whose body has so many of one byte.
fn push_record(alloc: Global, out: &mut Vec<u8>, size: u32, fill: u8) -> Result<(), Fail> {
    let body = vec![in alloc; fill; size as usize]?;
    out.push(1)?;
    out.extend_from_slice(&size.to_be_bytes())?;
    out.extend_from_slice(&body)?;
    Ok(())
}

// A file with a body of each of these sizes, filled with 1, with 2, and so on.
fn file_of(alloc: Global, sizes: &[u32]) -> Result<Vec<u8>, Fail> {
    let mut content = ROW.to_vec(alloc)?;
    let mut fill = 1u8;
    for size in sizes {
        push_record(alloc, &mut content, *size, fill)?;
        fill = fill.wrapping_add(1);
    }
    Ok(content)
}

// The calls by which a file of 10,000 records is opened, where a body and a part are read by one more. It has 130,013 bytes, which
// are two pieces.
fn calls_for_many(alloc: Global) -> Result<u64, Fail> {
    let content = file_of(alloc, &[8; 10_000])?;
    let mut many = journal_on(alloc, &content)?;
    let calls = many.disk.calls();
    let counted = (content.len() == 130_013) & (many.journal.count() == 10_000);
    let shown = many.shows_two(alloc);
    if counted & shown & (many.disk.calls() == calls.saturating_add(1)) {
        Ok(calls)
    } else {
        Err(Fail::new("not shown"))
    }
}

#[test]
fn many_records_are_opened_by_few_calls(rt: HostRuntime) -> Result<(), Fail> {
    assert!(rt; calls_for_many(rt.alloc())? <= 5);
    Ok(())
}

/// A disk that is only read, and counts the reads and their bytes. It tells nothing of what it holds.
#[derive(Drop)]
struct CountingDisk {
    content: Vec<u8>,
    reads: u64,
    bytes: u64,
    faults: u64,
}

impl CountingDisk {
    ghost use Rattle.std.specs.Prelude.{◌≡◌, ◌≤◌, min, ◌+◌, ◌-◌, ◌^◌};

    fn fail(&mut self) -> DiskError
        ensures failed { result ≡ DiskError.Failed }
        ensures counted { min (self.old.faults + 1) (2 ^ 64 - 1) ≤ self.new.faults }
        ensures later { self.old.faults ≤ self.new.faults }
        ensures content { self.new.content ≡ self.old.content }
    {
        self.faults = self.faults.saturating_add(1);
        DiskError::Failed
    }
}

impl Disk for CountingDisk {
    ghost use Rattle.std.specs.Prelude.{false, [], length};
    ghost use Rattle.tw_world.specs.Failing.{none_told};

    ghost model = { record {
      faults = λ d. d.faults;
      len = λ d. length d.content.items;
      tells = λ d. false;
      seen = λ d. [];
      leaves = λ d c. ⊥;
      moment = λ d. 0;
      left_since = λ d t c. ⊥;
    } };

    ghost has_length = { λ disk tells. none_told tells };

    ghost seen_may_stay = { λ disk tells. none_told tells };

    ghost counts_now = { λ disk t c le left. left };

    ghost only_now = { λ disk c left. left };

    fn size(&mut self) -> Result<u64, DiskError> {
        let len = self.content.len() as u64;
        if len >= 1 << 56 {
            return Err(self.fail());
        }
        Ok(len)
    }

    fn read_at(&mut self, at: u64, out: &mut [u8]) -> Result<(), DiskError> {
        self.reads = self.reads.saturating_add(1);
        self.bytes = self.bytes.saturating_add(out.len() as u64);
        let from = at as usize;
        out.copy_from_slice(&self.content[from..from + out.len()]);
        Ok(())
    }

    fn write_at(&mut self, _at: u64, _bytes: &[u8]) -> Result<(), DiskError> {
        Err(self.fail())
    }

    fn set_len(&mut self, _len: u64) -> Result<(), DiskError> {
        Err(self.fail())
    }

    fn sync(&mut self) -> Result<(), DiskError> {
        Ok(())
    }
}

// By how many reads a file with bodies of these sizes is opened, and how many bytes these have.
fn reads_of_opening(alloc: Global, sizes: &[u32]) -> Result<(u64, u64), Fail> {
    let content = file_of(alloc, sizes)?;
    let mut disk = CountingDisk {
        content,
        reads: 0,
        bytes: 0,
        faults: 0,
    };
    let Ok(journal) = Journal::open(alloc, &mut disk, &MAGIC) else {
        return Err(Fail::new("not opened"));
    };
    if journal.count() != sizes.len() as u64 {
        return Err(Fail::new("another count"));
    }
    Ok((disk.reads, disk.bytes))
}

// The same of so many bodies of one size.
fn reads_of_alike(alloc: Global, size: u32, count: usize) -> Result<(u64, u64), Fail> {
    let sizes = vec![in alloc; size; count]?;
    reads_of_opening(alloc, sizes.as_slice())
}

// Behind a body of more than 4,096 bytes a head is read by a piece of 512. The first read is that of the form, of 29 bytes.
#[test]
fn long_bodies_are_leapt_over(rt: HostRuntime) -> Result<(), Fail> {
    let alloc = rt.alloc();
    assert!(rt; reads_of_alike(alloc, 4_096, 100)? == (8, 409_649));
    assert!(rt; reads_of_alike(alloc, 4_097, 100)? == (86, 108_573));
    assert!(rt; reads_of_alike(alloc, 16_384, 100)? == (98, 114_717));
    assert!(rt; reads_of_alike(alloc, 80_000, 40)? == (41, 85_533));
    Ok(())
}
