// Records by their numbers, and parts of their bodies.
use super::{EMPTY_BETWEEN, MAGIC, Opened, THREE, disk_of, journal_on};
use std::alloc::Global;
use std::test::Fail;
use tw_journal::Journal;

// Whether a part of the second of three bodies is this, or not in it.
fn has_part(alloc: Global, from: u64, len: u64, want: Option<&[u8]>) -> Result<bool, Fail> {
    let mut three = journal_on(alloc, &THREE)?;
    Ok(three.has_part(alloc, from, len, want))
}

const PARTS: [(u64, u64, Option<&[u8]>); 9] = [
    (0, 0, Some(&[])),
    (0, 2, Some(&[3, 4])),
    (0, 1, Some(&[3])),
    (1, 1, Some(&[4])),
    (2, 0, Some(&[])),
    (0, 3, None),
    (2, 1, None),
    (3, 0, None),
    (u64::MAX, u64::MAX, None),
];

// How many of the parts are as wanted, up to the first that is not.
fn parts_so_far(alloc: Global) -> Result<usize, Fail> {
    for (number, (from, len, want)) in PARTS.iter().enumerate() {
        if !has_part(alloc, *from, *len, *want)? {
            return Ok(number);
        }
    }
    Ok(PARTS.len())
}

#[test]
fn a_part_of_a_body_is_read_up_to_both_its_ends(rt: HostRuntime) -> Result<(), Fail> {
    assert_eq!(rt; parts_so_far(rt.alloc())?, PARTS.len());
    Ok(())
}

// A journal of three records, to which two are added.
fn five(alloc: Global) -> Result<Opened, Fail> {
    let mut five = journal_on(alloc, &THREE)?;
    if five.append(&[6, 7, 8]).is_err() || five.append(&[9]).is_err() {
        return Err(Fail::new("not added"));
    }
    Ok(five)
}

// Whether one of five records begins here and has this body.
fn is_fifth(alloc: Global, n: u64, offset: u64, body: &[u8]) -> Result<bool, Fail> {
    let mut five = five(alloc)?;
    let is_row = !five.journal.can_checkpoint();
    Ok(is_row & five.has_record(alloc, n, offset, body))
}

// Whether no offset is answered if the gate of the record became another.
fn looks_at_the_record(alloc: Global) -> Result<bool, Fail> {
    let mut three = journal_on(alloc, &THREE)?;
    let is_spoilt = three.spoil();
    Ok(is_spoilt & three.offset(1).is_none())
}

// The offsets of three records are known from the opening, and no room was made for those of two more.
fn are_read(alloc: Global) -> Result<bool, Fail> {
    Ok(
        is_fifth(alloc, 0, 13, &[2])?
            && is_fifth(alloc, 1, 19, &[3, 4])?
            && is_fifth(alloc, 2, 26, &[5])?
            && is_fifth(alloc, 3, 32, &[6, 7, 8])?
            && is_fifth(alloc, 4, 40, &[9])?,
    )
}

#[test]
fn records_are_read_by_their_numbers(rt: HostRuntime) -> Result<(), Fail> {
    assert!(rt; are_read(rt.alloc())?);
    assert!(rt; looks_at_the_record(rt.alloc())?);
    Ok(())
}

// The first bytes of the bodies that an opening found, and whether that took no call more than the opening.
fn firsts_of(alloc: Global, content: &[u8]) -> Result<(Vec<u8>, bool), Fail> {
    let mut disk = disk_of(alloc, content, &[])?;
    let Ok(journal) = Journal::open(alloc, &mut disk, &MAGIC) else {
        return Err(Fail::new("not opened"));
    };
    let calls = disk.calls();
    let mut firsts = Vec::new(alloc);
    for n in 0..journal.count() {
        firsts.push(journal.first(&disk, n))?;
    }
    Ok((firsts, disk.calls() == calls))
}

#[test]
fn the_first_byte_of_each_body_is_kept(rt: HostRuntime) -> Result<(), Fail> {
    let (firsts, is_free) = firsts_of(rt.alloc(), &EMPTY_BETWEEN)?;
    assert!(rt; is_free & (firsts.as_slice() == [2, 0, 3].as_slice()));
    Ok(())
}
