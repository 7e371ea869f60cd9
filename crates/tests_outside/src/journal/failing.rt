// Each call of the disk failing, and a record that is torn.
use super::{MADE, ROW, ROW_ADDED, TORN, disk_of, journal_on, open_on, refusal};
use std::alloc::Global;
use std::test::Fail;
use tw_journal::{AppendError, OpenError};

// Whether a call of an append that fails closes the journal. The opening makes three calls.
fn closes_at(alloc: Global, call: u64) -> Result<bool, Fail> {
    let mut row = open_on(alloc, &ROW, &[call.saturating_add(3)])?.or(Err("not opened"))?;
    let is_third = row.disk.calls() == 3;
    let first = row.append(&[2]);
    let second = row.append(&[2]);
    Ok(is_third & (first == Err(AppendError::Disk)) & (second == Err(AppendError::Closed)))
}

// How many of the calls close the journal, up to the first that does not.
fn closing_so_far(alloc: Global) -> Result<u64, Fail> {
    for call in 0..7 {
        if !closes_at(alloc, call)? {
            return Ok(call);
        }
    }
    Ok(7)
}

#[test]
fn each_call_that_fails_closes_the_journal(rt: HostRuntime) -> Result<(), Fail> {
    assert_eq!(rt; closing_so_far(rt.alloc())?, 7);
    Ok(())
}

// Whether a call of an opening that fails ends it, and the next one makes the file.
fn ends_at(alloc: Global, call: u64) -> Result<bool, Fail> {
    let mut disk = disk_of(alloc, &[], &[call])?;
    let first = refusal(alloc, &mut disk);
    let second = refusal(alloc, &mut disk);
    let is_made = disk.bytes() == MADE.as_slice();
    Ok((first == Some(OpenError::Disk)) & second.is_none() & is_made)
}

// Opening an empty file makes nine calls: a sync, a size, a read, and the six that make a file.
fn ending_so_far(alloc: Global) -> Result<u64, Fail> {
    for call in 0..9 {
        if !ends_at(alloc, call)? {
            return Ok(call);
        }
    }
    Ok(9)
}

#[test]
fn each_call_that_fails_ends_an_opening(rt: HostRuntime) -> Result<(), Fail> {
    assert_eq!(rt; ending_so_far(rt.alloc())?, 9);
    Ok(())
}

// Whether the record that is torn is cut from a file of one record.
fn is_torn_off(alloc: Global) -> Result<bool, Fail> {
    let torn = journal_on(alloc, &TORN)?;
    let is_one = torn.journal.count() == 1;
    Ok(is_one & (torn.disk.bytes() == ROW_ADDED.as_slice()))
}

#[test]
fn a_torn_record_is_cut(rt: HostRuntime) -> Result<(), Fail> {
    assert!(rt; is_torn_off(rt.alloc())?);
    Ok(())
}
