// A journal as it is looked at, and what is saved of one that is damaged.
use std::alloc::Global;
use std::test::Fail;
use tw_check::{Held, Kind, look, rescue};
use tw_world::Memory;

// A journal with the record of a task that is added with its status, at 1,700,000,000 seconds.
const ADDED: [u8; 110] = [
    2, 0, 0, 0, 8, 84, 87, 82, 69, 80, 76, 48, 50, 0, 0, 0, 0, 0, 0, 0, 29, 0, 0, 0, 0, 0, 0, 0, 0,
    1, 0, 0, 0, 76, 1, 0, 0, 0, 0, 3, 4, 1, 7, 7, 7, 7, 7, 7, 7, 7, 7, 7, 7, 7, 7, 7, 7, 7, 3, 7,
    7, 7, 7, 7, 7, 7, 7, 7, 7, 7, 7, 7, 7, 7, 7, 0, 0, 0, 6, 115, 116, 97, 116, 117, 115, 0, 1, 0,
    0, 0, 7, 112, 101, 110, 100, 105, 110, 103, 0, 0, 0, 0, 101, 83, 241, 0, 0, 0, 0, 0,
];

// The SHA-1 of `{}`, the snapshot of no task.
const OF_NO_TASK: [u8; 20] = [
    0xbf, 0x21, 0xa9, 0xe8, 0xfb, 0xc5, 0xa3, 0x84, 0x6f, 0xb0, 0x5b, 0x4f, 0xa0, 0x85, 0x9e, 0x09,
    0x17, 0xb2, 0x20, 0x2f,
];

fn put(file: &mut Vec<u8>, at: usize, byte: u8) {
    if at < file.len() {
        file[at] = byte;
    }
}

// That journal with this first byte, these last bytes of its slots, and bytes after it.
fn file_of(alloc: Global, first: u8, slots: [u8; 2], after: &[u8]) -> Result<Vec<u8>, Memory> {
    let mut file = ADDED.to_vec(alloc)?;
    file.extend_from_slice(after)?;
    put(&mut file, 0, first);
    put(&mut file, 20, slots[0]);
    put(&mut file, 28, slots[1]);
    Ok(file)
}

fn is_of_added(held: &Held) -> bool {
    let at = match held.changed {
        Some(at) => at.seconds,
        None => 0,
    };
    held.tasks == 1
        && held.pending == 3
        && held.base.is_nil()
        && at == 1_700_000_000
        && held.digest == Some(OF_NO_TASK)
}

fn is_told(alloc: Global, file: &[u8]) -> bool {
    match look(alloc, file) {
        Ok(held) => is_of_added(&held),
        Err(_) => false,
    }
}

fn is_saved(alloc: Global, file: &[u8], bytes: &[u8], is_older: bool) -> bool {
    match rescue(alloc, Kind::Tasks, file) {
        Ok(Some(saved)) => saved.is_older == is_older
            && saved.records == 1
            && saved.bytes.as_slice() == bytes,
        _ => false,
    }
}

#[test]
fn what_is_pending_is_not_in_the_digest(rt: HostRuntime) -> Result<(), Fail> {
    assert!(rt; is_told(rt.alloc(), &ADDED));
    Ok(())
}

// Whether a record that passes the end is left out.
fn is_cut(alloc: Global) -> Result<bool, Memory> {
    let file = file_of(alloc, 2, [29, 0], &[1, 0, 0, 0, 9, 5])?;
    Ok(is_saved(alloc, &file, &ADDED, false))
}

#[test]
fn a_broken_record_is_left_out(rt: HostRuntime) -> Result<(), Fail> {
    assert!(rt; is_cut(rt.alloc())?);
    Ok(())
}

// Whether the second slot counts, which holds the offset of the whole record, if the first one holds that of a broken one.
fn is_turned(alloc: Global) -> Result<bool, Memory> {
    let file = file_of(alloc, 2, [110, 29], &[9])?;
    let older = file_of(alloc, 3, [110, 29], &[])?;
    Ok(is_saved(alloc, &file, &older, true))
}

#[test]
fn if_no_record_is_whole_the_other_slot_counts(rt: HostRuntime) -> Result<(), Fail> {
    assert!(rt; is_turned(rt.alloc())?);
    Ok(())
}
