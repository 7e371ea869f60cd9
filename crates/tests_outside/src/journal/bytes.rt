// Each byte of a file that is another.
use super::{ADDED, THREE, disk_of, journal_on, refusal};
use std::alloc::Global;
use std::test::Fail;
use tw_journal::OpenError;

// A file whose second slot counts: the record of the body 9, which replaced two others, stands at 43, and after it those of the
// bodies 2, 3 4 and 5 at 49, 55 and 62.
const AFTER_CHECKPOINT: [u8; 68] = [
    3, 0, 0, 0, 8, 84, 87, 82, 69, 80, 76, 48, 49, 0, 0, 0, 0, 0, 0, 0, 29, 0, 0, 0, 0, 0, 0, 0,
    43, 1, 0, 0, 0, 1, 2, 1, 0, 0, 0, 2, 3, 4, 0, 1, 0, 0, 0, 1, 9, 1, 0, 0, 0, 1, 2, 1, 0, 0, 0,
    2, 3, 4, 1, 0, 0, 0, 1, 5,
];

// Bytes of which that at an index is 255.
fn marred(alloc: Global, content: &[u8], at: usize) -> Result<Vec<u8>, Fail> {
    let mut content = content.to_vec(alloc)?;
    *content.get_mut(at).ok_or("no byte")? = 255;
    Ok(content)
}

// How many records a file has where one of its bytes is 255, and the byte of the first body; or why it is not opened, which
// leaves it as it is.
fn answer_at(
    alloc: Global,
    content: &[u8],
    at: usize,
) -> Result<Result<(u64, u8), OpenError>, Fail> {
    let content = marred(alloc, content, at)?;
    let mut disk = disk_of(alloc, &content, &[])?;
    match refusal(alloc, &mut disk) {
        Some(error) if disk.bytes() == content.as_slice() => Ok(Err(error)),
        Some(_) => Err(Fail::new("another file")),
        None => Ok(Ok(journal_on(alloc, &content)?.first(alloc)?)),
    }
}

type Answer = Result<(u64, u8), OpenError>;

// A byte of a gate, a length or the magic that is 255 damages its record, and one of a body is read as it is.
fn answer_of_three(at: usize) -> Answer {
    match at {
        0..=12 => Err(OpenError::Damaged { offset: 0 }),
        13..=17 => Err(OpenError::Damaged { offset: 13 }),
        19..=23 => Err(OpenError::Damaged { offset: 19 }),
        26..=30 => Err(OpenError::Damaged { offset: 26 }),
        18 => Ok((3, 255)),
        _ => Ok((3, 2)),
    }
}

// How many bytes of three records are answered as wanted, up to the first that is not.
fn three_so_far(alloc: Global) -> Result<usize, Fail> {
    for at in 0..32 {
        if answer_at(alloc, &THREE, at)? != answer_of_three(at) {
            return Ok(at);
        }
    }
    Ok(32)
}

#[test]
fn each_byte_of_three_records_may_be_another(rt: HostRuntime) -> Result<(), Fail> {
    assert_eq!(rt; three_so_far(rt.alloc())?, 32);
    Ok(())
}

// A byte of the selector, the magic or the slot that counts damages the file. The other slot may hold anything.
fn answer_of_areas(at: usize) -> Answer {
    match at {
        0..=20 => Err(OpenError::Damaged { offset: 0 }),
        29..=33 => Err(OpenError::Damaged { offset: 29 }),
        34 => Ok((1, 255)),
        _ => Ok((1, 2)),
    }
}

fn areas_so_far(alloc: Global) -> Result<usize, Fail> {
    for at in 0..35 {
        if answer_at(alloc, &ADDED, at)? != answer_of_areas(at) {
            return Ok(at);
        }
    }
    Ok(35)
}

#[test]
fn each_byte_of_a_file_with_areas_may_be_another(rt: HostRuntime) -> Result<(), Fail> {
    assert_eq!(rt; areas_so_far(rt.alloc())?, 35);
    Ok(())
}

// The slot that does not count may hold anything, and so may what the checkpoint replaced.
fn answer_of_checkpoint(at: usize) -> Answer {
    match at {
        0..=12 | 21..=28 => Err(OpenError::Damaged { offset: 0 }),
        43..=47 => Err(OpenError::Damaged { offset: 43 }),
        49..=53 => Err(OpenError::Damaged { offset: 49 }),
        55..=59 => Err(OpenError::Damaged { offset: 55 }),
        62..=66 => Err(OpenError::Damaged { offset: 62 }),
        48 => Ok((4, 255)),
        _ => Ok((4, 9)),
    }
}

fn checkpoint_so_far(alloc: Global) -> Result<usize, Fail> {
    for at in 0..68 {
        if answer_at(alloc, &AFTER_CHECKPOINT, at)? != answer_of_checkpoint(at) {
            return Ok(at);
        }
    }
    Ok(68)
}

#[test]
fn each_byte_around_a_checkpoint_may_be_another(rt: HostRuntime) -> Result<(), Fail> {
    assert_eq!(rt; checkpoint_so_far(rt.alloc())?, 68);
    Ok(())
}
