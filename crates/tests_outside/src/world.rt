use std::alloc::Global;
use std::collections::BTreeMap;
use std::test::Fail;
use tw_world::{Disk, IdWords, Memory, MemoryDisk, Moment, Text};

const SEED: [u8; 32] = [
    0, 1, 2, 3, 4, 5, 6, 7, 8, 9, 10, 11, 12, 13, 14, 15, 16, 17, 18, 19, 20, 21, 22, 23, 24, 25,
    26, 27, 28, 29, 30, 30,
];

// The first and the second identifier of that seed.
const DRAWN: [[u8; 16]; 2] = [
    [0, 1, 2, 3, 4, 5, 0x46, 7, 0x88, 9, 10, 11, 12, 13, 14, 15],
    [
        16, 18, 20, 22, 24, 26, 0x4c, 30, 0xa0, 34, 36, 38, 40, 42, 44, 46,
    ],
];

#[test]
fn a_seed_draws_its_identifiers(rt: HostRuntime) {
    let mut words = IdWords::from_seed(SEED);
    let first = words.next();
    let second = words.next();
    assert!(rt; [first, second] == DRAWN);
}

#[test]
fn a_moment_ends_before_the_year_9999(rt: HostRuntime) {
    let first = Moment::new(0, 0).is_some();
    let last = Moment::new(253_370_764_799, 999_999_999).is_some();
    assert!(rt; first && last);
    let late = Moment::new(253_370_764_800, 0).is_none();
    assert!(rt; late && Moment::new(0, 1_000_000_000).is_none());
}

// Short texts and long ones, as they are ordered.
const RISING: [&str; 6] = ["", "Tag", "tag_", "tag_of seventeen.", "tag_z", "tagé"];

// The places of the texts by these.
fn places(alloc: Global) -> Result<BTreeMap<Text, usize>, Memory> {
    let mut places = BTreeMap::new(alloc);
    for (place, text) in RISING.iter().enumerate().rev() {
        places.insert(Text::from_str(alloc, text)?, place)?;
    }
    Ok(places)
}

fn are_in_order(places: &BTreeMap<Text, usize>) -> bool {
    for ((text, place), want) in places.iter().zip(RISING.iter()) {
        if text.as_str() != *want || RISING.get(*place) != Some(want) {
            return false;
        }
    }
    places.len() == RISING.len()
}

// A text is a key.
#[test]
fn texts_are_ordered_by_their_bytes(rt: HostRuntime) -> Result<(), Fail> {
    let places = places(rt.alloc())?;
    assert!(rt; are_in_order(&places));
    Ok(())
}

// Whether bytes that lie inside are written.
fn writes(disk: &mut MemoryDisk, at: usize, bytes: &[u8]) -> bool {
    let end = disk.bytes().len();
    at <= end && bytes.len() <= end - at && disk.write_at(at as u64, bytes).is_ok()
}

// Whether an image after so many calls holds this.
fn has_image(disk: &MemoryDisk, calls: u64, pick: u8, want: &[u8]) -> Result<bool, Memory> {
    if calls > disk.calls() || pick > 3 {
        return Ok(false);
    }
    Ok(disk.image(calls, pick)?.as_slice() == want)
}

// A disk behind five calls: a write of two bytes, a sync, a write of two bytes, a write of one byte, a longer length.
fn changed(alloc: Global) -> Result<MemoryDisk, Fail> {
    let mut disk = MemoryDisk::new(alloc, [1, 2, 3, 4].to_vec(alloc)?, Vec::new(alloc))?;
    let first = writes(&mut disk, 0, &[9, 9]);
    let stable = disk.sync().is_ok();
    let second = writes(&mut disk, 1, &[7, 7]);
    let third = writes(&mut disk, 3, &[8]);
    let longer = disk.set_len(5).is_ok();
    if first & stable & second & third & longer {
        Ok(disk)
    } else {
        Err(Fail::new("not changed"))
    }
}

// What each pick of an image holds after so many of these calls.
const IMAGES: [(u64, u8, &[u8]); 9] = [
    (0, 1, &[1, 2, 3, 4]),
    (1, 0, &[1, 2, 3, 4]),
    (1, 1, &[9, 9, 3, 4]),
    (1, 2, &[255, 255, 3, 4]),
    (2, 3, &[9, 9, 3, 4]),
    (5, 0, &[9, 9, 3, 4]),
    (5, 1, &[9, 7, 7, 8, 0]),
    (5, 2, &[9, 255, 255, 8, 0]),
    (5, 3, &[9, 255, 255, 4, 0]),
];

// How many of the images are as wanted, up to the first that is not.
fn images_so_far(disk: &MemoryDisk) -> Result<usize, Memory> {
    for (number, (calls, pick, want)) in IMAGES.iter().enumerate() {
        if !has_image(disk, *calls, *pick, want)? {
            return Ok(number);
        }
    }
    Ok(IMAGES.len())
}

#[test]
fn an_image_goes_by_its_pick(rt: HostRuntime) -> Result<(), Fail> {
    let disk = changed(rt.alloc())?;
    assert_eq!(rt; images_so_far(&disk)?, IMAGES.len());
    Ok(())
}
