// Runs of command lines over damaged stores.

use crate::given::Given;
use crate::runs::{disk_of, run_alone};
use std::alloc::Global;
use std::test::Fail;
use tw_cli::Cause;

const SECOND: u64 = 1_700_000_000;

// How many tasks a store has, or at which offset it is damaged.
type Found = Result<u64, u64>;

// A store: where its form and its records begin, how many tasks it holds, and the bytes of which 255 says something else than that
// their record is damaged or than what was there.
struct Layout {
    starts: &'static [u64],
    tasks: u64,
    others: &'static [(u64, Found)],
}

impl Layout {
    // The offset of the record, or of the form, that has the byte at this one.
    fn record_of(&self, at: u64) -> u64 {
        let mut record = 0;
        for start in self.starts {
            if *start <= at {
                record = *start;
            }
        }
        record
    }

    // What is found if the byte at this offset is 255 and changes something: its record is damaged, or the other thing that it says.
    fn damage_at(&self, at: u64) -> Found {
        for (place, found) in self.others {
            if *place == at {
                return *found;
            }
        }
        Err(self.record_of(at))
    }
}

// Two added tasks: the form has 29 bytes, and the commit of a task `Buy milk` 250. If the last byte of the slot that counts is 255,
// the records begin at 255: there the value of a property of the first commit reads as a record, `pending`, which is no step. If it is
// the last byte of the length of the first commit, the record takes ten bytes of the next one, and what comes after them is no gate.
const TWO_COMMITS: Layout = Layout {
    starts: &[0, 29, 279],
    tasks: 2,
    others: &[(20, Err(255)), (33, Err(289))],
};

// A task in a state, and three added ones after it. The state has 290 bytes. If the last byte of the slot that counts is 255, the
// records begin at 255: there the 0 of a moment closes the gate, and the store is empty. Each of the first two commits takes ten
// bytes of the next one if the last byte of its length is 255.
const STATE_AND_COMMITS: Layout = Layout {
    starts: &[0, 29, 319, 569, 819],
    tasks: 4,
    others: &[(28, Ok(0)), (323, Err(579)), (573, Err(829))],
};

// A store to which tasks with these identifiers were added.
fn with_adds(alloc: Global, store: &[u8], firsts: &[u128]) -> Result<Vec<u8>, Fail> {
    let mut disk = disk_of(alloc, store, &[])?;
    for first in firsts {
        let given = Given::new(*first, SECOND);
        let _ = run_alone(alloc, &given, "add|Buy|milk", &mut disk)?;
    }
    Ok(disk.bytes().to_vec(alloc)?)
}

// The form of a file whose second slot counts, and its first record up to what is pending: a state of 285 bytes over no version, with
// the number of one task, without a task that a base left, and with six operations.
const STATE: &[u8] = b"\x03\0\0\0\x08TWREPL01\0\0\0\0\0\0\0\0\0\0\0\0\0\0\0\x1d\
    \x01\0\0\x01\x1d\x05\0\0\0\0\0\0\0\0\0\0\0\0\0\0\0\0\
    \0\0\0\x01\x01\0\0\0\0\0\0\x40\0\x80\0\0\0\0\0\0\x01\0\0\0\0\0\0\0\x06";

// A store with a state in which one task is pending, as a commit makes it: its operations come after the form, the gate, the length and
// six bytes.
fn state(alloc: Global) -> Result<Vec<u8>, Fail> {
    let one = with_adds(alloc, &[], &[1])?;
    let mut bytes = STATE.to_vec(alloc)?;
    bytes.extend_from_slice(one.get(40..).ok_or("too short")?)?;
    Ok(bytes)
}

// The number that a line of one digit is, or 10.
fn digit_of(line: &[u8]) -> u64 {
    match line {
        [digit, b'\n'] => u64::from(digit.saturating_sub(b'0')),
        _ => 10,
    }
}

// Counts the tasks of a store whose byte at this offset is 255.
fn found_at(alloc: Global, whole: &[u8], at: usize) -> Result<Found, Fail> {
    let mut bytes = whole.to_vec(alloc)?;
    *bytes.get_mut(at).ok_or("no byte")? = 255;
    let mut disk = disk_of(alloc, &bytes, &[])?;
    let ended = run_alone(alloc, &Given::new(9, SECOND), "count", &mut disk)?;
    match &ended.outcome.cause {
        Cause::Done => Ok(Ok(digit_of(ended.out.bytes()))),
        Cause::Damaged { offset } => Ok(Err(*offset)),
        _ => Err(Fail::new("another end")),
    }
}

// How many bytes of a store may each be 255 and change no task, if each other one is found as its layout says.
fn taken(alloc: Global, whole: &[u8], layout: &Layout) -> Result<Option<u64>, Fail> {
    let mut taken: u64 = 0;
    for at in 0..whole.len() {
        let found = found_at(alloc, whole, at)?;
        if found == Ok(layout.tasks) {
            taken = taken.saturating_add(1);
        } else if found != layout.damage_at(at as u64) {
            return Ok(None);
        }
    }
    Ok(Some(taken))
}

// Of each moment seven bytes may be 255 and leave it in range: the last four of the seconds, and the last three of the nanoseconds. A
// commit has four moments. And so may the eight of the slot that does not count.
#[test]
fn a_byte_of_255_is_damage_at_its_record_or_changes_no_task(rt: HostRuntime) -> Result<(), Fail> {
    let alloc = rt.alloc();
    let whole = with_adds(alloc, &[], &[1, 2])?;
    assert_eq!(rt; whole.len(), 529);
    assert!(rt; taken(alloc, whole.as_slice(), &TWO_COMMITS)? == Some(2 * 4 * 7 + 8));
    Ok(())
}

// The same of a state, whose base may be any version.
#[test]
fn a_byte_of_255_in_a_state_is_damage_or_changes_no_task(rt: HostRuntime) -> Result<(), Fail> {
    let alloc = rt.alloc();
    let whole = with_adds(alloc, state(alloc)?.as_slice(), &[2, 3, 4])?;
    assert_eq!(rt; whole.len(), 1069);
    assert!(rt; taken(alloc, whole.as_slice(), &STATE_AND_COMMITS)? == Some(4 * 4 * 7 + 8 + 16));
    Ok(())
}
