// Stops and failing calls while a task is added or taken back.

use crate::given::{Ended, Given};
use crate::link::link_over;
use crate::runs::{disk_of, image_of, run_given};
use crate::stores::{NONE, ONE, SECOND, TWO, side_of, with_adds};
use std::alloc::Global;
use std::test::Fail;
use tw_cli::Cause;
use tw_world::MemoryDisk;

// A line over a store of so many added tasks, and what the store exports before it and after it.
#[derive(Clone, Copy)]
struct Change {
    adds: u8,
    line: &'static str,
    before: &'static str,
    after: &'static str,
}

const CHANGES: [Change; 3] = [
    Change {
        adds: 0,
        line: "add|Buy|milk",
        before: NONE,
        after: ONE,
    },
    Change {
        adds: 1,
        line: "add|Buy|milk",
        before: ONE,
        after: TWO,
    },
    Change {
        adds: 1,
        line: "undo",
        before: ONE,
        after: NONE,
    },
];

// The count over a file of the first version, which it brings to the second.
const COUNTED: Change = Change {
    adds: 1,
    line: "count",
    before: ONE,
    after: ONE,
};

// A row of records, as files of the first version were made.
const ROW: &[u8] = b"\x01\0\0\0\x08TWREPL01";

// The same store as a row of records.
fn row_of(alloc: Global, bytes: &[u8]) -> Result<MemoryDisk, Fail> {
    let mut row = ROW.to_vec(alloc)?;
    row.extend_from_slice(bytes.get(29..).ok_or("too short")?)?;
    disk_of(alloc, &row, &[])
}

impl Change {
    // Runs the line over an output whose calls with these numbers fail.
    fn run(&self, alloc: Global, disk: &mut MemoryDisk, out_fails: &[u64]) -> Result<Ended, Fail> {
        let given = Given::new(u128::from(self.adds) + 1, SECOND);
        let mut none = link_over(alloc, &[])?;
        run_given(alloc, &given, self.line, disk, &mut none, out_fails)
    }

    // The disk after the line, whose calls are those of the line.
    fn done(&self, alloc: Global) -> Result<MemoryDisk, Fail> {
        let start = with_adds(alloc, self.adds)?;
        let mut disk = disk_of(alloc, start.bytes(), &[])?;
        let _ = self.run(alloc, &mut disk, &[])?;
        Ok(disk)
    }

    // The same over a row of records.
    fn done_over_row(&self, alloc: Global) -> Result<MemoryDisk, Fail> {
        let start = with_adds(alloc, self.adds)?;
        let mut disk = row_of(alloc, start.bytes())?;
        let ended = self.run(alloc, &mut disk, &[])?;
        if ended.said() == Some(b"1\n".as_slice()) {
            Ok(disk)
        } else {
            Err(Fail::new("not counted"))
        }
    }

    // Whether these bytes are a store after the line, or one before it, or none of them.
    fn side(&self, alloc: Global, bytes: &[u8]) -> Result<Option<bool>, Fail> {
        side_of(alloc, bytes, self.before, self.after)
    }

    // Whether each image after so many calls is a store after the line, or before it if the line had calls left.
    fn each_opens(&self, alloc: Global, disk: &MemoryDisk, calls: u64) -> Result<bool, Fail> {
        let is_end = calls == disk.calls();
        for pick in 0..4 {
            match self.side(alloc, &image_of(disk, calls, pick)?)? {
                Some(true) => {}
                Some(false) if !is_end => {}
                _ => return Ok(false),
            }
        }
        Ok(true)
    }

    // The same after each number of calls.
    fn outlives_stops(&self, alloc: Global, disk: &MemoryDisk) -> Result<bool, Fail> {
        for calls in 0..disk.calls().saturating_add(1) {
            if !self.each_opens(alloc, disk, calls)? {
                return Ok(false);
            }
        }
        Ok(true)
    }

    // Whether the line is refused if the call with this number fails, and leaves the store before it or, if it is the last call, after
    // it: the last one is the sync of the byte that opens the record's gate.
    fn is_refused_at(&self, alloc: Global, failing: u64, is_last: bool) -> Result<bool, Fail> {
        let start = with_adds(alloc, self.adds)?;
        let mut disk = disk_of(alloc, start.bytes(), &[failing])?;
        let ended = self.run(alloc, &mut disk, &[])?;
        let is_told = ended.is(3, &Cause::DiskFault)
            && ended.said() == Some(b"task: the journal failed\n".as_slice());
        Ok(is_told && self.side(alloc, disk.bytes())? == Some(is_last))
    }

    // The same of each call.
    fn outlives_faults(&self, alloc: Global) -> Result<bool, Fail> {
        let calls = self.done(alloc)?.calls();
        for failing in 0..calls {
            if !self.is_refused_at(alloc, failing, failing + 1 == calls)? {
                return Ok(false);
            }
        }
        Ok(true)
    }

    // Whether an output that fails is told, and the store is one after the line.
    fn outlives_the_output(&self, alloc: Global) -> Result<bool, Fail> {
        let start = with_adds(alloc, self.adds)?;
        let mut disk = disk_of(alloc, start.bytes(), &[])?;
        let ended = self.run(alloc, &mut disk, &[0])?;
        let is_told = ended.is(6, &Cause::OutFault)
            && ended.said() == Some(b"task: output failed\n".as_slice());
        Ok(is_told && self.side(alloc, disk.bytes())? == Some(true))
    }
}

// How many of the changes outlive each stop, up to the first that does not.
fn stopped_so_far(alloc: Global) -> Result<usize, Fail> {
    for (number, change) in CHANGES.iter().enumerate() {
        let disk = change.done(alloc)?;
        if !change.outlives_stops(alloc, &disk)? {
            return Ok(number);
        }
    }
    Ok(CHANGES.len())
}

// Whether a file of the first version opens to the same store wherever the count over it is stopped.
fn is_upgraded(alloc: Global) -> Result<bool, Fail> {
    let disk = COUNTED.done_over_row(alloc)?;
    COUNTED.outlives_stops(alloc, &disk)
}

#[test]
fn a_stop_leaves_a_change_or_none(rt: HostRuntime) -> Result<(), Fail> {
    assert_eq!(rt; stopped_so_far(rt.alloc())?, CHANGES.len());
    assert!(rt; is_upgraded(rt.alloc())?);
    Ok(())
}

// How many of the changes outlive each failing call of the disk and of the output, up to the first that does not.
fn failed_so_far(alloc: Global) -> Result<usize, Fail> {
    for (number, change) in CHANGES.iter().enumerate() {
        if !change.outlives_faults(alloc)? || !change.outlives_the_output(alloc)? {
            return Ok(number);
        }
    }
    Ok(CHANGES.len())
}

#[test]
fn a_call_that_fails_is_told_and_leaves_a_change_or_none(rt: HostRuntime) -> Result<(), Fail> {
    assert_eq!(rt; failed_so_far(rt.alloc())?, CHANGES.len());
    Ok(())
}
