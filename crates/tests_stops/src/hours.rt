// Stops between the stores of a command that drives hours.

use crate::given::Given;
use crate::link::link_over;
use crate::runs::{disk_of, image_of, machine, run_over};
use std::alloc::Global;
use std::test::Fail;
use tw_world::{Folder, MemoryDisk, MemoryFolder};

const OPEN: &str =
    "inc 20231114T221500Z # \"Buy milk\" Home # \"00000000-0000-4000-8000-000000000001\"\n";

const CLOSED: &str =
    "inc 20231114T221500Z - 20231114T221600Z # \"Buy milk\" Home # \"00000000-0000-4000-8000-000000000001\"\n";

// A line, the first identifier that it may draw, and its second.
type Line = (&'static str, u128, u64);

const STARTED: [Line; 2] = [
    ("add|Buy|milk|project:Home", 1, 1_700_000_000),
    ("1|start", 2, 1_700_000_100),
];

const DONE: Line = ("1|done", 2, 1_700_000_160);

const LATER: Line = ("add|X", 2, 1_700_000_300);

// The tasks, and the folder and the journal of hours.
struct Stores {
    tasks: MemoryDisk,
    months: MemoryFolder,
    track: MemoryDisk,
}

// It is written out, so that a caller does not prove again how each part is dropped.
impl Drop for Stores {
    fn drop(self) {
        let Stores {
            tasks: _,
            months: _,
            track: _,
        } = self;
    }
}

fn months_of(alloc: Global, text: &str) -> Result<MemoryFolder, Fail> {
    let mut files = Vec::new(alloc);
    files.push((
        String::from_str(alloc, "2023-11.data")?,
        text.as_bytes().to_vec(alloc)?,
    ))?;
    Ok(MemoryFolder::new(alloc, files, Vec::new(alloc))?)
}

impl Stores {
    fn empty(alloc: Global) -> Result<Stores, Fail> {
        let tasks = machine(alloc)?;
        let months = MemoryFolder::new(alloc, Vec::new(alloc), Vec::new(alloc))?;
        let track = machine(alloc)?;
        Ok(Stores {
            tasks,
            months,
            track,
        })
    }

    // Stores of these bytes.
    fn of(alloc: Global, tasks: &[u8], month: &str, track: &[u8]) -> Result<Stores, Fail> {
        let tasks = disk_of(alloc, tasks, &[])?;
        let months = months_of(alloc, month)?;
        let track = disk_of(alloc, track, &[])?;
        Ok(Stores {
            tasks,
            months,
            track,
        })
    }

    // Whether a line with the setting on is done.
    fn does(&mut self, alloc: Global, line: &Line) -> Result<bool, Fail> {
        let (words, first, second) = *line;
        let mut given = Given::new(first, second);
        given.settings = "timetrack=on\n";
        let mut none = link_over(alloc, &[])?;
        let ended = run_over(
            alloc,
            &given,
            words,
            &mut self.tasks,
            &mut none,
            &[],
            &mut self.months,
            &mut self.track,
        )?;
        Ok(ended.outcome.status == 0)
    }

    fn does_all(&mut self, alloc: Global, lines: &[Line]) -> Result<bool, Fail> {
        for line in lines {
            if !self.does(alloc, line)? {
                return Ok(false);
            }
        }
        Ok(true)
    }

    // Whether the month file is this text.
    fn holds(&mut self, alloc: Global, text: &str) -> Result<bool, Fail> {
        let file = self.months.read(alloc, "2023-11.data");
        Ok(match file.or(Err("not read"))? {
            Some(bytes) => bytes.as_slice() == text.as_bytes(),
            None => false,
        })
    }
}

// The stores once the task is started.
fn started(alloc: Global) -> Result<Stores, Fail> {
    let mut stores = Stores::empty(alloc)?;
    if stores.does_all(alloc, &STARTED)? && stores.holds(alloc, OPEN)? {
        Ok(stores)
    } else {
        Err(Fail::new("not started"))
    }
}

// The stores once it is done.
fn done(alloc: Global) -> Result<Stores, Fail> {
    let started = started(alloc)?;
    let mut stores = Stores::of(alloc, started.tasks.bytes(), OPEN, started.track.bytes())?;
    if stores.does(alloc, &DONE)? && stores.holds(alloc, CLOSED)? {
        Ok(stores)
    } else {
        Err(Fail::new("not done"))
    }
}

// Whether the next command leads from these tasks and this journal of hours, over the hours before, to this month.
fn is_mended(
    alloc: Global,
    tasks: &[u8],
    track: &[u8],
    month: &str,
    other: &str,
) -> Result<bool, Fail> {
    let mut stores = Stores::of(alloc, tasks, OPEN, track)?;
    let well = stores.does(alloc, &LATER)?;
    Ok(well && (stores.holds(alloc, month)? || stores.holds(alloc, other)?))
}

// Whether each image of the hours' journal after a call is mended, since the task is done.
fn track_is_mended(alloc: Global, done: &Stores, call: u64) -> Result<bool, Fail> {
    for pick in 0..4 {
        let image = image_of(&done.track, call, pick)?;
        if !is_mended(alloc, done.tasks.bytes(), &image, CLOSED, CLOSED)? {
            return Ok(false);
        }
    }
    Ok(true)
}

fn each_track_is_mended(alloc: Global, done: &Stores) -> Result<bool, Fail> {
    for call in 0..done.track.calls() {
        if !track_is_mended(alloc, done, call)? {
            return Ok(false);
        }
    }
    Ok(true)
}

// Whether each image of the tasks after a call leads to the hours of a task that is active or done.
fn task_is_followed(alloc: Global, done: &Stores, track: &[u8], call: u64) -> Result<bool, Fail> {
    for pick in 0..4 {
        let image = image_of(&done.tasks, call, pick)?;
        if !is_mended(alloc, &image, track, OPEN, CLOSED)? {
            return Ok(false);
        }
    }
    Ok(true)
}

fn each_task_is_followed(alloc: Global, done: &Stores, track: &[u8]) -> Result<bool, Fail> {
    for call in 0..done.tasks.calls() {
        if !task_is_followed(alloc, done, track, call)? {
            return Ok(false);
        }
    }
    Ok(true)
}

#[test]
fn a_stop_between_the_stores_is_mended(rt: HostRuntime) -> Result<(), Fail> {
    let alloc = rt.alloc();
    let before = started(alloc)?;
    let done = done(alloc)?;
    assert!(rt; each_track_is_mended(alloc, &done)?);
    assert!(rt; each_task_is_followed(alloc, &done, before.track.bytes())?);
    Ok(())
}
