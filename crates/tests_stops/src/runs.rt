// A machine of a user: its disk, and the command lines that are run on it.

use crate::given::{Ended, Given};
use crate::link::link_over;
use std::alloc::Global;
use std::test::Fail;
use tw_cli::{Outcome, task_run};
use tw_files::FailingFolder;
use tw_http::Link;
use tw_spawn::MemorySpawner;
use tw_time::Zone;
use tw_world::{Disk, FailingDisk, Folder, IdWords, MemoryDisk, MemorySink, MemorySource, Moment};

/// A disk with these bytes, whose calls with these numbers fail.
pub(crate) fn disk_of(alloc: Global, bytes: &[u8], fails: &[u64]) -> Result<MemoryDisk, Fail> {
    if bytes.len() >= 1 << 20 {
        return Err(Fail::new("a long store"));
    }
    Ok(MemoryDisk::new(alloc, bytes.to_vec(alloc)?, fails.to_vec(alloc)?)?)
}

/// A machine with an empty disk.
pub(crate) fn machine(alloc: Global) -> Result<MemoryDisk, Fail> {
    disk_of(alloc, &[], &[])
}

/// An image that a crash right after so many calls may leave of a disk.
pub(crate) fn image_of(disk: &MemoryDisk, calls: u64, pick: u8) -> Result<Vec<u8>, Fail> {
    if calls > disk.calls() || pick > 3 {
        return Err(Fail::new("no image"));
    }
    Ok(disk.image(calls, pick)?)
}

// A moment of so many seconds.
fn moment(seconds: u64) -> Result<Moment, Fail> {
    match Moment::new(seconds, 0) {
        Some(moment) => Ok(moment),
        None => Err(Fail::new("no moment")),
    }
}

fn words_of(alloc: Global, line: &str) -> Result<Vec<String>, Fail> {
    let mut words = Vec::new(alloc);
    for word in line.split('|') {
        words.push(String::from_str(alloc, word)?)?;
    }
    Ok(words)
}

fn source_of(alloc: Global, given: &Given<'_>) -> Result<MemorySource, Fail> {
    let content = given.input.as_bytes().to_vec(alloc)?;
    Ok(MemorySource::new(alloc, content, Vec::new(alloc))?)
}

fn no_hooks(alloc: Global) -> Result<MemorySpawner, Fail> {
    Ok(MemorySpawner::new(alloc, Vec::new(alloc), Vec::new(alloc), Vec::new(alloc))?)
}

fn sink_of(alloc: Global, fails: &[u64]) -> Result<MemorySink, Fail> {
    Ok(MemorySink::new(alloc, Vec::new(alloc), fails.to_vec(alloc)?)?)
}

// The streams of a run.
struct Streams {
    input: MemorySource,
    out: MemorySink,
    err: MemorySink,
}

// It is written out, so that a caller does not prove again how each part is dropped.
impl Drop for Streams {
    fn drop(self) {
        let Streams {
            input: _,
            out: _,
            err: _,
        } = self;
    }
}

impl Streams {
    // An input as it is given, and an output whose calls with these numbers fail.
    fn new(alloc: Global, given: &Given<'_>, out_fails: &[u64]) -> Result<Streams, Fail> {
        let input = source_of(alloc, given)?;
        let out = sink_of(alloc, out_fails)?;
        let err = sink_of(alloc, &[])?;
        Ok(Streams { input, out, err })
    }

    fn ended(self, outcome: Outcome) -> Ended {
        let Streams { input: _, out, err } = self;
        Ended { outcome, out, err }
    }
}

/// Runs a line of words that are parted by bars, over an output whose calls with these numbers fail, and a folder and a journal of hours.
pub(crate) fn run_over<L: Link, F: Folder, J: Disk>(
    alloc: Global,
    given: &Given<'_>,
    line: &str,
    disk: &mut MemoryDisk,
    link: &mut L,
    out_fails: &[u64],
    months: &mut F,
    track: &mut J,
) -> Result<Ended, Fail> {
    let now = moment(given.second)?;
    let words = words_of(alloc, line)?;
    let settings = given.settings.as_bytes().to_vec(alloc)?;
    let mut streams = Streams::new(alloc, given, out_fails)?;
    let mut ids = IdWords {
        start: given.first,
        step: 1,
    };
    let zone = Zone::utc();
    let mut hooks = no_hooks(alloc)?;
    let outcome = task_run(
        alloc,
        &words,
        &settings,
        now,
        &zone,
        &mut ids,
        disk,
        link,
        &mut streams.input,
        &mut streams.out,
        &mut streams.err,
        &mut hooks,
        months,
        track,
    );
    Ok(streams.ended(outcome))
}

/// The same over hours whose every call fails.
pub(crate) fn run_given<L: Link>(
    alloc: Global,
    given: &Given<'_>,
    line: &str,
    disk: &mut MemoryDisk,
    link: &mut L,
    out_fails: &[u64],
) -> Result<Ended, Fail> {
    let mut months = FailingFolder::new();
    let mut track = FailingDisk::new();
    run_over(
        alloc,
        given,
        line,
        disk,
        link,
        out_fails,
        &mut months,
        &mut track,
    )
}

/// The same over a link and an output that do not fail.
pub(crate) fn run_alone(
    alloc: Global,
    given: &Given<'_>,
    line: &str,
    disk: &mut MemoryDisk,
) -> Result<Ended, Fail> {
    let mut none = link_over(alloc, &[])?;
    run_given(alloc, given, line, disk, &mut none, &[])
}
