// Runs of `tw timew` over machines in memory, which may fail.

use std::alloc::Global;
use std::test::Fail;
use timew_cli::timew_run;
use tw_time::Zone;
use tw_world::{Folder, MemoryDisk, MemoryFolder, MemorySink, Moment};

mod many;
mod records;
mod stops;

const ONE: &str = "inc 20260105T090000Z - 20260105T090005Z # code\n";

const TWO: &str =
    "inc 20260105T090000Z - 20260105T090002Z # code\ninc 20260105T090002Z - 20260105T090005Z # code\n";

fn words_of(alloc: Global, line: &str) -> Result<Vec<String>, Fail> {
    let mut words = Vec::new(alloc);
    for word in line.split_whitespace() {
        words.push(String::from_str(alloc, word)?)?;
    }
    Ok(words)
}

fn push_bytes(told: &mut String, bytes: &[u8]) -> Result<(), Fail> {
    match std::str::from_utf8(bytes) {
        Ok(text) => Ok(told.push_str(text)?),
        Err(_) => Err(Fail::from("no text")),
    }
}

// 2026-01-05T10:00:00Z.
const NOW: Moment = Moment {
    seconds: 1_767_607_200,
    nanos: 0,
};

fn sink(alloc: Global) -> Result<MemorySink, Fail> {
    Ok(MemorySink::new(alloc, Vec::new(alloc), Vec::new(alloc))?)
}

// A folder whose calls with these numbers fail, and that holds a text for January.
fn folder_with(alloc: Global, text: &str, fails: &[u64]) -> Result<MemoryFolder, Fail> {
    let mut files = Vec::new(alloc);
    let name = String::from_str(alloc, "2026-01.data")?;
    files.push((name, text.as_bytes().to_vec(alloc)?))?;
    Ok(MemoryFolder::new(alloc, files, fails.to_vec(alloc)?)?)
}

// A disk with these bytes, of which there are few, and whose calls with these numbers fail.
fn disk_of(alloc: Global, content: &[u8], fails: &[u64]) -> Result<MemoryDisk, Fail> {
    if content.len() > 1_000_000 {
        return Err(Fail::from("too long"));
    }
    Ok(MemoryDisk::new(alloc, content.to_vec(alloc)?, fails.to_vec(alloc)?)?)
}

// A folder of month files, and their journal.
struct Machine {
    alloc: Global,
    folder: MemoryFolder,
    disk: MemoryDisk,
}

// It is written out, so that a caller does not prove again how each part is dropped.
impl Drop for Machine {
    fn drop(self) {
        let Machine {
            alloc: _,
            folder: _,
            disk: _,
        } = self;
    }
}

fn empty(alloc: Global) -> Result<Machine, Fail> {
    let folder = MemoryFolder::new(alloc, Vec::new(alloc), Vec::new(alloc))?;
    let disk = disk_of(alloc, &[], &[])?;
    Ok(Machine {
        alloc,
        folder,
        disk,
    })
}

// A machine that holds a text for January, over the journal on which `ONE` was written. The calls with these numbers fail.
fn holding(
    alloc: Global,
    text: &str,
    folder_fails: &[u64],
    disk_fails: &[u64],
) -> Result<Machine, Fail> {
    let mut one = empty(alloc)?;
    let _ = one.told("track 2026-01-05T09:00:00 - 2026-01-05T09:00:05 code")?;
    let folder = folder_with(alloc, text, folder_fails)?;
    let disk = disk_of(alloc, one.disk.bytes(), disk_fails)?;
    Ok(Machine {
        alloc,
        folder,
        disk,
    })
}

// A status and what was written, as one text.
fn told_by(alloc: Global, status: u8, out: &MemorySink, err: &MemorySink) -> Result<String, Fail> {
    let mut told = format!(in alloc; "{status} ")?;
    push_bytes(&mut told, out.bytes())?;
    push_bytes(&mut told, err.bytes())?;
    Ok(told)
}

impl Machine {
    // The status of a line.
    fn status_of(
        &mut self,
        line: &str,
        out: &mut MemorySink,
        err: &mut MemorySink,
    ) -> Result<u8, Fail> {
        let words = words_of(self.alloc, line)?;
        let outcome = timew_run(
            self.alloc,
            &words,
            NOW,
            &Zone::utc(),
            &mut self.folder,
            &mut self.disk,
            out,
            err,
        );
        Ok(outcome.status)
    }

    // The status of a line, and what it writes.
    fn told(&mut self, line: &str) -> Result<String, Fail> {
        let mut out = sink(self.alloc)?;
        let mut err = sink(self.alloc)?;
        let status = self.status_of(line, &mut out, &mut err)?;
        told_by(self.alloc, status, &out, &err)
    }

    // Whether a line has this status and writes this.
    fn tells(&mut self, line: &str, want: &str) -> Result<bool, Fail> {
        Ok(self.told(line)?.as_str() == want)
    }

    // Whether the file of January holds this, or is not there.
    fn holds(&mut self, want: &str) -> Result<bool, Fail> {
        let file = self.folder.read(self.alloc, "2026-01.data");
        Ok(match file.or(Err("no folder"))? {
            Some(bytes) => bytes.as_slice() == want.as_bytes(),
            None => want.is_empty(),
        })
    }

    // Whether a line has this status and writes this, and the file of January then holds that.
    fn leaves(&mut self, line: &str, want: &str, file: &str) -> Result<bool, Fail> {
        Ok(self.tells(line, want)? && self.holds(file)?)
    }
}
