// A machine of a user, in memory, and the command lines that are run on it.

use crate::given::Given;
use crate::stop::Stop;
use crate::way::{SETTINGS, Way};
use std::alloc::Global;
use timew_cli::timew_run;
use tw_cli::task_run;
use tw_world::{Folder, Memory, MemoryDisk, MemoryFolder, MemorySink};

/// A machine with its tasks and its hours. One with a name syncs.
pub struct Machine {
    alloc: Global,
    pub name: String,
    tasks: MemoryDisk,
    months: MemoryFolder,
    hours: MemoryDisk,
}

// It is written out, so that a caller does not prove again how each part is dropped.
impl Drop for Machine {
    fn drop(self) {
        let Machine {
            alloc: _,
            name: _,
            tasks: _,
            months: _,
            hours: _,
        } = self;
    }
}

/// How a command line ended, and what it wrote on both streams.
#[derive(Drop)]
pub struct Ended {
    pub status: u8,
    pub out: MemorySink,
    pub err: MemorySink,
}

fn empty_disk(alloc: Global) -> Result<MemoryDisk, Memory> {
    MemoryDisk::new(alloc, Vec::new(alloc), Vec::new(alloc))
}

impl Machine {
    /// A machine without tasks and hours.
    pub fn new(alloc: Global, name: &str) -> Result<Machine, Memory> {
        let name = String::from_str(alloc, name)?;
        let tasks = empty_disk(alloc)?;
        let hours = empty_disk(alloc)?;
        let months = MemoryFolder::new(alloc, Vec::new(alloc), Vec::new(alloc))?;
        Ok(Machine {
            alloc,
            name,
            tasks,
            months,
            hours,
        })
    }

    /// How many bytes the records of the tasks and of the hours have.
    pub fn sizes(&self) -> (usize, usize) {
        (self.tasks.bytes().len(), self.hours.bytes().len())
    }

    /// The bytes of a month file, if it is there.
    pub fn file(&mut self, name: &str) -> Option<Vec<u8>> {
        self.months.read(self.alloc, name).ok()?
    }

    /// Puts a month file, as a hand would.
    pub fn put_file(&mut self, name: &str, text: &str) -> Result<(), Stop> {
        match self.months.replace(name, text.as_bytes()) {
            Ok(()) => Ok(()),
            Err(_) => Err(Stop::Memory),
        }
    }

    // The settings of the scene, after those by which a machine with a name syncs.
    fn settings(&self, given: &Given) -> Result<Vec<u8>, Memory> {
        let mut settings = Vec::new(self.alloc);
        if !self.name.is_empty() {
            settings.extend_from_slice(SETTINGS.as_bytes())?;
        }
        settings.extend_from_slice(given.settings.as_bytes())?;
        Ok(settings)
    }

    /// Runs a line of `tw task`.
    pub fn run_task(
        &mut self,
        words: &Vec<String>,
        given: &mut Given,
        way: &mut Way,
    ) -> Result<Ended, Memory> {
        let settings = self.settings(given)?;
        let mut hooks = given.hooks.spawner()?;
        let mut input = given.source()?;
        let mut ended = nothing_written(given)?;
        let outcome = task_run(
            self.alloc,
            words,
            &settings,
            given.now,
            &given.zone,
            &mut given.ids,
            &mut self.tasks,
            way,
            &mut input,
            &mut ended.out,
            &mut ended.err,
            &mut hooks,
            &mut self.months,
            &mut self.hours,
        );
        ended.status = outcome.status;
        Ok(ended)
    }

    /// Runs a line of `tw timew`.
    pub fn run_timew(&mut self, words: &Vec<String>, given: &Given) -> Result<Ended, Memory> {
        let mut ended = nothing_written(given)?;
        let outcome = timew_run(
            self.alloc,
            words,
            given.now,
            &given.zone,
            &mut self.months,
            &mut self.hours,
            &mut ended.out,
            &mut ended.err,
        );
        ended.status = outcome.status;
        Ok(ended)
    }
}

// A line that wrote nothing yet.
fn nothing_written(given: &Given) -> Result<Ended, Memory> {
    let out = given.output()?;
    let err = MemorySink::new(given.alloc, Vec::new(given.alloc), Vec::new(given.alloc))?;
    Ok(Ended {
        status: 0,
        out,
        err,
    })
}
