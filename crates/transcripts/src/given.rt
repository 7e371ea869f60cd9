// What the commands of a scene are given beside their words.

use crate::hooks::Hooks;
use std::alloc::Global;
use tw_time::{Zone, read_extended};
use tw_world::{IdWords, Memory, MemorySink, MemorySource, Moment};

/// The moment at which a scene begins: 2023-11-14T22:13:20Z.
const FIRST: Moment = Moment {
    seconds: 1_700_000_000,
    nanos: 0,
};

/// What a command is given beside its words and its machine.
pub struct Given {
    pub alloc: Global,
    pub now: Moment,
    pub zone: Zone,
    pub ids: IdWords,
    pub settings: String,
    pub input: String,
    /// The numbers of the reads of the input that fail.
    pub input_fails: Vec<u64>,
    pub hooks: Hooks,
    pub output_fails: bool,
}

// It is written out, so that a caller does not prove again how each part is dropped.
impl Drop for Given {
    fn drop(self) {
        let Given {
            alloc: _,
            now: _,
            zone: _,
            ids: _,
            settings: _,
            input: _,
            input_fails: _,
            hooks: _,
            output_fails: _,
        } = self;
    }
}

impl Given {
    /// What a scene begins with: UTC, identifiers from 1 on, no settings, no input and no hooks.
    pub fn new(alloc: Global) -> Given {
        Given {
            alloc,
            now: FIRST,
            zone: Zone::utc(),
            ids: IdWords { start: 1, step: 1 },
            settings: String::new(alloc),
            input: String::new(alloc),
            input_fails: Vec::new(alloc),
            hooks: Hooks::none(alloc),
            output_fails: false,
        }
    }

    /// What a command reads.
    pub fn source(&self) -> Result<MemorySource, Memory> {
        let content = self.input.as_bytes().to_vec(self.alloc)?;
        let fails = self.input_fails.to_vec(self.alloc)?;
        MemorySource::new(self.alloc, content, fails)
    }

    /// What a command prints to.
    pub fn output(&self) -> Result<MemorySink, Memory> {
        let mut fails = Vec::new(self.alloc);
        if self.output_fails {
            fails.push(0)?;
        }
        MemorySink::new(self.alloc, Vec::new(self.alloc), fails)
    }

    /// Takes away what the next command alone is given.
    pub fn spend(&mut self) {
        self.input = String::new(self.alloc);
        self.input_fails = Vec::new(self.alloc);
        self.hooks = Hooks::none(self.alloc);
        self.output_fails = false;
    }
}

/// The moment of a text as `2023-11-14T22:13:20Z`.
pub fn moment_of(text: &str) -> Option<Moment> {
    let text = text.strip_suffix("Z")?;
    let second = read_extended(text.as_bytes())?;
    Moment::new(u64::try_from(second).ok()?, 0)
}
