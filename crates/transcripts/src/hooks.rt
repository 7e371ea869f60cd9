// The hooks of a command.

use crate::stop::Stop;
use std::alloc::Global;
use std::mem::replace;
use tw_spawn::MemorySpawner;
use tw_world::Memory;

/// Hooks by their names, and with which status and output their runs answer in turn.
pub struct Hooks {
    alloc: Global,
    names: Vec<String>,
    answers: Vec<(u8, Vec<u8>)>,
}

// It is written out, so that a caller does not prove again how each part is dropped.
impl Drop for Hooks {
    fn drop(self) {
        let Hooks {
            alloc: _,
            names: _,
            answers: _,
        } = self;
    }
}

impl Hooks {
    pub fn none(alloc: Global) -> Hooks {
        Hooks {
            alloc,
            names: Vec::new(alloc),
            answers: Vec::new(alloc),
        }
    }

    /// Adds an answer of a hook by its name and status, as in `on-add 0`.
    pub fn add(&mut self, line: &str, output: &str) -> Result<(), Stop> {
        let Some((name, status)) = line.split_once(' ') else {
            return Err(Stop::Wrong("no status of a hook"));
        };
        let Ok(status) = status.parse::<u8>() else {
            return Err(Stop::Wrong("no status of a hook"));
        };
        self.add_name(name)?;
        let output = output.as_bytes().to_vec(self.alloc)?;
        Ok(self.answers.push((status, output))?)
    }

    // Adds a name that is not there yet.
    fn add_name(&mut self, name: &str) -> Result<(), Memory> {
        if !self.has(name) {
            self.names.push(String::from_str(self.alloc, name)?)?;
        }
        Ok(())
    }

    fn has(&self, name: &str) -> bool {
        self.names.iter().any(|known| known.as_str() == name)
    }

    /// Takes them all, for a command.
    pub fn spawner(&mut self) -> Result<MemorySpawner, Memory> {
        let names = replace(&mut self.names, Vec::new(self.alloc));
        let answers = replace(&mut self.answers, Vec::new(self.alloc));
        MemorySpawner::new(self.alloc, names, answers, Vec::new(self.alloc))
    }
}
