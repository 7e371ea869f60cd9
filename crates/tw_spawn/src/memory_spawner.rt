// Hooks in memory.
ghost use Rattle.std.specs.Prelude.{◌≡◌, ◌≤◌, ◌<◌, [], length, true, false, map, slice_get, string_bytes, option_map, Ok, IfOk, OnErr, IsErrOf};
ghost use Rattle.tw_world.specs.Disk.{Rose};
ghost use Rattle.tw_spawn.specs.Spawner.{SpawnerKept, HasNames, RunsNone, RunsOne};
ghost use Rattle.tw_spawn.specs.MemorySpawner.{run_of, last_line, answer_or_line};

use crate::{SpawnError, Spawner};
use std::alloc::Global;
use tw_world::Memory;

/// A run that came to its end.
pub(crate) struct Kept {
    name: String,
    input: Vec<u8>,
    output: Vec<u8>,
    status: u8,
}

// It is written out, so that a caller does not prove again how each part is dropped.
impl Drop for Kept {
    fn drop(self) {
        let Kept {
            name: _,
            input: _,
            output: _,
            status: _,
        } = self;
    }
}

/// Hooks with these names. Their runs take the given answers in turn, and after the last one the last line of their input with
/// status 0. The calls in `fails`, counted from 0 over both methods, fail.
pub struct MemorySpawner {
    alloc: Global,
    names: Vec<String>,
    answers: Vec<(u8, Vec<u8>)>,
    fails: Vec<u64>,
    made: u64,
    faults: u64,
    runs: Vec<Kept>,
}

// It is written out, so that a caller does not prove again how each part is dropped.
impl Drop for MemorySpawner {
    fn drop(self) {
        let MemorySpawner {
            alloc: _,
            names: _,
            answers: _,
            fails: _,
            made: _,
            faults: _,
            runs: _,
        } = self;
    }
}

impl MemorySpawner {
    ghost use Rattle.tw_spawn.specs.MemorySpawner.{memory_spawner_model, IsNewSpawner, spawner_due, spawner_counted, spawner_refused};

    /// A spawner that ran no hook yet. It needs no memory of its own.
    pub fn new(
        alloc: Global,
        names: Vec<String>,
        answers: Vec<(u8, Vec<u8>)>,
        fails: Vec<u64>,
    ) -> Result<MemorySpawner, Memory>
        ensures { IfOk result (IsNewSpawner (map string_bytes names.items) answers.items fails.items) }
    {
        Ok(MemorySpawner {
            alloc,
            names,
            answers,
            fails,
            made: 0,
            faults: 0,
            runs: Vec::new(alloc),
        })
    }

    /// How many runs came to their end.
    pub fn count(&self) -> usize
        ensures { result ≡ length (memory_spawner_model.runs self.now) }
    {
        self.runs.len()
    }

    /// What the run with this number, from 0, was given, or `None` if there were not so many.
    pub fn input(&self, n: usize) -> Option<&[u8]>
        ensures { option_map (λ b. b.now) result ≡ option_map (λ r. r.input) (slice_get (memory_spawner_model.runs self.now) n) }
    {
        let run = self.runs.get(n)?;
        Some(run.input.as_slice())
    }

    // Counts a call. Is it one that is to fail? Then its fault is counted too.
    fn begin(&mut self) -> bool
        ensures named { result ≡ spawner_due self.old }
        ensures failed { result ≡ true → self.new ≡ spawner_refused self.old }
        ensures counted { result ≡ false → self.new ≡ spawner_counted self.old }
        ensures later { self.old.faults ≤ self.new.faults }
    {
        let call = self.made;
        self.made = self.made.saturating_add(1);
        if self.fails.contains(&call) {
            self.faults = self.faults.saturating_add(1);
            return true;
        }
        false
    }
}

fn names_of(alloc: Global, names: &Vec<String>) -> Result<Vec<String>, Memory>
    ensures { IfOk result (λ copies. map string_bytes copies.items ≡ map string_bytes names.now.items) }
{
    let mut copies = Vec::with_capacity(alloc, names.len())?;
    for name in names {
        copies.push(String::from_str(alloc, name.as_str())?)?;
    }
    Ok(copies)
}

// The last line of a text, with the newline that ends it.
fn last_line(text: &[u8]) -> &[u8]
    ensures { result.now ≡ last_line [] text.now }
{
    let mut start = 0;
    for at in 0..text.len() {
        if text[at] == b'\n' && at + 1 < text.len() {
            start = at + 1;
        }
    }
    &text[start..]
}

// What is answered to an input: its status and what it writes.
fn answer_or_line(
    alloc: Global,
    answer: Option<&(u8, Vec<u8>)>,
    input: &[u8],
) -> Result<(u8, Vec<u8>), Memory>
    ensures { IfOk result (λ a. (a.0, a.1.items) ≡ answer_or_line (option_map (λ b. b.now) answer.entry) input.now) }
{
    match answer {
        Some(answer) => Ok((answer.0, answer.1.to_vec(alloc)?)),
        None => Ok((0, last_line(input).to_vec(alloc)?)),
    }
}

// The run of a hook that writes this.
fn kept_run(
    alloc: Global,
    name: &str,
    input: &[u8],
    output: &[u8],
    status: u8,
) -> Result<Kept, Memory>
    ensures { IfOk result (λ k. run_of k ≡ record { name = name.now; input = input.now; output = output.now; status = status }) }
{
    Ok(Kept {
        name: String::from_str(alloc, name)?,
        input: input.to_vec(alloc)?,
        output: output.to_vec(alloc)?,
        status,
    })
}

impl MemorySpawner {
    ghost use Rattle.tw_spawn.specs.MemorySpawner.{memory_spawner_model, answer_now};

    // Runs a hook that does not fail.
    fn answer(&mut self, name: &str, input: &[u8], output: &mut Vec<u8>) -> Result<u8, Memory>
        ensures answered { IfOk result (λ status. (status, output.new.items) ≡ answer_now self.old input.now) }
        ensures listed { IfOk result (λ status. RunsOne memory_spawner_model self.old self.new name.now input.now output.new.items (Ok status)) }
        ensures unlisted { OnErr result (self.new.runs.items ≡ self.old.runs.items) }
        ensures others { self.new ≡ record self.old { runs = self.new.runs } }
    {
        let given = self.answers.get(self.runs.len());
        let (status, text) = answer_or_line(self.alloc, given, input)?;
        let run = kept_run(self.alloc, name, input, text.as_slice(), status)?;
        self.runs.push(run)?;
        *output = text;
        Ok(status)
    }
}

impl Spawner for MemorySpawner {
    ghost use Rattle.tw_spawn.specs.MemorySpawner.{memory_spawner_model, answer_now, IsCounted};

    ghost model = { memory_spawner_model };

    fn names(&mut self, alloc: Global) -> Result<Vec<String>, SpawnError>
        ensures names { IfOk result (HasNames memory_spawner_model self.old) }
        ensures runs { RunsNone memory_spawner_model self.old self.new }
        ensures kept { SpawnerKept memory_spawner_model self.old self.new }
        ensures failed { IsErrOf result SpawnError.Failed → Rose (memory_spawner_model.faults self.old) (memory_spawner_model.faults self.new) }
        ensures counted { IsCounted self.old self.new result }
    {
        if self.begin() {
            return Err(SpawnError::Failed);
        }
        match names_of(alloc, &self.names) {
            Ok(names) => Ok(names),
            Err(_) => Err(SpawnError::Memory),
        }
    }

    fn run(&mut self, name: &str, input: &[u8], output: &mut Vec<u8>) -> Result<u8, SpawnError>
        ensures runs { RunsOne memory_spawner_model self.old self.new name.now input.now output.new.items result }
        ensures kept { SpawnerKept memory_spawner_model self.old self.new }
        ensures failed { IsErrOf result SpawnError.Failed → Rose (memory_spawner_model.faults self.old) (memory_spawner_model.faults self.new) }
        ensures answered { IfOk result (λ status. (status, output.new.items) ≡ answer_now self.old input.now) }
        ensures counted { IsCounted self.old self.new result }
    {
        if self.begin() {
            return Err(SpawnError::Failed);
        }
        match self.answer(name, input, output) {
            Ok(status) => Ok(status),
            Err(_) => Err(SpawnError::Memory),
        }
    }
}
