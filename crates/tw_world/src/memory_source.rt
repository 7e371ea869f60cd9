// A source in memory.
ghost use Rattle.std.specs.Prelude.{◌≡◌, ◌<◌, ◌≤◌, true, length, drop, IfOk, OnOk, OnErr};
ghost use Rattle.tw_world.specs.Disk.{Rose};
ghost use Rattle.tw_world.specs.Source.{SourceKept, Gave, GaveNothing};
ghost use Rattle.tw_world.specs.Calls.{next_count};

use crate::calls::Calls;
use crate::{Memory, Source, StreamError};
use std::alloc::Global;

/// A source whose bytes are given. The calls in `fails`, counted from 0, fail.
#[derive(Drop)]
pub struct MemorySource {
    content: Vec<u8>,
    at: usize,
    calls: Calls,
    ghost inside: { at ≤ length content.items },
}

impl MemorySource {
    ghost use Rattle.tw_world.specs.MemorySource.{IsNewSource};

    /// A source that gives these bytes. It needs no memory of its own.
    pub fn new(_alloc: Global, content: Vec<u8>, fails: Vec<u64>) -> Result<MemorySource, Memory>
        ensures { IfOk result (IsNewSource content.items fails.items) }
    {
        Ok(MemorySource {
            content,
            at: 0,
            calls: Calls::new(fails),
        })
    }
}

impl Source for MemorySource {
    ghost use Rattle.tw_world.specs.MemorySource.{memory_source_model, source_due, source_calls, source_fails, SourceRefused};

    ghost model = { memory_source_model };

    fn read(&mut self, out: &mut [u8]) -> Result<u64, StreamError>
        requires { 0 < length out.old }

        ensures gave { IfOk result (λ count. Gave memory_source_model self.old self.new out.new count) }
        ensures count { IfOk result (λ count. count ≤ length out.old) }
        ensures refused { OnErr result (GaveNothing memory_source_model self.old self.new out.old out.new) }
        ensures kept { SourceKept memory_source_model self.old self.new }
        ensures failed { OnErr result (Rose (memory_source_model.faults self.old) (memory_source_model.faults self.new)) }

        // A call that is named fails, and no other does.
        ensures named { source_due self.old ≡ true → (result ≡ Err StreamError.Failed) × SourceRefused self.old self.new }
        ensures other { OnErr result (source_due self.old ≡ true) }
        ensures calls { source_calls self.new ≡ next_count (source_calls self.old) }
        ensures fails { source_fails self.new ≡ source_fails self.old }
        ensures well { OnOk result (memory_source_model.faults self.new ≡ memory_source_model.faults self.old) }
    {
        if self.calls.begin() {
            return Err(StreamError::Failed);
        }
        let count = out.len().min(self.content.len() - self.at);
        out[..count].copy_from_slice(&self.content[self.at..self.at + count]);
        self.at += count;
        Ok(count as u64)
    }
}
