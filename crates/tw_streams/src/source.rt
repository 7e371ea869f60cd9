// A reader as a source.
ghost use Rattle.std.specs.Prelude.{◌≡◌, ◌<◌, ◌≤◌, length, take, IfOk, OnOk, OnErr};
ghost use Rattle.std.specs.Io.KnownBytes.{Consumes, IsAtEnd};
ghost use Rattle.tw_world.specs.Disk.{Rose};
ghost use Rattle.tw_world.specs.Source.{SourceKept, Gave, GaveNothing};

use crate::reader::Reader;
use tw_world::{Source, StreamError};

/// A reader, with how often it has failed. It tells nothing of what it gives.
#[derive(Drop)]
pub struct StreamSource<R: Reader> {
    reader: R,
    faults: u64,
}

impl<R: Reader> StreamSource<R> {
    /// A source over a reader.
    pub fn new(reader: R) -> StreamSource<R>
        ensures { result ≡ record { reader = reader; faults = 0 } }
    {
        StreamSource { reader, faults: 0 }
    }
}

impl<R: Reader> Source for StreamSource<R> {
    ghost use Rattle.tw_streams.specs.StreamSource.{source_model};

    ghost model = { source_model };

    fn read(&mut self, out: &mut [u8]) -> Result<u64, StreamError>
        requires { 0 < length out.old }

        ensures gave { IfOk result (λ count. Gave source_model self.old self.new out.new count) }
        ensures count { IfOk result (λ count. count ≤ length out.old) }
        ensures refused { OnErr result (GaveNothing source_model self.old self.new out.old out.new) }
        ensures kept { SourceKept source_model self.old self.new }
        ensures failed { OnErr result (Rose self.old.faults self.new.faults) }

        // The reader's next bytes, if it says what it has: none only at its end. It fails only if the reader does.
        ensures next { IfOk result (λ count. Consumes (R.remaining self.old.reader) (R.remaining self.new.reader) (take count out.new)) }
        ensures end { IfOk result (λ count. count ≡ 0 → IsAtEnd (R.remaining self.new.reader)) }
        ensures well { OnOk result (self.new.faults ≡ self.old.faults) }
        ensures only { OnErr result R.may_not_read }
    {
        match self.reader.read_next(out) {
            Ok(count) => Ok(count as u64),
            Err(_) => {
                self.faults = self.faults.saturating_add(1);
                Err(StreamError::Failed)
            }
        }
    }
}
