// A writer as a sink.
ghost use Rattle.std.specs.Prelude.{◌≡◌, IsTrue, IsFalse, OnOk, OnErr};
ghost use Rattle.std.specs.Io.KnownBytes.{Appends};
ghost use Rattle.tw_world.specs.Disk.{Rose};
ghost use Rattle.tw_world.specs.Sink.{SinkKept, Got, GotPart};

use crate::writer::Writer;
use tw_world::{Sink, StreamError};

/// A writer, with how often it has failed. It tells nothing of what it got.
#[derive(Drop)]
pub struct Stream<W: Writer> {
    writer: W,
    faults: u64,
}

// Writes all the bytes, and answers whether that was possible.
pub fn write_whole<W: Writer>(writer: &mut W, bytes: &[u8]) -> bool
    ensures whole { IsTrue result → Appends (W.contents writer.old) (W.contents writer.new) bytes.now }
    ensures failed { IsFalse result → W.may_not_write }
{
    let mut done = 0;
    while done < bytes.len() {
        match writer.write_next(&bytes[done..]) {
            Ok(0) | Err(_) => return false,
            Ok(count) => done += count,
        }
    }
    writer.pass_on().is_ok()
}

impl<W: Writer> Stream<W> {
    /// A sink over a writer.
    pub fn new(writer: W) -> Stream<W>
        ensures { result ≡ record { writer = writer; faults = 0 } }
    {
        Stream { writer, faults: 0 }
    }
}

impl<W: Writer> Sink for Stream<W> {
    ghost use Rattle.tw_streams.specs.Stream.{stream_model};

    ghost model = { stream_model };

    fn write_all(&mut self, bytes: &[u8]) -> Result<(), StreamError>
        ensures written { OnOk result (Got stream_model self.old self.new bytes.now) }
        ensures part { OnErr result (GotPart stream_model self.old self.new bytes.now) }
        ensures kept { SinkKept stream_model self.old self.new }
        ensures failed { OnErr result (Rose self.old.faults self.new.faults) }

        // No call that ends well counts a fault, and the writer has each byte then, if it says what it has. It fails only if the writer does.
        ensures whole { OnOk result (Appends (W.contents self.old.writer) (W.contents self.new.writer) bytes.now) }
        ensures well { OnOk result (self.new.faults ≡ self.old.faults) }
        ensures only { OnErr result W.may_not_write }
    {
        if write_whole(&mut self.writer, bytes) {
            return Ok(());
        }
        self.faults = self.faults.saturating_add(1);
        Err(StreamError::Failed)
    }
}
