// A stream as a peer.
ghost use Rattle.std.specs.Prelude.{◌≡◌, ◌<◌, ◌≤◌, length, take, IfOk, OnOk, OnErr};
ghost use Rattle.std.specs.Io.KnownBytes.{Appends, Consumes, IsAtEnd};
ghost use Rattle.tw_world.specs.Disk.{Rose};
ghost use Rattle.tw_world.specs.Source.{SourceKept, Gave, GaveNothing};
ghost use Rattle.tw_world.specs.Sink.{SinkKept, Got, GotPart};
ghost use Rattle.tw_world.specs.Peer.{source_of, sink_of, SameRest, SameHeld};

use crate::reader::Reader;
use crate::stream::write_whole;
use crate::writer::Writer;
use tw_world::{Peer, StreamError};

/// A stream that is read and written, with how often it has failed. It tells nothing of its bytes.
#[derive(Drop)]
pub struct StreamPeer<S: Reader + Writer> {
    stream: S,
    faults: u64,
}

impl<S: Reader + Writer> StreamPeer<S> {
    /// A peer at the other end of a stream.
    pub fn new(stream: S) -> StreamPeer<S>
        ensures { result ≡ record { stream = stream; faults = 0 } }
    {
        StreamPeer { stream, faults: 0 }
    }

    /// The stream.
    pub fn into_stream(self) -> S
        ensures { result ≡ self.stream }
    {
        self.stream
    }

    // Counts a fault.
    fn fail(&mut self) -> StreamError
        ensures counted { Rose self.old.faults self.new.faults }
        ensures later { self.old.faults ≤ self.new.faults }
    {
        self.faults = self.faults.saturating_add(1);
        StreamError::Failed
    }
}

impl<S: Reader + Writer> Peer for StreamPeer<S> {
    ghost use Rattle.tw_streams.specs.StreamPeer.{peer_model};

    ghost model = { peer_model };

    fn read(&mut self, out: &mut [u8]) -> Result<u64, StreamError>
        requires { 0 < length out.old }

        ensures gave { IfOk result (λ count. Gave (source_of peer_model) self.old self.new out.new count) }
        ensures count { IfOk result (λ count. count ≤ length out.old) }
        ensures refused { OnErr result (GaveNothing (source_of peer_model) self.old self.new out.old out.new) }
        ensures held { SameHeld peer_model self.old self.new }
        ensures kept { SourceKept (source_of peer_model) self.old self.new }
        ensures failed { OnErr result (Rose self.old.faults self.new.faults) }

        // The stream's next bytes, if it says what it has: none only at its end. It fails only if the stream does.
        ensures next { IfOk result (λ count. Consumes (S.remaining self.old.stream) (S.remaining self.new.stream) (take count out.new)) }
        ensures end { IfOk result (λ count. count ≡ 0 → IsAtEnd (S.remaining self.new.stream)) }
        ensures well { OnOk result (self.new.faults ≡ self.old.faults) }
        ensures only { OnErr result S.may_not_read }
    {
        match self.stream.read_next(out) {
            Ok(count) => Ok(count as u64),
            Err(_) => Err(self.fail()),
        }
    }

    fn write_all(&mut self, bytes: &[u8]) -> Result<(), StreamError>
        ensures written { OnOk result (Got (sink_of peer_model) self.old self.new bytes.now) }
        ensures part { OnErr result (GotPart (sink_of peer_model) self.old self.new bytes.now) }
        ensures rest { SameRest peer_model self.old self.new }
        ensures kept { SinkKept (sink_of peer_model) self.old self.new }
        ensures failed { OnErr result (Rose self.old.faults self.new.faults) }

        // The stream has each byte, if it says what it has.
        ensures whole { OnOk result (Appends (S.contents self.old.stream) (S.contents self.new.stream) bytes.now) }
        ensures well { OnOk result (self.new.faults ≡ self.old.faults) }
        ensures only { OnErr result S.may_not_write }
    {
        if write_whole(&mut self.stream, bytes) {
            return Ok(());
        }
        Err(self.fail())
    }
}
