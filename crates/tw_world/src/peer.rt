// The other end of a line.
ghost use Rattle.std.specs.Prelude.{◌<◌, ◌≤◌, length, IfOk, OnOk, OnErr};
ghost use Rattle.tw_world.specs.Disk.{Rose};
ghost use Rattle.tw_world.specs.Source.{SourceKept, Gave, GaveNothing};
ghost use Rattle.tw_world.specs.Sink.{SinkKept, Got, GotPart};
ghost use Rattle.tw_world.specs.Peer.{PeerModel, source_of, sink_of, SameRest, SameHeld};

use crate::StreamError;

/// The other end of a line: a source and a sink in one, with one count of faults.
pub trait Peer {
    /// What is still to be read, what was written, and how often it has failed.
    ghost model: { PeerModel Self };

    /// Reads as a source does. What was written stays.
    fn read(&mut self, out: &mut [u8]) -> Result<u64, StreamError>
        requires { 0 < length out.old }

        ensures gave { IfOk result (λ count. Gave (source_of model) self.old self.new out.new count) }
        ensures count { IfOk result (λ count. count ≤ length out.old) }
        ensures refused { OnErr result (GaveNothing (source_of model) self.old self.new out.old out.new) }
        ensures held { SameHeld model self.old self.new }
        ensures kept { SourceKept (source_of model) self.old self.new }
        ensures failed { OnErr result (Rose (model.faults self.old) (model.faults self.new)) };

    /// Writes as a sink does. What is to be read stays.
    fn write_all(&mut self, bytes: &[u8]) -> Result<(), StreamError>
        ensures written { OnOk result (Got (sink_of model) self.old self.new bytes.now) }
        ensures part { OnErr result (GotPart (sink_of model) self.old self.new bytes.now) }
        ensures rest { SameRest model self.old self.new }
        ensures kept { SinkKept (sink_of model) self.old self.new }
        ensures failed { OnErr result (Rose (model.faults self.old) (model.faults self.new)) };
}
