// A peer in memory.
ghost use Rattle.std.specs.Prelude.{◌≡◌, ◌<◌, ◌≤◌, true, [], length, drop, IfOk, OnOk, OnErr};
ghost use Rattle.tw_world.specs.Disk.{Rose};
ghost use Rattle.tw_world.specs.Source.{SourceKept, Gave, GaveNothing};
ghost use Rattle.tw_world.specs.Sink.{SinkKept, Got, GotPart};
ghost use Rattle.tw_world.specs.Peer.{source_of, sink_of, SameRest, SameHeld};
ghost use Rattle.tw_world.specs.Calls.{next_count};

use crate::calls::Calls;
use crate::{Memory, Peer, StreamError};
use std::alloc::Global;

/// A peer whose bytes are given, and that keeps what it gets.
/// The calls in `fails`, counted from 0 over both methods, fail.
pub struct MemoryPeer {
    content: Vec<u8>,
    at: usize,
    written: Vec<u8>,
    calls: Calls,
    ghost inside: { at ≤ length content.items },
}

// It is written out, so that a caller does not prove again how each part is dropped.
impl Drop for MemoryPeer {
    fn drop(self) {
        let MemoryPeer {
            content: _,
            at: _,
            written: _,
            calls: _,
        } = self;
    }
}

impl MemoryPeer {
    ghost use Rattle.tw_world.specs.MemoryPeer.{peer_bytes, IsNewPeer};

    /// A peer that gives these bytes and got none.
    pub fn new(alloc: Global, content: Vec<u8>, fails: Vec<u64>) -> Result<MemoryPeer, Memory>
        ensures { IfOk result (IsNewPeer content.items fails.items) }
    {
        Ok(MemoryPeer {
            content,
            at: 0,
            written: Vec::new(alloc),
            calls: Calls::new(fails),
        })
    }

    /// What was written to it.
    pub fn bytes(&self) -> &[u8]
        ensures { result.now ≡ peer_bytes self.now }
    {
        &self.written
    }
}

impl Peer for MemoryPeer {
    ghost use Rattle.tw_world.specs.MemoryPeer.{memory_peer_model, peer_due, peer_calls, peer_fails, PeerRefused};

    ghost model = { memory_peer_model };

    fn read(&mut self, out: &mut [u8]) -> Result<u64, StreamError>
        requires { 0 < length out.old }

        ensures gave { IfOk result (λ count. Gave (source_of memory_peer_model) self.old self.new out.new count) }
        ensures count { IfOk result (λ count. count ≤ length out.old) }
        ensures refused { OnErr result (GaveNothing (source_of memory_peer_model) self.old self.new out.old out.new) }
        ensures held { SameHeld memory_peer_model self.old self.new }
        ensures kept { SourceKept (source_of memory_peer_model) self.old self.new }
        ensures failed { OnErr result (Rose (memory_peer_model.faults self.old) (memory_peer_model.faults self.new)) }

        // A call that is named fails, and no other does.
        ensures named { peer_due self.old ≡ true → (result ≡ Err StreamError.Failed) × PeerRefused self.old self.new }
        ensures other { OnErr result (peer_due self.old ≡ true) }
        ensures calls { peer_calls self.new ≡ next_count (peer_calls self.old) }
        ensures fails { peer_fails self.new ≡ peer_fails self.old }
        ensures well { OnOk result (memory_peer_model.faults self.new ≡ memory_peer_model.faults self.old) }
    {
        if self.calls.begin() {
            return Err(StreamError::Failed);
        }
        let count = out.len().min(self.content.len() - self.at);
        out[..count].copy_from_slice(&self.content[self.at..self.at + count]);
        self.at += count;
        Ok(count as u64)
    }

    fn write_all(&mut self, bytes: &[u8]) -> Result<(), StreamError>
        ensures written { OnOk result (Got (sink_of memory_peer_model) self.old self.new bytes.now) }
        ensures part { OnErr result (GotPart (sink_of memory_peer_model) self.old self.new bytes.now) }
        ensures rest { SameRest memory_peer_model self.old self.new }
        ensures kept { SinkKept (sink_of memory_peer_model) self.old self.new }
        ensures failed { OnErr result (Rose (memory_peer_model.faults self.old) (memory_peer_model.faults self.new)) }

        // A call that is named fails. Another may, if there is no memory.
        ensures named { peer_due self.old ≡ true → (result ≡ Err StreamError.Failed) × PeerRefused self.old self.new }
        ensures calls { peer_calls self.new ≡ next_count (peer_calls self.old) }
        ensures fails { peer_fails self.new ≡ peer_fails self.old }
        ensures well { OnOk result (memory_peer_model.faults self.new ≡ memory_peer_model.faults self.old) }
    {
        if self.calls.begin() {
            return Err(StreamError::Failed);
        }
        if self.written.extend_from_slice(bytes).is_err() {
            self.calls.fault();
            return Err(StreamError::Failed);
        }
        Ok(())
    }
}
