// A stream whose calls wait for a time at most, and the clock that says how long.
ghost use Rattle.std.specs.Prelude.{◌≡◌, ◌<◌, length, ℕ, List, Option, None, IfOk, OnOk, OnErr};
ghost use Rattle.std.specs.Duration.{as_nanos};
ghost use Rattle.std.specs.Io.{ReadsAtMost, WritesAtMost};
ghost use Rattle.std.specs.Io.KnownBytes.{ReadConsumes, WriteAppends};

use std::io;
use std::io::{Read, Write};
use std::net::{Shutdown, TcpStream};
use std::time::{Clock, Duration};

/// A clock that counts from some start.
pub trait Timer {
    /// Holds if it has shown so many nanoseconds.
    ghost has_shown: { Self → ℕ → Type 0 };

    /// Holds if a call may fail.
    ghost may_fail: { Type 0 };

    fn elapsed(&self) -> io::Result<Duration>
        ensures shown { IfOk result (λ time. has_shown self.now (as_nanos time)) }
        ensures failed { OnErr result may_fail };
}

/// What the system offers of a connection.
pub trait TimedStream {
    /// The bytes that reads will give, if they are known.
    ghost remaining: { Self → Option (List ℕ) };

    /// The bytes that went out, if they are known.
    ghost contents: { Self → Option (List ℕ) };

    /// Holds if its last call was to wait for so many nanoseconds at most.
    ghost waited: { Self → ℕ → Type 0 };

    /// Holds if the other end was told that no more is sent.
    ghost is_ended: { Self → Type 0 };

    /// Holds if a call may fail.
    ghost may_fail: { Type 0 };

    /// Reads, or fails if nothing has come after this time.
    fn read_within(&mut self, buffer: &mut [u8], wait: Duration) -> io::Result<usize>
        ensures bound { ReadsAtMost result buffer.new }
        ensures bytes { ReadConsumes (remaining self.old) (remaining self.new) result buffer.new }
        ensures waited { IfOk result (λ count. waited self.new (as_nanos wait)) }
        ensures sent { contents self.new ≡ contents self.old }
        ensures ended { is_ended self.old → is_ended self.new }
        ensures failed { OnErr result may_fail };

    /// Writes, or fails if nothing could be sent after this time.
    fn write_within(&mut self, bytes: &[u8], wait: Duration) -> io::Result<usize>
        ensures bound { WritesAtMost result bytes.now }
        ensures bytes { WriteAppends (contents self.old) (contents self.new) result bytes.now }
        ensures waited { IfOk result (λ count. waited self.new (as_nanos wait)) }
        ensures some { IfOk result (λ count. count ≡ 0 → 0 < length bytes.now → may_fail) }
        ensures failed { OnErr result may_fail };

    /// Tells the other end that no more is sent.
    fn end_writing(&mut self) -> io::Result<()>
        ensures ended { OnOk result (is_ended self.new) }
        ensures bytes { remaining self.new ≡ remaining self.old }
        ensures sent { contents self.new ≡ contents self.old }
        ensures failed { OnErr result may_fail };
}

impl Timer for &HostRuntime {
    ghost has_shown = { λ clock nanos. Unit {0} };

    ghost may_fail = { Unit {0} };

    fn elapsed(&self) -> io::Result<Duration> {
        self.monotonic()
    }
}

// The system's connections tell nothing of their bytes.
impl TimedStream for TcpStream {
    ghost remaining = { λ stream. None };

    ghost contents = { λ stream. None };

    ghost waited = { λ stream nanos. Unit {0} };

    ghost is_ended = { λ stream. Unit {0} };

    ghost may_fail = { Unit {0} };

    fn read_within(&mut self, buffer: &mut [u8], wait: Duration) -> io::Result<usize> {
        self.set_read_timeout(Some(wait))?;
        self.read(buffer)
    }

    fn write_within(&mut self, bytes: &[u8], wait: Duration) -> io::Result<usize> {
        self.set_write_timeout(Some(wait))?;
        self.write(bytes)
    }

    fn end_writing(&mut self) -> io::Result<()> {
        self.shutdown(Shutdown::Write)
    }
}
