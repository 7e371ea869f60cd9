// A connection that no one can hold for ever, nor for long with few bytes.
ghost use Rattle.std.specs.Prelude.{◌≡◌, ◌⊎◌, ◌+◌, ◌*◌, ◌<◌, ◌≤◌, length, min, ℕ, IfOk, OnOk, OnErr};
ghost use Rattle.std.specs.Duration.{as_nanos, FitsDuration};
ghost use Rattle.std.specs.Io.{ReadsAtMost, WritesAtMost};
ghost use Rattle.std.specs.Io.KnownBytes.{ReadConsumes, WriteAppends};
ghost use Rattle.tw_streams.specs.Waits.{Begins, IsTooLate, MayWait, Waited, end_by, Gains, EndsWithin, IsReadOn, IsClosed};

use crate::reader::Reader;
use crate::timed_stream::{TimedStream, Timer};
use crate::writer::Writer;
use std::io;
use std::time::Duration;

/// How long a connection may take.
#[derive(Clone, Copy)]
pub struct Limits {
    /// How long one read or write waits for the other end.
    pub silence_seconds: u64,
    /// How long the connection lasts, all reads and writes together, if no byte goes through it. Each byte adds a millisecond.
    pub whole_seconds: u64,
    /// How long it lasts at most.
    pub most_seconds: u64,
}

// What may come after a message before the connection is closed: two seconds, and 64 MiB.
const LAST_SECONDS: u64 = 2;

const LAST_BYTES: usize = 67_108_864;

/// A stream with a clock. A read or a write that waits longer than its limits allow is an error.
#[derive(Drop)]
pub struct Connection<C: Timer, S: TimedStream> {
    clock: C,
    stream: S,
    silence: Duration,
    end: Duration,
    last: Duration,
}

impl<C: Timer, S: TimedStream> Connection<C, S> {
    /// A connection that begins now.
    pub fn new(clock: C, stream: S, limits: Limits) -> io::Result<Connection<C, S>>
    where
        C: Drop,
        S: Drop,
        ensures begun { IfOk result (Begins C.has_shown limits) }
        ensures stream { IfOk result (λ c. c.stream ≡ stream) }
        ensures failed { OnErr result (C.may_fail ⊎ IsTooLate C.has_shown clock limits) }
    {
        let start = clock.elapsed()?;
        let end = end_after(start, limits.whole_seconds)?;
        let last = end_after(start, limits.most_seconds)?;
        Ok(Connection {
            clock,
            stream,
            silence: Duration::from_secs(limits.silence_seconds),
            end,
            last,
        })
    }

    // How long a call may wait. No time is no limit that a stream takes, so the call fails then.
    fn wait(&self) -> io::Result<Duration>
        ensures wait { IfOk result (λ wait. MayWait C.has_shown self.now (as_nanos wait)) }
        ensures failed { OnErr result C.may_fail }
    {
        let left = self.end.saturating_sub(self.clock.elapsed()?);
        Ok(shorter(left, self.silence))
    }

    // Reads as the limits allow. The end stays.
    fn read_some(&mut self, buf: &mut [u8]) -> io::Result<usize>
        ensures bound { ReadsAtMost result buf.new }
        ensures bytes { ReadConsumes (S.remaining self.old.stream) (S.remaining self.new.stream) result buf.new }
        ensures waited { OnOk result (Waited C.has_shown S.waited self.old self.new) }
        ensures limits { self.new ≡ record self.old { stream = self.new.stream } }
        ensures sent { S.contents self.new.stream ≡ S.contents self.old.stream }
        ensures ended { S.is_ended self.old.stream → S.is_ended self.new.stream }
        ensures failed { OnErr result (C.may_fail ⊎ S.may_fail) }
    {
        let wait = self.wait()?;
        self.stream.read_within(buf, wait)
    }

    // Writes as the limits allow. The end stays.
    fn write_some(&mut self, buf: &[u8]) -> io::Result<usize>
        ensures bound { WritesAtMost result buf.now }
        ensures bytes { WriteAppends (S.contents self.old.stream) (S.contents self.new.stream) result buf.now }
        ensures waited { OnOk result (Waited C.has_shown S.waited self.old self.new) }
        ensures limits { self.new ≡ record self.old { stream = self.new.stream } }
        ensures some { IfOk result (λ count. count ≡ 0 → 0 < length buf.now → C.may_fail ⊎ S.may_fail) }
        ensures failed { OnErr result (C.may_fail ⊎ S.may_fail) }
    {
        let wait = self.wait()?;
        self.stream.write_within(buf, wait)
    }

    // Moves the end on by what so many bytes add.
    fn go_on(&mut self, count: usize)
        ensures end { as_nanos self.new.end ≡ end_by self.old count }
        ensures limits { self.new ≡ record self.old { end = self.new.end } }
    {
        self.end = later(self.end, count, self.last);
    }

    // Brings the end nearer, to so many seconds from now.
    fn end_within(&mut self, seconds: u64) -> io::Result<()>
        ensures nearer { as_nanos self.new.end ≤ as_nanos self.old.end }
        ensures near { OnOk result (EndsWithin C.has_shown (seconds * 1_000_000_000) self.new) }
        ensures stream { self.new.stream ≡ self.old.stream }
        ensures failed { OnErr result C.may_fail }
    {
        let shown = self.clock.elapsed()?;
        let end = shown.saturating_add(Duration::from_secs(seconds));
        self.end = shorter(end, self.end);
        Ok(())
    }

    // Tells the other end that no more is sent. What still comes may take two seconds.
    fn say_end(&mut self) -> io::Result<()>
        ensures ended { OnOk result (S.is_ended self.new.stream) }
        ensures nearer { as_nanos self.new.end ≤ as_nanos self.old.end }
        ensures near { C.may_fail ⊎ EndsWithin C.has_shown 2_000_000_000 self.new }
        ensures rest { S.remaining self.new.stream ≡ S.remaining self.old.stream }
        ensures sent { S.contents self.new.stream ≡ S.contents self.old.stream }
        ensures failed { OnErr result (C.may_fail ⊎ S.may_fail) }
    {
        match self.end_within(LAST_SECONDS) {
            Ok(()) => self.stream.end_writing(),
            Err(error) => Err(error),
        }
    }

    // Reads what still comes: to its end, or 64 MiB of it. It stops where a call fails, and adds no time.
    fn read_on(&mut self)
        ensures read { C.may_fail ⊎ S.may_fail ⊎ IsReadOn S.remaining self.old self.new }
        ensures limits { self.new ≡ record self.old { stream = self.new.stream } }
        ensures ended { S.is_ended self.old.stream → S.is_ended self.new.stream }
        ensures sent { S.contents self.new.stream ≡ S.contents self.old.stream }
    {
        let mut piece = [0; 65_536];
        let mut count = 0;
        while count < LAST_BYTES {
            match self.read_some(&mut piece) {
                Ok(0) | Err(_) => return,
                Ok(more) => count += more,
            }
        }
    }

    /// Ends the connection, which is closed when it is dropped. What was written reaches the other end, also if that has not
    /// ended its message yet: what still comes is read for two seconds at most.
    #[tactic(auto, using(crate::proofs::Closing::closed, crate::proofs::Closing::still_near))]
    pub fn close(&mut self)
        ensures closed { C.may_fail ⊎ S.may_fail ⊎ IsClosed S.is_ended S.remaining self.old self.new }
        ensures nearer { as_nanos self.new.end ≤ as_nanos self.old.end }
        ensures near { C.may_fail ⊎ EndsWithin C.has_shown 2_000_000_000 self.new }
        ensures sent { S.contents self.new.stream ≡ S.contents self.old.stream }
    {
        if self.say_end().is_ok() {
            self.read_on();
        }
    }
}

// The time of so many seconds after a start.
fn end_after(start: Duration, seconds: u64) -> io::Result<Duration>
    ensures end { IfOk result (λ end. as_nanos end ≡ as_nanos start + seconds * 1_000_000_000) }
    ensures failed { OnErr result (FitsDuration (as_nanos start + seconds * 1_000_000_000) → ⊥) }
{
    match start.checked_add(Duration::from_secs(seconds)) {
        Some(end) => Ok(end),
        None => Err(io::Error::from(io::ErrorKind::InvalidData)),
    }
}

// The end after so many more bytes: a millisecond later for each, and never after `last`.
fn later(end: Duration, count: usize, last: Duration) -> Duration
    ensures { as_nanos result ≡ min (as_nanos last) (as_nanos end + count * 1_000_000) }
{
    match end.checked_add(Duration::from_millis(count as u64)) {
        Some(end) => shorter(last, end),
        None => last,
    }
}

fn shorter(one: Duration, other: Duration) -> Duration
    ensures { as_nanos result ≡ min (as_nanos one) (as_nanos other) }
{
    if one < other { one } else { other }
}

impl<C: Timer, S: TimedStream> Reader for Connection<C, S> {
    ghost remaining = { λ c. S.remaining c.stream };

    ghost may_not_read = { C.may_fail ⊎ S.may_fail };

    fn read_next(&mut self, buf: &mut [u8]) -> io::Result<usize>
        ensures bound { ReadsAtMost result buf.new }
        ensures bytes { ReadConsumes (S.remaining self.old.stream) (S.remaining self.new.stream) result buf.new }

        // The wait of the stream is the one that the limits allow. Then the end is later by what was read, and the rest of them stays.
        ensures waited { OnOk result (Waited C.has_shown S.waited self.old self.new) }
        ensures end { Gains self.old self.new result }
        ensures limits { self.new ≡ record self.old { stream = self.new.stream; end = self.new.end } }
        ensures sent { S.contents self.new.stream ≡ S.contents self.old.stream }
        ensures ended { S.is_ended self.old.stream → S.is_ended self.new.stream }
        ensures failed { OnErr result (C.may_fail ⊎ S.may_fail) }
    {
        let count = self.read_some(buf)?;
        self.go_on(count);
        Ok(count)
    }
}

impl<C: Timer, S: TimedStream> Writer for Connection<C, S> {
    ghost contents = { λ c. S.contents c.stream };

    ghost may_not_write = { C.may_fail ⊎ S.may_fail };

    fn write_next(&mut self, buf: &[u8]) -> io::Result<usize>
        ensures bound { WritesAtMost result buf.now }
        ensures bytes { WriteAppends (S.contents self.old.stream) (S.contents self.new.stream) result buf.now }

        // As for a read.
        ensures waited { OnOk result (Waited C.has_shown S.waited self.old self.new) }
        ensures end { Gains self.old self.new result }
        ensures limits { self.new ≡ record self.old { stream = self.new.stream; end = self.new.end } }
        ensures some { IfOk result (λ count. count ≡ 0 → 0 < length buf.now → C.may_fail ⊎ S.may_fail) }
        ensures failed { OnErr result (C.may_fail ⊎ S.may_fail) }
    {
        let count = self.write_some(buf)?;
        self.go_on(count);
        Ok(count)
    }

    fn pass_on(&mut self) -> io::Result<()> {
        Ok(())
    }
}
