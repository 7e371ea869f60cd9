// A stream with a note of what went through it.
ghost use Rattle.std.specs.Prelude.{◌≡◌, ◌<◌, length, IfOk, OnErr};
ghost use Rattle.std.specs.Io.{ReadsAtMost, WritesAtMost};
ghost use Rattle.std.specs.Io.KnownBytes.{ReadConsumes, WriteAppends};
ghost use Rattle.tw_streams.specs.Noted.{Notes, NotesRead, NotesWritten, IsFresh};

use crate::reader::Reader;
use crate::writer::Writer;
use arrayvec::ArrayVec;
use std::io;

/// A stream, with the first 512 bytes that were read from it, and how many were read and written.
#[derive(Drop)]
pub struct Noted<S: Reader + Writer> {
    stream: S,
    front: ArrayVec<u8, 512>,
    taken: u64,
    given: u64,
}

impl<S: Reader + Writer> Noted<S> {
    /// A stream of which nothing is noted yet.
    pub fn new(stream: S) -> Noted<S>
        ensures stream { result.stream ≡ stream }
        ensures fresh { IsFresh result }
    {
        Noted {
            stream,
            front: ArrayVec::new(),
            taken: 0,
            given: 0,
        }
    }

    /// The first bytes that were read, at most 512.
    pub fn front(&self) -> &[u8]
        ensures { result.now ≡ self.now.front.items }
    {
        self.front.as_slice()
    }

    /// How many bytes were read.
    pub fn taken(&self) -> u64
        ensures { result ≡ self.now.taken }
    {
        self.taken
    }

    /// How many bytes were written.
    pub fn given(&self) -> u64
        ensures { result ≡ self.now.given }
    {
        self.given
    }

    /// The stream.
    pub fn into_stream(self) -> S
        ensures { result ≡ self.stream }
    {
        self.stream
    }

    // Notes bytes that were read.
    fn note(&mut self, bytes: &[u8])
        ensures noted { Notes self.old self.new bytes.now }
        ensures stream { self.new.stream ≡ self.old.stream }
    {
        let more = bytes.len().min(self.front.remaining_capacity());
        let _ = self.front.try_extend_from_slice(&bytes[..more]);
        self.taken = self.taken.saturating_add(bytes.len() as u64);
    }
}

impl<S: Reader + Writer> Reader for Noted<S> {
    ghost remaining = { λ n. S.remaining n.stream };

    ghost may_not_read = { S.may_not_read };

    fn read_next(&mut self, buf: &mut [u8]) -> io::Result<usize>
        ensures bound { ReadsAtMost result buf.new }
        ensures bytes { ReadConsumes (S.remaining self.old.stream) (S.remaining self.new.stream) result buf.new }
        ensures noted { NotesRead self.old self.new result buf.new }
        ensures failed { OnErr result S.may_not_read }
    {
        let count = self.stream.read_next(buf)?;
        self.note(&buf[..count]);
        Ok(count)
    }
}

impl<S: Reader + Writer> Writer for Noted<S> {
    ghost contents = { λ n. S.contents n.stream };

    ghost may_not_write = { S.may_not_write };

    fn write_next(&mut self, buf: &[u8]) -> io::Result<usize>
        ensures bound { WritesAtMost result buf.now }
        ensures bytes { WriteAppends (S.contents self.old.stream) (S.contents self.new.stream) result buf.now }
        ensures noted { NotesWritten self.old self.new result }
        ensures some { IfOk result (λ count. count ≡ 0 → 0 < length buf.now → S.may_not_write) }
        ensures failed { OnErr result S.may_not_write }
    {
        let count = self.stream.write_next(buf)?;
        self.given = self.given.saturating_add(count as u64);
        Ok(count)
    }

    fn pass_on(&mut self) -> io::Result<()> {
        self.stream.pass_on()
    }
}
