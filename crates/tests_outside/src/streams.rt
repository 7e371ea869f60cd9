// Streams as sources, sinks and peers.

use std::alloc::Global;
use std::io;
use std::test::Fail;
use tw_streams::{Reader, Stream, StreamPeer, StreamSource, Writer};
use tw_world::{Peer, Sink, Source, StreamError};

// Gives and takes two bytes a call, and fails once it is used up.
#[derive(Drop)]
struct Narrow {
    got: Vec<u8>,
    room: usize,
}

impl Reader for Narrow {
    ghost use Rattle.std.specs.Prelude.{None};

    ghost remaining = { λ stream. None };

    ghost may_not_read = { Unit {0} };

    fn read_next(&mut self, buffer: &mut [u8]) -> io::Result<usize> {
        let count = buffer.len().min(2);
        if count > self.room {
            return Err(io::Error::from(io::ErrorKind::TimedOut));
        }
        buffer[..count].fill(b'x');
        self.room -= count;
        Ok(count)
    }
}

impl Writer for Narrow {
    ghost use Rattle.std.specs.Prelude.{None};

    ghost contents = { λ stream. None };

    ghost may_not_write = { Unit {0} };

    fn write_next(&mut self, bytes: &[u8]) -> io::Result<usize> {
        let count = bytes.len().min(2).min(self.room);
        self.got.extend_from_slice(&bytes[..count])?;
        self.room -= count;
        Ok(count)
    }

    fn pass_on(&mut self) -> io::Result<()> {
        Ok(())
    }
}

// The same by reference, so that what it got can be looked at later.
impl Writer for &mut Narrow {
    ghost use Rattle.std.specs.Prelude.{None};

    ghost contents = { λ stream. None };

    ghost may_not_write = { Unit {0} };

    fn write_next(&mut self, bytes: &[u8]) -> io::Result<usize> {
        (**self).write_next(bytes)
    }

    fn pass_on(&mut self) -> io::Result<()> {
        (**self).pass_on()
    }
}

// Whether a text is written whole, and of the next one what there is room for.
fn gets_what_fits(narrow: &mut Narrow) -> bool {
    let mut stream = Stream::new(narrow);
    let first = stream.write_all(b"Created") == Ok(());
    let second = stream.write_all(b" task 1.\n") == Err(StreamError::Failed);
    first & second
}

#[test]
fn a_stream_gets_all_bytes_or_fails(rt: HostRuntime) {
    let got = Vec::new(rt.alloc());
    let mut narrow = Narrow { got, room: 12 };
    assert!(rt; gets_what_fits(&mut narrow));
    assert_eq!(rt; narrow.got.as_slice(), b"Created task".as_slice());
}

// Whether two bytes are read, and then it fails.
fn gives_two(alloc: Global) -> bool {
    let got = Vec::new(alloc);
    let mut source = StreamSource::new(Narrow { got, room: 2 });
    let mut bytes = [0; 3];
    let first = source.read(&mut bytes) == Ok(2);
    let is = bytes == *b"xx\0";
    let second = source.read(&mut bytes) == Err(StreamError::Failed);
    first & is & second
}

#[test]
fn a_source_gives_what_is_read_or_fails(rt: HostRuntime) {
    assert!(rt; gives_two(rt.alloc()));
}

// Whether a peer of eight bytes gives two and takes six, and then fails.
fn gives_and_takes(alloc: Global) -> bool {
    let got = Vec::new(alloc);
    let mut peer = StreamPeer::new(Narrow { got, room: 8 });
    let mut bytes = [0; 3];
    let first = peer.read(&mut bytes) == Ok(2);
    let is = bytes == *b"xx\0";
    let reply = peer.write_all(b"reply") == Ok(());
    let more = peer.write_all(b"more") == Err(StreamError::Failed);
    let second = peer.read(&mut bytes) == Err(StreamError::Failed);
    let taken = peer.into_stream().got.as_slice() == b"replym".as_slice();
    first & is & reply & more & second & taken
}

#[test]
fn a_peer_reads_and_writes_or_fails(rt: HostRuntime) {
    assert!(rt; gives_and_takes(rt.alloc()));
}
