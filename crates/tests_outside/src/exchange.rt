// The client's side of one exchange.

use std::alloc::Global;
use std::io;
use std::net::{Ipv4Addr, SocketAddr};
use std::test::Fail;
use std::time::Duration;
use tw_streams::{AskError, Dialer, Framing, TimedStream, ask};

// The bytes of the longest reply: a head of 16,384 and a body of 16,777,216.
const LONGEST: usize = 16_793_600;

// Gives so many of one byte, at most so many at a time, and takes three.
#[derive(Drop)]
struct Answer {
    byte: u8,
    left: usize,
    piece: usize,
}

impl TimedStream for Answer {
    ghost use Rattle.std.specs.Prelude.{None};

    ghost remaining = { λ stream. None };

    ghost contents = { λ stream. None };

    ghost waited = { λ stream nanos. Unit {0} };

    ghost is_ended = { λ stream. Unit {0} };

    ghost may_fail = { Unit {0} };

    fn read_within(&mut self, buffer: &mut [u8], _wait: Duration) -> io::Result<usize> {
        let count = buffer.len().min(self.piece).min(self.left);
        buffer[..count].fill(self.byte);
        self.left -= count;
        Ok(count)
    }

    fn write_within(&mut self, bytes: &[u8], _wait: Duration) -> io::Result<usize> {
        Ok(bytes.len().min(3))
    }

    fn end_writing(&mut self) -> io::Result<()> {
        Ok(())
    }
}

// A host with two addresses, of which the second answers.
#[derive(Drop)]
struct TwoAddresses {
    alloc: Global,
    byte: u8,
    bytes: usize,
    piece: usize,
}

impl Dialer for TwoAddresses {
    type Stream = Answer;

    ghost is_of = { λ host port address. Unit {0} };

    ghost leads_to = { λ stream address nanos. Unit {0} };

    ghost has_opened = { λ host count. Unit {0} };

    ghost may_fail = { Unit {0} };

    fn addresses(&self, _host: &str, port: u16) -> io::Result<Vec<SocketAddr>> {
        let mut found = Vec::new(self.alloc);
        for last in 1..3 {
            let ip = Ipv4Addr::new(127, 0, 0, last);
            found.push(SocketAddr::from((ip, port)))?;
        }
        Ok(found)
    }

    fn connect(&mut self, address: SocketAddr, _wait: Duration) -> io::Result<Answer> {
        if address == SocketAddr::from((Ipv4Addr::new(127, 0, 0, 2), 8080)) {
            return Ok(Answer {
                byte: self.byte,
                left: self.bytes,
                piece: self.piece,
            });
        }
        Err(io::Error::from(io::ErrorKind::ConnectionRefused))
    }
}

// The length of a reply is its first byte. A zero is none.
struct FirstByte;

impl Framing for FirstByte {
    ghost use Rattle.std.specs.Prelude.{◌≡◌, ◌<◌, ◌∷◌, List, ℕ};

    ghost ends_at = { λ bytes n. (0 < n) × (rest : List ℕ) × (bytes ≡ n ∷ rest) };

    fn len_of(&self, bytes: &[u8]) -> Option<usize> {
        match bytes {
            [] | [0, ..] => None,
            [first, ..] => Some(usize::from(*first)),
        }
    }
}

// A port, the byte that its second address gives, how often, how many at a time, and how many the reply has.
type Row = (u16, u8, usize, usize, Result<usize, AskError>);

const ROWS: [Row; 6] = [
    (8080, 0, 5, 2, Ok(5)),
    (8081, 0, 5, 2, Err(AskError::Failed)),
    (8080, 0, LONGEST + 1, LONGEST, Ok(LONGEST)),
    (8080, 7, 20, 2, Ok(7)),
    (8080, 7, 20, 20, Ok(20)),
    (8080, 7, 6, 4, Ok(6)),
];

fn is_all(byte: u8, bytes: &[u8]) -> bool {
    for other in bytes {
        if *other != byte {
            return false;
        }
    }
    true
}

// Whether a reply is read as a row says.
fn is_read(rt: &HostRuntime, row: &Row, reply: &mut Vec<u8>) -> bool {
    let (port, byte, bytes, piece, want) = *row;
    let mut host = TwoAddresses {
        alloc: rt.alloc(),
        byte,
        bytes,
        piece,
    };
    match ask(&mut host, rt, &FirstByte, "host", port, b"request", reply) {
        Ok(()) => want == Ok(reply.len()) && is_all(byte, reply),
        Err(error) => want == Err(error),
    }
}

// How many of the replies are read as wanted, up to the first that is not.
fn rows_so_far(rt: &HostRuntime, reply: &mut Vec<u8>) -> usize {
    for (number, row) in ROWS.iter().enumerate() {
        if !is_read(rt, row, reply) {
            return number;
        }
    }
    ROWS.len()
}

#[test]
fn a_reply_is_read_to_its_end_or_to_the_longest(rt: HostRuntime) -> Result<(), Fail> {
    let mut reply = b"an old reply".to_vec(rt.alloc())?;
    assert_eq!(rt; rows_so_far(&rt, &mut reply), ROWS.len());
    Ok(())
}
