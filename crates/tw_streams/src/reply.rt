// Reading a reply up to its end.
ghost use Rattle.std.specs.Prelude.{◌≡◌, ◌+◌, ◌-◌, ◌<◌, ◌≤◌, min, ℕ, List, ◌++◌, length, Some, IfSome, OnOk, IfErr, IsErrOf};
ghost use Rattle.std.specs.Io.KnownBytes.{Consumes};
ghost use Rattle.tw_streams.specs.Framing.{EndsAt, longest, IsLong, IsWhole, IsNoMore};

use crate::client::AskError;
use crate::reader::Reader;

/// What tells how long a reply is.
pub trait Framing {
    /// Holds if the reply that these bytes begin has so many bytes.
    ghost ends_at: { EndsAt };

    /// How many bytes the reply has that these bytes begin, as soon as they tell it.
    fn len_of(&self, bytes: &[u8]) -> Option<usize>
        ensures ends { IfSome result (λ n. (more : List ℕ) → ends_at (bytes.now ++ more) n) }
        ensures only { (n : ℕ) → ends_at bytes.now n → result ≡ Some n };
}

// As many as `longest`.
const MAX_REPLY: usize = 16_793_600;

const PIECE: usize = 65_536;

// Makes `reply` what is left of a stream: up to the end of the reply, or of the stream, or as many bytes as the longest reply has.
pub fn read_reply<S: Reader, N: Framing>(
    stream: &mut S,
    framing: &N,
    reply: &mut Vec<u8>,
) -> Result<(), AskError>
    ensures bytes { OnOk result (Consumes (S.remaining stream.old) (S.remaining stream.new) reply.new.items) }
    ensures whole { OnOk result (IsWhole N.ends_at (S.remaining stream.new) reply.new.items) }
    ensures no_more { OnOk result (IsNoMore N.ends_at reply.new.items) }
    ensures failed { IsErrOf result AskError.Failed → S.may_not_read }
{
    reply.clear();
    let mut piece = [0; PIECE];
    loop {
        let room = room_after(framing, reply.as_slice());
        if room == 0 {
            return Ok(());
        }
        match stream.read_next(&mut piece[..room]) {
            Ok(0) => return Ok(()),
            Ok(count) => add_piece(reply, &piece[..count])?,
            Err(_) => return Err(AskError::Failed),
        }
    }
}

fn add_piece(reply: &mut Vec<u8>, piece: &[u8]) -> Result<(), AskError>
    ensures added { OnOk result (reply.new.items ≡ reply.old.items ++ piece.now) }
    ensures memory { IfErr result (λ e. e ≡ AskError.Memory) }
{
    match reply.extend_from_slice(piece) {
        Ok(()) => Ok(()),
        Err(_) => Err(AskError::Memory),
    }
}

// How many bytes are read at once after these: none if they are enough.
fn room_after<N: Framing>(framing: &N, bytes: &[u8]) -> usize
    requires { length bytes.now ≤ longest }
    ensures piece { result ≤ 65536 }
    ensures longest { length bytes.now + result ≤ longest }
    ensures enough { result ≡ 0 → IsLong N.ends_at bytes.now }
    ensures known { (n : ℕ) → N.ends_at bytes.now n → 0 < result → length bytes.now + result ≤ n }
{
    match framing.len_of(bytes) {
        Some(len) => piece_up_to(len, bytes.len()),
        None => piece_up_to(MAX_REPLY, bytes.len()),
    }
}

fn piece_up_to(end: usize, done: usize) -> usize
    ensures { result ≡ min 65536 (min end longest - done) }
{
    PIECE.min(end.min(MAX_REPLY).saturating_sub(done))
}
