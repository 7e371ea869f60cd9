// The client's side of one exchange with a server.
ghost use Rattle.std.specs.Prelude.{◌⊎◌, OnOk, IfOk, IsErrOf};
ghost use Rattle.tw_streams.specs.Asked.{client_limits, Asked, Dialled, Exchanged, OpensOne};
ghost use Rattle.tw_streams.specs.Waits.{IsTooLate};

use crate::connection::{Connection, Limits};
use crate::dialer::Dialer;
use crate::reply::{Framing, read_reply};
use crate::stream::write_whole;
use crate::timed_stream::Timer;
use std::io;
use std::time::Duration;

/// Why an exchange brought no reply.
#[derive(Clone, Copy, Debug, PartialEq, Eq, Drop)]
pub enum AskError {
    /// No address was found or answered, or the connection failed or took too long.
    Failed,
    /// There was no memory for the addresses or the reply.
    Memory,
}

const CONNECT_SECONDS: u64 = 30;

const LIMITS: Limits = Limits {
    silence_seconds: 30,
    whole_seconds: 120,
    most_seconds: 600,
};

/// Sends a request over a connection of its own to the first address of the host that takes one, and makes `reply`
/// what comes back: all of it, or its first 16,793,600 bytes. It waits 30 seconds at most for an address, a
/// read or a write, and 120 for all reads and writes, with a millisecond more for each byte, up to 600 seconds. After
/// an error `reply` holds any bytes.
///
/// A reply ends where `framing` says, or else where the other end stops. What follows it may be read with its last piece.
pub fn ask<D: Dialer, C: Timer + Drop, N: Framing>(
    dialer: &mut D,
    clock: C,
    framing: &N,
    host: &str,
    port: u16,
    request: &[u8],
    reply: &mut Vec<u8>,
) -> Result<(), AskError>
    ensures opened { OpensOne D.has_opened dialer.old dialer.new result }
    ensures asked { OnOk result (Asked (Dialled (D.is_of host.now port) D.leads_to C.has_shown)
        (Exchanged D.Stream.contents D.Stream.remaining N.ends_at request.now reply.new.items)) }
    ensures only { IsErrOf result AskError.Failed → D.may_fail ⊎ C.may_fail ⊎ D.Stream.may_fail ⊎ IsTooLate C.has_shown clock client_limits }
{
    let mut connection = match dial(dialer, clock, host, port) {
        Ok(connection) => connection,
        Err(error) => return Err(error),
    };
    if !write_whole(&mut connection, request) {
        return Err(AskError::Failed);
    }
    match read_reply(&mut connection, framing, reply) {
        Ok(()) => Ok(()),
        Err(error) => Err(error),
    }
}

// Connects to the first address that answers.
fn dial<D: Dialer, C: Timer + Drop>(
    dialer: &mut D,
    clock: C,
    host: &str,
    port: u16,
) -> Result<Connection<C, D::Stream>, AskError>
    ensures opened { OpensOne D.has_opened dialer.old dialer.new result }
    ensures dialled { IfOk result (Dialled (D.is_of host.now port) D.leads_to C.has_shown) }
    ensures only { IsErrOf result AskError.Failed → D.may_fail ⊎ C.may_fail ⊎ IsTooLate C.has_shown clock client_limits }
{
    let addresses = match dialer.addresses(host, port) {
        Ok(addresses) => addresses,
        Err(error) if error.kind() == io::ErrorKind::OutOfMemory => return Err(AskError::Memory),
        Err(_) => return Err(AskError::Failed),
    };
    for address in addresses {
        if let Ok(stream) = dialer.connect(address, Duration::from_secs(CONNECT_SECONDS)) {
            return match Connection::new(clock, stream, LIMITS) {
                Ok(connection) => Ok(connection),
                Err(_) => Err(AskError::Failed),
            };
        }
    }
    Err(AskError::Failed)
}
