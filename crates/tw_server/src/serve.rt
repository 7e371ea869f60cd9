// One connection.
ghost use Rattle.std.specs.Prelude.{◌≡◌, ◌⊎◌, ◌≤◌, ◌+◌, true, false, length, IsTrue, Ok};
ghost use Rattle.tw_world.specs.Disk.{FaultsRise};
ghost use Rattle.tw_world.specs.Peer.{SameHeld, SameRest, sink_of};
ghost use Rattle.tw_world.specs.Sink.{SinkKept};
ghost use Rattle.tw_http.specs.Messages.{max_body, request_body, status_of};
ghost use Rattle.tw_http.specs.Serving.{refusal_of};
ghost use Rattle.tw_server.specs.Message.{IsReadUpTo};
ghost use Rattle.tw_server.specs.Serve.{IfSilent, IsAsked, IsSent, IsServedOrShort, IsStepOn, ServeEnded, SomeIsAsked, UnlessFault};
ghost use Rattle.tw_server.specs.Serve.{CutsAnswerOff, CutsMessageOff, ServesAnswer, ServesMessage, ServesRefusal};
ghost use Rattle.tw_server.specs.Server.{GrowsLogBy, OnLog, drawn_id, is_closed, server_end};
ghost use Rattle.tw_server.specs.Ends.{end_of};
ghost use Rattle.tw_server.specs.declared.serve.ServeEnd.TheVariants.{Closed, DiskFault};

use crate::error::AnswerError;
use crate::message::{MessageError, read_message};
use crate::server::Server;
use std::alloc::Global;
use tw_http::{HttpError, Request, Response, write_response};
use tw_world::{Disk, IdWords, Peer};

/// How the serving of a connection ends.
#[derive(Clone, Copy, Debug, PartialEq, Eq, Drop)]
pub enum ServeEnd {
    /// A response of this status was written.
    Served { status: u16 },
    /// The peer failed. A version or a snapshot may have been added, and a front part of the response may be written.
    PeerFault,
    /// The disk failed. After an append the server is closed.
    DiskFault,
    /// A fault of the disk closed the server before, and the message is a request.
    Closed,
    /// The bytes at this offset of the file are no record, or another one than the server knows there.
    Damaged { offset: u64 },
    /// There was no memory. A version or a snapshot may have been added.
    Memory,
}

/// Serves one connection: reads one message, answers it as the protocol does and writes the one text of the answer
/// (TaskChampion book, "HTTP Representation").
///
/// The message is the shortest front part of the peer's bytes that is a request or is refused. What is no request is
/// answered 400, or 413 if it is too long, and so is an input that ends inside a message. A version is on the disk before
/// its answer is written. Nothing is written on an end other than `Served` and `PeerFault`. If neither the peer nor the
/// disk fails, a server that is on its disk ends it by `Served`, or by `Memory`.
/// Reading takes 4,096 bytes at a time, so that some after the message may be taken, and stops once it is there.
pub fn serve_one<P: Peer, D: Disk>(
    alloc: Global,
    peer: &mut P,
    disk: &mut D,
    server: &mut Server,
    ids: &mut IdWords,
) -> ServeEnd
    requires { is_closed server.old ≡ false → D.model.len disk.old ≡ server_end server.old }

    ensures served { ServesMessage D.model server.old server.new disk.old disk.new P.model peer.old peer.new ids.old ids.new result }
    ensures step { IsStepOn D.model server.old server.new disk.old disk.new (IsAsked P.model peer.old) (drawn_id ids.old.start) }
    ensures growth { GrowsLogBy D.model server.old disk.old disk.new (max_body + 54) }
    ensures length { is_closed server.new ≡ false → D.model.len disk.new ≡ server_end server.new }
    ensures kept { FaultsRise D.model disk.old disk.new }

    ensures ended { ServeEnded D.model server.old server.new disk.old disk.new P.model peer.old peer.new (SomeIsAsked P.model peer.old) result }
    ensures complete { OnLog D.model server.old disk.old (λ log. UnlessFault D.model disk.old disk.new P.model peer.old peer.new (IsServedOrShort result)) }
    ensures taken { IsTrue (P.model.tells peer.old) → IsReadUpTo (P.model.rest peer.old) (P.model.rest peer.new) }
    ensures cut_off { CutsMessageOff D.model server.old server.new disk.old disk.new P.model peer.old peer.new ids.old ids.new result }
    ensures silent { IfSilent result (SameHeld P.model peer.old peer.new) }
    ensures closed { is_closed server.old ≡ true → ServesRefusal P.model peer.old result }
    ensures closes { is_closed server.new ≡ true → (is_closed server.old ≡ true) ⊎ (result ≡ DiskFault) }
{
    match read_message(alloc, peer) {
        Ok(Ok(request)) => serve_request(alloc, peer, disk, server, &request, ids),
        Ok(Err(error)) => send(alloc, peer, &refusal_of(error)),
        Err(MessageError::Peer) => ServeEnd::PeerFault,
        Err(MessageError::Memory) => ServeEnd::Memory,
    }
}

// Answers a request.
fn serve_request<P: Peer, D: Disk>(
    alloc: Global,
    peer: &mut P,
    disk: &mut D,
    server: &mut Server,
    request: &Request,
    ids: &mut IdWords,
) -> ServeEnd
    requires length { is_closed server.old ≡ false → D.model.len disk.old ≡ server_end server.old }
    requires fits { length (request_body request.now) ≤ max_body }

    ensures served { ServesAnswer D.model server.old server.new disk.old disk.new P.model peer.old peer.new ids.old ids.new (Ok request.now) result }
    ensures step { IsStepOn D.model server.old server.new disk.old disk.new (λ r. r ≡ request.now) (drawn_id ids.old.start) }
    ensures growth { GrowsLogBy D.model server.old disk.old disk.new (max_body + 54) }
    ensures length { is_closed server.new ≡ false → D.model.len disk.new ≡ server_end server.new }
    ensures kept { FaultsRise D.model disk.old disk.new }

    ensures ended { ServeEnded D.model server.old server.new disk.old disk.new P.model peer.old peer.new (Unit {0}) result }
    ensures rest { SameRest P.model peer.old peer.new }
    ensures cut_off { CutsAnswerOff D.model server.old server.new disk.old disk.new P.model peer.old peer.new ids.old ids.new (Ok request.now) result }
    ensures silent { IfSilent result (SameHeld P.model peer.old peer.new) }
    ensures closed { is_closed server.old ≡ true → result ≡ Closed }
    ensures closes { is_closed server.new ≡ true → (is_closed server.old ≡ true) ⊎ (result ≡ DiskFault) }
{
    match server.answer(alloc, disk, request, ids) {
        Ok(response) => send(alloc, peer, &response),
        Err(error) => end_of(error),
    }
}

// Writes a response.
fn send<P: Peer>(alloc: Global, peer: &mut P, response: &Response) -> ServeEnd
    ensures sent { IsSent P.model peer.old peer.new response.now result }
    ensures rest { SameRest P.model peer.old peer.new }
    ensures kept { SinkKept (sink_of P.model) peer.old peer.new }
{
    let Ok(text) = write_response(alloc, response) else {
        return ServeEnd::Memory;
    };
    if peer.write_all(text.as_slice()).is_err() {
        return ServeEnd::PeerFault;
    }
    ServeEnd::Served {
        status: status_of(response),
    }
}

fn status_of(response: &Response) -> u16
    ensures { result ≡ status_of response.now }
{
    match response {
        Response::Added { .. } => 200,
        Response::Conflict { .. } => 409,
        Response::Child { .. } => 200,
        Response::UpToDate => 404,
        Response::Gone => 410,
        Response::Bad => 400,
        Response::TooLong => 413,
        Response::Taken => 500,
        Response::Stored => 200,
        Response::Snapshot { .. } => 200,
    }
}

// The response to a message that is no request, or that ends too early.
pub(crate) fn refusal_of(error: HttpError) -> Response
    ensures { result ≡ refusal_of error }
{
    match error {
        HttpError::TooLong => Response::TooLong,
        _ => Response::Bad,
    }
}

// The end if a request is not answered. No request that is read has a record that is too long.
fn end_of(error: AnswerError) -> ServeEnd
    ensures { result ≡ end_of error }
{
    match error {
        AnswerError::Disk => ServeEnd::DiskFault,
        AnswerError::Closed => ServeEnd::Closed,
        AnswerError::Damaged { offset } => ServeEnd::Damaged { offset },
        AnswerError::TooLong { .. } => ServeEnd::Memory,
        AnswerError::Memory => ServeEnd::Memory,
    }
}
