// Reads a response.
ghost use Rattle.std.specs.Prelude.{◌≡◌, ◌++◌, ◌≤◌, length, map, take, drop, All, List, ℕ};
ghost use Rattle.httparse.specs.Spans.{IsHeaderWithin, header_bytes};
ghost use Rattle.tw_http.specs.Responses.{refused, is_urgent, urgent, wanted_in, added_in, conflict_in, child_in, snapshot_in, kind_in};
ghost use Rattle.tw_http.specs.Responses.{response_made, response_after, IsResponseHeadAnswer, IsResponseAnswer};
ghost use Rattle.tw_http.specs.Faults.{Unless, Decided};

use crate::body::{body_len, body_of};
use crate::fields::{same_name, uuid_field};
use crate::head::{first_bytes, head_len, no_head};
use crate::message::{Asked, Bytes, HttpError, Response};
use httparse::Status;
use httparse::spans::{EMPTY_HEADER_SPAN, HeaderSpan, parse_response};
use std::alloc::Global;
use uuid::Uuid;

/// Reads the response that bytes begin with, to what was asked, and passes over what follows it
/// (RFC 9112, section 2.1).
///
/// The refusals come in this order. `NotYet`: the head, or the body, is not all there. `TooLong`: no head
/// ends within 16,384 bytes, or the body's length passes 16,777,216 bytes. `Head`: it is no head of HTTP/1.0
/// or 1.1 with at most 64 header lines. `Status`: a status that this request never gets. `Header`: an id that
/// the response needs is missing, doubled or no hyphenated uuid. `Length`: a transfer coding, or no length of
/// 1 to 19 digits. `Path` never comes.
/// An answer other than `NotYet` and `Memory` is the same whatever bytes follow.
pub fn read_response(alloc: Global, bytes: &[u8], asked: Asked) -> Result<Response, HttpError>
    ensures answer { Unless (IsResponseAnswer asked bytes.now) result }
    ensures decided { (more : List ℕ) → Decided (IsResponseAnswer asked (bytes.now ++ more)) result }
{
    match head_len(first_bytes(bytes)) {
        Some(n) => response_at(alloc, asked, bytes, n),
        None => Err(no_head(bytes)),
    }
}

fn response_at(alloc: Global, asked: Asked, bytes: &[u8], n: usize) -> Result<Response, HttpError>
    requires { n ≤ length bytes.now }
    ensures { Unless (IsResponseHeadAnswer asked (take n bytes.now) (drop n bytes.now)) result }
{
    let (front, rest) = bytes.split_at(n);
    response_of_head(alloc, asked, front, rest)
}

fn response_of_head(
    alloc: Global,
    asked: Asked,
    front: &[u8],
    rest: &[u8],
) -> Result<Response, HttpError>
    ensures { Unless (IsResponseHeadAnswer asked front.now rest.now) result }
{
    let mut headers = [EMPTY_HEADER_SPAN; 64];
    match parse_response(front, &mut headers) {
        Ok(Status::Complete(head)) => {
            if head.len == front.len() {
                response_after(
                    alloc,
                    asked,
                    head.code,
                    front,
                    &headers[..head.headers],
                    rest,
                )
            } else {
                Err(HttpError::Head)
            }
        }
        _ => Err(HttpError::Head),
    }
}

#[tactic(auto, unfolding(crate::specs::Responses::response_after))]
fn response_after(
    alloc: Global,
    asked: Asked,
    status: u16,
    front: &[u8],
    headers: &[HeaderSpan],
    rest: &[u8],
) -> Result<Response, HttpError>
    requires { All (IsHeaderWithin (length front.now)) headers.now }
    ensures { Unless (λ r. r ≡ response_after asked status (map (header_bytes front.now) headers.now) rest.now) result }
{
    let kind = kind_in(asked, status, front, headers)?;
    let n = body_len(true, front, headers)?;
    let body = body_of(alloc, n, rest)?;
    Ok(response_made(kind, body))
}

// A response without its body.
#[derive(Clone, Copy)]
enum Kind {
    Added { id: Uuid, wanted: bool },
    Conflict { latest: Uuid },
    Child { id: Uuid, parent: Uuid },
    UpToDate,
    Gone,
    Bad,
    TooLong,
    Taken,
    Stored,
    Snapshot { version: Uuid },
}

fn kind_in(
    asked: Asked,
    status: u16,
    front: &[u8],
    headers: &[HeaderSpan],
) -> Result<Kind, HttpError>
    requires { All (IsHeaderWithin (length front.now)) headers.now }
    ensures { result ≡ kind_in asked status (map (header_bytes front.now) headers.now) }
{
    match asked {
        Asked::Add => match status {
            200 => added_in(front, headers),
            409 => conflict_in(front, headers),
            _ => refused(status),
        },
        Asked::Child => match status {
            200 => child_in(front, headers),
            404 => Ok(Kind::UpToDate),
            410 => Ok(Kind::Gone),
            _ => refused(status),
        },
        Asked::AddSnapshot => match status {
            200 => Ok(Kind::Stored),
            _ => refused(status),
        },
        Asked::Snapshot => match status {
            200 => snapshot_in(front, headers),
            404 => Ok(Kind::UpToDate),
            _ => refused(status),
        },
    }
}

fn added_in(front: &[u8], headers: &[HeaderSpan]) -> Result<Kind, HttpError>
    requires { All (IsHeaderWithin (length front.now)) headers.now }
    ensures { result ≡ added_in (map (header_bytes front.now) headers.now) }
{
    let id = uuid_field(front, headers, b"X-Version-Id")?;
    let wanted = wanted_in(front, headers);
    Ok(Kind::Added { id, wanted })
}

// Exactly one field asks for a snapshot.
fn wanted_in(front: &[u8], headers: &[HeaderSpan]) -> bool
    requires { All (IsHeaderWithin (length front.now)) headers.now }
    ensures { result ≡ wanted_in (map (header_bytes front.now) headers.now) }
{
    let mut found: usize = 0;
    let mut at = 0;
    while at < headers.len() {
        let header = headers[at];
        if is_urgent(header.name.of(front), header.value.of(front)) {
            found += 1;
        }
        at += 1;
    }
    found == 1
}

fn is_urgent(name: &[u8], value: &[u8]) -> bool
    ensures { result ≡ is_urgent (name.now, value.now) }
{
    same_name(name, b"X-Snapshot-Request")
        && (value == b"urgency=high".as_slice() || value == b"urgency=low".as_slice())
}

fn conflict_in(front: &[u8], headers: &[HeaderSpan]) -> Result<Kind, HttpError>
    requires { All (IsHeaderWithin (length front.now)) headers.now }
    ensures { result ≡ conflict_in (map (header_bytes front.now) headers.now) }
{
    let latest = uuid_field(front, headers, b"X-Parent-Version-Id")?;
    Ok(Kind::Conflict { latest })
}

fn child_in(front: &[u8], headers: &[HeaderSpan]) -> Result<Kind, HttpError>
    requires { All (IsHeaderWithin (length front.now)) headers.now }
    ensures { result ≡ child_in (map (header_bytes front.now) headers.now) }
{
    let id = uuid_field(front, headers, b"X-Version-Id")?;
    let parent = uuid_field(front, headers, b"X-Parent-Version-Id")?;
    Ok(Kind::Child { id, parent })
}

fn snapshot_in(front: &[u8], headers: &[HeaderSpan]) -> Result<Kind, HttpError>
    requires { All (IsHeaderWithin (length front.now)) headers.now }
    ensures { result ≡ snapshot_in (map (header_bytes front.now) headers.now) }
{
    let version = uuid_field(front, headers, b"X-Version-Id")?;
    Ok(Kind::Snapshot { version })
}

// The statuses that any request may get.
fn refused(status: u16) -> Result<Kind, HttpError>
    ensures { result ≡ refused status }
{
    match status {
        400 => Ok(Kind::Bad),
        413 => Ok(Kind::TooLong),
        500 => Ok(Kind::Taken),
        _ => Err(HttpError::Status { code: status }),
    }
}

fn response_made(kind: Kind, body: Bytes) -> Response
    ensures { result ≡ response_made kind body }
{
    match kind {
        Kind::Added { id, wanted } => Response::Added { id, wanted },
        Kind::Conflict { latest } => Response::Conflict { latest },
        Kind::Child { id, parent } => Response::Child {
            id,
            parent,
            segment: body,
        },
        Kind::UpToDate => Response::UpToDate,
        Kind::Gone => Response::Gone,
        Kind::Bad => Response::Bad,
        Kind::TooLong => Response::TooLong,
        Kind::Taken => Response::Taken,
        Kind::Stored => Response::Stored,
        Kind::Snapshot { version } => Response::Snapshot {
            version,
            bytes: body,
        },
    }
}
