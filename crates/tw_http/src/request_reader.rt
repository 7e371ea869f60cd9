// Reads a request.
ghost use Rattle.std.specs.Prelude.{◌≡◌, ◌++◌, ◌≤◌, length, map, take, drop, take_while, All, option_map, List, ℕ};
ghost use Rattle.httparse.specs.Spans.{IsHeaderWithin, header_bytes};
ghost use Rattle.tw_http.specs.Requests.{after_prefix, uuid_after, posted, fetched, asked_of, content_type, has_body, is_before_parameters, media_type, is_type, typed_as};
ghost use Rattle.tw_http.specs.Requests.{request_made, request_after, IsRequestHeadAnswer, IsRequestAnswer};
ghost use Rattle.tw_http.specs.Faults.{Unless, Decided};

use crate::body::{body_len, body_of};
use crate::fields::{only_value, read_uuid, same_name, uuid_field};
use crate::head::{first_bytes, head_len, no_head};
use crate::message::{Bytes, HttpError, Request};
use httparse::Status;
use httparse::spans::{EMPTY_HEADER_SPAN, HeaderSpan, parse_request};
use std::alloc::Global;
use uuid::Uuid;

/// Reads the request that bytes begin with, and passes over what follows it (RFC 9112, section 2.1).
///
/// The refusals come in this order. `NotYet`: the head, or the body, is not all there. `TooLong`: no head
/// ends within 16,384 bytes, or the body's length passes 16,777,216 bytes. `Head`: it is no head of HTTP/1.0
/// or 1.1 with at most 64 header lines. `Path`: it is neither add-version, get-child-version nor add-snapshot
/// of a hyphenated uuid, nor snapshot. `Header`: the client's id or the content type is missing, doubled or another.
/// `Length`: a transfer coding, or no length of 1 to 19 digits. `Status` never comes.
/// An answer other than `NotYet` and `Memory` is the same whatever bytes follow.
pub fn read_request(alloc: Global, bytes: &[u8]) -> Result<Request, HttpError>
    ensures answer { Unless (IsRequestAnswer bytes.now) result }
    ensures decided { (more : List ℕ) → Decided (IsRequestAnswer (bytes.now ++ more)) result }
{
    match head_len(first_bytes(bytes)) {
        Some(n) => request_at(alloc, bytes, n),
        None => Err(no_head(bytes)),
    }
}

fn request_at(alloc: Global, bytes: &[u8], n: usize) -> Result<Request, HttpError>
    requires { n ≤ length bytes.now }
    ensures { Unless (IsRequestHeadAnswer (take n bytes.now) (drop n bytes.now)) result }
{
    let (front, rest) = bytes.split_at(n);
    request_of_head(alloc, front, rest)
}

fn request_of_head(alloc: Global, front: &[u8], rest: &[u8]) -> Result<Request, HttpError>
    ensures { Unless (IsRequestHeadAnswer front.now rest.now) result }
{
    let mut headers = [EMPTY_HEADER_SPAN; 64];
    match parse_request(front, &mut headers) {
        Ok(Status::Complete(head)) => {
            if head.len == front.len() {
                request_after(
                    alloc,
                    head.method.of(front),
                    head.path.of(front),
                    front,
                    &headers[..head.headers],
                    rest,
                )
            } else {
                Err(HttpError::Head)
            }
        }
        _ => Err(HttpError::Head),
    }
}

#[tactic(auto, unfolding(crate::specs::Requests::request_after))]
fn request_after(
    alloc: Global,
    method: &[u8],
    target: &[u8],
    front: &[u8],
    headers: &[HeaderSpan],
    rest: &[u8],
) -> Result<Request, HttpError>
    requires { All (IsHeaderWithin (length front.now)) headers.now }
    ensures { Unless (λ r. r ≡ request_after method.now target.now (map (header_bytes front.now) headers.now) rest.now) result }
{
    let Some(asked) = asked_of(method, target) else {
        return Err(HttpError::Path);
    };
    let client = uuid_field(front, headers, b"X-Client-Id")?;
    typed_as(content_type(&asked), front, headers)?;
    let n = body_len(has_body(&asked), front, headers)?;
    let body = body_of(alloc, n, rest)?;
    Ok(request_made(asked, client, body))
}

// What a method and a target ask.
#[derive(Clone, Copy)]
enum Target {
    Add { parent: Uuid },
    Child { parent: Uuid },
    Store { version: Uuid },
    Fetch,
}

fn asked_of(method: &[u8], target: &[u8]) -> Option<Target>
    ensures { result ≡ asked_of method.now target.now }
{
    if method == b"POST".as_slice() {
        return posted(target);
    }
    if method == b"GET".as_slice() {
        return fetched(target);
    }
    None
}

fn posted(target: &[u8]) -> Option<Target>
    ensures { result ≡ posted target.now }
{
    match uuid_after(target, b"/v1/client/add-version/") {
        Some(parent) => Some(Target::Add { parent }),
        None => {
            let version = uuid_after(target, b"/v1/client/add-snapshot/")?;
            Some(Target::Store { version })
        }
    }
}

fn fetched(target: &[u8]) -> Option<Target>
    ensures { result ≡ fetched target.now }
{
    match uuid_after(target, b"/v1/client/get-child-version/") {
        Some(parent) => Some(Target::Child { parent }),
        None => {
            if target == b"/v1/client/snapshot".as_slice() {
                Some(Target::Fetch)
            } else {
                None
            }
        }
    }
}

fn uuid_after(target: &[u8], prefix: &[u8]) -> Option<Uuid>
    ensures { result ≡ uuid_after prefix.now target.now }
{
    read_uuid(after_prefix(target, prefix)?)
}

fn after_prefix<'t>(text: &'t [u8], prefix: &[u8]) -> Option<&'t [u8]>
    ensures { option_map (λ t. t.now) result ≡ after_prefix prefix.now text.now }
{
    if text.starts_with(prefix) {
        Some(&text[prefix.len()..])
    } else {
        None
    }
}

// The type of the body of what is asked.
fn content_type(asked: &Target) -> Option<&'static [u8]>
    ensures { option_map (λ t. t.now) result ≡ content_type asked.now }
{
    match asked {
        Target::Add { .. } => Some(b"application/vnd.taskchampion.history-segment"),
        Target::Child { .. } => None,
        Target::Store { .. } => Some(b"application/vnd.taskchampion.snapshot"),
        Target::Fetch => None,
    }
}

fn has_body(asked: &Target) -> bool
    ensures { result ≡ has_body asked.now }
{
    match asked {
        Target::Add { .. } => true,
        Target::Child { .. } => false,
        Target::Store { .. } => true,
        Target::Fetch => false,
    }
}

// A request with a body has the one type.
fn typed_as(needed: Option<&[u8]>, front: &[u8], headers: &[HeaderSpan]) -> Result<(), HttpError>
    requires { All (IsHeaderWithin (length front.now)) headers.now }
    ensures { result ≡ typed_as (option_map (λ t. t.now) needed.entry) (map (header_bytes front.now) headers.now) }
{
    match needed {
        Some(needed) => {
            if is_type(needed, only_value(front, headers, b"Content-Type")) {
                Ok(())
            } else {
                Err(HttpError::Header)
            }
        }
        None => Ok(()),
    }
}

fn is_type(needed: &[u8], value: Option<&[u8]>) -> bool
    ensures { result ≡ is_type needed.now (option_map (λ v. v.now) value.entry) }
{
    match value {
        Some(value) => same_name(media_type(value), needed),
        None => false,
    }
}

// A media type, without its parameters and the blanks before them.
fn media_type(value: &[u8]) -> &[u8]
    ensures { result.now ≡ media_type value.now }
{
    value[..type_len(value)].trim_ascii_end()
}

fn type_len(value: &[u8]) -> usize
    ensures value { result ≡ length (take_while is_before_parameters value.now) }
    ensures bound { result ≤ length value.now }
{
    value.iter().take_while(|c| **c != b';').count()
}

fn request_made(asked: Target, client: Uuid, body: Bytes) -> Request
    ensures { result ≡ request_made asked client body }
{
    match asked {
        Target::Add { parent } => Request::Add {
            client,
            parent,
            segment: body,
        },
        Target::Child { parent } => Request::Child { client, parent },
        Target::Store { version } => Request::AddSnapshot {
            client,
            version,
            snapshot: body,
        },
        Target::Fetch => Request::Snapshot { client },
    }
}
