// How long a head and a body may be.

use super::request_refusal;
use std::alloc::Global;
use std::test::Fail;
use tw_http::{Asked, HttpError, Response, read_response};

const LINE: &str =
    "GET /v1/client/get-child-version/1a2b3c4d-0001-4002-8003-00000000000e HTTP/1.1\r\n\
                    X-Client-Id: 1a2b3c4d-0001-4002-8003-00000000000f\r\n";

/// A request whose head has so many bytes.
fn request_of(alloc: Global, bytes: usize) -> Result<Vec<u8>, Fail> {
    let mut text = LINE.as_bytes().to_vec(alloc)?;
    text.extend_from_slice(b"A: ")?;
    for _ in text.len()..bytes.saturating_sub(4) {
        text.push(b'a')?;
    }
    text.extend_from_slice(b"\r\n\r\n")?;
    Ok(text)
}

/// A request with so many header lines.
fn request_with(alloc: Global, lines: u8) -> Result<Vec<u8>, Fail> {
    let mut text = LINE.as_bytes().to_vec(alloc)?;
    for _ in 1..lines {
        text.extend_from_slice(b"A: b\r\n")?;
    }
    text.extend_from_slice(b"\r\n")?;
    Ok(text)
}

/// Why a head of so many bytes is refused, or nothing.
fn refusal_at(alloc: Global, bytes: usize) -> Result<Option<HttpError>, Fail> {
    let text = request_of(alloc, bytes)?;
    if text.len() != bytes {
        return Err(Fail::new("another length"));
    }
    Ok(request_refusal(alloc, text.as_slice()))
}

/// Why a head of so many header lines is refused, or nothing.
fn refusal_with(alloc: Global, lines: u8) -> Result<Option<HttpError>, Fail> {
    let text = request_with(alloc, lines)?;
    Ok(request_refusal(alloc, text.as_slice()))
}

/// Whether a head is taken at its limits and refused past them: of what ends nowhere, of bytes, and of lines.
fn has_its_limits(alloc: Global) -> Result<bool, Fail> {
    let letters = [97u8; 16_384];
    let endless = request_refusal(alloc, letters.as_slice()) == Some(HttpError::TooLong);
    let not_yet = request_refusal(alloc, &letters[1..]) == Some(HttpError::NotYet);
    let longest = refusal_at(alloc, 16_384)? == None;
    let longer = refusal_at(alloc, 16_385)? == Some(HttpError::TooLong);
    let most = refusal_with(alloc, 64)? == None;
    let more = refusal_with(alloc, 65)? == Some(HttpError::Head);
    Ok(endless & not_yet & longest & longer & most & more)
}

#[test]
fn a_head_has_its_limits(rt: HostRuntime) -> Result<(), Fail> {
    assert!(rt; has_its_limits(rt.alloc())?);
    Ok(())
}

/// Whether a reply with a body of 16 mebibytes is read.
fn reads_the_longest(alloc: Global) -> Result<bool, Fail> {
    let mut text = b"HTTP/1.1 200 OK\r\nContent-Length: 16777216\r\n\
        X-Version-Id: 1a2b3c4d-0001-4002-8003-00000000000e\r\n\
        X-Parent-Version-Id: 1a2b3c4d-0001-4002-8003-00000000000d\r\n\r\n"
        .to_vec(alloc)?;
    let body = vec![in alloc; 120; 16_777_216]?;
    text.extend_from_slice(body.as_slice())?;
    let Ok(Response::Child { segment, .. }) = read_response(alloc, text.as_slice(), Asked::Child)
    else {
        return Err(Fail::new("not read"));
    };
    Ok(segment.as_slice() == body.as_slice())
}

#[test]
fn a_body_of_16_mebibytes_is_read(rt: HostRuntime) -> Result<(), Fail> {
    assert!(rt; reads_the_longest(rt.alloc())?);
    Ok(())
}
