// Finds the end of a response (RFC 9112, section 6.3).
ghost use Rattle.std.specs.Prelude.{◌≡◌, ◌++◌, ◌≤◌, length, map, All, List, ℕ, true, IfSome};
ghost use Rattle.httparse.specs.Spans.{IsHeaderWithin, header_bytes};
ghost use Rattle.tw_http.specs.Messages.{max_head};
ghost use Rattle.tw_http.specs.Bodies.{body_len as given_len};
ghost use Rattle.tw_http.specs.Lengths.{with_body, IsLenByHead, IsResponseLen, ResponseEndsAt};

use crate::body::{body_len, read_of_body};
use crate::head::{first_bytes, head_len};
use httparse::Status;
use httparse::spans::{EMPTY_HEADER_SPAN, HeaderSpan, parse_response};

/// How many bytes the response has that bytes begin with, its head and its body, as soon as the head is there.
///
/// A body above 16,777,216 bytes is not counted, since [`read_response`](crate::read_response) refuses the response
/// by its head. There is no length before the head is whole, nor if the head is refused or gives none.
pub fn response_len(bytes: &[u8]) -> Option<usize>
    ensures is { IsResponseLen bytes.now result }
    ensures ends { IfSome result (λ n. (more : List ℕ) → ResponseEndsAt (bytes.now ++ more) n) }
{
    match head_len(first_bytes(bytes)) {
        Some(n) => len_by_head(&bytes[..n]),
        None => None,
    }
}

fn len_by_head(front: &[u8]) -> Option<usize>
    requires { length front.now ≤ max_head }
    ensures { IsLenByHead front.now result }
{
    let mut headers = [EMPTY_HEADER_SPAN; 64];
    match parse_response(front, &mut headers) {
        Ok(Status::Complete(head)) => {
            if head.len == front.len() {
                with_body(front, &headers[..head.headers])
            } else {
                None
            }
        }
        _ => None,
    }
}

fn with_body(front: &[u8], headers: &[HeaderSpan]) -> Option<usize>
    requires few { length front.now ≤ max_head }
    requires within { All (IsHeaderWithin (length front.now)) headers.now }
    ensures { result ≡ with_body (length front.now) (given_len true (map (header_bytes front.now) headers.now)) }
{
    match body_len(true, front, headers) {
        Ok(n) => Some(front.len() + read_of_body(n)),
        Err(_) => None,
    }
}
