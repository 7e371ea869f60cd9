// Why bytes of others are no message: a cause for each kind of them.

use super::{request_refusal, response_refusal};
use std::alloc::Global;
use tw_http::{Asked, HttpError};

/// Requests as others write them, or that are none, and why they are not read.
const ODD_REQUESTS: [(&str, Option<HttpError>); 24] = [
    (
        "POST /v1/client/add-version/1A2B3C4D-0001-4002-8003-00000000000E HTTP/1.0\r\n\
         content-length: 0000000000000000002\r\nAccept: */*\r\n\
         CONTENT-TYPE:application/vnd.taskchampion.history-segment\r\n\
         x-client-id: \t1a2b3c4d-0001-4002-8003-00000000000f \r\n\r\n{}GET",
        None,
    ),
    (
        "GET /v1/client/get-child-version/1a2b3c4d-0001-4002-8003-00000000000e HTTP/1.1\r\n\
         X-Client-Id: 1a2b3c4d-0001-4002-8003-00000000000f\r\nContent-Length: 3\r\n\r\n{}",
        Some(HttpError::NotYet),
    ),
    ("\r\n\r\n", Some(HttpError::Head)),
    ("GET /\r\n\r\n", Some(HttpError::Head)),
    ("GET / HTTP/1.2\r\n\r\n", Some(HttpError::Head)),
    (
        "GET /v1/client/get-child-version/1a2b3c4d-0001-4002-8003-00000000000e HTTP/1.1\n\
         X-Client-Id: 1a2b3c4d-0001-4002-8003-00000000000f\n\nX: y\r\n\r\n",
        Some(HttpError::Head),
    ),
    ("GET / HTTP/1.1\r\n\r\n", Some(HttpError::Path)),
    (
        "PUT /v1/client/add-version/1a2b3c4d-0001-4002-8003-00000000000e HTTP/1.1\r\n\r\n",
        Some(HttpError::Path),
    ),
    (
        "GET /v1/client/add-version/1a2b3c4d-0001-4002-8003-00000000000e HTTP/1.1\r\n\r\n",
        Some(HttpError::Path),
    ),
    (
        "GET /v1/client/get-child-version/1a2b3c4d00014002800300000000000e HTTP/1.1\r\n\r\n",
        Some(HttpError::Path),
    ),
    (
        "GET /v1/client/get-child-version/1a2b3c4d-0001-4002-8003-00000000000e HTTP/1.1\r\n\r\n",
        Some(HttpError::Header),
    ),
    (
        "GET /v1/client/get-child-version/1a2b3c4d-0001-4002-8003-00000000000e HTTP/1.1\r\n\
         X-Client-Id: 1a2b3c4d-0001-4002-8003-00000000000f\r\n\
         X-Client-Id: 1a2b3c4d-0001-4002-8003-00000000000f\r\n\r\n",
        Some(HttpError::Header),
    ),
    (
        "GET /v1/client/get-child-version/1a2b3c4d-0001-4002-8003-00000000000e HTTP/1.1\r\n\
         X-Client-Id: {1a2b3c4d-0001-4002-8003-00000000000f}\r\n\r\n",
        Some(HttpError::Header),
    ),
    (
        "POST /v1/client/add-version/1a2b3c4d-0001-4002-8003-00000000000e HTTP/1.1\r\n\
         X-Client-Id: 1a2b3c4d-0001-4002-8003-00000000000f\r\n\
         Content-Type: application/json\r\n\r\n",
        Some(HttpError::Header),
    ),
    (
        "GET /v1/client/get-child-version/1a2b3c4d-0001-4002-8003-00000000000e HTTP/1.1\r\n\
         X-Client-Id: 1a2b3c4d-0001-4002-8003-00000000000f\r\n\
         transfer-encoding: chunked\r\n\r\n0\r\n\r\n",
        Some(HttpError::Length),
    ),
    (
        "POST /v1/client/add-version/1a2b3c4d-0001-4002-8003-00000000000e HTTP/1.1\r\n\
         X-Client-Id: 1a2b3c4d-0001-4002-8003-00000000000f\r\n\
         Content-Type: application/vnd.taskchampion.history-segment\r\n\r\n",
        Some(HttpError::Length),
    ),
    (
        "POST /v1/client/add-version/1a2b3c4d-0001-4002-8003-00000000000e HTTP/1.1\r\n\
         X-Client-Id: 1a2b3c4d-0001-4002-8003-00000000000f\r\n\
         Content-Type: application/vnd.taskchampion.history-segment\r\n\
         Content-Length: 2\r\nContent-Length: 2\r\n\r\n{}",
        Some(HttpError::Length),
    ),
    (
        "GET /v1/client/get-child-version/1a2b3c4d-0001-4002-8003-00000000000e HTTP/1.1\r\n\
         X-Client-Id: 1a2b3c4d-0001-4002-8003-00000000000f\r\nContent-Length:\r\n\r\n",
        Some(HttpError::Length),
    ),
    (
        "GET /v1/client/get-child-version/1a2b3c4d-0001-4002-8003-00000000000e HTTP/1.1\r\n\
         X-Client-Id: 1a2b3c4d-0001-4002-8003-00000000000f\r\nContent-Length: +2\r\n\r\n{}",
        Some(HttpError::Length),
    ),
    (
        "GET /v1/client/get-child-version/1a2b3c4d-0001-4002-8003-00000000000e HTTP/1.1\r\n\
         X-Client-Id: 1a2b3c4d-0001-4002-8003-00000000000f\r\n\
         Content-Length: 00000000000000000002\r\n\r\n{}",
        Some(HttpError::Length),
    ),
    (
        "GET /v1/client/get-child-version/1a2b3c4d-0001-4002-8003-00000000000e HTTP/1.1\r\n\
         X-Client-Id: 1a2b3c4d-0001-4002-8003-00000000000f\r\n\
         Content-Length: 9999999999999999999\r\n\r\n{}",
        Some(HttpError::TooLong),
    ),
    (
        "GET /v1/client/get-child-version/1a2b3c4d-0001-4002-8003-00000000000e HTTP/1.1\r\n\
         X-Client-Id: 1a2b3c4d-0001-4002-8003-00000000000f\r\n\
         Content-Length: 16777217\r\n\r\n",
        Some(HttpError::TooLong),
    ),
    (
        "GET /v1/client/get-child-version/1a2b3c4d-0001-4002-8003-00000000000e HTTP/1.1\r\n\
         X-Client-Id: 1a2b3c4d-0001-4002-8003-00000000000f\r\n\
         Content-Length: 16777216\r\n\r\n",
        Some(HttpError::NotYet),
    ),
    ("GET / HTTP/1.1\r\nHost: a\r\n", Some(HttpError::NotYet)),
];

/// How many of the requests are refused as wanted, up to the first that is not.
fn odd_requests_so_far(alloc: Global) -> usize {
    for (number, (text, refusal)) in ODD_REQUESTS.iter().enumerate() {
        if request_refusal(alloc, text.as_bytes()) != *refusal {
            return number;
        }
    }
    ODD_REQUESTS.len()
}

#[test]
fn each_refusal_of_a_request_has_its_cause(rt: HostRuntime) {
    assert_eq!(rt; odd_requests_so_far(rt.alloc()), ODD_REQUESTS.len());
}

/// Responses as others write them, or that are none, and why they are not read.
const ODD_RESPONSES: [(Asked, &str, Option<HttpError>); 14] = [
    (
        Asked::Child,
        "HTTP/1.1 404\r\ncontent-length: 5\r\ndate: now\r\n\r\nnone!more",
        None,
    ),
    (
        Asked::Add,
        "HTTP/1.1 200 OK\r\ncontent-length: 0\r\n\
         x-version-id: 1A2B3C4D-0001-4002-8003-00000000000E\r\n\r\n",
        None,
    ),
    (Asked::Add, "HTTP/2 200\r\n\r\n", Some(HttpError::Head)),
    (
        Asked::Add,
        "HTTP/1.1 404 Not Found\r\nContent-Length: 0\r\n\r\n",
        Some(HttpError::Status { code: 404 }),
    ),
    (
        Asked::Add,
        "HTTP/1.1 410 Gone\r\nContent-Length: 0\r\n\r\n",
        Some(HttpError::Status { code: 410 }),
    ),
    (
        Asked::Child,
        "HTTP/1.1 409 Conflict\r\nContent-Length: 0\r\n\
         X-Parent-Version-Id: 1a2b3c4d-0001-4002-8003-00000000000e\r\n\r\n",
        Some(HttpError::Status { code: 409 }),
    ),
    (
        Asked::Child,
        "HTTP/1.1 302 Found\r\nLocation: /\r\n\r\n",
        Some(HttpError::Status { code: 302 }),
    ),
    (
        Asked::Add,
        "HTTP/1.1 200 OK\r\nContent-Length: 0\r\n\r\n",
        Some(HttpError::Header),
    ),
    (
        Asked::Child,
        "HTTP/1.1 200 OK\r\nContent-Length: 0\r\n\
         X-Version-Id: 1a2b3c4d-0001-4002-8003-00000000000e\r\n\r\n",
        Some(HttpError::Header),
    ),
    (
        Asked::Add,
        "HTTP/1.1 409 Conflict\r\nContent-Length: 0\r\n\
         X-Version-Id: 1a2b3c4d-0001-4002-8003-00000000000e\r\n\r\n",
        Some(HttpError::Header),
    ),
    (
        Asked::Add,
        "HTTP/1.1 409 Conflict\r\n\r\n",
        Some(HttpError::Header),
    ),
    (
        Asked::Child,
        "HTTP/1.1 410 Gone\r\n\r\n",
        Some(HttpError::Length),
    ),
    (
        Asked::Child,
        "HTTP/1.1 410 Gone\r\nContent-Length: 16777217\r\n\r\n",
        Some(HttpError::TooLong),
    ),
    (
        Asked::Child,
        "HTTP/1.1 410 Gone\r\nContent-Length: 1\r\n\r\n",
        Some(HttpError::NotYet),
    ),
];

/// How many of the responses are refused as wanted, up to the first that is not.
fn odd_responses_so_far(alloc: Global) -> usize {
    for (number, (asked, text, refusal)) in ODD_RESPONSES.iter().enumerate() {
        if response_refusal(alloc, text.as_bytes(), *asked) != *refusal {
            return number;
        }
    }
    ODD_RESPONSES.len()
}

#[test]
fn each_refusal_of_a_response_has_its_cause(rt: HostRuntime) {
    assert_eq!(rt; odd_responses_so_far(rt.alloc()), ODD_RESPONSES.len());
}
