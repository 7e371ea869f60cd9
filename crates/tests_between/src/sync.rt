// What no clause says: that a sync comes to its end, and that each kind of reply is met.
mod script;
mod snapshots;
mod stops;

use self::script::always;
use std::alloc::Global;
use std::test::Fail;
use tw_replica::Replica;
use tw_sync::{ReplyKind, SyncError, SyncReport, sync};
use tw_world::MemoryDisk;
use uuid::Uuid;

const HOST: &str = "localhost:8080";

// What a sync of a new replica comes to where each reply of the server is this one.
fn ended(alloc: Global, reply: &'static str) -> Result<Result<SyncReport, SyncError>, Fail> {
    let mut disk = MemoryDisk::new(alloc, Vec::new(alloc), Vec::new(alloc))?;
    let Ok(mut replica) = Replica::open(alloc, &mut disk) else {
        return Err(Fail::from("no replica"));
    };
    let mut link = always(reply);
    let client = Uuid::from_bytes([9; 16]);
    Ok(sync(alloc, &mut replica, &mut disk, &mut link, client, HOST))
}

const REFUSED: [(&str, ReplyKind); 11] = [
    ("HTTP/1.1 200 OK\r\n", ReplyKind::Cut),
    ("SSH-2.0\r\n\r\n", ReplyKind::Head),
    (
        "HTTP/1.1 200 OK\r\nContent-Length: 0\r\n\r\n",
        ReplyKind::Header,
    ),
    ("HTTP/1.1 404 Not Found\r\n\r\n", ReplyKind::Length),
    (
        "HTTP/1.1 404 Not Found\r\nContent-Length: 16777217\r\n\r\n",
        ReplyKind::TooLong,
    ),
    (
        "HTTP/1.1 200 OK\r\nContent-Length: 0\r\nX-Version-Id: 00000000-0000-0000-0000-000000000000\r\n\
         X-Parent-Version-Id: 00000000-0000-4000-8000-000000000002\r\n\r\n",
        ReplyKind::Parent,
    ),
    (
        "HTTP/1.1 200 OK\r\nContent-Length: 0\r\nX-Version-Id: 00000000-0000-0000-0000-000000000000\r\n\
         X-Parent-Version-Id: 00000000-0000-0000-0000-000000000000\r\n\r\n",
        ReplyKind::Nil,
    ),
    (
        "HTTP/1.1 400 Bad Request\r\nContent-Length: 0\r\n\r\n",
        ReplyKind::Status { code: 400 },
    ),
    (
        "HTTP/1.1 413 Payload Too Large\r\nContent-Length: 0\r\n\r\n",
        ReplyKind::Status { code: 413 },
    ),
    (
        "HTTP/1.1 500 Internal Server Error\r\nContent-Length: 0\r\n\r\n",
        ReplyKind::Status { code: 500 },
    ),
    (
        "HTTP/1.1 409 Conflict\r\nContent-Length: 0\r\n\r\n",
        ReplyKind::Status { code: 409 },
    ),
];

fn is_refused(alloc: Global, reply: &'static str, kind: ReplyKind) -> Result<bool, Fail> {
    Ok(ended(alloc, reply)? == Err(SyncError::Reply { kind }))
}

// How many of the replies are refused as wanted, up to the first that is not.
fn refused_so_far(alloc: Global) -> Result<usize, Fail> {
    for (number, (reply, kind)) in REFUSED.iter().enumerate() {
        if !is_refused(alloc, *reply, *kind)? {
            return Ok(number);
        }
    }
    Ok(REFUSED.len())
}

#[test]
fn each_bad_reply_is_told_by_its_kind(rt: HostRuntime) -> Result<(), Fail> {
    assert_eq!(rt; refused_so_far(rt.alloc())?, REFUSED.len());
    Ok(())
}

const NONE: &str = "HTTP/1.1 404 Not Found\r\nContent-Length: 0\r\n\r\n";

const GONE: &str = "HTTP/1.1 410 Gone\r\nContent-Length: 0\r\n\r\n";

// Whether a sync that finds no version reports nothing.
fn reports_nothing(alloc: Global) -> Result<bool, Fail> {
    let report = SyncReport {
        pulled: 0,
        dropped: 0,
        pushed: 0,
        base: Uuid::nil(),
    };
    Ok(ended(alloc, NONE)? == Ok(report))
}

// Whether a sync with this reply, which is empty if the way fails, is refused for this.
fn ends_with(alloc: Global, reply: &'static str, why: SyncError) -> Result<bool, Fail> {
    Ok(ended(alloc, reply)? == Err(why))
}

#[test]
fn each_reply_that_is_no_version_ends_a_sync(rt: HostRuntime) -> Result<(), Fail> {
    let gone = SyncError::Gone { base: Uuid::nil() };
    assert!(rt; reports_nothing(rt.alloc())?);
    assert!(rt; ends_with(rt.alloc(), GONE, gone)?);
    assert!(rt; ends_with(rt.alloc(), "", SyncError::Link)?);
    Ok(())
}
