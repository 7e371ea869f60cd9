// Syncs that get false replies.

use crate::given::Given;
use crate::link::link_over;
use crate::runs::{machine, run_alone, run_given};
use crate::stores::{NONE, ONE, SECOND, with_adds};
use crate::world::SETTINGS;
use std::alloc::Global;
use std::test::Fail;
use tw_cli::Cause;
use tw_http::{Link, LinkError};
use tw_sync::ReplyKind;
use tw_world::MemoryDisk;
use uuid::Uuid;

// A link that brings these replies one after another, and then fails. It counts how often it was asked and how often it failed.
#[derive(Drop)]
struct Script {
    replies: &'static [&'static str],
    exchanges: u64,
    faults: u64,
}

impl Link for Script {
    ghost use Rattle.std.specs.Prelude.{false, []};
    ghost use Rattle.std.proofs.lemmas.Bool.{true≢false};
    ghost use Rattle.std.proofs.Common.{sym};

    ghost model = { record {
      faults = λ l. l.faults;
      exchanges = λ l. l.exchanges;
      tells_list = λ l. false;
      list = λ l. [];
      tells_chain = λ l. false;
      client = λ l. [];
      chain = λ l. [];
      own = λ l. [];
      honest = λ l. false;
    } };

    ghost tells_chain = { λ link truly. absurd (true≢false (sym truly.honest)) };

    ghost own_stand = { λ link tells. absurd (true≢false (sym tells)) };

    fn exchange(&mut self, _request: &[u8], reply: &mut Vec<u8>) -> Result<(), LinkError> {
        let next = self.replies.get(self.exchanges as usize);
        self.exchanges = self.exchanges.saturating_add(1);
        let Some(text) = next else {
            self.faults = self.faults.saturating_add(1);
            return Err(LinkError::Failed);
        };
        reply.clear();
        if reply.extend_from_slice(text.as_bytes()).is_err() {
            return Err(LinkError::Memory);
        }
        Ok(())
    }
}

// The replies to the first request of a sync that are outside of the protocol, and what each is.
const BAD: [(&[&str], ReplyKind); 9] = [
    (&[""], ReplyKind::Cut),
    (
        &[
            "HTTP/1.1 200 OK\r\nContent-Length: 17\r\nX-Version-Id: 00000000-0000-4000-8000-000000000002\r\n\
         X-Parent-Version-Id: 00000000-0000-0000-0000-000000000000\r\n\r\n{\"operations\":[]",
        ],
        ReplyKind::Cut,
    ),
    (&["x\r\n\r\n"], ReplyKind::Head),
    (&["HTTP/1.1 404 Not Found\r\n\r\n"], ReplyKind::Length),
    (
        &[
            "HTTP/1.1 200 OK\r\nContent-Length: 17\r\n\
         X-Parent-Version-Id: 00000000-0000-0000-0000-000000000000\r\n\r\n{\"operations\":[]}",
        ],
        ReplyKind::Header,
    ),
    (
        &["HTTP/1.1 302 Found\r\nContent-Length: 0\r\n\r\n"],
        ReplyKind::Status { code: 302 },
    ),
    (
        &[
            "HTTP/1.1 200 OK\r\nContent-Length: 16777217\r\nX-Version-Id: 00000000-0000-4000-8000-000000000002\r\n\
         X-Parent-Version-Id: 00000000-0000-0000-0000-000000000000\r\n\r\n",
        ],
        ReplyKind::TooLong,
    ),
    (
        &[
            "HTTP/1.1 200 OK\r\nContent-Length: 17\r\nX-Version-Id: 00000000-0000-4000-8000-000000000002\r\n\
         X-Parent-Version-Id: 00000000-0000-4000-8000-000000000003\r\n\r\n{\"operations\":[]}",
        ],
        ReplyKind::Parent,
    ),
    (
        &[
            "HTTP/1.1 200 OK\r\nContent-Length: 17\r\nX-Version-Id: 00000000-0000-0000-0000-000000000000\r\n\
         X-Parent-Version-Id: 00000000-0000-0000-0000-000000000000\r\n\r\n{\"operations\":[]}",
        ],
        ReplyKind::Nil,
    ),
];

const UP_TO_DATE: &str = "HTTP/1.1 404 Not Found\r\nContent-Length: 0\r\n\r\n";

const GONE: &str = "HTTP/1.1 410 Gone\r\nContent-Length: 0\r\n\r\n";

const CONFLICT: &str = "HTTP/1.1 409 Conflict\r\nContent-Length: 0\r\n\
     X-Parent-Version-Id: 00000000-0000-4000-8000-000000000002\r\n\r\n";

// The id that `CONFLICT` names.
const NAMED: [u8; 16] = [0, 0, 0, 0, 0, 0, 0x40, 0, 0x80, 0, 0, 0, 0, 0, 0, 2];

// Whether a sync of one task over these replies ends by this cause with this line.
fn is_told(
    alloc: Global,
    disk: &mut MemoryDisk,
    replies: &'static [&'static str],
    cause: &Cause,
    line: &str,
) -> Result<bool, Fail> {
    let mut link = Script {
        replies,
        exchanges: 0,
        faults: 0,
    };
    let mut given = Given::new(2, SECOND);
    given.settings = SETTINGS;
    let ended = run_given(alloc, &given, "sync", disk, &mut link, &[])?;
    Ok(ended.is(5, cause) && ended.said() == Some(line.as_bytes()))
}

// Whether the one task is there, and is pushed by a sync with a server that has no version.
fn is_pushed(alloc: Global, disk: &mut MemoryDisk) -> Result<bool, Fail> {
    let mut given = Given::new(2, SECOND);
    let exported = run_alone(alloc, &given, "export", disk)?;
    given.settings = SETTINGS;
    let mut link = link_over(alloc, &[])?;
    let synced = run_given(alloc, &given, "sync", disk, &mut link, &[])?;
    let pushed = b"Synced: 0 pulled, 0 dropped, 5 pushed.\n".as_slice();
    Ok(exported.said() == Some(ONE.as_bytes()) && synced.said() == Some(pushed))
}

// Whether such a sync leaves the task and what is pending as they were.
fn is_refused(
    alloc: Global,
    replies: &'static [&'static str],
    cause: &Cause,
    line: &str,
) -> Result<bool, Fail> {
    let mut disk = with_adds(alloc, 1)?;
    Ok(is_told(alloc, &mut disk, replies, cause, line)? && is_pushed(alloc, &mut disk)?)
}

// How many of the replies are refused as wanted, up to the first that is not.
fn bad_so_far(alloc: Global) -> Result<usize, Fail> {
    for (number, (replies, kind)) in BAD.iter().enumerate() {
        let cause = Cause::BadReply { kind: *kind };
        if !is_refused(alloc, *replies, &cause, "task: bad reply\n")? {
            return Ok(number);
        }
    }
    Ok(BAD.len())
}

#[test]
fn a_false_reply_is_told_and_leaves_all(rt: HostRuntime) -> Result<(), Fail> {
    assert_eq!(rt; bad_so_far(rt.alloc())?, BAD.len());
    Ok(())
}

fn is_gone(alloc: Global) -> Result<bool, Fail> {
    let cause = Cause::Gone { base: Uuid::nil() };
    let line = "task: the server does not know 00000000-0000-0000-0000-000000000000\n";
    is_refused(alloc, &[GONE], &cause, line)
}

fn is_out_of_sync(alloc: Global) -> Result<bool, Fail> {
    let cause = Cause::OutOfSync {
        base: Uuid::nil(),
        parent: Uuid::from_bytes(NAMED),
    };
    let line = "task: out of sync at 00000000-0000-0000-0000-000000000000\n";
    is_refused(alloc, &[UP_TO_DATE, CONFLICT, UP_TO_DATE], &cause, line)
}

#[test]
fn a_server_that_lost_its_versions_is_told(rt: HostRuntime) -> Result<(), Fail> {
    assert!(rt; is_gone(rt.alloc())?);
    assert!(rt; is_out_of_sync(rt.alloc())?);
    Ok(())
}

// The reply to the question of a new machine for the snapshot: the task of `ONE`, at the version that `CONFLICT` names.
// And a reply that holds no tasks.
const SNAPSHOT: &str =
    "HTTP/1.1 200 OK\r\nContent-Length: 131\r\nX-Version-Id: 00000000-0000-4000-8000-000000000002\r\n\r\n\
     {\"00000000-0000-4000-8000-000000000001\":{\"description\":\"Buy milk\",\
     \"entry\":\"1700000000\",\"modified\":\"1700000000\",\"status\":\"pending\"}}";

const NO_SNAPSHOT: &str =
    "HTTP/1.1 200 OK\r\nContent-Length: 2\r\nX-Version-Id: 00000000-0000-4000-8000-000000000002\r\n\r\n[]";

// Whether a sync of a new machine over these two replies is done in two exchanges, and what the machine exports after it.
fn starts_with(
    alloc: Global,
    replies: &'static [&'static str],
    exported: &str,
) -> Result<bool, Fail> {
    let mut link = Script {
        replies,
        exchanges: 0,
        faults: 0,
    };
    let mut given = Given::new(2, SECOND);
    given.settings = SETTINGS;
    let mut disk = machine(alloc)?;
    let ended = run_given(alloc, &given, "sync", &mut disk, &mut link, &[])?;
    let nothing = b"Synced: 0 pulled, 0 dropped, 0 pushed.\n".as_slice();
    let is_done = ended.is(0, &Cause::Done) && ended.said() == Some(nothing);
    let after = run_alone(alloc, &given, "export", &mut disk)?;
    Ok(is_done && link.exchanges == 2 && after.said() == Some(exported.as_bytes()))
}

// Any reply but a snapshot that reads as tasks is passed over.
#[test]
fn a_new_machine_starts_from_the_snapshot(rt: HostRuntime) -> Result<(), Fail> {
    assert!(rt; starts_with(rt.alloc(), &[SNAPSHOT, UP_TO_DATE], ONE)?);
    assert!(rt; starts_with(rt.alloc(), &[NO_SNAPSHOT, UP_TO_DATE], NONE)?);
    Ok(())
}
