// Syncs over a link that takes given steps.

use tw_http::{Link, LinkError};
use tw_replica::Replica;
use tw_sync::{SyncError, SyncReport};
use uuid::Uuid;

const NO_MORE: &str = "HTTP/1.1 404 Not Found\r\nContent-Length: 0\r\n\r\n";

const GONE: &str = "HTTP/1.1 410 Gone\r\nContent-Length: 0\r\n\r\n";

// The version 1: a task is made, and has a colour.
const FIRST: &str =
    "HTTP/1.1 200 OK\r\nContent-Length: 203\r\nX-Version-Id: 00000000-0000-4000-8000-000000000001\r\n\
     X-Parent-Version-Id: 00000000-0000-0000-0000-000000000000\r\n\r\n\
     {\"operations\":[{\"Create\":{\"uuid\":\"00000000-0000-4000-8000-000000000007\"}},\
     {\"Update\":{\"property\":\"colour\",\"timestamp\":\"2023-11-14T22:13:10Z\",\
     \"uuid\":\"00000000-0000-4000-8000-000000000007\",\"value\":\"red\"}}]}";

// The version 2: it has another one.
const SECOND: &str =
    "HTTP/1.1 200 OK\r\nContent-Length: 146\r\nX-Version-Id: 00000000-0000-4000-8000-000000000002\r\n\
     X-Parent-Version-Id: 00000000-0000-4000-8000-000000000001\r\n\r\n\
     {\"operations\":[{\"Update\":{\"property\":\"colour\",\"timestamp\":\"2023-11-14T22:13:20Z\",\
     \"uuid\":\"00000000-0000-4000-8000-000000000007\",\"value\":\"green\"}}]}";

const ADDED_FIRST: &str =
    "HTTP/1.1 200 OK\r\nContent-Length: 0\r\nX-Version-Id: 00000000-0000-4000-8000-000000000001\r\n\
     X-Snapshot-Request: urgency=high\r\n\r\n";

const ADDED_SECOND: &str =
    "HTTP/1.1 200 OK\r\nContent-Length: 0\r\nX-Version-Id: 00000000-0000-4000-8000-000000000002\r\n\r\n";

const ADDED_THIRD: &str =
    "HTTP/1.1 200 OK\r\nContent-Length: 0\r\nX-Version-Id: 00000000-0000-4000-8000-000000000003\r\n\r\n";

const SNAPSHOT: &str = "GET /v1/client/snapshot ";

// The snapshot of the version 1: the same task.
const AT_FIRST: &str =
    "HTTP/1.1 200 OK\r\nContent-Length: 57\r\nX-Version-Id: 00000000-0000-4000-8000-000000000001\r\n\r\n\
     {\"00000000-0000-4000-8000-000000000007\":{\"colour\":\"red\"}}";

const FROM_START: &str = "GET /v1/client/get-child-version/00000000-0000-0000-0000-000000000000 ";

const AFTER_FIRST: &str = "GET /v1/client/get-child-version/00000000-0000-4000-8000-000000000001 ";

const AFTER_SECOND: &str = "GET /v1/client/get-child-version/00000000-0000-4000-8000-000000000002 ";

const ADD_FIRST: &str = "POST /v1/client/add-version/00000000-0000-0000-0000-000000000000 ";

const OFFER_FIRST: &str = "POST /v1/client/add-snapshot/00000000-0000-4000-8000-000000000001 ";

const ADD_SECOND: &str = "POST /v1/client/add-version/00000000-0000-4000-8000-000000000001 ";

const ADD_THIRD: &str = "POST /v1/client/add-version/00000000-0000-4000-8000-000000000002 ";

// What is asked, and the reply, which is empty if the way fails: while versions are pulled, while batches are sent, before an undo,
// from a snapshot, and if one is wanted.
const STEPS: [[&str; 2]; 26] = [
    [SNAPSHOT, NO_MORE],
    [FROM_START, FIRST],
    [AFTER_FIRST, ""],
    [AFTER_FIRST, NO_MORE],
    [SNAPSHOT, NO_MORE],
    [FROM_START, FIRST],
    [AFTER_FIRST, NO_MORE],
    [AFTER_FIRST, NO_MORE],
    [ADD_SECOND, ADDED_SECOND],
    [ADD_THIRD, ""],
    [AFTER_SECOND, NO_MORE],
    [ADD_THIRD, ADDED_THIRD],
    [SNAPSHOT, NO_MORE],
    [FROM_START, FIRST],
    [AFTER_FIRST, NO_MORE],
    [AFTER_FIRST, SECOND],
    [AFTER_SECOND, ""],
    [SNAPSHOT, AT_FIRST],
    [AFTER_FIRST, SECOND],
    [AFTER_SECOND, ""],
    [AFTER_SECOND, NO_MORE],
    [SNAPSHOT, AT_FIRST],
    [AFTER_FIRST, NO_MORE],
    [FROM_START, NO_MORE],
    [ADD_FIRST, ADDED_FIRST],
    [OFFER_FIRST, ""],
];

/// A link that brings one reply each time, or takes these steps. An empty reply is a failure, and what is asked otherwise is gone.
#[derive(Drop)]
pub(super) struct Script {
    each: Option<&'static str>,
    pub(super) at: usize,
    pub(super) exchanges: u64,
    faults: u64,
}

impl Link for Script {
    ghost use Rattle.std.specs.Prelude.{false, []};
    ghost use Rattle.std.proofs.lemmas.Bool.{true≢false};
    ghost use Rattle.std.proofs.Common.{sym};

    ghost model = { record {
      faults = λ l. l.faults;
      exchanges = λ l. l.exchanges;
      tells_list = λ l. false;
      list = λ l. [];
      tells_chain = λ l. false;
      client = λ l. [];
      chain = λ l. [];
      own = λ l. [];
      honest = λ l. false;
    } };

    ghost tells_chain = { λ link truly. absurd (true≢false (sym truly.honest)) };

    ghost own_stand = { λ link tells. absurd (true≢false (sym tells)) };

    fn exchange(&mut self, request: &[u8], reply: &mut Vec<u8>) -> Result<(), LinkError> {
        self.exchanges = self.exchanges.saturating_add(1);
        let text = match self.each {
            Some(text) => text,
            None => reply_of(request, self.at),
        };
        self.at = self.at.saturating_add(1);
        if text.is_empty() {
            self.faults = self.faults.saturating_add(1);
            return Err(LinkError::Failed);
        }
        reply.clear();
        if reply.extend_from_slice(text.as_bytes()).is_err() {
            return Err(LinkError::Memory);
        }
        Ok(())
    }
}

// The reply to a request at this step.
fn reply_of(request: &[u8], at: usize) -> &'static str {
    let Some(step) = STEPS.get(at) else {
        return GONE;
    };
    let asked = step[0].as_bytes();
    if request.get(..asked.len()) == Some(asked) {
        step[1]
    } else {
        GONE
    }
}

pub(super) fn from_step(at: usize) -> Script {
    Script {
        each: None,
        at,
        exchanges: 0,
        faults: 0,
    }
}

pub(super) fn always(reply: &'static str) -> Script {
    Script {
        each: Some(reply),
        at: 0,
        exchanges: 0,
        faults: 0,
    }
}

pub(super) fn version(number: u8) -> Uuid {
    let mut bytes = [0; 16];
    bytes[6] = 0x40;
    bytes[8] = 0x80;
    bytes[15] = number;
    Uuid::from_bytes(bytes)
}

pub(super) fn client() -> Uuid {
    Uuid::from_bytes([9; 16])
}

// Whether a sync reports this, and pulled or dropped nothing.
pub(super) fn reports(ended: Result<SyncReport, SyncError>, pushed: u64, base: Uuid) -> bool {
    let report = SyncReport {
        pulled: 0,
        dropped: 0,
        pushed,
        base,
    };
    ended == Ok(report)
}

// The colour of the task.
pub(super) fn is_coloured(replica: &Replica, colour: &str) -> bool {
    match replica.tasks().get(version(7)) {
        Some(task) => task.get("colour") == Some(colour),
        None => false,
    }
}
