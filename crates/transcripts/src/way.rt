// The way from the machines to their server.
ghost use Rattle.std.specs.Prelude.{IsErrOf};
ghost use Rattle.tw_world.specs.Disk.{Rose};
ghost use Rattle.tw_http.specs.Link.{IsExchange, IsAnswered};

use crate::stop::Stop;
use std::alloc::Global;
use std::mem::replace;
use tw_http::{Bytes, Link, LinkError, Request, write_request};
use tw_server::{Fate, MemoryLink};
use tw_world::{IdWords, Memory};
use uuid::Uuid;

const CLIENT: u128 = 0x1a2b3c4d_0001_4002_8003_00000000000f;

/// The settings by which a machine syncs.
pub const SETTINGS: &str = "sync.server.url=http://localhost:8080\n\
    sync.server.client_id=1a2b3c4d-0001-4002-8003-00000000000f\n";

/// A version of another client of the user, and the number of the exchange before which it is added.
struct Version {
    number: u64,
    segment: String,
}

// It is written out, so that a caller does not prove again how each part is dropped.
impl Drop for Version {
    fn drop(self) {
        let Version {
            number: _,
            segment: _,
        } = self;
    }
}

/// A way to a server in memory. It tells nothing of what it brings.
pub struct Way {
    alloc: Global,
    link: MemoryLink,
    others: Vec<Version>,
    next: Fate,
    wait: u64,
    exchanges: u64,
    faults: u64,
}

// It is written out, so that a caller does not prove again how each part is dropped.
impl Drop for Way {
    fn drop(self) {
        let Way {
            alloc: _,
            link: _,
            others: _,
            next: _,
            wait: _,
            exchanges: _,
            faults: _,
        } = self;
    }
}

impl Way {
    /// A way to a server without versions.
    pub fn new(alloc: Global) -> Result<Way, Memory> {
        let ids = IdWords { start: 1, step: 1 };
        let link = MemoryLink::new(alloc, Uuid::from_u128(CLIENT), ids, Vec::new(alloc))?;
        Ok(Way {
            alloc,
            link,
            others: Vec::new(alloc),
            next: Fate::Deliver,
            wait: 0,
            exchanges: 0,
            faults: 0,
        })
    }

    /// Sets what becomes of an exchange, after some others that arrive.
    pub fn meet(&mut self, fate: Fate, wait: u64) {
        self.next = fate;
        self.wait = wait;
    }

    /// Has another client of the user add a segment to the chain before an exchange, after some others.
    pub fn add(&mut self, segment: &str, wait: u64) -> Result<(), Stop> {
        let segment = String::from_str(self.alloc, segment)?;
        let number = self.exchanges.saturating_add(wait);
        Ok(self.others.push(Version { number, segment })?)
    }
}

impl Link for Way {
    ghost use Rattle.transcripts.specs.Ways.{way_model, none_told};

    ghost model = { way_model };

    ghost tells_chain = { λ link truly. none_told truly.honest };

    ghost own_stand = { λ link tells. none_told tells };

    fn exchange(&mut self, request: &[u8], reply: &mut Vec<u8>) -> Result<(), LinkError>
        ensures exchanged { IsExchange way_model self.old self.new request.now reply.new.items result }
        ensures answered { IsAnswered way_model self.old self.new request.now reply.new.items result }
        ensures failed { IsErrOf result LinkError.Failed → Rose self.old.faults self.new.faults }
    {
        let number = self.exchanges;
        self.exchanges = self.exchanges.saturating_add(1);
        if !add_due(self.alloc, &mut self.link, &self.others, number) {
            return Err(LinkError::Memory);
        }
        let fate = fate_of(&mut self.next, &mut self.wait);
        if fate == Fate::LoseRequest {
            self.faults = self.faults.saturating_add(1);
            return Err(LinkError::Failed);
        }
        let is_there = self.link.exchange(request, reply).is_ok();
        if is_there && fate == Fate::Deliver {
            return Ok(());
        }
        self.faults = self.faults.saturating_add(1);
        Err(LinkError::Failed)
    }
}

// Adds what others add before the exchange with this number. Whether the server takes it all.
fn add_due(alloc: Global, link: &mut MemoryLink, others: &Vec<Version>, number: u64) -> bool {
    let mut is_taken = true;
    for version in others {
        if version.number == number {
            is_taken = add(alloc, link, version.segment.as_str()).is_ok() && is_taken;
        }
    }
    is_taken
}

// Adds a segment to the chain.
fn add(alloc: Global, link: &mut MemoryLink, segment: &str) -> Result<(), Stop> {
    let request = Request::Add {
        client: Uuid::from_u128(CLIENT),
        parent: link.latest(),
        segment: Bytes::from_slice(alloc, segment.as_bytes())?,
    };
    let letter = write_request(alloc, &request, "localhost")?;
    let mut reply = Vec::new(alloc);
    match link.exchange(&letter, &mut reply) {
        Ok(()) => Ok(()),
        Err(_) => Err(Stop::Wrong("the server takes no such version")),
    }
}

// What becomes of the exchange that begins.
fn fate_of(next: &mut Fate, wait: &mut u64) -> Fate {
    if *wait > 0 {
        *wait -= 1;
        return Fate::Deliver;
    }
    replace(next, Fate::Deliver)
}
