// A server on a disk in memory.
ghost use Rattle.std.specs.Prelude.{◌≡◌, ◌≤◌, ◌+◌, ◌++◌, [], false, length, All, List, ℕ, IfOk, OnOk, OnErr, vec_capacity};
ghost use Rattle.std.proofs.Props.{props};
ghost use Rattle.tw_world.specs.Memory.{memory_model};
ghost use Rattle.tw_protocol.specs.Chain.{latest};
ghost use Rattle.tw_protocol.specs.Snapshots.{IsAccount};
ghost use Rattle.tw_http.specs.Messages.{request_body, max_body};
ghost use Rattle.tw_records.specs.Log.{IsSound, chain_of, account_of};
ghost use Rattle.tw_server.specs.Log.{response_at};
ghost use Rattle.tw_server.specs.Server.{IsServerOn, Knows, drawn_id, is_closed, server_end};
ghost use Rattle.tw_server.specs.Memory.Holding.{log_in, log_of, after_request, stored_add, sent_by, version_by, snapshot_by};
ghost use Rattle.tw_server.specs.Memory.Stored.{versions_in, snapshots_in};
ghost use Rattle.tw_server.specs.Memory.Props.{Row-prop, Differ-prop, IsServerOn-prop};

use crate::server::Server;
use std::alloc::Global;
use tw_http::{Bytes, Request, Response};
use tw_world::{IdWords, Memory, MemoryDisk};
use uuid::Uuid;

/// A version that the server in memory accepted, and whether an exchange of the link added it.
pub struct MemoryVersion {
    pub client: Uuid,
    pub id: Uuid,
    pub parent: Uuid,
    pub segment: Bytes,
    pub own: bool,
}

// It is written out, so that a caller does not prove again how each part is dropped.
impl Drop for MemoryVersion {
    fn drop(self) {
        let MemoryVersion {
            client: _,
            id: _,
            parent: _,
            segment: _,
            own: _,
        } = self;
    }
}

/// A snapshot that the server in memory stored.
pub struct MemorySnapshot {
    pub client: Uuid,
    pub version: Uuid,
    pub bytes: Bytes,
}

// It is written out, so that a caller does not prove again how each part is dropped.
impl Drop for MemorySnapshot {
    fn drop(self) {
        let MemorySnapshot {
            client: _,
            version: _,
            bytes: _,
        } = self;
    }
}

/// A server on a disk in memory, with the versions that it accepted and the snapshots that it stored. If there was no
/// memory in an append it is closed, and still has them.
pub struct MemoryServer {
    disk: MemoryDisk,
    server: Server,
    pub ids: IdWords,
    pub versions: Vec<MemoryVersion>,
    pub snapshots: Vec<MemorySnapshot>,
    ghost stands: { is_closed server ≡ false
        → IsServerOn memory_model server disk (log_of versions.items snapshots.items) } by { Prim.hlevel (props, IsServerOn-prop) },
    ghost long: { is_closed server ≡ false → memory_model.len disk ≡ server_end server },
    ghost known: { Knows server (log_of versions.items snapshots.items) } by { Prim.hlevel props },
    ghost sound: { IsSound (log_of versions.items snapshots.items).versions } by { Prim.hlevel (props, Row-prop, Differ-prop) },
    ghost accounts: { (client : List ℕ)
        → IsAccount (account_of client (log_of versions.items snapshots.items)) } by { Prim.hlevel (props, Row-prop, Differ-prop) },
    ghost fit: { All (λ v. length v.segment ≤ max_body) versions.items },
    ghost stored_fit: { All (λ s. length s.bytes ≤ max_body) snapshots.items },
}

// It is written out, so that a caller does not prove again how each part is dropped.
impl Drop for MemoryServer {
    fn drop(self) {
        let MemoryServer {
            disk: _,
            server: _,
            ids: _,
            versions: _,
            snapshots: _,
        } = self;
    }
}

impl MemoryServer {
    ghost use Rattle.tw_server.specs.Memory.Server.{holding_of, nothing_held};

    pub fn new(alloc: Global, ids: IdWords) -> Result<MemoryServer, Memory>
        ensures { IfOk result (λ server. holding_of server ≡ nothing_held ids.start ids.step) }
    {
        let mut disk = MemoryDisk::new(alloc, Vec::new(alloc), Vec::new(alloc))?;
        let Ok(server) = Server::open(alloc, &mut disk) else {
            return Err(Memory);
        };
        Ok(MemoryServer {
            disk,
            server,
            ids,
            versions: Vec::new(alloc),
            snapshots: Vec::new(alloc),
        })
    }

    /// The id of the latest version of a client.
    pub fn latest(&self, client: Uuid) -> Uuid
        ensures { result ≡ latest (chain_of client (log_in (holding_of self.now)).versions) }
    {
        self.server.latest(client)
    }

    /// How many versions a client has.
    pub fn count(&self, client: Uuid) -> usize
        ensures { result ≡ length (chain_of client (log_in (holding_of self.now)).versions) }
    {
        let mut count = 0;
        for version in &self.versions {
            if version.client == client {
                count += 1;
            }
        }
        count
    }

    /// Answers a request, and stores the version or the snapshot that it adds. `Memory` leaves what it holds.
    pub fn answer(&mut self, alloc: Global, request: Request, own: bool) -> Result<Response, Memory>
        requires { length (request_body request) ≤ max_body }
        ensures says { IfOk result (λ response. response ≡ response_at (log_in (holding_of self.old)) request (drawn_id self.old.ids.start)) }
        ensures holds { OnOk result (holding_of self.new ≡ after_request (holding_of self.old) request own) }
        ensures refused { OnErr result (holding_of self.new ≡ holding_of self.old) }
    {
        self.versions.reserve(1)?;
        self.snapshots.reserve(1)?;
        let Ok(response) = self
            .server
            .answer(alloc, &mut self.disk, &request, &mut self.ids)
        else {
            return Err(Memory);
        };
        stored_by(&response, request, own).put(&mut self.versions, &mut self.snapshots);
        Ok(response)
    }
}

// What is stored of an answer.
#[derive(Drop)]
enum Stored {
    Version { version: MemoryVersion },
    Snapshot { snapshot: MemorySnapshot },
    Nothing,
}

impl Stored {
    fn put(self, versions: &mut Vec<MemoryVersion>, snapshots: &mut Vec<MemorySnapshot>)
        requires versions { length versions.old.items + 1 ≤ vec_capacity versions.old }
        requires snapshots { length snapshots.old.items + 1 ≤ vec_capacity snapshots.old }
        ensures versions { versions.new.items ≡ versions.old.items ++ versions_in self }
        ensures snapshots { snapshots.new.items ≡ snapshots.old.items ++ snapshots_in self }
    {
        match self {
            Stored::Version { version } => versions.push_reserved(version),
            Stored::Snapshot { snapshot } => snapshots.push_reserved(snapshot),
            Stored::Nothing => {}
        }
    }
}

fn stored_by(response: &Response, request: Request, own: bool) -> Stored
    ensures versions { versions_in result ≡ version_by response.now request own }
    ensures snapshots { snapshots_in result ≡ snapshot_by response.now request }
{
    match response {
        Response::Added { id, .. } => added(*id, request, own),
        Response::Stored => sent(request),
        _ => Stored::Nothing,
    }
}

fn added(id: Uuid, request: Request, own: bool) -> Stored
    ensures versions { versions_in result ≡ stored_add id request own }
    ensures snapshots { snapshots_in result ≡ [] }
{
    match request {
        Request::Add {
            client,
            parent,
            segment,
        } => Stored::Version {
            version: MemoryVersion {
                client,
                id,
                parent,
                segment,
                own,
            },
        },
        _ => Stored::Nothing,
    }
}

fn sent(request: Request) -> Stored
    ensures versions { versions_in result ≡ [] }
    ensures snapshots { snapshots_in result ≡ sent_by request }
{
    match request {
        Request::AddSnapshot {
            client,
            version,
            snapshot,
        } => Stored::Snapshot {
            snapshot: MemorySnapshot {
                client,
                version,
                bytes: snapshot,
            },
        },
        _ => Stored::Nothing,
    }
}
