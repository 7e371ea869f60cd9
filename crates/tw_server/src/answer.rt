// The answer to a request.
ghost use Rattle.std.specs.Prelude.{◌≡◌, ◌⊎◌, ◌<◌, ◌+◌, ◌^◌, ◌++◌, true, false, length, List, ℕ, Err, IfOk, IfErr, IsSome, OnOk, OnErr};
ghost use Rattle.std.specs.BTreeMap.{get};
ghost use Rattle.tw_world.specs.Disk.{Tells, FaultsRise, Untouched};
ghost use Rattle.tw_journal.specs.Journal.{IsSameBesideRoom, HasRoom as HasJournalRoom, HasBody, OnBody, journal_count};
ghost use Rattle.tw_http.specs.declared.message.Request.TheVariants as asks;
ghost use Rattle.tw_http.specs.declared.message.Asked.TheVariants as kinds;
ghost use Rattle.tw_http.specs.Serving.{kind_of};
ghost use Rattle.tw_server.specs.declared.error.AnswerError.TheVariants as refused;
ghost use Rattle.tw_records.specs.Log.{Log};
ghost use Rattle.tw_server.specs.Log.{log_after};
ghost use Rattle.tw_server.specs.Room.{HasRoom};
ghost use Rattle.tw_server.specs.Server.{Knows, drawn_id, Replies, most_added, IsServerOn, OnLog, IsAnswered, is_closed, server_end};
ghost use Rattle.tw_server.specs.Remembered.{IsRemembered, IsRememberedUndrawn};
ghost use Rattle.tw_server.specs.Server.{LeavesLog, GrowsLogBy, IsAnsweredUndrawn, RespondsAt, AnswerRefused, IsKnownFront};
ghost use Rattle.tw_server.specs.Versions.{image_at, uuid_cmp};

use crate::error::AnswerError;
use crate::images::Placed;
use crate::server::Server;
use std::alloc::Global;
use tw_http::{Bytes, Request, Response};
use tw_records::{Entry, Image, body_of, snapshot_body};
use tw_world::{Disk, IdWords};
use uuid::Uuid;

// So many records have a number of 32 bits.
const MOST: u64 = 0xffff_ffff;

impl Server {
    /// Answers a request of the account of its client, as the protocol's table says, and makes an accepted version or a
    /// snapshot durable first. Only an accepted add-version draws an id.
    ///
    /// A crash at any moment leaves the log from before the call, or with the new version or snapshot. A refusal leaves
    /// the ids and what the server knows, and the log on a server that it leaves open. After a fault of the disk in an
    /// append the server is closed.
    pub fn answer<D: Disk>(
        &mut self,
        alloc: Global,
        disk: &mut D,
        request: &Request,
        ids: &mut IdWords,
    ) -> Result<Response, AnswerError>
        requires { is_closed self.old ≡ false → D.model.len disk.old ≡ server_end self.old }

        ensures answered { IfOk result (IsAnswered D.model self.old self.new disk.old disk.new request.now ids.old ids.new) }
        ensures remembered { IfOk result (IsRemembered D.model self.old self.new disk.old request.now ids.old ids.new) }
        ensures kind { IfOk result (Replies (kind_of request.now)) }
        ensures any_moment { LeavesLog D.model self.old disk.old disk.new (λ log. log_after log request.now (drawn_id ids.old.start)) }
        ensures growth { GrowsLogBy D.model self.old disk.old disk.new (most_added request.now) }
        ensures length { is_closed self.new ≡ false → D.model.len disk.new ≡ server_end self.new }
        ensures kept { FaultsRise D.model disk.old disk.new }

        ensures refused { IfErr result (AnswerRefused D.model self.old self.new disk.old disk.new) }
        ensures no_id { OnErr result (ids.new ≡ ids.old) }
        ensures stays { OnErr result (OnLog D.model self.old disk.old (λ log. is_closed self.new ≡ false → IsServerOn D.model self.new disk.new log)) }
        ensures known { OnErr result ((log : Log) → Knows self.old log → Knows self.new log) }
        ensures closed { is_closed self.old ≡ true → result ≡ Err refused.Closed }
        ensures closes { is_closed self.new ≡ true → (is_closed self.old ≡ true) ⊎ (result ≡ Err refused.Disk) }
    {
        if self.journal.is_closed() {
            return Err(AnswerError::Closed);
        }
        match request {
            Request::Add {
                client,
                parent,
                segment,
            } => self.add(alloc, disk, *client, *parent, segment.as_slice(), ids),
            Request::Child { client, parent } => self.child(alloc, disk, *client, *parent),
            Request::AddSnapshot {
                client,
                version,
                snapshot,
            } => self.store(alloc, disk, *client, *version, snapshot.as_slice()),
            Request::Snapshot { client } => self.fetch(alloc, disk, *client),
        }
    }

    // Adds a version if the parent is the latest one.
    fn add<D: Disk>(
        &mut self,
        alloc: Global,
        disk: &mut D,
        client: Uuid,
        parent: Uuid,
        segment: &[u8],
        ids: &mut IdWords,
    ) -> Result<Response, AnswerError>
        requires open { is_closed self.old ≡ false }
        requires length { D.model.len disk.old ≡ server_end self.old }

        ensures answered { IfOk result (IsAnswered D.model self.old self.new disk.old disk.new (asks.Add client parent segment.now) ids.old ids.new) }
        ensures remembered { IfOk result (IsRemembered D.model self.old self.new disk.old (asks.Add client parent segment.now) ids.old ids.new) }
        ensures kind { IfOk result (Replies kinds.Add) }
        ensures any_moment { LeavesLog D.model self.old disk.old disk.new (λ log. log_after log (asks.Add client parent segment.now) (drawn_id ids.old.start)) }
        ensures growth { GrowsLogBy D.model self.old disk.old disk.new (length segment.now + 54) }
        ensures length { is_closed self.new ≡ false → D.model.len disk.new ≡ server_end self.new }
        ensures kept { FaultsRise D.model disk.old disk.new }

        ensures refused { IfErr result (AnswerRefused D.model self.old self.new disk.old disk.new) }
        ensures no_id { OnErr result (ids.new ≡ ids.old) }
        ensures stays { OnErr result (OnLog D.model self.old disk.old (λ log. is_closed self.new ≡ false → IsServerOn D.model self.new disk.new log)) }
        ensures known { OnErr result ((log : Log) → Knows self.old log → Knows self.new log) }
        ensures closes { is_closed self.new ≡ true → result ≡ Err refused.Disk }
    {
        let latest = self.latest(client);
        if latest != parent {
            return Ok(Response::Conflict { latest });
        }
        let mut drawn = IdWords {
            start: ids.start,
            step: ids.step,
        };
        let id = Uuid::from_bytes(drawn.next());
        if self.has_id(client, id) {
            *ids = drawn;
            return Ok(Response::Taken);
        }
        let entry = Entry { client, id, parent };
        let body = body_of(alloc, &entry, segment)?;
        self.make_room(&entry)?;
        let number = self.journal.count() as u32;
        self.journal.append(disk, body.as_slice())?;
        self.versions.push(entry, number);
        *ids = drawn;
        let wanted = self.is_wanted(client);
        Ok(Response::Added { id, wanted })
    }

    // Makes room for a version, and in the journal for the offset of its record. The number of its record has 32 bits.
    fn make_room(&mut self, entry: &Entry) -> Result<(), AnswerError>
        ensures same { IsSameBesideRoom self.old.journal self.new.journal }
        ensures entries { self.new.versions.entries.items ≡ self.old.versions.entries.items }
        ensures numbers { self.new.versions.numbers.items ≡ self.old.versions.numbers.items }
        ensures images { self.new.images ≡ self.old.images }
        ensures room { OnOk result (HasRoom self.new.versions entry.now) }
        ensures few { OnOk result (journal_count self.new.journal < 2 ^ 32) }
        ensures refused { IfErr result (λ e. e ≡ refused.Memory) }
    {
        if MOST <= self.journal.count() {
            return Err(AnswerError::Memory);
        }
        self.journal.make_room()?;
        self.versions.make_room(entry)?;
        Ok(())
    }

    // Stores a snapshot, if its version is not before that of the one that is stored.
    fn store<D: Disk>(
        &mut self,
        alloc: Global,
        disk: &mut D,
        client: Uuid,
        version: Uuid,
        bytes: &[u8],
    ) -> Result<Response, AnswerError>
        requires open { is_closed self.old ≡ false }
        requires length { D.model.len disk.old ≡ server_end self.old }

        ensures answered { IfOk result (IsAnsweredUndrawn D.model self.old self.new disk.old disk.new (asks.AddSnapshot client version bytes.now)) }
        ensures remembered { IfOk result (IsRememberedUndrawn D.model self.old self.new disk.old (asks.AddSnapshot client version bytes.now)) }
        ensures kind { IfOk result (Replies kinds.AddSnapshot) }
        ensures any_moment { (id : List ℕ)
            → LeavesLog D.model self.old disk.old disk.new (λ log. log_after log (asks.AddSnapshot client version bytes.now) id) }
        ensures growth { GrowsLogBy D.model self.old disk.old disk.new (length bytes.now + 38) }
        ensures length { is_closed self.new ≡ false → D.model.len disk.new ≡ server_end self.new }
        ensures kept { FaultsRise D.model disk.old disk.new }

        ensures refused { IfErr result (AnswerRefused D.model self.old self.new disk.old disk.new) }
        ensures stays { OnErr result (OnLog D.model self.old disk.old (λ log. is_closed self.new ≡ false → IsServerOn D.model self.new disk.new log)) }
        ensures known { OnErr result ((log : Log) → Knows self.old log → Knows self.new log) }
        ensures closes { is_closed self.new ≡ true → result ≡ Err refused.Disk }
    {
        if !self.is_welcome(client, version) {
            return Ok(Response::Bad);
        }
        let body = snapshot_body(alloc, &Image { client, version }, bytes)?;
        self.make_image_room(client)?;
        let number = self.journal.count();
        self.journal.append(disk, body.as_slice())?;
        self.images.put(client, Placed { version, number });
        Ok(Response::Stored)
    }

    // Makes room for a snapshot, and in the journal for the offset of its record.
    fn make_image_room(&mut self, client: Uuid) -> Result<(), AnswerError>
        ensures same { IsSameBesideRoom self.old.journal self.new.journal }
        ensures versions { self.new.versions ≡ self.old.versions }
        ensures images { (q : List ℕ) → image_at self.new.images q ≡ image_at self.old.images q }
        ensures room { OnOk result (IsSome (get uuid_cmp self.new.images.map client)) }
        ensures refused { IfErr result (λ e. e ≡ refused.Memory) }
    {
        self.journal.make_room()?;
        self.images.make_room(client)?;
        Ok(())
    }

    // Gives the version whose parent this is.
    fn child<D: Disk>(
        &self,
        alloc: Global,
        disk: &mut D,
        client: Uuid,
        parent: Uuid,
    ) -> Result<Response, AnswerError>
        requires open { is_closed self.now ≡ false }
        requires length { D.model.len disk.old ≡ server_end self.now }

        ensures says { IfOk result (λ response. OnLog D.model self.now disk.old (λ log. RespondsAt log (asks.Child client parent) response)) }
        ensures remembered { IfOk result (IsRememberedUndrawn D.model self.now self.now disk.old (asks.Child client parent)) }
        ensures kind { IfOk result (Replies kinds.Child) }
        ensures untouched { Untouched D.model disk.old disk.new }
        ensures refused { IfErr result (AnswerRefused D.model self.now self.now disk.old disk.new) }
    {
        match self.versions.child(client, parent) {
            Some(n) => {
                let entry = self.versions.entries[n];
                let number = self.versions.numbers[n] as u64;
                let front = body_of(alloc, &entry, &[])?;
                let segment = self.rest(alloc, disk, number, front.as_slice())?;
                Ok(Response::Child {
                    id: entry.id,
                    parent,
                    segment,
                })
            }
            None => {
                if self.latest(client) == parent {
                    Ok(Response::UpToDate)
                } else {
                    Ok(Response::Gone)
                }
            }
        }
    }

    // Gives the stored snapshot.
    fn fetch<D: Disk>(
        &self,
        alloc: Global,
        disk: &mut D,
        client: Uuid,
    ) -> Result<Response, AnswerError>
        requires open { is_closed self.now ≡ false }
        requires length { D.model.len disk.old ≡ server_end self.now }

        ensures says { IfOk result (λ response. OnLog D.model self.now disk.old (λ log. RespondsAt log (asks.Snapshot client) response)) }
        ensures remembered { IfOk result (IsRememberedUndrawn D.model self.now self.now disk.old (asks.Snapshot client)) }
        ensures kind { IfOk result (Replies kinds.Snapshot) }
        ensures untouched { Untouched D.model disk.old disk.new }
        ensures refused { IfErr result (AnswerRefused D.model self.now self.now disk.old disk.new) }
    {
        match self.images.get(client) {
            Some(stored) => {
                let version = stored.version;
                let front = snapshot_body(alloc, &Image { client, version }, &[])?;
                let bytes = self.rest(alloc, disk, stored.number, front.as_slice())?;
                Ok(Response::Snapshot { version, bytes })
            }
            None => Ok(Response::UpToDate),
        }
    }

    // What comes after this front of the body of the record with this number. If the body does not begin so, the record is
    // another one, which is damage.
    fn rest<D: Disk>(
        &self,
        alloc: Global,
        disk: &mut D,
        n: u64,
        front: &[u8],
    ) -> Result<Bytes, AnswerError>
        requires inside { n < journal_count self.now.journal }
        requires open { is_closed self.now ≡ false }
        requires length { D.model.len disk.old ≡ server_end self.now }

        ensures rest { IfOk result (λ rest. OnBody D.model self.now.journal disk.old n (λ body. body ≡ front.now ++ rest)) }
        ensures there { IfOk result (λ rest. Tells D.model disk.old → HasBody self.now.journal (D.model.seen disk.old) n (front.now ++ rest)) }
        ensures untouched { Untouched D.model disk.old disk.new }
        ensures refused { IsKnownFront D.model self.now disk.old n front.now → IfErr result (AnswerRefused D.model self.now self.now disk.old disk.new) }
    {
        let body = self.journal.body(alloc, disk, n)?;
        let bytes = body.as_slice();
        if !bytes.starts_with(front) {
            let offset = self.journal.offset(disk, n)?;
            return Err(AnswerError::Damaged { offset });
        }
        let rest = Bytes::from_slice(alloc, &bytes[front.len()..])?;
        Ok(rest)
    }
}
