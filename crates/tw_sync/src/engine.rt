// A sync of a replica with a server.
ghost use Rattle.std.specs.Prelude.{◌≡◌, option_map, IfOk, OnOk, IfErr, Err, true, false};
ghost use Rattle.tw_world.specs.Disk.{FaultsRise};
ghost use Rattle.tw_journal.specs.Journal.{is_closed};
ghost use Rattle.tw_journal.specs.declared.error.AppendError.TheVariants as journal;
ghost use Rattle.tw_http.specs.Link.{IsHonest};
ghost use Rattle.tw_http.specs.Messages.{IsHost};
ghost use Rattle.tw_state.specs.Core.{state_of};
ghost use Rattle.tw_replica.specs.Replica.{IsLengthKept};
ghost use Rattle.tw_outcome.specs.Start.{IsNewReplica};
ghost use Rattle.tw_sync.specs.Start.{IsKnownStart};
ghost use Rattle.tw_sync.specs.Start.Start.{Base, Snapshot};
ghost use Rattle.tw_sync.specs.Way.Progress.{Meets, StopsPulling};
ghost use Rattle.tw_sync.specs.Contract.{AnyEnd, DoneEnd, RefusedEnd, RunsOpen, Runs};
ghost use Rattle.tw_sync.specs.Ends.Offer.{HasLetter};
ghost use Rattle.tw_sync.specs.declared.error.SyncError.TheVariants as errors;

use crate::cursor::Cursor;
use crate::error::SyncError;
use crate::given::{Given, ask_snapshot};
use crate::offer::{Done, offer, wanted_letter};
use crate::pulling::{pull, pull_late};
use crate::pushing::{Sent, push};
use crate::report::SyncReport;
use crate::standing::{end_at, stop_at, take_over};
use std::alloc::Global;
use tw_http::Link;
use tw_journal::AppendError;
use tw_model::Tasks;
use tw_replica::Replica;
use tw_world::Disk;
use uuid::Uuid;

/// Pulls the versions that a server has after the replica's base, and sends what is left of what is pending.
///
/// It asks until the server knows no further version and what is left is added, or nothing is left. What is left goes
/// in versions of at most 1,048,576 bytes, or of one operation. A version of another client that came in between is
/// pulled first, at most fifteen times. Then one record is written, unless the base has stayed. A sync that the link or
/// the server stops keeps what it has read and sent. If its record is not written the replica is unchanged, but closed if
/// its disk failed. A replica that has no version and nothing pending first asks for the server's snapshot, and starts from
/// it if it reads as tasks; any other reply is passed over. A sync that is done, and was asked for a snapshot, sends its tasks
/// last, whatever becomes of that.
pub fn sync<D: Disk, L: Link>(
    alloc: Global,
    replica: &mut Replica,
    disk: &mut D,
    link: &mut L,
    client: Uuid,
    host: &str,
) -> Result<SyncReport, SyncError>
    requires host { IsHost host.now }
    requires length { IsLengthKept D.model replica.old disk.old }
    ensures runs { Runs D.model L.model client host.now replica.old replica.new disk.old disk.new link.old link.new result }
    ensures closed { is_closed replica.old.journal ≡ true → result ≡ Err (errors.Journal journal.Closed) }
    ensures length { IsLengthKept D.model replica.new disk.new }
    ensures kept { FaultsRise D.model disk.old disk.new }
{
    if replica.is_closed() {
        return Err(SyncError::Journal(AppendError::Closed));
    }
    match sync_open(alloc, replica, disk, link, client, host) {
        Ok(done) => {
            match &done.letter {
                Some(text) => offer(alloc, link, client, text.as_slice()),
                None => {}
            }
            Ok(done.report)
        }
        Err(error) => Err(error),
    }
}

// A sync of an open replica, with the request for the snapshot that the server wants after it.
fn sync_open<D: Disk, L: Link>(
    alloc: Global,
    replica: &mut Replica,
    disk: &mut D,
    link: &mut L,
    client: Uuid,
    host: &str,
) -> Result<Done, SyncError>
    requires host { IsHost host.now }
    requires open { is_closed replica.old.journal ≡ false }
    requires length { IsLengthKept D.model replica.old disk.old }
    ensures runs { RunsOpen D.model L.model client host.now replica.old replica.new disk.old disk.new link.old link.new result }
    ensures length { IsLengthKept D.model replica.new disk.new }
    ensures kept { FaultsRise D.model disk.old disk.new }
{
    if is_new(replica) {
        return sync_new(alloc, replica, disk, link, client, host);
    }
    meet_and_move(alloc, replica, disk, link, client, host)
}

// Whether a replica has no version yet, and nothing pending.
fn is_new(replica: &Replica) -> bool
    ensures fresh { result ≡ true → IsNewReplica (state_of replica.now.core) }
    ensures known { result ≡ false → ¬ (IsNewReplica (state_of replica.now.core)) }
{
    replica.base() == Uuid::nil() && replica.pending().len() == 0
}

// A sync of a new replica: from a snapshot, if the server gives one that can be read.
fn sync_new<D: Disk, L: Link>(
    alloc: Global,
    replica: &mut Replica,
    disk: &mut D,
    link: &mut L,
    client: Uuid,
    host: &str,
) -> Result<Done, SyncError>
    requires host { IsHost host.now }
    requires open { is_closed replica.old.journal ≡ false }
    requires length { IsLengthKept D.model replica.old disk.old }
    requires fresh { IsNewReplica (state_of replica.old.core) }
    ensures runs { RunsOpen D.model L.model client host.now replica.old replica.new disk.old disk.new link.old link.new result }
    ensures length { IsLengthKept D.model replica.new disk.new }
    ensures kept { FaultsRise D.model disk.old disk.new }
{
    match ask_snapshot(alloc, link, client, host)? {
        Some(given) => sync_from(alloc, replica, disk, link, client, host, given),
        None => meet_and_move(alloc, replica, disk, link, client, host),
    }
}

// A sync of a new replica from a snapshot: pulls what follows it, and takes over the tasks to which that leads.
fn sync_from<D: Disk, L: Link>(
    alloc: Global,
    replica: &mut Replica,
    disk: &mut D,
    link: &mut L,
    client: Uuid,
    host: &str,
    given: Given,
) -> Result<Done, SyncError>
    requires host { IsHost host.now }
    requires open { is_closed replica.old.journal ≡ false }
    requires length { IsLengthKept D.model replica.old disk.old }
    requires fresh { IsNewReplica (state_of replica.old.core) }
    requires known { IsHonest L.model link.old client → IsKnownStart (Snapshot given.version given.tasks) (L.model.chain link.old) }
    ensures any { AnyEnd D.model L.model client (Snapshot given.version given.tasks) replica.old replica.new disk.old disk.new link.old link.new }
    ensures done { IfOk result (λ done. DoneEnd D.model L.model client host.now (Snapshot given.version given.tasks)
        replica.old replica.new disk.old disk.new link.old link.new done.report) }
    ensures letter { IfOk result (λ done. HasLetter L.model client host.now (state_of replica.old.core) (state_of replica.new.core)
        link.old link.new (option_map (λ v. v.items) done.letter)) }
    ensures refused { IfErr result (RefusedEnd D.model L.model client host.now (Snapshot given.version given.tasks)
        replica.old replica.new disk.old disk.new link.old link.new) }
    ensures length { IsLengthKept D.model replica.new disk.new }
    ensures kept { FaultsRise D.model disk.old disk.new }
{
    let Given { version, tasks } = given;
    let mut cursor = Cursor::at_snapshot(alloc, &tasks, version)?;
    match meet(alloc, link, client, host, &tasks, &mut cursor) {
        Ok(()) => {
            let letter = wanted_letter(alloc, replica.base(), &tasks, client, host, &cursor)?;
            let report = cursor.report();
            take_over(alloc, replica, disk, cursor, tasks)?;
            Ok(Done { report, letter })
        }
        Err(SyncError::Memory) => Err(SyncError::Memory),
        Err(error) => {
            take_over(alloc, replica, disk, cursor, tasks)?;
            Err(error)
        }
    }
}

// A sync of an open replica from its base: meets the chain, and moves the replica to the place at which it is done, or is stopped.
fn meet_and_move<D: Disk, L: Link>(
    alloc: Global,
    replica: &mut Replica,
    disk: &mut D,
    link: &mut L,
    client: Uuid,
    host: &str,
) -> Result<Done, SyncError>
    requires host { IsHost host.now }
    requires open { is_closed replica.old.journal ≡ false }
    requires length { IsLengthKept D.model replica.old disk.old }
    ensures any { AnyEnd D.model L.model client Base replica.old replica.new disk.old disk.new link.old link.new }
    ensures done { IfOk result (λ done. DoneEnd D.model L.model client host.now Base replica.old replica.new disk.old disk.new link.old link.new done.report) }
    ensures letter { IfOk result (λ done. HasLetter L.model client host.now (state_of replica.old.core) (state_of replica.new.core)
        link.old link.new (option_map (λ v. v.items) done.letter)) }
    ensures refused { IfErr result (RefusedEnd D.model L.model client host.now Base replica.old replica.new disk.old disk.new link.old link.new) }
    ensures length { IsLengthKept D.model replica.new disk.new }
    ensures kept { FaultsRise D.model disk.old disk.new }
{
    let mut cursor = Cursor::start(alloc, replica)?;
    let hand = replica.tasks();
    match meet(alloc, link, client, host, hand, &mut cursor) {
        Ok(()) => {
            let letter = wanted_letter(alloc, replica.base(), hand, client, host, &cursor)?;
            let report = cursor.report();
            end_at(alloc, replica, disk, cursor)?;
            Ok(Done { report, letter })
        }
        Err(SyncError::Memory) => Err(SyncError::Memory),
        Err(error) => {
            stop_at(alloc, replica, disk, cursor)?;
            Err(error)
        }
    }
}

// Pulls, and sends what is left, until nothing is left.
fn meet<L: Link>(
    alloc: Global,
    link: &mut L,
    client: Uuid,
    host: &str,
    hand: &Tasks,
    cursor: &mut Cursor,
) -> Result<(), SyncError>
    requires host { IsHost host.now }
    requires fresh { cursor.old.conflicts ≡ 0 }
    ensures met { OnOk result (Meets L.model client host.now hand.now link.old cursor.old link.new cursor.new) }
    ensures stopped { IfErr result (StopsPulling L.model client host.now hand.now link.old cursor.old link.new cursor.new) }
{
    pull(alloc, link, client, host, hand, cursor)?;
    while cursor.has_left() {
        match push(alloc, link, client, host, cursor)? {
            Sent::Added => {}
            Sent::Late { latest } => pull_late(alloc, link, client, host, hand, cursor, latest)?,
        }
    }
    Ok(())
}
