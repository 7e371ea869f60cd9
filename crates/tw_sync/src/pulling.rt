// Pulling what is after a cursor in the chain.
ghost use Rattle.std.specs.Prelude.{◌≡◌, ◌<◌, ◌≤◌, true, false, IfOk, OnOk, IfErr};
ghost use Rattle.tw_http.specs.Messages.{IsHost};
ghost use Rattle.tw_sync.specs.Way.Progress.{PullsAll, PullsOne, StopsPulling, FindsOne, FindsNoneLate, StopsAsking, PullsLate, StopsLate};

use crate::ask::{ChildAnswer, ask_child};
use crate::cursor::Cursor;
use crate::error::SyncError;
use std::alloc::Global;
use tw_http::Link;
use tw_model::Tasks;
use uuid::Uuid;

/// Pulls until there is no version more.
pub(crate) fn pull<L: Link>(
    alloc: Global,
    link: &mut L,
    client: Uuid,
    host: &str,
    hand: &Tasks,
    cursor: &mut Cursor,
) -> Result<(), SyncError>
    requires host { IsHost host.now }
    ensures pulled { OnOk result (PullsAll L.model client host.now hand.now link.old cursor.old link.new cursor.new) }
    ensures conflicts { OnOk result (cursor.new.conflicts ≡ cursor.old.conflicts) }
    ensures unsent { OnOk result (cursor.new.unsent ≡ cursor.old.unsent) }
    ensures stopped { IfErr result (StopsPulling L.model client host.now hand.now link.old cursor.old link.new cursor.new) }
{
    while pull_one(alloc, link, client, host, hand, cursor)? {}
    Ok(())
}

// Goes on to the version after the cursor, and answers whether there was one.
fn pull_one<L: Link>(
    alloc: Global,
    link: &mut L,
    client: Uuid,
    host: &str,
    hand: &Tasks,
    cursor: &mut Cursor,
) -> Result<bool, SyncError>
    requires host { IsHost host.now }
    ensures goes_on { IfOk result (PullsOne L.model client host.now hand.now link.old cursor.old link.new cursor.new) }
    ensures found { IfOk result (λ more. more ≡ true → FindsOne L.model client host.now hand.now link.old cursor.old link.new cursor.new) }
    ensures farther { IfOk result (λ more. more ≡ true → cursor.old.bytes < cursor.new.bytes) }
    ensures conflicts { OnOk result (cursor.new.conflicts ≡ cursor.old.conflicts) }
    ensures unsent { OnOk result (cursor.new.unsent ≡ cursor.old.unsent) }

    // If a version came too late, there is one more.
    ensures late { IfOk result (λ more. more ≡ false → FindsNoneLate L.model client host.now link.old cursor.old link.new cursor.new) }
    ensures stopped { IfErr result (StopsAsking L.model client host.now hand.now link.old cursor.old link.new cursor.new) }
{
    match ask_child(alloc, link, client, host, cursor.walker.at)? {
        ChildAnswer::Found { id, segment } => {
            cursor.take_version(alloc, hand, id, segment.as_slice())?;
            Ok(true)
        }
        ChildAnswer::UpToDate => Ok(false),
        ChildAnswer::Gone => Err(SyncError::Gone {
            base: cursor.walker.at,
        }),
    }
}

/// Pulls what others added before what was sent came, which is at least the version `latest`.
pub(crate) fn pull_late<L: Link>(
    alloc: Global,
    link: &mut L,
    client: Uuid,
    host: &str,
    hand: &Tasks,
    cursor: &mut Cursor,
    latest: Uuid,
) -> Result<(), SyncError>
    requires host { IsHost host.now }
    ensures pulled { OnOk result (PullsLate L.model client host.now hand.now link.old cursor.old latest link.new cursor.new) }
    ensures conflicts { OnOk result (cursor.new.conflicts ≡ cursor.old.conflicts) }
    ensures unsent { OnOk result (cursor.new.unsent ≡ cursor.old.unsent) }
    ensures few { OnOk result (cursor.new.conflicts ≤ 15) }
    ensures stopped { IfErr result (StopsLate L.model client host.now hand.now link.old cursor.old latest link.new cursor.new) }
{
    if cursor.conflicts > 15 {
        return Err(SyncError::Busy { parent: latest });
    }
    if !pull_one(alloc, link, client, host, hand, cursor)? {
        return Err(SyncError::OutOfSync {
            base: cursor.walker.at,
            parent: latest,
        });
    }
    pull(alloc, link, client, host, hand, cursor)
}
