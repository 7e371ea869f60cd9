// The snapshot that a server wants.
ghost use Rattle.std.specs.Prelude.{◌≡◌, option_map, false, IfOk, OnErr};
ghost use Rattle.tw_http.specs.Messages.{IsHost};
ghost use Rattle.tw_protocol.specs.Chain.{same_id};
ghost use Rattle.tw_model.specs.Ops.{apply_all};
ghost use Rattle.tw_path.specs.Path.{Reached};
ghost use Rattle.tw_path.specs.Walk.{StandsAt};
ghost use Rattle.tw_sync.specs.Ends.Offer.{IsLetterOf, IsWantedLetter, IsLetter, OffersOne};

use crate::cursor::Cursor;
use crate::report::SyncReport;
use std::alloc::Global;
use tw_http::{Bytes, Link, Request, write_request};
use tw_model::Tasks;
use tw_snapshot::write_snapshot;
use tw_state::apply_synced;
use tw_world::Memory;
use uuid::Uuid;

/// What a sync that is done gives: its report, and the request that stores the tasks at its end, if the server wants them.
#[derive(Drop)]
pub(crate) struct Done {
    pub report: SyncReport,
    pub letter: Option<Vec<u8>>,
}

/// The request that stores the tasks at a cursor, beside the tasks at hand, if they are not too long.
pub(crate) fn letter_at(
    alloc: Global,
    hand: &Tasks,
    client: Uuid,
    host: &str,
    cursor: &Cursor,
) -> Result<Option<Vec<u8>>, Memory>
    requires host { IsHost host.now }
    ensures { IfOk result (λ letter. (r : Reached) → StandsAt hand.now r cursor.now.walker → r.tasks ≡ apply_all hand.now r.carried
        → IsLetterOf client host.now r.at r.tasks (option_map (λ v. v.items) letter)) }
{
    let mut there = hand.copy(alloc)?;
    apply_synced(alloc, &mut there, &cursor.walker.carried)?;
    letter_of(alloc, client, host, cursor.walker.at, &there)
}

fn letter_of(
    alloc: Global,
    client: Uuid,
    host: &str,
    version: Uuid,
    tasks: &Tasks,
) -> Result<Option<Vec<u8>>, Memory>
    requires host { IsHost host.now }
    ensures { IfOk result (λ letter. IsLetterOf client host.now version tasks.now (option_map (λ v. v.items) letter)) }
{
    let Some(text) = write_snapshot(alloc, tasks)? else {
        return Ok(None);
    };
    let request = Request::AddSnapshot {
        client,
        version,
        snapshot: Bytes::from_vec(text),
    };
    let letter = write_request(alloc, &request, host)?;
    Ok(Some(letter))
}

/// The request that stores the tasks at a cursor, beside the tasks at hand, if the server wants them and the cursor is not at the base.
pub(crate) fn wanted_letter(
    alloc: Global,
    base: Uuid,
    hand: &Tasks,
    client: Uuid,
    host: &str,
    cursor: &Cursor,
) -> Result<Option<Vec<u8>>, Memory>
    requires host { IsHost host.now }
    ensures letter { IfOk result (λ letter. (r : Reached) → StandsAt hand.now r cursor.now.walker → r.tasks ≡ apply_all hand.now r.carried
        → IsWantedLetter client host.now cursor.now.wanted base r (option_map (λ v. v.items) letter)) }
    ensures far { OnErr result (same_id cursor.now.walker.at base ≡ false) }
{
    if !cursor.wanted || cursor.at() == base {
        return Ok(None);
    }
    letter_at(alloc, hand, client, host, cursor)
}

/// Sends a request that stores a snapshot. What becomes of it is passed over.
pub(crate) fn offer<L: Link>(alloc: Global, link: &mut L, client: Uuid, text: &[u8])
    requires { IsLetter client text.now }
    ensures { OffersOne L.model client link.old link.new text.now }
{
    let mut reply = Vec::new(alloc);
    let _ = link.exchange(text, &mut reply);
}
