// Sending what is left at a cursor.
ghost use Rattle.std.specs.Prelude.{◌≡◌, ◌≤◌, [], length, IfOk, IfErr};
ghost use Rattle.tw_http.specs.Messages.{IsHost};
ghost use Rattle.tw_segment.specs.Segment.{max_len, segment_text, IsSegment};
ghost use Rattle.tw_groups.specs.Groups.{joined};
ghost use Rattle.tw_groups.specs.Held.{groups_in};
ghost use Rattle.tw_groups.specs.Cut.{first};
ghost use Rattle.tw_path.specs.Path.{is_batch};
ghost use Rattle.tw_path.specs.Batch.{IsFirstBatch};
ghost use Rattle.tw_sync.specs.Way.Progress.{StopsSending};
ghost use Rattle.tw_sync.specs.Way.Sending.{IsUnsent, SendsLeft, CountsSent};

use crate::ask::{AddAnswer, ask_add};
use crate::cursor::Cursor;
use crate::error::{SendError, SyncError};
use std::alloc::Global;
use tw_http::Link;
use tw_model::SyncOp;
use tw_path::{Batch, first_batch};
use tw_segment::{SegmentError, write_segment};
use uuid::Uuid;

/// What became of what was sent.
#[derive(Clone, Copy, Drop)]
pub(crate) enum Sent {
    /// It is in the chain.
    Added,
    /// It came too late: the server's latest version is another.
    Late { latest: Uuid },
}

/// Sends what is first of what is left, as the version after the cursor. If it was added the cursor goes on to it.
pub(crate) fn push<L: Link>(
    alloc: Global,
    link: &mut L,
    client: Uuid,
    host: &str,
    cursor: &mut Cursor,
) -> Result<Sent, SyncError>
    requires host { IsHost host.now }
    requires some { ¬ (joined (groups_in cursor.old.walker.left.items) ≡ []) }
    requires tries { cursor.old.conflicts ≤ 15 }
    ensures pushed { IfOk result (SendsLeft L.model client host.now link.old cursor.old link.new cursor.new) }
    ensures counted { IfOk result (λ sent. CountsSent sent cursor.old cursor.new) }
    ensures stopped { IfErr result (StopsSending L.model client host.now link.old cursor.old link.new cursor.new) }
{
    let Letter { batch, ops, text } = write_letter(alloc, &cursor.walker.left)?;
    match ask_add(alloc, link, client, host, cursor.walker.at, text)? {
        AddAnswer::Added { id, wanted } => {
            cursor.add(alloc, id, ops, batch, wanted)?;
            Ok(Sent::Added)
        }
        AddAnswer::Conflict { latest } => {
            cursor.conflicts += 1;
            Ok(Sent::Late { latest })
        }
    }
}

// What is sent: the operations of a batch, and their text.
#[derive(Drop)]
struct Letter {
    batch: Batch,
    ops: Vec<SyncOp>,
    text: Vec<u8>,
}

// What is sent first of what is left.
fn write_letter(alloc: Global, left: &Vec<Vec<SyncOp>>) -> Result<Letter, SendError>
    ensures batch { IfOk result (λ letter. IsFirstBatch letter.batch left.now.items) }
    ensures ops { IfOk result (λ letter. letter.ops.items ≡ first is_batch (groups_in left.now.items)) }
    ensures text { IfOk result (λ letter. letter.text.items ≡ segment_text letter.ops.items) }
    ensures within { IfOk result (λ letter. length letter.text.items ≤ max_len) }
    ensures reads_back { IfOk result (λ letter. IsSegment letter.text.items letter.ops.items) }
    ensures refused { IfErr result (IsUnsent (first is_batch (groups_in left.now.items))) }
{
    let Ok(batch) = first_batch(alloc, left) else {
        return Err(SendError::Memory);
    };
    let Ok(ops) = batch.sent(alloc, left) else {
        return Err(SendError::Memory);
    };
    let text = text_to_send(alloc, &ops)?;
    Ok(Letter { batch, ops, text })
}

fn text_to_send(alloc: Global, ops: &Vec<SyncOp>) -> Result<Vec<u8>, SendError>
    ensures text { IfOk result (λ v. v.items ≡ segment_text ops.now.items) }
    ensures within { IfOk result (λ v. length v.items ≤ max_len) }
    ensures reads_back { IfOk result (λ v. IsSegment v.items ops.now.items) }
    ensures refused { IfErr result (IsUnsent ops.now.items) }
{
    match write_segment(alloc, ops) {
        Ok(text) => Ok(text),
        Err(SegmentError::TooLong { bytes }) => Err(SendError::TooLong { bytes }),
        Err(_) => Err(SendError::Memory),
    }
}
