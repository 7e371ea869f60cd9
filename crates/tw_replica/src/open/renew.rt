// Bringing a file of the first version to the second.
ghost use Rattle.std.specs.Prelude.{◌≡◌, ◌+◌, ◌^◌, [], if◌then◌else◌, false, IfOk, OnOk, IfErr};
ghost use Rattle.tw_world.specs.Disk.{FaultsRise};
ghost use Rattle.tw_journal.specs.Journal.{can_checkpoint, is_closed, journal_end, journal_version};
ghost use Rattle.tw_bodies.specs.Body.{IsStep};
ghost use Rattle.tw_state.specs.State.{checkpoint};
ghost use Rattle.tw_state.specs.Core.{state_of};
ghost use Rattle.tw_replica.specs.Opening.{state_body, renewed, IsReplaced, IsInPlace, LeavesState, GrowsAtMost, RenewingRefused};

use crate::error::OpenError;
use crate::open::shorten::{MAX_RECORD, body_of_state};
use crate::replica::MAGIC;
use std::alloc::Global;
use tw_journal::Journal;
use tw_state::Core;
use tw_world::{Disk, Memory};

/// Why the state is not written in place of the records.
#[derive(Clone, Copy, Drop)]
pub(crate) enum RenewingError {
    /// The disk failed.
    Disk,
    /// There was no memory left. The records are as they were.
    Memory,
    /// The record of the state would have so many bytes, more than 2^30. The records are as they were.
    TooLong { bytes: u64 },
}

impl From<Memory> for RenewingError {
    ghost use Rattle.std.specs.Prelude.{◌≡◌};
    ghost use Rattle.tw_replica.specs.declared.open.renew.RenewingError.TheVariants.{Memory as NoMemory};

    ghost from_gives = { λ _ e. e ≡ NoMemory };

    fn from(_: Memory) -> RenewingError {
        RenewingError::Memory
    }
}

impl From<RenewingError> for OpenError {
    ghost use Rattle.std.specs.Prelude.{◌≡◌};
    ghost use Rattle.tw_replica.specs.Opening.{renewing_in_open};

    ghost from_gives = { λ error e. e ≡ renewing_in_open error };

    fn from(error: RenewingError) -> OpenError {
        match error {
            RenewingError::Disk => OpenError::Disk,
            RenewingError::Memory => OpenError::Memory,
            RenewingError::TooLong { bytes } => OpenError::TooLong { bytes },
        }
    }
}

// The last byte of a magic of the first version.
const FIRST: u8 = 49;

// The body that comes in place of a row. A file with areas keeps its records.
fn body_in_place(alloc: Global, journal: &Journal, core: &Core) -> Result<Vec<u8>, Memory>
    ensures body { IfOk result (λ body. body.items ≡ (if can_checkpoint journal.now then [] else state_body (state_of core.now))) }
    ensures is { OnOk result (can_checkpoint journal.now ≡ false → IsStep (checkpoint (state_of core.now))) }
{
    if journal.can_checkpoint() {
        return Ok(Vec::new(alloc));
    }
    body_of_state(alloc, core)
}

/// Replaces a row of the first version by one record of the state, and writes the second version into a file with areas.
pub(crate) fn renew<D: Disk>(
    alloc: Global,
    journal: &mut Journal,
    disk: &mut D,
    core: &Core,
) -> Result<(), RenewingError>
    requires open_now { is_closed journal.old ≡ false }
    requires length { D.model.len disk.old ≡ journal_end journal.old }
    ensures replaced { OnOk result (IsReplaced D.model journal.old journal.new disk.old disk.new (state_of core.now) renewed) }
    ensures any_moment { LeavesState D.model journal.old disk.old disk.new (state_of core.now) }
    ensures growth { GrowsAtMost D.model journal.old disk.old disk.new (λ bodies. journal_version journal.old ≡ 49) (2 ^ 30 + 24) }
    ensures in_place { OnOk result (IsInPlace journal.old journal.new) }
    ensures refused { IfErr result (λ e. RenewingRefused D.model journal.old disk.old disk.new (state_of core.now) e) }
    ensures kept { FaultsRise D.model disk.old disk.new }
{
    if journal.version() != FIRST {
        return Ok(());
    }
    let body = body_in_place(alloc, journal, core)?;
    let size = body.len() + 5;
    if size > MAX_RECORD {
        return Err(RenewingError::TooLong { bytes: size as u64 });
    }
    match journal.upgrade(disk, &MAGIC, &body) {
        Ok(()) => Ok(()),
        Err(_) => Err(RenewingError::Disk),
    }
}
