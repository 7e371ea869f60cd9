// The record of the state in place of others.
ghost use Rattle.std.specs.Prelude.{◌≡◌, ◌⊎◌, ◌+◌, ◌^◌, false, OnOk, IfErr};
ghost use Rattle.tw_world.specs.Disk.{FaultsRise};
ghost use Rattle.tw_journal.specs.Journal.{is_closed, journal_end, journal_version};
ghost use Rattle.tw_state.specs.Core.{state_of};
ghost use Rattle.tw_replica.specs.Opening.{replaced, AreMany, IsReplaced, LeavesState, GrowsAtMost, RenewingRefused};

use crate::open::renew::{RenewingError, renew};
use crate::open::shorten::{ShorteningError, shorten};
use std::alloc::Global;
use tw_journal::Journal;
use tw_state::Core;
use tw_world::Disk;

impl From<ShorteningError> for RenewingError {
    ghost use Rattle.std.specs.Prelude.{◌≡◌};
    ghost use Rattle.tw_replica.specs.Opening.{shortening_in_renewing};

    ghost from_gives = { λ error e. e ≡ shortening_in_renewing error };

    fn from(error: ShorteningError) -> RenewingError {
        match error {
            ShorteningError::Disk => RenewingError::Disk,
            ShorteningError::Memory => RenewingError::Memory,
        }
    }
}

/// Brings a file of the first version to the second, and replaces many records by one, each if it is due.
pub(crate) fn replace<D: Disk>(
    alloc: Global,
    journal: &mut Journal,
    disk: &mut D,
    core: &Core,
) -> Result<(), RenewingError>
    requires open_now { is_closed journal.old ≡ false }
    requires length { D.model.len disk.old ≡ journal_end journal.old }
    ensures replaced { OnOk result (IsReplaced D.model journal.old journal.new disk.old disk.new (state_of core.now) replaced) }
    ensures any_moment { LeavesState D.model journal.old disk.old disk.new (state_of core.now) }
    ensures growth { GrowsAtMost D.model journal.old disk.old disk.new (λ bodies. (journal_version journal.old ≡ 49) ⊎ AreMany bodies) (2 ^ 30 + 24) }
    ensures refused { IfErr result (λ e. RenewingRefused D.model journal.old disk.old disk.new (state_of core.now) e) }
    ensures kept { FaultsRise D.model disk.old disk.new }
{
    renew(alloc, journal, disk, core)?;
    shorten(alloc, journal, disk, core)?;
    Ok(())
}
