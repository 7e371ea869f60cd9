// A record of the whole state in place of many records.
ghost use Rattle.std.specs.Prelude.{◌≡◌, ◌+◌, ◌^◌, false, IfOk, OnOk, IfErr};
ghost use Rattle.tw_world.specs.Disk.{FaultsRise};
ghost use Rattle.tw_journal.specs.Journal.{is_closed, journal_end, journal_version};
ghost use Rattle.tw_bodies.specs.Body.{IsStep};
ghost use Rattle.tw_state.specs.State.{checkpoint, start_of};
ghost use Rattle.tw_state.specs.Core.{state_of};
ghost use Rattle.tw_replica.specs.Replica.{RecordsAfter};
ghost use Rattle.tw_replica.specs.Opening.{state_body, shortened, AreMany, StandsStill, LeavesState, GrowsAtMost, ShorteningRefused};

use std::alloc::Global;
use tw_bodies::checkpoint_body;
use tw_journal::Journal;
use tw_model::Tasks;
use tw_state::{Core, take_back_from};
use tw_world::{Disk, Memory};

/// Why the state is not written in place of the records.
#[derive(Clone, Copy, Drop)]
pub(crate) enum ShorteningError {
    /// The disk failed.
    Disk,
    /// There was no memory left, and nothing was written.
    Memory,
}

impl From<Memory> for ShorteningError {
    ghost use Rattle.std.specs.Prelude.{◌≡◌};
    ghost use Rattle.tw_replica.specs.declared.open.shorten.ShorteningError.TheVariants.{Memory as NoMemory};

    ghost from_gives = { λ _ e. e ≡ NoMemory };

    fn from(_: Memory) -> ShorteningError {
        ShorteningError::Memory
    }
}

// With this many records opening writes one in their place.
const MANY: u64 = 1000;

/// The limit of a record.
pub(crate) const MAX_RECORD: usize = 1 << 30;

// The tasks with all that is pending taken back.
fn tasks_at_base(alloc: Global, core: &Core) -> Result<Tasks, Memory>
    ensures { IfOk result (λ tasks. tasks ≡ start_of (state_of core.now)) }
{
    let pending = core.pending.ops(alloc)?;
    let mut tasks = core.tasks.copy(alloc)?;
    take_back_from(alloc, &mut tasks, &pending, 0)?;
    Ok(tasks)
}

/// The body of the record that holds the state.
pub(crate) fn body_of_state(alloc: Global, core: &Core) -> Result<Vec<u8>, Memory>
    ensures body { IfOk result (λ body. body.items ≡ state_body (state_of core.now)) }
    ensures is { OnOk result (IsStep (checkpoint (state_of core.now))) }
{
    let tasks = tasks_at_base(alloc, core)?;
    let pending = core.pending.ops(alloc)?;
    checkpoint_body(alloc, &core.base, &core.numbers, &tasks, &pending)
}

/// Replaces the records by one of the whole state, if the file has areas, the records are many, and that one is not above the limit.
pub(crate) fn shorten<D: Disk>(
    alloc: Global,
    journal: &mut Journal,
    disk: &mut D,
    core: &Core,
) -> Result<(), ShorteningError>
    requires open_now { is_closed journal.old ≡ false }
    requires length { D.model.len disk.old ≡ journal_end journal.old }
    ensures records { OnOk result (RecordsAfter D.model journal.old journal.new disk.old disk.new (shortened journal.old (state_of core.now))) }
    ensures stands { OnOk result (StandsStill D.model journal.old disk.old (state_of core.now) (shortened journal.old (state_of core.now))) }
    ensures any_moment { LeavesState D.model journal.old disk.old disk.new (state_of core.now) }
    ensures growth { GrowsAtMost D.model journal.old disk.old disk.new AreMany (2 ^ 30 + 2) }
    ensures length { OnOk result (D.model.len disk.new ≡ journal_end journal.new) }
    ensures live { OnOk result (is_closed journal.new ≡ false) }
    ensures version { journal_version journal.new ≡ journal_version journal.old }
    ensures refused { IfErr result (λ e. ShorteningRefused D.model journal.old disk.old disk.new e) }
    ensures kept { FaultsRise D.model disk.old disk.new }
{
    if !journal.can_checkpoint() {
        return Ok(());
    }
    if journal.count() < MANY {
        return Ok(());
    }
    let body = body_of_state(alloc, core)?;
    if body.len() + 5 > MAX_RECORD {
        return Ok(());
    }
    match journal.checkpoint(disk, &body) {
        Ok(()) => Ok(()),
        Err(_) => Err(ShorteningError::Disk),
    }
}
