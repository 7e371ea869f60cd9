// Writing the record of a step that was made on copies, and taking what it leads to.
ghost use Rattle.std.specs.Prelude.{◌≡◌, ◌≤◌, ◌+◌, ◌^◌, length, false, IfOk, OnOk, OnErr, IfErr};
ghost use Rattle.tw_world.specs.Disk.{FaultsRise};
ghost use Rattle.tw_journal.specs.Journal.{RecordsOrMore, is_closed, journal_end};
ghost use Rattle.tw_state.specs.Part.{with_room};
ghost use Rattle.tw_state.specs.Next.{after, IsNextOf};
ghost use Rattle.tw_replica.specs.Replica.{magic, RecordsAfter, LeavesRecords, JournalGrowsBy, one_more};
ghost use Rattle.tw_replica.specs.Replica.{WritingRefused, RecordRefused};

use crate::error::RecordError;
use std::alloc::Global;
use tw_journal::Journal;
use tw_model::Tasks;
use tw_state::{Core, Next, make_room, take_out};
use tw_world::Disk;

// Writes a record once there is room for the tasks that its step adds, so that no memory is taken after it. If it is refused, the room is taken out again.
fn write_record<D: Disk>(
    alloc: Global,
    journal: &mut Journal,
    disk: &mut D,
    tasks: &mut Tasks,
    next: &Next,
    body: &[u8],
) -> Result<(), RecordError>
    requires length { is_closed journal.old ≡ false → D.model.len disk.old ≡ journal_end journal.old }
    requires next { IsNextOf tasks.old next.now }
    ensures journal { IfOk result (λ u. RecordsAfter D.model journal.old journal.new disk.old disk.new (one_more body.now)) }
    ensures any_moment { LeavesRecords D.model journal.old disk.old disk.new (λ bodies. RecordsOrMore magic bodies body.now) }
    ensures growth { JournalGrowsBy D.model journal.old disk.old disk.new (length body.now + 5) }
    ensures accepted { OnOk result ((is_closed journal.new ≡ false) × (length body.now + 5 ≤ 2 ^ 30)) }
    ensures length { is_closed journal.new ≡ false → D.model.len disk.new ≡ journal_end journal.new }
    ensures room { OnOk result (tasks.new ≡ with_room next.now.fresh.items tasks.old) }
    ensures left { OnErr result (tasks.new ≡ tasks.old) }
    ensures refused { IfErr result (λ e. WritingRefused D.model journal.old journal.new disk.old disk.new (length body.now) e) }
    ensures kept { FaultsRise D.model disk.old disk.new }
{
    make_room(alloc, tasks, &next.fresh)?;
    if let Err(error) = journal.append(disk, body) {
        take_out(tasks, &next.fresh);
        return Err(RecordError::Journal(error));
    }
    Ok(())
}

/// Writes the record of a step, and then takes what it leads to. What is pending and the base stay, for the caller to change.
pub(crate) fn write_next<D: Disk>(
    alloc: Global,
    journal: &mut Journal,
    disk: &mut D,
    core: &mut Core,
    next: Next,
    body: &[u8],
) -> Result<(), RecordError>
    requires length { is_closed journal.old ≡ false → D.model.len disk.old ≡ journal_end journal.old }
    requires next { IsNextOf core.old.tasks next }
    ensures journal { IfOk result (λ u. RecordsAfter D.model journal.old journal.new disk.old disk.new (one_more body.now)) }
    ensures any_moment { LeavesRecords D.model journal.old disk.old disk.new (λ bodies. RecordsOrMore magic bodies body.now) }
    ensures growth { JournalGrowsBy D.model journal.old disk.old disk.new (length body.now + 5) }
    ensures accepted { OnOk result ((is_closed journal.new ≡ false) × (length body.now + 5 ≤ 2 ^ 30)) }
    ensures length { is_closed journal.new ≡ false → D.model.len disk.new ≡ journal_end journal.new }
    ensures base { core.new.base ≡ core.old.base }
    ensures pending { core.new.pending ≡ core.old.pending }
    ensures tasks { OnOk result (core.new.tasks ≡ after next core.old.tasks) }
    ensures numbers { OnOk result (core.new.numbers.items ≡ next.numbers.items) }
    ensures refused { IfErr result (λ e. RecordRefused D.model journal.old journal.new core.old core.new disk.old disk.new (length body.now) e) }
    ensures kept { FaultsRise D.model disk.old disk.new }
{
    write_record(alloc, journal, disk, &mut core.tasks, &next, body)?;
    next.take_over(core);
    Ok(())
}
