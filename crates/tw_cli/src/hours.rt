// The hours that a command drives.
ghost use Rattle.std.specs.Prelude.{◌≡◌, ◌<◌, ℕ, List, true, drop, IfOk, IfErr};
ghost use Rattle.std.specs.BTreeSet as set;
ghost use Rattle.tw_world.specs.Disk as tells;
ghost use Rattle.tw_world.specs.Crash.{FaultsRise};
ghost use Rattle.tw_model.specs.Maps.{bytes_cmp};
ghost use Rattle.tw_model.specs.Ops.{TasksValue};
ghost use Rattle.tw_state.specs.Touched.{is_touched};
ghost use Rattle.tw_replica.specs.Replica.{held_state};
ghost use Rattle.tw_replica.specs.Prepared.{prepared_state};
ghost use Rattle.timew_interval.specs.Edit.{edited, IsEditOf};
ghost use Rattle.timew_store.specs.Loading.{LeavesAlike};
ghost use Rattle.timew_bridge.specs.Known.{AreDrivers};
ghost use Rattle.timew_bridge.specs.Tail.{IsTailOf};
ghost use Rattle.timew_bridge.specs.Track.{tracked};
ghost use Rattle.tw_cli.specs.Driving.{driven, is_driving};
ghost use Rattle.tw_cli.specs.Growth.{LoadingGrows, ChangeGrows};
ghost use Rattle.tw_cli.specs.Ready.{IsBefore, KnowsBefore, KnowsTasks, IsReadyChange, AreReady, ChangeRefused, HoursRefused, LeavesLoaded};
ghost use Rattle.tw_cli.specs.Ready.{CanBeWritten, HoursEnd, HoursLeave};

use crate::carry::CarryError;
use std::alloc::Global;
use std::collections::BTreeSet;
use std::mem::forget;
use timew_bridge::{Drivers, tail_of, track_tail, track_tail_among, track_tail_by};
use timew_interval::{Edit, Intervals};
use timew_store::{PrepareError, PreparedChange, Store};
use tw_changes::Request;
use tw_replica::{Prepared, Replica};
use tw_state::{Pending, touched_uuids};
use tw_world::{Disk, Folder, Memory, Moment};
use uuid::Uuid;

/// What intervals ask of the tasks before a command that drives them, and how many operations were pending then.
pub(crate) struct Before {
    pub(crate) drivers: Drivers,
    pub(crate) pending: usize,
}

// It is written out, so that a caller does not prove again how each part is dropped.
impl Drop for Before {
    fn drop(self) {
        let Before {
            drivers: _,
            pending: _,
        } = self;
    }
}

/// Whether a request drives intervals. It takes no memory.
pub(crate) fn is_driving(request: &Request<'_>) -> bool
    ensures { result ≡ is_driving request.now }
{
    request.settings.timetrack() && request.command.drives()
}

/// What intervals ask of the tasks of a replica, if a request drives them.
pub(crate) fn asked_before(
    alloc: Global,
    request: &Request<'_>,
    replica: &Replica,
) -> Result<Option<Before>, Memory>
    ensures { IfOk result (IsBefore request.now (held_state replica.now)) }
{
    if !is_driving(request) {
        return Ok(None);
    }
    let drivers = Drivers::of(alloc, replica.tasks(), request.at)?;
    Ok(Some(Before {
        drivers,
        pending: replica.pending().len(),
    }))
}

// Up to so many operations of a command are read, so that not all tasks are looked at after it.
const FEW: usize = 100;

// Whether there are more operations than before, and few of them.
fn made_few(before: usize, after: usize) -> bool
    ensures { result ≡ true → before < after }
{
    before < after && after - before <= FEW
}

// The tasks that the operations from a number on name.
fn named_from(alloc: Global, pending: &Pending, from: usize) -> Result<BTreeSet<Uuid>, Memory>
    ensures { IfOk result (λ named. (u : List ℕ) → set.contains bytes_cmp named u ≡ is_touched (drop from pending.now) u) }
{
    let ops = pending.behind(alloc, from)?;
    touched_uuids(alloc, &ops, 0)
}

// The edit by which the tasks after a step drive intervals further.
fn edit_after(
    alloc: Global,
    before: &Before,
    after: &Prepared,
    rows: &Intervals,
    edit: Edit,
    now: Moment,
) -> Result<Edit, Memory>
    requires tail { IsTailOf rows.now edit }
    requires known { KnowsBefore now.seconds before.now (prepared_state after.now) }
    ensures tracked { IfOk result (λ e. edited e rows.now ≡ tracked (prepared_state after.now).tasks (edited edit rows.now) now.seconds) }
    ensures tail { IfOk result (IsTailOf rows.now) }
{
    if !made_few(before.pending, after.pending().len()) {
        return track_tail_by(alloc, after.tasks(), rows, edit, now);
    }
    let named = named_from(alloc, after.pending(), before.pending)?;
    track_tail_among(
        alloc,
        &before.drivers,
        &named,
        after.tasks(),
        rows,
        edit,
        now,
    )
}

// The edit by which the tasks before a step and those after it drive intervals.
fn edit_by(
    alloc: Global,
    before: &Before,
    after: &Prepared,
    rows: &Intervals,
    now: Moment,
) -> Result<Edit, Memory>
    requires { KnowsBefore now.seconds before.now (prepared_state after.now) }
    ensures driven { IfOk result (λ e. (tasks : TasksValue) → AreDrivers tasks now.seconds before.now.drivers
        → edited e rows.now ≡ driven tasks (prepared_state after.now).tasks rows.now now.seconds) }
    ensures edit { IfOk result (IsEditOf rows.now) }
{
    let tail = tail_of(alloc, rows)?;
    let edit = track_tail(alloc, &before.drivers, rows, tail, now)?;
    edit_after(alloc, before, after, rows, edit, now)
}

// Loads the hours, and prepares the change by which the tasks before a step and those after it drive them.
fn load_change<F: Folder, J: Disk>(
    alloc: Global,
    now: Moment,
    before: &Before,
    after: &Prepared,
    folder: &mut F,
    track: &mut J,
) -> Result<PreparedChange, CarryError>
    requires { KnowsBefore now.seconds before.now (prepared_state after.now) }
    ensures ready { IfOk result (IsReadyChange F.model J.model now.seconds before.now.drivers (prepared_state after.now).tasks
        folder.old folder.new track.old track.new) }
    ensures refused { IfErr result (ChangeRefused F.model J.model folder.old folder.new track.old track.new
        now.seconds before.now.drivers (prepared_state after.now).tasks) }
    ensures any_moment { LeavesAlike F.model J.model folder.old folder.new track.old track.new }
    ensures growth { LoadingGrows J.model track.old track.new }
    ensures folder { FaultsRise F.model folder.old folder.new }
    ensures track { tells.FaultsRise J.model track.old track.new }
{
    let store = match Store::load(alloc, folder, track) {
        Ok(store) => store,
        Err(error) => return Err(CarryError::Load(error)),
    };
    let Ok(edit) = edit_by(alloc, before, after, store.intervals(), now) else {
        return Err(CarryError::Memory);
    };
    match store.prepare(alloc, edit) {
        Ok(change) => Ok(change),
        Err(PrepareError::TooLong { bytes }) => Err(CarryError::HoursTooLong { bytes }),
        Err(PrepareError::Memory) => Err(CarryError::Memory),
        Err(PrepareError::Closed) => unreachable!(),
    }
}

/// Makes the hours ready for the change that a command drives, or leaves them alone if it drives none or its step makes no operation and
/// takes none back. All the memory that the change wants is taken here, and nothing of it is written.
pub(crate) fn ready_hours<F: Folder, J: Disk>(
    alloc: Global,
    now: Moment,
    before: &Option<Before>,
    prepared: &Prepared,
    folder: &mut F,
    track: &mut J,
) -> Result<Option<PreparedChange>, CarryError>
    requires { KnowsTasks now.seconds before.now (prepared_state prepared.now) }
    ensures ready { IfOk result (AreReady F.model J.model now.seconds before.now (prepared_state prepared.now) folder.old folder.new track.old track.new) }
    ensures refused { IfErr result (HoursRefused F.model J.model folder.old folder.new track.old track.new
        now.seconds before.now (prepared_state prepared.now).tasks) }
    ensures any_moment { LeavesLoaded F.model J.model folder.old folder.new track.old track.new }
    ensures growth { LoadingGrows J.model track.old track.new }
    ensures folder { FaultsRise F.model folder.old folder.new }
    ensures track { tells.FaultsRise J.model track.old track.new }
{
    let Some(before) = before else {
        return Ok(None);
    };
    if before.pending == prepared.pending().len() {
        return Ok(None);
    }
    match load_change(alloc, now, before, prepared, folder, track) {
        Ok(change) => Ok(Some(change)),
        Err(error) => Err(error),
    }
}

/// Writes the change of the hours, if there is one. It takes no memory. Answers whether folder and journal did not fail.
pub(crate) fn write_hours<F: Folder, J: Disk>(
    change: Option<PreparedChange>,
    folder: &mut F,
    track: &mut J,
) -> bool
    requires { CanBeWritten J.model track.old change }
    ensures ended { HoursEnd F.model J.model folder.old folder.new track.old track.new change result }
    ensures any_moment { HoursLeave F.model J.model folder.old folder.new track.old track.new change }
    ensures growth { ChangeGrows J.model track.old track.new change }
    ensures folder { FaultsRise F.model folder.old folder.new }
    ensures track { tells.FaultsRise J.model track.old track.new }
{
    let Some(change) = change else {
        return true;
    };
    match change.write(folder, track) {
        Ok(store) => {
            forget(store);
            true
        }
        Err(_) => false,
    }
}
