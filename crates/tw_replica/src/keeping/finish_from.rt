// Taking over a snapshot.
ghost use Rattle.std.specs.Prelude.{◌≡◌, [], length, Some, true, false, is_some, Err as AnErr, IfOk, OnOk, IfErr};
ghost use Rattle.std.specs.FinMap as map;
ghost use Rattle.tw_world.specs.Disk.{FaultsRise};
ghost use Rattle.tw_journal.specs.Record.{rows};
ghost use Rattle.tw_model.specs.Maps.{same_bytes};
ghost use Rattle.tw_numbers.specs.Numbering.{assigned as assigned_places};
ghost use Rattle.tw_numbers.specs.Assigned.{IsAssignedIn};
ghost use Rattle.tw_bodies.specs.Body.{body_of, body_size, IsStep};
ghost use Rattle.tw_bodies.specs.Body.Step.{Checkpoint};
ghost use Rattle.tw_state.specs.Core.{state_of};
ghost use Rattle.tw_state.specs.Touched.{Gains};
ghost use Rattle.tw_replica.specs.Prepared.{step_bodies, IsWithinLimit};
ghost use Rattle.tw_replica.specs.Replica.{IsLengthKept, StandsAfter, LeavesStep, GrowsBy, one_more};
ghost use Rattle.tw_replica.specs.Replica.{held_state, taken_over, taking_over, is_replica_closed, SyncingRefused};

use crate::error::RecordError;
use crate::replica::Replica;
use std::alloc::Global;
use std::collections::BTreeSet;
use tw_bodies::checkpoint_body;
use tw_journal::AppendError;
use tw_model::Tasks;
use tw_numbers::assigned;
use tw_state::{Core, Pending};
use tw_world::{Disk, Memory};
use uuid::Uuid;

fn add_uuid(touched: &mut BTreeSet<Uuid>, uuid: Uuid) -> Result<(), Memory>
    ensures { OnOk result (Gains touched.old touched.new (λ u. same_bytes u uuid)) }
{
    touched.insert(uuid)?;
    Ok(())
}

// Puts the uuids of tasks beside others.
fn add_tasks(touched: &mut BTreeSet<Uuid>, tasks: &Tasks) -> Result<(), Memory>
    ensures { OnOk result (Gains touched.old touched.new (λ u. is_some (map.get tasks.now u))) }
{
    for (uuid, _) in tasks.iter() {
        add_uuid(touched, *uuid)?;
    }
    Ok(())
}

// The places of these tasks, once they take the place of all that are there.
fn places_of(alloc: Global, core: &Core, tasks: &Tasks) -> Result<Vec<Option<Uuid>>, Memory>
    requires { IsAssignedIn core.now.numbers.items core.now.tasks }
    ensures { IfOk result (λ places. places.items ≡ assigned_places core.now.numbers.items tasks.now) }
{
    let mut touched = BTreeSet::new(alloc);
    add_tasks(&mut touched, &core.tasks)?;
    add_tasks(&mut touched, tasks)?;
    let places = assigned(alloc, &core.numbers, tasks, &touched)?;
    Ok(places)
}

// The body of the record of a state in which nothing is pending.
fn body_at_base(
    alloc: Global,
    base: &Uuid,
    places: &Vec<Option<Uuid>>,
    tasks: &Tasks,
) -> Result<Vec<u8>, Memory>
    ensures body { IfOk result (λ body. body.items ≡ body_of (Checkpoint base.now places.now.items tasks.now [])) }
    ensures is { OnOk result (IsStep (Checkpoint base.now places.now.items tasks.now [])) }
{
    let none = Vec::new(alloc);
    let body = checkpoint_body(alloc, base, places, tasks, &none)?;
    Ok(body)
}

impl Replica {
    /// Takes the base and the tasks of a snapshot, in the place of the tasks that are there. Nothing may be pending.
    /// A refusal leaves the replica as it was; after a fault of the disk it is closed.
    pub fn finish_from<D: Disk>(
        &mut self,
        alloc: Global,
        disk: &mut D,
        base: Uuid,
        tasks: Tasks,
    ) -> Result<(), RecordError>
        requires length { IsLengthKept D.model self.old disk.old }
        requires idle { (held_state self.old).pending ≡ [] }
        ensures state { OnOk result (held_state self.new ≡ taken_over base tasks self.old) }
        ensures stands { OnOk result (StandsAfter D.model self.old self.new disk.old disk.new (one_more (body_of (taking_over base tasks self.old)))) }
        ensures any_moment { LeavesStep D.model self.old disk.old disk.new (Some (taken_over base tasks self.old)) }
        ensures growth { GrowsBy D.model self.old disk.old disk.new (length (rows (step_bodies (taking_over base tasks self.old)))) }
        ensures within { OnOk result (IsWithinLimit (step_bodies (taking_over base tasks self.old))) }
        ensures closed { is_replica_closed self.old ≡ true → result ≡ AnErr (RecordError.Journal AppendError.Closed) }
        ensures live { OnOk result (is_replica_closed self.new ≡ false) }
        ensures length { IsLengthKept D.model self.new disk.new }
        ensures refused { IfErr result (λ e. SyncingRefused D.model self.old self.new disk.old disk.new (body_size (taking_over base tasks self.old)) e) }
        ensures kept { FaultsRise D.model disk.old disk.new }
    {
        if self.journal.is_closed() {
            return Err(RecordError::Journal(AppendError::Closed));
        }
        let numbers = places_of(alloc, &self.core, &tasks)?;
        let body = body_at_base(alloc, &base, &numbers, &tasks)?;
        let none = Pending::new(alloc);
        if let Err(error) = self.journal.append(disk, &body) {
            return Err(RecordError::Journal(error));
        }
        self.core.pending = none;
        self.core.base = base;
        self.core.tasks = tasks;
        self.core.numbers = numbers;
        Ok(())
    }
}
