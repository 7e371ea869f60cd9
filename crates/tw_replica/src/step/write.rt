// A step that is made in memory, and then written.
ghost use Rattle.std.specs.Prelude.{◌≡◌, true};
ghost use Rattle.tw_state.specs.State.{is_sound};
ghost use Rattle.tw_state.specs.Core.{state_of};

use crate::error::WriteError;
use crate::replica::Replica;
use tw_journal::Journal;
use tw_model::Tasks;
use tw_state::{Core, Pending};
use tw_world::Disk;
use uuid::Uuid;

/// A replica after a step whose record is not written yet. It has taken all the memory that the step wants; dropping it leaves the file as it was.
pub struct Prepared {
    pub(crate) journal: Journal,
    pub(crate) core: Core,
    pub(crate) body: Option<Vec<u8>>,
    pub ghost sound: { is_sound (state_of core) ≡ true },
}

// It is written out, so that a caller does not prove again how each part is dropped.
impl Drop for Prepared {
    fn drop(self) {
        let Prepared {
            journal: _,
            core: _,
            body: _,
        } = self;
    }
}

impl Prepared {
    ghost use Rattle.std.specs.Prelude.{◌≡◌, ◌^◌, min, length, true, false, Err as AnErr, IfOk, OnOk, IfErr};
    ghost use Rattle.tw_world.specs.Disk.{FaultsRise};
    ghost use Rattle.tw_journal.specs.Record.{rows};
    ghost use Rattle.tw_journal.specs.Journal.{is_closed};
    ghost use Rattle.tw_replica.specs.Replica.{RecordsAfter, LeavesRecords, JournalGrowsBy, with_more, held_state, is_replica_closed};
    ghost use Rattle.tw_replica.specs.Prepared.{IsWithinLimit, RecordsOrAll, PreparedRefused, IsLengthReady, prepared_state, prepared_bodies};

    /// The tasks after the step.
    pub fn tasks(&self) -> &Tasks
        ensures { result.now ≡ (prepared_state self.now).tasks }
    {
        &self.core.tasks
    }

    /// The places of the working set after the step.
    pub fn numbers(&self) -> &Vec<Option<Uuid>>
        ensures { result.now.items ≡ (prepared_state self.now).numbers }
    {
        &self.core.numbers
    }

    /// The pending operations after the step.
    pub fn pending(&self) -> &Pending
        ensures { result.now ≡ (prepared_state self.now).pending }
    {
        &self.core.pending
    }

    /// Writes the record of the step, if there is one. It takes no memory. After a fault of the disk the file has to be opened again.
    pub fn write<D: Disk>(self, disk: &mut D) -> Result<Replica, WriteError>
        requires length { IsLengthReady D.model self disk.old }
        ensures state { IfOk result (λ replica. held_state replica ≡ prepared_state self) }
        ensures journal { IfOk result (λ replica. RecordsAfter D.model self.journal replica.journal disk.old disk.new (with_more (prepared_bodies self))) }
        ensures any_moment { LeavesRecords D.model self.journal disk.old disk.new (λ bodies. RecordsOrAll bodies (prepared_bodies self)) }
        ensures growth { JournalGrowsBy D.model self.journal disk.old disk.new (min (length (rows (prepared_bodies self))) (2 ^ 30)) }
        ensures within { OnOk result (IsWithinLimit (prepared_bodies self)) }
        ensures closed { is_closed self.journal ≡ true → result ≡ AnErr WriteError.Closed }
        ensures live { IfOk result (λ replica. is_replica_closed replica ≡ false) }
        ensures refused { IfErr result (λ e. PreparedRefused D.model self disk.old disk.new e) }
        ensures kept { FaultsRise D.model disk.old disk.new }
    {
        let Prepared {
            journal,
            core,
            body,
        } = self;
        if journal.is_closed() {
            return Err(WriteError::Closed);
        }
        let Some(body) = body else {
            return Ok(Replica { journal, core });
        };
        let mut journal = journal;
        match journal.append(disk, body.as_slice()) {
            Ok(()) => Ok(Replica { journal, core }),
            Err(error) => Err(WriteError::from(error)),
        }
    }
}
