// A change that takes all its memory before it is written.
ghost use Rattle.std.specs.Prelude.{◌≡◌, false, IfOk, IfErr};
ghost use Rattle.tw_world.specs.Disk as tells;
ghost use Rattle.tw_world.specs.Crash.{FaultsRise};
ghost use Rattle.timew_store.specs.Prepared.{IsPreparedChange, OnPrepared, WriteFailed, prepared_end};
ghost use Rattle.timew_store.specs.Store.{intervals_of, is_store_closed, store_end, IsChangedTo, LeavesChange, ChangeGrows};

use crate::error::{StoreError, WriteError};
use crate::store::Store;
use crate::write::prepared::PreparedEdit;
use timew_interval::Edit;
use timew_month::Months;
use tw_journal::Journal;
use tw_world::{Disk, Folder};

/// A change of a store that is not written yet. It has taken all the memory that the change wants; dropping it leaves folder and
/// journal as they were.
pub struct PreparedChange {
    pub(crate) journal: Journal,
    pub(crate) made: PreparedEdit,
    pub(crate) before: Option<Months>,
}

// It is written out, so that a caller does not prove again how each part is dropped.
impl Drop for PreparedChange {
    fn drop(self) {
        let PreparedChange {
            journal: _,
            made: _,
            before: _,
        } = self;
    }
}

impl PreparedChange {
    /// Writes the record of the change, and then its files; if no file's text differs, nothing is written. It takes no memory.
    ///
    /// After a refusal the store is to be loaded again.
    pub fn write<F: Folder, D: Disk>(
        self,
        folder: &mut F,
        disk: &mut D,
    ) -> Result<Store, WriteError>
        requires prepared { (old : Store) × (edit : Edit) × IsPreparedChange old edit self }
        requires length { D.model.len disk.old ≡ prepared_end self }
        ensures changed { IfOk result (λ new. OnPrepared self (λ old rows. IsChangedTo F.model D.model old new folder.old folder.new disk.old disk.new rows)) }
        ensures rows { IfOk result (λ new. OnPrepared self (λ old rows. intervals_of new ≡ rows)) }
        ensures any_moment { OnPrepared self (λ old rows. LeavesChange F.model D.model old folder.old folder.new disk.old disk.new rows) }
        ensures growth { OnPrepared self (λ old rows. ChangeGrows D.model old disk.old disk.new rows) }
        ensures live { IfOk result (λ new. is_store_closed new ≡ false) }
        ensures length { IfOk result (λ new. D.model.len disk.new ≡ store_end new) }
        ensures refused { IfErr result (λ e. OnPrepared self (WriteFailed F.model D.model folder.old folder.new disk.old disk.new e)) }
        ensures folder { FaultsRise F.model folder.old folder.new }
        ensures disk { tells.FaultsRise D.model disk.old disk.new }
    {
        let PreparedChange {
            journal,
            made,
            before,
        } = self;
        let mut journal = journal;
        match made.write(&mut journal, folder, disk) {
            Ok(()) => Ok(Store {
                journal,
                months: made.into_after(),
                before,
            }),
            Err(StoreError::Folder) => Err(WriteError::Folder),
            Err(StoreError::Journal(_)) => Err(WriteError::Disk),
            Err(StoreError::Memory) => unreachable!(),
        }
    }
}
