// A store of intervals.
ghost use Rattle.std.specs.Prelude.{◌≡◌, IfOk, IfErr, OnOk, OnErr, Err as AnErr, true, false};
ghost use Rattle.tw_world.specs.Disk as tells;
ghost use Rattle.tw_world.specs.Crash.{FaultsRise};
ghost use Rattle.tw_journal.specs.Record.{IsLongerBy};
ghost use Rattle.timew_month.specs.Body.{AreMonths};
ghost use Rattle.timew_interval.specs.Edit.{IsEditOf};
ghost use Rattle.timew_store.specs.Held.{IfTheyOpen, Replaces};
ghost use Rattle.timew_store.specs.Prepared.{IsPreparedChange, PrepareRefused};
ghost use Rattle.timew_store.specs.Loading.{Stays, LeavesAlike};
ghost use Rattle.timew_store.specs.Store.{LoadRefused, IsLoadFault, LoadSparesDisk, intervals_of, is_store_closed, store_end, ChangeRefused};
ghost use Rattle.timew_store.specs.Store.{LoadsStore, rows_after, IsChangedTo, LeavesChange, ChangeGrows, RestsOnPrepared, LeavesPrepared, PreparedRefused};
ghost use Rattle.timew_store.specs.StoreUndo.{UndoRefused, IsUndone, LeavesUndo, UndoGrows};
ghost use Rattle.timew_month.specs.Records.{changes_of};
ghost use Rattle.timew_store.specs.Growth.{record_size, JournalGrowsBy};

use crate::error::{LoadError, PrepareError, StoreError, UndoError};
use crate::folder::read_months;
use crate::load::open_and_finish;
use crate::prepare::PreparedChange;
use crate::undo::{last_change, prepared_undo};
use crate::write::change::write_change;
use crate::write::prepared::{Prepared, prepared_edit};
use std::alloc::Global;
use std::mem::replace;
use timew_interval::{Edit, Intervals};
use timew_month::Months;
use tw_journal::{Journal, JournalError};
use tw_world::{Disk, Folder};

// The bytes that a record has at most, with its gate and length.
const MAX_RECORD: usize = 1 << 30;

/// The intervals of a folder's month files, over a journal of their changes.
///
/// A change is in the journal before the files are replaced, so that loading finishes one that was cut off.
/// After a fault of the folder or of the journal the store is to be loaded again.
pub struct Store {
    pub(crate) journal: Journal,
    pub(crate) months: Months,
    // The months before the last undo: they go with the store, since to let them go takes time with each interval.
    pub(crate) before: Option<Months>,
}

// It is written out, so that a caller does not prove again how each part is dropped.
impl Drop for Store {
    fn drop(self) {
        let Store {
            journal: _,
            months: _,
            before: _,
        } = self;
    }
}

impl Store {
    /// Loads the store that a folder and a journal hold: the last change is finished, and every file named `YYYY-MM.data` is read.
    ///
    /// Of the journal's records only the last one is read. If the journal refuses, the folder is not used. Any other refusal leaves the
    /// files as they were, or those of the last change finished, or some of them. Unless the disk failed, the journal has the records
    /// that it had, and folder and journal open to what they did.
    pub fn load<F: Folder, D: Disk>(
        alloc: Global,
        folder: &mut F,
        disk: &mut D,
    ) -> Result<Store, LoadError>
        ensures loaded { IfOk result (LoadsStore F.model D.model folder.old folder.new disk.old disk.new) }
        ensures growth { tells.Tells D.model disk.old → tells.LeavesOnly D.model disk.old disk.new (IsLongerBy D.model disk.old 29) }
        ensures length { IfOk result (λ store. (D.model.len disk.new ≡ store_end store) × (is_store_closed store ≡ false)) }
        ensures any_moment { LeavesAlike F.model D.model folder.old folder.new disk.old disk.new }
        ensures refused { IfErr result (λ e. LoadRefused F.model D.model folder.old folder.new disk.old disk.new e) }
        ensures stays { IfErr result (λ e. LoadSparesDisk e → Stays F.model D.model folder.old folder.new disk.old disk.new) }
        ensures sound { IfTheyOpen F.model D.model folder.old disk.old (IfErr result IsLoadFault) }
        ensures folder { FaultsRise F.model folder.old folder.new }
        ensures disk { tells.FaultsRise D.model disk.old disk.new }
    {
        let journal = open_and_finish(alloc, folder, disk)?;
        let months = read_months(alloc, folder)?;
        Ok(Store {
            journal,
            months,
            before: None,
        })
    }

    /// The intervals.
    pub fn intervals(&self) -> &Intervals
        ensures { result.now ≡ intervals_of self.now }
    {
        &self.months.rows
    }

    /// Puts the intervals after an edit into the month files. If no file's text differs, nothing is written.
    ///
    /// The record is written first, and then each file is replaced. If the journal refuses, the folder is not used.
    pub fn change<F: Folder, D: Disk>(
        &mut self,
        alloc: Global,
        folder: &mut F,
        disk: &mut D,
        edit: Edit,
    ) -> Result<(), StoreError>
        requires edit { IsEditOf (intervals_of self.old) edit }
        requires length { is_store_closed self.old ≡ false → D.model.len disk.old ≡ store_end self.old }
        ensures changed { OnOk result (IsChangedTo F.model D.model self.old self.new folder.old folder.new disk.old disk.new (rows_after edit self.old)) }
        ensures rows { OnOk result (intervals_of self.new ≡ rows_after edit self.old) }
        ensures any_moment { LeavesChange F.model D.model self.old folder.old folder.new disk.old disk.new (rows_after edit self.old) }
        ensures growth { ChangeGrows D.model self.old disk.old disk.new (rows_after edit self.old) }
        ensures closed { is_store_closed self.old ≡ true → result ≡ AnErr (StoreError.Journal JournalError.Closed) }
        ensures live { OnOk result (is_store_closed self.new ≡ false) }
        ensures length { is_store_closed self.new ≡ false → D.model.len disk.new ≡ store_end self.new }
        ensures refused { IfErr result (ChangeRefused F.model D.model self.old self.new folder.old folder.new disk.old disk.new (rows_after edit self.old)) }
        ensures folder { FaultsRise F.model folder.old folder.new }
        ensures disk { tells.FaultsRise D.model disk.old disk.new }
    {
        if self.journal.is_closed() {
            return Err(StoreError::Journal(JournalError::Closed));
        }
        let months = replace(&mut self.months, Months::none(alloc));
        let made = match prepared_edit(alloc, months, edit) {
            Ok(made) => made,
            Err(months) => {
                self.months = months;
                return Err(StoreError::Memory);
            }
        };
        match made.write(&mut self.journal, folder, disk) {
            Ok(()) => {
                self.months = made.into_after();
                Ok(())
            }
            Err(error) => {
                self.months = made.into_before();
                Err(error)
            }
        }
    }

    /// Prepares what `change` does: all that wants memory is done, and nothing is written.
    pub fn prepare(self, alloc: Global, edit: Edit) -> Result<PreparedChange, PrepareError>
        requires edit { IsEditOf (intervals_of self) edit }
        ensures prepared { IfOk result (λ p. IsPreparedChange self edit p) }
        ensures refused { IfErr result (λ e. PrepareRefused self (rows_after edit self) e) }
    {
        let Store {
            journal,
            months,
            before,
        } = self;
        if journal.is_closed() {
            return Err(PrepareError::Closed);
        }
        let Ok(made) = prepared_edit(alloc, months, edit) else {
            return Err(PrepareError::Memory);
        };
        let bytes = made.body.len() + 5;
        if bytes > MAX_RECORD {
            return Err(PrepareError::TooLong {
                bytes: bytes as u64,
            });
        }
        Ok(PreparedChange {
            journal,
            made,
            before,
        })
    }

    /// Takes back the last change that is not undone: its files get their old bytes back.
    ///
    /// Nothing is written if a file of it was edited since, or if a line would be no interval without the change, nor if the journal
    /// is damaged or there is no memory.
    pub fn undo<F: Folder, D: Disk>(
        &mut self,
        alloc: Global,
        folder: &mut F,
        disk: &mut D,
    ) -> Result<(), UndoError>
        requires length { is_store_closed self.old ≡ false → D.model.len disk.old ≡ store_end self.old }
        ensures undone { OnOk result (IsUndone F.model D.model self.old self.new folder.old folder.new disk.old disk.new) }
        ensures any_moment { LeavesUndo F.model D.model self.old folder.old folder.new disk.old disk.new }
        ensures growth { UndoGrows D.model self.old disk.old disk.new }
        ensures closed { is_store_closed self.old ≡ true → result ≡ AnErr (UndoError.Journal JournalError.Closed) }
        ensures live { OnOk result (is_store_closed self.new ≡ false) }
        ensures length { is_store_closed self.new ≡ false → D.model.len disk.new ≡ store_end self.new }
        ensures refused { IfErr result (λ e. UndoRefused F.model D.model self.old self.new folder.old folder.new disk.old disk.new e) }
        ensures folder { FaultsRise F.model folder.old folder.new }
        ensures disk { tells.FaultsRise D.model disk.old disk.new }
    {
        if self.journal.is_closed() {
            return Err(UndoError::Journal(JournalError::Closed));
        }
        let Some(change) = last_change(alloc, &self.journal, disk)? else {
            return Err(UndoError::NothingToUndo);
        };
        let prepared = prepared_undo(alloc, &self.months, change)?;
        self.write(folder, disk, prepared)?;
        Ok(())
    }

    // Writes the record of what was prepared, and then its files.
    fn write<F: Folder, D: Disk>(
        &mut self,
        folder: &mut F,
        disk: &mut D,
        prepared: Prepared,
    ) -> Result<(), StoreError>
        requires length { is_store_closed self.old ≡ false → D.model.len disk.old ≡ store_end self.old }
        requires named { AreMonths (changes_of prepared.changes.items) }
        ensures done { OnOk result (RestsOnPrepared F.model D.model self.old self.new folder.old folder.new disk.old disk.new prepared) }
        ensures replaced { OnOk result (Replaces F.model folder.old folder.new (changes_of prepared.changes.items)) }
        ensures months { OnOk result (self.new.months ≡ prepared.months) }
        ensures any_moment { LeavesPrepared F.model D.model self.old folder.old folder.new disk.old disk.new prepared }
        ensures growth { JournalGrowsBy D.model self.old.journal disk.old disk.new (record_size prepared.body.items) }
        ensures live { OnOk result (is_store_closed self.new ≡ false) }
        ensures length { is_store_closed self.new ≡ false → D.model.len disk.new ≡ store_end self.new }
        ensures refused { IfErr result (PreparedRefused F.model D.model self.old self.new folder.old folder.new disk.old disk.new prepared) }
        ensures stays { OnErr result (self.new.months ≡ self.old.months) }
        ensures before { OnErr result (self.new.before ≡ self.old.before) }
        ensures folder { FaultsRise F.model folder.old folder.new }
        ensures disk { tells.FaultsRise D.model disk.old disk.new }
    {
        let Prepared {
            changes,
            body,
            months,
        } = prepared;
        write_change(&mut self.journal, folder, disk, &changes, &body)?;
        self.put(months);
        Ok(())
    }

    // Takes these months instead of those before.
    fn put(&mut self, months: Months)
        ensures months { self.new.months ≡ months }
        ensures journal { self.new.journal ≡ self.old.journal }
    {
        self.before = Some(replace(&mut self.months, months));
    }
}
