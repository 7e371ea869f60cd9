// What is prepared before a record is written.
ghost use Rattle.std.specs.Prelude.{◌≡◌, true, false, Ok, length, ◌+◌, ◌≤◌, ◌^◌, IfOk, IfErr, OnOk};
ghost use Rattle.std.specs.Vec.{vec_len, vec_capacity};
ghost use Rattle.tw_world.specs.Disk as tells;
ghost use Rattle.tw_world.specs.Crash.{FaultsRise};
ghost use Rattle.tw_journal.specs.Journal.{is_closed, journal_end};
ghost use Rattle.timew_month.specs.Body.{AreMonths, body_of};
ghost use Rattle.timew_month.specs.Body.Step.{Change};
ghost use Rattle.timew_interval.specs.Edit.{edited, IsEditOf};
ghost use Rattle.timew_month.specs.Files.{replaced};
ghost use Rattle.timew_month.specs.Changes.{changes_to};
ghost use Rattle.timew_store.specs.Prepared.{IsPreparedEdit, OnEdit, OnEditOf, HoldNext, LeadsOn, IsRefusedAt, IsDeviceFault};
ghost use Rattle.timew_month.specs.Rows.{rows_of};
ghost use Rattle.timew_store.specs.Store.{OnFolders, LeavesChange, ChangeGrows};
ghost use Rattle.timew_month.specs.Records.{changes_of};

use crate::error::StoreError;
use crate::write::change::write_change;
use std::alloc::Global;
use timew_interval::{Edit, Interval, Intervals, splice};
use timew_month::{KnownText, MonthFile, Months, NewFile, change_body, changes_to, files_with};
use tw_journal::Journal;
use tw_world::{Disk, Folder, Memory};

/// What becomes of the month files, the body of its record, and the month files afterwards.
#[derive(Drop)]
pub(crate) struct Prepared {
    pub changes: Vec<NewFile>,
    pub body: Vec<u8>,
    pub months: Months,
}

/// Month files and intervals, what an edit makes of the files, the body of its record, and room for what is there afterwards.
pub(crate) struct PreparedEdit {
    pub files: Vec<MonthFile>,
    pub rows: Vec<Interval>,
    pub known: Vec<KnownText>,
    pub edit: Edit,
    pub changes: Vec<NewFile>,
    pub body: Vec<u8>,
    pub room: Vec<MonthFile>,
}

// It is written out, so that a caller does not prove again how each part is dropped.
impl Drop for PreparedEdit {
    fn drop(self) {
        let PreparedEdit {
            files: _,
            rows: _,
            known: _,
            edit: _,
            changes: _,
            body: _,
            room: _,
        } = self;
    }
}

/// What becomes of month files by an edit, and the body of its record.
struct Recorded {
    changes: Vec<NewFile>,
    body: Vec<u8>,
}

fn record_of(alloc: Global, months: &Months, edit: &Edit) -> Result<Recorded, Memory>
    requires { IsEditOf months.now.rows edit.now }
    ensures body { IfOk result (λ r. r.body.items ≡ body_of (Change (changes_of r.changes.items))) }
    ensures changes { IfOk result (λ r. OnFolders months.now (λ files. changes_of r.changes.items ≡ changes_to files (edited edit.now months.now.rows))) }
    ensures rows { IfOk result (λ r. OnFolders months.now (λ f. rows_of (replaced f (changes_of r.changes.items)) ≡ Ok (edited edit.now months.now.rows))) }
    ensures named { IfOk result (λ r. AreMonths (changes_of r.changes.items)) }
{
    let changes = changes_to(alloc, months, edit)?;
    let body = change_body(alloc, &changes)?;
    Ok(Recorded { changes, body })
}

/// Prepares that the month files hold the intervals after an edit, or gives the same months back if there is no memory.
pub(crate) fn prepared_edit(
    alloc: Global,
    months: Months,
    edit: Edit,
) -> Result<PreparedEdit, Months>
    requires { IsEditOf months.rows edit }
    ensures prepared { IfOk result (λ p. IsPreparedEdit months edit p) }
    ensures same { IfErr result (λ same. same ≡ months) }
{
    let Ok(Recorded { changes, body }) = record_of(alloc, &months, &edit) else {
        return Err(months);
    };
    let Ok(room) = Vec::with_capacity(alloc, months.files.len() + changes.len()) else {
        return Err(months);
    };
    let Months { files, rows, known } = months;
    match rows.with_room(edit.rows.len()) {
        Ok(rows) => Ok(PreparedEdit {
            files,
            rows,
            known,
            edit,
            changes,
            body,
            room,
        }),
        Err(rows) => Err(Months { files, rows, known }),
    }
}

impl PreparedEdit {
    /// Writes the record, and then the files. If no file's text differs, nothing is written.
    pub(crate) fn write<F: Folder, D: Disk>(
        &self,
        journal: &mut Journal,
        folder: &mut F,
        disk: &mut D,
    ) -> Result<(), StoreError>
        requires named { AreMonths (changes_of self.now.changes.items) }
        requires open { is_closed journal.old ≡ false }
        requires length { D.model.len disk.old ≡ journal_end journal.old }
        ensures changed { OnOk result (OnEdit self.now journal.old (LeadsOn F.model D.model self.now journal.new folder.old folder.new disk.old disk.new)) }
        ensures any_moment { OnEdit self.now journal.old (λ old rows. LeavesChange F.model D.model old folder.old folder.new disk.old disk.new rows) }
        ensures growth { OnEdit self.now journal.old (λ old rows. ChangeGrows D.model old disk.old disk.new rows) }
        ensures live { OnOk result (is_closed journal.new ≡ false) }
        ensures length { is_closed journal.new ≡ false → D.model.len disk.new ≡ journal_end journal.new }
        ensures refused { IfErr result (λ e. OnEdit self.now journal.old (IsRefusedAt F.model D.model journal.new folder.old folder.new disk.old disk.new e)) }
        ensures device { IfErr result (λ e. length self.now.body.items + 5 ≤ 2 ^ 30 → IsDeviceFault F.model D.model folder.old folder.new disk.old disk.new e) }
        ensures folder { FaultsRise F.model folder.old folder.new }
        ensures disk { tells.FaultsRise D.model disk.old disk.new }
    {
        if self.changes.len() == 0 {
            return Ok(());
        }
        match write_change(journal, folder, disk, &self.changes, &self.body) {
            Ok(()) => Ok(()),
            Err(error) => Err(error),
        }
    }

    /// The months before the edit.
    pub(crate) fn into_before(self) -> Months
        requires { (months : Months) × (edit : Edit) × IsPreparedEdit months edit self }
        ensures { OnEditOf self (λ months rows. result ≡ months) }
    {
        let PreparedEdit {
            files,
            rows,
            known,
            edit: _,
            changes: _,
            body: _,
            room: _,
        } = self;
        let rows = Intervals::from_rows(rows);
        Months { files, rows, known }
    }

    /// The months after the edit. It takes no memory.
    pub(crate) fn into_after(self) -> Months
        requires { (months : Months) × (edit : Edit) × IsPreparedEdit months edit self }
        ensures months { OnEditOf self (λ months rows. HoldNext self months result) }
        ensures rows { OnEditOf self (λ months rows. result.rows ≡ rows) }
    {
        let PreparedEdit {
            files,
            rows,
            known,
            edit,
            changes,
            body: _,
            room,
        } = self;
        let Edit {
            at,
            count,
            rows: new,
        } = edit;
        let mut rows = rows;
        splice(&mut rows, at, count, new);
        let mut known = known;
        known.clear();
        Months {
            files: files_with(room, files, changes),
            rows: Intervals::from_rows(rows),
            known,
        }
    }
}
