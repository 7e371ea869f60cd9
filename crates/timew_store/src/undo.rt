// Taking the last change back.
ghost use Rattle.std.specs.Prelude.{◌≡◌, true, false, not, option_map, slice_get, None, IfOk, IfErr, IfSome, OnOk};
ghost use Rattle.tw_world.specs.Disk.{Untouched};
ghost use Rattle.tw_world.specs.Folder.{same_bytes};
ghost use Rattle.tw_journal.specs.Journal.{is_closed, journal_end};
ghost use Rattle.timew_month.specs.Body.{AreMonths, body_of, names_rise};
ghost use Rattle.timew_month.specs.Body.Step.{Undo};
ghost use Rattle.timew_month.specs.Gathered.{files_of};
ghost use Rattle.timew_month.specs.Files.{replaced};
ghost use Rattle.timew_store.specs.Held.{OnHistory};
ghost use Rattle.timew_store.specs.History.{exchanged};
ghost use Rattle.timew_month.specs.NamedFiles.{bytes_in, first_edited_in};
ghost use Rattle.timew_store.specs.Store.{HoldMonths, OnFolders};
ghost use Rattle.timew_store.specs.Undo.{first_edited};
ghost use Rattle.timew_store.specs.StoreUndo.{WalkRefused, BackRefused};
ghost use Rattle.timew_month.specs.Records.{changes_of};

use crate::error::UndoError;
use crate::load::read_step;
use crate::write::prepared::Prepared;
use std::alloc::Global;
use timew_month::{
    MonthFile, Months, NewFile, Record, bytes_in, files_after, read_rows, undo_body,
};
use tw_journal::{Journal, ReadError};
use tw_world::{Disk, Memory, Text};

/// The last change that is not undone, found from the last record back: an undo takes back one change more.
pub(crate) fn last_change<D: Disk>(
    alloc: Global,
    journal: &Journal,
    disk: &mut D,
) -> Result<Option<Vec<NewFile>>, ReadError>
    requires length { is_closed journal.now ≡ false → D.model.len disk.old ≡ journal_end journal.now }
    ensures found { IfOk result (λ found. OnHistory D.model journal.now disk.old (λ h. option_map (λ f. changes_of f.items) found ≡ slice_get h.undoable 0)) }
    ensures months { IfOk result (λ found. IfSome found (λ files. AreMonths (changes_of files.items))) }
    ensures rise { IfOk result (λ found. IfSome found (λ files. names_rise (changes_of files.items) ≡ true)) }
    ensures untouched { Untouched D.model disk.old disk.new }
    ensures refused { IfErr result (λ e. WalkRefused D.model disk.old disk.new journal.now e) }
{
    let mut depth: u64 = 0;
    let mut n = journal.count();
    while n > 0 {
        n -= 1;
        match read_step(alloc, journal, disk, n)? {
            Record::Undo(_) => depth += 1,
            Record::Change(files) => {
                if depth == 0 {
                    return Ok(Some(files));
                }
                depth -= 1;
            }
        }
    }
    Ok(None)
}

fn is_edited(files: &Vec<MonthFile>, file: &NewFile) -> bool
    ensures { result ≡ not (same_bytes (bytes_in (files_of files.now.items) file.now.name) file.now.new.items) }
{
    bytes_in(files, &file.name) != file.new.as_slice()
}

// The first file of a change that does not have the bytes that the change left.
fn first_edited<'a>(files: &Vec<MonthFile>, change: &'a Vec<NewFile>) -> Option<&'a Text>
    ensures { option_map (λ name. name.now) result ≡ first_edited_in (files_of files.now.items) (changes_of change.now.items) }
{
    for file in change {
        if is_edited(files, file) {
            return Some(&file.name);
        }
    }
    None
}

// A change with old and new exchanged.
fn exchanged(alloc: Global, change: Vec<NewFile>) -> Result<Vec<NewFile>, Memory>
    ensures { IfOk result (λ files. changes_of files.items ≡ exchanged (changes_of change.items)) }
{
    let mut files = Vec::with_capacity(alloc, change.len())?;
    for file in change {
        files.push(NewFile {
            name: file.name,
            old: file.new,
            new: file.old,
        })?;
    }
    Ok(files)
}

/// Prepares that the old bytes of a change are put back.
pub(crate) fn prepared_undo(
    alloc: Global,
    months: &Months,
    change: Vec<NewFile>,
) -> Result<Prepared, UndoError>
    requires named { AreMonths (changes_of change.items) }
    ensures body { IfOk result (λ p. p.body.items ≡ body_of (Undo (changes_of p.changes.items))) }
    ensures changes { IfOk result (λ p. changes_of p.changes.items ≡ exchanged (changes_of change.items)) }
    ensures unedited { OnOk result (OnFolders months.now (λ files. first_edited files (changes_of change.items) ≡ None)) }
    ensures months { IfOk result (λ p. OnFolders months.now (λ files. HoldMonths (replaced files (changes_of p.changes.items)) p.months)) }
    ensures refused { IfErr result (λ e. BackRefused months.now (changes_of change.items) e) }
{
    if let Some(file) = first_edited(&months.files, &change) {
        return Err(UndoError::Edited {
            file: file.copy(alloc)?,
        });
    }
    let changes = exchanged(alloc, change)?;
    let body = undo_body(alloc, &changes)?;
    let files = files_after(alloc, &months.files, &changes)?;
    let rows = read_rows(alloc, &files)?;
    let months = Months {
        files,
        rows,
        known: Vec::new(alloc),
    };
    Ok(Prepared {
        changes,
        body,
        months,
    })
}
