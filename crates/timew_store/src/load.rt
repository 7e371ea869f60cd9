// Loading a store: the last change is finished.
ghost use Rattle.std.specs.Prelude.{◌≡◌, ◌<◌, [], slice_index_or, OnOk, OnErr, IfOk, IfErr, IsErrOf, true, false, Some};
ghost use Rattle.tw_world.specs.Disk.{Rose, Untouched};
ghost use Rattle.tw_world.specs.Disk as tells;
ghost use Rattle.tw_journal.specs.Record.{IsLongerBy};
ghost use Rattle.tw_journal.specs.Journal.{is_closed, journal_end, journal_count};
ghost use Rattle.timew_month.specs.Body.{AreMonths, names_rise, step_of};
ghost use Rattle.tw_world.specs.Crash.{Tells, IsStable, FaultsRise, Reads};
ghost use Rattle.tw_world.specs.Folder.{same_bytes, is_file_name};
ghost use Rattle.timew_month.specs.Files.{bytes_of};
ghost use Rattle.timew_store.specs.Held.{finished_file, finished, IfTheyOpen, OnRecords, LeavesFiles};
ghost use Rattle.timew_store.specs.Loading.{IsFinishedTo, last_of, StepRefused, LastRefused, FinishRefused, IsStoreFault};
ghost use Rattle.timew_store.specs.Loading.{StoreSparesDisk, Stays, IsFinishedOrNot, Loads, LeavesAlike};
ghost use Rattle.timew_month.specs.Records.{change_of, changes_of, step_in, files_held};
ghost use Rattle.timew_store.specs.Writing.{AreFileNames};

use crate::error::StoreError;
use std::alloc::Global;
use timew_month::{NewFile, Record, read_record};
use tw_fields::ReadError as BodyError;
use tw_journal::{Journal, ReadError};
use tw_world::{Disk, Folder, FolderError};

// Whether a file has these bytes. One that is not there has none.
fn has_bytes<F: Folder>(
    alloc: Global,
    folder: &mut F,
    name: &str,
    bytes: &[u8],
) -> Result<bool, FolderError>
    requires { is_file_name name.now ≡ true }
    ensures value { IfOk result (λ has. Tells F.model folder.old → has ≡ same_bytes (bytes_of (F.model.seen folder.old) name.now) bytes.now) }
    ensures reads { Reads F.model folder.old folder.new }
    ensures failed { IsErrOf result FolderError.Failed → Rose (F.model.faults folder.old) (F.model.faults folder.new) }
{
    match folder.read(alloc, name)? {
        Some(file) => Ok(&file[..] == bytes),
        None => Ok(bytes.len() == 0),
    }
}

// Gives a file of a change its new bytes, if it has its old ones.
fn finish_file<F: Folder>(alloc: Global, folder: &mut F, file: &NewFile) -> Result<(), FolderError>
    requires { is_file_name file.now.name ≡ true }
    ensures done { OnOk result (Tells F.model folder.old → F.model.seen folder.new ≡ finished_file (F.model.seen folder.old) (change_of file.now)) }
    ensures stable { OnOk result (Tells F.model folder.old → IsStable F.model folder.old → IsStable F.model folder.new) }
    ensures partly { OnErr result (Tells F.model folder.old → IsFinishedOrNot (F.model.seen folder.old) (change_of file.now) (F.model.seen folder.new)) }
    ensures any_moment { LeavesFiles F.model folder.old folder.new (IsFinishedOrNot (F.model.seen folder.old) (change_of file.now)) }
    ensures faults { FaultsRise F.model folder.old folder.new }
    ensures failed { IsErrOf result FolderError.Failed → Rose (F.model.faults folder.old) (F.model.faults folder.new) }
{
    if has_bytes(alloc, folder, file.name.as_str(), &file.old)? {
        folder.replace(file.name.as_str(), &file.new)?;
    }
    Ok(())
}

// Finishes a change.
fn finish<F: Folder>(alloc: Global, folder: &mut F, files: &Vec<NewFile>) -> Result<(), FolderError>
    requires { AreFileNames files.now.items }
    ensures done { OnOk result (Tells F.model folder.old → F.model.seen folder.new ≡ finished (F.model.seen folder.old) (changes_of files.now.items)) }
    ensures stable { OnOk result (Tells F.model folder.old → IsStable F.model folder.old → IsStable F.model folder.new) }
    ensures partly { OnErr result (Tells F.model folder.old → IsFinishedTo (changes_of files.now.items) (F.model.seen folder.old) (F.model.seen folder.new)) }
    ensures any_moment { LeavesFiles F.model folder.old folder.new (IsFinishedTo (changes_of files.now.items) (F.model.seen folder.old)) }
    ensures faults { FaultsRise F.model folder.old folder.new }
    ensures failed { IsErrOf result FolderError.Failed → Rose (F.model.faults folder.old) (F.model.faults folder.new) }
{
    for file in files {
        finish_file(alloc, folder, file)?;
    }
    Ok(())
}

/// The step of the record with a number, from 0, or `Damaged` at its offset if it holds none.
pub(crate) fn read_step<D: Disk>(
    alloc: Global,
    journal: &Journal,
    disk: &mut D,
    n: u64,
) -> Result<Record, ReadError>
    requires inside { n < journal_count journal.now }
    requires length { is_closed journal.now ≡ false → D.model.len disk.old ≡ journal_end journal.now }
    ensures step { IfOk result (λ held. OnRecords D.model journal.now disk.old (λ bodies. step_of (slice_index_or bodies n []) ≡ Some (step_in held))) }
    ensures names { IfOk result (λ held. AreMonths (changes_of (files_held held))) }
    ensures rise { IfOk result (λ held. names_rise (changes_of (files_held held)) ≡ true) }
    ensures untouched { Untouched D.model disk.old disk.new }
    ensures refused { IfErr result (λ e. StepRefused D.model disk.old disk.new journal.now n e) }
{
    let body = journal.body(alloc, disk, n)?;
    match read_record(alloc, &body) {
        Ok(held) => Ok(held),
        Err(BodyError::Memory) => Err(ReadError::Memory),
        Err(BodyError::Malformed) => {
            let offset = journal.offset(disk, n)?;
            Err(ReadError::Damaged { offset })
        }
    }
}

// What the last record does to the files.
fn last_files<D: Disk>(
    alloc: Global,
    journal: &Journal,
    disk: &mut D,
) -> Result<Vec<NewFile>, ReadError>
    requires length { is_closed journal.now ≡ false → D.model.len disk.old ≡ journal_end journal.now }
    ensures value { IfOk result (λ files. OnRecords D.model journal.now disk.old (λ bodies. last_of bodies ≡ Some (changes_of files.items))) }
    ensures names { IfOk result (λ files. AreFileNames files.items) }
    ensures rise { IfOk result (λ files. names_rise (changes_of files.items) ≡ true) }
    ensures untouched { Untouched D.model disk.old disk.new }
    ensures refused { IfErr result (λ e. LastRefused D.model disk.old disk.new journal.now e) }
{
    let count = journal.count();
    if count == 0 {
        return Ok(Vec::new(alloc));
    }
    let last = read_step(alloc, journal, disk, count - 1)?;
    Ok(last.into_files())
}

/// Opens the journal and finishes the last change.
pub(crate) fn open_and_finish<F: Folder, D: Disk>(
    alloc: Global,
    folder: &mut F,
    disk: &mut D,
) -> Result<Journal, StoreError>
    ensures loaded { IfOk result (Loads F.model D.model folder.old folder.new disk.old disk.new) }
    ensures growth { tells.Tells D.model disk.old → tells.LeavesOnly D.model disk.old disk.new (IsLongerBy D.model disk.old 29) }
    ensures length { IfOk result (λ journal. (D.model.len disk.new ≡ journal_end journal) × (is_closed journal ≡ false)) }
    ensures any_moment { LeavesAlike F.model D.model folder.old folder.new disk.old disk.new }
    ensures refused { IfErr result (λ e. FinishRefused F.model D.model folder.old folder.new disk.old disk.new e) }
    ensures stays { IfErr result (λ e. StoreSparesDisk e → Stays F.model D.model folder.old folder.new disk.old disk.new) }
    ensures sound { IfTheyOpen F.model D.model folder.old disk.old (IfErr result IsStoreFault) }
    ensures folder { FaultsRise F.model folder.old folder.new }
    ensures disk { tells.FaultsRise D.model disk.old disk.new }
{
    let journal = Journal::open(alloc, disk, b"TIMEWJ01")?;
    let files = last_files(alloc, &journal, disk)?;
    if let Err(error) = finish(alloc, folder, &files) {
        return Err(StoreError::from(error));
    }
    Ok(journal)
}
