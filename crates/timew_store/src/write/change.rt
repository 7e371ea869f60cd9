// Writing a change: its record, and then its files.
ghost use Rattle.std.specs.Prelude.{◌≡◌, length, OnOk, IfErr, false};
ghost use Rattle.tw_world.specs.Disk.{Rose};
ghost use Rattle.tw_world.specs.Disk as tells;
ghost use Rattle.tw_world.specs.Crash.{Tells, IsStable, FaultsRise};
ghost use Rattle.tw_journal.specs.Journal.{is_closed, journal_end};
ghost use Rattle.timew_month.specs.Files.{replaced};
ghost use Rattle.timew_store.specs.Held.{IsPartly, Replaces, LeavesFiles};
ghost use Rattle.timew_month.specs.Records.{changes_of};
ghost use Rattle.timew_store.specs.Writing.{AreFileNames, WriteRefused, RestsOn, LeavesWritten};
ghost use Rattle.timew_store.specs.Growth.{record_size, JournalGrowsBy};

use crate::error::StoreError;
use timew_month::NewFile;
use tw_journal::{Journal, JournalError};
use tw_world::{Disk, Folder, FolderError};

// Replaces the files of a change, one after another.
fn replace_all<F: Folder>(folder: &mut F, files: &Vec<NewFile>) -> Result<(), FolderError>
    requires { AreFileNames files.now.items }
    ensures done { OnOk result (Replaces F.model folder.old folder.new (changes_of files.now.items)) }
    ensures stable { OnOk result (Tells F.model folder.old → IsStable F.model folder.old → IsStable F.model folder.new) }
    ensures any_moment { LeavesFiles F.model folder.old folder.new (IsPartly (changes_of files.now.items) (F.model.seen folder.old)) }
    ensures faults { FaultsRise F.model folder.old folder.new }
    ensures failed { IfErr result (λ e. (e ≡ FolderError.Failed) × Rose (F.model.faults folder.old) (F.model.faults folder.new)) }
{
    for file in files {
        folder.replace(file.name.as_str(), &file.new)?;
    }
    Ok(())
}

/// Writes the record of a change, and then its files.
pub(crate) fn write_change<F: Folder, D: Disk>(
    journal: &mut Journal,
    folder: &mut F,
    disk: &mut D,
    files: &Vec<NewFile>,
    body: &[u8],
) -> Result<(), StoreError>
    requires names { AreFileNames files.now.items }
    requires length { is_closed journal.old ≡ false → D.model.len disk.old ≡ journal_end journal.old }
    ensures done { OnOk result (RestsOn F.model D.model journal.old journal.new folder.old folder.new disk.old disk.new body.now (changes_of files.now.items)) }
    ensures replaced { OnOk result (Replaces F.model folder.old folder.new (changes_of files.now.items)) }
    ensures any_moment { LeavesWritten F.model D.model journal.old folder.old folder.new disk.old disk.new body.now (changes_of files.now.items) }
    ensures growth { JournalGrowsBy D.model journal.old disk.old disk.new (record_size body.now) }
    ensures live { OnOk result (is_closed journal.new ≡ false) }
    ensures length { is_closed journal.new ≡ false → D.model.len disk.new ≡ journal_end journal.new }
    ensures refused { IfErr result (λ e. WriteRefused F.model D.model journal.old journal.new folder.old folder.new disk.old disk.new body.now e) }
    ensures folder { FaultsRise F.model folder.old folder.new }
    ensures disk { tells.FaultsRise D.model disk.old disk.new }
{
    if let Err(error) = journal.append(disk, body) {
        return Err(StoreError::Journal(JournalError::from(error)));
    }
    if let Err(_) = replace_all(folder, files) {
        return Err(StoreError::Folder);
    }
    Ok(())
}
