// Opening a journal's file.
ghost use Rattle.std.specs.Prelude.{◌≡◌, IfOk, IfErr};
ghost use Rattle.tw_files.specs.FileDisk.{disk_file, disk_len, file_model};
ghost use Rattle.tw_files.specs.FolderFiles.{FailsAlone};
ghost use Rattle.tw_files.specs.Folders.{EachOnWay};

use crate::file_disk::FileDisk;
use crate::folders::{Folders, sync_way};
use crate::offset_file::{Busy, OffsetFile};
use std::io;
use std::path::Path;

// Opens a file, and makes it, with its folder, if it is not there.
fn open_or_make<S: Folders>(system: &mut S, path: &str) -> io::Result<S::File>
    ensures at { IfOk result (λ file. S.File.is_at file path.now) }
    ensures failed { IfErr result (FailsAlone S.File.may_fail) }
{
    match system.open(path) {
        Err(error) if error.kind() == io::ErrorKind::NotFound => {
            if let Some(folder) = Path::new(path).parent() {
                system.make_folder(folder.as_str())?;
            }
            system.open_or_make(path)
        }
        opened => opened,
    }
}

/// Opens a file as a disk. What is not there is made, with the folders on the way to it. The lock of the file is taken
/// before its length is read. If the file has no byte yet, it and all folders on the way to it are made stable, since
/// the run that made them may have ended before it did that.
pub fn open_disk<S: Folders>(
    system: &mut S,
    path: &str,
    busy: Busy,
) -> io::Result<FileDisk<S::File>>
    ensures at { IfOk result (λ disk. S.File.is_at (disk_file disk) path.now) }
    ensures stable { IfOk result (λ disk. disk_len disk ≡ 0 → S.File.is_stable (disk_file disk)) }
    ensures faults { IfOk result (λ disk. file_model.faults disk ≡ 0) }
    ensures settled { IfOk result (λ disk. disk_len disk ≡ 0 → EachOnWay (S.has_stable_names system.new) path.now) }
    ensures failed { IfErr result (FailsAlone S.File.may_fail) }
{
    let file = open_or_make(system, path)?;
    file.lock(busy)?;
    let mut disk = FileDisk::new(file)?;
    if disk.is_empty() {
        disk.stabilize()?;
        sync_way(system, path)?;
    }
    Ok(disk)
}
