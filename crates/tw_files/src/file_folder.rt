// A folder of the system.
ghost use Rattle.std.specs.Prelude.{◌≡◌, ◌≢◌, ◌⊎◌, ◌<◌, ◌≤◌, List, ℕ, length, map, option_map, string_bytes};
ghost use Rattle.std.specs.Prelude.{Some, None, true, IfOk, IfErr, OnOk, IsErrOf};
ghost use Rattle.std.specs.Option.{ForSome};
ghost use Rattle.std.specs.FinMap.{keys};
ghost use Rattle.std.specs.IoError.{error_kind};
ghost use Rattle.tw_world.specs.Disk.{Rose};
ghost use Rattle.tw_world.specs.Crash.{Tells, IsStable, Steps, Reads};
ghost use Rattle.tw_world.specs.Folder.{Replaced, HasFile, HasPut, HasPutOrNot};
ghost use Rattle.tw_files.specs.FileFolder.{folder_model, folder_system, folder_path};
ghost use Rattle.tw_files.specs.FolderFiles.{HasBytes, path_in, AreListed, FilesStay, OthersStay, ReplacesOne, FailsAlone, IsTooLong};
ghost use Rattle.tw_files.specs.Folders.{EachOnWay};

use crate::file_disk::{read_all_at, write_all_at};
use crate::folders::{Folders, sync_way};
use crate::offset_file::OffsetFile;
use std::alloc::{AllocError, Global};
use std::io;
use std::io::ErrorKind;
use tw_world::{Folder, FolderError};

/// The longest file that is read; a longer one counts as a failure.
const MAX_LEN: u64 = 67_108_864;

// The name that a new file has before it replaces the old one.
const TEMPORARY: &str = ".new";

/// A folder of the system, by its path, and how often it has failed. It tells nothing of what it holds.
#[derive(Drop)]
pub struct FileFolder<S: Folders> {
    alloc: Global,
    system: S,
    path: String,
    faults: u64,
}

fn path_in(alloc: Global, folder: &str, name: &str) -> Result<String, AllocError>
    ensures { IfOk result (λ path. string_bytes path ≡ path_in folder.now name.now) }
{
    let mut path = String::from_str(alloc, folder)?;
    path.push('/')?;
    path.push_str(name)?;
    Ok(path)
}

// All bytes of a file that is not too long.
fn bytes_of<F: OffsetFile>(alloc: Global, file: &F) -> io::Result<Vec<u8>>
    ensures bytes { IfOk result (λ bytes. HasBytes (F.contents file.now) bytes.items) }
    ensures failed { IfErr result (λ e. FailsAlone F.may_fail e ⊎ ForSome (F.contents file.now) (λ all. 67_108_864 < length all)) }
{
    let len = file.byte_len()?;
    if len > MAX_LEN {
        return Err(io::Error::from(ErrorKind::FileTooLarge));
    }
    let mut bytes = vec![in alloc; 0u8; len as usize]?;
    if !read_all_at(file, 0, &mut bytes) {
        return Err(io::Error::from(ErrorKind::UnexpectedEof));
    }
    Ok(bytes)
}

// A file of this path with these bytes, which are stable.
fn new_file<S: Folders>(system: &mut S, path: &str, bytes: &[u8]) -> io::Result<S::File>
    ensures at { IfOk result (λ file. S.File.is_at file path.now) }
    ensures stable { IfOk result (λ file. S.File.is_stable file) }
    ensures bytes { IfOk result (λ file. HasBytes (S.File.contents file) bytes.now) }
    ensures others { OthersStay S.has path.now path.now system.old system.new }
{
    let mut file = system.make(path)?;
    file.resize(bytes.len() as u64)?;
    if !write_all_at(&mut file, 0, bytes) {
        return Err(io::Error::from(ErrorKind::WriteZero));
    }
    file.stabilize()?;
    Ok(file)
}

impl<S: Folders> FileFolder<S> {
    /// The folder of a path, which is there. Its names are made stable: an earlier run may have ended before it did that.
    pub fn open(alloc: Global, system: S, path: &str) -> io::Result<FileFolder<S>>
    where
        S: Drop,
        ensures settled { IfOk result (λ folder. S.has_stable_names folder.system path.now) }
        ensures kept { IfOk result (λ folder. (other : List ℕ) → S.has_stable_names system other → S.has_stable_names folder.system other) }
        ensures path { IfOk result (λ folder. string_bytes folder.path ≡ path.now) }
        ensures faults { IfOk result (λ folder. folder.faults ≡ 0) }
        ensures failed { IfErr result (FailsAlone S.File.may_fail) }
    {
        let mut system = system;
        let owned = String::from_str(alloc, path)?;
        system.sync_names(path)?;
        Ok(FileFolder {
            alloc,
            system,
            path: owned,
            faults: 0,
        })
    }

    // Counts a fault.
    fn fail(&mut self) -> FolderError
        ensures failed { result ≡ FolderError.Failed }
        ensures counted { Rose self.old.faults self.new.faults }
        ensures later { self.old.faults ≤ self.new.faults }
        ensures system { self.new.system ≡ self.old.system }
        ensures path { self.new.path ≡ self.old.path }
    {
        self.faults = self.faults.saturating_add(1);
        FolderError::Failed
    }

    // Why a call that reads refuses. If it is not for want of memory, a fault is counted.
    fn refuse(&mut self, error: io::Error) -> FolderError
        ensures failed { result ≡ FolderError.Failed → (error_kind error ≢ ErrorKind.OutOfMemory) × Rose self.old.faults self.new.faults }
        ensures memory { result ≡ FolderError.Memory → self.new.faults ≡ self.old.faults }
        ensures later { self.old.faults ≤ self.new.faults }
        ensures system { self.new.system ≡ self.old.system }
        ensures path { self.new.path ≡ self.old.path }
    {
        if error.kind() == ErrorKind::OutOfMemory {
            return FolderError::Memory;
        }
        self.fail()
    }

    // The names of the files in byte order.
    fn sorted_names(&mut self, alloc: Global) -> io::Result<Vec<String>>
        ensures listed { IfOk result (λ names. AreListed (S.lists self.new.system (string_bytes self.old.path)) names.items) }
        ensures failed { IfErr result (λ e. FailsAlone S.File.may_fail e ⊎ S.lists self.new.system (string_bytes self.old.path) None) }
        ensures stay { FilesStay S.has S.lists self.old.system self.new.system }
        ensures path { self.new.path ≡ self.old.path }
        ensures faults { self.new.faults ≡ self.old.faults }
    {
        let mut names = self.system.list(alloc, self.path.as_str())?;
        names.sort()?;
        Ok(names)
    }

    // The bytes of a file, or `None` if there is none; an error if it fails.
    fn file_bytes(&mut self, alloc: Global, name: &str) -> io::Result<Option<Vec<u8>>>
        ensures has { IfOk result (λ file. S.has self.new.system (path_in (string_bytes self.old.path) name.now) (option_map (λ bytes. bytes.items) file)) }
        ensures failed { IfErr result (λ e. FailsAlone S.File.may_fail e ⊎ IsTooLong (S.has self.new.system (path_in (string_bytes self.old.path) name.now))) }
        ensures stay { FilesStay S.has S.lists self.old.system self.new.system }
        ensures path { self.new.path ≡ self.old.path }
        ensures faults { self.new.faults ≡ self.old.faults }
    {
        let path = path_in(alloc, self.path.as_str(), name)?;
        match self.system.find(path.as_str())? {
            None => Ok(None),
            Some(file) => Ok(Some(bytes_of(alloc, &file)?)),
        }
    }

    // Writes a new file, makes it stable, gives it the name and makes that stable.
    fn put(&mut self, name: &str, bytes: &[u8]) -> io::Result<()>
        ensures has { OnOk result (S.has self.new.system (path_in (string_bytes self.old.path) name.now) (Some bytes.now)) }
        ensures settled { OnOk result (S.has_stable_names self.new.system (string_bytes self.old.path)) }
        ensures replaces { ReplacesOne S.has (string_bytes self.old.path) name.now bytes.now self.old.system self.new.system }
        ensures path { self.new.path ≡ self.old.path }
        ensures faults { self.new.faults ≡ self.old.faults }
    {
        let new = path_in(self.alloc, self.path.as_str(), TEMPORARY)?;
        let path = path_in(self.alloc, self.path.as_str(), name)?;
        let from = new.as_str();
        let to = path.as_str();
        let file = new_file(&mut self.system, from, bytes)?;
        self.system.rename(file, from, to)?;
        self.system.sync_names(self.path.as_str())
    }
}

impl<S: Folders> Folder for FileFolder<S> {
    ghost use Rattle.tw_files.specs.FileDisk.{none_told};

    ghost model = { folder_model };

    ghost seen_may_stay = { λ folder tells. none_told tells };

    ghost counts_now = { λ folder t c le left. left };

    ghost only_now = { λ folder c left. left };

    fn names(&mut self, alloc: Global) -> Result<Vec<String>, FolderError>
        ensures names { IfOk result (λ names. Tells folder_model self.old → map string_bytes names.items ≡ keys (folder_model.seen self.old)) }
        ensures reads { Reads folder_model self.old self.new }
        ensures failed { IsErrOf result FolderError.Failed → Rose self.old.faults self.new.faults }

        // All names that the system lists. A failure is the system's, or the folder is not there.
        ensures listed { IfOk result (λ names. AreListed (S.lists self.new.system (string_bytes self.old.path)) names.items) }
        ensures only { IsErrOf result FolderError.Failed → S.File.may_fail ⊎ S.lists self.new.system (string_bytes self.old.path) None }
        ensures stay { FilesStay S.has S.lists self.old.system self.new.system }
        ensures well { OnOk result (self.new.faults ≡ self.old.faults) }
        ensures memory { IsErrOf result FolderError.Memory → self.new.faults ≡ self.old.faults }
        ensures path { self.new.path ≡ self.old.path }
    {
        match self.sorted_names(alloc) {
            Ok(names) => Ok(names),
            Err(error) => Err(self.refuse(error)),
        }
    }

    /// A file of more than 64 MiB counts as a failure.
    fn read(&mut self, alloc: Global, name: &str) -> Result<Option<Vec<u8>>, FolderError>
        ensures bytes { IfOk result (HasFile folder_model self.old name.now) }
        ensures reads { Reads folder_model self.old self.new }
        ensures failed { IsErrOf result FolderError.Failed → Rose self.old.faults self.new.faults }

        // What the system has under the name. A failure is the system's, or the file is too long.
        ensures has { IfOk result (λ file. S.has self.new.system (path_in (string_bytes self.old.path) name.now) (option_map (λ bytes. bytes.items) file)) }
        ensures only { IsErrOf result FolderError.Failed → S.File.may_fail ⊎ IsTooLong (S.has self.new.system (path_in (string_bytes self.old.path) name.now)) }
        ensures stay { FilesStay S.has S.lists self.old.system self.new.system }
        ensures well { OnOk result (self.new.faults ≡ self.old.faults) }
        ensures memory { IsErrOf result FolderError.Memory → self.new.faults ≡ self.old.faults }
        ensures path { self.new.path ≡ self.old.path }
    {
        match self.file_bytes(alloc, name) {
            Ok(file) => Ok(file),
            Err(error) => Err(self.refuse(error)),
        }
    }

    fn replace(&mut self, name: &str, bytes: &[u8]) -> Result<(), FolderError>
        ensures replaced { OnOk result (HasPut folder_model self.old self.new name.now bytes.now) }
        ensures settled { OnOk result (Tells folder_model self.old → IsStable folder_model self.new) }
        ensures all_or_nothing { HasPutOrNot folder_model self.old self.new name.now bytes.now }
        ensures steps { Steps folder_model (Replaced name.now bytes.now) self.old self.new }
        ensures failed { IfErr result (λ e. (e ≡ FolderError.Failed) × Rose self.old.faults self.new.faults) }

        // The system has the bytes under the name, and the name is stable.
        ensures has { OnOk result (S.has self.new.system (path_in (string_bytes self.old.path) name.now) (Some bytes.now)) }
        ensures stable { OnOk result (S.has_stable_names self.new.system (string_bytes self.old.path)) }

        // Also where it fails, the file has what it had or these bytes, and no other is touched but the one named `.new`.
        ensures replaces { ReplacesOne S.has (string_bytes self.old.path) name.now bytes.now self.old.system self.new.system }
        ensures well { OnOk result (self.new.faults ≡ self.old.faults) }
        ensures path { self.new.path ≡ self.old.path }
    {
        match self.put(name, bytes) {
            Ok(()) => Ok(()),
            Err(_) => Err(self.fail()),
        }
    }
}

// Whether a folder has no file yet. It is made, with those on the way to it, if it is not there.
fn is_new<S: Folders>(alloc: Global, system: &mut S, path: &str) -> io::Result<bool>
    ensures new { S.is_new system.old path.now → IfOk result (λ new. new ≡ true) }
    ensures failed { IfErr result (FailsAlone S.File.may_fail) }
{
    match system.list(alloc, path) {
        Ok(names) => Ok(names.len() == 0),
        Err(error) if error.kind() == ErrorKind::NotFound => {
            system.make_folder(path)?;
            Ok(true)
        }
        Err(error) => Err(error),
    }
}

/// Opens a folder, which is made, with those on the way to it, if it is not there. The names in it are stable then. If it
/// has no file yet, so are the names in each folder on the way to it, since the run that made them may have ended before it made
/// them stable.
pub fn open_folder<S: Folders + Drop>(
    alloc: Global,
    system: S,
    path: &str,
) -> io::Result<FileFolder<S>>
    ensures settled { IfOk result (λ folder. S.has_stable_names (folder_system folder) path.now) }
    ensures way { S.is_new system path.now → IfOk result (λ folder. EachOnWay (S.has_stable_names (folder_system folder)) path.now) }
    ensures path { IfOk result (λ folder. folder_path folder ≡ path.now) }
    ensures faults { IfOk result (λ folder. folder_model.faults folder ≡ 0) }
    ensures only { IfErr result (FailsAlone S.File.may_fail) }
{
    let mut system = system;
    if is_new(alloc, &mut system, path)? {
        sync_way(&mut system, path)?;
    }
    FileFolder::open(alloc, system, path)
}
