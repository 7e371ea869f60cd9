// Folders and the files in them, as the system has them.
ghost use Rattle.std.specs.Prelude.{◌≡◌, ◌≢◌, ◌⊎◌, ◌++◌, ◌∷◌, [], List, ℕ, Option, Some, None, map, IfOk, OnOk, IfErr};
ghost use Rattle.std.specs.String.{string_bytes};
ghost use Rattle.std.specs.IoError.{error_kind};
ghost use Rattle.std.specs.Fs.{dir_entry_name};
ghost use Rattle.tw_files.specs.FolderFiles.{IsThere, IsUnder, FilesStay, OthersStay, FailsAlone};
ghost use Rattle.tw_files.specs.Folders.{EachOnWay};

use crate::offset_file::OffsetFile;
use std::alloc::Global;
use std::fs::{DirBuilder, DirEntry, File, OpenOptions};
use std::io::ErrorKind;
use std::os::unix::fs::{DirBuilderExt, OpenOptionsExt};
use std::{fs, io};

// The rights of what is made: its owner's alone. What is there keeps its own.
pub const OWN_FILE: u32 = 0o600;

const OWN_FOLDER: u32 = 0o700;

/// What the system offers of folders, and of the files in them, by their paths.
pub trait Folders {
    type File: OffsetFile + Drop;

    /// Holds if each name in the folder of this path is stable, or the folder is none that can be made so: this program
    /// may not read it, or its system keeps no folder stable.
    ghost has_stable_names: { Self → List ℕ → Type 0 };

    /// Holds if the file of this path has these bytes, or, with `None`, if there is none.
    ghost has: { Self → List ℕ → Option (List ℕ) → Type 0 };

    /// Holds if the folder of this path has the files of these names, in any order, and no other whose name is a text;
    /// with `None`, if it is not there.
    ghost lists: { Self → List ℕ → Option (List (List ℕ)) → Type 0 };

    /// Holds if the folder of this path has no file, or is not there.
    ghost is_new: { Self → List ℕ → Type 0 };

    /// Opens a file that is there, to be read and written.
    fn open(&mut self, path: &str) -> io::Result<Self::File>
        ensures at { IfOk result (λ file. Self.File.is_at file path.now) }
        ensures failed { IfErr result (λ e. FailsAlone Self.File.may_fail e ⊎ (error_kind e ≡ ErrorKind.NotFound)) };

    /// Opens a file in the same way, and makes an empty one if it is not there.
    fn open_or_make(&mut self, path: &str) -> io::Result<Self::File>
        ensures at { IfOk result (λ file. Self.File.is_at file path.now) }
        ensures failed { IfErr result (FailsAlone Self.File.may_fail) };

    /// Makes a folder, with those on the way to it, if it is not there.
    fn make_folder(&mut self, folder: &str) -> io::Result<()>
        ensures failed { IfErr result (FailsAlone Self.File.may_fail) };

    /// Makes the names in a folder stable.
    fn sync_names(&mut self, folder: &str) -> io::Result<()>
        ensures settled { OnOk result (has_stable_names self.new folder.now) }
        ensures failed { IfErr result (FailsAlone Self.File.may_fail) }
        ensures kept { (other : List ℕ) → has_stable_names self.old other → has_stable_names self.new other }
        ensures files { (path : List ℕ) (bytes : Option (List ℕ)) → has self.old path bytes → has self.new path bytes };

    /// The names of the files in a folder, in any order. A name that is no text is left out.
    fn list(&mut self, alloc: Global, folder: &str) -> io::Result<Vec<String>>
        ensures none { is_new self.old folder.now → IfOk result (λ names. names.items ≡ []) }
        ensures all { IfOk result (λ names. lists self.new folder.now (Some (map string_bytes names.items))) }
        ensures failed { IfErr result (λ e. FailsAlone Self.File.may_fail e ⊎ lists self.new folder.now None) }
        ensures missing { IfErr result (λ e. error_kind e ≢ ErrorKind.NotFound → FailsAlone Self.File.may_fail e) }
        ensures stay { FilesStay has lists self.old self.new };

    /// Opens a file to be read, if there is one.
    fn find(&mut self, path: &str) -> io::Result<Option<Self::File>>
        ensures there { IfOk result (IsThere Self.File.contents (has self.new path.now)) }
        ensures failed { IfErr result (FailsAlone Self.File.may_fail) }
        ensures stay { FilesStay has lists self.old self.new };

    /// Opens a file to be written, and makes an empty one if it is not there.
    fn make(&mut self, path: &str) -> io::Result<Self::File>
        ensures at { IfOk result (λ file. Self.File.is_at file path.now) }
        ensures others { OthersStay has path.now path.now self.old self.new };

    /// Gives an open file another path. The file that was there goes; if it fails, that file stays, or it went.
    fn rename(&mut self, file: Self::File, from: &str, to: &str) -> io::Result<()>
        ensures under { OnOk result (Self.File.is_at file from.now → Self.File.is_stable file → IsUnder (Self.File.contents file) (has self.new to.now)) }
        ensures either { (bytes : Option (List ℕ)) → has self.old to.now bytes → has self.new to.now bytes
            ⊎ (Self.File.is_at file from.now → Self.File.is_stable file → IsUnder (Self.File.contents file) (has self.new to.now)) }
        ensures others { OthersStay has from.now to.now self.old self.new };
}

impl Folders for &HostRuntime {
    type File = File;

    ghost has_stable_names = { λ system folder. Unit {0} };

    ghost has = { λ system path bytes. Unit {0} };

    ghost lists = { λ system folder names. Unit {0} };

    // It tells nothing of what a folder has.
    ghost is_new = { λ system folder. ⊥ };

    fn open(&mut self, path: &str) -> io::Result<File> {
        OpenOptions::new().read(true).write(true).open(*self, path)
    }

    fn open_or_make(&mut self, path: &str) -> io::Result<File> {
        OpenOptions::new()
            .read(true)
            .write(true)
            .create(true)
            .mode(OWN_FILE)
            .open(*self, path)
    }

    fn make_folder(&mut self, folder: &str) -> io::Result<()> {
        DirBuilder::new()
            .recursive(true)
            .mode(OWN_FOLDER)
            .create(*self, folder)
    }

    fn sync_names(&mut self, folder: &str) -> io::Result<()> {
        match File::open(*self, folder) {
            Ok(opened) => passed_over(opened.sync_all(), ErrorKind::InvalidInput),
            Err(error) => passed_over(Err(error), ErrorKind::PermissionDenied),
        }
    }

    fn list(&mut self, alloc: Global, folder: &str) -> io::Result<Vec<String>> {
        let mut names = Vec::new(alloc);
        for entry in fs::read_dir(*self, folder)? {
            add_name(alloc, &mut names, entry)?;
        }
        Ok(names)
    }

    fn find(&mut self, path: &str) -> io::Result<Option<File>> {
        if_there(File::open(*self, path))
    }

    fn make(&mut self, path: &str) -> io::Result<File> {
        OpenOptions::new()
            .write(true)
            .create(true)
            .mode(OWN_FILE)
            .open(*self, path)
    }

    fn rename(&mut self, file: File, from: &str, to: &str) -> io::Result<()> {
        drop(file);
        fs::rename(*self, from, to)
    }
}

// The file that was opened, or `None` if there is none. Any other error stays.
fn if_there(opened: io::Result<File>) -> io::Result<Option<File>>
    ensures there { IfOk opened (λ file. result ≡ Ok (Some file)) }
    ensures none { IfErr opened (λ e. error_kind e ≡ ErrorKind.NotFound → result ≡ Ok None) }
    ensures other { IfErr opened (λ e. error_kind e ≢ ErrorKind.NotFound → result ≡ Err e) }
{
    match opened {
        Ok(file) => Ok(Some(file)),
        Err(error) if error.kind() == ErrorKind::NotFound => Ok(None),
        Err(error) => Err(error),
    }
}

// Adds the name of an entry, if it is a text.
fn add_name(alloc: Global, names: &mut Vec<String>, entry: io::Result<DirEntry>) -> io::Result<()>
    ensures added { IfOk entry (λ e. OnOk result (map string_bytes names.new.items ≡ map string_bytes names.old.items ++ dir_entry_name e ∷ [])) }
    ensures passed { IfErr entry (λ e. OnOk result ((error_kind e ≡ ErrorKind.InvalidFilename) × (names.new.items ≡ names.old.items))) }
{
    match entry {
        Ok(entry) => {
            let name = String::from_str(alloc, entry.file_name())?;
            Ok(names.push(name)?)
        }
        Err(error) if error.kind() == ErrorKind::InvalidFilename => Ok(()),
        Err(error) => Err(error),
    }
}

// An error of this kind is none.
fn passed_over(done: io::Result<()>, kind: ErrorKind) -> io::Result<()>
    ensures { IfErr done (λ e. error_kind e ≢ kind → result ≡ Err e) }
{
    match done {
        Err(error) if error.kind() == kind => Ok(()),
        done => done,
    }
}

/// Makes the names in all folders on the way to a file stable.
pub fn sync_way<S: Folders>(system: &mut S, path: &str) -> io::Result<()>
    ensures settled { OnOk result (EachOnWay (S.has_stable_names system.new) path.now) }
    ensures failed { IfErr result (FailsAlone S.File.may_fail) }
{
    if !path.starts_with("/") {
        system.sync_names(".")?;
    }
    for at in 0..path.len() {
        if path.as_bytes()[at] == b'/' {
            system.sync_names(&path[..at + 1])?;
        }
    }
    Ok(())
}
