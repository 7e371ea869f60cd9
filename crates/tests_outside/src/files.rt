// Files and folders of the system.
ghost use Rattle.std.specs.Prelude.{◌≡◌, true};
ghost use Rattle.tw_world.specs.Folder.{is_file_name};

use std::alloc::Global;
use std::fs::OpenOptions;
use std::test::Fail;
use std::{fs, io};
use tw_files::{Busy, FileDisk, Folders, open_disk, open_folder};
use tw_world::{Disk, DiskError, Folder, FolderError};

// What a write answers, or none where the disk is too short.
fn write<D: Disk>(disk: &mut D, at: u64, bytes: &[u8]) -> Option<Result<(), DiskError>> {
    match disk.size() {
        Ok(len) if at <= len && bytes.len() as u64 <= len - at => Some(disk.write_at(at, bytes)),
        _ => None,
    }
}

// What a read answers, or none where the disk is too short.
fn read<D: Disk>(disk: &mut D, at: u64, out: &mut [u8]) -> Option<Result<(), DiskError>> {
    match disk.size() {
        Ok(len) if at <= len && out.len() as u64 <= len - at => Some(disk.read_at(at, out)),
        _ => None,
    }
}

// Whether a disk without bytes becomes longer, and holds what is written into it.
fn holds_abc<D: Disk>(disk: &mut D) -> bool {
    let mut bytes = [9; 6];
    let none = disk.size() == Ok(0);
    let longer = disk.set_len(6).is_ok();
    let written = write(disk, 1, b"abc") == Some(Ok(()));
    let stable = disk.sync().is_ok();
    let got = read(disk, 0, &mut bytes) == Some(Ok(()));
    none & longer & written & stable & got & (bytes == *b"\0abc\0\0")
}

// Whether a disk that may not be written fails, and one of whose bytes another took away four.
fn fails<D: Disk>(disk: &mut D, short: &mut D) -> bool {
    let mut bytes = [9; 6];
    let failed = Some(Err(DiskError::Failed));
    let kept = write(short, 0, b"x") == failed;
    let cut = disk.set_len(2).is_ok();
    kept & cut & (read(short, 0, &mut bytes) == failed)
}

#[test]
fn a_file_holds_what_is_written(rt: HostRuntime) -> Result<(), Fail> {
    let path = "a_file.journal";
    let file = OpenOptions::new()
        .read(true)
        .write(true)
        .create(true)
        .truncate(true)
        .open(&rt, path)?;
    let mut disk = FileDisk::new(file)?;
    assert!(rt; holds_abc(&mut disk));
    let mut short = FileDisk::new(OpenOptions::new().read(true).open(&rt, path)?)?;
    assert!(rt; fails(&mut disk, &mut short));
    fs::remove_file(&rt, path)?;
    Ok(())
}

// Whether a file can't be opened, since it is in use.
fn is_busy<S: Folders>(system: &mut S, path: &str) -> bool {
    match open_disk(system, path, Busy::Fail) {
        Ok(_) => false,
        Err(error) => error.kind() == io::ErrorKind::WouldBlock,
    }
}

// Whether a file is made, written, and busy while it is open.
fn is_made<S: Folders>(system: &mut S, path: &str) -> io::Result<bool> {
    let mut disk = open_disk(system, path, Busy::Wait)?;
    let none = disk.size() == Ok(0);
    let longer = disk.set_len(3).is_ok();
    let written = write(&mut disk, 0, b"abc") == Some(Ok(()));
    Ok(none & longer & written & is_busy(system, path))
}

// How long a file is that no one uses, if that is told.
fn size_of<S: Folders>(system: &mut S, path: &str) -> io::Result<Option<u64>> {
    let mut disk = open_disk(system, path, Busy::Fail)?;
    Ok(disk.size().ok())
}

// Whether a file is made and used by one at a time. It is removed before and after.
fn is_used_by_one(rt: &HostRuntime, path: &str) -> io::Result<bool> {
    let mut system = rt;
    let _ = fs::remove_file(rt, path);
    let is_made = is_made(&mut system, path)?;
    let size = size_of(&mut system, path)?;
    fs::remove_file(rt, path)?;
    Ok(is_made && size == Some(3))
}

#[test]
fn a_file_is_made_with_its_folders_and_used_by_one_at_a_time(rt: HostRuntime) -> Result<(), Fail> {
    assert!(rt; is_used_by_one(&rt, "a.journal")?);
    assert!(rt; is_used_by_one(&rt, "two/deep/a.journal")?);
    fs::remove_dir(&rt, "two/deep")?;
    fs::remove_dir(&rt, "two")?;
    Ok(())
}

// Whether a file holds this, or is not there.
fn holds<F: Folder>(
    folder: &mut F,
    alloc: Global,
    name: &str,
    want: Option<&[u8]>,
) -> Result<bool, FolderError>
    requires { is_file_name name.now ≡ true }
{
    Ok(match folder.read(alloc, name)? {
        Some(bytes) => want == Some(bytes.as_slice()),
        None => want.is_none(),
    })
}

// The names of the files, with a bar behind each.
fn names<F: Folder>(folder: &mut F, alloc: Global) -> Result<String, Fail> {
    let mut text = String::new(alloc);
    for name in folder.names(alloc).or(Err("no names"))? {
        text.push_str(name.as_str())?;
        text.push('|')?;
    }
    Ok(text)
}

// Whether a folder without files holds two that are put into it, one of them twice, and no third one.
fn holds_two<F: Folder>(folder: &mut F, alloc: Global) -> Result<bool, Fail> {
    let first = folder.replace("b", b"one").is_ok();
    let second = folder.replace("a", b"").is_ok();
    let third = folder.replace("b", b"four").is_ok();
    let named = names(folder, alloc)?.as_str() == "a|b|";
    let there = holds(folder, alloc, "b", Some(b"four")) == Ok(true);
    let none = holds(folder, alloc, "c", None) == Ok(true);
    Ok(first & second & third & named & there & none)
}

// Removes two files and three folders, in which nothing else may be.
fn remove_made(rt: &HostRuntime) -> io::Result<()> {
    fs::remove_file(rt, "a_folder/deep/a")?;
    fs::remove_file(rt, "a_folder/deep/b")?;
    fs::remove_dir(rt, "a_folder/deep/d")?;
    fs::remove_dir(rt, "a_folder/deep")?;
    fs::remove_dir(rt, "a_folder")
}

#[test]
fn a_folder_holds_what_is_put_into_it(rt: HostRuntime) -> Result<(), Fail> {
    let alloc = rt.alloc();
    let mut folder = open_folder(alloc, &rt, "a_folder/deep")?;
    assert!(rt; holds_two(&mut folder, alloc)?);
    let _ = open_folder(alloc, &rt, "a_folder/deep/d")?;
    assert!(rt; holds(&mut folder, alloc, "d", None) == Err(FolderError::Failed));
    remove_made(&rt)?;
    Ok(())
}
