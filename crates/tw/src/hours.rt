// The working hours.

use crate::disk::{Opened, disk_at};
use crate::hint::hint_new;
use crate::start::{StartError, variable};
use crate::timew_paths::{months_path, timew_folder, undo_path};
use std::alloc::Global;
use std::fs;
use std::fs::File;
use std::io::ErrorKind;
use tw_files::{FileDisk, FileFolder, open_folder};

/// The folder of the months, and the journal of their changes.
#[derive(Drop)]
pub struct Hours<'a> {
    pub months: FileFolder<&'a HostRuntime>,
    pub track: FileDisk<File>,
}

/// The folder of the working hours, by the variables `TIMEWARRIORDB` and `HOME`.
pub fn hours_folder(rt: &HostRuntime, alloc: Global) -> Result<String, StartError> {
    let named = variable(rt, "TIMEWARRIORDB")?;
    let home = variable(rt, "HOME")?;
    Ok(timew_folder(alloc, &named, &home)?)
}

/// Opens both, or none if one of them can't be opened. The journal's file is locked before the folder of the months is looked at.
pub fn open_hours<'a>(rt: &'a HostRuntime, alloc: Global) -> Result<Opened<Hours<'a>>, StartError> {
    let folder = hours_folder(rt, alloc)?;
    match track_in(rt, alloc, folder.as_str())? {
        Ok(track) => with_months(rt, alloc, folder.as_str(), track),
        Err(kind) => Ok(Err(kind)),
    }
}

/// The journal of the changes in the folder of the hours.
pub fn track_in(
    rt: &HostRuntime,
    alloc: Global,
    folder: &str,
) -> Result<Opened<FileDisk<File>>, StartError> {
    let path = undo_path(alloc, folder)?;
    let opened = disk_at(rt, path.as_str())?;
    if let Ok(disk) = &opened
        && disk.is_empty()
        && !has_months(rt, alloc, folder)?
    {
        hint_new(rt, alloc, "store of hours", folder);
    }
    Ok(opened)
}

// Whether there may be month files. With those of another program a folder is no new store.
fn has_months(rt: &HostRuntime, alloc: Global, folder: &str) -> Result<bool, StartError> {
    let path = months_path(alloc, folder)?;
    Ok(fs::exists(rt, path.as_str()).unwrap_or(true))
}

fn with_months<'a>(
    rt: &'a HostRuntime,
    alloc: Global,
    folder: &str,
    track: FileDisk<File>,
) -> Result<Opened<Hours<'a>>, StartError> {
    let path = months_path(alloc, folder)?;
    match open_folder(alloc, rt, path.as_str()) {
        Ok(months) => Ok(Ok(Hours { months, track })),
        Err(error) => match error.kind() {
            ErrorKind::OutOfMemory => Err(StartError::Memory),
            kind => Ok(Err(Some(kind))),
        },
    }
}
