// The files that hold journals, as disks.

use crate::hint::hint_line;
use crate::start::{StartError, variable};
use std::fs::File;
use std::io;
use std::io::ErrorKind;
use std::thread::sleep;
use std::time::Duration;
use tw_files::{Busy, FileDisk, open_disk};

// How long a run that waits for another one does so without a word, in milliseconds: a second, between ten tries.
const WAITS: [u64; 10] = [1, 2, 4, 8, 16, 32, 64, 128, 256, 512];

/// What was opened, or the kind of the error for which it was not; none if it was not asked for.
pub type Opened<T> = Result<T, Option<ErrorKind>>;

/// The disk of the file at a path. There is none if the file can't be opened, or if another run uses it and is not waited for.
pub fn disk_at(rt: &HostRuntime, path: &str) -> Result<Opened<FileDisk<File>>, StartError> {
    let busy = busy(rt)?;
    match opened(rt, path, busy) {
        Ok(disk) => Ok(Ok(disk)),
        Err(error) => match error.kind() {
            ErrorKind::OutOfMemory => Err(StartError::Memory),
            kind => Ok(Err(Some(kind))),
        },
    }
}

// Opens the file. One that another run holds is tried again for a second, and then waited for, with a line that says so.
fn opened(rt: &HostRuntime, path: &str, busy: Busy) -> io::Result<FileDisk<File>> {
    let mut system = rt;
    if busy == Busy::Fail {
        return open_disk(&mut system, path, Busy::Fail);
    }
    for millis in WAITS {
        match open_disk(&mut system, path, Busy::Fail) {
            Err(error) if error.kind() == ErrorKind::WouldBlock => {
                sleep(rt, Duration::from_millis(millis));
            }
            opened => return opened,
        }
    }
    hint_line(rt, "tw: waits for another tw that uses this store\n");
    open_disk(&mut system, path, Busy::Wait)
}

// Whether a run waits for a journal that another one holds. One that a hook starts does not: the run that started the hook holds it, and
// waits for the hook.
fn busy(rt: &HostRuntime) -> Result<Busy, StartError> {
    match variable(rt, "TW_HOOK")? {
        Some(_) => Ok(Busy::Fail),
        None => Ok(Busy::Wait),
    }
}
