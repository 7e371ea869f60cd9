// The numbers of the standard streams.

use crate::start::StartError;
use std::fs::File;
use std::os::fd::AsFd;

/// What stands in for the standard streams that were closed when the program began, so that no other file gets their numbers.
#[derive(Drop)]
pub struct StandIns {
    input: Option<File>,
    output: Option<File>,
    errors: Option<File>,
}

/// Sees that the numbers 0, 1 and 2 are taken. What stands in for a closed stream is a folder, which can be neither read nor written.
pub fn stand_ins(rt: &HostRuntime) -> Result<StandIns, StartError> {
    Ok(StandIns {
        input: stand_in(rt, &rt.stdin())?,
        output: stand_in(rt, &rt.stdout())?,
        errors: stand_in(rt, &rt.stderr())?,
    })
}

// A closed descriptor can't be made double. A file that is opened gets the lowest number that is free.
fn stand_in<S: AsFd>(rt: &HostRuntime, stream: &S) -> Result<Option<File>, StartError> {
    if stream.as_fd().try_clone_to_owned().is_ok() {
        return Ok(None);
    }
    match File::open(rt, "/") {
        Ok(folder) => Ok(Some(folder)),
        Err(_) => Err(StartError::Failed),
    }
}
