// The settings file.
ghost use Rattle.std.specs.Prelude.{◌≡◌, ◌≢◌, [], option_map, string_bytes, IfOk, IfErr, IsOkAnd, IsErrOf};
ghost use Rattle.std.specs.IoError.{error_kind};
ghost use Rattle.tw.specs.Start.{settings_path};

use crate::start::{StartError, variable};
use std::alloc::Global;
use std::io::ErrorKind;
use std::{fs, io};

/// The bytes of the settings file, which `TASKRC` names, else `.taskrc` in the folder that `HOME` names. There are none
/// if that file is not there, or neither variable is set.
pub fn settings(rt: &HostRuntime, alloc: Global) -> Result<Vec<u8>, StartError> {
    match settings_file(rt)? {
        Some(path) => settings_in(alloc, fs::read(rt, path.as_str())),
        None => Ok(Vec::new(alloc)),
    }
}

/// The path of that file, if a variable names one.
pub fn settings_file(rt: &HostRuntime) -> Result<Option<String>, StartError> {
    let taskrc = variable(rt, "TASKRC")?;
    let home = variable(rt, "HOME")?;
    settings_path(taskrc, home)
}

fn settings_path(taskrc: Option<String>, home: Option<String>) -> Result<Option<String>, StartError>
    ensures { IfOk result (λ path. option_map string_bytes path ≡ settings_path (option_map string_bytes taskrc) (option_map string_bytes home)) }
{
    if let Some(path) = taskrc {
        return Ok(Some(path));
    }
    let Some(mut path) = home else {
        return Ok(None);
    };
    path.push_str("/.taskrc")?;
    Ok(Some(path))
}

// The settings that the reading of their file brought.
fn settings_in(alloc: Global, read: io::Result<Vec<u8>>) -> Result<Vec<u8>, StartError>
    ensures bytes { IfOk read (λ bytes. IsOkAnd result (λ settings. settings ≡ bytes)) }
    ensures missing { IfErr read (λ e. error_kind e ≡ ErrorKind.NotFound → IsOkAnd result (λ settings. settings.items ≡ [])) }
    ensures memory { IfErr read (λ e. error_kind e ≡ ErrorKind.OutOfMemory → IsErrOf result StartError.Memory) }
    ensures failed { IfErr read (λ e. error_kind e ≢ ErrorKind.NotFound → error_kind e ≢ ErrorKind.OutOfMemory → IsErrOf result StartError.Failed) }
{
    match read {
        Ok(bytes) => Ok(bytes),
        Err(error) => match error.kind() {
            ErrorKind::NotFound => Ok(Vec::new(alloc)),
            ErrorKind::OutOfMemory => Err(StartError::Memory),
            _ => Err(StartError::Failed),
        },
    }
}
