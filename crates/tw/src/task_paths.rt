// The paths of the tasks.
ghost use Rattle.std.specs.Prelude.{◌≡◌, ◌++◌, codes, string_bytes, IfOk};

use crate::start::{StartError, variable};
use std::alloc::Global;
use tw_cli::data_folder;

/// The folder of the tasks, with these settings.
pub fn task_folder(
    rt: &HostRuntime,
    alloc: Global,
    settings: &Vec<u8>,
) -> Result<String, StartError> {
    let taskdata = variable(rt, "TASKDATA")?;
    let home = variable(rt, "HOME")?;
    Ok(data_folder(alloc, settings, as_str(&taskdata), as_str(&home))?)
}

fn as_str(text: &Option<String>) -> Option<&str> {
    match text {
        Some(text) => Some(text.as_str()),
        None => None,
    }
}

/// The path of the journal of the tasks in their folder.
pub fn replica_path(alloc: Global, folder: &str) -> Result<String, StartError>
    ensures { IfOk result (λ path. string_bytes path ≡ folder.now ++ codes "/replica.journal") }
{
    let mut path = String::from_str(alloc, folder)?;
    path.push_str("/replica.journal")?;
    Ok(path)
}
