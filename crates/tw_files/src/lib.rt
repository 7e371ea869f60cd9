//! The program's edge: the system's files, folders and scripts as disks, folders and hooks.
//! Each call says what it asks of the system, with which bytes, offsets and paths. It fails only if the system does, and each fault is counted.
//! It implements the traits of `tw_world` and `tw_spawn`.
#![tactic(auto)]

mod failing_folder;
mod file_disk;
mod file_folder;
mod folders;
mod offset_file;
mod opening;
mod process_spawner;
mod scripts;

pub use failing_folder::FailingFolder;
pub use file_disk::FileDisk;
pub use file_folder::{FileFolder, open_folder};
pub use folders::Folders;
pub use offset_file::{Busy, OffsetFile};
pub use opening::open_disk;
pub use process_spawner::ProcessSpawner;
pub use scripts::{OpenScript, Scripts};
