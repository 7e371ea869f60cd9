//! What the program asks of the outside: disks, folders, streams, moments and drawn identifiers.
//! Each trait says what its object holds, what a crash may leave of it and how often it has failed; objects in memory meet it.
//! It uses the kit's `arrayvec`, which holds short texts.
#![tactic(auto)]

mod calls;
mod changes;
mod disk;
mod failing;
mod folder;
mod ids;
mod memory;
mod memory_folder;
mod memory_peer;
mod memory_sink;
mod memory_source;
mod moment;
mod peer;
mod sink;
mod source;
mod texts;

pub use disk::{Disk, DiskError};
pub use failing::FailingDisk;
pub use folder::{Folder, FolderError};
pub use ids::IdWords;
pub use memory::MemoryDisk;
pub use memory_folder::MemoryFolder;
pub use memory_peer::MemoryPeer;
pub use memory_sink::MemorySink;
pub use memory_source::MemorySource;
pub use moment::{MOMENT_LIMIT, Moment};
pub use peer::Peer;
pub use sink::{Sink, StreamError};
pub use source::Source;
pub use texts::{Memory, Text};
