//! What the program asks of the hooks of a data folder: their names, and a run of one of them.
//! The trait says what its object ran and how often it has failed; objects in memory meet it.
//! It stands on `tw_world` for want of memory and counts of faults.
#![tactic(auto)]

mod failing;
mod memory_spawner;
mod spawner;

pub use failing::FailingSpawner;
pub use memory_spawner::MemorySpawner;
pub use spawner::{SpawnError, Spawner};
