//! A large world, run in memory: two replicas and their server, by the calls that the program uses.
//! What it prints is what these calls came to, from a stated list of tasks and changes.
//! It stands on `tw_replica` and `tw_sync`, on the server in memory of `tw_server`, and on `tw_export`.
#![tactic(auto)]

mod changes;
mod link;
mod machine;
mod moments;
mod network;
mod summary;
mod tasks;
mod world;

pub use world::generate;
