//! Snapshots: all tasks as one text of JSON, from which a fresh replica begins (the TaskChampion book, "Snapshots").
//! There is one text of tasks, and it is read back as these tasks.
//! It writes and reads token by token with the kit's `json`.
#![tactic(auto)]

mod reading;
mod writing;

pub use reading::read_snapshot;
pub use writing::write_snapshot;

// The most bytes of a snapshot: what one message carries (the TaskChampion book, "HTTP Representation").
pub(crate) const MAX_LEN: usize = 16_777_216;
