//! A sync of a replica with a server's chain: versions are pulled, what is left of the pending operations is sent in batches, and one record is written.
//! It promises where a sync ends and what each refusal leaves, that agreement with the chain is kept, and that what was sent and comes back cancels.
//! It stands on `tw_replica`, `tw_path` and `tw_outcome` for the replica's side, and on `tw_protocol`, `tw_segment` and `tw_http` for the chain's.
#![tactic(auto)]

mod ask;
mod cursor;
mod engine;
mod error;
mod given;
pub mod laws;
mod offer;
mod pulling;
mod pushing;
mod report;
mod standing;

pub use ask::{ChildAnswer, ask_child};
pub use engine::sync;
pub use error::{AskError, ReplyKind, SyncError};
pub use report::SyncReport;
