//! An audit: whether a replica holds what a server's chain says, and if not, what differs first.
//! Over an honest link the answer is "same" exactly if the replica agrees with the chain. It asks for versions alone, and changes nothing.
//! It stands on `tw_sync` for the questions, and on `tw_replica`, `tw_state` and `tw_segment` for the tasks on both sides.
#![tactic(auto)]

mod auditing;
mod differences;
mod error;
mod folding;
pub mod laws;
mod names;
mod text;

pub use auditing::{Audited, audit};
pub use differences::{Difference, What};
pub use error::AuditError;
pub use text::audit_text;
