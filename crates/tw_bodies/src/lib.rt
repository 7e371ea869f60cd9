//! The bodies of a replica's records: the steps that it takes, each with its one spelling.
//! What is written of a step is read as that step, and what is read is spelled so.
//! It uses tw_fields (the fields of a body) and tw_model (tasks and operations).
#![tactic(auto)]

pub mod laws;
mod op;
mod partial;
mod room;
mod run;
mod state;
mod step;
mod sync_op;
mod sync_ops;
mod task;
mod unread;

pub use op::read_op;
pub use partial::read_all_ops;
pub use room::room_for;
pub use run::read_run;
pub use state::checkpoint_body;
pub use step::{Read, UNDO, commit_body, is_undo_point, read_group, read_step, undo_body};
pub use sync_op::{read_sync_ops, sync_body};
pub use sync_ops::SyncOps;
pub use unread::Unread;
