//! The state of a replica in memory: its tasks, what is pending on them, and the numbers of open tasks.
//! Each step leads to the state that its definition says, or to none; each state that records lead to is sound.
//! It uses tw_bodies (the steps, as records spell them), tw_numbers (the places of open tasks) and tw_model (tasks and operations).
#![tactic(auto)]

mod apply;
mod copies;
mod fitting;
mod in_place;
mod indexed;
pub mod laws;
mod next;
mod pending;
mod pends;
mod restore;
mod state;
mod touched;

pub use copies::{make_room, part_of, take_out};
pub use fitting::apply_carried;
pub use indexed::Indexed;
pub use next::{Next, next_on};
pub use pending::{Pending, copy_of};
pub use pends::pending_of;
pub use state::{Core, apply_ops, apply_sync_ops, apply_synced, is_idle, take_back_from};
pub use touched::{add_all_synced, synced_uuids, touched_uuids};
