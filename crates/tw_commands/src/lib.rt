//! The commands of `tw task` that stay on this machine: what each makes of a replica, in memory, and what it prints.
//! A command is a total function of what was asked and of the replica's state, and no disk is in sight.
//! It stands on `tw_changes` for what becomes of tasks, on `tw_replica` for the steps, on `tw_report` and `tw_export` for the texts, and on `tw_hooks`
//! for the tasks that hooks are asked about, which it never runs.
#![tactic(auto)]

mod asks;
mod commands;
pub mod laws;
mod plan;
mod ready;
mod request;
mod texts;

pub use asks::event_in;
pub use commands::plan_of;
pub use plan::Plan;
pub use ready::{Ready, conclude};
