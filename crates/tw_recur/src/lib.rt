//! Instances of recurring tasks: which are to be made by now, what their tasks are, and what becomes of their parents' masks.
//! Each call is one function of tasks, moment, zone and limit; laws say that no uuid changes twice, so the operations fit one after another.
//! It stands on `tw_time` for lengths, on `tw_urgency` for what properties say, and on `tw_model`'s changes.
#![tactic(auto)]

mod due_tasks;
mod growth;
mod instance;
pub mod laws;
mod recurrence;

pub use crate::due_tasks::{due_changes, due_instances};
