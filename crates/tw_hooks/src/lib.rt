//! Hooks: programs that see a task before it is stored, and may change it or refuse it.
//! What they leave is a relation of their runs: each is given the task as the one before it answered.
//! It stands on `tw_export` and `tw_import` for the lines, and on `tw_spawn` for what runs a program.
#![tactic(auto)]

mod all;
mod answer;
mod error;
mod event;
mod names;
mod run;

pub use all::{Ask, run_all};
pub use error::HookError;
pub use event::Event;
pub use run::run_hooks;
