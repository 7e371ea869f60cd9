//! The command line of `tw timew`, carried out over a folder of month files and a disk that holds their journal.
//! `timew_run` promises for each end which record and which files are written, what was printed, and what a crash leaves.
//! It uses the words of `timew_words`, the commands of `timew_cmd`, the store of `timew_store`, and the folders, disks and sinks of `tw_world`.
#![tactic(auto)]

mod carry;
mod cause;
mod fault;
mod run;
mod text;

pub use cause::{Cause, Outcome};
pub use run::timew_run;
pub use timew_words::WordKind;
