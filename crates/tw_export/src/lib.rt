//! Tasks as texts for other programs: the JSON of `task export`, and one task as a hook is given it.
//! The export is that of the chosen tasks alone, in byte order of their uuids; neither numbers nor the zone change it.
//! It stands on `tw_urgency` for status and urgency, on `tw_text` and `tw_time` for numbers and moments, and on the kit's `json`.
#![tactic(auto)]

mod annotations;
mod export;
mod members;
mod own;
mod property;

pub use export::{export_text, task_text};
