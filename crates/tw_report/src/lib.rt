//! Tasks as texts for people: the reports, and what is told of each task.
//! Each text is one function of the rows, the tasks, their numbers, the moment, the zone and the weights of urgency.
//! It stands on `tw_text` for columns, on `tw_urgency` for status and urgency, and on `tw_terms`' view.
#![tactic(auto)]

mod count;
mod field;
mod information;
mod look;
mod names;
mod rank;
mod report;

pub use information::information_text;
pub use names::{projects_text, tags_text};
pub use report::{Report, report_text};
