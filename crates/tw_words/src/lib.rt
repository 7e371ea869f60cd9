//! The words of a command line: its parts, what they change, and the first that is wrong.
//! Each call gives exactly what one definition of `specs/` gives, refusals included.
//! It stands on `tw_filter` for the words that select tasks, on `tw_settings` for overrides, and on `tw_time` for moments.
#![tactic(auto)]

mod changes;
mod clock;
mod command;
mod judging;
pub mod laws;
mod line;
mod link;

pub use changes::modification::Modification;
pub use changes::reading::read_changes;
pub use changes::{apply, changed};
pub use clock::Clock;
pub use command::{AnyCommand, Command, Filtering, Rest};
pub use judging::{fault_of, judge_line, read_line};
pub use line::{Line, cut_words};
pub use link::link_address;
