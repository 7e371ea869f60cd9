//! What each command of `timew` makes of the intervals, and what it shows of them.
//! What a command leads to is one function of the command, the intervals and the moment, refusals included.
//! It stands on timew_words (commands), timew_interval (intervals) and tw_time (moments and lengths).
#![tactic(auto)]

mod chosen;
mod commands;
mod error;
mod labels;
pub mod laws;
mod neighbours;
mod numbers;
mod open;
mod outside;
mod placing;
mod planning;
mod range;
mod replacing;
mod rows;
mod texts;

pub use commands::export::export_text;
pub use commands::show::tracking_text;
pub use commands::summary::summary_text;
pub use error::TimewError;
pub use planning::plan;
pub use range::{measured, seconds_within, total};
pub use texts::{length_text, shown_text};
