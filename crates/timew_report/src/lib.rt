//! Reports of hours: gaps, days, weeks and totals of a range.
//! Each time that is printed is a number of seconds, by a definition that counts them one by one; the work grows with intervals and lines.
//! It stands on timew_cmd (measures, times as texts), timew_words (ranges), timew_interval, tw_model (laws of maps), tw_text (tables) and tw_time.
#![tactic(auto)]

mod bounds;
mod days;
mod gaps;
mod hours;
pub mod laws;
mod lines;
mod report;
mod totals;

pub use bounds::hours_of;
pub use report::time_text;
pub use timew_words::TimeReport;
