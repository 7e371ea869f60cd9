//! Hours that follow tasks: which intervals there are once active tasks have driven them.
//! The intervals are one function of the tasks, the intervals and the moment, and a second use of it changes nothing.
//! It stands on timew_interval (intervals), tw_urgency (what properties mean) and tw_model (tasks).
#![tactic(auto)]

mod active;
mod candidates;
mod closing;
mod drivers;
mod driving;
mod free;
mod known;
mod label;
pub mod laws;
mod named;

pub use drivers::Drivers;
pub use driving::{tail_of, track, track_tail, track_tail_among, track_tail_by};
