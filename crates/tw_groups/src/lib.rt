//! Pending operations in groups, one for each undo point: what a version leaves of them, what is sent first, and their old values.
//! A sync that keeps undo points, and sends in batches, is made of these.
#![tactic(auto)]

mod crossing;
pub mod laws;
mod renewing;

pub use crossing::cross;
pub use renewing::pending_on;
