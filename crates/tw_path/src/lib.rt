//! The path of a sync through a chain: where versions lead that are pulled or pushed one after another, with its laws, and code that goes along it.
//! It promises what a path leaves of pending operations, what is sent first of them, and that what one sync sent no later one sends again.
//! It stands on `tw_groups`, `tw_transform` and `tw_segment`, and knows no replica and no link.
#![tactic(auto)]

mod batch;
mod grouped;
pub mod laws;
mod presence;
mod walker;

pub use batch::{Batch, first_batch};
pub use grouped::groups_of;
pub use presence::Presence;
pub use walker::Walker;
