//! The places of open tasks: who has which, and where a task that is new among them goes.
//! Each way to assign them leads to the places that the definition says, whether it looks at one task or at all.
//! It stands on tw_model (tasks, and the order of uuids).
#![tactic(auto)]

mod few;
mod indexed;
mod numbering;
mod rank;
mod soundness;

pub use few::renew_places;
pub use indexed::{LOOKS, assign, assign_new, pack_if};
pub use numbering::{assigned, pack};
pub use soundness::is_assigned;
