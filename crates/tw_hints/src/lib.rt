//! What to do about a run that was refused, as lines for a person: a cause, what was typed, and the places that it is about.
//! Each hint is the lines of one table, and each line begins with `tw: `, ends with a newline and has no other.
//! It uses the causes of `tw_cli` and `timew_cli`, and the reasons of `tw_settings`.
#![tactic(auto)]

pub mod laws;
mod lines;
mod places;
mod refused;
mod replies;
mod task;
mod timew;
mod words;
mod zone;

pub use places::{NotOpened, Places};
pub use task::task_hint;
pub use timew::timew_hint;
pub use zone::zone_hint;
