//! A journal looked at, and what is whole of a damaged one: of tasks, of hours, or the history of a server.
//! What is told is that of the state that the bytes open to, and nothing whole before the damage is left out of a rescue.
//! It works on copies in memory, over tw_replica, tw_server, tw_journal and tw_snapshot.
#![tactic(auto)]

mod error;
mod holding;
mod kind;
pub mod laws;
mod opening;
mod saving;
mod telling;

pub use error::CheckError;
pub use holding::{Held, look};
pub use kind::{Kind, kind_of};
pub use opening::{damage, record_count};
pub use saving::{Rescued, rescue};
pub use telling::{
    damaged_text, held_text, journal_text, lost_text, saved_text, sound_text, too_long_text,
};
