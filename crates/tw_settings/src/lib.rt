//! The settings of a run: the lines of a file, the overrides of a line, and what their values mean (taskrc(5)).
//! `read_settings` gives exactly the pairs that both set, or the first that is no setting; each other call reads a value as one definition of `specs/`.
//! It uses `tw_urgency` for weights, and `tw_terms` for cuts of texts and bad words.
#![tactic(auto)]

mod address;
mod folder;
mod known;
pub mod laws;
mod pair;
mod reasons;
mod server;
mod settings;
mod switches;
mod weights;
mod word_error;

pub use address::Address;
pub use folder::data_folder;
pub use pair::parted_at_equals;
pub use reasons::{Why, why_override_refused, why_refused};
pub use server::ServerSettings;
pub use settings::{Settings, read_settings};
pub use word_error::WordError;
