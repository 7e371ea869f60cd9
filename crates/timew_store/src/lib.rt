//! Intervals in a folder of month files, with a journal of their changes.
//! A change is whole or not there at any crash, and an undo gives back the bytes.
//! It stands on timew_month (month files), tw_journal (records on a disk) and tw_world (folders).
#![tactic(auto)]

mod error;
mod folder;
mod load;
mod prepare;
mod store;
mod undo;
mod write;

pub use error::{LoadError, PrepareError, StoreError, UndoError, WriteError};
pub use prepare::PreparedChange;
pub use store::Store;
