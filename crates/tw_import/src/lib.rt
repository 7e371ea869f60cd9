//! Tasks read from JSON, as `task import` takes it: one function of the bytes and the moment, over what `serde_json` reads.
//! The first element that is no task is named with its first offending key.
//! It reads token by token with the kit's `json`, and stands on `tw_time` for moments and on `tw_model`'s tasks.
#![tactic(auto)]

mod elements;
mod fields;
mod front;
mod halt;
mod import;
mod kind;
mod list;
mod member_value;
mod number;
mod passing;
mod seconds;
mod task_of_fields;

pub use import::{ImportError, Imported, read_import};
