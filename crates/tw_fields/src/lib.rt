//! The fields of a record's body: numbers, uuids, bytes, texts and moments, read from the left and written at the end.
//! What is written of a value that fits is read back, and what is read spells the bytes that it was read of.
//! It stands on tw_world (texts and moments).
#![tactic(auto)]

mod read;
mod write;

pub use read::{
    ReadError, bytes_at, read_moment, read_option, read_text, read_uuid, u32_at, uuid_from,
};
pub use write::{put_bytes, put_count, put_moment, put_option, put_text, put_uuid};
