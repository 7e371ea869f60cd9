//! The records of a server's file: accepted versions, blocks that name them once more, and stored snapshots.
//! It promises what the bodies of records lead to, and that an opening that reads blocks finds the same as one that reads all.
//! It stands on `tw_protocol` for chains and accounts, and on `tw_fields` for the fields of a body.
#![tactic(auto)]

mod block;
mod entry;
mod image;
mod kind;
pub mod laws;
mod walk;

pub use block::{block_of, entry_at, is_block_body};
pub use entry::{BEFORE_SEGMENT, Entry, body_of, read_entry};
pub use image::{BEFORE_BYTES, Image, read_image, snapshot_body};
pub use walk::{Source, fresh_versions, sources_of};
