//! Segments of history: operations as the JSON texts that replicas exchange through a sync server.
//! Reading answers exactly what the bytes stand for or the first fault, and what is written is the one text and is read back.
//! It stands on `json`, `serde_json` and `uuid`, on `tw_time` for timestamps, and on `tw_model` for operations.
#![tactic(auto)]

mod error;
mod in_order;
mod reading;
mod taking;
mod timestamp;
mod writing;

pub use error::SegmentError;
pub use reading::read_segment;
pub use writing::write_segment;
