//! The program's edge: the system's streams as sources, sinks and peers, connections that end in time, and the client's side of an exchange.
//! Each call says what it asks of the system, with which bytes, addresses and times. It fails only if the system does, and each fault is counted.
//! It implements the traits of `tw_world`.
#![tactic(auto)]

mod client;
mod connection;
mod dialer;
mod noted;
mod peer;
mod reader;
mod reply;
mod source;
mod stream;
mod timed_stream;
mod writer;

pub use client::{AskError, ask};
pub use connection::{Connection, Limits};
pub use dialer::Dialer;
pub use noted::Noted;
pub use peer::StreamPeer;
pub use reader::Reader;
pub use reply::Framing;
pub use source::StreamSource;
pub use stream::Stream;
pub use timed_stream::{TimedStream, Timer};
pub use writer::Writer;
