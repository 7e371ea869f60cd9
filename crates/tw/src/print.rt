// What the program itself prints, and its own errors.

use crate::start::StartError;
use tw_streams::Stream;
use tw_world::{Sink, StreamError};

/// Prints a text to the standard output, and gives the status to end with.
pub fn print(rt: &HostRuntime, text: &str) -> u8 {
    print_bytes(rt, text.as_bytes())
}

/// The same of the bytes of a text.
pub fn print_bytes(rt: &HostRuntime, text: &[u8]) -> u8 {
    match Stream::new(rt.stdout()).write_all(text) {
        Ok(()) => 0,
        Err(StreamError::Failed) => 6,
    }
}

/// Writes to the standard error why the program ends, and gives the status to end with.
pub fn print_error(rt: &HostRuntime, error: StartError) -> u8 {
    let _ = Stream::new(rt.stderr()).write_all(error.line().as_bytes());
    error.status()
}

/// Writes to the standard error what is told of a command that does not end well.
pub fn say(rt: &HostRuntime, text: &[u8]) {
    let _ = Stream::new(rt.stderr()).write_all(text);
}
