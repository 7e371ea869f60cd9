// What the server says of itself on the standard error, each line in one piece. If a line can't be made or written, nothing follows.

use crate::asked::push_asked;
use crate::hint::hint_new;
use crate::start::{StartError, variable};
use std::alloc::Global;
use std::time::Duration;
use tw_server::{ServeEnd, ServerOpenError};
use tw_streams::Stream;
use tw_text::cell;
use tw_world::{Memory, Sink};

/// What went through a connection, and how long that took.
#[derive(Clone, Copy)]
pub struct Passed {
    pub taken_bytes: u64,
    pub given_bytes: u64,
    pub time: Duration,
}

/// Whether each connection has a line: if the variable `TW_LOG` is 1.
pub fn is_logged(rt: &HostRuntime) -> Result<bool, StartError> {
    match variable(rt, "TW_LOG")? {
        Some(value) => Ok(value.as_str() == "1"),
        None => Ok(false),
    }
}

fn say(rt: &HostRuntime, line: &[u8]) {
    let _ = Stream::new(rt.stderr()).write_all(line);
}

/// Says that a port is another program's, or may not be listened on.
pub fn say_port(rt: &HostRuntime, alloc: Global, port: u16) {
    if let Ok(line) = format!(in alloc; "tw: port {port} of 127.0.0.1 can't be listened on\n") {
        say(rt, line.as_bytes());
    }
}

/// Says that a file can't be opened.
pub fn say_unopened(rt: &HostRuntime, alloc: Global, file: &str) {
    let Ok(name) = cell(alloc, file) else {
        return;
    };
    if let Ok(line) = format!(in alloc; "tw: the file {} can't be opened\n", name.as_str()) {
        say(rt, line.as_bytes());
    }
}

/// Says that a history is new: in the log, or to a person.
pub fn say_new(rt: &HostRuntime, alloc: Global, file: &str, logged: bool) {
    if !logged {
        return hint_new(rt, alloc, "history", file);
    }
    let Ok(name) = cell(alloc, file) else {
        return;
    };
    if let Ok(line) = format!(in alloc; "tw: a new history in {}\n", name.as_str()) {
        say(rt, line.as_bytes());
    }
}

/// Says why a server is not opened.
pub fn say_refusal(rt: &HostRuntime, alloc: Global, error: ServerOpenError) {
    match error {
        ServerOpenError::Disk => say(rt, b"tw: the file failed\n"),
        ServerOpenError::Damaged { offset } => say_damage(rt, alloc, offset),
        ServerOpenError::Memory => say(rt, b"tw: out of memory\n"),
    }
}

/// Says why the end of a connection ends the server, if it does.
pub fn say_end(rt: &HostRuntime, alloc: Global, end: ServeEnd) {
    match end {
        ServeEnd::DiskFault | ServeEnd::Closed => say(rt, b"tw: the file failed\n"),
        ServeEnd::Damaged { offset } => say_damage(rt, alloc, offset),
        ServeEnd::Served { .. } | ServeEnd::PeerFault | ServeEnd::Memory => {}
    }
}

fn say_damage(rt: &HostRuntime, alloc: Global, offset: u64) {
    if let Ok(line) = format!(in alloc; "tw: the file is damaged at {offset}\n") {
        say(rt, line.as_bytes());
    }
}

/// Says that a server listens, over a file of so many bytes.
pub fn say_listens(rt: &HostRuntime, alloc: Global, port: u16, file: &str, bytes: u64) {
    let Ok(name) = cell(alloc, file) else {
        return;
    };
    if let Ok(line) = format!(in alloc;
        "tw: listens on 127.0.0.1:{port}, {}, {bytes} bytes\n",
        name.as_str()
    ) {
        say(rt, line.as_bytes());
    }
}

/// Says that the last connection was served.
pub fn say_over(rt: &HostRuntime, alloc: Global, count: u64) {
    if let Ok(line) = format!(in alloc; "tw: ends after {count} connections\n") {
        say(rt, line.as_bytes());
    }
}

/// Says how a connection ended, what was asked for by whom, how many bytes went each way, and how many milliseconds it took.
pub fn say_served(rt: &HostRuntime, alloc: Global, end: ServeEnd, front: &[u8], passed: Passed) {
    let mut line = Vec::new(alloc);
    if push_served(alloc, &mut line, end, front, passed).is_ok() {
        say(rt, line.as_slice());
    }
}

fn push_served(
    alloc: Global,
    line: &mut Vec<u8>,
    end: ServeEnd,
    front: &[u8],
    passed: Passed,
) -> Result<(), Memory> {
    push_status(alloc, line, end)?;
    push_asked(line, front)?;
    push_passed(alloc, line, passed)
}

// A connection that got no answer was cut.
fn push_status(alloc: Global, line: &mut Vec<u8>, end: ServeEnd) -> Result<(), Memory> {
    let ServeEnd::Served { status } = end else {
        line.extend_from_slice(b"tw: cut ")?;
        return Ok(());
    };
    let text = format!(in alloc; "tw: {status} ")?;
    line.extend_from_slice(text.as_bytes())?;
    Ok(())
}

fn push_passed(alloc: Global, line: &mut Vec<u8>, passed: Passed) -> Result<(), Memory> {
    let Passed {
        taken_bytes,
        given_bytes,
        time,
    } = passed;
    let millis = time.as_millis();
    let text = format!(in alloc; " in {taken_bytes} out {given_bytes} ms {millis}\n")?;
    line.extend_from_slice(text.as_bytes())?;
    Ok(())
}
