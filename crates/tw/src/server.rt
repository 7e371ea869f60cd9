// `tw server`.
ghost use Rattle.std.specs.Prelude.{◌≡◌, false, IfOk};
ghost use Rattle.tw_streams.specs.Waits.{Begins};
ghost use Rattle.tw_server.specs.Server.{is_closed, server_end};
ghost use Rattle.tw.specs.Served.{last_status, server_limits, status_of_refusal};

use crate::log::{
    Passed, is_logged, say_end, say_listens, say_new, say_over, say_port, say_refusal, say_served,
    say_unopened,
};
use crate::server_words::{Service, read_service};
use crate::start::{StartError, seed};
use std::alloc::Global;
use std::io;
use std::io::ErrorKind;
use std::net::{Ipv4Addr, TcpListener, TcpStream};
use std::time::Duration;
use tw_files::{Busy, open_disk};
use tw_server::{ServeEnd, Server, ServerOpenError, serve_one};
use tw_streams::{Connection, Limits, Noted, StreamPeer, TimedStream, Timer};
use tw_world::{Disk, IdWords};

// A client that is silent, or that moves less than 1,000 bytes a second, is cut off, and the next one is served. Ten minutes are the most.
const LIMITS: Limits = Limits {
    silence_seconds: 10,
    whole_seconds: 10,
    most_seconds: 600,
};

/// Serves the sync protocol on a port of 127.0.0.1, one connection after another, and gives the program's status:
/// 0 after the last connection, 3 if the file failed, 4 if there was no memory to read it, 5 if the port
/// can't be listened on, 7 if the file is damaged. Each of these but 0 has its line. The file is not touched before the port
/// is taken. A file that another program uses is an error.
pub fn run_server(rt: &HostRuntime, alloc: Global, words: &Vec<String>) -> Result<u8, StartError> {
    let Some(service) = read_service(words) else {
        return Err(StartError::CommandLine);
    };
    let logged = is_logged(rt)?;
    let mut ids = IdWords::from_seed(seed(rt)?);
    let Ok(listener) = TcpListener::bind(rt, (Ipv4Addr::LOCALHOST, service.port)) else {
        say_port(rt, alloc, service.port);
        return Ok(5);
    };
    let file = words[1].as_str();
    let mut system = rt;
    match open_disk(&mut system, file, Busy::Fail) {
        Ok(mut disk) => {
            if disk.is_empty() {
                say_new(rt, alloc, file, logged);
            }
            Ok(serve_disk(
                rt, alloc, &listener, file, &mut disk, &mut ids, service, logged,
            ))
        }
        Err(error) => match error.kind() {
            ErrorKind::OutOfMemory => Err(StartError::Memory),
            ErrorKind::WouldBlock => Err(StartError::InUse),
            _ => {
                say_unopened(rt, alloc, file);
                Ok(3)
            }
        },
    }
}

// Opens the server of a disk, and serves.
fn serve_disk<D: Disk>(
    rt: &HostRuntime,
    alloc: Global,
    listener: &TcpListener,
    file: &str,
    disk: &mut D,
    ids: &mut IdWords,
    service: Service,
    logged: bool,
) -> u8 {
    let bytes = disk.size().unwrap_or(0);
    let mut server = match Server::open(alloc, disk) {
        Ok(server) => server,
        Err(error) => {
            say_refusal(rt, alloc, error);
            return status_of_refusal(error);
        }
    };
    if logged {
        say_listens(rt, alloc, service.port, file, bytes);
    }
    let status = serve_all(
        rt,
        alloc,
        listener,
        disk,
        &mut server,
        ids,
        service.count,
        logged,
    );
    if logged && status == 0 {
        say_over(rt, alloc, service.count);
    }
    status
}

// Serves so many connections or until the disk ends it. One that can't be accepted counts.
fn serve_all<D: Disk>(
    rt: &HostRuntime,
    alloc: Global,
    listener: &TcpListener,
    disk: &mut D,
    server: &mut Server,
    ids: &mut IdWords,
    count: u64,
    logged: bool,
) -> u8
    requires { is_closed server.old ≡ false → D.model.len disk.old ≡ server_end server.old }
{
    for _ in 0..count {
        let Ok((stream, _)) = listener.accept() else {
            continue;
        };
        let end = serve_stream(rt, alloc, stream, disk, server, ids, logged);
        say_end(rt, alloc, end);
        if let Some(status) = last_status(end) {
            return status;
        }
    }
    0
}

// A connection with a client.
fn begin<C: Timer + Drop, S: TimedStream + Drop>(
    clock: C,
    stream: S,
) -> io::Result<Connection<C, S>>
    ensures { IfOk result (Begins C.has_shown server_limits) }
{
    Connection::new(clock, stream, LIMITS)
}

// Serves one connection. What it was has a line before it is closed.
fn serve_stream<D: Disk>(
    rt: &HostRuntime,
    alloc: Global,
    stream: TcpStream,
    disk: &mut D,
    server: &mut Server,
    ids: &mut IdWords,
    logged: bool,
) -> ServeEnd
    requires { is_closed server.old ≡ false → D.model.len disk.old ≡ server_end server.old }
    ensures { is_closed server.new ≡ false → D.model.len disk.new ≡ server_end server.new }
{
    let Ok(connection) = begin(rt, stream) else {
        return ServeEnd::PeerFault;
    };
    let start = clock_time(rt);
    let mut peer = StreamPeer::new(Noted::new(connection));
    let end = serve_one(alloc, &mut peer, disk, server, ids);
    let noted = peer.into_stream();
    if logged {
        let passed = Passed {
            taken_bytes: noted.taken(),
            given_bytes: noted.given(),
            time: clock_time(rt).saturating_sub(start),
        };
        say_served(rt, alloc, end, noted.front(), passed);
    }
    let mut connection = noted.into_stream();
    if let ServeEnd::Served { .. } = end {
        connection.close();
    }
    end
}

// The time of the clock, for a line alone: zero if it fails.
fn clock_time(rt: &HostRuntime) -> Duration {
    rt.elapsed().unwrap_or(Duration::ZERO)
}

// The status of a server that is not opened.
fn status_of_refusal(error: ServerOpenError) -> u8
    ensures { result ≡ status_of_refusal error }
{
    match error {
        ServerOpenError::Disk => 3,
        ServerOpenError::Damaged { .. } => 7,
        ServerOpenError::Memory => 4,
    }
}

// The status that a connection's end is the server's end with, if it is one.
fn last_status(end: ServeEnd) -> Option<u8>
    ensures { result ≡ last_status end }
{
    match end {
        ServeEnd::DiskFault | ServeEnd::Closed => Some(3),
        ServeEnd::Damaged { .. } => Some(7),
        ServeEnd::Served { .. } | ServeEnd::PeerFault | ServeEnd::Memory => None,
    }
}
