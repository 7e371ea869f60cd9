// The addresses of a host, and connections to them.
ghost use Rattle.std.specs.Prelude.{◌≡◌, ◌≢◌, ℕ, ◌+◌, List, [], All, IfOk, IfErr, OnOk, OnErr};
ghost use Rattle.std.specs.Duration.{as_nanos};
ghost use Rattle.std.specs.IoError.{error_kind};
ghost use Rattle.std.specs.declared.io.ErrorKind.TheVariants.{OutOfMemory};
ghost use Rattle.std.specs.declared.net.socket_addr.SocketAddr.{SocketAddr};

use crate::timed_stream::TimedStream;
use std::io;
use std::net::{SocketAddr, TcpStream, ToSocketAddrs};
use std::time::Duration;

/// What the system offers of other machines.
pub trait Dialer {
    type Stream: TimedStream + Drop;

    /// Holds of the addresses of a host, a name or an address, at a port.
    ghost is_of: { List ℕ → ℕ → SocketAddr → Type 0 };

    /// Holds of a new connection to an address, for which it was to wait so many nanoseconds at most.
    ghost leads_to: { Self.Stream → SocketAddr → ℕ → Type 0 };

    /// Holds if it has opened so many connections.
    ghost has_opened: { Self → ℕ → Type 0 };

    /// Holds if a call may fail, or a host may have no address.
    ghost may_fail: { Type 0 };

    /// The addresses of a host at a port.
    fn addresses(&self, host: &str, port: u16) -> io::Result<Vec<SocketAddr>>
        ensures found { IfOk result (λ found. All (is_of host.now port) found.items) }
        ensures some { IfOk result (λ found. found.items ≡ [] → may_fail) }
        ensures failed { IfErr result (λ e. error_kind e ≢ OutOfMemory → may_fail) };

    /// Connects to an address, or fails if it has not answered after this time.
    fn connect(&mut self, address: SocketAddr, wait: Duration) -> io::Result<Self::Stream>
        ensures led { IfOk result (λ stream. leads_to stream address (as_nanos wait)) }
        ensures one { (n : ℕ) → has_opened self.old n → OnOk result (has_opened self.new (n + 1)) }
        ensures none { (n : ℕ) → has_opened self.old n → OnErr result (has_opened self.new n) }
        ensures failed { OnErr result may_fail };
}

impl Dialer for &HostRuntime {
    type Stream = TcpStream;

    ghost is_of = { λ host port address. Unit {0} };

    ghost leads_to = { λ stream address nanos. Unit {0} };

    // The system does not tell how many there were.
    ghost has_opened = { λ system count. Unit {0} };

    ghost may_fail = { Unit {0} };

    fn addresses(&self, host: &str, port: u16) -> io::Result<Vec<SocketAddr>> {
        Ok((host, port).to_socket_addrs(*self)?.collect(self.alloc())?)
    }

    fn connect(&mut self, address: SocketAddr, wait: Duration) -> io::Result<TcpStream> {
        TcpStream::connect_timeout(*self, &address, wait)
    }
}
