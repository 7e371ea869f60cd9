// A server at the other end of a TCP connection as a link.
ghost use Rattle.std.specs.Prelude.{◌≡◌, None, Err, OnOk, IsErrOf, IsSomeAnd};
ghost use Rattle.tw_world.specs.Disk.{Rose};
ghost use Rattle.tw_http.specs.Link.{IsExchange, IsAnswered};
ghost use Rattle.tw_http.specs.Lengths.{ResponseEndsAt};
ghost use Rattle.tw_streams.specs.Asked.{Asked, Dialled, Exchanged, OpensOne};

use tw_cli::Address;
use tw_http::{Link, LinkError, response_len};
use tw_streams::{AskError, Dialer, Framing, Timer, ask};

// A reply ends where its head says.
struct Responses;

impl Framing for Responses {
    ghost ends_at = { ResponseEndsAt };

    fn len_of(&self, bytes: &[u8]) -> Option<usize> {
        response_len(bytes)
    }
}

/// A server by its host, a name or an address, and its port, with how many exchanges it was asked for and how many of
/// them failed. Each exchange is a connection of its own, and fails if there is no address. It tells nothing of what it brings.
#[derive(Drop)]
pub struct TcpLink<S: Dialer + Timer> {
    system: S,
    address: Option<Address>,
    exchanges: u64,
    faults: u64,
}

impl<S: Dialer + Timer> TcpLink<S> {
    /// A link that was asked for no exchange.
    pub fn new(system: S, address: Option<Address>) -> TcpLink<S>
        ensures { result ≡ record { system = system; address = address; exchanges = 0; faults = 0 } }
    {
        TcpLink {
            system,
            address,
            exchanges: 0,
            faults: 0,
        }
    }
}

impl<S: Dialer + Timer + Copy> Link for TcpLink<S> {
    ghost use Rattle.tw.specs.Links.{tcp_model, none_told};

    ghost model = { tcp_model };

    ghost tells_chain = { λ link truly. none_told truly.honest };

    ghost own_stand = { λ link tells. none_told tells };

    fn exchange(&mut self, request: &[u8], reply: &mut Vec<u8>) -> Result<(), LinkError>
        ensures exchanged { IsExchange tcp_model self.old self.new request.now reply.new.items result }
        ensures answered { IsAnswered tcp_model self.old self.new request.now reply.new.items result }
        ensures failed { IsErrOf result LinkError.Failed → Rose self.old.faults self.new.faults }

        ensures unaddressed { self.old.address ≡ None → result ≡ Err LinkError.Failed }
        // A connection to the server's address got the request, and gave the reply. It is the one that this value of the system opened.
        ensures asked { OnOk result (IsSomeAnd self.old.address (λ address. Asked (Dialled (S.is_of address.host address.port) S.leads_to S.has_shown)
            (Exchanged S.Stream.contents S.Stream.remaining ResponseEndsAt request.now reply.new.items))) }
        ensures opened { OpensOne S.has_opened self.old.system self.new.system result }
        ensures well { OnOk result (self.new.faults ≡ self.old.faults) }
    {
        self.exchanges = self.exchanges.saturating_add(1);
        let Some(address) = &self.address else {
            self.faults = self.faults.saturating_add(1);
            return Err(LinkError::Failed);
        };
        let host = address.host.as_str();
        let clock = self.system;
        let port = address.port;
        match ask(
            &mut self.system,
            clock,
            &Responses,
            host,
            port,
            request,
            reply,
        ) {
            Ok(()) => Ok(()),
            Err(AskError::Memory) => Err(LinkError::Memory),
            Err(AskError::Failed) => {
                self.faults = self.faults.saturating_add(1);
                Err(LinkError::Failed)
            }
        }
    }
}
