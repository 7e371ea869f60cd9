// A link in memory.
ghost use Rattle.std.specs.Prelude.{◌≡◌, ◌++◌, ◌∷◌, [], true, false, length, IfOk, IfErr, OnOk, OnErr, IsErrOf};
ghost use Rattle.std.proofs.Props.{props};
ghost use Rattle.tw_world.specs.Disk.{Rose};
ghost use Rattle.tw_http.specs.Link.{IsExchange, IsAnswered, IsChainOf, OwnAreOfChain};
ghost use Rattle.tw_server.specs.Memory.Exchange.{exchange, exchanges_of};
ghost use Rattle.tw_server.specs.Memory.Holding.{Acts, IsReply, MayAct};
ghost use Rattle.tw_server.specs.Memory.Server.{holding_of};
ghost use Rattle.tw_server.specs.Memory.Script.{OthersFit, others_at};

use crate::memory::exchange::{MemoryExchange, reply_to, store_exchange};
use crate::memory::script::{Fate, LinkStep, add_step, fate_at, script_fits};
use crate::memory::server::MemoryServer;
use std::alloc::Global;
use tw_http::{Link, LinkError};
use tw_world::{IdWords, Memory};
use uuid::Uuid;

/// A way to a sync server in memory. A script says what others add to the client's chain before each exchange, and
/// which requests and replies are lost. After its end each reply arrives, and no one else adds anything.
pub struct MemoryLink {
    alloc: Global,
    client: Uuid,
    server: MemoryServer,
    script: Vec<LinkStep>,
    list: Vec<MemoryExchange>,
    exchanges: u64,
    faults: u64,
    ghost others_fit: { OthersFit script.items },
}

// It is written out, so that a caller does not prove again how each part is dropped.
impl Drop for MemoryLink {
    fn drop(self) {
        let MemoryLink {
            alloc: _,
            client: _,
            server: _,
            script: _,
            list: _,
            exchanges: _,
            faults: _,
        } = self;
    }
}

impl MemoryLink {
    ghost use Rattle.tw_server.specs.Memory.Link.{link_chain, link_exchanges, IsNewLink};
    ghost use Rattle.tw_protocol.specs.Chain.{latest};

    /// Whether each segment of a script has at most 16,777,216 bytes, as `new` requires.
    pub fn takes(script: &Vec<LinkStep>) -> bool
        ensures yes { result ≡ true → OthersFit script.now.items }
        ensures no { result ≡ false → ¬ (OthersFit script.now.items) }
    {
        script_fits(script)
    }

    /// A link of this client to a server without versions, which draws ids from `ids`.
    pub fn new(
        alloc: Global,
        client: Uuid,
        ids: IdWords,
        script: Vec<LinkStep>,
    ) -> Result<MemoryLink, Memory>
        requires { OthersFit script.items }
        ensures { IfOk result (IsNewLink client ids script.items) }
    {
        Ok(MemoryLink {
            alloc,
            client,
            server: MemoryServer::new(alloc, ids)?,
            script,
            list: Vec::new(alloc),
            exchanges: 0,
            faults: 0,
        })
    }

    /// The id of the latest version of the client's chain, or nil if it has none. Takes no memory.
    pub fn latest(&self) -> Uuid
        ensures { result ≡ latest (link_chain self.now) }
    {
        self.server.latest(self.client)
    }

    /// How many versions the client's chain has. Takes no memory.
    pub fn versions(&self) -> usize
        ensures { result ≡ length (link_chain self.now) }
    {
        self.server.count(self.client)
    }

    /// How many exchanges were begun.
    pub fn exchanges(&self) -> u64
        ensures { result ≡ link_exchanges self.now }
    {
        self.exchanges
    }
}

impl Link for MemoryLink {
    ghost use Rattle.tw_server.specs.Memory.Link.{memory_link_model, memory_tells_chain, memory_own_stand, KeepsScript, IsScripted};

    ghost model = { memory_link_model };

    ghost tells_chain = { memory_tells_chain };

    ghost own_stand = { memory_own_stand };

    // A lost request and a lost reply answer `Failed`, and no other step does. `Memory` may come at each step.

    fn exchange(&mut self, request: &[u8], reply: &mut Vec<u8>) -> Result<(), LinkError>
        ensures exchanged { IsExchange memory_link_model self.old self.new request.now reply.new.items result }
        ensures answered { IsAnswered memory_link_model self.old self.new request.now reply.new.items result }
        ensures failed { IsErrOf result LinkError.Failed → Rose (memory_link_model.faults self.old) (memory_link_model.faults self.new) }

        ensures scripted { IsScripted self.old self.new request.now reply.new.items result }
        ensures script { KeepsScript self.old self.new }
        ensures well { OnOk result (memory_link_model.faults self.new ≡ memory_link_model.faults self.old) }
    {
        let number = self.exchanges as usize;
        self.exchanges = self.exchanges.saturating_add(1);
        if add_step(
            &mut self.server,
            self.alloc,
            self.client,
            &self.script,
            number,
        )
        .is_err()
        {
            return Err(LinkError::Memory);
        }
        match fate_at(&self.script, number) {
            Fate::Deliver => deliver(&mut self.server, &mut self.list, self.alloc, request, reply),
            Fate::LoseRequest => {
                self.faults = self.faults.saturating_add(1);
                Err(LinkError::Failed)
            }
            Fate::LoseReply => {
                if reply_to(&mut self.server, self.alloc, request).is_err() {
                    return Err(LinkError::Memory);
                }
                self.faults = self.faults.saturating_add(1);
                Err(LinkError::Failed)
            }
        }
    }
}

// Answers a request, and stores the exchange.
fn deliver(
    server: &mut MemoryServer,
    list: &mut Vec<MemoryExchange>,
    alloc: Global,
    request: &[u8],
    reply: &mut Vec<u8>,
) -> Result<(), LinkError>
    ensures acts { OnOk result (Acts (holding_of server.old) (holding_of server.new) request.now) }
    ensures text { OnOk result (IsReply (holding_of server.old) request.now reply.new.items) }
    ensures stored { OnOk result (exchanges_of list.new.items ≡ exchanges_of list.old.items ++ exchange request.now reply.new.items ∷ []) }
    ensures same { OnErr result (list.new.items ≡ list.old.items) }
    ensures refused { IfErr result (λ e. (e ≡ LinkError.Memory) × MayAct (holding_of server.old) (holding_of server.new) request.now) }
{
    let Ok(text) = reply_to(server, alloc, request) else {
        return Err(LinkError::Memory);
    };
    if store_exchange(list, alloc, request, text, reply).is_err() {
        return Err(LinkError::Memory);
    }
    Ok(())
}
