// The link of a generated world.
ghost use Rattle.std.specs.Prelude.{[], IfOk, IsErrOf};
ghost use Rattle.tw_world.specs.Disk.{Rose};
ghost use Rattle.tw_http.specs.Link.{IsExchange, IsAnswered};
ghost use Rattle.tw_server.specs.Memory.Link.{IsAlone, IsNewLink};

use std::alloc::Global;
use tw_http::{Link, LinkError};
use tw_server::MemoryLink;
use tw_world::{IdWords, Memory};
use uuid::Uuid;

/// A link to a server in memory, to whose client's chain nobody else adds.
pub(crate) struct LoneLink {
    link: MemoryLink,
    ghost alone: { IsAlone link },
}

// It is written out, so that a caller does not prove again how each part is dropped.
impl Drop for LoneLink {
    fn drop(self) {
        let LoneLink { link: _ } = self;
    }
}

impl LoneLink {
    ghost use Rattle.tw_generate.specs.Links.{memory_link};

    /// A link of this client to a server without versions, which draws ids from `ids`.
    pub(crate) fn new(alloc: Global, client: Uuid, ids: IdWords) -> Result<LoneLink, Memory>
        ensures { IfOk result (λ lone. IsNewLink client ids [] (memory_link lone)) }
    {
        let script = Vec::new(alloc);
        let link = MemoryLink::new(alloc, client, ids, script)?;
        Ok(LoneLink { link })
    }
}

impl Link for LoneLink {
    ghost use Rattle.tw_generate.specs.Links.{lone_link_model, lone_tells_chain, lone_own_stand};

    ghost model = { lone_link_model };

    ghost tells_chain = { lone_tells_chain };

    ghost own_stand = { lone_own_stand };

    fn exchange(&mut self, request: &[u8], reply: &mut Vec<u8>) -> Result<(), LinkError>
        ensures exchanged { IsExchange lone_link_model self.old self.new request.now reply.new.items result }
        ensures answered { IsAnswered lone_link_model self.old self.new request.now reply.new.items result }
        ensures failed { IsErrOf result LinkError.Failed → Rose (lone_link_model.faults self.old) (lone_link_model.faults self.new) }
    {
        self.link.exchange(request, reply)
    }
}
