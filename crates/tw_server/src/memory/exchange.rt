// An exchange with a server in memory.
ghost use Rattle.std.specs.Prelude.{◌≡◌, ◌++◌, ◌∷◌, [], map, IfOk, OnOk, OnErr};
ghost use Rattle.tw_http.specs.Serving.{refusal_of};
ghost use Rattle.tw_server.specs.Memory.Holding.{Acts, IsReply, MayAct};
ghost use Rattle.tw_server.specs.Memory.Exchange.{exchange_of, exchanges_of, exchange};
ghost use Rattle.tw_server.specs.Memory.Server.{holding_of};

use crate::memory::server::MemoryServer;
use crate::message::is_no_memory;
use crate::serve::refusal_of;
use std::alloc::Global;
use tw_http::{Bytes, read_request, write_response};
use tw_world::Memory;

/// The bytes of a request, and of the reply to it.
pub struct MemoryExchange {
    pub request: Bytes,
    pub reply: Bytes,
}

// It is written out, so that a caller does not prove again how each part is dropped.
impl Drop for MemoryExchange {
    fn drop(self) {
        let MemoryExchange {
            request: _,
            reply: _,
        } = self;
    }
}

/// The text of the reply to the bytes of a request, which acts first. After `Memory` it may have acted.
pub(crate) fn reply_to(
    server: &mut MemoryServer,
    alloc: Global,
    request: &[u8],
) -> Result<Vec<u8>, Memory>
    ensures acts { OnOk result (Acts (holding_of server.old) (holding_of server.new) request.now) }
    ensures text { IfOk result (λ text. IsReply (holding_of server.old) request.now text.items) }
    ensures refused { OnErr result (MayAct (holding_of server.old) (holding_of server.new) request.now) }
{
    let answer = read_request(alloc, request);
    if is_no_memory(&answer) {
        return Err(Memory);
    }
    match answer {
        Ok(asked) => {
            let response = server.answer(alloc, asked, true)?;
            write_response(alloc, &response)
        }
        Err(error) => write_response(alloc, &refusal_of(error)),
    }
}

/// Stores an exchange, and gives its reply.
pub(crate) fn store_exchange(
    list: &mut Vec<MemoryExchange>,
    alloc: Global,
    request: &[u8],
    text: Vec<u8>,
    reply: &mut Vec<u8>,
) -> Result<(), Memory>
    ensures stored { OnOk result (exchanges_of list.new.items ≡ exchanges_of list.old.items ++ exchange request.now text.items ∷ []) }
    ensures reply { OnOk result (reply.new.items ≡ text.items) }
    ensures same { OnErr result (list.new.items ≡ list.old.items) }
{
    list.reserve(1)?;
    let exchange = MemoryExchange {
        request: Bytes::from_slice(alloc, request)?,
        reply: Bytes::from_slice(alloc, text.as_slice())?,
    };
    list.push_reserved(exchange);
    *reply = text;
    Ok(())
}
