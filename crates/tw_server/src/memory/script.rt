// The script of a link in memory.
ghost use Rattle.std.specs.Prelude.{◌≡◌, ◌≤◌, length, map, take, List, ℕ, OnOk, OnErr};
ghost use Rattle.tw_http.specs.Messages.{max_body};
ghost use Rattle.tw_server.specs.Memory.Holding.{after_other, after_others, AfterSome};
ghost use Rattle.tw_server.specs.Memory.Server.{holding_of};
ghost use Rattle.tw_server.specs.Memory.Script.{AllFit, OthersFit, others_at, fate_at, step_fits};
ghost use Rattle.std.specs.List.{list_all};

use crate::memory::server::MemoryServer;
use std::alloc::Global;
use tw_http::{Bytes, Request};
use tw_world::Memory;
use uuid::Uuid;

/// What becomes of an exchange.
#[derive(Clone, Copy, Debug, PartialEq, Eq, Drop)]
pub enum Fate {
    /// The request and its reply arrive.
    Deliver,
    /// The request does not arrive.
    LoseRequest,
    /// The request arrives, and its reply does not.
    LoseReply,
}

/// What happens at an exchange.
#[derive(Drop)]
pub struct LinkStep {
    /// The segments that other clients add to the chain before it.
    pub others: Vec<Vec<u8>>,
    pub fate: Fate,
}

/// The most bytes of a segment.
const MAX_SEGMENT: usize = 16_777_216;

// Whether each segment of a step fits a body.
fn step_fits(step: &LinkStep) -> bool
    ensures { result ≡ step_fits step.now }
{
    step.others
        .iter()
        .all(|segment| segment.len() <= MAX_SEGMENT)
}

/// Whether each segment of a script fits a body.
pub(crate) fn script_fits(script: &Vec<LinkStep>) -> bool
    ensures { result ≡ list_all step_fits script.now.items }
{
    script.iter().all(|step| step_fits(step))
}

pub(crate) fn fate_at(script: &Vec<LinkStep>, number: usize) -> Fate
    ensures { result ≡ fate_at script.now.items number }
{
    match script.get(number) {
        Some(step) => step.fate,
        None => Fate::Deliver,
    }
}

// Adds what others add before an exchange.
pub(crate) fn add_step(
    server: &mut MemoryServer,
    alloc: Global,
    client: Uuid,
    script: &Vec<LinkStep>,
    number: usize,
) -> Result<(), Memory>
    requires { OthersFit script.now.items }
    ensures added { OnOk result (holding_of server.new ≡ after_others client (holding_of server.old) (others_at script.now.items number)) }
    ensures part { OnErr result (AfterSome client (holding_of server.old) (holding_of server.new) (others_at script.now.items number)) }
{
    match script.get(number) {
        Some(step) => add_others(server, alloc, client, &step.others),
        None => Ok(()),
    }
}

fn add_others(
    server: &mut MemoryServer,
    alloc: Global,
    client: Uuid,
    segments: &Vec<Vec<u8>>,
) -> Result<(), Memory>
    requires { AllFit (map (λ v. v.items) segments.now.items) }
    ensures added { OnOk result (holding_of server.new ≡ after_others client (holding_of server.old) (map (λ v. v.items) segments.now.items)) }
    ensures part { OnErr result (AfterSome client (holding_of server.old) (holding_of server.new) (map (λ v. v.items) segments.now.items)) }
{
    for segment in segments {
        add_other(server, alloc, client, segment.as_slice())?;
    }
    Ok(())
}

fn add_other(
    server: &mut MemoryServer,
    alloc: Global,
    client: Uuid,
    segment: &[u8],
) -> Result<(), Memory>
    requires { length segment.now ≤ max_body }
    ensures added { OnOk result (holding_of server.new ≡ after_other client (holding_of server.old) segment.now) }
    ensures refused { OnErr result (holding_of server.new ≡ holding_of server.old) }
{
    let parent = server.latest(client);
    let segment = Bytes::from_slice(alloc, segment)?;
    let request = Request::Add {
        client,
        parent,
        segment,
    };
    server.answer(alloc, request, false)?;
    Ok(())
}
