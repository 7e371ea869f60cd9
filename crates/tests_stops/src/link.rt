// The way from a user's machines to their server.

use std::alloc::Global;
use std::test::Fail;
use tw_server::{Fate, LinkStep, MemoryLink};
use tw_world::IdWords;
use uuid::Uuid;

const CLIENT: [u8; 16] = [
    0x1a, 0x2b, 0x3c, 0x4d, 0x00, 0x01, 0x40, 0x02, 0x80, 0x03, 0x00, 0x00, 0x00, 0x00, 0x00, 0x0f,
];

// A link of the user's client, over which this happens.
fn link(alloc: Global, script: Vec<LinkStep>) -> Result<MemoryLink, Fail> {
    if !MemoryLink::takes(&script) {
        return Err(Fail::new("a segment of others is too long"));
    }
    let ids = IdWords { start: 1, step: 1 };
    Ok(MemoryLink::new(alloc, Uuid::from_bytes(CLIENT), ids, script)?)
}

// An exchange before which others add these segments, and that ends so.
fn step(alloc: Global, exchange: &Exchange) -> Result<LinkStep, Fail> {
    let (others, fate) = *exchange;
    let mut segments = Vec::new(alloc);
    for segment in others {
        segments.push(segment.as_bytes().to_vec(alloc)?)?;
    }
    Ok(LinkStep {
        others: segments,
        fate,
    })
}

/// What others add before an exchange, and what becomes of it.
pub(crate) type Exchange = (&'static [&'static str], Fate);

/// A link over which these exchanges happen, and then others that arrive.
pub(crate) fn link_over(alloc: Global, exchanges: &[Exchange]) -> Result<MemoryLink, Fail> {
    let mut script = Vec::new(alloc);
    for exchange in exchanges {
        script.push(step(alloc, exchange)?)?;
    }
    link(alloc, script)
}
