// What memory has of a stored snapshot, and the body of its record.
ghost use Rattle.std.specs.Prelude.{◌≡◌, ◌+◌, length, IfOk};
ghost use Rattle.tw_records.specs.Bodies.{image_in, snapshot_body, snapshot_for};

use crate::kind::is_kind;
use std::alloc::Global;
use tw_fields::{put_uuid, uuid_from};
use tw_world::Memory;
use uuid::Uuid;

/// A stored snapshot without its bytes, which are in its record.
#[derive(Clone, Copy)]
pub struct Image {
    pub client: Uuid,
    pub version: Uuid,
}

/// Before the bytes of a snapshot a body has its kind and two uuids.
pub const BEFORE_BYTES: usize = 33;

/// The body of the record of a stored snapshot.
pub fn snapshot_body(alloc: Global, image: &Image, bytes: &[u8]) -> Result<Vec<u8>, Memory>
    ensures items { IfOk result (λ body. body.items ≡ snapshot_body (snapshot_for image.now bytes.now)) }
    ensures long { IfOk result (λ body. length body.items ≡ length bytes.now + 33) }
{
    let mut body = Vec::with_capacity(alloc, bytes.len().saturating_add(BEFORE_BYTES))?;
    body.push(3)?;
    put_uuid(&mut body, &image.client)?;
    put_uuid(&mut body, &image.version)?;
    body.extend_from_slice(bytes)?;
    Ok(body)
}

/// The snapshot of a body, if it is a body of a stored snapshot. The first 33 bytes decide it.
pub fn read_image(body: &[u8]) -> Option<Image>
    ensures { result ≡ image_in body.now }
{
    if body.len() < BEFORE_BYTES || !is_kind(3, body) {
        return None;
    }
    Some(Image {
        client: uuid_from(body, 1),
        version: uuid_from(body, 17),
    })
}
