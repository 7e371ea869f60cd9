// The body of a block.
ghost use Rattle.std.specs.Prelude.{◌≡◌, ◌≤◌, ◌+◌, ◌*◌, ◌++◌, length, flat_map, OnOk, IfOk};
ghost use Rattle.tw_records.specs.Bodies.{block_size, named, block_of};
ghost use Rattle.tw_records.specs.Table.{is_block_body, entry_at};

use crate::entry::Entry;
use crate::kind::is_kind;
use std::alloc::Global;
use tw_fields::{put_uuid, uuid_from};
use tw_world::Memory;
use uuid::Uuid;

/// The body of a block of these versions: the kind 2, and the three uuids of each version.
pub fn block_of(alloc: Global, entries: &[Entry]) -> Result<Vec<u8>, Memory>
    ensures items { IfOk result (λ body. body.items ≡ block_of entries.now) }
    ensures long { IfOk result (λ body. length body.items ≡ 1 + 48 * length entries.now) }
{
    let mut body = Vec::with_capacity(alloc, entries.len().saturating_mul(48).saturating_add(1))?;
    body.push(2)?;
    put_entries(&mut body, entries)?;
    Ok(body)
}

fn put_entries(body: &mut Vec<u8>, entries: &[Entry]) -> Result<(), Memory>
    ensures items { OnOk result (body.new.items ≡ body.old.items ++ flat_map named entries.now) }
    ensures long { OnOk result (length body.new.items ≡ length body.old.items + 48 * length entries.now) }
{
    for entry in entries {
        put_entry(body, entry)?;
    }
    Ok(())
}

fn put_entry(body: &mut Vec<u8>, entry: &Entry) -> Result<(), Memory>
    ensures items { OnOk result (body.new.items ≡ body.old.items ++ named entry.now) }
    ensures long { OnOk result (length body.new.items ≡ length body.old.items + 48) }
{
    put_uuid(body, &entry.client)?;
    put_uuid(body, &entry.id)?;
    put_uuid(body, &entry.parent)
}

/// Whether bytes have the kind and the length of a block.
pub fn is_block_body(body: &[u8]) -> bool
    ensures { result ≡ is_block_body block_size body.now }
{
    is_kind(2, body) && body.len() == 12_289
}

/// The version at a place of a block's body.
pub fn entry_at(body: &[u8], place: usize) -> Entry
    requires { 49 + 48 * place ≤ length body.now }
    ensures { result ≡ entry_at place body.now }
{
    let at = 48 * place;
    Entry {
        client: uuid_from(body, 1 + at),
        id: uuid_from(body, 17 + at),
        parent: uuid_from(body, 33 + at),
    }
}
