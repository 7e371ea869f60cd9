// Finds entries by a uuid of theirs, in little memory.
ghost use Rattle.std.specs.Prelude.{◌≡◌, ◌<◌, ◌≤◌, ◌+◌, ◌++◌, ◌∷◌, [], ◌^◌, ℕ, List, length, slice_index_or, vec_capacity, OnOk};
ghost use Rattle.tw_server.specs.Index.{HasIndexRoom, IsIndexOf, bucket_of, key_of, keys_of};

use std::alloc::{AllocError, Global};
use tw_records::Entry;
use uuid::Uuid;

/// The numbers of entries by their ids, or by their parents. That uuid gives an entry its bucket. Of each bucket the last
/// entry is held, and of each entry the one before it in its bucket: as one more than its number, or 0. So an entry takes
/// at most 6 bytes, and a bucket has four entries at most on average. Ids are drawn, so that nobody can fill one bucket.
pub struct Index {
    ends: Vec<u32>,
    before: Vec<u32>,
}

/// So many entries have a number of 32 bits.
const MOST: usize = 0xffff_ffff;

// It is written out, so that a caller does not prove again how each part is dropped.
impl Drop for Index {
    fn drop(self) {
        let Index { ends: _, before: _ } = self;
    }
}

impl Index {
    pub fn new(alloc: Global) -> Index
        ensures { IsIndexOf result [] }
    {
        Index {
            ends: Vec::new(alloc),
            before: Vec::new(alloc),
        }
    }

    /// One more than the number of the last entry in the bucket of a uuid, or 0.
    pub fn last(&self, key: Uuid) -> usize
        ensures { result ≡ slice_index_or self.now.ends.items (bucket_of (length self.now.ends.items) key) 0 }
    {
        if self.ends.is_empty() {
            return 0;
        }
        self.ends[bucket_of(self.ends.len(), key)] as usize
    }

    /// One more than the number of the entry before this one in its bucket, or 0.
    pub fn before(&self, n: usize) -> usize
        requires { n < length self.now.before.items }
        ensures { result ≡ slice_index_or self.now.before.items n 0 }
    {
        self.before[n] as usize
    }

    /// Makes room for an entry. The index is of the same entries whether there is memory for it or not. More entries than
    /// have a number of 32 bits count as want of memory.
    pub fn make_room(&mut self, by_parent: bool, entries: &[Entry]) -> Result<(), AllocError>
        requires { IsIndexOf self.old (keys_of by_parent entries.now) }
        ensures same { IsIndexOf self.new (keys_of by_parent entries.now) }
        ensures room { OnOk result (HasIndexRoom self.new) }
    {
        if MOST <= entries.len() {
            return Err(AllocError);
        }
        self.before.reserve(1)?;
        if entries.len() < self.ends.len().saturating_mul(4) {
            return Ok(());
        }
        self.ends.resize((entries.len() / 2).saturating_add(16), 0)?;
        self.fill_again(by_parent, entries);
        Ok(())
    }

    // Puts all entries into their buckets again, once there are more buckets.
    fn fill_again(&mut self, by_parent: bool, entries: &[Entry])
        requires some { 0 < length self.old.ends.items }
        requires spare { length entries.now + 1 ≤ vec_capacity self.old.before }
        requires few { length entries.now + 1 < 2 ^ 32 }
        ensures index { IsIndexOf self.new (keys_of by_parent entries.now) }
        ensures ends { length self.new.ends.items ≡ length self.old.ends.items }
        ensures capacity { vec_capacity self.new.before ≡ vec_capacity self.old.before }
    {
        self.ends.fill(0);
        self.before.clear();
        for entry in entries {
            self.push(key_of(by_parent, entry));
        }
    }

    /// Adds an entry for which there is room.
    pub fn push(&mut self, key: Uuid)
        requires { HasIndexRoom self.old }
        ensures index { (keys : List (List ℕ)) → IsIndexOf self.old keys → IsIndexOf self.new (keys ++ key ∷ []) }
        ensures ends { length self.new.ends.items ≡ length self.old.ends.items }
        ensures length { length self.new.before.items ≡ length self.old.before.items + 1 }
        ensures capacity { vec_capacity self.new.before ≡ vec_capacity self.old.before }
    {
        let bucket = bucket_of(self.ends.len(), key);
        let number = self.before.len() + 1;
        self.before.push_reserved(self.ends[bucket]);
        self.ends[bucket] = number as u32;
    }
}

fn bucket_of(size: usize, key: Uuid) -> usize
    requires { 0 < size }
    ensures is { result ≡ bucket_of size key }
    ensures inside { result < size }
{
    (key.as_u128() % size as u128) as usize
}

/// The uuid by which an entry is found: its parent, or its id.
pub fn key_of(by_parent: bool, entry: &Entry) -> Uuid
    ensures { result ≡ key_of by_parent entry.now }
{
    if by_parent { entry.parent } else { entry.id }
}
