// What may come after what a server knows.
ghost use Rattle.std.specs.Prelude.{◌≡◌, ◌<◌, if◌then◌else◌, Some, None};
ghost use Rattle.tw_world.specs.Bytes.{IsBytes};
ghost use Rattle.tw_records.specs.Log.{Log, IsSound};
ghost use Rattle.tw_records.specs.Bodies.{block_size, follows, is_next_entry, entry_of, accepted_in, is_stored, image_of, snapshot_in};
ghost use Rattle.tw_server.specs.Opening.{named_next};
ghost use Rattle.tw_server.specs.Server.{Knows};

use crate::server::Server;
use tw_records::{Entry, Image, entry_at, is_block_body, read_entry, read_image};
use uuid::Uuid;

impl Server {
    // The version of a body, or of its front, if it may come after what is known.
    pub(crate) fn next_entry(&self, front: &[u8]) -> Option<Entry>
        ensures next { (log : Log) → Knows self.now log
            → result ≡ (if follows log.versions front.now then Some (entry_of (accepted_in front.now)) else None) }
        ensures bytes { IsBytes front.now }
    {
        match read_entry(front) {
            Some(entry) => self.if_next(entry),
            None => None,
        }
    }

    // The version at a place of a block, if the block is whole and the version may come after what is known.
    pub(crate) fn next_named(&self, block: &[u8], place: usize) -> Option<Entry>
        requires { place < block_size }
        ensures next { (log : Log) → Knows self.now log → result ≡ named_next log.versions block.now place }
        ensures bytes { IsBytes block.now }
    {
        if !is_block_body(block) {
            return None;
        }
        self.if_next(entry_at(block, place))
    }

    fn if_next(&self, entry: Entry) -> Option<Entry>
        ensures { (log : Log) → Knows self.now log → result ≡ (if is_next_entry log.versions entry then Some entry else None) }
    {
        if self.may_follow(&entry) {
            Some(entry)
        } else {
            None
        }
    }

    // Whether a version may come after those that are known.
    fn may_follow(&self, entry: &Entry) -> bool
        ensures { (log : Log) → Knows self.now log → result ≡ is_next_entry log.versions entry.now }
    {
        if entry.id == Uuid::nil() {
            return false;
        }
        if self.has_id(entry.client, entry.id) {
            return false;
        }
        self.latest(entry.client) == entry.parent
    }

    // The snapshot of a body, or of its front, if it may come after what is known.
    pub(crate) fn next_image(&self, front: &[u8]) -> Option<Image>
        ensures { (log : Log) → Knows self.now log → IsSound log.versions
            → result ≡ (if is_stored log front.now then Some (image_of (snapshot_in front.now)) else None) }
    {
        match read_image(front) {
            Some(image) => {
                if self.is_welcome(image.client, image.version) {
                    Some(image)
                } else {
                    None
                }
            }
            None => None,
        }
    }
}
