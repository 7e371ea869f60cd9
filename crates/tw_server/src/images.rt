// The stored snapshots in memory: of each client the last one.
ghost use Rattle.std.specs.Prelude.{◌≡◌, Option, None, Some, List, ℕ, cond, IsSome, OnOk};
ghost use Rattle.std.specs.Ordering.{is_eq};
ghost use Rattle.std.specs.BTreeMap.{get};
ghost use Rattle.tw_server.specs.Versions.{image_at, uuid_cmp};

use std::alloc::{AllocError, Global};
use std::collections::BTreeMap;
use uuid::Uuid;

/// A client's stored snapshot: its version, and the number of its record.
#[derive(Clone, Copy)]
pub struct Placed {
    pub version: Uuid,
    pub number: u64,
}

/// The last snapshot of each client. The map also has a key of a client for which room was made.
pub struct Images {
    map: BTreeMap<Uuid, Option<Placed>>,
}

// It is written out, so that a caller does not prove again how each part is dropped.
impl Drop for Images {
    fn drop(self) {
        let Images { map: _ } = self;
    }
}

impl Images {
    pub fn new(alloc: Global) -> Images
        ensures { (client : List ℕ) → image_at result client ≡ None }
    {
        Images {
            map: BTreeMap::new(alloc),
        }
    }

    pub fn get(&self, client: Uuid) -> Option<Placed>
        ensures { result ≡ image_at self.now client }
    {
        self.map.get(&client).copied().unwrap_or(None)
    }

    /// Makes room for a client's snapshot. The snapshots are the same whether there is memory for it or not.
    pub fn make_room(&mut self, client: Uuid) -> Result<(), AllocError>
        ensures same { (q : List ℕ) → image_at self.new q ≡ image_at self.old q }
        ensures room { OnOk result (IsSome (get uuid_cmp self.new.map client)) }
    {
        if !self.map.contains_key(&client) {
            self.map.insert(client, None)?;
        }
        Ok(())
    }

    /// Puts a snapshot for which there is room, in place of the client's last one.
    pub fn put(&mut self, client: Uuid, placed: Placed)
        requires { IsSome (get uuid_cmp self.old.map client) }
        ensures { (q : List ℕ) → image_at self.new q ≡ cond (is_eq (uuid_cmp client q)) (Some placed) (image_at self.old q) }
    {
        let _ = self.map.insert(client, Some(placed));
    }
}
