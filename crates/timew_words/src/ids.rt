// The ids of intervals.
ghost use Rattle.std.specs.Prelude.{[], ◌∷◌, ◌++◌, ◌≡◌, OnOk};

use std::alloc::Global;
use std::marker::Model;
use tw_world::Memory;

/// Ids of intervals, seen as a list of them, as they were given.
#[derive(Drop)]
pub struct Ids {
    items: Vec<u64>,
}

impl Model for Ids {
    ghost use Rattle.std.specs.Prelude.{List, ℕ};

    ghost Value = { List ℕ };

    ghost view = { λ ids. ids.items.items };
}

impl Ids {
    pub fn new(alloc: Global) -> Ids
        ensures { result ≡ [] }
    {
        Ids {
            items: Vec::new(alloc),
        }
    }

    pub fn as_slice(&self) -> &[u64]
        ensures { result.now ≡ self.now }
    {
        &self.items
    }

    /// Adds an id at the end.
    pub fn push(&mut self, id: u64) -> Result<(), Memory>
        ensures { OnOk result (self.new ≡ self.old ++ id ∷ []) }
    {
        self.items.push(id)?;
        Ok(())
    }
}
