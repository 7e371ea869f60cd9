// The numbers of all tasks at once.
ghost use Rattle.std.specs.Prelude.{◌≡◌, ℕ, List, cond, Some, IfOk, OnOk};
ghost use Rattle.std.specs.BTreeMap as tree;
ghost use Rattle.tw_model.specs.Maps.{bytes_cmp};
ghost use Rattle.tw_model.specs.Places.{has_uuid};
ghost use Rattle.tw_terms.specs.Indexes.{IsIds};

use std::alloc::Global;
use std::collections::BTreeMap;
use tw_world::Memory;
use uuid::Uuid;

fn put_id(ids: &mut BTreeMap<Uuid, u64>, place: &Option<Uuid>, id: u64) -> Result<(), Memory>
    ensures { OnOk result ((u : List ℕ) → tree.get bytes_cmp ids.new u ≡ cond (has_uuid u place.now) (Some id) (tree.get bytes_cmp ids.old u)) }
{
    if let Some(uuid) = place {
        ids.insert(*uuid, id)?;
    }
    Ok(())
}

/// The number of each task that has one, by one look at each place; `tw_model::id_of` looks through the places for one task. A
/// uuid in two places has the first number.
pub fn all_ids(alloc: Global, numbers: &Vec<Option<Uuid>>) -> Result<BTreeMap<Uuid, u64>, Memory>
    ensures { IfOk result (λ ids. IsIds ids numbers.now.items) }
{
    let mut ids = BTreeMap::new(alloc);
    let mut at = numbers.len();
    while at > 0 {
        at -= 1;
        put_id(&mut ids, &numbers[at], at as u64 + 1)?;
    }
    Ok(ids)
}
