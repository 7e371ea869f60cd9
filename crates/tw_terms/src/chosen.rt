// Rows as a set.
ghost use Rattle.std.specs.Prelude.{◌≡◌, List, ℕ, IfOk};
ghost use Rattle.std.specs.BTreeSet as set;
ghost use Rattle.std.specs.List.{list_any};
ghost use Rattle.tw_model.specs.Maps.{bytes_cmp, same_bytes};

use std::alloc::Global;
use std::collections::BTreeSet;
use tw_world::Memory;
use uuid::Uuid;

/// The rows as a set. Whether a task is among them is one look-up, so a text over many rows takes n log n looks.
pub fn chosen_of(alloc: Global, rows: &Vec<Uuid>) -> Result<BTreeSet<Uuid>, Memory>
    ensures { IfOk result (λ chosen. (u : List ℕ) → set.contains bytes_cmp chosen u ≡ list_any (same_bytes u) rows.now.items) }
{
    let mut chosen = BTreeSet::new(alloc);
    for uuid in rows {
        let _ = chosen.insert(*uuid)?;
    }
    Ok(chosen)
}
