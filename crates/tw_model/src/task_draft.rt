// A task that is being made.
ghost use Rattle.std.specs.Prelude.{◌≡◌, T, is_some, IfOk, OnOk};
ghost use Rattle.std.specs.FinMap as map;
ghost use Rattle.tw_model.specs.Maps.{bytes_cmp, map_of};

use crate::TaskMap;
use std::alloc::Global;
use std::collections::BTreeMap;
use std::marker::Model;
use tw_world::{Memory, Text};

/// A task that is being made. Its properties come in any order, each in a time that grows with the logarithm of their number.
#[derive(Drop)]
pub struct TaskDraft {
    entries: BTreeMap<Text, Text>,
}

impl Model for TaskDraft {
    ghost use Rattle.std.specs.Prelude.{List, ℕ, T};
    ghost use Rattle.std.specs.FinMap as map;
    ghost use Rattle.std.specs.Coded.{coded_ℕ, coded_list};
    ghost use Rattle.tw_model.specs.Maps.{bytes_cmp};

    ghost Value = { map.FinMap bytes_cmp (List ℕ) };

    ghost coded = { map.code (coded_list coded_ℕ) (coded_list coded_ℕ) };

    ghost view = { λ a. map.from_sorted a.entries.entries };

    ghost invariant = { λ a. T (map.is_sorted bytes_cmp a.entries.entries) };
}

impl TaskDraft {
    /// A task without properties.
    pub fn new(alloc: Global) -> TaskDraft
        ensures { result ≡ map.empty }
    {
        TaskDraft {
            entries: BTreeMap::new(alloc),
        }
    }

    /// How many properties it has.
    pub fn len(&self) -> u64
        ensures { result ≡ map.len self.now }
    {
        self.entries.len() as u64
    }

    /// Whether it has a property.
    pub fn has(&self, name: &Text) -> bool
        ensures { result ≡ is_some (map.get self.now name.now) }
    {
        self.entries.contains_key(name)
    }

    /// Sets a property.
    pub fn put(&mut self, alloc: Global, name: &str, value: &str) -> Result<(), Memory>
        ensures { OnOk result (self.new ≡ map.insert self.old name.now value.now) }
    {
        let name = Text::from_str(alloc, name)?;
        let value = Text::from_str(alloc, value)?;
        self.put_text(name, value)
    }

    /// Sets a property to a value, both of which it takes.
    pub fn put_text(&mut self, name: Text, value: Text) -> Result<(), Memory>
        ensures { OnOk result (self.new ≡ map.insert self.old name value) }
    {
        put_entry(&mut self.entries, name, value)
    }

    /// The task.
    pub fn into_task(self, alloc: Global) -> Result<TaskMap, Memory>
        ensures { IfOk result (λ task. task ≡ self) }
    {
        let pairs = pairs_of(alloc, self.entries)?;
        Ok(TaskMap::from_pairs(pairs).unwrap())
    }
}

fn put_entry(entries: &mut BTreeMap<Text, Text>, key: Text, value: Text) -> Result<(), Memory>
    requires { T (map.is_sorted bytes_cmp entries.old.entries) }
    ensures sorted { T (map.is_sorted bytes_cmp entries.new.entries) }
    ensures ok { OnOk result (map_of entries.new.entries ≡ map.insert (map_of entries.old.entries) key value) }
{
    let _ = entries.insert(key, value)?;
    Ok(())
}

// The entries of a map, which lets go of each as it is taken.
fn pairs_of(alloc: Global, entries: BTreeMap<Text, Text>) -> Result<Vec<(Text, Text)>, Memory>
    ensures { IfOk result (λ pairs. pairs.items ≡ entries.entries) }
{
    let mut pairs = Vec::with_capacity(alloc, entries.len())?;
    for entry in entries {
        pairs.push(entry)?;
    }
    Ok(pairs)
}
