// Names, and how often each was seen.
ghost use Rattle.std.specs.Prelude.{◌≡◌, ◌++◌, ◌∷◌, [], T, IfOk, OnOk};
ghost use Rattle.std.specs.FinMap as map;
ghost use Rattle.tw_model.specs.Maps.{bytes_cmp};
ghost use Rattle.tw_report.specs.Texts.{one_more, counted, count_lines};

use std::alloc::Global;
use std::collections::BTreeMap;
use std::marker::Model;
use tw_world::{Memory, Text};

/// How often each name was seen.
#[derive(Drop)]
pub(crate) struct Counts {
    entries: BTreeMap<Text, u64>,
}

impl Model for Counts {
    ghost use Rattle.std.specs.Prelude.{List, ℕ, T};
    ghost use Rattle.std.specs.FinMap as map;
    ghost use Rattle.std.specs.Coded.{coded_ℕ, coded_list};
    ghost use Rattle.tw_model.specs.Maps.{bytes_cmp};

    ghost Value = { map.FinMap bytes_cmp ℕ };

    ghost coded = { map.code (coded_list coded_ℕ) coded_ℕ };

    ghost view = { λ a. map.from_sorted a.entries.entries };

    ghost invariant = { λ a. T (map.is_sorted bytes_cmp a.entries.entries) };
}

impl Counts {
    pub(crate) fn new(alloc: Global) -> Counts
        ensures { result ≡ map.empty }
    {
        Counts {
            entries: BTreeMap::new(alloc),
        }
    }

    /// Counts a name once more.
    pub(crate) fn add(&mut self, alloc: Global, name: &str) -> Result<(), Memory>
        ensures { OnOk result (self.new ≡ counted self.old name.now) }
    {
        add_entry(&mut self.entries, Text::from_str(alloc, name)?)
    }

    /// A line for each name, in byte order.
    pub(crate) fn lines(&self, alloc: Global) -> Result<Vec<u8>, Memory>
        ensures { IfOk result (λ text. text.items ≡ count_lines (map.entries self.now)) }
    {
        lines_of(alloc, &self.entries)
    }
}

fn add_entry(entries: &mut BTreeMap<Text, u64>, name: Text) -> Result<(), Memory>
    requires { T (map.is_sorted bytes_cmp entries.old.entries) }
    ensures sorted { T (map.is_sorted bytes_cmp entries.new.entries) }
    ensures ok { OnOk result (map.from_sorted {R = bytes_cmp} entries.new.entries ≡ counted (map.from_sorted entries.old.entries) name) }
{
    let count = one_more(entries.get(&name).copied())?;
    let _ = entries.insert(name, count)?;
    Ok(())
}

// A count with one more. One that no number holds is more than memory has.
fn one_more(count: Option<u64>) -> Result<u64, Memory>
    ensures { IfOk result (λ n. n ≡ one_more count) }
{
    match count {
        Some(n) => n.checked_add(1).ok_or(Memory),
        None => Ok(1),
    }
}

fn lines_of(alloc: Global, entries: &BTreeMap<Text, u64>) -> Result<Vec<u8>, Memory>
    ensures { IfOk result (λ text. text.items ≡ count_lines entries.now.entries) }
{
    let mut text = Vec::new(alloc);
    for (name, count) in entries {
        push_count(alloc, &mut text, name.as_str(), *count)?;
    }
    Ok(text)
}

fn push_count(alloc: Global, text: &mut Vec<u8>, name: &str, count: u64) -> Result<(), Memory>
    ensures { OnOk result (text.new.items ≡ text.old.items ++ count_lines ((name.now, count) ∷ [])) }
{
    let line = format!(in alloc; "{name} {count}\n")?;
    text.extend_from_slice(line.as_str().as_bytes())?;
    Ok(())
}
