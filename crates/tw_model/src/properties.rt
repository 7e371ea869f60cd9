// The properties of a task with their values, as a list in byte order.
ghost use Rattle.std.specs.Prelude.{◌≡◌, ◌<◌, T, IfOk, IfErr, OnOk, OnErr, length};
ghost use lib.Pointwise.{pointwise};
ghost use Rattle.std.specs.Option.{option_copied};
ghost use Rattle.std.specs.Ordering.{is_lt};
ghost use Rattle.std.specs.FinMap as map;
ghost use Rattle.std.specs.FinMap.Entries.{put};
ghost use Rattle.tw_model.specs.Maps.{bytes_cmp, same_bytes, set_at, map_of, without_key, IsFoundAt, IsGap, OfItsKey};
ghost use Rattle.tw_model.specs.LocalOps.{same_property};

use std::alloc::Global;
use std::cmp::Ordering;
use tw_world::{Memory, Text};

pub(crate) fn rises(pairs: &Vec<(Text, Text)>) -> bool
    ensures { result ≡ map.is_sorted bytes_cmp pairs.now.items }
{
    let mut at = pairs.len();
    while at > 1 {
        at -= 1;
        if !is_before(&pairs[at - 1], &pairs[at]) {
            return false;
        }
    }
    true
}

fn is_before(a: &(Text, Text), b: &(Text, Text)) -> bool
    ensures { result ≡ is_lt (bytes_cmp a.now.0 b.now.0) }
{
    a.0.as_str().cmp(&b.0.as_str()) == Ordering::Less
}

// Where the property is among entries whose properties rise, or would go.
#[tactic(auto, using(crate::proofs::Sorted::search_steps))]
pub(crate) fn property_place(entries: &Vec<(Text, Text)>, property: &str) -> Result<usize, usize>
    requires { T (map.is_sorted bytes_cmp entries.now.items) }
    ensures found { IfOk result (IsFoundAt entries.now.items property.now) }
    ensures absent { IfErr result (IsGap property.now entries.now.items) }
{
    let mut low = 0;
    let mut high = entries.len();
    while low < high {
        let middle = low + (high - low) / 2;
        match compare_property(&entries[middle], property) {
            Ordering::Less => low = middle + 1,
            Ordering::Equal => return Ok(middle),
            Ordering::Greater => high = middle,
        }
    }
    Err(low)
}

fn compare_property(entry: &(Text, Text), property: &str) -> Ordering
    ensures { result ≡ bytes_cmp entry.now.0 property.now }
{
    entry.0.as_str().cmp(&property)
}

// The value at the place where a property is.
pub(crate) fn value_there(entries: &Vec<(Text, Text)>, place: Result<usize, usize>) -> Option<&str>
    requires { IfOk place (λ at. at < length entries.now.items) }
    ensures { OfItsKey entries.now.items place (λ property. option_copied result ≡ map.get (map_of entries.now.items) property) }
{
    match place {
        Ok(place) => {
            let entry = &entries[place];
            Some(entry.1.as_str())
        }
        Err(_) => None,
    }
}

// Sets the property whose place this is, or removes it if `value` is `None`.
pub(crate) fn put_there(
    entries: &mut Vec<(Text, Text)>,
    alloc: Global,
    place: Result<usize, usize>,
    property: &str,
    value: Option<&str>,
) -> Result<(), Memory>
    requires sorted { T (map.is_sorted bytes_cmp entries.old.items) }
    requires found { IfOk place (IsFoundAt entries.old.items property.now) }
    requires absent { IfErr place (IsGap property.now entries.old.items) }
    ensures sorted { T (map.is_sorted bytes_cmp entries.new.items) }
    ensures ok { OnOk result (map_of entries.new.items ≡ set_at (map_of entries.old.items) property.now (option_copied value.entry)) }
    ensures err { OnErr result (entries.new.items ≡ entries.old.items) }
{
    match value {
        Some(value) => put_property(entries, alloc, place, property, value),
        None => {
            remove_property(entries, place);
            Ok(())
        }
    }
}

fn put_property(
    entries: &mut Vec<(Text, Text)>,
    alloc: Global,
    place: Result<usize, usize>,
    property: &str,
    value: &str,
) -> Result<(), Memory>
    requires sorted { T (map.is_sorted bytes_cmp entries.old.items) }
    requires found { IfOk place (IsFoundAt entries.old.items property.now) }
    requires absent { IfErr place (IsGap property.now entries.old.items) }
    ensures sorted { T (map.is_sorted bytes_cmp entries.new.items) }
    ensures ok { OnOk result (entries.new.items ≡ put bytes_cmp property.now value.now entries.old.items) }
    ensures err { OnErr result (entries.new.items ≡ entries.old.items) }
{
    let value = Text::from_str(alloc, value)?;
    match place {
        Ok(place) => {
            let entry = &mut entries[place];
            entry.1 = value;
            Ok(())
        }
        Err(place) => {
            let name = Text::from_str(alloc, property)?;
            entries.insert(place, (name, value))?;
            Ok(())
        }
    }
}

fn remove_property(entries: &mut Vec<(Text, Text)>, place: Result<usize, usize>)
    requires { IfOk place (λ at. at < length entries.old.items) }
    ensures { OfItsKey entries.old.items place (λ property. entries.new.items ≡ without_key property entries.old.items) }
{
    match place {
        Ok(place) => {
            let _ = entries.remove(place);
        }
        Err(_) => {}
    }
}

pub(crate) fn copy_properties(
    alloc: Global,
    entries: &Vec<(Text, Text)>,
) -> Result<Vec<(Text, Text)>, Memory>
    ensures { IfOk result (λ copies. copies.items ≡ entries.now.items) }
{
    let mut copies = Vec::with_capacity(alloc, entries.len())?;
    for entry in entries {
        copies.push((entry.0.copy(alloc)?, entry.1.copy(alloc)?))?;
    }
    Ok(copies)
}

pub(crate) fn is_same_list(a: &Vec<(Text, Text)>, b: &Vec<(Text, Text)>) -> bool
    ensures { result ≡ pointwise same_property a.now.items b.now.items }
{
    if a.len() != b.len() {
        return false;
    }
    for i in 0..a.len() {
        if !is_same_property(&a[i], &b[i]) {
            return false;
        }
    }
    true
}

fn is_same_property(a: &(Text, Text), b: &(Text, Text)) -> bool
    ensures { result ≡ same_property a.now b.now }
{
    is_same_text(&a.0, &b.0) && is_same_text(&a.1, &b.1)
}

fn is_same_text(a: &Text, b: &Text) -> bool
    ensures { result ≡ same_bytes a.now b.now }
{
    a.as_str() == b.as_str()
}
