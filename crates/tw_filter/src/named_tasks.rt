// The tasks that numbers and uuids name.
ghost use Rattle.std.specs.Prelude.{◌≡◌, ◌<◌, ◌+◌, ◌-◌, ◌||◌, ◌&&◌, nat_le, List, ℕ, cond, length, filter, is_some, true, false, slice_index_or, IfOk, OnOk};
ghost use Rattle.std.specs.BTreeSet as set;
ghost use Rattle.std.specs.List.{list_any};
ghost use Rattle.std.specs.List.Sorted.{IsStrictlySortedBy};
ghost use Rattle.std.specs.FinMap as map;
ghost use Rattle.tw_model.specs.Maps.{bytes_cmp};
ghost use Rattle.tw_model.specs.Places.{has_uuid, id_of};
ghost use Rattle.tw_urgency.specs.Dependencies.{is_that};
ghost use Rattle.tw_terms.specs.Tokens.{is_name};
ghost use Rattle.tw_terms.specs.Scenes.{scene_of};
ghost use Rattle.tw_terms.specs.Holds.{passes};
ghost use Rattle.tw_filter.specs.Selected.{are_names, selected};
ghost use Rattle.tw_filter.specs.NamedTasks.{names_number, uuid_in, names, AreFlags};

use std::alloc::Global;
use std::collections::BTreeSet;
use tw_model::Tasks;
use tw_terms::{Name, Token, View};
use tw_world::Memory;
use uuid::Uuid;

fn is_name(token: &Token) -> bool
    ensures { result ≡ is_name token.now }
{
    matches!(token, Token::Named(_))
}

/// Whether tokens are names alone, and there is one.
pub(crate) fn are_names(tokens: &[Token]) -> bool
    ensures { result ≡ are_names tokens.now }
{
    for token in tokens {
        if !is_name(token) {
            return false;
        }
    }
    !tokens.is_empty()
}

// Sets the flags of the places that these numbers count.
fn set_flags(flags: &mut Vec<bool>, first: u64, last: u64)
    ensures as_many { length flags.new.items ≡ length flags.old.items }
    ensures set { (k : ℕ) → k < length flags.old.items → slice_index_or flags.new.items k false
        ≡ (slice_index_or flags.old.items k false || (nat_le first (k + 1) && nat_le (k + 1) last)) }
{
    let end = last.min(flags.len() as u64) as usize;
    let mut at = first.saturating_sub(1) as usize;
    while at < end {
        flags[at] = true;
        at += 1;
    }
}

// Sets the flags of the places whose numbers a token names.
fn set_by(flags: &mut Vec<bool>, token: &Token)
    ensures as_many { length flags.new.items ≡ length flags.old.items }
    ensures set { (k : ℕ) → k < length flags.old.items → slice_index_or flags.new.items k false
        ≡ (slice_index_or flags.old.items k false || names_number (k + 1) token.now) }
{
    match token {
        Token::Named(Name::Numbers(first, last)) => set_flags(flags, *first, *last),
        _ => {}
    }
}

// Of so many places, which have a number that one of the tokens names.
fn flags_of(alloc: Global, tokens: &[Token], places: usize) -> Result<Vec<bool>, Memory>
    ensures as_many { IfOk result (λ flags. length flags.items ≡ places) }
    ensures flags { IfOk result (λ flags. AreFlags tokens.now flags.items) }
{
    let mut flags = vec![in alloc; false; places]?;
    for token in tokens {
        set_by(&mut flags, token);
    }
    Ok(flags)
}

// Goes over one place more, from the last to the first: what is in it is numbered here, whatever came after.
fn take_place(
    uuids: &mut BTreeSet<Uuid>,
    place: &Option<Uuid>,
    is_named: bool,
) -> Result<(), Memory>
    ensures { OnOk result ((u : List ℕ) → set.contains bytes_cmp uuids.new u ≡ cond (has_uuid u place.now) is_named (set.contains bytes_cmp uuids.old u)) }
{
    let Some(uuid) = place else {
        return Ok(());
    };
    if is_named {
        uuids.insert(*uuid)?;
    } else {
        uuids.remove(uuid);
    }
    Ok(())
}

// The uuids whose numbers have flags. One at two places has the first number.
fn flagged(
    alloc: Global,
    flags: &Vec<bool>,
    places: &Vec<Option<Uuid>>,
) -> Result<BTreeSet<Uuid>, Memory>
    requires { length flags.now.items ≡ length places.now.items }
    ensures { IfOk result (λ uuids. (u : List ℕ) → set.contains bytes_cmp uuids u
        ≡ passes (λ id. slice_index_or flags.now.items (id - 1) false) (id_of u places.now.items)) }
{
    let mut uuids = BTreeSet::new(alloc);
    let mut at = places.len();
    while at > 0 {
        at -= 1;
        take_place(&mut uuids, &places[at], flags[at])?;
    }
    Ok(uuids)
}

// The uuid that a token is.
fn uuid_in(token: &Token) -> Option<Uuid>
    ensures { result ≡ uuid_in token.now }
{
    match token {
        Token::Named(Name::One(uuid)) => Some(*uuid),
        _ => None,
    }
}

fn put_uuid(uuids: &mut BTreeSet<Uuid>, named: Option<Uuid>) -> Result<(), Memory>
    ensures { OnOk result ((u : List ℕ) → set.contains bytes_cmp uuids.new u ≡ (set.contains bytes_cmp uuids.old u || is_that u named)) }
{
    if let Some(uuid) = named {
        uuids.insert(uuid)?;
    }
    Ok(())
}

// The uuids that tokens name, by one look at each place.
fn named_uuids(
    alloc: Global,
    tokens: &[Token],
    places: &Vec<Option<Uuid>>,
) -> Result<BTreeSet<Uuid>, Memory>
    ensures { IfOk result (λ uuids. (u : List ℕ) → set.contains bytes_cmp uuids u ≡ list_any (names places.now.items u) tokens.now) }
{
    let flags = flags_of(alloc, tokens, places.len())?;
    let mut uuids = flagged(alloc, &flags, places)?;
    for token in tokens {
        put_uuid(&mut uuids, uuid_in(token))?;
    }
    Ok(uuids)
}

// Those uuids that have a task.
fn there(alloc: Global, uuids: &BTreeSet<Uuid>, tasks: &Tasks) -> Result<Vec<Uuid>, Memory>
    ensures there { IfOk result (λ found. found.items ≡ filter (λ u. is_some (map.get tasks.now u)) uuids.now.keys) }
    ensures rising { OnOk result (IsStrictlySortedBy bytes_cmp uuids.now.keys) }
{
    let mut found = Vec::new(alloc);
    for uuid in uuids {
        if tasks.get(*uuid).is_some() {
            found.push(*uuid)?;
        }
    }
    Ok(found)
}

/// The tasks that names stand for, in byte order of their uuids. No other task is looked at.
pub(crate) fn named_tasks(
    alloc: Global,
    tokens: &[Token],
    view: &View<'_>,
) -> Result<Vec<Uuid>, Memory>
    requires { are_names tokens.now ≡ true }
    ensures { IfOk result (λ uuids. uuids.items ≡ selected (scene_of view.entry.now) tokens.now) }
{
    let named = named_uuids(alloc, tokens, view.numbers)?;
    there(alloc, &named, view.tasks)
}
