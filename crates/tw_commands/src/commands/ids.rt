// `ids` and `uuids`: the numbers or the uuids of tasks, on one line.
ghost use Rattle.std.specs.Prelude.{◌≡◌, List, ℕ, ◌∷◌, [], ◌++◌, cond, map, string_bytes, IfOk, OnOk};
ghost use Rattle.std.specs.BTreeSet as set;
ghost use Rattle.std.specs.List.{list_any};
ghost use Rattle.std.specs.Fmt.{decimal};
ghost use Rattle.uuid.specs.Text.{hyphenated_text, lower};
ghost use Rattle.tw_model.specs.Maps.{bytes_cmp, same_bytes};
ghost use Rattle.tw_replica.specs.Replica.{held_state};
ghost use Rattle.tw_commands.specs.Plan.{plan_view};
ghost use Rattle.tw_commands.specs.Looks.Ids as spec;

use crate::commands::count::looking;
use crate::plan::Plan;
use crate::request::selected;
use std::alloc::Global;
use std::collections::BTreeSet;
use tw_changes::{Request, spaced};
use tw_replica::Replica;
use tw_terms::chosen_of;
use tw_world::Memory;
use uuid::Uuid;

// Words on a line.
fn line_text(alloc: Global, words: &Vec<String>) -> Result<Vec<u8>, Memory>
    ensures { IfOk result (λ text. text.items ≡ spec.line_text (map string_bytes words.now.items)) }
{
    let mut text = spaced(alloc, words.as_slice())?;
    text.push('\n')?;
    Ok(text.into_bytes())
}

// Whether a place is that of one of these tasks.
fn is_place_of(rows: &Vec<Uuid>, chosen: &BTreeSet<Uuid>, place: &Option<Uuid>) -> bool
    requires { (u : List ℕ) → set.contains bytes_cmp chosen.now u ≡ list_any (same_bytes u) rows.now.items }
    ensures { result ≡ spec.is_place_of rows.now.items place.now }
{
    match place {
        Some(uuid) => chosen.contains(uuid),
        None => false,
    }
}

// The numbers of the places of these tasks.
fn numbers_of(
    alloc: Global,
    rows: &Vec<Uuid>,
    places: &Vec<Option<Uuid>>,
) -> Result<Vec<String>, Memory>
    ensures { IfOk result (λ words. map string_bytes words.items ≡ spec.numbers_from 1 rows.now.items places.now.items) }
{
    let chosen = chosen_of(alloc, rows)?;
    let mut words = Vec::new(alloc);
    for (at, place) in places.iter().enumerate() {
        if is_place_of(rows, &chosen, place) {
            words.push(format!(in alloc; "{}", at as u64 + 1)?)?;
        }
    }
    Ok(words)
}

fn uuid_text(alloc: Global, uuid: Uuid) -> Result<String, Memory>
    ensures { IfOk result (λ text. string_bytes text ≡ hyphenated_text lower uuid) }
{
    let mut buffer = Uuid::encode_buffer();
    Ok(String::from_str(alloc, uuid.hyphenated().encode_lower(&mut buffer))?)
}

fn uuid_texts(alloc: Global, rows: &Vec<Uuid>) -> Result<Vec<String>, Memory>
    ensures { IfOk result (λ words. map string_bytes words.items ≡ map (hyphenated_text lower) rows.now.items) }
{
    let mut words = Vec::new(alloc);
    for uuid in rows {
        words.push(uuid_text(alloc, *uuid)?)?;
    }
    Ok(words)
}

/// What `ids` is to do (task(1), "ids").
pub(crate) fn numbering(
    alloc: Global,
    request: &Request<'_>,
    replica: &Replica,
) -> Result<Plan, Memory>
    ensures { IfOk result (λ plan. plan_view plan ≡ spec.numbering request.now (held_state replica.now)) }
{
    let rows = selected(alloc, request, replica)?;
    let words = numbers_of(alloc, &rows, replica.numbers())?;
    let text = line_text(alloc, &words)?;
    Ok(looking(alloc, text))
}

/// What `uuids` is to do (task(1), "uuids").
pub(crate) fn naming(
    alloc: Global,
    request: &Request<'_>,
    replica: &Replica,
) -> Result<Plan, Memory>
    ensures { IfOk result (λ plan. plan_view plan ≡ spec.naming request.now (held_state replica.now)) }
{
    let rows = selected(alloc, request, replica)?;
    let words = uuid_texts(alloc, &rows)?;
    let text = line_text(alloc, &words)?;
    Ok(looking(alloc, text))
}
