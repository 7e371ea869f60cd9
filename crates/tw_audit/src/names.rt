// What differs between two tasks.
ghost use Rattle.std.specs.Prelude.{◌≡◌, ◌++◌, ◌∷◌, [], cond, Some, OnOk, IfOk};
ghost use Rattle.std.specs.Option.{option_copied, option_eq};
ghost use Rattle.std.specs.FinMap as map;
ghost use Rattle.tw_model.specs.Maps.{same_bytes};
ghost use Rattle.tw_audit.specs.Differences.{unlike, lacking, least, lesser, differing, value_at, first_value};

use crate::differences::What;
use std::alloc::Global;
use std::cmp::Ordering;
use tw_model::TaskMap;
use tw_world::{Memory, Text};

// Whether a task has this value of a property.
fn has_value(task: &TaskMap, property: &str, value: &str) -> bool
    ensures { result ≡ option_eq same_bytes (map.get task.now property.now) (Some value.now) }
{
    match task.get(property) {
        Some(there) => there == value,
        None => false,
    }
}

// Puts a name after others, unless it is alike.
fn add_unless(
    alloc: Global,
    names: &mut Vec<Text>,
    is_alike: bool,
    name: &str,
) -> Result<(), Memory>
    ensures { OnOk result (names.new.items ≡ names.old.items ++ cond is_alike [] (name.now ∷ [])) }
{
    if !is_alike {
        names.push(Text::from_str(alloc, name)?)?;
    }
    Ok(())
}

// Puts the properties that another task lacks or has otherwise after names.
fn add_unlike(
    alloc: Global,
    names: &mut Vec<Text>,
    task: &TaskMap,
    other: &TaskMap,
) -> Result<(), Memory>
    ensures { OnOk result (names.new.items ≡ names.old.items ++ unlike same_bytes other.now (map.entries task.now)) }
{
    for n in 0..task.len() {
        let name = task.key(n);
        let is_alike = has_value(other, name, task.value(n));
        add_unless(alloc, names, is_alike, name)?;
    }
    Ok(())
}

// Puts the properties that another task lacks after names.
fn add_lacking(
    alloc: Global,
    names: &mut Vec<Text>,
    task: &TaskMap,
    other: &TaskMap,
) -> Result<(), Memory>
    ensures { OnOk result (names.new.items ≡ names.old.items ++ lacking other.now (map.entries task.now)) }
{
    for n in 0..task.len() {
        let name = task.key(n);
        let is_there = other.get(name).is_some();
        add_unless(alloc, names, is_there, name)?;
    }
    Ok(())
}

fn differing(alloc: Global, here: &TaskMap, there: &TaskMap) -> Result<Vec<Text>, Memory>
    ensures { IfOk result (λ names. names.items ≡ differing same_bytes here.now there.now) }
{
    let mut names = Vec::new(alloc);
    add_unlike(alloc, &mut names, here, there)?;
    add_lacking(alloc, &mut names, there, here)?;
    Ok(names)
}

fn lesser<'a>(name: &'a str, other: Option<&'a str>) -> &'a str
    ensures { result.now ≡ lesser name.now (option_copied other.entry) }
{
    match other {
        Some(other) if other.cmp(name) == Ordering::Less => other,
        _ => name,
    }
}

// The first name in byte order.
fn least(names: &Vec<Text>) -> Option<&str>
    ensures { option_copied result ≡ least names.now.items }
{
    let mut first = None;
    let mut at = names.len();
    while at > 0 {
        at -= 1;
        first = Some(lesser(names[at].as_str(), first));
    }
    first
}

fn copy_value(alloc: Global, value: Option<&str>) -> Result<Option<Text>, Memory>
    ensures { IfOk result (λ copy. copy ≡ option_copied value.entry) }
{
    match value {
        Some(text) => Ok(Some(Text::from_str(alloc, text)?)),
        None => Ok(None),
    }
}

fn value_at(alloc: Global, here: &TaskMap, there: &TaskMap, name: &str) -> Result<What, Memory>
    ensures { IfOk result (λ what. what ≡ value_at here.now there.now name.now) }
{
    let property = Text::from_str(alloc, name)?;
    let there = copy_value(alloc, there.get(name))?;
    let here = copy_value(alloc, here.get(name))?;
    Ok(What::Value {
        property,
        here,
        there,
    })
}

/// The first property that differs between two tasks, with both values, if one does.
pub(crate) fn first_value(
    alloc: Global,
    here: &TaskMap,
    there: &TaskMap,
) -> Result<Option<What>, Memory>
    ensures { IfOk result (λ what. what ≡ first_value here.now there.now) }
{
    let names = differing(alloc, here, there)?;
    match least(&names) {
        Some(name) => Ok(Some(value_at(alloc, here, there, name)?)),
        None => Ok(None),
    }
}
