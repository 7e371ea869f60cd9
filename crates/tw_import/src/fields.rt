// The members of a task's object.
ghost use Rattle.std.specs.Prelude.{◌≡◌, ◌<◌, length, None, IfOk, IfErr, OnOk, OnErr};
ghost use Rattle.tw_import.specs.Meanings.{list_by_kind};
ghost use Rattle.tw_import.specs.Passing.{value_at, items_at, members_at};
ghost use Rattle.tw_import.specs.MemberValues.{meaning_of, fields_in, with_field};
ghost use Rattle.tw_import.specs.Reading.{ReadsValue, ReadsList, ReadsField, ReadsFields};

use crate::front::{Front, take_front};
use crate::halt::Halt;
use crate::kind::{Kind, kind_of};
use crate::list::read_items;
use crate::member_value::{MemberValue, items_meaning, number_by_kind, odd_by_kind, text_by_kind};
use crate::passing::{pass_items, pass_members};
use json::Reader;
use std::alloc::Global;
use std::collections::BTreeMap;
use tw_world::{Memory, Text};

// What an opened array means.
fn read_list(
    alloc: Global,
    reader: &mut Reader<'_>,
    depth: usize,
    kind: Kind,
) -> Result<MemberValue, Halt>
    ensures ok { IfOk result (λ h. ReadsList depth reader.old reader.new kind (meaning_of h)) }
    ensures shorter { OnOk result (length reader.new < length reader.old) }
    ensures err { IfErr result (λ h. h ≡ Halt.NotJson → items_at depth reader.old ≡ None) }
{
    match kind {
        Kind::Depends | Kind::Tags | Kind::Annotations => {
            match read_items(alloc, reader, depth, kind) {
                Ok(items) => Ok(items_meaning(items)),
                Err(halt) => Err(halt),
            }
        }
        _ => {
            if pass_items(reader, depth) {
                Ok(odd_by_kind(kind))
            } else {
                Err(Halt::NotJson)
            }
        }
    }
}

// What the value at the front means.
fn read_value(
    alloc: Global,
    reader: &mut Reader<'_>,
    depth: usize,
    kind: Kind,
) -> Result<MemberValue, Halt>
    ensures ok { IfOk result (λ h. ReadsValue depth reader.old reader.new kind (meaning_of h)) }
    ensures shorter { OnOk result (length reader.new < length reader.old) }
    ensures err { IfErr result (λ h. h ≡ Halt.NotJson → value_at depth reader.old ≡ None) }
{
    match take_front(reader, depth) {
        Ok(Front::Null) => Ok(MemberValue::Nothing),
        Ok(Front::Bool) => Ok(odd_by_kind(kind)),
        Ok(Front::Number(number)) => Ok(number_by_kind(alloc, kind, number)?),
        Ok(Front::Text(text)) => Ok(text_by_kind(alloc, kind, text)?),
        Ok(Front::Array) => read_list(alloc, reader, depth - 1, kind),
        Ok(Front::Object) => {
            if pass_members(reader, depth - 1) {
                Ok(odd_by_kind(kind))
            } else {
                Err(Halt::NotJson)
            }
        }
        Err(_) => Err(Halt::NotJson),
    }
}

fn put_field(
    alloc: Global,
    fields: &mut BTreeMap<Text, MemberValue>,
    name: &str,
    value: MemberValue,
) -> Result<(), Memory>
    ensures { OnOk result (fields_in fields.new.entries ≡ with_field name.now (meaning_of value) (fields_in fields.old.entries)) }
{
    let key = Text::from_str(alloc, name)?;
    let _ = fields.insert(key, value)?;
    Ok(())
}

// The fields with that of a member, whose value is at the front.
fn read_field(
    alloc: Global,
    reader: &mut Reader<'_>,
    depth: usize,
    fields: &mut BTreeMap<Text, MemberValue>,
    name: &str,
) -> Result<(), Halt>
    ensures ok { OnOk result (ReadsField depth reader.old reader.new name.now (fields_in fields.old.entries) (fields_in fields.new.entries)) }
    ensures shorter { OnOk result (length reader.new < length reader.old) }
    ensures err { IfErr result (λ h. h ≡ Halt.NotJson → value_at depth reader.old ≡ None) }
{
    match read_value(alloc, reader, depth, kind_of(name)) {
        Ok(value) => Ok(put_field(alloc, fields, name, value)?),
        Err(halt) => Err(halt),
    }
}

/// The members of an opened object, by their names. Of those with one name the last counts.
pub(crate) fn read_fields(
    alloc: Global,
    reader: &mut Reader<'_>,
    depth: usize,
) -> Result<BTreeMap<Text, MemberValue>, Halt>
    ensures ok { IfOk result (λ m. ReadsFields depth reader.old reader.new (fields_in m.entries)) }
    ensures shorter { OnOk result (length reader.new < length reader.old) }
    ensures err { IfErr result (λ h. h ≡ Halt.NotJson → members_at depth reader.old ≡ None) }
{
    let mut fields = BTreeMap::new(alloc);
    'members: loop {
        match reader.next_key() {
            Ok(Some(name)) => {
                if let Err(halt) = read_field(alloc, reader, depth, &mut fields, name) {
                    return Err(halt);
                }
            }
            Ok(None) => return Ok(fields),
            Err(_) => return Err(Halt::NotJson),
        }
    }
}
