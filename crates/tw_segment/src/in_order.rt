// Segments read token by token, with no tree of their values. These are texts whose keys come in the order in which this program or
// TaskChampion writes them.
ghost use Rattle.std.specs.Prelude.{◌≡◌, ◌∷◌, codes, Some, IfOk, IfSome, option_map};
ghost use Rattle.std.specs.Str.{IsUtf8};
ghost use Rattle.json.specs.Token.{key};
ghost use Rattle.tw_model.specs.declared.SyncOp.TheVariants.{Update};
ghost use Rattle.tw_segment.specs.Segment.{IsSegment};
ghost use Rattle.tw_segment.specs.Tokens.{NamedAt, OpAt, OpsAt};

use crate::reading::copied;
use crate::taking::{
    take_end, take_finish, take_last_moment, take_last_value, take_moment, take_name,
    take_only_uuid, take_start, take_string, take_text, take_uuid, take_uuid_text, take_value,
};
use json::{Reader, Scratch, Token};
use std::alloc::Global;
use tw_model::SyncOp;
use tw_world::{Memory, Moment, Text};
use uuid::Uuid;

/// The operations of such a text, or `None` for other bytes. Beside the operations it takes room for as many bytes as the text has.
pub(crate) fn read_in_order(alloc: Global, bytes: &[u8]) -> Result<Option<Vec<SyncOp>>, Memory>
    ensures { IfOk result (λ ops. IfSome ops (λ v. IsSegment bytes.now v.items)) }
{
    match std::str::from_utf8(bytes) {
        Ok(text) => read_text(alloc, text),
        Err(_) => Ok(None),
    }
}

fn read_text(alloc: Global, text: &str) -> Result<Option<Vec<SyncOp>>, Memory>
    ensures { IfOk result (λ ops. IfSome ops (λ v. IsUtf8 text.now → IsSegment text.now v.items)) }
{
    let mut scratch = Scratch::new(alloc);
    let Ok(mut reader) = Reader::new(text, &mut scratch) else {
        return Err(Memory);
    };
    if !take_start(&mut reader) {
        return Ok(None);
    }
    let Some(ops) = read_ops(alloc, &mut reader)? else {
        return Ok(None);
    };
    if take_finish(&mut reader) {
        Ok(Some(ops))
    } else {
        Ok(None)
    }
}

// The operations up to the bracket that closes their list.
fn read_ops(alloc: Global, reader: &mut Reader<'_>) -> Result<Option<Vec<SyncOp>>, Memory>
    ensures { IfOk result (λ ops. IfSome ops (λ v. OpsAt reader.old v.items reader.new)) }
{
    let mut ops = Vec::new(alloc);
    'list: loop {
        if reader.take_end_array() {
            return Ok(Some(ops));
        }
        let Some(op) = read_op(alloc, reader)? else {
            return Ok(None);
        };
        ops.push(op)?;
    }
}

fn read_op(alloc: Global, reader: &mut Reader<'_>) -> Result<Option<SyncOp>, Memory>
    ensures { IfOk result (λ o. IfSome o (λ op. OpAt reader.old op reader.new)) }
{
    let Some(name) = take_name(reader) else {
        return Ok(None);
    };
    let Some(op) = read_named(alloc, reader, name)? else {
        return Ok(None);
    };
    if take_end(reader) {
        Ok(Some(op))
    } else {
        Ok(None)
    }
}

// The operation of that name, up to the brace that closes its members.
fn read_named(alloc: Global, reader: &mut Reader<'_>, name: &str) -> Result<Option<SyncOp>, Memory>
    ensures { IfOk result (λ o. IfSome o (λ op. NamedAt name.now reader.old op reader.new)) }
{
    match name {
        "Create" => Ok(read_create(reader)),
        "Delete" => Ok(read_delete(reader)),
        "Update" => read_update(alloc, reader),
        _ => Ok(None),
    }
}

fn read_create(reader: &mut Reader<'_>) -> Option<SyncOp>
    ensures { IfSome result (λ op. NamedAt (codes "Create") reader.old op reader.new) }
{
    let uuid = take_only_uuid(reader)?;
    Some(SyncOp::Create { uuid })
}

fn read_delete(reader: &mut Reader<'_>) -> Option<SyncOp>
    ensures { IfSome result (λ op. NamedAt (codes "Delete") reader.old op reader.new) }
{
    let uuid = take_only_uuid(reader)?;
    Some(SyncOp::Delete { uuid })
}

// The members of an update, by the key that comes first: this program writes them in byte order, and
// TaskChampion as it declares them.
fn read_update(alloc: Global, reader: &mut Reader<'_>) -> Result<Option<SyncOp>, Memory>
    ensures { IfOk result (λ o. IfSome o (λ op. NamedAt (codes "Update") reader.old op reader.new)) }
{
    let Some(Token::Key(first)) = reader.next() else {
        return Ok(None);
    };
    match first {
        "property" => read_in_byte_order(alloc, reader),
        "uuid" => read_as_declared(alloc, reader),
        _ => Ok(None),
    }
}

// What comes after the key of the property.
fn read_in_byte_order(alloc: Global, reader: &mut Reader<'_>) -> Result<Option<SyncOp>, Memory>
    ensures { IfOk result (λ o. IfSome o (λ op. NamedAt (codes "Update") (key (codes "property") ∷ reader.old) op reader.new)) }
{
    let Some(property) = take_string(reader) else {
        return Ok(None);
    };
    let Some(at) = take_moment(reader) else {
        return Ok(None);
    };
    let Some(uuid) = take_uuid(reader) else {
        return Ok(None);
    };
    let Some(value) = take_last_value(reader) else {
        return Ok(None);
    };
    update_of(alloc, uuid, property, value, at)
}

// What comes after the key of the uuid.
fn read_as_declared(alloc: Global, reader: &mut Reader<'_>) -> Result<Option<SyncOp>, Memory>
    ensures { IfOk result (λ o. IfSome o (λ op. NamedAt (codes "Update") (key (codes "uuid") ∷ reader.old) op reader.new)) }
{
    let Some(uuid) = take_uuid_text(reader) else {
        return Ok(None);
    };
    let Some(property) = take_text(reader, "property") else {
        return Ok(None);
    };
    let Some(value) = take_value(reader) else {
        return Ok(None);
    };
    let Some(at) = take_last_moment(reader) else {
        return Ok(None);
    };
    update_of(alloc, uuid, property, value, at)
}

fn update_of(
    alloc: Global,
    uuid: Uuid,
    property: &str,
    value: Option<&str>,
    at: Moment,
) -> Result<Option<SyncOp>, Memory>
    ensures { IfOk result (λ o. o ≡ Some (Update uuid property.now (option_map (λ s. s.now) value.entry) at)) }
{
    let property = Text::from_str(alloc, property)?;
    let value = copied(alloc, value)?;
    Ok(Some(SyncOp::Update {
        uuid,
        property,
        value,
        at,
    }))
}
