ghost use Rattle.std.specs.Prelude.{◌≡◌, ◌≤◌, ◌++◌, ◌∷◌, [], codes, length, Some, All, IfOk, IfErr, OnOk};
ghost use Rattle.json.specs.Token.{begin_object, end_object, key, string};
ghost use Rattle.uuid.specs.Text.{parsed, hyphenated_text, lower};
ghost use Rattle.tw_model.specs.declared.SyncOp.TheVariants.{Update};
ghost use Rattle.tw_segment.specs.Segment.{max_len, value_data, update_data, uuid_data, one, op_data, IsReadBack, segment_data, segment_text, IsSegment};
ghost use Rattle.tw_segment.specs.Timestamp.{timestamp, timestamp_moment};
ghost use Rattle.tw_segment.specs.Tokens.{data_tokens, ops_tokens};
ghost use Rattle.tw_segment.specs.Refusals.{IsUnwritten};

use crate::error::SegmentError;
use crate::timestamp::write_timestamp;
use json::Writer;
use std::alloc::{AllocError, Global};
use tw_model::SyncOp;
use tw_world::{Moment, Text};
use uuid::Uuid;

/// The one text of the operations: JSON without spaces, the keys of each object in byte order (the
/// TaskChampion book, "Synchronization Protocol", under "History Segment"). A text of more than
/// 16,777,216 bytes is refused. Beside the text, which grows as it is written, it takes room for one
/// timestamp.
pub fn write_segment(alloc: Global, ops: &Vec<SyncOp>) -> Result<Vec<u8>, SegmentError>
    ensures text { IfOk result (λ v. v.items ≡ segment_text ops.now.items) }
    ensures within { IfOk result (λ v. length v.items ≤ max_len) }
    ensures reads_back { IfOk result (λ v. IsSegment v.items ops.now.items) }
    ensures err { IfErr result (IsUnwritten ops.now.items) }
{
    let text = text_of(alloc, ops)?;
    let bytes = text.len() as u64;
    if bytes > 16_777_216 {
        return Err(SegmentError::TooLong { bytes });
    }
    Ok(text)
}

// The text, however long it is.
fn text_of(alloc: Global, ops: &Vec<SyncOp>) -> Result<Vec<u8>, AllocError>
    ensures text { IfOk result (λ v. v.items ≡ segment_text ops.now.items) }
    ensures reads_back { IfOk result (λ v. IsSegment v.items ops.now.items) }
{
    let mut writer = Writer::new(Vec::new(alloc));
    put_segment(alloc, &mut writer, ops)?;
    Ok(writer.into_inner())
}

fn put_segment(alloc: Global, writer: &mut Writer, ops: &Vec<SyncOp>) -> Result<(), AllocError>
    ensures written { OnOk result (writer.new.tokens ≡ writer.old.tokens ++ data_tokens (segment_data ops.now.items)) }
    ensures before { writer.new.before ≡ writer.old.before }
    ensures back { OnOk result (All IsReadBack ops.now.items) }
{
    writer.begin_object()?;
    writer.key("operations")?;
    writer.begin_array()?;
    put_ops(alloc, writer, ops)?;
    writer.end_object()
}

// The operations, and the bracket that closes their list.
fn put_ops(alloc: Global, writer: &mut Writer, ops: &Vec<SyncOp>) -> Result<(), AllocError>
    ensures written { OnOk result (writer.new.tokens ≡ writer.old.tokens ++ ops_tokens ops.now.items) }
    ensures before { writer.new.before ≡ writer.old.before }
    ensures back { OnOk result (All IsReadBack ops.now.items) }
{
    for op in ops {
        put_op(alloc, writer, op)?;
    }
    writer.end_array()
}

fn put_op(alloc: Global, writer: &mut Writer, op: &SyncOp) -> Result<(), AllocError>
    ensures written { OnOk result (writer.new.tokens ≡ writer.old.tokens ++ data_tokens (op_data op.now)) }
    ensures before { writer.new.before ≡ writer.old.before }
    ensures back { OnOk result (IsReadBack op.now) }
{
    match op {
        SyncOp::Create { uuid } => put_named(writer, "Create", *uuid),
        SyncOp::Delete { uuid } => put_named(writer, "Delete", *uuid),
        SyncOp::Update {
            uuid,
            property,
            value,
            at,
        } => put_update(alloc, writer, *uuid, property, value, at),
    }
}

// An object of one key, under which only a uuid is.
fn put_named(writer: &mut Writer, name: &str, uuid: Uuid) -> Result<(), AllocError>
    ensures written { OnOk result (writer.new.tokens ≡ writer.old.tokens ++ data_tokens (one name.now (one (codes "uuid") (uuid_data uuid)))) }
    ensures before { writer.new.before ≡ writer.old.before }
    ensures back { OnOk result (parsed (hyphenated_text lower uuid) ≡ Some uuid) }
{
    writer.begin_object()?;
    writer.key(name)?;
    writer.begin_object()?;
    put_uuid(writer, uuid)?;
    writer.end_object()?;
    writer.end_object()
}

fn put_update(
    alloc: Global,
    writer: &mut Writer,
    uuid: Uuid,
    property: &Text,
    value: &Option<Text>,
    at: &Moment,
) -> Result<(), AllocError>
    ensures written { OnOk result (writer.new.tokens ≡ writer.old.tokens
        ++ data_tokens (one (codes "Update") (update_data uuid property.now value.now at.now))) }
    ensures before { writer.new.before ≡ writer.old.before }
    ensures back { OnOk result (IsReadBack (Update uuid property.now value.now at.now)) }
{
    writer.begin_object()?;
    writer.key("Update")?;
    writer.begin_object()?;
    writer.key("property")?;
    writer.string(property.as_str())?;
    put_timestamp(alloc, writer, at)?;
    put_uuid(writer, uuid)?;
    put_value(writer, value)?;
    writer.end_object()?;
    writer.end_object()
}

fn put_timestamp(alloc: Global, writer: &mut Writer, at: &Moment) -> Result<(), AllocError>
    ensures written { OnOk result (writer.new.tokens ≡ writer.old.tokens ++ key (codes "timestamp") ∷ string (timestamp at.now) ∷ []) }
    ensures before { writer.new.before ≡ writer.old.before }
    ensures back { OnOk result (timestamp_moment (timestamp at.now) ≡ Some at.now) }
{
    writer.key("timestamp")?;
    let at = write_timestamp(alloc, at)?;
    writer.string(&at)
}

fn put_uuid(writer: &mut Writer, uuid: Uuid) -> Result<(), AllocError>
    ensures written { OnOk result (writer.new.tokens ≡ writer.old.tokens ++ key (codes "uuid") ∷ string (hyphenated_text lower uuid) ∷ []) }
    ensures before { writer.new.before ≡ writer.old.before }
    ensures back { parsed (hyphenated_text lower uuid) ≡ Some uuid }
{
    let mut buffer = Uuid::encode_buffer();
    let text = uuid.hyphenated().encode_lower(&mut buffer);
    writer.key("uuid")?;
    writer.string(text)
}

fn put_value(writer: &mut Writer, value: &Option<Text>) -> Result<(), AllocError>
    ensures written { OnOk result (writer.new.tokens ≡ writer.old.tokens ++ key (codes "value") ∷ data_tokens (value_data value.now)) }
    ensures before { writer.new.before ≡ writer.old.before }
{
    writer.key("value")?;
    match value {
        Some(value) => writer.string(value.as_str()),
        None => writer.null(),
    }
}
