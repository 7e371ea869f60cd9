ghost use Rattle.std.specs.Prelude.{◌≡◌, ◌≤◌, List, codes, length, option_map, Some, IfOk, IfErr};
ghost use Rattle.std.specs.List.{AllByRecursion};
ghost use Rattle.uuid.specs.Text.{parsed};
ghost use Rattle.serde_json.specs.Find.{get};
ghost use Rattle.serde_json.specs.View.{view, items_view};
ghost use Rattle.tw_segment.specs.Segment.{max_len, text_in, uuid_in, moment_in, value_of, create_in, delete_in, update_in, has_one_key};
ghost use Rattle.tw_segment.specs.Segment.{op_of, ops_of, bad_index, list_of, odd_index, IsSegmentOf, IsJsonOf, IsSegment};
ghost use Rattle.tw_model.specs.declared.SyncOp.{SyncOp};
ghost use Rattle.tw_segment.specs.declared.error.SegmentError.TheVariants.{Memory as memory};
ghost use Rattle.tw_segment.specs.Refusals.{IsUnread, IsUnshaped, IsUnparsed};

use crate::error::SegmentError;
use crate::in_order::read_in_order;
use crate::timestamp::read_timestamp;
use serde_json::Value;
use serde_json::error::Category;
use std::alloc::Global;
use tw_model::SyncOp;
use tw_world::{Memory, Moment, Text};
use uuid::Uuid;

/// The operations of a segment (the TaskChampion book, "Synchronization Protocol", under "History
/// Segment"). Other keys than those of the format are passed over, and a missing value is null. The
/// faults are looked for in this order: more than 16,777,216 bytes, no JSON text, and an operation
/// that is none. If the keys are those that are written, in that order, it takes room for as many
/// bytes as the text has, beside the operations. Any other text is first made a tree of its values.
pub fn read_segment(alloc: Global, bytes: &[u8]) -> Result<Vec<SyncOp>, SegmentError>
    ensures ok { IfOk result (λ ops. IsSegment bytes.now ops.items) }
    ensures within { IfOk result (λ ops. length bytes.now ≤ max_len) }
    ensures err { IfErr result (IsUnread bytes.now) }
    ensures only { (ops : List SyncOp) → length bytes.now ≤ max_len → IsSegment bytes.now ops
        → IfOk result (λ v. v.items ≡ ops) × IfErr result (λ e. e ≡ memory) }
{
    let len = bytes.len() as u64;
    if len > 16_777_216 {
        return Err(SegmentError::TooLong { bytes: len });
    }
    if let Some(ops) = read_in_order(alloc, bytes)? {
        return Ok(ops);
    }
    let value = read_json(alloc, bytes)?;
    segment_ops(alloc, &value)
}

fn read_json(alloc: Global, bytes: &[u8]) -> Result<Value, SegmentError>
    ensures ok { IfOk result (λ v. IsJsonOf bytes.now (view v)) }
    ensures err { IfErr result (IsUnparsed bytes.now) }
{
    match Value::from_slice(alloc, bytes) {
        Ok(value) => Ok(value),
        Err(error) => {
            if matches!(&error.classify(), Category::Memory) {
                Err(SegmentError::Memory)
            } else {
                Err(SegmentError::NotJson)
            }
        }
    }
}

fn segment_ops(alloc: Global, value: &Value) -> Result<Vec<SyncOp>, SegmentError>
    ensures ok { IfOk result (λ ops. IsSegmentOf (view value.now) ops.items) }
    ensures err { IfErr result (IsUnshaped (odd_index (list_of (view value.now)))) }
{
    let Some(list) = value.get("operations") else {
        return Err(SegmentError::Shape { index: 0 });
    };
    let Some(values) = list.as_array() else {
        return Err(SegmentError::Shape { index: 0 });
    };
    ops_of(alloc, values)
}

fn ops_of(alloc: Global, values: &Vec<Value>) -> Result<Vec<SyncOp>, SegmentError>
    ensures ok { IfOk result (λ ops. ops_of (items_view values.now.items) ≡ Some ops.items) }
    ensures err { IfErr result (IsUnshaped (bad_index (items_view values.now.items))) }
{
    let mut ops = Vec::new(alloc);
    for value in values {
        let Some(op) = op_of(alloc, value)? else {
            return Err(SegmentError::Shape {
                index: ops.len() as u64,
            });
        };
        ops.push(op)?;
    }
    Ok(ops)
}

#[tactic(auto, unfolding(crate::specs::Segment::op_of))]
fn op_of(alloc: Global, value: &Value) -> Result<Option<SyncOp>, Memory>
    ensures { IfOk result (λ o. o ≡ op_of (view value.now)) }
{
    if !has_one_key(value) {
        return Ok(None);
    }
    if let Some(create) = value.get("Create") {
        return Ok(create_in(create));
    }
    if let Some(delete) = value.get("Delete") {
        return Ok(delete_in(delete));
    }
    if let Some(update) = value.get("Update") {
        return update_in(alloc, update);
    }
    Ok(None)
}

fn has_one_key(value: &Value) -> bool
    ensures { result ≡ has_one_key (view value.now) }
{
    match value.as_object() {
        Some(members) => members.len() == 1,
        None => false,
    }
}

#[tactic(auto, unfolding(crate::specs::Segment::create_in))]
fn create_in(value: &Value) -> Option<SyncOp>
    ensures { result ≡ create_in (view value.now) }
{
    let uuid = uuid_in(value)?;
    Some(SyncOp::Create { uuid })
}

#[tactic(auto, unfolding(crate::specs::Segment::delete_in))]
fn delete_in(value: &Value) -> Option<SyncOp>
    ensures { result ≡ delete_in (view value.now) }
{
    let uuid = uuid_in(value)?;
    Some(SyncOp::Delete { uuid })
}

#[tactic(auto, unfolding(crate::specs::Segment::update_in))]
fn update_in(alloc: Global, value: &Value) -> Result<Option<SyncOp>, Memory>
    ensures { IfOk result (λ o. o ≡ update_in (view value.now)) }
{
    let Some(uuid) = uuid_in(value) else {
        return Ok(None);
    };
    let Some(property) = text_in(value, "property") else {
        return Ok(None);
    };
    let Some(after) = value_in(value) else {
        return Ok(None);
    };
    let Some(at) = moment_in(value) else {
        return Ok(None);
    };
    let property = Text::from_str(alloc, property)?;
    let value = copied(alloc, after)?;
    Ok(Some(SyncOp::Update {
        uuid,
        property,
        value,
        at,
    }))
}

fn uuid_in(value: &Value) -> Option<Uuid>
    ensures { result ≡ uuid_in (view value.now) }
{
    read_uuid(text_in(value, "uuid")?)
}

#[tactic(auto, using(crate::proofs::Options::none_unless))]
pub(crate) fn read_uuid(text: &str) -> Option<Uuid>
    ensures { result ≡ parsed text.now }
{
    match Uuid::parse_str(text) {
        Ok(uuid) => Some(uuid),
        Err(_) => None,
    }
}

fn moment_in(value: &Value) -> Option<Moment>
    ensures { result ≡ moment_in (view value.now) }
{
    read_timestamp(text_in(value, "timestamp")?)
}

fn value_in(value: &Value) -> Option<Option<&str>>
    ensures { option_map (option_map (λ s. s.now)) result ≡ value_of (get (codes "value") (view value.now)) }
{
    match value.get("value") {
        None => Some(None),
        Some(value) => {
            if value.is_null() {
                return Some(None);
            }
            match value.as_str() {
                Some(text) => Some(Some(text)),
                None => None,
            }
        }
    }
}

fn text_in<'a>(value: &'a Value, key: &str) -> Option<&'a str>
    ensures { option_map (λ s. s.now) result ≡ text_in key.now (view value.now) }
{
    value.get(key)?.as_str()
}

pub(crate) fn copied(alloc: Global, value: Option<&str>) -> Result<Option<Text>, Memory>
    ensures { IfOk result (λ t. t ≡ option_map (λ s. s.now) value.entry) }
{
    match value {
        None => Ok(None),
        Some(text) => Ok(Some(Text::from_str(alloc, text)?)),
    }
}
