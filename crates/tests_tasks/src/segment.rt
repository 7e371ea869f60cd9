use std::alloc::Global;
use std::test::Fail;
use tw_model::SyncOp;
use tw_segment::{SegmentError, read_segment, write_segment};
use tw_world::{Memory, Moment, Text};
use uuid::Uuid;

const UUID: &str = "00000000-0000-4000-8000-000000000001";

// What a task "Buy milk" of 2023-11-14T22:13:20Z is written as.
const ADDED: &str =
    "{\"operations\":[{\"Create\":{\"uuid\":\"00000000-0000-4000-8000-000000000001\"}},\
     {\"Update\":{\"property\":\"description\",\
     \"timestamp\":\"2023-11-14T22:13:20.000000000Z\",\
     \"uuid\":\"00000000-0000-4000-8000-000000000001\",\"value\":\"Buy milk\"}},\
     {\"Update\":{\"property\":\"entry\",\"timestamp\":\"2023-11-14T22:13:20.000000000Z\",\
     \"uuid\":\"00000000-0000-4000-8000-000000000001\",\"value\":\"1700000000\"}},\
     {\"Update\":{\"property\":\"modified\",\"timestamp\":\"2023-11-14T22:13:20.000000000Z\",\
     \"uuid\":\"00000000-0000-4000-8000-000000000001\",\"value\":\"1700000000\"}},\
     {\"Update\":{\"property\":\"status\",\"timestamp\":\"2023-11-14T22:13:20.000000000Z\",\
     \"uuid\":\"00000000-0000-4000-8000-000000000001\",\"value\":\"pending\"}}]}";

fn update(
    alloc: Global,
    uuid: Uuid,
    property: &str,
    value: &str,
    at: Moment,
) -> Result<SyncOp, Memory> {
    Ok(SyncOp::Update {
        uuid,
        property: Text::from_str(alloc, property)?,
        value: Some(Text::from_str(alloc, value)?),
        at,
    })
}

const PROPERTIES: [(&str, &str); 4] = [
    ("description", "Buy milk"),
    ("entry", "1700000000"),
    ("modified", "1700000000"),
    ("status", "pending"),
];

fn added(alloc: Global, uuid: Uuid, at: Moment) -> Result<Vec<SyncOp>, Memory> {
    let mut ops = Vec::new(alloc);
    ops.push(SyncOp::Create { uuid })?;
    for (property, value) in &PROPERTIES {
        ops.push(update(alloc, uuid, property, value, at)?)?;
    }
    Ok(ops)
}

// Whether these operations are written so.
fn is_written(alloc: Global, ops: &Vec<SyncOp>, text: &[u8]) -> Result<bool, SegmentError> {
    let written = write_segment(alloc, ops)?;
    Ok(written.as_slice() == text)
}

fn is_added_written(alloc: Global, text: &[u8]) -> Result<bool, Fail> {
    let uuid = Uuid::parse_str(UUID).or(Err("no uuid"))?;
    let at = Moment::new(1_700_000_000, 0).ok_or("no moment")?;
    let ops = added(alloc, uuid, at).or(Err("memory"))?;
    Ok(is_written(alloc, &ops, text)?)
}

// Whether a text is read as five operations, which are written so again.
fn is_written_again(alloc: Global, text: &[u8]) -> Result<bool, SegmentError> {
    let read = read_segment(alloc, text)?;
    Ok(read.len() == 5 && is_written(alloc, &read, text)?)
}

#[test]
fn an_added_task_is_a_segment_of_656_bytes(rt: HostRuntime) -> Result<(), Fail> {
    let alloc = rt.alloc();
    let text = ADDED.as_bytes();
    assert!(rt; text.len() == 656 && is_added_written(alloc, text)?);
    assert!(rt; is_written_again(alloc, text)?);
    assert!(rt; is_written(alloc, &Vec::new(alloc), b"{\"operations\":[]}")?);
    Ok(())
}

// Each text, with the fault for which it is refused, if it is.
const TEXTS: [(&str, Option<SegmentError>); 13] = [
    (
        "{\"operations\":[{\"Create\":{\"uuid\":\"00000000-0000-4000-8000-000000000001\"},\
         \"Delete\":{\"uuid\":\"00000000-0000-4000-8000-000000000001\"}}]}",
        Some(SegmentError::Shape { index: 0 }),
    ),
    ("{", Some(SegmentError::NotJson)),
    ("", Some(SegmentError::NotJson)),
    ("[]", Some(SegmentError::Shape { index: 0 })),
    (
        "{\"operations\":{}}",
        Some(SegmentError::Shape { index: 0 }),
    ),
    (
        "{\"operations\":[{\"Create\":{}}]}",
        Some(SegmentError::Shape { index: 0 }),
    ),
    (
        "{\"operations\":[{\"Create\":{\"uuid\":\"00000000-0000-4000-8000-000000000001\"}},\
         {\"Change\":{\"uuid\":\"00000000-0000-4000-8000-000000000001\"}}]}",
        Some(SegmentError::Shape { index: 1 }),
    ),
    (
        "{\"operations\":[{\"Update\":{\"property\":\"p\",\
         \"timestamp\":\"2023-11-14T22:13:20\",\
         \"uuid\":\"00000000-0000-4000-8000-000000000001\"}}]}",
        Some(SegmentError::Shape { index: 0 }),
    ),
    (
        "{\"operations\":[{\"Update\":{\"property\":\"p\",\
         \"timestamp\":\"2023-11-14T22:13:20Z\",\
         \"uuid\":\"00000000-0000-4000-8000-000000000001\",\"value\":1}}]}",
        Some(SegmentError::Shape { index: 0 }),
    ),
    (
        "{\"operations\":[{\"Update\":{\"property\":\"p\",\
         \"timestamp\":\"2023-11-14T22:13:20Z\",\
         \"uuid\":\"00000000-0000-4000-8000-000000000001\"}}]}",
        None,
    ),
    (
        " {\"more\":1,\
         \"operations\":[{\"Create\":{\"uuid\":\"00000000000040008000000000000001\",\
         \"more\":2}}]} ",
        None,
    ),
    (
        "{\"operations\":[{\"Update\":{\"property\":\"\\u0070\\n\",\
         \"timestamp\":\"2023-11-14T22:13:20.000000000Z\",\
         \"uuid\":\"00000000-0000-4000-8000-000000000001\",\"value\":\"\\\"\"}}]} ",
        None,
    ),
    (
        "{\"operations\":[{\"Create\":{\"uuid\":\"x\"},\
         \"Create\":{\"uuid\":\"00000000-0000-4000-8000-000000000001\"}}]}",
        None,
    ),
];

// How many of the texts are refused as wanted, up to the first that is not.
fn texts_so_far(alloc: Global) -> usize {
    for (number, (text, want)) in TEXTS.iter().enumerate() {
        if read_segment(alloc, text.as_bytes()).err() != *want {
            return number;
        }
    }
    TEXTS.len()
}

#[test]
fn other_texts_are_refused_by_their_first_fault(rt: HostRuntime) {
    assert_eq!(rt; texts_so_far(rt.alloc()), TEXTS.len());
}

// The moment of an update with this timestamp, where its segment is read.
fn moment_of(alloc: Global, timestamp: &str) -> Result<Option<Moment>, Memory> {
    let text = format!(in alloc;
        "{{\"operations\":[{{\"Update\":{{\"property\":\"p\",\"timestamp\":\"{timestamp}\",\"uuid\":\"{UUID}\"}}}}]}}"
    )?;
    Ok(match read_segment(alloc, text.as_bytes()) {
        Ok(ops) => match ops.first() {
            Some(SyncOp::Update { at, .. }) => Some(*at),
            _ => None,
        },
        Err(_) => None,
    })
}

// The seconds and nanoseconds that Python's `datetime` gives.
const MOMENTS: [(&str, u64, u32); 10] = [
    ("2023-11-14T22:13:20Z", 1700000000, 0),
    ("2023-11-14T22:13:20.5Z", 1700000000, 500000000),
    ("2023-11-14T22:13:20.000000001Z", 1700000000, 1),
    ("2023-11-14T22:13:20.123456Z", 1700000000, 123456000),
    ("2023-11-15T00:43:20+02:30", 1700000000, 0),
    ("2023-11-14T17:13:20.25-05:00", 1700000000, 250000000),
    ("1970-01-01T05:45:00+05:45", 0, 0),
    ("1969-12-31T23:00:00-01:00", 0, 0),
    ("2024-02-29T23:59:59.999999999Z", 1709251199, 999999999),
    ("9998-12-31T23:59:59Z", 253370764799, 0),
];

const NO_MOMENTS: [&str; 17] = [
    "1970-01-01T00:00:00+00:01",
    "9998-12-31T23:59:59-00:01",
    "9999-01-01T00:00:00Z",
    "2023-02-29T00:00:00Z",
    "2023-11-14T22:13:60Z",
    "2023-11-14T24:00:00Z",
    "2023-11-14T22:13:20",
    "2023-11-14T22:13:20.Z",
    "2023-11-14T22:13:20.1234567890Z",
    "2023-11-14T22:13:20+24:00",
    "2023-11-14T22:13:20+01:60",
    "2023-11-14T22:13:20+0100",
    "2023-11-14 22:13:20Z",
    "2023-11-14T22:13:20z",
    "2023-11-14T22:13:20Z ",
    "2023-11-14T22:13Z",
    "",
];

// How many of the timestamps are those moments, up to the first that is not.
fn moments_so_far(alloc: Global) -> Result<usize, Memory> {
    for (number, (text, seconds, nanos)) in MOMENTS.iter().enumerate() {
        if moment_of(alloc, text)? != Moment::new(*seconds, *nanos) {
            return Ok(number);
        }
    }
    Ok(MOMENTS.len())
}

fn no_moments_so_far(alloc: Global) -> Result<usize, Memory> {
    for (number, text) in NO_MOMENTS.iter().enumerate() {
        if moment_of(alloc, text)?.is_some() {
            return Ok(number);
        }
    }
    Ok(NO_MOMENTS.len())
}

#[test]
fn timestamps_have_offsets_and_decimals(rt: HostRuntime) -> Result<(), Fail> {
    assert_eq!(rt; moments_so_far(rt.alloc())?, MOMENTS.len());
    assert_eq!(rt; no_moments_so_far(rt.alloc())?, NO_MOMENTS.len());
    Ok(())
}
