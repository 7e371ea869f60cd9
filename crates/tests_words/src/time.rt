use std::test::Fail;
use tw_time::{
    Clock, DateError, Day, Length, Zone, ZoneError, add_length, clock_of, day_of, print_basic,
    print_extended, read_basic, read_clock, read_duration, read_extended, read_moment,
};
use tw_world::MOMENT_LIMIT;

// 2026-03-04T10:00:00Z, a Wednesday.
const NOW: u64 = 1_772_618_400;

const NEW_YORK: &str = "EST5EDT,M3.2.0,M11.1.0";

fn zone_of(text: &str) -> Result<Zone, Fail> {
    Ok(Zone::read(text).or(Err("no zone"))?)
}

#[test]
fn a_moment_out_of_range_is_no_unknown_word(rt: HostRuntime) {
    let utc = Zone::utc();
    let is_out = read_moment("999999999999", NOW, &utc) == Err(DateError::OutOfRange);
    let is_unknown = read_moment("2026-02-30", NOW, &utc) == Err(DateError::Unknown);
    assert!(rt; is_out && is_unknown && read_moment("", NOW, &utc) == Err(DateError::Unknown));
}

type Parts = Result<(u32, u32, u64), DateError>;

fn months_days_seconds(text: &str) -> Parts {
    let Length {
        months,
        days,
        seconds,
    } = read_duration(text)?;
    Ok((months, days, seconds))
}

const DURATIONS: [(&str, Parts); 18] = [
    ("2w", Ok((0, 14, 0))),
    ("daily", Ok((0, 1, 0))),
    ("weekly", Ok((0, 7, 0))),
    ("biweekly", Ok((0, 14, 0))),
    ("monthly", Ok((1, 0, 0))),
    ("bimonthly", Ok((2, 0, 0))),
    ("quarterly", Ok((3, 0, 0))),
    ("semiannual", Ok((6, 0, 0))),
    ("annual", Ok((12, 0, 0))),
    ("yearly", Ok((12, 0, 0))),
    ("90min", Ok((0, 0, 5400))),
    ("999999y", Ok((11_999_988, 0, 0))),
    ("000001d", Ok((0, 1, 0))),
    ("1000000d", Err(DateError::OutOfRange)),
    ("0000001d", Err(DateError::OutOfRange)),
    ("0000000d", Err(DateError::Unknown)),
    ("d", Err(DateError::Unknown)),
    ("now", Err(DateError::Unknown)),
];

fn durations_so_far() -> usize {
    for (number, (text, want)) in DURATIONS.iter().enumerate() {
        if months_days_seconds(text) != *want {
            return number;
        }
    }
    DURATIONS.len()
}

#[test]
fn durations_are_of_one_unit(rt: HostRuntime) {
    assert_eq!(rt; durations_so_far(), DURATIONS.len());
}

// The moment so many lengths after another in UTC.
fn later(start: &str, length: &str, times: u32) -> Option<u64> {
    let at = read_basic(start)?;
    match read_duration(length) {
        Ok(length) => add_length(at, &length, times, &Zone::utc()),
        Err(_) => None,
    }
}

const START: &str = "20260131T100000Z";

const LATER: [(&str, u32, &str); 6] = [
    ("monthly", 0, START),
    ("monthly", 1, "20260228T100000Z"),
    ("monthly", 25, "20280229T100000Z"),
    ("monthly", u32::MAX, ""),
    ("1h", 48, "20260202T100000Z"),
    ("1h", u32::MAX, ""),
];

fn later_so_far() -> usize {
    for (number, (length, times, want)) in LATER.iter().enumerate() {
        let at = later(START, length, *times);
        if at != read_basic(want) || at.is_none() != want.is_empty() {
            return number;
        }
    }
    LATER.len()
}

#[test]
fn lengths_are_added_many_at_once(rt: HostRuntime) {
    assert_eq!(rt; later_so_far(), LATER.len());
}

// A moment, a zone, and its day and time of day there.
type Seen = (u64, &'static str, (i16, u8, u8), (u8, u8, u8));

// The clock goes from 01:59:59 to 03:00:00 at 07:00:00 UTC on 2026-03-08.
const SEEN: [Seen; 4] = [
    (0, NEW_YORK, (1969, 12, 31), (19, 0, 0)),
    (1_772_953_199, NEW_YORK, (2026, 3, 8), (1, 59, 59)),
    (1_772_953_200, NEW_YORK, (2026, 3, 8), (3, 0, 0)),
    (MOMENT_LIMIT - 1, "", (9998, 12, 31), (23, 59, 59)),
];

fn is_seen(row: &Seen) -> Result<bool, Fail> {
    let (at, zone, date, time) = *row;
    let zone = zone_of(zone)?;
    if at >= MOMENT_LIMIT {
        return Ok(false);
    }
    let Day { year, month, day } = day_of(at, &zone);
    let Clock {
        hour,
        minute,
        second,
    } = clock_of(at, &zone);
    Ok((year, month, day) == date && (hour, minute, second) == time)
}

fn seen_so_far() -> Result<usize, Fail> {
    for (number, row) in SEEN.iter().enumerate() {
        if !is_seen(row)? {
            return Ok(number);
        }
    }
    Ok(SEEN.len())
}

#[test]
fn days_and_clocks_are_those_of_the_zone(rt: HostRuntime) -> Result<(), Fail> {
    assert_eq!(rt; seen_so_far()?, SEEN.len());
    assert!(rt; Zone::read("?").err() == Some(ZoneError::Rule));
    Ok(())
}

const BASIC: [(&str, Option<u64>); 7] = [
    ("20260304T100000Z", Some(NOW)),
    ("99981231T235959Z", Some(MOMENT_LIMIT - 1)),
    ("20260304T100000z", None),
    ("2026M304T100000Z", None),
    ("20260230T100000Z", None),
    ("99990101T000000Z", None),
    ("19691231T235959Z", None),
];

fn basic_so_far() -> usize {
    for (number, (text, want)) in BASIC.iter().enumerate() {
        if read_basic(text) != *want {
            return number;
        }
    }
    BASIC.len()
}

#[test]
fn texts_in_utc_are_read_back(rt: HostRuntime) {
    let basic = print_basic(NOW) == *b"20260304T100000Z";
    assert!(rt; basic && print_extended(NOW) == *b"2026-03-04T10:00:00");
    assert_eq!(rt; basic_so_far(), BASIC.len());
}

const EXTENDED: [(&str, Option<i64>); 5] = [
    ("1969-12-31T23:59:59", Some(-1)),
    ("0000-01-01T00:00:00", Some(-62_167_219_200)),
    ("2026-02-29T00:00:00", None),
    ("2026-02-28 00:00:00", None),
    ("2026-02-28Thh:mm:ss", None),
];

fn extended_so_far() -> usize {
    for (number, (text, want)) in EXTENDED.iter().enumerate() {
        if read_extended(text.as_bytes()) != *want {
            return number;
        }
    }
    EXTENDED.len()
}

#[test]
fn extended_texts_begin_at_the_year_0(rt: HostRuntime) {
    assert_eq!(rt; extended_so_far(), EXTENDED.len());
}

#[test]
fn a_clock_ends_before_24_hours(rt: HostRuntime) {
    assert!(rt; read_clock(b"05:45") == Some(20_700));
    assert!(rt; read_clock(b"24:00").is_none() && read_clock(b"hh:mm").is_none());
}
