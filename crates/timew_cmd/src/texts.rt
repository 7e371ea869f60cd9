// Texts of one line.
ghost use Rattle.std.specs.Prelude.{◌∷◌, ◌++◌, ◌≡◌, ◌/◌, ◌%◌, ◌<◌, IfOk, string_bytes, OnOk, IsAscii};
ghost use Rattle.tw_time.specs.Civil.{limit};
ghost use Rattle.timew_cmd.specs.Texts.{tags_text, two_digits, clock_text, shown_text, length_text};

use std::alloc::Global;
use std::str;
use timew_interval::Texts;
use tw_time::{Clock, Zone, clock_of, print_day};
use tw_world::Memory;

fn push_tag(text: &mut String, tag: &str) -> Result<(), Memory>
    ensures { OnOk result (string_bytes text.new ≡ string_bytes text.old ++ 32 ∷ tag.now) }
{
    text.push(' ')?;
    text.push_str(tag)?;
    Ok(())
}

/// Tags, with a space between two.
pub fn tags_text(alloc: Global, tags: &Texts) -> Result<String, Memory>
    ensures { IfOk result (λ text. string_bytes text ≡ tags_text tags.now) }
{
    if tags.len() == 0 {
        return Ok(String::new(alloc));
    }
    let mut text = String::from_str(alloc, tags.at(0))?;
    for n in 1..tags.len() {
        push_tag(&mut text, tags.at(n))?;
    }
    Ok(text)
}

fn clock_bytes(clock: Clock) -> [u8; 8]
    ensures text { result ≡ clock_text clock }
    ensures ascii { IsAscii result }
{
    [
        b'0' + clock.hour / 10 % 10,
        b'0' + clock.hour % 10,
        b':',
        b'0' + clock.minute / 10 % 10,
        b'0' + clock.minute % 10,
        b':',
        b'0' + clock.second / 10 % 10,
        b'0' + clock.second % 10,
    ]
}

/// The day and the time that a zone shows at a second, as `2026-03-04 10:00:00`.
pub fn shown_text(alloc: Global, at: u64, zone: &Zone) -> Result<String, Memory>
    requires { at < limit }
    ensures { IfOk result (λ text. string_bytes text ≡ shown_text zone.now at) }
{
    let day = print_day(at, zone);
    let clock = clock_bytes(clock_of(at, zone));
    let mut text = String::with_capacity(alloc, 19)?;
    text.push_str(str::from_utf8(&day).unwrap())?;
    text.push(' ')?;
    text.push_str(str::from_utf8(&clock).unwrap())?;
    Ok(text)
}

fn minutes_and_seconds(seconds: u64) -> [u8; 6]
    ensures text { result ≡ 58 ∷ two_digits (seconds / 60 % 60) ++ 58 ∷ two_digits (seconds % 60) }
    ensures ascii { IsAscii result }
{
    let minute = (seconds / 60 % 60) as u8;
    let second = (seconds % 60) as u8;
    [
        b':',
        b'0' + minute / 10 % 10,
        b'0' + minute % 10,
        b':',
        b'0' + second / 10 % 10,
        b'0' + second % 10,
    ]
}

/// So many seconds, as `1:23:45`.
pub fn length_text(alloc: Global, seconds: u64) -> Result<String, Memory>
    ensures { IfOk result (λ text. string_bytes text ≡ length_text seconds) }
{
    let rest = minutes_and_seconds(seconds);
    let mut text = format!(in alloc; "{}", seconds / 3_600)?;
    text.push_str(str::from_utf8(&rest).unwrap())?;
    Ok(text)
}
