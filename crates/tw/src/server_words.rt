// The words of `tw server`.
ghost use Rattle.std.specs.Prelude.{◌≡◌, ◌≤◌, map, IsSome, string_bytes, vec_len};
ghost use Rattle.tw_text.specs.Natural.{natural};
ghost use Rattle.tw.specs.Served.{within, service_of};

use tw_text::read_u64;

/// What a server is asked for, beside its file.
#[derive(Clone, Copy)]
pub struct Service {
    /// The port of 127.0.0.1 that it listens on.
    pub port: u16,
    /// How many connections it takes before it ends.
    pub count: u64,
}

/// Reads `<port> <file> [<count>]`: a port from 1 to 65,535, and from 1 to 999,999,999 connections. Without a count it is
/// the largest one.
pub fn read_service(words: &Vec<String>) -> Option<Service>
    ensures service { result ≡ service_of (map string_bytes words.now.items) }
    ensures file { IsSome result → 2 ≤ vec_len words.now }
{
    let count = match words.len() {
        2 => u64::MAX,
        3 => number_within(words[2].as_str(), 1, 999_999_999)?,
        _ => return None,
    };
    let port = number_within(words[0].as_str(), 1, 65_535)?;
    Some(Service {
        port: port as u16,
        count,
    })
}

// The number of a word, if it is in this range.
fn number_within(word: &str, low: u64, high: u64) -> Option<u64>
    ensures { result ≡ within low high (natural word.now) }
{
    let number = read_u64(word)?;
    if low <= number && number <= high {
        Some(number)
    } else {
        None
    }
}
