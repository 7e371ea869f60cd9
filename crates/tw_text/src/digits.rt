ghost use Rattle.std.specs.Prelude.{◌≡◌, ◌≤◌, ◌<◌, ◌^◌, length, take_while, All};
ghost use Rattle.std.specs.Char.{is_ascii_digit};
ghost use Rattle.std.specs.Int.{IsInRange};
ghost use Rattle.std.specs.List.{list_all};
ghost use Rattle.tw_text.specs.Natural.{number, is_natural, natural};

/// How many ASCII digits the text begins with.
pub fn count_digits(text: &[u8]) -> usize
    ensures value { result ≡ length (take_while is_ascii_digit text.now) }
    ensures bound { result ≤ length text.now }
{
    text.iter().take_while(|c| c.is_ascii_digit()).count()
}

/// Whether each byte is an ASCII digit.
pub fn are_digits(text: &[u8]) -> bool
    ensures { result ≡ list_all is_ascii_digit text.now }
{
    text.iter().all(|c| c.is_ascii_digit())
}

/// The number that ASCII digits are written as, leading zeros and all.
pub fn number(digits: &[u8]) -> u64
    requires digits { All (λ c. IsInRange 48 57 c) digits.now }
    requires few { length digits.now ≤ 19 }
    ensures value { result ≡ number digits.now }
    ensures bound { result < 10 ^ length digits.now }
{
    let mut n = 0;
    for c in digits {
        n = n * 10 + u64::from(*c - b'0');
    }
    n
}

/// The number of a text of decimal digits without a sign or a leading zero, if it is below 2^64.
pub fn read_u64(text: &str) -> Option<u64>
    ensures { result ≡ natural text.now }
{
    if !is_natural(text.as_bytes()) {
        return None;
    }
    text.parse::<u64>().ok()
}

fn is_natural(text: &[u8]) -> bool
    ensures { result ≡ is_natural text.now }
{
    if text.is_empty() || !are_digits(text) {
        return false;
    }
    text.len() == 1 || text[0] != b'0'
}
